// All payloads replaced.
ghost use Rattle.std.specs.Prelude.{◌≡◌, ℕ, ◌+◌, ◌<◌, ◌≤◌, IfOk, IfErr, IsTrue, Bool};
ghost use Rattle.hptmap.specs.Each.{Replaces, TakesPairs, replaced_at};
ghost use Rattle.hptmap.specs.Trie.{IsTrie, MapIn, is_leaf, map_of, map_out, map_tree};
ghost use Rattle.store_api.specs.Tree.{depth, kid, shape_is};
ghost use Rattle.store_api.specs.Bag.{Stops, Trades, none, one};

use crate::map::Map;
use crate::nodes::LEAF;
use crate::rule::LeafMap;
use std::alloc::Global;
use store_api::{Got, Shape, Store, intern_one, intern_two, pair};

/// A leaf with its payload replaced.
#[tactic(auto, using(store_api::specs::Bag::one_self, crate::proofs::Replacing::leaf_facts))]
fn map_leaf<S: Store, M: LeafMap<S>>(
    alloc: Global,
    s: &mut S,
    f: &mut M,
    at: &S::Hold,
    node: &Shape,
) -> Got<S::Hold>
    requires held { 0 < (S.bag s.old).count (S.name at.now) }
    requires trie { IsTrie ((S.bag s.old).tree (S.name at.now)) }
    requires node { shape_is ((S.bag s.old).tree (S.name at.now)) node.now }
    requires leaf { is_leaf node.now ≡ Bool.true }
    requires takes { TakesPairs (M.meaning f.old).takes ((S.bag s.old).tree (S.name at.now)) }
    ensures ok { IfOk result (λ r. Trades (S.bag s.old) (S.bag s.new) none (one (S.name r))) }
    ensures replaces { IfOk result (λ r. Replaces (M.meaning f.old).replace ((S.bag s.old).tree (S.name at.now)) ((S.bag s.new).tree (S.name r))) }
    ensures err { IfErr result (Stops (S.bag s.old) (S.bag s.new) none) }
    ensures map { M.meaning f.new ≡ M.meaning f.old }
{
    let payload = s.kid(at, 0)?;
    let made = f.replace(alloc, s, node.body[0] as u32, payload)?;
    intern_one(s, node, made)
}

/// A side, 0 or 1, of a branch with all payloads replaced.
#[cycle(each)]
#[tactic(auto, using(store_api::specs::Bag::one_self, crate::proofs::Replacing::side_facts))]
fn map_side<S: Store, M: LeafMap<S>>(
    alloc: Global,
    s: &mut S,
    f: &mut M,
    at: &S::Hold,
    node: &Shape,
    side: u8,
) -> Got<S::Hold>
    requires held { 0 < (S.bag s.old).count (S.name at.now) }
    requires trie { IsTrie ((S.bag s.old).tree (S.name at.now)) }
    requires node { shape_is ((S.bag s.old).tree (S.name at.now)) node.now }
    requires branch { is_leaf node.now ≡ Bool.false }
    requires side { side < 2 }
    requires takes { TakesPairs (M.meaning f.old).takes ((S.bag s.old).tree (S.name at.now)) }
    ensures ok { IfOk result (λ r. Trades (S.bag s.old) (S.bag s.new) none (one (S.name r))) }
    ensures replaces { IfOk result (λ r. Replaces (M.meaning f.old).replace (kid ((S.bag s.old).tree (S.name at.now)) side) ((S.bag s.new).tree (S.name r))) }
    ensures err { IfErr result (Stops (S.bag s.old) (S.bag s.new) none) }
    ensures map { M.meaning f.new ≡ M.meaning f.old }
{
    let below = s.kid(at, side)?;
    let made = map_in(alloc, s, f, &below);
    s.give_back(below);
    made
}

/// The trie with all payloads replaced.
#[cycle(each)]
#[tactic(auto, using(store_api::specs::Bag::one_self, crate::proofs::Replacing::map_facts))]
fn map_in<S: Store, M: LeafMap<S>>(
    alloc: Global,
    s: &mut S,
    f: &mut M,
    at: &S::Hold,
) -> Got<S::Hold>
    requires held { 0 < (S.bag s.old).count (S.name at.now) }
    requires trie { IsTrie ((S.bag s.old).tree (S.name at.now)) }
    requires takes { TakesPairs (M.meaning f.old).takes ((S.bag s.old).tree (S.name at.now)) }
    ensures ok { IfOk result (λ r. Trades (S.bag s.old) (S.bag s.new) none (one (S.name r))) }
    ensures replaces { IfOk result (λ r. Replaces (M.meaning f.old).replace ((S.bag s.old).tree (S.name at.now)) ((S.bag s.new).tree (S.name r))) }
    ensures err { IfErr result (Stops (S.bag s.old) (S.bag s.new) none) }
    ensures map { M.meaning f.new ≡ M.meaning f.old }
{
    let node = s.look(at);
    if node.head == LEAF {
        return map_leaf(alloc, s, f, at, &node);
    }
    let left = map_side(alloc, s, f, at, &node, 0)?;
    let right = map_side(alloc, s, f, at, &node, 1);
    let (left, right) = pair(s, left, right)?;
    intern_two(s, &node, left, right)
}

/// The trie with all payloads replaced, in place of it.
fn map_root<S: Store, M: LeafMap<S>>(
    alloc: Global,
    s: &mut S,
    f: &mut M,
    root: S::Hold,
) -> Got<S::Hold>
    requires owned { (x : ℕ) → one (S.name root) x ≤ (S.bag s.old).count x }
    requires map { IsTrie ((S.bag s.old).tree (S.name root)) }
    requires takes { TakesPairs (M.meaning f.old).takes ((S.bag s.old).tree (S.name root)) }
    ensures ok { IfOk result (λ r. Trades (S.bag s.old) (S.bag s.new) (one (S.name root)) (one (S.name r))) }
    ensures replaces { IfOk result (λ r. Replaces (M.meaning f.old).replace ((S.bag s.old).tree (S.name root)) ((S.bag s.new).tree (S.name r))) }
    ensures err { IfErr result (Stops (S.bag s.old) (S.bag s.new) (one (S.name root))) }
    ensures map { M.meaning f.new ≡ M.meaning f.old }
{
    let made = map_in(alloc, s, f, &root);
    s.give_back(root);
    made
}

/// The map with each payload replaced, in place of the map.
pub fn map_leaves<S: Store, M: LeafMap<S>>(
    alloc: Global,
    s: &mut S,
    m: Map<S::Hold>,
    f: &mut M,
) -> Got<Map<S::Hold>>
    requires owned { (x : ℕ) → map_out S.name m.root x ≤ (S.bag s.old).count x }
    requires map { MapIn S.name (S.bag s.old) m.root }
    requires takes { TakesPairs (M.meaning f.old).takes (map_tree S.name (S.bag s.old) m.root) }
    ensures ok { IfOk result (λ r. Trades (S.bag s.old) (S.bag s.new) (map_out S.name m.root) (map_out S.name r.root)) }
    ensures map { IfOk result (λ r. MapIn S.name (S.bag s.new) r.root) }
    ensures pairs { IfOk result (λ r. (x : ℕ) → map_of (map_tree S.name (S.bag s.new) r.root) x ≡ replaced_at ((M.meaning f.old).replace x) (map_of (map_tree S.name (S.bag s.old) m.root) x)) }
    ensures err { IfErr result (Stops (S.bag s.old) (S.bag s.new) (map_out S.name m.root)) }
    ensures rule { M.meaning f.new ≡ M.meaning f.old }
{
    match m.root {
        None => Ok(Map { root: None }),
        Some(root) => {
            let made = map_root(alloc, s, f, root)?;
            Ok(Map { root: Some(made) })
        }
    }
}
