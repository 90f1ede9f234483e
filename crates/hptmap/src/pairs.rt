// The pairs of a map, by rising key.
ghost use Rattle.std.specs.Prelude.{◌≡◌, ℕ, ◌+◌, ◌<◌, ◌≤◌, IfOk, IfErr, IfSome, List, [], ◌∷◌, ◌++◌, eqb};
ghost use Rattle.std.specs.List.Sorted.{IsStrictlyIncreasing};
ghost use Rattle.std.specs.Map.{keys_of, lookup};
ghost use Rattle.hptmap.specs.Pairs.{pair_holds, pair_trees};
ghost use Rattle.hptmap.specs.Trie.{IsTrie, MapIn, entries, map_of, map_tree};
ghost use Rattle.store_api.specs.Tree.{depth, kid, shape_is};
ghost use Rattle.store_api.specs.declared.Shape.{Shape};
ghost use Rattle.store_api.specs.declared.StoreStop.TheVariants.{Memory};
ghost use Rattle.store_api.specs.Bag.{Stops, Trades, none, one};

use crate::map::Map;
use crate::nodes::LEAF;
use std::alloc::Global;
use store_api::{Got, Store, StoreStop};

/// Gives the holds of all pairs back.
#[tactic(auto, using(store_api::specs::Bag::one_self, crate::specs::Pairs::pair_facts))]
fn give_pairs<S: Store>(s: &mut S, mut pairs: Vec<(u32, S::Hold)>)
    requires { (x : ℕ) → pair_holds S.name pairs.items x ≤ (S.bag s.old).count x }
    ensures { Trades (S.bag s.old) (S.bag s.new) (pair_holds S.name pairs.items) none }
{
    while let Some(pair) = pairs.pop() {
        s.give_back(pair.1);
    }
}

/// The pairs with one more, or want of memory with all given back.
#[tactic(auto, using(store_api::specs::Bag::one_self, crate::specs::Pairs::pair_facts))]
fn push_pair<S: Store>(
    s: &mut S,
    mut pairs: Vec<(u32, S::Hold)>,
    key: u32,
    payload: S::Hold,
) -> Got<Vec<(u32, S::Hold)>>
    requires { (x : ℕ) → pair_holds S.name pairs.items x + one (S.name payload) x ≤ (S.bag s.old).count x }
    ensures ok { IfOk result (λ v. v.items ≡ pairs.items ++ ((key, payload) ∷ [])) }
    ensures same { IfOk result (λ v. S.bag s.new ≡ S.bag s.old) }
    ensures err { IfErr result (λ e. (e ≡ Memory) × Trades (S.bag s.old) (S.bag s.new) (λ x. pair_holds S.name pairs.items x + one (S.name payload) x) none) }
{
    match pairs.push((key, payload)) {
        Ok(()) => Ok(pairs),
        Err(failed) => {
            s.give_back(failed.value.1);
            give_pairs(s, pairs);
            Err(StoreStop::Memory)
        }
    }
}

/// The pairs, and behind them those of a side, 0 or 1, of a branch.
#[cycle(walk)]
#[tactic(auto, using(store_api::specs::Bag::one_self, crate::proofs::Walking::side_facts))]
fn walk_side<S: Store>(
    s: &mut S,
    at: &S::Hold,
    side: u8,
    pairs: Vec<(u32, S::Hold)>,
) -> Got<Vec<(u32, S::Hold)>>
    requires owned { (x : ℕ) → pair_holds S.name pairs.items x ≤ (S.bag s.old).count x }
    requires held { pair_holds S.name pairs.items (S.name at.now) < (S.bag s.old).count (S.name at.now) }
    requires trie { IsTrie (kid ((S.bag s.old).tree (S.name at.now)) side) }
    requires falls { depth (kid ((S.bag s.old).tree (S.name at.now)) side) < depth ((S.bag s.old).tree (S.name at.now)) }
    requires kids { (z : Shape) → shape_is ((S.bag s.old).tree (S.name at.now)) z → side < z.kids }
    ensures ok { IfOk result (λ v. Trades (S.bag s.old) (S.bag s.new) (pair_holds S.name pairs.items) (pair_holds S.name v.items)) }
    ensures pairs { IfOk result (λ v. pair_trees S.name (S.bag s.new) v.items ≡ pair_trees S.name (S.bag s.old) pairs.items ++ entries (kid ((S.bag s.old).tree (S.name at.now)) side)) }
    ensures err { IfErr result (Stops (S.bag s.old) (S.bag s.new) (pair_holds S.name pairs.items)) }
{
    match s.kid(at, side) {
        Ok(below) => {
            let walked = walk_in(s, &below, pairs);
            s.give_back(below);
            walked
        }
        Err(stop) => {
            give_pairs(s, pairs);
            Err(stop)
        }
    }
}

/// The pairs, and behind them those of a trie.
#[cycle(walk)]
#[tactic(auto, using(store_api::specs::Bag::one_self, crate::proofs::Walking::walk_facts))]
fn walk_in<S: Store>(
    s: &mut S,
    at: &S::Hold,
    pairs: Vec<(u32, S::Hold)>,
) -> Got<Vec<(u32, S::Hold)>>
    requires owned { (x : ℕ) → pair_holds S.name pairs.items x ≤ (S.bag s.old).count x }
    requires held { pair_holds S.name pairs.items (S.name at.now) < (S.bag s.old).count (S.name at.now) }
    requires trie { IsTrie ((S.bag s.old).tree (S.name at.now)) }
    ensures ok { IfOk result (λ v. Trades (S.bag s.old) (S.bag s.new) (pair_holds S.name pairs.items) (pair_holds S.name v.items)) }
    ensures pairs { IfOk result (λ v. pair_trees S.name (S.bag s.new) v.items ≡ pair_trees S.name (S.bag s.old) pairs.items ++ entries ((S.bag s.old).tree (S.name at.now))) }
    ensures err { IfErr result (Stops (S.bag s.old) (S.bag s.new) (pair_holds S.name pairs.items)) }
{
    let node = s.look(at);
    if node.head == LEAF {
        return match s.kid(at, 0) {
            Ok(payload) => push_pair(s, pairs, node.body[0] as u32, payload),
            Err(stop) => {
                give_pairs(s, pairs);
                Err(stop)
            }
        };
    }
    let pairs = walk_side(s, at, 0, pairs)?;
    walk_side(s, at, 1, pairs)
}

/// The pairs of a map by rising key, with a new hold of each payload.
#[tactic(auto, using(store_api::specs::Bag::one_self, crate::proofs::Walking::top_facts))]
pub fn walk<S: Store>(alloc: Global, s: &mut S, m: &Map<S::Hold>) -> Got<Vec<(u32, S::Hold)>>
    requires held { IfSome m.now.root (λ h. 0 < (S.bag s.old).count (S.name h)) }
    requires map { MapIn S.name (S.bag s.old) m.now.root }
    ensures ok { IfOk result (λ v. Trades (S.bag s.old) (S.bag s.new) none (pair_holds S.name v.items)) }
    ensures pairs { IfOk result (λ v. pair_trees S.name (S.bag s.new) v.items ≡ entries (map_tree S.name (S.bag s.old) m.now.root)) }
    ensures rising { IfOk result (λ v. IsStrictlyIncreasing (keys_of v.items)) }
    ensures map { IfOk result (λ v. (x : ℕ) → lookup (λ k. eqb k x) (pair_trees S.name (S.bag s.new) v.items) ≡ map_of (map_tree S.name (S.bag s.old) m.now.root) x) }
    ensures err { IfErr result (Stops (S.bag s.old) (S.bag s.new) none) }
{
    let pairs = Vec::new(alloc);
    match &m.root {
        None => Ok(pairs),
        Some(root) => walk_in(s, root, pairs),
    }
}
