// Maps: a root, or none.
ghost use Rattle.std.specs.Prelude.{◌≡◌, ℕ, ◌+◌, ◌<◌, ◌≤◌, IfOk, IfErr, IfSome, IsTrue, ◌↔◌, cond, eqb};
ghost use Rattle.hptmap.specs.Trie.{Adds, IsTrie, MapIn, RemovesIn, map_of, map_out, map_tree};
ghost use Rattle.store_api.specs.Tree.{Nil, depth};
ghost use Rattle.store_api.specs.Bag.{GainsOption, Stops, Trades, both, none, one};

use crate::delete::remove_in;
use crate::insert::add_in;
use crate::lookup::find_in;
use crate::nodes::make_leaf;
use store_api::{Got, Store};

/// A finite map from keys to payload trees of depth at most 95, with the hold of its trie as its root,
/// or none where it is empty.
#[derive(Debug, Drop)]
pub struct Map<T> {
    pub root: Option<T>,
}

/// The map without keys.
pub fn empty<T>() -> Map<T>
    ensures { result.root ≡ None }
{
    Map { root: None }
}

/// Whether two maps are equal: they have the same payload at each key. It looks at no node of its own.
pub fn same<S: Store>(s: &S, a: &Map<S::Hold>, b: &Map<S::Hold>) -> bool
    requires held { IfSome a.now.root (λ h. 0 < (S.bag s.now).count (S.name h)) }
    requires held_second { IfSome b.now.root (λ h. 0 < (S.bag s.now).count (S.name h)) }
    requires map { MapIn S.name (S.bag s.now) a.now.root }
    requires map_second { MapIn S.name (S.bag s.now) b.now.root }
    ensures { IsTrue result ↔ ((x : ℕ) → map_of (map_tree S.name (S.bag s.now) a.now.root) x ≡ map_of (map_tree S.name (S.bag s.now) b.now.root) x) }
{
    match &a.root {
        None => match &b.root {
            None => true,
            Some(_second) => false,
        },
        Some(first) => match &b.root {
            None => false,
            Some(second) => s.same(first, second),
        },
    }
}

/// The payload of a key, as a new hold; none exactly where the key isn't in the map.
pub fn find<S: Store>(s: &mut S, m: &Map<S::Hold>, key: u32) -> Got<Option<S::Hold>>
    requires held { IfSome m.now.root (λ h. 0 < (S.bag s.old).count (S.name h)) }
    requires map { MapIn S.name (S.bag s.old) m.now.root }
    ensures ok { IfOk result (λ o. GainsOption S.name (S.bag s.old) (S.bag s.new) (map_of (map_tree S.name (S.bag s.old) m.now.root) key) o) }
    ensures err { IfErr result (Stops (S.bag s.old) (S.bag s.new) none) }
{
    match &m.root {
        None => Ok(None),
        Some(root) => find_in(s, root, key),
    }
}

/// The trie with the pair, in place of both.
fn add_root<S: Store>(s: &mut S, root: S::Hold, key: u32, payload: S::Hold) -> Got<S::Hold>
    requires owned { (x : ℕ) → both (one (S.name payload)) (one (S.name root)) x ≤ (S.bag s.old).count x }
    requires map { IsTrie ((S.bag s.old).tree (S.name root)) }
    requires depth { depth ((S.bag s.old).tree (S.name payload)) ≤ 95 }
    ensures ok { IfOk result (λ r. Trades (S.bag s.old) (S.bag s.new) (both (one (S.name payload)) (one (S.name root))) (one (S.name r))) }
    ensures adds { IfOk result (λ r. Adds ((S.bag s.old).tree (S.name root)) key ((S.bag s.old).tree (S.name payload)) ((S.bag s.new).tree (S.name r))) }
    ensures err { IfErr result (Stops (S.bag s.old) (S.bag s.new) (both (one (S.name payload)) (one (S.name root)))) }
{
    let made = add_in(s, &root, key, &payload);
    s.give_back(root);
    s.give_back(payload);
    made
}

/// The trie of the pair alone, in place of the payload.
#[tactic(auto, using(store_api::specs::Bag::one_self, crate::proofs::Changes::added_first))]
fn add_first<S: Store>(s: &mut S, key: u32, payload: S::Hold) -> Got<S::Hold>
    requires owned { (x : ℕ) → one (S.name payload) x ≤ (S.bag s.old).count x }
    requires depth { depth ((S.bag s.old).tree (S.name payload)) ≤ 95 }
    ensures ok { IfOk result (λ r. Trades (S.bag s.old) (S.bag s.new) (one (S.name payload)) (one (S.name r))) }
    ensures adds { IfOk result (λ r. Adds Nil key ((S.bag s.old).tree (S.name payload)) ((S.bag s.new).tree (S.name r))) }
    ensures err { IfErr result (Stops (S.bag s.old) (S.bag s.new) (one (S.name payload))) }
{
    let made = make_leaf(s, key, &payload);
    s.give_back(payload);
    made
}

/// The map with the pair, in place of the map and the payload.
pub fn add<S: Store>(s: &mut S, m: Map<S::Hold>, key: u32, payload: S::Hold) -> Got<Map<S::Hold>>
    requires owned { (x : ℕ) → both (one (S.name payload)) (map_out S.name m.root) x ≤ (S.bag s.old).count x }
    requires map { MapIn S.name (S.bag s.old) m.root }
    requires depth { depth ((S.bag s.old).tree (S.name payload)) ≤ 95 }
    ensures ok { IfOk result (λ r. Trades (S.bag s.old) (S.bag s.new) (both (one (S.name payload)) (map_out S.name m.root)) (map_out S.name r.root)) }
    ensures map { IfOk result (λ r. MapIn S.name (S.bag s.new) r.root) }
    ensures pairs { IfOk result (λ r. (x : ℕ) → map_of (map_tree S.name (S.bag s.new) r.root) x ≡ cond (eqb x key) (Some ((S.bag s.old).tree (S.name payload))) (map_of (map_tree S.name (S.bag s.old) m.root) x)) }
    ensures err { IfErr result (Stops (S.bag s.old) (S.bag s.new) (both (one (S.name payload)) (map_out S.name m.root))) }
{
    match m.root {
        None => {
            let made = add_first(s, key, payload)?;
            Ok(Map { root: Some(made) })
        }
        Some(root) => {
            let made = add_root(s, root, key, payload)?;
            Ok(Map { root: Some(made) })
        }
    }
}

/// What is left of the trie without the key, in place of it.
fn remove_root<S: Store>(s: &mut S, root: S::Hold, key: u32) -> Got<Option<S::Hold>>
    requires owned { (x : ℕ) → one (S.name root) x ≤ (S.bag s.old).count x }
    requires map { IsTrie ((S.bag s.old).tree (S.name root)) }
    ensures ok { IfOk result (λ o. Trades (S.bag s.old) (S.bag s.new) (one (S.name root)) (map_out S.name o)) }
    ensures removes { IfOk result (λ o. RemovesIn S.name (S.bag s.new) ((S.bag s.old).tree (S.name root)) key o) }
    ensures err { IfErr result (Stops (S.bag s.old) (S.bag s.new) (one (S.name root))) }
{
    let left = remove_in(s, &root, key);
    s.give_back(root);
    left
}

/// The map without the key, in place of the map.
pub fn remove<S: Store>(s: &mut S, m: Map<S::Hold>, key: u32) -> Got<Map<S::Hold>>
    requires owned { (x : ℕ) → map_out S.name m.root x ≤ (S.bag s.old).count x }
    requires map { MapIn S.name (S.bag s.old) m.root }
    ensures ok { IfOk result (λ r. Trades (S.bag s.old) (S.bag s.new) (map_out S.name m.root) (map_out S.name r.root)) }
    ensures map { IfOk result (λ r. MapIn S.name (S.bag s.new) r.root) }
    ensures pairs { IfOk result (λ r. (x : ℕ) → map_of (map_tree S.name (S.bag s.new) r.root) x ≡ cond (eqb x key) None (map_of (map_tree S.name (S.bag s.old) m.root) x)) }
    ensures err { IfErr result (Stops (S.bag s.old) (S.bag s.new) (map_out S.name m.root)) }
{
    match m.root {
        None => Ok(Map { root: None }),
        Some(root) => {
            let left = remove_root(s, root, key)?;
            Ok(Map { root: left })
        }
    }
}
