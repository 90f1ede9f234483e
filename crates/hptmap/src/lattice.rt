// Join, widening and inclusion of maps.
ghost use Rattle.std.specs.Prelude.{◌≡◌, ℕ, ◌+◌, ◌<◌, ◌≤◌, IfOk, IfErr, IfSome, IsTrue, ◌↔◌};
ghost use Rattle.hptmap.specs.Merges.{Includes, TakesAll, merged, takes_in, united};
ghost use Rattle.hptmap.specs.Trie.{MapIn, map_of, map_out, map_tree};
ghost use Rattle.store_api.specs.Bag.{Same, Stops, Trades, none};

use crate::inclusion::included_in;
use crate::map::Map;
use crate::merge::merge_in;
use crate::rule::LeafRule;
use crate::way::Way;
use std::alloc::Global;
use store_api::{Got, Store};

/// The union of two maps, with what the rule makes of the payloads of common keys.
#[tactic(auto, using(store_api::specs::Bag::one_self, crate::proofs::Maps::merge_facts))]
fn merge<S: Store, L: LeafRule<S>>(
    alloc: Global,
    s: &mut S,
    l: &mut L,
    way: Way,
    a: &Map<S::Hold>,
    b: &Map<S::Hold>,
) -> Got<Map<S::Hold>>
    requires held { IfSome a.now.root (λ h. 0 < (S.bag s.old).count (S.name h)) }
    requires held_second { IfSome b.now.root (λ h. 0 < (S.bag s.old).count (S.name h)) }
    requires map { MapIn S.name (S.bag s.old) a.now.root }
    requires map_second { MapIn S.name (S.bag s.old) b.now.root }
    requires takes { TakesAll (takes_in (L.meaning l.old) (S.bag s.old).about way) (map_tree S.name (S.bag s.old) a.now.root) (map_tree S.name (S.bag s.old) b.now.root) }
    ensures ok { IfOk result (λ r. Trades (S.bag s.old) (S.bag s.new) none (map_out S.name r.root)) }
    ensures map { IfOk result (λ r. MapIn S.name (S.bag s.new) r.root) }
    ensures pairs { IfOk result (λ r. (x : ℕ) → map_of (map_tree S.name (S.bag s.new) r.root) x ≡ united (merged (L.meaning l.old) way) (map_of (map_tree S.name (S.bag s.old) a.now.root) x) (map_of (map_tree S.name (S.bag s.old) b.now.root) x)) }
    ensures err { IfErr result (Stops (S.bag s.old) (S.bag s.new) none) }
    ensures rule { L.meaning l.new ≡ L.meaning l.old }
{
    match &a.root {
        None => match &b.root {
            None => Ok(Map { root: None }),
            Some(second) => {
                let made = s.again(second)?;
                Ok(Map { root: Some(made) })
            }
        },
        Some(first) => match &b.root {
            None => {
                let made = s.again(first)?;
                Ok(Map { root: Some(made) })
            }
            Some(second) => {
                let made = merge_in(alloc, s, l, way, first, second)?;
                Ok(Map { root: Some(made) })
            }
        },
    }
}

/// The join of two maps: the payloads of common keys are joined, and a key of one side alone is kept
/// with its payload. What the maps share is skipped without a look.
pub fn join<S: Store, L: LeafRule<S>>(
    alloc: Global,
    s: &mut S,
    l: &mut L,
    a: &Map<S::Hold>,
    b: &Map<S::Hold>,
) -> Got<Map<S::Hold>>
    requires held { IfSome a.now.root (λ h. 0 < (S.bag s.old).count (S.name h)) }
    requires held_second { IfSome b.now.root (λ h. 0 < (S.bag s.old).count (S.name h)) }
    requires map { MapIn S.name (S.bag s.old) a.now.root }
    requires map_second { MapIn S.name (S.bag s.old) b.now.root }
    requires takes { TakesAll ((L.meaning l.old).takes (S.bag s.old).about) (map_tree S.name (S.bag s.old) a.now.root) (map_tree S.name (S.bag s.old) b.now.root) }
    ensures ok { IfOk result (λ r. Trades (S.bag s.old) (S.bag s.new) none (map_out S.name r.root)) }
    ensures map { IfOk result (λ r. MapIn S.name (S.bag s.new) r.root) }
    ensures pairs { IfOk result (λ r. (x : ℕ) → map_of (map_tree S.name (S.bag s.new) r.root) x ≡ united (L.meaning l.old).join (map_of (map_tree S.name (S.bag s.old) a.now.root) x) (map_of (map_tree S.name (S.bag s.old) b.now.root) x)) }
    ensures err { IfErr result (Stops (S.bag s.old) (S.bag s.new) none) }
    ensures rule { L.meaning l.new ≡ L.meaning l.old }
{
    merge(alloc, s, l, Way::Join, a, b)
}

/// The widening of the first map by the second: as `join`, with the rule's widening.
pub fn widen<S: Store, L: LeafRule<S>>(
    alloc: Global,
    s: &mut S,
    l: &mut L,
    a: &Map<S::Hold>,
    b: &Map<S::Hold>,
) -> Got<Map<S::Hold>>
    requires held { IfSome a.now.root (λ h. 0 < (S.bag s.old).count (S.name h)) }
    requires held_second { IfSome b.now.root (λ h. 0 < (S.bag s.old).count (S.name h)) }
    requires map { MapIn S.name (S.bag s.old) a.now.root }
    requires map_second { MapIn S.name (S.bag s.old) b.now.root }
    requires takes { TakesAll ((L.meaning l.old).takes (S.bag s.old).about) (map_tree S.name (S.bag s.old) a.now.root) (map_tree S.name (S.bag s.old) b.now.root) }
    ensures ok { IfOk result (λ r. Trades (S.bag s.old) (S.bag s.new) none (map_out S.name r.root)) }
    ensures map { IfOk result (λ r. MapIn S.name (S.bag s.new) r.root) }
    ensures pairs { IfOk result (λ r. (x : ℕ) → map_of (map_tree S.name (S.bag s.new) r.root) x ≡ united (L.meaning l.old).widen (map_of (map_tree S.name (S.bag s.old) a.now.root) x) (map_of (map_tree S.name (S.bag s.old) b.now.root) x)) }
    ensures err { IfErr result (Stops (S.bag s.old) (S.bag s.new) none) }
    ensures rule { L.meaning l.new ≡ L.meaning l.old }
{
    merge(alloc, s, l, Way::Widen, a, b)
}

/// Whether each key of the first map is in the second, with included payload. What the maps share is
/// skipped without a look.
#[tactic(auto, using(store_api::specs::Bag::one_self, crate::proofs::Maps::included_facts))]
pub fn included<S: Store, L: LeafRule<S>>(
    alloc: Global,
    s: &mut S,
    l: &mut L,
    a: &Map<S::Hold>,
    b: &Map<S::Hold>,
) -> Got<bool>
    requires held { IfSome a.now.root (λ h. 0 < (S.bag s.old).count (S.name h)) }
    requires held_second { IfSome b.now.root (λ h. 0 < (S.bag s.old).count (S.name h)) }
    requires map { MapIn S.name (S.bag s.old) a.now.root }
    requires map_second { MapIn S.name (S.bag s.old) b.now.root }
    requires takes { TakesAll ((L.meaning l.old).takes (S.bag s.old).about) (map_tree S.name (S.bag s.old) a.now.root) (map_tree S.name (S.bag s.old) b.now.root) }
    ensures ok { IfOk result (λ _. Same (S.bag s.old) (S.bag s.new)) }
    ensures told { IfOk result (λ r. IsTrue r ↔ Includes (L.meaning l.old).included (map_tree S.name (S.bag s.old) a.now.root) (map_tree S.name (S.bag s.old) b.now.root)) }
    ensures err { IfErr result (Stops (S.bag s.old) (S.bag s.new) none) }
    ensures rule { L.meaning l.new ≡ L.meaning l.old }
{
    match &a.root {
        None => Ok(true),
        Some(first) => match &b.root {
            None => Ok(false),
            Some(second) => included_in(alloc, s, l, first, second),
        },
    }
}
