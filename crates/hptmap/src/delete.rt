// Removal.
ghost use Rattle.std.specs.Prelude.{◌≡◌, ◌≢◌, ℕ, ◌+◌, ◌/◌, ◌^◌, ◌<◌, ◌≤◌, IfOk, IfErr};
ghost use Rattle.hptmap.specs.Trie.{IsTrie, RemovesIn, left_shrunk, map_out, right_shrunk};
ghost use Rattle.store_api.specs.Tree.{depth, kid, shape_is};
ghost use Rattle.store_api.specs.Bag.{Stops, Trades, none, one};

use crate::insert::{with_left, with_right};
use crate::nodes::{LEAF, has_prefix};
use store_api::{Got, Shape, Store};

/// The branch with what is left of its left side, or its right side alone.
fn shrink_left<S: Store>(
    s: &mut S,
    at: &S::Hold,
    node: &Shape,
    left: Option<S::Hold>,
) -> Got<S::Hold>
    requires owned { (x : ℕ) → map_out S.name left x ≤ (S.bag s.old).count x }
    requires held { map_out S.name left (S.name at.now) < (S.bag s.old).count (S.name at.now) }
    requires node { shape_is ((S.bag s.old).tree (S.name at.now)) node.now }
    requires kids { node.now.kids ≡ 2 }
    requires depth { depth (left_shrunk S.name (S.bag s.old) node.now ((S.bag s.old).tree (S.name at.now)) left) ≤ 128 }
    ensures ok { IfOk result (λ r. Trades (S.bag s.old) (S.bag s.new) (map_out S.name left) (one (S.name r))) }
    ensures tree { IfOk result (λ r. (S.bag s.new).tree (S.name r) ≡ left_shrunk S.name (S.bag s.old) node.now ((S.bag s.old).tree (S.name at.now)) left) }
    ensures err { IfErr result (Stops (S.bag s.old) (S.bag s.new) (map_out S.name left)) }
{
    match left {
        Some(left) => with_left(s, at, node, left),
        None => s.kid(at, 1),
    }
}

/// The branch with what is left of its right side, or its left side alone.
fn shrink_right<S: Store>(
    s: &mut S,
    at: &S::Hold,
    node: &Shape,
    right: Option<S::Hold>,
) -> Got<S::Hold>
    requires owned { (x : ℕ) → map_out S.name right x ≤ (S.bag s.old).count x }
    requires held { map_out S.name right (S.name at.now) < (S.bag s.old).count (S.name at.now) }
    requires node { shape_is ((S.bag s.old).tree (S.name at.now)) node.now }
    requires kids { node.now.kids ≡ 2 }
    requires depth { depth (right_shrunk S.name (S.bag s.old) node.now ((S.bag s.old).tree (S.name at.now)) right) ≤ 128 }
    ensures ok { IfOk result (λ r. Trades (S.bag s.old) (S.bag s.new) (map_out S.name right) (one (S.name r))) }
    ensures tree { IfOk result (λ r. (S.bag s.new).tree (S.name r) ≡ right_shrunk S.name (S.bag s.old) node.now ((S.bag s.old).tree (S.name at.now)) right) }
    ensures err { IfErr result (Stops (S.bag s.old) (S.bag s.new) (map_out S.name right)) }
{
    match right {
        Some(right) => with_right(s, at, node, right),
        None => s.kid(at, 0),
    }
}

/// What is left of a trie without a key.
#[tactic(auto, using(store_api::specs::Bag::one_self, crate::proofs::Changes::remove_facts))]
pub fn remove_in<S: Store>(s: &mut S, at: &S::Hold, key: u32) -> Got<Option<S::Hold>>
    requires held { 0 < (S.bag s.old).count (S.name at.now) }
    requires trie { IsTrie ((S.bag s.old).tree (S.name at.now)) }
    ensures ok { IfOk result (λ o. Trades (S.bag s.old) (S.bag s.new) none (map_out S.name o)) }
    ensures removes { IfOk result (λ o. RemovesIn S.name (S.bag s.new) ((S.bag s.old).tree (S.name at.now)) key o) }
    ensures err { IfErr result (Stops (S.bag s.old) (S.bag s.new) none) }
{
    let node = s.look(at);
    if !has_prefix(&node, u64::from(key)) {
        let unchanged = s.again(at)?;
        return Ok(Some(unchanged));
    }
    if node.head == LEAF {
        return Ok(None);
    }
    if u64::from(key) < node.body[0] {
        let below = s.kid(at, 0)?;
        let left = remove_in(s, &below, key);
        s.give_back(below);
        let shrunk = shrink_left(s, at, &node, left?)?;
        return Ok(Some(shrunk));
    }
    let below = s.kid(at, 1)?;
    let right = remove_in(s, &below, key);
    s.give_back(below);
    let shrunk = shrink_right(s, at, &node, right?)?;
    Ok(Some(shrunk))
}
