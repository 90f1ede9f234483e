// Insertion.
ghost use Rattle.std.specs.Prelude.{◌≡◌, ◌≢◌, ℕ, ◌+◌, ◌*◌, ◌/◌, ◌^◌, ◌<◌, ◌≤◌, IfOk, IfErr};
ghost use Rattle.hptmap.specs.Trie.{Adds, IsTrie, key_of, leaf, top_of};
ghost use Rattle.store_api.specs.Tree.{Node, depth, kid, shape_is};
ghost use Rattle.store_api.specs.Bag.{Stops, Trades, none, one};

use crate::nodes::{LEAF, branch_node, branching_bit, has_prefix, make_leaf};
use store_api::{Got, Shape, Store, intern_two, pair};

/// The node with another left side, which is given back.
pub fn with_left<S: Store>(s: &mut S, at: &S::Hold, node: &Shape, left: S::Hold) -> Got<S::Hold>
    requires owned { (x : ℕ) → one (S.name left) x ≤ (S.bag s.old).count x }
    requires held { one (S.name left) (S.name at.now) < (S.bag s.old).count (S.name at.now) }
    requires node { shape_is ((S.bag s.old).tree (S.name at.now)) node.now }
    requires kids { node.now.kids ≡ 2 }
    requires depth { depth (Node node.now ((S.bag s.old).tree (S.name left)) (kid ((S.bag s.old).tree (S.name at.now)) 1)) ≤ 128 }
    ensures ok { IfOk result (λ r. Trades (S.bag s.old) (S.bag s.new) (one (S.name left)) (one (S.name r))) }
    ensures tree { IfOk result (λ r. (S.bag s.new).tree (S.name r) ≡ Node node.now ((S.bag s.old).tree (S.name left)) (kid ((S.bag s.old).tree (S.name at.now)) 1)) }
    ensures err { IfErr result (Stops (S.bag s.old) (S.bag s.new) (one (S.name left))) }
{
    let right = s.kid(at, 1);
    let (left, right) = pair(s, left, right)?;
    intern_two(s, node, left, right)
}

/// The node with another right side, which is given back.
pub fn with_right<S: Store>(s: &mut S, at: &S::Hold, node: &Shape, right: S::Hold) -> Got<S::Hold>
    requires owned { (x : ℕ) → one (S.name right) x ≤ (S.bag s.old).count x }
    requires held { one (S.name right) (S.name at.now) < (S.bag s.old).count (S.name at.now) }
    requires node { shape_is ((S.bag s.old).tree (S.name at.now)) node.now }
    requires kids { node.now.kids ≡ 2 }
    requires depth { depth (Node node.now (kid ((S.bag s.old).tree (S.name at.now)) 0) ((S.bag s.old).tree (S.name right))) ≤ 128 }
    ensures ok { IfOk result (λ r. Trades (S.bag s.old) (S.bag s.new) (one (S.name right)) (one (S.name r))) }
    ensures tree { IfOk result (λ r. (S.bag s.new).tree (S.name r) ≡ Node node.now (kid ((S.bag s.old).tree (S.name at.now)) 0) ((S.bag s.old).tree (S.name right))) }
    ensures err { IfErr result (Stops (S.bag s.old) (S.bag s.new) (one (S.name right))) }
{
    let left = s.kid(at, 0);
    let (right, left) = pair(s, right, left)?;
    intern_two(s, node, left, right)
}

/// The branch over a trie and a leaf with a key outside its block.
#[tactic(auto, using(store_api::specs::Bag::one_self, crate::proofs::Changes::link_facts))]
fn link<S: Store>(
    s: &mut S,
    at: &S::Hold,
    node: &Shape,
    key: u32,
    single: &S::Hold,
    payload: &S::Hold,
) -> Got<S::Hold>
    requires held { 0 < (S.bag s.old).count (S.name at.now) }
    requires held_single { 0 < (S.bag s.old).count (S.name single.now) }
    requires held_payload { 0 < (S.bag s.old).count (S.name payload.now) }
    requires single { (S.bag s.old).tree (S.name single.now) ≡ leaf key ((S.bag s.old).tree (S.name payload.now)) }
    requires depth { depth ((S.bag s.old).tree (S.name payload.now)) ≤ 95 }
    requires trie { IsTrie ((S.bag s.old).tree (S.name at.now)) }
    requires node { shape_is ((S.bag s.old).tree (S.name at.now)) node.now }
    requires outside { key / 2 ^ top_of node.now ≢ key_of node.now / 2 ^ top_of node.now }
    ensures ok { IfOk result (λ r. Trades (S.bag s.old) (S.bag s.new) none (one (S.name r))) }
    ensures adds { IfOk result (λ r. Adds ((S.bag s.old).tree (S.name at.now)) key ((S.bag s.old).tree (S.name payload.now)) ((S.bag s.new).tree (S.name r))) }
    ensures err { IfErr result (Stops (S.bag s.old) (S.bag s.new) none) }
{
    let new_key = u64::from(key);
    let bit = branching_bit(new_key, node.body[0]);
    let branch = branch_node(new_key, bit);
    if new_key < node.body[0] {
        s.intern(&branch, Some(single), Some(at))
    } else {
        s.intern(&branch, Some(at), Some(single))
    }
}

/// The trie with a pair.
#[tactic(auto, using(store_api::specs::Bag::one_self, crate::proofs::Changes::add_facts))]
pub fn add_in<S: Store>(s: &mut S, at: &S::Hold, key: u32, payload: &S::Hold) -> Got<S::Hold>
    requires held { 0 < (S.bag s.old).count (S.name at.now) }
    requires held_payload { 0 < (S.bag s.old).count (S.name payload.now) }
    requires trie { IsTrie ((S.bag s.old).tree (S.name at.now)) }
    requires depth { depth ((S.bag s.old).tree (S.name payload.now)) ≤ 95 }
    ensures ok { IfOk result (λ r. Trades (S.bag s.old) (S.bag s.new) none (one (S.name r))) }
    ensures adds { IfOk result (λ r. Adds ((S.bag s.old).tree (S.name at.now)) key ((S.bag s.old).tree (S.name payload.now)) ((S.bag s.new).tree (S.name r))) }
    ensures err { IfErr result (Stops (S.bag s.old) (S.bag s.new) none) }
{
    let node = s.look(at);
    if !has_prefix(&node, u64::from(key)) {
        let single = make_leaf(s, key, payload)?;
        let linked = link(s, at, &node, key, &single, payload);
        s.give_back(single);
        return linked;
    }
    if node.head == LEAF {
        return make_leaf(s, key, payload);
    }
    if u64::from(key) < node.body[0] {
        let below = s.kid(at, 0)?;
        let grown = add_in(s, &below, key, payload);
        s.give_back(below);
        return with_left(s, at, &node, grown?);
    }
    let below = s.kid(at, 1)?;
    let grown = add_in(s, &below, key, payload);
    s.give_back(below);
    with_right(s, at, &node, grown?)
}
