// Join and widening of two tries, which is one traversal.
ghost use Rattle.std.specs.Prelude.{◌≡◌, ◌≢◌, ℕ, ◌+◌, ◌/◌, ◌^◌, ◌<◌, ◌≤◌, IfOk, IfErr, IsTrue, Bool};
ghost use Rattle.hptmap.specs.Merges.{Lies, Merges, OnSide, TakesAll, back, merged, takes_in};
ghost use Rattle.hptmap.specs.Trie.{IsTrie, is_leaf, key_of};
ghost use Rattle.hptmap.specs.declared.order.Blocks.TheVariants.{Apart};
ghost use Rattle.store_api.specs.Tree.{Node, Tree, depth, kid, shape_is};
ghost use Rattle.store_api.specs.Bag.{Gains, Stops, Trades, none, one};

use crate::blocks::compare;
use crate::insert::{with_left, with_right};
use crate::nodes::{LEAF, branch_node, branching_bit};
use crate::order::Blocks;
use crate::rule::LeafRule;
use crate::way::Way;
use std::alloc::Global;
use store_api::{Got, Shape, Store, intern_one, intern_two, pair};

/// The same with the sides swapped.
fn swapped(way: Way) -> Way
    ensures { result ≡ back way }
{
    match way {
        Way::Join => Way::JoinBack,
        Way::Widen => Way::WidenBack,
        Way::JoinBack => Way::Join,
        Way::WidenBack => Way::Widen,
    }
}

/// What the rule makes of two payloads.
fn merge_payloads<S: Store, L: LeafRule<S>>(
    alloc: Global,
    s: &mut S,
    l: &mut L,
    way: Way,
    a: &S::Hold,
    b: &S::Hold,
) -> Got<S::Hold>
    requires held { 0 < (S.bag s.old).count (S.name a.now) }
    requires held_second { 0 < (S.bag s.old).count (S.name b.now) }
    requires takes { IsTrue (takes_in (L.meaning l.old) (S.bag s.old).about way ((S.bag s.old).tree (S.name a.now)) ((S.bag s.old).tree (S.name b.now))) }
    ensures ok { IfOk result (λ r. Gains (S.bag s.old) (S.bag s.new) (S.name r) (merged (L.meaning l.old) way ((S.bag s.old).tree (S.name a.now)) ((S.bag s.old).tree (S.name b.now)))) }
    ensures depth { IfOk result (λ r. depth ((S.bag s.new).tree (S.name r)) ≤ 95) }
    ensures err { IfErr result (Stops (S.bag s.old) (S.bag s.new) none) }
    ensures rule { L.meaning l.new ≡ L.meaning l.old }
{
    match way {
        Way::Join => l.join(alloc, s, a, b),
        Way::Widen => l.widen(alloc, s, a, b),
        Way::JoinBack => l.join(alloc, s, b, a),
        Way::WidenBack => l.widen(alloc, s, b, a),
    }
}

/// The leaf of what the rule makes of two leaves of one key.
#[tactic(auto, using(store_api::specs::Bag::one_self, crate::proofs::Merging::leaf_facts))]
fn merge_leaves<S: Store, L: LeafRule<S>>(
    alloc: Global,
    s: &mut S,
    l: &mut L,
    way: Way,
    a: &S::Hold,
    b: &S::Hold,
    node: &Shape,
) -> Got<S::Hold>
    requires held { 0 < (S.bag s.old).count (S.name a.now) }
    requires held_second { 0 < (S.bag s.old).count (S.name b.now) }
    requires trie { IsTrie ((S.bag s.old).tree (S.name a.now)) }
    requires trie_second { IsTrie ((S.bag s.old).tree (S.name b.now)) }
    requires node { shape_is ((S.bag s.old).tree (S.name a.now)) node.now }
    requires node_second { shape_is ((S.bag s.old).tree (S.name b.now)) node.now }
    requires leaf { is_leaf node.now ≡ Bool.true }
    requires takes { TakesAll (takes_in (L.meaning l.old) (S.bag s.old).about way) ((S.bag s.old).tree (S.name a.now)) ((S.bag s.old).tree (S.name b.now)) }
    ensures ok { IfOk result (λ r. Trades (S.bag s.old) (S.bag s.new) none (one (S.name r))) }
    ensures merges { IfOk result (λ r. Merges (merged (L.meaning l.old) way) ((S.bag s.old).tree (S.name a.now)) ((S.bag s.old).tree (S.name b.now)) ((S.bag s.new).tree (S.name r))) }
    ensures err { IfErr result (Stops (S.bag s.old) (S.bag s.new) none) }
    ensures rule { L.meaning l.new ≡ L.meaning l.old }
{
    let first = s.kid(a, 0)?;
    let second = s.kid(b, 0);
    let (first, second) = pair(s, first, second)?;
    let made = merge_payloads(alloc, s, l, way, &first, &second);
    s.give_back(first);
    s.give_back(second);
    intern_one(s, node, made?)
}

/// The branch over two tries without a common key, whose blocks lie apart.
#[tactic(auto, using(store_api::specs::Bag::one_self, crate::proofs::Merging::link_facts))]
fn link_tries<S: Store>(
    s: &mut S,
    a: &S::Hold,
    first: &Shape,
    b: &S::Hold,
    second: &Shape,
) -> Got<S::Hold>
    requires held { 0 < (S.bag s.old).count (S.name a.now) }
    requires held_second { 0 < (S.bag s.old).count (S.name b.now) }
    requires trie { IsTrie ((S.bag s.old).tree (S.name a.now)) }
    requires trie_second { IsTrie ((S.bag s.old).tree (S.name b.now)) }
    requires first { shape_is ((S.bag s.old).tree (S.name a.now)) first.now }
    requires second { shape_is ((S.bag s.old).tree (S.name b.now)) second.now }
    requires apart { Lies Apart first.now second.now }
    ensures ok { IfOk result (λ r. Trades (S.bag s.old) (S.bag s.new) none (one (S.name r))) }
    ensures merges { IfOk result (λ r. (f : Tree → Tree → Tree) → Merges f ((S.bag s.old).tree (S.name a.now)) ((S.bag s.old).tree (S.name b.now)) ((S.bag s.new).tree (S.name r))) }
    ensures err { IfErr result (Stops (S.bag s.old) (S.bag s.new) none) }
{
    let key = first.body[0];
    let bit = branching_bit(key, second.body[0]);
    let branch = branch_node(key, bit);
    if key < second.body[0] {
        s.intern(&branch, Some(a), Some(b))
    } else {
        s.intern(&branch, Some(b), Some(a))
    }
}

/// The merge of the sides, 0 or 1, of two branches of one block.
#[cycle(merge)]
#[tactic(auto, using(store_api::specs::Bag::one_self, crate::proofs::Merging::side_facts))]
fn merge_sides<S: Store, L: LeafRule<S>>(
    alloc: Global,
    s: &mut S,
    l: &mut L,
    way: Way,
    a: &S::Hold,
    b: &S::Hold,
    node: &Shape,
    side: u8,
) -> Got<S::Hold>
    requires held { 0 < (S.bag s.old).count (S.name a.now) }
    requires held_second { 0 < (S.bag s.old).count (S.name b.now) }
    requires trie { IsTrie ((S.bag s.old).tree (S.name a.now)) }
    requires trie_second { IsTrie ((S.bag s.old).tree (S.name b.now)) }
    requires node { shape_is ((S.bag s.old).tree (S.name a.now)) node.now }
    requires node_second { shape_is ((S.bag s.old).tree (S.name b.now)) node.now }
    requires branch { is_leaf node.now ≡ Bool.false }
    requires side { side < 2 }
    requires takes { TakesAll (takes_in (L.meaning l.old) (S.bag s.old).about way) ((S.bag s.old).tree (S.name a.now)) ((S.bag s.old).tree (S.name b.now)) }
    ensures ok { IfOk result (λ r. Trades (S.bag s.old) (S.bag s.new) none (one (S.name r))) }
    ensures merges { IfOk result (λ r. Merges (merged (L.meaning l.old) way) (kid ((S.bag s.old).tree (S.name a.now)) side) (kid ((S.bag s.old).tree (S.name b.now)) side) ((S.bag s.new).tree (S.name r))) }
    ensures err { IfErr result (Stops (S.bag s.old) (S.bag s.new) none) }
    ensures rule { L.meaning l.new ≡ L.meaning l.old }
{
    let first = s.kid(a, side)?;
    let second = s.kid(b, side);
    let (first, second) = pair(s, first, second)?;
    let made = merge_in(alloc, s, l, way, &first, &second);
    s.give_back(first);
    s.give_back(second);
    made
}

/// The merge of two tries of one block.
#[cycle(merge)]
#[tactic(auto, using(store_api::specs::Bag::one_self, crate::proofs::Merging::equal_facts))]
fn merge_equal<S: Store, L: LeafRule<S>>(
    alloc: Global,
    s: &mut S,
    l: &mut L,
    way: Way,
    a: &S::Hold,
    b: &S::Hold,
    node: &Shape,
) -> Got<S::Hold>
    requires held { 0 < (S.bag s.old).count (S.name a.now) }
    requires held_second { 0 < (S.bag s.old).count (S.name b.now) }
    requires trie { IsTrie ((S.bag s.old).tree (S.name a.now)) }
    requires trie_second { IsTrie ((S.bag s.old).tree (S.name b.now)) }
    requires node { shape_is ((S.bag s.old).tree (S.name a.now)) node.now }
    requires node_second { shape_is ((S.bag s.old).tree (S.name b.now)) node.now }
    requires takes { TakesAll (takes_in (L.meaning l.old) (S.bag s.old).about way) ((S.bag s.old).tree (S.name a.now)) ((S.bag s.old).tree (S.name b.now)) }
    ensures ok { IfOk result (λ r. Trades (S.bag s.old) (S.bag s.new) none (one (S.name r))) }
    ensures merges { IfOk result (λ r. Merges (merged (L.meaning l.old) way) ((S.bag s.old).tree (S.name a.now)) ((S.bag s.old).tree (S.name b.now)) ((S.bag s.new).tree (S.name r))) }
    ensures err { IfErr result (Stops (S.bag s.old) (S.bag s.new) none) }
    ensures rule { L.meaning l.new ≡ L.meaning l.old }
{
    if node.head == LEAF {
        return merge_leaves(alloc, s, l, way, a, b, node);
    }
    let left = merge_sides(alloc, s, l, way, a, b, node, 0)?;
    let right = merge_sides(alloc, s, l, way, a, b, node, 1);
    let (left, right) = pair(s, left, right)?;
    intern_two(s, node, left, right)
}

/// The merge of a branch with a trie that lies in it, on the side of a key.
#[cycle(merge)]
#[tactic(auto, using(store_api::specs::Bag::one_self, crate::proofs::Merging::into_facts))]
fn merge_into<S: Store, L: LeafRule<S>>(
    alloc: Global,
    s: &mut S,
    l: &mut L,
    way: Way,
    a: &S::Hold,
    node: &Shape,
    b: &S::Hold,
    key: u64,
) -> Got<S::Hold>
    requires held { 0 < (S.bag s.old).count (S.name a.now) }
    requires held_second { 0 < (S.bag s.old).count (S.name b.now) }
    requires trie { IsTrie ((S.bag s.old).tree (S.name a.now)) }
    requires trie_second { IsTrie ((S.bag s.old).tree (S.name b.now)) }
    requires node { shape_is ((S.bag s.old).tree (S.name a.now)) node.now }
    requires inside { OnSide ((S.bag s.old).tree (S.name b.now)) node.now key }
    requires takes { TakesAll (takes_in (L.meaning l.old) (S.bag s.old).about way) ((S.bag s.old).tree (S.name a.now)) ((S.bag s.old).tree (S.name b.now)) }
    ensures ok { IfOk result (λ r. Trades (S.bag s.old) (S.bag s.new) none (one (S.name r))) }
    ensures merges { IfOk result (λ r. Merges (merged (L.meaning l.old) way) ((S.bag s.old).tree (S.name a.now)) ((S.bag s.old).tree (S.name b.now)) ((S.bag s.new).tree (S.name r))) }
    ensures err { IfErr result (Stops (S.bag s.old) (S.bag s.new) none) }
    ensures rule { L.meaning l.new ≡ L.meaning l.old }
{
    if key < node.body[0] {
        let below = s.kid(a, 0)?;
        let made = merge_in(alloc, s, l, way, &below, b);
        s.give_back(below);
        return with_left(s, a, node, made?);
    }
    let below = s.kid(a, 1)?;
    let made = merge_in(alloc, s, l, way, &below, b);
    s.give_back(below);
    with_right(s, a, node, made?)
}

/// The merge of two tries. What they share is skipped without a look.
#[cycle(merge)]
#[tactic(auto, using(store_api::specs::Bag::one_self, crate::proofs::Merging::merge_facts))]
pub fn merge_in<S: Store, L: LeafRule<S>>(
    alloc: Global,
    s: &mut S,
    l: &mut L,
    way: Way,
    a: &S::Hold,
    b: &S::Hold,
) -> Got<S::Hold>
    requires held { 0 < (S.bag s.old).count (S.name a.now) }
    requires held_second { 0 < (S.bag s.old).count (S.name b.now) }
    requires trie { IsTrie ((S.bag s.old).tree (S.name a.now)) }
    requires trie_second { IsTrie ((S.bag s.old).tree (S.name b.now)) }
    requires takes { TakesAll (takes_in (L.meaning l.old) (S.bag s.old).about way) ((S.bag s.old).tree (S.name a.now)) ((S.bag s.old).tree (S.name b.now)) }
    ensures ok { IfOk result (λ r. Trades (S.bag s.old) (S.bag s.new) none (one (S.name r))) }
    ensures merges { IfOk result (λ r. Merges (merged (L.meaning l.old) way) ((S.bag s.old).tree (S.name a.now)) ((S.bag s.old).tree (S.name b.now)) ((S.bag s.new).tree (S.name r))) }
    ensures err { IfErr result (Stops (S.bag s.old) (S.bag s.new) none) }
    ensures rule { L.meaning l.new ≡ L.meaning l.old }
{
    if s.same(a, b) {
        return s.again(a);
    }
    let first = s.look(a);
    let second = s.look(b);
    match compare(&first, &second) {
        Blocks::Equal => merge_equal(alloc, s, l, way, a, b, &first),
        Blocks::Around => merge_into(alloc, s, l, way, a, &first, b, second.body[0]),
        Blocks::Inside => merge_into(alloc, s, l, swapped(way), b, &second, a, first.body[0]),
        Blocks::Apart => link_tries(s, a, &first, b, &second),
    }
}
