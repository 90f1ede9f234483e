// Inclusion of two tries.
ghost use Rattle.std.specs.Prelude.{◌≡◌, ℕ, ◌+◌, ◌<◌, ◌≤◌, IfOk, IfErr, IsTrue, ◌↔◌, Bool};
ghost use Rattle.hptmap.specs.Merges.{Includes, OnSide, TakesAll};
ghost use Rattle.hptmap.specs.Trie.{IsTrie, is_leaf};
ghost use Rattle.store_api.specs.Tree.{depth, kid, shape_is};
ghost use Rattle.store_api.specs.Bag.{Same, Stops, none};

use crate::blocks::compare;
use crate::nodes::LEAF;
use crate::order::Blocks;
use crate::rule::LeafRule;
use std::alloc::Global;
use store_api::{Got, Shape, Store, pair};

/// Whether a leaf is included in a leaf of the same key.
#[tactic(auto, using(store_api::specs::Bag::one_self, crate::proofs::Including::leaf_facts))]
fn included_leaves<S: Store, L: LeafRule<S>>(
    alloc: Global,
    s: &mut S,
    l: &mut L,
    a: &S::Hold,
    b: &S::Hold,
    node: &Shape,
) -> Got<bool>
    requires held { 0 < (S.bag s.old).count (S.name a.now) }
    requires held_second { 0 < (S.bag s.old).count (S.name b.now) }
    requires trie { IsTrie ((S.bag s.old).tree (S.name a.now)) }
    requires trie_second { IsTrie ((S.bag s.old).tree (S.name b.now)) }
    requires node { shape_is ((S.bag s.old).tree (S.name a.now)) node.now }
    requires node_second { shape_is ((S.bag s.old).tree (S.name b.now)) node.now }
    requires leaf { is_leaf node.now ≡ Bool.true }
    requires takes { TakesAll ((L.meaning l.old).takes (S.bag s.old).about) ((S.bag s.old).tree (S.name a.now)) ((S.bag s.old).tree (S.name b.now)) }
    ensures ok { IfOk result (λ _. Same (S.bag s.old) (S.bag s.new)) }
    ensures told { IfOk result (λ r. IsTrue r ↔ Includes (L.meaning l.old).included ((S.bag s.old).tree (S.name a.now)) ((S.bag s.old).tree (S.name b.now))) }
    ensures err { IfErr result (Stops (S.bag s.old) (S.bag s.new) none) }
    ensures rule { L.meaning l.new ≡ L.meaning l.old }
{
    let first = s.kid(a, 0)?;
    let second = s.kid(b, 0);
    let (first, second) = pair(s, first, second)?;
    let told = l.included(alloc, s, &first, &second);
    s.give_back(first);
    s.give_back(second);
    told
}

/// Whether a side, 0 or 1, of a branch is included in the same side of another of the same block.
#[cycle(included)]
#[tactic(auto, using(store_api::specs::Bag::one_self, crate::proofs::Including::side_facts))]
fn included_sides<S: Store, L: LeafRule<S>>(
    alloc: Global,
    s: &mut S,
    l: &mut L,
    a: &S::Hold,
    b: &S::Hold,
    node: &Shape,
    side: u8,
) -> Got<bool>
    requires held { 0 < (S.bag s.old).count (S.name a.now) }
    requires held_second { 0 < (S.bag s.old).count (S.name b.now) }
    requires trie { IsTrie ((S.bag s.old).tree (S.name a.now)) }
    requires trie_second { IsTrie ((S.bag s.old).tree (S.name b.now)) }
    requires node { shape_is ((S.bag s.old).tree (S.name a.now)) node.now }
    requires node_second { shape_is ((S.bag s.old).tree (S.name b.now)) node.now }
    requires branch { is_leaf node.now ≡ Bool.false }
    requires side { side < 2 }
    requires takes { TakesAll ((L.meaning l.old).takes (S.bag s.old).about) ((S.bag s.old).tree (S.name a.now)) ((S.bag s.old).tree (S.name b.now)) }
    ensures ok { IfOk result (λ _. Same (S.bag s.old) (S.bag s.new)) }
    ensures told { IfOk result (λ r. IsTrue r ↔ Includes (L.meaning l.old).included (kid ((S.bag s.old).tree (S.name a.now)) side) (kid ((S.bag s.old).tree (S.name b.now)) side)) }
    ensures err { IfErr result (Stops (S.bag s.old) (S.bag s.new) none) }
    ensures rule { L.meaning l.new ≡ L.meaning l.old }
{
    let first = s.kid(a, side)?;
    let second = s.kid(b, side);
    let (first, second) = pair(s, first, second)?;
    let told = included_in(alloc, s, l, &first, &second);
    s.give_back(first);
    s.give_back(second);
    told
}

/// Whether a trie is included in another of the same block.
#[cycle(included)]
#[tactic(auto, using(store_api::specs::Bag::one_self, crate::proofs::Including::equal_facts))]
fn included_equal<S: Store, L: LeafRule<S>>(
    alloc: Global,
    s: &mut S,
    l: &mut L,
    a: &S::Hold,
    b: &S::Hold,
    node: &Shape,
) -> Got<bool>
    requires held { 0 < (S.bag s.old).count (S.name a.now) }
    requires held_second { 0 < (S.bag s.old).count (S.name b.now) }
    requires trie { IsTrie ((S.bag s.old).tree (S.name a.now)) }
    requires trie_second { IsTrie ((S.bag s.old).tree (S.name b.now)) }
    requires node { shape_is ((S.bag s.old).tree (S.name a.now)) node.now }
    requires node_second { shape_is ((S.bag s.old).tree (S.name b.now)) node.now }
    requires takes { TakesAll ((L.meaning l.old).takes (S.bag s.old).about) ((S.bag s.old).tree (S.name a.now)) ((S.bag s.old).tree (S.name b.now)) }
    ensures ok { IfOk result (λ _. Same (S.bag s.old) (S.bag s.new)) }
    ensures told { IfOk result (λ r. IsTrue r ↔ Includes (L.meaning l.old).included ((S.bag s.old).tree (S.name a.now)) ((S.bag s.old).tree (S.name b.now))) }
    ensures err { IfErr result (Stops (S.bag s.old) (S.bag s.new) none) }
    ensures rule { L.meaning l.new ≡ L.meaning l.old }
{
    if node.head == LEAF {
        return included_leaves(alloc, s, l, a, b, node);
    }
    let left = included_sides(alloc, s, l, a, b, node, 0)?;
    if !left {
        return Ok(false);
    }
    included_sides(alloc, s, l, a, b, node, 1)
}

/// Whether a trie is included in a branch that it lies in, on the side of a key.
#[cycle(included)]
#[tactic(auto, using(store_api::specs::Bag::one_self, crate::proofs::Including::within_facts))]
fn included_within<S: Store, L: LeafRule<S>>(
    alloc: Global,
    s: &mut S,
    l: &mut L,
    a: &S::Hold,
    b: &S::Hold,
    node: &Shape,
    key: u64,
) -> Got<bool>
    requires held { 0 < (S.bag s.old).count (S.name a.now) }
    requires held_second { 0 < (S.bag s.old).count (S.name b.now) }
    requires trie { IsTrie ((S.bag s.old).tree (S.name a.now)) }
    requires trie_second { IsTrie ((S.bag s.old).tree (S.name b.now)) }
    requires node { shape_is ((S.bag s.old).tree (S.name b.now)) node.now }
    requires inside { OnSide ((S.bag s.old).tree (S.name a.now)) node.now key }
    requires takes { TakesAll ((L.meaning l.old).takes (S.bag s.old).about) ((S.bag s.old).tree (S.name a.now)) ((S.bag s.old).tree (S.name b.now)) }
    ensures ok { IfOk result (λ _. Same (S.bag s.old) (S.bag s.new)) }
    ensures told { IfOk result (λ r. IsTrue r ↔ Includes (L.meaning l.old).included ((S.bag s.old).tree (S.name a.now)) ((S.bag s.old).tree (S.name b.now))) }
    ensures err { IfErr result (Stops (S.bag s.old) (S.bag s.new) none) }
    ensures rule { L.meaning l.new ≡ L.meaning l.old }
{
    if key < node.body[0] {
        let below = s.kid(b, 0)?;
        let told = included_in(alloc, s, l, a, &below);
        s.give_back(below);
        return told;
    }
    let below = s.kid(b, 1)?;
    let told = included_in(alloc, s, l, a, &below);
    s.give_back(below);
    told
}

/// Whether a trie is included in another. What they share is skipped without a look.
#[cycle(included)]
#[tactic(auto, using(store_api::specs::Bag::one_self, crate::proofs::Including::included_facts))]
pub fn included_in<S: Store, L: LeafRule<S>>(
    alloc: Global,
    s: &mut S,
    l: &mut L,
    a: &S::Hold,
    b: &S::Hold,
) -> Got<bool>
    requires held { 0 < (S.bag s.old).count (S.name a.now) }
    requires held_second { 0 < (S.bag s.old).count (S.name b.now) }
    requires trie { IsTrie ((S.bag s.old).tree (S.name a.now)) }
    requires trie_second { IsTrie ((S.bag s.old).tree (S.name b.now)) }
    requires takes { TakesAll ((L.meaning l.old).takes (S.bag s.old).about) ((S.bag s.old).tree (S.name a.now)) ((S.bag s.old).tree (S.name b.now)) }
    ensures ok { IfOk result (λ _. Same (S.bag s.old) (S.bag s.new)) }
    ensures told { IfOk result (λ r. IsTrue r ↔ Includes (L.meaning l.old).included ((S.bag s.old).tree (S.name a.now)) ((S.bag s.old).tree (S.name b.now))) }
    ensures err { IfErr result (Stops (S.bag s.old) (S.bag s.new) none) }
    ensures rule { L.meaning l.new ≡ L.meaning l.old }
{
    if s.same(a, b) {
        return Ok(true);
    }
    let first = s.look(a);
    let second = s.look(b);
    match compare(&first, &second) {
        Blocks::Equal => included_equal(alloc, s, l, a, b, &first),
        Blocks::Inside => included_within(alloc, s, l, a, b, &second, first.body[0]),
        Blocks::Around => Ok(false),
        Blocks::Apart => Ok(false),
    }
}
