// Nodes: made from held subtrees, read, and compared.
ghost use Rattle.std.specs.Prelude.{◌≡◌, ℕ, ◌+◌, ◌<◌, ◌≤◌, length, IsTrue, IfSome, ◌↔◌, is_some, if◌then◌else◌, false, [], cond, ltb};
ghost use Rattle.plain_store.specs.Slots.{Ordered, Stands, at, bag_of, node_tree, tree_at};
ghost use Rattle.store_api.specs.Tree.{Nil, Node, depth, kid};
ghost use Rattle.store_api.specs.Bag.{opt_tree};

use crate::slot::Slot;
use crate::store::Hold;
use store_api::Shape;

/// A node without subtrees.
fn leaf_node(slots: &Vec<Slot>, shape: &Shape) -> Slot
    requires { shape.now.kids ≡ 0 }
    ensures stands { Stands slots.now.items result }
    ensures shape { result.shape ≡ shape.now }
{
    let _ = slots;
    Slot {
        shape: *shape,
        first: 0,
        second: 0,
        depth: 1,
        holds: 1,
        parents: 0,
        next: None,
    }
}

/// A node with one subtree.
fn one_node(slots: &Vec<Slot>, shape: &Shape, first: usize) -> Slot
    requires kids { shape.now.kids ≡ 1 }
    requires within { first < length slots.now.items }
    requires first { 0 < (at slots.now.items first).holds }
    requires depth { (at slots.now.items first).depth < 128 }
    ensures stands { Stands slots.now.items result }
    ensures shape { result.shape ≡ shape.now }
    ensures first { result.first ≡ first }
{
    let below = slots[first].depth;
    Slot {
        shape: *shape,
        first,
        second: 0,
        depth: 1 + below,
        holds: 1,
        parents: 0,
        next: None,
    }
}

/// A node with two subtrees.
fn two_node(slots: &Vec<Slot>, shape: &Shape, first: usize, second: usize) -> Slot
    requires kids { shape.now.kids ≡ 2 }
    requires within { first < length slots.now.items }
    requires within_second { second < length slots.now.items }
    requires first { 0 < (at slots.now.items first).holds }
    requires second { 0 < (at slots.now.items second).holds }
    requires depth { (at slots.now.items first).depth < 128 }
    requires depth_second { (at slots.now.items second).depth < 128 }
    ensures stands { Stands slots.now.items result }
    ensures shape { result.shape ≡ shape.now }
    ensures first { result.first ≡ first }
    ensures second { result.second ≡ second }
{
    let below = slots[first].depth;
    let beside = slots[second].depth;
    Slot {
        shape: *shape,
        first,
        second,
        depth: 1 + below.max(beside),
        holds: 1,
        parents: 0,
        next: None,
    }
}

/// The node of a shape over these subtrees, held once.
#[tactic(auto, using(crate::proofs::Trees::node_facts))]
pub fn new_node(slots: &Vec<Slot>, shape: &Shape, a: Option<&Hold>, b: Option<&Hold>) -> Slot
    requires ordered { Ordered slots.now.items }
    requires first { IfSome a (λ h. 0 < (at slots.now.items h.now.at).holds) }
    requires second { IfSome b (λ h. 0 < (at slots.now.items h.now.at).holds) }
    requires kids { shape.now.kids ≡ (if is_some a then 1 else 0) + (if is_some b then 1 else 0) }
    requires order { is_some a ≡ false → is_some b ≡ false }
    requires depth { depth (Node shape.now (opt_tree (λ h. h.at) (bag_of slots.now.items [] 0 0) a) (opt_tree (λ h. h.at) (bag_of slots.now.items [] 0 0) b)) ≤ 128 }
    ensures stands { Stands slots.now.items result }
    ensures tree { node_tree result (tree_at slots.now.items 128) ≡ Node shape.now (opt_tree (λ h. h.at) (bag_of slots.now.items [] 0 0) a.entry) (opt_tree (λ h. h.at) (bag_of slots.now.items [] 0 0) b.entry) }
{
    match a {
        None => leaf_node(slots, shape),
        Some(x) => match b {
            None => one_node(slots, shape, x.at),
            Some(y) => two_node(slots, shape, x.at, y.at),
        },
    }
}

/// Where a subtree stands.
#[tactic(auto, using(crate::proofs::Trees::subtree_facts))]
pub fn subtree(slots: &Vec<Slot>, index: usize, which: u8) -> usize
    requires ordered { Ordered slots.now.items }
    requires within { index < length slots.now.items }
    requires which { which < (at slots.now.items index).shape.kids }
    ensures within { result < length slots.now.items }
    ensures tree { tree_at slots.now.items 128 result ≡ kid (tree_at slots.now.items 128 index) which }
{
    if which == 0 {
        slots[index].first
    } else {
        slots[index].second
    }
}

/// Whether two nodes have one shape.
#[tactic(auto, using(crate::proofs::Trees::same_facts))]
fn alike(slots: &Vec<Slot>, i: usize, j: usize) -> bool
    requires i { i < length slots.now.items }
    requires j { j < length slots.now.items }
    ensures { IsTrue result ↔ ((at slots.now.items i).shape ≡ (at slots.now.items j).shape) }
{
    let a = slots[i].shape;
    let b = slots[j].shape;
    a == b
}

/// The number of a node's subtrees, and where they stand.
#[tactic(auto, using(crate::proofs::Trees::same_facts))]
fn kids_of(slots: &Vec<Slot>, i: usize) -> (u8, usize, usize)
    requires { i < length slots.now.items }
    ensures { result ≡ ((at slots.now.items i).shape.kids, (at slots.now.items i).first, (at slots.now.items i).second) }
{
    let slot = slots[i];
    (slot.shape.kids, slot.first, slot.second)
}

/// Whether two trees are equal; a node is equal to itself, whatever is below it.
#[tactic(auto, using(crate::proofs::Trees::same_facts))]
pub fn same_at(slots: &Vec<Slot>, i: usize, j: usize) -> bool
    requires ordered { Ordered slots.now.items }
    requires i { i < length slots.now.items }
    requires j { j < length slots.now.items }
    ensures { IsTrue result ↔ (tree_at slots.now.items 128 i ≡ tree_at slots.now.items 128 j) }
{
    if i == j {
        return true;
    }
    if !alike(slots, i, j) {
        return false;
    }
    let (kids, first, second) = kids_of(slots, i);
    let (_, other_first, other_second) = kids_of(slots, j);
    if kids > 0 && !same_at(slots, first, other_first) {
        return false;
    }
    if kids > 1 && !same_at(slots, second, other_second) {
        return false;
    }
    true
}
