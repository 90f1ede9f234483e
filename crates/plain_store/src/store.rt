// The store and its calls.
ghost use Rattle.std.specs.Prelude.{◌≡◌, ℕ, ◌+◌, ◌<◌, ◌≤◌, ◌^◌, [], length, IfOk, IfErr, IfSome, Option, None};
ghost use Rattle.plain_store.specs.Slots.{Sound, Stands, Changes, at, bag_of, held, node_tree, tree_at};
ghost use Rattle.store_api.specs.Bag.{Fresh, Same, none, one};
ghost use Rattle.store_api.specs.Counts.{Recalled};
ghost use Rattle.store_api.specs.declared.StoreStop.TheVariants.{Memory};

use crate::nodes::{new_node, same_at, subtree};
use crate::slot::Slot;
use crate::slots::{add_hold, add_parents, drop_hold, drop_parents};
use std::alloc::Global;
use store_api::{Found, Got, Op, Relate, Shape, Store, StoreStop};

/// A hold of a plain store.
#[derive(Debug, Drop)]
pub struct Hold {
    pub(crate) at: usize,
}

/// A list of nodes, with one byte more for each hold, so that memory bounds their number.
#[derive(Drop)]
pub struct PlainStore<R> {
    slots: Vec<Slot>,
    marks: Vec<u8>,
    free: Option<usize>,
    about: R,
    looks: u64,
    misses: u64,
    ghost sound: { Sound slots.items },
    ghost marked: { held slots.items ≡ length marks.items },
}

/// A store without trees. It allocates nothing yet.
pub fn plain<R: Relate>(alloc: Global, about: R) -> PlainStore<R>
    ensures { Fresh (⟦<PlainStore<R> as Store>⟧.bag result) (R.about about) [] }
{
    PlainStore {
        slots: Vec::new(alloc),
        marks: Vec::new(alloc),
        free: None,
        about,
        looks: 0,
        misses: 0,
    }
}

/// A further hold of a node.
fn take_hold(slots: &mut Vec<Slot>, marks: &mut Vec<u8>, index: usize) -> Got<Hold>
    requires within { index < length slots.old.items }
    requires sound { Sound slots.old.items }
    requires marked { held slots.old.items ≡ length marks.old.items }
    ensures sound { Sound slots.new.items }
    ensures marked { held slots.new.items ≡ length marks.new.items }
    ensures ok { IfOk result (λ h. (h.at ≡ index) × Changes slots.old.items slots.new.items none (one index)) }
    ensures tree { IfOk result (λ h. tree_at slots.new.items 128 index ≡ tree_at slots.old.items 128 index) }
    ensures err { IfErr result (λ e. (e ≡ Memory) × (slots.new.items ≡ slots.old.items)) }
{
    if marks.push(0).is_err() {
        return Err(StoreStop::Memory);
    }
    add_hold(slots, index);
    Ok(Hold { at: index })
}

/// The first free slot. A link is a hint alone: a slot that something names isn't free.
fn spare(slots: &Vec<Slot>, free: Option<usize>) -> Option<usize>
    ensures { IfSome result (λ i. (i < length slots.now.items) × ((at slots.now.items i).holds ≡ 0) × ((at slots.now.items i).parents ≡ 0)) }
{
    let index = free?;
    let slot = slots.get(index)?;
    if slot.holds == 0 && slot.parents == 0 {
        Some(index)
    } else {
        None
    }
}

/// Puts the node in the place of a free one.
fn refill(slots: &mut Vec<Slot>, free: &mut Option<usize>, index: usize, node: &Slot)
    requires sound { Sound slots.old.items }
    requires within { index < length slots.old.items }
    requires holds { (at slots.old.items index).holds ≡ 0 }
    requires parents { (at slots.old.items index).parents ≡ 0 }
    requires stands { Stands slots.old.items node.now }
    ensures sound { Sound slots.new.items }
    ensures changes { Changes slots.old.items slots.new.items none (one index) }
    ensures tree { tree_at slots.new.items 128 index ≡ node_tree node.now (tree_at slots.old.items 128) }
    ensures held { held slots.new.items ≡ held slots.old.items + 1 }
{
    let old = slots[index];
    *free = old.next;
    slots[index] = *node;
    drop_parents(slots, free, &old);
    add_parents(slots, node);
}

/// Puts the node behind all others.
fn append(slots: &mut Vec<Slot>, node: &Slot) -> Got<usize>
    requires sound { Sound slots.old.items }
    requires stands { Stands slots.old.items node.now }
    ensures sound { Sound slots.new.items }
    ensures ok { IfOk result (λ i. Changes slots.old.items slots.new.items none (one i)) }
    ensures tree { IfOk result (λ i. tree_at slots.new.items 128 i ≡ node_tree node.now (tree_at slots.old.items 128)) }
    ensures held { IfOk result (λ i. held slots.new.items ≡ held slots.old.items + 1) }
    ensures err { IfErr result (λ e. (e ≡ Memory) × (slots.new.items ≡ slots.old.items)) }
{
    let index = slots.len();
    if slots.push(*node).is_err() {
        return Err(StoreStop::Memory);
    }
    add_parents(slots, node);
    Ok(index)
}

/// Puts the node where there is room, with a mark for its hold.
fn insert(
    slots: &mut Vec<Slot>,
    marks: &mut Vec<u8>,
    free: &mut Option<usize>,
    node: &Slot,
) -> Got<Hold>
    requires sound { Sound slots.old.items }
    requires marked { held slots.old.items ≡ length marks.old.items }
    requires stands { Stands slots.old.items node.now }
    ensures sound { Sound slots.new.items }
    ensures marked { held slots.new.items ≡ length marks.new.items }
    ensures ok { IfOk result (λ h. Changes slots.old.items slots.new.items none (one h.at)) }
    ensures tree { IfOk result (λ h. tree_at slots.new.items 128 h.at ≡ node_tree node.now (tree_at slots.old.items 128)) }
    ensures err { IfErr result (λ e. (e ≡ Memory) × (slots.new.items ≡ slots.old.items)) }
{
    if marks.push(0).is_err() {
        return Err(StoreStop::Memory);
    }
    if let Some(index) = spare(slots, *free) {
        refill(slots, free, index, node);
        return Ok(Hold { at: index });
    }
    match append(slots, node) {
        Ok(index) => Ok(Hold { at: index }),
        Err(stop) => {
            marks.pop();
            Err(stop)
        }
    }
}

impl<R: Relate> Store for PlainStore<R> {
    type Hold = Hold;

    type Rule = R;

    ghost name = { λ h. h.at };

    ghost bag = { λ s. bag_of s.slots.items (R.about s.about) s.looks s.misses };

    fn intern(&mut self, node: &Shape, a: Option<&Hold>, b: Option<&Hold>) -> Got<Hold> {
        let made = new_node(&self.slots, node, a, b);
        insert(&mut self.slots, &mut self.marks, &mut self.free, &made)
    }

    fn look(&mut self, h: &Hold) -> Shape {
        self.looks = self.looks.saturating_add(1);
        self.slots[h.at].shape
    }

    fn kid(&mut self, h: &Hold, which: u8) -> Got<Hold> {
        let below = subtree(&self.slots, h.at, which);
        take_hold(&mut self.slots, &mut self.marks, below)
    }

    fn again(&mut self, h: &Hold) -> Got<Hold> {
        take_hold(&mut self.slots, &mut self.marks, h.at)
    }

    fn same(&self, a: &Hold, b: &Hold) -> bool {
        same_at(&self.slots, a.at, b.at)
    }

    fn give_back(&mut self, h: Hold) {
        drop_hold(&mut self.slots, &mut self.free, h.at);
        self.marks.pop();
    }

    /// It remembers nothing.
    fn recall(&mut self, _op: Op, _a: &Hold, _b: &Hold) -> Option<Found<Hold>>
        ensures never { result ≡ None }
        ensures bag { Same (⟦<PlainStore<R> as Store>⟧.bag self.old) (⟦<PlainStore<R> as Store>⟧.bag self.new) }
        ensures counts { Recalled (⟦<PlainStore<R> as Store>⟧.bag self.old) (⟦<PlainStore<R> as Store>⟧.bag self.new) result }
    {
        self.misses = self.misses.saturating_add(1);
        None
    }

    fn note(&mut self, _op: Op, _a: &Hold, _b: &Hold, _found: Found<&Hold>) {}

    fn stops(&self) -> u64 {
        0
    }

    fn looks(&self) -> u64 {
        self.looks
    }

    fn misses(&self) -> u64 {
        self.misses
    }
}

impl<R> PlainStore<R> {
    /// How many nodes the list has room for, free ones counted.
    #[cfg(test)]
    pub(crate) fn slot_count(&self) -> usize {
        self.slots.len()
    }
}

fn crosses<T: Send>(value: T) -> T
    ensures { result ≡ value }
{
    value
}

/// A plain store may move to another thread, where its rule may.
pub(crate) fn sent<R: Relate + Send>(store: PlainStore<R>) -> PlainStore<R>
    ensures { result ≡ store }
{
    crosses(store)
}
