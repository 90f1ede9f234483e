// Counts of a slot: its holds and its parents, and the list of free slots.
ghost use Rattle.std.specs.Prelude.{◌≡◌, ℕ, ◌+◌, ◌<◌, ◌≤◌, ◌^◌, length, IfOk, IfErr, IfSome};
ghost use Rattle.plain_store.specs.Slots.{Sound, Changes, Recounts, at, held, names, tree_at};
ghost use Rattle.store_api.specs.Bag.{none, one};

use crate::slot::Slot;

/// One hold more.
pub fn add_hold(slots: &mut Vec<Slot>, index: usize)
    requires within { index < length slots.old.items }
    requires room { held slots.old.items + 1 < 2 ^ 64 }
    requires sound { Sound slots.old.items }
    ensures sound { Sound slots.new.items }
    ensures changes { Changes slots.old.items slots.new.items none (one index) }
    ensures tree { tree_at slots.new.items 128 index ≡ tree_at slots.old.items 128 index }
    ensures held { held slots.new.items ≡ held slots.old.items + 1 }
{
    let slot = &mut slots[index];
    slot.holds += 1;
}

/// One hold less; a node that nothing names any more becomes free.
pub fn drop_hold(slots: &mut Vec<Slot>, free: &mut Option<usize>, index: usize)
    requires sound { Sound slots.old.items }
    requires within { 0 < (at slots.old.items index).holds }
    ensures sound { Sound slots.new.items }
    ensures changes { Changes slots.old.items slots.new.items (one index) none }
    ensures held { held slots.new.items + 1 ≡ held slots.old.items }
{
    let slot = &mut slots[index];
    slot.holds -= 1;
    let unnamed = slot.holds == 0 && slot.parents == 0;
    if unnamed {
        slot.next = *free;
        *free = Some(index);
    }
}

/// One parent more.
pub fn add_parent(slots: &mut Vec<Slot>, index: usize)
    requires within { index < length slots.old.items }
    requires room { (at slots.old.items index).parents + 1 < 2 ^ 64 }
    ensures { Recounts slots.old.items slots.new.items none (one index) }
{
    let slot = &mut slots[index];
    slot.parents += 1;
}

/// One parent less; a node that nothing names any more becomes free.
pub fn drop_parent(slots: &mut Vec<Slot>, free: &mut Option<usize>, index: usize)
    requires { 0 < (at slots.old.items index).parents }
    ensures { Recounts slots.old.items slots.new.items (one index) none }
{
    let slot = &mut slots[index];
    slot.parents -= 1;
    let unnamed = slot.holds == 0 && slot.parents == 0;
    if unnamed {
        slot.next = *free;
        *free = Some(index);
    }
}

/// The node counts for each of its subtrees.
pub fn add_parents(slots: &mut Vec<Slot>, node: &Slot)
    requires first { 0 < node.now.shape.kids → node.now.first < length slots.old.items }
    requires second { 1 < node.now.shape.kids → node.now.second < length slots.old.items }
    requires room { (x : ℕ) → (at slots.old.items x).parents + names node.now x < 2 ^ 64 }
    ensures { Recounts slots.old.items slots.new.items none (names node.now) }
{
    match node.shape.kids {
        0 => {}
        1 => add_parent(slots, node.first),
        _ => {
            add_parent(slots, node.first);
            add_parent(slots, node.second);
        }
    }
}

/// The node that stood there no longer counts for its subtrees.
pub fn drop_parents(slots: &mut Vec<Slot>, free: &mut Option<usize>, node: &Slot)
    requires { (x : ℕ) → names node.now x ≤ (at slots.old.items x).parents }
    ensures { Recounts slots.old.items slots.new.items (names node.now) none }
{
    match node.shape.kids {
        0 => {}
        1 => drop_parent(slots, free, node.first),
        _ => {
            drop_parent(slots, free, node.first);
            drop_parent(slots, free, node.second);
        }
    }
}
