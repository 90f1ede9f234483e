//! The shared word that hands out indexes, each once, by one fetch.
ghost use Rattle.std.specs.Prelude.{◌≡◌, ℕ, ◌+◌, ◌-◌, ◌*◌, ◌<◌, ◌≤◌, ◌^◌, [], ◌∷◌, ◌++◌, length, IfOk};
ghost use Rattle.entry_workers.specs.Lists.{times, once_below};
ghost use Rattle.entry_workers.specs.Drawing.{hand, all_parts, draws_of_part, Handed, Drew, Learned};

use atomic_table::{Join, Play, Seat, Shared, Split, Table, TableRule};
use std::alloc::{AllocError, Global};
use std::collections::LinkedList;

/// What a seat knows: its parts of the right to draw, and the numbers that it drew. No value of it is made.
pub struct Hand {
    pub parts: u64,
    pub drawn: LinkedList<u64>,
}

/// Each number below the word was drawn once.
pub struct HandsOut;

impl TableRule<(), Hand, ()> for HandsOut {
    ghost holds = { λ key s. Handed s };

    ghost first = { λ key. hand all_parts [] };
}

struct Draws;

impl Play<(), Hand> for Draws {
    ghost then = { λ step before found after. (after.1 ≡ before.1) × Drew before.0 found after.0 };
}

struct Learns;

impl Play<(), Hand> for Learns {
    ghost then = { λ step before found after. (after.1 ≡ before.1) × Learned before.0 found after.0 };
}

struct OnePart;

impl Split<Hand> for OnePart {
    ghost left = { λ v. hand (v.parts - 1) v.drawn };

    ghost right = { λ v. hand 1 [] };
}

impl Join<Hand> for OnePart {
    ghost both = { λ v w. hand (v.parts + w.parts) (v.drawn ++ w.drawn) };

    ghost spent = { hand 0 [] };
}

/// The word, as workers share it.
pub type Counter = Shared<(), Hand, (), HandsOut>;

/// A worker's seat at the word.
pub type Drawer = Seat<(), Hand>;

/// The word with its memory.
pub type CounterTable = Table<(), Hand, (), HandsOut, Global>;

/// A counter from which nothing was drawn, and the seat that has all parts.
pub fn open_counter(alloc: Global) -> Result<(CounterTable, Drawer), AllocError>
    ensures { IfOk result (λ t. (t.0.shared.table_id.words ≡ 1) × (t.1.table_id ≡ t.0.shared.table_id) × (t.1.me ≡ (hand all_parts [], []))) }
{
    Table::of_words(alloc, &[0], &())
}

/// The next number, which no other draw gives.
pub fn draw(counter: &Counter, drawer: &mut Drawer) -> u64
    requires counter { (drawer.old.table_id ≡ counter.now.table_id) × (counter.now.table_id.words ≡ 1) }
    requires room { length drawer.old.me.0.drawn < drawer.old.me.0.parts * draws_of_part }
    ensures counter { drawer.new.table_id ≡ drawer.old.table_id }
    ensures drawn { drawer.new.me ≡ (hand drawer.old.me.0.parts (drawer.old.me.0.drawn ++ result ∷ []), drawer.old.me.1) }
    ensures rises { length drawer.old.me.0.drawn ≤ result }
{
    counter.fetch_add::<Draws>(drawer, 0, 1)
}

/// A seat with one part, which is taken from this seat.
pub fn split_off(counter: &Counter, drawer: &mut Drawer) -> Drawer
    requires counter { (drawer.old.table_id ≡ counter.now.table_id) × (counter.now.table_id.words ≡ 1) }
    requires parts { 0 < drawer.old.me.0.parts }
    requires idle { drawer.old.me.0.drawn ≡ [] }
    ensures counter { (drawer.new.table_id ≡ drawer.old.table_id) × (result.table_id ≡ drawer.old.table_id) }
    ensures parts { drawer.new.me ≡ (hand (drawer.old.me.0.parts - 1) [], drawer.old.me.1) }
    ensures made { result.me ≡ (hand 1 [], []) }
{
    counter.split_seat::<OnePart>(drawer)
}

/// This seat takes in the parts and the draws of another.
pub fn take_in(counter: &Counter, drawer: &mut Drawer, other: Drawer)
    requires counter { (drawer.old.table_id ≡ counter.now.table_id) × (other.table_id ≡ counter.now.table_id) × (counter.now.table_id.words ≡ 1) }
    requires empty { other.me.1 ≡ [] }
    ensures counter { drawer.new.table_id ≡ drawer.old.table_id }
    ensures both { drawer.new.me ≡ (hand (drawer.old.me.0.parts + other.me.0.parts) (drawer.old.me.0.drawn ++ other.me.0.drawn), drawer.old.me.1) }
{
    counter.join_seat::<OnePart>(drawer, other)
}

/// How many numbers were drawn, by a seat that has all parts: it drew each number below that once.
pub fn count_draws(counter: &Counter, drawer: &mut Drawer) -> u64
    requires counter { (drawer.old.table_id ≡ counter.now.table_id) × (counter.now.table_id.words ≡ 1) }
    requires all { drawer.old.me.0.parts ≡ all_parts }
    ensures once { (x : ℕ) → times x drawer.old.me.0.drawn ≡ once_below x result }
{
    counter.load::<Learns>(drawer, 0)
}
