// The steps of a pass, one function for each event.
ghost use Rattle.std.specs.Prelude.{◌≡◌, ℕ, ◌*◌, ◌+◌, ◌<◌, ◌≤◌, ◌^◌, length, List, ℤ};
ghost use Rattle.row_rule.specs.Rule.{Rule, held, Told};
ghost use Rattle.row_rule.specs.Words.{children};
ghost use Rattle.row_rule.specs.Changes.{first_view, gains, gives, sees, known, made};
ghost use Rattle.row_rule.specs.Plays.{table, Ready, row_at, Gains, Gives, Sees, PartIs};

use crate::view::View;
use atomic_table::{Play, Seat, Shared, TableRule};
use std::marker::PhantomData;
use store_api::Relate;

/// What a table is told when it is made.
#[derive(Drop)]
pub struct Layout<R> {
    pub buckets: usize,
    pub lines: usize,
    pub about: R,
}

/// How many buckets and cache lines there are.
#[derive(Clone, Copy)]
pub struct Sizes {
    pub buckets: usize,
    pub lines: usize,
}

pub struct Rows<R> {
    rule: PhantomData<R>,
}

impl<R: Relate> TableRule<u8, View, Layout<R>> for Rows<R> {
    ghost holds = { λ k s. Rule (table k.buckets k.lines (R.about k.about) R.related) s };

    ghost first = { λ k. first_view (table k.buckets k.lines (R.about k.about) R.related) };
}

pub type Words<R> = Shared<u8, View, Layout<R>, Rows<R>>;

pub type Place = Seat<u8, View>;

pub struct Gained;

impl Play<u8, View> for Gained {
    ghost then = { Gains };
}

pub struct Given;

impl Play<u8, View> for Given {
    ghost then = { Gives };
}

pub struct Seen;

impl Play<u8, View> for Seen {
    ghost then = { Sees };
}

impl Sizes {
    /// Where a word of a row stands.
    pub fn row_word(&self, row: usize, part: usize) -> usize
        requires { (self.now.buckets ≤ 2 ^ 15) × (self.now.lines ≤ 2 ^ 16) × (row < 2 ^ 20) × (part < 11) }
        ensures { result ≡ 1 + self.now.buckets + self.now.lines + 11 * row + part }
    {
        1 + self.buckets + self.lines + 11 * row + part
    }
}

/// One more hold of a row that is held.
pub fn add_hold<R: Relate>(words: &Words<R>, seat: &mut Place, sizes: &Sizes, row: usize) -> u64
    requires fits { (seat.old.table_id ≡ words.now.table_id) × (sizes.now.buckets ≡ words.now.key.buckets) × (sizes.now.lines ≡ words.now.key.lines) }
    requires ready { Ready words.now.key.buckets words.now.key.lines words.now.table_id seat.old.me.0 }
    requires row { row < 32 * words.now.key.buckets }
    requires held { 0 < held seat.old.me.0.holds row }
    requires room { length seat.old.me.0.holds < 2 ^ 32 }
    ensures fits { seat.new.table_id ≡ seat.old.table_id }
    ensures told { Told seat.new.me.0 }
    ensures view { seat.new.me ≡ (gains row (known seat.old.me.0.holds row) (made (row_at seat.old.me.0 row 0) result (result + 8) seat.old.me.0.past) seat.old.me.0, seat.old.me.1) }
{
    words.fetch_add::<Gained>(seat, sizes.row_word(row, 0), 8)
}

/// One hold less. The control word that was found.
pub fn drop_hold<R: Relate>(words: &Words<R>, seat: &mut Place, sizes: &Sizes, row: usize) -> u64
    requires fits { (seat.old.table_id ≡ words.now.table_id) × (sizes.now.buckets ≡ words.now.key.buckets) × (sizes.now.lines ≡ words.now.key.lines) }
    requires ready { Ready words.now.key.buckets words.now.key.lines words.now.table_id seat.old.me.0 }
    requires row { row < 32 * words.now.key.buckets }
    requires held { 0 < held seat.old.me.0.holds row }
    ensures fits { seat.new.table_id ≡ seat.old.table_id }
    ensures found { 8 ≤ result }
    ensures told { Told seat.new.me.0 }
    ensures view { (m : ℕ) → m + 8 ≡ result → seat.new.me ≡ (gives row (made (row_at seat.old.me.0 row 0) result m seat.old.me.0.past) seat.old.me.0, seat.old.me.1) }
{
    words.fetch_sub::<Given>(seat, sizes.row_word(row, 0), 8)
}

/// A content word, from 0 to 9, of a row that is held.
pub fn see_part<R: Relate>(
    words: &Words<R>,
    seat: &mut Place,
    sizes: &Sizes,
    row: usize,
    part: usize,
) -> u64
    requires fits { (seat.old.table_id ≡ words.now.table_id) × (sizes.now.buckets ≡ words.now.key.buckets) × (sizes.now.lines ≡ words.now.key.lines) }
    requires ready { Ready words.now.key.buckets words.now.key.lines words.now.table_id seat.old.me.0 }
    requires row { (row < 32 * words.now.key.buckets) × (part < 10) }
    requires held { 0 < held seat.old.me.0.holds row }
    ensures fits { seat.new.table_id ≡ seat.old.table_id }
    ensures part { PartIs (known seat.old.me.0.holds row) part result }
    ensures rows { part ≡ 1 → (q : ℕ) → 0 < children result q → q < 32 * seat.old.me.0.buckets }
    ensures view { seat.new.me ≡ (sees row part result (row_at seat.old.me.0 row (1 + part)) (made (row_at seat.old.me.0 row (1 + part)) result result seat.old.me.0.past) seat.old.me.0, seat.old.me.1) }
{
    words.load::<Seen>(seat, sizes.row_word(row, 1 + part))
}
