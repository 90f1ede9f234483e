// The steps of a claim, one function for each event.
ghost use Rattle.std.specs.Prelude.{◌≡◌, ◌≢◌, ℕ, ◌*◌, ◌+◌, ◌-◌, ◌<◌, ◌≤◌, ◌^◌, ◌++◌, [], ◌∷◌, length};
ghost use Rattle.row_rule.specs.Known.{Fill, Dying, Offered};
ghost use Rattle.row_rule.specs.Words.{state, counted, children, Free, Live};
ghost use Rattle.row_rule.specs.Rule.{held, others};
ghost use Rattle.row_rule.specs.Changes.{takes, stirred, frees, turns, learns, claim, kids_in, top_of, rest_of, IsTop, made, tried, retaken};
ghost use Rattle.row_rule.specs.Plays.{Ready, row_at, Takes, Frees, Stores, Offers, Whole, Adopts, LearnsKids};

use crate::steps::{Place, Sizes, Words};
use crate::view::View;
use atomic_table::Play;
use store_api::Relate;

pub struct TakenFree;

impl Play<u8, View> for TakenFree {
    ghost then = { Takes Fill 0 };
}

pub struct TakenDead;

impl Play<u8, View> for TakenDead {
    ghost then = { Takes Dying 1 };
}

pub struct Freed;

impl Play<u8, View> for Freed {
    ghost then = { Frees };
}

pub struct Stored;

impl Play<u8, View> for Stored {
    ghost then = { Stores };
}

pub struct OfferedRow;

impl Play<u8, View> for OfferedRow {
    ghost then = { Offers };
}

pub struct Adopted;

impl Play<u8, View> for Adopted {
    ghost then = { Adopts };
}

pub struct Learned;

impl Play<u8, View> for Learned {
    ghost then = { LearnsKids };
}

/// Tries to take a Free row, which was seen as `old`. The word that was found.
pub fn take_free<R: Relate>(
    words: &Words<R>,
    seat: &mut Place,
    sizes: &Sizes,
    row: usize,
    old: u64,
) -> u64
    requires fits { (seat.old.table_id ≡ words.now.table_id) × (sizes.now.buckets ≡ words.now.key.buckets) × (sizes.now.lines ≡ words.now.key.lines) }
    requires ready { Ready words.now.key.buckets words.now.key.lines words.now.table_id seat.old.me.0 }
    requires row { row < 32 * words.now.key.buckets }
    requires free { (state old ≡ Free) × (old + 1 < 2 ^ 64) }
    ensures fits { seat.new.table_id ≡ seat.old.table_id }
    ensures hit { result ≡ old → seat.new.me ≡ (takes row Fill 0 (retaken old (made (row_at seat.old.me.0 row 0) result (old + 1) seat.old.me.0.past)) seat.old.me.0, seat.old.me.1) }
    ensures miss { result ≢ old → seat.new.me ≡ (stirred (tried (row_at seat.old.me.0 row 0) result result seat.old.me.0.past) seat.old.me.0, seat.old.me.1) }
{
    words.compare_exchange::<TakenFree>(seat, sizes.row_word(row, 0), old, old + 1)
}

/// Tries to take a Live row with count 0, which was seen as `old`. The word that was found.
pub fn take_dead<R: Relate>(
    words: &Words<R>,
    seat: &mut Place,
    sizes: &Sizes,
    row: usize,
    old: u64,
) -> u64
    requires fits { (seat.old.table_id ≡ words.now.table_id) × (sizes.now.buckets ≡ words.now.key.buckets) × (sizes.now.lines ≡ words.now.key.lines) }
    requires ready { Ready words.now.key.buckets words.now.key.lines words.now.table_id seat.old.me.0 }
    requires row { row < 32 * words.now.key.buckets }
    requires dead { (state old ≡ Live) × (counted old ≡ 0) }
    ensures fits { seat.new.table_id ≡ seat.old.table_id }
    ensures hit { result ≡ old → seat.new.me ≡ (takes row Dying 1 (retaken old (made (row_at seat.old.me.0 row 0) result (old - 1) seat.old.me.0.past)) seat.old.me.0, seat.old.me.1) }
    ensures miss { result ≢ old → seat.new.me ≡ (stirred (tried (row_at seat.old.me.0 row 0) result result seat.old.me.0.past) seat.old.me.0, seat.old.me.1) }
{
    words.compare_exchange::<TakenDead>(seat, sizes.row_word(row, 0), old, old - 1)
}

/// Gives up the row of the claim that was begun last. The word that was found.
pub fn free_row<R: Relate>(words: &Words<R>, seat: &mut Place, sizes: &Sizes, row: usize) -> u64
    requires fits { (seat.old.table_id ≡ words.now.table_id) × (sizes.now.buckets ≡ words.now.key.buckets) × (sizes.now.lines ≡ words.now.key.lines) }
    requires ready { Ready words.now.key.buckets words.now.key.lines words.now.table_id seat.old.me.0 }
    requires row { (row < 32 * words.now.key.buckets) × (row ≡ (top_of seat.old.me.0).row) }
    requires claim { IsTop Fill [] 0 seat.old.me.0 }
    ensures fits { seat.new.table_id ≡ seat.old.table_id }
    ensures found { 0 < result }
    ensures view { (m : ℕ) → m + 1 ≡ result → seat.new.me ≡ (frees (rest_of seat.old.me.0) (made (row_at seat.old.me.0 row 0) result m seat.old.me.0.past) seat.old.me.0, seat.old.me.1) }
{
    words.fetch_sub::<Freed>(seat, sizes.row_word(row, 0), 1)
}

/// Stores the next content word of the claim that was begun last.
pub fn store_part<R: Relate>(
    words: &Words<R>,
    seat: &mut Place,
    sizes: &Sizes,
    row: usize,
    part: usize,
    value: u64,
)
    requires fits { (seat.old.table_id ≡ words.now.table_id) × (sizes.now.buckets ≡ words.now.key.buckets) × (sizes.now.lines ≡ words.now.key.lines) }
    requires ready { Ready words.now.key.buckets words.now.key.lines words.now.table_id seat.old.me.0 }
    requires row { (row < 32 * words.now.key.buckets) × (row ≡ (top_of seat.old.me.0).row) }
    requires claim { IsTop Fill (top_of seat.old.me.0).kids 0 seat.old.me.0 }
    requires part { (part ≡ length (top_of seat.old.me.0).kept) × (part < 10) }
    ensures fits { seat.new.table_id ≡ seat.old.table_id }
    ensures view { seat.new.me ≡ (turns (claim (top_of seat.old.me.0).row Fill (top_of seat.old.me.0).kids 0 ((top_of seat.old.me.0).kept ++ value ∷ [])) (rest_of seat.old.me.0) (made (row_at seat.old.me.0 row (1 + part)) value value seat.old.me.0.past) seat.old.me.0, seat.old.me.1) }
{
    words.store::<Stored>(seat, sizes.row_word(row, 1 + part), value);
}

/// Offers the row of the claim that was begun last, which has all its words: it is Live, with count 1.
pub fn offer_row<R: Relate>(words: &Words<R>, seat: &mut Place, sizes: &Sizes, row: usize)
    requires fits { (seat.old.table_id ≡ words.now.table_id) × (sizes.now.buckets ≡ words.now.key.buckets) × (sizes.now.lines ≡ words.now.key.lines) }
    requires ready { Ready words.now.key.buckets words.now.key.lines words.now.table_id seat.old.me.0 }
    requires row { (row < 32 * words.now.key.buckets) × (row ≡ (top_of seat.old.me.0).row) }
    requires claim { IsTop Fill (top_of seat.old.me.0).kids 0 seat.old.me.0 }
    requires whole { Whole words.now.key.buckets seat.old.me.0 }
    ensures fits { seat.new.table_id ≡ seat.old.table_id }
    ensures view { seat.new.me ≡ (turns (claim (top_of seat.old.me.0).row Offered [] 0 (top_of seat.old.me.0).kept) (rest_of seat.old.me.0) (made (row_at seat.old.me.0 row 0) 14 14 seat.old.me.0.past) seat.old.me.0, seat.old.me.1) }
{
    words.store::<OfferedRow>(seat, sizes.row_word(row, 0), 14);
}

/// The claim that was begun last counts one more child, which is held.
pub fn adopt<R: Relate>(words: &Words<R>, seat: &mut Place, sizes: &Sizes, row: usize) -> u64
    requires fits { (seat.old.table_id ≡ words.now.table_id) × (sizes.now.buckets ≡ words.now.key.buckets) × (sizes.now.lines ≡ words.now.key.lines) }
    requires ready { Ready words.now.key.buckets words.now.key.lines words.now.table_id seat.old.me.0 }
    requires row { row < 32 * words.now.key.buckets }
    requires held { 0 < held seat.old.me.0.holds row }
    requires claim { IsTop Fill (top_of seat.old.me.0).kids (top_of seat.old.me.0).unread seat.old.me.0 }
    requires room { others seat.old.me.0 < 1024 }
    ensures fits { seat.new.table_id ≡ seat.old.table_id }
    ensures view { seat.new.me ≡ (turns (claim (top_of seat.old.me.0).row Fill (row ∷ (top_of seat.old.me.0).kids) (top_of seat.old.me.0).unread (top_of seat.old.me.0).kept) (rest_of seat.old.me.0) (made (row_at seat.old.me.0 row 0) result (result + 8) seat.old.me.0.past) seat.old.me.0, seat.old.me.1) }
{
    words.fetch_add::<Adopted>(seat, sizes.row_word(row, 0), 8)
}

/// The claim that was begun last reads which rows its row's child word names.
pub fn learn_kids<R: Relate>(words: &Words<R>, seat: &mut Place, sizes: &Sizes, row: usize) -> u64
    requires fits { (seat.old.table_id ≡ words.now.table_id) × (sizes.now.buckets ≡ words.now.key.buckets) × (sizes.now.lines ≡ words.now.key.lines) }
    requires ready { Ready words.now.key.buckets words.now.key.lines words.now.table_id seat.old.me.0 }
    requires row { (row < 32 * words.now.key.buckets) × (row ≡ (top_of seat.old.me.0).row) }
    requires claim { IsTop Fill [] 1 seat.old.me.0 }
    requires room { others seat.old.me.0 + 2 ≤ 1024 }
    ensures fits { seat.new.table_id ≡ seat.old.table_id }
    ensures rows { (r : ℕ) → 0 < children result r → r < 32 * seat.old.me.0.buckets }
    ensures view { seat.new.me ≡ (learns (claim (top_of seat.old.me.0).row Fill (kids_in result) 0 (top_of seat.old.me.0).kept) (rest_of seat.old.me.0) result (row_at seat.old.me.0 row 2) (made (row_at seat.old.me.0 row 2) result result seat.old.me.0.past) seat.old.me.0, seat.old.me.1) }
{
    words.load::<Learned>(seat, sizes.row_word(row, 2))
}
