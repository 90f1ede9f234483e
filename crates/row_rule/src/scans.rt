// The steps of a scan, a pin and a bucket's word, one function for each event.
ghost use Rattle.std.specs.Prelude.{◌≡◌, ◌≢◌, ℕ, suc, ◌*◌, ◌+◌, ◌-◌, ◌/◌, ◌%◌, ◌<◌, ◌≤◌, ◌^◌, ◌++◌, [], ◌∷◌, length, slice_index};
ghost use mathlib.Core.Option.{some, none};
ghost use Rattle.atomic_table.specs.Table.{step};
ghost use lib.ListN.{get_elem?};
ghost use Rattle.std.specs.Int.{bit_at};
ghost use Rattle.store_api.specs.Tree.{kid};
ghost use Rattle.row_rule.specs.Known.{Fill, Dying, Marked, Offered};
ghost use Rattle.row_rule.specs.Words.{state, left, right, Proper, version, Taken, Live};
ghost use Rattle.row_rule.specs.Rule.{held, others, Told};
ghost use Rattle.row_rule.specs.Changes.{stirred, frees, turns, learns, claim, top_of, rest_of, IsTop, later_rows, first_row, NotSeen, publishes, scan_of, begins, scans_part, scans_control, scans_taken, pinned, unpins, clears, gains, known, made, tried, noticed};
ghost use Rattle.row_rule.specs.Plays.{Ready, row_at, SeesBit, Drops, Begins, ScansControl, ScansPart, Pins, Unpins, Withdraws, Clears, Confirms, Publishes, made_tree, GainsLeft, GainsRight};

use crate::steps::{Place, Sizes, Words};
use crate::view::View;
use atomic_table::Play;
use store_api::Relate;

pub struct BitSeen;

impl Play<u8, View> for BitSeen {
    ghost then = { SeesBit };
}

pub struct Dropped;

impl Play<u8, View> for Dropped {
    ghost then = { Drops };
}

pub struct Begun;

impl Play<u8, View> for Begun {
    ghost then = { Begins };
}

pub struct ControlScanned;

impl Play<u8, View> for ControlScanned {
    ghost then = { ScansControl };
}

pub struct PartScanned;

impl Play<u8, View> for PartScanned {
    ghost then = { ScansPart };
}

pub struct PinSet;

impl Play<u8, View> for PinSet {
    ghost then = { Pins };
}

pub struct PinGone;

impl Play<u8, View> for PinGone {
    ghost then = { Unpins };
}

pub struct Withdrawn;

impl Play<u8, View> for Withdrawn {
    ghost then = { Withdraws };
}

pub struct BitCleared;

impl Play<u8, View> for BitCleared {
    ghost then = { Clears };
}

pub struct GainedLeft;

impl Play<u8, View> for GainedLeft {
    ghost then = { GainsLeft };
}

pub struct GainedRight;

impl Play<u8, View> for GainedRight {
    ghost then = { GainsRight };
}

pub struct PinConfirmed;

impl Play<u8, View> for PinConfirmed {
    ghost then = { Confirms };
}

pub struct Published;

impl Play<u8, View> for Published {
    ghost then = { Publishes };
}

/// The Dying claim that was begun last sees whether its row's bit is set. The bucket's word.
pub fn see_bit<R: Relate>(words: &Words<R>, seat: &mut Place, row: usize) -> u64
    requires fits { seat.old.table_id ≡ words.now.table_id }
    requires ready { Ready words.now.key.buckets words.now.key.lines words.now.table_id seat.old.me.0 }
    requires row { (row < 32 * words.now.key.buckets) × (row ≡ (top_of seat.old.me.0).row) }
    requires claim { IsTop Dying (top_of seat.old.me.0).kids (top_of seat.old.me.0).unread seat.old.me.0 }
    ensures fits { seat.new.table_id ≡ seat.old.table_id }
    ensures clear { bit_at result ((top_of seat.old.me.0).row % 32) ≡ 0 → seat.new.me ≡ (learns (claim (top_of seat.old.me.0).row Fill (top_of seat.old.me.0).kids (top_of seat.old.me.0).unread (top_of seat.old.me.0).kept) (rest_of seat.old.me.0) result (1 + row / 32) (noticed ((top_of seat.old.me.0).row / 32) seat.old.me.0.scans (1 + row / 32) result seat.old.me.0.past) seat.old.me.0, seat.old.me.1) }
    ensures set { bit_at result ((top_of seat.old.me.0).row % 32) ≡ 1 → seat.new.me ≡ (learns (claim (top_of seat.old.me.0).row Marked (top_of seat.old.me.0).kids (top_of seat.old.me.0).unread (top_of seat.old.me.0).kept) (rest_of seat.old.me.0) result (1 + row / 32) (noticed ((top_of seat.old.me.0).row / 32) seat.old.me.0.scans (1 + row / 32) result seat.old.me.0.past) seat.old.me.0, seat.old.me.1) }
{
    words.load::<BitSeen>(seat, 1 + row / 32)
}

/// The first child that the claim in Fill counts goes. The word that was found.
pub fn drop_child<R: Relate>(words: &Words<R>, seat: &mut Place, sizes: &Sizes, row: usize) -> u64
    requires fits { (seat.old.table_id ≡ words.now.table_id) × (sizes.now.buckets ≡ words.now.key.buckets) × (sizes.now.lines ≡ words.now.key.lines) }
    requires ready { Ready words.now.key.buckets words.now.key.lines words.now.table_id seat.old.me.0 }
    requires row { row < 32 * words.now.key.buckets }
    requires claim { IsTop Fill (row ∷ later_rows (top_of seat.old.me.0).kids) (top_of seat.old.me.0).unread seat.old.me.0 }
    ensures fits { seat.new.table_id ≡ seat.old.table_id }
    ensures found { 8 ≤ result }
    ensures view { (m : ℕ) → m + 8 ≡ result → seat.new.me ≡ (turns (claim (top_of seat.old.me.0).row Fill (later_rows (top_of seat.old.me.0).kids) (top_of seat.old.me.0).unread (top_of seat.old.me.0).kept) (rest_of seat.old.me.0) (made (row_at seat.old.me.0 row 0) result m seat.old.me.0.past) seat.old.me.0, seat.old.me.1) }
{
    words.fetch_sub::<Dropped>(seat, sizes.row_word(row, 0), 8)
}

/// A scan of the bucket begins. Its word.
pub fn begin_scan<R: Relate>(words: &Words<R>, seat: &mut Place, bucket: usize) -> u64
    requires fits { seat.old.table_id ≡ words.now.table_id }
    requires ready { Ready words.now.key.buckets words.now.key.lines words.now.table_id seat.old.me.0 }
    requires bucket { bucket < words.now.key.buckets }
    ensures fits { seat.new.table_id ≡ seat.old.table_id }
    ensures view { seat.new.me ≡ (begins bucket result (1 + bucket) (made (1 + bucket) result result seat.old.me.0.past) seat.old.me.0, seat.old.me.1) }
{
    words.load::<Begun>(seat, 1 + bucket)
}

/// The scan sees a control word.
pub fn scan_control<R: Relate>(words: &Words<R>, seat: &mut Place, sizes: &Sizes, row: usize) -> u64
    requires fits { (seat.old.table_id ≡ words.now.table_id) × (sizes.now.buckets ≡ words.now.key.buckets) × (sizes.now.lines ≡ words.now.key.lines) }
    requires ready { Ready words.now.key.buckets words.now.key.lines words.now.table_id seat.old.me.0 }
    requires row { row < 32 * words.now.key.buckets }
    requires scan { seat.old.me.0.scans ≡ (scan_of seat.old.me.0) ∷ [] }
    requires inside { row / 32 ≡ (scan_of seat.old.me.0).bucket }
    ensures fits { seat.new.table_id ≡ seat.old.table_id }
    ensures taken { state result ≡ Taken → seat.new.me ≡ (scans_taken (scan_of seat.old.me.0) row result (row_at seat.old.me.0 row 0) (made (row_at seat.old.me.0 row 0) result result seat.old.me.0.past) seat.old.me.0, seat.old.me.1) }
    ensures other { state result ≢ Taken → seat.new.me ≡ (scans_control (scan_of seat.old.me.0) row result (row_at seat.old.me.0 row 0) (made (row_at seat.old.me.0 row 0) result result seat.old.me.0.past) seat.old.me.0, seat.old.me.1) }
{
    words.load::<ControlScanned>(seat, sizes.row_word(row, 0))
}

/// The scan sees a content word, from 0 to 9.
pub fn scan_part<R: Relate>(
    words: &Words<R>,
    seat: &mut Place,
    sizes: &Sizes,
    row: usize,
    part: usize,
) -> u64
    requires fits { (seat.old.table_id ≡ words.now.table_id) × (sizes.now.buckets ≡ words.now.key.buckets) × (sizes.now.lines ≡ words.now.key.lines) }
    requires ready { Ready words.now.key.buckets words.now.key.lines words.now.table_id seat.old.me.0 }
    requires row { row < 32 * words.now.key.buckets }
    requires scan { seat.old.me.0.scans ≡ (scan_of seat.old.me.0) ∷ [] }
    requires inside { row / 32 ≡ (scan_of seat.old.me.0).bucket }
    requires part { part < 10 }
    ensures fits { seat.new.table_id ≡ seat.old.table_id }
    ensures view { seat.new.me ≡ (scans_part (scan_of seat.old.me.0) row part result (row_at seat.old.me.0 row (1 + part)) (made (row_at seat.old.me.0 row (1 + part)) result result seat.old.me.0.past) seat.old.me.0, seat.old.me.1) }
{
    words.load::<PartScanned>(seat, sizes.row_word(row, 1 + part))
}

/// Tries to pin a row that was seen Live, with the control word `old`. The word that was found.
pub fn pin_row<R: Relate>(
    words: &Words<R>,
    seat: &mut Place,
    sizes: &Sizes,
    row: usize,
    old: u64,
) -> u64
    requires fits { (seat.old.table_id ≡ words.now.table_id) × (sizes.now.buckets ≡ words.now.key.buckets) × (sizes.now.lines ≡ words.now.key.lines) }
    requires ready { Ready words.now.key.buckets words.now.key.lines words.now.table_id seat.old.me.0 }
    requires row { row < 32 * words.now.key.buckets }
    requires live { (state old ≡ Live) × (old + 8 < 2 ^ 64) }
    requires room { others seat.old.me.0 < 1024 }
    ensures fits { seat.new.table_id ≡ seat.old.table_id }
    ensures hit { result ≡ old → seat.new.me ≡ (pinned row (made (row_at seat.old.me.0 row 0) result (old + 8) seat.old.me.0.past) seat.old.me.0, seat.old.me.1) }
    ensures miss { result ≢ old → seat.new.me ≡ (stirred (tried (row_at seat.old.me.0 row 0) result result seat.old.me.0.past) seat.old.me.0, seat.old.me.1) }
{
    words.compare_exchange::<PinSet>(seat, sizes.row_word(row, 0), old, old + 8)
}

/// The pin goes. The word that was found.
pub fn unpin_row<R: Relate>(words: &Words<R>, seat: &mut Place, sizes: &Sizes, row: usize) -> u64
    requires fits { (seat.old.table_id ≡ words.now.table_id) × (sizes.now.buckets ≡ words.now.key.buckets) × (sizes.now.lines ≡ words.now.key.lines) }
    requires ready { Ready words.now.key.buckets words.now.key.lines words.now.table_id seat.old.me.0 }
    requires row { row < 32 * words.now.key.buckets }
    requires pin { seat.old.me.0.pins ≡ row ∷ [] }
    ensures fits { seat.new.table_id ≡ seat.old.table_id }
    ensures found { 8 ≤ result }
    ensures view { (m : ℕ) → m + 8 ≡ result → seat.new.me ≡ (unpins [] (made (row_at seat.old.me.0 row 0) result m seat.old.me.0.past) seat.old.me.0, seat.old.me.1) }
{
    words.fetch_sub::<PinGone>(seat, sizes.row_word(row, 0), 8)
}

/// The offer that was made last is withdrawn. The word that was found.
pub fn withdraw<R: Relate>(words: &Words<R>, seat: &mut Place, sizes: &Sizes, row: usize) -> u64
    requires fits { (seat.old.table_id ≡ words.now.table_id) × (sizes.now.buckets ≡ words.now.key.buckets) × (sizes.now.lines ≡ words.now.key.lines) }
    requires ready { Ready words.now.key.buckets words.now.key.lines words.now.table_id seat.old.me.0 }
    requires row { (row < 32 * words.now.key.buckets) × (row ≡ (top_of seat.old.me.0).row) }
    requires claim { IsTop Offered [] 0 seat.old.me.0 }
    ensures fits { seat.new.table_id ≡ seat.old.table_id }
    ensures found { 8 ≤ result }
    ensures view { (m : ℕ) → m + 8 ≡ result → seat.new.me ≡ (frees (rest_of seat.old.me.0) (made (row_at seat.old.me.0 row 0) result m seat.old.me.0.past) seat.old.me.0, seat.old.me.1) }
{
    words.fetch_sub::<Withdrawn>(seat, sizes.row_word(row, 0), 8)
}

/// Takes the Dying row whose bit was seen set out of its bucket, by adding 2^32 - 2^way. The bucket's word that was found.
pub fn clear_bit<R: Relate>(words: &Words<R>, seat: &mut Place, row: usize, add: u64) -> u64
    requires fits { seat.old.table_id ≡ words.now.table_id }
    requires ready { Ready words.now.key.buckets words.now.key.lines words.now.table_id seat.old.me.0 }
    requires row { (row < 32 * words.now.key.buckets) × (row ≡ (top_of seat.old.me.0).row) }
    requires claim { IsTop Marked (top_of seat.old.me.0).kids (top_of seat.old.me.0).unread seat.old.me.0 }
    requires add { add ≡ 2 ^ 32 - 2 ^ ((top_of seat.old.me.0).row % 32) }
    ensures fits { seat.new.table_id ≡ seat.old.table_id }
    ensures view { seat.new.me ≡ (clears ((top_of seat.old.me.0).row / 32) result (result - 2 ^ ((top_of seat.old.me.0).row % 32) + 2 ^ 32) (claim (top_of seat.old.me.0).row Fill (top_of seat.old.me.0).kids (top_of seat.old.me.0).unread (top_of seat.old.me.0).kept) (rest_of seat.old.me.0) (tried (1 + row / 32) result (result - 2 ^ ((top_of seat.old.me.0).row % 32) + 2 ^ 32) seat.old.me.0.past) seat.old.me.0, seat.old.me.1) }
{
    words.fetch_add::<BitCleared>(seat, 1 + row / 32, add)
}

/// A hold of the first subtree of a row that is held, whose child word was seen last.
pub fn add_left<R: Relate>(
    words: &Words<R>,
    seat: &mut Place,
    sizes: &Sizes,
    row: usize,
    parent: usize,
    link: u64,
) -> u64
    requires fits { (seat.old.table_id ≡ words.now.table_id) × (sizes.now.buckets ≡ words.now.key.buckets) × (sizes.now.lines ≡ words.now.key.lines) }
    requires ready { Ready words.now.key.buckets words.now.key.lines words.now.table_id seat.old.me.0 }
    requires row { row < 32 * words.now.key.buckets }
    requires held { 0 < held seat.old.me.0.holds parent }
    requires seen { get_elem? seat.old.me.0.seen 0 ≡ some (parent, (1, link)) }
    requires kid { left link ≡ suc row }
    requires room { length seat.old.me.0.holds < 2 ^ 32 }
    ensures fits { seat.new.table_id ≡ seat.old.table_id }
    ensures told { Told seat.new.me.0 }
    ensures view { seat.new.me ≡ (gains row (kid (known seat.old.me.0.holds parent) 0) (made (row_at seat.old.me.0 row 0) result (result + 8) seat.old.me.0.past) seat.old.me.0, seat.old.me.1) }
{
    words.fetch_add::<GainedLeft>(seat, sizes.row_word(row, 0), 8)
}

/// A hold of the second subtree of a row that is held, whose child word was seen last.
pub fn add_right<R: Relate>(
    words: &Words<R>,
    seat: &mut Place,
    sizes: &Sizes,
    row: usize,
    parent: usize,
    link: u64,
) -> u64
    requires fits { (seat.old.table_id ≡ words.now.table_id) × (sizes.now.buckets ≡ words.now.key.buckets) × (sizes.now.lines ≡ words.now.key.lines) }
    requires ready { Ready words.now.key.buckets words.now.key.lines words.now.table_id seat.old.me.0 }
    requires row { row < 32 * words.now.key.buckets }
    requires held { 0 < held seat.old.me.0.holds parent }
    requires seen { get_elem? seat.old.me.0.seen 0 ≡ some (parent, (1, link)) }
    requires kid { right link ≡ suc row }
    requires room { length seat.old.me.0.holds < 2 ^ 32 }
    ensures fits { seat.new.table_id ≡ seat.old.table_id }
    ensures told { Told seat.new.me.0 }
    ensures view { seat.new.me ≡ (gains row (kid (known seat.old.me.0.holds parent) 1) (made (row_at seat.old.me.0 row 0) result (result + 8) seat.old.me.0.past) seat.old.me.0, seat.old.me.1) }
{
    words.fetch_add::<GainedRight>(seat, sizes.row_word(row, 0), 8)
}

/// The pin is a hold, where the bucket's word is still the scan's. That word.
pub fn confirm_pin<R: Relate>(words: &Words<R>, seat: &mut Place, row: usize) -> u64
    requires fits { seat.old.table_id ≡ words.now.table_id }
    requires ready { Ready words.now.key.buckets words.now.key.lines words.now.table_id seat.old.me.0 }
    requires row { row < 32 * words.now.key.buckets }
    requires pin { (seat.old.me.0.pins ≡ first_row seat.old.me.0.pins ∷ []) × (row ≡ first_row seat.old.me.0.pins) }
    requires scan { seat.old.me.0.scans ≡ (scan_of seat.old.me.0) ∷ [] }
    requires inside { first_row seat.old.me.0.pins / 32 ≡ (scan_of seat.old.me.0).bucket }
    requires set { bit_at (scan_of seat.old.me.0).word (first_row seat.old.me.0.pins % 32) ≡ 1 }
    requires room { length seat.old.me.0.holds < 2 ^ 32 }
    ensures fits { seat.new.table_id ≡ seat.old.table_id }
    ensures view { Confirms (step 0 (1 + row / 32) 0 0 none) seat.old.me result seat.new.me }
{
    words.load::<PinConfirmed>(seat, 1 + row / 32)
}

/// Tries to put the offered row into its bucket, whose word the scan saw as `old`. The word that was found.
pub fn publish<R: Relate>(words: &Words<R>, seat: &mut Place, row: usize, old: u64, new: u64) -> u64
    requires fits { seat.old.table_id ≡ words.now.table_id }
    requires ready { Ready words.now.key.buckets words.now.key.lines words.now.table_id seat.old.me.0 }
    requires row { (row < 32 * words.now.key.buckets) × (row ≡ (top_of seat.old.me.0).row) }
    requires claim { IsTop Offered [] 0 seat.old.me.0 }
    requires scan { seat.old.me.0.scans ≡ (scan_of seat.old.me.0) ∷ [] }
    requires inside { (scan_of seat.old.me.0).bucket ≡ (top_of seat.old.me.0).row / 32 }
    requires words { (old ≡ (scan_of seat.old.me.0).word) × (new ≡ (scan_of seat.old.me.0).word + 2 ^ ((top_of seat.old.me.0).row % 32) + 2 ^ 32) }
    requires unseen { NotSeen (scan_of seat.old.me.0) ((top_of seat.old.me.0).row / 32) (top_of seat.old.me.0).kept }
    requires young { version (scan_of seat.old.me.0).word < 2 ^ 32 - 64 }
    requires proper { Proper (slice_index (top_of seat.old.me.0).kept 1) }
    requires first { (q : ℕ) → left (slice_index (top_of seat.old.me.0).kept 1) ≡ suc q → 0 < held seat.old.me.0.holds q }
    requires second { (q : ℕ) → right (slice_index (top_of seat.old.me.0).kept 1) ≡ suc q → 0 < held seat.old.me.0.holds q }
    requires room { length seat.old.me.0.holds < 2 ^ 32 }
    ensures fits { seat.new.table_id ≡ seat.old.table_id }
    ensures hit { result ≡ old → (seat.new.me ≡ (publishes (top_of seat.old.me.0).row (made_tree seat.old.me.0) (rest_of seat.old.me.0) (made (1 + row / 32) result new seat.old.me.0.past) seat.old.me.0, seat.old.me.1)) × Told seat.new.me.0 }
    ensures miss { result ≢ old → seat.new.me ≡ (stirred (tried (1 + row / 32) result result seat.old.me.0.past) seat.old.me.0, seat.old.me.1) }
{
    words.compare_exchange::<Published>(seat, 1 + row / 32, old, new)
}
