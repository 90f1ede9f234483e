//! The rule of a table of rows that many threads share.
//!
//! A row has a tree's shape and names the rows of its subtrees. This crate says what the words of the
//! table mean, what each pass knows, and what holds between any two steps.
#![tactic(auto, using(store_api::specs::Bag::one_self))]

mod claims;
mod passes;
mod scans;
mod steps;
mod view;

pub use claims::{adopt, free_row, learn_kids, offer_row, store_part, take_dead, take_free};
pub use passes::{count_split, join_place, see_passes, settle, split_place};
pub use scans::{
    add_left, add_right, begin_scan, clear_bit, confirm_pin, drop_child, pin_row, publish,
    scan_control, scan_part, see_bit, unpin_row, withdraw,
};
pub use steps::{Layout, Place, Rows, Sizes, Words, add_hold, drop_hold, see_part};
pub use view::View;
