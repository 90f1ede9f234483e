//! What the operations on objects do with the values of groups and of single bits.
//!
//! Each call equals its definition in `abstract_memory`, or answers that memory has run out. Stands on the values of
//! `avalue`.
#![tactic(auto)]

mod ints;
mod loosening;
mod values;

pub use ints::{any_number, bit_ints, is_empty, only_number};
pub use loosening::{as_written, is_uninit, is_zero, loose, loose_join, points};
pub use values::{copied, escape, included, join, widen};
