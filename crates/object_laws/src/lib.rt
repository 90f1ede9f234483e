//! Further laws of objects and values: every operation gives lawful objects, and two equal values join and widen to
//! themselves.
//!
//! Stands on the definitions of `abstract_memory` and on the laws that are proved there.
#![tactic(auto)]

mod lawful;
mod same;

pub use lawful::{
    blur_is_lawful, copy_is_lawful, escape_is_lawful, fresh_is_lawful, weak_write_is_lawful,
    widening_is_lawful,
};
pub use same::{inclusion_is_reflexive, join_is_idempotent, widening_is_idempotent};
