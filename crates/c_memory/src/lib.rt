//! Memories, bit by bit: what one bit of an object holds (C11 6.2.6), objects, and the objects that live.
//!
//! The concrete machine runs on these memories, and the analysis says by them which memories an abstract state stands for.
//! Stands on `sqlite_items`, whose lists contracts see as what they hold.
#![tactic(auto)]

mod cells;
mod memory;

pub use cells::{Cell, bit_of, bits_are_shifted};
pub use memory::{Mem, Object, find, overwrite};
