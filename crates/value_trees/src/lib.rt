//! Values in any store: their trees are made here, and read back.
//!
//! What is read back is what was put. Stands on the trees of `memory_trees` and the tries of `hptmap`.
#![tactic(auto, using(store_api::specs::Bag::one_self))]

mod integers;
mod pointers;
mod values;

pub use integers::take_ival;
pub use values::{put_value, take_value};
