//! Values, objects and states as trees of a store: what each tree spells, and which trees are those of a
//! well-formed value, object or state.
//!
//! Each has exactly one tree, so that equal ones are `same`. Stands on the tries of `hptmap` and the
//! definitions of `abstract_memory`.
#![tactic(auto, using(store_api::specs::Bag::one_self))]

mod blocks;
mod integers;
mod laws;
mod words;

pub use blocks::{block, leaf, link, lower, one_run, out, put_range, upper};
pub use integers::{ivals_come_back, put_ival};
pub use laws::{objects_have_one_tree, states_have_one_tree};
pub use words::number_in;
