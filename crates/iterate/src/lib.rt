//! The lone run of one entry function: a fixed point over its graph, one node at a time.
//!
//! `analyse_entry` gives the lone run of `specs/ConstantRun`: its alarms, its end state and its turns. Wherever an
//! execution of the function is undefined, that place is among the alarms. Stands on the meaning of `constant_meaning`.
#![tactic(auto)]

mod constant;
mod constant_laws;

pub use constant::{EntryResult, State, analyse_entry};
pub use constant_laws::{constant_norm_is_taken, constant_run_is_unique};

#[cfg(test)]
mod tests;
