//! The concrete machine: C11's meaning of the graphs of `program`, bit by bit.
//!
//! `begin` gives the described initial states of a function, `asked` the range of the number that the
//! next step reads, and `step` the next configuration, or the place where the execution is undefined.
//! Each equals its short definition in `specs/`, whose words are those of C11.
//! Stands on the memories of `c_memory`, the arithmetic of `c_arithmetic`, the graphs of `program`, and the
//! sizes and conversions of `c_types`.
#![tactic(auto)]

mod cells;
mod config;
mod error;
mod evaluate;
mod execution;
mod initial;
mod instructions;
mod memory;
mod operators;
mod parts;
mod types;
mod value;

pub use config::{Config, Move};
pub use error::Memory;
pub use execution::{asked, step};
pub use initial::{BeginStop, Begun, begin};
pub use value::{BitAddress, Undefined, Value};

#[cfg(test)]
mod tests;
