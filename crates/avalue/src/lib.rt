//! Values of the analysis: flags for uninitialised and dangling contents, integers, and pointers by
//! base with byte offsets.
//!
//! Each call equals its formula part by part (`specs/`), or answers that memory has run out. Stands
//! on `ival`, and on the lists of `sqlite_items`.
#![tactic(auto)]

mod error;
mod laws;
mod pointers;
mod rules;
mod value;

pub use error::Memory;
pub use laws::{included_is_sound, join_keeps, widen_keeps};
pub use value::{Location, Value};

#[cfg(test)]
mod tests;
