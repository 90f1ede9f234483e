//! The concrete meaning of C on the data model (int has 32 bits): what an operation gives, or how it is undefined.
//!
//! `negate`, `operate` and `evaluate` are exactly the definitions of `specs/ConstantValue`. What an execution of a function
//! is, and where it is undefined, is defined in `specs/ConstantExecution`. Stands on the graphs of `program`.
#![tactic(auto)]

mod constant;

pub use constant::{Undefined, evaluate, negate, operate};

#[cfg(test)]
mod tests;
