//! The normal form of a C function: a graph of typed nodes, numbered in order of emission.
//!
//! So far for files of functions `int NAME(void) { return E; }` that return constants: `definitions` answers the
//! functions of such a file, exactly where it is of that form (`specs/ConstantForm`), and `normalise` gives each the graph
//! that `norm` names (`specs/ConstantNorm`). Stands on the trees of `c_tree` and the graphs of `program`.
#![tactic(auto)]

mod constant;
mod expression;
mod form;

pub use constant::{Returning, normalise};
pub use form::definitions;

#[cfg(test)]
mod tests;
