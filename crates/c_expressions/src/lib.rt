//! Expressions, declarators and specifiers, which hold one another (C11 A.2.1, and of A.2.2 what stands in them).
//!
//! Each call of `nodes` reads what the rule of `specs/` reads from the words, or stops where it stops, with nodes that nest
//! as deep as the room. The rules take the parser of the nodes one level of room below as a parameter (`nest`); `levels`
//! ties them together. Stands on `c_input` and `c_tree`.
#![tactic(auto)]

mod declarators;
mod expressions;
mod grown;
mod levels;
mod nest;
mod nodes;
mod operands;
mod specifiers;

pub use grown::{Declares, Grown, Mode, Specs};
pub use nodes::{declaration_specs, declarator, expr, named, specs_after_name};
