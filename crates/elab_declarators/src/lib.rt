//! Declarators, type names and lists of specifiers with the bodies in them: the type that a declarator gives its name (C11 6.7
//! to 6.7.7).
//!
//! Promises: `specifiers`, `declarator` and `type_name` of a `Level` answer what the rules of these names in `elab_rules` say,
//! and leave the environment that they say; each constraint that is broken is noted there, with its place. The rules one level
//! of nesting below are parameters: lists of specifiers and declarators, and integer constant expressions, which lengths,
//! widths and enumerators are. The only error is want of memory. Stands on `elab_specifiers`.
#![tactic(auto)]

mod arrays;
mod declarators;
mod enums;
mod functions;
mod nest;
mod parameters;
mod pointers;
mod specifiers;
mod structs;

pub use nest::{Level, nothing_declared, nothing_specified};
