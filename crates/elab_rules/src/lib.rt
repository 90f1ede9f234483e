//! The rules of declarations and expressions (C11 6.5 to 6.7), as definitions: which type a declarator gives its name, which
//! operand an expression is, which constraint is broken where.
//!
//! Each rule is a function of the environment that no step stops. Rules hold one another, as a tree nests: they take the rules
//! one level of nesting below, and `specs/Levels` ties them. This crate has the types that they speak of, and no code; the
//! crates above have a function for each rule, whose contract is that it equals the rule. Stands on `elab_environment`.
#![tactic(auto)]

mod gathered;
mod operand;
mod operators;
mod types;

pub use gathered::{Gathered, TypeWords};
pub use operand::{Form, Operand, Sort, StaticValue};
pub use operators::{Assigns, Binary, Unary};
pub use types::{Brackets, Declared, Nearest, Parameter, Parameters, Specified, Storage, Where};
