//! C's arithmetic on integers: what each operator gives on numbers of a kind, or why it is undefined
//! (C11 6.5.3, 6.5.5 to 6.5.14).
//!
//! Operands are of their promoted or common type already. Each call equals its short definition in
//! `specs/Arithmetic`, whose words are the standard's; numbers there have no bound.
//! Stands on the operators and kinds of undefined behaviour of `program`, and the integer types of `c_types`.
#![tactic(auto)]

mod integers;

pub use integers::{arithmetic, converted, negated, power, truth};
