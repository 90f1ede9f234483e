//! What elaboration reads of each token of a file: words, names by number, constants with their types and values, string
//! literals by their bytes, operators (C11 6.4).
//!
//! Promises: `read` answers the list that `specs/Reading` says. Equal names have equal numbers: the place in the file of
//! the first of them. Stands on `c_lex`, `c_input` and `elab_environment`.
#![tactic(auto)]

mod constants;
mod reading;
mod words;

pub use reading::{Lexemes, read};
