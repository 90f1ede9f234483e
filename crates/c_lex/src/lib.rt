//! The tokens of a preprocessed C file (C11 6.4), each with the place that the last line marker gives it.
//!
//! `tokens` answers the whole list, or the first byte of the file at which something stops it. It stands on
//! `thiserror` alone. What it promises is said in `specs/Reading.antt`.
#![tactic(auto)]

mod class;
mod constant;
mod error;
mod law;
mod line;
mod literal;
mod number;
mod piece;
mod scan;
mod token;
mod vocabulary;

pub use constant::{IntConstant, Longs, char_value, int_constant, string_bytes};
pub use error::LexStop;
pub use law::{
    characters_by_rule, literals_by_rule, longest_match, one_reading, tokens_are_slices,
};
pub use scan::tokens;
pub use token::{LONGEST, Place, Token, TokenKind};
