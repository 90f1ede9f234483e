//! What the grammar of C11 Annex A.2 sees of a token, and the parser's definitions by which its rules are written.
//!
//! `word_list` answers the words of a file's tokens; `Scope` keeps the names in scope, and which of them are typedef names;
//! `sign` says what the next word is there, and `skip` and its like take it. `specs/Parser` says how a rule is put together:
//! an outcome for each place, the tree or the first stop. Stands on `c_lex`.
#![tactic(auto)]

mod error;
mod input;
mod measured;
mod scope;
mod vocabulary;
mod word;
mod words;

pub use error::SyntaxStop;
pub use input::{
    any_name, begins_expression, binds, expect, is_close_brace, is_close_paren, is_comma, is_name,
    is_semicolon, left_out, no_room, qualifies, refuse, sign, skip, specifies, take_name, too_deep,
    wants,
};
pub use measured::Measured;
pub use scope::Scope;
pub use word::{MOST_WORDS, Place, Sign, Word};
pub use words::word_list;
