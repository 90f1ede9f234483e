//! Laws of C's grammar as the parser's definitions give it (C11 Annex A.2).
//!
//! `c_syntax` promises the outcome of `translation_unit`. Here it is proved of it that no file which begins with the same words
//! up to the stop is accepted, that a tree is one of the file's words by the productions of the grammar and nested within the
//! limit, and that no list ends by the bound on its turns. Nothing here runs. Stands on `c_syntax`, `c_expressions`, `c_input`,
//! `c_tree` and `c_lex`.
#![tactic(auto)]

mod law;

pub use law::{
    bound_ends_no_list, reads_no_further, reads_to_the_end, trees_are_derived, trees_are_read,
};
