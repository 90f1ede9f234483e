//! The syntax tree of a file from its tokens, by the grammar of C11 Annex A.2.
//!
//! `parse` answers what the plain parser of `specs/FileScope` reads from the words: the tree, or the first stop with its
//! token. It goes from left to right, one word ahead. `specs/` has one rule for each production of initialisers,
//! declarations, statements and the file; each function here equals its rule. Stands on `c_expressions`, which reads what
//! those hold, on `c_input`, which says what the grammar sees of a token, and on `c_lex` and `c_tree`.
#![tactic(auto)]

ghost use Rattle.std.specs.Prelude.{◌≤◌, length};
ghost use Rattle.c_syntax.specs.FileScope as grammar;
ghost use Rattle.c_input.specs.Words as spec;

mod branches;
mod built;
mod declarations;
mod file_scope;
mod initialisers;
mod statements;

use crate::file_scope::translation_unit;
pub use c_input::SyntaxStop;
use c_input::{Place, Scope, word_list};
use c_lex::Token;
pub use c_tree::{
    BlockItem, DeclForm, Declaration, Declarator, Designator, Enumerator, Ex, ExForm, ForStart,
    Given, Init, InitPart, Item, MemberLine, MemberPart, Param, Spec, Stmt, StmtForm, Unit,
};
use std::alloc::Global;

/// The syntax tree of a file from its tokens, or the first stop. At the end of the list a stop has its length as its token.
pub fn parse(alloc: Global, file: &[u8], tokens: &[Token]) -> Result<Unit, SyntaxStop>
    requires { length tokens.now ≤ 1048576 }
    ensures { grammar.Answers (grammar.translation_unit (spec.words_of (spec.word_list file.now tokens.now)) grammar.start) result }
{
    let words = word_list(alloc, file, tokens)?;
    let mut place = Place {
        at: 0,
        names: Scope::new(alloc),
    };
    translation_unit(alloc, words.as_slice(), &mut place)
}
