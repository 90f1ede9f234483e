//! The types of a file's syntax tree (C11 Annex A.2), and nothing else: `c_syntax` builds it, the normal form reads it.
#![tactic(auto)]

mod tree;

pub use tree::{
    BlockItem, DeclForm, Declaration, Declarator, Designator, Enumerator, Ex, ExForm, ForStart,
    Given, Init, InitPart, Item, MemberLine, MemberPart, Param, Spec, Stmt, StmtForm, Unit,
};
