//! The syntax tree of a file, as C11's Annex A.2 nests it.
//!
//! `at` is the index of a node's first token in the list of tokens; for an abstract declarator without tokens that of the
//! token before which it stands. Every other `u32` but that of `ExForm::Str` is the index of a token too.

use sqlite_items::{Boxed, Items};

/// A translation unit (C11 6.9).
#[derive(Drop)]
pub struct Unit {
    pub items: Items<Item>,
}

/// An external declaration (C11 6.9), or a lone `;`.
#[derive(Drop)]
pub enum Item {
    Function {
        at: u32,
        specs: Items<Spec>,
        declarator: Declarator,
        body: Stmt,
    },
    Declaration(Declaration),
    Empty {
        at: u32,
    },
}

/// A declaration (C11 6.7).
#[derive(Drop)]
pub struct Declaration {
    pub at: u32,
    pub specs: Items<Spec>,
    pub parts: Items<InitPart>,
}

/// A declaration specifier (C11 6.7).
#[cycle(tree)]
#[derive(Drop)]
pub enum Spec {
    Word {
        at: u32,
    },
    Named {
        at: u32,
    },
    Struct {
        at: u32,
        tag: Option<u32>,
        lines: Option<Items<MemberLine>>,
    },
    Enum {
        at: u32,
        tag: Option<u32>,
        values: Option<Items<Enumerator>>,
    },
}

/// A struct declaration (C11 6.7.2.1).
#[cycle(tree)]
#[derive(Drop)]
pub struct MemberLine {
    pub at: u32,
    pub specs: Items<Spec>,
    pub parts: Items<MemberPart>,
}

/// A declarator or an abstract declarator (C11 6.7.6, 6.7.7).
#[cycle(tree)]
#[derive(Drop)]
pub struct Declarator {
    pub at: u32,
    pub form: DeclForm,
}

#[cycle(tree)]
#[derive(Drop)]
pub enum DeclForm {
    Name,
    Abstract,
    Paren(Boxed<Declarator>),
    Pointer {
        words: Items<u32>,
        inner: Boxed<Declarator>,
    },
    Array {
        inner: Boxed<Declarator>,
        words: Items<u32>,
        length: Option<Ex>,
    },
    Function {
        inner: Boxed<Declarator>,
        params: Items<Param>,
        variadic: bool,
    },
}

/// A parameter (C11 6.7.6), or a type name (C11 6.7.7), whose declarator is abstract.
#[cycle(tree)]
#[derive(Drop)]
pub struct Param {
    pub at: u32,
    pub specs: Items<Spec>,
    pub declarator: Declarator,
}

/// An initialiser (C11 6.7.9).
#[cycle(init)]
#[derive(Drop)]
pub enum Init {
    One(Ex),
    List { at: u32, parts: Items<Given> },
}

/// A designation of one level (C11 6.7.9).
#[derive(Drop)]
pub enum Designator {
    Member { at: u32, name: u32 },
    Place { at: u32, index: Ex },
}

/// A block item (C11 6.8.2).
#[cycle(stmt)]
#[derive(Drop)]
pub enum BlockItem {
    Declaration(Declaration),
    Stmt(Stmt),
}

/// A statement (C11 6.8).
#[cycle(stmt)]
#[derive(Drop)]
pub struct Stmt {
    pub at: u32,
    pub form: StmtForm,
}

#[cycle(stmt)]
#[derive(Drop)]
pub enum StmtForm {
    Block(Items<BlockItem>),
    Expr(Option<Ex>),
    If(Ex, Boxed<Stmt>, Option<Boxed<Stmt>>),
    While(Ex, Boxed<Stmt>),
    Do(Boxed<Stmt>, Ex),
    For(ForStart, Option<Ex>, Option<Ex>, Boxed<Stmt>),
    Switch(Ex, Boxed<Stmt>),
    Label(Boxed<Stmt>),
    Case(Ex, Boxed<Stmt>),
    Default(Boxed<Stmt>),
    Goto(u32),
    Break,
    Continue,
    Return(Option<Ex>),
}

/// The first clause of a `for` statement (C11 6.8.5).
#[derive(Drop)]
pub enum ForStart {
    Nothing,
    Value(Ex),
    Declaration(Declaration),
}

/// An expression (C11 6.5).
#[cycle(tree)]
#[derive(Drop)]
pub struct Ex {
    pub at: u32,
    pub form: ExForm,
}

#[cycle(tree)]
#[derive(Drop)]
pub enum ExForm {
    Name,
    Int,
    Float,
    Char,
    Str(u32),
    Paren(Boxed<Ex>),
    Unary(Boxed<Ex>),
    Binary(u32, Boxed<Ex>, Boxed<Ex>),
    Assign(u32, Boxed<Ex>, Boxed<Ex>),
    Cond(Boxed<Ex>, Boxed<Ex>, Boxed<Ex>),
    Comma(Boxed<Ex>, Boxed<Ex>),
    Call(Boxed<Ex>, Items<Ex>),
    Index(Boxed<Ex>, Boxed<Ex>),
    Member(Boxed<Ex>, u32),
    Arrow(Boxed<Ex>, u32),
    Cast(Boxed<Param>, Boxed<Ex>),
    SizeofType(Boxed<Param>),
    SizeofEx(Boxed<Ex>),
    PostInc(Boxed<Ex>),
    PostDec(Boxed<Ex>),
}

/// An init-declarator (C11 6.7).
#[derive(Drop)]
pub struct InitPart {
    pub declarator: Declarator,
    pub init: Option<Init>,
}

/// A struct-declarator (C11 6.7.2.1); the width is that of a bit-field.
#[cycle(tree)]
#[derive(Drop)]
pub struct MemberPart {
    pub declarator: Declarator,
    pub width: Option<Ex>,
}

/// A part of an initialiser list (C11 6.7.9).
#[cycle(init)]
#[derive(Drop)]
pub struct Given {
    pub designator: Option<Designator>,
    pub init: Init,
}

/// An enumerator (C11 6.7.2.2).
#[cycle(tree)]
#[derive(Drop)]
pub struct Enumerator {
    pub name: u32,
    pub value: Option<Ex>,
}
