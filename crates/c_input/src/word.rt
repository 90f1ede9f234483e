//! What the grammar sees of a token.

use crate::scope::Scope;

/// Above the number of words of a file: a bound on the turns of every list, each of which takes a word.
pub const MOST_WORDS: u32 = 1_048_577;

/// A token as the rules tell it from others.
#[derive(Clone, Copy, Debug, PartialEq, Eq)]
pub enum Sign {
    /// An identifier that is no typedef name in scope.
    Name,
    /// A typedef name in scope (C11 6.7.8).
    TypeName,
    Int,
    Float,
    Char,
    Str,
    /// `extern`, `auto`, `register`, `inline` and `_Noreturn`.
    Storage,
    Static,
    Typedef,
    /// `const`, `volatile` and `restrict`.
    Qualifier,
    /// A type specifier of one word.
    TypeWord,
    Struct,
    Union,
    Enum,
    Sizeof,
    If,
    Else,
    While,
    Do,
    For,
    Switch,
    Case,
    Default,
    Goto,
    Break,
    Continue,
    Return,
    OpenParen,
    CloseParen,
    OpenBracket,
    CloseBracket,
    OpenBrace,
    CloseBrace,
    Dot,
    Arrow,
    /// `++` and `--`.
    Increment,
    Decrement,
    Amp,
    Star,
    /// `+` and `-`.
    Additive,
    /// `~` and `!`.
    Complement,
    /// `/` and `%`.
    Multiplicative,
    Shift,
    Relational,
    Equality,
    Caret,
    Bar,
    AndAnd,
    OrOr,
    Question,
    Colon,
    Semicolon,
    Ellipsis,
    Equal,
    /// `*=` and its like.
    AssignOp,
    Comma,
    /// A word of a construct that is left out, wherever it stands.
    LeftOut,
    /// A token of no production.
    Other,
    /// Behind the last token.
    Eof,
}

/// A token with what its sign would be where no typedef name is in scope. Equal names have equal numbers.
#[derive(Clone, Copy, Debug)]
pub struct Word {
    pub sign: Sign,
    pub name: u32,
}

/// How far the words are read, and the names in scope there.
#[derive(Drop)]
pub struct Place {
    pub at: u32,
    pub names: Scope,
}
