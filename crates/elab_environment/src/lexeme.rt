use c_types::IntKind;

/// A keyword of declarations (C11 6.7.1 to 6.7.4).
#[derive(Clone, Copy, Debug, Drop, PartialEq, Eq)]
pub enum Word {
    Typedef,
    Extern,
    Static,
    Auto,
    Register,
    Inline,
    Noreturn,
    Const,
    Volatile,
    Restrict,
    Void,
    Char,
    Short,
    Int,
    Long,
    Float,
    Double,
    Signed,
    Unsigned,
    Bool,
    Complex,
    Struct,
    Union,
}

/// An operator of one token (C11 6.5), but for those of assignments.
#[derive(Clone, Copy, Debug, Drop, PartialEq, Eq)]
pub enum Operator {
    Star,
    Slash,
    Percent,
    Plus,
    Minus,
    ShiftLeft,
    ShiftRight,
    Less,
    LessOrEqual,
    Greater,
    GreaterOrEqual,
    Equal,
    NotEqual,
    Ampersand,
    Caret,
    Bar,
    And,
    Or,
    Not,
    Tilde,
    Increment,
    Decrement,
}

/// What elaboration reads of a token. Equal names have equal numbers.
#[derive(Clone, Copy, Debug, Drop, PartialEq, Eq)]
pub enum Lexeme {
    Word(Word),
    Name(u32),
    /// An integer constant with its type (C11 6.4.4.1).
    Int(IntKind, u64),
    /// A character constant, of type int.
    Char(i32),
    /// A string literal: where its bytes begin among those of all literals, and how many it has.
    Str(u32, u32),
    Operator(Operator),
    /// `=`.
    Assign,
    /// `+=` and its like, by the operator before the `=`.
    Compound(Operator),
    /// Any other token, by its place alone.
    Other,
}
