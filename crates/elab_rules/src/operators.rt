//! What the token of an operator says.

use program::BinOp;

/// A binary operator (C11 6.5.5 to 6.5.14).
#[derive(Clone, Copy, Debug, Drop, PartialEq, Eq)]
pub enum Binary {
    And,
    Or,
    Plain(BinOp),
}

/// A unary operator (C11 6.5.3).
#[derive(Clone, Copy, Debug, Drop, PartialEq, Eq)]
pub enum Unary {
    Address,
    Indirection,
    Plus,
    Minus,
    Complement,
    Not,
    Increment,
    Decrement,
}

/// An assignment operator (C11 6.5.16).
#[derive(Clone, Copy, Debug, Drop, PartialEq, Eq)]
pub enum Assigns {
    Plain,
    Compound(BinOp),
}
