//! Integer constants with their types (C11 6.4.4.1p5).

ghost use Rattle.std.specs.Prelude.{◌≡◌};
ghost use Rattle.elab_lexemes.specs.Constants as spec;

use c_lex::{IntConstant, Longs};
use c_types::{IntKind, range};
use elab_environment::Lexeme;

const DECIMAL: [IntKind; 3] = [IntKind::Int, IntKind::Long, IntKind::LongLong];

const OTHER: [IntKind; 6] = [
    IntKind::Int,
    IntKind::UInt,
    IntKind::Long,
    IntKind::ULong,
    IntKind::LongLong,
    IntKind::ULongLong,
];

const UNSIGNED: [IntKind; 3] = [IntKind::UInt, IntKind::ULong, IntKind::ULongLong];

const LONG_DECIMAL: [IntKind; 2] = [IntKind::Long, IntKind::LongLong];

const LONG: [IntKind; 4] = [
    IntKind::Long,
    IntKind::ULong,
    IntKind::LongLong,
    IntKind::ULongLong,
];

const UNSIGNED_LONG: [IntKind; 2] = [IntKind::ULong, IntKind::ULongLong];

const LONG_LONG_DECIMAL: [IntKind; 1] = [IntKind::LongLong];

const LONG_LONG: [IntKind; 2] = [IntKind::LongLong, IntKind::ULongLong];

const UNSIGNED_LONG_LONG: [IntKind; 1] = [IntKind::ULongLong];

/// The first type of a list that holds a value, and `unsigned long` past its end.
fn first_holding(kinds: &[IntKind], value: u64) -> IntKind
    ensures { result ≡ spec.first_holding kinds.now value }
{
    for kind in kinds {
        if i128::from(value) <= range(*kind).1 {
            return *kind;
        }
    }
    IntKind::ULong
}

/// The type of an integer constant.
fn int_kind(c: IntConstant) -> IntKind
    ensures { result ≡ spec.int_kind c }
{
    match c.longs {
        Longs::Zero => {
            if c.unsigned {
                first_holding(&UNSIGNED, c.value)
            } else if c.decimal {
                first_holding(&DECIMAL, c.value)
            } else {
                first_holding(&OTHER, c.value)
            }
        }
        Longs::One => {
            if c.unsigned {
                first_holding(&UNSIGNED_LONG, c.value)
            } else if c.decimal {
                first_holding(&LONG_DECIMAL, c.value)
            } else {
                first_holding(&LONG, c.value)
            }
        }
        Longs::Two => {
            if c.unsigned {
                first_holding(&UNSIGNED_LONG_LONG, c.value)
            } else if c.decimal {
                first_holding(&LONG_LONG_DECIMAL, c.value)
            } else {
                first_holding(&LONG_LONG, c.value)
            }
        }
    }
}

/// An integer constant as elaboration reads it.
pub fn int_lexeme(constant: Option<IntConstant>) -> Lexeme
    ensures { result ≡ spec.int_lexeme constant }
{
    match constant {
        Some(c) => Lexeme::Int(int_kind(c), c.value),
        None => Lexeme::Other,
    }
}

/// A character constant as elaboration reads it.
pub fn char_lexeme(value: Option<i32>) -> Lexeme
    ensures { result ≡ spec.char_lexeme value }
{
    match value {
        Some(value) => Lexeme::Char(value),
        None => Lexeme::Other,
    }
}
