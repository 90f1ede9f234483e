//! What constants and literals stand for (C11 6.4.4, 6.4.5).

ghost use Rattle.std.specs.Prelude.{◌≡◌, ◌<◌, ◌≤◌, ◌+◌, true, length, drop, IfOk};
ghost use Rattle.std.specs.List.{list_any};
ghost use Rattle.c_lex.specs.Constant as spec;
ghost use Rattle.c_lex.specs.Literal as literals;

use crate::class::byte;
use crate::literal::{char_len, character_len, character_value, prefix};
use crate::number::{digits_end, integer_value, is_integer};
use std::alloc::{AllocError, Global};

/// How many times a suffix says `long`.
#[derive(Clone, Copy, Debug, PartialEq, Eq)]
pub enum Longs {
    Zero,
    /// `l` or `L`.
    One,
    /// `ll` or `LL`.
    Two,
}

/// An integer constant: its value, and what chooses its type (C11 6.4.4.1).
#[derive(Clone, Copy, Debug, PartialEq, Eq)]
pub struct IntConstant {
    pub value: u64,
    /// Decimal digits, not octal or hexadecimal ones.
    pub decimal: bool,
    /// A suffix `u` or `U`.
    pub unsigned: bool,
    pub longs: Longs,
}

fn is_unsigned(suffix: &[u8]) -> bool
    ensures { result ≡ list_any spec.is_u suffix.now }
{
    suffix.iter().any(|b| *b == b'u' || *b == b'U')
}

fn longs_of(suffix: &[u8]) -> Longs
    ensures { result ≡ spec.longs_of suffix.now }
{
    match suffix.iter().filter(|b| **b == b'l' || **b == b'L').count() {
        0 => Longs::Zero,
        1 => Longs::One,
        _ => Longs::Two,
    }
}

/// The constant that a text writes, where it is an integer constant below 2^64, as the text of each token `Int` is.
#[tactic(auto, unfolding(crate::specs::Constant::int_constant, crate::specs::Constant::facts))]
pub fn int_constant(text: &[u8]) -> Option<IntConstant>
    ensures { result ≡ spec.int_constant text.now }
{
    if !is_integer(text) {
        return None;
    }
    let value = integer_value(text)?;
    let suffix = &text[digits_end(text)..];
    Some(IntConstant {
        value,
        decimal: byte(text, 0) != b'0',
        unsigned: is_unsigned(suffix),
        longs: longs_of(suffix),
    })
}

#[tactic(auto, unfolding(crate::specs::Constant::is_char))]
fn is_char(text: &[u8]) -> bool
    ensures value { result ≡ spec.is_char text.now }
    ensures some { result ≡ true → 0 < literals.character_len 39 (drop (literals.prefix text.now + 1) text.now) }
    ensures within { result ≡ true → literals.prefix text.now + 1 ≤ length text.now }
{
    let at = prefix(text);
    byte(text, at) == b'\'' && char_len(at, text) == Some(text.len())
}

/// The value of a character constant, of type int; no other text has one. A char is signed and has 8 bits.
#[tactic(auto, unfolding(crate::specs::Constant::char_value, crate::specs::Literal::char_byte))]
pub fn char_value(text: &[u8]) -> Option<i32>
    ensures { result ≡ spec.char_value text.now }
{
    if !is_char(text) {
        return None;
    }
    let byte = character_value(b'\'', &text[prefix(text) + 1..]);
    Some(if byte < 128 {
        i32::from(byte)
    } else {
        i32::from(byte) - 256
    })
}

/// The bytes of a string literal, without the zero that ends it (C11 6.4.5p6).
#[tactic(auto, unfolding(crate::specs::Literal::string_bytes))]
pub fn string_bytes(alloc: Global, text: &[u8]) -> Result<Vec<u8>, AllocError>
    ensures { IfOk result (λ v. v.items ≡ literals.string_bytes text.now) }
{
    let mut bytes = Vec::new(alloc);
    let start = text.len().min(prefix(text) + 1);
    let mut rest = &text[start..];
    'characters: while !rest.is_empty() {
        let len = character_len(b'"', rest);
        if len == 0 {
            return Ok(bytes);
        }
        bytes.push(character_value(b'"', rest))?;
        (_, rest) = rest.split_at(len);
    }
    Ok(bytes)
}
