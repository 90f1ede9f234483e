//! Escape sequences, character constants, string literals (C11 6.4.4.4, 6.4.5) and comments (6.4.9).

ghost use Rattle.std.specs.Prelude.{◌≡◌, ◌<◌, ◌≤◌, ◌+◌, ◌^◌, nat_le, length, drop, slice_index, IfSome, IsSome};
ghost use Rattle.c_lex.specs.Bytes as bytes;
ghost use Rattle.c_lex.specs.Number as number;
ghost use Rattle.c_lex.specs.Literal as spec;

use crate::class::{Class, byte, past};
use crate::number::value_of;

fn is_simple_escape(b: u8) -> bool
    ensures { result ≡ spec.is_simple_escape b }
{
    matches!(
        b,
        b'\'' | b'"' | b'?' | b'\\' | b'a' | b'b' | b'f' | b'n' | b'r' | b't' | b'v'
    )
}

fn is_byte(base: u8, digits: &[u8]) -> bool
    requires { 0 < base }
    ensures { result ≡ nat_le (number.value_of base digits.now) 255 }
{
    match value_of(base, digits) {
        Some(value) => value <= 255,
        None => false,
    }
}

fn octal_len(text: &[u8]) -> usize
    ensures value { result ≡ spec.octal_len text.now }
    ensures within { result ≤ length text.now }
{
    past(Class::Octal, text, 0).min(3)
}

fn hexadecimal_len(text: &[u8]) -> usize
    requires { 0 < length text.now }
    ensures value { result ≡ spec.hexadecimal_len text.now }
    ensures within { (0 < result) × (result ≤ length text.now) }
{
    past(Class::Hexadecimal, text, 1)
}

/// The length of an escape sequence behind its backslash, 0 where none is.
#[tactic(auto, unfolding(crate::specs::Literal::escape_len))]
fn escape_len(text: &[u8]) -> usize
    ensures value { result ≡ spec.escape_len text.now }
    ensures within { result ≤ length text.now }
{
    if is_simple_escape(byte(text, 0)) {
        return 1;
    }
    let octal = octal_len(text);
    if 0 < octal {
        return if is_byte(8, &text[..octal]) { octal } else { 0 };
    }
    if byte(text, 0) != b'x' {
        return 0;
    }
    let len = hexadecimal_len(text);
    if 1 < len && is_byte(16, &text[1..len]) {
        len
    } else {
        0
    }
}

/// The length of the character at the front of what stands between such quotes, 0 where none is.
#[tactic(auto, unfolding(crate::specs::Literal::character_len))]
pub fn character_len(quote: u8, text: &[u8]) -> usize
    ensures value { result ≡ spec.character_len quote text.now }
    ensures within { result ≤ length text.now }
{
    match text {
        [] => 0,
        [b, rest @ ..] => {
            if *b == quote || *b == b'\n' {
                0
            } else if *b == b'\\' {
                match escape_len(rest) {
                    0 => 0,
                    len => 1 + len,
                }
            } else {
                1
            }
        }
    }
}

/// The length of the prefix before a quote.
#[tactic(auto, unfolding(crate::specs::Literal::prefix))]
pub fn prefix(text: &[u8]) -> usize
    ensures value { result ≡ spec.prefix text.now }
    ensures within { result ≤ length text.now }
{
    let (b, next) = (byte(text, 0), byte(text, 1));
    if b == b'u' && next == b'8' && byte(text, 2) == b'"' {
        2
    } else if (b == b'L' || b == b'u' || b == b'U') && (next == b'"' || next == b'\'') {
        1
    } else {
        0
    }
}

/// How far the characters of a string literal go.
#[tactic(auto, unfolding(crate::specs::Bytes::run))]
fn characters(text: &[u8]) -> usize
    ensures value { result ≡ bytes.run (spec.character_len 34) text.now }
    ensures within { result ≤ length text.now }
{
    let mut end = 0;
    'characters: while end < text.len() {
        match character_len(b'"', &text[end..]) {
            0 => return end,
            len => end += len,
        }
    }
    end
}

/// The length of a string literal, its quote at `at`.
#[tactic(auto, unfolding(crate::specs::Literal::string_len))]
pub fn string_len(at: usize, text: &[u8]) -> Option<usize>
    requires { at < length text.now }
    ensures value { result ≡ spec.string_len at text.now }
    ensures within { IfSome result (λ len. (0 < len) × (len ≤ length text.now)) }
{
    let end = at + 1 + characters(&text[at + 1..]);
    if byte(text, end) == b'"' {
        Some(end + 1)
    } else {
        None
    }
}

/// The length of a character constant, its quote at `at`.
#[tactic(auto, unfolding(crate::specs::Literal::char_len))]
pub fn char_len(at: usize, text: &[u8]) -> Option<usize>
    requires { at < length text.now }
    ensures value { result ≡ spec.char_len at text.now }
    ensures within { IfSome result (λ len. (0 < len) × (len ≤ length text.now)) }
    ensures some { IsSome result → 0 < spec.character_len 39 (drop (at + 1) text.now) }
{
    let len = character_len(b'\'', &text[at + 1..]);
    if len != 0 && byte(text, at + 1 + len) == b'\'' {
        Some(at + len + 2)
    } else {
        None
    }
}

fn before_close(text: &[u8]) -> usize
    ensures value { result ≡ spec.before_close text.now }
    ensures within { result ≤ length text.now }
    ensures closed { result < length text.now → result + 2 ≤ length text.now }
{
    for (at, b) in text.iter().enumerate() {
        if *b == b'*' && byte(text, at + 1) == b'/' {
            return at;
        }
    }
    text.len()
}

/// The length of the comment at the front.
#[tactic(auto, unfolding(crate::specs::Literal::comment_len))]
pub fn comment_len(text: &[u8]) -> Option<usize>
    requires { 2 ≤ length text.now }
    ensures value { result ≡ spec.comment_len text.now }
    ensures within { IfSome result (λ len. (0 < len) × (len ≤ length text.now)) }
{
    if byte(text, 1) == b'/' {
        return Some(past(Class::Line, text, 2));
    }
    let close = 2 + before_close(&text[2..]);
    if byte(text, close) == b'*' {
        Some(close + 2)
    } else {
        None
    }
}

/// What digits below 256 write in a base.
fn byte_of(base: u8, digits: &[u8]) -> u8
    requires base { 0 < base }
    requires fits { number.value_of base digits.now ≤ 255 }
    ensures { result ≡ number.value_of base digits.now }
{
    match value_of(base, digits) {
        Some(value) => value as u8,
        None => unreachable!(),
    }
}

fn escape_byte(b: u8) -> u8
    ensures { result ≡ spec.escape_byte b }
{
    match b {
        b'a' => 7,
        b'b' => 8,
        b'f' => 12,
        b'n' => 10,
        b'r' => 13,
        b't' => 9,
        b'v' => 11,
        other => other,
    }
}

/// The byte that an escape sequence stands for, behind its backslash.
#[tactic(auto, unfolding(crate::specs::Literal::escape_value, crate::specs::Literal::escape_len))]
fn escape_value(text: &[u8]) -> u8
    requires { 0 < spec.escape_len text.now }
    ensures { result ≡ spec.escape_value text.now }
{
    let b = byte(text, 0);
    if is_simple_escape(b) {
        return escape_byte(b);
    }
    let octal = octal_len(text);
    if 0 < octal {
        byte_of(8, &text[..octal])
    } else {
        byte_of(16, &text[1..hexadecimal_len(text)])
    }
}

/// The byte that the character at the front stands for.
#[tactic(auto, unfolding(crate::specs::Literal::character_value, crate::specs::Literal::character_len))]
pub fn character_value(quote: u8, text: &[u8]) -> u8
    requires { 0 < spec.character_len quote text.now }
    ensures { result ≡ spec.character_value text.now }
{
    match text {
        [b'\\', rest @ ..] => escape_value(rest),
        [b, ..] => *b,
        [] => 0,
    }
}
