//! What stands at a place, by its first bytes (C11 6.4), and how far it goes.

ghost use Rattle.std.specs.Prelude.{◌≡◌, ◌<◌, ◌≤◌, length, true, IfSome};
ghost use Rattle.c_lex.specs.Piece as spec;

use crate::class::{Class, byte, is_blank, is_letter, past};
use crate::line::{Marker, marker_line, pragma_line};
use crate::literal::{char_len, comment_len, prefix, string_len};
use crate::number::{begins_number, number_len};
use crate::vocabulary::punctuator_len;

#[derive(Clone, Copy, Debug)]
pub enum Piece {
    /// One byte of white space.
    Blank,
    Comment,
    /// A line marker with its line.
    Marker(Marker),
    Pragma,
    /// An identifier, a keyword, or a word that is skipped.
    Word,
    /// A preprocessing number.
    Number,
    Char,
    Str,
    Punct,
}

#[tactic(auto, unfolding(crate::specs::Piece::directive))]
fn directive(text: &[u8]) -> Option<(Piece, usize)>
    requires { 0 < length text.now }
    ensures value { result ≡ spec.directive text.now }
    ensures within { spec.Within result text.now }
{
    if let Some((marker, len)) = marker_line(text) {
        return Some((Piece::Marker(marker), len));
    }
    let len = pragma_line(text)?;
    Some((Piece::Pragma, len))
}

#[tactic(auto, unfolding(crate::specs::Piece::punctuator))]
fn punctuator(text: &[u8]) -> Option<(Piece, usize)>
    ensures value { result ≡ spec.punctuator text.now }
    ensures within { spec.Within result text.now }
{
    match punctuator_len(text) {
        0 => None,
        len => Some((Piece::Punct, len)),
    }
}

#[tactic(auto, unfolding(crate::specs::Piece::literal))]
fn literal(text: &[u8]) -> Option<(Piece, usize)>
    requires { spec.begins_literal text.now ≡ true }
    ensures value { result ≡ spec.literal text.now }
    ensures within { spec.Within result text.now }
{
    let at = prefix(text);
    if byte(text, at) == b'"' {
        let len = string_len(at, text)?;
        Some((Piece::Str, len))
    } else {
        let len = char_len(at, text)?;
        Some((Piece::Char, len))
    }
}

fn begins_literal(text: &[u8]) -> bool
    ensures { result ≡ spec.begins_literal text.now }
{
    let quote = byte(text, prefix(text));
    quote == b'"' || quote == b'\''
}

/// What stands at the front of a text, and its length. `fresh`: nothing but white space stands before in the line.
#[tactic(auto, unfolding(crate::specs::Piece::piece))]
pub fn piece_at(fresh: bool, text: &[u8]) -> Option<(Piece, usize)>
    requires { 0 < length text.now }
    ensures value { result ≡ spec.piece fresh text.now }
    ensures within { spec.Within result text.now }
{
    let b = text[0];
    let next = byte(text, 1);
    if is_blank(b) {
        Some((Piece::Blank, 1))
    } else if b == b'/' && (next == b'*' || next == b'/') {
        let len = comment_len(text)?;
        Some((Piece::Comment, len))
    } else if fresh && b == b'#' {
        directive(text)
    } else if begins_number(text) {
        Some((Piece::Number, number_len(text)))
    } else if begins_literal(text) {
        literal(text)
    } else if is_letter(b) {
        Some((Piece::Word, past(Class::Word, text, 0)))
    } else {
        punctuator(text)
    }
}
