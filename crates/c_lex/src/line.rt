//! Lines that begin with `#` (C11 6.10.4, 6.10.6), as a preprocessor leaves them: line markers and pragmas.

ghost use Rattle.std.specs.Prelude.{◌≡◌, ◌<◌, ◌≤◌, ◌+◌, ◌^◌, length, slice_index, if◌then◌else◌, nat_lt, true, IfSome};
ghost use Rattle.c_lex.specs.Bytes as bytes;
ghost use Rattle.c_lex.specs.Line as spec;

use crate::class::{Class, byte, is_in, past};
use crate::number::value_of;

/// What a line marker says: the number of the next line, and where the file's name stands behind the `#`.
#[derive(Clone, Copy, Debug)]
pub struct Marker {
    pub number: u32,
    pub name_at: usize,
    pub name_len: usize,
}

fn word_at(text: &[u8]) -> usize
    requires { 0 < length text.now }
    ensures value { result ≡ spec.word_at text.now }
    ensures within { result ≤ length text.now }
{
    past(Class::Gap, text, 1)
}

#[tactic(auto, unfolding(crate::specs::Line::is_line))]
fn is_line(text: &[u8]) -> bool
    requires { 0 < length text.now }
    ensures value { result ≡ spec.is_line text.now }
    ensures within { result ≡ true → spec.word_at text.now + 4 ≤ length text.now }
{
    let at = word_at(text);
    text[at..].starts_with(b"line") && is_in(Class::Gap, byte(text, at + 4))
}

#[tactic(auto, unfolding(crate::specs::Line::number_at))]
fn number_at(text: &[u8]) -> usize
    requires { 0 < length text.now }
    ensures value { result ≡ spec.number_at text.now }
    ensures within { result ≤ length text.now }
{
    let at = word_at(text);
    if is_line(text) {
        past(Class::Gap, text, at + 4)
    } else {
        at
    }
}

#[tactic(auto, unfolding(crate::specs::Line::number_end))]
fn number_end(text: &[u8]) -> usize
    requires { 0 < length text.now }
    ensures value { result ≡ spec.number_end text.now }
    ensures within { (spec.number_at text.now ≤ result) × (result ≤ length text.now) }
{
    past(Class::Decimal, text, number_at(text))
}

/// The number of a marker, below 2^31.
#[tactic(auto, unfolding(crate::specs::Line::line_number))]
fn line_number(text: &[u8]) -> Option<u32>
    requires { 0 < length text.now }
    ensures { result ≡ (if nat_lt (spec.line_number text.now) (2 ^ 31) then Some (spec.line_number text.now) else None) }
{
    match value_of(10, &text[number_at(text)..number_end(text)]) {
        Some(value) if value < 1 << 31 => Some(value as u32),
        _ => None,
    }
}

#[tactic(auto, unfolding(crate::specs::Line::quote_at))]
fn quote_at(text: &[u8]) -> usize
    requires { 0 < length text.now }
    ensures value { result ≡ spec.quote_at text.now }
    ensures within { result ≤ length text.now }
{
    past(Class::Gap, text, number_end(text))
}

#[tactic(auto, unfolding(crate::specs::Line::name_part))]
fn name_part(text: &[u8]) -> usize
    ensures value { result ≡ spec.name_part text.now }
    ensures within { result ≤ length text.now }
{
    match text {
        [] => 0,
        [b, rest @ ..] => {
            if *b == b'"' || *b == b'\n' {
                0
            } else if *b != b'\\' {
                1
            } else if rest.is_empty() || rest[0] == b'\n' {
                0
            } else {
                2
            }
        }
    }
}

#[tactic(auto, unfolding(crate::specs::Bytes::run))]
fn name_parts(text: &[u8]) -> usize
    ensures value { result ≡ bytes.run spec.name_part text.now }
    ensures within { result ≤ length text.now }
{
    let mut end = 0;
    'parts: while end < text.len() {
        match name_part(&text[end..]) {
            0 => return end,
            len => end += len,
        }
    }
    end
}

#[tactic(auto, unfolding(crate::specs::Line::name_end))]
fn name_end(text: &[u8]) -> usize
    requires some { 0 < length text.now }
    requires quoted { spec.quote_at text.now < length text.now }
    ensures value { result ≡ spec.name_end text.now }
    ensures within { (spec.quote_at text.now + 1 ≤ result) × (result ≤ length text.now) }
{
    let at = quote_at(text) + 1;
    at + name_parts(&text[at..])
}

#[tactic(auto, unfolding(crate::specs::Line::flags_end))]
fn flags_end(text: &[u8]) -> usize
    requires some { 0 < length text.now }
    requires quoted { spec.quote_at text.now < length text.now }
    requires named { spec.name_end text.now < length text.now }
    ensures value { result ≡ spec.flags_end text.now }
    ensures within { (spec.name_end text.now < result) × (result ≤ length text.now) }
{
    let class = if is_line(text) {
        Class::Gap
    } else {
        Class::Flags
    };
    past(class, text, name_end(text) + 1)
}

/// The line marker at the front, and the length of its line.
#[tactic(auto, unfolding(crate::specs::Line::is_marker, crate::specs::Line::marker, crate::specs::Line::marker_len))]
pub fn marker_line(text: &[u8]) -> Option<(Marker, usize)>
    requires { 0 < length text.now }
    ensures value { result ≡ (if spec.is_marker text.now then Some (spec.marker text.now, spec.marker_len text.now) else None) }
    ensures within { IfSome result (λ m. (0 < m.1) × (m.1 ≤ length text.now) × (m.0.number < 2 ^ 31) × (m.0.name_at + m.0.name_len ≤ m.1)) }
{
    let quote = quote_at(text);
    if number_end(text) <= number_at(text) || byte(text, quote) != b'"' {
        return None;
    }
    let number = line_number(text)?;
    let name_end = name_end(text);
    if byte(text, name_end) != b'"' {
        return None;
    }
    let end = flags_end(text);
    let len = if end == text.len() {
        end
    } else if text[end] == b'\n' {
        end + 1
    } else {
        return None;
    };
    let marker = Marker {
        number,
        name_at: quote + 1,
        name_len: name_end - (quote + 1),
    };
    Some((marker, len))
}

/// The length of the pragma at the front without the end of its line.
#[tactic(auto, unfolding(crate::specs::Line::is_pragma, crate::specs::Line::pragma_len))]
pub fn pragma_line(text: &[u8]) -> Option<usize>
    requires { 0 < length text.now }
    ensures value { result ≡ (if spec.is_pragma text.now then Some (spec.pragma_len text.now) else None) }
    ensures within { IfSome result (λ len. (0 < len) × (len ≤ length text.now)) }
{
    let at = word_at(text);
    if text[at..].starts_with(b"pragma") && !is_in(Class::Word, byte(text, at + 6)) {
        Some(past(Class::Line, text, 1))
    } else {
        None
    }
}
