//! Classes of bytes, and how far each goes.

ghost use Rattle.std.specs.Prelude.{◌≡◌, ◌≢◌, ◌<◌, ◌≤◌, length, slice_index, true};
ghost use Rattle.c_lex.specs.Bytes as spec;

#[derive(Clone, Copy, Debug)]
pub enum Class {
    /// White space but the end of a line.
    Gap,
    /// White space and decimal digits but the end of a line.
    Flags,
    Octal,
    Decimal,
    Hexadecimal,
    /// What identifiers are made of.
    Word,
    /// All but the end of a line.
    Line,
    /// What may stand in a file outside comments, literals and line markers.
    Plain,
    /// What may stand inside them.
    Inner,
}

pub fn is_blank(b: u8) -> bool
    ensures { result ≡ spec.is_blank b }
{
    b == b' ' || (9 <= b && b <= 13)
}

pub fn is_plain(b: u8) -> bool
    ensures { result ≡ spec.is_plain b }
{
    is_blank(b) || (b' ' <= b && b <= b'~')
}

pub fn is_letter(b: u8) -> bool
    ensures { result ≡ spec.is_letter b }
{
    b.is_ascii_alphabetic() || b == b'_'
}

pub fn is_in(class: Class, b: u8) -> bool
    ensures { result ≡ spec.is_in class b }
{
    match class {
        Class::Gap => is_blank(b) && b != b'\n',
        Class::Flags => (is_blank(b) && b != b'\n') || b.is_ascii_digit(),
        Class::Octal => b'0' <= b && b <= b'7',
        Class::Decimal => b.is_ascii_digit(),
        Class::Hexadecimal => b.is_ascii_hexdigit(),
        Class::Word => b.is_ascii_alphanumeric() || b == b'_',
        Class::Line => b != b'\n',
        Class::Plain => is_plain(b),
        Class::Inner => is_plain(b) || 128 <= b,
    }
}

/// The byte at a place, 0 past the end.
pub fn byte(text: &[u8], at: usize) -> u8
    ensures value { result ≡ slice_index text.now at }
    ensures within { result ≢ 0 → at < length text.now }
{
    if at < text.len() { text[at] } else { 0 }
}

/// The first place from `at` on whose byte isn't of the class.
pub fn past(class: Class, text: &[u8], at: usize) -> usize
    requires { at ≤ length text.now }
    ensures value { result ≡ spec.past class text.now at }
    ensures within { (at ≤ result) × (result ≤ length text.now) }
{
    let mut end = at;
    while end < text.len() && is_in(class, text[end]) {
        end += 1;
    }
    end
}
