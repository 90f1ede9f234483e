//! Preprocessing numbers (C11 6.4.8), integer and floating constants (6.4.4.1, 6.4.4.2).

ghost use Rattle.std.specs.Prelude.{◌≡◌, ◌<◌, ◌≤◌, ◌+◌, ◌*◌, ◌^◌, IfSome, if◌then◌else◌, nat_lt, length, true};
ghost use Rattle.c_lex.specs.Number as spec;

use crate::class::{Class, byte, is_in, past};
use crate::vocabulary::{is_float_suffix, is_suffix};

fn digit_of(b: u8) -> u8
    ensures { result ≡ spec.digit_of b }
{
    match b {
        b'a'.. => b - (b'a' - 10),
        b'A'.. => b - (b'A' - 10),
        _ => b.saturating_sub(b'0'),
    }
}

/// A number with one more digit, below 2^64.
fn with_digit(value: u64, base: u8, digit: u8) -> Option<u64>
    ensures value { result ≡ (if nat_lt (value * base + spec.digit_of digit) (2 ^ 64) then Some (value * base + spec.digit_of digit) else None) }
    ensures fits { IfSome result (λ v. v < 2 ^ 64) }
{
    let more = value.checked_mul(u64::from(base))?;
    more.checked_add(u64::from(digit_of(digit)))
}

/// The number that digits write in a base, below 2^64.
#[tactic(auto, unfolding(crate::specs::Number::value_of))]
pub fn value_of(base: u8, digits: &[u8]) -> Option<u64>
    requires { 0 < base }
    ensures { result ≡ (if nat_lt (spec.value_of base digits.now) (2 ^ 64) then Some (spec.value_of base digits.now) else None) }
{
    let mut value: u64 = 0;
    for b in digits {
        match with_digit(value, base, *b) {
            Some(more) => value = more,
            None => return None,
        }
    }
    Some(value)
}

pub fn begins_number(text: &[u8]) -> bool
    ensures value { result ≡ spec.begins_number text.now }
    ensures within { result ≡ true → 0 < length text.now }
{
    let b = byte(text, 0);
    b.is_ascii_digit() || (b == b'.' && byte(text, 1).is_ascii_digit())
}

fn is_exponent(b: u8) -> bool
    ensures { result ≡ spec.is_exponent b }
{
    b == b'e' || b == b'E' || b == b'p' || b == b'P'
}

fn goes_on(last: u8, b: u8) -> bool
    ensures { result ≡ spec.goes_on last b }
{
    is_in(Class::Word, b) || b == b'.' || (is_exponent(last) && (b == b'+' || b == b'-'))
}

/// The length of the number at the front.
#[tactic(auto, unfolding(crate::specs::Number::number_len))]
pub fn number_len(text: &[u8]) -> usize
    requires { 0 < length text.now }
    ensures value { result ≡ spec.number_len text.now }
    ensures within { (0 < result) × (result ≤ length text.now) }
{
    let mut end = 1;
    while end < text.len() && goes_on(text[end - 1], text[end]) {
        end += 1;
    }
    end
}

fn is_hexadecimal(text: &[u8]) -> bool
    ensures value { result ≡ spec.is_hexadecimal text.now }
    ensures within { result ≡ true → 2 ≤ length text.now }
{
    let x = byte(text, 1);
    byte(text, 0) == b'0' && (x == b'x' || x == b'X')
}

fn digits(text: &[u8]) -> Class
    ensures { result ≡ spec.digits text.now }
{
    if is_hexadecimal(text) {
        Class::Hexadecimal
    } else if byte(text, 0) == b'0' {
        Class::Octal
    } else {
        Class::Decimal
    }
}

fn base(digits: Class) -> u8
    ensures value { result ≡ spec.base digits }
    ensures some { 0 < result }
{
    match digits {
        Class::Hexadecimal => 16,
        Class::Octal => 8,
        _ => 10,
    }
}

fn digits_at(text: &[u8]) -> usize
    ensures value { result ≡ spec.digits_at text.now }
    ensures within { result ≤ length text.now }
{
    if is_hexadecimal(text) { 2 } else { 0 }
}

#[tactic(auto, unfolding(crate::specs::Number::digits_end))]
pub fn digits_end(text: &[u8]) -> usize
    ensures value { result ≡ spec.digits_end text.now }
    ensures within { (spec.digits_at text.now ≤ result) × (result ≤ length text.now) }
{
    past(digits(text), text, digits_at(text))
}

#[tactic(auto, unfolding(crate::specs::Number::is_integer))]
pub fn is_integer(text: &[u8]) -> bool
    ensures { result ≡ spec.is_integer text.now }
{
    let end = digits_end(text);
    digits_at(text) < end && is_suffix(&text[end..])
}

/// The value of an integer constant, below 2^64.
#[tactic(auto, unfolding(crate::specs::Number::integer_value))]
pub fn integer_value(text: &[u8]) -> Option<u64>
    ensures { result ≡ (if nat_lt (spec.integer_value text.now) (2 ^ 64) then Some (spec.integer_value text.now) else None) }
{
    let end = digits_end(text);
    value_of(base(digits(text)), &text[digits_at(text)..end])
}

fn float_digits(text: &[u8]) -> Class
    ensures { result ≡ spec.float_digits text.now }
{
    if is_hexadecimal(text) {
        Class::Hexadecimal
    } else {
        Class::Decimal
    }
}

#[tactic(auto, unfolding(crate::specs::Number::whole_end))]
fn whole_end(text: &[u8]) -> usize
    ensures value { result ≡ spec.whole_end text.now }
    ensures within { result ≤ length text.now }
{
    past(float_digits(text), text, digits_at(text))
}

fn has_point(text: &[u8]) -> bool
    ensures value { result ≡ spec.has_point text.now }
    ensures within { result ≡ true → spec.whole_end text.now < length text.now }
{
    byte(text, whole_end(text)) == b'.'
}

#[tactic(auto, unfolding(crate::specs::Number::fraction_end))]
fn fraction_end(text: &[u8]) -> usize
    ensures value { result ≡ spec.fraction_end text.now }
    ensures within { result ≤ length text.now }
{
    let end = whole_end(text);
    if has_point(text) {
        past(float_digits(text), text, end + 1)
    } else {
        end
    }
}

fn begins_exponent(text: &[u8]) -> bool
    ensures value { result ≡ spec.begins_exponent text.now }
    ensures within { result ≡ true → spec.fraction_end text.now < length text.now }
{
    let b = byte(text, fraction_end(text));
    if is_hexadecimal(text) {
        b == b'p' || b == b'P'
    } else {
        b == b'e' || b == b'E'
    }
}

fn exponent_at(text: &[u8]) -> usize
    requires { spec.fraction_end text.now < length text.now }
    ensures value { result ≡ spec.exponent_at text.now }
    ensures within { result ≤ length text.now }
{
    let at = fraction_end(text) + 1;
    let sign = byte(text, at);
    if sign == b'+' || sign == b'-' {
        at + 1
    } else {
        at
    }
}

#[tactic(auto, unfolding(crate::specs::Number::exponent_end))]
fn exponent_end(text: &[u8]) -> usize
    requires { spec.fraction_end text.now < length text.now }
    ensures value { result ≡ spec.exponent_end text.now }
    ensures within { result ≤ length text.now }
{
    past(Class::Decimal, text, exponent_at(text))
}

#[tactic(auto, unfolding(crate::specs::Number::is_floating))]
pub fn is_floating(text: &[u8]) -> bool
    ensures { result ≡ spec.is_floating text.now }
{
    let whole = whole_end(text);
    let end = fraction_end(text);
    let some = digits_at(text) < whole || whole + 1 < end;
    if begins_exponent(text) {
        let end = exponent_end(text);
        some && exponent_at(text) < end && is_float_suffix(&text[end..])
    } else {
        some && has_point(text) && !is_hexadecimal(text) && is_float_suffix(&text[end..])
    }
}
