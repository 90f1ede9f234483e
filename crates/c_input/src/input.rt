//! The words that a rule looks at and takes, one ahead.

ghost use Rattle.std.specs.Prelude.{◌≡◌, ◌≢◌, ◌≤◌, length, true};
ghost use Rattle.c_input.specs.Input as spec;
ghost use Rattle.c_input.specs.Parser as parser;
ghost use Rattle.c_input.specs.Signs as signs;
ghost use Rattle.c_input.specs.Words.{words_of};
ghost use Rattle.c_input.specs.Gives.{Gives, Stops};

use crate::error::SyntaxStop;
use crate::word::{Place, Sign, Word};

/// What the grammar sees of the next word.
#[tactic(auto, unfolding(crate::specs::Input::look_at))]
pub fn sign(words: &[Word], place: &Place) -> Sign
    ensures { result ≡ spec.look_at (words_of words.now) place.now }
{
    match words.get(place.at as usize) {
        None => Sign::Eof,
        Some(word) => match word.sign {
            Sign::Name => {
                if place.names.is_type(word.name) {
                    Sign::TypeName
                } else {
                    Sign::Name
                }
            }
            sign => sign,
        },
    }
}

/// Takes the word that was seen.
pub fn skip(words: &[Word], place: &mut Place)
    requires short { length words.now ≤ 1048576 }
    requires seen { spec.look_at (words_of words.now) place.old ≢ Sign.Eof }
    ensures { place.new ≡ spec.step place.old }
{
    place.at += 1;
}

/// No tree goes on with the next word.
pub fn refuse(words: &[Word], place: &Place) -> SyntaxStop
    ensures { Stops (parser.stop_by (spec.look_at (words_of words.now) place.now) place.now.at (parser.syntax place.now.at)) result }
{
    match sign(words, place) {
        Sign::LeftOut => SyntaxStop::OutOfProfile { at: place.at },
        _ => SyntaxStop::Syntax { at: place.at },
    }
}

/// No tree in which nodes nest within the limit goes on with the next word.
pub fn too_deep(words: &[Word], place: &Place) -> SyntaxStop
    ensures { Stops (parser.stop_by (spec.look_at (words_of words.now) place.now) place.now.at (parser.too_deep place.now.at)) result }
{
    match sign(words, place) {
        Sign::LeftOut => SyntaxStop::OutOfProfile { at: place.at },
        _ => SyntaxStop::TooDeep { at: place.at },
    }
}

/// The next word begins a construct that is left out.
pub fn left_out(place: &Place) -> SyntaxStop
    ensures { result ≡ SyntaxStop.OutOfProfile place.now.at }
{
    SyntaxStop::OutOfProfile { at: place.at }
}

/// Where no node may begin any more: a word that could begin one is too deep.
pub fn no_room(words: &[Word], place: &Place, begins: bool) -> SyntaxStop
    ensures { Stops (parser.no_room_stop begins (spec.look_at (words_of words.now) place.now) place.now.at) result }
{
    if begins {
        too_deep(words, place)
    } else {
        refuse(words, place)
    }
}

/// Takes the next word, which is to have the sign that is wanted.
#[tactic(auto, unfolding(crate::specs::Parser::expect, crate::specs::Parser::refuse))]
pub fn expect(words: &[Word], place: &mut Place, wanted: Sign) -> Result<(), SyntaxStop>
    requires short { length words.now ≤ 1048576 }
    requires a_word { wanted ≢ Sign.Eof }
    ensures { Gives (parser.expect (signs.is wanted) (words_of words.now) place.old) result place.new }
{
    if sign(words, place) == wanted {
        skip(words, place);
        Ok(())
    } else {
        Err(refuse(words, place))
    }
}

/// Takes a name, which may be a typedef name, and answers its number and its place.
#[tactic(auto, unfolding(crate::specs::Parser::any_name, crate::specs::Parser::refuse))]
pub fn any_name(words: &[Word], place: &mut Place) -> Result<(u32, u32), SyntaxStop>
    requires short { length words.now ≤ 1048576 }
    ensures { Gives (parser.any_name (words_of words.now) place.old) result place.new }
{
    match sign(words, place) {
        Sign::Name | Sign::TypeName => Ok(take_name(words, place)),
        _ => Err(refuse(words, place)),
    }
}

/// Takes the name that was seen, and answers its number and its place.
pub fn take_name(words: &[Word], place: &mut Place) -> (u32, u32)
    requires short { length words.now ≤ 1048576 }
    requires seen { spec.is_name (spec.look_at (words_of words.now) place.old) ≡ true }
    ensures number { result.0 ≡ spec.name_in (words_of words.now place.old.at) }
    ensures at { result.1 ≡ place.old.at }
    ensures place { place.new ≡ spec.step place.old }
{
    let at = place.at;
    let name = match words.get(at as usize) {
        Some(word) => word.name,
        None => 0,
    };
    skip(words, place);
    (name, at)
}

/// The level of the production that the word continues, 0 where it continues none (C11 6.5).
pub fn binds(sign: Sign) -> u8
    ensures value { result ≡ spec.binds sign }
    ensures small { result ≤ 16 }
{
    match sign {
        Sign::Comma => 1,
        Sign::Equal | Sign::AssignOp => 2,
        Sign::Question => 3,
        Sign::OrOr => 4,
        Sign::AndAnd => 5,
        Sign::Bar => 6,
        Sign::Caret => 7,
        Sign::Amp => 8,
        Sign::Equality => 9,
        Sign::Relational => 10,
        Sign::Shift => 11,
        Sign::Additive => 12,
        Sign::Star | Sign::Multiplicative => 13,
        Sign::OpenParen
        | Sign::OpenBracket
        | Sign::Dot
        | Sign::Arrow
        | Sign::Increment
        | Sign::Decrement => 16,
        _ => 0,
    }
}

/// The level that the word wants of what stands before it.
pub fn wants(sign: Sign) -> u8
    ensures { result ≡ spec.wants sign }
{
    match sign {
        Sign::Equal | Sign::AssignOp => 15,
        Sign::Question => 4,
        _ => binds(sign),
    }
}

pub fn begins_expression(sign: Sign) -> bool
    ensures { result ≡ spec.begins_expression sign }
{
    match sign {
        Sign::Name
        | Sign::Int
        | Sign::Float
        | Sign::Char
        | Sign::Str
        | Sign::OpenParen
        | Sign::Increment
        | Sign::Decrement
        | Sign::Amp
        | Sign::Star
        | Sign::Additive
        | Sign::Complement
        | Sign::Sizeof => true,
        _ => false,
    }
}

/// Whether the word goes on a list of specifiers and qualifiers (C11 6.7.2.1). A typedef name does so only where no type
/// specifier stands before it.
pub fn qualifies(typed: bool, sign: Sign) -> bool
    ensures { result ≡ spec.qualifies typed sign }
{
    match sign {
        Sign::Qualifier | Sign::TypeWord | Sign::Struct | Sign::Union | Sign::Enum => true,
        Sign::TypeName => !typed,
        _ => false,
    }
}

/// Whether the word goes on a list of declaration specifiers (C11 6.7).
pub fn specifies(typed: bool, sign: Sign) -> bool
    ensures { result ≡ spec.specifies typed sign }
{
    match sign {
        Sign::Storage | Sign::Static | Sign::Typedef => true,
        _ => qualifies(typed, sign),
    }
}

pub fn is_comma(sign: Sign) -> bool
    ensures { result ≡ signs.is_comma sign }
{
    sign == Sign::Comma
}

pub fn is_semicolon(sign: Sign) -> bool
    ensures { result ≡ signs.is_semicolon sign }
{
    sign == Sign::Semicolon
}

pub fn is_close_brace(sign: Sign) -> bool
    ensures { result ≡ signs.is_close_brace sign }
{
    sign == Sign::CloseBrace
}

pub fn is_close_paren(sign: Sign) -> bool
    ensures { result ≡ signs.is_close_paren sign }
{
    sign == Sign::CloseParen
}

pub fn is_name(sign: Sign) -> bool
    ensures { result ≡ spec.is_name sign }
{
    match sign {
        Sign::Name | Sign::TypeName => true,
        _ => false,
    }
}
