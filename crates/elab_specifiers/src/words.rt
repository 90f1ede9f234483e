//! The type specifiers of one word (C11 6.7.2p2).

ghost use Rattle.std.specs.Prelude.{◌≡◌};
ghost use Rattle.elab_rules.specs.TypeWords as spec;
ghost use Rattle.elab_rules.specs.Specifiers.{no_words};

use c_types::IntKind;
use elab_environment::Word;
use elab_rules::TypeWords;
use elab_types::{Qualifiers, SourceType};

pub fn no_words() -> TypeWords
    ensures { result ≡ no_words }
{
    TypeWords {
        is_any: false,
        is_repeated: false,
        is_void: false,
        is_bool: false,
        is_char: false,
        is_short: false,
        is_int: false,
        is_long: false,
        is_long_long: false,
        is_signed: false,
        is_unsigned: false,
        is_float: false,
        is_double: false,
        is_complex: false,
    }
}

/// The words with one more.
pub fn with_word(word: Word, words: TypeWords) -> TypeWords
    ensures { result ≡ spec.with_word word words }
{
    let mut w = words;
    w.is_any = true;
    match word {
        Word::Void => {
            w.is_repeated = w.is_repeated || w.is_void;
            w.is_void = true;
        }
        Word::Bool => {
            w.is_repeated = w.is_repeated || w.is_bool;
            w.is_bool = true;
        }
        Word::Char => {
            w.is_repeated = w.is_repeated || w.is_char;
            w.is_char = true;
        }
        Word::Short => {
            w.is_repeated = w.is_repeated || w.is_short;
            w.is_short = true;
        }
        Word::Int => {
            w.is_repeated = w.is_repeated || w.is_int;
            w.is_int = true;
        }
        Word::Long => {
            w.is_repeated = w.is_repeated || w.is_long_long;
            w.is_long_long = w.is_long;
            w.is_long = true;
        }
        Word::Signed => {
            w.is_repeated = w.is_repeated || w.is_signed;
            w.is_signed = true;
        }
        Word::Unsigned => {
            w.is_repeated = w.is_repeated || w.is_unsigned;
            w.is_unsigned = true;
        }
        Word::Float => {
            w.is_repeated = w.is_repeated || w.is_float;
            w.is_float = true;
        }
        Word::Double => {
            w.is_repeated = w.is_repeated || w.is_double;
            w.is_double = true;
        }
        Word::Complex => {
            w.is_repeated = w.is_repeated || w.is_complex;
            w.is_complex = true;
        }
        _ => return words,
    }
    w
}

fn has_sign(w: TypeWords) -> bool
    ensures { result ≡ spec.has_sign w }
{
    w.is_signed || w.is_unsigned
}

/// Whether a word stands that makes an integer of a size.
fn has_size(w: TypeWords) -> bool
    ensures { result ≡ spec.has_size w }
{
    w.is_char || (w.is_short || w.is_long)
}

/// Whether a word of another integer type than `_Bool` stands.
fn is_integer(w: TypeWords) -> bool
    ensures { result ≡ spec.is_integer w }
{
    has_sign(w) || (has_size(w) || w.is_int)
}

fn is_floating(w: TypeWords) -> bool
    ensures { result ≡ spec.is_floating w }
{
    w.is_float || (w.is_double || w.is_complex)
}

/// The integer type, where only words of integers stand.
fn kind(w: TypeWords) -> Option<IntKind>
    ensures { result ≡ spec.kind_of w }
{
    if w.is_signed && w.is_unsigned {
        None
    } else if w.is_char {
        if w.is_short || (w.is_long || w.is_int) {
            None
        } else if w.is_signed {
            Some(IntKind::SChar)
        } else if w.is_unsigned {
            Some(IntKind::UChar)
        } else {
            Some(IntKind::Char)
        }
    } else if w.is_short {
        if w.is_long {
            None
        } else if w.is_unsigned {
            Some(IntKind::UShort)
        } else {
            Some(IntKind::Short)
        }
    } else if w.is_long_long {
        Some(if w.is_unsigned {
            IntKind::ULongLong
        } else {
            IntKind::LongLong
        })
    } else if w.is_long {
        Some(if w.is_unsigned {
            IntKind::ULong
        } else {
            IntKind::Long
        })
    } else if w.is_unsigned {
        Some(IntKind::UInt)
    } else {
        Some(IntKind::Int)
    }
}

fn integer(w: TypeWords) -> Option<SourceType>
    ensures { result ≡ spec.integer_of w }
{
    match kind(w) {
        Some(kind) => Some(SourceType::Int(kind, Qualifiers::NONE)),
        None => None,
    }
}

fn floating(w: TypeWords) -> Option<SourceType>
    ensures { result ≡ spec.floating_of w }
{
    let single = w.is_float && !(w.is_double || w.is_long);
    let double = w.is_double && !w.is_float;
    let others = has_sign(w) || (w.is_char || (w.is_short || w.is_int));
    if (single || double) && !(w.is_long_long || others) {
        Some(SourceType::Floating(Qualifiers::NONE))
    } else {
        None
    }
}

/// The type that the words stand for.
pub fn type_of(w: TypeWords) -> Option<SourceType>
    ensures { result ≡ spec.type_of w }
{
    if w.is_repeated {
        None
    } else if w.is_void {
        if w.is_bool || (is_integer(w) || is_floating(w)) {
            None
        } else {
            Some(SourceType::Void(Qualifiers::NONE))
        }
    } else if w.is_bool {
        if is_integer(w) || is_floating(w) {
            None
        } else {
            Some(SourceType::Int(IntKind::Bool, Qualifiers::NONE))
        }
    } else if is_floating(w) {
        floating(w)
    } else if is_integer(w) {
        integer(w)
    } else {
        None
    }
}
