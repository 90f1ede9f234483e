//! The words and operators that elaboration reads (C11 6.4.1, 6.4.6).

ghost use Rattle.std.specs.Prelude.{◌≡◌, map};
ghost use Rattle.elab_lexemes.specs.Words as spec;

use elab_environment::{Lexeme, Operator, Word};

const WORDS: [(&[u8], Lexeme); 27] = [
    (b"typedef", Lexeme::Word(Word::Typedef)),
    (b"extern", Lexeme::Word(Word::Extern)),
    (b"static", Lexeme::Word(Word::Static)),
    (b"auto", Lexeme::Word(Word::Auto)),
    (b"register", Lexeme::Word(Word::Register)),
    (b"inline", Lexeme::Word(Word::Inline)),
    (b"_Noreturn", Lexeme::Word(Word::Noreturn)),
    (b"const", Lexeme::Word(Word::Const)),
    (b"__const", Lexeme::Word(Word::Const)),
    (b"volatile", Lexeme::Word(Word::Volatile)),
    (b"__volatile__", Lexeme::Word(Word::Volatile)),
    (b"__volatile", Lexeme::Word(Word::Volatile)),
    (b"restrict", Lexeme::Word(Word::Restrict)),
    (b"void", Lexeme::Word(Word::Void)),
    (b"char", Lexeme::Word(Word::Char)),
    (b"short", Lexeme::Word(Word::Short)),
    (b"int", Lexeme::Word(Word::Int)),
    (b"long", Lexeme::Word(Word::Long)),
    (b"float", Lexeme::Word(Word::Float)),
    (b"double", Lexeme::Word(Word::Double)),
    (b"signed", Lexeme::Word(Word::Signed)),
    (b"__signed__", Lexeme::Word(Word::Signed)),
    (b"unsigned", Lexeme::Word(Word::Unsigned)),
    (b"_Bool", Lexeme::Word(Word::Bool)),
    (b"_Complex", Lexeme::Word(Word::Complex)),
    (b"struct", Lexeme::Word(Word::Struct)),
    (b"union", Lexeme::Word(Word::Union)),
];

const OPERATORS: [(&[u8], Lexeme); 33] = [
    (b"*", Lexeme::Operator(Operator::Star)),
    (b"/", Lexeme::Operator(Operator::Slash)),
    (b"%", Lexeme::Operator(Operator::Percent)),
    (b"+", Lexeme::Operator(Operator::Plus)),
    (b"-", Lexeme::Operator(Operator::Minus)),
    (b"<<", Lexeme::Operator(Operator::ShiftLeft)),
    (b">>", Lexeme::Operator(Operator::ShiftRight)),
    (b"<", Lexeme::Operator(Operator::Less)),
    (b"<=", Lexeme::Operator(Operator::LessOrEqual)),
    (b">", Lexeme::Operator(Operator::Greater)),
    (b">=", Lexeme::Operator(Operator::GreaterOrEqual)),
    (b"==", Lexeme::Operator(Operator::Equal)),
    (b"!=", Lexeme::Operator(Operator::NotEqual)),
    (b"&", Lexeme::Operator(Operator::Ampersand)),
    (b"^", Lexeme::Operator(Operator::Caret)),
    (b"|", Lexeme::Operator(Operator::Bar)),
    (b"&&", Lexeme::Operator(Operator::And)),
    (b"||", Lexeme::Operator(Operator::Or)),
    (b"!", Lexeme::Operator(Operator::Not)),
    (b"~", Lexeme::Operator(Operator::Tilde)),
    (b"++", Lexeme::Operator(Operator::Increment)),
    (b"--", Lexeme::Operator(Operator::Decrement)),
    (b"=", Lexeme::Assign),
    (b"*=", Lexeme::Compound(Operator::Star)),
    (b"/=", Lexeme::Compound(Operator::Slash)),
    (b"%=", Lexeme::Compound(Operator::Percent)),
    (b"+=", Lexeme::Compound(Operator::Plus)),
    (b"-=", Lexeme::Compound(Operator::Minus)),
    (b"<<=", Lexeme::Compound(Operator::ShiftLeft)),
    (b">>=", Lexeme::Compound(Operator::ShiftRight)),
    (b"&=", Lexeme::Compound(Operator::Ampersand)),
    (b"^=", Lexeme::Compound(Operator::Caret)),
    (b"|=", Lexeme::Compound(Operator::Bar)),
];

fn lexeme_in(mut entries: &[(&[u8], Lexeme)], text: &[u8]) -> Lexeme
    ensures { result ≡ spec.lexeme_in (map (λ e. (e.0.now, e.1)) entries.entry.now) text.now }
{
    while let [entry, rest @ ..] = entries {
        if entry.0 == text {
            return entry.1;
        }
        entries = rest;
    }
    Lexeme::Other
}

/// What a keyword stands for.
pub fn keyword(text: &[u8]) -> Lexeme
    ensures { result ≡ spec.lexeme_in spec.word_lexemes text.now }
{
    lexeme_in(&WORDS, text)
}

/// What a punctuator stands for.
pub fn punctuator(text: &[u8]) -> Lexeme
    ensures { result ≡ spec.lexeme_in spec.operator_lexemes text.now }
{
    lexeme_in(&OPERATORS, text)
}
