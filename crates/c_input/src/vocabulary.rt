//! The words of C11 (6.4.1, 6.4.6) and what the grammar sees of each.

ghost use Rattle.std.specs.Prelude.{◌≡◌, map};
ghost use Rattle.c_input.specs.Words as spec;

use crate::word::Sign;
use c_lex::TokenKind;

const KEYWORDS: [(&[u8], Sign); 47] = [
    (b"extern", Sign::Storage),
    (b"auto", Sign::Storage),
    (b"register", Sign::Storage),
    (b"inline", Sign::Storage),
    (b"_Noreturn", Sign::Storage),
    (b"static", Sign::Static),
    (b"typedef", Sign::Typedef),
    (b"const", Sign::Qualifier),
    (b"volatile", Sign::Qualifier),
    (b"restrict", Sign::Qualifier),
    (b"__const", Sign::Qualifier),
    (b"__volatile__", Sign::Qualifier),
    (b"__volatile", Sign::Qualifier),
    (b"void", Sign::TypeWord),
    (b"char", Sign::TypeWord),
    (b"short", Sign::TypeWord),
    (b"int", Sign::TypeWord),
    (b"long", Sign::TypeWord),
    (b"float", Sign::TypeWord),
    (b"double", Sign::TypeWord),
    (b"signed", Sign::TypeWord),
    (b"__signed__", Sign::TypeWord),
    (b"unsigned", Sign::TypeWord),
    (b"_Bool", Sign::TypeWord),
    (b"_Complex", Sign::TypeWord),
    (b"struct", Sign::Struct),
    (b"union", Sign::Union),
    (b"enum", Sign::Enum),
    (b"sizeof", Sign::Sizeof),
    (b"if", Sign::If),
    (b"else", Sign::Else),
    (b"while", Sign::While),
    (b"do", Sign::Do),
    (b"for", Sign::For),
    (b"switch", Sign::Switch),
    (b"case", Sign::Case),
    (b"default", Sign::Default),
    (b"goto", Sign::Goto),
    (b"break", Sign::Break),
    (b"continue", Sign::Continue),
    (b"return", Sign::Return),
    (b"_Atomic", Sign::LeftOut),
    (b"_Generic", Sign::LeftOut),
    (b"_Thread_local", Sign::LeftOut),
    (b"_Alignas", Sign::LeftOut),
    (b"_Alignof", Sign::LeftOut),
    (b"_Static_assert", Sign::LeftOut),
];

const PUNCTUATORS: [(&[u8], Sign); 46] = [
    (b"(", Sign::OpenParen),
    (b")", Sign::CloseParen),
    (b"[", Sign::OpenBracket),
    (b"]", Sign::CloseBracket),
    (b"{", Sign::OpenBrace),
    (b"}", Sign::CloseBrace),
    (b";", Sign::Semicolon),
    (b",", Sign::Comma),
    (b"=", Sign::Equal),
    (b".", Sign::Dot),
    (b"->", Sign::Arrow),
    (b"++", Sign::Increment),
    (b"--", Sign::Decrement),
    (b"*", Sign::Star),
    (b"&", Sign::Amp),
    (b"+", Sign::Additive),
    (b"-", Sign::Additive),
    (b"~", Sign::Complement),
    (b"!", Sign::Complement),
    (b"/", Sign::Multiplicative),
    (b"%", Sign::Multiplicative),
    (b"<<", Sign::Shift),
    (b">>", Sign::Shift),
    (b"<", Sign::Relational),
    (b">", Sign::Relational),
    (b"<=", Sign::Relational),
    (b">=", Sign::Relational),
    (b"==", Sign::Equality),
    (b"!=", Sign::Equality),
    (b"^", Sign::Caret),
    (b"|", Sign::Bar),
    (b"&&", Sign::AndAnd),
    (b"||", Sign::OrOr),
    (b"?", Sign::Question),
    (b":", Sign::Colon),
    (b"...", Sign::Ellipsis),
    (b"*=", Sign::AssignOp),
    (b"/=", Sign::AssignOp),
    (b"%=", Sign::AssignOp),
    (b"+=", Sign::AssignOp),
    (b"-=", Sign::AssignOp),
    (b"<<=", Sign::AssignOp),
    (b">>=", Sign::AssignOp),
    (b"&=", Sign::AssignOp),
    (b"^=", Sign::AssignOp),
    (b"|=", Sign::AssignOp),
];

fn sign_in(mut entries: &[(&[u8], Sign)], text: &[u8]) -> Sign
    ensures { result ≡ spec.sign_in (map (λ e. (e.0.now, e.1)) entries.entry.now) text.now }
{
    while let [entry, rest @ ..] = entries {
        if entry.0 == text {
            return entry.1;
        }
        entries = rest;
    }
    Sign::Other
}

fn name_sign(text: &[u8]) -> Sign
    ensures { result ≡ spec.name_sign text.now }
{
    if text == b"asm".as_slice() || text == b"__asm".as_slice() || text == b"__asm__".as_slice() {
        Sign::LeftOut
    } else {
        Sign::Name
    }
}

/// The sign of a literal, which may have a prefix before its quote.
fn literal_sign(quote: u8, text: &[u8], sign: Sign) -> Sign
    ensures { result ≡ spec.literal_sign (spec.is_narrow quote text.now) sign }
{
    match text {
        [first, ..] if *first == quote => sign,
        [b'u', b'8', ..] => sign,
        _ => Sign::LeftOut,
    }
}

/// What the grammar sees of a token where no typedef name is in scope.
pub fn kind_sign(kind: TokenKind, text: &[u8]) -> Sign
    ensures { result ≡ spec.kind_sign kind text.now }
{
    match kind {
        TokenKind::Keyword => sign_in(&KEYWORDS, text),
        TokenKind::Name => name_sign(text),
        TokenKind::Int => Sign::Int,
        TokenKind::Float => Sign::Float,
        TokenKind::Char => literal_sign(b'\'', text, Sign::Char),
        TokenKind::Str => literal_sign(b'"', text, Sign::Str),
        TokenKind::Punct => sign_in(&PUNCTUATORS, text),
    }
}
