//! The words, punctuators and suffixes of C11 (6.4.1, 6.4.6, 6.4.4).

ghost use Rattle.std.specs.Prelude.{◌≡◌, ◌≤◌, length, map};
ghost use Rattle.c_lex.specs.Vocabulary as spec;

pub const KEYWORDS: [&[u8]; 48] = [
    b"auto",
    b"break",
    b"case",
    b"char",
    b"const",
    b"continue",
    b"default",
    b"do",
    b"double",
    b"else",
    b"enum",
    b"extern",
    b"float",
    b"for",
    b"goto",
    b"if",
    b"inline",
    b"int",
    b"long",
    b"register",
    b"restrict",
    b"return",
    b"short",
    b"signed",
    b"sizeof",
    b"static",
    b"struct",
    b"switch",
    b"typedef",
    b"union",
    b"unsigned",
    b"void",
    b"volatile",
    b"while",
    b"_Alignas",
    b"_Alignof",
    b"_Atomic",
    b"_Bool",
    b"_Complex",
    b"_Generic",
    b"_Imaginary",
    b"_Noreturn",
    b"_Static_assert",
    b"_Thread_local",
    b"__const",
    b"__volatile__",
    b"__volatile",
    b"__signed__",
];

pub const SKIPPED_WORDS: [&[u8]; 5] = [
    b"__extension__",
    b"__restrict",
    b"__restrict__",
    b"__inline",
    b"__inline__",
];

pub const PUNCTUATORS: [&[u8]; 48] = [
    b"...", b"<<=", b">>=", b"->", b"++", b"--", b"<<", b">>", b"<=", b">=", b"==", b"!=", b"&&",
    b"||", b"*=", b"/=", b"%=", b"+=", b"-=", b"&=", b"^=", b"|=", b"##", b"[", b"]", b"(", b")",
    b"{", b"}", b".", b"&", b"*", b"+", b"-", b"~", b"!", b"/", b"%", b"<", b">", b"^", b"|", b"?",
    b":", b";", b"=", b",", b"#",
];

pub const SUFFIXES: [&[u8]; 23] = [
    b"", b"u", b"U", b"l", b"L", b"ll", b"LL", b"ul", b"uL", b"Ul", b"UL", b"ull", b"uLL", b"Ull",
    b"ULL", b"lu", b"lU", b"Lu", b"LU", b"llu", b"llU", b"LLu", b"LLU",
];

pub const FLOAT_SUFFIXES: [&[u8]; 5] = [b"", b"f", b"F", b"l", b"L"];

fn is_among(mut texts: &[&[u8]], text: &[u8]) -> bool
    ensures { result ≡ spec.is_among (map (λ t. t.now) texts.entry.now) text.now }
{
    while let [t, rest @ ..] = texts {
        if *t == text {
            return true;
        }
        texts = rest;
    }
    false
}

pub fn is_keyword(word: &[u8]) -> bool
    ensures { result ≡ spec.is_among spec.keywords word.now }
{
    is_among(&KEYWORDS, word)
}

pub fn is_skipped(word: &[u8]) -> bool
    ensures { result ≡ spec.is_among spec.skipped_words word.now }
{
    is_among(&SKIPPED_WORDS, word)
}

pub fn is_suffix(text: &[u8]) -> bool
    ensures { result ≡ spec.is_among spec.suffixes text.now }
{
    is_among(&SUFFIXES, text)
}

pub fn is_float_suffix(text: &[u8]) -> bool
    ensures { result ≡ spec.is_among spec.float_suffixes text.now }
{
    is_among(&FLOAT_SUFFIXES, text)
}

/// The length of the longest of these texts that begins a text, 0 where none does.
fn longest(mut texts: &[&[u8]], text: &[u8]) -> usize
    ensures value { result ≡ spec.longest (map (λ t. t.now) texts.entry.now) text.now }
    ensures within { result ≤ length text.now }
{
    let mut len = 0;
    while let [t, rest @ ..] = texts {
        if text.starts_with(t) {
            len = len.max(t.len());
        }
        texts = rest;
    }
    len
}

/// The length of the punctuator at the front, 0 where none is.
#[tactic(auto, unfolding(crate::specs::Vocabulary::punctuator_len))]
pub fn punctuator_len(text: &[u8]) -> usize
    ensures value { result ≡ spec.punctuator_len text.now }
    ensures within { result ≤ length text.now }
{
    longest(&PUNCTUATORS, text)
}

pub fn is_attribute(word: &[u8]) -> bool
    ensures { result ≡ spec.is_attribute word.now }
{
    word == b"__attribute__".as_slice()
}
