//! Tokens, and how long the file may be in which they stand.

ghost use Rattle.std.specs.Prelude.{◌≡◌};
ghost use Rattle.c_lex.specs.Source as spec;

/// The most bytes of a file, and so the most tokens.
pub const LONGEST: usize = 1_048_576;

/// Where a byte stands for its reader: what the last line marker before it says. Offsets and lengths in bytes.
#[derive(Clone, Copy, Debug, PartialEq, Eq)]
pub struct Place {
    /// Where the name of the file begins, without its quote; 0 before any marker.
    pub name_at: u32,
    pub name_len: u32,
    /// The number of the line, from 1 before any marker.
    pub line: u32,
}

#[derive(Clone, Copy, Debug, PartialEq, Eq)]
pub enum TokenKind {
    /// A keyword of C11 6.4.1, or `__const`, `__volatile__`, `__volatile` or `__signed__`.
    Keyword,
    /// Any other identifier.
    Name,
    /// An integer constant, below 2^64.
    Int,
    /// A floating constant.
    Float,
    /// A character constant of one character, with its prefix.
    Char,
    /// A string literal, with its prefix.
    Str,
    /// A punctuator of C11 6.4.6, without the digraphs.
    Punct,
}

/// A token: its text is the slice of the file at `at` of `len` bytes.
#[derive(Clone, Copy, Debug, PartialEq, Eq)]
pub struct Token {
    pub kind: TokenKind,
    pub at: u32,
    pub len: u32,
    pub place: Place,
}

impl Token {
    /// The token's text, as far as it lies in the file.
    #[tactic(auto, using(crate::proofs::Texts::cut))]
    pub fn text<'a>(&self, file: &'a [u8]) -> &'a [u8]
        ensures { result.now ≡ spec.text_of file.now self.now }
    {
        let rest = &file[(self.at as usize).min(file.len())..];
        &rest[..(self.len as usize).min(rest.len())]
    }
}
