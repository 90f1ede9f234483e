ghost use Rattle.std.specs.Prelude.{◌≡◌, ◌≤◌, ◌++◌, [], ◌∷◌, map, length, slice_get, IfOk, OnOk};
ghost use Rattle.std.specs.Option.{option_copied};
ghost use Rattle.c_lex.specs.Literal as literals;
ghost use Rattle.elab_lexemes.specs.Reading as spec;

use crate::constants::{char_lexeme, int_lexeme};
use crate::words::{keyword, punctuator};
use c_input::{Word, word_list};
use c_lex::{Token, TokenKind, char_value, int_constant, string_bytes};
use elab_environment::Lexeme;
use sqlite_items::{Items, at};
use std::alloc::{AllocError, Global};

/// What elaboration reads of the tokens of a file.
#[derive(Drop)]
pub struct Lexemes {
    /// Of each token.
    pub list: Items<Lexeme>,
    /// The bytes of the string literals, one behind the other, without their zeros.
    pub strings: Items<u8>,
}

fn place_of(token: Option<&Token>) -> u32
    ensures { result ≡ spec.place_of (option_copied token.entry) }
{
    match token {
        Some(token) => token.at,
        None => 0,
    }
}

/// The places in the file of the tokens that words are numbered by.
fn places(alloc: Global, words: &[Word], tokens: &[Token]) -> Result<Items<u32>, AllocError>
    ensures { IfOk result (λ places. places ≡ map (spec.word_place tokens.now) words.now) }
{
    let mut places = Items::new(alloc);
    for word in words {
        places.push(place_of(at(tokens, word.name as usize)))?;
    }
    Ok(places)
}

/// The number of each token's name; of other tokens it says nothing.
fn names(alloc: Global, file: &[u8], tokens: &[Token]) -> Result<Items<u32>, AllocError>
    requires { length tokens.now ≤ 1048576 }
    ensures { IfOk result (λ ns. ns ≡ map (spec.name_number file.now tokens.now) tokens.now) }
{
    let words = word_list(alloc, file, tokens)?;
    let places = places(alloc, words.as_slice(), tokens)?;
    Ok(places)
}

impl Lexemes {
    /// A string literal, whose bytes go behind those of the ones before.
    fn push_string(&mut self, alloc: Global, text: &[u8]) -> Result<Lexeme, AllocError>
        ensures lexeme { IfOk result (λ l. l ≡ spec.string_lexeme (length self.old.strings) text.now) }
        ensures strings { OnOk result (self.new.strings ≡ self.old.strings ++ literals.string_bytes text.now) }
        ensures list { self.new.list ≡ self.old.list }
    {
        let bytes = string_bytes(alloc, text)?;
        let (place, len) = (self.strings.len(), bytes.len());
        // Places are u32. No file is long enough to need more.
        if place > 0xffff_ffff || len > 0xffff_ffff {
            return Err(AllocError);
        }
        self.strings.append(Items::from_vec(bytes))?;
        Ok(Lexeme::Str(place as u32, len as u32))
    }

    fn push(
        &mut self,
        alloc: Global,
        kind: TokenKind,
        text: &[u8],
        name: u32,
    ) -> Result<(), AllocError>
        ensures list { OnOk result (self.new.list ≡ self.old.list ++ spec.lexeme_of kind text.now name (length self.old.strings) ∷ []) }
        ensures strings { OnOk result (self.new.strings ≡ self.old.strings ++ spec.bytes_of kind text.now) }
    {
        let lexeme = match kind {
            TokenKind::Keyword => keyword(text),
            TokenKind::Name => Lexeme::Name(name),
            TokenKind::Int => int_lexeme(int_constant(text)),
            TokenKind::Float => Lexeme::Other,
            TokenKind::Char => char_lexeme(char_value(text)),
            TokenKind::Str => self.push_string(alloc, text)?,
            TokenKind::Punct => punctuator(text),
        };
        self.list.push(lexeme)?;
        Ok(())
    }
}

/// What elaboration reads of the tokens of a file. Equal names have equal numbers: the place of the first of them.
pub fn read(alloc: Global, file: &[u8], tokens: &[Token]) -> Result<Lexemes, AllocError>
    requires { length tokens.now ≤ 1048576 }
    ensures list { IfOk result (λ l. l.list ≡ spec.lexemes file.now tokens.now) }
    ensures strings { IfOk result (λ l. l.strings ≡ spec.strings file.now tokens.now) }
{
    let names = names(alloc, file, tokens)?;
    let mut left = names.as_slice();
    let mut lexemes = Lexemes {
        list: Items::new(alloc),
        strings: Items::new(alloc),
    };
    for token in tokens {
        match left {
            [] => unreachable!(),
            [name, rest @ ..] => {
                lexemes.push(alloc, token.kind, token.text(file), *name)?;
                left = rest;
            }
        }
    }
    Ok(lexemes)
}
