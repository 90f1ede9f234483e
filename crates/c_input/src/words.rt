//! The words of a file: what the grammar sees of its tokens.

ghost use Rattle.std.specs.Prelude.{◌≡◌, ◌≤◌, ℕ, List, Some, length, bytes_eq, if◌then◌else◌, IfOk};
ghost use Rattle.c_input.specs.Words as spec;
ghost use Rattle.c_input.specs.Numbers.{numbered, held};

use crate::vocabulary::kind_sign;
use crate::word::Word;
use c_lex::{Token, TokenKind};
use std::alloc::{AllocError, Global};
use std::collections::BTreeMap;

/// The number of a name, which is the one at hand where the name is new.
fn name_number<'a>(
    numbers: &mut BTreeMap<&'a [u8], u32>,
    text: &'a [u8],
    at: u32,
) -> Result<u32, AllocError>
    ensures number { IfOk result (λ n. n ≡ numbered numbers.old text.now at) }
    ensures others { IfOk result (λ n. (q : List ℕ) → held numbers.new q ≡ (if bytes_eq text.now q then Some n else held numbers.old q)) }
{
    match numbers.get(text) {
        Some(first) => Ok(*first),
        None => {
            numbers.insert(text, at)?;
            Ok(at)
        }
    }
}

/// The number of a token, which is 0 where it is no name.
fn number<'a>(
    numbers: &mut BTreeMap<&'a [u8], u32>,
    kind: TokenKind,
    text: &'a [u8],
    at: u32,
) -> Result<u32, AllocError>
    ensures number { IfOk result (λ n. n ≡ (if spec.is_name_kind kind then numbered numbers.old text.now at else 0)) }
    ensures others { IfOk result (λ n. (q : List ℕ) → held numbers.new q
        ≡ (if spec.is_name_kind kind then (if bytes_eq text.now q then Some n else held numbers.old q) else held numbers.old q)) }
{
    match kind {
        TokenKind::Name => name_number(numbers, text, at),
        _ => Ok(0),
    }
}

/// The words of the tokens. Equal names have equal numbers: the place of the first of them.
pub fn word_list(alloc: Global, file: &[u8], tokens: &[Token]) -> Result<Vec<Word>, AllocError>
    requires { length tokens.now ≤ 1048576 }
    ensures { IfOk result (λ words. words.items ≡ spec.word_list file.now tokens.now) }
{
    let mut words = Vec::with_capacity(alloc, tokens.len())?;
    let mut numbers: BTreeMap<&[u8], u32> = BTreeMap::new(alloc);
    for token in tokens {
        let text = token.text(file);
        let at = words.len() as u32;
        let name = number(&mut numbers, token.kind, text, at)?;
        let sign = kind_sign(token.kind, text);
        words.push(Word { sign, name })?;
    }
    Ok(words)
}
