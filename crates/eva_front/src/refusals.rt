ghost use Rattle.std.specs.Prelude.{◌≡◌, ℕ, take, drop, IfOk, string_bytes};
ghost use Rattle.eva_front.specs.FileNames.{file_name as file_name_of};
ghost use Rattle.eva_front.specs.Refusals as spec;
ghost use Rattle.eva_front.specs.Report.{ended};

use crate::report::show_name;
use c_lex::{LexStop, Place, Token};
use std::alloc::{AllocError, Global};

/// A layer of the front end.
#[derive(Clone, Copy, Debug, Drop, PartialEq, Eq)]
pub enum Layer {
    Lex,
    Syntax,
}

/// Why a file is refused.
#[derive(Clone, Copy, Debug, Drop, PartialEq, Eq)]
pub enum Refusal {
    /// It has more than 2^20 bytes.
    TooLong,
    /// A layer stops, with the number of the stop and its place.
    Stopped(Layer, u32, Place),
    /// It isn't of the form that is analysed.
    NotOfForm,
}

/// What a stop of the tokens is printed as; `None` for want of memory.
pub fn lex_refusal(stop: LexStop) -> Option<Refusal>
    ensures { result ≡ spec.lex_refusal stop }
{
    match stop {
        LexStop::BadByte { place, .. } => Some(Refusal::Stopped(Layer::Lex, 1, place)),
        LexStop::BadToken { place, .. } => Some(Refusal::Stopped(Layer::Lex, 2, place)),
        LexStop::LiteralTooWide { place, .. } => Some(Refusal::Stopped(Layer::Lex, 3, place)),
        LexStop::Memory => None,
    }
}

/// The place of a token, and at the end of the list that of the last one.
pub fn place_of(tokens: &[Token], at: u32) -> Place
    ensures { result ≡ spec.place_of tokens.now at }
{
    let index = (at as usize).min(tokens.len().saturating_sub(1));
    match tokens.get(index) {
        Some(token) => token.place,
        None => Place {
            name_at: 0,
            name_len: 0,
            line: 1,
        },
    }
}

/// At most `len` bytes from `at` on.
fn piece(file: &[u8], at: u32, len: u32) -> &[u8]
    ensures { result.now ≡ take len (drop at file.now) }
{
    let rest = &file[(at as usize).min(file.len())..];
    &rest[..(len as usize).min(rest.len())]
}

/// The name of a file: that of the last line marker at these bytes, and before any marker the word on the command line.
pub fn file_name<'a>(file: &'a [u8], word: &'a str, at: u32, len: u32) -> &'a [u8]
    ensures { result.now ≡ file_name_of file.now word.now at len }
{
    if at == 0 {
        word.as_bytes()
    } else {
        piece(file, at, len)
    }
}

fn layer_name(layer: Layer) -> &'static str
    ensures { result.now ≡ spec.layer_text layer }
{
    match layer {
        Layer::Lex => "lex",
        Layer::Syntax => "syntax",
    }
}

/// The line on a file that is refused.
pub fn write_refusal(
    alloc: Global,
    file: &[u8],
    word: &str,
    refusal: Refusal,
) -> Result<String, AllocError>
    ensures { IfOk result (λ text. string_bytes text ≡ ended (spec.refusal_line file.now word.now refusal)) }
{
    match refusal {
        Refusal::TooLong => String::from_str(alloc, "refused: source 1\n"),
        Refusal::NotOfForm => String::from_str(alloc, "refused: form 1\n"),
        Refusal::Stopped(layer, number, place) => {
            let layer = layer_name(layer);
            let named = file_name(file, word, place.name_at, place.name_len);
            let name = show_name(alloc, named)?;
            let line = place.line;
            let text = format!(in alloc; "refused: {layer} {number} at {name}:{line}\n")?;
            Ok(text)
        }
    }
}

/// The line on an entry that the file has no function of.
pub fn write_unknown(alloc: Global, entry: &str) -> Result<String, AllocError>
    ensures { IfOk result (λ text. string_bytes text ≡ ended (spec.unknown_line entry.now)) }
{
    let text = format!(in alloc; "unknown entry: {entry}\n")?;
    Ok(text)
}

#[cfg(test)]
mod tests {
    use super::*;
    use c_lex::TokenKind;
    use std::test::Fail;

    fn token_at(line: u32) -> Token {
        Token {
            kind: TokenKind::Name,
            at: 0,
            len: 1,
            place: Place {
                name_at: 0,
                name_len: 0,
                line,
            },
        }
    }

    #[test]
    fn refusals_are_printed(rt: HostRuntime) -> Result<(), Fail> {
        let alloc = rt.alloc();
        let found = [token_at(4), token_at(6)];
        let syntax = |at: u32| Refusal::Stopped(Layer::Syntax, 2, place_of(&found, at));
        let cases: [(Refusal, &str); 6] = [
            (Refusal::TooLong, "refused: source 1\n"),
            (Refusal::NotOfForm, "refused: form 1\n"),
            (syntax(0), "refused: syntax 2 at r.c:4\n"),
            (syntax(1), "refused: syntax 2 at r.c:6\n"),
            (syntax(2), "refused: syntax 2 at r.c:6\n"),
            (
                Refusal::Stopped(Layer::Syntax, 1, place_of(&[], 0)),
                "refused: syntax 1 at r.c:1\n",
            ),
        ];
        for (refusal, want) in cases {
            let text = write_refusal(alloc, b"f", "r.c", refusal)?;
            assert!(rt; text.as_str() == want, "want {want}");
        }
        let text = write_unknown(alloc, "f")?;
        assert!(rt; text.as_str() == "unknown entry: f\n");
        Ok(())
    }
}
