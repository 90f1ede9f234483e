ghost use Rattle.std.specs.Prelude.{◌≡◌, ℕ, ◌≤◌, ◌<◌, ◌^◌, length, All, OnOk, IfOk, IfErr};
ghost use Rattle.c_lex.specs.Reading.{Lexed};
ghost use Rattle.normal_form.specs.ConstantForm.{IsReturning};
ghost use Rattle.eva_front.specs.FrontEnd.{Defines, HasNoTree, HasTree, IsRefused, syntax_refusal as syntax_refusal_of};
ghost use Rattle.eva_front.specs.declared.front_end.FileStop.TheVariants.{Memory as WantOfMemory, Refused as RefusedFor};
ghost use Rattle.eva_front.specs.declared.refusals.Refusal.{Refusal as Why};

use crate::refusals::{Layer, Refusal, lex_refusal, place_of};
use c_lex::{LONGEST, Token, tokens};
use c_syntax::{SyntaxStop, Unit, parse};
use normal_form::{Returning, definitions};
use sqlite_items::Items;
use std::alloc::{AllocError, Global};

/// A file's tokens and their tree.
#[derive(Drop)]
struct ParsedFile {
    tokens: Vec<Token>,
    tree: Unit,
}

/// Why a file has no definitions.
#[derive(Clone, Copy, Debug, Drop, PartialEq, Eq)]
pub enum FileStop {
    Refused(Refusal),
    Memory,
}

impl From<AllocError> for FileStop {
    ghost from_gives = { λ _ e. e ≡ WantOfMemory };

    fn from(_: AllocError) -> FileStop {
        FileStop::Memory
    }
}

/// What a stop of the grammar is printed as; `None` for want of memory.
fn syntax_refusal(tokens: &[Token], stop: SyntaxStop) -> Option<Refusal>
    ensures { result ≡ syntax_refusal_of tokens.now stop }
{
    match stop {
        SyntaxStop::Syntax { at } => Some(Refusal::Stopped(Layer::Syntax, 1, place_of(tokens, at))),
        SyntaxStop::TooDeep { at } => Some(Refusal::Stopped(
            Layer::Syntax,
            2,
            place_of(tokens, at),
        )),
        SyntaxStop::OutOfProfile { at } => Some(Refusal::Stopped(
            Layer::Syntax,
            3,
            place_of(tokens, at),
        )),
        SyntaxStop::Memory => None,
    }
}

fn stop_of(refusal: Option<Refusal>) -> FileStop
    ensures { (r : Why) → result ≡ RefusedFor r → refusal ≡ Some r }
{
    match refusal {
        Some(refusal) => FileStop::Refused(refusal),
        None => FileStop::Memory,
    }
}

/// The tokens and the tree of a file, or why it has none.
#[tactic(auto, using(crate::proofs::Tokens::no_more_tokens))]
fn read_tree(alloc: Global, file: &[u8]) -> Result<ParsedFile, FileStop>
    ensures tree { IfOk result (λ f. HasTree file.now f.tokens.items f.tree) }
    ensures refused { IfErr result (λ e. (r : Why) → e ≡ RefusedFor r → HasNoTree file.now r) }
{
    if file.len() > LONGEST {
        return Err(FileStop::Refused(Refusal::TooLong));
    }
    let found = match tokens(alloc, file) {
        Ok(found) => found,
        Err(stop) => return Err(stop_of(lex_refusal(stop))),
    };
    match parse(alloc, file, found.as_slice()) {
        Ok(tree) => Ok(ParsedFile {
            tokens: found,
            tree,
        }),
        Err(stop) => Err(stop_of(syntax_refusal(found.as_slice(), stop))),
    }
}

/// The definitions of a file of the form, or why it has none.
pub fn read_definitions(alloc: Global, file: &[u8]) -> Result<Items<Returning>, FileStop>
    ensures defined { IfOk result (λ ds. Defines file.now ds) }
    ensures lawful { IfOk result (λ ds. All IsReturning ds) }
    ensures few { IfOk result (λ ds. length ds < 2 ^ 32) }
    ensures refused { IfErr result (λ e. (r : Why) → e ≡ RefusedFor r → IsRefused file.now r) }
{
    let parsed = read_tree(alloc, file)?;
    match definitions(alloc, file, parsed.tokens.as_slice(), &parsed.tree)? {
        Some(found) => Ok(found),
        None => Err(FileStop::Refused(Refusal::NotOfForm)),
    }
}

#[cfg(test)]
mod tests {
    use super::*;
    use crate::refusals::write_refusal;
    use std::test::Fail;

    /// The line on a file, `r.c` on the command line.
    fn line_on(alloc: Global, file: &[u8]) -> Result<String, AllocError> {
        match read_tree(alloc, file) {
            Ok(_) => String::from_str(alloc, "accepted\n"),
            Err(FileStop::Refused(refusal)) => write_refusal(alloc, file, "r.c", refusal),
            Err(FileStop::Memory) => Err(AllocError),
        }
    }

    #[test]
    fn refusals_have_their_place(rt: HostRuntime) -> Result<(), Fail> {
        let cases: [(&[u8], &str); 11] = [
            (b"", "accepted\n"),
            (b"char *s = \"ab", "refused: lex 2 at r.c:1\n"),
            (b"int\0", "refused: lex 1 at r.c:1\n"),
            (b"\n\n18446744073709551616", "refused: lex 3 at r.c:3\n"),
            (
                b"# 7 \"dir/h.h\"\n\n18446744073709551616",
                "refused: lex 3 at dir/h.h:8\n",
            ),
            (b"# 3 \"\"\n@", "refused: lex 2 at :3\n"),
            (
                b"#line 9 \"\xc3\xa9.c\"\n`",
                "refused: lex 2 at \\xc3\\xa9.c:9\n",
            ),
            (b"int f(void)\n{ return 1 }", "refused: syntax 1 at r.c:2\n"),
            (b"int f(void)\n{\n\n", "refused: syntax 1 at r.c:2\n"),
            (
                b"# 4 \"a.h\"\n_Atomic int x;",
                "refused: syntax 3 at a.h:4\n",
            ),
            (b"int f(void){return 1;}", "accepted\n"),
        ];
        for (file, want) in cases {
            let text = line_on(rt.alloc(), file)?;
            assert!(rt; text.as_str() == want, "want {want}");
        }
        Ok(())
    }

    /// A function that returns 7 in so many brackets.
    fn nested(alloc: Global, brackets: usize) -> Result<Vec<u8>, AllocError> {
        let mut file = Vec::new(alloc);
        file.extend_from_slice(b"int f(void){return ")?;
        file.extend_from_slice(vec![in alloc; b'('; brackets]?.as_slice())?;
        file.extend_from_slice(b"7")?;
        file.extend_from_slice(vec![in alloc; b')'; brackets]?.as_slice())?;
        file.extend_from_slice(b";}")?;
        Ok(file)
    }

    #[test]
    fn brackets_may_nest_so_deep(rt: HostRuntime) -> Result<(), Fail> {
        let alloc = rt.alloc();
        let text = line_on(alloc, nested(alloc, 197)?.as_slice())?;
        assert!(rt; text.as_str() == "accepted\n");
        let text = line_on(alloc, nested(alloc, 198)?.as_slice())?;
        assert!(rt; text.as_str() == "refused: syntax 2 at r.c:1\n");
        Ok(())
    }
}
