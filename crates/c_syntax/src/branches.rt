//! Selection and iteration statements (C11 6.8.4, 6.8.5).

ghost use Rattle.std.specs.Prelude.{◌≡◌, ◌≢◌, ◌≤◌, length};
ghost use Rattle.c_syntax.specs.Statements as spec;
ghost use Rattle.c_input.specs.Input as input;
ghost use Rattle.c_input.specs.Parser as parser;
ghost use Rattle.c_input.specs.Signs as signs;
ghost use Rattle.c_input.specs.Words.{words_of};
ghost use Rattle.c_input.specs.Gives.{Gives};
ghost use Rattle.c_syntax.specs.Below.{Holds};

use crate::built::Built;
use crate::statements::{Statements, built};
use c_input::{
    Place, Sign, SyntaxStop, Word, expect, is_close_paren, is_semicolon, sign, skip, specifies,
};
use c_tree::{Ex, ForStart, StmtForm};
use sqlite_items::Boxed;
use std::alloc::Global;

/// What stands in the brackets of a `for` statement (C11 6.8.5).
#[derive(Drop)]
pub struct ForHead {
    pub start: ForStart,
    pub test: Option<Ex>,
    pub last: Option<Ex>,
}

impl<F: Fn(Global, &[Word], &mut Place, u32, Option<u32>) -> Result<Built, SyntaxStop>> Statements<
    F,
> {
    #[tactic(auto, unfolding(crate::specs::Statements::condition))]
    fn condition(&self, words: &[Word], place: &mut Place) -> Result<Ex, SyntaxStop>
        requires below { Holds self.now.room (F.pre self.now.statement) (F.post self.now.statement) }
        requires short { length words.now ≤ 1048576 }
        ensures gives { Gives (spec.condition (spec.parts_within self.now.room) (words_of words.now) place.old) result place.new }
    {
        expect(words, place, Sign::OpenParen)?;
        let e = self.expr(words, place, 1)?;
        expect(words, place, Sign::CloseParen)?;
        Ok(e.tree)
    }

    /// An expression that may be left out before the word that ends it.
    fn optional(
        &self,
        words: &[Word],
        place: &mut Place,
        ends: bool,
    ) -> Result<Option<Ex>, SyntaxStop>
        requires below { Holds self.now.room (F.pre self.now.statement) (F.post self.now.statement) }
        requires short { length words.now ≤ 1048576 }
        ensures gives { Gives (spec.optional (spec.parts_within self.now.room) ends (words_of words.now) place.old) result place.new }
    {
        if ends {
            return Ok(None);
        }
        let e = self.expr(words, place, 1)?;
        Ok(Some(e.tree))
    }

    #[tactic(auto, unfolding(crate::specs::Statements::optional_before))]
    pub fn optional_before_semicolon(
        &self,
        words: &[Word],
        place: &mut Place,
    ) -> Result<Option<Ex>, SyntaxStop>
        requires below { Holds self.now.room (F.pre self.now.statement) (F.post self.now.statement) }
        requires short { length words.now ≤ 1048576 }
        ensures gives { Gives (spec.optional_before (spec.parts_within self.now.room) signs.is_semicolon (words_of words.now) place.old) result place.new }
    {
        let ends = is_semicolon(sign(words, place));
        let e = self.optional(words, place, ends)?;
        expect(words, place, Sign::Semicolon)?;
        Ok(e)
    }

    #[tactic(auto, unfolding(crate::specs::Statements::optional_before))]
    fn optional_before_paren(
        &self,
        words: &[Word],
        place: &mut Place,
    ) -> Result<Option<Ex>, SyntaxStop>
        requires below { Holds self.now.room (F.pre self.now.statement) (F.post self.now.statement) }
        requires short { length words.now ≤ 1048576 }
        ensures gives { Gives (spec.optional_before (spec.parts_within self.now.room) signs.is_close_paren (words_of words.now) place.old) result place.new }
    {
        let ends = is_close_paren(sign(words, place));
        let e = self.optional(words, place, ends)?;
        expect(words, place, Sign::CloseParen)?;
        Ok(e)
    }

    /// Behind the first substatement of an `if`. An `else` belongs to the nearest `if` that may have one (C11 6.8.4.1).
    fn behind_then(
        &self,
        words: &[Word],
        place: &mut Place,
        at: u32,
        e: Ex,
        a: Built,
    ) -> Result<Built, SyntaxStop>
        requires below { Holds self.now.room (F.pre self.now.statement) (F.post self.now.statement) }
        requires short { length words.now ≤ 1048576 }
        ensures gives { Gives (parser.look (spec.else_by (spec.parts_within self.now.room) at e a) (words_of words.now) place.old) result place.new }
    {
        match sign(words, place) {
            Sign::Else => self.behind_else(words, place, at, e, a),
            _ => {
                let first = Boxed::new(self.alloc, a.tree)?;
                Ok(built(at, StmtForm::If(e, first, None), true))
            }
        }
    }

    /// At an `else`.
    fn behind_else(
        &self,
        words: &[Word],
        place: &mut Place,
        at: u32,
        e: Ex,
        a: Built,
    ) -> Result<Built, SyntaxStop>
        requires below { Holds self.now.room (F.pre self.now.statement) (F.post self.now.statement) }
        requires short { length words.now ≤ 1048576 }
        requires seen { input.look_at (words_of words.now) place.old ≢ Sign.Eof }
        ensures gives { Gives (spec.else_by (spec.parts_within self.now.room) at e a Sign.Else (words_of words.now) place.old) result place.new }
    {
        let first = Boxed::new(self.alloc, a.tree)?;
        if a.waits {
            return Ok(built(at, StmtForm::If(e, first, None), true));
        }
        skip(words, place);
        let b = self.inner(words, place)?;
        let second = Boxed::new(self.alloc, b.tree)?;
        Ok(built(at, StmtForm::If(e, first, Some(second)), b.waits))
    }

    #[tactic(auto, unfolding(crate::specs::Statements::if_statement))]
    pub fn if_statement(
        &self,
        words: &[Word],
        place: &mut Place,
        at: u32,
    ) -> Result<Built, SyntaxStop>
        requires below { Holds self.now.room (F.pre self.now.statement) (F.post self.now.statement) }
        requires short { length words.now ≤ 1048576 }
        requires seen { input.look_at (words_of words.now) place.old ≢ Sign.Eof }
        ensures gives { Gives (spec.if_statement (spec.parts_within self.now.room) at (words_of words.now) place.old) result place.new }
    {
        skip(words, place);
        let e = self.condition(words, place)?;
        let a = self.inner(words, place)?;
        self.behind_then(words, place, at, e, a)
    }

    #[tactic(auto, unfolding(crate::specs::Statements::switch_statement))]
    pub fn switch_statement(
        &self,
        words: &[Word],
        place: &mut Place,
        at: u32,
    ) -> Result<Built, SyntaxStop>
        requires below { Holds self.now.room (F.pre self.now.statement) (F.post self.now.statement) }
        requires short { length words.now ≤ 1048576 }
        requires seen { input.look_at (words_of words.now) place.old ≢ Sign.Eof }
        ensures gives { Gives (spec.switch_statement (spec.parts_within self.now.room) at (words_of words.now) place.old) result place.new }
    {
        skip(words, place);
        let e = self.condition(words, place)?;
        let a = self.inner(words, place)?;
        let body = Boxed::new(self.alloc, a.tree)?;
        Ok(built(at, StmtForm::Switch(e, body), a.waits))
    }

    #[tactic(auto, unfolding(crate::specs::Statements::while_statement))]
    pub fn while_statement(
        &self,
        words: &[Word],
        place: &mut Place,
        at: u32,
    ) -> Result<Built, SyntaxStop>
        requires below { Holds self.now.room (F.pre self.now.statement) (F.post self.now.statement) }
        requires short { length words.now ≤ 1048576 }
        requires seen { input.look_at (words_of words.now) place.old ≢ Sign.Eof }
        ensures gives { Gives (spec.while_statement (spec.parts_within self.now.room) at (words_of words.now) place.old) result place.new }
    {
        skip(words, place);
        let e = self.condition(words, place)?;
        let a = self.inner(words, place)?;
        let body = Boxed::new(self.alloc, a.tree)?;
        Ok(built(at, StmtForm::While(e, body), a.waits))
    }

    #[tactic(auto, unfolding(crate::specs::Statements::do_statement))]
    pub fn do_statement(
        &self,
        words: &[Word],
        place: &mut Place,
        at: u32,
    ) -> Result<Built, SyntaxStop>
        requires below { Holds self.now.room (F.pre self.now.statement) (F.post self.now.statement) }
        requires short { length words.now ≤ 1048576 }
        requires seen { input.look_at (words_of words.now) place.old ≢ Sign.Eof }
        ensures gives { Gives (spec.do_statement (spec.parts_within self.now.room) at (words_of words.now) place.old) result place.new }
    {
        skip(words, place);
        let a = self.inner(words, place)?;
        expect(words, place, Sign::While)?;
        let e = self.condition(words, place)?;
        expect(words, place, Sign::Semicolon)?;
        let body = Boxed::new(self.alloc, a.tree)?;
        Ok(built(at, StmtForm::Do(body, e), false))
    }

    #[tactic(auto, unfolding(crate::specs::Statements::value_start))]
    fn value_start(&self, words: &[Word], place: &mut Place) -> Result<ForStart, SyntaxStop>
        requires below { Holds self.now.room (F.pre self.now.statement) (F.post self.now.statement) }
        requires short { length words.now ≤ 1048576 }
        ensures gives { Gives (spec.value_start (spec.parts_within self.now.room) (words_of words.now) place.old) result place.new }
    {
        let e = self.expr(words, place, 1)?;
        expect(words, place, Sign::Semicolon)?;
        Ok(ForStart::Value(e.tree))
    }

    fn for_start(&self, words: &[Word], place: &mut Place) -> Result<ForStart, SyntaxStop>
        requires below { Holds self.now.room (F.pre self.now.statement) (F.post self.now.statement) }
        requires short { length words.now ≤ 1048576 }
        ensures gives { Gives (parser.look (spec.start_by (spec.parts_within self.now.room)) (words_of words.now) place.old) result place.new }
    {
        let found = sign(words, place);
        if is_semicolon(found) {
            skip(words, place);
            return Ok(ForStart::Nothing);
        }
        if specifies(false, found) {
            let declaration = self.declaration(words, place)?;
            return Ok(ForStart::Declaration(declaration));
        }
        self.value_start(words, place)
    }

    #[tactic(auto, unfolding(crate::specs::Statements::for_head))]
    fn for_head(&self, words: &[Word], place: &mut Place) -> Result<ForHead, SyntaxStop>
        requires below { Holds self.now.room (F.pre self.now.statement) (F.post self.now.statement) }
        requires short { length words.now ≤ 1048576 }
        ensures gives { Gives (spec.for_head (spec.parts_within self.now.room) (words_of words.now) place.old) result place.new }
    {
        expect(words, place, Sign::OpenParen)?;
        let start = self.for_start(words, place)?;
        let test = self.optional_before_semicolon(words, place)?;
        let last = self.optional_before_paren(words, place)?;
        Ok(ForHead { start, test, last })
    }

    #[tactic(auto, unfolding(crate::specs::Statements::for_statement))]
    pub fn for_statement(
        &self,
        words: &[Word],
        place: &mut Place,
        at: u32,
    ) -> Result<Built, SyntaxStop>
        requires below { Holds self.now.room (F.pre self.now.statement) (F.post self.now.statement) }
        requires short { length words.now ≤ 1048576 }
        requires seen { input.look_at (words_of words.now) place.old ≢ Sign.Eof }
        ensures gives { Gives (spec.for_statement (spec.parts_within self.now.room) at (words_of words.now) place.old) result place.new }
    {
        skip(words, place);
        let head = self.for_head(words, place)?;
        let a = self.inner(words, place)?;
        let body = Boxed::new(self.alloc, a.tree)?;
        let form = StmtForm::For(head.start, head.test, head.last, body);
        Ok(built(at, form, a.waits))
    }
}
