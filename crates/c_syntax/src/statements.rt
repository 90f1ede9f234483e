//! Statements and blocks (C11 6.8).

ghost use Rattle.std.specs.Prelude.{◌≡◌, ◌≢◌, ◌≤◌, length, Err};
ghost use Rattle.std.specs.Bool.{OnTrue};
ghost use Rattle.c_syntax.specs.Statements as spec;
ghost use Rattle.c_syntax.specs.Declarations.{declaration};
ghost use Rattle.c_input.specs.Input as input;
ghost use Rattle.c_input.specs.Parser as parser;
ghost use Rattle.c_input.specs.Signs as signs;
ghost use Rattle.c_input.specs.Words.{words_of};
ghost use Rattle.c_input.specs.Gives.{Gives, Refuses};
ghost use Rattle.c_syntax.specs.Below.{Holds, Finds};

use crate::built::Built;
use crate::declarations::Declarations;
use c_expressions::{Grown, expr, named};
use c_input::{
    MOST_WORDS, Place, Sign, SyntaxStop, Word, any_name, begins_expression, expect, left_out,
    no_room, refuse, sign, skip, specifies, too_deep,
};
use c_tree::{BlockItem, Declaration, Stmt, StmtForm};
use sqlite_items::{Boxed, Items};
use std::alloc::Global;

pub fn built(at: u32, form: StmtForm, waits: bool) -> Built
    ensures { result ≡ spec.built at form waits }
{
    Built {
        tree: Stmt { at, form },
        waits,
    }
}

fn is_type_name(sign: Sign) -> bool
    ensures { result ≡ spec.is_type_name sign }
{
    match sign {
        Sign::TypeName => true,
        _ => false,
    }
}

/// Whether a statement that begins with the word has a scope of its own.
fn has_scope(sign: Sign) -> bool
    ensures value { result ≡ spec.has_scope sign }
    ensures some { OnTrue result (sign ≢ Sign.Eof) }
{
    match sign {
        Sign::OpenBrace | Sign::If | Sign::Switch | Sign::While | Sign::Do | Sign::For => true,
        _ => false,
    }
}

fn is_jump(sign: Sign) -> bool
    ensures value { result ≡ spec.is_jump sign }
    ensures some { OnTrue result (sign ≢ Sign.Eof) }
{
    match sign {
        Sign::Goto | Sign::Continue | Sign::Break | Sign::Return => true,
        _ => false,
    }
}

/// Whether a block goes on.
fn is_no_close_brace(sign: Sign) -> bool
    ensures { result ≡ signs.is_no_close_brace sign }
{
    match sign {
        Sign::CloseBrace => false,
        _ => true,
    }
}

/// The rules of statements, over the parser of those one level of room below. That one takes a label's place where its
/// name was read and the colon comes.
#[derive(Clone, Copy)]
pub struct Statements<F> {
    pub alloc: Global,
    /// How deep nodes may still nest.
    pub room: u32,
    pub statement: F,
}

impl<F: Fn(Global, &[Word], &mut Place, u32, Option<u32>) -> Result<Built, SyntaxStop>> Statements<
    F,
> {
    pub fn sub(&self, words: &[Word], place: &mut Place) -> Result<Built, SyntaxStop>
        requires below { Holds self.now.room (F.pre self.now.statement) (F.post self.now.statement) }
        requires short { length words.now ≤ 1048576 }
        ensures gives { Gives ((spec.parts_within self.now.room).statement (words_of words.now) place.old) result place.new }
    {
        (self.statement)(self.alloc, words, place, self.room, None)
    }

    /// A labelled statement at its colon, one level of room below.
    fn labelled(&self, words: &[Word], place: &mut Place, at: u32) -> Result<Built, SyntaxStop>
        requires below { Holds self.now.room (F.pre self.now.statement) (F.post self.now.statement) }
        requires short { length words.now ≤ 1048576 }
        ensures gives { Gives ((spec.parts_within self.now.room).labelled at (words_of words.now) place.old) result place.new }
    {
        (self.statement)(self.alloc, words, place, self.room, Some(at))
    }

    /// A substatement, which is a block (C11 6.8.4p3, 6.8.5p5).
    #[tactic(auto, unfolding(c_input::specs::Parser::scoped))]
    pub fn inner(&self, words: &[Word], place: &mut Place) -> Result<Built, SyntaxStop>
        requires below { Holds self.now.room (F.pre self.now.statement) (F.post self.now.statement) }
        requires short { length words.now ≤ 1048576 }
        ensures gives { Gives (spec.inner (spec.parts_within self.now.room) (words_of words.now) place.old) result place.new }
    {
        let outer = place.names.len();
        let built = self.sub(words, place)?;
        place.names.leave(outer);
        Ok(built)
    }

    pub fn expr(&self, words: &[Word], place: &mut Place, least: u8) -> Result<Grown, SyntaxStop>
        requires below { Holds self.now.room (F.pre self.now.statement) (F.post self.now.statement) }
        requires short { length words.now ≤ 1048576 }
        ensures gives { Gives ((spec.parts_within self.now.room).inits.exprs.expr least (words_of words.now) place.old) result place.new }
    {
        expr(self.alloc, words, place, self.room, least)
    }

    pub fn declaration(&self, words: &[Word], place: &mut Place) -> Result<Declaration, SyntaxStop>
        requires below { Holds self.now.room (F.pre self.now.statement) (F.post self.now.statement) }
        requires short { length words.now ≤ 1048576 }
        ensures gives { Gives (declaration (spec.parts_within self.now.room).inits (words_of words.now) place.old) result place.new }
    {
        let declarations = Declarations {
            alloc: self.alloc,
            room: self.room,
        };
        declarations.declaration(words, place)
    }

    #[tactic(auto, unfolding(crate::specs::Statements::goto_statement))]
    fn goto_statement(
        &self,
        words: &[Word],
        place: &mut Place,
        at: u32,
    ) -> Result<Built, SyntaxStop>
        requires below { Holds self.now.room (F.pre self.now.statement) (F.post self.now.statement) }
        requires short { length words.now ≤ 1048576 }
        requires seen { input.look_at (words_of words.now) place.old ≢ Sign.Eof }
        ensures gives { Gives (spec.goto_statement (spec.parts_within self.now.room) at (words_of words.now) place.old) result place.new }
    {
        skip(words, place);
        let (_, name) = any_name(words, place)?;
        expect(words, place, Sign::Semicolon)?;
        Ok(built(at, StmtForm::Goto(name), false))
    }

    #[tactic(auto, unfolding(crate::specs::Statements::return_statement))]
    fn return_statement(
        &self,
        words: &[Word],
        place: &mut Place,
        at: u32,
    ) -> Result<Built, SyntaxStop>
        requires below { Holds self.now.room (F.pre self.now.statement) (F.post self.now.statement) }
        requires short { length words.now ≤ 1048576 }
        requires seen { input.look_at (words_of words.now) place.old ≢ Sign.Eof }
        ensures gives { Gives (spec.return_statement (spec.parts_within self.now.room) at (words_of words.now) place.old) result place.new }
    {
        skip(words, place);
        let e = self.optional_before_semicolon(words, place)?;
        Ok(built(at, StmtForm::Return(e), false))
    }

    #[tactic(auto, unfolding(crate::specs::Statements::plain_jump))]
    fn continue_statement(
        &self,
        words: &[Word],
        place: &mut Place,
        at: u32,
    ) -> Result<Built, SyntaxStop>
        requires below { Holds self.now.room (F.pre self.now.statement) (F.post self.now.statement) }
        requires short { length words.now ≤ 1048576 }
        requires seen { input.look_at (words_of words.now) place.old ≢ Sign.Eof }
        ensures gives { Gives (spec.plain_jump (spec.parts_within self.now.room) at StmtForm.Continue (words_of words.now) place.old) result place.new }
    {
        skip(words, place);
        expect(words, place, Sign::Semicolon)?;
        Ok(built(at, StmtForm::Continue, false))
    }

    #[tactic(auto, unfolding(crate::specs::Statements::plain_jump))]
    fn break_statement(
        &self,
        words: &[Word],
        place: &mut Place,
        at: u32,
    ) -> Result<Built, SyntaxStop>
        requires below { Holds self.now.room (F.pre self.now.statement) (F.post self.now.statement) }
        requires short { length words.now ≤ 1048576 }
        requires seen { input.look_at (words_of words.now) place.old ≢ Sign.Eof }
        ensures gives { Gives (spec.plain_jump (spec.parts_within self.now.room) at StmtForm.Break (words_of words.now) place.old) result place.new }
    {
        skip(words, place);
        expect(words, place, Sign::Semicolon)?;
        Ok(built(at, StmtForm::Break, false))
    }

    /// Behind the number of a case. A range is left out at its dots.
    #[tactic(auto, unfolding(c_input::specs::Parser::refuse, c_input::specs::Parser::left_out_here))]
    fn behind_case(
        &self,
        words: &[Word],
        place: &mut Place,
        at: u32,
        e: Grown,
    ) -> Result<Built, SyntaxStop>
        requires below { Holds self.now.room (F.pre self.now.statement) (F.post self.now.statement) }
        requires short { length words.now ≤ 1048576 }
        ensures gives { Gives (parser.look (spec.case_by (spec.parts_within self.now.room) at e) (words_of words.now) place.old) result place.new }
    {
        match sign(words, place) {
            Sign::Ellipsis => Err(left_out(place)),
            Sign::Colon => {
                skip(words, place);
                let a = self.sub(words, place)?;
                let body = Boxed::new(self.alloc, a.tree)?;
                Ok(built(at, StmtForm::Case(e.tree, body), a.waits))
            }
            _ => Err(refuse(words, place)),
        }
    }

    #[tactic(auto, unfolding(crate::specs::Statements::case_statement))]
    fn case_statement(
        &self,
        words: &[Word],
        place: &mut Place,
        at: u32,
    ) -> Result<Built, SyntaxStop>
        requires below { Holds self.now.room (F.pre self.now.statement) (F.post self.now.statement) }
        requires short { length words.now ≤ 1048576 }
        requires seen { input.look_at (words_of words.now) place.old ≢ Sign.Eof }
        ensures gives { Gives (spec.case_statement (spec.parts_within self.now.room) at (words_of words.now) place.old) result place.new }
    {
        skip(words, place);
        let e = self.expr(words, place, 3)?;
        self.behind_case(words, place, at, e)
    }

    #[tactic(auto, unfolding(crate::specs::Statements::default_statement))]
    fn default_statement(
        &self,
        words: &[Word],
        place: &mut Place,
        at: u32,
    ) -> Result<Built, SyntaxStop>
        requires below { Holds self.now.room (F.pre self.now.statement) (F.post self.now.statement) }
        requires short { length words.now ≤ 1048576 }
        requires seen { input.look_at (words_of words.now) place.old ≢ Sign.Eof }
        ensures gives { Gives (spec.default_statement (spec.parts_within self.now.room) at (words_of words.now) place.old) result place.new }
    {
        skip(words, place);
        expect(words, place, Sign::Colon)?;
        let a = self.sub(words, place)?;
        let body = Boxed::new(self.alloc, a.tree)?;
        Ok(built(at, StmtForm::Default(body), a.waits))
    }

    /// A labelled statement at its colon.
    #[tactic(auto, unfolding(crate::specs::Statements::label_rest))]
    fn label_rest(&self, words: &[Word], place: &mut Place, at: u32) -> Result<Built, SyntaxStop>
        requires below { Holds self.now.room (F.pre self.now.statement) (F.post self.now.statement) }
        requires short { length words.now ≤ 1048576 }
        ensures gives { Gives (spec.label_rest (spec.parts_within self.now.room) at (words_of words.now) place.old) result place.new }
    {
        expect(words, place, Sign::Colon)?;
        let a = self.sub(words, place)?;
        let body = Boxed::new(self.alloc, a.tree)?;
        Ok(built(at, StmtForm::Label(body), a.waits))
    }

    /// Behind the expression of an expression statement.
    fn ended(
        &self,
        words: &[Word],
        place: &mut Place,
        at: u32,
        e: Grown,
    ) -> Result<Built, SyntaxStop>
        requires below { Holds self.now.room (F.pre self.now.statement) (F.post self.now.statement) }
        requires short { length words.now ≤ 1048576 }
        ensures gives { Gives (spec.ended (spec.parts_within self.now.room) at e (words_of words.now) place.old) result place.new }
    {
        expect(words, place, Sign::Semicolon)?;
        Ok(built(at, StmtForm::Expr(Some(e.tree)), false))
    }

    #[tactic(auto, unfolding(crate::specs::Statements::expression_statement))]
    fn expression_statement(
        &self,
        words: &[Word],
        place: &mut Place,
        at: u32,
    ) -> Result<Built, SyntaxStop>
        requires below { Holds self.now.room (F.pre self.now.statement) (F.post self.now.statement) }
        requires short { length words.now ≤ 1048576 }
        ensures gives { Gives (spec.expression_statement (spec.parts_within self.now.room) at (words_of words.now) place.old) result place.new }
    {
        let e = self.expr(words, place, 1)?;
        self.ended(words, place, at, e)
    }

    #[tactic(auto, unfolding(crate::specs::Statements::empty_statement))]
    fn empty_statement(
        &self,
        words: &[Word],
        place: &mut Place,
        at: u32,
    ) -> Result<Built, SyntaxStop>
        requires below { Holds self.now.room (F.pre self.now.statement) (F.post self.now.statement) }
        requires short { length words.now ≤ 1048576 }
        requires seen { input.look_at (words_of words.now) place.old ≢ Sign.Eof }
        ensures gives { Gives (spec.empty_statement (spec.parts_within self.now.room) at (words_of words.now) place.old) result place.new }
    {
        skip(words, place);
        Ok(built(at, StmtForm::Expr(None), false))
    }

    fn behind_name(&self, words: &[Word], place: &mut Place, at: u32) -> Result<Built, SyntaxStop>
        requires below { Holds self.now.room (F.pre self.now.statement) (F.post self.now.statement) }
        requires short { length words.now ≤ 1048576 }
        ensures gives { Gives (parser.look (spec.name_by (spec.parts_within self.now.room) at) (words_of words.now) place.old) result place.new }
    {
        match sign(words, place) {
            Sign::Colon => self.label_rest(words, place, at),
            _ => {
                let e = named(self.alloc, words, place, self.room, at)?;
                self.ended(words, place, at, e)
            }
        }
    }

    /// A statement that begins with a name: a label, or an expression.
    #[tactic(auto, unfolding(crate::specs::Statements::name_statement))]
    fn name_statement(
        &self,
        words: &[Word],
        place: &mut Place,
        at: u32,
    ) -> Result<Built, SyntaxStop>
        requires below { Holds self.now.room (F.pre self.now.statement) (F.post self.now.statement) }
        requires short { length words.now ≤ 1048576 }
        requires seen { input.look_at (words_of words.now) place.old ≢ Sign.Eof }
        ensures gives { Gives (spec.name_statement (spec.parts_within self.now.room) at (words_of words.now) place.old) result place.new }
    {
        skip(words, place);
        self.behind_name(words, place, at)
    }

    /// A typedef name as a label.
    #[tactic(auto, unfolding(crate::specs::Statements::type_name_statement))]
    fn type_name_statement(
        &self,
        words: &[Word],
        place: &mut Place,
        at: u32,
    ) -> Result<Built, SyntaxStop>
        requires below { Holds self.now.room (F.pre self.now.statement) (F.post self.now.statement) }
        requires short { length words.now ≤ 1048576 }
        requires seen { input.look_at (words_of words.now) place.old ≢ Sign.Eof }
        ensures gives { Gives (spec.type_name_statement (spec.parts_within self.now.room) at (words_of words.now) place.old) result place.new }
    {
        skip(words, place);
        self.label_rest(words, place, at)
    }

    fn behind_type_name(
        &self,
        words: &[Word],
        place: &mut Place,
        at: u32,
    ) -> Result<BlockItem, SyntaxStop>
        requires below { Holds self.now.room (F.pre self.now.statement) (F.post self.now.statement) }
        requires short { length words.now ≤ 1048576 }
        ensures gives { Gives (parser.look (spec.type_name_by (spec.parts_within self.now.room) at) (words_of words.now) place.old) result place.new }
    {
        match sign(words, place) {
            Sign::Colon => {
                let a = self.labelled(words, place, at)?;
                Ok(BlockItem::Stmt(a.tree))
            }
            _ => {
                let declarations = Declarations {
                    alloc: self.alloc,
                    room: self.room,
                };
                let declaration = declarations.after_name(words, place, at)?;
                Ok(BlockItem::Declaration(declaration))
            }
        }
    }

    /// A typedef name begins a declaration, or is a label.
    #[tactic(auto, unfolding(crate::specs::Statements::type_name_item))]
    fn type_name_item(&self, words: &[Word], place: &mut Place) -> Result<BlockItem, SyntaxStop>
        requires below { Holds self.now.room (F.pre self.now.statement) (F.post self.now.statement) }
        requires short { length words.now ≤ 1048576 }
        requires seen { input.look_at (words_of words.now) place.old ≢ Sign.Eof }
        ensures gives { Gives (spec.type_name_item (spec.parts_within self.now.room) (words_of words.now) place.old) result place.new }
    {
        let at = place.at;
        skip(words, place);
        self.behind_type_name(words, place, at)
    }

    #[tactic(auto, unfolding(crate::specs::Statements::block_item))]
    fn block_item(&self, words: &[Word], place: &mut Place) -> Result<BlockItem, SyntaxStop>
        requires below { Holds self.now.room (F.pre self.now.statement) (F.post self.now.statement) }
        requires short { length words.now ≤ 1048576 }
        ensures gives { Gives (spec.block_item (spec.parts_within self.now.room) (words_of words.now) place.old) result place.new }
    {
        let found = sign(words, place);
        if is_type_name(found) {
            return self.type_name_item(words, place);
        }
        if specifies(false, found) {
            let declaration = self.declaration(words, place)?;
            return Ok(BlockItem::Declaration(declaration));
        }
        let a = self.sub(words, place)?;
        Ok(BlockItem::Stmt(a.tree))
    }

    fn block_items(&self, words: &[Word], place: &mut Place) -> Result<Items<BlockItem>, SyntaxStop>
        requires below { Holds self.now.room (F.pre self.now.statement) (F.post self.now.statement) }
        requires short { length words.now ≤ 1048576 }
        ensures gives { Gives (spec.block_items (spec.parts_within self.now.room) (words_of words.now) place.old) result place.new }
    {
        let mut items = Items::new(self.alloc);
        for _turn in place.at..MOST_WORDS {
            if !is_no_close_brace(sign(words, place)) {
                return Ok(items);
            }
            let item = self.block_item(words, place)?;
            items.push(item)?;
        }
        Ok(items)
    }

    /// A compound statement (C11 6.8.2).
    #[tactic(auto, unfolding(crate::specs::Statements::block))]
    fn block(&self, words: &[Word], place: &mut Place, at: u32) -> Result<Built, SyntaxStop>
        requires below { Holds self.now.room (F.pre self.now.statement) (F.post self.now.statement) }
        requires short { length words.now ≤ 1048576 }
        requires seen { input.look_at (words_of words.now) place.old ≢ Sign.Eof }
        ensures gives { Gives (spec.block (spec.parts_within self.now.room) at (words_of words.now) place.old) result place.new }
    {
        skip(words, place);
        let items = self.block_items(words, place)?;
        expect(words, place, Sign::CloseBrace)?;
        Ok(built(at, StmtForm::Block(items), false))
    }

    fn compound(
        &self,
        words: &[Word],
        place: &mut Place,
        at: u32,
        found: Sign,
    ) -> Result<Built, SyntaxStop>
        requires below { Holds self.now.room (F.pre self.now.statement) (F.post self.now.statement) }
        requires short { length words.now ≤ 1048576 }
        requires found { found ≡ input.look_at (words_of words.now) place.old }
        requires some { found ≢ Sign.Eof }
        ensures gives { Gives (spec.compound_by (spec.parts_within self.now.room) at found (words_of words.now) place.old) result place.new }
    {
        match found {
            Sign::OpenBrace => self.block(words, place, at),
            Sign::If => self.if_statement(words, place, at),
            Sign::Switch => self.switch_statement(words, place, at),
            Sign::While => self.while_statement(words, place, at),
            Sign::Do => self.do_statement(words, place, at),
            _ => self.for_statement(words, place, at),
        }
    }

    /// A statement with a scope of its own.
    #[tactic(auto, unfolding(c_input::specs::Parser::scoped))]
    fn scoped(
        &self,
        words: &[Word],
        place: &mut Place,
        at: u32,
        found: Sign,
    ) -> Result<Built, SyntaxStop>
        requires below { Holds self.now.room (F.pre self.now.statement) (F.post self.now.statement) }
        requires short { length words.now ≤ 1048576 }
        requires found { found ≡ input.look_at (words_of words.now) place.old }
        requires some { found ≢ Sign.Eof }
        ensures gives { Gives (parser.scoped (spec.compound_by (spec.parts_within self.now.room) at found) (words_of words.now) place.old) result place.new }
    {
        let outer = place.names.len();
        let built = self.compound(words, place, at, found)?;
        place.names.leave(outer);
        Ok(built)
    }

    fn jump(
        &self,
        words: &[Word],
        place: &mut Place,
        at: u32,
        found: Sign,
    ) -> Result<Built, SyntaxStop>
        requires below { Holds self.now.room (F.pre self.now.statement) (F.post self.now.statement) }
        requires short { length words.now ≤ 1048576 }
        requires found { found ≡ input.look_at (words_of words.now) place.old }
        requires some { found ≢ Sign.Eof }
        ensures gives { Gives (spec.jump_by (spec.parts_within self.now.room) at found (words_of words.now) place.old) result place.new }
    {
        match found {
            Sign::Goto => self.goto_statement(words, place, at),
            Sign::Continue => self.continue_statement(words, place, at),
            Sign::Break => self.break_statement(words, place, at),
            _ => self.return_statement(words, place, at),
        }
    }

    fn simple(
        &self,
        words: &[Word],
        place: &mut Place,
        at: u32,
        found: Sign,
    ) -> Result<Built, SyntaxStop>
        requires below { Holds self.now.room (F.pre self.now.statement) (F.post self.now.statement) }
        requires short { length words.now ≤ 1048576 }
        requires found { found ≡ input.look_at (words_of words.now) place.old }
        ensures gives { Gives (spec.simple_by (spec.parts_within self.now.room) at found (words_of words.now) place.old) result place.new }
    {
        match found {
            Sign::Name => self.name_statement(words, place, at),
            Sign::TypeName => self.type_name_statement(words, place, at),
            Sign::Semicolon => self.empty_statement(words, place, at),
            Sign::Case => self.case_statement(words, place, at),
            Sign::Default => self.default_statement(words, place, at),
            _ => self.expression_statement(words, place, at),
        }
    }

    fn statement_by(
        &self,
        words: &[Word],
        place: &mut Place,
        at: u32,
        found: Sign,
    ) -> Result<Built, SyntaxStop>
        requires below { Holds self.now.room (F.pre self.now.statement) (F.post self.now.statement) }
        requires short { length words.now ≤ 1048576 }
        requires found { found ≡ input.look_at (words_of words.now) place.old }
        ensures gives { Gives (spec.statement_by (spec.parts_within self.now.room) at found (words_of words.now) place.old) result place.new }
    {
        if has_scope(found) {
            return self.scoped(words, place, at, found);
        }
        if is_jump(found) {
            return self.jump(words, place, at, found);
        }
        self.simple(words, place, at, found)
    }

    #[tactic(auto, unfolding(crate::specs::Statements::statement))]
    fn whole_statement(&self, words: &[Word], place: &mut Place) -> Result<Built, SyntaxStop>
        requires below { Holds self.now.room (F.pre self.now.statement) (F.post self.now.statement) }
        requires short { length words.now ≤ 1048576 }
        ensures gives { Gives (spec.statement (spec.parts_within self.now.room) (words_of words.now) place.old) result place.new }
    {
        let at = place.at;
        let found = sign(words, place);
        self.statement_by(words, place, at, found)
    }
}

fn begins_statement(sign: Sign) -> bool
    ensures { result ≡ spec.begins_statement sign }
{
    match sign {
        Sign::TypeName
        | Sign::Semicolon
        | Sign::OpenBrace
        | Sign::If
        | Sign::Switch
        | Sign::While
        | Sign::Do
        | Sign::For
        | Sign::Goto
        | Sign::Continue
        | Sign::Break
        | Sign::Return
        | Sign::Case
        | Sign::Default => true,
        _ => begins_expression(sign),
    }
}

/// The stop where no statement may begin any more.
#[tactic(auto, unfolding(crate::specs::Statements::nested, c_input::specs::Parser::no_room))]
fn no_statement(words: &[Word], place: &Place) -> SyntaxStop
    ensures { Refuses ((spec.nested 0).statement (words_of words.now) place.now) result }
{
    no_room(words, place, begins_statement(sign(words, place)))
}

/// The same behind a label.
#[tactic(auto, unfolding(crate::specs::Statements::nested, c_input::specs::Parser::too_deep_here))]
fn no_labelled(words: &[Word], place: &Place, at: u32) -> SyntaxStop
    ensures { Refuses ((spec.nested 0).labelled at (words_of words.now) place.now) result }
{
    too_deep(words, place)
}

/// The stop where no statement may begin any more.
pub fn nothing(words: &[Word], place: &Place, label: Option<u32>) -> SyntaxStop
    ensures { Finds 0 label (words_of words.now) place.now (Err result) place.now }
{
    match label {
        Some(at) => no_labelled(words, place, at),
        None => no_statement(words, place),
    }
}

/// Reads a statement that may nest as deep as the room, or one whose label at the place was taken, at its colon.
pub fn statement(
    alloc: Global,
    words: &[Word],
    place: &mut Place,
    room: u32,
    label: Option<u32>,
) -> Result<Built, SyntaxStop>
    requires short { length words.now ≤ 1048576 }
    requires small { room ≤ 200 }
    ensures finds { Finds room label (words_of words.now) place.old result place.new }
{
    if room == 0 {
        return Err(nothing(words, place, label));
    }
    let statements = Statements {
        alloc,
        room: room - 1,
        statement,
    };
    match label {
        Some(at) => statements.label_rest(words, place, at),
        None => statements.whole_statement(words, place),
    }
}
