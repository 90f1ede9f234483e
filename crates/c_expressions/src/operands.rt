//! Primary, postfix, unary and cast expressions (C11 6.5.1 to 6.5.4).

ghost use Rattle.std.specs.Prelude.{◌≡◌, ◌≢◌, ◌≤◌, suc, max, length, IfOk, IfErr, Ok};
ghost use Rattle.c_expressions.specs.Expressions as spec;
ghost use Rattle.c_input.specs.Input as input;
ghost use Rattle.c_input.specs.Parser as parser;
ghost use Rattle.c_expressions.specs.Levels.{nest};
ghost use Rattle.c_input.specs.Signs as signs;
ghost use Rattle.c_input.specs.Words.{words_of};
ghost use Rattle.c_input.specs.Gives.{Gives, Within};
ghost use Rattle.c_expressions.specs.Nests.{Nests};

use crate::grown::Grown;
use crate::nest::{Grammar, Node, Wanted};
use c_input::{
    MOST_WORDS, Measured, Place, Sign, SyntaxStop, Word, any_name, expect, is_comma, left_out,
    qualifies, refuse, sign, skip,
};
use c_tree::{Ex, ExForm, Param};
use sqlite_items::{Boxed, Items};
use std::alloc::Global;

pub fn leaf(at: u32, form: ExForm) -> Grown
    ensures { result ≡ spec.leaf at form }
{
    Grown {
        tree: Ex { at, form },
        height: 1,
        level: 16,
    }
}

/// One production over nodes of this height.
pub fn over(at: u32, form: ExForm, below: u32, level: u8) -> Grown
    requires { below ≤ 200 }
    ensures { result ≡ spec.over at form below level }
{
    Grown {
        tree: Ex { at, form },
        height: below + 1,
        level,
    }
}

fn is_str(sign: Sign) -> bool
    ensures { result ≡ spec.is_str sign }
{
    match sign {
        Sign::Str => true,
        _ => false,
    }
}

/// Takes the string literals that follow, and answers how many there are.
fn strings(words: &[Word], place: &mut Place) -> u32
    requires { length words.now ≤ 1048576 }
    ensures gives { spec.strings (words_of words.now) place.old ≡ Ok (result, place.new) }
    ensures small { result ≤ 1048577 }
{
    let mut count = 0;
    for _turn in place.at..MOST_WORDS {
        if !is_str(sign(words, place)) {
            break;
        }
        skip(words, place);
        count += 1;
    }
    count
}

/// Neighbouring string literals are one (C11 6.4.5p5).
#[tactic(auto, unfolding(crate::specs::Expressions::string))]
fn string(words: &[Word], place: &mut Place, at: u32) -> Grown
    requires short { length words.now ≤ 1048576 }
    requires seen { input.look_at (words_of words.now) place.old ≡ Sign.Str }
    ensures gives { spec.string at (words_of words.now) place.old ≡ Ok (result, place.new) }
    ensures height { result.height ≡ 1 }
{
    skip(words, place);
    let more = strings(words, place);
    leaf(at, ExForm::Str(more + 1))
}

impl<F: Fn(Global, &[Word], &mut Place, u32, Wanted) -> Result<Node, SyntaxStop>> Grammar<F> {
    /// Behind the bracket of a cast (C11 6.5.4).
    #[tactic(auto, unfolding(crate::specs::Expressions::cast_rest))]
    fn cast_rest(&self, words: &[Word], place: &mut Place, at: u32) -> Result<Grown, SyntaxStop>
        requires nests { Nests self.now.room (F.pre self.now.node) (F.post self.now.node) }
        requires short { length words.now ≤ 1048576 }
        ensures gives { Gives (spec.cast_rest (nest self.now.room) at (words_of words.now) place.old) result place.new }
        ensures within { Within (λ e. e.height) (suc self.now.room) result }
    {
        let to = self.closed_type(words, place)?;
        let e = self.expr(words, place, 14)?;
        Ok(over(
            at,
            ExForm::Cast(
                Boxed::new(self.alloc, to.tree)?,
                Boxed::new(self.alloc, e.tree)?,
            ),
            to.height.max(e.height),
            14,
        ))
    }

    /// A type name in brackets, behind the first of them. A compound literal is left out at its brace.
    #[tactic(auto, unfolding(crate::specs::Expressions::closed_type, c_input::specs::Parser::left_out_here))]
    fn closed_type(&self, words: &[Word], place: &mut Place) -> Result<Measured<Param>, SyntaxStop>
        requires nests { Nests self.now.room (F.pre self.now.node) (F.post self.now.node) }
        requires short { length words.now ≤ 1048576 }
        ensures gives { Gives (spec.closed_type (nest self.now.room) (words_of words.now) place.old) result place.new }
        ensures within { Within (λ e. e.height) self.now.room result }
    {
        let name = self.type_name(words, place)?;
        expect(words, place, Sign::CloseParen)?;
        match sign(words, place) {
            Sign::OpenBrace => Err(left_out(place)),
            _ => Ok(name),
        }
    }

    /// Behind the bracket of an expression in brackets (C11 6.5.1). A statement expression is left out at its brace.
    #[tactic(auto, unfolding(crate::specs::Expressions::paren_rest, c_input::specs::Parser::left_out_here))]
    pub fn paren_rest(
        &self,
        words: &[Word],
        place: &mut Place,
        at: u32,
    ) -> Result<Grown, SyntaxStop>
        requires nests { Nests self.now.room (F.pre self.now.node) (F.post self.now.node) }
        requires short { length words.now ≤ 1048576 }
        ensures gives { Gives (spec.paren_rest (nest self.now.room) at (words_of words.now) place.old) result place.new }
        ensures within { Within (λ e. e.height) (suc self.now.room) result }
    {
        if sign(words, place) == Sign::OpenBrace {
            return Err(left_out(place));
        }
        let e = self.expr(words, place, 1)?;
        expect(words, place, Sign::CloseParen)?;
        Ok(over(
            at,
            ExForm::Paren(Boxed::new(self.alloc, e.tree)?),
            e.height,
            16,
        ))
    }

    /// A cast stands where an expression of level 14 or below may.
    #[tactic(auto, unfolding(crate::specs::Expressions::open_rest, c_input::specs::Parser::refuse))]
    fn open_rest(
        &self,
        words: &[Word],
        place: &mut Place,
        least: u8,
        at: u32,
    ) -> Result<Grown, SyntaxStop>
        requires nests { Nests self.now.room (F.pre self.now.node) (F.post self.now.node) }
        requires short { length words.now ≤ 1048576 }
        ensures gives { Gives (spec.open_rest (nest self.now.room) least at (words_of words.now) place.old) result place.new }
        ensures within { Within (λ e. e.height) (suc self.now.room) result }
    {
        if !qualifies(false, sign(words, place)) {
            self.paren_rest(words, place, at)
        } else if least <= 14 {
            self.cast_rest(words, place, at)
        } else {
            Err(refuse(words, place))
        }
    }

    fn size_of_expr(&self, e: Grown, at: u32) -> Result<Grown, SyntaxStop>
        requires nests { self.now.room ≤ 200 }
        requires fits { e.height ≤ self.now.room }
        ensures ok { IfOk result (λ all. all ≡ spec.over at (ExForm.SizeofEx e.tree) e.height 15) }
        ensures err { IfErr result (λ stop. stop ≡ SyntaxStop.Memory) }
    {
        Ok(over(
            at,
            ExForm::SizeofEx(Boxed::new(self.alloc, e.tree)?),
            e.height,
            15,
        ))
    }

    /// Behind `sizeof` (C11 6.5.3.4).
    #[tactic(auto, unfolding(crate::specs::Expressions::size_of, crate::specs::Expressions::size_open))]
    fn size_of(&self, words: &[Word], place: &mut Place, at: u32) -> Result<Grown, SyntaxStop>
        requires nests { Nests self.now.room (F.pre self.now.node) (F.post self.now.node) }
        requires short { length words.now ≤ 1048576 }
        ensures gives { Gives (spec.size_of (nest self.now.room) at (words_of words.now) place.old) result place.new }
        ensures within { Within (λ e. e.height) (suc self.now.room) result }
    {
        if sign(words, place) != Sign::OpenParen {
            let e = self.expr(words, place, 15)?;
            return self.size_of_expr(e, at);
        }
        let open_at = place.at;
        skip(words, place);
        if !qualifies(false, sign(words, place)) {
            let e = self.opened(words, place, open_at)?;
            return self.size_of_expr(e, at);
        }
        let name = self.closed_type(words, place)?;
        Ok(over(
            at,
            ExForm::SizeofType(Boxed::new(self.alloc, name.tree)?),
            name.height,
            15,
        ))
    }

    /// A unary operator with its operand (C11 6.5.3).
    #[tactic(auto, unfolding(crate::specs::Expressions::unary))]
    fn unary(
        &self,
        words: &[Word],
        place: &mut Place,
        at: u32,
        least: u8,
    ) -> Result<Grown, SyntaxStop>
        requires nests { Nests self.now.room (F.pre self.now.node) (F.post self.now.node) }
        requires short { length words.now ≤ 1048576 }
        requires seen { input.look_at (words_of words.now) place.old ≢ Sign.Eof }
        ensures gives { Gives (spec.unary (nest self.now.room) at least (words_of words.now) place.old) result place.new }
        ensures within { Within (λ e. e.height) (suc self.now.room) result }
    {
        skip(words, place);
        let e = self.expr(words, place, least)?;
        Ok(over(
            at,
            ExForm::Unary(Boxed::new(self.alloc, e.tree)?),
            e.height,
            15,
        ))
    }

    /// The first production of an expression of this level.
    #[tactic(auto, unfolding(crate::specs::Expressions::first, c_input::specs::Parser::refuse))]
    pub fn first(&self, words: &[Word], place: &mut Place, least: u8) -> Result<Grown, SyntaxStop>
        requires nests { Nests self.now.room (F.pre self.now.node) (F.post self.now.node) }
        requires short { length words.now ≤ 1048576 }
        ensures gives { Gives (spec.first (nest self.now.room) least (words_of words.now) place.old) result place.new }
        ensures within { Within (λ e. e.height) (suc self.now.room) result }
    {
        let at = place.at;
        let form = match sign(words, place) {
            Sign::Name => ExForm::Name,
            Sign::Int => ExForm::Int,
            Sign::Float => ExForm::Float,
            Sign::Char => ExForm::Char,
            Sign::Str => return Ok(string(words, place, at)),
            Sign::OpenParen => {
                skip(words, place);
                return self.open_rest(words, place, least, at);
            }
            Sign::Increment | Sign::Decrement => return self.unary(words, place, at, 15),
            Sign::Amp | Sign::Star | Sign::Additive | Sign::Complement => {
                return self.unary(words, place, at, 14);
            }
            Sign::Sizeof => {
                skip(words, place);
                return self.size_of(words, place, at);
            }
            _ => return Err(refuse(words, place)),
        };
        skip(words, place);
        Ok(leaf(at, form))
    }

    #[tactic(auto, unfolding(crate::specs::Expressions::indexed))]
    pub fn indexed(
        &self,
        words: &[Word],
        place: &mut Place,
        at: u32,
        a: Grown,
    ) -> Result<Grown, SyntaxStop>
        requires nests { Nests self.now.room (F.pre self.now.node) (F.post self.now.node) }
        requires short { length words.now ≤ 1048576 }
        requires seen { input.look_at (words_of words.now) place.old ≢ Sign.Eof }
        requires fits { a.height ≤ self.now.room }
        ensures gives { Gives (spec.indexed (nest self.now.room) at a (words_of words.now) place.old) result place.new }
        ensures within { Within (λ e. e.height) (suc self.now.room) result }
    {
        skip(words, place);
        let e = self.expr(words, place, 1)?;
        expect(words, place, Sign::CloseBracket)?;
        Ok(over(
            at,
            ExForm::Index(
                Boxed::new(self.alloc, a.tree)?,
                Boxed::new(self.alloc, e.tree)?,
            ),
            a.height.max(e.height),
            16,
        ))
    }

    #[tactic(auto, unfolding(crate::specs::Expressions::argument))]
    fn argument(&self, words: &[Word], place: &mut Place) -> Result<Measured<Ex>, SyntaxStop>
        requires nests { Nests self.now.room (F.pre self.now.node) (F.post self.now.node) }
        requires short { length words.now ≤ 1048576 }
        ensures gives { Gives (spec.argument (nest self.now.room) (words_of words.now) place.old) result place.new }
        ensures within { Within (λ e. e.height) self.now.room result }
    {
        let e = self.expr(words, place, 2)?;
        Ok(Measured {
            tree: e.tree,
            height: e.height,
        })
    }

    fn argument_list(
        &self,
        words: &[Word],
        place: &mut Place,
    ) -> Result<Measured<Items<Ex>>, SyntaxStop>
        requires nests { Nests self.now.room (F.pre self.now.node) (F.post self.now.node) }
        requires short { length words.now ≤ 1048576 }
        ensures gives { Gives (parser.gathered (parser.separated signs.is_comma (spec.argument (nest self.now.room))) (words_of words.now) place.old) result place.new }
        ensures within { Within (λ e. e.height) self.now.room result }
    {
        let mut all = Items::new(self.alloc);
        let argument = self.argument(words, place)?;
        let mut height = argument.height;
        all.push(argument.tree)?;
        for _turn in place.at..MOST_WORDS {
            if !is_comma(sign(words, place)) {
                break;
            }
            skip(words, place);
            let argument = self.argument(words, place)?;
            height = argument.height.max(height);
            all.push(argument.tree)?;
        }
        Ok(Measured { tree: all, height })
    }

    #[tactic(auto, unfolding(crate::specs::Expressions::arguments))]
    fn arguments(
        &self,
        words: &[Word],
        place: &mut Place,
    ) -> Result<Measured<Items<Ex>>, SyntaxStop>
        requires nests { Nests self.now.room (F.pre self.now.node) (F.post self.now.node) }
        requires short { length words.now ≤ 1048576 }
        ensures gives { Gives (spec.arguments (nest self.now.room) (words_of words.now) place.old) result place.new }
        ensures within { Within (λ e. e.height) self.now.room result }
    {
        match sign(words, place) {
            Sign::CloseParen => Ok(Measured {
                tree: Items::new(self.alloc),
                height: 0,
            }),
            _ => self.argument_list(words, place),
        }
    }

    #[tactic(auto, unfolding(crate::specs::Expressions::called))]
    pub fn called(
        &self,
        words: &[Word],
        place: &mut Place,
        at: u32,
        a: Grown,
    ) -> Result<Grown, SyntaxStop>
        requires nests { Nests self.now.room (F.pre self.now.node) (F.post self.now.node) }
        requires short { length words.now ≤ 1048576 }
        requires seen { input.look_at (words_of words.now) place.old ≢ Sign.Eof }
        requires fits { a.height ≤ self.now.room }
        ensures gives { Gives (spec.called (nest self.now.room) at a (words_of words.now) place.old) result place.new }
        ensures within { Within (λ e. e.height) (suc self.now.room) result }
    {
        skip(words, place);
        let arguments = self.arguments(words, place)?;
        expect(words, place, Sign::CloseParen)?;
        Ok(over(
            at,
            ExForm::Call(Boxed::new(self.alloc, a.tree)?, arguments.tree),
            a.height.max(arguments.height),
            16,
        ))
    }

    /// `.` or `->` with a member's name.
    #[tactic(auto, unfolding(crate::specs::Expressions::member_of))]
    pub fn member_of(
        &self,
        words: &[Word],
        place: &mut Place,
        at: u32,
        a: Grown,
        found: Sign,
    ) -> Result<Grown, SyntaxStop>
        requires nests { Nests self.now.room (F.pre self.now.node) (F.post self.now.node) }
        requires short { length words.now ≤ 1048576 }
        requires seen { input.look_at (words_of words.now) place.old ≢ Sign.Eof }
        requires fits { a.height ≤ self.now.room }
        ensures gives { Gives (spec.member_of (nest self.now.room) at a found (words_of words.now) place.old) result place.new }
        ensures within { Within (λ e. e.height) (suc self.now.room) result }
    {
        skip(words, place);
        let name = any_name(words, place)?;
        let inner = Boxed::new(self.alloc, a.tree)?;
        let form = match found {
            Sign::Dot => ExForm::Member(inner, name.1),
            _ => ExForm::Arrow(inner, name.1),
        };
        Ok(over(at, form, a.height, 16))
    }
}
