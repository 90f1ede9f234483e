//! Expressions that operators join, and how far an expression goes (C11 6.5.5 to 6.5.17).

ghost use Rattle.std.specs.Prelude.{◌≡◌, ◌≢◌, ◌≤◌, suc, max, length, IfOk, IfErr, Ok};
ghost use Rattle.c_expressions.specs.Expressions as spec;
ghost use Rattle.c_input.specs.Input as input;
ghost use Rattle.c_expressions.specs.Levels.{nest};
ghost use Rattle.c_input.specs.Words.{words_of};
ghost use Rattle.c_input.specs.Gives.{Gives, Within};
ghost use Rattle.c_expressions.specs.Nests.{Nests};

use crate::grown::Grown;
use crate::nest::{Grammar, Node, Wanted};
use crate::operands::{leaf, over};
use c_input::{
    Place, Sign, SyntaxStop, Word, binds, expect, left_out, refuse, sign, skip, too_deep, wants,
};
use c_tree::ExForm;
use sqlite_items::Boxed;
use std::alloc::Global;

/// Whether the word goes on with what was read.
fn goes_on(least: u8, level: u8, sign: Sign) -> bool
    ensures { result ≡ spec.goes_on_at least level sign }
{
    let binds = binds(sign);
    1 <= binds && least <= binds && wants(sign) <= level
}

impl<F: Fn(Global, &[Word], &mut Place, u32, Wanted) -> Result<Node, SyntaxStop>> Grammar<F> {
    /// Binary operators group to the left (C11 6.5.5 to 6.5.14).
    #[tactic(auto, unfolding(crate::specs::Expressions::joined))]
    fn joined(
        &self,
        words: &[Word],
        place: &mut Place,
        at: u32,
        a: Grown,
        level: u8,
    ) -> Result<Grown, SyntaxStop>
        requires nests { Nests self.now.room (F.pre self.now.node) (F.post self.now.node) }
        requires short { length words.now ≤ 1048576 }
        requires seen { input.look_at (words_of words.now) place.old ≢ Sign.Eof }
        requires fits { a.height ≤ self.now.room }
        requires low { level ≤ 13 }
        ensures gives { Gives (spec.joined (nest self.now.room) at a level (words_of words.now) place.old) result place.new }
        ensures within { Within (λ e. e.height) (suc self.now.room) result }
    {
        let op = place.at;
        skip(words, place);
        let b = self.expr(words, place, level + 1)?;
        Ok(over(
            at,
            ExForm::Binary(
                op,
                Boxed::new(self.alloc, a.tree)?,
                Boxed::new(self.alloc, b.tree)?,
            ),
            a.height.max(b.height),
            level,
        ))
    }

    /// Assignments group to the right (C11 6.5.16).
    #[tactic(auto, unfolding(crate::specs::Expressions::assigned))]
    fn assigned(
        &self,
        words: &[Word],
        place: &mut Place,
        at: u32,
        a: Grown,
    ) -> Result<Grown, SyntaxStop>
        requires nests { Nests self.now.room (F.pre self.now.node) (F.post self.now.node) }
        requires short { length words.now ≤ 1048576 }
        requires seen { input.look_at (words_of words.now) place.old ≢ Sign.Eof }
        requires fits { a.height ≤ self.now.room }
        ensures gives { Gives (spec.assigned (nest self.now.room) at a (words_of words.now) place.old) result place.new }
        ensures within { Within (λ e. e.height) (suc self.now.room) result }
    {
        let op = place.at;
        skip(words, place);
        let b = self.expr(words, place, 2)?;
        Ok(over(
            at,
            ExForm::Assign(
                op,
                Boxed::new(self.alloc, a.tree)?,
                Boxed::new(self.alloc, b.tree)?,
            ),
            a.height.max(b.height),
            2,
        ))
    }

    fn choice(&self, at: u32, a: Grown, b: Grown, c: Grown) -> Result<Grown, SyntaxStop>
        requires small { self.now.room ≤ 200 }
        requires fits { max a.height (max b.height c.height) ≤ self.now.room }
        ensures ok { IfOk result (λ all. all ≡ spec.over at (ExForm.Cond a.tree b.tree c.tree) (max a.height (max b.height c.height)) 3) }
        ensures err { IfErr result (λ stop. stop ≡ SyntaxStop.Memory) }
    {
        Ok(over(
            at,
            ExForm::Cond(
                Boxed::new(self.alloc, a.tree)?,
                Boxed::new(self.alloc, b.tree)?,
                Boxed::new(self.alloc, c.tree)?,
            ),
            a.height.max(b.height.max(c.height)),
            3,
        ))
    }

    /// Behind the second operand of a conditional expression.
    #[tactic(auto, unfolding(crate::specs::Expressions::otherwise))]
    fn otherwise(
        &self,
        words: &[Word],
        place: &mut Place,
        at: u32,
        a: Grown,
        b: Grown,
    ) -> Result<Grown, SyntaxStop>
        requires nests { Nests self.now.room (F.pre self.now.node) (F.post self.now.node) }
        requires short { length words.now ≤ 1048576 }
        requires first_fits { a.height ≤ self.now.room }
        requires second_fits { b.height ≤ self.now.room }
        ensures gives { Gives (spec.otherwise (nest self.now.room) at a b (words_of words.now) place.old) result place.new }
        ensures within { Within (λ e. e.height) (suc self.now.room) result }
    {
        expect(words, place, Sign::Colon)?;
        let c = self.expr(words, place, 3)?;
        self.choice(at, a, b, c)
    }

    /// C11 6.5.15.
    #[tactic(auto, unfolding(crate::specs::Expressions::conditional))]
    fn conditional(
        &self,
        words: &[Word],
        place: &mut Place,
        at: u32,
        a: Grown,
    ) -> Result<Grown, SyntaxStop>
        requires nests { Nests self.now.room (F.pre self.now.node) (F.post self.now.node) }
        requires short { length words.now ≤ 1048576 }
        requires seen { input.look_at (words_of words.now) place.old ≢ Sign.Eof }
        requires fits { a.height ≤ self.now.room }
        ensures gives { Gives (spec.conditional (nest self.now.room) at a (words_of words.now) place.old) result place.new }
        ensures within { Within (λ e. e.height) (suc self.now.room) result }
    {
        skip(words, place);
        let b = self.expr(words, place, 1)?;
        self.otherwise(words, place, at, a, b)
    }

    /// C11 6.5.17.
    #[tactic(auto, unfolding(crate::specs::Expressions::followed))]
    fn followed(
        &self,
        words: &[Word],
        place: &mut Place,
        at: u32,
        a: Grown,
    ) -> Result<Grown, SyntaxStop>
        requires nests { Nests self.now.room (F.pre self.now.node) (F.post self.now.node) }
        requires short { length words.now ≤ 1048576 }
        requires seen { input.look_at (words_of words.now) place.old ≢ Sign.Eof }
        requires fits { a.height ≤ self.now.room }
        ensures gives { Gives (spec.followed (nest self.now.room) at a (words_of words.now) place.old) result place.new }
        ensures within { Within (λ e. e.height) (suc self.now.room) result }
    {
        skip(words, place);
        let b = self.expr(words, place, 2)?;
        Ok(over(
            at,
            ExForm::Comma(
                Boxed::new(self.alloc, a.tree)?,
                Boxed::new(self.alloc, b.tree)?,
            ),
            a.height.max(b.height),
            1,
        ))
    }

    /// One production more around what was read from the place on.
    #[tactic(auto, unfolding(crate::specs::Expressions::longer))]
    fn longer(
        &self,
        words: &[Word],
        place: &mut Place,
        at: u32,
        a: Grown,
        found: Sign,
    ) -> Result<Grown, SyntaxStop>
        requires nests { Nests self.now.room (F.pre self.now.node) (F.post self.now.node) }
        requires short { length words.now ≤ 1048576 }
        requires seen { found ≡ input.look_at (words_of words.now) place.old }
        requires binds { 1 ≤ input.binds found }
        requires fits { a.height ≤ self.now.room }
        ensures gives { Gives (spec.longer (nest self.now.room) at a found (words_of words.now) place.old) result place.new }
        ensures within { Within (λ e. e.height) (suc self.now.room) result }
    {
        match found {
            Sign::OpenBracket => self.indexed(words, place, at, a),
            Sign::OpenParen => self.called(words, place, at, a),
            Sign::Dot | Sign::Arrow => self.member_of(words, place, at, a, found),
            Sign::Increment => {
                skip(words, place);
                let form = ExForm::PostInc(Boxed::new(self.alloc, a.tree)?);
                Ok(over(at, form, a.height, 16))
            }
            Sign::Decrement => {
                skip(words, place);
                let form = ExForm::PostDec(Boxed::new(self.alloc, a.tree)?);
                Ok(over(at, form, a.height, 16))
            }
            Sign::Equal | Sign::AssignOp => self.assigned(words, place, at, a),
            Sign::Question => self.conditional(words, place, at, a),
            Sign::Comma => self.followed(words, place, at, a),
            _ => self.joined(words, place, at, a, binds(found)),
        }
    }

    fn climb(
        &self,
        words: &[Word],
        place: &mut Place,
        at: u32,
        least: u8,
        mut a: Grown,
    ) -> Result<Grown, SyntaxStop>
        requires nests { Nests self.now.room (F.pre self.now.node) (F.post self.now.node) }
        requires short { length words.now ≤ 1048576 }
        requires fits { a.height ≤ suc self.now.room }
        ensures gives { Gives (spec.climb (nest self.now.room) (suc self.now.room) least (suc self.now.room) at a (words_of words.now) place.old) result place.new }
        ensures within { Within (λ e. e.height) (suc self.now.room) result }
    {
        for _turn in 0..self.room + 1 {
            let found = sign(words, place);
            if !goes_on(least, a.level, found) {
                return Ok(a);
            }
            if a.height > self.room {
                return Err(too_deep(words, place));
            }
            a = self.longer(words, place, at, a, found)?;
        }
        if goes_on(least, a.level, sign(words, place)) {
            Err(too_deep(words, place))
        } else {
            Ok(a)
        }
    }

    /// An expression that goes on with operators of the level `least` and above.
    #[tactic(auto, unfolding(crate::specs::Expressions::expression))]
    pub fn expression(
        &self,
        words: &[Word],
        place: &mut Place,
        least: u8,
    ) -> Result<Grown, SyntaxStop>
        requires nests { Nests self.now.room (F.pre self.now.node) (F.post self.now.node) }
        requires short { length words.now ≤ 1048576 }
        ensures gives { Gives (spec.expression (nest self.now.room) (suc self.now.room) least (words_of words.now) place.old) result place.new }
        ensures within { Within (λ e. e.height) (suc self.now.room) result }
    {
        let at = place.at;
        let a = self.first(words, place, least)?;
        self.climb(words, place, at, least, a)
    }

    /// A unary expression behind the bracket at the place.
    #[tactic(auto, unfolding(crate::specs::Expressions::after_open))]
    pub fn after_open(
        &self,
        words: &[Word],
        place: &mut Place,
        at: u32,
    ) -> Result<Grown, SyntaxStop>
        requires nests { Nests self.now.room (F.pre self.now.node) (F.post self.now.node) }
        requires short { length words.now ≤ 1048576 }
        ensures gives { Gives (spec.after_open (nest self.now.room) (suc self.now.room) at (words_of words.now) place.old) result place.new }
        ensures within { Within (λ e. e.height) (suc self.now.room) result }
    {
        let a = self.paren_rest(words, place, at)?;
        self.climb(words, place, at, 15, a)
    }

    /// An expression behind the name at the place.
    #[tactic(auto, unfolding(crate::specs::Expressions::after_name))]
    pub fn after_name(
        &self,
        words: &[Word],
        place: &mut Place,
        at: u32,
    ) -> Result<Grown, SyntaxStop>
        requires nests { Nests self.now.room (F.pre self.now.node) (F.post self.now.node) }
        requires short { length words.now ≤ 1048576 }
        ensures gives { Gives (spec.after_name (nest self.now.room) (suc self.now.room) at (words_of words.now) place.old) result place.new }
        ensures within { Within (λ e. e.height) (suc self.now.room) result }
    {
        self.climb(words, place, at, 1, leaf(at, ExForm::Name))
    }

    /// The length of an array that begins with `*` (C11 6.7.6.2); `[*]` is left out.
    #[tactic(auto, unfolding(crate::specs::Expressions::from_star, c_input::specs::Parser::expect, c_input::specs::Parser::refuse, c_input::specs::Parser::left_out_here))]
    pub fn from_star(
        &self,
        words: &[Word],
        place: &mut Place,
        alone: bool,
    ) -> Result<Grown, SyntaxStop>
        requires nests { Nests self.now.room (F.pre self.now.node) (F.post self.now.node) }
        requires short { length words.now ≤ 1048576 }
        ensures gives { Gives (spec.from_star (nest self.now.room) (suc self.now.room) alone (words_of words.now) place.old) result place.new }
        ensures within { Within (λ e. e.height) (suc self.now.room) result }
    {
        let at = place.at;
        expect(words, place, Sign::Star)?;
        match sign(words, place) {
            Sign::CloseBracket if alone => Err(left_out(place)),
            _ => {
                let e = self.expr(words, place, 14)?;
                let form = ExForm::Unary(Boxed::new(self.alloc, e.tree)?);
                self.climb(words, place, at, 2, over(at, form, e.height, 15))
            }
        }
    }
}
