//! Initialisers (C11 6.7.9).

ghost use Rattle.std.specs.Prelude.{◌≡◌, ◌≢◌, ◌≤◌, length};
ghost use Rattle.c_syntax.specs.Initialisers as spec;
ghost use Rattle.c_input.specs.Input as input;
ghost use Rattle.c_input.specs.Parser as parser;
ghost use Rattle.c_input.specs.Words.{words_of};
ghost use Rattle.c_input.specs.Gives.{Gives, Refuses};
ghost use Rattle.c_syntax.specs.Below.{Initialises};

use c_expressions::expr;
use c_input::{
    MOST_WORDS, Place, Sign, SyntaxStop, Word, any_name, begins_expression, expect, is_close_brace,
    is_comma, left_out, no_room, refuse, sign, skip,
};
use c_tree::{Designator, Given, Init};
use sqlite_items::Items;
use std::alloc::Global;

/// Behind a designator. A nested one is left out at its second designator.
#[tactic(auto, unfolding(c_input::specs::Parser::refuse, c_input::specs::Parser::left_out_here))]
fn designated(
    words: &[Word],
    place: &mut Place,
    designator: Designator,
) -> Result<Designator, SyntaxStop>
    requires short { length words.now ≤ 1048576 }
    ensures gives { Gives (parser.look (spec.equal_by designator) (words_of words.now) place.old) result place.new }
{
    match sign(words, place) {
        Sign::Equal => {
            skip(words, place);
            Ok(designator)
        }
        Sign::Dot | Sign::OpenBracket => Err(left_out(place)),
        _ => Err(refuse(words, place)),
    }
}

#[tactic(auto, unfolding(crate::specs::Initialisers::member_designator))]
fn member_designator(words: &[Word], place: &mut Place) -> Result<Designator, SyntaxStop>
    requires short { length words.now ≤ 1048576 }
    requires seen { input.look_at (words_of words.now) place.old ≢ Sign.Eof }
    ensures gives { Gives (spec.member_designator (words_of words.now) place.old) result place.new }
{
    let at = place.at;
    skip(words, place);
    let (_, name) = any_name(words, place)?;
    designated(words, place, Designator::Member { at, name })
}

/// The rules of initialisers, over the parser of those one level of room below.
#[derive(Clone, Copy)]
pub struct Initialisers<F> {
    pub alloc: Global,
    /// How deep nodes may still nest.
    pub room: u32,
    pub init: F,
}

impl<F: Fn(Global, &[Word], &mut Place, u32) -> Result<Init, SyntaxStop>> Initialisers<F> {
    #[tactic(auto, unfolding(crate::specs::Initialisers::place_designator))]
    fn place_designator(&self, words: &[Word], place: &mut Place) -> Result<Designator, SyntaxStop>
        requires inits { Initialises self.now.room (F.pre self.now.init) (F.post self.now.init) }
        requires short { length words.now ≤ 1048576 }
        requires seen { input.look_at (words_of words.now) place.old ≢ Sign.Eof }
        ensures gives { Gives (spec.place_designator (spec.inits_within self.now.room) (words_of words.now) place.old) result place.new }
    {
        let at = place.at;
        skip(words, place);
        let index = expr(self.alloc, words, place, self.room, 3)?;
        expect(words, place, Sign::CloseBracket)?;
        let index = index.tree;
        designated(words, place, Designator::Place { at, index })
    }

    fn designation(
        &self,
        words: &[Word],
        place: &mut Place,
    ) -> Result<Option<Designator>, SyntaxStop>
        requires inits { Initialises self.now.room (F.pre self.now.init) (F.post self.now.init) }
        requires short { length words.now ≤ 1048576 }
        ensures gives { Gives (parser.look (spec.designation_by (spec.inits_within self.now.room)) (words_of words.now) place.old) result place.new }
    {
        match sign(words, place) {
            Sign::Dot => Ok(Some(member_designator(words, place)?)),
            Sign::OpenBracket => Ok(Some(self.place_designator(words, place)?)),
            _ => Ok(None),
        }
    }

    #[tactic(auto, unfolding(crate::specs::Initialisers::part))]
    fn part(&self, words: &[Word], place: &mut Place) -> Result<Given, SyntaxStop>
        requires inits { Initialises self.now.room (F.pre self.now.init) (F.post self.now.init) }
        requires short { length words.now ≤ 1048576 }
        ensures gives { Gives (spec.part (spec.inits_within self.now.room) (words_of words.now) place.old) result place.new }
    {
        let designator = self.designation(words, place)?;
        let init = (self.init)(self.alloc, words, place, self.room)?;
        Ok(Given { designator, init })
    }

    fn parts(&self, words: &[Word], place: &mut Place) -> Result<Items<Given>, SyntaxStop>
        requires inits { Initialises self.now.room (F.pre self.now.init) (F.post self.now.init) }
        requires short { length words.now ≤ 1048576 }
        ensures gives { Gives (spec.init_parts (spec.inits_within self.now.room) (words_of words.now) place.old) result place.new }
    {
        let mut parts = Items::new(self.alloc);
        for _turn in place.at..MOST_WORDS {
            let part = self.part(words, place)?;
            parts.push(part)?;
            if !is_comma(sign(words, place)) {
                return Ok(parts);
            }
            skip(words, place);
            if is_close_brace(sign(words, place)) {
                return Ok(parts);
            }
        }
        Ok(parts)
    }

    #[tactic(auto, unfolding(crate::specs::Initialisers::init_list))]
    fn list(&self, words: &[Word], place: &mut Place) -> Result<Init, SyntaxStop>
        requires inits { Initialises self.now.room (F.pre self.now.init) (F.post self.now.init) }
        requires short { length words.now ≤ 1048576 }
        requires seen { input.look_at (words_of words.now) place.old ≢ Sign.Eof }
        ensures gives { Gives (spec.init_list (spec.inits_within self.now.room) place.old.at (words_of words.now) place.old) result place.new }
    {
        let at = place.at;
        skip(words, place);
        let parts = self.parts(words, place)?;
        expect(words, place, Sign::CloseBrace)?;
        Ok(Init::List { at, parts })
    }

    #[tactic(auto, unfolding(crate::specs::Initialisers::initializer))]
    fn initialiser(&self, words: &[Word], place: &mut Place) -> Result<Init, SyntaxStop>
        requires inits { Initialises self.now.room (F.pre self.now.init) (F.post self.now.init) }
        requires short { length words.now ≤ 1048576 }
        ensures gives { Gives (spec.initializer (spec.inits_within self.now.room) (words_of words.now) place.old) result place.new }
    {
        match sign(words, place) {
            Sign::OpenBrace => self.list(words, place),
            _ => {
                let e = expr(self.alloc, words, place, self.room, 2)?;
                Ok(Init::One(e.tree))
            }
        }
    }
}

fn begins_initialiser(sign: Sign) -> bool
    ensures { result ≡ spec.begins_initializer sign }
{
    match sign {
        Sign::OpenBrace => true,
        _ => begins_expression(sign),
    }
}

#[tactic(auto, unfolding(crate::specs::Initialisers::init_within, c_input::specs::Parser::no_room))]
pub fn nothing(words: &[Word], place: &Place) -> SyntaxStop
    ensures { Refuses (spec.init_within 0 (words_of words.now) place.now) result }
{
    no_room(words, place, begins_initialiser(sign(words, place)))
}

/// Reads an initialiser that may nest as deep as the room.
pub fn init(alloc: Global, words: &[Word], place: &mut Place, room: u32) -> Result<Init, SyntaxStop>
    requires short { length words.now ≤ 1048576 }
    requires small { room ≤ 200 }
    ensures gives { Gives (spec.init_within room (words_of words.now) place.old) result place.new }
{
    if room == 0 {
        return Err(nothing(words, place));
    }
    Initialisers {
        alloc,
        room: room - 1,
        init,
    }
    .initialiser(words, place)
}
