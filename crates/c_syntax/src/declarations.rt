//! Declarations (C11 6.7).

ghost use Rattle.std.specs.Prelude.{◌≡◌, ◌≢◌, ◌≤◌, length, OnOk, true};
ghost use Rattle.c_syntax.specs.Declarations as spec;
ghost use Rattle.c_input.specs.Input as input;
ghost use Rattle.c_input.specs.Parser as parser;
ghost use Rattle.c_syntax.specs.Initialisers.{inits_within};
ghost use Rattle.c_input.specs.Signs as signs;
ghost use Rattle.c_input.specs.Words.{words_of};
ghost use Rattle.c_input.specs.Gives.{Gives};

use crate::initialisers::init;
use c_expressions::{Declares, Specs, declaration_specs, declarator, specs_after_name};
use c_input::{MOST_WORDS, Place, Sign, SyntaxStop, Word, expect, is_comma, sign, skip};
use c_tree::{Declaration, InitPart};
use sqlite_items::Items;
use std::alloc::{AllocError, Global};

/// Declares the name of a declarator, which may have none.
pub fn declare_name(
    place: &mut Place,
    name: Option<u32>,
    is_typedef: bool,
) -> Result<(), AllocError>
    ensures { OnOk result (place.new ≡ spec.declared name is_typedef place.old) }
{
    match name {
        Some(name) => place.names.declare(name, is_typedef),
        None => Ok(()),
    }
}

/// The rules of declarations whose declarators and initialisers have this room.
#[derive(Clone, Copy)]
pub struct Declarations {
    pub alloc: Global,
    pub room: u32,
}

impl Declarations {
    /// A declarator with its initialiser, where it has one.
    pub fn initialised(
        &self,
        words: &[Word],
        place: &mut Place,
        d: Declares,
    ) -> Result<InitPart, SyntaxStop>
        requires short { length words.now ≤ 1048576 }
        requires small { self.now.room ≤ 200 }
        ensures gives { Gives (parser.look (spec.init_by (inits_within self.now.room) d) (words_of words.now) place.old) result place.new }
    {
        match sign(words, place) {
            Sign::Equal => {
                skip(words, place);
                let init = init(self.alloc, words, place, self.room)?;
                Ok(InitPart {
                    declarator: d.tree,
                    init: Some(init),
                })
            }
            _ => Ok(InitPart {
                declarator: d.tree,
                init: None,
            }),
        }
    }

    /// Declares the name of a declarator, and reads its initialiser (C11 6.2.1p7).
    #[tactic(auto, unfolding(crate::specs::Declarations::part_of))]
    fn part_of(
        &self,
        words: &[Word],
        place: &mut Place,
        is_typedef: bool,
        d: Declares,
    ) -> Result<InitPart, SyntaxStop>
        requires short { length words.now ≤ 1048576 }
        requires small { self.now.room ≤ 200 }
        ensures gives { Gives (spec.part_of (inits_within self.now.room) is_typedef d (words_of words.now) place.old) result place.new }
    {
        declare_name(place, d.name, is_typedef)?;
        self.initialised(words, place, d)
    }

    #[tactic(auto, unfolding(crate::specs::Declarations::part))]
    fn part(
        &self,
        words: &[Word],
        place: &mut Place,
        is_typedef: bool,
    ) -> Result<InitPart, SyntaxStop>
        requires short { length words.now ≤ 1048576 }
        requires small { self.now.room ≤ 200 }
        ensures gives { Gives (spec.part (inits_within self.now.room) is_typedef (words_of words.now) place.old) result place.new }
    {
        let d = declarator(self.alloc, words, place, self.room)?;
        self.part_of(words, place, is_typedef, d)
    }

    /// One more, behind its comma.
    fn next_part(
        &self,
        words: &[Word],
        place: &mut Place,
        is_typedef: bool,
    ) -> Result<InitPart, SyntaxStop>
        requires short { length words.now ≤ 1048576 }
        requires small { self.now.room ≤ 200 }
        requires seen { signs.is_comma (input.look_at (words_of words.now) place.old) ≡ true }
        ensures gives { Gives (spec.next_part (inits_within self.now.room) is_typedef (words_of words.now) place.old) result place.new }
    {
        skip(words, place);
        self.part(words, place, is_typedef)
    }

    fn all_parts(
        &self,
        words: &[Word],
        place: &mut Place,
        is_typedef: bool,
        first: InitPart,
    ) -> Result<Items<InitPart>, SyntaxStop>
        requires short { length words.now ≤ 1048576 }
        requires small { self.now.room ≤ 200 }
        ensures gives { Gives (spec.all_parts (inits_within self.now.room) is_typedef first (words_of words.now) place.old) result place.new }
    {
        let mut parts = Items::new(self.alloc);
        parts.push(first)?;
        for _turn in place.at..MOST_WORDS {
            if !is_comma(sign(words, place)) {
                return Ok(parts);
            }
            let part = self.next_part(words, place, is_typedef)?;
            parts.push(part)?;
        }
        Ok(parts)
    }

    /// Behind the first part of a declaration.
    #[tactic(auto, unfolding(crate::specs::Declarations::parts_after))]
    pub fn parts_after(
        &self,
        words: &[Word],
        place: &mut Place,
        at: u32,
        specs: Specs,
        first: InitPart,
    ) -> Result<Declaration, SyntaxStop>
        requires short { length words.now ≤ 1048576 }
        requires small { self.now.room ≤ 200 }
        ensures gives { Gives (spec.parts_after (inits_within self.now.room) at specs first (words_of words.now) place.old) result place.new }
    {
        let parts = self.all_parts(words, place, specs.is_typedef, first)?;
        expect(words, place, Sign::Semicolon)?;
        Ok(Declaration {
            at,
            specs: specs.list,
            parts,
        })
    }

    /// Behind the specifiers of a declaration.
    fn parts(
        &self,
        words: &[Word],
        place: &mut Place,
        at: u32,
        specs: Specs,
    ) -> Result<Declaration, SyntaxStop>
        requires short { length words.now ≤ 1048576 }
        requires small { self.now.room ≤ 200 }
        ensures gives { Gives (parser.look (spec.parts_by (inits_within self.now.room) at specs) (words_of words.now) place.old) result place.new }
    {
        match sign(words, place) {
            Sign::Semicolon => {
                skip(words, place);
                Ok(Declaration {
                    at,
                    specs: specs.list,
                    parts: Items::new(self.alloc),
                })
            }
            _ => {
                let first = self.part(words, place, specs.is_typedef)?;
                self.parts_after(words, place, at, specs, first)
            }
        }
    }

    #[tactic(auto, unfolding(crate::specs::Declarations::declaration))]
    pub fn declaration(&self, words: &[Word], place: &mut Place) -> Result<Declaration, SyntaxStop>
        requires short { length words.now ≤ 1048576 }
        requires small { self.now.room ≤ 200 }
        ensures gives { Gives (spec.declaration (inits_within self.now.room) (words_of words.now) place.old) result place.new }
    {
        let at = place.at;
        let specs = declaration_specs(self.alloc, words, place, self.room)?;
        self.parts(words, place, at, specs)
    }

    /// A declaration that begins with the typedef name at the place, which was taken.
    #[tactic(auto, unfolding(crate::specs::Declarations::declaration_after_name))]
    pub fn after_name(
        &self,
        words: &[Word],
        place: &mut Place,
        at: u32,
    ) -> Result<Declaration, SyntaxStop>
        requires short { length words.now ≤ 1048576 }
        requires small { self.now.room ≤ 200 }
        ensures gives { Gives (spec.declaration_after_name (inits_within self.now.room) at (words_of words.now) place.old) result place.new }
    {
        let specs = specs_after_name(self.alloc, words, place, self.room, at)?;
        self.parts(words, place, at, specs)
    }
}
