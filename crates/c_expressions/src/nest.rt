//! The rules take the parser of the nodes that hold one another, one level of room below, as a parameter, so that each is
//! proved by itself.

ghost use Rattle.std.specs.Prelude.{◌≡◌, ◌≤◌, length};
ghost use Rattle.c_expressions.specs.Levels.{nest};
ghost use Rattle.c_input.specs.Words.{words_of};
ghost use Rattle.c_input.specs.Gives.{Gives, Within};
ghost use Rattle.c_expressions.specs.Nests.{Nests};

use crate::grown::{Declares, Grown, Mode};
use c_input::{Measured, Place, SyntaxStop, Word};
use c_tree::MemberLine;
use std::alloc::Global;

/// A node to be read.
#[derive(Clone, Copy, Debug)]
pub enum Wanted {
    /// An expression of a level of precedence.
    Expr(u8),
    /// A unary expression whose first word, the bracket at the place, was taken, and no type name stands behind it.
    Opened(u32),
    /// An expression whose first word, the name at the place, was taken.
    Named(u32),
    /// A length that begins with `*`; whether that may be a length of its own.
    Starred(bool),
    Declarator(Mode),
    Line,
}

/// A node that was read.
#[derive(Drop)]
pub enum Node {
    Ex(Grown),
    Declarator(Declares),
    Line(Measured<MemberLine>),
}

#[derive(Clone, Copy)]
pub struct Grammar<F> {
    pub alloc: Global,
    /// How deep nodes may still nest.
    pub room: u32,
    pub node: F,
}

impl<F: Fn(Global, &[Word], &mut Place, u32, Wanted) -> Result<Node, SyntaxStop>> Grammar<F> {
    /// An expression of a level of precedence.
    pub fn expr(&self, words: &[Word], place: &mut Place, least: u8) -> Result<Grown, SyntaxStop>
        requires nests { Nests self.now.room (F.pre self.now.node) (F.post self.now.node) }
        requires short { length words.now ≤ 1048576 }
        ensures gives { Gives ((nest self.now.room).expr least (words_of words.now) place.old) result place.new }
        ensures within { Within (λ e. e.height) self.now.room result }
    {
        match (self.node)(self.alloc, words, place, self.room, Wanted::Expr(least))? {
            Node::Ex(e) => Ok(e),
            _ => Err(SyntaxStop::Memory),
        }
    }

    pub fn opened(&self, words: &[Word], place: &mut Place, at: u32) -> Result<Grown, SyntaxStop>
        requires nests { Nests self.now.room (F.pre self.now.node) (F.post self.now.node) }
        requires short { length words.now ≤ 1048576 }
        ensures gives { Gives ((nest self.now.room).opened at (words_of words.now) place.old) result place.new }
        ensures within { Within (λ e. e.height) self.now.room result }
    {
        match (self.node)(self.alloc, words, place, self.room, Wanted::Opened(at))? {
            Node::Ex(e) => Ok(e),
            _ => Err(SyntaxStop::Memory),
        }
    }

    pub fn named(&self, words: &[Word], place: &mut Place, at: u32) -> Result<Grown, SyntaxStop>
        requires nests { Nests self.now.room (F.pre self.now.node) (F.post self.now.node) }
        requires short { length words.now ≤ 1048576 }
        ensures gives { Gives ((nest self.now.room).named at (words_of words.now) place.old) result place.new }
        ensures within { Within (λ e. e.height) self.now.room result }
    {
        match (self.node)(self.alloc, words, place, self.room, Wanted::Named(at))? {
            Node::Ex(e) => Ok(e),
            _ => Err(SyntaxStop::Memory),
        }
    }

    pub fn starred(
        &self,
        words: &[Word],
        place: &mut Place,
        alone: bool,
    ) -> Result<Grown, SyntaxStop>
        requires nests { Nests self.now.room (F.pre self.now.node) (F.post self.now.node) }
        requires short { length words.now ≤ 1048576 }
        ensures gives { Gives ((nest self.now.room).starred alone (words_of words.now) place.old) result place.new }
        ensures within { Within (λ e. e.height) self.now.room result }
    {
        match (self.node)(self.alloc, words, place, self.room, Wanted::Starred(alone))? {
            Node::Ex(e) => Ok(e),
            _ => Err(SyntaxStop::Memory),
        }
    }

    pub fn declarator(
        &self,
        words: &[Word],
        place: &mut Place,
        mode: Mode,
    ) -> Result<Declares, SyntaxStop>
        requires nests { Nests self.now.room (F.pre self.now.node) (F.post self.now.node) }
        requires short { length words.now ≤ 1048576 }
        ensures gives { Gives ((nest self.now.room).declarator mode (words_of words.now) place.old) result place.new }
        ensures within { Within (λ d. d.height) self.now.room result }
    {
        match (self.node)(
            self.alloc,
            words,
            place,
            self.room,
            Wanted::Declarator(mode),
        )? {
            Node::Declarator(d) => Ok(d),
            _ => Err(SyntaxStop::Memory),
        }
    }

    pub fn line(
        &self,
        words: &[Word],
        place: &mut Place,
    ) -> Result<Measured<MemberLine>, SyntaxStop>
        requires nests { Nests self.now.room (F.pre self.now.node) (F.post self.now.node) }
        requires short { length words.now ≤ 1048576 }
        ensures gives { Gives ((nest self.now.room).line (words_of words.now) place.old) result place.new }
        ensures within { Within (λ l. l.height) self.now.room result }
    {
        match (self.node)(self.alloc, words, place, self.room, Wanted::Line)? {
            Node::Line(line) => Ok(line),
            _ => Err(SyntaxStop::Memory),
        }
    }
}
