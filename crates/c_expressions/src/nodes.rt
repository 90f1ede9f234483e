//! What the rules above the nest read of it.

ghost use Rattle.std.specs.Prelude.{◌≡◌, ◌≤◌, length};
ghost use Rattle.c_expressions.specs.Specifiers as spec;
ghost use Rattle.c_expressions.specs.Levels.{nest};
ghost use Rattle.c_input.specs.Words.{words_of};
ghost use Rattle.c_input.specs.Gives.{Gives};

use crate::grown::{Declares, Grown, Mode, Specs};
use crate::levels::node;
use crate::nest::{Grammar, Node, Wanted};
use crate::specifiers::Allowed;
use c_input::{Place, SyntaxStop, Word};
use std::alloc::Global;

/// An expression of a level of precedence.
pub fn expr(
    alloc: Global,
    words: &[Word],
    place: &mut Place,
    room: u32,
    least: u8,
) -> Result<Grown, SyntaxStop>
    requires short { length words.now ≤ 1048576 }
    requires small { room ≤ 200 }
    ensures gives { Gives ((nest room).expr least (words_of words.now) place.old) result place.new }
{
    match node(alloc, words, place, room, Wanted::Expr(least))? {
        Node::Ex(e) => Ok(e),
        _ => Err(SyntaxStop::Memory),
    }
}

/// An expression whose first word, the name at the place, was taken.
pub fn named(
    alloc: Global,
    words: &[Word],
    place: &mut Place,
    room: u32,
    at: u32,
) -> Result<Grown, SyntaxStop>
    requires short { length words.now ≤ 1048576 }
    requires small { room ≤ 200 }
    ensures gives { Gives ((nest room).named at (words_of words.now) place.old) result place.new }
{
    match node(alloc, words, place, room, Wanted::Named(at))? {
        Node::Ex(e) => Ok(e),
        _ => Err(SyntaxStop::Memory),
    }
}

/// A declarator that declares a name.
pub fn declarator(
    alloc: Global,
    words: &[Word],
    place: &mut Place,
    room: u32,
) -> Result<Declares, SyntaxStop>
    requires short { length words.now ≤ 1048576 }
    requires small { room ≤ 200 }
    ensures gives { Gives ((nest room).declarator Mode.Named (words_of words.now) place.old) result place.new }
{
    match node(alloc, words, place, room, Wanted::Declarator(Mode::Named))? {
        Node::Declarator(d) => Ok(d),
        _ => Err(SyntaxStop::Memory),
    }
}

/// The specifiers of a declaration.
pub fn declaration_specs(
    alloc: Global,
    words: &[Word],
    place: &mut Place,
    room: u32,
) -> Result<Specs, SyntaxStop>
    requires short { length words.now ≤ 1048576 }
    requires small { room ≤ 200 }
    ensures gives { Gives (spec.declaration_specs (nest room) (words_of words.now) place.old) result place.new }
{
    Grammar { alloc, room, node }.some_specs(words, place, Allowed::All)
}

/// Those that begin with the typedef name at the place, which was taken.
pub fn specs_after_name(
    alloc: Global,
    words: &[Word],
    place: &mut Place,
    room: u32,
    at: u32,
) -> Result<Specs, SyntaxStop>
    requires short { length words.now ≤ 1048576 }
    requires small { room ≤ 200 }
    ensures gives { Gives (spec.specs_after_name (nest room) at (words_of words.now) place.old) result place.new }
{
    Grammar { alloc, room, node }.specs_after_name(words, place, at)
}
