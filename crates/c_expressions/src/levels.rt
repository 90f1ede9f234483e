//! The nodes that hold one another, at each level of room.

ghost use Rattle.std.specs.Prelude.{◌≡◌, ◌≤◌, suc, length, Err};
ghost use Rattle.c_expressions.specs.Levels as spec;
ghost use Rattle.c_input.specs.Words.{words_of};
ghost use Rattle.c_expressions.specs.Nests.{Nests, Finds};

use crate::declarators::begins_declarator;
use crate::nest::{Grammar, Node, Wanted};
use c_input::{
    Place, Sign, SyntaxStop, Word, begins_expression, binds, left_out, no_room, qualifies, sign,
    too_deep,
};
use std::alloc::Global;

/// Whether the word goes on, behind a name, with an expression statement.
fn continues(sign: Sign) -> bool
    ensures { result ≡ spec.continues sign }
{
    match sign {
        Sign::Semicolon => true,
        _ => 1 <= binds(sign),
    }
}

/// The stop where no node may begin any more. A node whose first word was taken is too deep at the next, by which it differs
/// from what needs less room.
#[tactic(auto, unfolding(crate::specs::Levels::nest, c_input::specs::Parser::no_room, c_input::specs::Parser::too_deep_here, c_input::specs::Parser::left_out_here))]
pub fn nothing(words: &[Word], place: &Place, wanted: Wanted) -> SyntaxStop
    ensures { Finds 0 wanted (words_of words.now) place.now (Err result) place.now }
{
    let found = sign(words, place);
    match wanted {
        Wanted::Expr(_) => no_room(words, place, begins_expression(found)),
        Wanted::Opened(_) => match found {
            Sign::OpenBrace => left_out(place),
            _ => no_room(words, place, begins_expression(found)),
        },
        Wanted::Named(_) => no_room(words, place, continues(found)),
        Wanted::Starred(_) => too_deep(words, place),
        Wanted::Declarator(mode) => no_room(words, place, begins_declarator(mode, found)),
        Wanted::Line => no_room(words, place, qualifies(false, found)),
    }
}

/// Reads a node that may nest one deeper than the room of the grammar.
#[tactic(auto, unfolding(crate::specs::Levels::nest))]
pub fn one_level<F: Fn(Global, &[Word], &mut Place, u32, Wanted) -> Result<Node, SyntaxStop>>(
    grammar: &Grammar<F>,
    words: &[Word],
    place: &mut Place,
    wanted: Wanted,
) -> Result<Node, SyntaxStop>
    requires nests { Nests grammar.now.room (F.pre grammar.now.node) (F.post grammar.now.node) }
    requires short { length words.now ≤ 1048576 }
    ensures finds { Finds (suc grammar.now.room) wanted (words_of words.now) place.old result place.new }
{
    match wanted {
        Wanted::Expr(least) => Ok(Node::Ex(grammar.expression(words, place, least)?)),
        Wanted::Opened(at) => Ok(Node::Ex(grammar.after_open(words, place, at)?)),
        Wanted::Named(at) => Ok(Node::Ex(grammar.after_name(words, place, at)?)),
        Wanted::Starred(alone) => Ok(Node::Ex(grammar.from_star(words, place, alone)?)),
        Wanted::Declarator(mode) => Ok(Node::Declarator(grammar.whole_declarator(
            words, place, mode,
        )?)),
        Wanted::Line => Ok(Node::Line(grammar.member_line(words, place)?)),
    }
}

/// Reads a node that may nest as deep as the room.
pub fn node(
    alloc: Global,
    words: &[Word],
    place: &mut Place,
    room: u32,
    wanted: Wanted,
) -> Result<Node, SyntaxStop>
    requires short { length words.now ≤ 1048576 }
    requires small { room ≤ 200 }
    ensures finds { Finds room wanted (words_of words.now) place.old result place.new }
{
    if room == 0 {
        return Err(nothing(words, place, wanted));
    }
    let grammar = Grammar {
        alloc,
        room: room - 1,
        node,
    };
    one_level(&grammar, words, place, wanted)
}
