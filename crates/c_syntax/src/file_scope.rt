//! External declarations (C11 6.9), and the whole of a file.

ghost use Rattle.std.specs.Prelude.{◌≡◌, ◌≢◌, ◌≤◌, length, OnOk};
ghost use Rattle.c_syntax.specs.FileScope as spec;
ghost use Rattle.c_syntax.specs.Statements.{parts_within};
ghost use Rattle.c_input.specs.Parser as parser;
ghost use Rattle.c_input.specs.Words.{words_of};
ghost use Rattle.c_input.specs.Gives.{Gives};

use crate::built::Built;
use crate::declarations::{Declarations, declare_name};
use crate::statements::statement;
use c_expressions::{Declares, Specs, declaration_specs, declarator};
use c_input::{MOST_WORDS, Place, Sign, SyntaxStop, Word, sign, skip};
use c_tree::{Declaration, Item, Unit};
use sqlite_items::Items;
use std::alloc::{AllocError, Global};

/// How deep nodes may nest.
pub const LIMIT: u32 = 200;

/// Whether a file goes on.
fn is_no_end(sign: Sign) -> bool
    ensures { result ≡ spec.is_no_end sign }
{
    match sign {
        Sign::Eof => false,
        _ => true,
    }
}

/// Declares the parameters of a definition.
fn declare_params(place: &mut Place, params: Option<Items<(u32, bool)>>) -> Result<(), AllocError>
    ensures { OnOk result (place.new ≡ spec.with_params params place.old) }
{
    match params {
        Some(names) => place.names.declare_all(names),
        None => Ok(()),
    }
}

/// The body of a definition. Its parameters have the scope of the body (C11 6.2.1p4).
#[tactic(auto, unfolding(crate::specs::FileScope::definition_body, c_input::specs::Parser::scoped))]
fn definition_body(
    alloc: Global,
    words: &[Word],
    place: &mut Place,
    params: Option<Items<(u32, bool)>>,
) -> Result<Built, SyntaxStop>
    requires short { length words.now ≤ 1048576 }
    ensures gives { Gives (spec.definition_body (parts_within spec.limit) params (words_of words.now) place.old) result place.new }
{
    let outer = place.names.len();
    declare_params(place, params)?;
    let body = statement(alloc, words, place, LIMIT, None)?;
    place.names.leave(outer);
    Ok(body)
}

/// A function definition at its body.
#[tactic(auto, unfolding(crate::specs::FileScope::definition))]
fn definition(
    alloc: Global,
    words: &[Word],
    place: &mut Place,
    at: u32,
    specs: Specs,
    d: Declares,
) -> Result<Item, SyntaxStop>
    requires short { length words.now ≤ 1048576 }
    ensures gives { Gives (spec.definition (parts_within spec.limit) at specs d (words_of words.now) place.old) result place.new }
{
    let body = definition_body(alloc, words, place, d.params)?;
    Ok(Item::Function {
        at,
        specs: specs.list,
        declarator: d.tree,
        body: body.tree,
    })
}

/// Behind the first declarator, of which the name was declared.
fn behind_declarator(
    alloc: Global,
    words: &[Word],
    place: &mut Place,
    at: u32,
    specs: Specs,
    d: Declares,
) -> Result<Item, SyntaxStop>
    requires short { length words.now ≤ 1048576 }
    ensures gives { Gives (parser.look (spec.external_by (parts_within spec.limit) at specs d) (words_of words.now) place.old) result place.new }
{
    match sign(words, place) {
        Sign::OpenBrace => definition(alloc, words, place, at, specs, d),
        _ => {
            let declarations = Declarations { alloc, room: LIMIT };
            let first = declarations.initialised(words, place, d)?;
            let declaration = declarations.parts_after(words, place, at, specs, first)?;
            Ok(Item::Declaration(declaration))
        }
    }
}

#[tactic(auto, unfolding(crate::specs::FileScope::external_rest))]
fn external_rest(
    alloc: Global,
    words: &[Word],
    place: &mut Place,
    at: u32,
    specs: Specs,
) -> Result<Item, SyntaxStop>
    requires short { length words.now ≤ 1048576 }
    ensures gives { Gives (spec.external_rest (parts_within spec.limit) at specs (words_of words.now) place.old) result place.new }
{
    let d = declarator(alloc, words, place, LIMIT)?;
    declare_name(place, d.name, specs.is_typedef)?;
    behind_declarator(alloc, words, place, at, specs, d)
}

/// Behind the specifiers.
fn behind_specs(
    alloc: Global,
    words: &[Word],
    place: &mut Place,
    at: u32,
    specs: Specs,
) -> Result<Item, SyntaxStop>
    requires short { length words.now ≤ 1048576 }
    ensures gives { Gives (parser.look (spec.declared_by (parts_within spec.limit) at specs) (words_of words.now) place.old) result place.new }
{
    match sign(words, place) {
        Sign::Semicolon => {
            skip(words, place);
            Ok(Item::Declaration(Declaration {
                at,
                specs: specs.list,
                parts: Items::new(alloc),
            }))
        }
        _ => external_rest(alloc, words, place, at, specs),
    }
}

#[tactic(auto, unfolding(crate::specs::FileScope::external))]
fn external(alloc: Global, words: &[Word], place: &mut Place) -> Result<Item, SyntaxStop>
    requires short { length words.now ≤ 1048576 }
    ensures gives { Gives (spec.external (parts_within spec.limit) (words_of words.now) place.old) result place.new }
{
    let at = place.at;
    let specs = declaration_specs(alloc, words, place, LIMIT)?;
    behind_specs(alloc, words, place, at, specs)
}

#[tactic(auto, unfolding(crate::specs::FileScope::file_item))]
fn item(alloc: Global, words: &[Word], place: &mut Place) -> Result<Item, SyntaxStop>
    requires short { length words.now ≤ 1048576 }
    ensures gives { Gives (spec.file_item (parts_within spec.limit) (words_of words.now) place.old) result place.new }
{
    match sign(words, place) {
        Sign::Semicolon => {
            let at = place.at;
            skip(words, place);
            Ok(Item::Empty { at })
        }
        _ => external(alloc, words, place),
    }
}

fn items(alloc: Global, words: &[Word], place: &mut Place) -> Result<Items<Item>, SyntaxStop>
    requires short { length words.now ≤ 1048576 }
    ensures gives { Gives (spec.file_items (words_of words.now) place.old) result place.new }
{
    let mut items = Items::new(alloc);
    for _turn in place.at..MOST_WORDS {
        if !is_no_end(sign(words, place)) {
            return Ok(items);
        }
        let item = item(alloc, words, place)?;
        items.push(item)?;
    }
    Ok(items)
}

/// The tree of the words of a file.
#[tactic(auto, unfolding(crate::specs::FileScope::translation_unit))]
pub fn translation_unit(
    alloc: Global,
    words: &[Word],
    place: &mut Place,
) -> Result<Unit, SyntaxStop>
    requires short { length words.now ≤ 1048576 }
    ensures gives { Gives (spec.translation_unit (words_of words.now) place.old) result place.new }
{
    let items = items(alloc, words, place)?;
    Ok(Unit { items })
}
