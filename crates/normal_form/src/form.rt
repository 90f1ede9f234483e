//! Which files are lists of functions `int NAME(void) { return E; }` that return constants.

ghost use Rattle.std.specs.Prelude.{◌≡◌, IfOk, IfSome, All};
ghost use Rattle.c_lex.specs.Source.{text_in};
ghost use Rattle.std.specs.List.{list_any};
ghost use Rattle.std.specs.Option.{option_copied};
ghost use Rattle.std.specs.Str.{bytes_eq};
ghost use Rattle.normal_form.specs.ConstantForm as spec;

use crate::constant::Returning;
use crate::expression::{constant_of, is_numbered, text_in};
use c_lex::Token;
use c_tree::{BlockItem, DeclForm, Declarator, Ex, Item, Param, Spec, Stmt, StmtForm, Unit};
use program::Place;
use sqlite_items::Items;
use std::alloc::{AllocError, Global};

/// The token of the only specifier, where it is one word.
fn one_word(specs: &[Spec]) -> Option<u32>
    ensures { result ≡ spec.one_word specs.now }
{
    match specs {
        [Spec::Word { at }] => Some(*at),
        _ => None,
    }
}

/// Whether the only specifier is this word.
fn is_word(file: &[u8], tokens: &[Token], specs: &[Spec], word: &[u8]) -> bool
    ensures { result ≡ spec.is_word (text_in file.now tokens.now) word.now specs.now }
{
    match one_word(specs) {
        Some(at) => text_in(file, tokens, at) == word,
        None => false,
    }
}

/// Whether a list of parameters is `(void)` or `()`.
fn no_parameters(file: &[u8], tokens: &[Token], params: &[Param]) -> bool
    ensures { result ≡ spec.no_parameters (text_in file.now tokens.now) params.now }
{
    match params {
        [] => true,
        [param] => match param.declarator.form {
            DeclForm::Abstract => is_word(file, tokens, param.specs.as_slice(), b"void"),
            _ => false,
        },
        _ => false,
    }
}

/// The token of the name in `NAME(void)`.
fn name_of(file: &[u8], tokens: &[Token], declarator: &Declarator) -> Option<u32>
    ensures { result ≡ spec.name_of (text_in file.now tokens.now) declarator.now.form }
{
    let DeclForm::Function {
        inner,
        params,
        variadic: false,
    } = &declarator.form
    else {
        return None;
    };
    let name = inner.get();
    match name.form {
        DeclForm::Name if no_parameters(file, tokens, params.as_slice()) => Some(name.at),
        _ => None,
    }
}

/// The only statement of a block.
fn only_statement(body: &Stmt) -> Option<&Stmt>
    ensures { option_copied result ≡ spec.only_statement body.now }
{
    let StmtForm::Block(items) = &body.form else {
        return None;
    };
    match items.as_slice() {
        [BlockItem::Stmt(statement)] => Some(statement),
        _ => None,
    }
}

/// The expression that a `return` returns.
fn returned(statement: &Stmt) -> Option<&Ex>
    ensures { option_copied result ≡ spec.returned statement.now }
{
    match &statement.form {
        StmtForm::Return(Some(value)) => Some(value),
        _ => None,
    }
}

/// The place of a token's line.
fn place_of(tokens: &[Token], i: u32) -> Place
    ensures { result ≡ spec.place_of tokens.now i }
{
    match tokens.get(i as usize) {
        Some(token) => Place {
            name_at: token.place.name_at,
            name_len: token.place.name_len,
            line: token.place.line,
        },
        None => Place {
            name_at: 0,
            name_len: 0,
            line: 0,
        },
    }
}

/// The definition of this name whose body is one statement.
fn returning(
    alloc: Global,
    file: &[u8],
    tokens: &[Token],
    name: u32,
    statement: &Stmt,
) -> Result<Option<Returning>, AllocError>
    ensures equal { IfOk result (λ d. d ≡ spec.returning file.now tokens.now name statement.now) }
    ensures lawful { IfOk result (λ d. IfSome d spec.IsReturning) }
{
    let Some(value) = returned(statement) else {
        return Ok(None);
    };
    let Some(value) = constant_of(alloc, file, tokens, value)? else {
        return Ok(None);
    };
    // Numbers are u32. No file that the front end takes is long enough to need more.
    if !is_numbered(&value) {
        return Err(AllocError);
    }
    Ok(Some(Returning {
        name: Items::from_slice(alloc, text_in(file, tokens, name))?,
        value,
        place: place_of(tokens, statement.at),
    }))
}

/// The definition that an item is, where it is `int NAME(void) { return E; }`.
fn definition_of(
    alloc: Global,
    file: &[u8],
    tokens: &[Token],
    item: &Item,
) -> Result<Option<Returning>, AllocError>
    ensures equal { IfOk result (λ d. d ≡ spec.definition_of file.now tokens.now item.now) }
    ensures lawful { IfOk result (λ d. IfSome d spec.IsReturning) }
{
    let Item::Function {
        specs,
        declarator,
        body,
        ..
    } = item
    else {
        return Ok(None);
    };
    if !is_word(file, tokens, specs.as_slice(), b"int") {
        return Ok(None);
    }
    let Some(name) = name_of(file, tokens, declarator) else {
        return Ok(None);
    };
    match only_statement(body) {
        Some(statement) => returning(alloc, file, tokens, name, statement),
        None => Ok(None),
    }
}

/// The definitions that the items are, where each is one.
fn all_definitions(
    alloc: Global,
    file: &[u8],
    tokens: &[Token],
    items: &[Item],
) -> Result<Option<Items<Returning>>, AllocError>
    ensures equal { IfOk result (λ ds. ds ≡ spec.all_definitions file.now tokens.now items.now) }
    ensures lawful { IfOk result (λ ds. IfSome ds (λ l. All spec.IsReturning l)) }
{
    let mut found = Items::new(alloc);
    for item in items {
        match definition_of(alloc, file, tokens, item)? {
            Some(definition) => found.push(definition)?,
            None => return Ok(None),
        }
    }
    Ok(Some(found))
}

/// Whether a definition has this name.
fn is_name_of_any(name: &[u8], definitions: &[Returning]) -> bool
    ensures { result ≡ list_any (λ d. bytes_eq name.now d.name) definitions.now }
{
    for definition in definitions {
        if name == definition.name.as_slice() {
            return true;
        }
    }
    false
}

/// Whether no two definitions have one name.
fn names_differ(definitions: &[Returning]) -> bool
    ensures { result ≡ spec.names_differ definitions.now }
{
    for (i, definition) in definitions.iter().enumerate() {
        if is_name_of_any(definition.name.as_slice(), &definitions[i + 1..]) {
            return false;
        }
    }
    true
}

/// The definitions of a file of functions `int NAME(void) { return E; }`, in the order of the text; `None` where the file
/// isn't of this form. `Err` only for want of memory.
pub fn definitions(
    alloc: Global,
    file: &[u8],
    tokens: &[Token],
    tree: &Unit,
) -> Result<Option<Items<Returning>>, AllocError>
    ensures equal { IfOk result (λ ds. ds ≡ spec.definitions file.now tokens.now tree.now) }
    ensures lawful { IfOk result (λ ds. IfSome ds (λ l. All spec.IsReturning l)) }
{
    match all_definitions(alloc, file, tokens, tree.items.as_slice())? {
        Some(found) if names_differ(found.as_slice()) => Ok(Some(found)),
        _ => Ok(None),
    }
}
