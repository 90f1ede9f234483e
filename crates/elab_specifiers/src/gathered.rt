//! A list of declaration specifiers (C11 6.7 to 6.7.4, 6.7.8).

ghost use Rattle.std.specs.Prelude.{◌≡◌};
ghost use Rattle.elab_environment.specs.Elaborating.{Gives};
ghost use Rattle.elab_rules.specs.Specifiers as spec;

use crate::checks::{hold_if, refuse_if};
use crate::sorts::{takes_restrict, takes_volatile};
use crate::words::{no_words, type_of, with_word};
use elab_environment::{Entity, Environment, Word};
use elab_findings::Rule;
use elab_rules::{Gathered, Specified, Storage, TypeWords};
use elab_types::{Qualifiers, SourceType, copy_source, qualified};
use std::alloc::{AllocError, Global};

/// What an empty list says.
pub fn nothing_said() -> Gathered
    ensures { result ≡ spec.nothing_said }
{
    Gathered {
        storage: None,
        is_several: false,
        is_inline: false,
        is_function: false,
        qualifiers: Qualifiers::NONE,
        volatile_at: None,
        words: no_words(),
        named: None,
        is_mixed: false,
    }
}

fn stored(storage: Storage, gathered: Gathered) -> Gathered
    ensures { result ≡ spec.stored storage gathered }
{
    let is_several = gathered.is_several || gathered.storage.is_some();
    let mut g = gathered;
    g.storage = Some(storage);
    g.is_several = is_several;
    g
}

fn typed_by(word: Word, gathered: Gathered) -> Gathered
    ensures { result ≡ spec.typed_by word gathered }
{
    let mut g = gathered;
    g.words = with_word(word, g.words);
    g
}

fn floating(
    env: &mut Environment,
    at: u32,
    word: Word,
    gathered: Gathered,
) -> Result<Gathered, AllocError>
    ensures { Gives (spec.held_word at word gathered env.old) result env.new }
{
    env.hold(at, Rule::OutOfProfile)?;
    Ok(typed_by(word, gathered))
}

fn word_among(
    env: &mut Environment,
    at: u32,
    word: Word,
    gathered: Gathered,
) -> Result<Gathered, AllocError>
    ensures { Gives (spec.word_said at word gathered env.old) result env.new }
{
    let mut g = gathered;
    match word {
        Word::Typedef => return Ok(stored(Storage::Typedef, g)),
        Word::Extern => return Ok(stored(Storage::Extern, g)),
        Word::Static => return Ok(stored(Storage::Static, g)),
        Word::Auto => return Ok(stored(Storage::Auto, g)),
        Word::Register => return Ok(stored(Storage::Register, g)),
        Word::Inline => {
            g.is_inline = true;
            g.is_function = true;
        }
        Word::Noreturn => g.is_function = true,
        Word::Const => g.qualifiers.is_const = true,
        Word::Volatile => {
            g.qualifiers.is_volatile = true;
            g.volatile_at = Some(g.volatile_at.unwrap_or(at));
        }
        Word::Restrict => g.qualifiers.is_restrict = true,
        Word::Float => return floating(env, at, Word::Float, g),
        Word::Double => return floating(env, at, Word::Double, g),
        Word::Complex => return floating(env, at, Word::Complex, g),
        Word::Void => return Ok(typed_by(Word::Void, g)),
        Word::Char => return Ok(typed_by(Word::Char, g)),
        Word::Short => return Ok(typed_by(Word::Short, g)),
        Word::Int => return Ok(typed_by(Word::Int, g)),
        Word::Long => return Ok(typed_by(Word::Long, g)),
        Word::Signed => return Ok(typed_by(Word::Signed, g)),
        Word::Unsigned => return Ok(typed_by(Word::Unsigned, g)),
        Word::Bool => return Ok(typed_by(Word::Bool, g)),
        Word::Struct => return Ok(typed_by(Word::Struct, g)),
        Word::Union => return Ok(typed_by(Word::Union, g)),
    }
    Ok(g)
}

/// The list with a further word, by its token.
pub fn word_said(
    env: &mut Environment,
    at: u32,
    word: Option<Word>,
    gathered: Gathered,
) -> Result<Gathered, AllocError>
    ensures { Gives (spec.word_said_at at word gathered env.old) result env.new }
{
    match word {
        Some(word) => word_among(env, at, word, gathered),
        None => Ok(gathered),
    }
}

/// The list with a further type that one specifier names.
pub fn with_type(gathered: Gathered, t: SourceType) -> Gathered
    ensures { result ≡ spec.with_type gathered t }
{
    let is_mixed = gathered.is_mixed || (gathered.named.is_some() || gathered.words.is_any);
    let mut g = gathered;
    g.is_mixed = is_mixed;
    g.named = Some(t);
    g
}

/// The type of a typedef name, by its token; naming it uses its declaration.
#[tactic(auto, unfolding(elab_rules::specs::Specifiers::typedef_type))]
pub fn typedef_type(alloc: Global, env: &mut Environment, at: u32) -> Result<SourceType, AllocError>
    ensures { Gives (spec.typedef_type at env.old) result env.new }
{
    let Some(name) = env.name_at(at) else {
        return Ok(SourceType::Faulty);
    };
    let Some(found) = env.find(name) else {
        return Ok(SourceType::Faulty);
    };
    let declaration = found.declaration;
    match &found.entity {
        Entity::Typedef(t) => {
            let t = copy_source(alloc, t)?;
            env.mention(declaration)?;
            Ok(t)
        }
        Entity::Enumerator(_) | Entity::Object(_) | Entity::Function(_) => Ok(SourceType::Faulty),
    }
}

fn base(named: Option<SourceType>, words: TypeWords) -> Option<SourceType>
    ensures { result ≡ spec.base_of named words }
{
    match named {
        Some(t) => { if words.is_any { None } else { Some(t) } }
        None => type_of(words),
    }
}

fn volatile_checked(env: &mut Environment, at: Option<u32>, takes: bool) -> Result<(), AllocError>
    ensures { Gives (spec.volatile_checked at takes env.old) result env.new }
{
    match at {
        Some(at) => hold_if(env, !takes, at),
        None => Ok(()),
    }
}

/// What a whole list of specifiers says; `at` is the declaration's first token.
#[tactic(auto, unfolding(elab_rules::specs::Specifiers::specified))]
pub fn specified(
    alloc: Global,
    env: &mut Environment,
    at: u32,
    gathered: Gathered,
) -> Result<Specified, AllocError>
    ensures { Gives (spec.specified at gathered env.old) result env.new }
{
    let Gathered {
        storage,
        is_several,
        is_inline,
        is_function,
        qualifiers,
        volatile_at,
        words,
        named,
        is_mixed,
    } = gathered;
    let said = if is_mixed { None } else { base(named, words) };
    let is_untyped = said.is_none();
    let t = said.unwrap_or(SourceType::Faulty);
    refuse_if(env, is_several || is_untyped, at)?;
    let takes = takes_restrict(&t);
    refuse_if(env, qualifiers.is_restrict && !takes, at)?;
    let takes = takes_volatile(&t);
    volatile_checked(env, volatile_at, takes)?;
    Ok(Specified {
        storage,
        is_inline,
        is_function,
        ty: qualified(alloc, qualifiers, t)?,
    })
}
