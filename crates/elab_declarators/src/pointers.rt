//! Pointer declarators (C11 6.7.6.1).

ghost use Rattle.std.specs.Prelude.{◌≡◌};
ghost use Rattle.elab_environment.specs.Elaborating.{Gives};
ghost use Rattle.elab_types.specs.Qualified.{no_qualifiers};
ghost use Rattle.elab_rules.specs.Declarators as spec;

use elab_environment::{Environment, Word, is_open_array};
use elab_specifiers::{hold_at, hold_if, is_function, refuse_if};
use elab_types::{Qualifiers, SourceType};
use sqlite_items::Boxed;
use std::alloc::{AllocError, Global};

fn with_qualifier(word: Option<Word>, q: Qualifiers) -> Qualifiers
    ensures { result ≡ spec.with_qualifier word q }
{
    let mut q = q;
    match word {
        Some(Word::Const) => q.is_const = true,
        Some(Word::Volatile) => q.is_volatile = true,
        Some(Word::Restrict) => q.is_restrict = true,
        _ => {}
    }
    q
}

/// The qualifiers among the words at these tokens.
pub fn qualifiers_at(env: &Environment, words: &[u32]) -> Qualifiers
    ensures { result ≡ spec.qualifiers_at env.now no_qualifiers words.now }
{
    let mut q = Qualifiers::NONE;
    for at in words {
        q = with_qualifier(env.word_at(*at), q);
    }
    q
}

fn is_volatile_word(word: Option<Word>) -> bool
    ensures { result ≡ spec.is_volatile_word word }
{
    match word {
        Some(Word::Volatile) => true,
        _ => false,
    }
}

/// The first word `volatile` among those at these tokens.
pub fn volatile_among(env: &Environment, words: &[u32]) -> Option<u32>
    ensures { result ≡ spec.volatile_among env.now words.now }
{
    for at in words {
        if is_volatile_word(env.word_at(*at)) {
            return Some(*at);
        }
    }
    None
}

/// The pointer to a type.
#[tactic(auto, unfolding(elab_rules::specs::Declarators::pointer))]
pub fn pointer(
    alloc: Global,
    env: &mut Environment,
    at: u32,
    words: &[u32],
    t: SourceType,
) -> Result<SourceType, AllocError>
    ensures { Gives (spec.pointer at words.now t env.old) result env.new }
{
    let q = qualifiers_at(env, words);
    let volatile_at = volatile_among(env, words);
    let to_function = is_function(&t);
    let to_open_array = is_open_array(&t);
    hold_if(env, to_function || to_open_array, at)?;
    refuse_if(env, to_function && q.is_restrict, at)?;
    hold_at(env, volatile_at)?;
    Ok(SourceType::Pointer(Boxed::new(alloc, t)?, q))
}
