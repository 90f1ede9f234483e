//! Sizes that are asked for (C11 6.5.3.4, 6.5.6).

ghost use Rattle.elab_environment.specs.Elaborating.{Gives};
ghost use Rattle.elab_rules.specs.Conversions as spec;

use crate::sorts::{is_function, is_unusable};
use c_types::kept_size;
use elab_environment::Environment;
use elab_findings::Rule;
use elab_types::{SourceType, ctype};
use std::alloc::{AllocError, Global};

/// The greatest size of an object, in bits.
const OBJECT_LIMIT: u32 = 1 << 24;

/// The size of a complete type in bits. Where it is too large for an object, that is noted at a token.
#[tactic(auto, unfolding(elab_rules::specs::Conversions::sized), using(crate::proofs::Kept::kept_small))]
pub fn sized(
    alloc: Global,
    env: &mut Environment,
    at: u32,
    t: &SourceType,
) -> Result<Option<u32>, AllocError>
    ensures { Gives (spec.sized at t.now env.old) result env.new }
{
    let size = kept_size(&env.layout, &ctype(alloc, t)?);
    if size > OBJECT_LIMIT {
        env.hold(at, Rule::ObjectTooLarge)?;
        Ok(None)
    } else {
        Ok(Some(size))
    }
}

/// Whether a complete type is small enough for an object. Where it isn't, that is noted at a token.
pub fn is_sized(
    alloc: Global,
    env: &mut Environment,
    at: u32,
    t: &SourceType,
) -> Result<bool, AllocError>
    ensures { Gives (spec.is_sized at t.now env.old) result env.new }
{
    Ok(sized(alloc, env, at, t)?.is_some())
}

/// Whether a pointer to a type may be moved: it is a complete object type of a size (C11 6.5.6p2). What stands against that
/// is noted at a token.
#[tactic(auto, unfolding(elab_rules::specs::Conversions::steps_over))]
pub fn steps_over(
    alloc: Global,
    env: &mut Environment,
    at: u32,
    t: &SourceType,
) -> Result<bool, AllocError>
    ensures { Gives (spec.steps_over at t.now env.old) result env.new }
{
    if is_unusable(t) || is_function(t) {
        return Ok(false);
    }
    if env.is_complete(t) {
        is_sized(alloc, env, at, t)
    } else {
        env.refuse(at, Rule::TypeError)?;
        Ok(false)
    }
}
