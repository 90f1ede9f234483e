//! What is noted where something holds.

ghost use Rattle.elab_environment.specs.Elaborating.{Gives};
ghost use Rattle.elab_rules.specs.Specifiers as spec;

use elab_environment::Environment;
use elab_findings::Rule;
use std::alloc::AllocError;

/// Refuses the file where something is so.
pub fn refuse_if(env: &mut Environment, is_so: bool, at: u32) -> Result<(), AllocError>
    ensures { Gives (spec.refused_if is_so at env.old) result env.new }
{
    if is_so {
        env.refuse(at, Rule::TypeError)
    } else {
        Ok(())
    }
}

/// Notes what is left out where something is so.
pub fn hold_if(env: &mut Environment, is_so: bool, at: u32) -> Result<(), AllocError>
    ensures { Gives (spec.held_if is_so at env.old) result env.new }
{
    if is_so {
        env.hold(at, Rule::OutOfProfile)
    } else {
        Ok(())
    }
}

/// Notes what is left out at a token, if there is one.
pub fn hold_at(env: &mut Environment, at: Option<u32>) -> Result<(), AllocError>
    ensures { Gives (spec.held_at at env.old) result env.new }
{
    match at {
        Some(at) => env.hold(at, Rule::OutOfProfile),
        None => Ok(()),
    }
}
