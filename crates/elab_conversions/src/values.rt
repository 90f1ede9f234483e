//! The value of an operand (C11 6.3.2.1).

ghost use Rattle.std.specs.Prelude.{◌≡◌, IfOk};
ghost use Rattle.elab_environment.specs.Elaborating.{Gives};
ghost use Rattle.elab_rules.specs.Operands as operands;
ghost use Rattle.elab_rules.specs.Conversions as spec;

use crate::forms::{faulty, function_named, is_lvalue, operand, pointer_to};
use crate::sorts::{element_of, is_unusable};
use elab_environment::Environment;
use elab_findings::Rule;
use elab_rules::{Form, Operand};
use elab_types::{copy_source, unqualified};
use sqlite_items::Boxed;
use std::alloc::{AllocError, Global};

/// Notes at a token that a constraint is broken. The answer breaks no further one.
pub fn type_error(env: &mut Environment, at: u32) -> Result<Operand, AllocError>
    ensures { Gives (spec.type_error at env.old) result env.new }
{
    env.refuse(at, Rule::TypeError)?;
    Ok(faulty())
}

/// Notes at a token that something is left out of the language.
pub fn left_out(env: &mut Environment, at: u32) -> Result<Operand, AllocError>
    ensures { Gives (spec.left_out at env.old) result env.new }
{
    env.hold(at, Rule::OutOfProfile)?;
    Ok(faulty())
}

/// What stands in an lvalue.
pub fn loaded(alloc: Global, x: Operand) -> Result<Operand, AllocError>
    ensures { IfOk result (λ y. y ≡ spec.loaded x) }
{
    let ty = unqualified(copy_source(alloc, &x.ty)?);
    let bits = x.bits;
    Ok(Operand {
        ty,
        bits,
        is_register: false,
        form: Form::Load(Boxed::new(alloc, x)?),
    })
}

fn decayed(alloc: Global, x: Operand) -> Result<Operand, AllocError>
    ensures { IfOk result (λ y. y ≡ spec.decayed (operands.element_of x.ty) x) }
{
    if let Some(element) = element_of(&x.ty) {
        let ty = pointer_to(alloc, copy_source(alloc, element)?)?;
        return Ok(operand(ty, Form::Start(Boxed::new(alloc, x)?)));
    }
    if is_lvalue(&x.form) {
        Ok(loaded(alloc, x)?)
    } else {
        Ok(x)
    }
}

/// The value of an operand: of an array the pointer to its first element, of an lvalue what stands in it. A function may
/// only be called.
#[tactic(auto, unfolding(elab_rules::specs::Conversions::value))]
pub fn value(alloc: Global, env: &mut Environment, x: Operand) -> Result<Operand, AllocError>
    ensures { Gives (spec.value x env.old) result env.new }
{
    if is_unusable(&x.ty) {
        return Ok(faulty());
    }
    match function_named(&x.form) {
        Some(at) => left_out(env, at),
        None => Ok(decayed(alloc, x)?),
    }
}
