//! Conversion as if by assignment (C11 6.5.16.1).

ghost use Rattle.std.specs.Prelude.{◌≡◌};
ghost use Rattle.elab_environment.specs.Elaborating.{Gives};
ghost use Rattle.elab_types.specs.declared.types.SourceType.{SourceType};
ghost use Rattle.elab_rules.specs.Operands.{sort_of};
ghost use Rattle.elab_rules.specs.Conversions as spec;

use crate::forms::{faulty, null_of};
use crate::null::{converts_silently, is_null_constant};
use crate::promotions::converted;
use crate::sorts::{is_bool, is_unusable, sort_of};
use crate::values::{left_out, type_error};
use c_types::{IntKind, StructId};
use elab_environment::Environment;
use elab_rules::{Operand, Sort};
use elab_types::{SourceType, unqualified};
use std::alloc::{AllocError, Global};

fn assigned_to_number(
    alloc: Global,
    env: &mut Environment,
    at: u32,
    t: SourceType,
    k: IntKind,
    x: Operand,
) -> Result<Operand, AllocError>
    ensures { Gives (spec.assigned_by at t (Sort.Integer k) x (sort_of x.ty) env.old) result env.new }
{
    match sort_of(alloc, &x.ty)? {
        Sort::Integer(_) => Ok(converted(alloc, t, x)?),
        Sort::Pointer(_) => if is_bool(k) {
            Ok(converted(alloc, t, x)?)
        } else {
            left_out(env, at)
        },
        Sort::Void | Sort::Struct(_) | Sort::Other => type_error(env, at),
    }
}

/// A pointer to one type as one to another.
fn repointed(
    alloc: Global,
    env: &mut Environment,
    at: u32,
    t: SourceType,
    u: &SourceType,
    x: Operand,
    v: &SourceType,
) -> Result<Operand, AllocError>
    ensures { Gives (spec.assigned_by at t (Sort.Pointer u.now) x (Sort.Pointer v.now) env.old) result env.new }
{
    if converts_silently(v, u) {
        Ok(converted(alloc, t, x)?)
    } else {
        type_error(env, at)
    }
}

/// A number as a pointer: null alone is one.
fn null_assigned(
    env: &mut Environment,
    at: u32,
    t: SourceType,
    x: &Operand,
) -> Result<Operand, AllocError>
    ensures { Gives (spec.null_assigned at t x.now env.old) result env.new }
{
    if is_null_constant(x) {
        Ok(null_of(t))
    } else {
        left_out(env, at)
    }
}

fn assigned_to_pointer(
    alloc: Global,
    env: &mut Environment,
    at: u32,
    t: SourceType,
    u: &SourceType,
    x: Operand,
) -> Result<Operand, AllocError>
    ensures { Gives (spec.assigned_by at t (Sort.Pointer u.now) x (sort_of x.ty) env.old) result env.new }
{
    match sort_of(alloc, &x.ty)? {
        Sort::Integer(_) => null_assigned(env, at, t, &x),
        Sort::Pointer(v) => repointed(alloc, env, at, t, u, x, &v),
        Sort::Void | Sort::Struct(_) | Sort::Other => type_error(env, at),
    }
}

fn assigned_to_struct(
    alloc: Global,
    env: &mut Environment,
    at: u32,
    id: StructId,
    x: Operand,
) -> Result<Operand, AllocError>
    ensures { (t : SourceType) → Gives (spec.assigned_by at t (Sort.Struct id) x (sort_of x.ty) env.old) result env.new }
{
    match sort_of(alloc, &x.ty)? {
        Sort::Struct(other) => if id.0 == other.0 {
            Ok(x)
        } else {
            type_error(env, at)
        },
        Sort::Void | Sort::Integer(_) | Sort::Pointer(_) | Sort::Other => type_error(env, at),
    }
}

/// An operand converted as if by assignment to an object of a type. Where that is a broken constraint or left out, it is
/// noted at a token.
#[tactic(auto, unfolding(elab_rules::specs::Conversions::assigned))]
pub fn assigned(
    alloc: Global,
    env: &mut Environment,
    at: u32,
    t: SourceType,
    x: Operand,
) -> Result<Operand, AllocError>
    ensures { Gives (spec.assigned at t x env.old) result env.new }
{
    if is_unusable(&t) || is_unusable(&x.ty) {
        return Ok(faulty());
    }
    match sort_of(alloc, &t)? {
        Sort::Integer(k) => assigned_to_number(alloc, env, at, unqualified(t), k, x),
        Sort::Pointer(u) => assigned_to_pointer(alloc, env, at, unqualified(t), &u, x),
        Sort::Struct(id) => assigned_to_struct(alloc, env, at, id, x),
        Sort::Void | Sort::Other => type_error(env, at),
    }
}
