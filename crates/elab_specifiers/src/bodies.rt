//! The members of structs and unions, and the enumerators of enumerations (C11 6.7.2.1, 6.7.2.2).

ghost use Rattle.std.specs.Prelude.{◌≡◌, ◌-◌, ◌^◌, pos, neg_ℤ, int_le, ◌&&◌};
ghost use Rattle.std.specs.List.{list_any};
ghost use Rattle.c_tree.specs.declared.tree.Spec.{out-Spec};
ghost use Rattle.elab_types.specs.declared.types.SourceType.{out-SourceType};
ghost use Rattle.elab_environment.specs.Elaborating.{Gives};
ghost use Rattle.elab_rules.specs.Bodies as spec;
ghost use Rattle.elab_rules.specs.Tags as tags;
ghost use Rattle.elab_specifiers.specs.Members as read;

use crate::checks::{hold_if, refuse_if};
use crate::sorts::is_variably_modified;
use c_tree::Spec;
use c_types::{IntKind, width};
use elab_environment::{Body, Collected, Constant, Entity, Environment, any_named, is_open_array};
use elab_findings::Rule;
use elab_rules::Declared;
use elab_types::{SourceType, same_kind};
use sqlite_items::Items;
use std::alloc::{AllocError, Global};

// ---- bit-fields

fn is_width(kind: IntKind, is_named: bool, v: i128) -> bool
    ensures { result ≡ spec.is_width kind is_named v }
{
    let is_bool = same_kind(kind, IntKind::Bool);
    0 <= v && (v <= i128::from(width(kind)) && (!(is_named && v <= 0) && (!is_bool || v <= 1)))
}

fn no_width(env: &mut Environment, at: u32) -> Result<Option<u32>, AllocError>
    ensures { Gives (spec.no_width at env.old) result env.new }
{
    env.refuse(at, Rule::TypeError)?;
    Ok(None)
}

/// The width of a bit-field of an integer type.
fn width_of(
    env: &mut Environment,
    at: u32,
    kind: IntKind,
    is_named: bool,
    constant: Constant,
) -> Result<Option<u32>, AllocError>
    ensures { Gives (spec.width_of at kind is_named constant env.old) result env.new }
{
    match constant {
        Constant::Number(v) => {
            if is_width(kind, is_named, v) {
                let bits = v.unsigned_abs();
                // Widths are u32. No type has a greater one.
                if bits > 0xffff_ffff {
                    return Err(AllocError);
                }
                Ok(Some(bits as u32))
            } else {
                no_width(env, at)
            }
        }
        Constant::Faulty => Ok(None),
        Constant::Undefined | Constant::Variable | Constant::OfOtherType => no_width(env, at),
    }
}

/// The width of a bit-field whose type broke a rule.
fn any_width(env: &mut Environment, at: u32, constant: Constant) -> Result<Option<u32>, AllocError>
    ensures { Gives (spec.any_width at constant env.old) result env.new }
{
    match constant {
        Constant::Number(_) | Constant::Faulty => Ok(None),
        Constant::Undefined | Constant::Variable | Constant::OfOtherType => no_width(env, at),
    }
}

/// The width of a bit-field; none where it breaks a rule.
fn bit_width(
    env: &mut Environment,
    at: u32,
    t: &SourceType,
    is_named: bool,
    constant: Constant,
) -> Result<Option<u32>, AllocError>
    ensures { Gives (spec.width_by at (out-SourceType t.now) is_named constant env.old) result env.new }
{
    match t {
        SourceType::Int(kind, _) => width_of(env, at, *kind, is_named, constant),
        SourceType::Faulty => any_width(env, at, constant),
        SourceType::Void(_) | SourceType::Pointer(_, _) | SourceType::Array(_, _) => no_width(
            env, at,
        ),
        SourceType::Struct(_, _) | SourceType::Function(_, _, _) => no_width(env, at),
        SourceType::Floating(_) => no_width(env, at),
    }
}

// ---- members

/// Where a member stands: the first token of its declarator, whether in a union, and whether last in a struct, behind a member
/// with a name.
#[derive(Clone, Copy, Debug, Drop, PartialEq, Eq)]
pub struct MemberPlace {
    pub at: u32,
    pub is_union: bool,
    pub may_be_open: bool,
}

fn closed_member(
    env: &mut Environment,
    place: MemberPlace,
    t: SourceType,
) -> Result<SourceType, AllocError>
    ensures { Gives (spec.closed_member place.at place.is_union t env.old env.old) result env.new }
{
    let is_flexible = env.is_flexible(&t);
    refuse_if(env, is_flexible && !place.is_union, place.at)?;
    Ok(t)
}

fn no_member(env: &mut Environment, at: u32) -> Result<SourceType, AllocError>
    ensures { Gives (spec.no_member at env.old) result env.new }
{
    env.refuse(at, Rule::TypeError)?;
    Ok(SourceType::Faulty)
}

/// The type of a member that is no bit-field.
fn member_type(
    env: &mut Environment,
    place: MemberPlace,
    t: SourceType,
) -> Result<SourceType, AllocError>
    ensures { Gives (spec.member_type place.at place.is_union place.may_be_open t env.old env.old) result env.new }
{
    if is_variably_modified(&t) {
        return no_member(env, place.at);
    }
    if place.may_be_open && is_open_array(&t) {
        env.hold(place.at, Rule::OutOfProfile)?;
        return Ok(t);
    }
    if env.is_complete(&t) {
        closed_member(env, place, t)
    } else {
        no_member(env, place.at)
    }
}

fn name_of(env: &Environment, token: Option<u32>) -> Option<u32>
    ensures { result ≡ tags.name_of_token env.now token }
{
    match token {
        Some(token) => env.name_at(token),
        None => None,
    }
}

fn token_of(token: Option<u32>) -> u32
    ensures { result ≡ tags.or_token token }
{
    match token {
        Some(token) => token,
        None => 0,
    }
}

fn collect(
    env: &mut Environment,
    token: Option<u32>,
    ty: SourceType,
    bits: Option<u32>,
    members: Items<Collected>,
) -> Result<Items<Collected>, AllocError>
    ensures { Gives (tags.collected token ty bits members env.old) result env.new }
{
    let name = name_of(env, token);
    env.collect(token_of(token), Collected { name, ty, bits }, members)
}

/// The members with a bit-field, whose width was read.
pub fn with_bit_field(
    env: &mut Environment,
    at: u32,
    declared: Declared,
    constant: Constant,
    members: Items<Collected>,
) -> Result<Items<Collected>, AllocError>
    ensures { Gives (read.bit_field at declared constant members env.old) result env.new }
{
    let Declared {
        ty,
        name,
        nearest: _,
    } = declared;
    let width = bit_width(env, at, &ty, name.is_some(), constant)?;
    match width {
        Some(width) => collect(env, name, ty, Some(width), members),
        None => collect(env, name, SourceType::Faulty, None, members),
    }
}

/// The members with one that is no bit-field.
pub fn with_member(
    env: &mut Environment,
    place: MemberPlace,
    declared: Declared,
    members: Items<Collected>,
) -> Result<Items<Collected>, AllocError>
    ensures { Gives (read.plain place.at place.is_union place.may_be_open declared members env.old) result env.new }
{
    let Declared {
        ty,
        name,
        nearest: _,
    } = declared;
    let t = member_type(env, place, ty)?;
    collect(env, name, t, None, members)
}

/// Whether a specifier is a struct or union with a body and no name.
fn is_anonymous(specifier: &Spec) -> bool
    ensures { result ≡ tags.is_anonymous_at (out-Spec specifier.now) }
{
    match specifier {
        Spec::Struct {
            at: _,
            tag: None,
            lines: Some(_),
        } => true,
        Spec::Struct {
            at: _,
            tag: None,
            lines: None,
        } => false,
        Spec::Struct {
            at: _,
            tag: Some(_),
            lines: _,
        } => false,
        Spec::Word { at: _ } | Spec::Named { at: _ } => false,
        Spec::Enum {
            at: _,
            tag: _,
            values: _,
        } => false,
    }
}

fn any_anonymous(specifiers: &[Spec]) -> bool
    ensures { result ≡ list_any (λ x. tags.is_anonymous_at (out-Spec x)) specifiers.now }
{
    specifiers.iter().any(|s| is_anonymous(s))
}

/// Notes that a line of a body declares nothing; `at` is its first token.
pub fn empty_line(env: &mut Environment, at: u32, specifiers: &[Spec]) -> Result<(), AllocError>
    ensures { Gives (tags.empty_line at specifiers.now env.old) result env.new }
{
    if any_anonymous(specifiers) {
        env.hold(at, Rule::OutOfProfile)
    } else {
        env.refuse(at, Rule::TypeError)
    }
}

/// Ends the body of a struct or union, of the tag and the struct of these numbers.
pub fn end_body(
    alloc: Global,
    env: &mut Environment,
    at: u32,
    tag: u32,
    id: u32,
    is_union: bool,
    members: Items<Collected>,
) -> Result<(), AllocError>
    ensures { Gives (tags.ended_body at tag id is_union members env.old) result env.new }
{
    hold_if(env, !any_named(members.as_slice()), at)?;
    env.complete(alloc, id, is_union, members.as_slice())?;
    env.set_body(Body::Closed, tag);
    Ok(())
}

// ---- enumerators

fn is_int_value(v: i128) -> bool
    ensures { result ≡ (int_le (neg_ℤ (pos (2 ^ 31))) v && int_le v (pos (2 ^ 31 - 1))) }
{
    -0x8000_0000 <= v && v <= 0x7fff_ffff
}

fn no_value(env: &mut Environment, at: u32) -> Result<i128, AllocError>
    ensures { Gives (spec.no_value at env.old) result env.new }
{
    env.refuse(at, Rule::TypeError)?;
    Ok(0)
}

/// The value of an enumerator, which is one of int's; `at` is its expression's first token, or its name.
pub fn enumerator(env: &mut Environment, at: u32, constant: Constant) -> Result<i128, AllocError>
    ensures { Gives (spec.enumerator_by at constant env.old) result env.new }
{
    match constant {
        Constant::Number(v) => {
            if is_int_value(v) {
                Ok(v)
            } else {
                no_value(env, at)
            }
        }
        Constant::Faulty => Ok(0),
        Constant::Undefined | Constant::Variable | Constant::OfOtherType => no_value(env, at),
    }
}

/// Declares an enumerator by the token of its name. Naming it uses the declaration of its body.
pub fn declare_enumerator(
    env: &mut Environment,
    token: u32,
    value: i128,
    declaration: u32,
) -> Result<(), AllocError>
    ensures { Gives (tags.enumerator_at token value declaration env.old) result env.new }
{
    match env.name_at(token) {
        Some(name) => env.bind(token, name, Entity::Enumerator(value), declaration),
        None => Ok(()),
    }
}
