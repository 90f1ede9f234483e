//! Promotions and usual conversions (C11 6.3.1.1, 6.3.1.8).

ghost use Rattle.std.specs.Prelude.{◌≡◌, IfOk};
ghost use Rattle.elab_rules.specs.Conversions as spec;

use crate::forms::{faulty, int_type, is_null, null_of, operand};
use crate::sorts::{is_pointer, is_unusable, kind_of};
use c_types::{IntKind, is_signed, usual};
use elab_rules::{Form, Operand};
use elab_types::{Likeness, SourceType, alike, unqualified};
use sqlite_items::Boxed;
use std::alloc::{AllocError, Global};

fn cast_to(alloc: Global, t: SourceType, x: Operand) -> Result<Operand, AllocError>
    ensures { IfOk result (λ y. y ≡ spec.cast_to t x) }
{
    if is_null(&x.form) && is_pointer(&t) {
        return Ok(null_of(t));
    }
    if alike(Likeness::Compatible, &x.ty, &t) {
        return Ok(x);
    }
    Ok(operand(t, Form::Cast(Boxed::new(alloc, x)?)))
}

/// A conversion that is allowed, to the unqualified version of a type. The same type needs no cast, and null stays null.
#[tactic(auto, unfolding(elab_rules::specs::Conversions::converted))]
pub fn converted(alloc: Global, t: SourceType, x: Operand) -> Result<Operand, AllocError>
    ensures { IfOk result (λ y. y ≡ spec.converted t x) }
{
    if is_unusable(&t) || is_unusable(&x.ty) {
        Ok(faulty())
    } else {
        Ok(cast_to(alloc, unqualified(t), x)?)
    }
}

fn int_holds(kind: IntKind, bits: u32) -> bool
    ensures { result ≡ spec.int_holds kind bits }
{
    if is_signed(kind) {
        bits <= 32
    } else {
        bits < 32
    }
}

/// What a value of an integer type promotes to, which may be that of a bit-field of a width.
pub fn promoted_by(kind: IntKind, bits: Option<u32>) -> IntKind
    ensures { result ≡ spec.promoted_by kind bits }
{
    match bits {
        Some(bits) => if int_holds(kind, bits) {
            IntKind::Int
        } else {
            c_types::promote(kind)
        },
        None => c_types::promote(kind),
    }
}

/// What an operand of an integer type promotes to. A bit-field becomes an int where int holds its range.
pub fn promoted_kind(kind: IntKind, x: &Operand) -> IntKind
    ensures { result ≡ spec.promoted_kind kind x.now }
{
    promoted_by(kind, x.bits)
}

/// The promoted operand; one of no integer type stays.
#[tactic(auto, unfolding(elab_rules::specs::Conversions::promote))]
pub fn promote(alloc: Global, x: Operand) -> Result<Operand, AllocError>
    ensures { IfOk result (λ y. y ≡ spec.promote x) }
{
    match kind_of(&x.ty) {
        Some(kind) => {
            let to = promoted_kind(kind, &x);
            Ok(converted(alloc, int_type(to), x)?)
        }
        None => Ok(x),
    }
}

/// The common type of two operands of these integer types.
pub fn usual_kind(k: IntKind, x: &Operand, l: IntKind, y: &Operand) -> IntKind
    ensures { result ≡ spec.usual_kind k x.now l y.now }
{
    usual(promoted_kind(k, x), promoted_kind(l, y))
}
