//! Pointers that convert to each other, and null pointer constants (C11 6.3.2.3).

ghost use Rattle.std.specs.Prelude.{◌≡◌};
ghost use Rattle.elab_rules.specs.Conversions as spec;

use crate::constants::constant_value;
use crate::forms::is_null;
use crate::sorts::{is_function, is_void};
use elab_environment::Constant;
use elab_rules::Operand;
use elab_types::{Likeness, Qualifiers, SourceType, alike, same_qualifiers};

/// Whether two types are the same but for qualifiers, at every level.
pub fn same_but_qualifiers(t: &SourceType, u: &SourceType) -> bool
    ensures { result ≡ spec.same_but_qualifiers t.now u.now }
{
    alike(Likeness::ButForQualifiers, t, u)
}

/// Whether a pointer to one type converts to a pointer to another without a cast.
pub fn converts_silently(from: &SourceType, to: &SourceType) -> bool
    ensures { result ≡ spec.converts_silently from.now to.now }
{
    let out_of_void = is_void(from) && !is_function(to);
    let to_void = is_void(to) && !is_function(from);
    same_but_qualifiers(from, to) || (out_of_void || to_void)
}

fn is_zero(c: Constant) -> bool
    ensures { result ≡ spec.is_zero c }
{
    match c {
        Constant::Number(v) => v == 0,
        Constant::Undefined | Constant::Variable => false,
        Constant::OfOtherType | Constant::Faulty => false,
    }
}

fn is_plain_void(t: &SourceType) -> bool
    ensures { result ≡ spec.is_plain_void t.now }
{
    match t {
        SourceType::Void(q) => same_qualifiers(*q, Qualifiers::NONE),
        SourceType::Int(_, _) | SourceType::Pointer(_, _) | SourceType::Array(_, _) => false,
        SourceType::Struct(_, _) | SourceType::Function(_, _, _) => false,
        SourceType::Floating(_) | SourceType::Faulty => false,
    }
}

fn is_plain_void_pointer(t: &SourceType) -> bool
    ensures { result ≡ spec.is_plain_void_pointer t.now }
{
    match t {
        SourceType::Pointer(to, _) => is_plain_void(to.get()),
        SourceType::Void(_) | SourceType::Int(_, _) | SourceType::Array(_, _) => false,
        SourceType::Struct(_, _) | SourceType::Function(_, _, _) => false,
        SourceType::Floating(_) | SourceType::Faulty => false,
    }
}

/// Whether an operand is an integer constant expression with the value 0, or such a one cast to `void *`.
#[tactic(auto, unfolding(elab_rules::specs::Conversions::is_null_constant))]
pub fn is_null_constant(x: &Operand) -> bool
    ensures { result ≡ spec.is_null_constant x.now }
{
    if is_null(&x.form) {
        is_plain_void_pointer(&x.ty)
    } else {
        is_zero(constant_value(x))
    }
}
