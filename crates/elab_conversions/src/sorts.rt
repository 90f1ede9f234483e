//! The sorts of types (C11 6.2.5).

ghost use Rattle.std.specs.Prelude.{◌≡◌, IfOk};
ghost use Rattle.std.specs.Option.{option_copied};
ghost use Rattle.elab_rules.specs.Sorts as spec;
ghost use Rattle.elab_rules.specs.Operands as operands;
ghost use Rattle.elab_rules.specs.Conversions as conversions;

use c_types::{IntKind, StructId};
use elab_rules::Sort;
use elab_types::{SourceType, copy_source, same_kind};
use std::alloc::{AllocError, Global};

/// What the rules on values ask of a type first.
pub fn sort_of(alloc: Global, t: &SourceType) -> Result<Sort, AllocError>
    ensures { IfOk result (λ s. s ≡ operands.sort_of t.now) }
{
    match t {
        SourceType::Void(_) => Ok(Sort::Void),
        SourceType::Int(kind, _) => Ok(Sort::Integer(*kind)),
        SourceType::Pointer(to, _) => Ok(Sort::Pointer(copy_source(alloc, to.get())?)),
        SourceType::Struct(id, _) => Ok(Sort::Struct(*id)),
        SourceType::Array(_, _) | SourceType::Function(_, _, _) => Ok(Sort::Other),
        SourceType::Floating(_) | SourceType::Faulty => Ok(Sort::Other),
    }
}

/// Whether an expression of the type can't be used: it broke a rule, or has a floating type.
#[tactic(auto, unfolding(elab_rules::specs::Sorts::is_unusable))]
pub fn is_unusable(t: &SourceType) -> bool
    ensures { result ≡ spec.is_unusable t.now }
{
    match t {
        SourceType::Floating(_) | SourceType::Faulty => true,
        SourceType::Void(_) | SourceType::Int(_, _) | SourceType::Pointer(_, _) => false,
        SourceType::Array(_, _) | SourceType::Struct(_, _) => false,
        SourceType::Function(_, _, _) => false,
    }
}

/// Whether it is the type of what broke a rule.
#[tactic(auto, unfolding(elab_rules::specs::Sorts::is_faulty))]
pub fn is_faulty(t: &SourceType) -> bool
    ensures { result ≡ spec.is_faulty t.now }
{
    match t {
        SourceType::Faulty => true,
        SourceType::Void(_) | SourceType::Int(_, _) | SourceType::Pointer(_, _) => false,
        SourceType::Array(_, _) | SourceType::Struct(_, _) => false,
        SourceType::Function(_, _, _) | SourceType::Floating(_) => false,
    }
}

/// The integer type.
#[tactic(auto, unfolding(elab_rules::specs::Sorts::kind_of))]
pub fn kind_of(t: &SourceType) -> Option<IntKind>
    ensures { result ≡ spec.kind_of t.now }
{
    match t {
        SourceType::Int(kind, _) => Some(*kind),
        SourceType::Void(_) | SourceType::Pointer(_, _) | SourceType::Array(_, _) => None,
        SourceType::Struct(_, _) | SourceType::Function(_, _, _) => None,
        SourceType::Floating(_) | SourceType::Faulty => None,
    }
}

/// What a pointer points to.
#[tactic(auto, unfolding(elab_rules::specs::Sorts::pointee_of))]
pub fn pointee_of(t: &SourceType) -> Option<&SourceType>
    ensures { option_copied result ≡ spec.pointee_of t.now }
{
    match t {
        SourceType::Pointer(to, _) => Some(to.get()),
        SourceType::Void(_) | SourceType::Int(_, _) | SourceType::Array(_, _) => None,
        SourceType::Struct(_, _) | SourceType::Function(_, _, _) => None,
        SourceType::Floating(_) | SourceType::Faulty => None,
    }
}

/// The elements of an array.
pub fn element_of(t: &SourceType) -> Option<&SourceType>
    ensures { option_copied result ≡ operands.element_of t.now }
{
    match t {
        SourceType::Array(element, _) => Some(element.get()),
        SourceType::Void(_) | SourceType::Int(_, _) | SourceType::Pointer(_, _) => None,
        SourceType::Struct(_, _) | SourceType::Function(_, _, _) => None,
        SourceType::Floating(_) | SourceType::Faulty => None,
    }
}

/// The number of a struct or union.
#[tactic(auto, unfolding(elab_rules::specs::Sorts::struct_of))]
pub fn struct_of(t: &SourceType) -> Option<StructId>
    ensures { result ≡ spec.struct_of t.now }
{
    match t {
        SourceType::Struct(id, _) => Some(*id),
        SourceType::Void(_) | SourceType::Int(_, _) | SourceType::Pointer(_, _) => None,
        SourceType::Array(_, _) | SourceType::Function(_, _, _) => None,
        SourceType::Floating(_) | SourceType::Faulty => None,
    }
}

#[tactic(auto, unfolding(elab_rules::specs::Sorts::is_void))]
pub fn is_void(t: &SourceType) -> bool
    ensures { result ≡ spec.is_void t.now }
{
    match t {
        SourceType::Void(_) => true,
        SourceType::Int(_, _) | SourceType::Pointer(_, _) | SourceType::Array(_, _) => false,
        SourceType::Struct(_, _) | SourceType::Function(_, _, _) => false,
        SourceType::Floating(_) | SourceType::Faulty => false,
    }
}

#[tactic(auto, unfolding(elab_rules::specs::Sorts::is_function))]
pub fn is_function(t: &SourceType) -> bool
    ensures { result ≡ spec.is_function t.now }
{
    match t {
        SourceType::Function(_, _, _) => true,
        SourceType::Void(_) | SourceType::Int(_, _) | SourceType::Pointer(_, _) => false,
        SourceType::Array(_, _) | SourceType::Struct(_, _) => false,
        SourceType::Floating(_) | SourceType::Faulty => false,
    }
}

/// Whether it is an integer or pointer type (C11 6.2.5p21).
#[tactic(auto, unfolding(elab_rules::specs::Sorts::is_scalar))]
pub fn is_scalar(t: &SourceType) -> bool
    ensures { result ≡ spec.is_scalar t.now }
{
    match t {
        SourceType::Int(_, _) | SourceType::Pointer(_, _) => true,
        SourceType::Void(_) | SourceType::Array(_, _) | SourceType::Struct(_, _) => false,
        SourceType::Function(_, _, _) => false,
        SourceType::Floating(_) | SourceType::Faulty => false,
    }
}

pub fn is_pointer(t: &SourceType) -> bool
    ensures { result ≡ operands.is_pointer t.now }
{
    match t {
        SourceType::Pointer(_, _) => true,
        SourceType::Void(_) | SourceType::Int(_, _) | SourceType::Array(_, _) => false,
        SourceType::Struct(_, _) | SourceType::Function(_, _, _) => false,
        SourceType::Floating(_) | SourceType::Faulty => false,
    }
}

pub fn is_bool(kind: IntKind) -> bool
    ensures { result ≡ conversions.is_bool kind }
{
    same_kind(kind, IntKind::Bool)
}
