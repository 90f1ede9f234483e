//! The sorts of types (C11 6.2.5).

ghost use Rattle.std.specs.Prelude.{◌≡◌};
ghost use Rattle.elab_rules.specs.Bodies as bodies;
ghost use Rattle.elab_rules.specs.Sorts as spec;
ghost use Rattle.elab_rules.specs.Specifiers as specifiers;

use elab_types::{Extent, SourceType};

/// Whether a type is a function type.
#[tactic(auto, unfolding(elab_rules::specs::Sorts::is_function))]
pub fn is_function(t: &SourceType) -> bool
    ensures { result ≡ spec.is_function t.now }
{
    match t {
        SourceType::Function(_, _, _) => true,
        SourceType::Void(_) | SourceType::Int(_, _) | SourceType::Pointer(_, _) => false,
        SourceType::Array(_, _) | SourceType::Struct(_, _) => false,
        SourceType::Floating(_) | SourceType::Faulty => false,
    }
}

/// Whether a type stands for what broke a rule.
#[tactic(auto, unfolding(elab_rules::specs::Sorts::is_faulty))]
pub fn is_faulty(t: &SourceType) -> bool
    ensures { result ≡ spec.is_faulty t.now }
{
    match t {
        SourceType::Faulty => true,
        SourceType::Void(_) | SourceType::Int(_, _) | SourceType::Pointer(_, _) => false,
        SourceType::Array(_, _) | SourceType::Struct(_, _) => false,
        SourceType::Function(_, _, _) | SourceType::Floating(_) => false,
    }
}

/// Whether `restrict` may qualify a type.
#[tactic(auto, unfolding(elab_rules::specs::Specifiers::takes_restrict))]
pub fn takes_restrict(t: &SourceType) -> bool
    ensures { result ≡ specifiers.takes_restrict t.now }
{
    match t {
        SourceType::Pointer(to, _) => !is_function(to.get()),
        SourceType::Faulty => true,
        SourceType::Void(_) | SourceType::Int(_, _) | SourceType::Function(_, _, _) => false,
        SourceType::Array(_, _) | SourceType::Struct(_, _) | SourceType::Floating(_) => false,
    }
}

/// Whether `volatile` may qualify a type as a whole.
#[tactic(auto, unfolding(elab_rules::specs::Specifiers::takes_volatile))]
pub fn takes_volatile(t: &SourceType) -> bool
    ensures { result ≡ specifiers.takes_volatile t.now }
{
    match t {
        SourceType::Pointer(_, _) | SourceType::Array(_, _) | SourceType::Struct(_, _) => false,
        SourceType::Void(_) | SourceType::Int(_, _) | SourceType::Function(_, _, _) => true,
        SourceType::Floating(_) | SourceType::Faulty => true,
    }
}

fn is_variable(n: Extent) -> bool
    ensures { result ≡ bodies.is_variable n }
{
    match n {
        Extent::Variable => true,
        Extent::Unknown | Extent::Length(_) => false,
    }
}

/// Whether a type is an array whose length isn't constant, or is derived from one.
#[tactic(auto, using(crate::proofs::VariableEquations::variable_equations))]
pub fn is_variably_modified(t: &SourceType) -> bool
    ensures { result ≡ bodies.is_variably_modified t.now }
{
    match t {
        SourceType::Pointer(to, _) => is_variably_modified(to.get()),
        SourceType::Array(element, n) => is_variable(*n) || is_variably_modified(element.get()),
        SourceType::Function(result, _, _) => is_variably_modified(result.get()),
        SourceType::Void(_) | SourceType::Int(_, _) | SourceType::Struct(_, _) => false,
        SourceType::Floating(_) | SourceType::Faulty => false,
    }
}
