ghost use Rattle.std.specs.Prelude.{◌≡◌, IfOk};
ghost use Rattle.elab_types.specs.Qualified as spec;
ghost use Rattle.elab_types.specs.Translated as translated;

use crate::types::{Extent, Qualifiers, SourceType};
use c_types::CType;
use sqlite_items::Boxed;
use std::alloc::{AllocError, Global};

impl Qualifiers {
    pub const NONE: Qualifiers = Qualifiers {
        is_const: false,
        is_volatile: false,
        is_restrict: false,
    };

    /// The qualifiers of both.
    pub fn and(self, other: Qualifiers) -> Qualifiers
        ensures { result ≡ spec.both self other }
    {
        Qualifiers {
            is_const: self.is_const || other.is_const,
            is_volatile: self.is_volatile || other.is_volatile,
            is_restrict: self.is_restrict || other.is_restrict,
        }
    }
}

/// The qualifiers of a type; of an array those of its elements (C11 6.7.3p9).
#[tactic(auto, using(crate::proofs::Equations::qualifiers_equations))]
pub fn qualifiers(t: &SourceType) -> Qualifiers
    ensures { result ≡ spec.qualifiers_of t.now }
{
    match t {
        SourceType::Void(q)
        | SourceType::Int(_, q)
        | SourceType::Pointer(_, q)
        | SourceType::Struct(_, q) => *q,
        SourceType::Floating(q) => *q,
        SourceType::Array(element, _) => qualifiers(element.get()),
        SourceType::Function(_, _, _) | SourceType::Faulty => Qualifiers::NONE,
    }
}

/// The type with further qualifiers.
#[tactic(auto, using(crate::proofs::Equations::qualified_equations))]
pub fn qualified(alloc: Global, p: Qualifiers, t: SourceType) -> Result<SourceType, AllocError>
    ensures { IfOk result (λ u. u ≡ spec.qualified p t) }
{
    match t {
        SourceType::Void(q) => Ok(SourceType::Void(p.and(q))),
        SourceType::Int(kind, q) => Ok(SourceType::Int(kind, p.and(q))),
        SourceType::Pointer(to, q) => Ok(SourceType::Pointer(to, p.and(q))),
        SourceType::Array(element, n) => Ok(SourceType::Array(
            Boxed::new(alloc, qualified(alloc, p, element.into_inner())?)?,
            n,
        )),
        SourceType::Struct(id, q) => Ok(SourceType::Struct(id, p.and(q))),
        SourceType::Function(result, params, variadic) => Ok(SourceType::Function(
            result, params, variadic,
        )),
        SourceType::Floating(q) => Ok(SourceType::Floating(p.and(q))),
        SourceType::Faulty => Ok(SourceType::Faulty),
    }
}

/// The unqualified version of a type; an array keeps the qualifiers of its elements.
#[tactic(auto, using(crate::proofs::Equations::unqualified_equations))]
pub fn unqualified(t: SourceType) -> SourceType
    ensures { result ≡ spec.unqualified t }
{
    match t {
        SourceType::Void(_) => SourceType::Void(Qualifiers::NONE),
        SourceType::Int(kind, _) => SourceType::Int(kind, Qualifiers::NONE),
        SourceType::Pointer(to, _) => SourceType::Pointer(to, Qualifiers::NONE),
        SourceType::Array(element, n) => SourceType::Array(element, n),
        SourceType::Struct(id, _) => SourceType::Struct(id, Qualifiers::NONE),
        SourceType::Function(result, params, variadic) => SourceType::Function(
            result, params, variadic,
        ),
        SourceType::Floating(_) => SourceType::Floating(Qualifiers::NONE),
        SourceType::Faulty => SourceType::Faulty,
    }
}

/// The length of an array as the program keeps it, at 2^32 - 1 where it is greater.
fn kept_length(n: u64) -> u32
    ensures { result ≡ translated.kept n }
{
    if n < 0xffff_ffff {
        n as u32
    } else {
        0xffff_ffff
    }
}

fn array(alloc: Global, element: CType, n: Extent) -> Result<CType, AllocError>
    ensures { IfOk result (λ c. c ≡ translated.array_of element n) }
{
    match n {
        Extent::Length(n) => Ok(CType::Array(Boxed::new(alloc, element)?, kept_length(n))),
        Extent::Unknown | Extent::Variable => Ok(CType::Unusable),
    }
}

/// The type as the program keeps it.
#[tactic(auto, using(crate::proofs::Equations::ctype_equations))]
pub fn ctype(alloc: Global, t: &SourceType) -> Result<CType, AllocError>
    ensures { IfOk result (λ c. c ≡ translated.ctype_of t.now) }
{
    match t {
        SourceType::Void(_) => Ok(CType::Void),
        SourceType::Int(kind, q) => Ok(CType::Int {
            kind: *kind,
            volatile: q.is_volatile,
        }),
        SourceType::Pointer(to, _) => Ok(CType::Ptr(Boxed::new(alloc, ctype(alloc, to.get())?)?)),
        SourceType::Array(element, n) => array(alloc, ctype(alloc, element.get())?, *n),
        SourceType::Struct(id, _) => Ok(CType::Struct(*id)),
        SourceType::Function(_, _, _) | SourceType::Floating(_) | SourceType::Faulty => Ok(
            CType::Unusable,
        ),
    }
}
