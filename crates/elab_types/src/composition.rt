//! Composite types (C11 6.2.7p3).

ghost use Rattle.std.specs.Prelude.{◌≡◌, IfOk};
ghost use Rattle.elab_types.specs.Composite as spec;

use crate::copy::copy_source;
use crate::types::{Extent, SourceType};
use sqlite_items::{Boxed, Items};
use std::alloc::{AllocError, Global};

fn known_extent(m: Extent, n: Extent) -> Extent
    ensures { result ≡ spec.known_extent m n }
{
    match m {
        Extent::Length(m) => Extent::Length(m),
        Extent::Variable => match n {
            Extent::Length(n) => Extent::Length(n),
            Extent::Unknown | Extent::Variable => Extent::Variable,
        },
        Extent::Unknown => n,
    }
}

/// The composite of two compatible types: with each length that one of them has. Of other types it is the second.
#[cycle(composing)]
#[tactic(auto, using(crate::proofs::CompositeEquations::composite_equations))]
pub fn composite(alloc: Global, t: &SourceType, u: &SourceType) -> Result<SourceType, AllocError>
    ensures { IfOk result (λ c. c ≡ spec.composite t.now u.now) }
{
    match t {
        SourceType::Pointer(t, _) => match u {
            SourceType::Pointer(u, q) => Ok(SourceType::Pointer(
                Boxed::new(alloc, composite(alloc, t.get(), u.get())?)?,
                *q,
            )),
            SourceType::Void(_) | SourceType::Int(_, _) | SourceType::Array(_, _) => copy_source(
                alloc, u,
            ),
            SourceType::Struct(_, _) | SourceType::Function(_, _, _) => copy_source(alloc, u),
            SourceType::Floating(_) | SourceType::Faulty => copy_source(alloc, u),
        },
        SourceType::Array(t, m) => match u {
            SourceType::Array(u, n) => Ok(SourceType::Array(
                Boxed::new(alloc, composite(alloc, t.get(), u.get())?)?,
                known_extent(*m, *n),
            )),
            SourceType::Void(_) | SourceType::Int(_, _) | SourceType::Pointer(_, _) => copy_source(
                alloc, u,
            ),
            SourceType::Struct(_, _) | SourceType::Function(_, _, _) => copy_source(alloc, u),
            SourceType::Floating(_) | SourceType::Faulty => copy_source(alloc, u),
        },
        SourceType::Function(t, xs, _) => match u {
            SourceType::Function(u, ys, variadic) => {
                let result = Boxed::new(alloc, composite(alloc, t.get(), u.get())?)?;
                let params = all_composite(alloc, xs.as_slice(), ys.as_slice())?;
                Ok(SourceType::Function(result, params, *variadic))
            }
            SourceType::Void(_) | SourceType::Int(_, _) | SourceType::Pointer(_, _) => copy_source(
                alloc, u,
            ),
            SourceType::Array(_, _) | SourceType::Struct(_, _) => copy_source(alloc, u),
            SourceType::Floating(_) | SourceType::Faulty => copy_source(alloc, u),
        },
        SourceType::Void(_) | SourceType::Int(_, _) | SourceType::Struct(_, _) => copy_source(
            alloc, u,
        ),
        SourceType::Floating(_) | SourceType::Faulty => copy_source(alloc, u),
    }
}

#[cycle(composing)]
fn all_composite(
    alloc: Global,
    xs: &[SourceType],
    ys: &[SourceType],
) -> Result<Items<SourceType>, AllocError>
    ensures { IfOk result (λ cs. cs ≡ spec.all_composite xs.now ys.now) }
{
    let mut composed = Items::new(alloc);
    let mut left = ys;
    for x in xs {
        match left {
            [] => return Ok(composed),
            [y, rest @ ..] => {
                composed.push(composite(alloc, x, y)?)?;
                left = rest;
            }
        }
    }
    Ok(composed)
}
