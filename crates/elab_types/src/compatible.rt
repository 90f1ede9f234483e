ghost use Rattle.std.specs.Prelude.{◌≡◌, ◌&&◌};
ghost use Rattle.elab_types.specs.Compatible as spec;

use crate::types::{Extent, Qualifiers, SourceType};
use c_types::IntKind;

fn same(a: bool, b: bool) -> bool
    ensures { result ≡ spec.same a b }
{
    if a { b } else { !b }
}

fn all(a: bool, b: bool, c: bool) -> bool
    ensures { result ≡ (a && (b && c)) }
{
    a && b && c
}

fn kind_number(kind: IntKind) -> u32
    ensures { result ≡ spec.kind_number kind }
{
    match kind {
        IntKind::Bool => 0,
        IntKind::Char => 1,
        IntKind::SChar => 2,
        IntKind::UChar => 3,
        IntKind::Short => 4,
        IntKind::UShort => 5,
        IntKind::Int => 6,
        IntKind::UInt => 7,
        IntKind::Long => 8,
        IntKind::ULong => 9,
        IntKind::LongLong => 10,
        IntKind::ULongLong => 11,
    }
}

pub fn same_kind(k: IntKind, l: IntKind) -> bool
    ensures { result ≡ spec.same_kind k l }
{
    kind_number(k) == kind_number(l)
}

pub fn same_qualifiers(p: Qualifiers, q: Qualifiers) -> bool
    ensures { result ≡ spec.same_qualifiers p q }
{
    same(p.is_const, q.is_const)
        && (same(p.is_volatile, q.is_volatile) && same(p.is_restrict, q.is_restrict))
}

/// How much alike two types are.
#[derive(Clone, Copy, Debug, Drop, PartialEq, Eq)]
pub enum Likeness {
    /// They are compatible (C11 6.2.7).
    Compatible,
    /// They are compatible but for qualifiers, at every level.
    ButForQualifiers,
    /// They are one type (C11 6.7p3), whose lengths are constants.
    Same,
}

fn agree(likeness: Likeness, p: Qualifiers, q: Qualifiers) -> bool
    ensures { result ≡ spec.agree likeness p q }
{
    match likeness {
        Likeness::ButForQualifiers => true,
        Likeness::Compatible | Likeness::Same => same_qualifiers(p, q),
    }
}

/// Whether two array types may have one length.
fn same_extent(likeness: Likeness, m: Extent, n: Extent) -> bool
    ensures { result ≡ spec.same_extent likeness m n }
{
    match m {
        Extent::Length(m) => match n {
            Extent::Length(n) => m == n,
            Extent::Unknown | Extent::Variable => !is_same(likeness),
        },
        Extent::Unknown => match n {
            Extent::Unknown => true,
            Extent::Length(_) | Extent::Variable => !is_same(likeness),
        },
        Extent::Variable => !is_same(likeness),
    }
}

fn is_same(likeness: Likeness) -> bool
    ensures { result ≡ spec.is_same likeness }
{
    match likeness {
        Likeness::Same => true,
        Likeness::Compatible | Likeness::ButForQualifiers => false,
    }
}

/// Whether two types are so much alike. What broke a rule is alike to everything.
#[cycle(alike)]
#[tactic(auto, using(crate::proofs::Equations::alike_equations))]
pub fn alike(likeness: Likeness, a: &SourceType, b: &SourceType) -> bool
    ensures { result ≡ spec.alike likeness a.now b.now }
{
    match a {
        SourceType::Void(p) => match b {
            SourceType::Void(q) => agree(likeness, *p, *q),
            SourceType::Faulty => true,
            SourceType::Int(_, _)
            | SourceType::Pointer(_, _)
            | SourceType::Array(_, _)
            | SourceType::Struct(_, _)
            | SourceType::Function(_, _, _)
            | SourceType::Floating(_) => false,
        },
        SourceType::Int(k, p) => match b {
            SourceType::Int(l, q) => same_kind(*k, *l) && agree(likeness, *p, *q),
            SourceType::Faulty => true,
            SourceType::Void(_)
            | SourceType::Pointer(_, _)
            | SourceType::Array(_, _)
            | SourceType::Struct(_, _)
            | SourceType::Function(_, _, _)
            | SourceType::Floating(_) => false,
        },
        SourceType::Pointer(t, p) => match b {
            SourceType::Pointer(u, q) => agree(likeness, *p, *q)
                && alike(likeness, t.get(), u.get()),
            SourceType::Faulty => true,
            SourceType::Void(_)
            | SourceType::Int(_, _)
            | SourceType::Array(_, _)
            | SourceType::Struct(_, _)
            | SourceType::Function(_, _, _)
            | SourceType::Floating(_) => false,
        },
        SourceType::Array(t, m) => match b {
            SourceType::Array(u, n) => same_extent(likeness, *m, *n)
                && alike(likeness, t.get(), u.get()),
            SourceType::Faulty => true,
            SourceType::Void(_)
            | SourceType::Int(_, _)
            | SourceType::Pointer(_, _)
            | SourceType::Struct(_, _)
            | SourceType::Function(_, _, _)
            | SourceType::Floating(_) => false,
        },
        SourceType::Struct(s, p) => match b {
            SourceType::Struct(t, q) => s.0 == t.0 && agree(likeness, *p, *q),
            SourceType::Faulty => true,
            SourceType::Void(_)
            | SourceType::Int(_, _)
            | SourceType::Pointer(_, _)
            | SourceType::Array(_, _)
            | SourceType::Function(_, _, _)
            | SourceType::Floating(_) => false,
        },
        SourceType::Function(t, xs, v) => match b {
            SourceType::Function(u, ys, w) => {
                let results = alike(likeness, t.get(), u.get());
                let params = all_alike(likeness, xs.as_slice(), ys.as_slice());
                all(same(*v, *w), results, params)
            }
            SourceType::Faulty => true,
            SourceType::Void(_)
            | SourceType::Int(_, _)
            | SourceType::Pointer(_, _)
            | SourceType::Array(_, _)
            | SourceType::Struct(_, _)
            | SourceType::Floating(_) => false,
        },
        SourceType::Floating(p) => match b {
            SourceType::Floating(q) => agree(likeness, *p, *q),
            SourceType::Faulty => true,
            SourceType::Void(_)
            | SourceType::Int(_, _)
            | SourceType::Pointer(_, _)
            | SourceType::Array(_, _)
            | SourceType::Struct(_, _)
            | SourceType::Function(_, _, _) => false,
        },
        SourceType::Faulty => match b {
            SourceType::Faulty
            | SourceType::Void(_)
            | SourceType::Int(_, _)
            | SourceType::Pointer(_, _)
            | SourceType::Array(_, _)
            | SourceType::Struct(_, _)
            | SourceType::Function(_, _, _)
            | SourceType::Floating(_) => true,
        },
    }
}

#[cycle(alike)]
#[tactic(auto, using(crate::proofs::Equations::alike_equations))]
fn all_alike(likeness: Likeness, xs: &[SourceType], ys: &[SourceType]) -> bool
    ensures { result ≡ spec.all_alike likeness xs.now ys.now }
{
    let mut left = ys;
    for x in xs {
        match left {
            [] => return false,
            [y, rest @ ..] => {
                if !alike(likeness, x, y) {
                    return false;
                }
                left = rest;
            }
        }
    }
    left.is_empty()
}
