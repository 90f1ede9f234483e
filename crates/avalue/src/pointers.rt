//! Offsets by base.

ghost use Rattle.std.specs.Prelude.{◌≡◌, ◌≤◌, ◌<◌, ◌∷◌, ◌++◌, ℕ, List, IfOk, not};
ghost use Rattle.std.specs.List.{All, filter, list_any};
ghost use Rattle.ival.specs.declared.forms.Ival.{Ival};
ghost use Rattle.ival.specs.Forms.{HasEnds, IsWellFormed};
ghost use Rattle.ival.specs.SetOperations.{join_of};
ghost use Rattle.avalue.specs.Pointers as spec;

use crate::error::Memory;
use ival::Ival;
use sqlite_items::Items;
use std::alloc::Global;

/// What the offsets of a base that both sides have become.
pub trait Rule {
    /// The offsets that it takes, beside that there are some.
    ghost takes: { Self → Ival → Type 0 };

    ghost of: { Self → Ival → Ival → Ival };

    fn apply(&self, x: &Ival, y: &Ival) -> Ival
        requires left { HasEnds x.now }
        requires right { HasEnds y.now }
        requires left_fits { takes self.now x.now }
        requires right_fits { takes self.now y.now }
        ensures value { result ≡ of self.now x.now y.now }
        ensures ends { HasEnds result };
}

/// Two lists of offsets as one, by a rule where both have a base.
pub fn merge<R: Rule>(
    alloc: Global,
    rule: &R,
    a: &[(u32, Ival)],
    b: &[(u32, Ival)],
) -> Result<Items<(u32, Ival)>, Memory>
    requires left { spec.ArePointers a.now }
    requires right { spec.ArePointers b.now }
    requires left_fits { All (λ p. R.takes rule.now p.1) a.now }
    requires right_fits { All (λ p. R.takes rule.now p.1) b.now }
    ensures combined { IfOk result (λ both. spec.AreCombined (R.of rule.now) a.now b.now both) }
{
    let mut both = Vec::new(alloc);
    let mut i = 0;
    let mut j = 0;
    'heads: while i < a.len() && j < b.len() {
        let (p, q) = (a[i], b[j]);
        if p.0 < q.0 {
            both.push(p)?;
            i += 1;
        } else if q.0 < p.0 {
            both.push(q)?;
            j += 1;
        } else {
            both.push((p.0, rule.apply(&p.1, &q.1)))?;
            i += 1;
            j += 1;
        }
    }
    both.extend_from_slice(&a[i..])?;
    both.extend_from_slice(&b[j..])?;
    Ok(Items::from_vec(both))
}

/// The offsets of a base; `Empty` where there are none.
fn offsets_at(mut ptrs: &[(u32, Ival)], base: u32) -> Ival
    requires { All spec.IsPointer ptrs.now }
    ensures value { result ≡ spec.offsets_at ptrs.now base }
    ensures formed { IsWellFormed result }
{
    while let [p, rest @ ..] = ptrs {
        if p.0 == base {
            return p.1;
        }
        ptrs = rest;
    }
    Ival::Empty
}

/// Whether each base's offsets are among those of the other side.
pub fn included(a: &[(u32, Ival)], b: &[(u32, Ival)]) -> bool
    requires left { spec.ArePointers a.now }
    requires right { spec.ArePointers b.now }
    ensures { result ≡ spec.pointers_included a.now b.now }
{
    for p in a {
        if !p.1.included(&offsets_at(b, p.0)) {
            return false;
        }
    }
    true
}

/// Whether the base of a pointer is one of these.
fn is_listed(bases: &[u32], p: &(u32, Ival)) -> bool
    ensures { result ≡ spec.is_listed bases.now p.now }
{
    bases.contains(&p.0)
}

/// The pointers to other bases than these.
pub fn without(
    alloc: Global,
    ptrs: &[(u32, Ival)],
    bases: &[u32],
) -> Result<Items<(u32, Ival)>, Memory>
    ensures { IfOk result (λ kept. kept ≡ filter (λ p. not (spec.is_listed bases.now p)) ptrs.now) }
{
    let mut kept = Items::new(alloc);
    for p in ptrs {
        if !is_listed(bases, p) {
            kept.push(*p)?;
        }
    }
    Ok(kept)
}

/// Whether there is a pointer to one of these bases.
pub fn has_listed(mut ptrs: &[(u32, Ival)], bases: &[u32]) -> bool
    ensures { result ≡ list_any (spec.is_listed bases.now) ptrs.now }
{
    while let [p, rest @ ..] = ptrs {
        if is_listed(bases, p) {
            return true;
        }
        ptrs = rest;
    }
    false
}
