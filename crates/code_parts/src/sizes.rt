ghost use Rattle.std.specs.Prelude.{◌≡◌, ◌≤◌, ◌+◌, ◌^◌, IfOk};
ghost use Rattle.code_parts.specs.Sizes.{has_any, crossing_size, code_size, fork_size, part_size, list_size, sized, both, either};

use crate::parts::{Code, Crossing, Fork, Part};
use sqlite_items::{Boxed, Items};
use std::alloc::{AllocError, Global};

pub fn has_any(bases: &[u32]) -> bool
    ensures { result ≡ has_any bases.now }
{
    match bases {
        [] => false,
        [_, ..] => true,
    }
}

pub(crate) fn crossing_size(c: &Crossing) -> u32
    ensures { result ≡ crossing_size c.now }
{
    u32::from(has_any(c.left.as_slice())) + u32::from(has_any(c.entered.as_slice()))
}

/// How many nodes code has.
#[tactic(auto, using(crate::proofs::SizeEquations::size_equations))]
pub fn code_size(c: &Code) -> u32
    ensures { result ≡ code_size c.now }
{
    match c {
        Code::Nothing => 0,
        Code::Parts(size, _) => *size,
    }
}

#[tactic(auto, using(crate::proofs::SizeEquations::size_equations))]
pub(crate) fn fork_size(f: &Fork) -> u64
    ensures size { result ≡ fork_size f.now }
    ensures bound { result ≤ 2 ^ 32 }
{
    match f {
        Fork::Test(c, _, _) => u64::from(code_size(c.get())) + 1,
        Fork::Not(a) => fork_size(a.get()),
        Fork::And(size, _, _) => u64::from(*size),
        Fork::Or(size, _, _) => u64::from(*size),
    }
}

#[tactic(auto, using(crate::proofs::SizeEquations::size_equations))]
pub(crate) fn part_size(p: &Part) -> u64
    ensures size { result ≡ part_size p.now }
    ensures bound { result ≤ 2 ^ 34 }
{
    match p {
        Part::Node(_, _) => 1,
        Part::Label(_) => 1,
        Part::Jump(_, crossing, _) => u64::from(crossing_size(crossing)),
        Part::Branch(f, a, b) => {
            fork_size(f.get()) + u64::from(code_size(a.get())) + u64::from(code_size(b.get()))
        }
        Part::Loop(_, f, body, last) => {
            let inside = u64::from(code_size(body.get())) + u64::from(code_size(last.get()));
            1 + fork_size(f.get()) + inside
        }
        Part::Forever(_, body, last) => {
            1 + u64::from(code_size(body.get())) + u64::from(code_size(last.get()))
        }
        Part::Do(_, body, f) => 1 + u64::from(code_size(body.get())) + fork_size(f.get()),
        Part::Switch(c) => u64::from(code_size(c.get())),
    }
}

fn narrowed(size: u64) -> Result<u32, AllocError>
    ensures { IfOk result (λ n. n ≡ size) }
{
    if size <= u64::from(u32::MAX) {
        Ok(size as u32)
    } else {
        Err(AllocError)
    }
}

/// The number behind so many nodes.
pub(crate) fn behind(at: u32, size: u64) -> Result<u32, AllocError>
    requires { size ≤ 2 ^ 34 }
    ensures { IfOk result (λ n. n ≡ at + size) }
{
    narrowed(u64::from(at) + size)
}

fn list_size(parts: &[Part]) -> Result<u32, AllocError>
    ensures { IfOk result (λ n. n ≡ list_size parts.now) }
{
    let mut size = 0;
    for p in parts {
        size = behind(size, part_size(p))?;
    }
    Ok(size)
}

/// These parts one after the other; want of memory too where they have 2^32 nodes or more.
pub fn sized(parts: Items<Part>) -> Result<Code, AllocError>
    ensures { IfOk result (λ c. c ≡ sized parts) }
{
    let size = list_size(parts.as_slice())?;
    Ok(Code::Parts(size, parts))
}

/// `a && b`; want of memory too where it has 2^32 nodes or more.
pub fn both(alloc: Global, a: Fork, b: Fork) -> Result<Fork, AllocError>
    ensures { IfOk result (λ f. f ≡ both a b) }
{
    let size = narrowed(fork_size(&a) + fork_size(&b))?;
    Ok(Fork::And(size, Boxed::new(alloc, a)?, Boxed::new(alloc, b)?))
}

/// `a || b`; want of memory too where it has 2^32 nodes or more.
pub fn either(alloc: Global, a: Fork, b: Fork) -> Result<Fork, AllocError>
    ensures { IfOk result (λ f. f ≡ either a b) }
{
    let size = narrowed(fork_size(&a) + fork_size(&b))?;
    Ok(Fork::Or(size, Boxed::new(alloc, a)?, Boxed::new(alloc, b)?))
}
