//! The described initial states of a function.

ghost use Rattle.std.specs.Prelude.{◌≡◌, ◌+◌, ◌<◌, ◌≤◌, ◌++◌, ◌^◌, length, map, replicate, flat_map, Ok, Err, MatchResult, IfOk, slice_get, All, List, [], ◌∷◌};
ghost use Rattle.program.specs.Graph.{has, lists_of, is_static};
ghost use Rattle.program.specs.Lawful.{Lawful};
ghost use Rattle.c_memory.specs.declared.cells.Cell.TheVariants.{Uninit};
ghost use Rattle.program.specs.declared.graph.Base.{Base};
ghost use Rattle.c_meaning.specs.Beginnings.{behind};
ghost use Rattle.c_meaning.specs.Begin.{begun, Tells, pick_at, picked, pointer_or_null, chosen, place_of, filled, cells_before, with_scalars, initial_cells, lives_at_entry, free_in, objects_begun, HasFewBits};
ghost use Rattle.c_meaning.specs.PlaceTypes.{HasNarrowFields};

use crate::cells::{number_cells, pointer_cells};
use crate::config::Config;
use crate::error::Memory;
use crate::execution::range_of_bits;
use crate::instructions::{enter_result, zeros};
use crate::parts::{Free, free_in};
use c_memory::{Cell, Mem, Object, overwrite};
use program::{Base, Function, Initial, Program, Scalar, Start};
use sqlite_items::{Items, at};
use std::alloc::Global;
use thiserror::Error;

/// An initial state, and how many picks it takes, those that were missing too.
#[derive(Debug, Drop)]
pub struct Begun {
    pub config: Config,
    pub used: u64,
}

/// Why there is no initial state. The number is the one that a refusal prints.
#[derive(Clone, Copy, Debug, Drop, PartialEq, Eq, Error)]
pub enum BeginStop {
    /// 1: the first pick that isn't in its range.
    #[error("pick {0} is out of range")]
    OutOfRange(u64),
    #[error("out of memory")]
    Memory,
}

/// The pick of this number; a missing one is 0.
fn pick_at(picks: &[i128], i: u64) -> i128
    ensures { result ≡ pick_at picks.now i }
{
    match at(picks, i as usize) {
        Some(pick) => *pick,
        None => 0,
    }
}

/// The pick of this number, where it lies in its range.
fn picked(picks: &[i128], i: u64, range: (i128, i128)) -> Result<i128, u64>
    ensures { result ≡ picked picks.now i range }
{
    let pick = pick_at(picks, i);
    if range.0 <= pick && pick <= range.1 {
        Ok(pick)
    } else {
        Err(i)
    }
}

fn pointer_or_null(alloc: Global, target: u32, choice: i128) -> Result<Items<Cell>, Memory>
    ensures { IfOk result (λ cells. cells ≡ pointer_or_null target choice) }
{
    if choice == 0 {
        zeros(alloc, 64)
    } else {
        Ok(pointer_cells(alloc, target, 0)?)
    }
}

/// The cells of a free scalar, and the number of the next pick; or that of a pick out of its range.
fn chosen(
    alloc: Global,
    picks: &[i128],
    i: u64,
    free: Free,
) -> Result<Result<(Items<Cell>, u64), u64>, Memory>
    requires { HasFewBits free }
    ensures { IfOk result (λ r. r ≡ chosen picks.now i free) }
{
    let Some(next) = i.checked_add(1) else {
        return Err(Memory);
    };
    match free {
        Free::Integer { bits, kind, .. } => {
            match picked(picks, i, range_of_bits(kind, bits)) {
                Ok(v) => Ok(Ok((number_cells(alloc, bits, v)?, next))),
                Err(refused) => Ok(Err(refused)),
            }
        }
        Free::Pointer { target, .. } => match target {
            None => Ok(Ok((zeros(alloc, 64)?, i))),
            Some(target) => match picked(picks, i, (0, 1)) {
                Ok(v) => Ok(Ok((pointer_or_null(alloc, target, v)?, next))),
                Err(refused) => Ok(Err(refused)),
            },
        },
    }
}

fn place_of(free: Free) -> u32
    ensures { result ≡ place_of free }
{
    match free {
        Free::Integer { at, .. } => at,
        Free::Pointer { at, .. } => at,
    }
}

/// An object's bits with its free scalars, and the number of the next pick; or that of a pick out of
/// its range.
fn filled(
    alloc: Global,
    picks: &[i128],
    mut i: u64,
    mut scalars: &[Free],
    mut cells: Items<Cell>,
) -> Result<Result<(Items<Cell>, u64), u64>, Memory>
    requires { All HasFewBits scalars.now }
    ensures { IfOk result (λ r. r ≡ filled picks.now i scalars.entry.now cells) }
{
    while let [free, rest @ ..] = scalars {
        match chosen(alloc, picks, i, *free)? {
            Ok((new, next)) => {
                overwrite(&mut cells, place_of(*free) as usize, new.as_slice());
                i = next;
            }
            Err(refused) => return Ok(Err(refused)),
        }
        scalars = rest;
    }
    Ok(Ok((cells, i)))
}

fn initial_cells(alloc: Global, bits: u32, value: Initial) -> Result<Items<Cell>, Memory>
    ensures { IfOk result (λ cells. cells ≡ initial_cells bits value) }
{
    match value {
        Initial::Number(v) => Ok(number_cells(alloc, bits, v)?),
        Initial::Address(base, offset) => Ok(pointer_cells(alloc, base, offset)?),
    }
}

/// Bits with the given scalars written over them.
fn with_scalars(
    alloc: Global,
    mut scalars: &[Scalar],
    mut cells: Items<Cell>,
) -> Result<Items<Cell>, Memory>
    ensures { IfOk result (λ after. after ≡ with_scalars scalars.entry.now cells) }
{
    while let [scalar, rest @ ..] = scalars {
        let new = initial_cells(alloc, scalar.bits, scalar.value)?;
        overwrite(&mut cells, scalar.at as usize, new.as_slice());
        scalars = rest;
    }
    Ok(cells)
}

fn uninitialised(alloc: Global, n: u32) -> Result<Items<Cell>, Memory>
    ensures { IfOk result (λ cells. cells ≡ replicate n Uninit) }
{
    let mut cells = Items::new(alloc);
    for i in 0..n {
        prove!(i < n);
        cells.push(Cell::Uninit)?;
    }
    Ok(cells)
}

/// An object's bits before its free scalars are written.
fn cells_before(alloc: Global, size: u32, start: &Start) -> Result<Items<Cell>, Memory>
    ensures { IfOk result (λ cells. cells ≡ cells_before size start.now) }
{
    match start {
        Start::Given(scalars) => {
            let zero = zeros(alloc, size)?;
            with_scalars(alloc, scalars.as_slice(), zero)
        }
        Start::Any | Start::Uninit | Start::Choice(_) | Start::Hidden(_) => {
            uninitialised(alloc, size)
        }
    }
}

#[tactic(auto, using(crate::proofs::Beginnings::has_append))]
fn is_own(f: &Function, base: u32) -> bool
    ensures { result ≡ has (f.now.params ++ f.now.locals ++ f.now.temps ++ f.now.hidden) base }
{
    f.params.as_slice().contains(&base)
        || f.locals.as_slice().contains(&base)
        || f.temps.as_slice().contains(&base)
        || f.hidden.as_slice().contains(&base)
}

fn is_in(bases: &[u32], base: u32) -> bool
    ensures { result ≡ has bases.now base }
{
    bases.contains(&base)
}

#[tactic(auto, using(crate::proofs::Beginnings::has_append))]
fn is_in_lists(f: &Function, base: u32) -> bool
    ensures { result ≡ has (lists_of f.now) base }
{
    is_in(f.params.as_slice(), base)
        || is_in(f.locals.as_slice(), base)
        || is_in(f.inner.as_slice(), base)
        || is_in(f.temps.as_slice(), base)
        || is_in(f.hidden.as_slice(), base)
}

#[tactic(auto, using(crate::proofs::Beginnings::has_append))]
fn is_listed(mut functions: &[Function], base: u32) -> bool
    ensures { result ≡ has (flat_map lists_of functions.entry.now) base }
{
    while let [f, rest @ ..] = functions {
        if is_in_lists(f, base) {
            return true;
        }
        functions = rest;
    }
    false
}

fn lives_at_entry(p: &Program, f: &Function, base: u32) -> bool
    ensures { result ≡ lives_at_entry p.now f.now base }
{
    base != 0 && !is_listed(p.functions.as_slice(), base) || is_own(f, base)
}

/// An object at the beginning.
fn object_begun(
    alloc: Global,
    p: &Program,
    picks: &[i128],
    i: u64,
    base: &Base,
) -> Result<Result<(Items<Cell>, u64), u64>, Memory>
    requires { HasNarrowFields p.now.layout }
    ensures { IfOk result (λ r. r ≡ filled picks.now i (free_in p.now.layout base.now.ctype base.now.start) (cells_before base.now.size_bits base.now.start)) }
{
    let cells = cells_before(alloc, base.size_bits, &base.start)?;
    let scalars = free_in(alloc, &p.layout, &base.ctype, &base.start)?;
    filled(alloc, picks, i, scalars.as_slice(), cells)
}

/// Adds the object of a base where it lives; gives the number of the next pick.
#[tactic(auto, using(crate::proofs::Beginnings::beginnings))]
fn add_object(
    alloc: Global,
    p: &Program,
    f: &Function,
    picks: &[i128],
    i: u64,
    b: u32,
    base: &Base,
    objects: &mut Vec<Object>,
) -> Result<Result<u64, u64>, Memory>
    requires { HasNarrowFields p.now.layout }
    ensures { IfOk result (λ r. MatchResult r
        (λ next. (bases : List Base) → behind objects.old.items (objects_begun p.now f.now picks.now i b (base.now ∷ bases)) ≡ behind objects.new.items (objects_begun p.now f.now picks.now next (b + 1) bases))
        (λ k. (bases : List Base) → behind objects.old.items (objects_begun p.now f.now picks.now i b (base.now ∷ bases)) ≡ Err k)) }
{
    if !lives_at_entry(p, f, b) {
        return Ok(Ok(i));
    }
    match object_begun(alloc, p, picks, i, base)? {
        Ok((cells, next)) => {
            objects.push(Object { base: b, cells })?;
            Ok(Ok(next))
        }
        Err(refused) => Ok(Err(refused)),
    }
}

/// The objects that live, and the number of picks that they take.
#[tactic(auto, using(crate::proofs::Beginnings::beginnings))]
fn objects_begun(
    alloc: Global,
    p: &Program,
    f: &Function,
    picks: &[i128],
    objects: &mut Vec<Object>,
) -> Result<Result<u64, u64>, Memory>
    requires none { objects.old.items ≡ [] }
    requires few { length p.now.bases ≤ 2 ^ 16 }
    requires narrow { HasNarrowFields p.now.layout }
    ensures { IfOk result (λ r. MatchResult r (λ i. objects_begun p.now f.now picks.now 0 0 p.now.bases ≡ Ok (objects.new.items, i)) (λ k. objects_begun p.now f.now picks.now 0 0 p.now.bases ≡ Err k)) }
{
    let mut i = 0;
    let mut b = 0;
    let mut bases = p.bases.as_slice();
    while let [base, rest @ ..] = bases {
        match add_object(alloc, p, f, picks, i, b, base, objects)? {
            Ok(next) => i = next,
            Err(refused) => return Ok(Err(refused)),
        }
        b += 1;
        bases = rest;
    }
    Ok(Ok(i))
}

/// The initial state of a function that these picks make: a number for each free integer, and 0 for
/// null or 1 for the hidden array for each free pointer, by base and offset; a missing one is 0.
#[tactic(auto, unfolding(crate::specs::Begin::begun))]
pub fn begin(alloc: Global, p: &Program, f: u32, picks: &[i128]) -> Result<Begun, BeginStop>
    requires program { Lawful p.now }
    requires within { f < length p.now.functions }
    ensures { MatchResult result (λ b. begun p.now f picks.now ≡ Ok b) (λ stop. Tells (begun p.now f picks.now) stop) }
{
    let Some(function) = p.functions.get(f as usize) else {
        return Err(BeginStop::Memory);
    };
    let mut objects = Vec::new(alloc);
    let used = match objects_begun(alloc, p, function, picks, &mut objects) {
        Ok(Ok(used)) => used,
        Ok(Err(i)) => return Err(BeginStop::OutOfRange(i)),
        Err(_) => return Err(BeginStop::Memory),
    };
    match enter_result(alloc, p, function, Mem::from_vec(objects)) {
        Ok(memory) => Ok(Begun {
            config: Config {
                fun: f,
                node: function.entry,
                stack: Items::new(alloc),
                memory,
            },
            used,
        }),
        Err(_) => Err(BeginStop::Memory),
    }
}
