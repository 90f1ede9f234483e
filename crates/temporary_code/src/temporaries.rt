ghost use Rattle.std.specs.Prelude.{◌≡◌, nat_eq, slice_get, length, IfOk, OnOk};
ghost use Rattle.temporary_code.specs.Temporaries.{kind_number, same_bool, same, place_of_pool, pool_of, others, taken_in, place_or, place_in, with_place, used, grown, take, beginning, no_temporaries};

use c_types::{CType, IntKind, copy_type};
use sqlite_items::{Items, at};
use std::alloc::{AllocError, Global};

/// The temporaries of one type: their places among all of a function, in the order of first use.
#[derive(Drop)]
pub struct Pool {
    pub ctype: CType,
    pub places: Items<u32>,
    /// The number of the full expression that took one last, and how many it has taken.
    pub full: u32,
    pub taken: u32,
}

/// The temporaries of a function, as far as its code goes.
#[derive(Drop)]
pub struct Temporaries {
    /// The base of the first.
    pub first: u32,
    /// Their types, in the order of first use.
    pub types: Items<CType>,
    /// The same by types.
    pub pools: Items<Pool>,
    /// The number of the full expression at hand.
    pub full: u32,
}

/// The base of a temporary that a side effect takes, and the temporaries behind it.
#[derive(Drop)]
pub struct Taken {
    pub base: u32,
    pub temps: Temporaries,
}

fn kind_number(kind: IntKind) -> u32
    ensures { result ≡ kind_number kind }
{
    match kind {
        IntKind::Bool => 0,
        IntKind::Char => 1,
        IntKind::SChar => 2,
        IntKind::UChar => 3,
        IntKind::Short => 4,
        IntKind::UShort => 5,
        IntKind::Int => 6,
        IntKind::UInt => 7,
        IntKind::Long => 8,
        IntKind::ULong => 9,
        IntKind::LongLong => 10,
        IntKind::ULongLong => 11,
    }
}

fn same_kind(k: IntKind, l: IntKind) -> bool
    ensures { result ≡ nat_eq (kind_number k) (kind_number l) }
{
    kind_number(k) == kind_number(l)
}

fn same_bool(a: bool, b: bool) -> bool
    ensures { result ≡ same_bool a b }
{
    if a { b } else { !b }
}

/// Whether two types are the same, `volatile` included.
#[tactic(auto, using(crate::proofs::SameTypes::same_types))]
fn same(a: &CType, b: &CType) -> bool
    ensures { result ≡ same a.now b.now }
{
    match a {
        CType::Void => match b {
            CType::Void => true,
            CType::Int { .. } => false,
            CType::Ptr(_) => false,
            CType::Array(_, _) => false,
            CType::Struct(_) => false,
            CType::Unusable => false,
        },
        CType::Int {
            kind: k,
            volatile: v,
        } => match b {
            CType::Int {
                kind: l,
                volatile: w,
            } => same_kind(*k, *l) && same_bool(*v, *w),
            CType::Void => false,
            CType::Ptr(_) => false,
            CType::Array(_, _) => false,
            CType::Struct(_) => false,
            CType::Unusable => false,
        },
        CType::Ptr(a) => match b {
            CType::Ptr(b) => same(a.get(), b.get()),
            CType::Void => false,
            CType::Int { .. } => false,
            CType::Array(_, _) => false,
            CType::Struct(_) => false,
            CType::Unusable => false,
        },
        CType::Array(a, n) => match b {
            CType::Array(b, m) => *n == *m && same(a.get(), b.get()),
            CType::Void => false,
            CType::Int { .. } => false,
            CType::Ptr(_) => false,
            CType::Struct(_) => false,
            CType::Unusable => false,
        },
        CType::Struct(i) => match b {
            CType::Struct(j) => i.0 == j.0,
            CType::Void => false,
            CType::Int { .. } => false,
            CType::Ptr(_) => false,
            CType::Array(_, _) => false,
            CType::Unusable => false,
        },
        CType::Unusable => match b {
            CType::Unusable => true,
            CType::Void => false,
            CType::Int { .. } => false,
            CType::Ptr(_) => false,
            CType::Array(_, _) => false,
            CType::Struct(_) => false,
        },
    }
}

/// The place of a type's pool; behind the end of the list where it has none.
fn place_of_pool(ty: &CType, pools: &[Pool]) -> usize
    ensures { result ≡ place_of_pool ty.now pools.now }
{
    for (i, p) in pools.iter().enumerate() {
        if same(ty, &p.ctype) {
            return i;
        }
    }
    pools.len()
}

/// The pool of a type, which leaves the list.
#[tactic(auto, using(crate::proofs::Lists::pool_rules))]
fn pool_of(alloc: Global, pools: &mut Items<Pool>, ty: &CType) -> Result<Pool, AllocError>
    ensures pool { IfOk result (λ p. p ≡ pool_of ty.now pools.old) }
    ensures others { OnOk result (pools.new ≡ others ty.now pools.old) }
{
    let place = place_of_pool(ty, pools.as_slice());
    if place < pools.len() {
        return Ok(pools.remove(place));
    }
    Ok(Pool {
        ctype: copy_type(alloc, ty)?,
        places: Items::new(alloc),
        full: 0,
        taken: 0,
    })
}

/// How many of a pool the full expression of this number has taken.
fn taken_in(full: u32, p: &Pool) -> u32
    ensures { result ≡ taken_in full p.now }
{
    if p.full == full { p.taken } else { 0 }
}

/// The place of the one that the full expression of this number takes next, or else this other one.
fn place_in(p: &Pool, full: u32, further: u32) -> u32
    ensures { result ≡ place_in p.now full further }
{
    match at(p.places.as_slice(), taken_in(full, p) as usize) {
        Some(n) => *n,
        None => further,
    }
}

/// The places of a pool behind the use of this one, where so many had been taken.
fn with_place(places: Items<u32>, taken: u32, place: u32) -> Result<Items<u32>, AllocError>
    ensures { IfOk result (λ ps. ps ≡ with_place places taken place) }
{
    if (taken as usize) < places.len() {
        return Ok(places);
    }
    let mut more = places;
    more.push(place)?;
    Ok(more)
}

/// A pool behind a full expression's further use of the temporary at this place; want of memory too past 2^32 uses.
fn used(p: Pool, full: u32, place: u32) -> Result<Pool, AllocError>
    ensures { IfOk result (λ q. q ≡ used p full place) }
{
    let taken = taken_in(full, &p);
    Ok(Pool {
        ctype: p.ctype,
        places: with_place(p.places, taken, place)?,
        full,
        taken: taken.checked_add(1).ok_or(AllocError)?,
    })
}

fn grown(
    alloc: Global,
    types: Items<CType>,
    place: u32,
    ty: &CType,
) -> Result<Items<CType>, AllocError>
    ensures { IfOk result (λ ts. ts ≡ grown types place ty.now) }
{
    if (place as usize) < types.len() {
        return Ok(types);
    }
    let mut more = types;
    more.push(copy_type(alloc, ty)?)?;
    Ok(more)
}

fn narrowed(n: usize) -> Result<u32, AllocError>
    ensures { IfOk result (λ m. m ≡ n) }
{
    if n <= u32::MAX as usize {
        Ok(n as u32)
    } else {
        Err(AllocError)
    }
}

/// The temporary of this type that a side effect takes; want of memory too where its base passes 2^32.
#[tactic(auto, unfolding(crate::specs::Temporaries::next_place, crate::specs::Temporaries::next_base, crate::specs::Temporaries::taking))]
pub fn take(alloc: Global, temps: Temporaries, ty: &CType) -> Result<Taken, AllocError>
    ensures { IfOk result (λ t. t ≡ take temps ty.now) }
{
    let Temporaries {
        first,
        types,
        mut pools,
        full,
    } = temps;
    let pool = pool_of(alloc, &mut pools, ty)?;
    let place = place_in(&pool, full, narrowed(types.len())?);
    let base = first.checked_add(place).ok_or(AllocError)?;
    pools.push(used(pool, full, place)?)?;
    let temps = Temporaries {
        first,
        types: grown(alloc, types, place, ty)?,
        pools,
        full,
    };
    Ok(Taken { base, temps })
}

/// The temporaries at the beginning of a full expression, which has taken none (C11 6.8p4); want of memory past 2^32 of them.
pub fn beginning(temps: Temporaries) -> Result<Temporaries, AllocError>
    ensures { IfOk result (λ after. after ≡ beginning temps) }
{
    Ok(Temporaries {
        first: temps.first,
        types: temps.types,
        pools: temps.pools,
        full: temps.full.checked_add(1).ok_or(AllocError)?,
    })
}

/// The temporaries at the beginning of a function, of which the first would have this base.
pub fn no_temporaries(alloc: Global, first: u32) -> Temporaries
    ensures { result ≡ no_temporaries first }
{
    Temporaries {
        first,
        types: Items::new(alloc),
        pools: Items::new(alloc),
        full: 0,
    }
}
