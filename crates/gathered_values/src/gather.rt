// Single bits as one value.
ghost use Rattle.std.specs.Prelude.{◌≡◌, ◌≤◌, ◌<◌, ◌++◌, ℕ, [], length, is_some, nat_eq, if◌then◌else◌, IfOk, IfErr, pos};
ghost use Rattle.std.specs.List.{All, cons_option};
ghost use Rattle.abstract_memory.specs.Reads as spec;
ghost use Rattle.avalue.specs.Pointers as pointers;
ghost use Rattle.avalue.specs.Values.{IsWellFormedValue};
ghost use Rattle.c_memory.specs.Cells.{number_of};
ghost use Rattle.gathered_values.specs.Bits.{bit};
ghost use Rattle.abstract_memory.specs.Values.{all_below, any_below, one_number};
ghost use Rattle.ival.specs.Forms.{IsWellFormed, has, is_empty, only_number};
ghost use Rattle.store_api.specs.declared.StoreStop.TheVariants.{Memory};

use avalue::Value;
use group_values::{any_number, is_empty, only_number};
use ival::Ival;
use sqlite_items::Items;
use std::alloc::Global;
use store_api::{Got, StoreStop};

/// The number whose bits are single ones, the lowest first, which are known.
#[tactic(auto, using(crate::proofs::Gathering::number_facts))]
fn number_in(bits: &[Value]) -> i128
    requires formed { All IsWellFormedValue bits.now }
    requires few { length bits.now ≤ 64 }
    ensures { result ≡ pos (number_of (λ j. has (bit bits.now j).ints (pos 1)) (length bits.now)) }
{
    let mut x: u128 = 0;
    let mut j = bits.len();
    while 0 < j {
        j -= 1;
        x = if bits[j].ints.has(1) {
            2 * x + 1
        } else {
            2 * x
        };
    }
    x as i128
}

/// Whether a bit is no number.
#[tactic(auto, using(crate::proofs::Gathering::at_bit))]
fn any_empty(bits: &[Value]) -> bool
    ensures { result ≡ any_below (length bits.now) (λ j. is_empty (bit bits.now j).ints) }
{
    let mut any = false;
    for j in 0..bits.len() {
        any = is_empty(&bits[j].ints) || any;
    }
    any
}

/// Whether the number of each bit is known.
#[tactic(auto, using(crate::proofs::Gathering::at_bit))]
fn all_known(bits: &[Value]) -> bool
    ensures { result ≡ all_below (length bits.now) (λ j. is_some (only_number (bit bits.now j).ints)) }
{
    let mut all = true;
    for j in 0..bits.len() {
        all = only_number(&bits[j].ints).is_some() && all;
    }
    all
}

/// Whether a bit may be Uninit.
#[tactic(auto, using(crate::proofs::Gathering::at_bit))]
fn any_uninit(bits: &[Value]) -> bool
    ensures { result ≡ any_below (length bits.now) (λ j. (bit bits.now j).uninit) }
{
    let mut any = false;
    for j in 0..bits.len() {
        any = bits[j].uninit || any;
    }
    any
}

/// Whether a bit may dangle.
#[tactic(auto, using(crate::proofs::Gathering::at_bit))]
fn any_dangling(bits: &[Value]) -> bool
    ensures { result ≡ any_below (length bits.now) (λ j. (bit bits.now j).dangling) }
{
    let mut any = false;
    for j in 0..bits.len() {
        any = bits[j].dangling || any;
    }
    any
}

/// The set of the number whose bits are single ones which are known.
#[tactic(auto, using(crate::proofs::Gathering::known_facts))]
fn known_number(bits: &[Value]) -> Ival
    requires formed { All IsWellFormedValue bits.now }
    requires few { length bits.now ≤ 64 }
    ensures { result ≡ one_number (pos (number_of (λ j. has (bit bits.now j).ints (pos 1)) (length bits.now))) }
{
    Ival::of_set(&[number_in(bits)])
}

/// The integers that single bits show together.
fn gathered_ints(bits: &[Value]) -> Ival
    requires formed { All IsWellFormedValue bits.now }
    requires few { length bits.now ≤ 64 }
    ensures { result ≡ spec.gathered_ints (λ j. (bit bits.now j).ints) (length bits.now) }
{
    if any_empty(bits) {
        return Ival::Empty;
    }
    if all_known(bits) {
        return known_number(bits);
    }
    any_number(bits.len() as u32)
}

/// The offsets of a base; `Empty` where there are none.
fn offsets_at(mut ptrs: &[(u32, Ival)], base: u32) -> Ival
    requires { All pointers.IsPointer ptrs.now }
    ensures value { result ≡ pointers.offsets_at ptrs.now base }
    ensures formed { IsWellFormed result }
{
    while let [p, rest @ ..] = ptrs {
        if p.0 == base {
            return p.1;
        }
        ptrs = rest;
    }
    Ival::Empty
}

/// The offsets of a base that all bits share.
#[tactic(auto, using(crate::proofs::Gathering::shared_facts))]
fn shared_offsets(bits: &[Value], base: u32) -> Ival
    requires formed { All IsWellFormedValue bits.now }
    ensures { result ≡ spec.shared_offsets (λ j. (bit bits.now j).ptrs) (length bits.now) base }
{
    let mut shared = Ival::All;
    for j in 0..bits.len() {
        shared = shared.meet(&offsets_at(bits[j].ptrs.as_slice(), base));
    }
    shared
}

/// The pointers with the offsets of a base more, where there are some.
fn keep_pointer(mut kept: Items<(u32, Ival)>, base: u32, offsets: Ival) -> Got<Items<(u32, Ival)>>
    ensures value { IfOk result (λ ps. ps ≡ kept ++ cons_option (spec.some_offsets base offsets) []) }
    ensures err { IfErr result (λ e. e ≡ Memory) }
{
    if is_empty(&offsets) {
        return Ok(kept);
    }
    match kept.push((base, offsets)) {
        Ok(()) => Ok(kept),
        Err(_) => Err(StoreStop::Memory),
    }
}

/// Of the pointers of the first bit those that all bits share.
fn shared_pointers(alloc: Global, bits: &[Value], first: &[(u32, Ival)]) -> Got<Items<(u32, Ival)>>
    requires formed { All IsWellFormedValue bits.now }
    requires first { first.now ≡ (bit bits.now 0).ptrs }
    ensures value { IfOk result (λ ps. ps ≡ spec.shared_pointers (λ j. (bit bits.now j).ptrs) (length bits.now)) }
    ensures err { IfErr result (λ e. e ≡ Memory) }
{
    let mut shared = Items::new(alloc);
    for p in first {
        shared = keep_pointer(shared, p.0, shared_offsets(bits, p.0))?;
    }
    Ok(shared)
}

/// The pointers that single bits show together: pointers have 64 bits.
#[tactic(auto, using(crate::proofs::Gathering::width_facts))]
fn gathered_pointers(alloc: Global, bits: &[Value]) -> Got<Items<(u32, Ival)>>
    requires formed { All IsWellFormedValue bits.now }
    requires some { 0 < length bits.now }
    ensures value { IfOk result (λ ps. ps ≡ (if nat_eq (length bits.now) 64 then spec.shared_pointers (λ j. (bit bits.now j).ptrs) (length bits.now) else [])) }
    ensures err { IfErr result (λ e. e ≡ Memory) }
{
    if bits.len() == 64 {
        return shared_pointers(alloc, bits, bits[0].ptrs.as_slice());
    }
    Ok(Items::new(alloc))
}

/// The value that single bits show together, the lowest first.
#[tactic(auto, using(crate::proofs::Gathering::gather_facts))]
pub fn gathered(alloc: Global, bits: &[Value]) -> Got<Value>
    requires formed { All IsWellFormedValue bits.now }
    requires some { 0 < length bits.now }
    requires few { length bits.now ≤ 64 }
    ensures value { IfOk result (λ v. v ≡ spec.gathered (bit bits.now) (length bits.now)) }
    ensures err { IfErr result (λ e. e ≡ Memory) }
{
    let ptrs = gathered_pointers(alloc, bits)?;
    let uninit = any_uninit(bits);
    let dangling = any_dangling(bits);
    Ok(Value {
        uninit,
        dangling,
        ints: gathered_ints(bits),
        ptrs,
    })
}
