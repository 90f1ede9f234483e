// Bits of groups, taken one by one.
ghost use Rattle.std.specs.Prelude.{◌≡◌, ◌≤◌, ◌<◌, IfOk, IfErr};
ghost use Rattle.abstract_memory.specs.Reads.{points};
ghost use Rattle.abstract_memory.specs.Values as spec;
ghost use Rattle.avalue.specs.Values.{IsWellFormedValue, PointsIntoObjects};
ghost use Rattle.ival.specs.Casts.{cast_of};
ghost use Rattle.store_api.specs.declared.StoreStop.TheVariants.{Memory};

use crate::ints::{all_zero, bit_ints, bit_set, is_empty, only_number};
use crate::values::{copied, join};
use avalue::Value;
use c_memory::bit_of;
use ival::Ival;
use sqlite_items::Items;
use std::alloc::Global;
use store_api::Got;

/// Whether there are integers alone.
#[tactic(auto, using(crate::proofs::Bits::pointer_facts))]
fn is_plain(v: &Value) -> bool
    ensures { result ≡ spec.is_plain v.now }
{
    !v.uninit && !v.dangling && v.ptrs.is_empty()
}

/// Whether there are pointers.
#[tactic(auto, using(crate::proofs::Bits::pointer_facts))]
pub fn points(v: &Value) -> bool
    ensures { result ≡ points v.now }
{
    !v.ptrs.is_empty()
}

/// Whether it is exactly Uninit.
#[tactic(auto, using(crate::proofs::Bits::pointer_facts))]
pub fn is_uninit(v: &Value) -> bool
    ensures { result ≡ spec.is_uninit v.now }
{
    v.uninit && !v.dangling && is_empty(&v.ints) && v.ptrs.is_empty()
}

/// Whether it is exactly the number 0.
pub fn is_zero(v: &Value) -> bool
    ensures { result ≡ spec.is_zero v.now }
{
    is_plain(v) && all_zero(&v.ints)
}

/// The value of these integers.
fn of_ints(alloc: Global, ints: Ival) -> Value
    ensures { result ≡ spec.of_ints ints }
{
    Value {
        uninit: false,
        dangling: false,
        ints,
        ptrs: Items::new(alloc),
    }
}

/// The value with other integers.
fn with_ints(alloc: Global, v: &Value, ints: Ival) -> Got<Value>
    ensures value { IfOk result (λ w. w ≡ record { uninit = v.now.uninit; dangling = v.now.dangling; ints = ints; ptrs = v.now.ptrs }) }
    ensures err { IfErr result (λ e. e ≡ Memory) }
{
    let mut made = copied(alloc, v)?;
    made.ints = ints;
    Ok(made)
}

/// Bit `j` of a group of `w` bits with a value, as a value of its own.
#[tactic(auto, using(crate::proofs::Bits::loose_facts))]
pub fn loose(alloc: Global, v: &Value, w: u32, j: u32) -> Got<Value>
    requires { IsWellFormedValue v.now }
    ensures value { IfOk result (λ r. r ≡ spec.loose v.now w j) }
    ensures formed { IfOk result IsWellFormedValue }
    ensures err { IfErr result (λ e. e ≡ Memory) }
{
    if let Some(x) = only_number(&v.ints) {
        if is_plain(v) {
            return Ok(of_ints(alloc, bit_set(bit_of(x, j))));
        }
    }
    with_ints(alloc, v, bit_ints(&v.ints, w))
}

/// The join of all `n` bits of a group.
#[tactic(auto, using(crate::proofs::Bits::join_facts))]
pub fn loose_join(alloc: Global, v: &Value, n: u32) -> Got<Value>
    requires { IsWellFormedValue v.now }
    ensures value { IfOk result (λ r. r ≡ spec.loose_join v.now n) }
    ensures formed { IfOk result IsWellFormedValue }
    ensures err { IfErr result (λ e. e ≡ Memory) }
{
    let mut bit = of_ints(alloc, Ival::Empty);
    for j in 0..n {
        bit = join(alloc, &bit, &loose(alloc, v, n, j)?)?;
    }
    Ok(bit)
}

/// The value as a group of `n` bits has it: a single bit keeps the lowest bit of each number.
pub fn as_written(alloc: Global, n: u32, v: &Value) -> Got<Value>
    requires { IsWellFormedValue v.now }
    ensures value { IfOk result (λ r. r ≡ spec.as_written n v.now) }
    ensures formed { IfOk result IsWellFormedValue }
    ensures err { IfErr result (λ e. e ≡ Memory) }
{
    if n == 1 {
        with_ints(alloc, v, v.ints.cast(1, false))
    } else {
        copied(alloc, v)
    }
}
