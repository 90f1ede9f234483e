// The operations of values, with want of memory as a store's stop.
ghost use Rattle.std.specs.Prelude.{◌≡◌, ◌≤◌, false, IfOk, IfErr};
ghost use Rattle.abstract_memory.specs.Values as spec;
ghost use Rattle.avalue.specs.Values.{IsWellFormedValue, PointsIntoObjects, value_included};
ghost use Rattle.ival.specs.Forms.{HasEnds};
ghost use Rattle.ival.specs.Forms as form;
ghost use Rattle.store_api.specs.declared.StoreStop.TheVariants.{Memory};

use avalue::Value;
use sqlite_items::Items;
use std::alloc::Global;
use store_api::{Got, StoreStop};

/// The same value.
pub fn copied(alloc: Global, v: &Value) -> Got<Value>
    ensures value { IfOk result (λ w. w ≡ v.now) }
    ensures err { IfErr result (λ e. e ≡ Memory) }
{
    match Items::from_slice(alloc, v.ptrs.as_slice()) {
        Ok(ptrs) => Ok(Value {
            uninit: v.uninit,
            dangling: v.dangling,
            ints: v.ints,
            ptrs,
        }),
        Err(_) => Err(StoreStop::Memory),
    }
}

/// The join of two values.
#[tactic(auto, using(crate::proofs::Joined::joined_facts))]
pub fn join(alloc: Global, a: &Value, b: &Value) -> Got<Value>
    requires left { IsWellFormedValue a.now }
    requires right { IsWellFormedValue b.now }
    ensures value { IfOk result (λ v. v ≡ spec.join_values a.now b.now) }
    ensures formed { IfOk result IsWellFormedValue }
    ensures err { IfErr result (λ e. e ≡ Memory) }
{
    match a.join(alloc, b) {
        Ok(v) => Ok(v),
        Err(_) => Err(StoreStop::Memory),
    }
}

/// The widening of a value of `width` bits, 1 to 64, by a newer one.
#[tactic(auto, using(crate::proofs::Joined::joined_facts))]
pub fn widen(alloc: Global, a: &Value, b: &Value, thresholds: &[i128], width: u32) -> Got<Value>
    requires left { IsWellFormedValue a.now }
    requires right { IsWellFormedValue b.now }
    requires ends { form.is_empty a.now.ints ≡ false → HasEnds a.now.ints }
    requires low { 1 ≤ width }
    requires high { width ≤ 64 }
    requires left_offsets { PointsIntoObjects a.now }
    requires right_offsets { PointsIntoObjects b.now }
    ensures value { IfOk result (λ v. v ≡ spec.widen_values thresholds.now width a.now b.now) }
    ensures formed { IfOk result IsWellFormedValue }
    ensures err { IfErr result (λ e. e ≡ Memory) }
{
    match a.widen(alloc, b, thresholds, width) {
        Ok(v) => Ok(v),
        Err(_) => Err(StoreStop::Memory),
    }
}

/// The value in which pointers to the listed bases dangle.
#[tactic(auto, using(crate::proofs::Joined::joined_facts))]
pub fn escape(alloc: Global, v: &Value, bases: &[u32]) -> Got<Value>
    requires { IsWellFormedValue v.now }
    ensures value { IfOk result (λ w. w ≡ spec.escape_value bases.now v.now) }
    ensures formed { IfOk result IsWellFormedValue }
    ensures err { IfErr result (λ e. e ≡ Memory) }
{
    match v.escape(alloc, bases) {
        Ok(w) => Ok(w),
        Err(_) => Err(StoreStop::Memory),
    }
}

/// Whether each member of a value is one of another.
pub fn included(a: &Value, b: &Value) -> bool
    requires left { IsWellFormedValue a.now }
    requires right { IsWellFormedValue b.now }
    ensures { result ≡ value_included a.now b.now }
{
    a.included(b)
}
