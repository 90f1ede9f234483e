//! Values, and the places that they point to.

ghost use Rattle.std.specs.Prelude.{◌≡◌, ◌≤◌, ℤ, ℕ, IfOk, pos, true, false};
ghost use Rattle.ival.specs.Forms.{HasEnds, IsWellFormed, is_empty};
ghost use Rattle.avalue.specs.Values as spec;

use crate::error::Memory;
use crate::pointers::{has_listed, included, merge, without};
use crate::rules::{Join, Widening};
use ival::Ival;
use sqlite_items::Items;
use std::alloc::Global;

/// What a cell may hold: nothing written yet, a pointer to an object that is gone, integers, and pointers.
#[derive(Drop)]
pub struct Value {
    pub uninit: bool,
    pub dangling: bool,
    /// The null pointer is the integer 0.
    pub ints: Ival,
    /// By base, rising: the offsets in bytes, some for each.
    pub ptrs: Items<(u32, Ival)>,
}

/// The places that a value points to: the null pointer, and bases with offsets in bytes.
#[derive(Drop)]
pub struct Location {
    pub null: bool,
    pub places: Items<(u32, Ival)>,
}

impl Value {
    /// The least value around both, part by part.
    pub fn join(&self, alloc: Global, b: &Value) -> Result<Value, Memory>
        requires left { spec.IsWellFormedValue self.now }
        requires right { spec.IsWellFormedValue b.now }
        ensures value { IfOk result (spec.IsJoin self.now b.now) }
        ensures formed { IfOk result spec.IsWellFormedValue }
    {
        Ok(Value {
            uninit: self.uninit || b.uninit,
            dangling: self.dangling || b.dangling,
            ints: self.ints.join(&b.ints),
            ptrs: merge(alloc, &Join, self.ptrs.as_slice(), b.ptrs.as_slice())?,
        })
    }

    /// A value around both that grows only so often: integers by thresholds and `width`, from 1 to 64 bits, and offsets
    /// that grow to all of the object in their class.
    pub fn widen(
        &self,
        alloc: Global,
        newer: &Value,
        thresholds: &[i128],
        width: u32,
    ) -> Result<Value, Memory>
        requires left { spec.IsWellFormedValue self.now }
        requires right { spec.IsWellFormedValue newer.now }
        requires ends { is_empty self.now.ints ≡ false → HasEnds self.now.ints }
        requires low { 1 ≤ width }
        requires high { width ≤ 64 }
        requires left_offsets { spec.PointsIntoObjects self.now }
        requires right_offsets { spec.PointsIntoObjects newer.now }
        ensures value { IfOk result (spec.IsWidening self.now newer.now thresholds.now width) }
        ensures formed { IfOk result spec.IsWellFormedValue }
    {
        Ok(Value {
            uninit: self.uninit || newer.uninit,
            dangling: self.dangling || newer.dangling,
            ints: self.ints.widen(&newer.ints, thresholds, width),
            ptrs: merge(
                alloc,
                &Widening,
                self.ptrs.as_slice(),
                newer.ptrs.as_slice(),
            )?,
        })
    }

    /// Whether each member of this value is one of the other, part by part.
    pub fn included(&self, b: &Value) -> bool
        requires left { spec.IsWellFormedValue self.now }
        requires right { spec.IsWellFormedValue b.now }
        ensures { result ≡ spec.value_included self.now b.now }
    {
        (!self.uninit || b.uninit)
            && (!self.dangling || b.dangling)
            && self.ints.included(&b.ints)
            && included(self.ptrs.as_slice(), b.ptrs.as_slice())
    }

    /// The places that it points to.
    pub fn to_location(&self, alloc: Global) -> Result<Location, Memory>
        requires { spec.IsWellFormedValue self.now }
        ensures { IfOk result (spec.IsLocation self.now) }
    {
        Ok(Location {
            null: self.ints.has(0),
            places: Items::from_slice(alloc, self.ptrs.as_slice())?,
        })
    }

    /// Pointers to the listed bases dangle.
    pub fn escape(&self, alloc: Global, bases: &[u32]) -> Result<Value, Memory>
        requires { spec.IsWellFormedValue self.now }
        ensures value { IfOk result (spec.IsEscape self.now bases.now) }
        ensures formed { IfOk result spec.IsWellFormedValue }
    {
        let ptrs = self.ptrs.as_slice();
        Ok(Value {
            uninit: self.uninit,
            dangling: self.dangling || has_listed(ptrs, bases),
            ints: self.ints,
            ptrs: without(alloc, ptrs, bases)?,
        })
    }
}
