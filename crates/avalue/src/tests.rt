ghost use Rattle.std.specs.Prelude.{◌≡◌, ◌≤ℤ◌, pos, IfOk};
ghost use Rattle.ival.specs.Forms.{HasEnds, IsWellFormed};
ghost use Rattle.avalue.specs.Pointers.{AreInObject, object_end};
ghost use Rattle.avalue.specs.Values.{IsWellFormedValue, PointsIntoObjects};

use crate::Value;
use ival::Ival;
use sqlite_items::Items;
use std::alloc::Global;
use std::test::Fail;

/// One offset.
fn at(offset: i128) -> Ival
    requires low { pos 0 ≤ℤ offset }
    requires high { offset ≤ℤ object_end }
    ensures ends { HasEnds result }
    ensures inside { AreInObject result }
{
    Ival::of_set(&[offset])
}

/// Integers, and pointers to one base.
fn pointing(alloc: Global, ints: Ival, base: u32, offsets: Ival) -> Result<Value, Fail>
    requires ints { IsWellFormed ints }
    requires ends { HasEnds offsets }
    requires inside { AreInObject offsets }
    ensures formed { IfOk result IsWellFormedValue }
    ensures inside { IfOk result PointsIntoObjects }
    ensures ints { IfOk result (λ v. v.ints ≡ ints) }
{
    let mut ptrs = Items::new(alloc);
    ptrs.push((base, offsets))?;
    Ok(Value {
        uninit: false,
        dangling: false,
        ints,
        ptrs,
    })
}

#[test]
fn values_are_joined_part_by_part(rt: HostRuntime) -> Result<(), Fail> {
    let a = pointing(rt.alloc(), Ival::Empty, 7, at(4))?;
    let mut b = pointing(rt.alloc(), Ival::Empty, 7, at(8))?;
    b.uninit = true;
    let c = pointing(rt.alloc(), Ival::Empty, 3, at(4))?;
    let both = a.join(rt.alloc(), &b)?.join(rt.alloc(), &c)?;
    assert!(rt; both.uninit && !both.dangling && both.ints == Ival::Empty);
    assert!(rt; both.ptrs.as_slice() == [(3, at(4)), (7, Ival::of_set(&[4, 8]))].as_slice());
    assert!(rt; a.included(&both) && !both.included(&a));
    Ok(())
}

#[test]
fn offsets_that_grow_are_widened(rt: HostRuntime) -> Result<(), Fail> {
    let a = pointing(rt.alloc(), Ival::Empty, 7, at(0))?;
    let b = pointing(rt.alloc(), Ival::Empty, 7, at(4))?;
    let wide = a.widen(rt.alloc(), &b, &[], 32)?;
    let all = Ival::Range {
        lo: 0,
        hi: 1 << 21,
        r: 0,
        m: 4,
    };
    assert!(rt; wide.ptrs.as_slice() == [(7, all)].as_slice());
    let place = wide.to_location(rt.alloc())?;
    assert!(rt; !place.null && place.places.as_slice() == [(7, all)].as_slice());
    let gone = wide.escape(rt.alloc(), &[7])?;
    assert!(rt; gone.dangling && gone.ptrs.is_empty());
    Ok(())
}

/// The null pointer, and one pointer to byte 4 of base 3.
#[test]
fn a_null_and_a_pointer(rt: HostRuntime) -> Result<(), Fail> {
    let v = pointing(rt.alloc(), at(0), 3, at(4))?;
    let place = v.to_location(rt.alloc())?;
    assert!(rt; place.null && place.places.as_slice() == [(3, at(4))].as_slice());
    let gone = v.escape(rt.alloc(), &[3])?;
    assert!(rt; gone.dangling && gone.ints == at(0) && gone.ptrs.is_empty());
    let unwritten = Value {
        uninit: true,
        dangling: false,
        ints: Ival::Empty,
        ptrs: Items::new(rt.alloc()),
    };
    let either = v.join(rt.alloc(), &unwritten)?;
    assert!(rt; either.uninit && !either.dangling && either.ints == at(0));
    assert!(rt; either.ptrs.as_slice() == v.ptrs.as_slice());
    assert!(rt; v.included(&either) && !either.included(&v));
    Ok(())
}
