ghost use Rattle.std.specs.Prelude.{◌≡◌, ◌<◌, ◌++◌, IfOk, OnOk, true, false};
ghost use Rattle.c_types.specs.Sizes.{kept, align_of};
ghost use Rattle.c_types.specs.Structs.{next_multiple, IsNextMultiple, field_place, begins, bits_of, at_place, placed, end_of, stacked, longest, align_if_named, greatest_align, any_incomplete, is_named, any_named, members_of, extent_of, laid_out};

use crate::compare::copy_type;
use crate::size::{alignment, is_incomplete, kept_size};
use crate::types::{Declared, Layout, Member, StructInfo};
use sqlite_items::Items;
use std::alloc::{AllocError, Global};

/// A byte's alignment, the least of all.
const BYTE_ALIGNMENT: u32 = 8;

/// The layout of a struct or union with these members (C11 6.7.2.1). A member of a struct stands at the next multiple of
/// its alignment, a bit-field where its unit has room, and all members of a union at its beginning; the size is rounded
/// up to the greatest alignment of a named member. Where a member has no size or none has a name, the struct isn't
/// complete.
pub fn lay_out(
    alloc: Global,
    layout: &Layout,
    tag: u32,
    is_union: bool,
    declared: &[Declared],
) -> Result<StructInfo, AllocError>
    ensures { IfOk result (λ info. info ≡ laid_out layout.now tag is_union declared.now) }
{
    if has_incomplete(layout, declared) || !has_named(declared) {
        incomplete(alloc, tag, is_union, declared)
    } else {
        complete(alloc, layout, tag, is_union, declared)
    }
}

fn has_incomplete(layout: &Layout, declared: &[Declared]) -> bool
    ensures { result ≡ any_incomplete layout.now declared.now }
{
    for member in declared {
        if is_incomplete(layout, &member.ctype) {
            return true;
        }
    }
    false
}

fn has_name(member: &Declared) -> bool
    ensures { result ≡ is_named member.now.name }
{
    match member.name {
        Some(_) => true,
        None => false,
    }
}

fn has_named(declared: &[Declared]) -> bool
    ensures { result ≡ any_named declared.now }
{
    for member in declared {
        if has_name(member) {
            return true;
        }
    }
    false
}

fn incomplete(
    alloc: Global,
    tag: u32,
    is_union: bool,
    declared: &[Declared],
) -> Result<StructInfo, AllocError>
    ensures { IfOk result (λ info. info ≡ record { tag = tag; members = stacked declared.now; size_bits = 0; align_bits = 0; complete = false; is_union = is_union }) }
{
    Ok(StructInfo {
        tag,
        members: stack(alloc, declared)?,
        size_bits: 0,
        align_bits: 0,
        complete: false,
        is_union,
    })
}

fn complete(
    alloc: Global,
    layout: &Layout,
    tag: u32,
    is_union: bool,
    declared: &[Declared],
) -> Result<StructInfo, AllocError>
    ensures members { IfOk result (λ info. info.members ≡ members_of layout.now is_union declared.now) }
    ensures size { IfOk result (λ info. info.size_bits ≡ kept (next_multiple (extent_of layout.now is_union declared.now) (greatest_align layout.now declared.now))) }
    ensures align { IfOk result (λ info. info.align_bits ≡ greatest_align layout.now declared.now) }
    ensures tag { IfOk result (λ info. info.tag ≡ tag) }
    ensures complete { IfOk result (λ info. info.complete ≡ true) }
    ensures kind { IfOk result (λ info. info.is_union ≡ is_union) }
{
    let placed = if is_union {
        Placed {
            members: stack(alloc, declared)?,
            end: longest_of(layout, declared),
        }
    } else {
        place(alloc, layout, declared)?
    };
    let align_bits = alignment_of(layout, declared);
    Ok(StructInfo {
        tag,
        members: placed.members,
        size_bits: round_up(placed.end, align_bits),
        align_bits,
        complete: true,
        is_union,
    })
}

/// Members with their places, and where the last bit of them ends, in bits, kept at 2^32 - 1.
#[derive(Drop)]
struct Placed {
    members: Items<Member>,
    end: u32,
}

/// The members of a struct, each behind the one before.
fn place(alloc: Global, layout: &Layout, declared: &[Declared]) -> Result<Placed, AllocError>
    ensures members { IfOk result (λ it. it.members ≡ placed layout.now 0 declared.now) }
    ensures end { IfOk result (λ it. it.end ≡ kept (end_of layout.now 0 declared.now)) }
{
    let mut members = Items::new(alloc);
    let mut end = 0;
    for member in declared {
        let at = beginning(layout, end, member);
        push_named(alloc, &mut members, member, at)?;
        end = at.saturating_add(bits(layout, member));
    }
    Ok(Placed { members, end })
}

/// The members of a union, each at its beginning.
fn stack(alloc: Global, declared: &[Declared]) -> Result<Items<Member>, AllocError>
    ensures { IfOk result (λ members. members ≡ stacked declared.now) }
{
    let mut members = Items::new(alloc);
    for member in declared {
        push_named(alloc, &mut members, member, 0)?;
    }
    Ok(members)
}

/// Adds a member with its place, where it has a name.
fn push_named(
    alloc: Global,
    members: &mut Items<Member>,
    member: &Declared,
    offset_bits: u32,
) -> Result<(), AllocError>
    ensures { OnOk result (members.new ≡ members.old ++ at_place offset_bits member.now member.now.name) }
{
    let Some(name) = member.name else {
        return Ok(());
    };
    members.push(Member {
        name,
        ctype: copy_type(alloc, &member.ctype)?,
        offset_bits,
        bits: member.bits,
    })
}

/// Where a member begins that doesn't begin below a place, kept at 2^32 - 1.
fn beginning(layout: &Layout, place: u32, member: &Declared) -> u32
    ensures { result ≡ kept (begins layout.now place member.now) }
{
    let unit = alignment(layout, &member.ctype);
    match member.bits {
        Some(width) => field_beginning(place, unit, width),
        None => round_up(place, unit),
    }
}

#[tactic(auto, using(crate::proofs::Places::field_place_zero))]
fn field_beginning(place: u32, unit: u32, width: u32) -> u32
    ensures { result ≡ kept (field_place place unit width) }
{
    if unit == 0 {
        return place;
    }
    if width == 0 {
        return round_up(place, unit);
    }
    let last = u64::from(place) + u64::from(width) - 1;
    if u64::from(place / unit) == last / u64::from(unit) {
        place
    } else {
        round_up(place, unit)
    }
}

/// How many bits a member takes, kept at 2^32 - 1.
fn bits(layout: &Layout, member: &Declared) -> u32
    ensures { result ≡ kept (bits_of layout.now member.now member.now.bits) }
{
    match member.bits {
        Some(width) => width,
        None => kept_size(layout, &member.ctype),
    }
}

/// The size of the longest member.
fn longest_of(layout: &Layout, declared: &[Declared]) -> u32
    ensures { result ≡ kept (longest layout.now declared.now) }
{
    let mut most = 0;
    for member in declared {
        most = bits(layout, member).max(most);
    }
    most
}

fn alignment_if_named(layout: &Layout, member: &Declared) -> u32
    ensures { result ≡ align_if_named layout.now member.now member.now.name }
{
    match member.name {
        Some(_) => alignment(layout, &member.ctype),
        None => BYTE_ALIGNMENT,
    }
}

/// The greatest alignment of the members that have a name, a byte's at least.
fn alignment_of(layout: &Layout, declared: &[Declared]) -> u32
    ensures { result ≡ greatest_align layout.now declared.now }
{
    let mut greatest = BYTE_ALIGNMENT;
    for member in declared {
        greatest = alignment_if_named(layout, member).max(greatest);
    }
    greatest
}

/// The next multiple of an alignment, kept at 2^32 - 1.
#[tactic(auto, using(crate::proofs::Places::next_multiple_laws))]
fn round_up(place: u32, alignment: u32) -> u32
    ensures value { result ≡ kept (next_multiple place alignment) }
    ensures law { 0 < alignment → IsNextMultiple place alignment (next_multiple place alignment) }
{
    if alignment == 0 {
        return place;
    }
    place.saturating_add((alignment - place % alignment) % alignment)
}
