//! The scalars of an object, and which of them are free where an execution begins.

ghost use Rattle.std.specs.Prelude.{◌≡◌, ◌++◌, ◌≤◌, Some, IfOk, OnOk};
ghost use Rattle.std.specs.List.{flat_map};
ghost use Rattle.program.specs.Pointers.{members_begun};
ghost use Rattle.c_meaning.specs.ArrayDepth.{deepest, deepest_in};
ghost use Rattle.c_meaning.specs.Begin.{parts_given, struct_parts, parts_of, member_parts, freed, free_in};

use crate::error::Memory;
use crate::types::kind_of_type;
use c_types::{CType, IntKind, Layout, Member, StructInfo, kept_size, width};
use program::Start;
use sqlite_items::Items;
use std::alloc::{AllocError, Global};

/// A scalar in an object: its offset and its width in bits, and its kind, none of a pointer.
#[derive(Clone, Copy, Debug, Drop, PartialEq, Eq)]
pub struct Part {
    pub at: u32,
    pub bits: u32,
    pub kind: Option<IntKind>,
}

/// A scalar that no initialiser gives.
#[derive(Clone, Copy, Debug, Drop, PartialEq, Eq)]
pub enum Free {
    /// Any integer of its range.
    Integer { at: u32, bits: u32, kind: IntKind },
    /// Null, or a pointer to the first element of this hidden array; null alone where there is none.
    Pointer { at: u32, target: Option<u32> },
}

/// The members whose values an object begins with: of a union the first alone.
fn members_begun(info: &StructInfo) -> &[Member]
    ensures { result.now ≡ members_begun (Some info.now) }
{
    let members = info.members.as_slice();
    if info.is_union && members.len() > 1 {
        &members[..1]
    } else {
        members
    }
}

/// Adds the scalars of a type at a place, in structs that nest so deep at most.
#[cycle(parts)]
#[tactic(auto, using(crate::proofs::ScalarParts::part_cases))]
fn add_parts(
    layout: &Layout,
    depth: usize,
    at: u32,
    t: &CType,
    parts: &mut Items<Part>,
) -> Result<(), AllocError>
    ensures { OnOk result (parts.new ≡ parts.old ++ parts_given (struct_parts depth layout.now) layout.now at t.now) }
{
    match t {
        CType::Void | CType::Unusable => Ok(()),
        CType::Int { kind, .. } => parts.push(Part {
            at,
            bits: width(*kind),
            kind: Some(*kind),
        }),
        CType::Ptr(_) => parts.push(Part {
            at,
            bits: 64,
            kind: None,
        }),
        CType::Array(element, length) => {
            let element = element.get();
            let step = kept_size(layout, element);
            let mut place = at;
            let mut left = *length;
            while left > 0 {
                add_parts(layout, depth, place, element, parts)?;
                place = place.saturating_add(step);
                left -= 1;
            }
            Ok(())
        }
        CType::Struct(id) => {
            if depth == 0 {
                return Ok(());
            }
            match layout.structs.get(id.0 as usize) {
                Some(info) => add_members(layout, depth - 1, at, members_begun(info), parts),
                None => Ok(()),
            }
        }
    }
}

/// Adds the scalars of members of a struct at a place.
#[cycle(parts)]
#[tactic(auto, using(crate::proofs::ScalarParts::part_cases))]
fn add_members(
    layout: &Layout,
    depth: usize,
    at: u32,
    mut members: &[Member],
    parts: &mut Items<Part>,
) -> Result<(), AllocError>
    requires { deepest members.now ≤ deepest_in layout.now.structs }
    ensures { OnOk result (parts.new ≡ parts.old ++ flat_map (member_parts (struct_parts depth layout.now) layout.now at) members.entry.now) }
{
    while let [member, rest @ ..] = members {
        let place = at.saturating_add(member.offset_bits);
        match member.bits {
            Some(bits) => parts.push(Part {
                at: place,
                bits,
                kind: Some(kind_of_type(&member.ctype)),
            })?,
            None => add_parts(layout, depth, place, &member.ctype, parts)?,
        }
        members = rest;
    }
    Ok(())
}

/// The scalars of a type, by offset.
fn parts_of(alloc: Global, layout: &Layout, t: &CType) -> Result<Items<Part>, AllocError>
    ensures { IfOk result (λ parts. parts ≡ parts_of layout.now t.now) }
{
    let mut parts = Items::new(alloc);
    add_parts(layout, layout.structs.len(), 0, t, &mut parts)?;
    Ok(parts)
}

/// The free scalars among these, the pointers with their targets in turn.
fn freed(
    alloc: Global,
    mut parts: &[Part],
    mut targets: &[Option<u32>],
) -> Result<Items<Free>, AllocError>
    ensures { IfOk result (λ found. found ≡ freed parts.entry.now targets.entry.now) }
{
    let mut found = Items::new(alloc);
    while let [part, rest @ ..] = parts {
        let at = part.at;
        match part.kind {
            Some(kind) => found.push(Free::Integer {
                at,
                bits: part.bits,
                kind,
            })?,
            None => match targets {
                [] => found.push(Free::Pointer { at, target: None })?,
                [target, more @ ..] => {
                    found.push(Free::Pointer {
                        at,
                        target: *target,
                    })?;
                    targets = more;
                }
            },
        }
        parts = rest;
    }
    Ok(found)
}

/// The scalars of an object that begins so which no initialiser gives.
pub fn free_in(
    alloc: Global,
    layout: &Layout,
    t: &CType,
    start: &Start,
) -> Result<Items<Free>, Memory>
    ensures { IfOk result (λ found. found ≡ free_in layout.now t.now start.now) }
{
    match start {
        Start::Given(_) | Start::Uninit => Ok(Items::new(alloc)),
        Start::Any => {
            let parts = parts_of(alloc, layout, t)?;
            Ok(freed(alloc, parts.as_slice(), [].as_slice())?)
        }
        Start::Choice(target) => {
            let mut found = Items::new(alloc);
            found.push(Free::Pointer {
                at: 0,
                target: *target,
            })?;
            Ok(found)
        }
        Start::Hidden(targets) => {
            let parts = parts_of(alloc, layout, t)?;
            Ok(freed(alloc, parts.as_slice(), targets.as_slice())?)
        }
    }
}
