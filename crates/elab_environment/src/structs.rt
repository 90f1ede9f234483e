//! The members of structs and unions, and their completion (C11 6.7.2.1).

ghost use Rattle.std.specs.Prelude.{◌≡◌, slice_get, IfOk};
ghost use Rattle.elab_environment.specs.Elaborating.{Gives};
ghost use Rattle.elab_environment.specs.Structs as spec;

use crate::state::{Collected, Environment, Field, Struct};
use c_types::{Declared, StructId, lay_out};
use elab_findings::Rule;
use elab_types::{Extent, SourceType, copy_source, ctype};
use sqlite_items::Items;
use std::alloc::{AllocError, Global};

fn is_name(name: u32, other: Option<u32>) -> bool
    ensures { result ≡ spec.same_name name other }
{
    match other {
        Some(other) => name == other,
        None => false,
    }
}

/// Whether some of these members has a name.
pub fn any_named(members: &[Collected]) -> bool
    ensures { result ≡ spec.any_named members.now }
{
    members.iter().any(|c| c.name.is_some())
}

fn has_name(name: u32, members: &[Collected]) -> bool
    ensures { result ≡ spec.has_name name members.now }
{
    members.iter().any(|c| is_name(name, c.name))
}

fn is_twice(name: Option<u32>, members: &[Collected]) -> bool
    ensures { result ≡ spec.is_twice name members.now }
{
    match name {
        Some(name) => has_name(name, members),
        None => false,
    }
}

/// Whether a type is an array whose length stays unknown.
#[tactic(auto, unfolding(crate::specs::Structs::is_open_array))]
pub fn is_open_array(t: &SourceType) -> bool
    ensures { result ≡ spec.is_open_array t.now }
{
    match t {
        SourceType::Array(_, Extent::Unknown) => true,
        SourceType::Array(_, Extent::Length(_)) => false,
        SourceType::Array(_, Extent::Variable) => false,
        SourceType::Void(_) | SourceType::Int(_, _) | SourceType::Pointer(_, _) => false,
        SourceType::Struct(_, _) | SourceType::Function(_, _, _) => false,
        SourceType::Floating(_) | SourceType::Faulty => false,
    }
}

fn declared(alloc: Global, members: &[Collected]) -> Result<Items<Declared>, AllocError>
    ensures { IfOk result (λ ms. ms ≡ spec.laid members.now) }
{
    let mut all = Items::new(alloc);
    for c in members {
        all.push(Declared {
            name: c.name,
            ctype: ctype(alloc, &c.ty)?,
            bits: c.bits,
        })?;
    }
    Ok(all)
}

fn fields_of(alloc: Global, members: &[Collected]) -> Result<Items<Field>, AllocError>
    ensures { IfOk result (λ fs. fs ≡ spec.fields_of members.now) }
{
    let mut fields = Items::new(alloc);
    for c in members {
        if let Some(name) = c.name {
            fields.push(Field {
                name,
                ty: copy_source(alloc, &c.ty)?,
                bits: c.bits,
            })?;
        }
    }
    Ok(fields)
}

impl Environment {
    /// The members with one more. Where its name is one of theirs, that is noted at its token, and it is left out.
    #[tactic(auto, unfolding(crate::specs::Structs::collect))]
    pub fn collect(
        &mut self,
        token: u32,
        member: Collected,
        members: Items<Collected>,
    ) -> Result<Items<Collected>, AllocError>
        ensures { Gives (spec.collect token member members self.old) result self.new }
    {
        let mut members = members;
        if is_twice(member.name, members.as_slice()) {
            self.refuse(token, Rule::Redefined)?;
        } else {
            members.push(member)?;
        }
        Ok(members)
    }

    fn is_const_struct(&self, id: StructId) -> bool
        ensures { result ≡ spec.const_struct (slice_get self.now.structs id.0) }
    {
        match self.structs.get(id.0 as usize) {
            Some(body) => body.has_const,
            None => false,
        }
    }

    /// Whether a type is const, or has a const member at any depth (C11 6.3.2.1p1).
    #[tactic(auto, using(crate::proofs::ConstEquations::const_equations))]
    pub fn has_const(&self, t: &SourceType) -> bool
        ensures { result ≡ spec.has_const self.now t.now }
    {
        match t {
            SourceType::Int(_, q) => q.is_const,
            SourceType::Pointer(_, q) => q.is_const,
            SourceType::Array(element, _) => self.has_const(element.get()),
            SourceType::Struct(id, q) => q.is_const || self.is_const_struct(*id),
            SourceType::Void(_) | SourceType::Function(_, _, _) => false,
            SourceType::Floating(_) | SourceType::Faulty => false,
        }
    }

    fn any_const(&self, members: &[Collected]) -> bool
        ensures { result ≡ spec.any_const self.now members.now }
    {
        for c in members {
            if self.has_const(&c.ty) {
                return true;
            }
        }
        false
    }

    fn any_flexible(&self, is_union: bool, members: &[Collected]) -> bool
        ensures { result ≡ spec.any_flexible self.now is_union members.now }
    {
        for c in members {
            if is_open_array(&c.ty) || (is_union && self.is_flexible(&c.ty)) {
                return true;
            }
        }
        false
    }

    fn tag_of(&self, id: u32) -> u32
        ensures { result ≡ spec.tag_of (slice_get self.now.layout.structs id) }
    {
        match self.layout.structs.get(id as usize) {
            Some(info) => info.tag,
            None => 0,
        }
    }

    /// Completes a struct or union by its members (C11 6.7.2.1p8).
    #[tactic(auto, unfolding(crate::specs::Structs::completed))]
    pub fn complete(
        &mut self,
        alloc: Global,
        id: u32,
        is_union: bool,
        members: &[Collected],
    ) -> Result<(), AllocError>
        ensures { Gives (tt, spec.completed id is_union members.now self.old) result self.new }
    {
        let is_flexible = self.any_flexible(is_union, members);
        let has_const = self.any_const(members);
        let laid = declared(alloc, members)?;
        let info = lay_out(
            alloc,
            &self.layout,
            self.tag_of(id),
            is_union,
            laid.as_slice(),
        )?;
        let place = id as usize;
        if place < self.structs.len() {
            self.structs.set(
                place,
                Struct {
                    is_union,
                    is_complete: true,
                    is_flexible,
                    has_const,
                    fields: fields_of(alloc, members)?,
                },
            );
        }
        if place < self.layout.structs.len() {
            self.layout.structs.set(place, info);
        }
        Ok(())
    }
}
