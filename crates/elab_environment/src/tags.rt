//! Tags (C11 6.7.2.3).

ghost use Rattle.std.specs.Prelude.{◌≡◌};
ghost use Rattle.std.specs.Option.{option_copied};
ghost use Rattle.elab_environment.specs.Elaborating.{Gives};
ghost use Rattle.elab_environment.specs.Tags as spec;

use crate::state::{Body, Environment, Struct, Tag, TagKind};
use c_types::StructInfo;
use sqlite_items::Items;
use std::alloc::{AllocError, Global};

impl TagKind {
    pub fn is_same(self, other: TagKind) -> bool
        ensures { result ≡ spec.same_tag_kind self other }
    {
        match self {
            TagKind::Struct => match other {
                TagKind::Struct => true,
                TagKind::Union | TagKind::Enum => false,
            },
            TagKind::Union => match other {
                TagKind::Union => true,
                TagKind::Struct | TagKind::Enum => false,
            },
            TagKind::Enum => match other {
                TagKind::Enum => true,
                TagKind::Struct | TagKind::Union => false,
            },
        }
    }

    pub fn is_enum(self) -> bool
        ensures { result ≡ spec.is_enum self }
    {
        self.is_same(TagKind::Enum)
    }

    fn is_union(self) -> bool
        ensures { result ≡ spec.is_union self }
    {
        self.is_same(TagKind::Union)
    }
}

impl Body {
    pub fn is_none(self) -> bool
        ensures { result ≡ spec.has_no_body self }
    {
        match self {
            Body::NoBody => true,
            Body::Open | Body::Closed => false,
        }
    }
}

impl Environment {
    /// The number of the tag that a name stands for.
    pub fn find_tag(&self, name: u32) -> Option<u32>
        ensures { result ≡ spec.find_tag self.now name }
    {
        self.tag_names.find(name)
    }

    /// The number of the tag that a name stands for by a declaration of the innermost block.
    pub fn find_tag_here(&self, name: u32) -> Option<u32>
        ensures { result ≡ spec.find_tag_here self.now name }
    {
        self.tag_names.find_here(self.block.tags as usize, name)
    }

    pub fn tag_at(&self, number: u32) -> Option<Tag>
        ensures { result ≡ spec.tag_at self.now number }
    {
        match self.tags.get(number as usize) {
            Some(tag) => Some(*tag),
            None => None,
        }
    }

    fn push_struct(&mut self, alloc: Global, kind: TagKind, name: u32) -> Result<(), AllocError>
        ensures { Gives (tt, spec.with_struct kind name self.old) result self.new }
    {
        self.structs.push(Struct {
            is_union: kind.is_union(),
            is_complete: false,
            is_flexible: false,
            has_const: false,
            fields: Items::new(alloc),
        })?;
        self.layout.structs.push(StructInfo {
            tag: name,
            members: Items::new(alloc),
            size_bits: 0,
            align_bits: 0,
            complete: false,
            is_union: kind.is_union(),
        })?;
        Ok(())
    }

    /// A new tag without a body in the innermost block: its number. A struct or union is new with it.
    #[tactic(auto, unfolding(crate::specs::Tags::fresh_tag))]
    pub fn fresh_tag(
        &mut self,
        alloc: Global,
        kind: TagKind,
        name: Option<u32>,
    ) -> Result<u32, AllocError>
        ensures { Gives (spec.fresh_tag kind name self.old) result self.new }
    {
        let number = self.new_tag(alloc, kind)?;
        if !kind.is_enum() {
            self.push_struct(alloc, kind, name.unwrap_or(0))?;
        }
        if let Some(name) = name {
            self.tag_names.declare(name, number)?;
        }
        Ok(number)
    }

    /// Notes how far a tag's body was read.
    #[tactic(auto, unfolding(crate::specs::Tags::body_is))]
    pub fn set_body(&mut self, body: Body, number: u32)
        ensures { self.new ≡ spec.body_is body number self.old }
    {
        if let Some(tag) = self.tag_at(number) {
            let mut tag = tag;
            tag.body = body;
            let place = number as usize;
            if place < self.tags.len() {
                self.tags.set(place, tag);
            }
        }
    }
}
