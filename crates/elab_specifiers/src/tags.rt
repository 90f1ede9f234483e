//! Which tag is meant (C11 6.7.2.3).

ghost use Rattle.std.specs.Prelude.{◌≡◌, not, ◌||◌, ◌&&◌, Some};
ghost use Rattle.elab_environment.specs.Elaborating.{Gives};
ghost use Rattle.elab_environment.specs.Tags.{same_tag_kind, has_no_body, tag_at};
ghost use Rattle.elab_rules.specs.Tags as spec;

use elab_environment::{Environment, Tag, TagKind};
use elab_findings::Rule;
use std::alloc::{AllocError, Global};

/// What a specifier with a tag wants: the sort, and whether it is a whole declaration and has a body.
#[derive(Clone, Copy, Debug, Drop, PartialEq, Eq)]
pub struct Wanted {
    pub kind: TagKind,
    pub is_alone: bool,
    pub has_body: bool,
}

/// The sort of a struct's or union's tag.
pub fn sort_of(is_union: bool) -> TagKind
    ensures { result ≡ spec.sort_of is_union }
{
    if is_union {
        TagKind::Union
    } else {
        TagKind::Struct
    }
}

fn fresh(
    alloc: Global,
    env: &mut Environment,
    kind: TagKind,
    name: Option<u32>,
) -> Result<Option<u32>, AllocError>
    ensures { Gives (spec.fresh kind name env.old) result env.new }
{
    let number = env.fresh_tag(alloc, kind, name)?;
    Ok(Some(number))
}

impl Wanted {
    fn clash(
        self,
        alloc: Global,
        env: &mut Environment,
        token: u32,
    ) -> Result<Option<u32>, AllocError>
        ensures { Gives (spec.clashing self.kind token self.has_body env.old) result env.new }
    {
        env.refuse(token, Rule::Redefined)?;
        if self.has_body {
            fresh(alloc, env, self.kind, None)
        } else {
            Ok(None)
        }
    }

    fn is_clash(self, tag: Tag) -> bool
        ensures { result ≡ (not (same_tag_kind tag.kind self.kind) || (self.has_body && not (has_no_body tag.body))) }
    {
        !tag.kind.is_same(self.kind) || (self.has_body && !tag.body.is_none())
    }

    /// The tag that was found, where it is of the sort, and has no body yet where one follows.
    fn known(
        self,
        alloc: Global,
        env: &mut Environment,
        token: u32,
        number: u32,
    ) -> Result<Option<u32>, AllocError>
        ensures { Gives (spec.meant_tag self.kind token self.has_body number (tag_at env.old number) env.old) result env.new }
    {
        match env.tag_at(number) {
            Some(tag) => {
                if self.is_clash(tag) {
                    self.clash(alloc, env, token)
                } else {
                    Ok(Some(number))
                }
            }
            None => Ok(None),
        }
    }

    fn new_one(
        self,
        alloc: Global,
        env: &mut Environment,
        token: u32,
        name: u32,
    ) -> Result<Option<u32>, AllocError>
        ensures { Gives (spec.new_one self.kind token name self.has_body env.old) result env.new }
    {
        if self.kind.is_enum() && !self.has_body {
            env.refuse(token, Rule::UnknownName)?;
            Ok(None)
        } else {
            fresh(alloc, env, self.kind, Some(name))
        }
    }

    fn look_up(self, env: &Environment, name: u32) -> Option<u32>
        ensures { result ≡ spec.looked_up self.kind self.is_alone self.has_body name env.now }
    {
        if self.has_body || (self.is_alone && !self.kind.is_enum()) {
            env.find_tag_here(name)
        } else {
            env.find_tag(name)
        }
    }

    fn named(
        self,
        alloc: Global,
        env: &mut Environment,
        token: u32,
        name: u32,
    ) -> Result<Option<u32>, AllocError>
        ensures { Gives (spec.meant self.kind self.is_alone token self.has_body (Some name) env.old) result env.new }
    {
        match self.look_up(env, name) {
            Some(number) => self.known(alloc, env, token, number),
            None => self.new_one(alloc, env, token, name),
        }
    }
}

/// The number of the tag that a specifier stands for, by the token of its name: a known one, or a new one of the innermost
/// block. None where a tag of that name is of another sort, has a body already, or stands for no enumeration; each is noted.
pub fn meant_tag(
    alloc: Global,
    env: &mut Environment,
    wanted: Wanted,
    token: Option<u32>,
) -> Result<Option<u32>, AllocError>
    ensures { Gives (spec.meant_at wanted.kind wanted.is_alone wanted.has_body token env.old) result env.new }
{
    let Some(token) = token else {
        return fresh(alloc, env, wanted.kind, None);
    };
    match env.name_at(token) {
        Some(name) => wanted.named(alloc, env, token, name),
        None => fresh(alloc, env, wanted.kind, None),
    }
}
