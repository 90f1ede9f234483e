//! Bodies of structs and unions (C11 6.7.2.1).

ghost use Rattle.std.specs.Prelude.{◌≡◌, []};
ghost use Rattle.c_tree.specs.declared.tree.MemberLine.{out-MemberLine};
ghost use Rattle.elab_environment.specs.Elaborating.{Gives};
ghost use Rattle.elab_environment.specs.Steps.{within};
ghost use Rattle.elab_rules.specs.Tags as spec;
ghost use Rattle.elab_rules.specs.Levels.{nest};
ghost use Rattle.elab_declarators.specs.Below.{Constants, Declarators, Lists};

use crate::nest::Level;
use c_tree::{Declarator, Ex, MemberLine, MemberPart, Spec};
use elab_environment::{Body, Collected, Constant, Environment, Tag, any_named};
use elab_rules::{Declared, Nearest, Specified, Where};
use elab_specifiers::{
    MemberPlace, Wanted, empty_line, end_body, meant_tag, sort_of, with_bit_field, with_member,
};
use elab_types::{Qualifiers, SourceType, copy_source};
use sqlite_items::Items;
use std::alloc::{AllocError, Global};

/// The token of the word `struct` or `union`, and which it is.
#[derive(Clone, Copy, Debug, Drop, PartialEq, Eq)]
pub struct Keyword {
    pub at: u32,
    pub is_union: bool,
}

fn no_part(parts: &[MemberPart]) -> bool
    ensures { result ≡ spec.is_last parts.now }
{
    parts.is_empty()
}

fn no_line(lines: &[MemberLine]) -> bool
    ensures { result ≡ spec.is_last lines.now }
{
    lines.is_empty()
}

impl<
    C: Fn(Global, &mut Environment, u32, &Ex) -> Result<Constant, AllocError>,
    S: Fn(Global, &mut Environment, u32, bool, u32, &[Spec]) -> Result<Specified, AllocError>,
    D: Fn(
        Global,
        &mut Environment,
        u32,
        Where,
        SourceType,
        Nearest,
        &Declarator,
    ) -> Result<Declared, AllocError>,
> Level<C, S, D> {
    /// The members with one more declarator of a line.
    fn member(
        &self,
        env: &mut Environment,
        place: MemberPlace,
        declared: Declared,
        width: &Option<Ex>,
        members: Items<Collected>,
    ) -> Result<Items<Collected>, AllocError>
        requires constants { Constants self.now.room (C.pre self.now.constant) (C.post self.now.constant) }
        ensures { Gives (spec.member (nest self.now.room) place.at place.is_union place.may_be_open declared width.now members env.old) result env.new }
    {
        match width {
            Some(e) => {
                let constant = self.constant_below(env, e)?;
                with_bit_field(env, place.at, declared, constant, members)
            }
            None => with_member(env, place, declared, members),
        }
    }

    /// The members with those of a line, of its specifiers' type.
    fn members(
        &self,
        env: &mut Environment,
        is_union: bool,
        is_last: bool,
        t: &SourceType,
        parts: &[MemberPart],
        before: Items<Collected>,
    ) -> Result<Items<Collected>, AllocError>
        requires constants { Constants self.now.room (C.pre self.now.constant) (C.post self.now.constant) }
        requires declarators { Declarators self.now.room (D.pre self.now.declarator) (D.post self.now.declarator) }
        ensures { Gives (spec.members (nest self.now.room) is_union is_last t.now parts.now before env.old) result env.new }
    {
        let mut members = before;
        let mut rest = parts;
        while let Some((part, tail)) = rest.split_first() {
            let ty = copy_source(self.alloc, t)?;
            let d = &part.declarator;
            let declared = self.declarator_below(env, Where::Member, ty, Nearest::Other, d)?;
            let is_behind = !is_union && any_named(members.as_slice());
            let place = MemberPlace {
                at: d.at,
                is_union,
                may_be_open: is_last && (no_part(tail) && is_behind),
            };
            members = self.member(env, place, declared, &part.width, members)?;
            rest = tail;
        }
        Ok(members)
    }

    fn line(
        &self,
        env: &mut Environment,
        is_union: bool,
        is_last: bool,
        line: &MemberLine,
        members: Items<Collected>,
    ) -> Result<Items<Collected>, AllocError>
        requires constants { Constants self.now.room (C.pre self.now.constant) (C.post self.now.constant) }
        requires lists { Lists self.now.room (S.pre self.now.specifiers) (S.post self.now.specifiers) }
        requires declarators { Declarators self.now.room (D.pre self.now.declarator) (D.post self.now.declarator) }
        ensures { Gives (spec.line (nest self.now.room) is_union is_last line.now members env.old) result env.new }
    {
        let specified = self.specifiers_below(env, false, line.at, line.specs.as_slice())?;
        let parts = line.parts.as_slice();
        match parts.split_first() {
            Some((_, _)) => self.members(env, is_union, is_last, &specified.ty, parts, members),
            None => {
                empty_line(env, line.at, line.specs.as_slice())?;
                Ok(members)
            }
        }
    }

    fn lines(
        &self,
        env: &mut Environment,
        is_union: bool,
        lines: &[MemberLine],
    ) -> Result<Items<Collected>, AllocError>
        requires constants { Constants self.now.room (C.pre self.now.constant) (C.post self.now.constant) }
        requires lists { Lists self.now.room (S.pre self.now.specifiers) (S.post self.now.specifiers) }
        requires declarators { Declarators self.now.room (D.pre self.now.declarator) (D.post self.now.declarator) }
        ensures { Gives (spec.lines (nest self.now.room) is_union lines.now [] env.old) result env.new }
    {
        let mut members = Items::new(self.alloc);
        let mut rest = lines;
        while let Some((line, tail)) = rest.split_first() {
            members = self.line(env, is_union, no_line(tail), line, members)?;
            rest = tail;
        }
        Ok(members)
    }

    /// Reads a body, if it stands there. What it names, the declaration of its tag names.
    fn struct_body(
        &self,
        env: &mut Environment,
        keyword: Keyword,
        number: u32,
        tag: Tag,
        lines: &Option<Items<MemberLine>>,
    ) -> Result<(), AllocError>
        requires constants { Constants self.now.room (C.pre self.now.constant) (C.post self.now.constant) }
        requires lists { Lists self.now.room (S.pre self.now.specifiers) (S.post self.now.specifiers) }
        requires declarators { Declarators self.now.room (D.pre self.now.declarator) (D.post self.now.declarator) }
        ensures { Gives (within tag.declaration (spec.struct_body (nest self.now.room) keyword.at number tag.id.0 keyword.is_union lines.now) env.old) result env.new }
    {
        let Some(lines) = lines else {
            return Ok(());
        };
        let is_union = keyword.is_union;
        let outer = env.enter_declaration(tag.declaration);
        env.set_body(Body::Open, number);
        let members = self.lines(env, is_union, lines.as_slice())?;
        end_body(
            self.alloc, env, keyword.at, number, tag.id.0, is_union, members,
        )?;
        let _inner = env.enter_declaration(outer);
        Ok(())
    }

    /// `struct` or `union` with its tag and body.
    #[tactic(auto, unfolding(elab_rules::specs::Tags::struct_type))]
    pub fn struct_type(
        &self,
        env: &mut Environment,
        is_alone: bool,
        keyword: Keyword,
        tag: Option<u32>,
        lines: &Option<Items<MemberLine>>,
    ) -> Result<SourceType, AllocError>
        requires constants { Constants self.now.room (C.pre self.now.constant) (C.post self.now.constant) }
        requires lists { Lists self.now.room (S.pre self.now.specifiers) (S.post self.now.specifiers) }
        requires declarators { Declarators self.now.room (D.pre self.now.declarator) (D.post self.now.declarator) }
        ensures { Gives (spec.struct_type (nest self.now.room) is_alone keyword.at keyword.is_union tag lines.now env.old) result env.new }
    {
        let wanted = Wanted {
            kind: sort_of(keyword.is_union),
            is_alone,
            has_body: lines.is_some(),
        };
        let Some(number) = meant_tag(self.alloc, env, wanted, tag)? else {
            return Ok(SourceType::Faulty);
        };
        let Some(tag) = env.tag_at(number) else {
            return Ok(SourceType::Faulty);
        };
        env.mention(tag.declaration)?;
        self.struct_body(env, keyword, number, tag, lines)?;
        Ok(SourceType::Struct(tag.id, Qualifiers::NONE))
    }
}
