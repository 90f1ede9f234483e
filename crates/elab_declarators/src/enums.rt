//! Bodies of enumerations (C11 6.7.2.2).

ghost use Rattle.std.specs.Prelude.{pos, Some};
ghost use Rattle.elab_environment.specs.Elaborating.{Gives};
ghost use Rattle.elab_rules.specs.Tags as spec;
ghost use Rattle.elab_rules.specs.Levels.{nest};
ghost use Rattle.elab_declarators.specs.Below.{Constants};

use crate::nest::Level;
use c_tree::{Declarator, Enumerator, Ex, Spec};
use c_types::IntKind;
use elab_environment::{Body, Constant, Environment, TagKind};
use elab_rules::{Declared, Nearest, Specified, Where};
use elab_specifiers::{Wanted, declare_enumerator, enumerator, meant_tag};
use elab_types::{Qualifiers, SourceType};
use sqlite_items::Items;
use std::alloc::{AllocError, Global};

impl<
    C: Fn(Global, &mut Environment, u32, &Ex) -> Result<Constant, AllocError>,
    S: Fn(Global, &mut Environment, u32, bool, u32, &[Spec]) -> Result<Specified, AllocError>,
    D: Fn(
        Global,
        &mut Environment,
        u32,
        Where,
        SourceType,
        Nearest,
        &Declarator,
    ) -> Result<Declared, AllocError>,
> Level<C, S, D> {
    /// The value of an enumerator, `next` where it has no expression.
    fn next_value(
        &self,
        env: &mut Environment,
        name: u32,
        value: &Option<Ex>,
        next: i128,
    ) -> Result<i128, AllocError>
        requires constants { Constants self.now.room (C.pre self.now.constant) (C.post self.now.constant) }
        ensures { Gives (spec.next_value (nest self.now.room) name value.now next env.old) result env.new }
    {
        match value {
            Some(e) => {
                let constant = self.constant_below(env, e)?;
                enumerator(env, e.at, constant)
            }
            None => enumerator(env, name, Constant::Number(next)),
        }
    }

    fn enumerators(
        &self,
        env: &mut Environment,
        declaration: u32,
        values: &[Enumerator],
    ) -> Result<(), AllocError>
        requires constants { Constants self.now.room (C.pre self.now.constant) (C.post self.now.constant) }
        ensures { Gives (spec.enumerators (nest self.now.room) declaration (pos 0) values.now env.old) result env.new }
    {
        let mut next = 0;
        for e in values {
            let value = self.next_value(env, e.name, &e.value, next)?;
            declare_enumerator(env, e.name, value, declaration)?;
            // A value is one of int's.
            if value > 0x7fff_ffff {
                return Err(AllocError);
            }
            next = value + 1;
        }
        Ok(())
    }

    fn enum_body(
        &self,
        env: &mut Environment,
        tag: u32,
        declaration: u32,
        values: &Option<Items<Enumerator>>,
    ) -> Result<(), AllocError>
        requires constants { Constants self.now.room (C.pre self.now.constant) (C.post self.now.constant) }
        ensures { Gives (spec.enum_body (nest self.now.room) tag declaration values.now env.old) result env.new }
    {
        let Some(values) = values else {
            return Ok(());
        };
        self.enumerators(env, declaration, values.as_slice())?;
        env.set_body(Body::Closed, tag);
        Ok(())
    }

    fn enum_of(
        &self,
        env: &mut Environment,
        number: u32,
        values: &Option<Items<Enumerator>>,
    ) -> Result<SourceType, AllocError>
        requires constants { Constants self.now.room (C.pre self.now.constant) (C.post self.now.constant) }
        ensures { Gives (spec.enum_meant (nest self.now.room) values.now (Some number) env.old) result env.new }
    {
        let Some(tag) = env.tag_at(number) else {
            return Ok(SourceType::Faulty);
        };
        env.mention(tag.declaration)?;
        let outer = env.enter_declaration(tag.declaration);
        self.enum_body(env, number, tag.declaration, values)?;
        let _inner = env.enter_declaration(outer);
        Ok(SourceType::Int(IntKind::Int, Qualifiers::NONE))
    }

    /// `enum` with its tag and body, which has the type int.
    #[tactic(auto, unfolding(elab_rules::specs::Tags::enum_type))]
    pub fn enum_type(
        &self,
        env: &mut Environment,
        is_alone: bool,
        tag: Option<u32>,
        values: &Option<Items<Enumerator>>,
    ) -> Result<SourceType, AllocError>
        requires constants { Constants self.now.room (C.pre self.now.constant) (C.post self.now.constant) }
        ensures { Gives (spec.enum_type (nest self.now.room) is_alone tag values.now env.old) result env.new }
    {
        let wanted = Wanted {
            kind: TagKind::Enum,
            is_alone,
            has_body: values.is_some(),
        };
        match meant_tag(self.alloc, env, wanted, tag)? {
            Some(number) => self.enum_of(env, number, values),
            None => Ok(SourceType::Faulty),
        }
    }
}
