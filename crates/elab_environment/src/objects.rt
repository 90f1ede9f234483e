//! Objects, and identifiers without linkage (C11 6.2.2p6, 6.7p3).

ghost use Rattle.std.specs.Prelude.{◌≡◌};
ghost use Rattle.std.specs.Option.{option_copied};
ghost use Rattle.elab_environment.specs.Elaborating.{Gives};
ghost use Rattle.elab_environment.specs.Steps as steps;
ghost use Rattle.elab_environment.specs.Objects as spec;

use crate::state::{Entity, Environment, Named, Object};
use elab_findings::Rule;
use elab_types::{Likeness, SourceType, alike};
use std::alloc::{AllocError, Global};

impl Environment {
    /// What an identifier stands for by a declaration of the innermost block.
    pub fn find_here(&self, name: u32) -> Option<&Named>
        ensures { option_copied result ≡ steps.find_here self.now name }
    {
        match self.names.find_here(self.block.names as usize, name) {
            Some(number) => self.named.get(number as usize),
            None => None,
        }
    }

    /// A new object: its number.
    #[tactic(auto, unfolding(crate::specs::Objects::new_object))]
    pub fn new_object(&mut self, object: Object) -> Result<u32, AllocError>
        ensures { Gives (spec.new_object object self.old) result self.new }
    {
        let number = self.objects.len();
        // Numbers are u32. No file is long enough to need more.
        if number > 0xffff_ffff {
            return Err(AllocError);
        }
        self.objects.push(object)?;
        Ok(number as u32)
    }

    /// A new identifier in the innermost block, by its token. Where it stands for something there already, that is noted.
    #[tactic(auto, unfolding(crate::specs::Objects::bind))]
    pub fn bind(
        &mut self,
        token: u32,
        name: u32,
        entity: Entity,
        declaration: u32,
    ) -> Result<(), AllocError>
        ensures { Gives (spec.bind token name entity declaration self.old) result self.new }
    {
        if self.find_here(name).is_some() {
            self.refuse(token, Rule::Redefined)
        } else {
            self.declare(name, entity, declaration)
        }
    }

    /// A typedef name in the innermost block, by its token. It may stand for the same type there already (C11 6.7p3).
    #[tactic(auto, unfolding(crate::specs::Objects::bind_typedef))]
    pub fn bind_typedef(
        &mut self,
        token: u32,
        name: u32,
        t: SourceType,
        declaration: u32,
    ) -> Result<(), AllocError>
        ensures { Gives (spec.bind_typedef token name t declaration self.old) result self.new }
    {
        let Some(named) = self.find_here(name) else {
            return self.declare(name, Entity::Typedef(t), declaration);
        };
        let is_same = match &named.entity {
            Entity::Typedef(u) => alike(Likeness::Same, u, &t),
            Entity::Enumerator(_) | Entity::Object(_) | Entity::Function(_) => false,
        };
        if is_same {
            Ok(())
        } else {
            self.refuse(token, Rule::Redefined)
        }
    }

    /// What uses a declaration uses the one at hand too.
    #[tactic(auto, unfolding(crate::specs::Objects::join))]
    pub fn join(&mut self, entity: u32) -> Result<(), AllocError>
        ensures { Gives (spec.join entity self.old) result self.new }
    {
        self.findings.uses.name(entity, self.declaration)?;
        Ok(())
    }
}
