//! The forms of a declarator (C11 6.7.6), and type names (6.7.7).

ghost use Rattle.elab_environment.specs.Elaborating.{Gives};
ghost use Rattle.elab_rules.specs.Forms as spec;
ghost use Rattle.elab_rules.specs.Levels.{nest};
ghost use Rattle.elab_declarators.specs.Below.{Constants, Declarators, Lists};

use crate::arrays::{array_nearest, named, stands_inside};
use crate::nest::Level;
use crate::pointers::pointer;
use c_tree::{DeclForm, Declarator, Ex, Param, Spec};
use elab_environment::{Constant, Environment};
use elab_rules::{Declared, Nearest, Specified, Where};
use elab_types::SourceType;
use std::alloc::{AllocError, Global};

impl<
    C: Fn(Global, &mut Environment, u32, &Ex) -> Result<Constant, AllocError>,
    S: Fn(Global, &mut Environment, u32, bool, u32, &[Spec]) -> Result<Specified, AllocError>,
    D: Fn(
        Global,
        &mut Environment,
        u32,
        Where,
        SourceType,
        Nearest,
        &Declarator,
    ) -> Result<Declared, AllocError>,
> Level<C, S, D> {
    /// A declarator of a type derived so far, with the derivation nearest to it, where rules nest one
    /// deeper than the room.
    #[tactic(auto, unfolding(elab_rules::specs::Forms::declarator))]
    pub fn declarator(
        &self,
        env: &mut Environment,
        place: Where,
        t: SourceType,
        nearest: Nearest,
        d: &Declarator,
    ) -> Result<Declared, AllocError>
        requires constants { Constants self.now.room (C.pre self.now.constant) (C.post self.now.constant) }
        requires lists { Lists self.now.room (S.pre self.now.specifiers) (S.post self.now.specifiers) }
        requires declarators { Declarators self.now.room (D.pre self.now.declarator) (D.post self.now.declarator) }
        ensures { Gives (spec.declarator (nest self.now.room) place t nearest d.now env.old) result env.new }
    {
        match &d.form {
            DeclForm::Name => named(env, place, t, nearest, Some(d.at)),
            DeclForm::Abstract => named(env, place, t, nearest, None),
            DeclForm::Paren(inner) => self.declarator_below(env, place, t, nearest, inner.get()),
            DeclForm::Pointer { words, inner } => {
                stands_inside(env, &nearest)?;
                let t = pointer(self.alloc, env, d.at, words.as_slice(), t)?;
                self.declarator_below(env, place, t, Nearest::Other, inner.get())
            }
            DeclForm::Array {
                inner,
                words,
                length,
            } => {
                stands_inside(env, &nearest)?;
                let t = self.array(env, place, d.at, length, t)?;
                let nearest = array_nearest(env, d.at, words.as_slice());
                self.declarator_below(env, place, t, nearest, inner.get())
            }
            DeclForm::Function {
                inner,
                params,
                variadic,
            } => {
                stands_inside(env, &nearest)?;
                let (t, taken) = self.function(env, d.at, params.as_slice(), *variadic, t)?;
                self.declarator_below(env, place, t, Nearest::Function(taken), inner.get())
            }
        }
    }

    /// The type that a type name stands for, where rules nest one deeper than the room.
    #[tactic(auto, unfolding(elab_rules::specs::Forms::type_name))]
    pub fn type_name(&self, env: &mut Environment, param: &Param) -> Result<SourceType, AllocError>
        requires constants { Constants self.now.room (C.pre self.now.constant) (C.post self.now.constant) }
        requires lists { Lists self.now.room (S.pre self.now.specifiers) (S.post self.now.specifiers) }
        requires declarators { Declarators self.now.room (D.pre self.now.declarator) (D.post self.now.declarator) }
        ensures { Gives (spec.type_name (nest self.now.room) param.now env.old) result env.new }
    {
        let specified = self.specifiers_below(env, false, param.at, param.specs.as_slice())?;
        let declared = self.declarator_below(
            env,
            Where::TypeName,
            specified.ty,
            Nearest::Other,
            &param.declarator,
        )?;
        Ok(declared.ty)
    }
}
