//! Function declarators (C11 6.7.6.3).

ghost use Rattle.std.specs.Prelude.{[]};
ghost use Rattle.elab_environment.specs.Elaborating.{Gives};
ghost use Rattle.elab_rules.specs.Functions as spec;
ghost use Rattle.elab_rules.specs.Levels.{nest};
ghost use Rattle.elab_declarators.specs.Below.{Declarators, Lists};

use crate::nest::Level;
use crate::parameters::{fits_parameter, is_alone, parameter, result_checked, says_none, taken};
use c_tree::{Declarator, Ex, Param, Spec};
use elab_environment::{Constant, Environment};
use elab_rules::{Declared, Nearest, Parameter, Parameters, Specified, Where};
use elab_specifiers::refuse_if;
use elab_types::{SourceType, copy_source};
use sqlite_items::{Boxed, Items};
use std::alloc::{AllocError, Global};

impl<
    C: Fn(Global, &mut Environment, u32, &Ex) -> Result<Constant, AllocError>,
    S: Fn(Global, &mut Environment, u32, bool, u32, &[Spec]) -> Result<Specified, AllocError>,
    D: Fn(
        Global,
        &mut Environment,
        u32,
        Where,
        SourceType,
        Nearest,
        &Declarator,
    ) -> Result<Declared, AllocError>,
> Level<C, S, D> {
    fn declared_parameter(
        &self,
        env: &mut Environment,
        param: &Param,
    ) -> Result<(Specified, Declared), AllocError>
        requires lists { Lists self.now.room (S.pre self.now.specifiers) (S.post self.now.specifiers) }
        requires declarators { Declarators self.now.room (D.pre self.now.declarator) (D.post self.now.declarator) }
        ensures { Gives (spec.declared_parameter (nest self.now.room) param.now env.old) result env.new }
    {
        let specified = self.specifiers_below(env, false, param.at, param.specs.as_slice())?;
        let fits = fits_parameter(&specified);
        refuse_if(env, !fits, param.at)?;
        let ty = copy_source(self.alloc, &specified.ty)?;
        let declared = self.declarator_below(
            env,
            Where::Parameter,
            ty,
            Nearest::Other,
            &param.declarator,
        )?;
        Ok((specified, declared))
    }

    /// The parameters of a list, each with its type in the function's.
    fn parameters(
        &self,
        env: &mut Environment,
        is_alone: bool,
        params: &[Param],
    ) -> Result<(Items<Parameter>, Items<SourceType>), AllocError>
        requires lists { Lists self.now.room (S.pre self.now.specifiers) (S.post self.now.specifiers) }
        requires declarators { Declarators self.now.room (D.pre self.now.declarator) (D.post self.now.declarator) }
        ensures { Gives (spec.parameters (nest self.now.room) is_alone params.now ([], []) env.old) result env.new }
    {
        let mut list = Items::new(self.alloc);
        let mut types = Items::new(self.alloc);
        for param in params {
            let (specified, declared) = self.declared_parameter(env, param)?;
            if says_none(is_alone, &specified, &declared) {
                return Ok((list, types));
            }
            let (of_function, t) = parameter(self.alloc, env, param, specified, declared)?;
            list.push(of_function)?;
            types.push(t)?;
        }
        Ok((list, types))
    }

    /// The function that returns a type, and its parameters with what they declare.
    #[tactic(auto, unfolding(elab_rules::specs::Functions::function))]
    pub fn function(
        &self,
        env: &mut Environment,
        at: u32,
        params: &[Param],
        variadic: bool,
        t: SourceType,
    ) -> Result<(SourceType, Parameters), AllocError>
        requires lists { Lists self.now.room (S.pre self.now.specifiers) (S.post self.now.specifiers) }
        requires declarators { Declarators self.now.room (D.pre self.now.declarator) (D.post self.now.declarator) }
        ensures { Gives (spec.function (nest self.now.room) at params.now variadic t env.old) result env.new }
    {
        let returned = result_checked(env, at, t)?;
        let outer = env.begin_block()?;
        let (list, types) = self.parameters(env, is_alone(variadic, params), params)?;
        let taken = taken(self.alloc, env, at, variadic, list)?;
        env.end_block(outer);
        let t = SourceType::Function(Boxed::new(self.alloc, returned)?, types, variadic);
        Ok((t, taken))
    }
}
