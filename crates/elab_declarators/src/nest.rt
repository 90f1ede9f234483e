//! What the rules ask for, one level of nesting below.

ghost use Rattle.std.specs.Prelude.{◌≡◌};
ghost use Rattle.elab_environment.specs.Elaborating.{Gives};
ghost use Rattle.elab_rules.specs.Levels as spec;
ghost use Rattle.elab_rules.specs.Levels.{nest};
ghost use Rattle.elab_declarators.specs.Below.{Constants, Declarators, Lists};

use c_tree::{Declarator, Ex, Spec};
use elab_environment::{Constant, Environment};
use elab_rules::{Declared, Nearest, Specified, Where};
use elab_types::SourceType;
use std::alloc::{AllocError, Global};

/// How deep specifiers and declarators may still nest, and the elaboration of constants, of lists of specifiers and of
/// declarators in so much room. A file whose tree nests less deep than the room asks for no level below 0.
#[derive(Clone, Copy)]
pub struct Level<C, S, D> {
    pub alloc: Global,
    pub room: u32,
    pub constant: C,
    pub specifiers: S,
    pub declarator: D,
}

impl<
    C: Fn(Global, &mut Environment, u32, &Ex) -> Result<Constant, AllocError>,
    S: Fn(Global, &mut Environment, u32, bool, u32, &[Spec]) -> Result<Specified, AllocError>,
    D: Fn(
        Global,
        &mut Environment,
        u32,
        Where,
        SourceType,
        Nearest,
        &Declarator,
    ) -> Result<Declared, AllocError>,
> Level<C, S, D> {
    pub fn constant_below(&self, env: &mut Environment, e: &Ex) -> Result<Constant, AllocError>
        requires { Constants self.now.room (C.pre self.now.constant) (C.post self.now.constant) }
        ensures { Gives ((nest self.now.room).constant e.now env.old) result env.new }
    {
        (self.constant)(self.alloc, env, self.room, e)
    }

    pub fn specifiers_below(
        &self,
        env: &mut Environment,
        is_alone: bool,
        at: u32,
        specifiers: &[Spec],
    ) -> Result<Specified, AllocError>
        requires { Lists self.now.room (S.pre self.now.specifiers) (S.post self.now.specifiers) }
        ensures { Gives ((nest self.now.room).specifiers is_alone at specifiers.now env.old) result env.new }
    {
        (self.specifiers)(self.alloc, env, self.room, is_alone, at, specifiers)
    }

    pub fn declarator_below(
        &self,
        env: &mut Environment,
        place: Where,
        t: SourceType,
        nearest: Nearest,
        d: &Declarator,
    ) -> Result<Declared, AllocError>
        requires { Declarators self.now.room (D.pre self.now.declarator) (D.post self.now.declarator) }
        ensures { Gives ((nest self.now.room).declarator place t nearest d.now env.old) result env.new }
    {
        (self.declarator)(self.alloc, env, self.room, place, t, nearest, d)
    }
}

/// What a list of specifiers says where none may nest any more.
pub fn nothing_specified() -> Specified
    ensures { result ≡ spec.nothing_specified }
{
    Specified {
        storage: None,
        is_inline: false,
        is_function: false,
        ty: SourceType::Faulty,
    }
}

/// What a declarator declares where none may nest any more.
pub fn nothing_declared() -> Declared
    ensures { result ≡ spec.nothing_declared }
{
    Declared {
        ty: SourceType::Faulty,
        name: None,
        nearest: Nearest::Other,
    }
}
