//! Lists of specifiers (C11 6.7).

ghost use Rattle.std.specs.Prelude.{◌≡◌};
ghost use Rattle.c_tree.specs.declared.tree.Spec.{out-Spec};
ghost use Rattle.elab_environment.specs.Elaborating.{Gives};
ghost use Rattle.elab_rules.specs.Specifiers.{nothing_said};
ghost use Rattle.elab_rules.specs.Lists as spec;
ghost use Rattle.elab_rules.specs.Levels.{nest};
ghost use Rattle.elab_declarators.specs.Below.{Constants, Declarators, Lists};

use crate::nest::Level;
use crate::structs::Keyword;
use c_tree::{Declarator, Ex, Spec};
use elab_environment::{Constant, Environment, Word};
use elab_rules::{Declared, Gathered, Nearest, Specified, Where};
use elab_specifiers::{nothing_said, specified, typedef_type, with_type, word_said};
use elab_types::SourceType;
use std::alloc::{AllocError, Global};

fn says_union(word: Option<Word>) -> bool
    ensures { result ≡ spec.says_union word }
{
    match word {
        Some(Word::Union) => true,
        _ => false,
    }
}

impl<
    C: Fn(Global, &mut Environment, u32, &Ex) -> Result<Constant, AllocError>,
    S: Fn(Global, &mut Environment, u32, bool, u32, &[Spec]) -> Result<Specified, AllocError>,
    D: Fn(
        Global,
        &mut Environment,
        u32,
        Where,
        SourceType,
        Nearest,
        &Declarator,
    ) -> Result<Declared, AllocError>,
> Level<C, S, D> {
    /// The list with a further specifier.
    fn said(
        &self,
        env: &mut Environment,
        is_alone: bool,
        gathered: Gathered,
        specifier: &Spec,
    ) -> Result<Gathered, AllocError>
        requires constants { Constants self.now.room (C.pre self.now.constant) (C.post self.now.constant) }
        requires lists { Lists self.now.room (S.pre self.now.specifiers) (S.post self.now.specifiers) }
        requires declarators { Declarators self.now.room (D.pre self.now.declarator) (D.post self.now.declarator) }
        ensures { Gives (spec.said (nest self.now.room) is_alone gathered (out-Spec specifier.now) env.old) result env.new }
    {
        match specifier {
            Spec::Word { at } => word_said(env, *at, env.word_at(*at), gathered),
            Spec::Named { at } => {
                let t = typedef_type(self.alloc, env, *at)?;
                Ok(with_type(gathered, t))
            }
            Spec::Struct { at, tag, lines } => {
                let keyword = Keyword {
                    at: *at,
                    is_union: says_union(env.word_at(*at)),
                };
                let t = self.struct_type(env, is_alone, keyword, *tag, lines)?;
                Ok(with_type(gathered, t))
            }
            Spec::Enum { at: _, tag, values } => {
                let t = self.enum_type(env, is_alone, *tag, values)?;
                Ok(with_type(gathered, t))
            }
        }
    }

    /// What a list of specifiers says, where rules nest one deeper than the room. `is_alone` says whether it is a whole
    /// declaration, of a tag; `at` is the declaration's first token.
    #[tactic(auto, unfolding(elab_rules::specs::Lists::specifiers))]
    pub fn specifiers(
        &self,
        env: &mut Environment,
        is_alone: bool,
        at: u32,
        specifiers: &[Spec],
    ) -> Result<Specified, AllocError>
        requires constants { Constants self.now.room (C.pre self.now.constant) (C.post self.now.constant) }
        requires lists { Lists self.now.room (S.pre self.now.specifiers) (S.post self.now.specifiers) }
        requires declarators { Declarators self.now.room (D.pre self.now.declarator) (D.post self.now.declarator) }
        ensures { Gives (spec.specifiers (nest self.now.room) is_alone at specifiers.now env.old) result env.new }
    {
        let mut gathered = nothing_said();
        for specifier in specifiers {
            gathered = self.said(env, is_alone, gathered, specifier)?;
        }
        specified(self.alloc, env, at, gathered)
    }
}
