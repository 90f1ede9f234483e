//! Array declarators (C11 6.7.6.2).

ghost use Rattle.std.specs.Prelude.{◌≡◌, IfOk};
ghost use Rattle.elab_environment.specs.Elaborating.{Gives};
ghost use Rattle.elab_rules.specs.Declarators as spec;
ghost use Rattle.elab_rules.specs.Levels.{nest};
ghost use Rattle.elab_declarators.specs.Below.{Constants};

use crate::nest::Level;
use crate::pointers::{qualifiers_at, volatile_among};
use c_tree::{Declarator, Ex, Spec};
use elab_environment::{Constant, Environment};
use elab_findings::Rule;
use elab_rules::{Brackets, Declared, Nearest, Specified, Where};
use elab_specifiers::{is_faulty, is_function, refuse_if};
use elab_types::{Extent, SourceType};
use sqlite_items::Boxed;
use std::alloc::{AllocError, Global};

fn may_vary(place: Where) -> bool
    ensures { result ≡ spec.may_vary place }
{
    match place {
        Where::Block | Where::Parameter | Where::TypeName => true,
        Where::File | Where::Static | Where::Member => false,
    }
}

fn length(v: i128) -> Option<Extent>
    ensures { result ≡ spec.length_of v }
{
    if v <= 0 {
        None
    } else if v < 0xffff_ffff_ffff_ffff {
        Some(Extent::Length(v as u64))
    } else {
        Some(Extent::Length(0xffff_ffff_ffff_ffff))
    }
}

fn no_length(env: &mut Environment, at: u32) -> Result<Option<Extent>, AllocError>
    ensures { Gives (spec.no_length at env.old) result env.new }
{
    env.refuse(at, Rule::TypeError)?;
    Ok(None)
}

/// The extent that a constant gives an array; none where it breaks a rule.
fn extent(
    env: &mut Environment,
    place: Where,
    at: u32,
    constant: Constant,
) -> Result<Option<Extent>, AllocError>
    ensures { Gives (spec.extent_by place at constant env.old) result env.new }
{
    match constant {
        Constant::Number(v) => match length(v) {
            Some(n) => Ok(Some(n)),
            None => no_length(env, at),
        },
        Constant::Undefined | Constant::OfOtherType => no_length(env, at),
        Constant::Variable => {
            if may_vary(place) {
                env.hold(at, Rule::OutOfProfile)?;
                Ok(Some(Extent::Variable))
            } else {
                no_length(env, at)
            }
        }
        Constant::Faulty => Ok(None),
    }
}

/// The element type of an array, which is complete and no function type (C11 6.7.6.2p1).
fn element(env: &mut Environment, at: u32, t: SourceType) -> Result<SourceType, AllocError>
    ensures { Gives (spec.element_checked at t env.old env.old) result env.new }
{
    if is_function(&t) || !env.is_complete(&t) {
        env.refuse(at, Rule::TypeError)?;
        return Ok(SourceType::Faulty);
    }
    let is_flexible = env.is_flexible(&t);
    refuse_if(env, is_flexible, at)?;
    Ok(t)
}

fn array_of(alloc: Global, t: SourceType, n: Option<Extent>) -> Result<SourceType, AllocError>
    ensures { IfOk result (λ a. a ≡ spec.array_by t n) }
{
    let Some(n) = n else {
        return Ok(SourceType::Faulty);
    };
    if is_faulty(&t) {
        return Ok(SourceType::Faulty);
    }
    Ok(SourceType::Array(Boxed::new(alloc, t)?, n))
}

/// Words between the brackets of an array that isn't nearest to a parameter's name.
pub fn stands_inside(env: &mut Environment, nearest: &Nearest) -> Result<(), AllocError>
    ensures { Gives (spec.stands_inside nearest.now env.old) result env.new }
{
    match nearest {
        Nearest::Array(brackets) => refuse_if(env, brackets.has_words, brackets.at),
        Nearest::Other | Nearest::Function(_) => Ok(()),
    }
}

pub fn array_nearest(env: &Environment, at: u32, words: &[u32]) -> Nearest
    ensures { result ≡ spec.array_nearest at words.now env.now }
{
    Nearest::Array(Brackets {
        at,
        has_words: !words.is_empty(),
        qualifiers: qualifiers_at(env, words),
        volatile_at: volatile_among(env, words),
    })
}

fn is_parameter(place: Where) -> bool
    ensures { result ≡ spec.is_parameter place }
{
    match place {
        Where::Parameter => true,
        Where::File | Where::Block | Where::Static | Where::Member | Where::TypeName => false,
    }
}

/// What is declared where the declarator ends in a name or in nothing.
pub fn named(
    env: &mut Environment,
    place: Where,
    ty: SourceType,
    nearest: Nearest,
    name: Option<u32>,
) -> Result<Declared, AllocError>
    ensures { Gives (spec.named place ty nearest name env.old) result env.new }
{
    if !is_parameter(place) {
        stands_inside(env, &nearest)?;
    }
    Ok(Declared { ty, name, nearest })
}

impl<
    C: Fn(Global, &mut Environment, u32, &Ex) -> Result<Constant, AllocError>,
    S: Fn(Global, &mut Environment, u32, bool, u32, &[Spec]) -> Result<Specified, AllocError>,
    D: Fn(
        Global,
        &mut Environment,
        u32,
        Where,
        SourceType,
        Nearest,
        &Declarator,
    ) -> Result<Declared, AllocError>,
> Level<C, S, D> {
    fn extent(
        &self,
        env: &mut Environment,
        place: Where,
        at: u32,
        length: &Option<Ex>,
    ) -> Result<Option<Extent>, AllocError>
        requires constants { Constants self.now.room (C.pre self.now.constant) (C.post self.now.constant) }
        ensures { Gives (spec.extent_of (nest self.now.room) place at length.now env.old) result env.new }
    {
        match length {
            Some(e) => {
                let constant = self.constant_below(env, e)?;
                extent(env, place, at, constant)
            }
            None => Ok(Some(Extent::Unknown)),
        }
    }

    /// The array of a type.
    #[tactic(auto, unfolding(elab_rules::specs::Declarators::array))]
    pub fn array(
        &self,
        env: &mut Environment,
        place: Where,
        at: u32,
        length: &Option<Ex>,
        t: SourceType,
    ) -> Result<SourceType, AllocError>
        requires constants { Constants self.now.room (C.pre self.now.constant) (C.post self.now.constant) }
        ensures { Gives (spec.array (nest self.now.room) place at length.now t env.old) result env.new }
    {
        let n = self.extent(env, place, at, length)?;
        let t = element(env, at, t)?;
        array_of(self.alloc, t, n)
    }
}
