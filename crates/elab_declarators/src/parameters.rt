//! Parameters, and what a function may return (C11 6.7.6.3).

ghost use Rattle.std.specs.Prelude.{◌≡◌, IfOk};
ghost use Rattle.elab_types.specs.declared.types.SourceType.{out-SourceType};
ghost use Rattle.elab_environment.specs.Elaborating.{Gives};
ghost use Rattle.elab_rules.specs.Functions as spec;

use c_tree::Param;
use elab_environment::{Entity, Environment, Object, Standing, is_open_array};
use elab_rules::{Brackets, Declared, Nearest, Parameter, Parameters, Specified, Storage};
use elab_specifiers::{hold_at, hold_if, refuse_if};
use elab_types::{Qualifiers, SourceType, copy_source, unqualified};
use sqlite_items::{Boxed, Items};
use std::alloc::{AllocError, Global};

// ---- adjusted types

fn brackets_of(nearest: &Nearest) -> Brackets
    ensures { result ≡ spec.brackets_of nearest.now }
{
    match nearest {
        Nearest::Array(brackets) => *brackets,
        Nearest::Other | Nearest::Function(_) => Brackets {
            at: 0,
            has_words: false,
            qualifiers: Qualifiers::NONE,
            volatile_at: None,
        },
    }
}

/// The type of a parameter: an array is a pointer to its elements, a function a pointer to it (C11 6.7.6.3p7, p8).
fn adjusted_by(
    alloc: Global,
    env: &mut Environment,
    param: &Param,
    brackets: Brackets,
    t: SourceType,
) -> Result<SourceType, AllocError>
    ensures { Gives (spec.adjusted_by param.now.at param.now.declarator.at brackets t (out-SourceType t) env.old) result env.new }
{
    match t {
        SourceType::Array(element, _) => {
            hold_at(env, brackets.volatile_at)?;
            let is_open = is_open_array(element.get());
            hold_if(env, is_open, param.declarator.at)?;
            Ok(SourceType::Pointer(element, brackets.qualifiers))
        }
        SourceType::Function(result, params, variadic) => {
            hold_if(env, true, param.declarator.at)?;
            let t = SourceType::Function(result, params, variadic);
            Ok(SourceType::Pointer(Boxed::new(alloc, t)?, Qualifiers::NONE))
        }
        SourceType::Struct(id, q) => {
            hold_if(env, true, param.at)?;
            Ok(SourceType::Struct(id, q))
        }
        SourceType::Void(q) => Ok(SourceType::Void(q)),
        SourceType::Int(kind, q) => Ok(SourceType::Int(kind, q)),
        SourceType::Pointer(to, q) => Ok(SourceType::Pointer(to, q)),
        SourceType::Floating(q) => Ok(SourceType::Floating(q)),
        SourceType::Faulty => Ok(SourceType::Faulty),
    }
}

// ---- one parameter

fn is_register(storage: Option<Storage>) -> bool
    ensures { result ≡ spec.is_register storage }
{
    match storage {
        Some(Storage::Register) => true,
        Some(Storage::Typedef) | Some(Storage::Extern) => false,
        Some(Storage::Static) | Some(Storage::Auto) => false,
        None => false,
    }
}

/// Whether a parameter may have these specifiers (C11 6.7.6.3p2).
pub fn fits_parameter(specified: &Specified) -> bool
    ensures { result ≡ spec.fits_parameter specified.now }
{
    !specified.is_function && (!specified.storage.is_some() || is_register(specified.storage))
}

fn bound(
    env: &mut Environment,
    token: Option<u32>,
    object: u32,
    declaration: u32,
) -> Result<(), AllocError>
    ensures { Gives (spec.bound token object declaration env.old) result env.new }
{
    let Some(token) = token else {
        return Ok(());
    };
    match env.name_at(token) {
        Some(name) => env.bind(token, name, Entity::Object(object), declaration),
        None => Ok(()),
    }
}

fn parameter_object(
    at: u32,
    name: Option<u32>,
    ty: SourceType,
    is_register: bool,
    declaration: u32,
) -> Object
    ensures { result ≡ spec.parameter_object at name ty is_register declaration }
{
    Object {
        name,
        at,
        ty,
        standing: Standing::Parameter,
        is_register,
        is_defined: true,
        declaration,
        initialiser: None,
    }
}

/// A parameter that was read, with its type in the function's: declared in the block at hand.
#[tactic(auto, unfolding(elab_rules::specs::Functions::parameter))]
pub fn parameter(
    alloc: Global,
    env: &mut Environment,
    param: &Param,
    specified: Specified,
    declared: Declared,
) -> Result<(Parameter, SourceType), AllocError>
    ensures { Gives (spec.parameter param.now specified declared env.old) result env.new }
{
    let Declared { ty, name, nearest } = declared;
    let t = adjusted_by(alloc, env, param, brackets_of(&nearest), ty)?;
    let of_function = unqualified(copy_source(alloc, &t)?);
    let declaration = env.new_declaration(alloc)?;
    let is_register = is_register(specified.storage);
    let object = env.new_object(parameter_object(param.at, name, t, is_register, declaration))?;
    bound(env, name, object, declaration)?;
    Ok((
        Parameter {
            at: param.at,
            name,
            object,
        },
        of_function,
    ))
}

// ---- the list

fn is_plain_void(t: &SourceType) -> bool
    ensures { result ≡ spec.is_plain_void_at (out-SourceType t.now) }
{
    match t {
        SourceType::Void(q) => !(q.is_const || (q.is_volatile || q.is_restrict)),
        SourceType::Int(_, _) | SourceType::Pointer(_, _) | SourceType::Array(_, _) => false,
        SourceType::Struct(_, _) | SourceType::Function(_, _, _) => false,
        SourceType::Floating(_) | SourceType::Faulty => false,
    }
}

/// Whether a parameter is `void` alone, which says that there are none (C11 6.7.6.3p10).
pub fn says_none(is_alone: bool, specified: &Specified, declared: &Declared) -> bool
    ensures { result ≡ spec.says_none is_alone specified.now declared.now }
{
    let is_bare = !declared.name.is_some() && !specified.storage.is_some();
    is_alone && (is_plain_void(&declared.ty) && is_bare)
}

pub fn is_alone(variadic: bool, params: &[Param]) -> bool
    ensures { result ≡ spec.is_alone variadic params.now }
{
    match params.split_first() {
        Some((_, rest)) => rest.is_empty() && !variadic,
        None => false,
    }
}

/// The parameters of a list with what they declare in the block at hand.
pub fn taken(
    alloc: Global,
    env: &Environment,
    at: u32,
    variadic: bool,
    list: Items<Parameter>,
) -> Result<Parameters, AllocError>
    ensures { IfOk result (λ ps. ps ≡ spec.taken at variadic list env.now) }
{
    Ok(Parameters {
        at,
        is_variadic: variadic,
        list,
        names: env.names.newest_from(alloc, env.block.names as usize)?,
        tags: env.tag_names.newest_from(alloc, env.block.tags as usize)?,
    })
}

// ---- results

/// The type that a function returns: no function and no array (C11 6.7.6.3p1).
pub fn result_checked(
    env: &mut Environment,
    at: u32,
    t: SourceType,
) -> Result<SourceType, AllocError>
    ensures { Gives (spec.result_checked at t (out-SourceType t) env.old) result env.new }
{
    match t {
        SourceType::Function(_, _, _) | SourceType::Array(_, _) => {
            refuse_if(env, true, at)?;
            Ok(SourceType::Faulty)
        }
        SourceType::Struct(id, q) => {
            hold_if(env, true, at)?;
            Ok(SourceType::Struct(id, q))
        }
        SourceType::Void(q) => Ok(SourceType::Void(q)),
        SourceType::Int(kind, q) => Ok(SourceType::Int(kind, q)),
        SourceType::Pointer(to, q) => Ok(SourceType::Pointer(to, q)),
        SourceType::Floating(q) => Ok(SourceType::Floating(q)),
        SourceType::Faulty => Ok(SourceType::Faulty),
    }
}
