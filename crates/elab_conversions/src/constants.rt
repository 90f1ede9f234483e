//! Integer constant expressions (C11 6.6). Every leaf is a constant, also of an operand that isn't evaluated.

ghost use Rattle.std.specs.Prelude.{◌≡◌, IfOk};
ghost use Rattle.c_arithmetic.specs.Arithmetic.{IsPlain};
ghost use Rattle.elab_rules.specs.Constants as spec;
ghost use Rattle.elab_rules.specs.Constants.{IsPlainConstant};

use crate::sorts::{is_unusable, kind_of};
use c_arithmetic::{arithmetic, converted, negated};
use c_types::IntKind;
use elab_environment::Constant;
use elab_rules::{Form, Operand};
use program::{BinOp, Kind, UnOp};

fn settled_by(r: Result<i128, Kind>) -> Constant
    requires { IfOk r (λ v. IsPlain v) }
    ensures value { result ≡ spec.settled_by r }
    ensures plain { IsPlainConstant result }
{
    match r {
        Ok(v) => Constant::Number(v),
        Err(_) => Constant::Undefined,
    }
}

fn truth_of(holds: bool) -> Constant
    ensures value { result ≡ spec.truth_of holds }
    ensures plain { IsPlainConstant result }
{
    if holds {
        Constant::Number(1)
    } else {
        Constant::Number(0)
    }
}

/// Whether it is a constant, be its value undefined.
fn is_constant(c: Constant) -> bool
    ensures { result ≡ spec.is_constant c }
{
    match c {
        Constant::Number(_) | Constant::Undefined => true,
        Constant::Variable | Constant::OfOtherType | Constant::Faulty => false,
    }
}

fn beside(c: Constant, d: Constant) -> Constant
    requires { IsPlainConstant d }
    ensures value { result ≡ spec.beside c d }
    ensures plain { IsPlainConstant result }
{
    if is_constant(c) {
        d
    } else {
        Constant::Variable
    }
}

fn literal(kind: Option<IntKind>, v: i128) -> Constant
    ensures value { result ≡ spec.literal kind v }
    ensures plain { IsPlainConstant result }
{
    match kind {
        Some(k) => Constant::Number(converted(k, v)),
        None => Constant::Variable,
    }
}

fn and_also(a: Constant, b: Constant) -> Constant
    requires left { IsPlainConstant a }
    requires right { IsPlainConstant b }
    ensures value { result ≡ spec.and_also a b }
    ensures plain { IsPlainConstant result }
{
    match a {
        Constant::Number(v) => if v != 0 { truth(b) } else { truth_of(false) },
        Constant::Undefined | Constant::Variable | Constant::OfOtherType | Constant::Faulty => a,
    }
}

fn or_else(a: Constant, b: Constant) -> Constant
    requires left { IsPlainConstant a }
    requires right { IsPlainConstant b }
    ensures value { result ≡ spec.or_else a b }
    ensures plain { IsPlainConstant result }
{
    match a {
        Constant::Number(v) => if v != 0 { truth_of(true) } else { truth(b) },
        Constant::Undefined | Constant::Variable | Constant::OfOtherType | Constant::Faulty => a,
    }
}

fn truth(b: Constant) -> Constant
    requires { IsPlainConstant b }
    ensures value { result ≡ spec.truth b }
    ensures plain { IsPlainConstant result }
{
    match b {
        Constant::Number(w) => truth_of(w != 0),
        Constant::Undefined | Constant::Variable | Constant::OfOtherType | Constant::Faulty => b,
    }
}

fn chosen(c: Constant, a: Constant, b: Constant) -> Constant
    requires condition { IsPlainConstant c }
    requires left { IsPlainConstant a }
    requires right { IsPlainConstant b }
    ensures value { result ≡ spec.chosen c a b }
    ensures plain { IsPlainConstant result }
{
    match c {
        Constant::Number(v) => if v != 0 { a } else { b },
        Constant::Undefined | Constant::Variable | Constant::OfOtherType | Constant::Faulty => c,
    }
}

fn computed(op: BinOp, k: IntKind, a: Constant, b: Constant) -> Constant
    requires left { IsPlainConstant a }
    requires right { IsPlainConstant b }
    ensures value { result ≡ spec.computed op k a b }
    ensures plain { IsPlainConstant result }
{
    match a {
        Constant::Number(v) => match b {
            Constant::Number(w) => settled_by(arithmetic(op, k, v, w)),
            Constant::Undefined | Constant::Variable | Constant::OfOtherType | Constant::Faulty =>
                b,
        },
        Constant::Undefined | Constant::Variable | Constant::OfOtherType | Constant::Faulty => a,
    }
}

fn binary_by(op: BinOp, kind: Option<IntKind>, a: Constant, b: Constant) -> Constant
    requires left { IsPlainConstant a }
    requires right { IsPlainConstant b }
    ensures value { result ≡ spec.binary_by op kind a b }
    ensures plain { IsPlainConstant result }
{
    match kind {
        Some(k) => beside(a, beside(b, computed(op, k, a, b))),
        None => Constant::Variable,
    }
}

fn unary_by(op: UnOp, kind: Option<IntKind>, a: Constant) -> Constant
    requires { IsPlainConstant a }
    ensures value { result ≡ spec.unary_by op kind a }
    ensures plain { IsPlainConstant result }
{
    match kind {
        Some(k) => match a {
            Constant::Number(v) => settled_by(negated(op, k, v)),
            Constant::Undefined | Constant::Variable | Constant::OfOtherType | Constant::Faulty =>
                a,
        },
        None => Constant::Variable,
    }
}

fn cast_by(to: Option<IntKind>, from: Option<IntKind>, a: Constant) -> Constant
    requires { IsPlainConstant a }
    ensures value { result ≡ spec.cast_by to from a }
    ensures plain { IsPlainConstant result }
{
    match to {
        Some(k) => match from {
            Some(_) => match a {
                Constant::Number(v) => Constant::Number(converted(k, v)),
                Constant::Undefined
                | Constant::Variable
                | Constant::OfOtherType
                | Constant::Faulty => a,
            },
            None => Constant::Variable,
        },
        None => Constant::Variable,
    }
}

fn not_by(kind: Option<IntKind>, a: Constant) -> Constant
    requires { IsPlainConstant a }
    ensures value { result ≡ spec.not_by kind a }
    ensures plain { IsPlainConstant result }
{
    match kind {
        Some(_) => match a {
            Constant::Number(v) => truth_of(v == 0),
            Constant::Undefined | Constant::Variable | Constant::OfOtherType | Constant::Faulty =>
                a,
        },
        None => Constant::Variable,
    }
}

/// What an operand is where an integer constant is wanted, be it of another type.
#[tactic(auto, using(crate::proofs::ConstantEquations::constant_equations))]
pub fn constant_at(x: &Operand) -> Constant
    ensures value { result ≡ spec.constant_at x.now.ty x.now.form }
    ensures plain { IsPlainConstant result }
{
    match &x.form {
        Form::Const(v) => literal(kind_of(&x.ty), *v),
        Form::Unary(op, a) => {
            let a = a.get();
            unary_by(*op, kind_of(&a.ty), constant_at(a))
        }
        Form::Not(a) => {
            let a = a.get();
            not_by(kind_of(&a.ty), constant_at(a))
        }
        Form::Binary(op, a, b) => {
            let a = a.get();
            let b = b.get();
            binary_by(*op, kind_of(&a.ty), constant_at(a), constant_at(b))
        }
        Form::And(a, b) => {
            let a = constant_at(a.get());
            let b = constant_at(b.get());
            beside(a, beside(b, and_also(a, b)))
        }
        Form::Or(a, b) => {
            let a = constant_at(a.get());
            let b = constant_at(b.get());
            beside(a, beside(b, or_else(a, b)))
        }
        Form::Cast(a) => {
            let a = a.get();
            cast_by(kind_of(&x.ty), kind_of(&a.ty), constant_at(a))
        }
        Form::Choose(c, a, b) => {
            let c = constant_at(c.get());
            let a = constant_at(a.get());
            let b = constant_at(b.get());
            beside(c, beside(a, beside(b, chosen(c, a, b))))
        }
        Form::Object(_) | Form::Deref(_) | Form::Index(_, _) => Constant::Variable,
        Form::IndexFirst(_, _) | Form::Field(_, _) => Constant::Variable,
        Form::Faulty | Form::Function(_, _) | Form::Part(_, _) => Constant::Variable,
        Form::Null | Form::Load(_) | Form::Start(_) | Form::Addr(_) => Constant::Variable,
        Form::Comma(_, _) | Form::Assign(_, _) | Form::Update(_, _, _, _) => Constant::Variable,
        Form::PostUpdate(_, _, _, _) | Form::Call(_, _) => Constant::Variable,
        Form::Discard(_) => Constant::Variable,
    }
}

/// What an operand is where an integer constant is wanted.
#[tactic(auto, unfolding(elab_rules::specs::Constants::constant_value))]
pub fn constant_value(x: &Operand) -> Constant
    ensures value { result ≡ spec.constant_value x.now }
    ensures plain { IsPlainConstant result }
{
    if is_unusable(&x.ty) {
        return Constant::Faulty;
    }
    match kind_of(&x.ty) {
        Some(_) => constant_at(x),
        None => Constant::OfOtherType,
    }
}
