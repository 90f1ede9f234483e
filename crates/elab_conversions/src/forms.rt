//! Operands by their type and form.

ghost use Rattle.std.specs.Prelude.{◌≡◌, IfOk};
ghost use Rattle.elab_rules.specs.Operands as spec;

use c_types::IntKind;
use elab_rules::{Form, Operand};
use elab_types::{Qualifiers, SourceType};
use sqlite_items::Boxed;
use std::alloc::{AllocError, Global};

/// An operand that is no bit-field and no register object.
pub fn operand(ty: SourceType, form: Form) -> Operand
    ensures { result ≡ spec.operand ty form }
{
    Operand {
        ty,
        bits: None,
        is_register: false,
        form,
    }
}

/// What broke a rule.
pub fn faulty() -> Operand
    ensures { result ≡ spec.faulty }
{
    operand(SourceType::Faulty, Form::Faulty)
}

pub fn int_type(kind: IntKind) -> SourceType
    ensures { result ≡ spec.int_type kind }
{
    SourceType::Int(kind, Qualifiers::NONE)
}

pub fn pointer_to(alloc: Global, t: SourceType) -> Result<SourceType, AllocError>
    ensures { IfOk result (λ p. p ≡ spec.pointer_to t) }
{
    Ok(SourceType::Pointer(Boxed::new(alloc, t)?, Qualifiers::NONE))
}

/// A number of an integer type.
pub fn number(kind: IntKind, v: i128) -> Operand
    ensures { result ≡ spec.number kind v }
{
    operand(int_type(kind), Form::Const(v))
}

/// The null pointer of a pointer type.
pub fn null_of(t: SourceType) -> Operand
    ensures { result ≡ spec.null_of t }
{
    operand(t, Form::Null)
}

/// Whether an expression designates an object (C11 6.3.2.1p1).
pub fn is_lvalue(form: &Form) -> bool
    ensures { result ≡ spec.is_lvalue form.now }
{
    match form {
        Form::Object(_) | Form::Deref(_) | Form::Index(_, _) => true,
        Form::IndexFirst(_, _) | Form::Field(_, _) => true,
        Form::Faulty | Form::Function(_, _) | Form::Part(_, _) => false,
        Form::Const(_) | Form::Null | Form::Load(_) | Form::Start(_) | Form::Addr(_) => false,
        Form::Unary(_, _) | Form::Not(_) | Form::Binary(_, _, _) => false,
        Form::And(_, _) | Form::Or(_, _) | Form::Cast(_) | Form::Choose(_, _, _) => false,
        Form::Comma(_, _) | Form::Assign(_, _) | Form::Update(_, _, _, _) => false,
        Form::PostUpdate(_, _, _, _) | Form::Call(_, _) | Form::Discard(_) => false,
    }
}

/// Whether it is the null pointer.
pub fn is_null(form: &Form) -> bool
    ensures { result ≡ spec.is_null form.now }
{
    match form {
        Form::Null => true,
        Form::Object(_) | Form::Deref(_) | Form::Index(_, _) => false,
        Form::IndexFirst(_, _) | Form::Field(_, _) => false,
        Form::Faulty | Form::Function(_, _) | Form::Part(_, _) => false,
        Form::Const(_) | Form::Load(_) | Form::Start(_) | Form::Addr(_) => false,
        Form::Unary(_, _) | Form::Not(_) | Form::Binary(_, _, _) => false,
        Form::And(_, _) | Form::Or(_, _) | Form::Cast(_) | Form::Choose(_, _, _) => false,
        Form::Comma(_, _) | Form::Assign(_, _) | Form::Update(_, _, _, _) => false,
        Form::PostUpdate(_, _, _, _) | Form::Call(_, _) | Form::Discard(_) => false,
    }
}

/// The token of the name of a function.
pub fn function_named(form: &Form) -> Option<u32>
    ensures { result ≡ spec.function_named form.now }
{
    match form {
        Form::Function(_, at) => Some(*at),
        Form::Object(_) | Form::Deref(_) | Form::Index(_, _) => None,
        Form::IndexFirst(_, _) | Form::Field(_, _) => None,
        Form::Faulty | Form::Null | Form::Part(_, _) => None,
        Form::Const(_) | Form::Load(_) | Form::Start(_) | Form::Addr(_) => None,
        Form::Unary(_, _) | Form::Not(_) | Form::Binary(_, _, _) => None,
        Form::And(_, _) | Form::Or(_, _) | Form::Cast(_) | Form::Choose(_, _, _) => None,
        Form::Comma(_, _) | Form::Assign(_, _) | Form::Update(_, _, _, _) => None,
        Form::PostUpdate(_, _, _, _) | Form::Call(_, _) | Form::Discard(_) => None,
    }
}
