ghost use Rattle.std.specs.Prelude.{◌≡◌, ◌+◌, ◌<◌, ◌≤ℤ◌, pos, IfOk, IsTrue};
ghost use Rattle.program.specs.Numbers.{count_expr};
ghost use Rattle.constant_meaning.specs.ConstantValue.{IsConstant, is_arithmetic};

use crate::{Undefined, evaluate, negate, operate};
use c_types::IntKind;
use program::{BinOp, Expr, Kind, UnOp};
use sqlite_items::Boxed;
use std::alloc::{AllocError, Global};
use std::test::Fail;

#[tactic(auto, using(normal_form::proofs::ConstantEquations::constant_expression_equations, program::proofs::Equations::count_equations))]
fn number(v: i128) -> Expr
    requires above { pos 0 ≤ℤ v }
    requires below { v ≤ℤ pos 2147483647 }
    ensures constant { IsConstant result }
    ensures count { count_expr result ≡ 1 }
{
    Expr::Const(IntKind::Int, v)
}

#[tactic(auto, using(normal_form::proofs::ConstantEquations::constant_expression_equations, program::proofs::Equations::count_equations))]
fn minus(alloc: Global, operand: Expr) -> Result<Expr, AllocError>
    requires { IsConstant operand }
    ensures constant { IfOk result (λ e. IsConstant e) }
    ensures count { IfOk result (λ e. count_expr e ≡ 1 + count_expr operand) }
{
    Ok(Expr::Unary(UnOp::Neg, Boxed::new(alloc, operand)?))
}

#[tactic(auto, using(normal_form::proofs::ConstantEquations::constant_expression_equations, program::proofs::Equations::count_equations))]
fn binary(alloc: Global, op: BinOp, left: Expr, right: Expr) -> Result<Expr, AllocError>
    requires arithmetic { IsTrue (is_arithmetic op) }
    requires left { IsConstant left }
    requires right { IsConstant right }
    ensures constant { IfOk result (λ e. IsConstant e) }
    ensures count { IfOk result (λ e. count_expr e ≡ 1 + count_expr left + count_expr right) }
{
    let left = Boxed::new(alloc, left)?;
    Ok(Expr::Binary(op, left, Boxed::new(alloc, right)?))
}

/// `1/0 + 2/0`
#[test]
fn first_undefined_place(rt: HostRuntime) -> Result<(), Fail> {
    let alloc = rt.alloc();
    let left = binary(alloc, BinOp::Div, number(1), number(0))?;
    let right = binary(alloc, BinOp::Div, number(2), number(0))?;
    let sum = binary(alloc, BinOp::Add, left, right)?;
    let kind = Kind::DivisionByZero;
    assert!(rt; evaluate(&sum, 1) == Err(Undefined { sub: 2, kind }));
    Ok(())
}

/// `-(-2147483647 - 1)`, and `-2147483647 - 1 + 0`
#[test]
fn least_int(rt: HostRuntime) -> Result<(), Fail> {
    let alloc = rt.alloc();
    let least = binary(
        alloc,
        BinOp::Sub,
        minus(alloc, number(2147483647))?,
        number(1),
    )?;
    let kind = Kind::SignedOverflow;
    assert!(rt; evaluate(&minus(alloc, least)?, 1) == Err(Undefined { sub: 1, kind }));
    let least = binary(
        alloc,
        BinOp::Sub,
        minus(alloc, number(2147483647))?,
        number(1),
    )?;
    let sum = binary(alloc, BinOp::Add, least, number(0))?;
    assert!(rt; evaluate(&sum, 1) == Ok(-2147483648));
    Ok(())
}

#[test]
fn operations(rt: HostRuntime) {
    assert!(rt; operate(BinOp::Add, 2147483647, 1) == Err(Kind::SignedOverflow));
    assert!(rt; operate(BinOp::Mul, 65536, 32768) == Err(Kind::SignedOverflow));
    assert!(rt; operate(BinOp::Div, -7, 2) == Ok(-3));
    assert!(rt; operate(BinOp::Div, -2147483648, -1) == Err(Kind::SignedOverflow));
    assert!(rt; negate(-2147483648) == Err(Kind::SignedOverflow));
    assert!(rt; negate(5) == Ok(-5));
}
