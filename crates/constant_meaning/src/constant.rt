//! Constant expressions of type int, over the graphs of `program`.

ghost use Rattle.std.specs.Prelude.{◌≡◌, ◌+◌, ◌<◌, ◌^◌, ◌≤ℤ◌, pos, IsTrue};
ghost use Rattle.program.specs.Numbers.{count_expr};
ghost use Rattle.constant_meaning.specs.ConstantValue.{IsConstant, is_arithmetic, negation, operation, undefined_at, value, with_next};

use program::{BinOp, Expr, Kind};

/// The subexpression of an instruction, by its number in preorder, that is undefined.
#[derive(Clone, Copy, Debug, Drop, PartialEq, Eq)]
pub struct Undefined {
    pub sub: u32,
    pub kind: Kind,
}

/// Unary `-` on an int (C11 6.5.3.3): its result, or how it is undefined.
pub fn negate(value: i32) -> Result<i32, Kind>
    ensures { result ≡ negation value }
{
    match value.checked_neg() {
        Some(value) => Ok(value),
        None => Err(Kind::SignedOverflow),
    }
}

/// `+ - * /` on two ints (C11 6.5.5, 6.5.6): the result, or how it is undefined.
pub fn operate(op: BinOp, left: i32, right: i32) -> Result<i32, Kind>
    requires { IsTrue (is_arithmetic op) }
    ensures { result ≡ operation op left right }
{
    let result = match op {
        BinOp::Add => left.checked_add(right),
        BinOp::Sub => left.checked_sub(right),
        BinOp::Mul => left.checked_mul(right),
        BinOp::Div => {
            if right == 0 {
                return Err(Kind::DivisionByZero);
            }
            left.checked_div(right)
        }
        _ => unreachable!(),
    };
    match result {
        Some(value) => Ok(value),
        None => Err(Kind::SignedOverflow),
    }
}

/// The number of an int constant.
fn int_of(v: i128) -> i32
    requires above { pos 0 ≤ℤ v }
    requires below { v ≤ℤ pos 2147483647 }
    ensures { result ≡ v }
{
    v as i32
}

/// What the operation of the number `sub` gave, and the number behind those of its expression.
fn placed(given: Result<i32, Kind>, sub: u32, next: u32) -> Result<(i32, u32), Undefined>
    ensures { result ≡ with_next next (undefined_at sub given) }
{
    match given {
        Ok(v) => Ok((v, next)),
        Err(kind) => Err(Undefined { sub, kind }),
    }
}

/// The value, and the number behind those of the expression.
#[cycle(evaluating)]
#[tactic(auto, using(crate::proofs::ConstantEquations::value_equations, normal_form::proofs::ConstantEquations::constant_expression_equations))]
fn evaluate_on(e: &Expr, sub: u32) -> Result<(i32, u32), Undefined>
    requires constant { IsConstant e.now }
    requires numbers { sub + count_expr e.now < 2 ^ 32 }
    ensures { result ≡ with_next (sub + count_expr e.now) (value sub e.now) }
{
    match e {
        Expr::Const(_, v) => Ok((int_of(*v), sub + 1)),
        Expr::Unary(_, a) => {
            let (x, next) = evaluate_on(a.get(), sub + 1)?;
            placed(negate(x), sub, next)
        }
        Expr::Binary(op, a, b) => {
            let (x, between) = evaluate_on(a.get(), sub + 1)?;
            let (y, next) = evaluate_on(b.get(), between)?;
            placed(operate(*op, x, y), sub, next)
        }
        Expr::Null | Expr::Load(_, _) | Expr::Addr(_) | Expr::Start(_) | Expr::Cast(_, _) => {
            unreachable!()
        }
    }
}

/// The value of an expression whose root has the number `sub`, or its first undefined place.
pub fn evaluate(e: &Expr, sub: u32) -> Result<i32, Undefined>
    requires constant { IsConstant e.now }
    requires numbers { sub + count_expr e.now < 2 ^ 32 }
    ensures { result ≡ value sub e.now }
{
    match evaluate_on(e, sub) {
        Ok((v, _)) => Ok(v),
        Err(undefined) => Err(undefined),
    }
}
