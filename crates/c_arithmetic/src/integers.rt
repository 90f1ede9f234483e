//! What the operators give on integers.

ghost use Rattle.std.specs.Prelude.{◌≡◌, ◌≤◌, ◌≤ℤ◌, ◌<ℤ◌, ◌*ℤ◌, ◌^◌, pos, ℤ, Result, IfOk, IsOk, IsTrue, ◌<◌, FitsSigned, unsigned_abs};
ghost use Rattle.std.specs.Int.{w128};
ghost use Rattle.c_types.specs.Integers.{wrapped};
ghost use Rattle.c_arithmetic.specs.Arithmetic.{IsPlain, truth, in_range, settled, quotient, remainder, is_count, shifted_left, shifted_right, arithmetic, negated};

use c_types::{IntKind, is_signed, range, width, wrap};
use program::{BinOp, Kind, UnOp};

pub fn truth(holds: bool) -> i128
    ensures value { result ≡ truth holds }
    ensures plain { IsPlain result }
{
    if holds { 1 } else { 0 }
}

fn in_range(kind: IntKind, v: i128) -> bool
    ensures value { result ≡ in_range kind v }
    ensures plain { IsTrue result → IsPlain v }
{
    let (least, greatest) = range(kind);
    least <= v && v <= greatest
}

/// A number in another kind.
pub fn converted(kind: IntKind, v: i128) -> i128
    ensures value { result ≡ wrapped kind v }
    ensures plain { IsPlain result }
{
    wrap(kind, v)
}

#[tactic(auto, unfolding(crate::specs::Arithmetic::settled))]
fn settled(kind: IntKind, v: i128) -> Result<i128, Kind>
    ensures value { result ≡ settled kind v }
    ensures plain { IfOk result (λ r. IsPlain r) }
{
    if is_signed(kind) {
        if in_range(kind, v) {
            Ok(v)
        } else {
            Err(Kind::SignedOverflow)
        }
    } else {
        Ok(converted(kind, v))
    }
}

#[tactic(auto, unfolding(crate::specs::Arithmetic::quotient))]
fn quotient(kind: IntKind, a: i128, b: i128) -> Result<i128, Kind>
    requires left { IsPlain a }
    requires right { IsPlain b }
    ensures value { result ≡ quotient kind a b }
    ensures plain { IfOk result (λ r. IsPlain r) }
    ensures divides { IsOk result → 0 < unsigned_abs b }
{
    if b == 0 {
        Err(Kind::DivisionByZero)
    } else {
        settled(kind, a / b)
    }
}

#[tactic(auto, unfolding(crate::specs::Arithmetic::remainder, crate::specs::Arithmetic::quotient))]
fn remainder(kind: IntKind, a: i128, b: i128) -> Result<i128, Kind>
    requires left { IsPlain a }
    requires right { IsPlain b }
    ensures value { result ≡ remainder kind a b }
    ensures plain { IfOk result (λ r. IsPlain r) }
{
    match quotient(kind, a, b) {
        Ok(_) => Ok(a % b),
        Err(undefined) => Err(undefined),
    }
}

fn is_count(kind: IntKind, n: i128) -> bool
    ensures value { result ≡ is_count kind n }
    ensures not_negative { IsTrue result → pos 0 ≤ℤ n }
    ensures small { IsTrue result → n <ℤ pos 64 }
{
    0 <= n && n < i128::from(width(kind))
}

#[tactic(auto, unfolding(crate::specs::Arithmetic::shifted_left))]
fn shifted_left(kind: IntKind, a: i128, n: i128) -> Result<i128, Kind>
    requires left { IsPlain a }
    ensures value { result ≡ shifted_left kind a n }
    ensures plain { IfOk result (λ r. IsPlain r) }
{
    if !is_count(kind, n) {
        return Err(Kind::Shift);
    }
    if is_signed(kind) && a < 0 {
        return Err(Kind::SignedOverflow);
    }
    settled(kind, scaled(a, n))
}

/// The power of 2.
pub fn power(n: u32) -> i128
    requires { n ≤ 64 }
    ensures value { result ≡ pos (2 ^ n) }
    ensures low { pos 1 ≤ℤ result }
    ensures high { result ≤ℤ pos (2 ^ 64) }
    ensures half { n < 64 → result ≤ℤ pos (2 ^ 63) }
{
    1 << n
}

/// `a` times 2 to the `n`.
fn scaled(a: i128, n: i128) -> i128
    requires left { IsPlain a }
    requires not_negative { pos 0 ≤ℤ n }
    requires small { n <ℤ pos 64 }
    ensures { result ≡ a *ℤ pos (2 ^ unsigned_abs n) }
{
    a * power(n as u32)
}

#[tactic(auto, unfolding(crate::specs::Arithmetic::shifted_right))]
fn shifted_right(kind: IntKind, a: i128, n: i128) -> Result<i128, Kind>
    requires left { IsPlain a }
    ensures value { result ≡ shifted_right kind a n }
    ensures plain { IfOk result (λ r. IsPlain r) }
{
    if is_count(kind, n) {
        Ok(a >> n)
    } else {
        Err(Kind::Shift)
    }
}

fn product(kind: IntKind, a: i128, b: i128) -> Result<i128, Kind>
    requires left { IsPlain a }
    requires right { IsPlain b }
    ensures value { result ≡ settled kind (a *ℤ b) }
    ensures plain { IfOk result (λ r. IsPlain r) }
{
    match a.checked_mul(b) {
        Some(v) => settled(kind, v),
        None => large_product(kind, a, b),
    }
}

/// The product of two numbers that are both above 2^62, where it is 2^127 at least.
fn large_product(kind: IntKind, a: i128, b: i128) -> Result<i128, Kind>
    requires left { IsPlain a }
    requires right { IsPlain b }
    requires large { FitsSigned w128 (a *ℤ b) → ⊥ }
    ensures value { result ≡ settled kind (a *ℤ b) }
    ensures plain { IfOk result (λ r. IsPlain r) }
{
    if is_signed(kind) {
        return Err(Kind::SignedOverflow);
    }
    if kind == IntKind::Bool {
        return Ok(1);
    }
    let product = a.unsigned_abs() * b.unsigned_abs();
    Ok(converted(kind, (product % (1 << 64)) as i128))
}

/// An operator on two numbers, the left one of this kind (C11 6.5.5 to 6.5.14).
pub fn arithmetic(op: BinOp, kind: IntKind, a: i128, b: i128) -> Result<i128, Kind>
    requires left { IsPlain a }
    requires right { IsPlain b }
    ensures value { result ≡ arithmetic op kind a b }
    ensures plain { IfOk result (λ r. IsPlain r) }
{
    match op {
        BinOp::Add => settled(kind, a + b),
        BinOp::Sub => settled(kind, a - b),
        BinOp::Mul => product(kind, a, b),
        BinOp::Div => quotient(kind, a, b),
        BinOp::Rem => remainder(kind, a, b),
        BinOp::Shl => shifted_left(kind, a, b),
        BinOp::Shr => shifted_right(kind, a, b),
        BinOp::And => Ok(converted(kind, a & b)),
        BinOp::Or => Ok(converted(kind, a | b)),
        BinOp::Xor => Ok(converted(kind, a ^ b)),
        BinOp::Lt => Ok(truth(a < b)),
        BinOp::Le => Ok(truth(a <= b)),
        BinOp::Gt => Ok(truth(a > b)),
        BinOp::Ge => Ok(truth(a >= b)),
        BinOp::Eq => Ok(truth(a == b)),
        BinOp::Ne => Ok(truth(a != b)),
        BinOp::PtrAdd | BinOp::PtrSub | BinOp::PtrDiff => Ok(0),
    }
}

/// Unary `-` and `~` of an operand of this kind (C11 6.5.3.3).
pub fn negated(op: UnOp, kind: IntKind, a: i128) -> Result<i128, Kind>
    requires { IsPlain a }
    ensures value { result ≡ negated op kind a }
    ensures plain { IfOk result (λ r. IsPlain r) }
{
    match op {
        UnOp::Neg => settled(kind, -a),
        UnOp::Not => settled(kind, -1 - a),
    }
}
