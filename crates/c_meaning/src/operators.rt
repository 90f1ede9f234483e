//! What the operators give on values.

ghost use Rattle.std.specs.Prelude.{◌≡◌, ◌+◌, ◌^◌, ◌≤ℤ◌, ◌-ℤ◌, ◌*ℤ◌, ◌+ℤ◌, pos, neg_ℤ, ℕ, int_div, IfOk};
ghost use Rattle.c_arithmetic.specs.Arithmetic.{IsPlain, negated};
ghost use Rattle.std.specs.Int.{int_div_euclid};
ghost use Rattle.c_meaning.specs.Cells.{IsPlainValue};
ghost use Rattle.c_meaning.specs.Typed.{IsNear};
ghost use Rattle.c_meaning.specs.Value.{number_in, moved_by, added, offsets_in_one, elements_between, order_holds, ordered, equal, on_pointers, number_result, binary, converted, designated, indexed};

use crate::memory::pointer_to;
use crate::value::{BitAddress, Value};
use c_arithmetic::{arithmetic, converted as converted_number, negated, truth};
use c_memory::Object;
use c_types::{CType, IntKind};
use program::{BinOp, Kind, UnOp};

pub fn number_in(v: Value) -> i128
    requires { IsPlainValue v }
    ensures value { result ≡ number_in v }
    ensures plain { IsPlain result }
{
    match v {
        Value::Number(v) => v,
        Value::Pointer(_, _) => 0,
    }
}

fn moved_by(memory: &[Object], v: Value, bytes: i128) -> Result<Value, Kind>
    requires above { neg_ℤ (pos (2 ^ 97)) ≤ℤ bytes }
    requires below { bytes ≤ℤ pos (2 ^ 97) }
    ensures value { result ≡ moved_by memory.now v bytes }
    ensures plain { IfOk result (λ v. IsPlainValue v) }
{
    match v {
        Value::Pointer(base, offset) => pointer_to(memory, base, i128::from(offset) + bytes),
        Value::Number(_) => Err(Kind::PointerArithmetic),
    }
}

/// A number of elements in bytes.
fn scaled(n: i128, size: u32) -> i128
    requires { IsPlain n }
    ensures value { result ≡ n *ℤ pos size }
    ensures above { neg_ℤ (pos (2 ^ 96)) ≤ℤ result }
    ensures below { result ≤ℤ pos (2 ^ 96) }
{
    n * i128::from(size)
}

fn opposite(bytes: i128) -> i128
    requires above { neg_ℤ (pos (2 ^ 96)) ≤ℤ bytes }
    requires below { bytes ≤ℤ pos (2 ^ 96) }
    ensures value { result ≡ neg_ℤ bytes }
    ensures above { neg_ℤ (pos (2 ^ 96)) ≤ℤ result }
    ensures below { result ≤ℤ pos (2 ^ 96) }
{
    -bytes
}

fn added(memory: &[Object], size: u32, x: Value, y: Value) -> Result<Value, Kind>
    requires left { IsPlainValue x }
    requires right { IsPlainValue y }
    ensures value { result ≡ added memory.now size x y }
    ensures plain { IfOk result (λ v. IsPlainValue v) }
{
    match x {
        Value::Pointer(_, _) => moved_by(memory, x, scaled(number_in(y), size)),
        Value::Number(n) => moved_by(memory, y, scaled(n, size)),
    }
}

/// The offsets of two pointers into one object.
fn offsets_in_one(x: Value, y: Value) -> Option<(i64, i64)>
    ensures { result ≡ offsets_in_one x y }
{
    match (x, y) {
        (Value::Pointer(b, o), Value::Pointer(c, q)) => { if b == c { Some((o, q)) } else { None } }
        (Value::Number(_), Value::Pointer(_, _))
        | (Value::Pointer(_, _) | Value::Number(_), Value::Number(_)) => None,
    }
}

/// How many elements lie between two offsets.
fn count_between(size: u32, o: i64, q: i64) -> i128
    ensures { result ≡ int_div (o -ℤ q) (pos size) }
{
    if size == 0 {
        return 0;
    }
    (i128::from(o) - i128::from(q)) / i128::from(size)
}

fn elements_between(size: u32, offsets: Option<(i64, i64)>) -> Result<Value, Kind>
    ensures value { result ≡ elements_between size offsets }
    ensures plain { IfOk result (λ v. IsPlainValue v) }
{
    match offsets {
        Some((o, q)) => {
            let count = count_between(size, o, q);
            Ok(Value::Number(converted_number(IntKind::Long, count)))
        },
        None => Err(Kind::DifferingBlocks),
    }
}

fn order_holds(op: BinOp, o: i64, q: i64) -> bool
    ensures { result ≡ order_holds op o q }
{
    match op {
        BinOp::Lt => o < q,
        BinOp::Le => o <= q,
        BinOp::Gt => o > q,
        BinOp::Ge => o >= q,
        BinOp::Add
        | BinOp::Sub
        | BinOp::Mul
        | BinOp::Div
        | BinOp::Rem
        | BinOp::Shl
        | BinOp::Shr
        | BinOp::And
        | BinOp::Or
        | BinOp::Xor
        | BinOp::Eq
        | BinOp::Ne
        | BinOp::PtrAdd
        | BinOp::PtrSub
        | BinOp::PtrDiff => false,
    }
}

fn ordered(op: BinOp, offsets: Option<(i64, i64)>) -> Result<Value, Kind>
    ensures value { result ≡ ordered op offsets }
    ensures plain { IfOk result (λ v. IsPlainValue v) }
{
    match offsets {
        Some((o, q)) => Ok(Value::Number(truth(order_holds(op, o, q)))),
        None => Err(Kind::PointerComparison),
    }
}

/// Whether two pointers are equal.
fn equal(x: Value, y: Value) -> bool
    ensures { result ≡ equal x y }
{
    match (x, y) {
        (Value::Number(x), Value::Number(y)) => x == y,
        (Value::Pointer(b, o), Value::Pointer(c, q)) => b == c && o == q,
        (Value::Number(_), Value::Pointer(_, _)) | (Value::Pointer(_, _), Value::Number(_)) => {
            false
        }
    }
}

/// An operator on pointers, to elements of so many bytes.
fn on_pointers(memory: &[Object], size: u32, op: BinOp, x: Value, y: Value) -> Result<Value, Kind>
    requires left { IsPlainValue x }
    requires right { IsPlainValue y }
    ensures value { result ≡ on_pointers memory.now size op x y }
    ensures plain { IfOk result (λ v. IsPlainValue v) }
{
    match op {
        BinOp::Lt | BinOp::Le | BinOp::Gt | BinOp::Ge => ordered(op, offsets_in_one(x, y)),
        BinOp::Eq => Ok(Value::Number(truth(equal(x, y)))),
        BinOp::Ne => Ok(Value::Number(truth(!equal(x, y)))),
        BinOp::PtrAdd => added(memory, size, x, y),
        BinOp::PtrSub => moved_by(memory, x, opposite(scaled(number_in(y), size))),
        BinOp::PtrDiff => elements_between(size, offsets_in_one(x, y)),
        BinOp::Add
        | BinOp::Sub
        | BinOp::Mul
        | BinOp::Div
        | BinOp::Rem
        | BinOp::Shl
        | BinOp::Shr
        | BinOp::And
        | BinOp::Or
        | BinOp::Xor => Ok(Value::Number(0)),
    }
}

fn number_value(r: Result<i128, Kind>) -> Result<Value, Kind>
    requires { IfOk r (λ v. IsPlain v) }
    ensures value { result ≡ number_result r }
    ensures plain { IfOk result (λ v. IsPlainValue v) }
{
    match r {
        Ok(v) => Ok(Value::Number(v)),
        Err(kind) => Err(kind),
    }
}

/// Unary `-` and `~` of an operand of this kind.
pub fn unary(op: UnOp, kind: IntKind, x: Value) -> Result<Value, Kind>
    requires { IsPlainValue x }
    ensures value { result ≡ number_result (negated op kind (number_in x)) }
    ensures plain { IfOk result (λ v. IsPlainValue v) }
{
    number_value(negated(op, kind, number_in(x)))
}

/// The byte that a bit lies in.
pub fn byte_of(bit: i128) -> i128
    ensures { result ≡ int_div_euclid bit (pos 8) }
{
    bit.div_euclid(8)
}

/// The place of a member, from its struct's.
pub fn moved_to(a: BitAddress, offset: u32) -> BitAddress
    requires low { neg_ℤ (pos (2 ^ 67)) ≤ℤ a.bit }
    requires high { a.bit ≤ℤ pos (2 ^ 97) }
    ensures value { result ≡ record { base = a.base; bit = a.bit +ℤ pos offset } }
    ensures near { (n : ℕ) → IsNear n a.bit → IsNear (n + 1) result.bit }
{
    BitAddress {
        base: a.base,
        bit: a.bit + i128::from(offset),
    }
}

/// An operator on two values, which are pointers or not.
pub fn binary(
    memory: &[Object],
    size: u32,
    is_on_pointers: bool,
    op: BinOp,
    kind: IntKind,
    x: Value,
    y: Value,
) -> Result<Value, Kind>
    requires left { IsPlainValue x }
    requires right { IsPlainValue y }
    ensures value { result ≡ binary memory.now size is_on_pointers op kind x y }
    ensures plain { IfOk result (λ v. IsPlainValue v) }
{
    if is_on_pointers {
        on_pointers(memory, size, op, x, y)
    } else {
        number_value(arithmetic(op, kind, number_in(x), number_in(y)))
    }
}

/// A value in another type.
pub fn converted(t: &CType, v: Value) -> Value
    requires { IsPlainValue v }
    ensures value { result ≡ converted t.now v }
    ensures plain { IsPlainValue result }
{
    match t {
        CType::Int { kind, .. } => match v {
            Value::Number(v) => Value::Number(converted_number(*kind, v)),
            Value::Pointer(_, _) => Value::Number(1),
        },
        CType::Void | CType::Ptr(_) | CType::Array(_, _) | CType::Struct(_) | CType::Unusable => v,
    }
}

/// The object that a pointer points to, from its first bit there.
pub fn designated(v: Value) -> Result<BitAddress, Kind>
    ensures value { result ≡ designated v }
    ensures near { IfOk result (λ a. IsNear 0 a.bit) }
{
    match v {
        Value::Pointer(base, offset) => Ok(BitAddress {
            base,
            bit: 8 * i128::from(offset),
        }),
        Value::Number(_) => Err(Kind::MemAccess),
    }
}

/// The offset of an element of so many bits.
fn element_at(bit: i128, i: i128, size: u32) -> i128
    requires low { neg_ℤ (pos (2 ^ 67)) ≤ℤ bit }
    requires high { bit ≤ℤ pos (2 ^ 97) }
    requires first { pos 0 ≤ℤ i }
    requires last { i ≤ℤ pos (2 ^ 32) }
    ensures value { result ≡ bit +ℤ i *ℤ pos size }
    ensures above { bit ≤ℤ result }
    ensures below { result ≤ℤ (bit +ℤ pos (2 ^ 64)) }
{
    bit + distance(i, size)
}

fn distance(i: i128, size: u32) -> i128
    requires first { pos 0 ≤ℤ i }
    requires last { i ≤ℤ pos (2 ^ 32) }
    ensures value { result ≡ i *ℤ pos size }
    ensures above { pos 0 ≤ℤ result }
    ensures below { result ≤ℤ pos (2 ^ 64) }
{
    i * i128::from(size)
}

/// The element of an array at a place.
pub fn indexed(length: u32, size: u32, a: BitAddress, i: i128) -> Result<BitAddress, Kind>
    requires low { neg_ℤ (pos (2 ^ 67)) ≤ℤ a.bit }
    requires high { a.bit ≤ℤ pos (2 ^ 97) }
    ensures value { result ≡ indexed length size a i }
    ensures near { (n : ℕ) → IsNear n a.bit → IfOk result (λ b. IsNear (n + 1) b.bit) }
{
    if 0 <= i && i < i128::from(length) {
        Ok(BitAddress {
            base: a.base,
            bit: element_at(a.bit, i, size),
        })
    } else {
        Err(Kind::IndexBound)
    }
}
