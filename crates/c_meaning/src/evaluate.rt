//! What expressions are worth, and what lvalues designate.

ghost use Rattle.std.specs.Prelude.{◌≡◌, ◌+◌, ◌≤◌, ◌<◌, ◌^◌, IfOk};
ghost use Rattle.program.specs.Numbers.{count_expr, count_lval};
ghost use Rattle.c_arithmetic.specs.Arithmetic.{and_then};
ghost use Rattle.c_meaning.specs.Cells.{IsPlainValue, held};
ghost use Rattle.c_meaning.specs.Memory.{accessed};
ghost use Rattle.c_meaning.specs.PlaceTypes.{HasNarrowFields};
ghost use Rattle.c_meaning.specs.Typed.{IsTypedExpr, IsTypedPlace, IsNear};
ghost use Rattle.c_meaning.specs.Value.{at, address, value, place};

use crate::cells::held;
use crate::memory::{accessed, pointer_to};
use crate::operators::{
    binary, byte_of, converted, designated, indexed, moved_to, number_in, unary,
};
use crate::types::{
    array_length, element_bits, is_address, kind_of, member_offset, scalar_bits, stride,
};
use crate::value::{BitAddress, Undefined, Value};
use c_memory::Object;
use c_types::CType;
use program::{Expr, Function, Kind, LVal, Program, count_expr, count_lval};

fn load(memory: &[Object], at: BitAddress, n: u32, t: &CType) -> Result<Value, Kind>
    requires { n ≤ 64 }
    ensures value { result ≡ and_then (accessed memory.now at n) (held t.now) }
    ensures plain { IfOk result (λ v. IsPlainValue v) }
{
    match accessed(memory, at, n as usize) {
        Ok(cells) => held(t, cells),
        Err(kind) => Err(kind),
    }
}

/// The pointer to a place.
fn address(memory: &[Object], at: BitAddress) -> Result<Value, Kind>
    ensures value { result ≡ address memory.now at }
    ensures plain { IfOk result (λ v. IsPlainValue v) }
{
    pointer_to(memory, at.base, byte_of(at.bit))
}

fn value_at(sub: u32, r: Result<Value, Kind>) -> Result<Value, Undefined>
    ensures { result ≡ at sub r }
{
    match r {
        Ok(v) => Ok(v),
        Err(kind) => Err(Undefined { sub, kind }),
    }
}

fn place_at(sub: u32, r: Result<BitAddress, Kind>) -> Result<BitAddress, Undefined>
    ensures { result ≡ at sub r }
{
    match r {
        Ok(a) => Ok(a),
        Err(kind) => Err(Undefined { sub, kind }),
    }
}

/// The value of an expression whose root has the number `sub`, or its first undefined place.
#[cycle(evaluation)]
#[tactic(auto, using(crate::proofs::ValueEquations::value_equations, crate::proofs::TypedParts::typed_parts, program::proofs::Equations::count_equations))]
pub fn value<'a>(
    p: &'a Program,
    f: &'a Function,
    memory: &[Object],
    sub: u32,
    e: &'a Expr,
) -> Result<Value, Undefined>
    requires narrow { HasNarrowFields p.now.layout }
    requires typed { IsTypedExpr p.now f.now e.now }
    requires numbered { sub + count_expr e.now < 2 ^ 32 }
    ensures value { result ≡ value p.now f.now memory.now sub e.now }
    ensures plain { IfOk result (λ v. IsPlainValue v) }
{
    match e {
        Expr::Const(_, v) => Ok(Value::Number(*v)),
        Expr::Null => Ok(Value::Number(0)),
        Expr::Load(l, t) => {
            let at = place(p, f, memory, sub + 1, l)?;
            value_at(sub, load(memory, at, scalar_bits(p, f, l, t), t))
        }
        Expr::Addr(l) => {
            let at = place(p, f, memory, sub + 1, l)?;
            value_at(sub, address(memory, at))
        }
        Expr::Start(l) => {
            let at = place(p, f, memory, sub + 1, l)?;
            value_at(sub, address(memory, at))
        }
        Expr::Unary(op, a) => {
            let x = value(p, f, memory, sub + 1, a.get())?;
            value_at(sub, unary(*op, kind_of(a.get()), x))
        }
        Expr::Binary(op, a, b) => {
            let (a, b) = (a.get(), b.get());
            let x = value(p, f, memory, sub + 1, a)?;
            let y = value(p, f, memory, sub + 1 + count_expr(a), b)?;
            let size = stride(p, f, a, b);
            let on_pointers = is_address(a) || is_address(b);
            value_at(
                sub,
                binary(memory, size, on_pointers, *op, kind_of(a), x, y),
            )
        }
        Expr::Cast(t, a) => {
            let x = value(p, f, memory, sub + 1, a.get())?;
            Ok(converted(t, x))
        }
    }
}

/// What an lvalue designates, or the first undefined place in it.
#[cycle(evaluation)]
#[tactic(auto, using(crate::proofs::ValueEquations::value_equations, crate::proofs::TypedParts::typed_parts, program::proofs::Equations::count_equations))]
pub fn place<'a>(
    p: &'a Program,
    f: &'a Function,
    memory: &[Object],
    sub: u32,
    l: &'a LVal,
) -> Result<BitAddress, Undefined>
    requires narrow { HasNarrowFields p.now.layout }
    requires typed { IsTypedPlace p.now f.now l.now }
    requires numbered { sub + count_lval l.now < 2 ^ 32 }
    ensures value { result ≡ place p.now f.now memory.now sub l.now }
    ensures near { IfOk result (λ a. IsNear (count_lval l.now) a.bit) }
{
    match l {
        LVal::Var(base) => Ok(BitAddress {
            base: *base,
            bit: 0,
        }),
        LVal::Deref(e) => {
            let x = value(p, f, memory, sub + 1, e.get())?;
            place_at(sub, designated(x))
        }
        LVal::Index(a, i) => {
            let (a, i) = (a.get(), i.get());
            let at = place(p, f, memory, sub + 1, a)?;
            let y = value(p, f, memory, sub + 1 + count_lval(a), i)?;
            let (length, size) = (array_length(p, f, a), element_bits(p, f, a));
            place_at(sub, indexed(length, size, at, number_in(y)))
        }
        LVal::Field(a, member) => {
            let at = place(p, f, memory, sub + 1, a.get())?;
            Ok(moved_to(at, member_offset(p, f, a.get(), *member)))
        }
    }
}
