//! Accesses to memories.

ghost use Rattle.std.specs.Prelude.{◌≡◌, ◌+◌, ◌≤◌, ◌<◌, ◌^◌, length, Ok, Err, MatchResult, IfOk, pos, ◌≤ℤ◌, unsigned_abs};
ghost use Rattle.c_arithmetic.specs.Arithmetic.{and_then};
ghost use Rattle.c_meaning.specs.Cells.{IsPlainValue};
ghost use Rattle.c_memory.specs.Memory.{object};
ghost use Rattle.c_meaning.specs.Memory.{accessed, pointer_to};

use crate::value::{BitAddress, Value};
use c_memory::{Cell, Object, find};
use program::Kind;

/// The `n` bits from a place on.
pub fn accessed(memory: &[Object], at: BitAddress, n: usize) -> Result<&[Cell], Kind>
    ensures value { MatchResult result (λ cells. accessed memory.now at n ≡ Ok cells.now) (λ kind. accessed memory.now at n ≡ Err kind) }
    ensures len { IfOk result (λ cells. length cells.now ≡ n) }
    ensures first { IfOk result (λ _. pos 0 ≤ℤ at.bit) }
    ensures last { IfOk result (λ _. unsigned_abs at.bit + n < 2 ^ 64) }
{
    let Some(cells) = find(memory, at.base) else {
        return Err(Kind::MemAccess);
    };
    if at.bit < 0 || at.bit > cells.len() as i128 {
        return Err(Kind::MemAccess);
    }
    let from = at.bit as usize;
    if cells.len() - from < n {
        return Err(Kind::MemAccess);
    }
    Ok(&cells[from..from + n])
}

/// Where the `n` bits from a place on begin in their object.
pub fn start_of(memory: &[Object], at: BitAddress, n: usize) -> Result<usize, Kind>
    ensures value { result ≡ and_then (accessed memory.now at n) (λ _. Ok (unsigned_abs at.bit)) }
    ensures last { IfOk result (λ from. from + n < 2 ^ 64) }
{
    match accessed(memory, at, n) {
        Ok(_) => Ok(at.bit as usize),
        Err(kind) => Err(kind),
    }
}

/// A pointer into an object or one past its end.
pub fn pointer_to(memory: &[Object], base: u32, byte: i128) -> Result<Value, Kind>
    ensures value { result ≡ pointer_to memory.now base byte }
    ensures plain { IfOk result (λ v. IsPlainValue v) }
{
    let Some(cells) = find(memory, base) else {
        return Err(Kind::PointerArithmetic);
    };
    if byte < 0 || byte > (cells.len() / 8) as i128 {
        return Err(Kind::PointerArithmetic);
    }
    Ok(Value::Pointer(base, byte as i64))
}
