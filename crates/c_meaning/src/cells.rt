//! The values that bits of an object stand for.

ghost use Rattle.std.specs.Prelude.{◌≡◌, ◌+◌, ◌<◌, ◌≤◌, ◌^◌, length, IfOk};
ghost use Rattle.std.specs.List.{list_any};
ghost use Rattle.c_arithmetic.specs.Arithmetic.{IsPlain};
ghost use Rattle.c_meaning.specs.Cells.{number_cells, pointer_cells, value_cells, is_uninit, is_dangling, is_pointer_bit, is_set, spelled, interpreted, number_of, are_bits_from, pointer_of, defined_as, held, IsPlainValue};

use crate::value::Value;
use c_arithmetic::power;
use c_memory::{Cell, bit_of};
use c_types::{CType, IntKind, is_signed};
use program::Kind;
use sqlite_items::Items;
use std::alloc::{AllocError, Global};

/// The lowest `n` bits of a number.
pub fn number_cells(alloc: Global, n: u32, x: i128) -> Result<Items<Cell>, AllocError>
    ensures { IfOk result (λ cells. cells ≡ number_cells n x) }
{
    let mut cells = Items::new(alloc);
    for j in 0..n {
        cells.push(Cell::Bit(bit_of(x, j)))?;
    }
    Ok(cells)
}

/// The bits of a pointer.
pub fn pointer_cells(alloc: Global, base: u32, offset: i64) -> Result<Items<Cell>, AllocError>
    ensures { IfOk result (λ cells. cells ≡ pointer_cells base offset) }
{
    let mut cells = Items::new(alloc);
    for bit in 0..64u8 {
        cells.push(Cell::Ptr { base, offset, bit })?;
    }
    Ok(cells)
}

/// A value as `n` bits; a pointer has 64.
pub fn value_cells(alloc: Global, n: u32, v: Value) -> Result<Items<Cell>, AllocError>
    ensures { IfOk result (λ cells. cells ≡ value_cells n v) }
{
    match v {
        Value::Number(x) => number_cells(alloc, n, x),
        Value::Pointer(base, offset) => pointer_cells(alloc, base, offset),
    }
}

pub fn has_uninit(cells: &[Cell]) -> bool
    ensures { result ≡ list_any is_uninit cells.now }
{
    cells.iter().any(|c| matches!(c, Cell::Uninit))
}

fn has_dangling(cells: &[Cell]) -> bool
    ensures { result ≡ list_any is_dangling cells.now }
{
    cells.iter().any(|c| matches!(c, Cell::Dangling))
}

fn has_pointer_bit(cells: &[Cell]) -> bool
    ensures { result ≡ list_any is_pointer_bit cells.now }
{
    cells.iter().any(|c| matches!(c, Cell::Ptr { .. }))
}

fn is_set(c: Cell) -> bool
    ensures { result ≡ is_set c }
{
    match c {
        Cell::Bit(b) => b,
        Cell::Uninit | Cell::Dangling | Cell::Ptr { .. } => false,
    }
}

fn has_set(cells: &[Cell]) -> bool
    ensures { result ≡ list_any is_set cells.now }
{
    cells.iter().any(|c| is_set(*c))
}

/// The number that bits spell, the lowest first.
fn spelled(cells: &[Cell]) -> u64
    requires { length cells.now ≤ 64 }
    ensures value { result ≡ spelled cells.now }
    ensures small { result < 2 ^ length cells.now }
{
    match cells {
        [] => 0,
        [first, rest @ ..] => {
            let more = spelled(rest);
            if is_set(*first) {
                1 + 2 * more
            } else {
                2 * more
            }
        }
    }
}

/// A number of `n` bits, in two's complement where it is signed.
fn interpreted(signed: bool, n: u32, v: u64) -> i128
    requires few { n ≤ 64 }
    requires small { v < 2 ^ n }
    ensures value { result ≡ interpreted signed n v }
    ensures plain { IsPlain result }
{
    let v = i128::from(v);
    if signed && power(n.saturating_sub(1)) <= v {
        v - power(n)
    } else {
        v
    }
}

fn number_of(kind: IntKind, cells: &[Cell]) -> i128
    requires { length cells.now ≤ 64 }
    ensures value { result ≡ number_of kind cells.now }
    ensures plain { IsPlain result }
{
    let v = spelled(cells);
    if kind == IntKind::Bool {
        return if v == 0 { 0 } else { 1 };
    }
    interpreted(is_signed(kind), cells.len() as u32, v)
}

/// Whether these are the bits of one pointer, from this one on.
fn are_bits_from(base: u32, offset: i64, from: u32, cells: &[Cell]) -> bool
    requires { from + length cells.now ≤ 64 }
    ensures { result ≡ are_bits_from base offset from cells.now }
{
    match cells {
        [] => true,
        [
            Cell::Ptr {
                base: b,
                offset: o,
                bit,
            },
            rest @ ..,
        ] => {
            *b == base
                && *o == offset
                && u32::from(*bit) == from
                && are_bits_from(base, offset, from + 1, rest)
        }
        [Cell::Uninit | Cell::Dangling | Cell::Bit(_), ..] => false,
    }
}

/// A whole pointer, or null.
fn pointer_of(cells: &[Cell]) -> Result<Value, Kind>
    ensures value { result ≡ pointer_of cells.now }
    ensures plain { IfOk result (λ v. IsPlainValue v) }
{
    if let [Cell::Ptr { base, offset, .. }, ..] = cells {
        if cells.len() == 64 && are_bits_from(*base, *offset, 0, cells) {
            return Ok(Value::Pointer(*base, *offset));
        }
        return Err(Kind::PointerBytes);
    }
    if has_pointer_bit(cells) || has_set(cells) {
        Err(Kind::PointerBytes)
    } else {
        Ok(Value::Number(0))
    }
}

fn defined_as(t: &CType, cells: &[Cell]) -> Result<Value, Kind>
    requires { length cells.now ≤ 64 }
    ensures value { result ≡ defined_as t.now cells.now }
    ensures plain { IfOk result (λ v. IsPlainValue v) }
{
    match t {
        CType::Int { kind, .. } => {
            if has_pointer_bit(cells) {
                Err(Kind::PointerBytes)
            } else {
                Ok(Value::Number(number_of(*kind, cells)))
            }
        }
        CType::Void | CType::Ptr(_) | CType::Array(_, _) | CType::Struct(_) | CType::Unusable =>
            pointer_of(cells),
    }
}

/// The value of a type that cells hold.
#[tactic(auto, unfolding(crate::specs::Cells::held))]
pub fn held(t: &CType, cells: &[Cell]) -> Result<Value, Kind>
    requires { length cells.now ≤ 64 }
    ensures value { result ≡ held t.now cells.now }
    ensures plain { IfOk result (λ v. IsPlainValue v) }
{
    if has_uninit(cells) {
        Err(Kind::Initialization)
    } else if has_dangling(cells) {
        Err(Kind::Dangling)
    } else {
        defined_as(t, cells)
    }
}
