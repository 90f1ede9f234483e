//! Numbers from gcc, reads of every sort, and the objects with which executions begin.

ghost use Rattle.std.specs.Prelude.{IsTrue};
ghost use Rattle.c_arithmetic.specs.Arithmetic.{IsPlain};

use crate::cells::{held, number_cells, pointer_cells};
use crate::execution::range_of_bits;
use crate::memory::{accessed, pointer_to};
use crate::operators::{binary, converted, designated, indexed};
use crate::parts::{Free, free_in};
use crate::value::{BitAddress, Value};
use c_arithmetic::arithmetic;
use c_memory::{Cell, Mem};
use c_types::{CType, IntKind, Layout, Member, StructId, StructInfo};
use program::{BinOp, Kind, Start};
use sqlite_items::{Boxed, Items};
use std::alloc::{AllocError, Global};
use std::test::Fail;

/// A type, two operands of it, and what the operators give on them, as tools/operators.c prints it.
const TABLE: &str = "int -7 2 -5 -9 -14 -3 -1 signed_overflow -2 0 -5 -5 1 1 0 0 0 1
int -2147483648 -1 signed_overflow -2147483647 signed_overflow signed_overflow signed_overflow shift shift -2147483648 -1 2147483647 1 1 0 0 0 1
int 2147483647 31 signed_overflow 2147483616 signed_overflow 69273666 1 signed_overflow 0 31 2147483647 2147483616 0 0 1 1 0 1
int 5 0 5 5 0 division_by_zero division_by_zero 5 5 0 5 5 0 0 1 1 0 1
unsigned 3 5 8 4294967294 15 0 3 96 0 1 7 6 1 1 0 0 0 1
unsigned 4294967295 31 30 4294967264 4294967265 138547332 3 2147483648 1 31 4294967295 4294967264 0 0 1 1 0 1
long -9 4 -5 -13 -36 -2 -1 signed_overflow -1 4 -9 -13 1 1 0 0 0 1
long -9223372036854775808 -1 signed_overflow -9223372036854775807 signed_overflow signed_overflow signed_overflow shift shift -9223372036854775808 -1 9223372036854775807 1 1 0 0 0 1
long 3037000500 62 3037000562 3037000438 188294031000 48983879 2 signed_overflow 0 52 3037000510 3037000458 0 0 1 1 0 1
unsigned_long 18446744073709551615 63 62 18446744073709551552 18446744073709551553 292805461487453200 15 9223372036854775808 1 63 18446744073709551615 18446744073709551552 0 0 1 1 0 1
unsigned_long 1 64 65 18446744073709551553 64 0 1 shift shift 0 65 65 1 1 0 0 0 1";

const OPERATORS: [BinOp; 16] = [
    BinOp::Add,
    BinOp::Sub,
    BinOp::Mul,
    BinOp::Div,
    BinOp::Rem,
    BinOp::Shl,
    BinOp::Shr,
    BinOp::And,
    BinOp::Or,
    BinOp::Xor,
    BinOp::Lt,
    BinOp::Le,
    BinOp::Gt,
    BinOp::Ge,
    BinOp::Eq,
    BinOp::Ne,
];

fn kind_named(name: &str) -> Option<IntKind> {
    if name == "int" {
        Some(IntKind::Int)
    } else if name == "unsigned" {
        Some(IntKind::UInt)
    } else if name == "long" {
        Some(IntKind::Long)
    } else if name == "unsigned_long" {
        Some(IntKind::ULong)
    } else {
        None
    }
}

fn reason_named(name: &str) -> Option<Kind> {
    if name == "division_by_zero" {
        Some(Kind::DivisionByZero)
    } else if name == "signed_overflow" {
        Some(Kind::SignedOverflow)
    } else if name == "shift" {
        Some(Kind::Shift)
    } else {
        None
    }
}

fn is_plain(v: i128) -> bool
    ensures { IsTrue result → IsPlain v }
{
    -9223372036854775808 <= v && v <= 18446744073709551615
}

/// Whether an operator gives on these operands what the word says.
fn agrees(op: BinOp, kind: IntKind, a: i128, b: i128, word: &str) -> bool {
    if !is_plain(a) || !is_plain(b) {
        return false;
    }
    match arithmetic(op, kind, a, b) {
        Ok(v) => match word.parse::<i128>() {
            Ok(expected) => v == expected,
            Err(_) => false,
        },
        Err(undefined) => reason_named(word) == Some(undefined),
    }
}

/// How many of a row's results the operators give.
fn agreeing(row: &str) -> u32 {
    let mut words = row.split_whitespace();
    let (Some(name), Some(a), Some(b)) = (words.next(), words.next(), words.next()) else {
        return 0;
    };
    let (Some(kind), Ok(a), Ok(b)) = (kind_named(name), a.parse::<i128>(), b.parse::<i128>()) else {
        return 0;
    };
    let mut found: u32 = 0;
    for op in OPERATORS {
        if let Some(word) = words.next() {
            if agrees(op, kind, a, b, word) {
                found = found.saturating_add(1);
            }
        }
    }
    found
}

#[test]
fn operators_agree_with_the_compiler(rt: HostRuntime) -> Result<(), Fail> {
    let mut rows: u32 = 0;
    for row in TABLE.lines() {
        assert_eq!(rt; agreeing(row), 16, "in {row}");
        rows = rows.saturating_add(1);
    }
    assert_eq!(rt; rows, 11);
    Ok(())
}

fn int(kind: IntKind) -> CType {
    CType::Int {
        kind,
        volatile: false,
    }
}

fn pointer(alloc: Global) -> Result<CType, AllocError> {
    Ok(CType::Ptr(Boxed::new(alloc, int(IntKind::Int))?))
}

/// The value of a type that the bits hold, or why there is none; as an error where a scalar has fewer bits.
fn read(t: &CType, cells: &[Cell]) -> Result<Value, Kind> {
    if cells.len() > 64 {
        return Err(Kind::MemAccess);
    }
    held(t, cells)
}

#[test]
fn numbers_are_read_by_their_type(rt: HostRuntime) -> Result<(), Fail> {
    let alloc = rt.alloc();
    let minus_one = number_cells(alloc, 32, -1)?;
    assert!(rt; read(&int(IntKind::Int), minus_one.as_slice()) == Ok(Value::Number(-1)));
    assert!(rt; read(&int(IntKind::UInt), minus_one.as_slice()) == Ok(Value::Number(4294967295)));
    // a bit-field of three bits keeps the lowest three
    let field = number_cells(alloc, 3, 13)?;
    assert!(rt; read(&int(IntKind::Int), field.as_slice()) == Ok(Value::Number(-3)));
    assert!(rt; read(&int(IntKind::UInt), field.as_slice()) == Ok(Value::Number(5)));
    let two = number_cells(alloc, 8, 2)?;
    assert!(rt; read(&int(IntKind::Bool), two.as_slice()) == Ok(Value::Number(1)));
    assert!(rt; range_of_bits(IntKind::Int, 3) == (-4, 3));
    assert!(rt; range_of_bits(IntKind::UInt, 3) == (0, 7));
    assert!(rt; range_of_bits(IntKind::Bool, 1) == (0, 1));
    Ok(())
}

#[test]
fn pointers_are_read_whole(rt: HostRuntime) -> Result<(), Fail> {
    let alloc = rt.alloc();
    let t = pointer(alloc)?;
    let whole = pointer_cells(alloc, 3, 8)?;
    assert!(rt; read(&t, whole.as_slice()) == Ok(Value::Pointer(3, 8)));
    assert_eq!(rt; whole.len(), 64);
    assert!(rt; read(&t, &whole.as_slice()[..56]) == Err(Kind::PointerBytes));
    assert!(rt; read(&int(IntKind::Long), whole.as_slice()) == Err(Kind::PointerBytes));
    let null = number_cells(alloc, 64, 0)?;
    assert!(rt; read(&t, null.as_slice()) == Ok(Value::Number(0)));
    let five = number_cells(alloc, 64, 5)?;
    assert!(rt; read(&t, five.as_slice()) == Err(Kind::PointerBytes));
    Ok(())
}

#[test]
fn what_is_not_there_comes_first(rt: HostRuntime) -> Result<(), Fail> {
    let alloc = rt.alloc();
    let mut memory = Mem::new(alloc);
    memory.enter(alloc, 1, 8)?;
    memory.enter(alloc, 2, 128)?;
    let target = pointer_cells(alloc, 1, 0)?;
    memory.put(2, 0, target.as_slice());
    let t = pointer(alloc)?;
    let start = BitAddress { base: 2, bit: 0 };
    assert!(rt;
        accessed(memory.as_slice(), start, 64).map(|cells| read(&t, cells))
            == Ok(Ok(Value::Pointer(1, 0)))
    );
    memory.leave([1].as_slice());
    assert!(rt;
        accessed(memory.as_slice(), start, 64).map(|cells| read(&t, cells))
            == Ok(Err(Kind::Dangling))
    );
    let across = BitAddress { base: 2, bit: 8 };
    assert!(rt;
        accessed(memory.as_slice(), across, 64).map(|cells| read(&t, cells))
            == Ok(Err(Kind::Initialization))
    );
    Ok(())
}

#[test]
fn accesses_lie_wholly_in_objects(rt: HostRuntime) -> Result<(), Fail> {
    let alloc = rt.alloc();
    let mut memory = Mem::new(alloc);
    memory.enter(alloc, 1, 32)?;
    let m = memory.as_slice();
    assert!(rt; accessed(m, BitAddress { base: 1, bit: 0 }, 32).is_ok());
    assert!(rt; accessed(m, BitAddress { base: 1, bit: 1 }, 32).is_err());
    assert!(rt; accessed(m, BitAddress { base: 1, bit: -8 }, 8).is_err());
    assert!(rt; accessed(m, BitAddress { base: 2, bit: 0 }, 8).is_err());
    // a pointer past the end is one, and isn't read through
    assert!(rt; pointer_to(m, 1, 4) == Ok(Value::Pointer(1, 4)));
    assert!(rt; pointer_to(m, 1, 5) == Err(Kind::PointerArithmetic));
    assert!(rt; pointer_to(m, 1, -1) == Err(Kind::PointerArithmetic));
    assert!(rt; accessed(m, BitAddress { base: 1, bit: 32 }, 8).is_err());
    assert!(rt; designated(Value::Number(0)) == Err(Kind::MemAccess));
    let array = BitAddress { base: 1, bit: 0 };
    assert!(rt; indexed(4, 8, array, 3) == Ok(BitAddress { base: 1, bit: 24 }));
    assert!(rt; indexed(4, 8, array, 4) == Err(Kind::IndexBound));
    assert!(rt; indexed(4, 8, array, -1) == Err(Kind::IndexBound));
    Ok(())
}

#[test]
fn pointers_are_compared_in_one_object(rt: HostRuntime) -> Result<(), Fail> {
    let alloc = rt.alloc();
    let mut memory = Mem::new(alloc);
    memory.enter(alloc, 1, 64)?;
    let m = memory.as_slice();
    let (first, second, other) = (
        Value::Pointer(1, 0),
        Value::Pointer(1, 4),
        Value::Pointer(2, 0),
    );
    let null = Value::Number(0);
    let long = IntKind::Long;
    assert!(rt; binary(m, 4, true, BinOp::PtrDiff, long, second, first) == Ok(Value::Number(1)));
    assert!(rt;
        binary(m, 4, true, BinOp::PtrDiff, long, first, other) == Err(Kind::DifferingBlocks)
    );
    assert!(rt; binary(m, 4, true, BinOp::PtrDiff, long, null, null) == Err(Kind::DifferingBlocks));
    assert!(rt; binary(m, 4, true, BinOp::Lt, long, first, second) == Ok(Value::Number(1)));
    assert!(rt; binary(m, 4, true, BinOp::Lt, long, first, other) == Err(Kind::PointerComparison));
    assert!(rt; binary(m, 4, true, BinOp::Eq, long, first, other) == Ok(Value::Number(0)));
    assert!(rt; binary(m, 4, true, BinOp::Eq, long, null, null) == Ok(Value::Number(1)));
    assert!(rt;
        binary(m, 4, true, BinOp::PtrAdd, long, first, Value::Number(2)) == Ok(Value::Pointer(1, 8))
    );
    assert!(rt;
        binary(m, 4, true, BinOp::PtrAdd, long, first, Value::Number(3))
            == Err(Kind::PointerArithmetic)
    );
    assert!(rt; binary(m, 4, true, BinOp::PtrSub, long, second, Value::Number(1)) == Ok(first));
    assert!(rt;
        binary(m, 4, true, BinOp::PtrAdd, long, null, Value::Number(0))
            == Err(Kind::PointerArithmetic)
    );
    assert!(rt; converted(&int(IntKind::Bool), second) == Value::Number(1));
    assert!(rt; converted(&int(IntKind::UChar), Value::Number(-1)) == Value::Number(255));
    Ok(())
}

fn member(name: u32, ctype: CType, offset_bits: u32, bits: Option<u32>) -> Member {
    Member {
        name,
        ctype,
        offset_bits,
        bits,
    }
}

fn info(is_union: bool, members: Items<Member>, size_bits: u32, align_bits: u32) -> StructInfo {
    StructInfo {
        tag: 0,
        members,
        size_bits,
        align_bits,
        complete: true,
        is_union,
    }
}

/// `struct { int low : 5; unsigned high : 3; union { short s; int i; } u[2]; int *p; }`
fn mixed(alloc: Global) -> Result<Layout, AllocError> {
    let mut of_union = Items::new(alloc);
    of_union.push(member(1, int(IntKind::Short), 0, None))?;
    of_union.push(member(2, int(IntKind::Int), 0, None))?;
    let two = CType::Array(Boxed::new(alloc, CType::Struct(StructId(0)))?, 2);
    let mut of_struct = Items::new(alloc);
    of_struct.push(member(3, int(IntKind::Int), 0, Some(5)))?;
    of_struct.push(member(4, int(IntKind::UInt), 5, Some(3)))?;
    of_struct.push(member(5, two, 32, None))?;
    of_struct.push(member(6, pointer(alloc)?, 128, None))?;
    let mut structs = Items::new(alloc);
    structs.push(info(true, of_union, 32, 32))?;
    structs.push(info(false, of_struct, 192, 64))?;
    Ok(Layout { structs })
}

#[test]
fn scalars_of_unions_and_fields_are_free(rt: HostRuntime) -> Result<(), Fail> {
    let alloc = rt.alloc();
    let layout = mixed(alloc)?;
    let targets = Items::from_slice(alloc, [Some(9)].as_slice())?;
    let t = CType::Struct(StructId(1));
    let found = free_in(alloc, &layout, &t, &Start::Hidden(targets))?;
    let integer = |at, bits, kind| Free::Integer { at, bits, kind };
    let expected = [
        integer(0, 5, IntKind::Int),
        integer(5, 3, IntKind::UInt),
        integer(32, 16, IntKind::Short),
        integer(64, 16, IntKind::Short),
        Free::Pointer {
            at: 128,
            target: Some(9),
        },
    ];
    assert!(rt; found.as_slice() == expected.as_slice());
    let none = free_in(alloc, &layout, &t, &Start::Uninit)?;
    assert!(rt; none.as_slice().is_empty());
    let choice = free_in(alloc, &layout, &pointer(alloc)?, &Start::Choice(None))?;
    assert_eq!(rt; choice.as_slice().len(), 1);
    Ok(())
}
