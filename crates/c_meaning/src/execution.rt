//! One step of an execution.

ghost use Rattle.std.specs.Prelude.{◌≡◌, ◌+◌, ◌<◌, ◌≤◌, ◌^◌, ◌∷◌, slice_get, slice_index, All, IfOk, OnOk, if◌then◌else◌};
ghost use Rattle.program.specs.Numbers.{count_expr, count_lval, count_exprs, count_what};
ghost use Rattle.program.specs.Lawful.{Lawful};
ghost use Rattle.c_meaning.specs.PlaceTypes.{HasNarrowFields};
ghost use Rattle.c_meaning.specs.Typed.{IsTypedExpr, IsTypedPlace, IsTypedSource, IsExecutable};
ghost use Rattle.c_memory.specs.Memory.{object, left};
ghost use Rattle.c_meaning.specs.Value.{value};
ghost use Rattle.c_meaning.specs.Steps.{own_bases, entered_all, values, undefined_in, range_of_bits, sought, stored, where_defined, after, node_of, reads, goes, site_of, is_false, given, called, calls, passed, wanted, comes_back, returns, executed, next, asked, asked_by};

use crate::cells::{has_uninit, value_cells};
use crate::config::{Config, Move};
use crate::error::Memory;
use crate::evaluate::{place, value};
use crate::instructions::{after, base_bits, enter_all, enter_result};
use crate::memory::accessed;
use crate::operators::number_in;
use crate::types::scalar_bits;
use crate::value::{Undefined, Value};
use c_arithmetic::power;
use c_memory::{Mem, Object, find};
use c_types::{CType, IntKind, is_signed, range};
use program::{Expr, Function, Instr, Kind, LVal, Node, Program, Site, What, count_expr};
use sqlite_items::Items;
use std::alloc::Global;

/// The node that an edge goes to.
#[tactic(auto, using(crate::proofs::Arguments::no_edge))]
fn edge(node: &Node, which: usize) -> u32
    ensures { result ≡ slice_index node.now.edges which }
{
    match node.edges.get(which) {
        Some(target) => *target,
        None => 0,
    }
}

/// The values of arguments, left to right, the first with this number.
fn values(
    alloc: Global,
    p: &Program,
    f: &Function,
    memory: &[Object],
    first: u32,
    args: &[Expr],
) -> Result<Result<Items<Value>, Undefined>, Memory>
    requires narrow { HasNarrowFields p.now.layout }
    requires typed { All (IsTypedExpr p.now f.now) args.now }
    requires numbered { first + count_exprs args.now < 2 ^ 32 }
    ensures { IfOk result (λ r. r ≡ values p.now f.now memory.now first args.now) }
{
    let mut found = Items::new(alloc);
    let mut sub = first;
    for e in args {
        match value(p, f, memory, sub, e) {
            Ok(v) => found.push(v)?,
            Err(undefined) => return Ok(Err(undefined)),
        }
        sub += count_expr(e);
    }
    Ok(Ok(found))
}

/// The first of the arguments that is undefined.
fn undefined_in(
    p: &Program,
    f: &Function,
    memory: &[Object],
    first: u32,
    args: &[Expr],
) -> Option<Undefined>
    requires narrow { HasNarrowFields p.now.layout }
    requires typed { All (IsTypedExpr p.now f.now) args.now }
    requires numbered { first + count_exprs args.now < 2 ^ 32 }
    ensures { result ≡ undefined_in p.now f.now memory.now first args.now }
{
    let mut sub = first;
    for e in args {
        if let Err(undefined) = value(p, f, memory, sub, e) {
            return Some(undefined);
        }
        sub += count_expr(e);
    }
    None
}

/// The numbers of a kind that `n` bits hold.
pub fn range_of_bits(kind: IntKind, n: u32) -> (i128, i128)
    requires { n ≤ 64 }
    ensures { result ≡ range_of_bits kind n }
{
    if kind == IntKind::Bool {
        (0, 1)
    } else if is_signed(kind) {
        let half = power(n.saturating_sub(1));
        (-half, half - 1)
    } else {
        (0, power(n) - 1)
    }
}

fn volatile_range(
    p: &Program,
    f: &Function,
    memory: &[Object],
    l: &LVal,
    kind: IntKind,
) -> Result<Option<(i128, i128)>, Undefined>
    requires narrow { HasNarrowFields p.now.layout }
    requires typed { IsTypedPlace p.now f.now l.now }
    requires numbered { 1 + count_lval l.now < 2 ^ 32 }
    ensures { result ≡ sought p.now f.now memory.now (What.Volatile l.now kind) }
{
    let at = place(p, f, memory, 1, l)?;
    let t = CType::Int {
        kind,
        volatile: false,
    };
    let bits = scalar_bits(p, f, l, &t);
    match accessed(memory, at, bits as usize) {
        Ok(_) => Ok(Some(range_of_bits(kind, bits))),
        Err(kind) => Err(Undefined { sub: 1, kind }),
    }
}

fn interval(
    p: &Program,
    f: &Function,
    memory: &[Object],
    lo: &Expr,
    hi: &Expr,
) -> Result<Option<(i128, i128)>, Undefined>
    requires narrow { HasNarrowFields p.now.layout }
    requires lo_typed { IsTypedExpr p.now f.now lo.now }
    requires hi_typed { IsTypedExpr p.now f.now hi.now }
    requires numbered { 1 + count_expr lo.now + count_expr hi.now < 2 ^ 32 }
    ensures { result ≡ sought p.now f.now memory.now (What.Interval lo.now hi.now) }
{
    let x = value(p, f, memory, 1, lo)?;
    let y = value(p, f, memory, 1 + count_expr(lo), hi)?;
    Ok(Some((number_in(x), number_in(y))))
}

fn external_range(
    p: &Program,
    f: &Function,
    memory: &[Object],
    args: &[Expr],
    kind: Option<IntKind>,
) -> Result<Option<(i128, i128)>, Undefined>
    requires narrow { HasNarrowFields p.now.layout }
    requires typed { All (IsTypedExpr p.now f.now) args.now }
    requires numbered { 1 + count_exprs args.now < 2 ^ 32 }
    ensures { result ≡ sought p.now f.now memory.now (What.Function args.now kind) }
{
    if let Some(undefined) = undefined_in(p, f, memory, 1, args) {
        return Err(undefined);
    }
    match kind {
        Some(kind) => Ok(Some(range(kind))),
        None => Ok(None),
    }
}

/// The range of the number that an external reads, where it reads one.
fn sought(
    p: &Program,
    f: &Function,
    memory: &[Object],
    what: &What,
) -> Result<Option<(i128, i128)>, Undefined>
    requires narrow { HasNarrowFields p.now.layout }
    requires typed { IsTypedSource p.now f.now what.now }
    requires numbered { 1 + count_what what.now < 2 ^ 32 }
    ensures { result ≡ sought p.now f.now memory.now what.now }
{
    match what {
        What::Function(args, kind) => external_range(p, f, memory, args.as_slice(), *kind),
        What::Interval(lo, hi) => interval(p, f, memory, lo, hi),
        What::Volatile(l, kind) => volatile_range(p, f, memory, l, *kind),
    }
}

fn asked_by(p: &Program, f: &Function, memory: &[Object], instr: &Instr) -> Option<(i128, i128)>
    requires narrow { HasNarrowFields p.now.layout }
    requires ready { IsExecutable p.now f.now instr.now }
    ensures { result ≡ asked_by p.now f.now memory.now instr.now }
{
    match instr {
        Instr::External(_, what) => match sought(p, f, memory, what) {
            Ok(range) => range,
            Err(_) => None,
        },
        Instr::Set(_, _)
        | Instr::Copy(_, _)
        | Instr::Zero(_)
        | Instr::Guard(_)
        | Instr::Enter(_)
        | Instr::Leave(_)
        | Instr::Call(_, _, _)
        | Instr::Return
        | Instr::Skip(_) => None,
    }
}

/// The range of the number that the next step reads: none where it reads no number, and where a
/// subexpression before the read is undefined.
#[tactic(auto, unfolding(crate::specs::Steps::asked))]
pub fn asked(p: &Program, c: &Config) -> Option<(i128, i128)>
    requires program { Lawful p.now }
    ensures { result ≡ asked p.now c.now }
{
    match p.functions.get(c.fun as usize) {
        Some(f) => match f.nodes.get(c.node as usize) {
            Some(node) => asked_by(p, f, c.memory.as_slice(), &node.instr),
            None => None,
        },
        None => None,
    }
}

/// A result stored where it is wanted.
fn stored(
    alloc: Global,
    p: &Program,
    to: Option<u32>,
    v: Value,
    mut memory: Mem,
) -> Result<Mem, Memory>
    ensures { IfOk result (λ m. m ≡ stored p.now to v memory) }
{
    if let Some(base) = to {
        let new = value_cells(alloc, base_bits(p, base), v)?;
        memory.put(base, 0, new.as_slice());
    }
    Ok(memory)
}

/// 0 and null are false.
fn is_false(v: Value) -> bool
    ensures { result ≡ is_false v }
{
    match v {
        Value::Number(v) => v == 0,
        Value::Pointer(_, _) => false,
    }
}

fn site_of(fun: u32, node: u32, undefined: Undefined) -> Site
    ensures { result ≡ site_of fun node undefined }
{
    Site {
        fun,
        node,
        sub: undefined.sub,
        kind: undefined.kind,
    }
}

fn goes(c: Config, node: &Node, which: usize) -> Move
    ensures { result ≡ goes c node.now which c.memory }
{
    Move::Next(Config {
        fun: c.fun,
        node: edge(node, which),
        stack: c.stack,
        memory: c.memory,
    })
}

/// Parameters are given their arguments.
#[tactic(auto, using(crate::proofs::Arguments::given_none, crate::proofs::Arguments::given_done))]
fn give(
    alloc: Global,
    p: &Program,
    mut params: &[u32],
    mut args: &[Value],
    mut memory: Mem,
) -> Result<Mem, Memory>
    ensures { IfOk result (λ m. m ≡ given p.now params.entry.now args.entry.now memory) }
{
    while let [base, more @ ..] = params {
        let [v, rest @ ..] = args else {
            return Ok(memory);
        };
        let new = value_cells(alloc, base_bits(p, *base), *v)?;
        memory.put(*base, 0, new.as_slice());
        params = more;
        args = rest;
    }
    Ok(memory)
}

/// The bases that live from a call of the function to its end.
#[tactic(auto, using(crate::proofs::Arguments::entered_append))]
fn enter_own(alloc: Global, p: &Program, f: &Function, memory: Mem) -> Result<Mem, Memory>
    ensures { IfOk result (λ m. m ≡ entered_all p.now (own_bases f.now) memory) }
{
    let memory = enter_all(alloc, p, f.params.as_slice(), memory)?;
    let memory = enter_all(alloc, p, f.locals.as_slice(), memory)?;
    enter_all(alloc, p, f.temps.as_slice(), memory)
}

/// The memory in which a function begins.
fn called(
    alloc: Global,
    p: &Program,
    g: &Function,
    args: &[Value],
    mut memory: Mem,
) -> Result<Mem, Memory>
    ensures { IfOk result (λ m. m ≡ called p.now g.now args.now memory) }
{
    memory.leave([0].as_slice());
    let memory = enter_result(alloc, p, g, memory)?;
    let memory = enter_own(alloc, p, g, memory)?;
    give(alloc, p, g.params.as_slice(), args, memory)
}

fn call(alloc: Global, p: &Program, c: Config, callee: u32, args: &[Value]) -> Result<Move, Memory>
    ensures { IfOk result (λ m. m ≡ calls p.now c callee (slice_get p.now.functions callee) args.now) }
{
    let Some(g) = p.functions.get(callee as usize) else {
        return Ok(Move::Returned(c.memory));
    };
    let mut stack = Items::new(alloc);
    stack.push((c.fun, c.node))?;
    stack.append(c.stack)?;
    let memory = called(alloc, p, g, args, c.memory)?;
    Ok(Move::Next(Config {
        fun: callee,
        node: g.entry,
        stack,
        memory,
    }))
}

/// The result of a call, passed to where it is wanted.
fn passed(alloc: Global, to: Option<u32>, mut memory: Mem) -> Result<Result<Mem, Undefined>, Memory>
    ensures { IfOk result (λ r. r ≡ passed to (object memory 0) memory) }
{
    let Some(base) = to else {
        return Ok(Ok(memory));
    };
    let cells = match find(memory.as_slice(), 0) {
        Some(cells) => Items::from_slice(alloc, cells)?,
        None => return Ok(Ok(memory)),
    };
    if has_uninit(cells.as_slice()) {
        return Ok(Err(Undefined {
            sub: 0,
            kind: Kind::MissingReturn,
        }));
    }
    memory.put(base, 0, cells.as_slice());
    Ok(Ok(memory))
}

fn wanted(instr: &Instr) -> Option<u32>
    ensures { result ≡ wanted instr.now }
{
    match instr {
        Instr::Call(to, _, _) => *to,
        Instr::Set(_, _)
        | Instr::Copy(_, _)
        | Instr::Zero(_)
        | Instr::Guard(_)
        | Instr::Enter(_)
        | Instr::Leave(_)
        | Instr::External(_, _)
        | Instr::Return
        | Instr::Skip(_) => None,
    }
}

/// Ends the objects of a function that returns.
fn leave_own(memory: &mut Mem, alloc: Global, f: &Function) -> Result<(), Memory>
    ensures { OnOk result (memory.new ≡ left (0 ∷ own_bases f.now) memory.old) }
{
    let mut bases = Items::new(alloc);
    bases.push(0)?;
    bases.append(Items::from_slice(alloc, f.params.as_slice())?)?;
    bases.append(Items::from_slice(alloc, f.locals.as_slice())?)?;
    bases.append(Items::from_slice(alloc, f.temps.as_slice())?)?;
    memory.leave(bases.as_slice());
    Ok(())
}

fn come_back(
    alloc: Global,
    p: &Program,
    f: &Function,
    memory: Mem,
    frame: (u32, u32),
    rest: Items<(u32, u32)>,
) -> Result<Move, Memory>
    ensures { IfOk result (λ m. m ≡ comes_back p.now f.now memory frame.0 frame.1 rest (slice_get p.now.functions frame.0) (node_of (slice_get p.now.functions frame.0) frame.1)) }
{
    let Some(caller) = p.functions.get(frame.0 as usize) else {
        return Ok(Move::Returned(memory));
    };
    let Some(node) = caller.nodes.get(frame.1 as usize) else {
        return Ok(Move::Returned(memory));
    };
    match passed(alloc, wanted(&node.instr), memory)? {
        Ok(mut memory) => {
            leave_own(&mut memory, alloc, f)?;
            let memory = enter_result(alloc, p, caller, memory)?;
            Ok(Move::Next(Config {
                fun: frame.0,
                node: edge(node, 0),
                stack: rest,
                memory,
            }))
        }
        Err(undefined) => Ok(Move::Undefined(site_of(frame.0, frame.1, undefined))),
    }
}

fn returned(
    alloc: Global,
    p: &Program,
    f: &Function,
    memory: Mem,
    mut stack: Items<(u32, u32)>,
) -> Result<Move, Memory>
    ensures { IfOk result (λ m. m ≡ returns p.now f.now memory stack) }
{
    if stack.is_empty() {
        return Ok(Move::Returned(memory));
    }
    let frame = stack.remove(0);
    come_back(alloc, p, f, memory, frame, stack)
}

fn read(
    alloc: Global,
    p: &Program,
    node: &Node,
    c: Config,
    to: Option<u32>,
    range: Option<(i128, i128)>,
    input: Option<i128>,
) -> Result<Move, Memory>
    ensures { IfOk result (λ m. m ≡ reads p.now c node.now to range input) }
{
    if range.is_none() {
        return Ok(goes(c, node, 0));
    }
    let Some(v) = input else {
        return Ok(Move::NeedInput(c));
    };
    let memory = stored(alloc, p, to, Value::Number(v), c.memory)?;
    Ok(Move::Next(Config {
        fun: c.fun,
        node: edge(node, 0),
        stack: c.stack,
        memory,
    }))
}

fn guarded(p: &Program, f: &Function, node: &Node, c: Config, e: &Expr) -> Move
    requires narrow { HasNarrowFields p.now.layout }
    requires typed { IsTypedExpr p.now f.now e.now }
    requires numbered { count_expr e.now < 2 ^ 32 }
    ensures { result ≡ where_defined c.fun c.node (value p.now f.now c.memory 0 e.now) (λ v. goes c node.now (if is_false v then 1 else 0) c.memory) }
{
    match value(p, f, c.memory.as_slice(), 0, e) {
        Ok(v) => {
            let which = if is_false(v) { 1 } else { 0 };
            goes(c, node, which)
        }
        Err(undefined) => Move::Undefined(site_of(c.fun, c.node, undefined)),
    }
}

fn executed(
    alloc: Global,
    p: &Program,
    f: &Function,
    node: &Node,
    c: Config,
    input: Option<i128>,
) -> Result<Move, Memory>
    requires narrow { HasNarrowFields p.now.layout }
    requires ready { IsExecutable p.now f.now node.now.instr }
    ensures { IfOk result (λ m. m ≡ executed p.now f.now node.now c input node.now.instr) }
{
    match &node.instr {
        Instr::Guard(e) => Ok(guarded(p, f, node, c, e)),
        Instr::Call(_, callee, args) => {
            match values(alloc, p, f, c.memory.as_slice(), 1, args.as_slice())? {
                Ok(args) => call(alloc, p, c, *callee, args.as_slice()),
                Err(undefined) => Ok(Move::Undefined(site_of(c.fun, c.node, undefined))),
            }
        }
        Instr::External(to, what) => match sought(p, f, c.memory.as_slice(), what) {
            Ok(range) => read(alloc, p, node, c, *to, range, input),
            Err(undefined) => Ok(Move::Undefined(site_of(c.fun, c.node, undefined))),
        },
        Instr::Return => returned(alloc, p, f, c.memory, c.stack),
        Instr::Set(_, _)
        | Instr::Copy(_, _)
        | Instr::Zero(_)
        | Instr::Enter(_)
        | Instr::Leave(_)
        | Instr::Skip(_) => went_on(alloc, p, f, node, c),
    }
}

/// An instruction that goes on to its one edge.
fn went_on(alloc: Global, p: &Program, f: &Function, node: &Node, c: Config) -> Result<Move, Memory>
    requires narrow { HasNarrowFields p.now.layout }
    requires ready { IsExecutable p.now f.now node.now.instr }
    ensures { IfOk result (λ m. m ≡ where_defined c.fun c.node (after p.now f.now c.memory node.now.instr) (λ m. goes c node.now 0 m)) }
{
    match after(alloc, p, f, c.memory, &node.instr)? {
        Ok(memory) => Ok(Move::Next(Config {
            fun: c.fun,
            node: edge(node, 0),
            stack: c.stack,
            memory,
        })),
        Err(undefined) => Ok(Move::Undefined(site_of(c.fun, c.node, undefined))),
    }
}

/// The next configuration, the end of the execution, or the place where it is undefined; the number
/// that the node reads is wanted where there is none. A number that is given lies in the range that
/// `asked` gives.
#[tactic(auto, unfolding(crate::specs::Steps::next))]
pub fn step(alloc: Global, p: &Program, c: Config, input: Option<i128>) -> Result<Move, Memory>
    requires program { Lawful p.now }
    ensures { IfOk result (λ m. m ≡ next p.now c input) }
{
    match p.functions.get(c.fun as usize) {
        Some(f) => match f.nodes.get(c.node as usize) {
            Some(node) => executed(alloc, p, f, node, c, input),
            None => Ok(Move::Returned(c.memory)),
        },
        None => Ok(Move::Returned(c.memory)),
    }
}
