ghost use Rattle.std.specs.Prelude.{◌≡◌, ◌≤◌, ◌<◌, ◌+◌, ◌++◌, ◌^◌, OnOk, IfOk};
ghost use Rattle.code_parts.specs.Sizes.{crossing_size, code_size, fork_size, part_size, list_size};
ghost use Rattle.code_parts.specs.Numbering.{going_on, looping, switching, guarding, entry, target_node, part_entry, list_entry, code_entry, node_to, guard_to, skip_to, leave_nodes, enter_nodes, code_nodes, list_nodes, part_nodes, fork_nodes};

use crate::parts::{Code, Crossing, Fork, Part, Target};
use crate::sizes::{behind, code_size, crossing_size, fork_size, has_any, part_size};
use program::{Expr, Instr, Node, Place, copy_expr, copy_instr};
use sqlite_items::Items;
use std::alloc::{AllocError, Global};

/// Where code goes on: behind it, at a `break`, at a `continue`, and at the end of the function.
#[derive(Clone, Copy, Debug, Drop, PartialEq, Eq)]
pub struct Ends {
    pub next: u32,
    pub breaks: u32,
    pub continues: u32,
    pub exit: u32,
}

fn going_on(ends: Ends, to: u32) -> Ends
    ensures { result ≡ going_on ends to }
{
    Ends {
        next: to,
        breaks: ends.breaks,
        continues: ends.continues,
        exit: ends.exit,
    }
}

/// In the body of a loop, behind which control goes on there.
fn looping(ends: Ends, to: u32) -> Ends
    ensures { result ≡ looping ends to }
{
    Ends {
        next: to,
        breaks: ends.next,
        continues: to,
        exit: ends.exit,
    }
}

fn switching(ends: Ends) -> Ends
    ensures { result ≡ switching ends }
{
    Ends {
        next: ends.next,
        breaks: ends.next,
        continues: ends.continues,
        exit: ends.exit,
    }
}

/// All at one node: of an expression, which has no jump, and of a function's body, at its end.
pub fn guarding(to: u32) -> Ends
    ensures { result ≡ guarding to }
{
    Ends {
        next: to,
        breaks: to,
        continues: to,
        exit: to,
    }
}

// ---- where control goes that comes to code

/// To its first node, and where it has none, elsewhere.
fn entry(size: u32, at: u32, other: u32) -> u32
    ensures { result ≡ entry size at other }
{
    if size == 0 { other } else { at }
}

fn target_node(labels: &[u32], ends: Ends, target: Target) -> u32
    ensures { result ≡ target_node labels.now ends target }
{
    match target {
        Target::Label(n) => match labels.get(n as usize) {
            Some(node) => *node,
            None => 0,
        },
        Target::Break => ends.breaks,
        Target::Continue => ends.continues,
        Target::Exit => ends.exit,
    }
}

#[tactic(auto, using(crate::proofs::NumberingEquations::entry_equations))]
fn part_entry(labels: &[u32], p: &Part, at: u32, ends: Ends) -> u32
    ensures { result ≡ part_entry labels.now p.now at ends }
{
    match p {
        Part::Jump(_, crossing, target) => {
            entry(
                crossing_size(crossing),
                at,
                target_node(labels, ends, *target),
            )
        }
        Part::Node(_, _) => at,
        Part::Label(_) => at,
        Part::Branch(_, _, _) => at,
        Part::Loop(_, _, _, _) => at,
        Part::Forever(_, _, _) => at,
        Part::Do(_, _, _) => at,
        Part::Switch(_) => at,
    }
}

fn list_entry(labels: &[u32], parts: &[Part], at: u32, ends: Ends) -> u32
    ensures { result ≡ list_entry labels.now parts.now at ends }
{
    match parts {
        [] => ends.next,
        [p, ..] => part_entry(labels, p, at, ends),
    }
}

/// Where control goes that comes to code whose first node would have the number `at`.
#[tactic(auto, using(crate::proofs::NumberingEquations::entry_equations))]
pub fn code_entry(labels: &[u32], c: &Code, at: u32, ends: Ends) -> u32
    ensures { result ≡ code_entry labels.now c.now at ends }
{
    match c {
        Code::Nothing => ends.next,
        Code::Parts(_, parts) => list_entry(labels, parts.as_slice(), at, ends),
    }
}

// ---- nodes

/// Adds a node with one edge.
fn put(
    alloc: Global,
    nodes: &mut Items<Node>,
    place: Place,
    instr: Instr,
    to: u32,
) -> Result<(), AllocError>
    ensures { OnOk result (nodes.new ≡ nodes.old ++ node_to place instr to) }
{
    nodes.push(Node {
        instr,
        edges: Items::from_slice(alloc, &[to])?,
        place,
    })
}

/// Adds a Skip.
fn skip(alloc: Global, nodes: &mut Items<Node>, place: Place, to: u32) -> Result<(), AllocError>
    ensures { OnOk result (nodes.new ≡ nodes.old ++ skip_to place to) }
{
    put(alloc, nodes, place, Instr::Skip(None), to)
}

/// Adds a Guard with its two edges.
fn guard(
    alloc: Global,
    nodes: &mut Items<Node>,
    place: Place,
    e: &Expr,
    on: u32,
    off: u32,
) -> Result<(), AllocError>
    ensures { OnOk result (nodes.new ≡ nodes.old ++ guard_to place e.now on off) }
{
    nodes.push(Node {
        instr: Instr::Guard(copy_expr(alloc, e)?),
        edges: Items::from_slice(alloc, &[on, off])?,
        place,
    })
}

/// Adds one Leave of all that a jump leaves, where there is any.
fn leave(
    alloc: Global,
    nodes: &mut Items<Node>,
    place: Place,
    c: &Crossing,
    at: u32,
    to: u32,
) -> Result<(), AllocError>
    ensures { OnOk result (nodes.new ≡ nodes.old ++ leave_nodes place c.now at to) }
{
    if !has_any(c.left.as_slice()) {
        return Ok(());
    }
    let left = Items::from_slice(alloc, c.left.as_slice())?;
    let second = behind(at, 1)?;
    let enters = u32::from(has_any(c.entered.as_slice()));
    put(
        alloc,
        nodes,
        place,
        Instr::Leave(left),
        entry(enters, second, to),
    )
}

/// Adds one Enter of all that a jump enters, where there is any.
fn enter(
    alloc: Global,
    nodes: &mut Items<Node>,
    place: Place,
    c: &Crossing,
    to: u32,
) -> Result<(), AllocError>
    ensures { OnOk result (nodes.new ≡ nodes.old ++ enter_nodes place c.now to) }
{
    if !has_any(c.entered.as_slice()) {
        return Ok(());
    }
    let entered = Items::from_slice(alloc, c.entered.as_slice())?;
    put(alloc, nodes, place, Instr::Enter(entered), to)
}

/// Adds the nodes of code, of which the first has the number `at`; want of memory too where a number passes 2^32.
#[cycle(numbering)]
#[tactic(auto, using(crate::proofs::NumberingEquations::code_rules))]
pub fn code_nodes(
    alloc: Global,
    nodes: &mut Items<Node>,
    labels: &[u32],
    c: &Code,
    at: u32,
    ends: Ends,
) -> Result<(), AllocError>
    ensures { OnOk result (nodes.new ≡ nodes.old ++ code_nodes labels.now c.now at ends) }
{
    match c {
        Code::Nothing => Ok(()),
        Code::Parts(_, parts) => list_nodes(alloc, nodes, labels, parts.as_slice(), at, ends),
    }
}

#[cycle(numbering)]
#[tactic(auto, using(crate::proofs::NumberingEquations::code_rules))]
fn list_nodes(
    alloc: Global,
    nodes: &mut Items<Node>,
    labels: &[u32],
    parts: &[Part],
    at: u32,
    ends: Ends,
) -> Result<(), AllocError>
    ensures { OnOk result (nodes.new ≡ nodes.old ++ list_nodes labels.now parts.now at ends) }
{
    let mut here = at;
    for (i, p) in parts.iter().enumerate() {
        let second = behind(here, part_size(p))?;
        let next = list_entry(labels, &parts[i + 1..], second, ends);
        part_nodes(alloc, nodes, labels, p, here, going_on(ends, next))?;
        here = second;
    }
    Ok(())
}

#[cycle(numbering)]
#[tactic(auto, using(crate::proofs::NumberingEquations::part_rules))]
fn part_nodes(
    alloc: Global,
    nodes: &mut Items<Node>,
    labels: &[u32],
    p: &Part,
    at: u32,
    ends: Ends,
) -> Result<(), AllocError>
    ensures { OnOk result (nodes.new ≡ nodes.old ++ part_nodes labels.now p.now at ends) }
{
    match p {
        Part::Node(place, instr) => {
            put(alloc, nodes, *place, copy_instr(alloc, instr)?, ends.next)
        }
        Part::Label(place) => skip(alloc, nodes, *place, ends.next),
        Part::Jump(place, crossing, target) => {
            let to = target_node(labels, ends, *target);
            leave(alloc, nodes, *place, crossing, at, to)?;
            enter(alloc, nodes, *place, crossing, to)
        }
        Part::Branch(f, a, b) => {
            let first = behind(at, fork_size(f.get()))?;
            let second = behind(first, u64::from(code_size(a.get())))?;
            let on = code_entry(labels, a.get(), first, ends);
            let off = code_entry(labels, b.get(), second, ends);
            fork_nodes(alloc, nodes, labels, f.get(), at, on, off)?;
            code_nodes(alloc, nodes, labels, a.get(), first, ends)?;
            code_nodes(alloc, nodes, labels, b.get(), second, ends)
        }
        Part::Loop(place, f, body, last) => {
            let test = behind(at, 1)?;
            let first = behind(test, fork_size(f.get()))?;
            let second = behind(first, u64::from(code_size(body.get())))?;
            let again = code_entry(labels, last.get(), second, going_on(ends, at));
            let inside = looping(ends, again);
            let on = code_entry(labels, body.get(), first, inside);
            skip(alloc, nodes, *place, test)?;
            fork_nodes(alloc, nodes, labels, f.get(), test, on, ends.next)?;
            code_nodes(alloc, nodes, labels, body.get(), first, inside)?;
            code_nodes(alloc, nodes, labels, last.get(), second, going_on(ends, at))
        }
        Part::Forever(place, body, last) => {
            let first = behind(at, 1)?;
            let second = behind(first, u64::from(code_size(body.get())))?;
            let again = code_entry(labels, last.get(), second, going_on(ends, at));
            let inside = looping(ends, again);
            let begun = code_entry(labels, body.get(), first, inside);
            skip(alloc, nodes, *place, begun)?;
            code_nodes(alloc, nodes, labels, body.get(), first, inside)?;
            code_nodes(alloc, nodes, labels, last.get(), second, going_on(ends, at))
        }
        Part::Do(place, body, f) => {
            let first = behind(at, 1)?;
            let second = behind(first, u64::from(code_size(body.get())))?;
            let inside = looping(ends, second);
            let begun = code_entry(labels, body.get(), first, inside);
            skip(alloc, nodes, *place, begun)?;
            code_nodes(alloc, nodes, labels, body.get(), first, inside)?;
            fork_nodes(alloc, nodes, labels, f.get(), second, at, ends.next)
        }
        Part::Switch(c) => code_nodes(alloc, nodes, labels, c.get(), at, switching(ends)),
    }
}

#[cycle(numbering)]
#[tactic(auto, using(crate::proofs::NumberingEquations::fork_rules))]
fn fork_nodes(
    alloc: Global,
    nodes: &mut Items<Node>,
    labels: &[u32],
    f: &Fork,
    at: u32,
    on: u32,
    off: u32,
) -> Result<(), AllocError>
    ensures { OnOk result (nodes.new ≡ nodes.old ++ fork_nodes labels.now f.now at on off) }
{
    match f {
        Fork::Test(c, place, e) => {
            let test = behind(at, u64::from(code_size(c.get())))?;
            code_nodes(alloc, nodes, labels, c.get(), at, guarding(test))?;
            guard(alloc, nodes, *place, e, on, off)
        }
        Fork::Not(a) => fork_nodes(alloc, nodes, labels, a.get(), at, off, on),
        Fork::And(_, a, b) => {
            let second = behind(at, fork_size(a.get()))?;
            fork_nodes(alloc, nodes, labels, a.get(), at, second, off)?;
            fork_nodes(alloc, nodes, labels, b.get(), second, on, off)
        }
        Fork::Or(_, a, b) => {
            let second = behind(at, fork_size(a.get()))?;
            fork_nodes(alloc, nodes, labels, a.get(), at, on, second)?;
            fork_nodes(alloc, nodes, labels, b.get(), second, on, off)
        }
    }
}
