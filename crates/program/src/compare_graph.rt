ghost use Rattle.std.specs.Prelude.{◌≡◌, IsTrue, ◌↔◌};

use crate::compare::same_instr;
use crate::graph::{Base, Function, Node, Program, Scalar, Start};
use c_types::{Layout, Member, StructInfo, same_type};

fn same_member(a: &Member, b: &Member) -> bool
    ensures { IsTrue result ↔ (a.now ≡ b.now) }
{
    a.name == b.name
        && same_type(&a.ctype, &b.ctype)
        && a.offset_bits == b.offset_bits
        && a.bits == b.bits
}

fn same_members(a: &[Member], b: &[Member]) -> bool
    ensures { IsTrue result ↔ (a.now ≡ b.now) }
{
    if a.len() != b.len() {
        return false;
    }
    for (i, x) in a.iter().enumerate() {
        if !same_member(x, &b[i]) {
            return false;
        }
    }
    true
}

fn same_struct(a: &StructInfo, b: &StructInfo) -> bool
    ensures { IsTrue result ↔ (a.now ≡ b.now) }
{
    a.tag == b.tag
        && same_members(a.members.as_slice(), b.members.as_slice())
        && a.size_bits == b.size_bits
        && a.align_bits == b.align_bits
        && a.complete == b.complete
        && a.is_union == b.is_union
}

fn same_structs(a: &[StructInfo], b: &[StructInfo]) -> bool
    ensures { IsTrue result ↔ (a.now ≡ b.now) }
{
    if a.len() != b.len() {
        return false;
    }
    for (i, x) in a.iter().enumerate() {
        if !same_struct(x, &b[i]) {
            return false;
        }
    }
    true
}

fn same_layout(a: &Layout, b: &Layout) -> bool
    ensures { IsTrue result ↔ (a.now ≡ b.now) }
{
    same_structs(a.structs.as_slice(), b.structs.as_slice())
}

fn same_node(a: &Node, b: &Node) -> bool
    ensures { IsTrue result ↔ (a.now ≡ b.now) }
{
    same_instr(&a.instr, &b.instr) && a.edges.as_slice() == b.edges.as_slice() && a.place == b.place
}

fn same_nodes(a: &[Node], b: &[Node]) -> bool
    ensures { IsTrue result ↔ (a.now ≡ b.now) }
{
    if a.len() != b.len() {
        return false;
    }
    for (i, x) in a.iter().enumerate() {
        if !same_node(x, &b[i]) {
            return false;
        }
    }
    true
}

fn same_function(a: &Function, b: &Function) -> bool
    ensures { IsTrue result ↔ (a.now ≡ b.now) }
{
    a.name.as_slice() == b.name.as_slice()
        && a.params.as_slice() == b.params.as_slice()
        && a.locals.as_slice() == b.locals.as_slice()
        && a.inner.as_slice() == b.inner.as_slice()
        && a.temps.as_slice() == b.temps.as_slice()
        && a.hidden.as_slice() == b.hidden.as_slice()
        && same_type(&a.result, &b.result)
        && same_nodes(a.nodes.as_slice(), b.nodes.as_slice())
        && a.entry == b.entry
        && a.exit == b.exit
}

fn same_functions(a: &[Function], b: &[Function]) -> bool
    ensures { IsTrue result ↔ (a.now ≡ b.now) }
{
    if a.len() != b.len() {
        return false;
    }
    for (i, x) in a.iter().enumerate() {
        if !same_function(x, &b[i]) {
            return false;
        }
    }
    true
}

fn same_scalars(a: &[Scalar], b: &[Scalar]) -> bool
    ensures { IsTrue result ↔ (a.now ≡ b.now) }
{
    if a.len() != b.len() {
        return false;
    }
    for (i, x) in a.iter().enumerate() {
        if *x != b[i] {
            return false;
        }
    }
    true
}

fn same_targets(a: &[Option<u32>], b: &[Option<u32>]) -> bool
    ensures { IsTrue result ↔ (a.now ≡ b.now) }
{
    if a.len() != b.len() {
        return false;
    }
    for (i, x) in a.iter().enumerate() {
        if *x != b[i] {
            return false;
        }
    }
    true
}

fn same_numbers(a: &[i128], b: &[i128]) -> bool
    ensures { IsTrue result ↔ (a.now ≡ b.now) }
{
    if a.len() != b.len() {
        return false;
    }
    for (i, x) in a.iter().enumerate() {
        if *x != b[i] {
            return false;
        }
    }
    true
}

fn same_start(a: &Start, b: &Start) -> bool
    ensures { IsTrue result ↔ (a.now ≡ b.now) }
{
    match (a, b) {
        (Start::Given(a), Start::Given(b)) => same_scalars(a.as_slice(), b.as_slice()),
        (Start::Any, Start::Any) | (Start::Uninit, Start::Uninit) => true,
        (Start::Choice(a), Start::Choice(b)) => *a == *b,
        (Start::Hidden(a), Start::Hidden(b)) => same_targets(a.as_slice(), b.as_slice()),
        _ => false,
    }
}

fn same_base(a: &Base, b: &Base) -> bool
    ensures { IsTrue result ↔ (a.now ≡ b.now) }
{
    a.name.as_slice() == b.name.as_slice()
        && same_type(&a.ctype, &b.ctype)
        && a.size_bits == b.size_bits
        && same_start(&a.start, &b.start)
        && a.is_literal == b.is_literal
}

fn same_bases(a: &[Base], b: &[Base]) -> bool
    ensures { IsTrue result ↔ (a.now ≡ b.now) }
{
    if a.len() != b.len() {
        return false;
    }
    for (i, x) in a.iter().enumerate() {
        if !same_base(x, &b[i]) {
            return false;
        }
    }
    true
}

/// Whether two programs are the same, names and places included.
pub fn same_program(a: &Program, b: &Program) -> bool
    ensures { IsTrue result ↔ (a.now ≡ b.now) }
{
    same_layout(&a.layout, &b.layout)
        && same_bases(a.bases.as_slice(), b.bases.as_slice())
        && same_functions(a.functions.as_slice(), b.functions.as_slice())
        && same_numbers(a.thresholds.as_slice(), b.thresholds.as_slice())
}
