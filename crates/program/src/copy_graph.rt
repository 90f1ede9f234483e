ghost use Rattle.std.specs.Prelude.{◌≡◌, IfOk};

use crate::copy::copy_instr;
use crate::graph::{Base, Function, Node, Program, Start};
use c_types::{Layout, Member, StructInfo, copy_type};
use sqlite_items::Items;
use std::alloc::{AllocError, Global};

fn copy_member(alloc: Global, member: &Member) -> Result<Member, AllocError>
    ensures { IfOk result (λ copy. copy ≡ member.now) }
{
    Ok(Member {
        name: member.name,
        ctype: copy_type(alloc, &member.ctype)?,
        offset_bits: member.offset_bits,
        bits: member.bits,
    })
}

fn copy_members(alloc: Global, members: &[Member]) -> Result<Items<Member>, AllocError>
    ensures { IfOk result (λ copy. copy ≡ members.now) }
{
    let mut copy = Items::new(alloc);
    for member in members {
        copy.push(copy_member(alloc, member)?)?;
    }
    Ok(copy)
}

fn copy_struct(alloc: Global, info: &StructInfo) -> Result<StructInfo, AllocError>
    ensures { IfOk result (λ copy. copy ≡ info.now) }
{
    Ok(StructInfo {
        tag: info.tag,
        members: copy_members(alloc, info.members.as_slice())?,
        size_bits: info.size_bits,
        align_bits: info.align_bits,
        complete: info.complete,
        is_union: info.is_union,
    })
}

fn copy_layout(alloc: Global, layout: &Layout) -> Result<Layout, AllocError>
    ensures { IfOk result (λ copy. copy ≡ layout.now) }
{
    let mut structs = Items::new(alloc);
    for info in layout.structs.as_slice() {
        structs.push(copy_struct(alloc, info)?)?;
    }
    Ok(Layout { structs })
}

fn copy_node(alloc: Global, node: &Node) -> Result<Node, AllocError>
    ensures { IfOk result (λ copy. copy ≡ node.now) }
{
    let instr = copy_instr(alloc, &node.instr)?;
    Ok(Node {
        instr,
        edges: Items::from_slice(alloc, node.edges.as_slice())?,
        place: node.place,
    })
}

fn copy_nodes(alloc: Global, nodes: &[Node]) -> Result<Items<Node>, AllocError>
    ensures { IfOk result (λ copy. copy ≡ nodes.now) }
{
    let mut copy = Items::new(alloc);
    for node in nodes {
        copy.push(copy_node(alloc, node)?)?;
    }
    Ok(copy)
}

fn copy_function(alloc: Global, f: &Function) -> Result<Function, AllocError>
    ensures { IfOk result (λ copy. copy ≡ f.now) }
{
    let name = Items::from_slice(alloc, f.name.as_slice())?;
    let params = Items::from_slice(alloc, f.params.as_slice())?;
    let locals = Items::from_slice(alloc, f.locals.as_slice())?;
    let inner = Items::from_slice(alloc, f.inner.as_slice())?;
    let temps = Items::from_slice(alloc, f.temps.as_slice())?;
    let hidden = Items::from_slice(alloc, f.hidden.as_slice())?;
    let result = copy_type(alloc, &f.result)?;
    let nodes = copy_nodes(alloc, f.nodes.as_slice())?;
    Ok(Function {
        name,
        params,
        locals,
        inner,
        temps,
        hidden,
        result,
        nodes,
        entry: f.entry,
        exit: f.exit,
    })
}

fn copy_functions(alloc: Global, functions: &[Function]) -> Result<Items<Function>, AllocError>
    ensures { IfOk result (λ copy. copy ≡ functions.now) }
{
    let mut copy = Items::new(alloc);
    for f in functions {
        copy.push(copy_function(alloc, f)?)?;
    }
    Ok(copy)
}

fn copy_start(alloc: Global, start: &Start) -> Result<Start, AllocError>
    ensures { IfOk result (λ copy. copy ≡ start.now) }
{
    match start {
        Start::Given(scalars) => Ok(Start::Given(Items::from_slice(alloc, scalars.as_slice())?)),
        Start::Any => Ok(Start::Any),
        Start::Uninit => Ok(Start::Uninit),
        Start::Choice(target) => Ok(Start::Choice(*target)),
        Start::Hidden(targets) => Ok(Start::Hidden(Items::from_slice(alloc, targets.as_slice())?)),
    }
}

fn copy_base(alloc: Global, base: &Base) -> Result<Base, AllocError>
    ensures { IfOk result (λ copy. copy ≡ base.now) }
{
    let name = Items::from_slice(alloc, base.name.as_slice())?;
    let ctype = copy_type(alloc, &base.ctype)?;
    Ok(Base {
        name,
        ctype,
        size_bits: base.size_bits,
        start: copy_start(alloc, &base.start)?,
        is_literal: base.is_literal,
    })
}

fn copy_bases(alloc: Global, bases: &[Base]) -> Result<Items<Base>, AllocError>
    ensures { IfOk result (λ copy. copy ≡ bases.now) }
{
    let mut copy = Items::new(alloc);
    for base in bases {
        copy.push(copy_base(alloc, base)?)?;
    }
    Ok(copy)
}

/// A copy of a whole program.
pub fn copy_program(alloc: Global, program: &Program) -> Result<Program, AllocError>
    ensures { IfOk result (λ copy. copy ≡ program.now) }
{
    let layout = copy_layout(alloc, &program.layout)?;
    let bases = copy_bases(alloc, program.bases.as_slice())?;
    let functions = copy_functions(alloc, program.functions.as_slice())?;
    Ok(Program {
        layout,
        bases,
        functions,
        thresholds: Items::from_slice(alloc, program.thresholds.as_slice())?,
    })
}
