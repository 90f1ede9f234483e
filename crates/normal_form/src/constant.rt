//! Functions that return a constant expression, as functions of `program`.

ghost use Rattle.std.specs.Prelude.{◌≡◌, [], ◌∷◌, IfOk};
ghost use Rattle.normal_form.specs.ConstantNorm.{is_main, norm, return_node, set_node};

use c_types::{CType, IntKind};
use program::{Expr, Function, Instr, LVal, Name, Node, Place};
use sqlite_items::Items;
use std::alloc::{AllocError, Global};

/// A function definition `int NAME(void) { return E; }`.
#[derive(Drop)]
pub struct Returning {
    pub name: Name,
    pub value: Expr,
    /// The place of the word `return`.
    pub place: Place,
}

/// A node that sets the result and goes on at `next`.
fn result_node(alloc: Global, value: Expr, next: u32, place: Place) -> Result<Node, AllocError>
    ensures { IfOk result (λ node. node ≡ set_node value next place) }
{
    Ok(Node {
        instr: Instr::Set(LVal::Var(0), value),
        edges: Items::from_slice(alloc, &[next])?,
        place,
    })
}

/// The function of a definition: the `return` sets the result and goes to the exit; the end of `main` sets it to 0
/// (C11 5.1.2.2.3). `Err` only for want of memory.
pub fn normalise(alloc: Global, definition: Returning) -> Result<Function, AllocError>
    ensures { IfOk result (λ f. f ≡ norm definition) }
{
    let Returning { name, value, place } = definition;
    let is_main = name.as_slice() == b"main".as_slice();
    let exit = if is_main { 2 } else { 1 };
    let mut nodes = Items::new(alloc);
    nodes.push(result_node(alloc, value, exit, place)?)?;
    if is_main {
        let zero = Expr::Const(IntKind::Int, 0);
        nodes.push(result_node(alloc, zero, exit, place)?)?;
    }
    nodes.push(Node {
        instr: Instr::Return,
        edges: Items::new(alloc),
        place,
    })?;
    Ok(Function {
        name,
        params: Items::new(alloc),
        locals: Items::new(alloc),
        inner: Items::new(alloc),
        temps: Items::new(alloc),
        hidden: Items::new(alloc),
        result: CType::Int {
            kind: IntKind::Int,
            volatile: false,
        },
        nodes,
        entry: 0,
        exit,
    })
}
