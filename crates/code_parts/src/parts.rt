use program::{Expr, Instr, Place};
use sqlite_items::{Boxed, Items};

/// The bases of the objects whose blocks a jump leaves, and of those whose blocks it enters (C11 6.2.4p6).
#[derive(Drop)]
pub struct Crossing {
    pub left: Items<u32>,
    pub entered: Items<u32>,
}

/// Where a jump goes.
#[derive(Clone, Copy, Debug, Drop, PartialEq, Eq)]
pub enum Target {
    /// The label of this number; those of a function are numbered from 0 in text order.
    Label(u32),
    /// Behind the innermost loop or switch.
    Break,
    /// The end of the body of the innermost loop.
    Continue,
    /// The end of the function.
    Exit,
}

/// Code that control runs through.
#[cycle(parts)]
#[derive(Drop)]
pub enum Code {
    Nothing,
    /// Parts one after the other, and how many nodes they have in all.
    Parts(u32, Items<Part>),
}

/// A part of a function's code; each has a node or is a jump.
#[cycle(parts)]
#[derive(Drop)]
pub enum Part {
    /// A node, behind which control goes on.
    Node(Place, Instr),
    /// The node of a label.
    Label(Place),
    /// A jump, which has a node where it leaves blocks with objects, and one where it enters such blocks.
    Jump(Place, Crossing, Target),
    /// What happens where a condition holds, and what happens where it doesn't.
    Branch(Boxed<Fork>, Boxed<Code>, Boxed<Code>),
    /// A loop with its test first: the body, and what happens before each further test (C11 6.8.5.1, 6.8.5.3).
    Loop(Place, Boxed<Fork>, Boxed<Code>, Boxed<Code>),
    /// The same without a test.
    Forever(Place, Boxed<Code>, Boxed<Code>),
    /// A loop with its test behind the body (C11 6.8.5.2).
    Do(Place, Boxed<Code>, Boxed<Fork>),
    /// A switch, in which a `break` leads behind it (C11 6.8.6.3).
    Switch(Boxed<Code>),
}

/// A condition: control goes from it to one of two places.
#[cycle(parts)]
#[derive(Drop)]
pub enum Fork {
    /// The code of a value's side effects, and the test whether the value differs from 0 or null.
    Test(Boxed<Code>, Place, Expr),
    Not(Boxed<Fork>),
    /// `&&`, and how many nodes both have.
    And(u32, Boxed<Fork>, Boxed<Fork>),
    /// `||`, and how many nodes both have.
    Or(u32, Boxed<Fork>, Boxed<Fork>),
}
