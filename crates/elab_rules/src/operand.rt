use c_types::{IntKind, StructId};
use elab_types::SourceType;
use program::{BinOp, UnOp};
use sqlite_items::{Boxed, Items};

/// An expression with its type.
#[cycle(operand)]
#[derive(Drop)]
pub struct Operand {
    pub ty: SourceType,
    /// The width of the bit-field that it designates or that was read last (C11 6.3.1.1p2).
    pub bits: Option<u32>,
    /// It is an object that is declared `register`, or a part of one (C11 6.5.3.2p1).
    pub is_register: bool,
    pub form: Form,
}

#[cycle(operand)]
#[derive(Drop)]
pub enum Form {
    /// It broke a rule, or has a type that can't be used.
    Faulty,
    /// A function, by its number, and the token of its name.
    Function(u32, u32),
    /// An object, by its number.
    Object(u32),
    Deref(Boxed<Operand>),
    /// An element of an array lvalue.
    Index(Boxed<Operand>, Boxed<Operand>),
    /// The same, written with the index first.
    IndexFirst(Boxed<Operand>, Boxed<Operand>),
    /// The member of an lvalue at this place among the named ones.
    Field(Boxed<Operand>, u32),
    /// A member of a struct value, which is no lvalue (C11 6.5.2.3p3).
    Part(Boxed<Operand>, u32),
    Const(i128),
    Null,
    /// The value of an lvalue (C11 6.3.2.1p2).
    Load(Boxed<Operand>),
    /// The pointer to an array's first element (C11 6.3.2.1p3).
    Start(Boxed<Operand>),
    Addr(Boxed<Operand>),
    Unary(UnOp, Boxed<Operand>),
    /// `!` of a scalar that is not promoted yet: a condition tests it in its own kind.
    Not(Boxed<Operand>),
    /// The operands stand in text order.
    Binary(BinOp, Boxed<Operand>, Boxed<Operand>),
    And(Boxed<Operand>, Boxed<Operand>),
    Or(Boxed<Operand>, Boxed<Operand>),
    Cast(Boxed<Operand>),
    Choose(Boxed<Operand>, Boxed<Operand>, Boxed<Operand>),
    Comma(Boxed<Operand>, Boxed<Operand>),
    Assign(Boxed<Operand>, Boxed<Operand>),
    /// A compound assignment, `++` or `--`: the operator, the type in which it works, and its right operand.
    Update(Boxed<Operand>, BinOp, SourceType, Boxed<Operand>),
    /// The same, with the old value.
    PostUpdate(Boxed<Operand>, BinOp, SourceType, Boxed<Operand>),
    /// A call of a function, by its number.
    Call(u32, Items<Operand>),
    /// A cast to void.
    Discard(Boxed<Operand>),
}

/// What the rules on values ask of a type first.
#[derive(Drop)]
pub enum Sort {
    Void,
    Integer(IntKind),
    /// A pointer, by what it points to.
    Pointer(SourceType),
    Struct(StructId),
    Other,
}

/// What an expression is where the initial value of a static object is wanted (C11 6.6p7, 6.7.9p4).
#[derive(Clone, Copy, Debug, Drop, PartialEq, Eq)]
pub enum StaticValue {
    Number(i128),
    Null,
    /// The address of an object of static storage duration, by its number, and so many bytes.
    Address(u32, i128),
    /// Its evaluation isn't defined.
    Undefined,
    /// It is no constant expression.
    Variable,
    /// It broke a rule already.
    Faulty,
}
