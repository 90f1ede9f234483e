use crate::statements::Stmt;
use c_types::{CType, Layout};
use program::{Name, Place, Start};
use sqlite_items::Items;

/// An object that the program keeps. The numbers in its start are those of objects.
#[derive(Drop)]
pub struct Object {
    pub name: Name,
    pub ctype: CType,
    pub size_bits: u32,
    pub start: Start,
    /// Whether it is the object of a string literal, which no report prints.
    pub is_literal: bool,
}

/// The definition of a function (C11 6.9.1). The lists have numbers of objects: the parameters, the objects of the
/// outermost block, those of inner blocks, each in text order, and the arrays that pointer parameters may point to.
#[derive(Drop)]
pub struct Definition {
    pub name: Name,
    /// Whether it is `main` and returns an int: its end gives 0 then (C11 5.1.2.2.3).
    pub returns_zero: bool,
    pub result: CType,
    pub params: Items<u32>,
    pub locals: Items<u32>,
    pub inner: Items<u32>,
    pub hidden: Items<u32>,
    /// The body, a block without objects of its own.
    pub body: Stmt,
    /// The place of the body, where the nodes of its end are.
    pub place: Place,
}

/// A translation unit (C11 6.9). `statics` has the numbers of the objects of static storage duration, in text order.
#[derive(Drop)]
pub struct Unit {
    pub layout: Layout,
    pub objects: Items<Object>,
    pub statics: Items<u32>,
    pub definitions: Items<Definition>,
}
