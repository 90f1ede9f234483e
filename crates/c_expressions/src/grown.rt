//! Trees beside what the rules above them ask.

use c_tree::{Declarator, Ex, Spec};
use sqlite_items::Items;

/// An expression, how deep it nests, and the level of precedence of its production (C11 6.5), from 1 for `,` to 16.
#[derive(Drop)]
pub struct Grown {
    pub tree: Ex,
    pub height: u32,
    pub level: u8,
}

/// A list of specifiers, how deep it nests, whether a type specifier is among them, and whether `typedef` is.
#[derive(Drop)]
pub struct Specs {
    pub list: Items<Spec>,
    pub height: u32,
    pub is_typed: bool,
    pub is_typedef: bool,
}

/// A declarator, how deep it nests, and the number of the name that it declares.
#[derive(Drop)]
pub struct Declares {
    pub tree: Declarator,
    pub height: u32,
    pub name: Option<u32>,
    /// The names that its first list of parameters declares, the newest first.
    pub params: Option<Items<(u32, bool)>>,
}

/// Where a declarator stands.
#[derive(Clone, Copy, Debug, PartialEq, Eq)]
pub enum Mode {
    /// It declares a name (C11 6.7.6).
    Named,
    /// In a type name, without a name (C11 6.7.7).
    Abstract,
    /// In a parameter, with a name or without.
    Parameter,
    /// In brackets in a parameter.
    Enclosed,
}
