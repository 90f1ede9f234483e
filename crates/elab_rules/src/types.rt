use elab_types::{Qualifiers, SourceType};
use sqlite_items::Items;

/// A storage class specifier (C11 6.7.1).
#[derive(Clone, Copy, Debug, Drop, PartialEq, Eq)]
pub enum Storage {
    Typedef,
    Extern,
    Static,
    Auto,
    Register,
}

/// What a list of specifiers says (C11 6.7).
#[derive(Drop)]
pub struct Specified {
    pub storage: Option<Storage>,
    /// `inline` is among them.
    pub is_inline: bool,
    /// `inline` or `_Noreturn` is among them.
    pub is_function: bool,
    pub ty: SourceType,
}

/// Where a declarator stands.
#[derive(Clone, Copy, Debug, Drop, PartialEq, Eq)]
pub enum Where {
    File,
    /// In a block, of an automatic object or a typedef.
    Block,
    /// In a block, of a static or `extern` object.
    Static,
    Parameter,
    Member,
    TypeName,
}

/// A parameter of a function declarator, adjusted (C11 6.7.6.3p7, p8).
#[derive(Drop)]
pub struct Parameter {
    pub at: u32,
    /// The token of its name.
    pub name: Option<u32>,
    pub object: u32,
}

/// The parameters of a function declarator, with what they declare, the newest first (C11 6.2.1p4).
#[derive(Drop)]
pub struct Parameters {
    /// The first token of the declarator.
    pub at: u32,
    pub is_variadic: bool,
    pub list: Items<Parameter>,
    pub names: Items<(u32, u32)>,
    pub tags: Items<(u32, u32)>,
}

/// What stands between the brackets of an array declarator beside its length (C11 6.7.6.2).
#[derive(Clone, Copy, Debug, Drop, PartialEq, Eq)]
pub struct Brackets {
    /// The first token of the declarator.
    pub at: u32,
    /// Whether words stand there.
    pub has_words: bool,
    pub qualifiers: Qualifiers,
    /// The first word `volatile`.
    pub volatile_at: Option<u32>,
}

/// The derivation nearest to a declarator's name.
#[derive(Drop)]
pub enum Nearest {
    /// A pointer, or none.
    Other,
    Array(Brackets),
    Function(Parameters),
}

/// What a declarator declares.
#[derive(Drop)]
pub struct Declared {
    pub ty: SourceType,
    /// The token of the name.
    pub name: Option<u32>,
    pub nearest: Nearest,
}
