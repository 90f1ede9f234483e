use crate::types::Storage;
use elab_types::{Qualifiers, SourceType};

/// Which type specifiers of one word a list has (C11 6.7.2).
#[derive(Clone, Copy, Debug, Drop, PartialEq, Eq)]
pub struct TypeWords {
    pub is_any: bool,
    /// One that may not stand twice does.
    pub is_repeated: bool,
    pub is_void: bool,
    pub is_bool: bool,
    pub is_char: bool,
    pub is_short: bool,
    pub is_int: bool,
    pub is_long: bool,
    pub is_long_long: bool,
    pub is_signed: bool,
    pub is_unsigned: bool,
    pub is_float: bool,
    pub is_double: bool,
    pub is_complex: bool,
}

/// What a list of specifiers said so far.
#[derive(Drop)]
pub struct Gathered {
    pub storage: Option<Storage>,
    /// Two storage class specifiers stand.
    pub is_several: bool,
    pub is_inline: bool,
    pub is_function: bool,
    pub qualifiers: Qualifiers,
    /// The first word `volatile`.
    pub volatile_at: Option<u32>,
    pub words: TypeWords,
    /// The type of a typedef name, a struct, a union or an enumeration.
    pub named: Option<SourceType>,
    /// A further type stands before one of these.
    pub is_mixed: bool,
}
