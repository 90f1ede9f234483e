//! The types of C in the data model of eva: LP64, little endian, `char` signed, natural alignment.
//!
//! Promises: sizes, alignments and member offsets in bits, the ranges of the integer types, and the
//! conversions of C11 6.3.1, each equal to a short definition in `specs/`, for all arguments.
//! Stands on `sqlite_items`, whose lists and boxes contracts see as what they hold.
#![tactic(auto)]

mod bit_fields;
mod compare;
mod convert;
mod size;
mod structs;
mod types;

pub use bit_fields::{field_promote, field_range, field_wrap};
pub use compare::{copy_type, same_type};
pub use convert::{is_signed, promote, range, usual, width, wrap};
pub use size::{TypeStop, align_bits, kept_size, size_bits};
pub use structs::lay_out;
pub use types::{CType, Declared, IntKind, Layout, Member, StructId, StructInfo};
