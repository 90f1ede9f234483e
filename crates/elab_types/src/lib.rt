//! The types of C as declarations write them (C11 6.2.5, 6.7.3): with qualifiers at every level, functions, arrays of
//! unknown length, and types that a file may declare and not use.
//!
//! Promises: `alike` is compatibility (6.2.7), with qualifiers or without, or that two types are one, `composite` the
//! composite type, and `ctype` the type as the program keeps it. Stands on `c_types`.
#![tactic(auto)]

mod compatible;
mod composition;
mod convert;
mod copy;
mod types;

pub use compatible::{Likeness, alike, same_kind, same_qualifiers};
pub use composition::composite;
pub use convert::{ctype, qualified, qualifiers, unqualified};
pub use copy::copy_source;
pub use types::{Extent, Qualifiers, SourceType};
