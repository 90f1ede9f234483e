//! Single bits as one value.
//!
//! Equals its definition in `abstract_memory`, or answers that memory has run out. Stands on `group_values`.
#![tactic(auto)]

mod gather;

pub use gather::gathered;
