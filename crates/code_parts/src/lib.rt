//! The code of a function in parts, before its nodes have numbers: what stands behind what, where a condition leads, what
//! loops, and where a jump goes. Parts know their sizes, so that all numbers come in one pass.
//!
//! Promises: the nodes are those that `specs/Numbering` gives each part, and the labels' nodes those of `specs/Labels`.
//! Stands on `program`, `c_types`, and on `sqlite_items`, whose lists and boxes contracts see as what they hold.
#![tactic(auto)]

mod labels;
mod nodes;
mod parts;
mod sizes;

pub use labels::label_nodes;
pub use nodes::{Ends, code_entry, code_nodes, guarding};
pub use parts::{Code, Crossing, Fork, Part, Target};
pub use sizes::{both, code_size, either, has_any, sized};
