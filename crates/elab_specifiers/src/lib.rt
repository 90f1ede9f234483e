//! Declaration specifiers: what a list of them says, which tag is meant, and the members and enumerators of bodies (C11 6.7.1
//! to 6.7.4, 6.7.8).
//!
//! Promises: each function answers what the rule of its name in `elab_rules` says, and leaves the environment that it says. A
//! constraint that is broken is noted there, with its place; the only error is want of memory. These are the rules that ask
//! for no declarator or expression themselves: they are handed the type or the constant that was read. `elab_declarators`
//! puts them together. Stands on `elab_rules`.
#![tactic(auto)]

mod bodies;
mod checks;
mod gathered;
mod sorts;
mod tags;
mod words;

pub use bodies::{
    MemberPlace, declare_enumerator, empty_line, end_body, enumerator, with_bit_field, with_member,
};
pub use checks::{hold_at, hold_if, refuse_if};
pub use gathered::{nothing_said, specified, typedef_type, with_type, word_said};
pub use sorts::{is_faulty, is_function};
pub use tags::{Wanted, meant_tag, sort_of};
