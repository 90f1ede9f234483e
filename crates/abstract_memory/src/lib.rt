//! What the analysis knows of memory: objects bit by bit and states, what each operation on them is, and which memories
//! they stand for.
//!
//! An object has an entry for each bit, and each operation is defined bit by bit (`specs/`). The laws that are proved here
//! say that an operation keeps the memories it must keep, and that objects stay lawful. Stands on the memories of
//! `c_memory` and the values of `avalue`.
#![tactic(auto)]

mod laws;
mod state_laws;

pub use laws::{
    copy_keeps, escape_keeps, included_is_sound, join_is_lawful, join_keeps, read_at_keeps,
    read_keeps, read_tells, widen_keeps, write_is_lawful, write_keeps, write_weak_keeps,
};
pub use state_laws::{
    enter_keeps, leave_keeps, state_inclusion_is_sound, state_join_keeps, state_widening_keeps,
};
