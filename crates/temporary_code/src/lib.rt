//! What single constructs of an expression emit behind their operands, and the temporaries that they take.
//!
//! Promises: the parts are those of `specs/Instructions`, and which object a temporary is, that of `specs/Temporaries`. The
//! one refusal is want of memory, which is also said where a number passes 2^32.
//! Stands on `typed_tree`, `code_parts`, `program`, `c_types` and `sqlite_items`.
#![tactic(auto)]

mod instructions;
mod outcomes;
mod temporaries;

pub use instructions::{
    assigned, base_of, branch, call_of, called, chosen, computed, interval_of, kept, node,
    post_updated, reading, set_part, struct_assigned, struct_chosen, truth, type_read, updated,
};
pub use outcomes::{Done, Forked, Listed, Placed, Valued};
pub use temporaries::{Pool, Taken, Temporaries, beginning, no_temporaries, take};
