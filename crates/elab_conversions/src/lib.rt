//! Conversions of operands, each of them explicit (C11 6.3), and integer constant expressions (6.6).
//!
//! Promises: each call equals its rule in `specs/Operands`, `specs/Constants` and `specs/Conversions` of `elab_rules`. A rule
//! that is broken is noted in the environment at a token, and its answer then breaks no further one, so that the only error is
//! want of memory. Stands on `elab_rules`, `elab_environment` and `c_arithmetic`.
#![tactic(auto)]

mod by_assignment;
mod constants;
mod forms;
mod null;
mod promotions;
mod sizes;
mod sorts;
mod values;

pub use by_assignment::assigned;
pub use constants::{constant_at, constant_value};
pub use forms::{
    faulty, function_named, int_type, is_lvalue, is_null, null_of, number, operand, pointer_to,
};
pub use null::{converts_silently, is_null_constant, same_but_qualifiers};
pub use promotions::{converted, promote, promoted_by, promoted_kind, usual_kind};
pub use sizes::{is_sized, sized, steps_over};
pub use sorts::{
    element_of, is_bool, is_faulty, is_function, is_pointer, is_scalar, is_unusable, is_void,
    kind_of, pointee_of, sort_of, struct_of,
};
pub use values::{left_out, loaded, type_error, value};
