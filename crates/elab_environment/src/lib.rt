//! What elaboration knows at a place of a file: the names and tags in scope, what they stand for, the structs with their
//! layouts, and what was found against the file.
//!
//! A step of elaboration is a function of the environment; `specs/Elaborating` says how steps are put together. No step
//! fails: what breaks a rule is noted, and the step goes on with a type or a value that breaks no further one. So the only
//! error of the code is want of memory.
//! Stands on `elab_findings`, `elab_scope` and `elab_types`.
#![tactic(auto)]

mod complete;
mod constant;
mod lexeme;
mod linkage;
mod notes;
mod objects;
mod state;
mod structs;
mod tags;

pub use constant::Constant;
pub use lexeme::{Lexeme, Operator, Word};
pub use state::{
    Block, Body, Called, Collected, Entity, Environment, Field, Linkage, Named, NotInline, Object,
    ObjectDeclaration, Prototype, Standing, Struct, Tag, TagKind,
};
pub use structs::{any_named, is_open_array};
