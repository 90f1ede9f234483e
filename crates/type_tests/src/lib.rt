//! Tests of layouts, conversions and programs through the public calls of `c_types` and `program`.
//!
//! They stand in a crate of their own, since a crate with tests is proved twice. Stands on the crates that it tests.
#![tactic(auto)]

#[cfg(test)]
mod layouts;
#[cfg(test)]
mod programs;
