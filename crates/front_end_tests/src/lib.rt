//! Tests of the parser's crates through their public calls: tokens and trees.
//!
//! They stand in a crate of their own, since a crate with tests is proved twice. Stands on the crates that it tests.
#![tactic(auto)]

#[cfg(test)]
mod pump;
#[cfg(test)]
mod tokens;
#[cfg(test)]
mod trees;
