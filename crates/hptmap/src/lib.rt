//! Finite maps from keys to payload trees, over any store: big-endian Patricia tries after Okasaki and
//! Gill (Fast Mergeable Integer Maps, 1998).
//!
//! A trie is canonical, so two maps are equal exactly where their roots are `same`, and what one map
//! shares with another is skipped without a look. Stands on `store_api` alone.
#![tactic(auto, using(store_api::specs::Bag::one_self))]

mod blocks;
mod delete;
mod each;
mod inclusion;
mod insert;
mod lattice;
mod lookup;
mod map;
mod merge;
mod nodes;
mod order;
mod pairs;
mod rule;
mod way;

pub use each::map_leaves;
pub use lattice::{included, join, widen};
pub use map::{Map, add, empty, find, remove, same};
pub use pairs::walk;
pub use rule::{LeafMap, LeafRule};

#[cfg(test)]
mod tests;
