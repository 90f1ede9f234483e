//! A store of trees for one worker: a list of nodes that are named by index.
//!
//! Equal trees may have several nodes, and `same` compares the trees. A node that nothing names is used
//! again. The one stop is want of memory. Stands on `store_api`, whose contract it meets.
#![tactic(auto, using(store_api::specs::Bag::one_self))]

mod nodes;
mod slot;
mod slots;
mod store;
#[cfg(test)]
mod tests;

pub use store::{Hold, PlainStore, plain};
