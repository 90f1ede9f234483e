//! Indexes drawn by workers that run side by side.
//!
//! `run_all` does the work on each index below a number, by a worker for each store that it is given. A shared word
//! hands out the indexes by single fetches, so whoever is done draws the next one. The contract is `specs/Working`:
//! each index was drawn once, its result stands at its place with what its job promises of it, and each store comes
//! back at its place with the holds of the results that were made in it. The shared word keeps the rule of
//! `specs/Drawing`. Nothing waits: where no thread can be made, the work is done one after another.
//! Stands on `store_api` and the kit's `atomic_table`.
#![tactic(auto)]

mod draws;
mod error;
mod job;
mod run;
#[cfg(test)]
mod tests;
mod work;

pub use error::Memory;
pub use job::{Gate, Job, Moment};
pub use run::run_all;
