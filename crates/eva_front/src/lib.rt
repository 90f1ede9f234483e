//! The program: words and a file in, a report and a status out.
//!
//! `run_eva` has the theorem, in the words of `specs/Answer`. It reads through a `Source` and prints through a `Sink`: real
//! ones are in `eva_cli`, and those in memory here (`FileMap`, `Page`, `SureFiles`, `SurePage`).
#![tactic(auto)]

mod command;
mod failing;
mod front_end;
mod memory;
mod outside;
mod refusals;
mod report;
mod run;
mod streams;
#[cfg(test)]
mod tests;

pub use failing::{FileMap, Page};
pub use memory::{SureFiles, SurePage};
pub use outside::{Failed, Sink, Source};
pub use run::{Status, run_eva};
