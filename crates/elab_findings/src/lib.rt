//! What a file is found to break, and which of it counts: the first refusal in text order.
//!
//! A fault counts everywhere, or only where the declaration that holds it is used. A declaration is used by itself, or where
//! a used one names it. Promises: `used` marks exactly the used declarations, and `first` answers the first fault that
//! counts, in time that grows with what was noted.
#![tactic(auto)]

mod fault;
mod findings;
mod least;
mod search;
mod uses;

pub use fault::{Fault, Rule};
pub use findings::{Findings, Held};
pub use least::{first, is_before, is_used};
pub use search::used;
pub use uses::Uses;
