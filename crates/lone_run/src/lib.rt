//! The lone run of an entry function: what the analysis of one entry is, over any states of memory.
//!
//! `specs/Lone` defines it: one iteration over the entry's graph, the least pending node first, with calls nested, up
//! to `slevel` separate states at a node, joins, and widening from the fourth update of a widening point (Cousot and
//! Cousot 1977; Bourdoncle 1993). `specs/Soundness` says what silence means: the first undefined place of an execution
//! is an alarm, and each memory that an execution has is a member of the state that stands there. The theorem
//! (`proofs/Sound`) holds of all states that keep the records of that file. It speaks of all predicates of memories,
//! so no contract can state it; that of an analysis whose states are known can.
//!
//! Nothing runs here. Each function's contract is one law. Stands on `program`.
#![tactic(auto)]

ghost use Rattle.lone_run.specs.Bounds.{BudgetIsExact, ForwardRunIsBounded};
ghost use Rattle.lone_run.specs.Graphs.{LawfulCallsEnd, LawfulEdgesAreGood};

/// A run takes no more turns than its budget, and with each budget that has room for its turns it is the same.
pub fn budget_is_exact<S>()
    ensures { BudgetIsExact S }
{}

/// A run where no edge goes back takes a turn a node and state, and at a call those of the callee.
pub fn forward_run_is_bounded<S>()
    ensures { ForwardRunIsBounded S }
{}

/// The edges of a lawful program's graphs are as the runs ask.
pub fn lawful_edges_are_good()
    ensures { LawfulEdgesAreGood }
{}

/// No calls of a lawful program go round.
pub fn lawful_calls_end()
    ensures { LawfulCallsEnd }
{}
