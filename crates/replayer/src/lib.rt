//! The reordering that a finding stands for, and its replay.
//!
//! The keep of a finding counts, for each thread, how many of its events the finding needs. These events in the order of
//! the trace are a sync-preserving correct reordering that leaves the finding's places enabled (Mathur, Pavlogiannis and
//! Viswanathan, "Optimal Prediction of Synchronization-Preserving Races", POPL 2021). Taken as steps of the scripts whose
//! run the trace is, they lead to the finding. The crate stands on the definitions of `trace_laws` and on the machine of
//! `script_machine`; it knows no closed set, no search and no text.
#![tactic(auto)]

mod finding;
mod kept;
pub mod laws;
mod reached;
#[cfg(test)]
mod replay_tests;
#[cfg(test)]
mod tests;

pub use finding::replay;
pub use kept::reorder;
pub use reached::Reached;
