//! The search for the races and the deadlocks of a trace, over workers.
//!
//! The search is cut into at most 64 jobs, each of which searches a range of variables for races, or a range of patterns for
//! deadlocks. What the jobs find is put together in the order of the trace and of the patterns, so the findings are the same
//! whatever the number of workers. It stands on `race_scan`, `pattern_walk` and `shard_pool`, and must not know of texts, nor
//! how jobs come to workers.
#![tactic(auto)]

mod cut;
mod deadlocks;
mod job;
mod joined;
mod part;
mod races;
mod search;
#[cfg(test)]
mod tests;

pub use search::{FindFault, find};
