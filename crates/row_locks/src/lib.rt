//! What the manager of row locks keeps: a machine that runs scripts, with the run so far.
//!
//! A grant makes exactly one step of one thread and appends exactly its event, or changes nothing, and its answer says which.
//! It stands on the run of `script_machine`, and on the tallies that `seat_lock` asks of a state; it knows no lock, no
//! thread of the host and no gate.
#![tactic(auto)]

mod state;
#[cfg(test)]
mod tests;

pub use state::{Grant, LockState};
