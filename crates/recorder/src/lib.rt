//! The recorder: scripts run on threads, and what they did is a complete legal run.
//!
//! A manager keeps the run under one lock, with a pass for each thread. What is recorded is tied to the calls that each pass
//! was granted, whatever turns the threads took; a standstill is told by the board alone. It stands on the lock of
//! `seat_lock`, on the grants of `row_locks` and on the machine of `script_machine`, and knows no text, no report and
//! nothing of what is found in a trace.
#![tactic(auto)]

mod board;
#[cfg(test)]
mod board_tests;
mod call;
#[cfg(test)]
mod call_tests;
#[cfg(test)]
mod gate_tests;
#[cfg(test)]
mod inside_tests;
mod manager;
mod pass;
#[cfg(test)]
mod record_tests;
#[cfg(test)]
mod refused_tests;
mod seats;
mod steps;
mod workers;

pub use board::{Board, Standstill};
pub use call::Call;
pub use manager::Manager;
pub use pass::Pass;
pub use workers::record;
