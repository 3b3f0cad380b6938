//! Traces of lock events: what is lawful, what a trace predicts, and names and their numbers. It promises that a trace is
//! lawful, and proves what holds of all traces (`laws`). It stands on `sp_base`, and knows no text, no search and no
//! thread that runs.
//!
//! The definitions of races are those of Mathur, Pavlogiannis and Viswanathan, "Optimal Prediction of
//! Synchronization-Preserving Races" (POPL 2021), and those of deadlocks are of Tunç, Mathur, Pavlogiannis and
//! Viswanathan, "Sound Dynamic Deadlock Prediction in Linear Time" (PLDI 2023). Forks and joins are this project's own.
#![tactic(auto)]

mod builder;
mod event;
mod finding;
mod findings;
pub mod laws;
mod names;
#[cfg(test)]
mod tests;
mod trace;

pub use builder::{Builder, LawFault};
pub use event::{Event, Op};
pub use finding::{Deadlock, Finding, Keep, Race};
pub use findings::Findings;
pub use names::{NameFault, Names, is_name};
pub use trace::Trace;
