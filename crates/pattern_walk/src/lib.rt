//! The abstract deadlock patterns of a trace, and the least deadlock of each.
//!
//! A pattern is a cycle of classes with distinct threads and locks, each of which holds the lock of the one before it, and
//! no two of which hold one lock (Tunç, Mathur, Pavlogiannis and Viswanathan, "Sound Dynamic Deadlock Prediction in Linear
//! Time", PLDI 2023). `Patterns` lists exactly those up to a size, in their order, and `check` answers the least deadlock of
//! one of them. It stands on the classes of `lock_graph` and on the cursor of `sp_closure`, and must not know how a set is
//! closed, nor of races or workers.
#![tactic(auto)]

mod checking;
mod gallop;
mod instance;
mod links;
mod near;
mod order;
mod patterns;
#[cfg(test)]
mod tests;
mod walk;

pub use checking::check;
pub use patterns::{Pattern, Patterns, WalkFault};
