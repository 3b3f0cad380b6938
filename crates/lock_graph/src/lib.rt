//! The classes of a trace's acquires, and which class can follow which in a cycle.
//!
//! A class, an abstract acquire of Tunç, Mathur, Pavlogiannis and Viswanathan (PLDI 2023), is a thread, a lock and a held
//! set, with the acquires that have them. `Classes` lists exactly the classes of a trace, in the order of their first places.
//! `Ranks` tells locks apart that no cycle of classes has together. The crate stands on the index of the trace for held
//! sets, and must not know of patterns, closures or what is a deadlock.
#![tactic(auto)]

mod classes;
mod components;
mod entry;
mod listing;
mod ranks;
#[cfg(test)]
mod tests;

pub use classes::Classes;
pub use ranks::Ranks;
