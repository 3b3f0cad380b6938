//! The races of a trace on a range of its variables, each with its earliest partner and its keep, in the order of the
//! later places (Mathur, Pavlogiannis and Viswanathan, "Optimal Prediction of Synchronization-Preserving Races",
//! POPL 2021).
//!
//! It stands on the accesses of an index and on the closed sets of a cursor, and looks at the accesses of its own
//! variables alone. It must not know how a closed set is made, nor how a search is cut into jobs.
#![tactic(auto)]

mod candidates;
mod finding;
mod groups;
mod order;
mod pair_set;
mod partners;
mod passing;
mod scan;
mod sections;
#[cfg(test)]
mod tests;

pub use scan::RaceScan;
