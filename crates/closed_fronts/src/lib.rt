//! The closures of the fronts of a trace.
//!
//! For each place a row has the least closed set that holds it, by a cut for each thread. So the least closed set that
//! holds a set and all places before a place is found with no walk over the past: rows are joined, and where the joined
//! set holds the earlier of two sections of a lock, and the later, and not the end of the earlier, the row of that end is
//! joined too. Rows that differ in the own cut alone share what is stored. Stands on the laws of traces, and knows neither
//! variables' accesses nor patterns, nor who asks. All room is taken by `Fronts::build`.
#![tactic(auto)]

mod fronts;
mod heads;
mod joining;
mod links;
mod locals;
mod mending;
mod places;
mod rows;
mod sections;
mod table;
mod ties;
mod tips;
mod torn;
mod upcoming;
mod writers;

pub use fronts::Fronts;
pub use joining::join;
pub use places::Places;
