//! Least closed sets of places of a trace.
//!
//! A `Cursor` holds a closed set that grows: `raise` makes it the least closed set that holds it and all places before a
//! place. Stands on the closed fronts of an index, which all cursors of a search share, and keeps a cut and a count for
//! each thread; it knows nothing of races and patterns. All room is taken by `new`.
#![tactic(auto)]

mod cursor;
mod mending;
#[cfg(test)]
mod tests;

pub use cursor::Cursor;
