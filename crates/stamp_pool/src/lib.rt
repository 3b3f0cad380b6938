//! Rows of counts in one region.
//!
//! A `Pool` takes all its room when it is made, lends rows of zeros, and takes them back. A row that it lends is lent
//! nowhere else, and a raise changes one row. Stands on the want of memory of `sp_base` alone, and knows neither traces nor
//! what the counts count.
#![tactic(auto)]

mod pool;
mod region;
#[cfg(test)]
mod tests;

pub use pool::{MAX_COUNTS, Pool, RowId};
