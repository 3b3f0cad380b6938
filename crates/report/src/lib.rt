//! The texts of results, each written to a sink.
//!
//! Each text is that of its definition, or at a fault a front of it: it is gathered whole and written at once. The crate
//! stands on the findings of `trace_laws`, the lines of `std_text`, the machine of `script_machine` and what `replayer`
//! reached; it knows no search, no reader and no mode of the program.
#![tactic(auto)]

mod ends;
#[cfg(test)]
mod ends_tests;
mod findings;
mod lines;
mod reached;
#[cfg(test)]
mod tests;
mod trace;

pub use ends::write_ends;
pub use findings::write_report;
pub use lines::last_line;
pub use reached::{write_reached, write_reached_count};
pub use trace::write_trace;
