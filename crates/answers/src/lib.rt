//! What is written of a trace, and of a run.
//!
//! From a trace with what is predicted from it, and from a recording of a script, come texts: the report, the witness of a
//! finding, the replays, all that is written of a run, and how much there is. The crate stands on the search of `predictor`,
//! on `replayer` and on the lines of `report`; it knows no source, no mode and no status.
#![tactic(auto)]

mod benches;
mod recordings;
mod replays;
mod reports;
mod runs;
mod sinks;
#[cfg(test)]
mod tests;
mod witnesses;

pub use benches::bench_text;
pub use recordings::write_recording;
pub use replays::{replay_text, replays_in};
pub use reports::report_of;
pub use runs::{RunText, text_of_recording};
pub use sinks::sink_with;
pub use witnesses::witness_text;
