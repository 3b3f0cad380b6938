//! What every crate stands on: numbers of threads, locks and variables, the limits, numbers as digits, and the traits
//! through which the product meets the outside. It promises that a fault of a source or a sink is answered only where the
//! object's count of faults rose, and that a text is written whole, or at a fault a front of it. It stands on the standard
//! library alone, and knows no trace and no script.
#![tactic(auto)]

mod digits;
mod gate;
mod ids;
mod limits;
mod outside;
mod sinks;
mod sources;
mod steps;
mod streams;
#[cfg(test)]
mod tests;
mod writing;

pub use digits::read_number;
pub use gate::{Gate, OpenGate};
pub use ids::{LockId, ThreadId, VarId};
pub use limits::{
    MAX_DEPTH, MAX_EVENTS, MAX_INPUT, MAX_INSTRUCTIONS, MAX_LINE, MAX_LOCKS, MAX_NAME,
    MAX_PATTERNS, MAX_SIZE, MAX_THREADS, MAX_VARS, MAX_WORKERS, MIN_SIZE,
};
pub use outside::{Failed, OutOfMemory, Sink, Source, WriteFault};
pub use sinks::{MemSink, SureSink};
pub use sources::{MemSource, SureSource};
pub use steps::Steps;
pub use streams::{StdSink, StdSource};
pub use writing::write_all;
