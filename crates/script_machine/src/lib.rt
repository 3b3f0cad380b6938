//! Scripts, and the machine that runs them. It promises that each text has one script or one first fault, that each run is
//! a lawful trace which its threads determine, and that a recording of steps is a run. It stands on `trace_laws`, and knows
//! no thread of the system, no lock, and no search.
#![tactic(auto)]

mod fault;
mod flatten;
mod forks;
mod ids;
mod instruction;
pub mod laws;
mod lines;
mod machine;
mod read;
#[cfg(test)]
mod read_tests;
mod ready;
mod recording;
#[cfg(test)]
mod recording_tests;
mod resolved;
mod run;
#[cfg(test)]
mod run_tests;
mod script;
#[cfg(test)]
mod step_tests;
mod tables;
mod text;
mod thread_run;
mod whole;

pub use fault::{ScriptError, ScriptFault, ScriptKind};
pub(crate) use instruction::{Instruction, Line};
pub use machine::{Machine, ThreadState};
pub use recording::{Recording, RunFault};
pub use run::Run;
pub use script::Script;
pub use thread_run::ThreadRun;
