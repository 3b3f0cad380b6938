//! The reading of inputs. What a source has is taken in pieces, by one loop, and read as a trace, as scripts, or as both
//! with a line `%%` between them. It promises that no more than the limit of an input and one byte is taken, that an input
//! is answered by what its text says or by its first fault, and a read fault only where the source's count of faults rose.
//! It stands on the texts of `std_text` and `script_machine`, and knows no search, no sink and no mode of the program.
#![tactic(auto)]

mod behind;
mod fault;
mod gathering;
mod newlines;
mod parts;
mod reading;
mod scripts;
mod taker;
#[cfg(test)]
mod tests;

pub use behind::trace_behind;
pub use fault::{HolderName, IntakeFault};
pub use gathering::whole_text;
pub use newlines::count_newlines;
pub use parts::input_parts;
pub use reading::read_trace;
pub use scripts::{read_script, script_of};
