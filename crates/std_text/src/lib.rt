//! The text of traces. A [`Reader`] takes a text in pieces: `framing` cuts it into lines, and `line` says what one line
//! means after those before it. It promises that the bytes alone decide what is read and which line is refused first, that
//! a trace that is read is lawful, and that what is written of a trace is read again as the same trace. It stands on
//! `trace_laws`, and knows no file, no search and no script.
#![tactic(auto)]

mod fault;
mod fields;
mod framing;
mod law;
mod line;
mod reader;
mod rereading;
#[cfg(test)]
mod tests;
mod writing;

pub use fault::{ReadFault, StdFault, StdKind};
pub use framing::pieces_are_the_text;
pub use law::computed_laws_are_the_laws;
pub use reader::Reader;
pub use rereading::written_text_is_read;
pub use writing::{op_word, write_call, write_event, write_op};
