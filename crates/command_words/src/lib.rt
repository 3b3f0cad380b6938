//! What the words of the command line mean: the command with its options and their ranges, and the modes by their names.
//! It promises that words are read exactly as the command states, and stands on the limits of the base and on `clap`. It must
//! not know what a mode does, nor what the program reads and writes.
#![tactic(auto)]

mod command;
mod mode;
#[cfg(test)]
mod tests;
mod words;

pub use command::{MAX_DRAWN_EVENTS, MAX_FINDING, MAX_SEED, MIN_DRAWN_EVENTS};
pub use mode::Mode;
pub use words::{Words, WordsFault, read_words};
