//! A lock for one state, each of whose seats knows how much it has changed that state.
//!
//! `SeatLock` hands the state to one seat at a time. A state has a tally at each seat's number, and a seat may change no
//! tally but its own. So each seat's count is the tally of the state at its number, however the seats took their turns. It
//! stands on the words and slots of `atomic_table`, and must not know what the state is.
#![tactic(auto)]

mod lock;
mod resting;
mod rule;
mod seat;
mod tallied;
#[cfg(test)]
mod tests;

pub use lock::SeatLock;
pub use seat::LockSeat;
pub use tallied::Tallied;
