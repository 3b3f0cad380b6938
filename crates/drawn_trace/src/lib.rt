//! Large traces that are lawful and that a single number determines: each turn of a random generator makes one event.
//!
//! The generator is the PCG `Lcg64Xsh32::new(seed, 1)`. There are four threads `T0` to `T3`, eight locks `L0` to `L7` and
//! 64 variables `X0` to `X63`. Each turn draws three words of 32 bits, whether it needs them all or not: the thread is the
//! first word modulo 4, the action a is the second word modulo 8, and o is the third word. The turn makes exactly one
//! event, by the first rule that applies:
//!
//! - a is 0, 1 or 2: a read of the variable with number o modulo 64.
//! - a is 3 or 4: a write of the variable with number o modulo 64.
//! - a is 5 or 6, lock number o modulo 8 is free, and the thread holds no lock, or holds exactly one lock and either that
//!   lock's number is less or the quotient of o by 8 is divisible by 64: an acquire of lock number o modulo 8.
//! - a is 5 or 6 and the thread holds a lock: a release of the lock that it took last of those that it holds.
//! - a is 5 or 6: a read of the variable with number o modulo 64.
//! - a is 7 and the thread holds a lock: a release of the lock that it took last of those that it holds.
//! - a is 7: a write of the variable with number o modulo 64.
//!
//! The location of an event is its place in the trace, from 0.
//!
//! So threads mostly take a second lock in the order of the numbers, and now and then against it.
#![tactic(auto)]

mod drawing;
mod held;
mod numbers;
#[cfg(test)]
mod tests;
mod text;

pub use text::draw;
