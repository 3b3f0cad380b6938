//! What the places of a trace are tied to.
//!
//! An `Index` is made in one pass over a trace. It answers at once how many events of its thread stand before a place,
//! which write a read reads, where the section of an acquire ends, which places access a variable, and what the thread of
//! an acquire holds just before it; which section of a lock by a thread has a number, and which number a section has.
//! `Stamps` tell how many places of each thread a place needs by program order and writers. Stands on the laws of traces and
//! on the closed sets of places of `closed_fronts`, which it hands on, and must not know of races, patterns and searches.
#![tactic(auto)]

mod access_lists;
mod acquire_lists;
mod held_sets;
mod holdings;
mod index;
mod lock_sets;
mod place_lists;
mod section;
#[cfg(test)]
mod section_tests;
mod set_numbers;
#[cfg(test)]
mod stamp_tests;
mod stamps;
#[cfg(test)]
mod tests;

pub use index::Index;
pub use section::Section;
pub use stamps::Stamps;
