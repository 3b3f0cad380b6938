//! Where a test may hold a thread back.

use crate::ids::ThreadId;

/// Where a test may hold a thread back. It has no part in any answer.
pub trait Gate {
    /// Called before a thread's call, where `call` counts the granted calls of that thread.
    fn before(&self, thread: ThreadId, call: u32);

    /// Called within a thread's call, while the lock or the cell that the call needs is held.
    fn inside(&self, thread: ThreadId, call: u32);

    /// Called when a worker begins the job of that number.
    fn job(&self, number: u32);
}

/// The gate that holds nobody back.
#[derive(Clone, Copy, Debug, Default, PartialEq, Eq)]
pub struct OpenGate;

impl Gate for OpenGate {
    fn before(&self, _thread: ThreadId, _call: u32) {}

    fn inside(&self, _thread: ThreadId, _call: u32) {}

    fn job(&self, _number: u32) {}
}
