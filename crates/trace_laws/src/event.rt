//! Events and their operations.

use sp_base::{LockId, ThreadId, VarId};
use std::marker::Model;

/// What an event does.
#[derive(Clone, Copy, PartialEq, Eq, Debug)]
pub enum Op {
    /// It reads the variable.
    Read(VarId),
    /// It writes the variable.
    Write(VarId),
    /// It acquires the lock.
    Acquire(LockId),
    /// It releases the lock.
    Release(LockId),
    /// It starts the thread.
    Fork(ThreadId),
    /// It waits for the end of the thread.
    Join(ThreadId),
}

/// One event of a trace: its thread, its operation, and where it stands in the program's text.
#[derive(Clone, Copy, PartialEq, Eq, Debug)]
pub struct Event {
    /// The thread that does it.
    pub thread: ThreadId,
    /// What it does.
    pub op: Op,
    /// The location in the program's text.
    pub loc: u32,
}

impl Model for Event {
    ghost use Rattle.trace_laws.specs.Event.{Event};

    ghost Value = { Event };

    ghost view = { λ e. record { thread = e.thread; op = e.op; loc = e.loc } };

    ghost inverse = { λ e. record { thread = e.thread; op = e.op; loc = e.loc } };
}
