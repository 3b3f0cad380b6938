//! Making traces, event by event.

ghost use Rattle.std.specs.Prelude.{ℕ, IsTrue, ◌≡◌, ◌<◌, ◌≤◌, ◌↔◌, [], ◌∷◌, ◌++◌, length, IfOk, OnOk, OnErr, IsOk};
ghost use Rattle.trace_laws.specs.Trace.{MayFollow, IsJoined, IsForked, HasStarted};
ghost use Rattle.trace_laws.specs.Traces.{AreNamedBelow};
ghost use Rattle.trace_laws.specs.Building.{owners_after, joined_after, forked_after};
ghost use Rattle.trace_laws.specs.Faults.{HoldsNow, Judges, IsRefusedFor};

use crate::trace::Trace;
use crate::{Event, Op};
use sp_base::{LockId, MAX_EVENTS, MAX_LOCKS, MAX_THREADS, OutOfMemory, ThreadId};
use std::alloc::Global;
use std::marker::Model;
use thiserror::Error;

/// Why an event is refused: the first law that it breaks, in the order of `Builder::push`.
#[derive(Clone, Copy, PartialEq, Eq, Debug, Error)]
pub enum LawFault {
    /// The builder has as many events as it may have.
    #[error("the trace is full")]
    Full,
    /// The event's thread, or the thread that it forks, was joined.
    #[error("the thread was joined")]
    AfterJoin,
    /// The event acquires a lock that its own thread holds.
    #[error("the own thread holds the lock")]
    Reentrant,
    /// The event acquires a lock that the named other thread holds.
    #[error("another thread holds the lock")]
    LockHeld(ThreadId),
    /// The event releases a lock that its own thread does not hold.
    #[error("the own thread does not hold the lock")]
    NotHeld,
    /// The event forks or joins its own thread.
    #[error("the event names its own thread")]
    SelfThread,
    /// The event forks a thread that was forked before.
    #[error("the thread was forked before")]
    ForkTwice,
    /// The event forks a thread that has an event.
    #[error("the forked thread has an event")]
    ForkLate,
}

/// A trace that grows by one lawful event at a time.
///
/// Contracts see its events and its capacity. It keeps who holds each lock, and which threads were joined, were forked
/// and have events, so that each event is judged in constant time.
#[derive(Drop)]
pub struct Builder {
    events: Vec<Event>,
    capacity: u32,
    owners: Vec<Option<ThreadId>>,
    joined: Vec<bool>,
    forked: Vec<bool>,
    started: Vec<bool>,
}

impl Model for Builder {
    ghost use Rattle.trace_laws.specs.Faults.{Built};

    ghost Value = { Built };

    ghost use Rattle.trace_laws.specs.Building.{built, IsUpToDate};

    ghost view = { built };

    ghost invariant = { IsUpToDate };
}

impl Builder {
    /// An empty trace that may have `capacity` events, with the room of all of them.
    ///
    /// Fails where memory runs out.
    pub fn new(alloc: Global, capacity: u32) -> Result<Builder, OutOfMemory>
        requires { capacity ≤ MAX_EVENTS }
        ensures { IfOk result (λ b. (b.events ≡ []) × (b.capacity ≡ capacity)) }
    {
        Ok(Builder {
            events: Vec::with_capacity(alloc, capacity as usize)?,
            capacity,
            owners: vec![in alloc; None; MAX_LOCKS as usize]?,
            joined: vec![in alloc; false; MAX_THREADS as usize]?,
            forked: vec![in alloc; false; MAX_THREADS as usize]?,
            started: vec![in alloc; false; MAX_THREADS as usize]?,
        })
    }

    /// Whether the builder has as many events as it may have.
    pub fn is_full(&self) -> bool
        ensures value { IsTrue result ↔ (length self.now.events ≡ self.now.capacity) }
        ensures within { length self.now.events ≤ self.now.capacity }
    {
        self.events.len() == self.capacity as usize
    }

    // The thread that holds the lock.
    fn owner(&self, lock: LockId) -> Option<ThreadId>
        ensures { (t : ℕ) → (result ≡ Some t) ↔ HoldsNow self.now.events t lock }
    {
        self.owners[lock.value() as usize]
    }

    // Whether the thread was joined.
    fn is_joined(&self, thread: ThreadId) -> bool
        ensures { IsTrue result ↔ IsJoined self.now.events (length self.now.events) thread }
    {
        self.joined[thread.value() as usize]
    }

    // Whether the thread was forked.
    fn is_forked(&self, thread: ThreadId) -> bool
        ensures { IsTrue result ↔ IsForked self.now.events (length self.now.events) thread }
    {
        self.forked[thread.value() as usize]
    }

    // Whether the thread has an event.
    fn has_started(&self, thread: ThreadId) -> bool
        ensures { IsTrue result ↔ HasStarted self.now.events (length self.now.events) thread }
    {
        self.started[thread.value() as usize]
    }

    // The first law that an acquire by this thread breaks: that no thread holds the lock.
    fn acquire_fault(&self, thread: ThreadId, lock: LockId) -> Option<LawFault>
        ensures { Judges self.now.events thread (Op.Acquire lock) result }
    {
        match self.owner(lock) {
            None => None,
            Some(holder) => {
                if holder == thread {
                    Some(LawFault::Reentrant)
                } else {
                    Some(LawFault::LockHeld(holder))
                }
            }
        }
    }

    // The law that a release by this thread breaks: that it holds the lock.
    fn release_fault(&self, thread: ThreadId, lock: LockId) -> Option<LawFault>
        ensures { Judges self.now.events thread (Op.Release lock) result }
    {
        match self.owner(lock) {
            None => Some(LawFault::NotHeld),
            Some(holder) => {
                if holder == thread {
                    None
                } else {
                    Some(LawFault::NotHeld)
                }
            }
        }
    }

    // The first law that a fork by this thread breaks.
    fn fork_fault(&self, thread: ThreadId, other: ThreadId) -> Option<LawFault>
        ensures { Judges self.now.events thread (Op.Fork other) result }
    {
        if other == thread {
            Some(LawFault::SelfThread)
        } else if self.is_joined(other) {
            Some(LawFault::AfterJoin)
        } else if self.is_forked(other) {
            Some(LawFault::ForkTwice)
        } else if self.has_started(other) {
            Some(LawFault::ForkLate)
        } else {
            None
        }
    }

    // The law that a join by this thread breaks: that it names another thread.
    fn join_fault(&self, thread: ThreadId, other: ThreadId) -> Option<LawFault>
        ensures { Judges self.now.events thread (Op.Join other) result }
    {
        if other == thread {
            Some(LawFault::SelfThread)
        } else {
            None
        }
    }

    // The first law of its operation that the event breaks.
    fn operation_fault(&self, event: &Event) -> Option<LawFault>
        ensures { Judges self.now.events event.now.thread event.now.op result }
    {
        match &event.op {
            Op::Read(_) | Op::Write(_) => None,
            Op::Acquire(lock) => self.acquire_fault(event.thread, *lock),
            Op::Release(lock) => self.release_fault(event.thread, *lock),
            Op::Fork(other) => self.fork_fault(event.thread, *other),
            Op::Join(other) => self.join_fault(event.thread, *other),
        }
    }

    /// Adds the event at the end, where there is room and it meets its laws with the events before it. It takes no memory.
    ///
    /// A refused event changes nothing. The faults are looked for in this order: `Full`; `AfterJoin` of the event's
    /// thread; then by operation. An acquire: `Reentrant`, `LockHeld`. A release: `NotHeld`. A fork: `SelfThread`,
    /// `AfterJoin` of the forked thread, `ForkTwice`, `ForkLate`. A join: `SelfThread`.
    pub fn push(&mut self, event: Event) -> Result<(), LawFault>
        ensures accepts { IsOk result ↔ ((length self.old.events < self.old.capacity) × MayFollow self.old.events event) }
        ensures ok { OnOk result (self.new.events ≡ self.old.events ++ event ∷ []) }
        ensures capacity { self.new.capacity ≡ self.old.capacity }
        ensures within { length self.new.events ≤ self.new.capacity }
        ensures err { OnErr result (self.new ≡ self.old) }
        ensures fault { (fault : LawFault) → (result ≡ Err fault) ↔ IsRefusedFor self.old event fault }
    {
        if self.events.len() == self.capacity as usize {
            return Err(LawFault::Full);
        }
        if self.is_joined(event.thread) {
            return Err(LawFault::AfterJoin);
        }
        if let Some(fault) = self.operation_fault(&event) {
            return Err(fault);
        }
        mark(&mut self.owners, &mut self.joined, &mut self.forked, &event);
        self.started[event.thread.value() as usize] = true;
        let _ = self.events.push(event);
        Ok(())
    }

    /// The trace of these events, with that number of threads, which is above each thread that an event names.
    pub fn finish(self, threads: u16) -> Trace
        requires named { AreNamedBelow self.events threads }
        requires few { threads ≤ MAX_THREADS }
        ensures events { result.events ≡ self.events }
        ensures threads { result.threads ≡ threads }
    {
        Trace {
            events: self.events,
            threads,
        }
    }
}

// Marks in the tables what the event does.
fn mark(owners: &mut [Option<ThreadId>], joined: &mut [bool], forked: &mut [bool], event: &Event)
    requires locks { length owners.old ≡ MAX_LOCKS }
    requires joined_threads { length joined.old ≡ MAX_THREADS }
    requires forked_threads { length forked.old ≡ MAX_THREADS }
    ensures owners { owners.new ≡ owners_after owners.old event.now.thread event.now.op }
    ensures joined { joined.new ≡ joined_after joined.old event.now.op }
    ensures forked { forked.new ≡ forked_after forked.old event.now.op }
{
    match &event.op {
        Op::Read(_) | Op::Write(_) => {}
        Op::Acquire(lock) => owners[lock.value() as usize] = Some(event.thread),
        Op::Release(lock) => owners[lock.value() as usize] = None,
        Op::Fork(other) => forked[other.value() as usize] = true,
        Op::Join(other) => joined[other.value() as usize] = true,
    }
}
