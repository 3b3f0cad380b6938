//! The index of a trace.

ghost use Rattle.std.specs.Prelude.{ℕ, ◌≡◌, ◌<◌, ◌+◌, ◌↔◌, length, IfOk, IsTrue, Some};
ghost use Rattle.trace_laws.specs.Trace.{Reads, op_at, IsWriter, IsReleaseOf};
ghost use Rattle.trace_laws.specs.Kept.{local_of};
ghost use Rattle.closed_fronts.specs.Tables.{IsOuter, IsOpened, IsNextRow};
ghost use Rattle.closed_fronts.specs.Rows.{IsImplied};
ghost use Rattle.trace_index.specs.Accessed.{AreAccesses, AreVariablesBelow};
ghost use Rattle.trace_index.specs.Acquired.{AreAcquires, IsSectionAt, IsSectionNumber};
ghost use Rattle.trace_index.specs.HeldSets.{AreLocksBelow, IsAcquire, IsHeldAt, IsHeldSet, HaveSameHeld, HaveNoneCommon, IsFirstAlike};

use crate::access_lists::AccessLists;
use crate::acquire_lists::{AcquireLists, pair};
use crate::held_sets::HeldSets;
use crate::holdings::Holdings;
use crate::section::Section;
use crate::set_numbers::SetNumbers;
use crate::{lock_sets, place_lists};
use closed_fronts::Fronts;
use sp_base::{LockId, MAX_LOCKS, MAX_VARS, OutOfMemory, Steps, ThreadId, VarId};
use std::alloc::Global;
use std::marker::Model;
use std::sync::ledger::Ledger;
use trace_laws::{Op, Trace};

/// A trace with tables on its places.
///
/// Contracts see the trace.
#[derive(Drop)]
pub struct Index<'a> {
    fronts: Fronts<'a>,
    accesses: Vec<Vec<u32>>,
    acquires: Vec<Vec<u32>>,
    positions: Vec<u32>,
    sets: SetNumbers,
    firsts: Vec<u32>,
    held: Vec<u32>,
}

impl<'a> Model for Index<'a> {
    ghost use Rattle.trace_laws.specs.Traces.{History};

    ghost Value = { History };

    ghost use Rattle.trace_index.specs.Indexes.{history_in, IsIndexed};

    ghost view = { history_in };

    ghost invariant = { IsIndexed };
}

impl<'a> Index<'a> {
    /// The index of a trace. The only error is want of memory.
    pub fn build(alloc: Global, trace: &'a Trace) -> Result<Index<'a>, OutOfMemory>
        ensures { IfOk result (λ index. index ≡ trace.now) }
    {
        let fronts = Fronts::build(alloc, trace)?;
        let mut accesses = AccessLists::new(alloc, trace);
        let mut acquires = AcquireLists::new(alloc, trace)?;
        let mut holdings = Holdings::new(alloc, trace)?;
        let mut held = HeldSets::new(alloc, trace)?;
        for place in 0..trace.len() {
            accesses.note(trace, place)?;
            acquires.note(trace, place)?;
            held.note(trace, place, &holdings)?;
            holdings.note(trace, place)?;
        }
        Ok(Index {
            fronts,
            accesses: accesses.lists,
            acquires: acquires.lists,
            positions: acquires.positions,
            sets: held.sets,
            firsts: held.firsts,
            held: held.numbers,
        })
    }

    /// The trace.
    pub fn trace(&self) -> &'a Trace
        ensures value { result.now ≡ self.now }
        ensures variables { AreVariablesBelow self.now.events MAX_VARS }
        ensures locks { AreLocksBelow self.now.events MAX_LOCKS }
    {
        self.fronts.places().trace()
    }

    /// The least closed sets that hold the places.
    pub fn fronts(&self) -> &Fronts<'a>
        ensures { result.now ≡ self.now }
    {
        &self.fronts
    }

    /// The number of a place within its thread: how many events of its thread stand before it.
    pub fn local(&self, place: u32) -> u32
        requires { place < length self.now.events }
        ensures { result ≡ local_of self.now.events place }
    {
        self.fronts.places().local(place)
    }

    /// The writer of a read: the last write of its variable before it, or none.
    pub fn writer(&self, place: u32) -> Option<u32>
        requires { (x : ℕ) × Reads self.now.events place x }
        ensures { (x : ℕ) → Reads self.now.events place x → IsWriter self.now.events ◌<◌ place x result }
    {
        self.fronts.places().writer(place)
    }

    /// The release of an acquire. There is none exactly where its section does not end.
    pub fn release(&self, place: u32) -> Option<u32>
        requires { (l : ℕ) × (op_at self.now.events place ≡ Some (Op.Acquire l)) }
        ensures { (r : ℕ) → (result ≡ Some r) ↔ IsReleaseOf self.now.events place r }
    {
        self.fronts.places().release(place)
    }

    /// The latest section of the thread of a place that is open just behind the place, by its acquire.
    pub fn opened(&self, place: u32) -> Option<u32>
        requires { place < length self.now.events }
        ensures { IsOpened self.now.events place result }
    {
        self.fronts.opened(place)
    }

    /// The latest section of the thread of a place that is open just before the place, by its acquire.
    pub fn outer(&self, place: u32) -> Option<u32>
        requires { place < length self.now.events }
        ensures { IsOuter self.now.events place result }
    {
        self.fronts.outer(place)
    }

    /// For each thread its first acquire behind an acquire of the same lock, or the number of all events.
    pub fn next(&self, acquire: u32) -> &[u32]
        requires { IsAcquire self.now.events acquire }
        ensures { IsNextRow self.now.events self.now.threads acquire result.now }
    {
        self.fronts.next(acquire)
    }

    /// Whether it is told at once that a place is in each closed set that holds all places before a later one in program
    /// order.
    pub fn precedes(&self, place: u32, later: u32) -> bool
        requires place { place < length self.now.events }
        requires later { later < length self.now.events }
        ensures { IsTrue result → IsImplied self.now.events later place }
    {
        self.fronts.precedes(place, later)
    }

    /// The places that read or write a variable, in the order of the trace.
    pub fn accesses(&self, var: VarId) -> &[u32]
        ensures { AreAccesses self.now.events var result.now }
    {
        place_lists::list(&self.accesses, var.value() as usize)
    }

    // The acquires of a lock by a thread, in the order of the trace.
    fn acquires(&self, lock: LockId, thread: ThreadId) -> &[u32]
        ensures { AreAcquires self.now.events lock thread result.now }
    {
        // A trace names only threads below its number of threads, as its length says.
        let trace = self.trace();
        let _ = trace.len();
        let threads = trace.threads();
        if thread.value() >= threads {
            return &[];
        }
        place_lists::list(&self.acquires, pair(threads, lock, thread))
    }

    /// The section of that number, from 0 in the order of the trace, of a lock by a thread. None exactly where the
    /// thread has at most so many sections of the lock. It is one step.
    pub fn next_section<L: Ledger>(
        &self,
        lock: LockId,
        thread: ThreadId,
        number: u32,
        steps: &mut Steps<L>,
    ) -> Option<Section>
        ensures section { IsSectionAt self.now.events lock thread number result }
        ensures steps { steps.new ≡ steps.old + 1 }
    {
        steps.tick();
        let Some(acquire) = self.acquires(lock, thread).get(number as usize) else {
            return None;
        };
        Some(Section {
            acquire: *acquire,
            release: self.release(*acquire),
        })
    }

    /// The number of the section of an acquire, from 0, among the sections of its lock by its thread.
    pub fn section_number(&self, acquire: u32) -> u32
        requires { IsAcquire self.now.events acquire }
        ensures { IsSectionNumber self.now.events acquire result }
    {
        // A trace names only threads below its number of threads, as its length says.
        let _ = self.trace().len();
        self.positions[acquire as usize]
    }

    /// The held set of an acquire: the numbers of the locks that its thread holds just before it, from the least on.
    pub fn held(&self, place: u32) -> &[u32]
        requires { IsAcquire self.now.events place }
        ensures { IsHeldSet self.now.events place result.now }
    {
        self.sets.set(self.held[place as usize] as usize)
    }

    /// The first acquire of the trace whose held set is that of an acquire. So two acquires have one held set exactly
    /// where this place is the same.
    pub fn first_alike(&self, place: u32) -> u32
        requires { IsAcquire self.now.events place }
        ensures { IsFirstAlike self.now.events place result }
    {
        self.firsts[self.held[place as usize] as usize]
    }

    /// Whether a lock is in the held set of an acquire.
    pub fn holds(&self, place: u32, lock: LockId) -> bool
        requires { IsAcquire self.now.events place }
        ensures { IsTrue result ↔ IsHeldAt self.now.events place lock }
    {
        lock_sets::has(self.held(place), lock.value())
    }

    /// Whether the held sets of two acquires are equal.
    pub fn same_held(&self, a: u32, b: u32) -> bool
        requires a { IsAcquire self.now.events a }
        requires b { IsAcquire self.now.events b }
        ensures { IsTrue result ↔ HaveSameHeld self.now.events a b }
    {
        self.held[a as usize] == self.held[b as usize]
    }

    /// Whether the held sets of two acquires have no lock in common.
    pub fn apart(&self, a: u32, b: u32) -> bool
        requires a { IsAcquire self.now.events a }
        requires b { IsAcquire self.now.events b }
        ensures { IsTrue result ↔ HaveNoneCommon self.now.events a b }
    {
        lock_sets::are_apart(self.held(a), self.held(b))
    }
}
