// What the places of a trace are tied to.
ghost use Rattle.std.specs.Prelude.{ℕ, ◌≡◌, ◌<◌, ◌≤◌, ◌↔◌, length, IfOk, Some, slice_get};
ghost use Rattle.trace_laws.specs.Trace.{IsReleaseOf};
ghost use Rattle.trace_laws.specs.Traces.{IsTrace, NamesBelow};
ghost use Rattle.trace_laws.specs.Kept.{local_of};
ghost use Rattle.closed_fronts.specs.Tables.{IsAcquire, IsLatest, IsOwnBefore, IsJoinBefore, IsOuter, IsOpened, IsNextRow};
ghost use Rattle.closed_fronts.specs.Needs.{IsWriterOfRead};

use crate::links::link;
use crate::places::Places;
use crate::table::entry;
use crate::upcoming::next_rows;
use sp_base::{MAX_EVENTS, OutOfMemory};
use std::alloc::Global;
use std::marker::Model;
use trace_laws::{Event, Op, Trace};

/// The tables on a trace, with the places that lead to each place, the open sections of its thread before and behind it,
/// and for each acquire the next acquires of its lock.
#[derive(Drop)]
pub struct Ties<'a> {
    places: Places<'a>,
    own: Vec<Option<u32>>,
    joined: Vec<Option<u32>>,
    outer: Vec<Option<u32>>,
    opened: Vec<Option<u32>>,
    next: Vec<Vec<u32>>,
}

impl<'a> Model for Ties<'a> {
    ghost use Rattle.trace_laws.specs.Traces.{History};

    ghost Value = { History };

    ghost use Rattle.closed_fronts.specs.Tied.{history_in, AreTied};

    ghost view = { history_in };

    ghost invariant = { AreTied };
}

impl<'a> Ties<'a> {
    /// The ties of a trace. The only error is want of memory.
    pub fn build(alloc: Global, trace: &'a Trace) -> Result<Ties<'a>, OutOfMemory>
        ensures { IfOk result (λ ties. ties ≡ trace.now) }
    {
        let places = Places::build(alloc, trace)?;
        let links = link(alloc, &places)?;
        let next = next_rows(alloc, trace)?;
        Ok(Ties {
            places,
            own: links.own,
            joined: links.joined,
            outer: links.outer,
            opened: links.opened,
            next,
        })
    }

    /// The tables on the trace.
    pub fn places(&self) -> &Places<'a>
        ensures { result.now ≡ self.now }
    {
        &self.places
    }

    /// How many events there are. A trace is lawful.
    pub fn len(&self) -> u32
        ensures value { result ≡ length self.now.events }
        ensures trace { IsTrace self.now.events self.now.threads }
    {
        self.places.trace().len()
    }

    /// How many threads there are.
    pub fn threads(&self) -> u16
        ensures { result ≡ self.now.threads }
    {
        self.places.trace().threads()
    }

    /// The event at a place.
    pub fn event(&self, place: u32) -> Event
        requires { place < length self.now.events }
        ensures event { slice_get self.now.events place ≡ Some result }
        ensures thread { result.thread < self.now.threads }
        ensures named { NamesBelow result.op self.now.threads }
        ensures few { length self.now.events ≤ MAX_EVENTS }
    {
        self.places.trace().event(place)
    }

    /// The latest place before the place that is of its thread or forks that.
    pub fn own(&self, place: u32) -> Option<u32>
        requires { place < length self.now.events }
        ensures { IsLatest (IsOwnBefore self.now.events place) result }
    {
        entry(&self.own, place)
    }

    /// Where the place is a join: the latest place before it that is of the joined thread or forks that.
    pub fn joined(&self, place: u32) -> Option<u32>
        requires { place < length self.now.events }
        ensures { IsLatest (IsJoinBefore self.now.events place) result }
    {
        entry(&self.joined, place)
    }

    /// The latest open section of its thread just before the place.
    pub fn outer(&self, place: u32) -> Option<u32>
        requires { place < length self.now.events }
        ensures { IsOuter self.now.events place result }
    {
        entry(&self.outer, place)
    }

    /// The latest open section of its thread just behind the place.
    pub fn opened(&self, place: u32) -> Option<u32>
        requires { place < length self.now.events }
        ensures { IsOpened self.now.events place result }
    {
        entry(&self.opened, place)
    }

    /// For each thread the next acquire of the lock of an acquire.
    pub fn next(&self, acquire: u32) -> &[u32]
        requires { IsAcquire self.now.events acquire }
        ensures { IsNextRow self.now.events self.now.threads acquire result.now }
    {
        &self.next[acquire as usize]
    }

    /// The number of a place within its thread.
    pub fn local(&self, place: u32) -> u32
        requires { place < length self.now.events }
        ensures { result ≡ local_of self.now.events place }
    {
        self.places.local(place)
    }

    /// The writer of the place, where that is a read that has one.
    pub fn writer(&self, place: u32) -> Option<u32>
        requires { place < length self.now.events }
        ensures { (w : ℕ) → (result ≡ Some w) ↔ IsWriterOfRead self.now.events place w }
    {
        match &self.places.trace().event(place).op {
            Op::Read(_) => self.places.writer(place),
            _ => None,
        }
    }

    /// The release of an acquire, where it has one.
    pub fn release(&self, acquire: u32) -> Option<u32>
        requires { IsAcquire self.now.events acquire }
        ensures { (r : ℕ) → (result ≡ Some r) ↔ IsReleaseOf self.now.events acquire r }
    {
        self.places.release(acquire)
    }
}
