//! A closed set of places that grows.

ghost use Rattle.std.specs.Prelude.{ℕ, ◌≡◌, ◌<◌, ◌≤◌, ◌+◌, ◌⊎◌, IsTrue, IfOk, length};
ghost use Rattle.trace_laws.specs.Trace.{Before};
ghost use Rattle.trace_laws.specs.Closed.{ClosedSet, IsClosure};
ghost use Rattle.closed_fronts.specs.Cuts.{flags_of};
ghost use Rattle.closed_fronts.specs.Rows.{IsSteady};
ghost use Rattle.sp_closure.specs.Members.{has, AreCounts, IsEmpty, IsAtMostSections};

use crate::mending::grow;
use closed_fronts::Fronts;
use sp_base::{OutOfMemory, Steps};
use std::alloc::{AllocError, Global};
use std::marker::{Brand, Model};
use std::sync::ledger::Ledger;
use trace_index::Index;

/// A closed set of places of a trace, and how many members each thread has. To grow it to a place takes time in proportion
/// to the threads of the trace, and as much again for each section whose end it has to take in. Each such section is asked
/// of the index.
///
/// Contracts see the trace, the set, and how often a section was asked since the set was last empty.
#[derive(Drop)]
pub struct Cursor<'a> {
    index: &'a Index<'a>,
    cuts: Vec<u32>,
    counts: Vec<u32>,
    asked: Steps<Brand>,
}

impl<'a> Model for Cursor<'a> {
    ghost use Rattle.sp_closure.specs.Members.{PlaceSet};

    ghost Value = { PlaceSet };

    ghost use Rattle.sp_closure.specs.Cursors.{set_in, IsGrown};

    ghost view = { set_in };

    ghost invariant = { IsGrown };
}

// Counts the places of each thread below its cut.
fn count_all(fronts: &Fronts<'_>, cuts: &[u32], counts: &mut [u32])
    requires steady { IsSteady fronts.now.events fronts.now.threads cuts.now }
    requires size { length counts.old ≡ fronts.now.threads }
    ensures { AreCounts fronts.now.events fronts.now.threads (has (flags_of fronts.now.events cuts.now)) counts.new }
{
    for thread in 0..fronts.threads() {
        counts[thread as usize] = fronts.count(thread, cuts[thread as usize]);
    }
}

impl<'a> Cursor<'a> {
    /// The empty set of places of the trace of an index. The only error is want of memory.
    pub fn new(alloc: Global, index: &'a Index<'a>) -> Result<Cursor<'a>, OutOfMemory>
        ensures trace { IfOk result (λ cursor. cursor.trace ≡ index.now) }
        ensures empty { IfOk result (λ cursor. IsEmpty cursor.members) }
        ensures closed { IfOk result (λ cursor. ClosedSet cursor.trace.events (has cursor.members)) }
        ensures asked { IfOk result (λ cursor. cursor.asked ≡ 0) }
    {
        match Cursor::with_room(alloc, index) {
            Ok(cursor) => Ok(cursor),
            Err(_) => Err(OutOfMemory),
        }
    }

    // The same, with the error of the allocator.
    fn with_room(alloc: Global, index: &'a Index<'a>) -> Result<Cursor<'a>, AllocError>
        ensures trace { IfOk result (λ cursor. cursor.trace ≡ index.now) }
        ensures empty { IfOk result (λ cursor. IsEmpty cursor.members) }
        ensures closed { IfOk result (λ cursor. ClosedSet cursor.trace.events (has cursor.members)) }
        ensures asked { IfOk result (λ cursor. cursor.asked ≡ 0) }
    {
        let threads = index.fronts().threads() as usize;
        let cuts = vec![in alloc; 0; threads]?;
        let counts = vec![in alloc; 0; threads]?;
        Ok(Cursor {
            index,
            cuts,
            counts,
            asked: Steps::new(),
        })
    }

    /// The set becomes the least closed set that holds it and all places before the place in program order. It is one step,
    /// and one more for each section that is asked. No section is asked twice until the set is empty again.
    pub fn raise<L: Ledger>(&mut self, place: u32, steps: &mut Steps<L>)
        requires { place < length self.old.trace.events }
        ensures trace { self.new.trace ≡ self.old.trace }
        ensures closure { IsClosure self.old.trace.events (λ i. IsTrue (has self.old.members i) ⊎ Before self.old.trace.events i place) (has self.new.members) }
        ensures rises { self.old.asked ≤ self.new.asked }
        ensures few { IsAtMostSections self.new.trace.events self.new.asked }
        ensures steps { steps.new + self.old.asked ≡ steps.old + self.new.asked + 1 }
    {
        grow(self.index, &mut self.cuts, place, &mut self.asked, steps);
        count_all(self.index.fronts(), &self.cuts, &mut self.counts);
    }

    /// Whether the place is in the set.
    pub fn has(&self, place: u32) -> bool
        requires { place < length self.now.trace.events }
        ensures { result ≡ has self.now.members place }
    {
        let event = self.index.fronts().event(place);
        place < self.cuts[event.thread.value() as usize]
    }

    /// How many members each thread has: a number for each thread of the trace.
    pub fn counts(&self) -> &[u32]
        ensures { AreCounts self.now.trace.events self.now.trace.threads (has self.now.members) result.now }
    {
        &self.counts
    }

    /// The set becomes empty.
    pub fn reset(&mut self)
        ensures trace { self.new.trace ≡ self.old.trace }
        ensures empty { IsEmpty self.new.members }
        ensures closed { ClosedSet self.new.trace.events (has self.new.members) }
        ensures asked { self.new.asked ≡ 0 }
    {
        self.cuts.fill(0);
        self.counts.fill(0);
        self.asked = Steps::new();
    }
}
