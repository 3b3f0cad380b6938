// Tables on the places of a trace.
ghost use Rattle.std.specs.Prelude.{ℕ, ◌≡◌, ◌<◌, ◌↔◌, length, IfOk, Some};
ghost use Rattle.trace_laws.specs.Trace.{Reads, IsWriter, IsReleaseOf};
ghost use Rattle.trace_laws.specs.Kept.{local_of};
ghost use Rattle.closed_fronts.specs.Tables.{IsAcquire};

use crate::locals::Locals;
use crate::sections::Sections;
use crate::writers::Writers;
use std::alloc::{AllocError, Global};
use std::marker::Model;
use trace_laws::Trace;

/// A trace, with the number of each place within its thread, the writer of each read and the release of each acquire.
///
/// Contracts see the trace.
#[derive(Drop)]
pub struct Places<'a> {
    trace: &'a Trace,
    locals: Vec<u32>,
    writers: Vec<Option<u32>>,
    releases: Vec<Option<u32>>,
}

impl<'a> Model for Places<'a> {
    ghost use Rattle.trace_laws.specs.Traces.{History};

    ghost Value = { History };

    ghost use Rattle.closed_fronts.specs.Placed.{history_in, ArePlaced};

    ghost view = { history_in };

    ghost invariant = { ArePlaced };
}

impl<'a> Places<'a> {
    /// The tables on a trace, made in one pass over it.
    pub fn build(alloc: Global, trace: &'a Trace) -> Result<Places<'a>, AllocError>
        ensures { IfOk result (λ places. places ≡ trace.now) }
    {
        let mut locals = Locals::new(alloc, trace)?;
        let mut writers = Writers::new(alloc, trace)?;
        let mut sections = Sections::new(alloc, trace)?;
        for place in 0..trace.len() {
            locals.note(trace, place);
            writers.note(trace, place);
            sections.note(trace, place);
        }
        Ok(Places {
            trace,
            locals: locals.numbers,
            writers: writers.writers,
            releases: sections.releases,
        })
    }

    /// The trace.
    pub fn trace(&self) -> &'a Trace
        ensures { result.now ≡ self.now }
    {
        self.trace
    }

    /// The number of a place within its thread: how many events of its thread stand before it.
    pub fn local(&self, place: u32) -> u32
        requires { place < length self.now.events }
        ensures { result ≡ local_of self.now.events place }
    {
        self.locals[place as usize]
    }

    /// The writer of a read: the last write of its variable before it, or none.
    pub fn writer(&self, place: u32) -> Option<u32>
        requires { (x : ℕ) × Reads self.now.events place x }
        ensures { (x : ℕ) → Reads self.now.events place x → IsWriter self.now.events ◌<◌ place x result }
    {
        self.writers[place as usize]
    }

    /// The release of an acquire. There is none exactly where its section does not end.
    pub fn release(&self, place: u32) -> Option<u32>
        requires { IsAcquire self.now.events place }
        ensures { (r : ℕ) → (result ≡ Some r) ↔ IsReleaseOf self.now.events place r }
    {
        self.releases[place as usize]
    }
}
