// The numbers of places within their threads.
ghost use Rattle.std.specs.Prelude.{◌<◌, ◌+◌, length, IfOk};
ghost use Rattle.closed_fronts.specs.Numbers.{AreNumbered};

use sp_base::MAX_THREADS;
use std::alloc::{AllocError, Global};
use trace_laws::Trace;

/// For each thread how many of its places were noted, and for each noted place its number within its thread.
#[derive(Drop)]
pub struct Locals {
    counts: Vec<u32>,
    pub numbers: Vec<u32>,
}

impl Locals {
    /// No place of the trace is noted.
    pub fn new(alloc: Global, trace: &Trace) -> Result<Locals, AllocError>
        ensures { IfOk result (λ locals. AreNumbered trace.now.events 0 locals.counts.items locals.numbers.items) }
    {
        Ok(Locals {
            counts: vec![in alloc; 0; MAX_THREADS as usize]?,
            numbers: vec![in alloc; 0; trace.len() as usize]?,
        })
    }

    /// Notes the next place.
    pub fn note(&mut self, trace: &Trace, place: u32)
        requires place { place < length trace.now.events }
        requires noted { AreNumbered trace.now.events place self.old.counts.items self.old.numbers.items }
        ensures { AreNumbered trace.now.events (place + 1) self.new.counts.items self.new.numbers.items }
    {
        // A trace is not too long, as its length says.
        let _ = trace.len();
        let thread = trace.event(place).thread.value() as usize;
        let number = self.counts[thread];
        self.numbers[place as usize] = number;
        self.counts[thread] = number + 1;
    }
}
