// The locks that threads hold.
ghost use Rattle.std.specs.Prelude.{◌<◌, ◌+◌, length, IfOk, OnOk};
ghost use Rattle.trace_index.specs.HeldSets.{AreHoldings};

use crate::lock_sets;
use sp_base::{MAX_THREADS, OutOfMemory, ThreadId};
use std::alloc::Global;
use trace_laws::{Op, Trace};

/// For each thread the locks that it holds behind the noted places, from the least on.
#[derive(Drop)]
pub struct Holdings {
    pub held: Vec<Vec<u32>>,
}

impl Holdings {
    /// No place of the trace is noted.
    pub fn new(alloc: Global, trace: &Trace) -> Result<Holdings, OutOfMemory>
        ensures { IfOk result (λ h. AreHoldings trace.now.events 0 h.held.items) }
    {
        let mut held = Vec::with_capacity(alloc, MAX_THREADS as usize)?;
        for _ in 0..MAX_THREADS {
            let Ok(()) = held.push(Vec::new(alloc)) else {
                return Err(OutOfMemory);
            };
        }
        Ok(Holdings { held })
    }

    /// Notes the next place: an acquire adds its lock to those of its thread, and a release takes it out.
    pub fn note(&mut self, trace: &Trace, place: u32) -> Result<(), OutOfMemory>
        requires place { place < length trace.now.events }
        requires noted { AreHoldings trace.now.events place self.old.held.items }
        ensures { OnOk result (AreHoldings trace.now.events (place + 1) self.new.held.items) }
    {
        // A trace is lawful, as its length says.
        let _ = trace.len();
        let thread = trace.event(place).thread.value() as usize;
        match &trace.event(place).op {
            Op::Acquire(lock) => lock_sets::insert(&mut self.held[thread], lock.value())?,
            Op::Release(lock) => lock_sets::remove(&mut self.held[thread], lock.value()),
            _ => {}
        }
        Ok(())
    }
}
