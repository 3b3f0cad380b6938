// The writers of reads.
ghost use Rattle.std.specs.Prelude.{◌<◌, ◌+◌, length, IfOk};
ghost use Rattle.closed_fronts.specs.Writers.{AreWriters};

use sp_base::MAX_VARS;
use std::alloc::{AllocError, Global};
use trace_laws::{Op, Trace};

/// For each variable its last write among the noted places, and for each noted read its writer.
#[derive(Drop)]
pub struct Writers {
    last: Vec<Option<u32>>,
    pub writers: Vec<Option<u32>>,
}

impl Writers {
    /// No place of the trace is noted.
    pub fn new(alloc: Global, trace: &Trace) -> Result<Writers, AllocError>
        ensures { IfOk result (λ w. AreWriters trace.now.events 0 w.last.items w.writers.items) }
    {
        Ok(Writers {
            last: vec![in alloc; None; MAX_VARS as usize]?,
            writers: vec![in alloc; None; trace.len() as usize]?,
        })
    }

    /// Notes the next place: the writer of a read, and a write as the last one of its variable.
    pub fn note(&mut self, trace: &Trace, place: u32)
        requires place { place < length trace.now.events }
        requires noted { AreWriters trace.now.events place self.old.last.items self.old.writers.items }
        ensures { AreWriters trace.now.events (place + 1) self.new.last.items self.new.writers.items }
    {
        match &trace.event(place).op {
            Op::Read(var) => self.writers[place as usize] = self.last[var.value() as usize],
            Op::Write(var) => self.last[var.value() as usize] = Some(place),
            _ => {}
        }
    }
}
