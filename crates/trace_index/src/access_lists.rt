// The accesses of each variable.
ghost use Rattle.std.specs.Prelude.{ℕ, ◌<◌, ◌+◌, length, IfOk, IfNone, IfSome, OnOk};
ghost use Rattle.trace_laws.specs.Reordering.{Accesses};
ghost use Rattle.trace_index.specs.Accessed.{AreAccessLists};

use crate::place_lists;
use sp_base::{OutOfMemory, VarId};
use std::alloc::Global;
use trace_laws::{Op, Trace};

/// For each variable its accesses among the noted places.
#[derive(Drop)]
pub struct AccessLists {
    alloc: Global,
    pub lists: Vec<Vec<u32>>,
}

// The variable that a place reads or writes.
fn variable_at(trace: &Trace, place: u32) -> Option<VarId>
    requires { place < length trace.now.events }
    ensures none { IfNone result ((x : ℕ) → Accesses trace.now.events place x → ⊥) }
    ensures some { IfSome result (Accesses trace.now.events place) }
{
    match &trace.event(place).op {
        Op::Read(var) | Op::Write(var) => Some(*var),
        _ => None,
    }
}

impl AccessLists {
    /// No place of the trace is noted.
    pub fn new(alloc: Global, trace: &Trace) -> AccessLists
        ensures { AreAccessLists trace.now.events 0 result.lists.items }
    {
        let _ = trace;
        AccessLists {
            alloc,
            lists: Vec::new(alloc),
        }
    }

    /// Notes the next place.
    pub fn note(&mut self, trace: &Trace, place: u32) -> Result<(), OutOfMemory>
        requires place { place < length trace.now.events }
        requires noted { AreAccessLists trace.now.events place self.old.lists.items }
        ensures { OnOk result (AreAccessLists trace.now.events (place + 1) self.new.lists.items) }
    {
        let Some(var) = variable_at(trace, place) else {
            return Ok(());
        };
        let number = var.value() as usize;
        place_lists::add(self.alloc, &mut self.lists, number, place)?;
        Ok(())
    }
}
