// Listing the classes of a trace.
ghost use Rattle.std.specs.Prelude.{◌≡◌, ◌<◌, ◌+◌, [], length, Some, IfNone, IfSome, OnOk};
ghost use Rattle.trace_laws.specs.Trace.{op_at};
ghost use Rattle.trace_index.specs.HeldSets.{IsAcquire};
ghost use Rattle.lock_graph.specs.Listing.{AreNoted};

use crate::entry::{Entry, Key};
use indexmap::IndexSet;
use sp_base::{LockId, OutOfMemory};
use std::alloc::Global;
use trace_index::Index;
use trace_laws::{Op, Trace};

/// The classes of the noted acquires, each with its key.
#[derive(Drop)]
pub struct Listing<'a> {
    alloc: Global,
    keys: IndexSet<Key>,
    pub entries: Vec<Entry<'a>>,
}

// The lock that a place acquires.
fn acquired_at(trace: &Trace, place: u32) -> Option<LockId>
    requires { place < length trace.now.events }
    ensures none { IfNone result (IsAcquire trace.now.events place → ⊥) }
    ensures some { IfSome result (λ l. op_at trace.now.events place ≡ Some (Op.Acquire l)) }
{
    match &trace.event(place).op {
        Op::Acquire(lock) => Some(*lock),
        _ => None,
    }
}

impl<'a> Listing<'a> {
    /// No place is noted.
    pub fn new(alloc: Global) -> Listing<'a>
        ensures keys { result.keys.keys ≡ [] }
        ensures entries { result.entries.items ≡ [] }
    {
        Listing {
            alloc,
            keys: IndexSet::new(alloc),
            entries: Vec::new(alloc),
        }
    }

    /// Notes the next place: an acquire joins its class, or is the first of a new one.
    pub fn note(&mut self, index: &'a Index<'a>, place: u32) -> Result<(), OutOfMemory>
        requires place { place < length index.now.events }
        requires noted { AreNoted index.now.events place self.old.keys.keys self.old.entries.items }
        ensures { OnOk result (AreNoted index.now.events (place + 1) self.new.keys.keys self.new.entries.items) }
    {
        let Some(lock) = acquired_at(index.trace(), place) else {
            return Ok(());
        };
        let thread = index.trace().event(place).thread;
        let alike = index.first_alike(place);
        let key = Key {
            thread,
            lock,
            alike,
        };
        let Ok((class, new)) = self.keys.insert_full(key) else {
            return Err(OutOfMemory);
        };
        if !new {
            let Ok(()) = self.entries[class].acquires.push(place) else {
                return Err(OutOfMemory);
            };
            return Ok(());
        }
        let Ok(acquires) = vec![in self.alloc; place] else {
            return Err(OutOfMemory);
        };
        let entry = Entry {
            thread,
            lock,
            held: index.held(place),
            acquires,
        };
        let Ok(()) = self.entries.push(entry) else {
            return Err(OutOfMemory);
        };
        Ok(())
    }
}
