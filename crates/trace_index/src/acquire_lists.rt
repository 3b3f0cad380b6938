// The acquires of each lock by each thread.
ghost use Rattle.std.specs.Prelude.{◌≡◌, ◌<◌, ◌+◌, ◌^◌, length, IfOk, OnOk};
ghost use Rattle.trace_index.specs.Listed.{AreListed};
ghost use Rattle.trace_index.specs.Acquired.{IsAcquireOfPair, ArePositions, pair_of};

use crate::place_lists;
use sp_base::{LockId, OutOfMemory, ThreadId};
use std::alloc::Global;
use trace_laws::{Op, Trace};

/// For each lock and thread the acquires among the noted places, and for each of these its position there.
#[derive(Drop)]
pub struct AcquireLists {
    alloc: Global,
    pub lists: Vec<Vec<u32>>,
    pub positions: Vec<u32>,
}

/// The number of a lock and a thread, where there are so many threads.
pub fn pair(threads: u16, lock: LockId, thread: ThreadId) -> usize
    ensures value { result ≡ pair_of threads lock thread }
    ensures below { result < 2 ^ 32 }
{
    lock.value() as usize * threads as usize + thread.value() as usize
}

impl AcquireLists {
    /// No place of the trace is noted.
    pub fn new(alloc: Global, trace: &Trace) -> Result<AcquireLists, OutOfMemory>
        ensures listed { IfOk result (λ a. AreListed (IsAcquireOfPair trace.now.events trace.now.threads) 0 a.lists.items) }
        ensures positions { IfOk result (λ a. ArePositions trace.now.events trace.now.threads 0 a.lists.items a.positions.items) }
    {
        Ok(AcquireLists {
            alloc,
            lists: Vec::new(alloc),
            positions: vec![in alloc; 0; trace.len() as usize]?,
        })
    }

    /// Notes the next place.
    pub fn note(&mut self, trace: &Trace, place: u32) -> Result<(), OutOfMemory>
        requires place { place < length trace.now.events }
        requires noted { AreListed (IsAcquireOfPair trace.now.events trace.now.threads) place self.old.lists.items }
        requires positions { ArePositions trace.now.events trace.now.threads place self.old.lists.items self.old.positions.items }
        ensures noted { OnOk result (AreListed (IsAcquireOfPair trace.now.events trace.now.threads) (place + 1) self.new.lists.items) }
        ensures positions { OnOk result (ArePositions trace.now.events trace.now.threads (place + 1) self.new.lists.items self.new.positions.items) }
    {
        // A trace names only threads below its number of threads, as its length says.
        let _ = trace.len();
        let event = trace.event(place);
        let Op::Acquire(lock) = &event.op else {
            return Ok(());
        };
        let number = pair(trace.threads(), *lock, event.thread);
        place_lists::add(self.alloc, &mut self.lists, number, place)?;
        self.positions[place as usize] = (self.lists[number].len() - 1) as u32;
        Ok(())
    }
}
