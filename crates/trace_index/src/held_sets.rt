// The held sets of acquires.
ghost use Rattle.std.specs.Prelude.{◌<◌, ◌+◌, length, IfOk, OnOk};
ghost use Rattle.trace_index.specs.HeldSets.{AreHoldings, AreHeldSets};

use crate::holdings::Holdings;
use crate::set_numbers::SetNumbers;
use sp_base::OutOfMemory;
use std::alloc::Global;
use trace_laws::{Op, Trace};

/// The held sets of the noted acquires, for each of them its first acquire, and for each noted acquire the number of its set.
#[derive(Drop)]
pub struct HeldSets {
    pub sets: SetNumbers,
    pub firsts: Vec<u32>,
    pub numbers: Vec<u32>,
}

impl HeldSets {
    /// No place of the trace is noted.
    pub fn new(alloc: Global, trace: &Trace) -> Result<HeldSets, OutOfMemory>
        ensures { IfOk result (λ h. AreHeldSets trace.now.events 0 h.sets h.firsts.items h.numbers.items) }
    {
        Ok(HeldSets {
            sets: SetNumbers::new(alloc),
            firsts: Vec::new(alloc),
            numbers: vec![in alloc; 0; trace.len() as usize]?,
        })
    }

    /// Notes the next place: an acquire gets the number of what its thread holds behind the places before it.
    pub fn note(
        &mut self,
        trace: &Trace,
        place: u32,
        holdings: &Holdings,
    ) -> Result<(), OutOfMemory>
        requires place { place < length trace.now.events }
        requires holdings { AreHoldings trace.now.events place holdings.now.held.items }
        requires noted { AreHeldSets trace.now.events place self.old.sets self.old.firsts.items self.old.numbers.items }
        ensures { OnOk result (AreHeldSets trace.now.events (place + 1) self.new.sets self.new.firsts.items self.new.numbers.items) }
    {
        let Op::Acquire(_) = &trace.event(place).op else {
            return Ok(());
        };
        // A trace is not too long, as its length says.
        let _ = trace.len();
        let thread = trace.event(place).thread.value() as usize;
        let number = self.sets.number(&holdings.held[thread])?;
        self.numbers[place as usize] = number as u32;
        if number < self.firsts.len() {
            return Ok(());
        }
        let Ok(()) = self.firsts.push(place) else {
            return Err(OutOfMemory);
        };
        Ok(())
    }
}
