// The places that lead to the next place of each thread.
ghost use Rattle.std.specs.Prelude.{ℕ, ◌≡◌, ◌<◌, ◌+◌, length, IfOk, Some, None, slice_get, slice_set};
ghost use Rattle.trace_laws.specs.Traces.{NamesBelow};
ghost use Rattle.closed_fronts.specs.Tables.{AreTips, with_fork};

use crate::places::Places;
use crate::table::entry;
use std::alloc::{AllocError, Global};
use trace_laws::{Event, Op, Trace};

/// For each thread its latest place among the noted ones, or its fork where there is none.
#[derive(Drop)]
pub struct Tips {
    places: Vec<Option<u32>>,
}

impl Tips {
    /// No place of the trace is noted.
    pub fn new(alloc: Global, trace: &Trace) -> Result<Tips, AllocError>
        ensures { IfOk result (λ tips. AreTips trace.now.events trace.now.threads 0 tips.places.items) }
    {
        Ok(Tips {
            places: vec![in alloc; None; trace.threads() as usize]?,
        })
    }

    /// The latest noted place that is of the thread of an event or forks it.
    pub fn own(&self, event: &Event) -> Option<u32>
        requires { event.now.thread < length self.now.places.items }
        ensures { slice_get self.now.places.items event.now.thread ≡ Some result }
    {
        entry(&self.places, u32::from(event.thread.value()))
    }

    /// The latest noted place that is of the thread that an event joins or forks it.
    pub fn joined(&self, event: &Event) -> Option<u32>
        requires { (u : ℕ) → event.now.op ≡ Op.Join u → u < length self.now.places.items }
        ensures some { (u : ℕ) → event.now.op ≡ Op.Join u → slice_get self.now.places.items u ≡ Some result }
        ensures none { ((u : ℕ) → event.now.op ≡ Op.Join u → ⊥) → result ≡ None }
    {
        match &event.op {
            Op::Join(thread) => entry(&self.places, u32::from(thread.value())),
            _ => None,
        }
    }

    // Notes the place of the event as the latest of its thread.
    fn note_own(&mut self, event: &Event, place: u32)
        requires { event.now.thread < length self.old.places.items }
        ensures { self.new.places.items ≡ slice_set self.old.places.items event.now.thread (Some place) }
    {
        self.places[event.thread.value() as usize] = Some(place);
    }

    // Notes the place of the event, where it forks a thread.
    fn note_fork(&mut self, event: &Event, place: u32)
        requires { (u : ℕ) → event.now.op ≡ Op.Fork u → u < length self.old.places.items }
        ensures { self.new.places.items ≡ with_fork self.old.places.items event.now.op place }
    {
        if let Op::Fork(thread) = &event.op {
            self.places[thread.value() as usize] = Some(place);
        }
    }

    /// Notes the next place, at which the event stands.
    pub fn note(&mut self, places: &Places<'_>, event: &Event, place: u32)
        requires event { slice_get places.now.events place ≡ Some event.now }
        requires thread { event.now.thread < places.now.threads }
        requires named { NamesBelow event.now.op places.now.threads }
        requires noted { AreTips places.now.events places.now.threads place self.old.places.items }
        ensures { AreTips places.now.events places.now.threads (place + 1) self.new.places.items }
    {
        self.note_own(event, place);
        self.note_fork(event, place);
    }
}
