// The open sections of each thread.
ghost use Rattle.std.specs.Prelude.{◌≡◌, ◌<◌, ◌+◌, ◌↔◌, length, IfOk, IfSome, IsTrue, Some, slice_get};
ghost use Rattle.closed_fronts.specs.Tables.{IsAcquire, IsLatest, AreTold, AreHeads, IsOuter, IsOpen, HasEnded, IsCandidate, AreCandidates};

use crate::places::Places;
use crate::table::entry;
use std::alloc::{AllocError, Global};
use trace_laws::{Event, Op, Trace};

/// For each thread the latest of its acquires among the noted places whose section has not ended there.
#[derive(Drop)]
pub struct Heads {
    places: Vec<Option<u32>>,
}

// Whether the section of an acquire ends at or before a place.
fn has_ended(places: &Places<'_>, acquire: u32, place: u32) -> bool
    requires { IsAcquire places.now.events acquire }
    ensures { IsTrue result ↔ HasEnded places.now.events acquire place }
{
    match places.release(acquire) {
        Some(release) => release <= place,
        None => false,
    }
}

// Of acquires of a thread the latest, from a candidate on, whose section has not ended at the place.
fn settle(
    places: &Places<'_>,
    outer: &[Option<u32>],
    thread: u32,
    head: Option<u32>,
    place: u32,
) -> Option<u32>
    requires outer { AreTold (IsOuter places.now.events) outer.now }
    requires place { place < length outer.now }
    requires candidate { IfSome head (IsCandidate places.now.events thread place) }
    requires all { AreCandidates places.now.events thread place head }
    ensures { IsLatest (IsOpen places.now.events thread (place + 1)) result }
{
    let mut head = head;
    while let Some(acquire) = head {
        if !has_ended(places, acquire, place) {
            return head;
        }
        head = entry(outer, acquire);
    }
    None
}

impl Heads {
    /// No place of the trace is noted.
    pub fn new(alloc: Global, trace: &Trace) -> Result<Heads, AllocError>
        ensures { IfOk result (λ heads. AreHeads trace.now.events trace.now.threads 0 heads.places.items) }
    {
        Ok(Heads {
            places: vec![in alloc; None; trace.threads() as usize]?,
        })
    }

    /// The latest acquire of the thread of an event whose section has not ended.
    pub fn head(&self, event: &Event) -> Option<u32>
        requires { event.now.thread < length self.now.places.items }
        ensures { slice_get self.now.places.items event.now.thread ≡ Some result }
    {
        entry(&self.places, u32::from(event.thread.value()))
    }

    // The latest acquire of the thread of the event whose section may be open behind the place, at which it stands.
    fn start(&self, places: &Places<'_>, event: &Event, place: u32) -> Option<u32>
        requires event { slice_get places.now.events place ≡ Some event.now }
        requires noted { AreHeads places.now.events places.now.threads place self.now.places.items }
        requires thread { event.now.thread < length self.now.places.items }
        ensures candidate { IfSome result (IsCandidate places.now.events event.now.thread place) }
        ensures all { AreCandidates places.now.events event.now.thread place result }
    {
        match &event.op {
            Op::Acquire(_) => Some(place),
            _ => self.head(event),
        }
    }

    /// Notes the next place, at which the event stands.
    pub fn note(&mut self, places: &Places<'_>, outer: &[Option<u32>], event: &Event, place: u32)
        requires event { slice_get places.now.events place ≡ Some event.now }
        requires outer { AreTold (IsOuter places.now.events) outer.now }
        requires place { place < length outer.now }
        requires noted { AreHeads places.now.events places.now.threads place self.old.places.items }
        requires thread { event.now.thread < places.now.threads }
        ensures { AreHeads places.now.events places.now.threads (place + 1) self.new.places.items }
    {
        let thread = event.thread.value();
        let start = self.start(places, event, place);
        self.places[thread as usize] = settle(places, outer, u32::from(thread), start, place);
    }
}
