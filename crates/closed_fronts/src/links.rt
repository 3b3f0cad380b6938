// What leads to each place, and which sections are open there.
ghost use Rattle.std.specs.Prelude.{◌≡◌, ◌<◌, ◌+◌, length, IfOk, OnOk, Some, slice_get};
ghost use Rattle.trace_laws.specs.Traces.{NamesBelow};
ghost use Rattle.closed_fronts.specs.Linked.{AreLinked};

use crate::heads::Heads;
use crate::places::Places;
use crate::tips::Tips;
use std::alloc::{AllocError, Global};
use trace_laws::{Event, Trace};

/// For each noted place the latest places before it of its thread and of the thread that it joins, and the latest open
/// section of its thread before it and behind it.
#[derive(Drop)]
pub struct Links {
    tips: Tips,
    heads: Heads,
    pub own: Vec<Option<u32>>,
    pub joined: Vec<Option<u32>>,
    pub outer: Vec<Option<u32>>,
    pub opened: Vec<Option<u32>>,
}

impl Links {
    // No place of the trace is noted.
    fn new(alloc: Global, trace: &Trace) -> Result<Links, AllocError>
        ensures { IfOk result (AreLinked trace.now.events trace.now.threads 0) }
    {
        Ok(Links {
            tips: Tips::new(alloc, trace)?,
            heads: Heads::new(alloc, trace)?,
            own: Vec::new(alloc),
            joined: Vec::new(alloc),
            outer: Vec::new(alloc),
            opened: Vec::new(alloc),
        })
    }

    // Notes the next place, at which the event stands.
    fn note(&mut self, places: &Places<'_>, event: &Event, place: u32) -> Result<(), AllocError>
        requires event { slice_get places.now.events place ≡ Some event.now }
        requires thread { event.now.thread < places.now.threads }
        requires named { NamesBelow event.now.op places.now.threads }
        requires linked { AreLinked places.now.events places.now.threads place self.old }
        ensures { OnOk result (AreLinked places.now.events places.now.threads (place + 1) self.new) }
    {
        self.own.push(self.tips.own(event))?;
        self.joined.push(self.tips.joined(event))?;
        self.outer.push(self.heads.head(event))?;
        self.tips.note(places, event, place);
        self.heads.note(places, &self.outer, event, place);
        self.opened.push(self.heads.head(event))?;
        Ok(())
    }
}

/// The links of all places.
pub fn link(alloc: Global, places: &Places<'_>) -> Result<Links, AllocError>
    ensures { IfOk result (AreLinked places.now.events places.now.threads (length places.now.events)) }
{
    let trace = places.trace();
    let mut links = Links::new(alloc, trace)?;
    for place in 0..trace.len() {
        let event = trace.event(place);
        links.note(places, &event, place)?;
    }
    Ok(links)
}
