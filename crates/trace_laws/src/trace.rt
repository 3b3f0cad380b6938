//! Lawful traces.

ghost use Rattle.std.specs.Prelude.{◌≡◌, ◌<◌, ◌↔◌, IsTrue, length, slice_get};
ghost use Rattle.trace_laws.specs.Traces.{IsTrace};

use crate::Event;
use std::marker::Model;

/// A lawful list of events, and the number of threads.
///
/// Each trace is lawful, has at most `MAX_EVENTS` events, and names only threads below its number of threads, which is
/// at most `MAX_THREADS`. Contracts see the events and that number. Places count from 0.
#[derive(Drop)]
pub struct Trace {
    pub(crate) events: Vec<Event>,
    pub(crate) threads: u16,
}

impl Model for Trace {
    ghost use Rattle.trace_laws.specs.Traces.{History, IsTrace};

    ghost Value = { History };

    ghost view = { λ t. record { events = t.events.items; threads = t.threads } };

    ghost invariant = { λ t. IsTrace t.events.items t.threads };
}

impl Trace {
    /// How many events there are. Its contract also says what each trace promises.
    pub fn len(&self) -> u32
        ensures value { result ≡ length self.now.events }
        ensures trace { IsTrace self.now.events self.now.threads }
    {
        self.events.len() as u32
    }

    /// Whether there is no event.
    pub fn is_empty(&self) -> bool
        ensures { IsTrue result ↔ (length self.now.events ≡ 0) }
    {
        self.events.is_empty()
    }

    /// The number of threads: each thread that an event names is below it.
    pub fn threads(&self) -> u16
        ensures { result ≡ self.now.threads }
    {
        self.threads
    }

    /// The event at a place, which is below `len`.
    pub fn event(&self, place: u32) -> Event
        requires { place < length self.now.events }
        ensures { slice_get self.now.events place ≡ Some result }
    {
        self.events[place as usize]
    }
}
