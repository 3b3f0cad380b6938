// The releases of acquires.
ghost use Rattle.std.specs.Prelude.{◌<◌, ◌+◌, length, IfOk};
ghost use Rattle.closed_fronts.specs.Sections.{AreReleases};

use sp_base::MAX_LOCKS;
use std::alloc::{AllocError, Global};
use trace_laws::{Op, Trace};

/// For each lock the acquire since which it is held at the noted places, and for each acquire its release.
#[derive(Drop)]
pub struct Sections {
    held: Vec<Option<u32>>,
    pub releases: Vec<Option<u32>>,
}

impl Sections {
    /// No place of the trace is noted.
    pub fn new(alloc: Global, trace: &Trace) -> Result<Sections, AllocError>
        ensures { IfOk result (λ s. AreReleases trace.now.events 0 s.held.items s.releases.items) }
    {
        Ok(Sections {
            held: vec![in alloc; None; MAX_LOCKS as usize]?,
            releases: vec![in alloc; None; trace.len() as usize]?,
        })
    }

    /// Notes the next place: an acquire opens a section, and a release ends it.
    pub fn note(&mut self, trace: &Trace, place: u32)
        requires place { place < length trace.now.events }
        requires noted { AreReleases trace.now.events place self.old.held.items self.old.releases.items }
        ensures { AreReleases trace.now.events (place + 1) self.new.held.items self.new.releases.items }
    {
        // A trace is lawful, as its length says.
        let _ = trace.len();
        match &trace.event(place).op {
            Op::Acquire(lock) => self.held[lock.value() as usize] = Some(place),
            Op::Release(lock) => {
                let lock = lock.value() as usize;
                let since = self.held[lock];
                self.held[lock] = None;
                if let Some(acquire) = since {
                    self.releases[acquire as usize] = Some(place);
                }
            }
            _ => {}
        }
    }
}
