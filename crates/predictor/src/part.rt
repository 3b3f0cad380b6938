// What one job of a search finds.
ghost use Rattle.std.specs.Prelude.{◌≡◌, []};

use std::alloc::Global;
use trace_laws::{Deadlock, Keep, Race};

/// What one job finds: the races of its variables, and the deadlocks of its patterns.
#[derive(Drop)]
pub struct Part {
    pub races: Vec<(Race, Keep)>,
    pub deadlocks: Vec<(Deadlock, Keep)>,
}

impl Part {
    /// No race and no deadlock.
    pub fn empty(alloc: Global) -> Part
        ensures races { result.races.items ≡ [] }
        ensures deadlocks { result.deadlocks.items ≡ [] }
    {
        Part {
            races: Vec::new(alloc),
            deadlocks: Vec::new(alloc),
        }
    }
}
