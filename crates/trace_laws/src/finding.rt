//! What is found in a trace.

ghost use Rattle.std.specs.Prelude.{◌≡◌, ◌≤◌, length, IfOk};

use sp_base::{MIN_SIZE, OutOfMemory};
use std::alloc::Global;
use std::marker::Model;

/// The most places that a deadlock keeps.
const MAX_PICKS: usize = 6;

/// A race: a place, and the earlier place that it races with. Places count from 0.
#[derive(Clone, Copy, PartialEq, Eq, Debug)]
pub struct Race {
    /// The later of the two places.
    pub later: u32,
    /// The earlier of the two places.
    pub earlier: u32,
}

/// The places of a deadlock, one acquire for each class of its pattern and at least two of them, kept without memory.
///
/// Contracts see the list of the places.
#[derive(Drop, Debug)]
pub struct Deadlock {
    picks: [u32; MAX_PICKS],
    size: u8,
}

impl Model for Deadlock {
    ghost use Rattle.std.specs.Prelude.{List, ℕ, ◌≤◌, take};
    ghost use Rattle.sp_base.specs.declared.limits.TheConstants.{MIN_SIZE};
    ghost use Rattle.trace_laws.specs.declared.finding.TheConstants.{MAX_PICKS};

    ghost Value = { List ℕ };

    ghost view = { λ d. take d.size d.picks };

    ghost invariant = { λ d. (MIN_SIZE ≤ d.size) × (d.size ≤ MAX_PICKS) };
}

impl Deadlock {
    /// The deadlock of these places, in the order of its pattern.
    pub fn new(picks: &[u32]) -> Deadlock
        requires least { MIN_SIZE ≤ length picks.now }
        requires most { length picks.now ≤ MAX_PICKS }
        ensures { result ≡ picks.now }
    {
        let mut places = [0; MAX_PICKS];
        places[..picks.len()].copy_from_slice(picks);
        Deadlock {
            picks: places,
            size: picks.len() as u8,
        }
    }

    /// The places, in the order of the pattern.
    pub fn picks(&self) -> &[u32]
        ensures value { result.now ≡ self.now }
        ensures least { MIN_SIZE ≤ length self.now }
        ensures most { length self.now ≤ MAX_PICKS }
    {
        &self.picks[..self.size as usize]
    }
}

/// The keep of a finding: for each thread, how many of its events the finding needs.
///
/// Contracts see the list of the counts.
#[derive(Drop, Debug)]
pub struct Keep {
    counts: Vec<u32>,
}

impl Model for Keep {
    ghost use Rattle.std.specs.Prelude.{List, ℕ};

    ghost Value = { List ℕ };

    ghost view = { λ k. k.counts.items };
}

impl Keep {
    /// The keep of these counts, one for each thread.
    pub fn new(alloc: Global, counts: &[u32]) -> Result<Keep, OutOfMemory>
        ensures { IfOk result (λ keep. keep ≡ counts.now) }
    {
        Ok(Keep {
            counts: Vec::from_slice(alloc, counts)?,
        })
    }

    /// The counts, one for each thread.
    pub fn counts(&self) -> &[u32]
        ensures { result.now ≡ self.now }
    {
        &self.counts
    }
}

/// A race or a deadlock, with its keep.
#[derive(Drop, Debug)]
pub enum Finding {
    /// A race.
    Race(Race, Keep),
    /// A deadlock.
    Deadlock(Deadlock, Keep),
}
