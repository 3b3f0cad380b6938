//! All that is found in a trace.

ghost use Rattle.std.specs.Prelude.{◌≡◌, ◌<◌, ◌+◌, [], length, OnOk, OnErr};
ghost use Rattle.trace_laws.specs.Stored.{Adds, IsAt};

use crate::Finding;
use sp_base::OutOfMemory;
use std::alloc::Global;
use std::marker::Model;

/// The most findings that a list has, so that each has a number.
const MAX_LISTED: u32 = u32::MAX;

/// What is found in a trace: races, and then deadlocks.
///
/// Contracts see the list of the races and the list of the deadlocks, each with its keep. The findings are numbered from
/// 0, the races first.
#[derive(Drop, Debug)]
pub struct Findings {
    races: Vec<Finding>,
    deadlocks: Vec<Finding>,
}

impl Model for Findings {
    ghost use Rattle.trace_laws.specs.Findings.{Found};

    ghost Value = { Found };

    ghost use Rattle.trace_laws.specs.Stored.{found_in, AreSorted};

    ghost view = { found_in };

    ghost invariant = { AreSorted };
}

impl Findings {
    /// Nothing is found.
    pub fn new(alloc: Global) -> Findings
        ensures races { result.races ≡ [] }
        ensures deadlocks { result.deadlocks ≡ [] }
    {
        Findings {
            races: Vec::new(alloc),
            deadlocks: Vec::new(alloc),
        }
    }

    /// Adds a finding as the last race or as the last deadlock. Without memory nothing changes.
    pub fn push(&mut self, finding: Finding) -> Result<(), OutOfMemory>
        requires few { length self.old.races + length self.old.deadlocks < MAX_LISTED }
        ensures ok { OnOk result (Adds self.old finding self.new) }
        ensures err { OnErr result (self.new ≡ self.old) }
    {
        let place = match &finding {
            Finding::Race(_, _) => self.races.push(finding),
            Finding::Deadlock(_, _) => self.deadlocks.push(finding),
        };
        let Ok(()) = place else {
            return Err(OutOfMemory);
        };
        Ok(())
    }

    /// How many findings there are.
    pub fn len(&self) -> u32
        ensures { result ≡ length self.now.races + length self.now.deadlocks }
    {
        (self.races.len() + self.deadlocks.len()) as u32
    }

    /// How many of the findings are races. They have the lowest numbers.
    pub fn races(&self) -> u32
        ensures { result ≡ length self.now.races }
    {
        self.races.len() as u32
    }

    /// The finding of a number, which is below `len`. The races come first.
    pub fn get(&self, number: u32) -> &Finding
        requires { number < length self.now.races + length self.now.deadlocks }
        ensures { IsAt self.now number result.now }
    {
        let number = number as usize;
        if number < self.races.len() {
            &self.races[number]
        } else {
            &self.deadlocks[number - self.races.len()]
        }
    }
}
