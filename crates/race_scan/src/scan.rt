//! A scan for races.

ghost use Rattle.std.specs.Prelude.{◌≡◌, IfOk, OnErr};
ghost use Rattle.race_scan.specs.Scans.{GivesNext};

use crate::order::{first_from, keep_of, list_in_order};
use crate::pair_set::PairSet;
use sp_base::OutOfMemory;
use std::alloc::Global;
use std::marker::Model;
use trace_index::Index;
use trace_laws::{Keep, Race};

/// A scan for the races of a trace on the variables whose number is at least `from` and below `to`.
///
/// Contracts see the trace, the range, and the place up to which the races were given.
#[derive(Drop)]
pub struct RaceScan<'a> {
    alloc: Global,
    index: &'a Index<'a>,
    set: PairSet<'a>,
    races: Vec<Race>,
    from: u32,
    to: u32,
    passed: u32,
}

impl<'a> Model for RaceScan<'a> {
    ghost use Rattle.race_scan.specs.Scans.{Scan};

    ghost Value = { Scan };

    ghost use Rattle.race_scan.specs.Kept.{scan_in, IsPrepared};

    ghost view = { scan_in };

    ghost invariant = { IsPrepared };
}

impl<'a> RaceScan<'a> {
    /// The scan of the trace of an index, before its first race. The only error is want of memory.
    pub fn new(
        alloc: Global,
        index: &'a Index<'a>,
        from: u32,
        to: u32,
    ) -> Result<RaceScan<'a>, OutOfMemory>
        ensures { IfOk result (λ scan. scan ≡ record { trace = index.now; from = from; to = to; passed = 0 }) }
    {
        let mut set = PairSet::new(alloc, index)?;
        let races = list_in_order(alloc, index, &mut set, from, to)?;
        Ok(RaceScan {
            alloc,
            index,
            set,
            races,
            from,
            to,
            passed: 0,
        })
    }

    /// The next race in the order of the later places, with the earliest partner and the keep, or none where there is no
    /// further one. Without memory the scan stays where it was.
    pub fn next(&mut self) -> Result<Option<(Race, Keep)>, OutOfMemory>
        ensures ok { IfOk result (λ found. GivesNext self.old found self.new) }
        ensures err { OnErr result (self.new ≡ self.old) }
    {
        let Some(race) = first_from(&self.races, self.passed) else {
            return Ok(None);
        };
        let keep = keep_of(self.alloc, self.index.trace(), &mut self.set, &race)?;
        self.passed = race.later + 1;
        Ok(Some((race, keep)))
    }
}
