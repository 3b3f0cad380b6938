// The races of a range of variables.
ghost use Rattle.std.specs.Prelude.{◌≡◌, map, IfOk};
ghost use Rattle.predictor.specs.Parts.{race_found};
ghost use Rattle.predictor.specs.Searches.{AreRacesIn};

use race_scan::RaceScan;
use sp_base::OutOfMemory;
use std::alloc::Global;
use trace_index::Index;
use trace_laws::{Keep, Race};

// All races that a scan gives, where it gave none yet.
fn collect_races(alloc: Global, scan: &mut RaceScan<'_>) -> Result<Vec<(Race, Keep)>, OutOfMemory>
    requires { scan.old.passed ≡ 0 }
    ensures { IfOk result (λ found. AreRacesIn scan.old.trace scan.old.from scan.old.to (map race_found found.items)) }
{
    let mut found = Vec::new(alloc);
    while let Some((race, keep)) = scan.next()? {
        let Ok(()) = found.push((race, keep)) else {
            return Err(OutOfMemory);
        };
    }
    Ok(found)
}

/// The races of the trace of an index on the variables whose number is at least `from` and below `to`. The only error is
/// want of memory.
pub fn find_races(
    alloc: Global,
    index: &Index<'_>,
    from: u32,
    to: u32,
) -> Result<Vec<(Race, Keep)>, OutOfMemory>
    ensures { IfOk result (λ found. AreRacesIn index.now from to (map race_found found.items)) }
{
    if from == to {
        return Ok(Vec::new(alloc));
    }
    let mut scan = RaceScan::new(alloc, index, from, to)?;
    collect_races(alloc, &mut scan)
}
