// The deadlocks of a range of patterns.
ghost use Rattle.std.specs.Prelude.{◌≡◌, ◌≤◌, length, map, IfOk};
ghost use Rattle.pattern_walk.specs.Cycles.{classes_of};
ghost use Rattle.predictor.specs.Parts.{deadlock_found};
ghost use Rattle.predictor.specs.Searches.{AreRanked, AreDeadlocks};

use lock_graph::Classes;
use pattern_walk::{Patterns, check};
use sp_base::{OutOfMemory, Steps};
use sp_closure::Cursor;
use std::alloc::Global;
use std::marker::Brand;
use trace_laws::{Deadlock, Keep};

// The least deadlock of each pattern of a range that has one, in the order of the patterns.
fn collect_deadlocks(
    alloc: Global,
    classes: &Classes<'_>,
    patterns: &Patterns,
    cursor: &mut Cursor<'_>,
    from: u32,
    to: u32,
) -> Result<Vec<(Deadlock, Keep)>, OutOfMemory>
    requires ranked { AreRanked classes.now patterns.now }
    requires trace { cursor.old.trace ≡ classes.now.trace }
    requires order { from ≤ to }
    requires within { to ≤ length patterns.now }
    ensures { IfOk result (λ found. AreDeadlocks classes.now.trace (map (classes_of classes.now.classes) patterns.now) from to (map deadlock_found found.items)) }
{
    let mut found = Vec::new(alloc);
    for n in from..to {
        let mut steps = Steps::<Brand>::new();
        let Some((deadlock, keep)) = check(alloc, patterns.get(n), classes, cursor, &mut steps)?
        else {
            continue;
        };
        let Ok(()) = found.push((deadlock, keep)) else {
            return Err(OutOfMemory);
        };
    }
    Ok(found)
}

/// The least deadlock of each pattern that has one, in the order of the patterns, where the number of the pattern is at
/// least `from` and below `to`. The only error is want of memory.
pub fn find_deadlocks(
    alloc: Global,
    classes: &Classes<'_>,
    patterns: &Patterns,
    from: u32,
    to: u32,
) -> Result<Vec<(Deadlock, Keep)>, OutOfMemory>
    requires ranked { AreRanked classes.now patterns.now }
    requires order { from ≤ to }
    requires within { to ≤ length patterns.now }
    ensures { IfOk result (λ found. AreDeadlocks classes.now.trace (map (classes_of classes.now.classes) patterns.now) from to (map deadlock_found found.items)) }
{
    if from == to {
        return Ok(Vec::new(alloc));
    }
    let mut cursor = Cursor::new(alloc, classes.index())?;
    collect_deadlocks(alloc, classes, patterns, &mut cursor, from, to)
}
