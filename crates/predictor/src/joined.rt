// What the jobs of a search find together.
ghost use Rattle.std.specs.Prelude.{◌≡◌, ◌≤◌, ◌+◌, ◌++◌, [], length, map, None, All, IfOk, OnOk};
ghost use Rattle.sp_base.specs.declared.limits.TheConstants.{MAX_VARS, MAX_PATTERNS};
ghost use Rattle.trace_laws.specs.Findings.{IsFoundRace, by_reorderings};
ghost use Rattle.trace_index.specs.Accessed.{AreVariablesBelow};
ghost use Rattle.pattern_walk.specs.Cycles.{classes_of};
ghost use Rattle.shard_pool.specs.Shares.{AreAnswers};
ghost use Rattle.predictor.specs.Borders.{AreBorders};
ghost use Rattle.predictor.specs.Parts.{race_found, deadlock_found, IsPartOfJob, AreFilled, AreSlots};
ghost use Rattle.predictor.specs.Searches.{AreRaces, AreRanked, AreDeadlocks};

use crate::cut::Border;
use crate::part::Part;
use lock_graph::Classes;
use pattern_walk::Patterns;
use sp_base::OutOfMemory;
use std::alloc::Global;
use trace_laws::{Deadlock, Finding, Findings, Keep, Race, Trace};

// Empty slots for the races of so many places.
fn empty_slots(alloc: Global, places: u32) -> Result<Vec<Option<(Race, Keep)>>, OutOfMemory>
    ensures size { IfOk result (λ slots. length slots.items ≡ places) }
    ensures empty { IfOk result (λ slots. All (λ slot. slot ≡ None) slots.items) }
{
    let mut slots = Vec::with_capacity(alloc, places as usize)?;
    for _ in 0..places {
        slots.push_reserved(None);
    }
    Ok(slots)
}

// Puts each race into the slot of its later place.
fn fill_slots(trace: &Trace, slots: &mut Vec<Option<(Race, Keep)>>, races: Vec<(Race, Keep)>)
    requires slots { AreFilled trace.now slots.old.items [] slots.old.items }
    requires races { All (IsFoundRace trace.now.events trace.now.threads (by_reorderings trace.now.events)) (map race_found races.items) }
    ensures { AreFilled trace.now slots.old.items (map race_found races.items) slots.new.items }
{
    for (race, keep) in races {
        let place = race.later as usize;
        slots[place] = Some((race, keep));
    }
}

// Adds the races of the slots, in the order of their later places.
fn add_races(
    trace: &Trace,
    slots: Vec<Option<(Race, Keep)>>,
    found: &mut Findings,
) -> Result<(), OutOfMemory>
    requires variables { AreVariablesBelow trace.now.events MAX_VARS }
    requires slots { AreSlots trace.now MAX_VARS slots.items }
    requires alone { found.old.races ≡ [] }
    requires few { length found.old.deadlocks ≤ MAX_PATTERNS }
    ensures races { OnOk result (AreRaces trace.now found.new.races) }
    ensures deadlocks { found.new.deadlocks ≡ found.old.deadlocks }
{
    // The events of a trace are not too many, as their number says.
    let _ = trace.len();
    for slot in slots {
        let Some((race, keep)) = slot else {
            continue;
        };
        found.push(Finding::Race(race, keep))?;
    }
    Ok(())
}

// Adds deadlocks, in their order.
fn add_deadlocks(found: &mut Findings, deadlocks: Vec<(Deadlock, Keep)>) -> Result<(), OutOfMemory>
    requires alone { found.old.races ≡ [] }
    requires few { length found.old.deadlocks + length deadlocks.items ≤ MAX_PATTERNS }
    ensures races { found.new.races ≡ found.old.races }
    ensures deadlocks { OnOk result (found.new.deadlocks ≡ found.old.deadlocks ++ map deadlock_found deadlocks.items) }
{
    for (deadlock, keep) in deadlocks {
        found.push(Finding::Deadlock(deadlock, keep))?;
    }
    Ok(())
}

/// What is found in a trace, from what each job finds: the races in the order of their later places, and the deadlocks in
/// the order of their patterns. The only error is want of memory.
pub fn join_parts(
    alloc: Global,
    classes: &Classes<'_>,
    patterns: &Patterns,
    borders: &[Border],
    parts: Vec<Part>,
) -> Result<Findings, OutOfMemory>
    requires ranked { AreRanked classes.now patterns.now }
    requires borders { AreBorders MAX_VARS (length patterns.now) borders.now }
    requires all { length parts.items + 1 ≡ length borders.now }
    requires parts { AreAnswers (IsPartOfJob classes.now patterns.now borders.now) parts.items }
    ensures races { IfOk result (λ found. AreRaces classes.now.trace found.races) }
    ensures deadlocks { IfOk result (λ found. AreDeadlocks classes.now.trace (map (classes_of classes.now.classes) patterns.now) 0 (length patterns.now) found.deadlocks) }
{
    let trace = classes.index().trace();
    // The patterns are not too many, as their number says.
    let _ = patterns.len();
    let mut slots = empty_slots(alloc, trace.len())?;
    let mut found = Findings::new(alloc);
    for part in parts {
        fill_slots(trace, &mut slots, part.races);
        add_deadlocks(&mut found, part.deadlocks)?;
    }
    add_races(trace, slots, &mut found)?;
    Ok(found)
}
