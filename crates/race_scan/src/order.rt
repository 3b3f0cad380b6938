// Races in the order of their later places.
ghost use Rattle.std.specs.Prelude.{ℕ, ◌≡◌, ◌<◌, ◌∷◌, [], IfNone, IfOk, IfSome, Contains, ◌≤◌, length};
ghost use Rattle.std.specs.List.Sorted.{IsNonDecreasingBy};
ghost use Rattle.trace_laws.specs.Findings.{Races, IsKeep, by_reorderings};
ghost use Rattle.race_scan.specs.Listed.{AreAllRaces, IsFirstListed};

use crate::finding::list_all;
use crate::pair_set::PairSet;
use sp_base::{MAX_EVENTS, OutOfMemory};
use std::alloc::{AllocError, Global};
use trace_index::Index;
use trace_laws::{Keep, Race, Trace};

/// The races on the variables of the range, in the order of the later places.
pub fn list_in_order(
    alloc: Global,
    index: &Index<'_>,
    set: &mut PairSet<'_>,
    from: u32,
    to: u32,
) -> Result<Vec<Race>, AllocError>
    requires { set.old.trace ≡ index.now }
    ensures trace { set.new.trace ≡ index.now }
    ensures races { IfOk result (λ races. AreAllRaces index.now.events from to races.items) }
{
    let mut races = list_all(alloc, index, set, from, to)?;
    races.sort_by_key(|race| race.later)?;
    Ok(races)
}

/// The first race whose later place does not stand before the place.
pub fn first_from(races: &[Race], start: u32) -> Option<Race>
    requires { IsNonDecreasingBy (λ (r : Race). r.later) races.now }
    ensures some { IfSome result (IsFirstListed races.now start) }
    ensures none { IfNone result ((r : Race) → Contains races.now r → r.later < start) }
{
    let position = races.partition_point(|race| race.later < start);
    if position == races.len() {
        return None;
    }
    Some(races[position])
}

/// The keep of a race.
pub fn keep_of(
    alloc: Global,
    trace: &Trace,
    set: &mut PairSet<'_>,
    race: &Race,
) -> Result<Keep, OutOfMemory>
    requires trace { set.old.trace ≡ trace.now }
    requires race { Races trace.now.events race.now.earlier race.now.later }
    ensures trace { set.new.trace ≡ trace.now }
    ensures few { length trace.now.events ≤ MAX_EVENTS }
    ensures keep { IfOk result (IsKeep trace.now.events trace.now.threads (by_reorderings trace.now.events) (race.now.earlier ∷ race.now.later ∷ [])) }
{
    // A trace is lawful, as its length says.
    let _ = trace.len();
    set.raise(race.earlier, race.later);
    Keep::new(alloc, set.counts())
}
