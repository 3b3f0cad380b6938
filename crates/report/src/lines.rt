// The lines of findings.
ghost use Rattle.std.specs.Prelude.{◌≡◌, ◌<◌, All, IfOk, length, string_bytes};
ghost use Rattle.std.specs.List.{flat_map};
ghost use Rattle.trace_laws.specs.Stored.{deadlock_of, race_of};
ghost use Rattle.report.specs.FindingLines.{IsFindingWithin, finding_line};
ghost use Rattle.report.specs.Reports.{IsDeadlockWithin, IsRaceWithin, closing_line, count_text, deadlock_line, loc_at, location_text, places_text, race_line};

use sp_base::OutOfMemory;
use std::alloc::Global;
use trace_laws::{Deadlock, Finding, Keep, Race, Trace};

// The location of a place.
fn location(trace: &Trace, place: u32) -> u32
    requires { place < length trace.now.events }
    ensures { result ≡ loc_at trace.now.events place }
{
    let event = trace.event(place);
    event.loc
}

// Counts, each after a space.
fn counts_text(alloc: Global, counts: &[u32]) -> Result<String, OutOfMemory>
    ensures { IfOk result (λ text. string_bytes text ≡ flat_map count_text counts.now) }
{
    let mut text = String::new(alloc);
    for count in counts {
        let Ok(word) = format!(in alloc; " {count}") else {
            return Err(OutOfMemory);
        };
        let Ok(()) = text.push_str(word.as_str()) else {
            return Err(OutOfMemory);
        };
    }
    Ok(text)
}

// The locations of places, each after a space.
fn locations_text(alloc: Global, trace: &Trace, places: &[u32]) -> Result<String, OutOfMemory>
    requires { All (λ place. place < length trace.now.events) places.now }
    ensures { IfOk result (λ text. string_bytes text ≡ flat_map (location_text trace.now.events) places.now) }
{
    let mut text = String::new(alloc);
    for place in places {
        let found = location(trace, *place);
        let Ok(word) = format!(in alloc; " {found}") else {
            return Err(OutOfMemory);
        };
        let Ok(()) = text.push_str(word.as_str()) else {
            return Err(OutOfMemory);
        };
    }
    Ok(text)
}

// The front of the line of a race.
fn places_of_race(alloc: Global, trace: &Trace, race: &Race) -> Result<String, OutOfMemory>
    requires later { race.now.later < length trace.now.events }
    requires earlier { race.now.earlier < length trace.now.events }
    ensures { IfOk result (λ text. string_bytes text ≡ places_text trace.now.events race.now.later race.now.earlier) }
{
    let later = race.later;
    let earlier = race.earlier;
    let first = location(trace, later);
    let second = location(trace, earlier);
    match format!(in alloc; "race {later} with {earlier} at {first} {second} keep") {
        Ok(text) => Ok(text),
        Err(_) => Err(OutOfMemory),
    }
}

// The line of a race.
fn line_of_race(
    alloc: Global,
    trace: &Trace,
    race: &Race,
    keep: &Keep,
) -> Result<String, OutOfMemory>
    requires { IsRaceWithin trace.now.events (race_of (Finding.Race race.now keep.now)) }
    ensures { IfOk result (λ line. string_bytes line ≡ race_line trace.now.events (race_of (Finding.Race race.now keep.now))) }
{
    let mut line = places_of_race(alloc, trace, race)?;
    let counts = counts_text(alloc, keep.counts())?;
    let Ok(()) = line.push_str(counts.as_str()) else {
        return Err(OutOfMemory);
    };
    let Ok(()) = line.push_str("\n") else {
        return Err(OutOfMemory);
    };
    Ok(line)
}

// The line of a deadlock.
fn line_of_deadlock(
    alloc: Global,
    trace: &Trace,
    deadlock: &Deadlock,
    keep: &Keep,
) -> Result<String, OutOfMemory>
    requires { IsDeadlockWithin trace.now.events (deadlock_of (Finding.Deadlock deadlock.now keep.now)) }
    ensures { IfOk result (λ line. string_bytes line ≡ deadlock_line trace.now.events (deadlock_of (Finding.Deadlock deadlock.now keep.now))) }
{
    let places = counts_text(alloc, deadlock.picks())?;
    let locations = locations_text(alloc, trace, deadlock.picks())?;
    let counts = counts_text(alloc, keep.counts())?;
    match format!(in alloc; "deadlock{places} at{locations} keep{counts}\n") {
        Ok(line) => Ok(line),
        Err(_) => Err(OutOfMemory),
    }
}

/// The line of a finding, whose places are places of the trace.
///
/// The only error is want of memory.
pub(crate) fn line_of_finding(
    alloc: Global,
    trace: &Trace,
    finding: &Finding,
) -> Result<String, OutOfMemory>
    requires { IsFindingWithin trace.now.events finding.now }
    ensures { IfOk result (λ line. string_bytes line ≡ finding_line trace.now.events finding.now) }
{
    match finding {
        Finding::Race(race, keep) => line_of_race(alloc, trace, race, keep),
        Finding::Deadlock(deadlock, keep) => line_of_deadlock(alloc, trace, deadlock, keep),
    }
}

/// The last line of a report.
///
/// The only error is want of memory.
pub fn last_line(alloc: Global, races: u32, deadlocks: u32) -> Result<String, OutOfMemory>
    ensures { IfOk result (λ line. string_bytes line ≡ closing_line races deadlocks) }
{
    match format!(in alloc; "races {races} deadlocks {deadlocks}\n") {
        Ok(line) => Ok(line),
        Err(_) => Err(OutOfMemory),
    }
}
