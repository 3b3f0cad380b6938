// Places of groups that are passed.
ghost use Rattle.std.specs.Prelude.{ℕ, ◌≡◌, ◌<◌, ◌≤◌, ◌⊎◌, true, false, IsTrue, length, Some, slice_get};
ghost use Rattle.trace_laws.specs.Reordering.{Conflict};
ghost use Rattle.sp_closure.specs.Members.{has};
ghost use Rattle.race_scan.specs.Grouped.{AreOfThreads};
ghost use Rattle.race_scan.specs.Passed.{ArePassed, AreReady, IsOut};

use crate::candidates::do_conflict;
use crate::groups::Group;
use crate::pair_set::PairSet;
use crate::sections::is_enclosed;
use trace_index::Index;

// Whether a place is known to be out without a set: it does not conflict with the later place, or is in each closed set
// that holds what comes before that, or stands in a section of a lock that is acquired between the two.
fn is_out(index: &Index<'_>, place: u32, later: u32) -> bool
    requires place { place < length index.now.events }
    requires later { later < length index.now.events }
    ensures out { result ≡ true → IsOut index.now.events later place }
    ensures conflict { result ≡ false → Conflict index.now.events place later }
{
    if !do_conflict(index, place, later) {
        return true;
    }
    if index.precedes(place, later) {
        return true;
    }
    is_enclosed(index, place, later)
}

// The first position from one on whose place does not stand before the later place, or is not known to be out.
fn pass(index: &Index<'_>, places: &[u32], later: u32, start: usize) -> usize
    requires places { (k e : ℕ) → slice_get places.now k ≡ Some e → e < length index.now.events }
    requires later { later < length index.now.events }
    ensures from { start ≤ result }
    ensures passed { (k e : ℕ) → start ≤ k → k < result → slice_get places.now k ≡ Some e → IsOut index.now.events later e }
    ensures conflict { (e : ℕ) → slice_get places.now result ≡ Some e → e < later → Conflict index.now.events e later }
{
    let mut position = start;
    while position < places.len() {
        let place = places[position];
        if later <= place {
            return position;
        }
        if !is_out(index, place, later) {
            return position;
        }
        position += 1;
    }
    position
}

// The first position from one on whose place does not stand before the later place, or is outside the set.
fn pass_inside(set: &PairSet<'_>, places: &[u32], later: u32, start: usize) -> usize
    requires { (k e : ℕ) → slice_get places.now k ≡ Some e → e < length set.now.trace.events }
    ensures from { start ≤ result }
    ensures passed { (k e : ℕ) → start ≤ k → k < result → slice_get places.now k ≡ Some e → IsTrue (has set.now.members e) }
    ensures outside { (e : ℕ) → slice_get places.now result ≡ Some e → e < later → has set.now.members e ≡ false }
{
    let mut position = start;
    while position < places.len() {
        let place = places[position];
        if later <= place {
            return position;
        }
        if !set.has(place) {
            return position;
        }
        position += 1;
    }
    position
}

/// Passes the places that are in the set, and behind them those that are known to be out.
pub fn pass_tried(
    index: &Index<'_>,
    set: &PairSet<'_>,
    places: &[u32],
    later: u32,
    start: usize,
) -> usize
    requires trace { set.now.trace ≡ index.now }
    requires places { (k e : ℕ) → slice_get places.now k ≡ Some e → e < length index.now.events }
    requires later { later < length index.now.events }
    ensures from { (e : ℕ) → slice_get places.now start ≡ Some e → e < later → IsTrue (has set.now.members e) → start < result }
    ensures passed { (k e : ℕ) → start ≤ k → k < result → slice_get places.now k ≡ Some e → IsTrue (has set.now.members e) ⊎ IsOut index.now.events later e }
    ensures conflict { (e : ℕ) → slice_get places.now result ≡ Some e → e < later → Conflict index.now.events e later }
{
    let inside = pass_inside(set, places, later, start);
    pass(index, places, later, inside)
}

/// Passes places of each group that are known to be out.
pub fn pass_all(index: &Index<'_>, groups: &[Group], passed: &mut [usize], later: u32)
    requires later { later < length index.now.events }
    requires groups { AreOfThreads index.now.events groups.now }
    requires passed { ArePassed index.now.events later groups.now passed.old }
    ensures passed { ArePassed index.now.events later groups.now passed.new }
    ensures ready { AreReady index.now.events later groups.now passed.new }
{
    for group in 0..groups.len() {
        passed[group] = pass(index, &groups[group].places, later, passed[group]);
    }
}
