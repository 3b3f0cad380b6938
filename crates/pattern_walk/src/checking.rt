//! Whether a pattern has a deadlock.

ghost use Rattle.std.specs.Prelude.{◌≡◌, ◌≤◌, ◌+◌, length, IfOk, IsTrue};
ghost use Rattle.std.specs.Bool.{IsFalse};
ghost use Rattle.trace_laws.specs.Closed.{AreOutside};
ghost use Rattle.sp_closure.specs.Members.{has, IsAtMostSections};
ghost use Rattle.pattern_walk.specs.Cycles.{classes_of};
ghost use Rattle.pattern_walk.specs.Instances.{IsListedPattern, IsUnderway, HasNoDeadlock, IsLeastDeadlock, AreFewSteps, acquires_of, reached_of};

use crate::instance::Instance;
use crate::patterns::Pattern;
use lock_graph::Classes;
use sp_base::{OutOfMemory, Steps};
use sp_closure::Cursor;
use std::alloc::Global;
use std::sync::ledger::Ledger;
use trace_laws::{Deadlock, Keep};

// Moves picks on until none of them is in the set of the cursor. Says whether that came about; else there is no deadlock.
fn settle<L: Ledger>(
    pattern: &Pattern,
    classes: &Classes<'_>,
    cursor: &mut Cursor<'_>,
    instance: &mut Instance,
    steps: &mut Steps<L>,
) -> bool
    requires pattern { IsListedPattern classes.now pattern.now }
    requires underway { IsUnderway classes.now pattern.now instance.old.positions.items instance.old.picks.items cursor.old }
    requires few { IsAtMostSections cursor.old.trace.events cursor.old.asked }
    ensures trace { cursor.new.trace ≡ cursor.old.trace }
    ensures underway { IsTrue result → IsUnderway classes.now pattern.now instance.new.positions.items instance.new.picks.items cursor.new }
    ensures outside { IsTrue result → AreOutside instance.new.picks.items (has cursor.new.members) }
    ensures none { IsFalse result → HasNoDeadlock classes.now.trace.events (classes_of classes.now.classes pattern.now) }
    ensures few { IsAtMostSections cursor.new.trace.events cursor.new.asked }
    ensures counted { steps.old + cursor.new.asked ≤ steps.new + cursor.old.asked }
    ensures steps { steps.new + cursor.old.asked + reached_of instance.old.positions.items ≤ steps.old + cursor.new.asked + acquires_of (classes_of classes.now.classes pattern.now) }
{
    while let Some(i) = instance.first_inside(cursor) {
        if !instance.advance(pattern, classes, cursor, i, steps) {
            return false;
        }
    }
    true
}

/// The least deadlock of a pattern with its keep, or none exactly where no instance of the pattern is a deadlock. The
/// pattern is of a list made from the classes, and the cursor is of their trace.
///
/// The cursor is emptied first, and then grows, and no pick goes back. A step is a section that is asked, or a place that
/// the cursor is raised to: so there are at most as many as sections of the trace and acquires of the pattern's classes. The
/// only error is want of memory, after which the cursor may hold another closed set, and the counter may have risen.
pub fn check<L: Ledger>(
    alloc: Global,
    pattern: &Pattern,
    classes: &Classes<'_>,
    cursor: &mut Cursor<'_>,
    steps: &mut Steps<L>,
) -> Result<Option<(Deadlock, Keep)>, OutOfMemory>
    requires pattern { IsListedPattern classes.now pattern.now }
    requires trace { cursor.old.trace ≡ classes.now.trace }
    ensures trace { cursor.new.trace ≡ cursor.old.trace }
    ensures found { IfOk result (IsLeastDeadlock classes.now.trace (classes_of classes.now.classes pattern.now)) }
    ensures steps { AreFewSteps classes.now.trace.events (classes_of classes.now.classes pattern.now) steps.old steps.new }
    ensures counted { IfOk result (λ _. steps.old + cursor.new.asked + length pattern.now ≤ steps.new) }
{
    let mut instance = Instance::first(alloc, pattern, classes)?;
    instance.raise_all(cursor, steps);
    if !settle(pattern, classes, cursor, &mut instance, steps) {
        return Ok(None);
    }
    let keep = Keep::new(alloc, cursor.counts())?;
    Ok(Some((Deadlock::new(&instance.picks), keep)))
}
