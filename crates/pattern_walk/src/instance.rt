// An instance of a pattern that moves on to later acquires.
ghost use Rattle.std.specs.Prelude.{ℕ, ◌≡◌, ◌<◌, ◌≤◌, ◌+◌, length, slice_index, Some, Contains, IfNone, IfSome, IfOk, IsTrue, true};
ghost use Rattle.std.specs.Bool.{IsFalse};
ghost use Rattle.trace_laws.specs.Closed.{IsClosureBefore, AreOutside};
ghost use Rattle.sp_closure.specs.Members.{has, IsAtMostSections};
ghost use Rattle.pattern_walk.specs.Cycles.{classes_of};
ghost use Rattle.pattern_walk.specs.Instances.{IsListedPattern, ArePicksAt, IsUnderway, HasNoDeadlock, AreFirstPositions, rest_of, acquires_of, reached_of};

use crate::gallop::first_outside;
use crate::patterns::Pattern;
use lock_graph::Classes;
use sp_base::{OutOfMemory, Steps};
use sp_closure::Cursor;
use std::alloc::Global;
use std::sync::ledger::Ledger;

/// An instance of a pattern: for each class its pick, and the pick's position among the acquires of the class.
#[derive(Drop)]
pub struct Instance {
    positions: Vec<usize>,
    pub picks: Vec<u32>,
}

impl Instance {
    /// The instance of the first acquires. The only error is want of memory.
    pub fn first(
        alloc: Global,
        pattern: &Pattern,
        classes: &Classes<'_>,
    ) -> Result<Instance, OutOfMemory>
        requires { IsListedPattern classes.now pattern.now }
        ensures at { IfOk result (λ i. ArePicksAt classes.now.classes pattern.now i.positions.items i.picks.items) }
        ensures first { IfOk result (λ i. AreFirstPositions i.positions.items) }
    {
        let mut instance = Instance {
            positions: Vec::new(alloc),
            picks: Vec::new(alloc),
        };
        let numbers = pattern.classes();
        for &class in numbers {
            let Ok(()) = instance.positions.push(0) else {
                return Err(OutOfMemory);
            };
            let acquires = classes.acquires(class);
            let Ok(()) = instance.picks.push(acquires[0]) else {
                return Err(OutOfMemory);
            };
        }
        Ok(instance)
    }

    /// The set of the cursor, which is emptied first, becomes the closure of the places before the picks. It is one step for
    /// each pick, and one more for each section that is asked.
    pub fn raise_all<L: Ledger>(&self, cursor: &mut Cursor<'_>, steps: &mut Steps<L>)
        requires { (a : ℕ) → Contains self.now.picks.items a → a < length cursor.old.trace.events }
        ensures trace { cursor.new.trace ≡ cursor.old.trace }
        ensures closure { IsClosureBefore cursor.old.trace.events self.now.picks.items (has cursor.new.members) }
        ensures few { IsAtMostSections cursor.old.trace.events cursor.new.asked }
        ensures steps { steps.new ≡ steps.old + cursor.new.asked + length self.now.picks.items }
    {
        cursor.reset();
        for &pick in &self.picks {
            cursor.raise(pick, steps);
        }
    }

    /// The number of the first pick that is in the set of the cursor.
    pub fn first_inside(&self, cursor: &Cursor<'_>) -> Option<usize>
        requires { (a : ℕ) → Contains self.now.picks.items a → a < length cursor.now.trace.events }
        ensures none { IfNone result (AreOutside self.now.picks.items (has cursor.now.members)) }
        ensures within { IfSome result (λ i. i < length self.now.picks.items) }
        ensures inside { IfSome result (λ i. has cursor.now.members (slice_index self.now.picks.items i) ≡ true) }
    {
        for (i, &pick) in self.picks.iter().enumerate() {
            if cursor.has(pick) {
                return Some(i);
            }
        }
        None
    }

    /// Moves a pick that is in the set of the cursor on to the first later acquire of its class that is not, and raises the
    /// set by it: that is one step, and one more for each section that is asked. Where there is none, the pattern has no
    /// deadlock.
    pub fn advance<L: Ledger>(
        &mut self,
        pattern: &Pattern,
        classes: &Classes<'_>,
        cursor: &mut Cursor<'_>,
        i: usize,
        steps: &mut Steps<L>,
    ) -> bool
        requires pattern { IsListedPattern classes.now pattern.now }
        requires underway { IsUnderway classes.now pattern.now self.old.positions.items self.old.picks.items cursor.old }
        requires number { i < length self.old.picks.items }
        requires inside { has cursor.old.members (slice_index self.old.picks.items i) ≡ true }
        requires few { IsAtMostSections cursor.old.trace.events cursor.old.asked }
        ensures trace { cursor.new.trace ≡ cursor.old.trace }
        ensures underway { IsTrue result → IsUnderway classes.now pattern.now self.new.positions.items self.new.picks.items cursor.new }
        ensures further { IsTrue result → rest_of (length classes.now.trace.events) self.new.picks.items < rest_of (length classes.now.trace.events) self.old.picks.items }
        ensures none { IsFalse result → HasNoDeadlock classes.now.trace.events (classes_of classes.now.classes pattern.now) }
        ensures few { IsAtMostSections cursor.new.trace.events cursor.new.asked }
        ensures counted { steps.old + cursor.new.asked ≤ steps.new + cursor.old.asked }
        ensures steps { steps.new + cursor.old.asked + reached_of self.old.positions.items ≤ steps.old + cursor.new.asked + reached_of self.new.positions.items }
        ensures reached { reached_of self.new.positions.items ≤ acquires_of (classes_of classes.now.classes pattern.now) }
    {
        let acquires = classes.acquires(pattern.classes()[i]);
        let Some(position) = first_outside(acquires, cursor, self.positions[i]) else {
            return false;
        };
        let acquire = acquires[position];
        self.positions[i] = position;
        self.picks[i] = acquire;
        cursor.raise(acquire, steps);
        true
    }
}
