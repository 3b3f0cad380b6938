// How near a lock is to the first class of a walk.
ghost use Rattle.std.specs.Prelude.{ℕ, ◌≡◌, ◌<◌, ◌≤◌, ◌+◌, length, slice_get, slice_index, Some, Contains, IfOk, IsTrue, ◌↔◌, Vec};
ghost use Rattle.std.specs.declared.alloc.Global.{Global};
ghost use Rattle.sp_base.specs.declared.limits.TheConstants.{MIN_SIZE, MAX_SIZE};
ghost use Rattle.pattern_walk.specs.Orders.{AreBefore};
ghost use Rattle.pattern_walk.specs.Nearness.{IsLowered, IsNear};

use lock_graph::Classes;
use sp_base::{LockId, MIN_SIZE, OutOfMemory};
use std::alloc::Global;

/// For each lock at most the number of steps that lead from a class that takes it to the first class of a walk, or more
/// than the size of the walk where so few do not.
#[derive(Drop)]
pub struct Near {
    pub steps: Vec<u8>,
    pub size: u8,
}

// The locks of the list get at most that number of steps.
fn lower(steps: &mut Vec<u8>, locks: &[u32], to: u8)
    requires { (l : ℕ) → Contains locks.now l → l < length steps.old.items }
    ensures lowered { IsLowered steps.old.items steps.new.items }
    ensures reached { (l : ℕ) → Contains locks.now l → slice_index steps.new.items l ≤ to }
{
    for &lock in locks {
        if steps[lock as usize] <= to {
            continue;
        }
        steps[lock as usize] = to;
    }
}

// What lies before a lock of so many steps or fewer gets at most one step more.
fn spread(steps: &mut Vec<u8>, before: &[Vec<u32>], step: u8)
    requires locks { length steps.old.items ≡ length before.now }
    requires below { (l h : ℕ) (v : Vec ℕ Global) → slice_get before.now l ≡ Some v → Contains v.items h → h < length before.now }
    requires step { step ≤ MAX_SIZE }
    ensures lowered { IsLowered steps.old.items steps.new.items }
    ensures reached { (l h : ℕ) (v : Vec ℕ Global) → slice_get before.now l ≡ Some v → slice_index steps.old.items l ≤ step → Contains v.items h → slice_index steps.new.items h ≤ step + 1 }
{
    for (lock, list) in before.iter().enumerate() {
        if steps[lock] > step {
            continue;
        }
        lower(steps, list, step + 1);
    }
}

impl Near {
    /// Room for the steps of each of so many locks.
    pub fn new(alloc: Global, locks: usize) -> Result<Near, OutOfMemory>
        ensures { IfOk result (λ near. length near.steps.items ≡ locks) }
    {
        Ok(Near {
            steps: vec![in alloc; u8::MAX; locks]?,
            size: MIN_SIZE,
        })
    }

    /// The steps to a class in cycles of a size.
    pub fn fill(&mut self, classes: &Classes<'_>, before: &[Vec<u32>], start: u32, size: u8)
        requires locks { length self.old.steps.items ≡ length before.now }
        requires before { AreBefore classes.now.classes (length classes.now.classes) before.now }
        requires start { start < length classes.now.classes }
        requires least { MIN_SIZE ≤ size }
        requires most { size ≤ MAX_SIZE }
        ensures locks { length self.new.steps.items ≡ length before.now }
        ensures size { self.new.size ≡ size }
        ensures near { IsNear classes.now.classes start size self.new.steps.items }
    {
        self.size = size;
        self.steps.fill(u8::MAX);
        lower(&mut self.steps, classes.held(start), 1);
        for step in 1..size - 1 {
            spread(&mut self.steps, before, step);
        }
    }

    /// Whether so many steps are enough for a lock.
    pub fn allows(&self, lock: LockId, steps: u8) -> bool
        requires { lock < length self.now.steps.items }
        ensures { IsTrue result ↔ (slice_index self.now.steps.items lock ≤ steps) }
    {
        self.steps[lock.value() as usize] <= steps
    }
}
