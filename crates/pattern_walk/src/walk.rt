// The walk for cycles.
ghost use Rattle.std.specs.Prelude.{ℕ, List, ◌≡◌, ◌<◌, ◌≤◌, ◌+◌, ◌-◌, ◌∷◌, ◌++◌, [], length, slice_get, Some, Contains, IfOk, OnOk, IsErrOf, IsTrue};
ghost use Rattle.std.specs.Bool.{IsFalse};
ghost use Rattle.sp_base.specs.declared.limits.TheConstants.{MIN_SIZE, MAX_SIZE};
ghost use Rattle.trace_laws.specs.Reordering.{Rises};
ghost use Rattle.trace_laws.specs.Patterns.{AreApart};
ghost use Rattle.pattern_walk.specs.Cycles.{class_of, IsPath, IsExtension};
ghost use Rattle.pattern_walk.specs.Walks.{IsReady, IsOnWay, AreInOrder, IsBehind, Extends, FoundBelow, HasMoreCycles};

use crate::links::Links;
use crate::near::Near;
use crate::order::LockOrder;
use crate::patterns::{Pattern, WalkFault};
use lock_graph::Classes;
use sp_base::{MAX_PATTERNS, OutOfMemory};
use std::alloc::Global;

/// A walk over classes, from each along those that can follow it. Classes without links are left out.
#[derive(Drop)]
pub struct Walk<'a> {
    alloc: Global,
    classes: &'a Classes<'a>,
    links: Links,
    order: LockOrder,
}

// Whether a class is apart from each of a path.
fn is_apart(classes: &Classes<'_>, path: &[u32], next: u32) -> bool
    requires path { IsPath classes.now.classes path.now }
    requires next { next < length classes.now.classes }
    ensures yes { IsTrue result → (n : ℕ) → Contains path.now n → AreApart (class_of classes.now.classes n) (class_of classes.now.classes next) }
    ensures no { IsFalse result → (n : ℕ) × Contains path.now n × (AreApart (class_of classes.now.classes n) (class_of classes.now.classes next) → ⊥) }
{
    for &class in path {
        if !classes.apart(class, next) {
            return false;
        }
    }
    true
}

impl<'a> Walk<'a> {
    /// A walk over classes. The only error is want of memory.
    pub fn new(alloc: Global, classes: &'a Classes<'a>) -> Result<Walk<'a>, OutOfMemory>
        ensures classes { IfOk result (λ walk. walk.classes.now ≡ classes.now) }
        ensures ready { IfOk result (λ walk. IsReady walk) }
    {
        let links = Links::new(alloc, classes)?;
        let order = LockOrder::new(alloc, classes, &links)?;
        Ok(Walk {
            alloc,
            classes,
            links,
            order,
        })
    }

    /// Room for how near each lock is. The only error is want of memory.
    pub fn near(&self) -> Result<Near, OutOfMemory>
        ensures { IfOk result (λ near. length near.steps.items ≡ length self.now.order.before.items) }
    {
        Near::new(self.alloc, self.order.before.len())
    }

    // The last class of a path.
    fn last(&self, path: &[u32]) -> u32
        requires some { 0 < length path.now }
        ensures { slice_get path.now (length path.now - 1) ≡ Some result }
    {
        path[path.len() - 1]
    }

    // The classes with links that hold the lock of the last class of a path, in the order of their numbers.
    fn candidates(&self, near: &Near, path: &[u32]) -> &[u32]
        requires { IsOnWay self.now near.now path.now }
        ensures order { Rises result.now }
        ensures within { (n : ℕ) → Contains result.now n → n < length self.now.classes.now.classes }
        ensures all { (q : List ℕ) (n : ℕ) → IsExtension self.now.classes.now.classes near.now.size path.now q → slice_get q (length path.now) ≡ Some n → Contains result.now n }
    {
        let lock = self.classes.lock(self.last(path));
        &self.order.holders[lock.value() as usize]
    }

    // Whether a class can be the next of a path: it can follow the last, it is apart from all and greater than the first,
    // and the steps that are left are enough to come back.
    fn may_follow(&self, near: &Near, path: &[u32], next: u32) -> bool
        requires way { IsOnWay self.now near.now path.now }
        requires short { length path.now < near.now.size }
        requires next { next < length self.now.classes.now.classes }
        ensures yes { IsTrue result → IsPath self.now.classes.now.classes (path.now ++ next ∷ []) }
        ensures no { IsFalse result → (q : List ℕ) → IsExtension self.now.classes.now.classes near.now.size (path.now ++ next ∷ []) q → ⊥ }
    {
        let left = near.size - path.len() as u8;
        if next <= path[0] || !near.allows(self.classes.lock(next), left) {
            return false;
        }
        let lock = self.classes.lock(self.last(path));
        self.classes.holds(next, lock) && is_apart(self.classes, path, next)
    }

    // Adds the path where its first class can follow its last.
    fn close(&self, near: &Near, path: &[u32], found: &mut Vec<Pattern>) -> Result<(), WalkFault>
        requires way { IsOnWay self.now near.now path.now }
        requires whole { length path.now ≡ near.now.size }
        requires found { AreInOrder self.now.classes.now.classes near.now.size found.old.items }
        requires behind { IsBehind near.now.size path.now found.old.items }
        ensures ok { OnOk result (Extends self.now.classes.now.classes near.now.size path.now found.old.items found.new.items) }
        ensures many { IsErrOf result WalkFault.TooManyPatterns → HasMoreCycles self.now.classes.now.classes near.now.size }
    {
        let lock = self.classes.lock(self.last(path));
        if !self.classes.holds(path[0], lock) {
            return Ok(());
        }
        if found.len() == MAX_PATTERNS as usize {
            return Err(WalkFault::TooManyPatterns);
        }
        let Ok(pattern) = Pattern::new(self.alloc, path) else {
            return Err(WalkFault::OutOfMemory);
        };
        let Ok(()) = found.push(pattern) else {
            return Err(WalkFault::OutOfMemory);
        };
        Ok(())
    }

    // Adds the cycles that begin with the path, in their order.
    fn extend(
        &self,
        near: &Near,
        path: &mut Vec<u32>,
        found: &mut Vec<Pattern>,
    ) -> Result<(), WalkFault>
        requires way { IsOnWay self.now near.now path.old.items }
        requires found { AreInOrder self.now.classes.now.classes near.now.size found.old.items }
        requires behind { IsBehind near.now.size path.old.items found.old.items }
        ensures path { OnOk result (path.new.items ≡ path.old.items) }
        ensures ok { OnOk result (Extends self.now.classes.now.classes near.now.size path.old.items found.old.items found.new.items) }
        ensures many { IsErrOf result WalkFault.TooManyPatterns → HasMoreCycles self.now.classes.now.classes near.now.size }
    {
        if path.len() == near.size as usize {
            return self.close(near, path, found);
        }
        let candidates = self.candidates(near, path);
        for &next in candidates {
            if !self.may_follow(near, path, next) {
                continue;
            }
            let Ok(()) = path.push(next) else {
                return Err(WalkFault::OutOfMemory);
            };
            self.extend(near, path, found)?;
            path.pop();
        }
        Ok(())
    }

    // Adds the cycles of a size that begin with a class, in their order.
    fn from(
        &self,
        near: &mut Near,
        size: u8,
        start: u32,
        found: &mut Vec<Pattern>,
    ) -> Result<(), WalkFault>
        requires ready { IsReady self.now }
        requires locks { length near.old.steps.items ≡ length self.now.order.before.items }
        requires least { MIN_SIZE ≤ size }
        requires most { size ≤ MAX_SIZE }
        requires start { start < length self.now.classes.now.classes }
        requires found { FoundBelow self.now.classes.now.classes size start found.old.items }
        ensures locks { length near.new.steps.items ≡ length self.now.order.before.items }
        ensures ok { OnOk result (FoundBelow self.now.classes.now.classes size (start + 1) found.new.items) }
        ensures many { IsErrOf result WalkFault.TooManyPatterns → HasMoreCycles self.now.classes.now.classes size }
    {
        near.fill(self.classes, &self.order.before, start, size);
        let Ok(mut path) = vec![in self.alloc; start] else {
            return Err(WalkFault::OutOfMemory);
        };
        self.extend(near, &mut path, found)
    }

    /// Adds the cycles of a size, in their order, to those that are smaller.
    pub fn of_size(
        &self,
        near: &mut Near,
        size: u8,
        found: &mut Vec<Pattern>,
    ) -> Result<(), WalkFault>
        requires ready { IsReady self.now }
        requires locks { length near.old.steps.items ≡ length self.now.order.before.items }
        requires least { MIN_SIZE ≤ size }
        requires most { size ≤ MAX_SIZE }
        requires found { FoundBelow self.now.classes.now.classes size 0 found.old.items }
        ensures locks { length near.new.steps.items ≡ length self.now.order.before.items }
        ensures ok { OnOk result (FoundBelow self.now.classes.now.classes (size + 1) 0 found.new.items) }
        ensures many { IsErrOf result WalkFault.TooManyPatterns → HasMoreCycles self.now.classes.now.classes size }
    {
        for start in 0..self.classes.len() {
            if !self.links.has(start) {
                continue;
            }
            self.from(near, size, start, found)?;
        }
        Ok(())
    }
}
