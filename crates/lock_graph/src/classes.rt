//! The classes of a trace.

ghost use Rattle.std.specs.Prelude.{ℕ, ◌≡◌, ◌<◌, ◌≤◌, ◌↔◌, length, slice_get, Some, IfOk, IsTrue, Contains};
ghost use Rattle.std.specs.Option.{option_map};
ghost use Rattle.trace_laws.specs.Traces.{IsTrace};
ghost use Rattle.trace_laws.specs.Patterns.{Class, IsOfClass, AreApart};
ghost use Rattle.trace_index.specs.HeldSets.{IsAcquire};
ghost use Rattle.lock_graph.specs.Classes.{AreClasses, HaveLocksBelow, IsFollowedBy};

use crate::entry::Entry;
use crate::listing::Listing;
use sp_base::{LockId, MAX_LOCKS, OutOfMemory, ThreadId};
use std::alloc::Global;
use std::marker::Model;
use trace_index::Index;

/// The classes of a trace, numbered from 0 by their first places.
///
/// Contracts see the trace and the list of the classes.
#[derive(Drop)]
pub struct Classes<'a> {
    index: &'a Index<'a>,
    entries: Vec<Entry<'a>>,
}

impl<'a> Model for Classes<'a> {
    ghost use Rattle.lock_graph.specs.Classes.{Graph};

    ghost Value = { Graph };

    ghost use Rattle.lock_graph.specs.Graphs.{graph_in, IsGraph};

    ghost view = { graph_in };

    ghost invariant = { IsGraph };
}

impl<'a> Classes<'a> {
    /// The classes of the trace of an index, found in one pass over it. The only error is want of memory.
    pub fn build(alloc: Global, index: &'a Index<'a>) -> Result<Classes<'a>, OutOfMemory>
        ensures trace { IfOk result (λ classes. classes.trace ≡ index.now) }
        ensures classes { IfOk result (λ classes. AreClasses index.now.events classes.classes) }
    {
        let mut listing = Listing::new(alloc);
        for place in 0..index.trace().len() {
            listing.note(index, place)?;
        }
        Ok(Classes {
            index,
            entries: listing.entries,
        })
    }

    /// The index of the trace.
    pub fn index(&self) -> &'a Index<'a>
        ensures { result.now ≡ self.now.trace }
    {
        self.index
    }

    /// How many classes there are. Its contract also says that they are exactly those of the trace, and what their locks and
    /// their trace promise.
    pub fn len(&self) -> u32
        ensures value { result ≡ length self.now.classes }
        ensures classes { AreClasses self.now.trace.events self.now.classes }
        ensures trace { IsTrace self.now.trace.events self.now.trace.threads }
        ensures locks { HaveLocksBelow self.now.classes MAX_LOCKS }
    {
        // A trace is not too long, as its length says.
        let _ = self.index.trace().len();
        self.entries.len() as u32
    }

    /// Whether there is no class.
    pub fn is_empty(&self) -> bool
        ensures { IsTrue result ↔ (length self.now.classes ≡ 0) }
    {
        self.entries.is_empty()
    }

    /// A number that the locks of the classes are below, and those that they hold: the least one, which is not promised.
    pub fn locks(&self) -> u32
        ensures below { HaveLocksBelow self.now.classes result }
        ensures few { result ≤ MAX_LOCKS }
    {
        let mut below = 0;
        for class in 0..self.len() {
            below = below.max(self.lock(class).value() + 1);
        }
        below
    }

    /// The thread of a class, which is below `len`.
    pub fn thread(&self, class: u32) -> ThreadId
        requires { class < length self.now.classes }
        ensures { option_map (λ c. c.thread) (slice_get self.now.classes class) ≡ Some result }
    {
        self.entries[class as usize].thread
    }

    /// The lock of a class, which is below `len`.
    pub fn lock(&self, class: u32) -> LockId
        requires { class < length self.now.classes }
        ensures { option_map (λ c. c.lock) (slice_get self.now.classes class) ≡ Some result }
    {
        self.entries[class as usize].lock
    }

    /// The held set of a class, which is below `len`: the numbers of its locks from the least on.
    pub fn held(&self, class: u32) -> &[u32]
        requires { class < length self.now.classes }
        ensures { option_map (λ c. c.held) (slice_get self.now.classes class) ≡ Some result.now }
    {
        self.entries[class as usize].held
    }

    /// The acquires of a class, which is below `len`, in the order of the trace. There is at least one.
    pub fn acquires(&self, class: u32) -> &[u32]
        requires { class < length self.now.classes }
        ensures { option_map (λ c. c.acquires) (slice_get self.now.classes class) ≡ Some result.now }
    {
        &self.entries[class as usize].acquires
    }

    /// Whether a lock is in the held set of a class, which is below `len`.
    pub fn holds(&self, class: u32, lock: LockId) -> bool
        requires { class < length self.now.classes }
        ensures { (c : Class) → slice_get self.now.classes class ≡ Some c → IsTrue result ↔ Contains c.held lock }
    {
        self.index().holds(self.first(class), lock)
    }

    /// Whether the first class can be followed by the second in a cycle: the second holds the lock of the first, and they are
    /// apart. Both are below `len`.
    pub fn follows(&self, a: u32, b: u32) -> bool
        requires a { a < length self.now.classes }
        requires b { b < length self.now.classes }
        ensures { (x y : Class) → slice_get self.now.classes a ≡ Some x → slice_get self.now.classes b ≡ Some y → IsTrue result ↔ IsFollowedBy x y }
    {
        if !self.holds(b, self.lock(a)) {
            return false;
        }
        self.apart(a, b)
    }

    /// Whether two classes can stand in one cycle: their threads and locks differ, and their held sets have no lock in
    /// common. Both are below `len`.
    pub fn apart(&self, a: u32, b: u32) -> bool
        requires a { a < length self.now.classes }
        requires b { b < length self.now.classes }
        ensures { (x y : Class) → slice_get self.now.classes a ≡ Some x → slice_get self.now.classes b ≡ Some y → IsTrue result ↔ AreApart x y }
    {
        if self.thread(a) == self.thread(b) || self.lock(a) == self.lock(b) {
            return false;
        }
        self.held_apart(a, b)
    }

    // Whether the held sets of two classes have no lock in common.
    fn held_apart(&self, a: u32, b: u32) -> bool
        requires a { a < length self.now.classes }
        requires b { b < length self.now.classes }
        ensures { (x y : Class) → slice_get self.now.classes a ≡ Some x → slice_get self.now.classes b ≡ Some y → IsTrue result ↔ ((l : ℕ) → Contains x.held l → Contains y.held l → ⊥) }
    {
        self.index().apart(self.first(a), self.first(b))
    }

    // The first place of a class.
    fn first(&self, class: u32) -> u32
        requires { class < length self.now.classes }
        ensures acquire { IsAcquire self.now.trace.events result }
        ensures class { (c : Class) → slice_get self.now.classes class ≡ Some c → IsOfClass self.now.trace.events c result }
    {
        self.entries[class as usize].acquires[0]
    }
}
