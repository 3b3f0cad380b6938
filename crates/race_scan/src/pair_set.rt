// The places before two places, for one pair after another.
ghost use Rattle.std.specs.Prelude.{◌≡◌, ◌<◌, ◌∷◌, [], true, IfOk, length};
ghost use Rattle.trace_laws.specs.Closed.{IsClosureBefore};
ghost use Rattle.sp_closure.specs.Members.{has, AreCounts};
ghost use Rattle.race_scan.specs.PairSets.{IsUpTo, IsUpToEither, IsWithin};

use crate::candidates::thread_of;
use sp_base::{OutOfMemory, Steps};
use sp_closure::Cursor;
use std::alloc::Global;
use std::marker::{Brand, Model};
use trace_index::Index;

// Two places.
#[derive(Clone, Copy)]
struct Pair {
    first: u32,
    second: u32,
}

/// The least closed set of places of a trace that has all places before two places. Where each of the last two places is one
/// of the next two, or stands before it in its thread, the set grows; otherwise it is made anew.
///
/// Contracts see the trace and the set.
#[derive(Drop)]
pub struct PairSet<'a> {
    index: &'a Index<'a>,
    cursor: Cursor<'a>,
    last: Option<Pair>,
}

impl<'a> Model for PairSet<'a> {
    ghost use Rattle.sp_closure.specs.Members.{PlaceSet};

    ghost Value = { PlaceSet };

    ghost use Rattle.race_scan.specs.Pairs.{set_in, IsKnown};

    ghost view = { set_in };

    ghost invariant = { IsKnown };
}

// Whether a place is another one, or stands before it in the same thread.
fn is_up_to(index: &Index<'_>, place: u32, other: u32) -> bool
    requires place { place < length index.now.events }
    requires other { other < length index.now.events }
    ensures { result ≡ true → IsUpTo index.now.events place other }
{
    place <= other && thread_of(index, place) == thread_of(index, other)
}

// Whether a place is one of two places, or stands before it in its thread.
fn is_up_to_either(index: &Index<'_>, place: u32, first: u32, second: u32) -> bool
    requires place { place < length index.now.events }
    requires first { first < length index.now.events }
    requires second { second < length index.now.events }
    ensures { result ≡ true → IsUpToEither index.now.events place first second }
{
    is_up_to(index, place, first) || is_up_to(index, place, second)
}

impl<'a> PairSet<'a> {
    /// A set of places of the trace of an index, before its first two places. The only error is want of memory.
    pub fn new(alloc: Global, index: &'a Index<'a>) -> Result<PairSet<'a>, OutOfMemory>
        ensures { IfOk result (λ set. set.trace ≡ index.now) }
    {
        let cursor = Cursor::new(alloc, index)?;
        Ok(PairSet {
            index,
            cursor,
            last: None,
        })
    }

    // Whether the set is known to have nothing but what comes before two places, and what a closed set needs for that.
    fn goes_on(&self, first: u32, second: u32) -> bool
        requires first { first < length self.now.trace.events }
        requires second { second < length self.now.trace.events }
        ensures { result ≡ true → IsWithin self.now.trace.events (has self.now.members) first second }
    {
        let Some(last) = self.last else {
            return false;
        };
        is_up_to_either(self.index, last.first, first, second)
            && is_up_to_either(self.index, last.second, first, second)
    }

    // Empties the set, unless it is known to be part of the set of two places.
    fn begin(&mut self, first: u32, second: u32)
        requires first { first < length self.old.trace.events }
        requires second { second < length self.old.trace.events }
        ensures trace { self.new.trace ≡ self.old.trace }
        ensures within { IsWithin self.old.trace.events (has self.new.members) first second }
    {
        if self.goes_on(first, second) {
            return;
        }
        self.last = None;
        self.cursor.reset();
    }

    /// The set becomes the closure of the places before two places.
    pub fn raise(&mut self, first: u32, second: u32)
        requires first { first < length self.old.trace.events }
        requires second { second < length self.old.trace.events }
        ensures trace { self.new.trace ≡ self.old.trace }
        ensures closure { IsClosureBefore self.old.trace.events (first ∷ second ∷ []) (has self.new.members) }
    {
        self.begin(first, second);
        self.last = Some(Pair { first, second });
        let mut steps = Steps::<Brand>::new();
        self.cursor.raise(first, &mut steps);
        self.cursor.raise(second, &mut steps);
    }

    /// Whether the place is in the set.
    pub fn has(&self, place: u32) -> bool
        requires { place < length self.now.trace.events }
        ensures { result ≡ has self.now.members place }
    {
        self.cursor.has(place)
    }

    /// How many members each thread has: a number for each thread of the trace.
    pub fn counts(&self) -> &[u32]
        ensures { AreCounts self.now.trace.events self.now.trace.threads (has self.now.members) result.now }
    {
        self.cursor.counts()
    }
}
