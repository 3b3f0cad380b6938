// The rows of places, of which several share what is stored.
ghost use Rattle.std.specs.Prelude.{◌≡◌, ◌<◌, ◌≤◌, ◌+◌, [], ◌∷◌, ◌++◌, length, IfOk, OnOk, IfSome, IsTrue, slice_index, slice_set};
ghost use Rattle.closed_fronts.specs.Rows.{IsJoin, row_in};

use crate::joining::{are_alike, join};
use sp_base::{MAX_EVENTS, MAX_THREADS, OutOfMemory};
use std::alloc::{AllocError, Global};
use std::marker::Model;

// Where the row of a place is stored, and the thread whose own cut in it may be older than the place.
#[derive(Clone, Copy)]
struct Share {
    start: u32,
    size: u16,
    thread: u16,
}

/// For each place a row, with a cut for each thread. The own cut of a place is just behind it, and is not looked up: so a
/// row that differs from that of an earlier place of the thread in the own cut alone is not stored again.
///
/// Contracts see the list of the whole rows.
#[derive(Drop)]
pub struct Rows {
    cuts: Vec<u32>,
    shares: Vec<Share>,
}

impl Model for Rows {
    ghost use Rattle.std.specs.Prelude.{ℕ, List};

    ghost Value = { List (List ℕ) };

    ghost use Rattle.closed_fronts.specs.Shares.{rows_in, HasShares};

    ghost view = { rows_in };

    ghost invariant = { HasShares };
}

impl Rows {
    /// No rows. There is room for one of each place.
    pub fn new(alloc: Global, places: u32, threads: u16) -> Result<Rows, AllocError>
        ensures { IfOk result (λ rows. rows ≡ []) }
    {
        Ok(Rows {
            cuts: Vec::with_capacity(alloc, places as usize * threads as usize)?,
            shares: Vec::with_capacity(alloc, places as usize)?,
        })
    }

    /// The cut of a thread in the row of a place.
    pub fn cut(&self, place: u32, thread: u16) -> u32
        requires place { place < length self.now }
        requires thread { thread < length (row_in self.now place) }
        ensures { result ≡ slice_index (row_in self.now place) thread }
    {
        let share = self.shares[place as usize];
        if thread == share.thread {
            return place + 1;
        }
        self.cuts[share.start as usize + thread as usize]
    }

    /// The set becomes the union of itself and the row of a place.
    pub fn join_into(&self, cuts: &mut [u32], place: u32)
        requires place { place < length self.now }
        requires size { length cuts.old ≡ length (row_in self.now place) }
        ensures { IsJoin cuts.old (row_in self.now place) cuts.new }
    {
        let share = self.shares[place as usize];
        let start = share.start as usize;
        join(cuts, &self.cuts[start..start + share.size as usize]);
        let own = share.thread as usize;
        cuts[own] = cuts[own].max(place + 1);
    }

    // The row of a place by itself.
    fn copied(&self, alloc: Global, place: u32) -> Result<Vec<u32>, AllocError>
        requires { place < length self.now }
        ensures { IfOk result (λ row. row.items ≡ row_in self.now place) }
    {
        let share = self.shares[place as usize];
        let start = share.start as usize;
        let mut row = self.cuts[start..start + share.size as usize].to_vec(alloc)?;
        row[share.thread as usize] = place + 1;
        Ok(row)
    }

    // The next place gets a row that is stored by itself, with the own cut of its thread just behind it.
    fn push_row(&mut self, cuts: &[u32], thread: u16) -> Result<(), OutOfMemory>
        requires few { length self.old < MAX_EVENTS }
        requires width { length cuts.now ≤ MAX_THREADS }
        requires thread { thread < length cuts.now }
        requires own { slice_index cuts.now thread ≡ length self.old + 1 }
        ensures { OnOk result (self.new ≡ self.old ++ cuts.now ∷ []) }
    {
        let Ok(start) = u32::try_from(self.cuts.len()) else {
            return Err(OutOfMemory);
        };
        self.cuts.extend_from_slice(cuts)?;
        let share = Share {
            start,
            size: cuts.len() as u16,
            thread,
        };
        let Ok(()) = self.shares.push(share) else {
            return Err(OutOfMemory);
        };
        Ok(())
    }

    // Whether the cuts are the row of a source of the thread, but for the own cut.
    fn is_like(&self, source: u32, cuts: &[u32], thread: u16) -> bool
        requires source { source < length self.now }
        requires size { length (row_in self.now source) ≡ length cuts.now }
        ensures { IsTrue result → slice_set (row_in self.now source) thread (slice_index cuts.now thread) ≡ cuts.now }
    {
        let share = self.shares[source as usize];
        if thread != share.thread {
            return false;
        }
        let start = share.start as usize;
        let row = &self.cuts[start..start + share.size as usize];
        are_alike(row, cuts, thread)
    }

    /// The next place, of the thread, gets the row of a source, but that its own cut is just behind it. If the source is of
    /// the thread too, the places share the row.
    pub fn push_shared(
        &mut self,
        alloc: Global,
        source: u32,
        thread: u16,
    ) -> Result<(), OutOfMemory>
        requires few { length self.old < MAX_EVENTS }
        requires source { source < length self.old }
        requires width { length (row_in self.old source) ≤ MAX_THREADS }
        requires thread { thread < length (row_in self.old source) }
        ensures { OnOk result (self.new ≡ self.old ++ slice_set (row_in self.old source) thread (length self.old + 1) ∷ []) }
    {
        let share = self.shares[source as usize];
        if share.thread != thread {
            let mut row = self.copied(alloc, source)?;
            row[thread as usize] = self.shares.len() as u32 + 1;
            return self.push_row(&row, thread);
        }
        let Ok(()) = self.shares.push(share) else {
            return Err(OutOfMemory);
        };
        Ok(())
    }

    /// The next place, of the thread, gets a row, of which the own cut is just behind it. If a source is given that is of
    /// the thread too, and whose row differs in no other cut, the places share the row.
    pub fn push(
        &mut self,
        alloc: Global,
        source: Option<u32>,
        cuts: &[u32],
        thread: u16,
    ) -> Result<(), OutOfMemory>
        requires few { length self.old < MAX_EVENTS }
        requires source { IfSome source (λ q. (q < length self.old) × (length (row_in self.old q) ≡ length cuts.now)) }
        requires width { length cuts.now ≤ MAX_THREADS }
        requires thread { thread < length cuts.now }
        requires own { slice_index cuts.now thread ≡ length self.old + 1 }
        ensures { OnOk result (self.new ≡ self.old ++ cuts.now ∷ []) }
    {
        let Some(source) = source else {
            return self.push_row(cuts, thread);
        };
        if !self.is_like(source, cuts, thread) {
            return self.push_row(cuts, thread);
        }
        self.push_shared(alloc, source, thread)
    }
}
