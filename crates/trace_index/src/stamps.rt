//! The stamps of places: counts of the least sets that are closed under program order and writers.

ghost use Rattle.std.specs.Prelude.{ℕ, ◌≡◌, ◌<◌, ◌≤◌, ◌*◌, ◌+◌, length, IfOk, IfSome};
ghost use Rattle.trace_index.specs.Stamps.{IsStamp, IsStampRow, AreStamps, IsRaised};

use crate::index::Index;
use closed_fronts::{Fronts, join};
use sp_base::OutOfMemory;
use std::alloc::{AllocError, Global};
use std::marker::Model;

/// The stamps of all places of a trace: for each place and each thread a count, row by row in one region.
///
/// Contracts see the trace. No search needs them: closed sets are found from rows that are closed under the rule of releases
/// too. So they are made for whoever asks, and an index takes no room for them.
#[derive(Drop)]
pub struct Stamps<'a> {
    fronts: &'a Fronts<'a>,
    counts: Vec<u32>,
}

impl<'a> Model for Stamps<'a> {
    ghost use Rattle.trace_laws.specs.Traces.{History};

    ghost Value = { History };

    ghost use Rattle.trace_index.specs.Stamped.{history_in, AreStamped};

    ghost view = { history_in };

    ghost invariant = { AreStamped };
}

// Joins a row of counts with the stamp of a place, if it is given.
fn raise_given(stamps: &[u32], row: &mut [u32], source: Option<u32>)
    requires { IfSome source (λ q. q * length row.old + length row.old ≤ length stamps.now) }
    ensures { IsRaised stamps.now source row.old row.new }
{
    let Some(source) = source else {
        return;
    };
    let width = row.len();
    let start = source as usize * width;
    join(row, &stamps[start..start + width]);
}

// The row becomes the stamp of a place, where the places before it have theirs.
fn fill(fronts: &Fronts<'_>, stamps: &[u32], row: &mut [u32], place: u32)
    requires place { place < length fronts.now.events }
    requires stamps { AreStamps fronts.now.events fronts.now.threads place stamps.now }
    requires size { length row.old ≡ fronts.now.threads }
    ensures { IsStampRow fronts.now.events fronts.now.threads place row.new }
{
    // A trace is lawful, as its number of threads says.
    let _ = fronts.threads();
    row.fill(0);
    raise_given(stamps, row, fronts.own(place));
    raise_given(stamps, row, fronts.joined(place));
    raise_given(stamps, row, fronts.writer(place));
    let thread = fronts.event(place).thread.value();
    row[thread as usize] = fronts.count(thread, place + 1);
}

// The stamps of all places, row by row, in one region.
fn stamps_of(alloc: Global, fronts: &Fronts<'_>) -> Result<Vec<u32>, AllocError>
    ensures { IfOk result (λ stamps. AreStamps fronts.now.events fronts.now.threads (length fronts.now.events) stamps.items) }
{
    let len = fronts.places().trace().len();
    let mut row = vec![in alloc; 0; fronts.threads() as usize]?;
    let mut stamps = Vec::with_capacity(alloc, len as usize * row.len())?;
    for place in 0..len {
        fill(fronts, &stamps, &mut row, place);
        stamps.extend_from_slice(&row)?;
    }
    Ok(stamps)
}

impl<'a> Stamps<'a> {
    /// The stamps of the trace of an index. The only error is want of memory.
    pub fn build(alloc: Global, index: &'a Index<'a>) -> Result<Stamps<'a>, OutOfMemory>
        ensures { IfOk result (λ stamps. stamps ≡ index.now) }
    {
        let fronts = index.fronts();
        let counts = stamps_of(alloc, fronts)?;
        Ok(Stamps { fronts, counts })
    }

    /// The stamp of a place: for each thread the number of its places in the least set that holds the place and is closed
    /// under program order and writers.
    pub fn stamp(&self, place: u32) -> &[u32]
        requires { place < length self.now.events }
        ensures { IsStamp self.now.events self.now.threads place result.now }
    {
        let width = self.fronts.threads() as usize;
        let start = place as usize * width;
        &self.counts[start..start + width]
    }
}
