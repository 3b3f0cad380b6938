//! The kept places of a trace.

ghost use Rattle.std.specs.Prelude.{◌≡◌, ◌≤◌, IfOk, length, sum};
ghost use Rattle.trace_laws.specs.Kept.{AreKept};
ghost use Rattle.replayer.specs.Reorders.{FollowsKeep};

use sp_base::{MAX_THREADS, OutOfMemory};
use std::alloc::Global;
use trace_laws::{Keep, Trace};

// How many events the counts keep together.
fn total(counts: &[u32]) -> u64
    requires { length counts.now ≤ MAX_THREADS }
    ensures { result ≡ sum counts.now }
{
    let mut total = 0;
    for count in counts {
        total += *count as u64;
    }
    total
}

/// The kept places: in the order of the trace, those whose number within their thread is below the thread's count.
///
/// Where the keep is that of places which some sync-preserving correct reordering leaves enabled, as those of a finding,
/// the kept places are the least such reordering. No event behind the last kept one is looked at. The only error is want
/// of memory.
pub fn reorder(alloc: Global, trace: &Trace, keep: &Keep) -> Result<Vec<u32>, OutOfMemory>
    requires { length keep.now ≡ trace.now.threads }
    ensures kept { IfOk result (λ places. AreKept trace.now.events keep.now places.items) }
    ensures least { IfOk result (λ places. FollowsKeep trace.now keep.now places.items) }
{
    let end = trace.len();
    // How many events are still to be kept, in all and of each thread.
    let mut rest = total(keep.counts());
    let mut left = Vec::from_slice(alloc, keep.counts())?;
    let mut places = Vec::new(alloc);
    for place in 0..end {
        if rest == 0 {
            return Ok(places);
        }
        let thread = trace.event(place).thread.value() as usize;
        let count = left[thread];
        let is_kept = count > 0;
        if is_kept {
            left[thread] = count - 1;
            rest -= 1;
            let Ok(()) = places.push(place) else {
                return Err(OutOfMemory);
            };
        }
    }
    Ok(places)
}
