// Sections that are torn by a set: it has the acquire and a later one of the lock, and not the release.
ghost use Rattle.std.specs.Prelude.{ℕ, ◌≡◌, ◌<◌, ◌≤◌, ◌↔◌, Some, IfSome, IfNone, IsTrue};
ghost use Rattle.trace_laws.specs.Trace.{thread_at};
ghost use Rattle.closed_fronts.specs.Rows.{IsSteady, IsMended, IsBrokenAt, IsTorn, AreUnbroken, IsAcquireBelow};

use crate::joining::is_below_some;
use crate::ties::Ties;

// Whether the section of an acquire of the set is torn. The cut is that of the thread of the acquire.
fn is_torn(ties: &Ties, cuts: &[u32], acquire: u32, cut: u32) -> bool
    requires steady { IsSteady ties.now.events ties.now.threads cuts.now }
    requires acquire { IsAcquireBelow ties.now.events cuts.now acquire cut }
    ensures { IsTrue result ↔ IsTorn ties.now.events cuts.now acquire }
{
    if !is_below_some(ties.next(acquire), cuts) {
        return false;
    }
    let Some(release) = ties.release(acquire) else {
        return false;
    };
    cut <= release
}

// The acquire of the latest torn section of the thread.
fn torn_of(ties: &Ties, cuts: &[u32], thread: u16) -> Option<u32>
    requires steady { IsSteady ties.now.events ties.now.threads cuts.now }
    requires thread { thread < ties.now.threads }
    ensures some { IfSome result (IsTorn ties.now.events cuts.now) }
    ensures none { IfNone result ((a r : ℕ) → thread_at ties.now.events a ≡ Some thread → IsBrokenAt ties.now.events cuts.now a r → ⊥) }
{
    let cut = cuts[thread as usize];
    if cut == 0 {
        return None;
    }
    let mut open = ties.opened(cut - 1);
    while let Some(acquire) = open {
        if is_torn(ties, cuts, acquire, cut) {
            return Some(acquire);
        }
        open = ties.outer(acquire);
    }
    None
}

// The same for one of the threads from one number on and below another.
fn torn_between(ties: &Ties, cuts: &[u32], from: u16, to: u16) -> Option<u32>
    requires steady { IsSteady ties.now.events ties.now.threads cuts.now }
    requires known { to ≤ ties.now.threads }
    ensures some { IfSome result (IsTorn ties.now.events cuts.now) }
    ensures none { IfNone result (AreUnbroken ties.now.events cuts.now from to) }
{
    for thread in from..to {
        if let Some(acquire) = torn_of(ties, cuts, thread) {
            return Some(acquire);
        }
    }
    None
}

/// The acquire of some torn section. The search begins at a thread, and goes round.
pub fn torn(ties: &Ties, cuts: &[u32], start: u16) -> Option<u32>
    requires steady { IsSteady ties.now.events ties.now.threads cuts.now }
    requires start { start ≤ ties.now.threads }
    ensures some { IfSome result (IsTorn ties.now.events cuts.now) }
    ensures none { IfNone result (IsMended ties.now.events cuts.now) }
{
    // A trace names threads below their number, as its length says.
    let _ = ties.len();
    if let Some(acquire) = torn_between(ties, cuts, start, ties.threads()) {
        return Some(acquire);
    }
    torn_between(ties, cuts, 0, start)
}
