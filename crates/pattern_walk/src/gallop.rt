// Passing the acquires of a class that are in a set.
ghost use Rattle.std.specs.Prelude.{ℕ, ◌≡◌, ◌<◌, ◌≤◌, length, slice_index, Contains, IfNone, IfSome, false};
ghost use Rattle.sp_closure.specs.Members.{has};
ghost use Rattle.pattern_walk.specs.Instances.{AreInSet, IsInitial};

use sp_closure::Cursor;

// The first position from one on whose acquire is not in the set, where the one at the end is not.
fn halve(acquires: &[u32], cursor: &Cursor<'_>, start: usize, end: usize) -> usize
    requires acquires { (a : ℕ) → Contains acquires.now a → a < length cursor.now.trace.events }
    requires initial { IsInitial (has cursor.now.members) acquires.now }
    requires order { start ≤ end }
    requires within { end < length acquires.now }
    requires outside { has cursor.now.members (slice_index acquires.now end) ≡ false }
    ensures passed { AreInSet (has cursor.now.members) acquires.now start result }
    ensures within { result < length acquires.now }
    ensures from { start ≤ result }
    ensures outside { has cursor.now.members (slice_index acquires.now result) ≡ false }
{
    let mut low = start;
    let mut high = end;
    while low < high {
        let middle = low + (high - low) / 2;
        if cursor.has(acquires[middle]) {
            low = middle + 1;
            continue;
        }
        high = middle;
    }
    high
}

/// The position of the first acquire from one on that is not in the set of the cursor, which has with each acquire those
/// before it. The steps double until an acquire is not in the set, and halve from there on.
pub fn first_outside(acquires: &[u32], cursor: &Cursor<'_>, from: usize) -> Option<usize>
    requires acquires { (a : ℕ) → Contains acquires.now a → a < length cursor.now.trace.events }
    requires initial { IsInitial (has cursor.now.members) acquires.now }
    ensures none { IfNone result (AreInSet (has cursor.now.members) acquires.now from (length acquires.now)) }
    ensures passed { IfSome result (λ k. AreInSet (has cursor.now.members) acquires.now from k) }
    ensures position { IfSome result (λ k. k < length acquires.now) }
    ensures from { IfSome result (λ k. from ≤ k) }
    ensures outside { IfSome result (λ k. has cursor.now.members (slice_index acquires.now k) ≡ false) }
{
    let mut low = from;
    while low < acquires.len() {
        let probe = low + (low - from).min(acquires.len() - 1 - low);
        if !cursor.has(acquires[probe]) {
            return Some(halve(acquires, cursor, low, probe));
        }
        low = probe + 1;
    }
    None
}
