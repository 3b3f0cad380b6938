// Sets of locks, as lists of their numbers from the least on.
ghost use Rattle.std.specs.Prelude.{ℕ, ◌≡◌, ◌≢◌, ◌↔◌, ◌⊎◌, IsTrue, Contains, OnOk};
ghost use Rattle.trace_laws.specs.Reordering.{Rises};

use sp_base::OutOfMemory;

/// Puts a lock into the set.
pub fn insert(set: &mut Vec<u32>, lock: u32) -> Result<(), OutOfMemory>
    requires { Rises set.old.items }
    ensures order { OnOk result (Rises set.new.items) }
    ensures members { OnOk result ((l : ℕ) → Contains set.new.items l ↔ ((l ≡ lock) ⊎ Contains set.old.items l)) }
{
    let Err(at) = set.binary_search(&lock) else {
        return Ok(());
    };
    let Ok(()) = set.insert(at, lock) else {
        return Err(OutOfMemory);
    };
    Ok(())
}

/// Takes a lock out of the set.
pub fn remove(set: &mut Vec<u32>, lock: u32)
    requires { Rises set.old.items }
    ensures order { Rises set.new.items }
    ensures members { (l : ℕ) → Contains set.new.items l ↔ ((l ≢ lock) × Contains set.old.items l) }
{
    if let Ok(at) = set.binary_search(&lock) {
        set.remove(at);
    }
}

/// Whether a lock is in the set.
pub fn has(set: &[u32], lock: u32) -> bool
    requires { Rises set.now }
    ensures { IsTrue result ↔ Contains set.now lock }
{
    set.binary_search(&lock).is_ok()
}

/// Whether two sets have no lock in common.
pub fn are_apart(left: &[u32], right: &[u32]) -> bool
    requires left { Rises left.now }
    requires right { Rises right.now }
    ensures { IsTrue result ↔ ((l : ℕ) → Contains left.now l → Contains right.now l → ⊥) }
{
    let mut i = 0;
    let mut j = 0;
    while i < left.len() && j < right.len() {
        if left[i] == right[j] {
            return false;
        }
        if left[i] < right[j] {
            i += 1;
        } else {
            j += 1;
        }
    }
    true
}
