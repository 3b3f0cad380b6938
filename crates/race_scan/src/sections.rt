// Sections of locks that are acquired again.
ghost use Rattle.std.specs.Prelude.{ℕ, ◌≡◌, ◌<◌, true, IsTrue, length};
ghost use Rattle.trace_laws.specs.Reordering.{Conflict};
ghost use Rattle.trace_index.specs.HeldSets.{IsAcquire};
ghost use Rattle.race_scan.specs.Passed.{IsOut};
ghost use Rattle.race_scan.specs.Enclosed.{IsTakenAgain, EndsBehind};

use crate::candidates::thread_of;
use trace_index::Index;

// Whether the thread acquires the lock of an acquire again, behind it and before the later place.
fn is_taken_again(index: &Index<'_>, acquire: u32, thread: u16, later: u32) -> bool
    requires acquire { IsAcquire index.now.events acquire }
    requires later { later < length index.now.events }
    ensures { result ≡ true → IsTakenAgain index.now.events acquire thread later }
{
    match index.next(acquire).get(thread as usize) {
        Some(next) => *next < later,
        None => false,
    }
}

// Whether the section of an acquire ends behind the place.
fn ends_behind(index: &Index<'_>, acquire: u32, place: u32) -> bool
    requires { IsAcquire index.now.events acquire }
    ensures { result ≡ true → EndsBehind index.now.events acquire place }
{
    match index.release(acquire) {
        Some(release) => place < release,
        None => false,
    }
}

// Whether the section of an acquire holds the place, and its lock is acquired again before the later place by that one's
// thread.
fn encloses(index: &Index<'_>, acquire: u32, place: u32, thread: u16, later: u32) -> bool
    requires acquire { IsAcquire index.now.events acquire }
    requires later { later < length index.now.events }
    ensures again { result ≡ true → IsTakenAgain index.now.events acquire thread later }
    ensures ends { result ≡ true → EndsBehind index.now.events acquire place }
{
    if !is_taken_again(index, acquire, thread, later) {
        return false;
    }
    ends_behind(index, acquire, place)
}

/// Whether the place stands in a section of a lock that the thread of the later place acquires between the two. Then each
/// closed set that holds what comes before the two holds the end of the section, and so the place.
pub fn is_enclosed(index: &Index<'_>, place: u32, later: u32) -> bool
    requires place { place < length index.now.events }
    requires later { later < length index.now.events }
    ensures { result ≡ true → IsOut index.now.events later place }
{
    let thread = thread_of(index, later);
    let mut section = index.opened(place);
    while let Some(acquire) = section {
        if encloses(index, acquire, place, thread, later) {
            return true;
        }
        section = index.outer(acquire);
    }
    false
}
