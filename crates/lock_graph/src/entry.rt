// The acquires of one class, and its key.
use sp_base::{LockId, ThreadId};

/// One class: its thread, its lock, its held set from the least lock on, and its acquires in the order of the trace.
#[derive(Drop)]
pub struct Entry<'a> {
    pub thread: ThreadId,
    pub lock: LockId,
    pub held: &'a [u32],
    pub acquires: Vec<u32>,
}

/// What the acquires of one class have in common: the thread, the lock, and the first acquire of the trace with their held
/// set.
#[derive(Clone, Copy, Debug, PartialEq, Eq, Hash)]
pub struct Key {
    pub thread: ThreadId,
    pub lock: LockId,
    pub alike: u32,
}
