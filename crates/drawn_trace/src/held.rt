//! What a thread holds, and what it does in a turn.

ghost use Rattle.std.specs.Prelude.{◌≡◌};
ghost use Rattle.drawn_trace.specs.Drawn.{acquire_or_release, choose, holds_lock, locks_after, is_free, may_acquire, release_or, with_last, without_last};

use crate::numbers::{LOCKS, lock_of, var_of};
use sp_base::LockId;
use trace_laws::Op;

/// The locks that a thread holds, two at most.
#[derive(Clone, Copy)]
pub(crate) enum Held {
    /// It holds none.
    Nothing,
    /// It holds one.
    One(LockId),
    /// It holds two, and took the second one last.
    Two(LockId, LockId),
}

impl Held {
    // Whether the lock is one of them.
    fn holds_lock(&self, lock: LockId) -> bool
        ensures { result ≡ holds_lock self.now lock }
    {
        match self {
            Held::Nothing => false,
            Held::One(only) => only.value() == lock.value(),
            Held::Two(first, last) => {
                first.value() == lock.value() || last.value() == lock.value()
            }
        }
    }

    // Whether a thread that holds these locks takes the lock of a word, where that one is free.
    fn may_acquire(&self, word: u32) -> bool
        ensures { result ≡ may_acquire self.now word }
    {
        match self {
            Held::Nothing => true,
            Held::One(only) => only.value() < word % LOCKS || word / LOCKS % 64 == 0,
            Held::Two(_, _) => false,
        }
    }

    // The release of the lock that was taken last, or else the other operation.
    fn release_or(&self, other: Op) -> Op
        ensures { result ≡ release_or self.now other }
    {
        match self {
            Held::Nothing => other,
            Held::One(only) => Op::Release(*only),
            Held::Two(_, last) => Op::Release(*last),
        }
    }

    /// What the thread holds after its operation.
    pub(crate) fn after(&self, op: &Op) -> Held
        ensures { result ≡ locks_after self.now op.now }
    {
        match op {
            Op::Acquire(lock) => self.with(*lock),
            Op::Release(_) => self.without_last(),
            Op::Read(_) | Op::Write(_) | Op::Fork(_) | Op::Join(_) => *self,
        }
    }

    // The locks with one more that is taken. A thread with two takes none.
    fn with(&self, lock: LockId) -> Held
        ensures { result ≡ with_last self.now lock }
    {
        match self {
            Held::Nothing => Held::One(lock),
            Held::One(first) => Held::Two(*first, lock),
            Held::Two(first, last) => Held::Two(*first, *last),
        }
    }

    // The locks without the one that was taken last.
    fn without_last(&self) -> Held
        ensures { result ≡ without_last self.now }
    {
        match self {
            Held::Nothing | Held::One(_) => Held::Nothing,
            Held::Two(first, _) => Held::One(*first),
        }
    }
}

// Whether no thread holds the lock.
fn is_free(held: &[Held], lock: LockId) -> bool
    ensures { result ≡ is_free held.now lock }
{
    !held.iter().any(|locks| locks.holds_lock(lock))
}

// An acquire of the lock of a word, where it may be taken, or a release of the lock that was taken last, or a read.
fn acquire_or_release(held: &[Held], own: &Held, word: u32) -> Op
    ensures { result ≡ acquire_or_release held.now own.now word }
{
    let lock = lock_of(word);
    if is_free(held, lock) && own.may_acquire(word) {
        return Op::Acquire(lock);
    }
    own.release_or(Op::Read(var_of(word)))
}

/// What a thread that holds its own locks does in a turn, by the first rule that applies.
pub(crate) fn choose(held: &[Held], own: &Held, action: u32, word: u32) -> Op
    ensures { result ≡ choose held.now own.now action word }
{
    if action < 3 {
        return Op::Read(var_of(word));
    }
    if action < 5 {
        return Op::Write(var_of(word));
    }
    if action < 7 {
        return acquire_or_release(held, own, word);
    }
    own.release_or(Op::Write(var_of(word)))
}
