//! The threads, the locks and the variables of drawn traces.

ghost use Rattle.std.specs.Prelude.{◌≡◌, ◌%◌};

use sp_base::{LockId, ThreadId, VarId};

/// How many threads there are.
pub(crate) const THREADS: usize = 4;

/// How many locks there are.
pub(crate) const LOCKS: u32 = 8;

/// How many variables there are.
pub(crate) const VARS: u32 = 64;

/// The thread that a word names.
pub(crate) fn thread_of(word: u32) -> ThreadId
    ensures { result ≡ word % THREADS }
{
    ThreadId::new((word % THREADS as u32) as u16).unwrap()
}

/// The lock that a word names.
pub(crate) fn lock_of(word: u32) -> LockId
    ensures { result ≡ word % LOCKS }
{
    LockId::new(word % LOCKS).unwrap()
}

/// The variable that a word names.
pub(crate) fn var_of(word: u32) -> VarId
    ensures { result ≡ word % VARS }
{
    VarId::new(word % VARS).unwrap()
}
