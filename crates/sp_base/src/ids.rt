//! Numbers of threads, locks and variables.

ghost use Rattle.std.specs.Prelude.{◌≡◌, ◌<◌, SomeIff};

use crate::limits::{MAX_LOCKS, MAX_THREADS, MAX_VARS};
use std::marker::Model;

/// The number of a thread, below `MAX_THREADS`. Contracts see the number.
#[derive(Clone, Copy, Debug, PartialEq, Eq, PartialOrd, Ord, Hash)]
pub struct ThreadId(u16);

/// The number of a lock, below `MAX_LOCKS`. Contracts see the number.
#[derive(Clone, Copy, Debug, PartialEq, Eq, PartialOrd, Ord, Hash)]
pub struct LockId(u32);

/// The number of a variable, below `MAX_VARS`. Contracts see the number.
#[derive(Clone, Copy, Debug, PartialEq, Eq, PartialOrd, Ord, Hash)]
pub struct VarId(u32);

impl Model for ThreadId {
    ghost use Rattle.std.specs.Prelude.{ℕ, ◌<◌};
    ghost use Rattle.sp_base.specs.declared.limits.TheConstants.{MAX_THREADS};

    ghost Value = { ℕ };

    ghost view = { λ id. id.0 };

    ghost invariant = { λ id. id.0 < MAX_THREADS };

    ghost inverse = { λ n. record { 0 = n } };
}

impl Model for LockId {
    ghost use Rattle.std.specs.Prelude.{ℕ, ◌<◌};
    ghost use Rattle.sp_base.specs.declared.limits.TheConstants.{MAX_LOCKS};

    ghost Value = { ℕ };

    ghost view = { λ id. id.0 };

    ghost invariant = { λ id. id.0 < MAX_LOCKS };

    ghost inverse = { λ n. record { 0 = n } };
}

impl Model for VarId {
    ghost use Rattle.std.specs.Prelude.{ℕ, ◌<◌};
    ghost use Rattle.sp_base.specs.declared.limits.TheConstants.{MAX_VARS};

    ghost Value = { ℕ };

    ghost view = { λ id. id.0 };

    ghost invariant = { λ id. id.0 < MAX_VARS };

    ghost inverse = { λ n. record { 0 = n } };
}

impl ThreadId {
    /// The thread of that number, or none where the number is not below `MAX_THREADS`.
    pub fn new(value: u16) -> Option<ThreadId>
        ensures { SomeIff result (value < MAX_THREADS) value }
    {
        if value < MAX_THREADS {
            Some(ThreadId(value))
        } else {
            None
        }
    }

    /// The number of the thread.
    pub fn value(&self) -> u16
        ensures value { result ≡ self.now }
        ensures below { self.now < MAX_THREADS }
    {
        self.0
    }
}

impl LockId {
    /// The lock of that number, or none where the number is not below `MAX_LOCKS`.
    pub fn new(value: u32) -> Option<LockId>
        ensures { SomeIff result (value < MAX_LOCKS) value }
    {
        if value < MAX_LOCKS {
            Some(LockId(value))
        } else {
            None
        }
    }

    /// The number of the lock.
    pub fn value(&self) -> u32
        ensures value { result ≡ self.now }
        ensures below { self.now < MAX_LOCKS }
    {
        self.0
    }
}

impl VarId {
    /// The variable of that number, or none where the number is not below `MAX_VARS`.
    pub fn new(value: u32) -> Option<VarId>
        ensures { SomeIff result (value < MAX_VARS) value }
    {
        if value < MAX_VARS {
            Some(VarId(value))
        } else {
            None
        }
    }

    /// The number of the variable.
    pub fn value(&self) -> u32
        ensures value { result ≡ self.now }
        ensures below { self.now < MAX_VARS }
    {
        self.0
    }
}
