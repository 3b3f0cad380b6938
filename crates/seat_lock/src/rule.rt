//! The rule of the lock's word and slot, and the names of its steps.

ghost use Rattle.seat_lock.specs.Views.{opened, without_first, first_alone, both_views, spent_view};
ghost use Rattle.seat_lock.specs.Rule.{LockRule};
ghost use Rattle.seat_lock.specs.Steps.{took, gave};

use crate::Tallied;
use atomic_table::{Join, Play, Split, TableRule};
use std::collections::LinkedList;
use std::marker::PhantomData;
use std::snapshot::Snapshot;

/// What a seat knows: the numbers that it owns, each with its count, the state that it has taken, and the state that
/// `SeatLock::new` was given. No value of it is made.
pub struct View<S> {
    pub owned: LinkedList<(u64, u64)>,
    pub taken: Option<S>,
    pub origin: Option<S>,
}

/// What a lock is told once: the state that it begins with, and how many numbers there are beside its own.
pub struct Opened<S> {
    pub origin: Snapshot<S>,
    pub seats: u64,
}

impl<S> Drop for Opened<S> {
    fn drop(self) {
        let Self {
            origin: _,
            seats: _,
        } = self;
    }
}

/// The rule of a lock.
pub struct Locking<S> {
    marker: PhantomData<S>,
}

impl<S: Tallied> TableRule<Option<S>, View<S>, Opened<S>> for Locking<S> {
    ghost holds = { λ key. LockRule S.tally S.one_origin key.origin.value key.seats };

    ghost first = { λ key. opened S.tally key.origin.value key.seats };
}

/// The seat takes the state, where the word is 0.
pub struct Take;

impl<S: Tallied> Play<Option<S>, View<S>> for Take {
    ghost then = { took S.tally S.one_origin };
}

/// The seat gives back what is in its slot.
pub struct Give;

impl<S: Tallied> Play<Option<S>, View<S>> for Give {
    ghost then = { gave S.tally };
}

/// The first number goes to a new seat.
pub struct FirstAlone;

impl<S> Split<View<S>> for FirstAlone {
    ghost left = { without_first };

    ghost right = { first_alone };
}

/// The numbers of one seat go to another.
pub struct Together;

impl<S> Join<View<S>> for Together {
    ghost both = { both_views };

    ghost spent = { spent_view };
}
