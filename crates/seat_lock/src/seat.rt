//! The seats of a lock, and how they are made and gathered.

ghost use Rattle.std.specs.Prelude.{◌≡◌, None, []};
ghost use Rattle.seat_lock.specs.Tallies.{HasFirst, IsOne};
ghost use Rattle.seat_lock.specs.Views.{slots_for, without_first, first_alone, both_views};

use crate::Tallied;
use crate::rule::{FirstAlone, Locking, Opened, Together, View};
use atomic_table::{Seat, Table};
use std::alloc::Global;

/// The word and the slot of a lock.
pub type LockTable<S> = Table<Option<S>, View<S>, Opened<S>, Locking<S>, Global>;

/// A seat of a lock, for one thread at a time.
///
/// Contracts see of it its lock, its number, its count, and the state that it has taken, if any.
pub struct LockSeat<S> {
    pub(crate) seat: Seat<Option<S>, View<S>>,
    ghost one: { IsOne seat.me.0.owned },
    ghost slots: { seat.me.1 ≡ slots_for seat.me.0.taken },
}

impl<S> Drop for LockSeat<S> {
    fn drop(self) {
        let Self { seat: _ } = self;
    }
}

impl<S> LockSeat<S> {
    // The seat of the table.
    fn open(self) -> Seat<Option<S>, View<S>>
        ensures { result ≡ self.seat }
    {
        let Self { seat } = self;
        seat
    }
}

// The first number of the lock's own seat, as a seat of its own.
pub(crate) fn cut<S: Tallied>(
    table: &LockTable<S>,
    own: &mut Seat<Option<S>, View<S>>,
) -> LockSeat<S>
    requires table { (own.old.table_id ≡ table.now.shared.table_id) × (table.now.shared.table_id.words ≡ 1) }
    requires free { own.old.me.0.taken ≡ None }
    requires some { HasFirst own.old.me.0.owned }
    ensures own { (own.new.table_id ≡ own.old.table_id) × (own.new.me ≡ (without_first own.old.me.0, own.old.me.1)) }
    ensures seat { (result.seat.table_id ≡ own.old.table_id) × (result.seat.me ≡ (first_alone own.old.me.0, [])) }
{
    let seat = table.shared.split_seat::<FirstAlone>(own);
    LockSeat { seat }
}

// What the seat owns goes to the lock's own seat.
pub(crate) fn absorb<S: Tallied>(
    table: &LockTable<S>,
    own: &mut Seat<Option<S>, View<S>>,
    seat: LockSeat<S>,
)
    requires table { (own.old.table_id ≡ table.now.shared.table_id) × (table.now.shared.table_id.words ≡ 1) }
    requires seat { (seat.seat.table_id ≡ table.now.shared.table_id) × (seat.seat.me.0.taken ≡ None) }
    requires free { own.old.me.0.taken ≡ None }
    requires some { HasFirst own.old.me.0.owned }
    ensures { (own.new.table_id ≡ own.old.table_id) × (own.new.me ≡ (both_views own.old.me.0 seat.seat.me.0, own.old.me.1)) }
{
    table.shared.join_seat::<Together>(own, seat.open());
}
