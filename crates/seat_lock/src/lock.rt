//! The lock.

ghost use Rattle.std.specs.Prelude.{◌≡◌, ℕ, ◌<◌, ◌+◌, None, Some, IfOk, All, vec_len, length, slice_get, []};
ghost use Rattle.seat_lock.specs.Tallies.{IsOne, AreTallied};
ghost use Rattle.seat_lock.specs.Views.{view};
ghost use Rattle.seat_lock.specs.Rested.{rested};

use crate::resting::Resting;
use crate::rule::{Give, Opened, Take, View};
use crate::seat::{LockTable, absorb, cut};
use crate::{LockSeat, Tallied};
use atomic_table::{Refused, Seat, Table};
use sp_base::OutOfMemory;
use std::alloc::Global;
use std::snapshot::Snapshot;
use std::sync::Wait;
use std::thread::Threads;

/// A lock for one state, which threads may share.
///
/// Contracts see of it the state that `new` was given and the number of its seats.
#[derive(Drop)]
pub struct SeatLock<S: Tallied> {
    table: LockTable<S>,
    own: Resting<Option<S>, View<S>>,
    seats: u16,
    ghost sized: { (table.shared.table_id.words ≡ 1) × (table.shared.table_id.slots ≡ 1) },
    ghost keyed: { table.shared.key.seats ≡ seats },
    ghost owned: { ((rested own).table_id ≡ table.shared.table_id) × IsOne (rested own).me.0.owned × ((rested own).me ≡ (view (rested own).me.0.owned None (Some table.shared.key.origin.value), [])) },
}

// The state, where the seat owns each number.
fn ended<S: Tallied>(table: LockTable<S>, own: Seat<Option<S>, View<S>>) -> S
    requires table { (own.table_id ≡ table.shared.table_id) × (table.shared.table_id.slots ≡ 1) }
    requires free { own.me.0.taken ≡ None }
    requires all { length own.me.0.owned ≡ table.shared.key.seats + 1 }
    ensures origin { S.one_origin table.shared.key.origin.value result }
    ensures tallies { AreTallied (S.tally result) own.me.0.owned }
{
    let mut closed = table.close_with(own);
    let state = closed.take(0);
    closed.free();
    state.unwrap()
}

impl<S: Tallied> SeatLock<S> {
    ghost use Rattle.seat_lock.specs.Shown.{given, lock_seats, seat_number, seat_count, seat_taken, IsSeatOf, IsSeatWith, MayGive};

    /// A lock for this state, and as many seats as asked for, with the numbers from 0 on in order.
    ///
    /// The state's tally at each of these numbers is 0, and so is each seat's count. There may be no seats. The only error
    /// is want of memory.
    pub fn new(
        alloc: Global,
        state: S,
        seats: u16,
    ) -> Result<(SeatLock<S>, Vec<LockSeat<S>>), OutOfMemory>
    where
        S: Drop,
        requires { (k : ℕ) → k < seats → S.tally state k ≡ 0 }
        ensures given { IfOk result (λ made. given made.0 ≡ state) }
        ensures number { IfOk result (λ made. lock_seats made.0 ≡ seats) }
        ensures length { IfOk result (λ made. vec_len made.1 ≡ seats) }
        ensures seats { IfOk result (λ made. (k : ℕ) (seat : LockSeat S) → slice_get made.1.items k ≡ Some seat → IsSeatWith made.0 k 0 None seat) }
    {
        let mut all = Vec::with_capacity(alloc, usize::from(seats))?;
        let mut slots = Vec::with_capacity(alloc, 1)?;
        let key = Opened {
            origin: Snapshot::of(&state),
            seats: u64::from(seats),
        };
        slots.push_reserved(Some(state));
        let (table, mut own) = match Table::new(alloc, &[0], slots, &key) {
            Ok(made) => made,
            Err(Refused { slots: _ }) => return Err(OutOfMemory),
        };
        for number in 0..seats {
            let seat = cut(&table, &mut own);
            all.push_reserved(seat);
        }
        let own = Resting::new(own);
        Ok((SeatLock { table, own, seats }, all))
    }

    /// Takes the state for this seat, which has taken none. It may wait until other seats have given it back.
    ///
    /// The state has one origin with that of `new`, and its tally at the seat's number is the seat's count.
    pub fn take<R: Threads + Wait + Sync>(&self, rt: &R, seat: &mut LockSeat<S>) -> S
        requires lock { IsSeatOf self.now seat.old }
        requires free { seat_taken seat.old ≡ None }
        ensures origin { S.one_origin (given self.now) result }
        ensures tally { S.tally result (seat_number seat.old) ≡ seat_count seat.old }
        ensures seat { IsSeatWith self.now (seat_number seat.old) (seat_count seat.old) (Some result) seat.new }
    {
        let shared = &self.table.shared;
        for _ in rt.forever() {
            let found = shared.compare_exchange::<Take>(&mut seat.seat, 0, 0, 1);
            if found == 0 {
                return shared.exchange(&mut seat.seat, 0, None).unwrap();
            }
            shared.park(rt, 0, 1);
        }
        unreachable!()
    }

    /// Gives a state back in place of the one that the seat has taken. It has one origin with that one, and the same tally
    /// at each number but the seat's own, at which its tally is the seat's count from now on.
    pub fn give(&self, seat: &mut LockSeat<S>, state: S)
        requires lock { IsSeatOf self.now seat.old }
        requires state { MayGive S.tally S.one_origin seat.old state }
        ensures seat { IsSeatWith self.now (seat_number seat.old) (S.tally state (seat_number seat.old)) None seat.new }
    {
        let shared = &self.table.shared;
        let before = shared.exchange(&mut seat.seat, 0, Some(state));
        let None = before else { unreachable!() };
        shared.store::<Give>(&mut seat.seat, 0, 0);
        shared.wake_one(0);
    }

    /// Ends the lock, with all of its seats, none of which has taken the state.
    ///
    /// The state has one origin with that of `new`, and its tally at each seat's number is that seat's count.
    pub fn close(self, mut seats: Vec<LockSeat<S>>) -> S
        requires all { vec_len seats ≡ lock_seats self }
        requires lock { All (λ seat. IsSeatOf self seat) seats.items }
        requires free { All (λ seat. seat_taken seat ≡ None) seats.items }
        ensures origin { S.one_origin (given self) result }
        ensures tallies { All (λ seat. S.tally result (seat_number seat) ≡ seat_count seat) seats.items }
    {
        let SeatLock {
            table,
            own,
            seats: _,
        } = self;
        let mut own = own.into_seat();
        while let Some(seat) = seats.pop() {
            absorb(&table, &mut own, seat);
        }
        ended(table, own)
    }
}
