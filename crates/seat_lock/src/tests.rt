//! What no clause says: that the calls answer, on two threads at once.

ghost use Rattle.std.specs.Prelude.{◌≡◌, ◌+◌, ◌<◌, None, IfOk};
ghost use Rattle.seat_lock.specs.Shown.{IsSeatWith};

use crate::{LockSeat, SeatLock, Tallied};
use sp_base::OutOfMemory;
use std::alloc::Global;
use std::sync::Wait;
use std::test::Fail;
use std::thread;
use std::thread::Threads;

/// What the seats 0 and 1 count into, with a name that stays.
#[derive(Drop, Debug, PartialEq, Eq)]
struct Scores {
    name: u64,
    left: u64,
    right: u64,
}

impl Tallied for Scores {
    ghost use Rattle.std.specs.Prelude.{◌≡◌, [], ◌∷◌, slice_index, refl};
    ghost use Rattle.std.proofs.Common.{sym, ◌∙◌};

    ghost tally = { λ p. slice_index (p.left ∷ p.right ∷ []) };

    ghost one_origin = { λ p q. p.name ≡ q.name };

    ghost reflexive = { λ p. refl };

    ghost symmetric = { λ p q same. sym same };

    ghost transitive = { λ p q r same too. same ∙ too };
}

// The seat of that number counts one.
fn score<R: Threads + Wait + Sync>(
    rt: &R,
    lock: &SeatLock<Scores>,
    seat: &mut LockSeat<Scores>,
    number: u64,
    count: u32,
)
    requires seat { IsSeatWith lock.now number count None seat.old }
    requires number { number < 2 }
    ensures { IsSeatWith lock.now number (count + 1) None seat.new }
{
    let mut scores = lock.take(rt, seat);
    if number == 0 {
        scores.left += 1;
    } else {
        scores.right += 1;
    }
    lock.give(seat, scores);
}

// The seat of that number counts from 0.
fn count<R: Threads + Wait + Sync>(
    rt: &R,
    lock: &SeatLock<Scores>,
    mut seat: LockSeat<Scores>,
    number: u64,
    times: u32,
) -> LockSeat<Scores>
    requires seat { IsSeatWith lock.now number 0 None seat }
    requires number { number < 2 }
    ensures { IsSeatWith lock.now number times None result }
{
    for counted in 0..times {
        score(rt, lock, &mut seat, number, counted);
    }
    seat
}

// Two threads count into one value.
fn count_both<R: Threads + Wait + Sync>(
    rt: &R,
    alloc: Global,
    one: u32,
    two: u32,
) -> Result<Scores, OutOfMemory>
    ensures { IfOk result (λ p. (p.name ≡ 7) × (p.left ≡ one) × (p.right ≡ two)) }
{
    let scores = Scores {
        name: 7,
        left: 0,
        right: 0,
    };
    let (lock, mut seats) = SeatLock::new(alloc, scores, 2)?;
    let (Some(right), Some(left)) = (seats.pop(), seats.pop()) else {
        unreachable!()
    };
    let shared = &lock;
    let (left, right) = thread::join(
        rt,
        move || -> LockSeat<Scores>
            requires { IsSeatWith shared.now 0 0 None left }
            ensures { IsSeatWith shared.entry.now 0 one None result }
        { count(rt, shared, left, 0, one) },
        move || -> LockSeat<Scores>
            requires { IsSeatWith shared.now 1 0 None right }
            ensures { IsSeatWith shared.entry.now 1 two None result }
        { count(rt, shared, right, 1, two) },
    );
    let mut all = Vec::with_capacity(alloc, 2)?;
    all.push_reserved(left);
    all.push_reserved(right);
    Ok(lock.close(all))
}

#[test]
fn two_threads_count(rt: HostRuntime) -> Result<(), Fail> {
    let scores = count_both(&rt, rt.alloc(), 1_000, 2_000)?;
    let wanted = Scores {
        name: 7,
        left: 1_000,
        right: 2_000,
    };
    assert_eq!(rt; scores, wanted);
    Ok(())
}

#[test]
fn a_lock_without_seats_gives_its_state_back(rt: HostRuntime) -> Result<(), Fail> {
    let alloc = rt.alloc();
    let scores = Scores {
        name: 3,
        left: 1,
        right: 2,
    };
    let (lock, seats) = SeatLock::new(alloc, scores, 0)?;
    assert_eq!(rt; seats.len(), 0);
    let wanted = Scores {
        name: 3,
        left: 1,
        right: 2,
    };
    assert_eq!(rt; lock.close(seats), wanted);
    Ok(())
}
