//! Two threads that take turns at one state.

ghost use Rattle.std.specs.Prelude.{◌≡◌, ◌<◌, ◌^◌, None, length};
ghost use Rattle.seat_lock.specs.Shown.{given, seat_taken, IsSeatOf, IsSeatWith};

use crate::{Grant, LockState};
use script_machine::{Recording, Script};
use seat_lock::{LockSeat, SeatLock};
use sp_base::{OutOfMemory, ThreadId};
use std::alloc::Global;
use std::sync::Wait;
use std::test::Fail;
use std::thread;
use std::thread::Threads;

/// One turn of a thread at a state that others share.
#[derive(Drop)]
struct Turn<'m, 'a> {
    lock: &'m SeatLock<LockState<'a>>,
    seat: LockSeat<LockState<'a>>,
    thread: ThreadId,
    ghost of: { IsSeatWith lock.now thread 0 None seat },
    ghost inside: { thread < length (given lock.now).machine.script.bodies },
}

impl<'m, 'a> Turn<'m, 'a> {
    fn new(
        lock: &'m SeatLock<LockState<'a>>,
        seat: LockSeat<LockState<'a>>,
        thread: ThreadId,
    ) -> Turn<'m, 'a>
        requires of { IsSeatWith lock.now thread 0 None seat }
        requires inside { thread < length (given lock.now).machine.script.bodies }
        ensures { result.lock.now ≡ lock.now }
    {
        Turn { lock, seat, thread }
    }

    // The thread asks for its next step, with the state of the lock.
    fn make<R: Threads + Wait + Sync>(self, rt: &R) -> (Grant, LockSeat<LockState<'a>>)
        ensures lock { IsSeatOf self.entry.lock.now result.1 }
        ensures free { seat_taken result.1 ≡ None }
    {
        let Turn {
            lock,
            mut seat,
            thread,
        } = self;
        let mut state = lock.take(rt, &mut seat);
        let grant = state.grant(thread);
        lock.give(&mut seat, state);
        (grant, seat)
    }
}

// What two threads get, each with one turn, and the recording of the state after it.
fn both_turns<'a, R: Threads + Wait + Sync>(
    rt: &R,
    alloc: Global,
    script: &'a Script,
) -> Result<(Grant, Grant, Recording<'a>), OutOfMemory>
    requires { length script.now.bodies ≡ 2 }
{
    let (Some(zero), Some(one)) = (ThreadId::new(0), ThreadId::new(1)) else {
        unreachable!()
    };
    let state = LockState::new(alloc, script)?;
    let (lock, mut seats) = SeatLock::new(alloc, state, 2)?;
    let (Some(right), Some(left)) = (seats.pop(), seats.pop()) else {
        unreachable!()
    };
    let left = Turn::new(&lock, left, zero);
    let right = Turn::new(&lock, right, one);
    let ((first, left), (second, right)) = thread::join(
        rt,
        move || left.make(rt),
        move || right.make(rt),
    );
    let mut all = Vec::with_capacity(alloc, 2)?;
    all.push_reserved(left);
    all.push_reserved(right);
    Ok((first, second, lock.close(all).finish()))
}

// Whether the grant is an event of the thread, from that line of the text.
fn is_done(grant: Grant, thread: u16, line: u32) -> bool {
    match grant {
        Grant::Done(event) => event.thread.value() == thread && event.loc == line,
        Grant::Blocked | Grant::Ended => false,
    }
}

#[test]
fn each_of_two_threads_makes_its_step(rt: HostRuntime) -> Result<(), Fail> {
    let alloc = rt.alloc();
    let text = b"thread T0\nlock A\nthread T1\nwrite X 1\n".as_slice();
    let script = Script::read(alloc, text)?;
    assert_eq!(rt; script.threads(), 2);
    let (first, second, recording) = both_turns(&rt, alloc, &script)?;
    assert!(rt; is_done(first, 0, 2));
    assert!(rt; is_done(second, 1, 4));
    assert!(rt; recording.complete());
    Ok(())
}

// What the thread of the text gets in two turns, one after the other.
fn two_grants(alloc: Global, text: &[u8], thread: ThreadId) -> Option<(Grant, Grant)>
    requires { length text.now < 2 ^ 32 }
{
    let script = Script::read(alloc, text).ok()?;
    if thread.value() >= script.threads() {
        return None;
    }
    let mut state = LockState::new(alloc, &script).ok()?;
    let first = state.grant(thread);
    Some((first, state.grant(thread)))
}

#[test]
fn a_thread_without_a_step_is_blocked_or_has_ended(rt: HostRuntime) -> Result<(), Fail> {
    let one = ThreadId::new(1).ok_or("number")?;
    let waits = b"thread T0\nfork T1\nthread T1\nwrite X 1\n".as_slice();
    let empty = b"thread T0\nwrite X 1\nthread T1\n".as_slice();
    assert_eq!(rt;
        two_grants(rt.alloc(), waits, one),
        Some((Grant::Blocked, Grant::Blocked))
    );
    assert_eq!(rt;
        two_grants(rt.alloc(), empty, one),
        Some((Grant::Ended, Grant::Ended))
    );
    Ok(())
}
