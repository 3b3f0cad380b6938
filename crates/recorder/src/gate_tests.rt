//! Two threads that wait for each other before their calls.

ghost use Rattle.std.specs.Prelude.{◌≡◌, length};
ghost use Rattle.recorder.specs.Passes.{manager_script, IsPassOf};

use crate::workers::Worker;
use crate::{Call, Manager, Pass, record};
use script_machine::{Recording, Script};
use sp_base::{Gate, MAX_INPUT, ThreadId};
use std::alloc::Global;
use std::sync::Wait;
use std::sync::atomic::{AtomicBool, Ordering};
use std::thread;
use std::thread::Threads;

/// How many turns a thread waits for the other.
const TURNS: u32 = 10_000_000;

/// A gate at which each of the threads 0 and 1 waits until the other has come to it too.
#[derive(Drop)]
struct Meeting {
    zero_came: AtomicBool,
    one_came: AtomicBool,
    gave_up: AtomicBool,
}

impl Meeting {
    fn new() -> Meeting {
        Meeting {
            zero_came: AtomicBool::new(false),
            one_came: AtomicBool::new(false),
            gave_up: AtomicBool::new(false),
        }
    }

    // Whether both threads came, and none gave up.
    fn was_held(&self) -> bool {
        self.zero_came.load(Ordering::SeqCst)
            && self.one_came.load(Ordering::SeqCst)
            && !self.gave_up.load(Ordering::SeqCst)
    }

    // Waits for the other thread, for at most so many turns.
    fn wait_for(&self, came: &AtomicBool) {
        for _ in 0..TURNS {
            if came.load(Ordering::SeqCst) {
                return;
            }
            thread::yield_now();
        }
        self.gave_up.store(true, Ordering::SeqCst);
    }
}

impl Gate for Meeting {
    fn before(&self, thread: ThreadId, _call: u32) {
        if thread.value() == 0 {
            self.zero_came.store(true, Ordering::SeqCst);
            self.wait_for(&self.one_came);
        } else {
            self.one_came.store(true, Ordering::SeqCst);
            self.wait_for(&self.zero_came);
        }
    }

    fn inside(&self, _thread: ThreadId, _call: u32) {}

    fn job(&self, _number: u32) {}
}

// Two threads that each make one step, of different variables.
const TWO_WRITES: &[u8] = b"thread T0\nwrite X 1\nthread T1\nwrite Y 1\n";

/// How many events a recording has after which no thread can step.
pub(crate) fn whole(recording: &Recording) -> Option<u32> {
    match recording.complete() {
        true => Some(recording.trace().len()),
        false => None,
    }
}

/// How many events are recorded of the text with the gate, and then no thread can step.
pub(crate) fn recorded<R: Threads + Wait + Sync, G: Gate + Sync>(
    rt: &R,
    alloc: Global,
    text: &[u8],
    gate: &G,
) -> Option<u32> {
    if text.len() > MAX_INPUT as usize {
        return None;
    }
    let Ok(script) = Script::read(alloc, text) else {
        return None;
    };
    let Ok(recording) = record(rt, alloc, &script, gate) else {
        return None;
    };
    whole(&recording)
}

#[test]
fn two_workers_meet_at_the_gate(rt: HostRuntime) {
    let meeting = Meeting::new();
    assert_eq!(rt; recorded(&rt, rt.alloc(), TWO_WRITES, &meeting), Some(2));
    assert!(rt; meeting.was_held());
}

/// Whether one call of the worker's pass is done, and the pass after it.
pub(crate) fn call_once<'m, 'a, R: Threads + Wait + Sync, G: Gate>(
    rt: &R,
    worker: Worker<'m, 'a>,
    gate: &G,
) -> (bool, Pass<'a>)
    ensures { IsPassOf worker.entry.manager.now result.1 }
{
    let Worker { manager, mut pass } = worker;
    match manager.call(rt, &mut pass, gate) {
        Call::Done(_) => (true, pass),
        Call::Ended | Call::Parked(_) => (false, pass),
    }
}

/// How many events are recorded after a call of each of the two passes, each on a thread of its own, and then no thread can
/// step; none where a call is not done.
pub(crate) fn after_both<'a, R: Threads + Wait + Sync, G: Gate + Sync>(
    rt: &R,
    alloc: Global,
    manager: Manager<'a>,
    zero: Pass<'a>,
    one: Pass<'a>,
    gate: &G,
) -> Option<u32>
    requires two { length (manager_script manager).bodies ≡ 2 }
    requires zero { IsPassOf manager zero }
    requires one { IsPassOf manager one }
{
    let zero = Worker::new(&manager, zero);
    let one = Worker::new(&manager, one);
    let ((zero_done, zero), (one_done, one)) = thread::join(
        rt,
        move || call_once(rt, zero, gate),
        move || call_once(rt, one, gate),
    );
    if !zero_done || !one_done {
        return None;
    }
    let Ok(mut all) = Vec::with_capacity(alloc, 2) else {
        return None;
    };
    all.push_reserved(zero);
    all.push_reserved(one);
    let Ok(recording) = manager.finish(alloc, all) else {
        return None;
    };
    whole(&recording)
}

// The same for the passes of a new manager for the script.
fn after_two_passes<'a, R: Threads + Wait + Sync, G: Gate + Sync>(
    rt: &R,
    alloc: Global,
    script: &'a Script,
    gate: &G,
) -> Option<u32>
    requires { length script.now.bodies ≡ 2 }
{
    let Ok((manager, mut passes)) = Manager::new(alloc, script) else {
        return None;
    };
    let (Some(one), Some(zero)) = (passes.pop(), passes.pop()) else {
        return None;
    };
    after_both(rt, alloc, manager, zero, one, gate)
}

// The same for the text, of two threads.
fn recorded_by_two<R: Threads + Wait + Sync, G: Gate + Sync>(
    rt: &R,
    alloc: Global,
    text: &[u8],
    gate: &G,
) -> Option<u32> {
    if text.len() > MAX_INPUT as usize {
        return None;
    }
    let Ok(script) = Script::read(alloc, text) else {
        return None;
    };
    if script.threads() != 2 {
        return None;
    }
    after_two_passes(rt, alloc, &script, gate)
}

#[test]
fn two_passes_meet_at_the_gate(rt: HostRuntime) {
    let meeting = Meeting::new();
    assert_eq!(rt;
        recorded_by_two(&rt, rt.alloc(), TWO_WRITES, &meeting),
        Some(2)
    );
    assert!(rt; meeting.was_held());
}
