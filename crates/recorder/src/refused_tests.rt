//! A thread that is refused while another can still step.

ghost use Rattle.std.specs.Prelude.{◌≡◌, length};

use crate::Manager;
use crate::gate_tests::{after_both, call_once};
use crate::workers::Worker;
use script_machine::Script;
use sp_base::{Gate, MAX_INPUT, ThreadId};
use std::alloc::Global;
use std::sync::Wait;
use std::sync::atomic::{AtomicBool, Ordering};
use std::thread;
use std::thread::Threads;

/// The most turns that thread 0 waits for thread 1.
const TURNS: u32 = 10_000_000;

/// A gate at which thread 0 waits before its second call until thread 1 has been inside.
#[derive(Drop)]
struct Holding {
    one_was_inside: AtomicBool,
    gave_up: AtomicBool,
}

impl Holding {
    fn new() -> Holding {
        Holding {
            one_was_inside: AtomicBool::new(false),
            gave_up: AtomicBool::new(false),
        }
    }

    // Waits until thread 1 has been inside, for at most so many turns.
    fn wait_for_one(&self) {
        for _ in 0..TURNS {
            if self.one_was_inside.load(Ordering::SeqCst) {
                return;
            }
            thread::yield_now();
        }
        self.gave_up.store(true, Ordering::SeqCst);
    }
}

impl Gate for Holding {
    fn before(&self, thread: ThreadId, call: u32) {
        if thread.value() == 0 && call == 1 {
            self.wait_for_one();
        }
    }

    fn inside(&self, thread: ThreadId, _call: u32) {
        if thread.value() == 1 {
            self.one_was_inside.store(true, Ordering::SeqCst);
        }
    }

    fn job(&self, _number: u32) {}
}

// How many events are recorded after three calls: one of thread 0, and then one of each of the two threads, on a thread of
// its own. None where a call is not done.
fn after_three_calls<'a, R: Threads + Wait + Sync, G: Gate + Sync>(
    rt: &R,
    alloc: Global,
    script: &'a Script,
    gate: &G,
) -> Option<u32>
    requires { length script.now.bodies ≡ 2 }
{
    let Ok((manager, mut passes)) = Manager::new(alloc, script) else {
        return None;
    };
    let (Some(one), Some(zero)) = (passes.pop(), passes.pop()) else {
        return None;
    };
    let (is_done, zero) = call_once(rt, Worker::new(&manager, zero), gate);
    if !is_done {
        return None;
    }
    after_both(rt, alloc, manager, zero, one, gate)
}

// The same for the text, of two threads.
fn recorded_by_three<R: Threads + Wait + Sync, G: Gate + Sync>(
    rt: &R,
    alloc: Global,
    text: &[u8],
    gate: &G,
) -> Option<u32> {
    if text.len() > MAX_INPUT as usize {
        return None;
    }
    let Ok(script) = Script::read(alloc, text) else {
        return None;
    };
    if script.threads() != 2 {
        return None;
    }
    after_three_calls(rt, alloc, &script, gate)
}

#[test]
fn a_refused_call_waits_for_the_holder(rt: HostRuntime) {
    let text = b"thread T0\nlock A\nunlock A\nthread T1\nlock A\n".as_slice();
    let gate = Holding::new();
    assert_eq!(rt; recorded_by_three(&rt, rt.alloc(), text, &gate), Some(3));
    assert!(rt; !gate.gave_up.load(Ordering::SeqCst));
}
