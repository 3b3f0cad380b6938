//! What a gate is told of the calls of two threads: each by its number, before it and while the lock is held.

use crate::gate_tests::recorded;
use sp_base::{Gate, ThreadId};
use std::sync::atomic::{AtomicBool, AtomicU32, Ordering};
use std::thread;

/// What a gate was told of one thread.
#[derive(Drop)]
struct Told {
    calls: AtomicU32,
    was_inside: AtomicBool,
}

impl Told {
    fn new() -> Told {
        Told {
            calls: AtomicU32::new(0),
            was_inside: AtomicBool::new(true),
        }
    }

    // Whether the call is the next one, and the one before it was inside.
    fn comes_next(&self, call: u32) -> bool {
        let was_inside = self.was_inside.swap(false, Ordering::SeqCst);
        self.calls.fetch_add(1, Ordering::SeqCst) == call && was_inside
    }

    // Whether the call is the one that came last.
    fn is_inside(&self, call: u32) -> bool {
        self.was_inside.store(true, Ordering::SeqCst);
        self.calls.load(Ordering::SeqCst) == call.wrapping_add(1)
    }
}

/// A gate that writes down what it is told of the threads 0 and 1, and whether something in it was wrong.
#[derive(Drop)]
struct Observer {
    zero: Told,
    one: Told,
    is_taken: AtomicBool,
    was_wrong: AtomicBool,
}

impl Observer {
    fn new() -> Observer {
        Observer {
            zero: Told::new(),
            one: Told::new(),
            is_taken: AtomicBool::new(false),
            was_wrong: AtomicBool::new(false),
        }
    }

    fn told(&self, thread: ThreadId) -> &Told {
        if thread.value() == 0 {
            &self.zero
        } else {
            &self.one
        }
    }

    // Whether each thread made so many calls, and nothing was wrong.
    fn saw(&self, calls: u32) -> bool {
        self.zero.calls.load(Ordering::SeqCst) == calls
            && self.one.calls.load(Ordering::SeqCst) == calls
            && !self.was_wrong.load(Ordering::SeqCst)
    }

    fn see(&self, is_right: bool) {
        if !is_right {
            self.was_wrong.store(true, Ordering::SeqCst);
        }
    }
}

impl Gate for Observer {
    fn before(&self, thread: ThreadId, call: u32) {
        self.see(self.told(thread).comes_next(call));
    }

    fn inside(&self, thread: ThreadId, call: u32) {
        self.see(!self.is_taken.swap(true, Ordering::SeqCst));
        self.see(self.told(thread).is_inside(call));
        thread::yield_now();
        self.is_taken.store(false, Ordering::SeqCst);
    }

    fn job(&self, _number: u32) {}
}

// Two threads that each make two hundred steps, with one lock.
const COUNTING: &[u8] =
    b"thread T0\nrepeat 50\nlock A\nread X\nwrite X 1\nunlock A\nend\nthread T1\nrepeat 50\nlock A\nread X\nwrite X 2\nunlock A\nend\n";

#[test]
fn a_gate_is_told_of_each_call(rt: HostRuntime) {
    let observer = Observer::new();
    assert_eq!(rt; recorded(&rt, rt.alloc(), COUNTING, &observer), Some(400));
    assert!(rt; observer.saw(201));
}
