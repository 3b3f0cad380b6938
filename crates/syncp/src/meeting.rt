// A gate at which two wait for each other.
use sp_base::{Gate, ThreadId};
use std::sync::atomic::{AtomicBool, Ordering};
use std::thread::yield_now;

// The most turns that one waits for the other.
const MOST_TURNS: u32 = 10_000_000;

/// A gate at which two threads wait for each other before each call, and two jobs as each begins.
#[derive(Drop)]
pub(crate) struct Meeting {
    first: AtomicBool,
    second: AtomicBool,
    missed: AtomicBool,
}

impl Meeting {
    /// The gate to which nobody has come.
    pub(crate) fn new() -> Meeting {
        Meeting {
            first: AtomicBool::new(false),
            second: AtomicBool::new(false),
            missed: AtomicBool::new(false),
        }
    }

    /// Whether both came, and neither waited for too long.
    pub(crate) fn have_met(&self) -> bool {
        let both = self.first.load(Ordering::SeqCst) && self.second.load(Ordering::SeqCst);
        both && !self.missed.load(Ordering::SeqCst)
    }

    // Waits for the other.
    fn meet(&self, is_first: bool) {
        let (own, other) = if is_first {
            (&self.first, &self.second)
        } else {
            (&self.second, &self.first)
        };
        own.store(true, Ordering::SeqCst);
        for _ in 0..MOST_TURNS {
            if other.load(Ordering::SeqCst) {
                return;
            }
            yield_now();
        }
        self.missed.store(true, Ordering::SeqCst);
    }
}

impl Gate for Meeting {
    fn before(&self, thread: ThreadId, _call: u32) {
        self.meet(thread.value() == 0);
    }

    fn inside(&self, _thread: ThreadId, _call: u32) {}

    fn job(&self, number: u32) {
        self.meet(number == 0);
    }
}
