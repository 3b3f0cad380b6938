//! Passes.

ghost use Rattle.std.specs.Prelude.{◌≡◌, ◌<◌, None};
ghost use Rattle.sp_base.specs.declared.limits.TheConstants.{MAX_THREADS};
ghost use Rattle.seat_lock.specs.Shown.{seat_number, seat_count, seat_taken};

use row_locks::LockState;
use seat_lock::LockSeat;
use sp_base::ThreadId;

/// What a thread makes its calls with: the seat of its number in a manager's lock. It counts the calls that were granted.
/// Contracts see its thread and that count.
#[derive(Drop)]
pub struct Pass<'a> {
    pub(crate) seat: LockSeat<LockState<'a>>,
    pub(crate) thread: ThreadId,
    pub(crate) granted: u32,
    ghost numbered: { seat_number seat ≡ thread },
    ghost counted: { seat_count seat ≡ granted },
    ghost free: { seat_taken seat ≡ None },
}

impl<'a> Pass<'a> {
    ghost use Rattle.recorder.specs.Passes.{pass_thread, pass_granted};

    // The pass of the seat of this number, which has counted nothing.
    pub(crate) fn new(seat: LockSeat<LockState<'a>>, number: usize) -> Pass<'a>
        requires few { number < MAX_THREADS }
        requires number { seat_number seat ≡ number }
        requires count { seat_count seat ≡ 0 }
        requires free { seat_taken seat ≡ None }
        ensures seat { result.seat ≡ seat.entry }
        ensures thread { pass_thread result ≡ number }
        ensures granted { pass_granted result ≡ 0 }
    {
        let Some(thread) = ThreadId::new(number as u16) else {
            unreachable!()
        };
        Pass {
            seat,
            thread,
            granted: 0,
        }
    }

    /// The thread that makes its calls with it.
    pub fn thread(&self) -> ThreadId
        ensures { result ≡ pass_thread self.now }
    {
        self.thread
    }

    /// How many of the thread's calls were granted.
    pub fn granted(&self) -> u32
        ensures { result ≡ pass_granted self.now }
    {
        self.granted
    }

    // The seat.
    pub(crate) fn into_seat(self) -> LockSeat<LockState<'a>>
        ensures { result ≡ self.entry.seat }
    {
        let Pass {
            seat,
            thread: _,
            granted: _,
        } = self;
        seat
    }
}
