//! The manager of row locks.

ghost use Rattle.std.specs.Prelude.{◌≡◌, ℕ, Some, All, IfOk, length, slice_get, vec_len};
ghost use Rattle.script_machine.specs.Machine.{IsComplete};
ghost use Rattle.script_machine.specs.Held.{meaning};
ghost use Rattle.script_machine.specs.Recorded.{IsRecording};
ghost use Rattle.seat_lock.specs.Shown.{given, lock_seats};

use crate::seats::{passes_of, seats_of};
use crate::steps::complete;
use crate::{Board, Pass};
use row_locks::LockState;
use script_machine::{Recording, Script};
use seat_lock::SeatLock;
use sp_base::OutOfMemory;
use std::alloc::Global;
use std::sync::{Condvar, Mutex};

/// The manager of row locks: it makes the steps of a script's threads one after the other, each at the call of its thread.
///
/// The run so far and the machine after it stand under one lock. Threads that cannot step sleep, and a board tells when no
/// thread can.
#[derive(Drop)]
pub struct Manager<'a> {
    pub(crate) lock: SeatLock<LockState<'a>>,
    pub(crate) board: Mutex<Board>,
    pub(crate) woken: Condvar,
    ghost seats: { lock_seats lock ≡ length (given lock).machine.script.bodies },
}

impl<'a> Manager<'a> {
    ghost use Rattle.recorder.specs.Passes.{manager_script, IsPassOf, IsNewPass, AreGranted};
    ghost use Rattle.recorder.specs.declared.pass.Pass.{Pass};

    /// A manager for the script, and one pass for each thread, in the order of the threads. No call was granted yet. The
    /// only error is want of memory.
    pub fn new(
        alloc: Global,
        script: &'a Script,
    ) -> Result<(Manager<'a>, Vec<Pass<'a>>), OutOfMemory>
        ensures script { IfOk result (λ made. manager_script made.0 ≡ script.now) }
        ensures length { IfOk result (λ made. vec_len made.1 ≡ length script.now.bodies) }
        ensures passes { IfOk result (λ made. All (λ pass. IsPassOf made.0 pass) made.1.items) }
        ensures fresh { IfOk result (λ made. (k : ℕ) (pass : Pass) → slice_get made.1.items k ≡ Some pass → IsNewPass k pass) }
    {
        let state = LockState::new(alloc, script)?;
        let (lock, seats) = SeatLock::new(alloc, state, script.threads())?;
        let board = Mutex::new(Board::new(alloc)?);
        let manager = Manager {
            lock,
            board,
            woken: Condvar::new(),
        };
        let passes = passes_of(alloc, &manager, seats)?;
        Ok((manager, passes))
    }

    /// Ends the manager, with all of its passes: makes the steps that are left until no thread can step, and answers what
    /// was recorded.
    ///
    /// The recording begins with as many events of each thread as its pass had granted calls. Behind them are the steps
    /// made here. Its only error is want of memory.
    pub fn finish(self, alloc: Global, passes: Vec<Pass<'a>>) -> Result<Recording<'a>, OutOfMemory>
        requires all { vec_len passes ≡ length (manager_script self).bodies }
        requires passes { All (λ pass. IsPassOf self pass) passes.items }
        ensures script { IfOk result (λ r. r.machine.script ≡ manager_script self.entry) }
        ensures recording { IfOk result (λ r. IsRecording r) }
        ensures complete { IfOk result (λ r. IsComplete (manager_script self.entry) (meaning r.machine)) }
        ensures granted { IfOk result (λ r. AreGranted passes.entry.items r.trace.events) }
    {
        let seats = seats_of(alloc, passes)?;
        let Manager {
            lock,
            board: _,
            woken: _,
        } = self;
        let mut state = lock.close(seats);
        complete(&mut state);
        Ok(state.finish())
    }
}
