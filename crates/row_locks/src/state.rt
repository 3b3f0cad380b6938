//! The locked state.

ghost use Rattle.std.specs.Prelude.{◌≡◌, ◌≢◌, ◌↔◌, ℕ, ◌<◌, [], length, IfOk};
ghost use Rattle.script_machine.specs.Held.{meaning};
ghost use Rattle.script_machine.specs.Machine.{IsEnded, start};
ghost use Rattle.script_machine.specs.Recorded.{IsRecording, IsRun};
ghost use Rattle.row_locks.specs.Grants.{IsBlocked, Granted};
ghost use Rattle.row_locks.specs.Tallies.{events_by};

use script_machine::{Machine, Recording, Run, Script, ThreadState};
use seat_lock::Tallied;
use sp_base::{OutOfMemory, ThreadId};
use std::alloc::Global;
use std::marker::Model;
use trace_laws::Event;

/// What a grant came to.
#[derive(Clone, Copy, Debug, PartialEq, Eq)]
pub enum Grant {
    /// The thread has made its next step, which is this event.
    Done(Event),
    /// The thread has not ended, and cannot step now.
    Blocked,
    /// The thread has ended.
    Ended,
}

/// A legal run of a script that grows, and the machine after it: what is locked while a thread makes its step.
#[derive(Drop)]
pub struct LockState<'a> {
    run: Run<'a>,
}

impl<'a> Model for LockState<'a> {
    ghost use Rattle.script_machine.specs.Recorded.{Running};

    ghost Value = { Running };

    ghost view = { λ s. s.run };
}

impl<'a> Tallied for LockState<'a> {
    ghost use Rattle.std.specs.Prelude.{◌≡◌, refl};
    ghost use Rattle.std.proofs.Common.{sym, ◌∙◌};
    ghost use Rattle.row_locks.specs.Tallies.{events_by};

    ghost tally = { λ s t. events_by t s.events };

    ghost one_origin = { λ s r. s.machine.script ≡ r.machine.script };

    ghost reflexive = { λ s. refl };

    ghost symmetric = { λ s r same. sym same };

    ghost transitive = { λ s r q same too. same ∙ too };
}

impl<'a> LockState<'a> {
    /// The empty run of a script, with room for all of its events. Its only error is want of memory.
    pub fn new(alloc: Global, script: &'a Script) -> Result<LockState<'a>, OutOfMemory>
        ensures script { IfOk result (λ s. s.machine.script ≡ script.now) }
        ensures start { IfOk result (λ s. meaning s.machine ≡ start script.now) }
        ensures empty { IfOk result (λ s. s.events ≡ []) }
    {
        let run = Run::new(alloc, script)?;
        Ok(LockState { run })
    }

    /// The machine after the run so far.
    pub fn machine(&self) -> &Machine<'a>
        ensures value { result.now ≡ self.now.machine }
        ensures run { IsRun self.now }
    {
        self.run.machine()
    }

    /// Makes the next step of the thread, which is one of the script, and appends exactly its event. `Ended` comes exactly
    /// where the thread has ended, and `Blocked` exactly where it has not and cannot step; both change nothing. The script
    /// stays, and so does how many events each other thread has.
    pub fn grant(&mut self, thread: ThreadId) -> Grant
        requires { thread < length self.old.machine.script.bodies }
        ensures granted { Granted self.old thread result self.new }
        ensures script { self.new.machine.script ≡ self.old.machine.script }
        ensures others { (u : ℕ) → u ≢ thread → events_by u self.new.events ≡ events_by u self.old.events }
        ensures ended { result ≡ Grant.Ended ↔ IsEnded self.old.machine.script (meaning self.old.machine) thread }
        ensures blocked { result ≡ Grant.Blocked ↔ IsBlocked self.old.machine.script (meaning self.old.machine) thread }
        ensures run { IsRun self.old }
    {
        if self.machine().state(thread) == ThreadState::Ended {
            return Grant::Ended;
        }
        match self.run.step(thread) {
            Some(event) => Grant::Done(event),
            None => Grant::Blocked,
        }
    }

    /// The recording of the run so far.
    pub fn finish(self) -> Recording<'a>
        ensures machine { result.machine ≡ self.entry.machine }
        ensures events { result.trace.events ≡ self.entry.events }
        ensures recording { IsRecording result }
    {
        self.run.finish()
    }
}
