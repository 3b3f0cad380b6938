//! Legal runs that grow.

ghost use Rattle.std.specs.Prelude.{◌≡◌, ◌<◌, ◌≤◌, [], ◌∷◌, ◌++◌, length, IfOk, IfSome, IfNone};
ghost use Rattle.script_machine.specs.Machine.{StepOf, CanStep, start, size_of};
ghost use Rattle.script_machine.specs.Held.{meaning};
ghost use Rattle.script_machine.specs.Recorded.{IsRun, IsRecording};

use crate::{Machine, Recording, Script};
use sp_base::{OutOfMemory, ThreadId};
use std::alloc::Global;
use std::marker::Model;
use trace_laws::{Builder, Event};

/// A legal run of a script that grows, and the machine after it.
#[derive(Drop)]
pub struct Run<'a> {
    machine: Machine<'a>,
    builder: Builder,
}

impl<'a> Model for Run<'a> {
    ghost use Rattle.script_machine.specs.Recorded.{Running};

    ghost Value = { Running };

    ghost use Rattle.script_machine.specs.RecordedBy.{running_of, IsSoundRun};

    ghost view = { running_of };

    ghost invariant = { IsSoundRun };
}

impl<'a> Run<'a> {
    /// The empty run, with room for as many events as the script has instructions. Its only error is want of memory.
    pub fn new(alloc: Global, script: &'a Script) -> Result<Run<'a>, OutOfMemory>
        ensures script { IfOk result (λ r. r.machine.script ≡ script.now) }
        ensures start { IfOk result (λ r. meaning r.machine ≡ start script.now) }
        ensures empty { IfOk result (λ r. r.events ≡ []) }
    {
        let builder = Builder::new(alloc, script.size())?;
        let machine = Machine::new(alloc, script)?;
        Ok(Run { machine, builder })
    }

    /// The machine after the run.
    pub fn machine(&self) -> &Machine<'a>
        ensures value { result.now ≡ self.now.machine }
        ensures run { IsRun self.now }
    {
        &self.machine
    }

    /// Takes the next step of the thread, appends its event and answers it; none, and nothing changes, exactly where it
    /// cannot step. The thread is one of the script.
    pub fn step(&mut self, thread: ThreadId) -> Option<Event>
        requires { thread < length self.old.machine.script.bodies }
        ensures script { self.new.machine.script ≡ self.old.machine.script }
        ensures step { IfSome result (λ event. StepOf self.old.machine.script (meaning self.old.machine) thread event (meaning self.new.machine)) }
        ensures events { IfSome result (λ event. self.new.events ≡ self.old.events ++ event ∷ []) }
        ensures room { IfSome result (λ _. length self.new.events ≤ size_of self.new.machine.script) }
        ensures none { IfNone result ((CanStep self.old.machine.script (meaning self.old.machine) thread → ⊥) × (self.new ≡ self.old)) }
    {
        match self.machine.step(thread) {
            Some(event) => {
                let _ = self.builder.push(event);
                Some(event)
            }
            None => None,
        }
    }

    /// The recording of this run.
    pub fn finish(self) -> Recording<'a>
        ensures machine { result.machine ≡ self.entry.machine }
        ensures events { result.trace.events ≡ self.entry.events }
        ensures recording { IsRecording result }
    {
        let threads = self.machine.threads();
        Recording::made(self.machine, self.builder.finish(threads))
    }
}
