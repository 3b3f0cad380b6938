//! Recordings: finished runs.

ghost use Rattle.std.specs.Prelude.{◌≡◌, ◌↔◌, ℕ, ◌<◌, [], ◌∷◌, ◌++◌, Err, IfOk, IfSome, IfNone, IsTrue};
ghost use Rattle.trace_laws.specs.Locations.{DoTheSame};
ghost use Rattle.script_machine.specs.Machine.{LegalRun, IsComplete};
ghost use Rattle.script_machine.specs.Held.{meaning};
ghost use Rattle.script_machine.specs.Lowest.{LegalLowestRun};
ghost use Rattle.script_machine.specs.Recorded.{AreInRange, IsRecording};
ghost use Rattle.script_machine.specs.OfTrace.{NoStepOf, IsFirstNoStep};

use crate::{Machine, Run, Script};
use sp_base::OutOfMemory as NoMemory;
use std::alloc::Global;
use std::marker::Model;
use thiserror::Error;
use trace_laws::{Event, Trace};

/// Why a trace is no run of a script.
#[derive(Clone, Copy, Debug, PartialEq, Eq, Error)]
pub enum RunFault {
    /// The place is the first whose thread and operation are no step of the script after those before it.
    #[error("place {0} is no step of the script")]
    NotAStep(u32),
    /// Memory ran out.
    #[error("out of memory")]
    OutOfMemory,
}

impl From<NoMemory> for RunFault {
    ghost use Rattle.script_machine.specs.declared.recording.RunFault.TheVariants.{OutOfMemory};

    ghost from_gives = { λ _ e. e ≡ OutOfMemory };

    fn from(_error: NoMemory) -> RunFault {
        RunFault::OutOfMemory
    }
}

/// A trace that is a legal run of a script, with the script's number of threads, and the machine after it.
#[derive(Drop)]
pub struct Recording<'a> {
    machine: Machine<'a>,
    trace: Trace,
}

impl<'a> Model for Recording<'a> {
    ghost use Rattle.script_machine.specs.Recorded.{Recorded};

    ghost Value = { Recorded };

    ghost use Rattle.script_machine.specs.RecordedBy.{recording_of, IsSoundRecording};

    ghost view = { recording_of };

    ghost invariant = { IsSoundRecording };
}

impl<'a> Recording<'a> {
    // The recording of a trace, and of the machine after it.
    pub(crate) fn made(machine: Machine<'a>, trace: Trace) -> Recording<'a>
        requires { IsRecording (record { machine = machine; trace = trace }) }
        ensures { result ≡ record { machine = machine.entry; trace = trace } }
    {
        Recording { machine, trace }
    }

    /// The trace.
    pub fn trace(&self) -> &Trace
        ensures value { result.now ≡ self.now.trace }
        ensures recording { IsRecording self.now }
        ensures operands { AreInRange self.now.machine.script self.now.trace.events }
    {
        &self.trace
    }

    /// The machine after the trace.
    pub fn machine(&self) -> &Machine<'a>
        ensures value { result.now ≡ self.now.machine }
        ensures recording { IsRecording self.now }
    {
        &self.machine
    }

    /// Whether no thread can step after the trace.
    pub fn complete(&self) -> bool
        ensures { IsTrue result ↔ IsComplete self.now.machine.script (meaning self.now.machine) }
    {
        self.machine.first_ready().is_none()
    }

    /// Steps the lowest thread that can step, until none can. Its only error is want of memory.
    pub fn alone(alloc: Global, script: &'a Script) -> Result<Recording<'a>, NoMemory>
        ensures script { IfOk result (λ r. r.machine.script ≡ script.now) }
        ensures recording { IfOk result (λ r. IsRecording r) }
        ensures complete { IfOk result (λ r. IsComplete script.now (meaning r.machine)) }
        ensures lowest { IfOk result (λ r. LegalLowestRun script.now r.trace.events (meaning r.machine)) }
    {
        let mut run = Run::new(alloc, script)?;
        while let Some(thread) = run.machine().first_ready() {
            let _ = run.step(thread);
        }
        Ok(run.finish())
    }

    /// The recording of a trace: the run of the script in which the same threads do the same. Locations are not
    /// compared; the recording has those of the script.
    ///
    /// Fails with the first place that is no step, and where memory runs out.
    pub fn of(alloc: Global, script: &'a Script, trace: &Trace) -> Result<Recording<'a>, RunFault>
        ensures script { IfOk result (λ r. r.machine.script ≡ script.now) }
        ensures recording { IfOk result (λ r. IsRecording r) }
        ensures same { IfOk result (λ r. DoTheSame r.trace.events trace.now.events) }
        ensures fault { (place : ℕ) → result ≡ Err (RunFault.NotAStep place) → IsFirstNoStep script.now trace.now.events place }
    {
        let mut run = Run::new(alloc, script)?;
        for place in 0..trace.len() {
            let event = trace.event(place);
            let Some(_) = follow(&mut run, &event) else {
                return Err(RunFault::NotAStep(place));
            };
        }
        Ok(run.finish())
    }
}

// Takes the step of the event's thread and operation, and answers its event; none, and nothing changes, where there is
// no such step.
fn follow(run: &mut Run, event: &Event) -> Option<Event>
    ensures script { run.new.machine.script ≡ run.old.machine.script }
    ensures same { IfSome result (λ taken. DoTheSame (taken ∷ []) (event.now ∷ [])) }
    ensures events { IfSome result (λ taken. run.new.events ≡ run.old.events ++ taken ∷ []) }
    ensures legal { LegalRun run.old.machine.script run.old.events (meaning run.old.machine) }
    ensures none { IfNone result (NoStepOf run.old.machine.script (meaning run.old.machine) event.now) }
    ensures unchanged { IfNone result (run.new ≡ run.old) }
{
    let thread = event.thread;
    let machine = run.machine();
    if thread.value() >= machine.threads() {
        return None;
    }
    if machine.next_op(thread) != Some(event.op) {
        return None;
    }
    run.step(thread)
}
