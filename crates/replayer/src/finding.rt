//! The replay of a finding.

ghost use Rattle.std.specs.Prelude.{◌≡◌, ◌<◌, All, IfOk, Some, length};
ghost use Rattle.std.specs.List.{AllZip};
ghost use Rattle.trace_laws.specs.Reordering.{CorrectReordering};
ghost use Rattle.trace_laws.specs.Trace.{thread_at};
ghost use Rattle.script_machine.specs.Held.{meaning};
ghost use Rattle.replayer.specs.Replays.{ReplaysTo};
ghost use Rattle.replayer.specs.Replayed.{IsFindingOf, IsReplayOf, keep_in, picks_in};

use crate::{Reached, reorder};
use script_machine::{Machine, Recording, Script};
use sp_base::{OutOfMemory, ThreadId};
use std::alloc::Global;
use trace_laws::{Finding, Keep, Trace};

// The machine of the script after the recording's events at these places, each taken as a step from the start.
fn machine_along<'a>(
    alloc: Global,
    script: &'a Script,
    recording: &Recording,
    places: &[u32],
) -> Result<Machine<'a>, OutOfMemory>
    requires script { recording.now.machine.script ≡ script.now }
    requires correct { CorrectReordering recording.now.trace.events places.now }
    ensures script { IfOk result (λ m. m.script ≡ script.now) }
    ensures replayed { IfOk result (λ m. ReplaysTo script.now recording.now.trace.events places.now (meaning m)) }
{
    let trace = recording.trace();
    let mut machine = Machine::new(alloc, script)?;
    for place in places {
        let event = trace.event(*place);
        let _ = machine.step(event.thread);
    }
    Ok(machine)
}

// The picks of a finding: of a race the later place and then the earlier one, of a deadlock its picks.
fn picks_of(alloc: Global, finding: &Finding) -> Result<Vec<u32>, OutOfMemory>
    ensures { IfOk result (λ picks. picks.items ≡ picks_in finding.now) }
{
    match finding {
        Finding::Race(race, _) => {
            let picks = Vec::from_slice(alloc, [race.later, race.earlier].as_slice())?;
            Ok(picks)
        }
        Finding::Deadlock(deadlock, _) => {
            let picks = Vec::from_slice(alloc, deadlock.picks())?;
            Ok(picks)
        }
    }
}

// How many events of each thread the finding needs.
fn keep_of(finding: &Finding) -> &Keep
    ensures { result.now ≡ keep_in finding.now }
{
    match finding {
        Finding::Race(_, keep) => keep,
        Finding::Deadlock(_, keep) => keep,
    }
}

// The threads of the picks.
fn threads_of(alloc: Global, trace: &Trace, picks: &[u32]) -> Result<Vec<ThreadId>, OutOfMemory>
    requires { All (λ pick. pick < length trace.now.events) picks.now }
    ensures { IfOk result (λ threads. AllZip (λ p t. thread_at trace.now.events p ≡ Some t) picks.now threads.items) }
{
    let mut threads = Vec::with_capacity(alloc, picks.len())?;
    for pick in picks {
        let event = trace.event(*pick);
        threads.push_reserved(event.thread);
    }
    Ok(threads)
}

/// Replays a finding of a recording: takes the kept events as steps of the script from the start.
///
/// The recording is one of the script, and the finding one of the recording's trace, with its keep. The machine after the
/// kept events reaches it. At a race both threads are about to make their accesses, each can step, and each still can, with
/// the same next call, after the other has stepped. At a deadlock each thread is about to acquire a lock that the thread of
/// the next pick in the cycle owns, and none of them ever steps again. The only error is want of memory.
pub fn replay<'a>(
    alloc: Global,
    script: &'a Script,
    recording: &Recording,
    finding: &Finding,
) -> Result<Reached<'a>, OutOfMemory>
    requires script { recording.now.machine.script ≡ script.now }
    requires finding { IsFindingOf recording.now.trace finding.now }
    ensures { IfOk result (λ reached. IsReplayOf script.now recording.now.trace finding.now reached) }
{
    let trace = recording.trace();
    let keep = keep_of(finding);
    let kept = reorder(alloc, trace, keep)?;
    let machine = machine_along(alloc, script, recording, &kept)?;
    let picks = picks_of(alloc, finding)?;
    let threads = threads_of(alloc, trace, &picks)?;
    Ok(Reached::made(machine, threads))
}
