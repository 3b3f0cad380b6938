// The text of a run: its trace, what is found in it and replayed, and how the threads ended.
ghost use Rattle.std.specs.Prelude.{◌≡◌, ◌≤◌, ◌++◌, IfOk};
ghost use Rattle.script_machine.specs.Held.{meaning};
ghost use Rattle.script_machine.specs.Machine.{IsComplete};
ghost use Rattle.std_text.specs.Writing.{trace_text};
ghost use Rattle.predictor.specs.Predictions.{ArePredicted};
ghost use Rattle.answers.specs.Runs.{IsRunText, mark_line, run_text};

use crate::recordings::write_recording;
use crate::replays::replay_text;
use predictor::{FindFault, find};
use report::{write_ends, write_report};
use script_machine::{Recording, Script};
use sp_base::{
    Gate, MAX_SIZE, MAX_WORKERS, MIN_SIZE, OutOfMemory, SureSink, WriteFault, write_all,
};
use std::alloc::Global;
use std::thread::Threads;
use trace_laws::Findings;

/// What is written of a run.
#[derive(Debug, Drop)]
pub enum RunText {
    /// The whole text, and whether anything is found in the run.
    Whole { text: SureSink, found: bool },
    /// The front up to the mark: the run has too many deadlock patterns.
    Cut(SureSink),
}

// The trace of a recording, and the mark.
fn front_text(alloc: Global, script: &Script, recording: &Recording) -> Result<SureSink, WriteFault>
    requires { recording.now.machine.script ≡ script.now }
    ensures { IfOk result (λ front. front ≡ trace_text script.now.names recording.now.trace.events ++ mark_line) }
{
    let mut front = SureSink::new(alloc);
    write_recording(alloc, &mut front, script, recording)?;
    write_all(&mut front, b"%%\n")?;
    Ok(front)
}

// The trace of a recording, the mark, the report, the lines of the replays and those of the threads' ends, in this order.
fn gathered(
    alloc: Global,
    script: &Script,
    recording: &Recording,
    findings: &Findings,
    replays: &SureSink,
) -> Result<SureSink, WriteFault>
    requires script { recording.now.machine.script ≡ script.now }
    requires predicted { ArePredicted recording.now.trace findings.now }
    ensures { IfOk result (λ whole. whole ≡ run_text script.now recording.now.trace.events (meaning recording.now.machine) findings.now replays.now) }
{
    let mut whole = front_text(alloc, script, recording)?;
    write_report(alloc, &mut whole, recording.trace(), findings)?;
    write_all(&mut whole, replays.text())?;
    write_ends(alloc, &mut whole, recording.machine(), script.names())?;
    Ok(whole)
}

/// What is written of a recording after which no thread can step: its trace, a line `%%`, its report with deadlock patterns
/// of at most that size, the lines of the replays of what is found in it, and how its threads ended. Where it has too many
/// patterns it is the trace and the line alone. The workers and the gate have no part in the answer.
///
/// The only error is want of memory.
#[tactic(auto, using(crate::proofs::WholeRuns::run_written, crate::proofs::WholeRuns::run_cut))]
pub fn text_of_recording<R: Threads + Sync, G: Gate + Sync>(
    rt: &R,
    alloc: Global,
    size: u8,
    workers: u8,
    script: &Script,
    recording: &Recording,
    gate: &G,
) -> Result<RunText, OutOfMemory>
    requires least_size { MIN_SIZE ≤ size }
    requires greatest_size { size ≤ MAX_SIZE }
    requires least_workers { 1 ≤ workers }
    requires greatest_workers { workers ≤ MAX_WORKERS }
    requires script { recording.now.machine.script ≡ script.now }
    requires complete { IsComplete script.now (meaning recording.now.machine) }
    ensures { IfOk result (IsRunText size script.now) }
{
    let findings = match find(rt, alloc, recording.trace(), size, workers, gate) {
        Ok(findings) => findings,
        Err(FindFault::TooManyPatterns) => {
            let Ok(front) = front_text(alloc, script, recording) else {
                return Err(OutOfMemory);
            };
            return Ok(RunText::Cut(front));
        }
        Err(FindFault::OutOfMemory) => return Err(OutOfMemory),
    };
    let replays = replay_text(alloc, script, recording, &findings)?;
    let Ok(text) = gathered(alloc, script, recording, &findings, &replays) else {
        return Err(OutOfMemory);
    };
    let found = findings.len() > 0;
    Ok(RunText::Whole { text, found })
}
