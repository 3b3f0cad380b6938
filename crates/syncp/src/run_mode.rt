// The mode `run`.
ghost use Rattle.std.specs.Prelude.{◌≡◌, ◌≢◌, ◌≤◌, ℕ, List, Some, OnOk, IfOk, MatchResult, IsErrOf};
ghost use Rattle.std.specs.Io.KnownBytes.{IsAtEnd};
ghost use Rattle.sp_base.specs.Causes.{Rose};
ghost use Rattle.sp_base.specs.Moves.{Took, Gained};
ghost use Rattle.answers.specs.Runs.{IsRunText};
ghost use Rattle.syncp.specs.Outcome.{Explains, FailsToRead, IsAnswered, IsDone};
ghost use Rattle.intake.specs.Lengths.{IsWithinLimit};
ghost use Rattle.syncp.specs.RunMode.{EndsRun, IsRunTextOf, Run};
ghost use Rattle.syncp.specs.Tasks.{IsAccepted};

use crate::outcome::{Fault, Outcome};
use crate::scripts_of::scripts_of;
use answers::{RunText, text_of_recording};
use recorder::record;
use script_machine::Script;
use script_machine::laws::exclusive_law;
use sp_base::{
    Gate, MAX_SIZE, MAX_WORKERS, MIN_SIZE, OutOfMemory, Sink, Source, WriteFault, write_all,
};
use std::alloc::Global;
use std::sync::Wait;
use std::thread::Threads;

// Runs a script on threads until none of them can step, and answers what is written of the run that was recorded. The only
// error is want of memory.
fn text_of_run<R: Threads + Wait + Sync, G: Gate + Sync>(
    rt: &R,
    alloc: Global,
    size: u8,
    workers: u8,
    script: &Script,
    gate: &G,
) -> Result<RunText, OutOfMemory>
    requires least_size { MIN_SIZE ≤ size }
    requires greatest_size { size ≤ MAX_SIZE }
    requires least_workers { 1 ≤ workers }
    requires greatest_workers { workers ≤ MAX_WORKERS }
    ensures { IfOk result (IsRunText size script.now) }
{
    let recording = record(rt, alloc, script, gate)?;
    text_of_recording(rt, alloc, size, workers, script, &recording, gate)
}

// Reads the source to its end, runs its scripts, and answers what is written of the run.
#[tactic(auto, using(crate::proofs::WrittenRuns::fails_to_run))]
fn run_source<R: Threads + Wait + Sync, S: Source, G: Gate + Sync>(
    rt: &R,
    alloc: Global,
    size: u8,
    workers: u8,
    source: &mut S,
    gate: &G,
) -> Result<RunText, Fault>
    requires least_size { MIN_SIZE ≤ size }
    requires greatest_size { size ≤ MAX_SIZE }
    requires least_workers { 1 ≤ workers }
    requires greatest_workers { workers ≤ MAX_WORKERS }
    ensures read { Took (S.left source.old) (S.left source.new) (λ input. IsWithinLimit input ×
        MatchResult result (IsRunTextOf size input) (λ fault. FailsToRead (Run size) (IsAtEnd (S.left source.new)) fault input)) }
    ensures ended { OnOk result (IsAtEnd (S.left source.new)) }
    ensures cause { IsErrOf result Fault.Read → Rose (S.faults source.old) (S.faults source.new) }
{
    let script = scripts_of(alloc, source)?;
    match text_of_run(rt, alloc, size, workers, &script, gate) {
        Ok(run) => Ok(run),
        Err(_) => Err(Fault::OutOfMemory),
    }
}

// Writes what is written of a run, and says how the call ended.
fn write_run<K: Sink>(out: &mut K, run: RunText) -> Outcome
    ensures outcome { Gained (K.text out.old) (K.text out.new) (EndsRun run result) }
    ensures read { result ≢ Outcome.Refused Fault.Read }
    ensures write { result ≡ Outcome.Refused Fault.Write → Rose (K.faults out.old) (K.faults out.new) }
{
    let (text, outcome) = match run {
        RunText::Whole { text, found } => (text, Outcome::Done { found }),
        RunText::Cut(text) => (text, Outcome::Refused(Fault::TooManyPatterns)),
    };
    match write_all(out, text.text()) {
        Ok(()) => outcome,
        Err(WriteFault::Failed) => Outcome::Refused(Fault::Write),
        Err(WriteFault::OutOfMemory) => Outcome::Refused(Fault::OutOfMemory),
    }
}

/// Reads scripts, runs them on threads until none can step, and writes the trace of the run that was recorded, a line
/// `%%`, the report of that very run, the lines of the replays of what is found in it, and how its threads ended. The run
/// is one of the complete legal runs of the scripts, and another call may record another one.
///
/// The source is read to its end before its text is looked at. A refusal of the text comes before anything is written.
/// Where the recorded run has more deadlock patterns of at most that size than may be listed, its trace and the line `%%` are
/// written, and the answer is `TooManyPatterns`. `Read` and `Write` come only where the count of faults of the source or of
/// the sink rose; after `Write`, and after want of memory, a front of the text is written.
pub fn run_scripts<R: Threads + Wait + Sync, S: Source, K: Sink, G: Gate + Sync>(
    rt: &R,
    alloc: Global,
    size: u8,
    workers: u8,
    source: &mut S,
    out: &mut K,
    gate: &G,
) -> Outcome
    requires least_size { MIN_SIZE ≤ size }
    requires greatest_size { size ≤ MAX_SIZE }
    requires least_workers { 1 ≤ workers }
    requires greatest_workers { workers ≤ MAX_WORKERS }

    // What was read and written explains the outcome.
    ensures outcome { Took (S.left source.old) (S.left source.new) (λ input. IsWithinLimit input ×
        Gained (K.text out.old) (K.text out.new) (Explains (Run size) (IsAtEnd (S.left source.new)) result input)) }
    ensures ended { IsDone result → IsAtEnd (S.left source.new) }

    // A fault of the outside comes only where a count of faults rose.
    ensures read { result ≡ Outcome.Refused Fault.Read → Rose (S.faults source.old) (S.faults source.new) }
    ensures write { result ≡ Outcome.Refused Fault.Write → Rose (K.faults out.old) (K.faults out.new) }

    // A script within the limit of an input is run, unless the outside fails or memory runs out.
    ensures complete { (all : List ℕ) → S.left source.old ≡ Some all → IsAccepted (Run size) all →
        ¬ Rose (S.faults source.old) (S.faults source.new) → ¬ Rose (K.faults out.old) (K.faults out.new) →
        IsAnswered (Run size) result }
{
    exclusive_law();
    match run_source(rt, alloc, size, workers, source, gate) {
        Ok(run) => write_run(out, run),
        Err(fault) => Outcome::Refused(fault),
    }
}
