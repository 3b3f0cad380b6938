// The mode `replay`.
ghost use Rattle.std.specs.Prelude.{◌≡◌, ◌≤◌, ℕ, List, length, Some, OnOk, IsErrOf, MatchResult};
ghost use Rattle.std.specs.Io.KnownBytes.{IsAtEnd};
ghost use Rattle.sp_base.specs.Causes.{Rose};
ghost use Rattle.sp_base.specs.Moves.{Took, Gained};
ghost use Rattle.sp_base.specs.declared.limits.TheConstants.{MAX_INPUT};
ghost use Rattle.syncp.specs.Outcome.{Explains, IsAnswered, IsDone, Makes};
ghost use Rattle.intake.specs.Lengths.{IsWithinLimit};
ghost use Rattle.syncp.specs.ReplayMode.{FailsToReplay, IsReplay, Records, Replay};
ghost use Rattle.syncp.specs.Tasks.{IsAccepted};

use crate::answer::write_answer;
use crate::outcome::{Fault, Outcome};
use answers::replays_in;
use intake::{count_newlines, input_parts, script_of, trace_behind, whole_text};
use predictor::FindFault;
use script_machine::laws::{exclusive_law, of_law};
use script_machine::{Recording, RunFault, Script};
use sp_base::{Gate, MAX_SIZE, MAX_WORKERS, MIN_SIZE, Sink, Source, SureSink};
use std::alloc::Global;
use std::thread::Threads;
use trace_laws::Trace;
use trace_laws::laws::locations_do_not_count;

// The recording of a trace, where it is a run of the script.
fn recording_of<'a>(
    alloc: Global,
    script: &'a Script,
    trace: &Trace,
) -> Result<Recording<'a>, Fault>
    ensures { Records script.now trace.now.events result }
{
    match Recording::of(alloc, script, trace) {
        Ok(recording) => Ok(recording),
        Err(RunFault::NotAStep(place)) => Err(Fault::NotAStep(place)),
        Err(RunFault::OutOfMemory) => Err(Fault::OutOfMemory),
    }
}

// The text of the replays of an input of scripts and a trace, and whether there is any. A refusal is that of the scripts, of
// the trace, the first place that is no step of the scripts, or `TooManyPatterns`, in this order. The only other error is
// want of memory.
fn replays_of<R: Threads + Sync, G: Gate + Sync>(
    rt: &R,
    alloc: Global,
    size: u8,
    workers: u8,
    input: &[u8],
    gate: &G,
) -> Result<(SureSink, bool), Fault>
    requires least_size { MIN_SIZE ≤ size }
    requires greatest_size { size ≤ MAX_SIZE }
    requires least_workers { 1 ≤ workers }
    requires greatest_workers { workers ≤ MAX_WORKERS }
    requires few { length input.now ≤ MAX_INPUT }
    ensures { MatchResult result (λ r. IsReplay size input.now r.0 r.1) (λ fault. FailsToReplay size fault input.now) }
{
    locations_do_not_count();
    let (scripts, trace) = input_parts(input);
    let line = count_newlines(scripts) as u32 + 2;
    let script = script_of(alloc, scripts)?;
    let trace = trace_behind(alloc, script.names(), line, trace)?;
    let recording = recording_of(alloc, &script, &trace)?;
    match replays_in(rt, alloc, size, workers, &script, &recording, gate) {
        Ok(replays) => Ok(replays),
        Err(FindFault::TooManyPatterns) => Err(Fault::TooManyPatterns),
        Err(FindFault::OutOfMemory) => Err(Fault::OutOfMemory),
    }
}

// Reads the source to its end, and answers the text of the replays and whether there is any.
#[tactic(auto, using(crate::proofs::InputReplays::gathering_fails_to_replay, crate::proofs::ReadingFaults::source_failed))]
fn replay_source<R: Threads + Sync, S: Source, G: Gate + Sync>(
    rt: &R,
    alloc: Global,
    size: u8,
    workers: u8,
    source: &mut S,
    gate: &G,
) -> Result<(SureSink, bool), Fault>
    requires least_size { MIN_SIZE ≤ size }
    requires greatest_size { size ≤ MAX_SIZE }
    requires least_workers { 1 ≤ workers }
    requires greatest_workers { workers ≤ MAX_WORKERS }
    ensures read { Took (S.left source.old) (S.left source.new) (λ input. IsWithinLimit input × Makes (Replay size) (IsAtEnd (S.left source.new)) result input) }
    ensures ended { OnOk result (IsAtEnd (S.left source.new)) }
    ensures cause { IsErrOf result Fault.Read → Rose (S.faults source.old) (S.faults source.new) }
{
    let input = whole_text(alloc, source)?;
    replays_of(rt, alloc, size, workers, &input, gate)
}

/// Reads scripts and a trace behind a line `%%`, and takes the scripts along the events that lead to each finding of the
/// trace: writes, for each, which two calls then stand side by side. The trace's threads and operations are those of a run
/// of the scripts; its locations are not compared. Without a line `%%` the trace is empty.
///
/// The source is read to its end before its text is looked at. A refusal comes before anything is written: first of the
/// scripts, then of the trace, then `NotAStep`, which comes exactly where the trace is no run of the scripts, with the
/// first place that is no step, and then `TooManyPatterns`, which comes exactly where such a run has too many patterns of at
/// most that size. `Read` and `Write` come only where the count of faults of the source or of the sink rose;
/// after `Write`, and after want of memory, a front of the replays is written.
pub fn reach<R: Threads + Sync, S: Source, K: Sink, G: Gate + Sync>(
    rt: &R,
    alloc: Global,
    size: u8,
    workers: u8,
    source: &mut S,
    out: &mut K,
    gate: &G,
) -> Outcome
    requires least_size { MIN_SIZE ≤ size }
    requires greatest_size { size ≤ MAX_SIZE }
    requires least_workers { 1 ≤ workers }
    requires greatest_workers { workers ≤ MAX_WORKERS }

    // What was read and written explains the outcome.
    ensures outcome { Took (S.left source.old) (S.left source.new) (λ input. IsWithinLimit input ×
        Gained (K.text out.old) (K.text out.new) (Explains (Replay size) (IsAtEnd (S.left source.new)) result input)) }
    ensures ended { IsDone result → IsAtEnd (S.left source.new) }

    // A fault of the outside comes only where a count of faults rose.
    ensures read { result ≡ Outcome.Refused Fault.Read → Rose (S.faults source.old) (S.faults source.new) }
    ensures write { result ≡ Outcome.Refused Fault.Write → Rose (K.faults out.old) (K.faults out.new) }

    // Scripts and a run of them are replayed, unless the outside fails or memory runs out.
    ensures complete { (all : List ℕ) → S.left source.old ≡ Some all → IsAccepted (Replay size) all →
        ¬ Rose (S.faults source.old) (S.faults source.new) → ¬ Rose (K.faults out.old) (K.faults out.new) →
        IsAnswered (Replay size) result }
{
    exclusive_law();
    of_law();
    let replays = replay_source(rt, alloc, size, workers, source, gate);
    write_answer(out, replays)
}
