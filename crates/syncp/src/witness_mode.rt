// The mode `witness`.
ghost use Rattle.std.specs.Prelude.{◌≡◌, ◌≤◌, ℕ, List, Some, OnOk, IsErrOf};
ghost use Rattle.std.specs.Io.KnownBytes.{IsAtEnd};
ghost use Rattle.sp_base.specs.Causes.{Rose};
ghost use Rattle.sp_base.specs.Moves.{Took, Gained};
ghost use Rattle.syncp.specs.Outcome.{Explains, IsAnswered, IsDone, Makes};
ghost use Rattle.intake.specs.Lengths.{IsWithinLimit};
ghost use Rattle.syncp.specs.Tasks.{IsAccepted};
ghost use Rattle.syncp.specs.WitnessMode.{Witness};

use crate::answer::write_answer;
use crate::outcome::{Fault, Outcome};
use crate::predicted::read_predicted;
use answers::{sink_with, witness_text};
use command_words::MAX_FINDING;
use sp_base::{Gate, MAX_SIZE, MAX_WORKERS, MIN_SIZE, Sink, Source, SureSink};
use std::alloc::Global;
use std::thread::Threads;

// Reads a trace, and answers the witness of the finding of a number.
#[tactic(auto, using(crate::proofs::Showing::shown, crate::proofs::Showing::lacking, crate::proofs::Showing::before_finding))]
fn witness_of_source<R: Threads + Sync, S: Source, G: Gate + Sync>(
    rt: &R,
    alloc: Global,
    size: u8,
    workers: u8,
    finding: u32,
    source: &mut S,
    gate: &G,
) -> Result<(SureSink, bool), Fault>
    requires least_size { MIN_SIZE ≤ size }
    requires greatest_size { size ≤ MAX_SIZE }
    requires least_workers { 1 ≤ workers }
    requires greatest_workers { workers ≤ MAX_WORKERS }
    requires least_finding { 1 ≤ finding }
    ensures read { Took (S.left source.old) (S.left source.new) (λ input. IsWithinLimit input × Makes (Witness size finding) (IsAtEnd (S.left source.new)) result input) }
    ensures ended { OnOk result (IsAtEnd (S.left source.new)) }
    ensures cause { IsErrOf result Fault.Read → Rose (S.faults source.old) (S.faults source.new) }
{
    let ((trace, names), findings) = read_predicted(rt, alloc, size, workers, source, gate)?;
    if findings.len() < finding {
        return Err(Fault::NoFinding);
    }
    let Ok(text) = witness_text(alloc, &trace, &names, &findings, finding) else {
        return Err(Fault::OutOfMemory);
    };
    match sink_with(alloc, &text) {
        Ok(sink) => Ok((sink, true)),
        Err(_) => Err(Fault::OutOfMemory),
    }
}

/// Reads a trace and writes the witness of the finding of a number, which counts from 1 in the order of the report's
/// lines: the events of the least sync-preserving correct reordering that leaves the finding's places enabled, in the
/// order of the trace and as a trace text. It may be empty.
///
/// A refusal of the text comes before anything is written, as do `TooManyPatterns`, which comes exactly where the whole
/// input is a trace that has too many patterns of at most that size, and `NoFinding`, which comes where it has not, and has
/// fewer findings. `Read` and `Write` come only where the count of faults of the source or of the sink rose; after `Write`,
/// and after want of memory, a front of the witness is written.
pub fn show<R: Threads + Sync, S: Source, K: Sink, G: Gate + Sync>(
    rt: &R,
    alloc: Global,
    size: u8,
    workers: u8,
    finding: u32,
    source: &mut S,
    out: &mut K,
    gate: &G,
) -> Outcome
    requires least_size { MIN_SIZE ≤ size }
    requires greatest_size { size ≤ MAX_SIZE }
    requires least_workers { 1 ≤ workers }
    requires greatest_workers { workers ≤ MAX_WORKERS }
    requires least_finding { 1 ≤ finding }
    requires greatest_finding { finding ≤ MAX_FINDING }

    // What was read and written explains the outcome.
    ensures outcome { Took (S.left source.old) (S.left source.new) (λ input. IsWithinLimit input ×
        Gained (K.text out.old) (K.text out.new) (Explains (Witness size finding) (IsAtEnd (S.left source.new)) result input)) }
    ensures ended { IsDone result → IsAtEnd (S.left source.new) }

    // A fault of the outside comes only where a count of faults rose.
    ensures read { result ≡ Outcome.Refused Fault.Read → Rose (S.faults source.old) (S.faults source.new) }
    ensures write { result ≡ Outcome.Refused Fault.Write → Rose (K.faults out.old) (K.faults out.new) }

    // The witness of a finding of the trace that the input says is written, unless the outside fails or memory runs out.
    ensures complete { (all : List ℕ) → S.left source.old ≡ Some all → IsAccepted (Witness size finding) all →
        ¬ Rose (S.faults source.old) (S.faults source.new) → ¬ Rose (K.faults out.old) (K.faults out.new) →
        IsAnswered (Witness size finding) result }
{
    let witness = witness_of_source(rt, alloc, size, workers, finding, source, gate);
    write_answer(out, witness)
}
