// The mode `predict`.
ghost use Rattle.std.specs.Prelude.{◌≡◌, ◌≤◌, ℕ, List, Some, OnOk, IsErrOf};
ghost use Rattle.std.specs.Io.KnownBytes.{IsAtEnd};
ghost use Rattle.sp_base.specs.Causes.{Rose};
ghost use Rattle.sp_base.specs.Moves.{Took, Gained};
ghost use Rattle.syncp.specs.Outcome.{Explains, IsAnswered, IsDone, Makes};
ghost use Rattle.intake.specs.Lengths.{IsWithinLimit};
ghost use Rattle.syncp.specs.PredictMode.{Predict};
ghost use Rattle.syncp.specs.Tasks.{IsAccepted};

use crate::answer::write_answer;
use crate::outcome::{Fault, Outcome};
use crate::predicted::read_predicted;
use answers::report_of;
use sp_base::{Gate, MAX_SIZE, MAX_WORKERS, MIN_SIZE, Sink, Source, SureSink};
use std::alloc::Global;
use std::thread::Threads;

// Reads a trace, and answers its report and whether it has a finding.
fn report_of_source<R: Threads + Sync, S: Source, G: Gate + Sync>(
    rt: &R,
    alloc: Global,
    size: u8,
    workers: u8,
    source: &mut S,
    gate: &G,
) -> Result<(SureSink, bool), Fault>
    requires least_size { MIN_SIZE ≤ size }
    requires greatest_size { size ≤ MAX_SIZE }
    requires least_workers { 1 ≤ workers }
    requires greatest_workers { workers ≤ MAX_WORKERS }
    ensures read { Took (S.left source.old) (S.left source.new) (λ input. IsWithinLimit input × Makes (Predict size) (IsAtEnd (S.left source.new)) result input) }
    ensures ended { OnOk result (IsAtEnd (S.left source.new)) }
    ensures cause { IsErrOf result Fault.Read → Rose (S.faults source.old) (S.faults source.new) }
{
    let ((trace, _names), findings) = read_predicted(rt, alloc, size, workers, source, gate)?;
    match report_of(alloc, &trace, &findings) {
        Ok(report) => Ok((report, findings.len() > 0)),
        Err(_) => Err(Fault::OutOfMemory),
    }
}

/// Reads a trace and writes its report, with deadlock patterns of at most that size. The workers and the gate have no part in
/// the answer. A refusal of the text comes before anything is written, as does `TooManyPatterns`, which comes exactly
/// where the whole input is a trace that has too many patterns. `Read` and `Write` come only where the count of faults of
/// the source or of the sink rose; after `Write`, and after want of memory, a front of the report is written.
pub fn analyse<R: Threads + Sync, S: Source, K: Sink, G: Gate + Sync>(
    rt: &R,
    alloc: Global,
    size: u8,
    workers: u8,
    source: &mut S,
    out: &mut K,
    gate: &G,
) -> Outcome
    requires least_size { MIN_SIZE ≤ size }
    requires greatest_size { size ≤ MAX_SIZE }
    requires least_workers { 1 ≤ workers }
    requires greatest_workers { workers ≤ MAX_WORKERS }

    // What was read and written explains the outcome.
    ensures outcome { Took (S.left source.old) (S.left source.new) (λ input. IsWithinLimit input ×
        Gained (K.text out.old) (K.text out.new) (Explains (Predict size) (IsAtEnd (S.left source.new)) result input)) }
    ensures ended { IsDone result → IsAtEnd (S.left source.new) }

    // A fault of the outside comes only where a count of faults rose.
    ensures read { result ≡ Outcome.Refused Fault.Read → Rose (S.faults source.old) (S.faults source.new) }
    ensures write { result ≡ Outcome.Refused Fault.Write → Rose (K.faults out.old) (K.faults out.new) }

    // An input in the grammar is answered, unless the outside fails or memory runs out.
    ensures complete { (all : List ℕ) → S.left source.old ≡ Some all → IsAccepted (Predict size) all →
        ¬ Rose (S.faults source.old) (S.faults source.new) → ¬ Rose (K.faults out.old) (K.faults out.new) →
        IsAnswered (Predict size) result }
{
    let report = report_of_source(rt, alloc, size, workers, source, gate);
    write_answer(out, report)
}
