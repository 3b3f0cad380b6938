// What is predicted from a trace that is read.
ghost use Rattle.std.specs.Prelude.{◌≤◌, IfOk, OnOk, MatchResult, IsErrOf};
ghost use Rattle.std.specs.Io.KnownBytes.{IsAtEnd};
ghost use Rattle.sp_base.specs.Causes.{Rose};
ghost use Rattle.sp_base.specs.Moves.{Took};
ghost use Rattle.std_text.specs.Writing.{AreNamed};
ghost use Rattle.syncp.specs.Outcome.{FailsToRead};
ghost use Rattle.syncp.specs.Predicted.{IsPredictedFrom};
ghost use Rattle.syncp.specs.PredictMode.{Predict};
ghost use Rattle.intake.specs.Lengths.{IsWithinLimit};

use crate::outcome::Fault;
use intake::read_trace;
use predictor::{FindFault, find};
use sp_base::{Gate, MAX_SIZE, MAX_WORKERS, MIN_SIZE, Source};
use std::alloc::Global;
use std::thread::Threads;
use trace_laws::{Findings, Names, Trace};

/// Reads all that a source has as a trace and names, which all that its events name has, and finds what is predicted from
/// it, with deadlock patterns of at most that size. A refused text is answered with the first fault that is known,
/// `TooManyPatterns` where the whole input is a trace that has too many patterns, and `Read` only where the source's count
/// of faults rose.
#[tactic(auto, using(crate::proofs::Predicting::predicted, crate::proofs::Predicting::not_read, crate::proofs::ReadingFaults::source_failed))]
pub fn read_predicted<R: Threads + Sync, S: Source, G: Gate + Sync>(
    rt: &R,
    alloc: Global,
    size: u8,
    workers: u8,
    source: &mut S,
    gate: &G,
) -> Result<((Trace, Names), Findings), Fault>
    requires least_size { MIN_SIZE ≤ size }
    requires greatest_size { size ≤ MAX_SIZE }
    requires least_workers { 1 ≤ workers }
    requires greatest_workers { workers ≤ MAX_WORKERS }
    ensures read { Took (S.left source.old) (S.left source.new) (λ input. IsWithinLimit input ×
        MatchResult result (IsPredictedFrom size input) (λ fault. FailsToRead (Predict size) (IsAtEnd (S.left source.new)) fault input)) }
    ensures named { IfOk result (λ r. AreNamed r.0.1 r.0.0.events) }
    ensures ended { OnOk result (IsAtEnd (S.left source.new)) }
    ensures cause { IsErrOf result Fault.Read → Rose (S.faults source.old) (S.faults source.new) }
{
    let (trace, names) = read_trace(alloc, source)?;
    match find(rt, alloc, &trace, size, workers, gate) {
        Ok(findings) => Ok(((trace, names), findings)),
        Err(FindFault::TooManyPatterns) => Err(Fault::TooManyPatterns),
        Err(FindFault::OutOfMemory) => Err(Fault::OutOfMemory),
    }
}
