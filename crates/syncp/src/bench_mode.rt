// The mode `bench`.
ghost use Rattle.std.specs.Prelude.{◌≡◌, ◌≤◌, [], IfOk};
ghost use Rattle.sp_base.specs.Causes.{Rose};
ghost use Rattle.sp_base.specs.Moves.{Gained};
ghost use Rattle.sp_base.specs.declared.limits.TheConstants.{MAX_EVENTS};
ghost use Rattle.syncp.specs.BenchMode.{Bench, IsDrawnTrace};
ghost use Rattle.syncp.specs.Outcome.{Explains, IsAnswered, Makes};
ghost use Rattle.syncp.specs.Tasks.{IsAccepted};

use crate::answer::write_answer;
use crate::outcome::{Fault, Outcome};
use answers::bench_text;
use command_words::{MAX_DRAWN_EVENTS, MAX_SEED, MIN_DRAWN_EVENTS};
use drawn_trace::draw;
use intake::{IntakeFault, trace_behind};
use predictor::{FindFault, find};
use sp_base::{Gate, MAX_SIZE, MAX_WORKERS, MIN_SIZE, OutOfMemory, Sink, SureSink};
use std::alloc::Global;
use std::thread::Threads;
use trace_laws::{Names, Trace};

// The trace that the text of a seed says, which is never refused.
#[tactic(auto, using(crate::proofs::Drawn::drawn_read, crate::proofs::Drawn::never_refused))]
fn trace_of_seed(alloc: Global, seed: u64, events: u32) -> Result<Trace, OutOfMemory>
    requires { events ≤ MAX_EVENTS }
    ensures { IfOk result (IsDrawnTrace seed events) }
{
    let text = draw(alloc, seed, events)?;
    let names = Names::new(alloc)?;
    match trace_behind(alloc, &names, 1, &text) {
        Ok(trace) => Ok(trace),
        Err(IntakeFault::Text { .. }) => unreachable!(),
        Err(_) => Err(OutOfMemory),
    }
}

// Draws the trace of a seed, and answers the text for it.
#[tactic(auto, using(crate::proofs::Drawn::benched, crate::proofs::Drawn::many_drawn))]
fn bench_of_seed<R: Threads + Sync, G: Gate + Sync>(
    rt: &R,
    alloc: Global,
    size: u8,
    workers: u8,
    seed: u64,
    events: u32,
    gate: &G,
) -> Result<(SureSink, bool), Fault>
    requires least_size { MIN_SIZE ≤ size }
    requires greatest_size { size ≤ MAX_SIZE }
    requires least_workers { 1 ≤ workers }
    requires greatest_workers { workers ≤ MAX_WORKERS }
    requires greatest_events { events ≤ MAX_DRAWN_EVENTS }
    ensures { Makes (Bench size seed events) (Unit {0}) result [] }
{
    let Ok(trace) = trace_of_seed(alloc, seed, events) else {
        return Err(Fault::OutOfMemory);
    };
    let findings = match find(rt, alloc, &trace, size, workers, gate) {
        Ok(findings) => findings,
        Err(FindFault::TooManyPatterns) => return Err(Fault::TooManyPatterns),
        Err(FindFault::OutOfMemory) => return Err(Fault::OutOfMemory),
    };
    match bench_text(alloc, events, &trace, &findings) {
        Ok(text) => Ok((text, false)),
        Err(_) => Err(Fault::OutOfMemory),
    }
}

/// Draws a trace of so many events from a seed, reads and analyses its text as `predict` would, and writes three lines: how
/// many events there are, how many races and deadlocks, and how many bytes the report has. Nothing is read.
///
/// `TooManyPatterns` comes exactly where the trace has too many patterns of at most that size, before anything is written.
/// `Write` comes only where the count of faults of the sink rose; after it, and after want of memory, a front of the lines is
/// written. No other fault comes.
pub fn bench<R: Threads + Sync, K: Sink, G: Gate + Sync>(
    rt: &R,
    alloc: Global,
    size: u8,
    workers: u8,
    seed: u64,
    events: u32,
    out: &mut K,
    gate: &G,
) -> Outcome
    requires least_size { MIN_SIZE ≤ size }
    requires greatest_size { size ≤ MAX_SIZE }
    requires least_workers { 1 ≤ workers }
    requires greatest_workers { workers ≤ MAX_WORKERS }
    requires greatest_seed { seed ≤ MAX_SEED }
    requires least_events { MIN_DRAWN_EVENTS ≤ events }
    requires greatest_events { events ≤ MAX_DRAWN_EVENTS }

    // What was written explains the outcome.
    ensures outcome { Gained (K.text out.old) (K.text out.new) (Explains (Bench size seed events) (Unit {0}) result []) }

    // A write fault comes only where the count of faults rose.
    ensures write { result ≡ Outcome.Refused Fault.Write → Rose (K.faults out.old) (K.faults out.new) }

    // A trace that has not too many patterns is answered, unless the outside fails or memory runs out.
    ensures complete { IsAccepted (Bench size seed events) [] → ¬ Rose (K.faults out.old) (K.faults out.new) → IsAnswered (Bench size seed events) result }
{
    let answer = bench_of_seed(rt, alloc, size, workers, seed, events, gate);
    write_answer(out, answer)
}
