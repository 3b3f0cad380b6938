// The mode `record`.
ghost use Rattle.std.specs.Prelude.{◌≡◌, ◌⊎◌, ℕ, List, Some};
ghost use Rattle.std.specs.Io.KnownBytes.{IsAtEnd};
ghost use Rattle.sp_base.specs.Causes.{Rose};
ghost use Rattle.sp_base.specs.Moves.{Took, Gained};
ghost use Rattle.syncp.specs.Outcome.{Explains, IsDone};
ghost use Rattle.intake.specs.Lengths.{IsWithinLimit};
ghost use Rattle.syncp.specs.RecordMode.{Record};
ghost use Rattle.syncp.specs.Tasks.{IsAccepted};

use crate::outcome::{Fault, Outcome};
use crate::scripts_of::scripts_of;
use answers::write_recording;
use recorder::record;
use script_machine::laws::exclusive_law;
use sp_base::{Gate, Sink, Source, WriteFault};
use std::alloc::Global;
use std::sync::Wait;
use std::thread::Threads;

/// Reads scripts, runs them on threads until none can step, and writes the trace of the run that was recorded. It is one
/// of the complete legal runs of the scripts, and another call may record another one.
///
/// The source is read to its end before its text is looked at. A refusal of the text comes before anything is written.
/// `Read` and `Write` come only where the count of faults of the source or of the sink rose; after `Write`, and after want
/// of memory, a front of the trace's text is written.
pub fn record_scripts<R: Threads + Wait + Sync, S: Source, K: Sink, G: Gate + Sync>(
    rt: &R,
    alloc: Global,
    source: &mut S,
    out: &mut K,
    gate: &G,
) -> Outcome
    // What was read and written explains the outcome.
    ensures outcome { Took (S.left source.old) (S.left source.new) (λ input. IsWithinLimit input ×
        Gained (K.text out.old) (K.text out.new) (Explains Record (IsAtEnd (S.left source.new)) result input)) }
    ensures ended { IsDone result → IsAtEnd (S.left source.new) }

    // A fault of the outside comes only where a count of faults rose.
    ensures read { result ≡ Outcome.Refused Fault.Read → Rose (S.faults source.old) (S.faults source.new) }
    ensures write { result ≡ Outcome.Refused Fault.Write → Rose (K.faults out.old) (K.faults out.new) }

    // A script within the limit of an input is recorded, unless the outside fails or memory runs out.
    ensures complete { (all : List ℕ) → S.left source.old ≡ Some all → IsAccepted Record all →
        ¬ Rose (S.faults source.old) (S.faults source.new) → ¬ Rose (K.faults out.old) (K.faults out.new) →
        IsDone result ⊎ (result ≡ Outcome.Refused Fault.OutOfMemory) }
{
    exclusive_law();
    let script = match scripts_of(alloc, source) {
        Ok(script) => script,
        Err(fault) => return Outcome::Refused(fault),
    };
    let Ok(recording) = record(rt, alloc, &script, gate) else {
        return Outcome::Refused(Fault::OutOfMemory);
    };
    match write_recording(alloc, out, &script, &recording) {
        Ok(()) => Outcome::Done { found: false },
        Err(WriteFault::Failed) => Outcome::Refused(Fault::Write),
        Err(WriteFault::OutOfMemory) => Outcome::Refused(Fault::OutOfMemory),
    }
}
