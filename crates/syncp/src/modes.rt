// What each mode comes to.
ghost use Rattle.std.specs.Prelude.{◌≡◌, List, ℕ};
ghost use Rattle.std.specs.Io.KnownBytes.{IsAtEnd};
ghost use Rattle.sp_base.specs.Causes.{Rose};
ghost use Rattle.sp_base.specs.Moves.{Took, Gained};
ghost use Rattle.intake.specs.Lengths.{IsWithinLimit};
ghost use Rattle.command_words.specs.Words.{KeepsRanges};
ghost use Rattle.syncp.specs.declared.outcome.Fault.{Fault};
ghost use Rattle.syncp.specs.Modes.{task_of};
ghost use Rattle.syncp.specs.Outcome.{Explains, IsAnswered, IsDone};
ghost use Rattle.syncp.specs.Tasks.{IsAccepted, HasInput, HasRead};

use crate::bench_mode::bench;
use crate::outcome::Outcome;
use crate::predict_mode::analyse;
use crate::record_mode::record_scripts;
use crate::replay_mode::reach;
use crate::run_mode::run_scripts;
use crate::witness_mode::show;
use command_words::{Mode, Words};
use sp_base::{Gate, Sink, Source};
use std::alloc::Global;
use std::sync::Wait;
use std::thread::Threads;

/// What a mode comes to, by what the words say.
pub fn outcome_of<R: Threads + Wait + Sync, S: Source, K: Sink, G: Gate + Sync>(
    rt: &R,
    alloc: Global,
    reading: Words,
    source: &mut S,
    out: &mut K,
    gate: &G,
) -> Outcome
    requires { KeepsRanges reading }
    ensures outcome { Took (S.left source.old) (S.left source.new) (λ input. IsWithinLimit input ×
        Gained (K.text out.old) (K.text out.new) (Explains (task_of reading) (HasRead (task_of reading) (IsAtEnd (S.left source.new))) result input)) }
    ensures ended { IsDone result → HasRead (task_of reading) (IsAtEnd (S.left source.new)) }
    ensures read { result ≡ Outcome.Refused Fault.Read → Rose (S.faults source.old) (S.faults source.new) }
    ensures write { result ≡ Outcome.Refused Fault.Write → Rose (K.faults out.old) (K.faults out.new) }
    ensures complete { (all : List ℕ) → HasInput (task_of reading) (S.left source.old) all → IsAccepted (task_of reading) all →
        ¬ Rose (S.faults source.old) (S.faults source.new) → ¬ Rose (K.faults out.old) (K.faults out.new) →
        IsAnswered (task_of reading) result }
{
    match reading.mode {
        Mode::Predict => analyse(rt, alloc, reading.size, reading.workers, source, out, gate),
        Mode::Record => record_scripts(rt, alloc, source, out, gate),
        Mode::Bench => bench(
            rt,
            alloc,
            reading.size,
            reading.workers,
            reading.seed,
            reading.events,
            out,
            gate,
        ),
        Mode::Replay => reach(rt, alloc, reading.size, reading.workers, source, out, gate),
        Mode::Run => run_scripts(rt, alloc, reading.size, reading.workers, source, out, gate),
        Mode::Witness => show(
            rt,
            alloc,
            reading.size,
            reading.workers,
            reading.finding,
            source,
            out,
            gate,
        ),
    }
}
