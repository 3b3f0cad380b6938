// The top call.
ghost use Rattle.std.specs.Prelude.{◌≡◌, ◌≢◌, ◌⊎◌, List, ℕ, Some, None, map, string_bytes};
ghost use Rattle.std.specs.Io.KnownBytes.{IsAtEnd};
ghost use Rattle.sp_base.specs.Causes.{Rose};
ghost use Rattle.sp_base.specs.Moves.{Took, Gained};
ghost use Rattle.intake.specs.Lengths.{IsWithinLimit};
ghost use Rattle.syncp.specs.Leaves.{Means, Leaves, TellsOf, IsAnswered};
ghost use Rattle.syncp.specs.Modes.{task_of};
ghost use Rattle.syncp.specs.Tasks.{IsAccepted, HasInput, HasRead};
ghost use Rattle.command_words.specs.Words.{KeepsRanges, reading_of};
ghost use Rattle.command_words.specs.declared.words.Words.{Words as Reading};

use crate::fault_line::line_of;
use crate::modes::outcome_of;
use crate::outcome::{Fault, Outcome, Status};
use crate::status::status_of;
use command_words::{Words, WordsFault, read_words};
use sp_base::{Gate, Sink, Source, WriteFault, write_all};
use std::alloc::Global;
use std::sync::Wait;
use std::thread::Threads;

/// Reads the source to its end and writes to `out` what the mode makes of it: `predict` reads a trace and writes the
/// report, `witness` reads a trace and writes the events that lead to one of its findings, `record` runs scripts on threads
/// and writes the trace that is recorded, `run` writes behind that trace the report of it, the replays of what is found and
/// how the threads ended, and `replay` reads scripts and a run of them and writes which calls stand side by side at each
/// finding. In the mode `bench` nothing is read: a trace is drawn from a seed, and how much is found in it is written. The line
/// of a fault goes to `err`.
///
/// The words are the program's name, the mode and options. Where they have no reading nothing is read or written to
/// `out`, and `err` gains a text for the user, which is that of help where help was asked for. A refusal of the input
/// comes at its first fault and before anything is written to `out`; in `record`, `run` and `replay` the source is read to
/// its end first. A trace that has more deadlock patterns of at most the size that is asked for than may be listed is
/// refused too; in `run` the recorded trace and the mark behind it are written before.
/// The line on `err` is tried once, and a fault there changes no status.
pub fn run<R: Threads + Wait + Sync, S: Source, K: Sink, E: Sink, G: Gate + Sync>(
    rt: &R,
    alloc: Global,
    words: &[String],
    source: &mut S,
    out: &mut K,
    err: &mut E,
    gate: &G,
) -> Status
    // What the status says of what was read and written.
    ensures outcome { Took (S.left source.old) (S.left source.new) (λ input. IsWithinLimit input ×
        Gained (K.text out.old) (K.text out.new) (λ text.
        Gained (E.text err.old) (E.text err.new) (λ line.
        Leaves (reading_of (map string_bytes words.now)) (IsAtEnd (S.left source.new)) (Rose (E.faults err.old) (E.faults err.new)) result input text line))) }

    // When a refusal comes.
    ensures usage { result ≡ Status.Usage → reading_of (map string_bytes words.now) ≡ None }
    ensures unread { reading_of (map string_bytes words.now) ≡ None → (result ≡ Status.Usage) ⊎ (result ≡ Status.NoMemory) }
    ensures read { result ≡ Status.ReadFault → Rose (S.faults source.old) (S.faults source.new) }
    ensures write { result ≡ Status.WriteFault → Rose (K.faults out.old) (K.faults out.new) }

    // An input in the grammar of the mode, which has not too many patterns, and has the finding that is asked for, is
    // answered, unless the outside fails or memory runs out. In the mode `run` it is the run that was recorded which may have
    // too many patterns.
    ensures complete { (reading : Reading) → reading_of (map string_bytes words.now) ≡ Some reading →
        (all : List ℕ) → HasInput (task_of reading) (S.left source.old) all → IsAccepted (task_of reading) all →
        ¬ Rose (S.faults source.old) (S.faults source.new) → ¬ Rose (K.faults out.old) (K.faults out.new) →
        IsAnswered (task_of reading) result }
{
    match read_words(alloc, words) {
        Ok(reading) => run_in(rt, alloc, reading, source, out, err, gate),
        Err(WordsFault::Usage(text)) => refuse_words(err, text.as_str()),
        Err(WordsFault::OutOfMemory) => refuse(alloc, err, &Fault::OutOfMemory),
    }
}

// Writes the text that refuses the words, and answers the status.
fn refuse_words<E: Sink>(err: &mut E, text: &str) -> Status
    ensures told { Gained (E.text err.old) (E.text err.new) (λ _. Unit {0}) }
    ensures status { (result ≡ Status.Usage) ⊎ (result ≡ Status.NoMemory) }
{
    match write_all(err, text.as_bytes()) {
        Err(WriteFault::OutOfMemory) => Status::NoMemory,
        _ => Status::Usage,
    }
}

// Runs a mode, and writes the line of a fault.
fn run_in<R: Threads + Wait + Sync, S: Source, K: Sink, E: Sink, G: Gate + Sync>(
    rt: &R,
    alloc: Global,
    reading: Words,
    source: &mut S,
    out: &mut K,
    err: &mut E,
    gate: &G,
) -> Status
    requires { KeepsRanges reading }
    ensures outcome { Took (S.left source.old) (S.left source.new) (λ input. IsWithinLimit input ×
        Gained (K.text out.old) (K.text out.new) (λ text.
        Gained (E.text err.old) (E.text err.new) (λ line.
        Means (task_of reading) (HasRead (task_of reading) (IsAtEnd (S.left source.new))) (Rose (E.faults err.old) (E.faults err.new)) result input text line))) }
    ensures usage { result ≢ Status.Usage }
    ensures read { result ≡ Status.ReadFault → Rose (S.faults source.old) (S.faults source.new) }
    ensures write { result ≡ Status.WriteFault → Rose (K.faults out.old) (K.faults out.new) }
    ensures complete { (all : List ℕ) → HasInput (task_of reading) (S.left source.old) all → IsAccepted (task_of reading) all →
        ¬ Rose (S.faults source.old) (S.faults source.new) → ¬ Rose (K.faults out.old) (K.faults out.new) →
        IsAnswered (task_of reading) result }
{
    match outcome_of(rt, alloc, reading, source, out, gate) {
        Outcome::Done { found } => { if found { Status::Found } else { Status::Clean } }
        Outcome::Refused(fault) => refuse(alloc, err, &fault),
    }
}

// Writes the line of a fault, and answers its status.
fn refuse<E: Sink>(alloc: Global, err: &mut E, fault: &Fault) -> Status
    ensures told { Gained (E.text err.old) (E.text err.new) (TellsOf (Rose (E.faults err.old) (E.faults err.new)) fault.now result) }
    ensures usage { result ≢ Status.Usage }
    ensures read { result ≡ Status.ReadFault → fault.now ≡ Fault.Read }
    ensures write { result ≡ Status.WriteFault → fault.now ≡ Fault.Write }
{
    let Ok(line) = line_of(alloc, fault) else {
        return Status::NoMemory;
    };
    if let Err(WriteFault::OutOfMemory) = write_all(err, &line) {
        return Status::NoMemory;
    }
    status_of(fault)
}
