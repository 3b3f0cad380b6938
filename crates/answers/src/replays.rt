// The replays of what is found in a recording.
ghost use Rattle.std.specs.Prelude.{◌≡◌, ◌≤◌, IfOk, OnOk};
ghost use Rattle.replayer.specs.Replayed.{IsFindingOf};
ghost use Rattle.predictor.specs.Predictions.{ArePredicted};
ghost use Rattle.answers.specs.Replays.{AddsReplay, ReplaysRun, WritesReplays};

use predictor::{FindFault, find};
use replayer::replay;
use report::{write_reached, write_reached_count};
use script_machine::{Recording, Script};
use sp_base::{Gate, MAX_SIZE, MAX_WORKERS, MIN_SIZE, OutOfMemory, SureSink};
use std::alloc::Global;
use std::thread::Threads;
use trace_laws::{Finding, Findings};

// Appends the line of the replay of a finding.
fn add_replay(
    alloc: Global,
    lines: &mut SureSink,
    number: u32,
    script: &Script,
    recording: &Recording,
    finding: &Finding,
) -> Result<(), OutOfMemory>
    requires script { recording.now.machine.script ≡ script.now }
    requires finding { IsFindingOf recording.now.trace finding.now }
    ensures { OnOk result (AddsReplay script.now recording.now.trace finding.now number lines.old lines.new) }
{
    let reached = replay(alloc, script, recording, finding)?;
    // The operands of its calls are in range, as the recording says.
    let _ = recording.trace();
    match write_reached(alloc, lines, number, &reached, script.names()) {
        Ok(()) => Ok(()),
        Err(_) => Err(OutOfMemory),
    }
}

/// The text of the replays of all findings of a recording, in their order, with the last line.
///
/// The only error is want of memory.
pub fn replay_text(
    alloc: Global,
    script: &Script,
    recording: &Recording,
    findings: &Findings,
) -> Result<SureSink, OutOfMemory>
    requires script { recording.now.machine.script ≡ script.now }
    requires predicted { ArePredicted recording.now.trace findings.now }
    ensures { IfOk result (λ text. WritesReplays script.now recording.now.trace findings.now text) }
{
    let mut lines = SureSink::new(alloc);
    for number in 0..findings.len() {
        let finding = findings.get(number);
        add_replay(alloc, &mut lines, number + 1, script, recording, finding)?;
    }
    match write_reached_count(alloc, &mut lines, findings.len()) {
        Ok(()) => Ok(lines),
        Err(_) => Err(OutOfMemory),
    }
}

/// The text of the replays of what is found in a recording with deadlock patterns of at most that size, and whether anything
/// is found. The workers and the gate have no part in the answer.
///
/// `TooManyPatterns` comes exactly where the recording has too many patterns. The only other error is want of memory.
pub fn replays_in<R: Threads + Sync, G: Gate + Sync>(
    rt: &R,
    alloc: Global,
    size: u8,
    workers: u8,
    script: &Script,
    recording: &Recording,
    gate: &G,
) -> Result<(SureSink, bool), FindFault>
    requires least_size { MIN_SIZE ≤ size }
    requires greatest_size { size ≤ MAX_SIZE }
    requires least_workers { 1 ≤ workers }
    requires greatest_workers { workers ≤ MAX_WORKERS }
    requires script { recording.now.machine.script ≡ script.now }
    ensures { ReplaysRun size script.now recording.now.trace result }
{
    let findings = find(rt, alloc, recording.trace(), size, workers, gate)?;
    let Ok(text) = replay_text(alloc, script, recording, &findings) else {
        return Err(FindFault::OutOfMemory);
    };
    Ok((text, findings.len() > 0))
}
