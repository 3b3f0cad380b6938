// What is written of a small trace and of a small run.
ghost use Rattle.std.specs.Prelude.{IfSome};
ghost use Rattle.std_text.specs.Writing.{AreNamed};
ghost use Rattle.predictor.specs.Predictions.{ArePredicted};

use crate::{
    RunText, bench_text, replays_in, report_of, text_of_recording, witness_text, write_recording,
};
use predictor::find;
use script_machine::{Recording, Script};
use sp_base::{OpenGate, SureSink};
use std::alloc::Global;
use std::test::Fail;
use std::thread::Threads;
use std_text::Reader;
use trace_laws::{Findings, Names, Trace};

// Two threads whose second writes race.
const SCRIPT: &str = "thread a\nwrite y 1\nwrite x 2\nthread b\nwrite x 3\n";

// Their run, one after the other.
const TRACE: &str = "a|w(y)|2\na|w(x)|3\nb|w(x)|5\n";

// The report of that run.
const REPORT_TEXT: &str = "race 2 with 1 at 5 3 keep 1 0\nraces 1 deadlocks 0\n";

// The replays of what is found in it.
const REPLAYS: &str = "replay 1 b|w(x) a|w(x)\nreached 1\n";

// All that is written of it.
const WHOLE_TEXT: &str =
    "a|w(y)|2\na|w(x)|3\nb|w(x)|5\n%%\nrace 2 with 1 at 5 3 keep 1 0\nraces 1 deadlocks 0\nreplay 1 b|w(x) a|w(x)\nreached 1\nend a\nend b\n";

// The trace of a text, and its names.
fn read(alloc: Global, text: &[u8]) -> Option<(Trace, Names)>
    ensures { IfSome result (λ read. AreNamed read.1 read.0.events) }
{
    let Ok(mut reader) = Reader::new(alloc) else {
        return None;
    };
    let Ok(()) = reader.feed(text) else {
        return None;
    };
    let Ok(()) = reader.close() else {
        return None;
    };
    Some(reader.finish())
}

// What is predicted from a trace.
fn predicted<R: Threads + Sync>(rt: &R, alloc: Global, trace: &Trace) -> Option<Findings>
    ensures { IfSome result (ArePredicted trace.now) }
{
    let Ok(findings) = find(rt, alloc, trace, 3, 1, &OpenGate) else {
        return None;
    };
    Some(findings)
}

// The report of the trace.
fn report<R: Threads + Sync>(rt: &R, alloc: Global) -> Option<Vec<u8>> {
    let (trace, _) = read(alloc, TRACE.as_bytes())?;
    let findings = predicted(rt, alloc, &trace)?;
    let report = report_of(alloc, &trace, &findings).ok()?;
    report.text().to_vec(alloc).ok()
}

// The witness of the only finding of the trace.
fn witness<R: Threads + Sync>(rt: &R, alloc: Global) -> Option<Vec<u8>> {
    let (trace, names) = read(alloc, TRACE.as_bytes())?;
    let findings = predicted(rt, alloc, &trace)?;
    if findings.len() != 1 {
        return None;
    }
    witness_text(alloc, &trace, &names, &findings, 1).ok()
}

// How much there is in the trace.
fn counts<R: Threads + Sync>(rt: &R, alloc: Global) -> Option<Vec<u8>> {
    let (trace, _) = read(alloc, TRACE.as_bytes())?;
    let findings = predicted(rt, alloc, &trace)?;
    let lines = bench_text(alloc, 3, &trace, &findings).ok()?;
    lines.text().to_vec(alloc).ok()
}

// The trace of the run of the script, one thread after the other.
fn recorded(alloc: Global) -> Option<Vec<u8>> {
    let script = Script::read(alloc, SCRIPT.as_bytes()).ok()?;
    let Ok(recording) = Recording::alone(alloc, &script) else {
        return None;
    };
    let mut sink = SureSink::new(alloc);
    write_recording(alloc, &mut sink, &script, &recording).ok()?;
    sink.text().to_vec(alloc).ok()
}

// The replays of what is found in that run, if anything is.
fn replayed<R: Threads + Sync>(rt: &R, alloc: Global) -> Option<Vec<u8>> {
    let script = Script::read(alloc, SCRIPT.as_bytes()).ok()?;
    let Ok(recording) = Recording::alone(alloc, &script) else {
        return None;
    };
    let (replays, found) = replays_in(rt, alloc, 3, 1, &script, &recording, &OpenGate).ok()?;
    if !found {
        return None;
    }
    replays.text().to_vec(alloc).ok()
}

// All that is written of that run, if anything is found in it and it is not cut.
fn whole<R: Threads + Sync>(rt: &R, alloc: Global) -> Option<Vec<u8>> {
    let script = Script::read(alloc, SCRIPT.as_bytes()).ok()?;
    let Ok(recording) = Recording::alone(alloc, &script) else {
        return None;
    };
    match text_of_recording(rt, alloc, 3, 1, &script, &recording, &OpenGate).ok()? {
        RunText::Whole { text, found: true } => text.text().to_vec(alloc).ok(),
        _ => None,
    }
}

// Whether there is a text, and it is this one.
fn is_text(text: Option<Vec<u8>>, wanted: &str) -> bool {
    match text {
        Some(text) => text.as_slice() == wanted.as_bytes(),
        None => false,
    }
}

#[test]
fn report_of_a_trace(rt: HostRuntime) -> Result<(), Fail> {
    assert!(rt; is_text(report(&rt, rt.alloc()), REPORT_TEXT));
    Ok(())
}

#[test]
fn witness_of_the_only_finding(rt: HostRuntime) -> Result<(), Fail> {
    assert!(rt; is_text(witness(&rt, rt.alloc()), "a|w(y)|2\n"));
    Ok(())
}

#[test]
fn counts_of_a_trace(rt: HostRuntime) -> Result<(), Fail> {
    let wanted = "events 3\nraces 1 deadlocks 0\nreport 50 bytes\n";
    assert!(rt; is_text(counts(&rt, rt.alloc()), wanted));
    Ok(())
}

#[test]
fn trace_of_a_recording(rt: HostRuntime) -> Result<(), Fail> {
    assert!(rt; is_text(recorded(rt.alloc()), TRACE));
    Ok(())
}

#[test]
fn replays_of_a_recording(rt: HostRuntime) -> Result<(), Fail> {
    assert!(rt; is_text(replayed(&rt, rt.alloc()), REPLAYS));
    Ok(())
}

#[test]
fn whole_text_of_a_recording(rt: HostRuntime) -> Result<(), Fail> {
    assert!(rt; is_text(whole(&rt, rt.alloc()), WHOLE_TEXT));
    Ok(())
}
