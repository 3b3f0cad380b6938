// What is written of a small trace.
ghost use Rattle.std.specs.Prelude.{◌≤◌, IfOk, IfSome, length};
ghost use Rattle.std_text.specs.Writing.{AreNamed};
ghost use Rattle.report.specs.Reports.{AreWithin};

use crate::{write_reached_count, write_report, write_trace};
use sp_base::{OutOfMemory, SureSink};
use std::alloc::Global;
use std_text::Reader;
use trace_laws::{Deadlock, Finding, Findings, Keep, Names, Race, Trace};

// The trace of a text, and its names.
fn read(alloc: Global, text: &[u8]) -> Option<(Trace, Names)>
    ensures { IfSome result (λ read. AreNamed read.1 read.0.events) }
{
    let Ok(mut reader) = Reader::new(alloc) else {
        return None;
    };
    let Ok(()) = reader.feed(text) else {
        return None;
    };
    let Ok(()) = reader.close() else {
        return None;
    };
    Some(reader.finish())
}

// A deadlock of the first and the third place, and a race of the first two, of which the deadlock is added first.
fn deadlock_and_race(alloc: Global, trace: &Trace) -> Result<Findings, OutOfMemory>
    requires { 3 ≤ length trace.now.events }
    ensures { IfOk result (AreWithin trace.now.events) }
{
    let mut findings = Findings::new(alloc);
    let deadlock = Deadlock::new(&[0, 2]);
    findings.push(Finding::Deadlock(deadlock, Keep::new(alloc, &[1, 0])?))?;
    let race = Race {
        later: 1,
        earlier: 0,
    };
    findings.push(Finding::Race(race, Keep::new(alloc, &[0, 12])?))?;
    Ok(findings)
}

// Whether the lines of the trace of a text are written.
fn writes_trace(alloc: Global, sink: &mut SureSink, text: &[u8]) -> bool {
    let Some((trace, names)) = read(alloc, text) else {
        return false;
    };
    write_trace(alloc, sink, &trace, &names).is_ok()
}

// Whether the line with the count of what was reached is written.
fn writes_count(alloc: Global, sink: &mut SureSink, count: u32) -> bool {
    write_reached_count(alloc, sink, count).is_ok()
}

#[test]
fn locations_are_always_written(rt: HostRuntime) {
    let alloc = rt.alloc();
    let mut sink = SureSink::new(alloc);
    assert!(rt; writes_trace(alloc, &mut sink, b"T0|w(X)\nT1|acq(L)|7".as_slice()));
    assert!(rt; sink.text() == b"T0|w(X)|0\nT1|acq(L)|7\n".as_slice());
    assert!(rt; writes_count(alloc, &mut sink, 12));
    assert!(rt; sink.text() == b"T0|w(X)|0\nT1|acq(L)|7\nreached 12\n".as_slice());
}

// Whether these lines are the report of the findings.
fn is_report(alloc: Global, trace: &Trace, findings: &Findings, lines: &[u8]) -> bool
    requires { AreWithin trace.now.events findings.now }
{
    let mut sink = SureSink::new(alloc);
    write_report(alloc, &mut sink, trace, findings).is_ok() && sink.text() == lines
}

// Whether these lines are the report of the trace of a text without findings.
fn is_report_of_none(alloc: Global, text: &[u8], lines: &[u8]) -> bool {
    let Some((trace, _names)) = read(alloc, text) else {
        return false;
    };
    is_report(alloc, &trace, &Findings::new(alloc), lines)
}

// Whether these lines are the report of the trace of a text with a deadlock and a race.
fn is_report_of_two(alloc: Global, text: &[u8], lines: &[u8]) -> bool {
    let Some((trace, _names)) = read(alloc, text) else {
        return false;
    };
    if trace.len() < 3 {
        return false;
    }
    match deadlock_and_race(alloc, &trace) {
        Ok(findings) => is_report(alloc, &trace, &findings, lines),
        Err(_) => false,
    }
}

// Three events, of which the second has no location.
const THREE_EVENTS: &[u8] = b"T0|w(X)|5\nT1|w(X)|\nT0|r(Y)|31\n";

#[test]
fn no_findings_are_counted(rt: HostRuntime) {
    let lines = b"races 0 deadlocks 0\n".as_slice();
    assert!(rt; is_report_of_none(rt.alloc(), THREE_EVENTS, lines));
}

#[test]
fn races_come_before_deadlocks(rt: HostRuntime) {
    let lines =
        b"race 1 with 0 at 0 5 keep 0 12\ndeadlock 0 2 at 5 31 keep 1 0\nraces 1 deadlocks 1\n".as_slice();
    assert!(rt; is_report_of_two(rt.alloc(), THREE_EVENTS, lines));
}
