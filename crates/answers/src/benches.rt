// How much there is in a trace.
ghost use Rattle.std.specs.Prelude.{◌≡◌, length, IfOk, string_bytes};
ghost use Rattle.answers.specs.Benches.{bench_lines, bench_text, events_line, report_line};
ghost use Rattle.report.specs.Reports.{report_text};
ghost use Rattle.predictor.specs.Predictions.{ArePredicted};

use crate::reports::report_of;
use crate::sinks::sink_with;
use report::last_line;
use sp_base::{OutOfMemory, SureSink};
use std::alloc::Global;
use trace_laws::{Findings, Trace};

// How many deadlocks there are.
fn count_of_deadlocks(findings: &Findings) -> u32
    ensures { result ≡ length findings.now.deadlocks }
{
    findings.len() - findings.races()
}

// The line of how many events there are.
fn events_line(alloc: Global, events: u32) -> Result<String, OutOfMemory>
    ensures { IfOk result (λ line. string_bytes line ≡ events_line events) }
{
    match format!(in alloc; "events {events}\n") {
        Ok(line) => Ok(line),
        Err(_) => Err(OutOfMemory),
    }
}

// The line of how long a report is.
fn report_line(alloc: Global, bytes: usize) -> Result<String, OutOfMemory>
    ensures { IfOk result (λ line. string_bytes line ≡ report_line bytes) }
{
    match format!(in alloc; "report {bytes} bytes\n") {
        Ok(line) => Ok(line),
        Err(_) => Err(OutOfMemory),
    }
}

// The lines that tell how much there was.
fn lines_of(
    alloc: Global,
    events: u32,
    races: u32,
    deadlocks: u32,
    bytes: usize,
) -> Result<String, OutOfMemory>
    ensures { IfOk result (λ text. string_bytes text ≡ bench_lines events races deadlocks bytes) }
{
    let mut text = events_line(alloc, events)?;
    text.push_str(last_line(alloc, races, deadlocks)?.as_str())?;
    text.push_str(report_line(alloc, bytes)?.as_str())?;
    Ok(text)
}

/// The lines of how many events a trace has, how many races and deadlocks are found in it, and how many bytes its report
/// has. The only error is want of memory.
pub fn bench_text(
    alloc: Global,
    events: u32,
    trace: &Trace,
    findings: &Findings,
) -> Result<SureSink, OutOfMemory>
    requires { ArePredicted trace.now findings.now }
    ensures { IfOk result (λ text. text ≡ bench_text events findings.now (length (report_text trace.now.events findings.now))) }
{
    let report = report_of(alloc, trace, findings)?;
    let races = findings.races();
    let deadlocks = count_of_deadlocks(findings);
    let lines = lines_of(alloc, events, races, deadlocks, report.text().len())?;
    sink_with(alloc, lines.as_bytes())
}
