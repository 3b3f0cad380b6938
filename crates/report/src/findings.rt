//! The report of a trace.

ghost use Rattle.std.specs.Prelude.{◌≡◌, IfOk, string_bytes};
ghost use Rattle.sp_base.specs.Causes.{HasWriteCause};
ghost use Rattle.sp_base.specs.Moves.{Gained, IsWritten};
ghost use Rattle.report.specs.Reports.{AreWithin, finding_lines, report_text};

use crate::lines::{last_line, line_of_finding};
use sp_base::{OutOfMemory, Sink, WriteFault, write_all};
use std::alloc::Global;
use trace_laws::{Findings, Trace};

// The lines of the findings.
#[tactic(auto, using(crate::proofs::MoreLines::finding_within, crate::proofs::MoreLines::finding_more))]
fn lines_of_all(alloc: Global, trace: &Trace, findings: &Findings) -> Result<String, OutOfMemory>
    requires { AreWithin trace.now.events findings.now }
    ensures { IfOk result (λ text. string_bytes text ≡ finding_lines trace.now.events findings.now) }
{
    let mut text = String::new(alloc);
    for number in 0..findings.len() {
        let line = line_of_finding(alloc, trace, findings.get(number))?;
        let Ok(()) = text.push_str(line.as_str()) else {
            return Err(OutOfMemory);
        };
    }
    Ok(text)
}

// The report.
#[tactic(auto, unfolding(crate::specs::Reports::report_text))]
fn report_of(alloc: Global, trace: &Trace, findings: &Findings) -> Result<String, OutOfMemory>
    requires { AreWithin trace.now.events findings.now }
    ensures { IfOk result (λ text. string_bytes text ≡ report_text trace.now.events findings.now) }
{
    let races = findings.races();
    let deadlocks = findings.len() - races;
    let mut text = lines_of_all(alloc, trace, findings)?;
    let last = last_line(alloc, races, deadlocks)?;
    let Ok(()) = text.push_str(last.as_str()) else {
        return Err(OutOfMemory);
    };
    Ok(text)
}

/// Writes the report of a trace: the lines of the races, then those of the deadlocks, then the closing line. The places
/// of the findings are places of the trace.
///
/// The whole report is gathered first. After a fault a front of it was written, and nothing where memory ran out before
/// the first write. `Failed` comes only where the sink's count of faults rose.
pub fn write_report<K: Sink>(
    alloc: Global,
    sink: &mut K,
    trace: &Trace,
    findings: &Findings,
) -> Result<(), WriteFault>
    requires { AreWithin trace.now.events findings.now }
    ensures text { Gained (K.text sink.old) (K.text sink.new) (IsWritten result (report_text trace.now.events findings.now)) }
    ensures cause { HasWriteCause (K.faults sink.old) (K.faults sink.new) result }
{
    let Ok(text) = report_of(alloc, trace, findings) else {
        return Err(WriteFault::OutOfMemory);
    };
    write_all(sink, text.as_bytes())
}
