// The report of a trace.
ghost use Rattle.std.specs.Prelude.{◌≡◌, IfOk};
ghost use Rattle.report.specs.Reports.{report_text};
ghost use Rattle.predictor.specs.Predictions.{ArePredicted};

use report::write_report;
use sp_base::{OutOfMemory, SureSink};
use std::alloc::Global;
use trace_laws::{Findings, Trace};

/// The report of what is predicted from a trace. The only error is want of memory.
pub fn report_of(alloc: Global, trace: &Trace, findings: &Findings) -> Result<SureSink, OutOfMemory>
    requires { ArePredicted trace.now findings.now }
    ensures { IfOk result (λ text. text ≡ report_text trace.now.events findings.now) }
{
    let mut text = SureSink::new(alloc);
    match write_report(alloc, &mut text, trace, findings) {
        Ok(()) => Ok(text),
        Err(_) => Err(OutOfMemory),
    }
}
