// The text of the witness of a finding.
ghost use Rattle.std.specs.Prelude.{◌≡◌, ◌<◌, ◌≤◌, All, IfOk, length};
ghost use Rattle.replayer.specs.Replays.{along};
ghost use Rattle.std_text.specs.Writing.{AreNamed, trace_text};
ghost use Rattle.predictor.specs.Predictions.{ArePredicted, count_of_findings};
ghost use Rattle.answers.specs.Witnesses.{WritesFinding, target_of};

use replayer::reorder;
use sp_base::OutOfMemory;
use std::alloc::Global;
use std_text::write_event;
use trace_laws::{Finding, Findings, Keep, Names, Trace};

// The keep of a finding.
fn keep_of(finding: &Finding) -> &Keep
    ensures { result.now ≡ (target_of finding.now).keep }
{
    match finding {
        Finding::Race(_, keep) => keep,
        Finding::Deadlock(_, keep) => keep,
    }
}

// The lines of the events at these places.
#[tactic(auto, using(crate::proofs::KeptLines::place_more))]
fn event_lines(
    alloc: Global,
    trace: &Trace,
    names: &Names,
    places: &[u32],
) -> Result<Vec<u8>, OutOfMemory>
    requires named { AreNamed names.now trace.now.events }
    requires within { All (λ place. place < length trace.now.events) places.now }
    ensures { IfOk result (λ text. text.items ≡ trace_text names.now (along trace.now.events places.now)) }
{
    let mut text = Vec::new(alloc);
    for place in places {
        let event = trace.event(*place);
        write_event(alloc, &event, names, &mut text)?;
    }
    Ok(text)
}

/// The text of the witness of the finding of a number, which counts from 1: the lines of the events that its keep counts,
/// in the order of the trace. They are the least sync-preserving correct reordering that leaves the finding's places
/// enabled.
///
/// The only error is want of memory.
#[tactic(auto, using(crate::proofs::Witnessing::keep_size, crate::proofs::Witnessing::kept_within, crate::proofs::Witnessing::writes))]
pub fn witness_text(
    alloc: Global,
    trace: &Trace,
    names: &Names,
    findings: &Findings,
    number: u32,
) -> Result<Vec<u8>, OutOfMemory>
    requires named { AreNamed names.now trace.now.events }
    requires predicted { ArePredicted trace.now findings.now }
    requires least { 1 ≤ number }
    requires most { number ≤ count_of_findings findings.now }
    ensures { IfOk result (λ text. WritesFinding names.now trace.now findings.now number text.items) }
{
    let keep = keep_of(findings.get(number - 1));
    let places = reorder(alloc, trace, keep)?;
    event_lines(alloc, trace, names, &places)
}
