//! The text of a trace.

ghost use Rattle.std.specs.Prelude.{◌≡◌, IfOk};
ghost use Rattle.sp_base.specs.Causes.{HasWriteCause};
ghost use Rattle.sp_base.specs.Moves.{Gained, IsWritten};
ghost use Rattle.std_text.specs.Writing.{AreNamed, trace_text};

use sp_base::{OutOfMemory, Sink, WriteFault, write_all};
use std::alloc::Global;
use std_text::write_event;
use trace_laws::{Names, Trace};

// The lines of the events.
#[tactic(auto, using(crate::proofs::MoreLines::event_more))]
fn event_lines(alloc: Global, trace: &Trace, names: &Names) -> Result<Vec<u8>, OutOfMemory>
    requires { AreNamed names.now trace.now.events }
    ensures { IfOk result (λ text. text.items ≡ trace_text names.now trace.now.events) }
{
    let mut text = Vec::new(alloc);
    for place in 0..trace.len() {
        let event = trace.event(place);
        write_event(alloc, &event, names, &mut text)?;
    }
    Ok(text)
}

/// Writes the text of a trace: the line of each event, in their order. All that the events name has a name here.
///
/// The whole text is gathered first. After a fault a front of it was written, and nothing where memory ran out before
/// the first write. `Failed` comes only where the sink's count of faults rose.
pub fn write_trace<K: Sink>(
    alloc: Global,
    sink: &mut K,
    trace: &Trace,
    names: &Names,
) -> Result<(), WriteFault>
    requires { AreNamed names.now trace.now.events }
    ensures text { Gained (K.text sink.old) (K.text sink.new) (IsWritten result (trace_text names.now trace.now.events)) }
    ensures cause { HasWriteCause (K.faults sink.old) (K.faults sink.new) result }
{
    let Ok(text) = event_lines(alloc, trace, names) else {
        return Err(WriteFault::OutOfMemory);
    };
    write_all(sink, &text)
}
