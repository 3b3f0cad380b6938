// The trace of a recording.
ghost use Rattle.std.specs.Prelude.{◌≡◌};
ghost use Rattle.sp_base.specs.Causes.{HasWriteCause};
ghost use Rattle.sp_base.specs.Moves.{Gained, IsWritten};
ghost use Rattle.std_text.specs.Writing.{trace_text};

use report::write_trace;
use script_machine::{Recording, Script};
use sp_base::{Sink, WriteFault};
use std::alloc::Global;

/// Writes the trace of a recording with the names of its script.
///
/// After a fault a front of it was written. `Failed` comes only where the sink's count of faults rose.
pub fn write_recording<K: Sink>(
    alloc: Global,
    sink: &mut K,
    script: &Script,
    recording: &Recording,
) -> Result<(), WriteFault>
    requires { recording.now.machine.script ≡ script.now }
    ensures text { Gained (K.text sink.old) (K.text sink.new) (IsWritten result (trace_text script.now.names recording.now.trace.events)) }
    ensures cause { HasWriteCause (K.faults sink.old) (K.faults sink.new) result }
{
    write_trace(alloc, sink, recording.trace(), script.names())
}
