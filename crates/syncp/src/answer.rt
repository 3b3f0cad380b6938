// How a call ends that has its text.
ghost use Rattle.std.specs.Prelude.{◌≡◌, ◌≢◌, Err};
ghost use Rattle.sp_base.specs.Causes.{Rose};
ghost use Rattle.sp_base.specs.Moves.{Gained};
ghost use Rattle.syncp.specs.Outcome.{EndsAnswer};

use crate::outcome::{Fault, Outcome};
use sp_base::{Sink, SureSink, WriteFault, write_all};

/// Writes a text, with which it is said whether anything was found, and says how the call ended; or says why there is no
/// text, and writes nothing. `Write` comes only where it was said before, or the sink's count of faults rose.
pub fn write_answer<K: Sink>(out: &mut K, answer: Result<(SureSink, bool), Fault>) -> Outcome
    ensures outcome { Gained (K.text out.old) (K.text out.new) (EndsAnswer answer result) }
    ensures write { result ≡ Outcome.Refused Fault.Write → answer ≢ Err Fault.Write → Rose (K.faults out.old) (K.faults out.new) }
{
    let (text, found) = match answer {
        Ok(answer) => answer,
        Err(fault) => return Outcome::Refused(fault),
    };
    match write_all(out, text.text()) {
        Ok(()) => Outcome::Done { found },
        Err(WriteFault::Failed) => Outcome::Refused(Fault::Write),
        Err(WriteFault::OutOfMemory) => Outcome::Refused(Fault::OutOfMemory),
    }
}
