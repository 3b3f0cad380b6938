// The trace behind scripts.
ghost use Rattle.std.specs.Prelude.{◌<◌, ◌+◌, ◌^◌};
ghost use Rattle.sp_base.specs.declared.limits.TheConstants.{MAX_INPUT};
ghost use Rattle.std_text.specs.Framing.{start_with};
ghost use Rattle.intake.specs.TraceTexts.{whole_reading};
ghost use Rattle.intake.specs.Reads.{ReadsTrace};

use crate::fault::IntakeFault;
use crate::reading::{read_end, read_piece};
use std::alloc::Global;
use std_text::Reader;
use trace_laws::{Names, Trace};

/// The trace of a text behind scripts, whose names have their numbers already and whose first line has this number.
///
/// A refused text is answered with its first fault. The only other error is want of memory.
pub fn trace_behind(
    alloc: Global,
    names: &Names,
    line: u32,
    text: &[u8],
) -> Result<Trace, IntakeFault>
    requires { line + MAX_INPUT < 2 ^ 32 }
    ensures { ReadsTrace (whole_reading (start_with names.now line) text.now) result }
{
    let Ok(names) = names.copy() else {
        return Err(IntakeFault::OutOfMemory);
    };
    let Ok(mut reader) = Reader::after(alloc, names, line) else {
        return Err(IntakeFault::OutOfMemory);
    };
    read_piece(alloc, &mut reader, text)?;
    let (trace, _names) = read_end(alloc, reader)?;
    Ok(trace)
}
