//! Writing whole texts.

ghost use Rattle.sp_base.specs.Causes.{HasWriteCause};
ghost use Rattle.sp_base.specs.Moves.{Gained, IsWritten};

use crate::outside::{Sink, WriteFault};

/// Writes all of the bytes, in as many writes as the sink needs.
///
/// Answers the fault of the first write that fails. A front of the bytes was then written.
pub fn write_all<K: Sink>(sink: &mut K, bytes: &[u8]) -> Result<(), WriteFault>
    ensures text { Gained (K.text sink.old) (K.text sink.new) (IsWritten result bytes.now) }
    ensures cause { HasWriteCause (K.faults sink.old) (K.faults sink.new) result }
{
    let mut rest = bytes;
    while !rest.is_empty() {
        match sink.write(rest) {
            Ok(count) => rest = &rest[count..],
            Err(fault) => return Err(fault),
        }
    }
    Ok(())
}
