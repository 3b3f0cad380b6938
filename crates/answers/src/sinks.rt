// A text in a sink.
ghost use Rattle.std.specs.Prelude.{◌≡◌, IfOk};

use sp_base::{OutOfMemory, SureSink, write_all};
use std::alloc::Global;

/// A sink in memory that has taken a text. The only error is want of memory.
pub fn sink_with(alloc: Global, text: &[u8]) -> Result<SureSink, OutOfMemory>
    ensures { IfOk result (λ sink. sink ≡ text.now) }
{
    let mut sink = SureSink::new(alloc);
    match write_all(&mut sink, text) {
        Ok(()) => Ok(sink),
        Err(_) => Err(OutOfMemory),
    }
}
