//! Traces that are runs of a script, and traces that are none.

ghost use Rattle.std.specs.Prelude.{◌<◌, ◌^◌, length};

use crate::{Recording, RunFault, Script};
use std::alloc::Global;
use trace_laws::Trace;

// The trace taken as a run of the script: its length, or the place that is no step.
fn taken(alloc: Global, script: &Script, trace: &Trace) -> Option<Result<u32, u32>> {
    match Recording::of(alloc, script, trace) {
        Ok(recording) => Some(Ok(recording.trace().len())),
        Err(RunFault::NotAStep(place)) => Some(Err(place)),
        Err(RunFault::OutOfMemory) => None,
    }
}

// The lone run of the other text taken as one of the first.
fn taken_as(alloc: Global, text: &[u8], other: &[u8]) -> Option<Result<u32, u32>>
    requires text { length text.now < 2 ^ 32 }
    requires other { length other.now < 2 ^ 32 }
{
    let script = Script::read(alloc, text).ok()?;
    let recorded = Script::read(alloc, other).ok()?;
    let run = Recording::alone(alloc, &recorded).ok()?;
    taken(alloc, &script, run.trace())
}

#[test]
fn the_first_place_that_is_no_step_is_told(rt: HostRuntime) {
    let script = b"thread a\nread x\nwrite y\nread z\n".as_slice();
    let joins = b"thread a\nfork b\njoin b\nthread b\nread x\nread x\n".as_slice();
    let early = b"thread a\nfork b\njoin b\nthread b\nread x\n".as_slice();
    let rows = [
        (b"thread a\n\nread x\n\nwrite y\nread z\n".as_slice(), Ok(3)),
        (b"thread a\nread x\nwrite y\n".as_slice(), Ok(2)),
        (b"".as_slice(), Ok(0)),
        (b"thread a\nread x\nread y\nwrite z\n".as_slice(), Err(1)),
        (b"thread a\nwrite x\nwrite y\n".as_slice(), Err(0)),
        (
            b"thread a\nread x\nwrite y\nread z\nread x\n".as_slice(),
            Err(3),
        ),
        (
            b"thread a\nread x\nwrite y\nthread b\nread z\n".as_slice(),
            Err(2),
        ),
    ];
    for (other, answer) in rows {
        assert_eq!(rt; taken_as(rt.alloc(), script, other), Some(answer));
    }
    assert_eq!(rt; taken_as(rt.alloc(), joins, early), Some(Err(2)));
}
