//! Scripts read and run.

ghost use Rattle.std.specs.Prelude.{◌<◌, ◌^◌, length};

use crate::{Recording, Script};
use std::alloc::Global;

// How many threads and instructions a script has, how many events its lone run has, and whether that is complete.
fn run_alone(alloc: Global, text: &[u8]) -> Option<(u16, u32, u32, bool)>
    requires { length text.now < 2 ^ 32 }
{
    let script = Script::read(alloc, text).ok()?;
    let recording = Recording::alone(alloc, &script).ok()?;
    let events = recording.trace().len();
    Some((
        script.threads(),
        script.size(),
        events,
        recording.complete(),
    ))
}

#[test]
fn runs_to_the_end(rt: HostRuntime) {
    let text =
        b"thread main\nfork worker\nlock l\nwrite x 7\nunlock l\njoin worker\nthread worker\nrepeat 2\n lock l\n read x\n if 7\n  add 1\n  write x\n else\n  write y\n end\n unlock l\nend\n";
    assert_eq!(rt;
        run_alone(rt.alloc(), text.as_slice()),
        Some((2, 21, 13, true))
    );
}
