// The race of a small script is replayed.

ghost use Rattle.std.specs.Prelude.{◌≡◌, ◌<◌, length, IfSome, Some};
ghost use Rattle.trace_laws.specs.Trace.{thread_at, Writes};
ghost use Rattle.replayer.specs.Replayed.{IsFindingOf};

use crate::{laws, replay};
use script_machine::{Recording, Script};
use sp_base::VarId;
use std::alloc::Global;
use trace_laws::{Finding, Keep, Op, Race, Trace};

// The variable that the thread writes at a place; none where it is another thread, or no write.
fn written(trace: &Trace, place: u32, thread: u16) -> Option<VarId>
    requires { place < length trace.now.events }
    ensures own { IfSome result (λ _. thread_at trace.now.events place ≡ Some thread) }
    ensures writes { IfSome result (λ x. Writes trace.now.events place x) }
{
    let event = trace.event(place);
    if event.thread.value() != thread {
        return None;
    }
    match &event.op {
        Op::Write(x) => Some(*x),
        _ => None,
    }
}

// The race of the second and third write, which keeps the first; none where the trace has other events.
fn race_of_writes(alloc: Global, recording: &Recording) -> Option<Finding>
    ensures { IfSome result (λ finding. IsFindingOf recording.now.trace finding) }
{
    let trace = recording.trace();
    if trace.len() != 3 || trace.threads() != 2 {
        return None;
    }
    written(trace, 0, 0)?;
    let earlier = written(trace, 1, 0)?;
    let later = written(trace, 2, 1)?;
    if earlier != later {
        return None;
    }
    let Ok(keep) = Keep::new(alloc, [1, 0].as_slice()) else {
        return None;
    };
    let race = Race {
        later: 2,
        earlier: 1,
    };
    Some(Finding::Race(race, keep))
}

// Whether the replay comes to where the second and then the first thread are the finding's, each about to write the variable.
fn reaches(
    alloc: Global,
    script: &Script,
    recording: &Recording,
    finding: &Finding,
    x: VarId,
) -> bool
    requires script { recording.now.machine.script ≡ script.now }
    requires finding { IsFindingOf recording.now.trace finding.now }
{
    let Ok(reached) = replay(alloc, script, recording, finding) else {
        return false;
    };
    let threads = reached.threads();
    if threads.len() != 2 || threads[0].value() != 1 || threads[1].value() != 0 {
        return false;
    }
    let machine = reached.machine();
    machine.next_op(threads[0]) == Some(Op::Write(x))
        && machine.next_op(threads[1]) == Some(Op::Write(x))
}

#[test]
fn the_race_of_two_writes_is_reached(rt: HostRuntime) {
    laws::replay_law();
    laws::race_law();
    laws::deadlock_law();
    let text = b"thread a\nwrite y 1\nwrite x 2\nthread b\nwrite x 3\n".as_slice();
    let Ok(script) = Script::read(rt.alloc(), text) else {
        assert!(rt; false);
        return;
    };
    let Ok(recording) = Recording::alone(rt.alloc(), &script) else {
        assert!(rt; false);
        return;
    };
    match (race_of_writes(rt.alloc(), &recording), VarId::new(1)) {
        (Some(race), Some(x)) => {
            assert!(rt; reaches(rt.alloc(), &script, &recording, &race, x));
        }
        _ => assert!(rt; false),
    }
}
