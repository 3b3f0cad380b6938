//! Calls of one thread, one after the other.

ghost use Rattle.std.specs.Prelude.{◌≡◌, length};
ghost use Rattle.recorder.specs.Passes.{manager_script, IsPassOf};

use crate::gate_tests::whole;
use crate::{Call, Manager, Pass};
use script_machine::Script;
use sp_base::{MAX_INPUT, OpenGate};
use std::alloc::Global;
use std::sync::Wait;
use std::thread::Threads;

// Whether a call was parked at that number; where there is none, whether its thread has ended.
fn is_stopped(call: &Call, parked: Option<u32>) -> bool {
    match call {
        Call::Parked(standstill) => parked == Some(standstill.number()),
        Call::Ended => parked.is_none(),
        Call::Done(_) => false,
    }
}

// Whether the first of two calls is done, and the second is stopped so.
fn are_told(first: &Call, second: &Call, parked: Option<u32>) -> bool {
    match first {
        Call::Done(_) => is_stopped(second, parked),
        Call::Ended | Call::Parked(_) => false,
    }
}

// Whether the first of two calls of the pass is done and alone is granted, and the second is stopped so. And the pass after
// them.
fn two_calls<'a, R: Threads + Wait + Sync>(
    rt: &R,
    manager: &Manager<'a>,
    mut pass: Pass<'a>,
    parked: Option<u32>,
) -> (bool, Pass<'a>)
    requires { IsPassOf manager.now pass }
    ensures { IsPassOf manager.now result.1 }
{
    let first = manager.call(rt, &mut pass, &OpenGate);
    let second = manager.call(rt, &mut pass, &OpenGate);
    let is_one = pass.granted() == 1;
    (is_one && are_told(&first, &second, parked), pass)
}

// How many events the recording after the only pass has, and then no thread can step.
fn after_one<'a>(alloc: Global, manager: Manager<'a>, pass: Pass<'a>) -> Option<u32>
    requires one { length (manager_script manager).bodies ≡ 1 }
    requires pass { IsPassOf manager pass }
{
    let Ok(mut all) = Vec::with_capacity(alloc, 1) else {
        return None;
    };
    all.push_reserved(pass);
    let Ok(recording) = manager.finish(alloc, all) else {
        return None;
    };
    whole(&recording)
}

// How many events are recorded after the two calls of the only thread of the script.
fn after_two_calls<'a, R: Threads + Wait + Sync>(
    rt: &R,
    alloc: Global,
    script: &'a Script,
    parked: Option<u32>,
) -> Option<u32>
    requires { length script.now.bodies ≡ 1 }
{
    let Ok((manager, mut passes)) = Manager::new(alloc, script) else {
        return None;
    };
    let Some(pass) = passes.pop() else {
        return None;
    };
    let (is_told, pass) = two_calls(rt, &manager, pass, parked);
    if !is_told {
        return None;
    }
    after_one(alloc, manager, pass)
}

// How many events are recorded of the text, of one thread, where its first call is done and its second is stopped so.
fn recorded_by_two<R: Threads + Wait + Sync>(
    rt: &R,
    alloc: Global,
    text: &[u8],
    parked: Option<u32>,
) -> Option<u32> {
    if text.len() > MAX_INPUT as usize {
        return None;
    }
    let Ok(script) = Script::read(alloc, text) else {
        return None;
    };
    if script.threads() != 1 {
        return None;
    }
    after_two_calls(rt, alloc, &script, parked)
}

#[test]
fn a_call_after_the_last_step_tells_the_end(rt: HostRuntime) {
    let text = b"thread T0\nwrite X 1\n".as_slice();
    assert_eq!(rt; recorded_by_two(&rt, rt.alloc(), text, None), Some(1));
}

#[test]
fn a_call_without_a_step_is_parked(rt: HostRuntime) {
    let text = b"thread T0\nlock A\nlock A\n".as_slice();
    assert_eq!(rt; recorded_by_two(&rt, rt.alloc(), text, Some(1)), Some(1));
}
