//! Threads and machines stepped by hand.

ghost use Rattle.std.specs.Prelude.{◌<◌, length, IfSome};

use crate::{Machine, Recording, Run, Script, ThreadRun, ThreadState, laws};
use sp_base::ThreadId;
use std::alloc::Global;
use std::test::Fail;
use trace_laws::Op;

// A thread that forks a second one and joins it, and what that does.
const TEXT: &[u8] = b"thread a\nwrite x 5\nfork b\njoin b\nthread b\nread x\nif 5\nlock l\nend\n";

// The script of that text.
fn read(alloc: Global) -> Option<Script> {
    match Script::read(alloc, TEXT) {
        Ok(script) => Some(script),
        Err(_) => None,
    }
}

// The thread of that number, where the script has it.
fn thread_in(script: &Script, number: u16) -> Option<ThreadId>
    ensures { IfSome result (λ t. t < length script.now.bodies) }
{
    if number >= script.threads() {
        return None;
    }
    ThreadId::new(number)
}

// The thread of that number, where the machine's script has it.
fn thread_of(machine: &Machine<'_>, number: u16) -> Option<ThreadId>
    ensures { IfSome result (λ t. t < length machine.now.script.bodies) }
{
    if number >= machine.threads() {
        return None;
    }
    ThreadId::new(number)
}

// Whether the thread of the machine steps, with an event of the line.
fn steps(machine: &mut Machine<'_>, number: u16, line: u32) -> bool {
    let Some(thread) = thread_of(machine, number) else {
        return false;
    };
    match machine.step(thread) {
        Some(event) => event.loc == line,
        None => false,
    }
}

// Whether the thread of the machine stands so.
fn stands(machine: &Machine<'_>, number: u16, state: ThreadState) -> bool {
    let Some(thread) = thread_of(machine, number) else {
        return false;
    };
    machine.state(thread) == state
}

// Whether the thread of the machine has no call, and cannot step.
fn has_no_call(machine: &Machine<'_>, number: u16) -> bool {
    let Some(thread) = thread_of(machine, number) else {
        return false;
    };
    machine.next_op(thread).is_none() && !machine.can_step(thread)
}

// Whether nothing moves the thread of the machine.
fn stays(machine: &mut Machine<'_>, number: u16) -> bool {
    let Some(thread) = thread_of(machine, number) else {
        return false;
    };
    machine.step(thread).is_none()
}

// Whether the thread of the machine would join the other, and cannot yet.
fn would_join(machine: &Machine<'_>, number: u16, other: ThreadId) -> bool {
    let Some(thread) = thread_of(machine, number) else {
        return false;
    };
    machine.next_op(thread) == Some(Op::Join(other)) && !machine.can_step(thread)
}

// Whether the second thread waits for its fork, and nothing moves it.
fn waits(machine: &mut Machine<'_>) -> bool {
    stands(machine, 1, ThreadState::Waiting) && has_no_call(machine, 1) && stays(machine, 1)
}

// Whether the first thread forks the second, and then would join it.
fn forks(machine: &mut Machine<'_>) -> bool {
    let Some(second) = ThreadId::new(1) else {
        return false;
    };
    steps(machine, 0, 2) && steps(machine, 0, 3) && would_join(machine, 0, second)
}

// Whether the second thread reads what the first wrote and locks, and ends.
fn runs_to_its_end(machine: &mut Machine<'_>) -> bool {
    steps(machine, 1, 6) && steps(machine, 1, 8) && stands(machine, 1, ThreadState::Ended)
}

// Whether the first thread joins the second, and ends.
fn joins(machine: &mut Machine<'_>) -> bool {
    steps(machine, 0, 4) && stands(machine, 0, ThreadState::Ended)
}

// Whether the first thread forks the second, which reads what the first wrote and locks, and is joined.
fn runs_to_the_join(alloc: Global, script: &Script) -> bool {
    let Ok(mut machine) = Machine::new(alloc, script) else {
        return false;
    };
    waits(&mut machine)
        && forks(&mut machine)
        && runs_to_its_end(&mut machine)
        && joins(&mut machine)
}

// Whether the next call of the thread stands at that line. It then goes on behind it, with what a read would read.
fn passes(run: &mut ThreadRun<'_>, line: u32, read: u64) -> bool {
    if run.next_op().is_none() || run.location() != line {
        return false;
    }
    run.advance(read);
    true
}

// Whether the second thread alone reads 5, takes the branch and locks.
fn takes_the_branch(script: &Script) -> bool {
    let Some(second) = thread_in(script, 1) else {
        return false;
    };
    let mut run = ThreadRun::new(script, second);
    passes(&mut run, 6, 5) && passes(&mut run, 8, 0) && run.next_op().is_none()
}

// Whether the next call of the thread writes that value.
fn writes(run: &ThreadRun<'_>, value: u64) -> bool {
    let Some(op) = run.next_op() else {
        return false;
    };
    match &op {
        Op::Write(_) => run.value() == value,
        _ => false,
    }
}

// Whether the first thread writes 5.
fn writes_five(script: &Script) -> bool {
    let Some(first) = thread_in(script, 0) else {
        return false;
    };
    writes(&ThreadRun::new(script, first), 5)
}

// Whether the first thread of the run steps.
fn steps_in(run: &mut Run<'_>) -> bool {
    let Some(first) = thread_of(run.machine(), 0) else {
        return false;
    };
    run.step(first).is_some()
}

// Whether the recording is of one event, after which more can come.
fn is_of_one(recording: &Recording) -> bool {
    recording.trace().len() == 1 && !recording.complete()
}

// Whether a run of one event is a recording of one event, after which more can come.
fn records_one(alloc: Global, script: &Script) -> bool {
    let Ok(mut run) = Run::new(alloc, script) else {
        return false;
    };
    if !steps_in(&mut run) || !stands(run.machine(), 0, ThreadState::Running) {
        return false;
    }
    is_of_one(&run.finish())
}

// How many events the lone run of the script has.
fn events_alone(alloc: Global, script: &Script) -> Option<u32> {
    match Recording::alone(alloc, script) {
        Ok(recording) => Some(recording.trace().len()),
        Err(_) => None,
    }
}

#[test]
fn a_script_has_its_counts(rt: HostRuntime) -> Result<(), Fail> {
    let script = read(rt.alloc()).ok_or("a script")?;
    assert!(rt; script.threads() == 2 && script.locks() == 1 && script.variables() == 1);
    Ok(())
}

#[test]
fn a_machine_runs_to_the_join(rt: HostRuntime) -> Result<(), Fail> {
    let script = read(rt.alloc()).ok_or("a script")?;
    assert!(rt; runs_to_the_join(rt.alloc(), &script));
    Ok(())
}

#[test]
fn threads_go_on_alone(rt: HostRuntime) -> Result<(), Fail> {
    let script = read(rt.alloc()).ok_or("a script")?;
    assert!(rt; writes_five(&script) && takes_the_branch(&script));
    Ok(())
}

#[test]
fn runs_are_recorded(rt: HostRuntime) -> Result<(), Fail> {
    let script = read(rt.alloc()).ok_or("a script")?;
    assert!(rt; records_one(rt.alloc(), &script));
    assert!(rt; events_alone(rt.alloc(), &script) == Some(5));
    Ok(())
}

#[test]
fn laws_of_the_machine(_rt: HostRuntime) {
    laws::size_law();
    laws::lawful_law();
    laws::determined_law();
    laws::exclusive_law();
    laws::of_law();
}
