// The lines of threads of each kind.
ghost use Rattle.std.specs.Prelude.{◌<◌, ◌^◌, IfSome, IsTrue, length};
ghost use Rattle.script_machine.specs.Held.{meaning};
ghost use Rattle.script_machine.specs.Machine.{next_call};
ghost use Rattle.std_text.specs.Writing.{IsOperandNamed};
ghost use Rattle.report.specs.EndLines.{AreEndsNamed};

use crate::write_ends;
use script_machine::{Machine, Script};
use sp_base::{SureSink, ThreadId};
use std::alloc::Global;
use trace_laws::{Names, Op};

// Whether what the operation is on has a name.
fn is_operand_named(op: &Op, names: &Names) -> bool
    ensures { IsTrue result → IsOperandNamed names.now op.now }
{
    match op {
        Op::Read(var) | Op::Write(var) => var.value() < names.vars(),
        Op::Acquire(lock) | Op::Release(lock) => lock.value() < names.locks(),
        Op::Fork(thread) | Op::Join(thread) => thread.value() < names.threads(),
    }
}

// Whether what the next call of the thread is on has a name.
fn is_next_named(machine: &Machine<'_>, thread: ThreadId, names: &Names) -> bool
    requires { thread < length machine.now.script.bodies }
    ensures { IsTrue result → IfSome (next_call machine.now.script (meaning machine.now) thread) (IsOperandNamed names.now) }
{
    match machine.next_op(thread) {
        Some(op) => is_operand_named(&op, names),
        None => true,
    }
}

// Whether the threads, and what their next calls are on, have names.
fn are_ends_named(machine: &Machine<'_>, names: &Names) -> bool
    ensures { IsTrue result → AreEndsNamed names.now machine.now.script (meaning machine.now) }
{
    if names.threads() < machine.threads() {
        return false;
    }
    for number in 0..machine.threads() {
        let Some(thread) = ThreadId::new(number) else {
            return false;
        };
        if !is_next_named(machine, thread, names) {
            return false;
        }
    }
    true
}

// Lets the threads make a step each, one after the other.
fn step_all(machine: &mut Machine<'_>, steps: &[u16]) -> Option<()> {
    for number in steps {
        let thread = ThreadId::new(*number)?;
        if thread.value() >= machine.threads() {
            return None;
        }
        machine.step(thread)?;
    }
    Some(())
}

// The lines of the threads of a machine.
fn ends_of(alloc: Global, machine: &Machine<'_>, names: &Names) -> Option<SureSink> {
    if !are_ends_named(machine, names) {
        return None;
    }
    let mut sink = SureSink::new(alloc);
    write_ends(alloc, &mut sink, machine, names).ok()?;
    Some(sink)
}

// The lines of the threads of a script after they made the steps.
fn ends_after(alloc: Global, script: &Script, steps: &[u16]) -> Option<SureSink> {
    let mut machine = Machine::new(alloc, script).ok()?;
    step_all(&mut machine, steps)?;
    ends_of(alloc, &machine, script.names())
}

// Whether these are the lines after the threads made the steps.
fn ends_with(alloc: Global, text: &[u8], steps: &[u16], lines: &[u8]) -> bool
    requires { length text.now < 2 ^ 32 }
{
    let Ok(script) = Script::read(alloc, text) else {
        return false;
    };
    match ends_after(alloc, &script, steps) {
        Some(ends) => ends.text() == lines,
        None => false,
    }
}

#[test]
fn each_thread_has_a_line(rt: HostRuntime) {
    let script =
        b"thread T0\nlock A\nlock B\nthread T1\nlock B\nlock A\nthread T2\nwrite X 1\nthread T3\nlock A\nfork T4\nthread T4\nread X\n".as_slice();
    let lines =
        b"blocked T0 at acq(B)\nblocked T1 at acq(A)\nend T2\nblocked T3 at acq(A)\nwaiting T4\n".as_slice();
    assert!(rt; ends_with(rt.alloc(), script, &[0, 1, 2], lines));
}

#[test]
fn no_thread_has_no_line(rt: HostRuntime) {
    assert!(rt; ends_with(rt.alloc(), b"# none\n", &[], b""));
}
