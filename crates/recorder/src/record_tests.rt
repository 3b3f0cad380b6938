//! Recordings of scripts, made again and again on threads.

ghost use Rattle.std.specs.Prelude.{◌<◌, length, IfSome};

use crate::record;
use script_machine::{Recording, Script, ThreadState};
use sp_base::{MAX_INPUT, OpenGate, ThreadId};
use std::alloc::{AllocError, Global};
use std::sync::Wait;
use std::test::Fail;
use std::thread::Threads;
use trace_laws::{Op, Trace};

// The thread of that number, where the recording's script has it.
fn thread_in(recording: &Recording, number: u16) -> Option<ThreadId>
    ensures { IfSome result (λ t. t < length recording.now.machine.script.bodies) }
{
    if number >= recording.machine().threads() {
        return None;
    }
    ThreadId::new(number)
}

// Whether the thread has ended.
fn has_ended(recording: &Recording, number: u16) -> bool {
    match thread_in(recording, number) {
        Some(thread) => recording.machine().state(thread) == ThreadState::Ended,
        None => false,
    }
}

// Whether the thread is running, and its next call is to acquire the lock.
fn waits_for(recording: &Recording, number: u16, lock: u32) -> bool {
    let Some(thread) = thread_in(recording, number) else {
        return false;
    };
    if recording.machine().state(thread) != ThreadState::Running {
        return false;
    }
    let Some(call) = recording.machine().next_op(thread) else {
        return false;
    };
    match &call {
        Op::Acquire(wanted) => wanted.value() == lock,
        _ => false,
    }
}

// Whether the event at the place is of the thread, from that line of the script.
fn is_from(recording: &Recording, place: u32, thread: u16, line: u32) -> bool {
    let trace = recording.trace();
    if place >= trace.len() {
        return false;
    }
    let event = trace.event(place);
    event.thread.value() == thread && event.loc == line
}

// Whether one thread has ended with the lock, and the other waits for it.
fn one_has_the_lock(recording: &Recording) -> bool {
    if recording.trace().len() != 1 {
        return false;
    }
    if has_ended(recording, 0) {
        waits_for(recording, 1, 0)
    } else {
        waits_for(recording, 0, 0) && has_ended(recording, 1)
    }
}

// Whether both threads have ended after all eight events, or each waits for the lock of the other after its first.
fn all_or_two(recording: &Recording) -> bool {
    match recording.trace().len() {
        8 => has_ended(recording, 0) && has_ended(recording, 1),
        2 => both_wait(recording) && first_of_each(recording),
        _ => false,
    }
}

fn both_wait(recording: &Recording) -> bool {
    waits_for(recording, 0, 1) && waits_for(recording, 1, 0)
}

fn first_of_each(recording: &Recording) -> bool {
    if is_from(recording, 0, 0, 2) {
        is_from(recording, 1, 1, 7)
    } else {
        is_from(recording, 0, 1, 7) && is_from(recording, 1, 0, 2)
    }
}

// Whether the events are of these threads, from these lines, in order.
fn are_from(recording: &Recording, rows: &[(u16, u32)]) -> bool {
    let events = recording.trace().len();
    if events as usize != rows.len() {
        return false;
    }
    for place in 0..events {
        let (thread, line) = rows[place as usize];
        if !is_from(recording, place, thread, line) {
            return false;
        }
    }
    true
}

// Whether the first thread joins the second at its end, after its lock.
fn is_joined_at_its_end(recording: &Recording) -> bool {
    let rows = [(0, 2), (0, 3), (0, 5), (0, 6), (1, 9), (1, 10), (0, 7)];
    are_from(recording, rows.as_slice())
}

// Whether the run of the script by the trace is complete, with eight times twenty times eight events.
fn is_run_whole(alloc: Global, script: &Script, trace: &Trace) -> bool {
    match Recording::of(alloc, script, trace) {
        Ok(run) => run.complete() && run.trace().len() == 1_280,
        Err(_) => false,
    }
}

// Whether the recording, and the run of the script by its trace, are complete, with all events of eight threads.
fn is_whole(alloc: Global, script: &Script, recording: &Recording) -> bool {
    recording.complete() && is_run_whole(alloc, script, recording.trace())
}

// What each recording of a script is to be.
#[derive(Clone, Copy)]
enum Wanted {
    OneHasTheLock,
    AllOrTwo,
    JoinedAtItsEnd,
    Whole,
}

// Whether the recording of the script is as it is wanted.
fn is_as_wanted(alloc: Global, script: &Script, recording: &Recording, wanted: Wanted) -> bool {
    match wanted {
        Wanted::OneHasTheLock => one_has_the_lock(recording),
        Wanted::AllOrTwo => all_or_two(recording),
        Wanted::JoinedAtItsEnd => is_joined_at_its_end(recording),
        Wanted::Whole => is_whole(alloc, script, recording),
    }
}

// Whether a recording is made of the script, and is as it is wanted.
fn is_recorded<R: Threads + Wait + Sync>(
    rt: &R,
    alloc: Global,
    script: &Script,
    wanted: Wanted,
) -> bool {
    match record(rt, alloc, script, &OpenGate) {
        Ok(recording) => is_as_wanted(alloc, script, &recording, wanted),
        Err(_) => false,
    }
}

// Whether so many recordings are made of the text, and each is as it is wanted.
fn are_recorded<R: Threads + Wait + Sync>(
    rt: &R,
    alloc: Global,
    text: &[u8],
    times: u32,
    wanted: Wanted,
) -> bool {
    if text.len() > MAX_INPUT as usize {
        return false;
    }
    let Ok(script) = Script::read(alloc, text) else {
        return false;
    };
    for _ in 0..times {
        if !is_recorded(rt, alloc, &script, wanted) {
            return false;
        }
    }
    true
}

#[test]
fn one_of_two_threads_gets_the_lock(rt: HostRuntime) {
    let text = b"thread T0\nlock A\nthread T1\nlock A\n".as_slice();
    assert!(rt; are_recorded(&rt, rt.alloc(), text, 100, Wanted::OneHasTheLock));
}

#[test]
fn crossed_locks_stop_both_threads_or_none(rt: HostRuntime) {
    let text =
        b"thread T0\nlock A\nlock B\nunlock B\nunlock A\nthread T1\nlock B\nlock A\nunlock A\nunlock B\n".as_slice();
    assert!(rt; are_recorded(&rt, rt.alloc(), text, 50, Wanted::AllOrTwo));
}

#[test]
fn a_forked_thread_is_joined_at_its_end(rt: HostRuntime) {
    let text =
        b"thread M\nwrite X 3\nread X\nadd 2\nwrite X\nfork K\njoin K\nthread K\nlock L\nunlock L\n".as_slice();
    assert!(rt; are_recorded(&rt, rt.alloc(), text, 20, Wanted::JoinedAtItsEnd));
}

// What each of eight threads does: with a lock, with a variable behind it, and with one that all of them write.
const WORK: &[u8] =
    b"\nrepeat 20\nlock A\nread X\nadd 1\nwrite X\nunlock A\nlock B\nread Y\nunlock B\nwrite Z\nend\n";

// A script of eight threads with the same work.
fn eight_threads(alloc: Global) -> Result<Vec<u8>, AllocError> {
    let mut text = Vec::new(alloc);
    for name in b"01234567" {
        text.extend_from_slice(b"thread T")?;
        text.push(*name)?;
        text.extend_from_slice(WORK)?;
    }
    Ok(text)
}

#[test]
fn eight_threads_make_a_whole_run(rt: HostRuntime) -> Result<(), Fail> {
    let text = eight_threads(rt.alloc())?;
    assert!(rt; are_recorded(&rt, rt.alloc(), text.as_slice(), 24, Wanted::Whole));
    Ok(())
}
