//! The lines of the threads of a script after a recording.

ghost use Rattle.std.specs.Prelude.{◌≡◌, ◌<◌, ◌++◌, IfOk, IfSome, OnOk, codes, length};
ghost use Rattle.sp_base.specs.Causes.{HasWriteCause};
ghost use Rattle.sp_base.specs.Moves.{Gained, IsWritten};
ghost use Rattle.script_machine.specs.Held.{meaning};
ghost use Rattle.script_machine.specs.Machine.{IsRunning, next_call};
ghost use Rattle.std_text.specs.Writing.{IsOperandNamed, name_at};
ghost use Rattle.report.specs.EndLines.{AreEndsNamed, end_line, ends_text, standing_line};

use script_machine::{Machine, ThreadState};
use sp_base::{OutOfMemory, Sink, ThreadId, WriteFault, write_all};
use std::alloc::Global;
use std_text::write_op;
use trace_laws::Names;

// Appends the line of a thread that has only its name behind a word.
fn add_named(
    word: &[u8],
    thread: ThreadId,
    names: &Names,
    text: &mut Vec<u8>,
) -> Result<(), OutOfMemory>
    requires { thread < length names.now.threads }
    ensures { OnOk result (text.new.items ≡ text.old.items ++ (word.now ++ name_at names.now.threads thread ++ codes "\n")) }
{
    text.extend_from_slice(word)?;
    text.extend_from_slice(names.thread_name(thread))?;
    text.extend_from_slice(b"\n")?;
    Ok(())
}

// Appends the line of a thread that is running.
#[tactic(auto, using(crate::proofs::MoreEnds::line_before_call))]
fn add_running(
    alloc: Global,
    machine: &Machine<'_>,
    thread: ThreadId,
    names: &Names,
    text: &mut Vec<u8>,
) -> Result<(), OutOfMemory>
    requires within { thread < length machine.now.script.bodies }
    requires running { IsRunning machine.now.script (meaning machine.now) thread }
    requires named { thread < length names.now.threads }
    requires operand { IfSome (next_call machine.now.script (meaning machine.now) thread) (IsOperandNamed names.now) }
    ensures { OnOk result (text.new.items ≡ text.old.items ++ standing_line names.now thread ((meaning machine.now).thread thread).left) }
{
    let Some(op) = machine.next_op(thread) else {
        unreachable!()
    };
    text.extend_from_slice(b"blocked ")?;
    text.extend_from_slice(names.thread_name(thread))?;
    text.extend_from_slice(b" at ")?;
    write_op(alloc, &op, names, text)?;
    text.extend_from_slice(b"\n")?;
    Ok(())
}

// Appends the line of a thread.
fn add_line(
    alloc: Global,
    machine: &Machine<'_>,
    thread: ThreadId,
    names: &Names,
    text: &mut Vec<u8>,
) -> Result<(), OutOfMemory>
    requires within { thread < length machine.now.script.bodies }
    requires named { thread < length names.now.threads }
    requires operand { IfSome (next_call machine.now.script (meaning machine.now) thread) (IsOperandNamed names.now) }
    ensures { OnOk result (text.new.items ≡ text.old.items ++ end_line names.now machine.now.script (meaning machine.now) thread) }
{
    match machine.state(thread) {
        ThreadState::Waiting => add_named(b"waiting ", thread, names, text),
        ThreadState::Ended => add_named(b"end ", thread, names, text),
        ThreadState::Running => add_running(alloc, machine, thread, names, text),
    }
}

// The lines of all threads.
#[tactic(auto, using(crate::proofs::MoreEnds::ends_more), unfolding(crate::specs::EndLines::ends_text))]
fn lines_of_ends(
    alloc: Global,
    machine: &Machine<'_>,
    names: &Names,
) -> Result<Vec<u8>, OutOfMemory>
    requires { AreEndsNamed names.now machine.now.script (meaning machine.now) }
    ensures { IfOk result (λ text. text.items ≡ ends_text names.now machine.now.script (meaning machine.now)) }
{
    let mut text = Vec::new(alloc);
    for number in 0..machine.threads() {
        let Some(thread) = ThreadId::new(number) else {
            unreachable!()
        };
        add_line(alloc, machine, thread, names, &mut text)?;
    }
    Ok(text)
}

/// Writes one line for each thread of the machine's script, in the order of their numbers: that it has ended, the call
/// that it is blocked at, or that it waits for its fork. Each thread of the script has a name here, and so has what the
/// next call of each is on.
///
/// The whole text is gathered first. After a fault a front of it was written, and nothing where memory ran out before the
/// first write. `Failed` comes only where the sink's count of faults rose.
pub fn write_ends<K: Sink>(
    alloc: Global,
    sink: &mut K,
    machine: &Machine<'_>,
    names: &Names,
) -> Result<(), WriteFault>
    requires { AreEndsNamed names.now machine.now.script (meaning machine.now) }
    ensures text { Gained (K.text sink.old) (K.text sink.new) (IsWritten result (ends_text names.now machine.now.script (meaning machine.now))) }
    ensures cause { HasWriteCause (K.faults sink.old) (K.faults sink.new) result }
{
    let Ok(text) = lines_of_ends(alloc, machine, names) else {
        return Err(WriteFault::OutOfMemory);
    };
    write_all(sink, &text)
}
