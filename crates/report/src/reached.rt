//! The lines of replays.

ghost use Rattle.std.specs.Prelude.{◌≡◌, ◌<◌, ◌++◌, IfOk, OnOk, codes, length, string_bytes};
ghost use Rattle.std.specs.Fmt.{decimal};
ghost use Rattle.sp_base.specs.Causes.{HasWriteCause};
ghost use Rattle.sp_base.specs.Moves.{Gained, IsWritten};
ghost use Rattle.script_machine.specs.Held.{meaning};
ghost use Rattle.script_machine.specs.Machine.{IsRunning};
ghost use Rattle.report.specs.ReachedLines.{AreNextNamed, IsNextNamed, call_after_space, closing_reached, reached_line};

use replayer::Reached;
use script_machine::Machine;
use sp_base::{OutOfMemory, Sink, ThreadId, WriteFault, write_all};
use std::alloc::Global;
use std_text::write_call;
use trace_laws::Names;

// The front of the line of a finding that was reached.
fn line_front(alloc: Global, number: u32) -> Result<String, OutOfMemory>
    ensures { IfOk result (λ text. string_bytes text ≡ codes "replay " ++ decimal number) }
{
    match format!(in alloc; "replay {number}") {
        Ok(text) => Ok(text),
        Err(_) => Err(OutOfMemory),
    }
}

// Appends the next call of a thread, which is running, after a space.
fn add_next_call(
    alloc: Global,
    machine: &Machine<'_>,
    thread: ThreadId,
    names: &Names,
    text: &mut Vec<u8>,
) -> Result<(), OutOfMemory>
    requires within { thread < length machine.now.script.bodies }
    requires running { IsRunning machine.now.script (meaning machine.now) thread }
    requires named { IsNextNamed names.now machine.now thread }
    ensures { OnOk result (text.new.items ≡ text.old.items ++ call_after_space names.now machine.now thread) }
{
    let Some(op) = machine.next_op(thread) else {
        unreachable!()
    };
    text.extend_from_slice(b" ")?;
    write_call(alloc, thread, &op, names, text)
}

// The line of a finding that was reached.
#[tactic(auto, unfolding(crate::specs::ReachedLines::reached_line))]
fn line_of_reached(
    alloc: Global,
    number: u32,
    reached: &Reached<'_>,
    names: &Names,
) -> Result<Vec<u8>, OutOfMemory>
    requires { AreNextNamed names.now reached.now }
    ensures { IfOk result (λ line. line.items ≡ reached_line names.now number reached.now) }
{
    let front = line_front(alloc, number)?;
    let mut line = front.as_bytes().to_vec(alloc)?;
    for thread in reached.threads() {
        add_next_call(alloc, reached.machine(), *thread, names, &mut line)?;
    }
    line.extend_from_slice(b"\n")?;
    Ok(line)
}

// The line of a count.
fn line_of_count(alloc: Global, count: u32) -> Result<String, OutOfMemory>
    ensures { IfOk result (λ line. string_bytes line ≡ closing_reached count) }
{
    match format!(in alloc; "reached {count}\n") {
        Ok(line) => Ok(line),
        Err(_) => Err(OutOfMemory),
    }
}

/// Writes the line of a finding that was reached: its number, which counts from 1, and the next call of each of its
/// threads. Each of these threads has a name here, and so has what its next call is on.
///
/// The whole line is gathered first. After a fault a front of it was written, and nothing where memory ran out before
/// the first write. `Failed` comes only where the sink's count of faults rose.
pub fn write_reached<K: Sink>(
    alloc: Global,
    sink: &mut K,
    number: u32,
    reached: &Reached<'_>,
    names: &Names,
) -> Result<(), WriteFault>
    requires { AreNextNamed names.now reached.now }
    ensures text { Gained (K.text sink.old) (K.text sink.new) (IsWritten result (reached_line names.now number reached.now)) }
    ensures cause { HasWriteCause (K.faults sink.old) (K.faults sink.new) result }
{
    let Ok(line) = line_of_reached(alloc, number, reached, names) else {
        return Err(WriteFault::OutOfMemory);
    };
    write_all(sink, &line)
}

/// Writes the line that comes after the lines of all findings: how many were reached.
///
/// The whole line is gathered first. After a fault a front of it was written, and nothing where memory ran out before
/// the first write. `Failed` comes only where the sink's count of faults rose.
pub fn write_reached_count<K: Sink>(
    alloc: Global,
    sink: &mut K,
    count: u32,
) -> Result<(), WriteFault>
    ensures text { Gained (K.text sink.old) (K.text sink.new) (IsWritten result (closing_reached count)) }
    ensures cause { HasWriteCause (K.faults sink.old) (K.faults sink.new) result }
{
    let Ok(line) = line_of_count(alloc, count) else {
        return Err(WriteFault::OutOfMemory);
    };
    write_all(sink, line.as_bytes())
}
