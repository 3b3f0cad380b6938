// The calls and the lines of events.
ghost use Rattle.std.specs.Prelude.{◌≡◌, ◌++◌, IfOk, OnOk, OnErr, codes, string_bytes};
ghost use Rattle.std.specs.Fmt.{decimal};
ghost use Rattle.std_text.specs.Writing.{word_of, operand_name, op_text, call_text, event_line, IsOperandNamed, IsCallNamed, IsNamed};

use sp_base::{OutOfMemory, ThreadId};
use std::alloc::Global;
use trace_laws::{Event, Names, Op};

/// The word of an operation: `r`, `w`, `acq`, `rel`, `fork` or `join`.
pub fn op_word(op: &Op) -> &'static str
    ensures { result.now ≡ word_of op.now }
{
    match op {
        Op::Read(_) => "r",
        Op::Write(_) => "w",
        Op::Acquire(_) => "acq",
        Op::Release(_) => "rel",
        Op::Fork(_) => "fork",
        Op::Join(_) => "join",
    }
}

// The name of what an operation is on.
fn operand<'a>(op: &Op, names: &'a Names) -> &'a [u8]
    requires { IsOperandNamed names.now op.now }
    ensures { result.now ≡ operand_name names.now op.now }
{
    match op {
        Op::Read(var) | Op::Write(var) => names.var_name(*var),
        Op::Acquire(lock) | Op::Release(lock) => names.lock_name(*lock),
        Op::Fork(thread) | Op::Join(thread) => names.thread_name(*thread),
    }
}

// The text of an operation.
fn op_of(alloc: Global, op: &Op, names: &Names) -> Result<Vec<u8>, OutOfMemory>
    requires { IsOperandNamed names.now op.now }
    ensures { IfOk result (λ text. text.items ≡ op_text names.now op.now) }
{
    let mut text = op_word(op).as_bytes().to_vec(alloc)?;
    text.extend_from_slice(b"(")?;
    text.extend_from_slice(operand(op, names))?;
    text.extend_from_slice(b")")?;
    Ok(text)
}

/// Appends an operation, as it stands in a call behind the thread and the bar, to a text. What it is on has a name here.
///
/// Fails where memory runs out. The text then stays as it was.
pub fn write_op(
    alloc: Global,
    op: &Op,
    names: &Names,
    text: &mut Vec<u8>,
) -> Result<(), OutOfMemory>
    requires { IsOperandNamed names.now op.now }
    ensures ok { OnOk result (text.new.items ≡ text.old.items ++ op_text names.now op.now) }
    ensures err { OnErr result (text.new.items ≡ text.old.items) }
{
    let added = op_of(alloc, op, names)?;
    text.extend_from_slice(&added)?;
    Ok(())
}

// The text of a thread's call.
fn call_of(alloc: Global, thread: ThreadId, op: &Op, names: &Names) -> Result<Vec<u8>, OutOfMemory>
    requires { IsCallNamed names.now thread op.now }
    ensures { IfOk result (λ call. call.items ≡ call_text names.now thread op.now) }
{
    let mut call = names.thread_name(thread).to_vec(alloc)?;
    call.extend_from_slice(b"|")?;
    write_op(alloc, op, names, &mut call)?;
    Ok(call)
}

/// Appends the call of an operation by a thread, without a location and a newline, to a text. All that the call names has
/// a name here.
///
/// Fails where memory runs out. The text then stays as it was.
pub fn write_call(
    alloc: Global,
    thread: ThreadId,
    op: &Op,
    names: &Names,
    text: &mut Vec<u8>,
) -> Result<(), OutOfMemory>
    requires { IsCallNamed names.now thread op.now }
    ensures ok { OnOk result (text.new.items ≡ text.old.items ++ call_text names.now thread op.now) }
    ensures err { OnErr result (text.new.items ≡ text.old.items) }
{
    let call = call_of(alloc, thread, op, names)?;
    text.extend_from_slice(&call)?;
    Ok(())
}

// What stands behind the call.
fn line_end(alloc: Global, location: u32) -> Result<String, OutOfMemory>
    ensures { IfOk result (λ text. string_bytes text ≡ codes "|" ++ decimal location ++ codes "\n") }
{
    match format!(in alloc; "|{location}\n") {
        Ok(text) => Ok(text),
        Err(_) => Err(OutOfMemory),
    }
}

// The line of an event.
fn line_of(alloc: Global, event: &Event, names: &Names) -> Result<Vec<u8>, OutOfMemory>
    requires { IsNamed names.now event.now }
    ensures { IfOk result (λ line. line.items ≡ event_line names.now event.now) }
{
    let end = line_end(alloc, event.loc)?;
    let mut line = Vec::new(alloc);
    write_call(alloc, event.thread, &event.op, names, &mut line)?;
    line.extend_from_slice(end.as_bytes())?;
    Ok(line)
}

/// Appends the line of an event, with its newline, to a text. All that the event names has a name here.
///
/// Fails where memory runs out. The text then stays as it was.
pub fn write_event(
    alloc: Global,
    event: &Event,
    names: &Names,
    text: &mut Vec<u8>,
) -> Result<(), OutOfMemory>
    requires { IsNamed names.now event.now }
    ensures ok { OnOk result (text.new.items ≡ text.old.items ++ event_line names.now event.now) }
    ensures err { OnErr result (text.new.items ≡ text.old.items) }
{
    let line = line_of(alloc, event, names)?;
    text.extend_from_slice(&line)?;
    Ok(())
}
