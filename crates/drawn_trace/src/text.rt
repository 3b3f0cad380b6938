//! The text of a drawn trace.

ghost use Rattle.std.specs.Prelude.{◌≡◌, ◌≤◌, ◌++◌, IfOk, codes, length, string_bytes};
ghost use Rattle.std.specs.Fmt.{decimal};
ghost use Rattle.trace_laws.specs.Trace.{Lawful};
ghost use Rattle.std_text.specs.Writing.{IsNamed, event_line};
ghost use Rattle.drawn_trace.specs.Drawn.{IsReadable, drawn_events, drawn_names, drawn_text, operand_letter, operand_number};

use crate::drawing::Drawing;
use sp_base::{MAX_EVENTS, MAX_INPUT, OutOfMemory};
use std::alloc::Global;
use std_text::op_word;
use trace_laws::{Event, Op};

// The letter in the name of what an operation is on.
fn letter(op: &Op) -> &'static str
    ensures { result.now ≡ operand_letter op.now }
{
    match op {
        Op::Read(_) | Op::Write(_) => "X",
        Op::Acquire(_) | Op::Release(_) => "L",
        Op::Fork(_) | Op::Join(_) => "T",
    }
}

// The number of what an operation is on.
fn number(op: &Op) -> u32
    ensures { result ≡ operand_number op.now }
{
    match op {
        Op::Read(var) | Op::Write(var) => var.value(),
        Op::Acquire(lock) | Op::Release(lock) => lock.value(),
        Op::Fork(thread) | Op::Join(thread) => u32::from(thread.value()),
    }
}

// An operation on what has this letter and number: word(operand).
fn operation_text(
    alloc: Global,
    word: &str,
    letter: &str,
    number: u32,
) -> Result<String, OutOfMemory>
    ensures { IfOk result (λ text. string_bytes text ≡ word.now ++ codes "(" ++ letter.now ++ decimal number ++ codes ")") }
{
    match format!(in alloc; "{word}({letter}{number})") {
        Ok(text) => Ok(text),
        Err(_) => Err(OutOfMemory),
    }
}

// The line of a thread's operation at a location, with its newline.
fn line_text(alloc: Global, thread: u16, operation: &str, loc: u32) -> Result<String, OutOfMemory>
    ensures { IfOk result (λ text. string_bytes text ≡ codes "T" ++ decimal thread ++ codes "|" ++ operation.now ++ codes "|" ++ decimal loc ++ codes "\n") }
{
    match format!(in alloc; "T{thread}|{operation}|{loc}\n") {
        Ok(text) => Ok(text),
        Err(_) => Err(OutOfMemory),
    }
}

// The line of an event.
fn line_of(alloc: Global, event: &Event) -> Result<String, OutOfMemory>
    requires { IsNamed drawn_names event.now }
    ensures { IfOk result (λ text. string_bytes text ≡ event_line drawn_names event.now) }
{
    let op = &event.op;
    let operation = operation_text(alloc, op_word(op), letter(op), number(op))?;
    let line = line_text(alloc, event.thread.value(), operation.as_str(), event.loc)?;
    Ok(line)
}

/// The text of the trace that a seed draws, with so many events: a line for each, `thread|operation(operand)|location` and
/// a newline.
///
/// The trace is lawful, and its text is within the limit of an input and is read to its end. Fails where memory runs out.
pub fn draw(alloc: Global, seed: u64, events: u32) -> Result<Vec<u8>, OutOfMemory>
    requires { events ≤ MAX_EVENTS }
    ensures text { IfOk result (λ text. text.items ≡ drawn_text seed events) }
    ensures lawful { Lawful (drawn_events seed events) }
    ensures readable { IsReadable (drawn_text seed events) }
    ensures short { length (drawn_text seed events) ≤ MAX_INPUT }
{
    let mut drawing = Drawing::new(seed);
    let mut text = Vec::new(alloc);
    for _ in 0..events {
        let event = drawing.turn();
        let line = line_of(alloc, &event)?;
        text.extend_from_slice(line.as_bytes())?;
    }
    Ok(text)
}
