// The lines of a text that comes in pieces.
ghost use Rattle.std.specs.Prelude.{◌≡◌, ◌<◌, ◌≤◌, ◌+◌, ◌^◌, IfOk, [], ◌∷◌, length};
ghost use Rattle.std_text.specs.Framing.{content, read_line, after, closed, PiecesAreTheText};
ghost use Rattle.std_text.specs.Told.{Steps};
ghost use Rattle.std_text.specs.Writing.{AreNamed};

use crate::fault::{ReadFault, StdKind};
use crate::line::LineReader;
use sp_base::{MAX_INPUT, MAX_LINE, OutOfMemory};
use std::alloc::Global;
use std::marker::Model;
use trace_laws::{Names, Trace};

// A line without the carriage return at its end.
fn without_return(line: &[u8]) -> &[u8]
    ensures { result.now ≡ content line.now }
{
    match line.split_last() {
        Some((b'\r', front)) => front,
        _ => line,
    }
}

// Reads one more line.
#[tactic(auto, unfolding(crate::specs::Framing::read_line))]
fn take_line(lines: &mut LineReader, line: &[u8]) -> Result<(), ReadFault>
    requires number { lines.old.line + 1 < 2 ^ 32 }
    requires length { length line.now ≤ MAX_LINE }
    ensures read { Steps result lines.new.names lines.new (read_line lines.old line.now) }
    ensures line { lines.new.line ≤ lines.old.line + 1 }
{
    let content = without_return(line);
    if content.is_empty() {
        lines.skip();
        return Ok(());
    }
    lines.event(content)
}

/// A reading in the midst of a text: its whole lines, the front of the next one, and how many bytes there were.
#[derive(Drop)]
pub struct TextReader {
    lines: LineReader,
    rest: Vec<u8>,
    taken: u32,
}

impl Model for TextReader {
    ghost use Rattle.std.specs.Prelude.{◌<◌, ◌≤◌, ◌+◌, ◌^◌, length};
    ghost use Rattle.sp_base.specs.declared.limits.TheConstants.{MAX_INPUT, MAX_LINE};
    ghost use Rattle.std_text.specs.Framing.{Progress};

    ghost Value = { Progress };

    ghost view = { λ r. record { reading = r.lines; rest = r.rest.items; taken = r.taken } };

    ghost invariant = { λ r. (r.lines.line + length r.rest.items + MAX_INPUT < r.taken + 2 ^ 32) × (r.taken ≤ MAX_INPUT) × (length r.rest.items ≤ MAX_LINE) };
}

impl TextReader {
    ghost use Rattle.sp_base.specs.declared.limits.TheConstants.{MAX_INPUT};
    ghost use Rattle.std_text.specs.Framing.{start_with};

    /// Before the first byte, where these names have their numbers and the first line has this number.
    pub fn after(alloc: Global, names: Names, line: u32) -> Result<TextReader, OutOfMemory>
        requires { line + MAX_INPUT < 2 ^ 32 }
        ensures { IfOk result (λ r. r ≡ start_with names line) }
    {
        Ok(TextReader {
            lines: LineReader::after(alloc, names, line)?,
            rest: Vec::new(alloc),
            taken: 0,
        })
    }

    // Takes one more byte.
    fn byte(&mut self, byte: u8) -> Result<(), ReadFault>
        ensures { Steps result self.new.reading.names self.new (after self.old (byte ∷ [])) }
    {
        if self.taken == MAX_INPUT {
            return Err(self.lines.refusal(StdKind::InputTooLong));
        }
        self.taken += 1;
        if byte == b'\n' {
            take_line(&mut self.lines, &self.rest)?;
            self.rest.clear();
            return Ok(());
        }
        if self.rest.len() == MAX_LINE {
            return Err(self.lines.refusal(StdKind::LineTooLong));
        }
        let Ok(()) = self.rest.push(byte) else {
            return Err(ReadFault::OutOfMemory);
        };
        Ok(())
    }

    /// Takes more bytes.
    pub fn bytes(&mut self, piece: &[u8]) -> Result<(), ReadFault>
        ensures { Steps result self.new.reading.names self.new (after self.old piece.now) }
    {
        let _ = &self.taken;
        for byte in piece {
            self.byte(*byte)?;
        }
        Ok(())
    }

    /// Takes what is left as the last line, where there is anything left.
    pub fn last_line(&mut self) -> Result<(), ReadFault>
        ensures { Steps result self.new.reading.names self.new (closed self.old) }
    {
        if self.rest.is_empty() {
            return Ok(());
        }
        let answer = take_line(&mut self.lines, &self.rest);
        self.rest.clear();
        answer
    }

    /// The names so far.
    pub fn names(&self) -> &Names
        ensures { result.now ≡ self.now.reading.names }
    {
        self.lines.names()
    }

    /// The trace and the names of the whole lines.
    pub fn finish(self) -> (Trace, Names)
        ensures trace { result.0 ≡ record { events = self.reading.events; threads = length self.reading.names.threads } }
        ensures names { result.1 ≡ self.reading.names }
        ensures named { AreNamed result.1 result.0.events }
    {
        let TextReader { lines, .. } = self;
        lines.finish()
    }
}

/// A text that comes in two pieces is read as the whole.
pub fn pieces_are_the_text()
    ensures { PiecesAreTheText }
{}
