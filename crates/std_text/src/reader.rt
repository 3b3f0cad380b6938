// The reader of a trace text.
ghost use Rattle.std.specs.Prelude.{◌≡◌, true, false, Ok, IsOk, IfOk, IfErr, length};
ghost use Rattle.std_text.specs.Framing.{after, closed};
ghost use Rattle.std_text.specs.Told.{ReadsOn, answer_of, IsHolderKnown};
ghost use Rattle.std_text.specs.Writing.{AreNamed};

use crate::fault::ReadFault;
use crate::framing::TextReader;
use sp_base::OutOfMemory;
use std::alloc::Global;
use std::marker::Model;
use trace_laws::{Names, Trace};

/// Reads a trace text that comes in pieces. The bytes so far alone decide its answers, however they were cut. After a
/// fault, want of memory included, it answers the same fault to each later call of `feed` and `close`.
#[derive(Drop)]
pub struct Reader {
    text: TextReader,
    failed: Option<ReadFault>,
    closed: bool,
}

impl Model for Reader {
    ghost use Rattle.std_text.specs.Told.{Told, read_of, KnowsHolder};

    ghost Value = { Told };

    ghost view = { λ r. record { read = read_of r.failed r.text; names = r.text.reading.names; closed = r.closed } };

    ghost invariant = { λ r. KnowsHolder r.failed r.text.reading.names };
}

// A copy, since a fault that is used twice has to be copied through a reference.
fn same_fault(fault: &ReadFault) -> ReadFault
    ensures { result ≡ fault.now }
{
    *fault
}

impl Reader {
    ghost use Rattle.std.specs.Prelude.{◌<◌, ◌+◌, ◌^◌};
    ghost use Rattle.sp_base.specs.declared.limits.TheConstants.{MAX_INPUT};
    ghost use Rattle.std_text.specs.Framing.{start, start_with};

    /// A reader of the empty text. It takes the room of all events.
    ///
    /// Fails where memory runs out.
    pub fn new(alloc: Global) -> Result<Reader, OutOfMemory>
        ensures { IfOk result (λ r. r ≡ record { read = Ok start; names = start.reading.names; closed = false }) }
    {
        Reader::after(alloc, Names::new(alloc)?, 1)
    }

    /// A reader of the empty text that stands behind other lines: these names have their numbers, and the first line has
    /// this number. It takes the room of all events.
    ///
    /// Fails where memory runs out.
    pub fn after(alloc: Global, names: Names, line: u32) -> Result<Reader, OutOfMemory>
        requires { line + MAX_INPUT < 2 ^ 32 }
        ensures { IfOk result (λ r. r ≡ record { read = Ok (start_with names line); names = names; closed = false }) }
    {
        Ok(Reader {
            text: TextReader::after(alloc, names, line)?,
            failed: None,
            closed: false,
        })
    }

    // The fault that was answered, which is answered again.
    fn standing(&self) -> Result<(), ReadFault>
        ensures answer { result ≡ answer_of self.now.read }
        ensures holder { IfErr result (IsHolderKnown self.now.names) }
    {
        match &self.failed {
            Some(fault) => Err(same_fault(fault)),
            None => Ok(()),
        }
    }

    /// Takes the next bytes. It answers `Text` exactly where the text so far is refused, whose fault is known with them.
    pub fn feed(&mut self, piece: &[u8]) -> Result<(), ReadFault>
        requires { self.old.closed ≡ false }
        ensures read { ReadsOn self.old (λ p. after p piece.now) self.new }
        ensures answer { result ≡ answer_of self.new.read }
        ensures holder { IfErr result (IsHolderKnown self.new.names) }
        ensures closed { self.new.closed ≡ false }
    {
        self.standing()?;
        if let Err(fault) = self.text.bytes(piece) {
            self.failed = Some(same_fault(&fault));
            return Err(fault);
        }
        Ok(())
    }

    /// Takes what is left as the last line. It answers `Text` exactly where the whole text is refused.
    pub fn close(&mut self) -> Result<(), ReadFault>
        ensures read { ReadsOn self.old closed self.new }
        ensures answer { result ≡ answer_of self.new.read }
        ensures holder { IfErr result (IsHolderKnown self.new.names) }
        ensures closed { self.new.closed ≡ true }
    {
        self.closed = true;
        self.standing()?;
        if let Err(fault) = self.text.last_line() {
            self.failed = Some(same_fault(&fault));
            return Err(fault);
        }
        Ok(())
    }

    /// The names so far, where after a fault those of the refused line may stand too.
    pub fn names(&self) -> &Names
        ensures names { result.now ≡ self.now.names }
        ensures read { IfOk self.now.read (λ p. p.reading.names ≡ self.now.names) }
    {
        self.text.names()
    }

    /// The trace of the whole text, whose number of threads is that of the names, and the names, which all that its events
    /// name has.
    pub fn finish(self) -> (Trace, Names)
        requires closed { self.closed ≡ true }
        requires read { IsOk self.read }
        ensures trace { IfOk self.read (λ p. result.0 ≡ record { events = p.reading.events; threads = length p.reading.names.threads }) }
        ensures names { IfOk self.read (λ p. result.1 ≡ p.reading.names) }
        ensures named { AreNamed result.1 result.0.events }
    {
        let Reader { text, .. } = self;
        text.finish()
    }
}
