// What one line means after the lines before it.
ghost use Rattle.std.specs.Prelude.{◌≡◌, ◌<◌, ◌+◌, ◌^◌, ◌≤◌, IfOk, OnOk, OnErr, IsErrOf, true, false, Ok, Some, length};
ghost use Rattle.std_text.specs.Law.{kind_of};
ghost use Rattle.std_text.specs.Meaning.{with_operand, fits, too_many, op_on, skipped, read_event, read_parts};
ghost use Rattle.std_text.specs.Refusal.{NamesNoHolder};
ghost use Rattle.std_text.specs.Told.{Steps};
ghost use Rattle.std_text.specs.Writing.{AreNamed, IsOperandNamed};

use crate::fault::{ReadFault, StdFault, StdKind};
use crate::fields::{Action, Fields, split_line};
use sp_base::{MAX_EVENTS, OutOfMemory};
use std::alloc::Global;
use std::marker::Model;
use trace_laws::{Builder, Event, LawFault, NameFault, Names, Op, Trace};

/// The events and names of the lines so far, and the number of the next line.
#[derive(Drop)]
pub struct LineReader {
    builder: Builder,
    names: Names,
    line: u32,
}

impl Model for LineReader {
    ghost use Rattle.std_text.specs.Meaning.{Reading, IsKeptReading};

    ghost Value = { Reading };

    ghost view = { λ r. record { events = r.builder.events; names = r.names; line = r.line } };

    ghost invariant = { λ r. IsKeptReading r.builder.capacity r.builder.events r.names };
}

// The operation on an operand, whose name gets a number.
fn operation_on(names: &mut Names, action: Action, operand: &[u8]) -> Result<Op, NameFault>
    ensures ok { OnOk result (names.new ≡ with_operand names.old action operand.now) }
    ensures operation { IfOk result (λ op. op ≡ op_on names.old action operand.now) }
    ensures named { IfOk result (λ op. IsOperandNamed names.new op) }
    ensures within { OnOk result (fits names.new action ≡ true) }
    ensures err { OnErr result (names.new ≡ names.old) }
    ensures full { IsErrOf result NameFault.Full → fits (with_operand names.old action operand.now) action ≡ false }
{
    match action {
        Action::Read => Ok(Op::Read(names.var(operand)?)),
        Action::Write => Ok(Op::Write(names.var(operand)?)),
        Action::Acquire => Ok(Op::Acquire(names.lock(operand)?)),
        Action::Release => Ok(Op::Release(names.lock(operand)?)),
        Action::Fork => Ok(Op::Fork(names.thread(operand)?)),
        Action::Join => Ok(Op::Join(names.thread(operand)?)),
    }
}

// The fault of the names that an action adds to, where there is no room.
fn limit_of(action: Action) -> StdKind
    ensures value { result ≡ too_many action }
    ensures kind { NamesNoHolder result }
{
    match action {
        Action::Read | Action::Write => StdKind::TooManyVars,
        Action::Acquire | Action::Release => StdKind::TooManyLocks,
        Action::Fork | Action::Join => StdKind::TooManyThreads,
    }
}

// The kind of a law that an event breaks.
fn law_kind(fault: &LawFault) -> StdKind
    ensures { result ≡ kind_of fault.now }
{
    match fault {
        LawFault::Full => StdKind::TooManyEvents,
        LawFault::AfterJoin => StdKind::AfterJoin,
        LawFault::Reentrant => StdKind::Reentrant,
        LawFault::LockHeld(holder) => StdKind::LockHeld(*holder),
        LawFault::NotHeld => StdKind::NotHeld,
        LawFault::SelfThread => StdKind::SelfThread,
        LawFault::ForkTwice => StdKind::ForkTwice,
        LawFault::ForkLate => StdKind::ForkLate,
    }
}

impl LineReader {
    ghost use Rattle.std_text.specs.Framing.{begun_with};

    /// No line yet, where these names have their numbers and the first line has this number. It takes the room of all
    /// events.
    pub fn after(alloc: Global, names: Names, line: u32) -> Result<LineReader, OutOfMemory>
        ensures { IfOk result (λ r. r ≡ begun_with names line) }
    {
        Ok(LineReader {
            builder: Builder::new(alloc, MAX_EVENTS)?,
            names,
            line,
        })
    }

    /// The refusal of the next line.
    pub fn refusal(&self, kind: StdKind) -> ReadFault
        ensures { result ≡ ReadFault.Text (record { line = self.now.line; kind = kind }) }
    {
        ReadFault::Text(StdFault {
            line: self.line,
            kind,
        })
    }

    // Why a name of the line has no number, where this kind says that there is no room for it.
    fn name_fault(&self, fault: NameFault, kind: StdKind) -> ReadFault
        ensures full { fault ≡ NameFault.Full → result ≡ ReadFault.Text (record { line = self.now.line; kind = kind }) }
        ensures memory { fault ≡ NameFault.OutOfMemory → result ≡ ReadFault.OutOfMemory }
    {
        match fault {
            NameFault::Full => self.refusal(kind),
            NameFault::OutOfMemory => ReadFault::OutOfMemory,
        }
    }

    // Appends the event of a line's parts. After a fault the names may have grown by those of the line.
    fn append(&mut self, parts: &Fields<'_>) -> Result<(), ReadFault>
        requires { self.old.line + 1 < 2 ^ 32 }
        ensures line { self.new.line ≤ self.old.line + 1 }
        ensures read { Steps result self.new.names self.new (read_parts self.old (record {
          thread = parts.now.thread.now;
          action = parts.now.action;
          operand = parts.now.operand.now;
          location = parts.now.location;
        })) }
    {
        if self.builder.is_full() {
            return Err(self.refusal(StdKind::TooManyEvents));
        }
        let thread = match self.names.thread(parts.thread) {
            Ok(thread) => thread,
            Err(fault) => return Err(self.name_fault(fault, StdKind::TooManyThreads)),
        };
        let op = match operation_on(&mut self.names, parts.action, parts.operand) {
            Ok(op) => op,
            Err(fault) => return Err(self.name_fault(fault, limit_of(parts.action))),
        };
        let loc = parts.location;
        if let Err(fault) = self.builder.push(Event { thread, op, loc }) {
            return Err(self.refusal(law_kind(&fault)));
        }
        self.line += 1;
        Ok(())
    }

    /// Takes a line that is not empty for what it means.
    pub fn event(&mut self, content: &[u8]) -> Result<(), ReadFault>
        requires { self.old.line + 1 < 2 ^ 32 }
        ensures read { Steps result self.new.names self.new (read_event self.old content.now) }
        ensures line { self.new.line ≤ self.old.line + 1 }
    {
        match split_line(content) {
            Ok(Some(parts)) => self.append(&parts),
            Ok(None) => {
                self.skip();
                Ok(())
            }
            Err(kind) => Err(self.refusal(kind)),
        }
    }

    /// Counts a line that is skipped.
    pub fn skip(&mut self)
        requires { self.old.line + 1 < 2 ^ 32 }
        ensures { self.new ≡ skipped self.old }
    {
        self.line += 1;
    }

    /// The names so far.
    pub fn names(&self) -> &Names
        ensures { result.now ≡ self.now.names }
    {
        &self.names
    }

    /// The trace of the events, whose number of threads is that of the names, and the names.
    pub fn finish(self) -> (Trace, Names)
        ensures trace { result.0 ≡ record { events = self.events; threads = length self.names.threads } }
        ensures names { result.1 ≡ self.names }
        ensures named { AreNamed result.1 result.0.events }
    {
        let LineReader { builder, names, .. } = self;
        let threads = names.threads();
        (builder.finish(threads), names)
    }
}
