// Reads a source as a trace.
ghost use Rattle.std.specs.Prelude.{◌≡◌, ◌≢◌, false, Ok, Err, IfOk, OnOk, IsErrOf};
ghost use Rattle.std.specs.Io.KnownBytes.{IsAtEnd};
ghost use Rattle.sp_base.specs.Causes.{Rose};
ghost use Rattle.sp_base.specs.Moves.{Took};
ghost use Rattle.std_text.specs.Framing.{Progress, start, after, closed};
ghost use Rattle.std_text.specs.Refusal.{IsHolderGiven, holder_name};
ghost use Rattle.std_text.specs.Told.{IsHolderKnown};
ghost use Rattle.std_text.specs.Writing.{AreNamed};
ghost use Rattle.intake.specs.Faults.{TellsFault, TellsRefusal};
ghost use Rattle.intake.specs.Lengths.{IsWithinLimit};
ghost use Rattle.intake.specs.Reads.{GoesOn, Ends, HasCome, IsReadFrom};

use crate::fault::{HolderName, IntakeFault};
use crate::taker::{Taker, take_all};
use sp_base::{OutOfMemory, Source};
use std::alloc::Global;
use std::marker::Model;
use std_text::{ReadFault, Reader, StdFault, StdKind};
use trace_laws::{Names, Trace};

// The name of the thread that holds the lock, and no name for every other kind.
fn holder_of(alloc: Global, names: &Names, kind: &StdKind) -> Result<HolderName, OutOfMemory>
    requires { IsHolderGiven names.now kind.now }
    ensures { IfOk result (λ holder. holder ≡ holder_name names.now kind.now) }
{
    match kind {
        StdKind::LockHeld(holder) => HolderName::new(alloc, names.thread_name(*holder)),
        _ => Ok(HolderName::none(alloc)),
    }
}

// The refusal of the text as a fault.
fn refusal(alloc: Global, names: &Names, fault: &StdFault) -> IntakeFault
    requires { IsHolderGiven names.now fault.now.kind }
    ensures tells { TellsFault names.now (ReadFault.Text fault.now) result }
    ensures read { result ≢ IntakeFault.Read }
{
    let Ok(holder) = holder_of(alloc, names, &fault.kind) else {
        return IntakeFault::OutOfMemory;
    };
    IntakeFault::Text {
        fault: *fault,
        holder,
    }
}

// A reader's fault with the name of the holder.
fn fault_with_holder(alloc: Global, names: &Names, fault: &ReadFault) -> IntakeFault
    requires { IsHolderKnown names.now fault.now }
    ensures tells { TellsFault names.now fault.now result }
    ensures read { result ≢ IntakeFault.Read }
{
    match fault {
        ReadFault::Text(fault) => refusal(alloc, names, fault),
        ReadFault::OutOfMemory => IntakeFault::OutOfMemory,
    }
}

/// Takes a piece, where the reader has not failed.
pub fn read_piece(alloc: Global, reader: &mut Reader, piece: &[u8]) -> Result<(), IntakeFault>
    requires { reader.old.closed ≡ false }
    ensures read { (p : Progress) → reader.old.read ≡ Ok p → GoesOn (after p piece.now) reader.new result }
    ensures closed { reader.new.closed ≡ false }
    ensures source { result ≢ Err IntakeFault.Read }
{
    match reader.feed(piece) {
        Ok(()) => Ok(()),
        Err(fault) => Err(fault_with_holder(alloc, reader.names(), &fault)),
    }
}

/// Takes the end of the text, where the reader has not failed.
pub fn read_end(alloc: Global, mut reader: Reader) -> Result<(Trace, Names), IntakeFault>
    ensures read { (p : Progress) → reader.read ≡ Ok p → Ends (closed p) result }
    ensures named { IfOk result (λ read. AreNamed read.1 read.0.events) }
{
    if let Err(fault) = reader.close() {
        return Err(fault_with_holder(alloc, reader.names(), &fault));
    }
    Ok(reader.finish())
}

// Reads the text so far, which has not ended.
#[derive(Drop)]
struct TraceTaker {
    alloc: Global,
    reader: Reader,
}

impl Model for TraceTaker {
    ghost use Rattle.std.specs.Prelude.{◌≡◌, false};
    ghost use Rattle.std_text.specs.Told.{Told};

    ghost Value = { Told };

    ghost view = { λ t. t.reader };

    ghost invariant = { λ t. t.reader.closed ≡ false };
}

impl Taker for TraceTaker {
    ghost has = { HasCome };

    ghost refuses = { λ fault input. TellsRefusal (after start input) fault };

    fn take_piece(&mut self, piece: &[u8]) -> Result<(), IntakeFault> {
        read_piece(self.alloc, &mut self.reader, piece)
    }
}

/// Reads all that a source has, and no byte more than the limit of an input and one, as a trace and names, which all that
/// its events name has. A refused text is answered with the first fault that is known, and `Read` only where the source's
/// count of faults rose.
#[tactic(auto, using(crate::proofs::TraceTaking::come_none, crate::proofs::TraceTaking::taking_fails, crate::proofs::TraceTaking::read_to_end))]
pub fn read_trace<S: Source>(alloc: Global, source: &mut S) -> Result<(Trace, Names), IntakeFault>
    ensures read { Took (S.left source.old) (S.left source.new) (λ input. IsWithinLimit input × IsReadFrom (IsAtEnd (S.left source.new)) result input) }
    ensures named { IfOk result (λ read. AreNamed read.1 read.0.events) }
    ensures ended { OnOk result (IsAtEnd (S.left source.new)) }
    ensures cause { IsErrOf result IntakeFault.Read → Rose (S.faults source.old) (S.faults source.new) }
{
    let Ok(reader) = Reader::new(alloc) else {
        return Err(IntakeFault::OutOfMemory);
    };
    let mut taker = TraceTaker { alloc, reader };
    take_all(source, &mut taker)?;
    read_end(alloc, taker.reader)
}
