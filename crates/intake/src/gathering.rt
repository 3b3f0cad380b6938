// Reads a source to its end before the text is looked at.
ghost use Rattle.std.specs.Prelude.{◌≡◌, ◌≢◌, ◌≤◌, ◌<◌, length, MatchResult, IfOk, OnOk, IsErrOf};
ghost use Rattle.std.specs.Io.KnownBytes.{IsAtEnd};
ghost use Rattle.sp_base.specs.Causes.{Rose};
ghost use Rattle.sp_base.specs.Moves.{Took};
ghost use Rattle.sp_base.specs.declared.limits.TheConstants.{MAX_INPUT};
ghost use Rattle.intake.specs.Faults.{FailsToGather};
ghost use Rattle.intake.specs.Lengths.{IsWithinLimit};

use crate::fault::{HolderName, IntakeFault};
use crate::newlines::count_newlines;
use crate::taker::{Taker, take_all};
use sp_base::{MAX_INPUT, Source};
use std::alloc::Global;
use std_text::{StdFault, StdKind};

// The fault of a text that has a byte too many.
fn too_long(alloc: Global, text: &[u8]) -> IntakeFault
    requires { MAX_INPUT < length text.now }
    ensures fault { FailsToGather result text.now }
    ensures read { result ≢ IntakeFault.Read }
{
    let line = count_newlines(&text[..MAX_INPUT as usize]) as u32 + 1;
    IntakeFault::Text {
        fault: StdFault {
            line,
            kind: StdKind::InputTooLong,
        },
        holder: HolderName::none(alloc),
    }
}

// Keeps the text so far.
#[derive(Drop)]
struct TextTaker {
    alloc: Global,
    text: Vec<u8>,
}

impl Taker for TextTaker {
    ghost has = { λ taker input. taker.text.items ≡ input };

    ghost refuses = { FailsToGather };

    fn take_piece(&mut self, piece: &[u8]) -> Result<(), IntakeFault> {
        let Ok(()) = self.text.extend_from_slice(piece) else {
            return Err(IntakeFault::OutOfMemory);
        };
        if self.text.len() > MAX_INPUT as usize {
            return Err(too_long(self.alloc, &self.text));
        }
        Ok(())
    }
}

/// All that a source has, where that is no more than an input may have. No byte more than that and one is taken. `Read`
/// comes only where the source's count of faults rose.
pub fn whole_text<S: Source>(alloc: Global, source: &mut S) -> Result<Vec<u8>, IntakeFault>
    ensures read { Took (S.left source.old) (S.left source.new) (λ input. IsWithinLimit input ×
        MatchResult result (λ text. text.items ≡ input) (λ fault. FailsToGather fault input)) }
    ensures few { IfOk result (λ text. length text.items ≤ MAX_INPUT) }
    ensures ended { OnOk result (IsAtEnd (S.left source.new)) }
    ensures cause { IsErrOf result IntakeFault.Read → Rose (S.faults source.old) (S.faults source.new) }
{
    let mut taker = TextTaker {
        alloc,
        text: Vec::new(alloc),
    };
    take_all(source, &mut taker)?;
    Ok(taker.text)
}
