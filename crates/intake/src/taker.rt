// Takes all that a source has.
ghost use Rattle.std.specs.Prelude.{◌≡◌, ◌≢◌, ◌≤◌, ◌+◌, ℕ, List, [], ◌++◌, length, Err, OnOk, IsErrOf};
ghost use Rattle.std.specs.Io.KnownBytes.{IsAtEnd};
ghost use Rattle.sp_base.specs.Causes.{Rose};
ghost use Rattle.sp_base.specs.Moves.{Took};
ghost use Rattle.sp_base.specs.declared.limits.TheConstants.{MAX_INPUT};
ghost use Rattle.intake.specs.declared.fault.IntakeFault.{IntakeFault as Fault};
ghost use Rattle.intake.specs.Lengths.{IsWithinLimit};
ghost use Rattle.intake.specs.Taking.{GoesOnWith, HasTaken};

use crate::fault::IntakeFault;
use sp_base::{MAX_INPUT, Source};

/// What takes the pieces of an input.
pub trait Taker {
    /// It has taken exactly these bytes.
    ghost has: { Self → List ℕ → Type 0 };

    /// Behind exactly these bytes it stops with this fault.
    ghost refuses: { Fault → List ℕ → Type 0 };

    /// Takes one piece more. It stops at the first byte that is one too many, and answers no fault of the source.
    fn take_piece(&mut self, piece: &[u8]) -> Result<(), IntakeFault>
        ensures taken { (input : List ℕ) → has self.old input → IsWithinLimit (input ++ piece.now) →
            GoesOnWith (has self.new) refuses result (input ++ piece.now) }
        ensures read { result ≢ Err Fault.Read };
}

/// Hands all that a source has to what takes it, and no byte more than the limit of an input and one. `Read` comes only
/// where the source's count of faults rose.
pub fn take_all<S: Source, T: Taker>(source: &mut S, taker: &mut T) -> Result<(), IntakeFault>
    requires { T.has taker.old [] }
    ensures read { Took (S.left source.old) (S.left source.new) (λ input. IsWithinLimit input × HasTaken (T.has taker.new) T.refuses result input) }
    ensures ended { OnOk result (IsAtEnd (S.left source.new)) }
    ensures cause { IsErrOf result Fault.Read → Rose (S.faults source.old) (S.faults source.new) }
{
    let most = MAX_INPUT as usize;
    let mut buffer = [0u8; 4096];
    let mut taken = 0;
    while taken <= most {
        let room = buffer.len().min(most + 1 - taken);
        let piece = &mut buffer[..room];
        match source.read(piece) {
            Ok(0) => return Ok(()),
            Ok(count) => {
                taker.take_piece(&piece[..count])?;
                taken += count;
            }
            Err(_) => return Err(IntakeFault::Read),
        }
    }
    unreachable!()
}
