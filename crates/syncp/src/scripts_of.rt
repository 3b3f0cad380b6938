// The scripts of a source.
ghost use Rattle.std.specs.Prelude.{MatchResult, OnOk, IsErrOf};
ghost use Rattle.std.specs.Io.KnownBytes.{IsAtEnd};
ghost use Rattle.sp_base.specs.Causes.{Rose};
ghost use Rattle.sp_base.specs.Moves.{Took};
ghost use Rattle.intake.specs.Lengths.{IsWithinLimit};
ghost use Rattle.intake.specs.Reads.{IsScriptOf};
ghost use Rattle.syncp.specs.Outcome.{FailsToRead};
ghost use Rattle.syncp.specs.RecordMode.{Record};

use crate::outcome::Fault;
use intake::read_script;
use script_machine::Script;
use sp_base::Source;
use std::alloc::Global;

/// Reads a source to its end, and answers the script of its text. `Read` comes only where the source's count of faults
/// rose.
#[tactic(auto, using(crate::proofs::ReadingFaults::script_not_read, crate::proofs::ReadingFaults::source_failed))]
pub fn scripts_of<S: Source>(alloc: Global, source: &mut S) -> Result<Script, Fault>
    ensures read { Took (S.left source.old) (S.left source.new) (λ input. IsWithinLimit input ×
        MatchResult result (IsScriptOf input) (λ fault. FailsToRead Record (IsAtEnd (S.left source.new)) fault input)) }
    ensures ended { OnOk result (IsAtEnd (S.left source.new)) }
    ensures cause { IsErrOf result Fault.Read → Rose (S.faults source.old) (S.faults source.new) }
{
    let script = read_script(alloc, source)?;
    Ok(script)
}
