// The script of a text.
ghost use Rattle.std.specs.Prelude.{◌≤◌, length, MatchResult, OnOk, IsErrOf};
ghost use Rattle.std.specs.Io.KnownBytes.{IsAtEnd};
ghost use Rattle.sp_base.specs.Causes.{Rose};
ghost use Rattle.sp_base.specs.Moves.{Took};
ghost use Rattle.sp_base.specs.declared.limits.TheConstants.{MAX_INPUT};
ghost use Rattle.script_machine.specs.ScriptText.{Scripts};
ghost use Rattle.intake.specs.Faults.{FailsToReadScript, FailsToScript};
ghost use Rattle.intake.specs.Lengths.{IsWithinLimit};
ghost use Rattle.intake.specs.Reads.{IsScriptOf};

use crate::fault::IntakeFault;
use crate::gathering::whole_text;
use script_machine::{Script, ScriptError};
use sp_base::Source;
use std::alloc::Global;

/// The script of a text, which is no longer than an input may be, or its first fault. The only other error is want of memory.
pub fn script_of(alloc: Global, text: &[u8]) -> Result<Script, IntakeFault>
    requires { length text.now ≤ MAX_INPUT }
    ensures { MatchResult result (λ script. Scripts text.now script) (λ fault. FailsToScript fault text.now) }
{
    match Script::read(alloc, text) {
        Ok(script) => Ok(script),
        Err(ScriptError::Fault(fault)) => Err(IntakeFault::Script(fault)),
        Err(ScriptError::OutOfMemory) => Err(IntakeFault::OutOfMemory),
    }
}

/// Reads a source to its end, and answers the script of its text. `Read` comes only where the source's count of faults
/// rose.
#[tactic(auto, using(crate::proofs::Scripting::gathering_fails, crate::proofs::Scripting::script_fails, crate::proofs::Scripting::script_reads))]
pub fn read_script<S: Source>(alloc: Global, source: &mut S) -> Result<Script, IntakeFault>
    ensures read { Took (S.left source.old) (S.left source.new) (λ input. IsWithinLimit input ×
        MatchResult result (IsScriptOf input) (λ fault. FailsToReadScript (IsAtEnd (S.left source.new)) fault input)) }
    ensures ended { OnOk result (IsAtEnd (S.left source.new)) }
    ensures cause { IsErrOf result IntakeFault.Read → Rose (S.faults source.old) (S.faults source.new) }
{
    let text = whole_text(alloc, source)?;
    script_of(alloc, &text)
}
