// The statuses of faults.
ghost use Rattle.std.specs.Prelude.{◌≡◌, ◌≢◌};
ghost use Rattle.syncp.specs.Statuses.{passes_limit, script_passes_limit, refusal_status, status_of};

use crate::outcome::{Fault, Status};
use script_machine::ScriptKind;
use std_text::StdKind;

// Whether a text passes a limit.
fn passes_limit(kind: &StdKind) -> bool
    ensures { result ≡ passes_limit kind.now }
{
    match kind {
        StdKind::InputTooLong
        | StdKind::TooManyEvents
        | StdKind::TooManyThreads
        | StdKind::TooManyLocks
        | StdKind::TooManyVars => true,
        _ => false,
    }
}

// Whether a script passes a limit.
fn script_passes_limit(kind: &ScriptKind) -> bool
    ensures { result ≡ script_passes_limit kind.now }
{
    match kind {
        ScriptKind::TooManyInstructions | ScriptKind::TooManyNames => true,
        _ => false,
    }
}

// The status of a refused input, by whether it passes a limit.
fn refusal_status(passes: bool) -> Status
    ensures status { result ≡ refusal_status passes }
    ensures usage { result ≢ Status.Usage }
    ensures read { result ≢ Status.ReadFault }
    ensures write { result ≢ Status.WriteFault }
{
    if passes {
        Status::Limit
    } else {
        Status::Refused
    }
}

/// The status of a fault.
pub fn status_of(fault: &Fault) -> Status
    ensures status { result ≡ status_of fault.now }
    ensures usage { result ≢ Status.Usage }
    ensures read { result ≡ Status.ReadFault → fault.now ≡ Fault.Read }
    ensures write { result ≡ Status.WriteFault → fault.now ≡ Fault.Write }
{
    match fault {
        Fault::Text { fault, .. } => refusal_status(passes_limit(&fault.kind)),
        Fault::Script(fault) => refusal_status(script_passes_limit(&fault.kind)),
        Fault::NotAStep(_) => Status::Refused,
        Fault::TooManyPatterns => Status::Limit,
        Fault::NoFinding => Status::Limit,
        Fault::Read => Status::ReadFault,
        Fault::Write => Status::WriteFault,
        Fault::OutOfMemory => Status::NoMemory,
    }
}
