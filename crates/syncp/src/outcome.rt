// How a call ended.
ghost use Rattle.std.specs.Prelude.{◌≡◌};

use intake::{HolderName, IntakeFault};
use script_machine::ScriptFault;
use std_text::StdFault;
use thiserror::Error;

/// Why a call gave no whole output.
#[derive(Debug, Drop, Error)]
pub enum Fault {
    /// The trace is refused. The holder is that of `LockHeld`, and empty for every other kind.
    #[error("the trace is refused")]
    Text { fault: StdFault, holder: HolderName },
    /// The script is refused.
    #[error("the script is refused")]
    Script(ScriptFault),
    /// The trace is no run of the script: the place is the first whose thread and operation are no step.
    #[error("no step of the script at place {0}")]
    NotAStep(u32),
    /// The trace has more patterns up to the size than may be listed.
    #[error("too many deadlock patterns")]
    TooManyPatterns,
    /// The trace has fewer findings.
    #[error("no finding of that number")]
    NoFinding,
    /// The source's count of faults rose.
    #[error("read fault")]
    Read,
    /// The sink's count of faults rose.
    #[error("write fault")]
    Write,
    /// Memory ran out.
    #[error("no memory")]
    OutOfMemory,
}

impl From<IntakeFault> for Fault {
    ghost use Rattle.syncp.specs.Faults.{fault_of};

    ghost from_gives = { λ f e. e ≡ fault_of f };

    fn from(fault: IntakeFault) -> Fault {
        match fault {
            IntakeFault::Text { fault, holder } => Fault::Text { fault, holder },
            IntakeFault::Script(fault) => Fault::Script(fault),
            IntakeFault::Read => Fault::Read,
            IntakeFault::OutOfMemory => Fault::OutOfMemory,
        }
    }
}

/// How a call ended: the whole output was written, which has a finding or none, or it was refused.
#[derive(Debug, Drop)]
pub enum Outcome {
    Done { found: bool },
    Refused(Fault),
}

/// The status of a run.
#[derive(Clone, Copy, Debug, PartialEq, Eq)]
pub enum Status {
    /// The whole output was written, and has no finding.
    Clean,
    /// The whole output was written, and has a finding.
    Found,
    /// The words have no reading.
    Usage,
    /// The input is refused, and passes no limit.
    Refused,
    /// The input is refused, since it passes a limit, has too many deadlock patterns, or has fewer findings than the number
    /// that was asked for. In the mode `run` it is the run that was recorded which may have too many patterns.
    Limit,
    /// The source's count of faults rose.
    ReadFault,
    /// The output's count of faults rose.
    WriteFault,
    /// Memory ran out.
    NoMemory,
}

impl Status {
    ghost use Rattle.syncp.specs.Statuses.{code_of};

    /// The number of the status.
    pub fn code(&self) -> u8
        ensures { result ≡ code_of self.now }
    {
        match self {
            Status::Clean => 0,
            Status::Found => 1,
            Status::Usage => 2,
            Status::Refused => 3,
            Status::Limit => 4,
            Status::ReadFault => 5,
            Status::WriteFault => 6,
            Status::NoMemory => 7,
        }
    }
}
