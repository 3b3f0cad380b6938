// Why an input is not read.
ghost use Rattle.std.specs.Prelude.{◌≡◌, IfOk, []};

use script_machine::ScriptFault;
use sp_base::OutOfMemory;
use std::alloc::Global;
use std::marker::Model;
use std_text::StdFault;
use thiserror::Error;

/// The name of the thread that holds a lock, which contracts see as its bytes. It is empty where no thread is named.
#[derive(Debug, Drop)]
pub struct HolderName {
    name: Vec<u8>,
}

impl Model for HolderName {
    ghost use Rattle.std.specs.Prelude.{List, ℕ};

    ghost Value = { List ℕ };

    ghost view = { λ h. h.name.items };
}

impl HolderName {
    /// No name.
    pub fn none(alloc: Global) -> HolderName
        ensures { result ≡ [] }
    {
        HolderName {
            name: Vec::new(alloc),
        }
    }

    /// A copy of a name.
    pub fn new(alloc: Global, name: &[u8]) -> Result<HolderName, OutOfMemory>
        ensures { IfOk result (λ holder. holder ≡ name.now) }
    {
        match name.to_vec(alloc) {
            Ok(name) => Ok(HolderName { name }),
            Err(_) => Err(OutOfMemory),
        }
    }

    /// The bytes of the name, which need not be UTF-8.
    pub fn bytes(&self) -> &[u8]
        ensures { result.now ≡ self.now }
    {
        &self.name
    }
}

/// Why an input gives neither a trace nor scripts.
#[derive(Debug, Drop, Error)]
pub enum IntakeFault {
    /// The trace is refused, or the input is too long. The holder is that of `LockHeld`, and empty for every other kind.
    #[error("the trace is refused")]
    Text { fault: StdFault, holder: HolderName },
    /// The script is refused.
    #[error("the script is refused")]
    Script(ScriptFault),
    /// The source's count of faults rose.
    #[error("read fault")]
    Read,
    /// Memory ran out.
    #[error("no memory")]
    OutOfMemory,
}
