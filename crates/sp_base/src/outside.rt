//! A source of bytes and a sink for them, as the product sees the outside.

ghost use Rattle.std.specs.Prelude.{ℕ, ◌<◌, List, Option, length, IfOk};
ghost use Rattle.std.specs.Io.{ReadsAtMost, WritesAtMost};
ghost use Rattle.std.specs.Io.KnownBytes.{ReadConsumes, WriteAppends};
ghost use Rattle.sp_base.specs.Causes.{HasCause, HasWriteCause};

use std::alloc::AllocError;
use thiserror::Error;

/// A read failed.
#[derive(Clone, Copy, Debug, PartialEq, Eq, Error)]
#[error("failed")]
pub struct Failed;

/// Memory ran out.
#[derive(Clone, Copy, Debug, PartialEq, Eq, Error)]
#[error("out of memory")]
pub struct OutOfMemory;

impl From<AllocError> for OutOfMemory {
    fn from(_fault: AllocError) -> OutOfMemory {
        OutOfMemory
    }
}

/// Why a write wrote nothing.
#[derive(Clone, Copy, Debug, PartialEq, Eq, Error)]
pub enum WriteFault {
    /// The sink failed.
    #[error("failed")]
    Failed,
    /// Memory ran out.
    #[error("out of memory")]
    OutOfMemory,
}

/// What bytes are read from.
pub trait Source {
    /// The bytes that it will still give, where it tells them.
    ghost left: { Self → Option (List ℕ) };

    /// How often it has failed. The count never falls.
    ghost faults: { Self → ℕ };

    /// Gives the front of what is left: `Ok(n)` put its first `n` bytes into the front of the buffer. `Ok(0)` into a
    /// buffer that is not empty is the end.
    ///
    /// Fails only where the count of faults rises, and then takes nothing.
    fn read(&mut self, buffer: &mut [u8]) -> Result<usize, Failed>
        ensures bound { ReadsAtMost result buffer.new }
        ensures bytes { ReadConsumes (left self.old) (left self.new) result buffer.new }
        ensures cause { HasCause (faults self.old) (faults self.new) result };
}

/// What bytes are written to.
pub trait Sink {
    /// What was written, where it tells that.
    ghost text: { Self → Option (List ℕ) };

    /// How often it has failed. The count never falls.
    ghost faults: { Self → ℕ };

    /// Appends the front of the bytes: `Ok(n)` wrote the first `n` of them, and at least one where there is one.
    ///
    /// Answers `Failed` only where the count of faults rises, and `OutOfMemory` where memory ran out. Either way
    /// nothing was appended.
    fn write(&mut self, bytes: &[u8]) -> Result<usize, WriteFault>
        ensures bound { WritesAtMost result bytes.now }
        ensures progress { IfOk result (λ n. 0 < length bytes.now → 0 < n) }
        ensures bytes { WriteAppends (text self.old) (text self.new) result bytes.now }
        ensures cause { HasWriteCause (faults self.old) (faults self.new) result };
}
