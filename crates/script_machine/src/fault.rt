//! Why a text is no script.

ghost use Rattle.std.specs.Prelude.{◌≡◌};

use sp_base::OutOfMemory as NoMemory;
use std::alloc::AllocError;
use thiserror::Error;

/// What is wrong with a script text.
#[derive(Clone, Copy, Debug, PartialEq, Eq, Error)]
pub enum ScriptKind {
    /// The first word of the line is none of the language.
    #[error("unknown word")]
    UnknownWord,
    /// A name or a number is missing, there are too many words, or a name is none.
    #[error("wrong operand")]
    Operand,
    /// A number is none, or too large.
    #[error("wrong number")]
    Number,
    /// The line stands before the first thread.
    #[error("no thread")]
    NoThread,
    /// The thread has a body already.
    #[error("thread named twice")]
    TwiceNamed,
    /// A forked or joined thread has no body.
    #[error("unknown thread")]
    UnknownThread,
    /// The flattened bodies fork a thread twice.
    #[error("thread forked twice")]
    ForkedTwice,
    /// A block is not closed.
    #[error("open block")]
    OpenBlock,
    /// An `else` or an `end` has no block.
    #[error("stray end")]
    StrayEnd,
    /// Too many blocks are open at once.
    #[error("too deep")]
    TooDeep,
    /// The flattened bodies have too many instructions.
    #[error("too many instructions")]
    TooManyInstructions,
    /// There are too many names of threads, locks or variables.
    #[error("too many names")]
    TooManyNames,
}

/// The first fault of a script text, with the number of its line.
#[derive(Clone, Copy, Debug, PartialEq, Eq, Error)]
#[error("line {line}: {kind}")]
pub struct ScriptFault {
    pub line: u32,
    pub kind: ScriptKind,
}

/// Why a script was not read.
#[derive(Clone, Copy, Debug, PartialEq, Eq, Error)]
pub enum ScriptError {
    /// The text has this first fault.
    #[error("{0}")]
    Fault(ScriptFault),
    #[error("out of memory")]
    OutOfMemory,
}

impl From<AllocError> for ScriptError {
    ghost use Rattle.script_machine.specs.declared.fault.ScriptError.TheVariants.{OutOfMemory};

    ghost from_gives = { λ _ e. e ≡ OutOfMemory };

    fn from(_error: AllocError) -> ScriptError {
        ScriptError::OutOfMemory
    }
}

impl From<NoMemory> for ScriptError {
    ghost use Rattle.script_machine.specs.declared.fault.ScriptError.TheVariants.{OutOfMemory};

    ghost from_gives = { λ _ e. e ≡ OutOfMemory };

    fn from(_error: NoMemory) -> ScriptError {
        ScriptError::OutOfMemory
    }
}
