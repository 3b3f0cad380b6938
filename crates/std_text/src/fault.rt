use sp_base::ThreadId;
use std::marker::Model;
use thiserror::Error;

/// Why a text is refused, in the order of the kinds' numbers: 1 to 10 are faults of the text and its limits, 11 to 17 are
/// laws that an event breaks.
#[derive(Clone, Copy, Debug, PartialEq, Eq)]
pub enum StdKind {
    /// The line has more than `MAX_LINE` bytes, without its newline.
    LineTooLong,
    /// The line has no bar.
    NoBar,
    /// What stands for a name is none.
    BadName,
    /// The word of the operation is not known.
    UnknownOperation,
    /// The operation has no operand in parentheses at its end.
    BadOperand,
    /// The text has more than `MAX_INPUT` bytes.
    InputTooLong,
    /// The text has more than `MAX_EVENTS` events.
    TooManyEvents,
    /// The line brings one name of a thread more than `MAX_THREADS`.
    TooManyThreads,
    /// The line brings one name of a lock more than `MAX_LOCKS`.
    TooManyLocks,
    /// The line brings one name of a variable more than `MAX_VARS`.
    TooManyVars,
    /// The line acquires a lock that the named other thread holds.
    LockHeld(ThreadId),
    /// The line acquires a lock that its own thread holds.
    Reentrant,
    /// The line releases a lock that its own thread does not hold.
    NotHeld,
    /// The line forks a thread that has an event.
    ForkLate,
    /// The line forks a thread that was forked before.
    ForkTwice,
    /// The line forks or joins its own thread.
    SelfThread,
    /// The line's thread, or the thread that it forks, was joined.
    AfterJoin,
}

/// The first line that is refused, by its number from 1, and why.
#[derive(Clone, Copy, Debug, PartialEq, Eq)]
pub struct StdFault {
    pub line: u32,
    pub kind: StdKind,
}

impl Model for StdFault {
    ghost use Rattle.std_text.specs.Refusal.{LineFault};

    ghost Value = { LineFault };

    ghost view = { λ f. record { line = f.line; kind = f.kind } };

    ghost inverse = { λ f. record { line = f.line; kind = f.kind } };
}

/// Why a reader went no further.
#[derive(Clone, Copy, Debug, PartialEq, Eq, Error)]
pub enum ReadFault {
    #[error("the text is refused")]
    Text(StdFault),
    #[error("out of memory")]
    OutOfMemory,
}
