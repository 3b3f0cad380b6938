//! What a flattened body is made of.

use sp_base::VarId;
use std::marker::Model;
use trace_laws::Op;

/// One instruction of a flattened body. Each is taken at most once in a run, since jumps go forward only.
#[derive(Clone, Copy, Debug, PartialEq, Eq)]
pub enum Instruction {
    /// The operation; a write takes the register.
    Do(Op),
    /// Writes the number to the variable.
    WriteNumber(VarId, u64),
    /// Adds the number to the register, which wraps at 64 bits.
    Add(u64),
    /// Jumps over that many instructions where the register is another number.
    If(u64, u32),
    /// Jumps over that many instructions.
    Jump(u32),
}

/// An instruction, with the number of the line of its word.
#[derive(Clone, Copy, Debug, PartialEq, Eq)]
pub struct Line {
    pub instruction: Instruction,
    pub number: u32,
}

impl Model for Line {
    ghost use Rattle.script_machine.specs.Line.{Line};

    ghost Value = { Line };

    ghost view = { λ l. record { instruction = l.instruction; number = l.number } };

    ghost inverse = { λ l. record { instruction = l.instruction; number = l.number } };
}
