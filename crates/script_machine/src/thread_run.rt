//! One thread of a script on its way.

ghost use Rattle.std.specs.Prelude.{◌≡◌, ◌≢◌, ◌+◌, ◌<◌, [], length, drop, Some, None, IsNone, ◌↔◌, All};
ghost use Rattle.script_machine.specs.Machine.{Local, IsSettled, IsAtWrite, InRange, settled, body, call_at, jump, moved, op_of, register_by, location_of, stored_at};

use crate::{Instruction, Line, Script};
use sp_base::ThreadId;
use std::marker::Model;
use trace_laws::Op;

// What a local instruction makes of the register, and how many instructions it jumps over; none for the others.
fn jump(instruction: &Instruction, register: u64) -> Option<(u64, u32)>
    ensures { result ≡ jump instruction.now register }
{
    match instruction {
        Instruction::Add(n) => Some((register.wrapping_add(*n), 0)),
        Instruction::If(n, count) => {
            if register == *n {
                Some((register, 0))
            } else {
                Some((register, *count))
            }
        }
        Instruction::Jump(count) => Some((register, *count)),
        Instruction::Do(_) | Instruction::WriteNumber(_, _) => None,
    }
}

// Takes the local instructions from a place on, with the register that stands there.
fn settle(lines: &[Line], from: usize, start: u64) -> (usize, u64)
    ensures value { settled 0 (drop from lines.now) start ≡ record { left = drop result.0 lines.now; register = result.1 } }
    ensures done { IsSettled (record { left = drop result.0 lines.now; register = result.1 }) }
{
    let mut cursor = from;
    let mut register = start;
    while cursor < lines.len() {
        let line = &lines[cursor];
        let Some((next, count)) = jump(&line.instruction, register) else {
            break;
        };
        register = next;
        cursor += 1 + count as usize;
    }
    (cursor, register)
}

/// One thread of a script on its way: the instructions that it has still to take, and its register.
#[derive(Drop)]
pub struct ThreadRun<'a> {
    lines: &'a [Line],
    cursor: usize,
    register: u64,
}

impl<'a> Model for ThreadRun<'a> {
    ghost use Rattle.std.specs.Prelude.{drop};
    ghost use Rattle.script_machine.specs.Machine.{Local, IsSettled};

    ghost Value = { Local };

    ghost view = { λ r. record { left = drop r.cursor r.lines.now; register = r.register } };

    ghost invariant = { λ r. IsSettled (record { left = drop r.cursor r.lines.now; register = r.register }) };
}

impl<'a> ThreadRun<'a> {
    /// The thread at the start, with the local instructions at the front of its list taken. The thread is one of the script.
    pub fn new(script: &'a Script, thread: ThreadId) -> ThreadRun<'a>
        requires { thread < length script.now.bodies }
        ensures value { result ≡ settled 0 (body script.now thread) 0 }
        ensures operands { All (λ line. InRange script.now line.instruction) result.left }
        ensures settled { IsSettled result }
    {
        let lines = script.lines(thread);
        let (cursor, register) = settle(lines, 0, 0);
        ThreadRun {
            lines,
            cursor,
            register,
        }
    }

    /// The next call, or none at the end.
    pub fn next_op(&self) -> Option<Op>
        ensures call { result ≡ call_at self.now.left }
        ensures end { IsNone result ↔ (self.now.left ≡ []) }
    {
        if self.cursor >= self.lines.len() {
            return None;
        }
        let line = &self.lines[self.cursor];
        op_of(&line.instruction)
    }

    /// The line of the next instruction.
    pub fn location(&self) -> u32
        requires { self.now.left ≢ [] }
        ensures { result ≡ location_of self.now.left }
    {
        let line = &self.lines[self.cursor];
        line.number
    }

    /// What the next instruction, a write, stores.
    pub fn value(&self) -> u64
        requires { IsAtWrite self.now.left }
        ensures { result ≡ stored_at self.now.left self.now.register }
    {
        let line = &self.lines[self.cursor];
        match &line.instruction {
            Instruction::WriteNumber(_, n) => *n,
            _ => self.register,
        }
    }

    /// Takes the next instruction and the local ones behind it; a read puts `read` into the register.
    pub fn advance(&mut self, read: u64)
        requires { self.old.left ≢ [] }
        ensures { self.new ≡ moved self.old.left self.old.register read }
    {
        let line = &self.lines[self.cursor];
        let (cursor, register) = settle(
            self.lines,
            self.cursor + 1,
            register_after(&line.instruction, self.register, read),
        );
        self.cursor = cursor;
        self.register = register;
    }
}

// The operation of an instruction that is not local.
fn op_of(instruction: &Instruction) -> Option<Op>
    ensures { result ≡ op_of instruction.now }
{
    match instruction {
        Instruction::Do(op) => Some(*op),
        Instruction::WriteNumber(x, _) => Some(Op::Write(*x)),
        Instruction::Add(_) | Instruction::If(_, _) | Instruction::Jump(_) => None,
    }
}

// The register after an instruction that is not local, where a read reads `read`.
fn register_after(instruction: &Instruction, register: u64, read: u64) -> u64
    ensures { result ≡ register_by (op_of instruction.now) register read }
{
    match instruction {
        Instruction::Do(Op::Read(_)) => read,
        _ => register,
    }
}
