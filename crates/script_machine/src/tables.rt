//! What a reader of scripts knows of the lines so far.

ghost use Rattle.std.specs.Prelude.{◌≡◌, true, not, cond, is_none, OnOk, IfOk, IfSome, Err, reverse, [], Option, Some, None};
ghost use Rattle.script_machine.specs.ScriptText.{is_among, thread_name, statement_fault, tables_of, grown, with_optional, or_else, fault_if, open_after, number_in, open_fault};
ghost use Rattle.sp_base.specs.declared.limits.TheConstants.{MAX_THREADS, MAX_LOCKS, MAX_VARS};
ghost use Rattle.script_machine.specs.Said.{said};
ghost use Rattle.script_machine.specs.Known.{IsKnown};
ghost use Rattle.script_machine.specs.Taking.{block_fault, early_fault, over_fault, names_fault, named_after, name_error};
ghost use Rattle.script_machine.specs.declared.fault.ScriptKind.TheVariants.{TwiceNamed};
ghost use Rattle.script_machine.specs.Resolving.{known_of};
ghost use Rattle.script_machine.specs.declared.fault.ScriptFault.{ScriptFault as Fault};

use crate::resolved::Resolved;
use crate::text::Statement;
use crate::{Instruction, ScriptError, ScriptFault, ScriptKind};
use sp_base::{LockId, MAX_DEPTH, OutOfMemory, ThreadId, VarId};
use std::alloc::{AllocError, Global};
use std::marker::Model;
use trace_laws::{NameFault, Names, Op};

/// An open block: the line of its word, and whether an else may come.
#[derive(Clone, Copy, Debug, PartialEq, Eq)]
pub struct Block {
    pub line: u32,
    pub takes_else: bool,
}

/// The names and the open blocks of the lines so far.
#[derive(Drop)]
pub struct Tables {
    names: Names,
    /// The innermost last.
    blocks: Vec<Block>,
}

impl Model for Tables {
    ghost use Rattle.std.specs.Prelude.{reverse};
    ghost use Rattle.script_machine.specs.ScriptText.{Tables};

    ghost Value = { Tables };

    ghost view = { λ t. record {
      threads = t.names.threads;
      locks = t.names.locks;
      variables = t.names.vars;
      blocks = reverse t.blocks.items;
    } };
}

// The lines so far.
impl Tables {
    /// No lines.
    pub fn new(alloc: Global) -> Result<Tables, OutOfMemory>
        ensures { IfOk result (λ t. t ≡ tables_of []) }
    {
        Ok(Tables {
            names: Names::new(alloc)?,
            blocks: Vec::new(alloc),
        })
    }

    /// The names, each kind in the order of their numbers.
    pub fn into_names(self) -> Names
        ensures { result ≡ record { threads = self.threads; locks = self.locks; vars = self.variables } }
    {
        self.names
    }

    /// The block that is open, the innermost.
    pub fn open_fault(&self) -> Option<ScriptFault>
        ensures { result ≡ open_fault self.now.blocks }
    {
        match self.blocks.last() {
            Some(block) => Some(ScriptFault {
                line: block.line,
                kind: ScriptKind::OpenBlock,
            }),
            None => None,
        }
    }

    /// Takes the statement of the next line in, or answers its fault. After an error nothing is said of the tables.
    pub fn take(&mut self, line: u32, statement: Statement) -> Result<(), ScriptError>
        ensures fault { (f : Fault) → result ≡ Err (ScriptError.Fault f) → statement_fault line self.old (said statement.entry) ≡ Some f }
        ensures clean { OnOk result (statement_fault line self.old (said statement.entry) ≡ None) }
        ensures taken { OnOk result (self.new ≡ grown self.old line (said statement.entry)) }
    {
        if let Some(fault) = self.early_fault(line, statement) {
            return Err(ScriptError::Fault(fault));
        }
        self.number(line, statement)?;
        open(line, statement, &mut self.blocks)?;
        Ok(())
    }

    // The fault of a statement before its names are looked at.
    fn early_fault(&self, line: u32, statement: Statement) -> Option<ScriptFault>
        ensures { result ≡ early_fault line self.now (said statement.entry) }
    {
        if !is_thread(statement) && self.names.threads() == 0 {
            return Some(ScriptFault {
                line,
                kind: ScriptKind::NoThread,
            });
        }
        self.block_fault(line, statement)
    }

    // The fault of a statement among the open blocks.
    fn block_fault(&self, line: u32, statement: Statement) -> Option<ScriptFault>
        ensures { result ≡ block_fault line self.now (said statement.entry) }
    {
        match statement {
            Statement::Thread(_) => self.open_fault(),
            Statement::If(_) | Statement::Repeat(_) => fault_if(
                self.blocks.len() >= MAX_DEPTH as usize,
                line,
                ScriptKind::TooDeep,
            ),
            Statement::Else => {
                let takes_else = match self.blocks.last() {
                    Some(block) => block.takes_else,
                    None => false,
                };
                fault_if(!takes_else, line, ScriptKind::StrayEnd)
            }
            Statement::End => fault_if(self.blocks.len() == 0, line, ScriptKind::StrayEnd),
            _ => None,
        }
    }
}

// The numbers of names.
impl Tables {
    // Numbers the names of a statement that are new, or answers the fault of one.
    fn number(&mut self, line: u32, statement: Statement) -> Result<(), ScriptError>
        ensures fault { (f : Fault) → result ≡ Err (ScriptError.Fault f) → names_fault line self.old (said statement.entry) ≡ Some f }
        ensures clean { OnOk result (names_fault line self.old (said statement.entry) ≡ None) }
        ensures taken { OnOk result (self.new ≡ named_after self.old (said statement.entry)) }
    {
        match statement {
            Statement::Thread(name) => self.number_thread(line, name),
            Statement::Lock(name) | Statement::Unlock(name) => self.number_lock(line, name),
            Statement::Read(name) | Statement::Write(name) | Statement::WriteNumber(name, _) => {
                self.number_variable(line, name)
            }
            _ => Ok(()),
        }
    }

    // Numbers the name of a `thread` line, which has to be new.
    fn number_thread(&mut self, line: u32, name: &[u8]) -> Result<(), ScriptError>
        ensures fault { (f : Fault) → result ≡ Err (ScriptError.Fault f) → or_else (fault_if (is_among name.now self.old.threads) line TwiceNamed) (over_fault line (Some name.now) self.old.threads MAX_THREADS) ≡ Some f }
        ensures clean { OnOk result (or_else (fault_if (is_among name.now self.old.threads) line TwiceNamed) (over_fault line (Some name.now) self.old.threads MAX_THREADS) ≡ None) }
        ensures taken { OnOk result (self.new ≡ record self.old { threads = with_optional (Some name.now) self.old.threads }) }
    {
        let threads = self.names.threads();
        if let Err(fault) = self.names.thread(name) {
            return Err(name_error(line, fault));
        }
        if self.names.threads() == threads {
            return Err(ScriptError::Fault(ScriptFault {
                line,
                kind: ScriptKind::TwiceNamed,
            }));
        }
        Ok(())
    }

    // Numbers the name of a lock where it is new.
    fn number_lock(&mut self, line: u32, name: &[u8]) -> Result<(), ScriptError>
        ensures fault { (f : Fault) → result ≡ Err (ScriptError.Fault f) → over_fault line (Some name.now) self.old.locks MAX_LOCKS ≡ Some f }
        ensures clean { OnOk result (over_fault line (Some name.now) self.old.locks MAX_LOCKS ≡ None) }
        ensures taken { OnOk result (self.new ≡ record self.old { locks = with_optional (Some name.now) self.old.locks }) }
    {
        if let Err(fault) = self.names.lock(name) {
            return Err(name_error(line, fault));
        }
        Ok(())
    }

    // Numbers the name of a variable where it is new.
    fn number_variable(&mut self, line: u32, name: &[u8]) -> Result<(), ScriptError>
        ensures fault { (f : Fault) → result ≡ Err (ScriptError.Fault f) → over_fault line (Some name.now) self.old.variables MAX_VARS ≡ Some f }
        ensures clean { OnOk result (over_fault line (Some name.now) self.old.variables MAX_VARS ≡ None) }
        ensures taken { OnOk result (self.new ≡ record self.old { variables = with_optional (Some name.now) self.old.variables }) }
    {
        if let Err(fault) = self.names.var(name) {
            return Err(name_error(line, fault));
        }
        Ok(())
    }

    /// The statement with numbers for its names; nothing where it forks or joins a thread without a body.
    pub fn resolved(&mut self, statement: Statement) -> Result<Option<Resolved>, OutOfMemory>
        requires { IsKnown self.old (said statement) }
        ensures value { IfOk result (λ o. o ≡ known_of self.old (said statement.entry)) }
        ensures same { IfOk result (λ o. IfSome o (λ _. self.new ≡ self.old)) }
    {
        let instruction = match statement {
            Statement::Thread(_) => return Ok(Some(Resolved::Thread)),
            Statement::If(n) => return Ok(Some(Resolved::If(n))),
            Statement::Else => return Ok(Some(Resolved::Else)),
            Statement::Repeat(n) => return Ok(Some(Resolved::Repeat(n))),
            Statement::End => return Ok(Some(Resolved::End)),
            Statement::Lock(name) => Instruction::Do(Op::Acquire(self.lock(name)?)),
            Statement::Unlock(name) => Instruction::Do(Op::Release(self.lock(name)?)),
            Statement::Read(name) => Instruction::Do(Op::Read(self.variable(name)?)),
            Statement::Write(name) => Instruction::Do(Op::Write(self.variable(name)?)),
            Statement::WriteNumber(name, n) => Instruction::WriteNumber(self.variable(name)?, n),
            Statement::Add(n) => Instruction::Add(n),
            Statement::Fork(name) => match self.thread(name)? {
                Some(thread) => Instruction::Do(Op::Fork(thread)),
                None => return Ok(None),
            },
            Statement::Join(name) => match self.thread(name)? {
                Some(thread) => Instruction::Do(Op::Join(thread)),
                None => return Ok(None),
            },
        };
        Ok(Some(Resolved::Act(instruction)))
    }

    // The number of a lock's name that has one.
    fn lock(&mut self, name: &[u8]) -> Result<LockId, OutOfMemory>
        requires { is_among name.now self.old.locks ≡ true }
        ensures value { IfOk result (λ id. id ≡ number_in self.old.locks name.now) }
        ensures same { OnOk result (self.new ≡ self.old) }
    {
        match self.names.lock(name) {
            Ok(lock) => Ok(lock),
            Err(NameFault::Full) => unreachable!(),
            Err(NameFault::OutOfMemory) => Err(OutOfMemory),
        }
    }

    // The number of a variable's name that has one.
    fn variable(&mut self, name: &[u8]) -> Result<VarId, OutOfMemory>
        requires { is_among name.now self.old.variables ≡ true }
        ensures value { IfOk result (λ id. id ≡ number_in self.old.variables name.now) }
        ensures same { OnOk result (self.new ≡ self.old) }
    {
        match self.names.var(name) {
            Ok(variable) => Ok(variable),
            Err(NameFault::Full) => unreachable!(),
            Err(NameFault::OutOfMemory) => Err(OutOfMemory),
        }
    }

    // The number of a thread's name, where it has one.
    fn thread(&mut self, name: &[u8]) -> Result<Option<ThreadId>, OutOfMemory>
        ensures value { IfOk result (λ o. o ≡ cond (is_among name.now self.old.threads) (Some (number_in self.old.threads name.now)) None) }
        ensures same { IfOk result (λ o. IfSome o (λ _. self.new ≡ self.old)) }
    {
        let threads = self.names.threads();
        let id = match self.names.thread(name) {
            Ok(id) => id,
            Err(NameFault::Full) => return Ok(None),
            Err(NameFault::OutOfMemory) => return Err(OutOfMemory),
        };
        if id.value() >= threads {
            return Ok(None);
        }
        Ok(Some(id))
    }
}

// Whether the statement is a `thread` line.
fn is_thread(statement: Statement) -> bool
    ensures { result ≡ not (is_none (thread_name (said statement.entry))) }
{
    matches!(statement, Statement::Thread(_))
}

// The fault where the test holds.
fn fault_if(test: bool, line: u32, kind: ScriptKind) -> Option<ScriptFault>
    ensures { result ≡ fault_if test line kind }
{
    if test {
        Some(ScriptFault { line, kind })
    } else {
        None
    }
}

// Why a name of the line got no number.
fn name_error(line: u32, fault: NameFault) -> ScriptError
    ensures { result ≡ name_error line fault }
{
    match fault {
        NameFault::Full => ScriptError::Fault(ScriptFault {
            line,
            kind: ScriptKind::TooManyNames,
        }),
        NameFault::OutOfMemory => ScriptError::OutOfMemory,
    }
}

// Opens, parts or closes a block, the innermost last.
fn open(line: u32, statement: Statement, blocks: &mut Vec<Block>) -> Result<(), AllocError>
    ensures { OnOk result (reverse blocks.new.items ≡ open_after line (said statement.entry) (reverse blocks.old.items)) }
{
    match statement {
        Statement::If(_) => blocks.push(Block {
            line,
            takes_else: true,
        })?,
        Statement::Repeat(_) => blocks.push(Block {
            line,
            takes_else: false,
        })?,
        Statement::Else => {
            if let Some(block) = blocks.pop() {
                blocks.push(Block {
                    line: block.line,
                    takes_else: false,
                })?;
            }
        }
        Statement::End => {
            let _ = blocks.pop();
        }
        _ => {}
    }
    Ok(())
}
