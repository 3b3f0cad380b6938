//! A script, read from its text.

ghost use Rattle.std.specs.Prelude.{◌≡◌, ◌<◌, ◌^◌, length, All, Err, IfOk};
ghost use Rattle.script_machine.specs.ScriptText.{Scripts, FirstFault};
ghost use Rattle.script_machine.specs.declared.fault.ScriptFault.{ScriptFault as Fault};
ghost use Rattle.script_machine.specs.Machine.{body, is_forked, size_of, InRange};
ghost use Rattle.script_machine.specs.ScriptBounds.{IsScript};

use crate::forks::forked_once;
use crate::resolved::resolved_lines;
use crate::whole::{sized_bodies, total_size};
use crate::{Line, ScriptError};
use sp_base::ThreadId;
use std::alloc::Global;
use std::marker::Model;
use trace_laws::Names;

/// A script: the flattened body of each thread, and the names of threads, locks and variables.
#[derive(Drop)]
pub struct Script {
    bodies: Vec<Vec<Line>>,
    forked: Vec<bool>,
    names: Names,
    size: u32,
}

impl Model for Script {
    ghost use Rattle.script_machine.specs.Machine.{Script};

    ghost Value = { Script };

    ghost use Rattle.script_machine.specs.Kept.{script_of, IsKeptScript};

    ghost view = { script_of };

    ghost invariant = { IsKeptScript };
}

impl Script {
    /// The script of a text, or its first fault: lines are read in order, and what only the whole text shows is looked for after the last one.
    /// A fault has the number of its line, from 1. The sizes are added up before a body is written out, and none is where they pass the limit.
    pub fn read(alloc: Global, text: &[u8]) -> Result<Script, ScriptError>
        requires { length text.now < 2 ^ 32 }
        ensures ok { IfOk result (λ s. Scripts text.now s) }
        ensures fault { (f : Fault) → result ≡ Err (ScriptError.Fault f) → FirstFault text.now f }
    {
        let (steps, names) = resolved_lines(alloc, text)?;
        let bodies = sized_bodies(alloc, steps.as_slice())?;
        let forked = forked_once(alloc, steps.as_slice(), bodies.as_slice())?;
        let size = total_size(bodies.as_slice());
        Ok(Script {
            bodies,
            forked,
            names,
            size,
        })
    }

    /// How many threads there are. They are numbered by their `thread` lines.
    pub fn threads(&self) -> u16
        ensures value { result ≡ length self.now.bodies }
        ensures script { IsScript self.now }
    {
        self.bodies.len() as u16
    }

    /// How many instructions all threads have together.
    pub fn size(&self) -> u32
        ensures value { result ≡ size_of self.now }
        ensures script { IsScript self.now }
    {
        self.size
    }

    /// How many locks the text names.
    pub fn locks(&self) -> u32
        ensures value { result ≡ self.now.locks }
        ensures script { IsScript self.now }
    {
        self.names.locks()
    }

    /// How many variables the text names.
    pub fn variables(&self) -> u32
        ensures value { result ≡ self.now.variables }
        ensures script { IsScript self.now }
    {
        self.names.vars()
    }

    /// The names: threads in the order of their `thread` lines, locks and variables in that of their first appearance.
    pub fn names(&self) -> &Names
        ensures value { result.now ≡ self.now.names }
        ensures threads { length result.now.threads ≡ length self.now.bodies }
        ensures locks { length result.now.locks ≡ self.now.locks }
        ensures variables { length result.now.vars ≡ self.now.variables }
    {
        &self.names
    }

    // The flattened body of a thread.
    pub(crate) fn lines(&self, thread: ThreadId) -> &[Line]
        requires { thread < length self.now.bodies }
        ensures value { result.now ≡ body self.now thread }
        ensures operands { All (λ line. InRange self.now line.instruction) result.now }
    {
        self.bodies[thread.value() as usize].as_slice()
    }

    // Whether some body forks the thread.
    pub(crate) fn is_forked(&self, thread: ThreadId) -> bool
        requires { thread < length self.now.bodies }
        ensures { result ≡ is_forked self.now thread }
    {
        self.forked[thread.value() as usize]
    }
}
