//! Statements whose names have their numbers.

ghost use Rattle.std.specs.Prelude.{◌≡◌, ◌<◌, ◌^◌, length, map, Some, None, Err, IfOk, IfSome, OnOk, IsTrue, slice_get};
ghost use Rattle.script_machine.specs.Known.{AreKnown};
ghost use Rattle.script_machine.specs.Spoken.{numbered};
ghost use Rattle.script_machine.specs.Resolving.{AreResolved, IsResolvedText, unknown_in, end_at, else_at};
ghost use Rattle.script_machine.specs.ScriptText.{FirstFault};
ghost use Rattle.script_machine.specs.declared.fault.ScriptFault.{ScriptFault as Fault};

use crate::read::{NumberedStatement, read_lines};
use crate::tables::Tables;
use crate::{Instruction, ScriptError, ScriptFault, ScriptKind};
use std::alloc::Global;
use std::marker::Model;
use trace_laws::Names;

/// What a line says, with numbers in place of names.
#[derive(Clone, Copy, Debug)]
pub enum Resolved {
    Thread,
    Act(Instruction),
    If(u64),
    Else,
    Repeat(u64),
    End,
}

/// A resolved statement with the number of its line.
#[derive(Clone, Copy, Debug)]
pub struct ResolvedLine {
    pub line: u32,
    pub says: Resolved,
}

impl Model for ResolvedLine {
    ghost use Rattle.script_machine.specs.ResolvedLine.{ResolvedLine};

    ghost Value = { ResolvedLine };

    ghost view = { λ s. record { line = s.line; says = s.says } };

    ghost inverse = { λ s. record { line = s.line; says = s.says } };
}

/// The resolved lines of a text and its names, or its first fault where that needs no flattened body.
pub fn resolved_lines(alloc: Global, text: &[u8]) -> Result<(Vec<ResolvedLine>, Names), ScriptError>
    requires { length text.now < 2 ^ 32 }
    ensures ok { IfOk result (λ r. IsResolvedText text.now r.0.items r.1) }
    ensures fault { (f : Fault) → result ≡ Err (ScriptError.Fault f) → FirstFault text.now f }
{
    let (statements, mut tables) = read_lines(alloc, text)?;
    if let Some(fault) = tables.open_fault() {
        return Err(ScriptError::Fault(fault));
    }
    let lines = resolve(alloc, statements.as_slice(), &mut tables)?;
    Ok((lines, tables.into_names()))
}

// The statements with numbers for their names, or the fault of the first fork or join of a thread without a body.
fn resolve(
    alloc: Global,
    statements: &[NumberedStatement],
    tables: &mut Tables,
) -> Result<Vec<ResolvedLine>, ScriptError>
    requires { AreKnown tables.old (map numbered statements.now) }
    ensures ok { IfOk result (λ v. AreResolved tables.old (map numbered statements.now) v.items) }
    ensures known { OnOk result (unknown_in tables.old (map numbered statements.now) ≡ None) }
    ensures fault { (f : Fault) → result ≡ Err (ScriptError.Fault f) → unknown_in tables.old (map numbered statements.now) ≡ Some f }
    ensures same { OnOk result (tables.new ≡ tables.old) }
{
    let mut resolved = Vec::new(alloc);
    let mut place = 0;
    while place < statements.len() {
        let statement = statements[place];
        let Some(says) = tables.resolved(statement.says)? else {
            return Err(ScriptError::Fault(ScriptFault {
                line: statement.line,
                kind: ScriptKind::UnknownThread,
            }));
        };
        let resolved_line = ResolvedLine {
            line: statement.line,
            says,
        };
        let Ok(()) = resolved.push(resolved_line) else {
            return Err(ScriptError::OutOfMemory);
        };
        place += 1;
    }
    Ok(resolved)
}

/// Whether an `end` stands at the place.
pub fn is_end(steps: &[ResolvedLine], at: usize) -> bool
    ensures value { result ≡ end_at (slice_get steps.now at) }
    ensures inside { IsTrue result → at < length steps.now }
{
    if at >= steps.len() {
        return false;
    }
    let step = &steps[at];
    matches!(&step.says, Resolved::End)
}

/// The line of the `else` at the place.
pub fn else_line(steps: &[ResolvedLine], at: usize) -> Option<u32>
    ensures value { result ≡ else_at (slice_get steps.now at) }
    ensures inside { IfSome result (λ _. at < length steps.now) }
{
    if at >= steps.len() {
        return None;
    }
    let step = &steps[at];
    match &step.says {
        Resolved::Else => Some(step.line),
        _ => None,
    }
}
