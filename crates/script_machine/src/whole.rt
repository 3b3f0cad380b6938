//! The threads of a script text, one after the other: their sizes and their flattened bodies.

ghost use Rattle.std.specs.Prelude.{◌≡◌, ◌≤◌, length, map, Some, None, Err, IfOk, OnOk, sum_by};
ghost use Rattle.script_machine.specs.declared.fault.ScriptFault.{ScriptFault as Fault};
ghost use Rattle.script_machine.specs.BodyAt.{IsSizeFault, AreBodies};

use crate::flatten::body;
use crate::resolved::ResolvedLine;
use crate::{Line, ScriptError, ScriptFault, ScriptKind};
use sp_base::MAX_INSTRUCTIONS;
use std::alloc::{AllocError, Global};

/// The flattened bodies, or the fault of the first thread with whose body the size passes the limit.
/// The sizes are added up before anything is written out.
pub fn sized_bodies(alloc: Global, steps: &[ResolvedLine]) -> Result<Vec<Vec<Line>>, ScriptError>
    ensures small { OnOk result (IsSizeFault steps.now None) }
    ensures ok { IfOk result (λ v. AreBodies steps.now (map (λ b. b.items) v.items)) }
    ensures fault { (f : Fault) → result ≡ Err (ScriptError.Fault f) → IsSizeFault steps.now (Some f) }
{
    if let Some(fault) = size_fault(alloc, steps)? {
        return Err(ScriptError::Fault(fault));
    }
    let bodies = flat_bodies(alloc, steps)?;
    Ok(bodies)
}

// The first thread with whose body the size passes the limit. Nothing is written out.
fn size_fault(alloc: Global, steps: &[ResolvedLine]) -> Result<Option<ScriptFault>, AllocError>
    ensures { IfOk result (λ o. IsSizeFault steps.now o) }
{
    let mut size: u64 = 0;
    let mut cursor = 0;
    while cursor < steps.len() {
        let thread = steps[cursor];
        let flat = body(alloc, steps, cursor + 1, false)?;
        size += flat.size as u64;
        if size > MAX_INSTRUCTIONS as u64 {
            return Ok(Some(ScriptFault {
                line: thread.line,
                kind: ScriptKind::TooManyInstructions,
            }));
        }
        cursor = flat.next;
    }
    Ok(None)
}

// The flattened bodies, where they are within the limit.
fn flat_bodies(alloc: Global, steps: &[ResolvedLine]) -> Result<Vec<Vec<Line>>, AllocError>
    ensures { IfOk result (λ v. AreBodies steps.now (map (λ b. b.items) v.items)) }
{
    let mut bodies = Vec::new(alloc);
    let mut cursor = 0;
    while cursor < steps.len() {
        let flat = body(alloc, steps, cursor + 1, true)?;
        cursor = flat.next;
        bodies.push(flat.lines)?;
    }
    Ok(bodies)
}

/// The lines of all bodies together.
pub fn total_size(bodies: &[Vec<Line>]) -> u32
    requires { sum_by length (map (λ b. b.items) bodies.now) ≤ MAX_INSTRUCTIONS }
    ensures { result ≡ sum_by length (map (λ b. b.items) bodies.now) }
{
    let mut total = 0;
    let mut place = 0;
    while place < bodies.len() {
        total += bodies[place].len();
        place += 1;
    }
    total as u32
}
