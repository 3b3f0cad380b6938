//! The flattened bodies of scripts, and their sizes.

ghost use Rattle.std.specs.Prelude.{◌≡◌, ◌+◌, ◌<◌, ◌≤◌, true, ◌&&◌, nat_lt, length, slice_get, Some, [], ◌∷◌, ◌++◌, IfOk, IfSome};
ghost use Rattle.script_machine.specs.ScriptText.{line_of, times};
ghost use Rattle.script_machine.specs.BodyAt.{IsFlatOf, IsPieceOf, capped};
ghost use Rattle.script_machine.specs.declared.instruction.Instruction.TheVariants as instruction;
ghost use Rattle.script_machine.specs.declared.resolved.Resolved.TheVariants as resolved;

use crate::resolved::{Resolved, ResolvedLine, else_line, is_end};
use crate::{Instruction, Line};
use sp_base::MAX_INSTRUCTIONS;
use std::alloc::{AllocError, Global};

/// A part of a body: its size, at most one past the limit, its lines where they were asked for, and the place behind it.
#[derive(Drop)]
pub struct Flat {
    pub size: u32,
    pub lines: Vec<Line>,
    pub next: usize,
}

/// The body from a place on, up to the first statement that ends it: its size, and its lines where they are to be written.
/// Each statement is read once. It recurses once for each block that is open.
#[cycle(flatten)]
pub fn body(
    alloc: Global,
    steps: &[ResolvedLine],
    at: usize,
    write: bool,
) -> Result<Flat, AllocError>
    requires within { at ≤ length steps.now }
    ensures body { IfOk result (λ f. IsFlatOf steps.now at write f) }
    ensures onward { IfOk result (λ f. at ≤ f.next) }
    ensures inside { IfOk result (λ f. f.next ≤ length steps.now) }
{
    let mut size = 0;
    let mut lines = Vec::new(alloc);
    let mut cursor = at;
    while let Some(part) = piece(alloc, steps, cursor, write)? {
        size = capped(size as u64 + part.size as u64);
        lines.extend_from_slice(part.lines.as_slice())?;
        cursor = part.next;
    }
    Ok(Flat {
        size,
        lines,
        next: cursor,
    })
}

// The action or block at a place; nothing where none stands there.
#[cycle(flatten)]
fn piece(
    alloc: Global,
    steps: &[ResolvedLine],
    at: usize,
    write: bool,
) -> Result<Option<Flat>, AllocError>
    requires within { at ≤ length steps.now }
    ensures piece { IfOk result (λ o. IsPieceOf steps.now at write o) }
    ensures onward { IfOk result (λ o. IfSome o (λ f. at < f.next)) }
    ensures inside { IfOk result (λ o. IfSome o (λ f. f.next ≤ length steps.now)) }
{
    if at >= steps.len() {
        return Ok(None);
    }
    let first = &steps[at];
    match &first.says {
        Resolved::If(n) => choice(alloc, steps, at, first.line, *n, write),
        Resolved::Repeat(n) => repeated(alloc, steps, at, first.line, *n, write),
        Resolved::Act(instruction) => {
            let lines = single(alloc, write, *instruction, first.line)?;
            Ok(Some(Flat {
                size: 1,
                lines,
                next: at + 1,
            }))
        }
        Resolved::Thread | Resolved::Else | Resolved::End => Ok(None),
    }
}

// The `if` at a place, with its one or two blocks.
#[cycle(flatten)]
fn choice(
    alloc: Global,
    steps: &[ResolvedLine],
    at: usize,
    line: u32,
    n: u64,
    write: bool,
) -> Result<Option<Flat>, AllocError>
    requires within { at < length steps.now }
    requires opens { slice_get steps.now at ≡ Some (record { line = line; says = resolved.If n }) }
    ensures piece { IfOk result (λ o. IsPieceOf steps.now at write o) }
    ensures onward { IfOk result (λ o. IfSome o (λ f. at < f.next)) }
    ensures inside { IfOk result (λ o. IfSome o (λ f. f.next ≤ length steps.now)) }
{
    let inside = body(alloc, steps, at + 1, write)?;
    if is_end(steps, inside.next) {
        let lines = choice_lines(alloc, write, n, line, &inside)?;
        return Ok(Some(Flat {
            size: capped(1 + inside.size as u64),
            lines,
            next: inside.next + 1,
        }));
    }
    let Some(middle) = else_line(steps, inside.next) else {
        return Ok(None);
    };
    let other = body(alloc, steps, inside.next + 1, write)?;
    if !is_end(steps, other.next) {
        return Ok(None);
    }
    let lines = either_lines(alloc, write, n, line, &inside, middle, &other)?;
    Ok(Some(Flat {
        size: capped(2 + inside.size as u64 + other.size as u64),
        lines,
        next: other.next + 1,
    }))
}

// The `repeat` at a place, with its block. What stands no times is not written.
#[cycle(flatten)]
fn repeated(
    alloc: Global,
    steps: &[ResolvedLine],
    at: usize,
    line: u32,
    n: u64,
    write: bool,
) -> Result<Option<Flat>, AllocError>
    requires within { at < length steps.now }
    requires opens { slice_get steps.now at ≡ Some (record { line = line; says = resolved.Repeat n }) }
    ensures piece { IfOk result (λ o. IsPieceOf steps.now at write o) }
    ensures onward { IfOk result (λ o. IfSome o (λ f. at < f.next)) }
    ensures inside { IfOk result (λ o. IfSome o (λ f. f.next ≤ length steps.now)) }
{
    let inside = body(alloc, steps, at + 1, keeps(write, n))?;
    if !is_end(steps, inside.next) {
        return Ok(None);
    }
    let lines = copies(alloc, inside.lines.as_slice(), n)?;
    Ok(Some(Flat {
        size: capped(capped(n) as u64 * inside.size as u64),
        lines,
        next: inside.next + 1,
    }))
}

// Whether the lines of a block that stands n times are to be written.
fn keeps(write: bool, n: u64) -> bool
    ensures { result ≡ (write && nat_lt 0 n) }
{
    write && n > 0
}

// The size, or one past the limit.
fn capped(n: u64) -> u32
    ensures value { result ≡ capped n }
    ensures few { result ≤ MAX_INSTRUCTIONS + 1 }
{
    if n > MAX_INSTRUCTIONS as u64 {
        MAX_INSTRUCTIONS + 1
    } else {
        n as u32
    }
}

// A list of one line, where it is to be written.
fn single(
    alloc: Global,
    write: bool,
    instruction: Instruction,
    number: u32,
) -> Result<Vec<Line>, AllocError>
    ensures { IfOk result (λ v. write ≡ true → v.items ≡ line_of instruction number ∷ []) }
{
    let mut lines = Vec::new(alloc);
    if !write {
        return Ok(lines);
    }
    lines.push(Line {
        instruction,
        number,
    })?;
    Ok(lines)
}

// The lines of an `if` without an `else`, where they are to be written.
fn choice_lines(
    alloc: Global,
    write: bool,
    n: u64,
    number: u32,
    inside: &Flat,
) -> Result<Vec<Line>, AllocError>
    ensures { IfOk result (λ v. write ≡ true → v.items ≡ line_of (instruction.If n inside.now.size) number ∷ inside.now.lines.items) }
{
    let mut lines = single(alloc, write, Instruction::If(n, inside.size), number)?;
    if !write {
        return Ok(lines);
    }
    lines.extend_from_slice(inside.lines.as_slice())?;
    Ok(lines)
}

// The lines of an `if` with an `else`, where they are to be written.
fn either_lines(
    alloc: Global,
    write: bool,
    n: u64,
    number: u32,
    inside: &Flat,
    middle: u32,
    other: &Flat,
) -> Result<Vec<Line>, AllocError>
    ensures { IfOk result (λ v. write ≡ true → v.items ≡ ((line_of (instruction.If n (capped (inside.now.size + 1))) number ∷ inside.now.lines.items) ++ line_of (instruction.Jump other.now.size) middle ∷ []) ++ other.now.lines.items) }
{
    let over = capped(inside.size as u64 + 1);
    let mut lines = single(alloc, write, Instruction::If(n, over), number)?;
    if !write {
        return Ok(lines);
    }
    lines.extend_from_slice(inside.lines.as_slice())?;
    lines.push(Line {
        instruction: Instruction::Jump(other.size),
        number: middle,
    })?;
    lines.extend_from_slice(other.lines.as_slice())?;
    Ok(lines)
}

// The lines that many times. No lines are not copied.
fn copies(alloc: Global, lines: &[Line], n: u64) -> Result<Vec<Line>, AllocError>
    ensures { IfOk result (λ v. v.items ≡ times n lines.now) }
{
    let mut all = Vec::new(alloc);
    if lines.is_empty() {
        return Ok(all);
    }
    for _ in 0..n {
        all.extend_from_slice(lines)?;
    }
    Ok(all)
}
