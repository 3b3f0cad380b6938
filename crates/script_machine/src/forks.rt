//! The forks of flattened bodies.

ghost use Rattle.std.specs.Prelude.{◌≡◌, ℕ, ◌<◌, ◌≤◌, length, map, slice_get, Some, None, Err, IfOk, OnOk, is_some};
ghost use Rattle.script_machine.specs.declared.fault.ScriptFault.{ScriptFault as Fault};
ghost use Rattle.script_machine.specs.ForkTable.{reaches, lesser, noted, lines_for, forked_by, with_fork, with_forks, table_of, is_second, second_fork};
ghost use Rattle.sp_base.specs.declared.limits.TheConstants.{MAX_THREADS};

use crate::resolved::{Resolved, ResolvedLine};
use crate::{Instruction, Line, ScriptError, ScriptFault, ScriptKind};
use sp_base::{MAX_THREADS, ThreadId};
use std::alloc::{AllocError, Global};
use trace_laws::Op;

/// The two smallest lines of the forks of a thread, where it has so many.
#[derive(Clone, Copy, Debug, PartialEq, Eq)]
pub struct ForkLines {
    pub first: Option<u32>,
    pub second: Option<u32>,
}

/// For each thread whether some body forks it, or the first fork of a thread that the bodies fork twice up to its line.
pub fn forked_once(
    alloc: Global,
    steps: &[ResolvedLine],
    bodies: &[Vec<Line>],
) -> Result<Vec<bool>, ScriptError>
    requires { length bodies.now ≤ MAX_THREADS }
    ensures once { OnOk result (second_fork (table_of (map (λ b. b.items) bodies.now)) steps.now ≡ None) }
    ensures count { IfOk result (λ v. length v.items ≡ length bodies.now) }
    ensures marks { IfOk result (λ v. (t : ℕ) → t < length bodies.now → slice_get v.items t ≡ Some (is_some (lines_for (table_of (map (λ b. b.items) bodies.now)) t).first)) }
    ensures fault { (f : Fault) → result ≡ Err (ScriptError.Fault f) → second_fork (table_of (map (λ b. b.items) bodies.now)) steps.now ≡ Some f }
{
    let table = fork_table(alloc, bodies)?;
    if let Some(fault) = second_fork(steps, table.as_slice()) {
        return Err(ScriptError::Fault(fault));
    }
    let marks = forked_marks(alloc, table.as_slice(), bodies.len())?;
    Ok(marks)
}

// For each thread the two smallest lines of its forks in the bodies.
fn fork_table(alloc: Global, bodies: &[Vec<Line>]) -> Result<Vec<ForkLines>, AllocError>
    ensures value { IfOk result (λ v. v.items ≡ table_of (map (λ b. b.items) bodies.now)) }
    ensures count { IfOk result (λ v. length v.items ≡ MAX_THREADS) }
{
    let none = ForkLines {
        first: None,
        second: None,
    };
    let mut table = vec![in alloc; none; MAX_THREADS as usize]?;
    for body in bodies {
        add_forks(body.as_slice(), table.as_mut_slice());
    }
    Ok(table)
}

// Notes the forks of a body.
fn add_forks(lines: &[Line], table: &mut [ForkLines])
    requires { length table.old ≡ MAX_THREADS }
    ensures { table.new ≡ with_forks table.old lines.now }
{
    for line in lines {
        if let Some(thread) = forked_by(&line.instruction) {
            add_fork(thread, line.number, table);
        }
    }
}

// Notes a fork of the thread.
fn add_fork(thread: ThreadId, line: u32, table: &mut [ForkLines])
    requires { length table.old ≡ MAX_THREADS }
    ensures { table.new ≡ with_fork table.old (Some thread) line }
{
    let place = thread.value() as usize;
    table[place] = noted(table[place], line);
}

// The thread that the instruction forks.
fn forked_by(instruction: &Instruction) -> Option<ThreadId>
    ensures { result ≡ forked_by instruction.now }
{
    match instruction {
        Instruction::Do(Op::Fork(thread)) => Some(*thread),
        _ => None,
    }
}

// The two smallest lines with one more.
fn noted(seen: ForkLines, line: u32) -> ForkLines
    ensures { result ≡ noted seen line }
{
    if reaches(seen.first, line) {
        return ForkLines {
            first: seen.first,
            second: Some(lesser(seen.second, line)),
        };
    }
    ForkLines {
        first: Some(line),
        second: seen.first,
    }
}

// Whether there is a line, and it comes no later than the limit.
fn reaches(line: Option<u32>, limit: u32) -> bool
    ensures { result ≡ reaches line limit }
{
    match line {
        Some(line) => line <= limit,
        None => false,
    }
}

// The lesser of a line that may be there and one that is.
fn lesser(other: Option<u32>, line: u32) -> u32
    ensures { result ≡ lesser other line }
{
    match other {
        Some(other) => { if other <= line { other } else { line } }
        None => line,
    }
}

// The first fork of a thread that the bodies fork twice up to its line.
fn second_fork(steps: &[ResolvedLine], table: &[ForkLines]) -> Option<ScriptFault>
    requires { length table.now ≡ MAX_THREADS }
    ensures { result ≡ second_fork table.now steps.now }
{
    for step in steps {
        if is_second(step, table) {
            return Some(ScriptFault {
                line: step.line,
                kind: ScriptKind::ForkedTwice,
            });
        }
    }
    None
}

// Whether the statement forks a thread whose second smallest line it reaches.
fn is_second(step: &ResolvedLine, table: &[ForkLines]) -> bool
    requires { length table.now ≡ MAX_THREADS }
    ensures { result ≡ is_second table.now step.now.line step.now.says }
{
    match &step.says {
        Resolved::Act(Instruction::Do(Op::Fork(thread))) => {
            let lines = table[thread.value() as usize];
            reaches(lines.second, step.line)
        }
        _ => false,
    }
}

// For each thread whether some body forks it.
fn forked_marks(alloc: Global, table: &[ForkLines], threads: usize) -> Result<Vec<bool>, AllocError>
    requires { threads ≤ length table.now }
    ensures count { IfOk result (λ v. length v.items ≡ threads) }
    ensures marks { IfOk result (λ v. (t : ℕ) → t < threads → slice_get v.items t ≡ Some (is_some (lines_for table.now t).first)) }
{
    let mut marks = Vec::new(alloc);
    for thread in 0..threads {
        let lines = table[thread];
        marks.push(lines.first.is_some())?;
    }
    Ok(marks)
}
