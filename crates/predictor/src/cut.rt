// Where a search is cut into jobs. How it is cut has no part in what is found, and does not depend on the number of workers.
ghost use Rattle.std.specs.Prelude.{ℕ, ◌≡◌, ◌<◌, ◌≤◌, ◌+◌, ◌-◌, ◌*◌, ◌++◌, [], ◌∷◌, length, Contains, IfOk, OnOk};
ghost use Rattle.sp_base.specs.declared.limits.TheConstants.{MAX_VARS, MAX_PATTERNS};
ghost use Rattle.predictor.specs.declared.cut.TheConstants.{MAX_RANGES};
ghost use Rattle.predictor.specs.Borders.{Rise, AreBorders, AreOfOneSort, MayEndWith, VariablesComeFirst, border, EndAt};

use sp_base::{MAX_PATTERNS, MAX_THREADS, MAX_VARS, OutOfMemory, VarId};
use std::alloc::Global;
use trace_index::Index;
use trace_laws::Trace;

/// The most ranges of variables, and the most ranges of patterns.
pub const MAX_RANGES: u32 = 32;

/// Into how many shares the cost of all variables is divided. A range of variables has at most one share, or is one variable
/// alone.
const SHARES: u64 = 16;

/// A border between two jobs: the number of the first variable behind it, and that of the first pattern.
#[derive(Clone, Copy, Debug, PartialEq, Eq)]
pub struct Border {
    pub variable: u32,
    pub pattern: u32,
}

// By how many threads there are places of the list.
fn threads_at(trace: &Trace, places: &[u32]) -> u64
    requires { (p : ℕ) → Contains places.now p → p < length trace.now.events }
{
    let mut seen = [false; MAX_THREADS as usize];
    let mut threads: u64 = 0;
    for &place in places {
        let thread = trace.event(place).thread.value() as usize;
        if !seen[thread] {
            seen[thread] = true;
            threads = threads.saturating_add(1);
        }
    }
    threads
}

// What the search of a variable costs, about: each of its accesses is held against those of each thread.
fn cost_of(index: &Index<'_>, variable: u32) -> u64 {
    let Some(var) = VarId::new(variable) else {
        return 0;
    };
    let places = index.accesses(var);
    threads_at(index.trace(), places).saturating_mul(places.len() as u64)
}

// What a range of variables costs at most, where it has more than one variable.
fn share_of(index: &Index<'_>) -> u64 {
    let mut cost: u64 = 0;
    for variable in 0..MAX_VARS {
        cost = cost.saturating_add(cost_of(index, variable));
    }
    cost.div_ceil(SHARES)
}

// Adds a border.
fn add(borders: &mut Vec<Border>, variable: u32, pattern: u32) -> Result<(), OutOfMemory>
    ensures { OnOk result (borders.new.items ≡ borders.old.items ++ border variable pattern ∷ []) }
{
    let Ok(()) = borders.push(Border { variable, pattern }) else {
        return Err(OutOfMemory);
    };
    Ok(())
}

// Whether a range of variables or of patterns ends before the next one, which would bring what it has above the share.
fn ends_before(range: u64, more: u64, share: u64) -> bool {
    range > 0 && more > 0 && range.saturating_add(more) > share
}

// Adds a border, where the range before it ends there and there are fewer borders than so many. Answers how much the range of
// what stands next behind the border has up to it.
fn add_before(
    borders: &mut Vec<Border>,
    border: Border,
    most: usize,
    range: u64,
    more: u64,
    share: u64,
) -> Result<u64, OutOfMemory>
    requires few { length borders.old.items ≤ most }
    ensures added { IfOk result (λ _. MayEndWith border borders.old.items borders.new.items) }
    ensures few { IfOk result (λ _. length borders.new.items ≤ most) }
{
    if borders.len() < most && ends_before(range, more, share) {
        add(borders, border.variable, border.pattern)?;
        return Ok(more);
    }
    Ok(range.saturating_add(more))
}

// The borders of the ranges of variables. Each range has accesses, where the trace has any.
fn cut_variables(alloc: Global, index: &Index<'_>) -> Result<Vec<Border>, OutOfMemory>
    ensures rise { IfOk result (λ borders. Rise MAX_VARS 0 borders.items) }
    ensures end { IfOk result (λ borders. EndAt MAX_VARS 0 borders.items) }
    ensures some { IfOk result (λ borders. 1 ≤ length borders.items) }
    ensures few { IfOk result (λ borders. length borders.items ≤ MAX_RANGES + 1) }
{
    let share = share_of(index);
    let mut borders = Vec::new(alloc);
    add(&mut borders, 0, 0)?;
    let mut cost = 0;
    for variable in 0..MAX_VARS {
        let border = Border {
            variable,
            pattern: 0,
        };
        let more = cost_of(index, variable);
        cost = add_before(&mut borders, border, MAX_RANGES as usize, cost, more, share)?;
    }
    add(&mut borders, MAX_VARS, 0)?;
    Ok(borders)
}

// Adds the borders of ranges of so many patterns, of which only the last may be shorter. The jobs so far are those of
// variables.
fn cut_patterns(borders: &mut Vec<Border>, patterns: u32) -> Result<(), OutOfMemory>
    requires few { patterns ≤ MAX_PATTERNS }
    requires rise { Rise MAX_VARS 0 borders.old.items }
    requires end { EndAt MAX_VARS 0 borders.old.items }
    requires some { 1 ≤ length borders.old.items }
    requires room { length borders.old.items ≤ MAX_RANGES + 1 }
    ensures rise { OnOk result (Rise MAX_VARS patterns borders.new.items) }
    ensures end { OnOk result (EndAt MAX_VARS patterns borders.new.items) }
    ensures sorts { OnOk result (VariablesComeFirst MAX_VARS (length borders.old.items - 1) borders.new.items) }
    ensures few { OnOk result (length borders.new.items ≤ length borders.old.items + MAX_RANGES) }
{
    if patterns == 0 {
        return Ok(());
    }
    let most = borders.len() + MAX_RANGES as usize - 1;
    let share = u64::from(patterns.div_ceil(MAX_RANGES));
    let mut range = 0;
    for pattern in 0..patterns {
        let border = Border {
            variable: MAX_VARS,
            pattern,
        };
        range = add_before(borders, border, most, range, 1, share)?;
    }
    add(borders, MAX_VARS, patterns)?;
    Ok(())
}

/// The borders of the jobs of a search: job `n` lies between border `n` and the next one.
///
/// Each job has variables alone or patterns alone. Those of variables have the lowest numbers, and there are at most
/// `MAX_RANGES` of each sort, however many patterns there are. The only error is want of memory.
pub fn cut(alloc: Global, index: &Index<'_>, patterns: u32) -> Result<Vec<Border>, OutOfMemory>
    requires { patterns ≤ MAX_PATTERNS }
    ensures borders { IfOk result (λ borders. AreBorders MAX_VARS patterns borders.items) }
    ensures sorts { IfOk result (λ borders. AreOfOneSort MAX_VARS MAX_RANGES borders.items) }
    ensures few { IfOk result (λ borders. length borders.items ≤ 2 * MAX_RANGES + 1) }
{
    let mut borders = cut_variables(alloc, index)?;
    cut_patterns(&mut borders, patterns)?;
    Ok(borders)
}
