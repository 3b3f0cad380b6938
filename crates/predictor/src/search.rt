//! What is found in a trace.

ghost use Rattle.std.specs.Prelude.{◌≡◌, ◌≤◌, length, map, IfOk, IsErrOf};
ghost use Rattle.pattern_walk.specs.Cycles.{classes_of};
ghost use Rattle.pattern_walk.specs.Listed.{AreListedPatterns, HasMorePatterns};
ghost use Rattle.predictor.specs.Predictions.{ArePredictions, HasFewPatterns};
ghost use Rattle.predictor.specs.Searches.{AreRaces, AreRanked, AreDeadlocks};

use crate::job::Search;
use lock_graph::Classes;
use pattern_walk::{Patterns, WalkFault};
use shard_pool::run_jobs;
use sp_base::{Gate, MAX_SIZE, MAX_WORKERS, MIN_SIZE, OutOfMemory};
use std::alloc::Global;
use std::marker::Sync;
use std::thread::Threads;
use thiserror::Error;
use trace_index::Index;
use trace_laws::{Findings, Trace};

/// Why the findings of a trace were not answered.
#[derive(Clone, Copy, Debug, Drop, PartialEq, Eq, Error)]
pub enum FindFault {
    /// There are more than `MAX_PATTERNS` deadlock patterns up to the size.
    #[error("too many deadlock patterns")]
    TooManyPatterns,
    /// Memory ran out.
    #[error("out of memory")]
    OutOfMemory,
}

impl From<OutOfMemory> for FindFault {
    ghost use Rattle.predictor.specs.declared.search.FindFault.TheVariants.{OutOfMemory};

    ghost from_gives = { λ _ e. e ≡ OutOfMemory };

    fn from(_fault: OutOfMemory) -> FindFault {
        FindFault::OutOfMemory
    }
}

// The patterns of classes up to a size.
fn list_patterns(alloc: Global, classes: &Classes<'_>, size: u8) -> Result<Patterns, FindFault>
    requires least { MIN_SIZE ≤ size }
    requires most { size ≤ MAX_SIZE }
    ensures listed { IfOk result (AreListedPatterns classes.now size) }
    ensures few { IfOk result (λ _. HasFewPatterns classes.now.trace.events size) }
    ensures many { IsErrOf result FindFault.TooManyPatterns → HasMorePatterns classes.now.trace.events size }
{
    match Patterns::list(alloc, classes, size) {
        Ok(patterns) => Ok(patterns),
        Err(WalkFault::TooManyPatterns) => Err(FindFault::TooManyPatterns),
        Err(WalkFault::OutOfMemory) => Err(FindFault::OutOfMemory),
    }
}

// Searches the trace of classes for races, and its patterns for deadlocks, by jobs over workers.
fn find_by_jobs<R: Threads + Sync, G: Gate + Sync>(
    rt: &R,
    alloc: Global,
    classes: Classes<'_>,
    patterns: Patterns,
    workers: u8,
    gate: &G,
) -> Result<Findings, OutOfMemory>
    requires least_workers { 1 ≤ workers }
    requires greatest_workers { workers ≤ MAX_WORKERS }
    requires ranked { AreRanked classes patterns }
    ensures races { IfOk result (λ found. AreRaces classes.entry.trace found.races) }
    ensures deadlocks { IfOk result (λ found. AreDeadlocks classes.entry.trace (map (classes_of classes.entry.classes) patterns) 0 (length patterns) found.deadlocks) }
{
    let search = Search::new(alloc, classes, patterns, gate)?;
    let parts = run_jobs(rt, alloc, search.jobs(), workers, &search)?;
    search.join(parts)
}

/// What is found in a trace: its races in the order of their later places, each with its earliest partner and its keep, and
/// then the deadlocks of its patterns of at most that size, in the order of the patterns, each with its keep.
///
/// The workers and the gate have no part in the answer. The search is cut into at most 64 jobs, and the gate is called as each
/// begins. Those that search variables have the lowest numbers: there are two at least, where two variables are accessed.
///
/// Fails with `TooManyPatterns` exactly where there are more than `MAX_PATTERNS` patterns, and with `OutOfMemory` where
/// memory runs out.
pub fn find<R: Threads + Sync, G: Gate + Sync>(
    rt: &R,
    alloc: Global,
    trace: &Trace,
    size: u8,
    workers: u8,
    gate: &G,
) -> Result<Findings, FindFault>
    requires least_size { MIN_SIZE ≤ size }
    requires greatest_size { size ≤ MAX_SIZE }
    requires least_workers { 1 ≤ workers }
    requires greatest_workers { workers ≤ MAX_WORKERS }
    ensures found { IfOk result (ArePredictions trace.now size) }
    ensures few { IfOk result (λ _. HasFewPatterns trace.now.events size) }
    ensures many { IsErrOf result FindFault.TooManyPatterns → HasMorePatterns trace.now.events size }
{
    let index = Index::build(alloc, trace)?;
    let classes = Classes::build(alloc, &index)?;
    let patterns = list_patterns(alloc, &classes, size)?;
    // The trace is lawful, as the number of its classes says.
    let _ = classes.len();
    Ok(find_by_jobs(rt, alloc, classes, patterns, workers, gate)?)
}
