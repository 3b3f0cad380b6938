// The jobs of a search.
ghost use Rattle.std.specs.Prelude.{◌≡◌, ◌≤◌, ◌+◌, ◌*◌, length, map, IfOk};
ghost use Rattle.pattern_walk.specs.Cycles.{classes_of};
ghost use Rattle.shard_pool.specs.Shares.{AreAnswers};
ghost use Rattle.predictor.specs.declared.cut.TheConstants.{MAX_RANGES};
ghost use Rattle.predictor.specs.Parts.{IsPartOfJob};
ghost use Rattle.predictor.specs.Searches.{AreRaces, AreRanked, AreDeadlocks};

use crate::cut::{Border, cut};
use crate::deadlocks::find_deadlocks;
use crate::joined::join_parts;
use crate::part::Part;
use crate::races::find_races;
use lock_graph::Classes;
use pattern_walk::Patterns;
use shard_pool::Job;
use sp_base::{Gate, OutOfMemory};
use std::alloc::Global;
use std::marker::Model;
use trace_laws::Findings;

/// A search that is cut into jobs: each searches the variables or the patterns between two borders.
///
/// Contracts see the trace with its classes, the patterns and the borders.
#[derive(Drop)]
pub struct Search<'i, 'g, G> {
    alloc: Global,
    classes: Classes<'i>,
    patterns: Patterns,
    borders: Vec<Border>,
    gate: &'g G,
}

impl<'i, 'g, G> Model for Search<'i, 'g, G> {
    ghost use Rattle.predictor.specs.Jobs.{CutSearch, IsCutSearch};

    ghost Value = { CutSearch };

    ghost view = { λ s. record { graph = s.classes; listed = s.patterns; borders = s.borders.items } };

    ghost invariant = { λ s. IsCutSearch s.classes s.patterns s.borders.items };
}

impl<'i, 'g, G: Gate> Search<'i, 'g, G> {
    /// The search of the trace of classes for races, and of its patterns for deadlocks. The only error is want of memory.
    pub fn new(
        alloc: Global,
        classes: Classes<'i>,
        patterns: Patterns,
        gate: &'g G,
    ) -> Result<Search<'i, 'g, G>, OutOfMemory>
        requires { AreRanked classes patterns }
        ensures classes { IfOk result (λ search. search.graph ≡ classes.entry) }
        ensures patterns { IfOk result (λ search. search.listed ≡ patterns) }
    {
        let borders = cut(alloc, classes.index(), patterns.len())?;
        Ok(Search {
            alloc,
            classes,
            patterns,
            borders,
            gate,
        })
    }

    /// How many jobs there are: one between each border and the next one, and so many at most, however many patterns there
    /// are.
    pub fn jobs(&self) -> u32
        ensures value { result + 1 ≡ length self.now.borders }
        ensures most { result ≤ 2 * MAX_RANGES }
    {
        self.borders.len() as u32 - 1
    }

    /// What the jobs find together, from what each of them finds. The only error is want of memory.
    pub fn join(&self, parts: Vec<Part>) -> Result<Findings, OutOfMemory>
        requires all { length parts.items + 1 ≡ length self.now.borders }
        requires parts { AreAnswers (IsPartOfJob self.now.graph self.now.listed self.now.borders) parts.items }
        ensures races { IfOk result (λ found. AreRaces self.now.graph.trace found.races) }
        ensures deadlocks { IfOk result (λ found. AreDeadlocks self.now.graph.trace (map (classes_of self.now.graph.classes) self.now.listed) 0 (length self.now.listed) found.deadlocks) }
    {
        join_parts(
            self.alloc,
            &self.classes,
            &self.patterns,
            &self.borders,
            parts,
        )
    }
}

impl<'i, 'g, G: Gate> Job for Search<'i, 'g, G> {
    type Answer = Part;

    ghost answers = { λ s number part. IsPartOfJob s.graph s.listed s.borders number part };

    fn answer(&self, number: u32) -> Result<Part, OutOfMemory> {
        if number >= self.jobs() {
            return Ok(Part::empty(self.alloc));
        }
        self.gate.job(number);
        let from = self.borders[number as usize];
        let to = self.borders[number as usize + 1];
        let races = find_races(self.alloc, self.classes.index(), from.variable, to.variable)?;
        let deadlocks = find_deadlocks(
            self.alloc,
            &self.classes,
            &self.patterns,
            from.pattern,
            to.pattern,
        )?;
        Ok(Part { races, deadlocks })
    }
}
