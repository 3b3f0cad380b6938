//! Ranks of locks, which tell those apart that no pattern has in one cycle.

ghost use Rattle.std.specs.Prelude.{◌≡◌, ◌<◌, ◌≤◌, ◌↔◌, ℕ, length, slice_index, Contains, IfOk, IsTrue};
ghost use Rattle.lock_graph.specs.Classes.{HaveLocksBelow};
ghost use Rattle.lock_graph.specs.Ranks.{AreRanks, DoRanksFall};

use crate::classes::Classes;
use crate::components::rank_components;
use sp_base::{LockId, OutOfMemory};
use std::alloc::Global;
use std::marker::Model;

/// A rank for each lock of classes, such that no class takes a lock of a greater rank than one that it holds. So in a cycle
/// of classes, each of which holds the lock of the one before it, all locks have one rank.
///
/// Contracts see the list of the ranks.
#[derive(Drop)]
pub struct Ranks {
    ranks: Vec<usize>,
}

impl Model for Ranks {
    ghost use Rattle.std.specs.Prelude.{List, ℕ};

    ghost Value = { List ℕ };

    ghost view = { λ r. r.ranks.items };
}

// Whether a lock has no greater rank than each of some others.
fn is_least(ranks: &[usize], lock: u32, others: &[u32]) -> bool
    requires lock { lock < length ranks.now }
    requires others { (h : ℕ) → Contains others.now h → h < length ranks.now }
    ensures { IsTrue result → (h : ℕ) → Contains others.now h → slice_index ranks.now lock ≤ slice_index ranks.now h }
{
    for &other in others {
        if ranks[other as usize] < ranks[lock as usize] {
            return false;
        }
    }
    true
}

// Whether no class takes a lock of a greater rank than one that it holds.
fn do_fall(classes: &Classes<'_>, ranks: &[usize]) -> bool
    requires { HaveLocksBelow classes.now.classes (length ranks.now) }
    ensures { IsTrue result → DoRanksFall classes.now.classes ranks.now }
{
    for class in 0..classes.len() {
        if !is_least(ranks, classes.lock(class).value(), classes.held(class)) {
            return false;
        }
    }
    true
}

impl Ranks {
    /// The ranks of the locks of classes: those of one strong component of the lock graph have one rank, and others have
    /// others. The contract says only what follows for cycles. The only error is want of memory.
    pub fn new(alloc: Global, classes: &Classes<'_>) -> Result<Ranks, OutOfMemory>
        ensures { IfOk result (AreRanks classes.now.classes) }
    {
        let ranks = rank_components(alloc, classes)?;
        if do_fall(classes, &ranks) {
            return Ok(Ranks { ranks });
        }
        // This never happens; with equal ranks nothing is told apart.
        let ranks = vec![in alloc; 0; ranks.len()]?;
        Ok(Ranks { ranks })
    }

    /// Whether two locks have one rank. Both are locks of the classes.
    pub fn are_same(&self, a: u32, b: u32) -> bool
        requires a { a < length self.now }
        requires b { b < length self.now }
        ensures { IsTrue result ↔ (slice_index self.now a ≡ slice_index self.now b) }
    {
        self.ranks[a as usize] == self.ranks[b as usize]
    }
}
