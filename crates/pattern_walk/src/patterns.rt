//! The patterns of a trace.

ghost use Rattle.std.specs.Prelude.{◌≡◌, ◌<◌, ◌≤◌, ◌↔◌, length, slice_get, Some, IfOk, IsErrOf, IsTrue};
ghost use Rattle.sp_base.specs.declared.limits.TheConstants.{MIN_SIZE, MAX_SIZE, MAX_PATTERNS};
ghost use Rattle.pattern_walk.specs.Listed.{AreListedPatterns, HasMorePatterns};

use crate::walk::Walk;
use lock_graph::Classes;
use sp_base::{MIN_SIZE, OutOfMemory};
use std::alloc::Global;
use std::marker::Model;
use thiserror::Error;

/// Why patterns were not listed.
#[derive(Clone, Copy, Debug, PartialEq, Eq, Error)]
pub enum WalkFault {
    /// There are more than `MAX_PATTERNS` patterns.
    #[error("too many patterns")]
    TooManyPatterns,
    /// Memory ran out.
    #[error("out of memory")]
    OutOfMemory,
}

impl From<OutOfMemory> for WalkFault {
    ghost use Rattle.pattern_walk.specs.declared.patterns.WalkFault.TheVariants.{OutOfMemory};

    ghost from_gives = { λ _ e. e ≡ OutOfMemory };

    fn from(_fault: OutOfMemory) -> WalkFault {
        WalkFault::OutOfMemory
    }
}

/// A pattern: the numbers of its classes round the cycle, the one of the least first place first.
///
/// Contracts see the list of the numbers.
#[derive(Drop, Debug)]
pub struct Pattern {
    classes: Vec<u32>,
}

impl Model for Pattern {
    ghost use Rattle.std.specs.Prelude.{List, ℕ};

    ghost Value = { List ℕ };

    ghost view = { λ p. p.classes.items };
}

impl Pattern {
    // The pattern of classes.
    pub(crate) fn new(alloc: Global, classes: &[u32]) -> Result<Pattern, OutOfMemory>
        ensures { IfOk result (λ pattern. pattern ≡ classes.now) }
    {
        Ok(Pattern {
            classes: Vec::from_slice(alloc, classes)?,
        })
    }

    /// The numbers of the classes.
    pub fn classes(&self) -> &[u32]
        ensures { result.now ≡ self.now }
    {
        &self.classes
    }
}

/// The patterns of a trace up to a size, in their order: by size, then by the first places of their classes from left to
/// right.
///
/// Contracts see the list of the patterns, each the list of the numbers of its classes.
#[derive(Drop)]
pub struct Patterns {
    found: Vec<Pattern>,
}

impl Model for Patterns {
    ghost use Rattle.std.specs.Prelude.{List, ℕ, ◌≤◌, length};
    ghost use Rattle.sp_base.specs.declared.limits.TheConstants.{MAX_PATTERNS};

    ghost Value = { List (List ℕ) };

    ghost view = { λ p. p.found.items };

    ghost invariant = { λ p. length p.found.items ≤ MAX_PATTERNS };
}

impl Patterns {
    /// The patterns of classes up to a size from `MIN_SIZE` to `MAX_SIZE`.
    ///
    /// Fails with `TooManyPatterns` exactly where there are more than `MAX_PATTERNS`, and with `OutOfMemory` where memory runs
    /// out.
    pub fn list(alloc: Global, classes: &Classes<'_>, size: u8) -> Result<Patterns, WalkFault>
        requires least { MIN_SIZE ≤ size }
        requires most { size ≤ MAX_SIZE }
        ensures patterns { IfOk result (λ patterns. AreListedPatterns classes.now size patterns) }
        ensures few { IfOk result (λ _. HasMorePatterns classes.now.trace.events size → ⊥) }
        ensures many { IsErrOf result WalkFault.TooManyPatterns → HasMorePatterns classes.now.trace.events size }
    {
        // The classes are those of the trace, as their number says.
        let _ = classes.len();
        let walk = Walk::new(alloc, classes)?;
        let mut near = walk.near()?;
        let mut found = Vec::new(alloc);
        for length in MIN_SIZE..size + 1 {
            walk.of_size(&mut near, length, &mut found)?;
        }
        Ok(Patterns { found })
    }

    /// How many patterns there are.
    pub fn len(&self) -> u32
        ensures value { result ≡ length self.now }
        ensures few { length self.now ≤ MAX_PATTERNS }
    {
        self.found.len() as u32
    }

    /// Whether there is no pattern.
    pub fn is_empty(&self) -> bool
        ensures { IsTrue result ↔ (length self.now ≡ 0) }
    {
        self.found.is_empty()
    }

    /// The pattern of a number, which is below `len`.
    pub fn get(&self, n: u32) -> &Pattern
        requires { n < length self.now }
        ensures { slice_get self.now n ≡ Some result.now }
    {
        &self.found[n as usize]
    }
}
