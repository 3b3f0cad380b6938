// Numbers of sets of locks.
ghost use Rattle.std.specs.Prelude.{ℕ, ◌≡◌, ◌<◌, ◌≤◌, ◌+◌, [], length, slice_get, Some, IfOk};
ghost use Rattle.trace_index.specs.HeldSets.{AreAllDistinct, KeepNumbers};

use indexmap::IndexSet;
use sp_base::OutOfMemory;
use std::alloc::Global;
use std::marker::Model;

/// Distinct sets of locks, numbered from 0 in the order in which they first come.
///
/// Contracts see the list of the sets, each the list of its locks.
#[derive(Drop)]
pub struct SetNumbers {
    alloc: Global,
    sets: IndexSet<Vec<u32>>,
}

impl Model for SetNumbers {
    ghost use Rattle.std.specs.Prelude.{List, ℕ, map};

    ghost Value = { List (List ℕ) };

    ghost view = { λ s. map (λ set. set.items) s.sets.keys };
}

impl SetNumbers {
    /// No sets.
    pub fn new(alloc: Global) -> SetNumbers
        ensures { result ≡ [] }
    {
        SetNumbers {
            alloc,
            sets: IndexSet::new(alloc),
        }
    }

    /// The set of a number.
    pub fn set(&self, number: usize) -> &[u32]
        requires { number < length self.now }
        ensures { slice_get self.now number ≡ Some result.now }
    {
        self.sets.get_index(number).unwrap()
    }

    /// The number of a set. A new set gets the next one.
    pub fn number(&mut self, set: &[u32]) -> Result<usize, OutOfMemory>
        requires { AreAllDistinct self.old }
        ensures number { IfOk result (λ n. slice_get self.new n ≡ Some set.now) }
        ensures distinct { AreAllDistinct self.new }
        ensures kept { KeepNumbers self.old self.new }
        ensures next { IfOk result (λ n. n ≤ length self.old) }
        ensures size { IfOk result (λ n. n < length self.old → length self.new ≡ length self.old) }
        ensures more { IfOk result (λ n. n ≡ length self.old → length self.new ≡ length self.old + 1) }
    {
        if let Some(number) = self.sets.get_index_of(set) {
            return Ok(number);
        }
        let number = self.sets.len();
        let owned = Vec::from_slice(self.alloc, set)?;
        let Ok(_) = self.sets.insert(owned) else {
            return Err(OutOfMemory);
        };
        Ok(number)
    }
}
