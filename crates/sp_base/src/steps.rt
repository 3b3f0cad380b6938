//! A counter that only contracts read.

ghost use Rattle.std.specs.Prelude.{◌≡◌, ℕ, ◌+◌};
ghost use Rattle.std.specs.Borrow.{ftrue};

use std::marker::{Model, PhantomData};
use std::sync::ledger::Ledger;

// A number that only contracts read. It takes no bytes.
#[derive(Drop)]
struct Count {
    ghost number: { ℕ },
}

impl Model for Count {
    ghost also_owns = { λ _. ftrue };
}

impl Count {
    fn zero() -> Count
        ensures { result.number ≡ 0 }
    {
        Count {}
    }

    fn next(_count: &Count) -> Count
        ensures { result.number ≡ _count.now.number + 1 }
    {
        Count {}
    }
}

/// A counter without bytes, for the steps of one ledger. Its calls do nothing when the program runs.
///
/// Contracts see its number.
#[derive(Drop)]
pub struct Steps<L: Ledger> {
    count: Count,
    ledger: PhantomData<L>,
}

impl<L: Ledger> Model for Steps<L> {
    ghost use Rattle.std.specs.Prelude.{ℕ};

    ghost Value = { ℕ };

    ghost view = { λ s. s.count.number };
}

impl<L: Ledger> Steps<L> {
    /// A counter that has the number 0.
    pub fn new() -> Steps<L>
        ensures { result ≡ 0 }
    {
        Steps {
            count: Count::zero(),
            ledger: PhantomData,
        }
    }

    /// Adds one to the number.
    pub fn tick(&mut self)
        ensures { self.new ≡ self.old + 1 }
    {
        self.count = Count::next(&self.count);
    }
}
