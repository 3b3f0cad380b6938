//! The board, on which threads say that they cannot step.

ghost use Rattle.std.specs.Prelude.{◌≡◌, ◌+◌, ◌%◌, ◌^◌, ◌⊎◌, ◌↔◌, None, IfOk, IfSome, IfNone, IsSome, IsTrue, length, unwrap_or, vec_len};
ghost use Rattle.recorder.specs.Boards.{EachStands, HasNone, IsAdded, IsSeen};

use sp_base::{MAX_THREADS, OutOfMemory, ThreadId};
use std::alloc::Global;
use std::marker::Model;

/// The end of a recording, as `Board::blocked` declares it. Nothing else makes one. Contracts see the number at which the
/// end was declared.
#[derive(Drop, Debug)]
pub struct Standstill {
    number: u32,
}

impl Model for Standstill {
    ghost use Rattle.std.specs.Prelude.{ℕ};

    ghost Value = { ℕ };

    ghost view = { λ s. s.number };

    ghost inverse = { λ n. record { number = n } };
}

impl Standstill {
    /// The number at which the end was declared.
    pub fn number(&self) -> u32
        ensures { result ≡ self.now }
    {
        self.number
    }
}

/// Which threads have started, which have ended, and which stand at the number: they found no step when that was the
/// number. The number rises with each granted call, modulo 2 ^ 32. Where all stand, the end is declared.
///
/// Contracts see what it shows: a list of threads for each of the three, the number, and the number at which the end was
/// declared, where it was. No call but `new` takes memory.
#[derive(Drop)]
pub struct Board {
    started: Vec<bool>,
    ended: Vec<bool>,
    stands: Vec<bool>,
    number: u32,
    declared: Option<u32>,
}

impl Model for Board {
    ghost use Rattle.recorder.specs.Boards.{Shown};

    ghost Value = { Shown };

    ghost use Rattle.recorder.specs.BoardLists.{shown, HasRoom};

    ghost view = { shown };

    ghost invariant = { HasRoom };
}

// The list of no thread, with room for `MAX_THREADS`.
fn none(alloc: Global) -> Result<Vec<bool>, OutOfMemory>
    ensures none { IfOk result (λ marks. HasNone marks.items) }
    ensures room { IfOk result (λ marks. vec_len marks ≡ MAX_THREADS) }
{
    let marks = vec![in alloc; false; MAX_THREADS as usize]?;
    Ok(marks)
}

// Adds the thread to the list.
fn add(marks: &mut [bool], thread: ThreadId)
    requires { length marks.old ≡ MAX_THREADS }
    ensures { IsAdded marks.old thread marks.new }
{
    marks[thread.value() as usize] = true;
}

impl Board {
    /// A board for `MAX_THREADS` threads: none has started, none has ended, none stands, the number is 0, and the end is not
    /// declared. Its only error is want of memory.
    pub fn new(alloc: Global) -> Result<Board, OutOfMemory>
        ensures started { IfOk result (λ b. HasNone b.started) }
        ensures ended { IfOk result (λ b. HasNone b.ended) }
        ensures stands { IfOk result (λ b. HasNone b.stands) }
        ensures number { IfOk result (λ b. b.number ≡ 0) }
        ensures declared { IfOk result (λ b. b.declared ≡ None) }
    {
        Ok(Board {
            started: none(alloc)?,
            ended: none(alloc)?,
            stands: none(alloc)?,
            number: 0,
            declared: None,
        })
    }

    /// The number, which a thread reads before it tries a call.
    pub fn number(&self) -> u32
        ensures { result ≡ self.now.number }
    {
        self.number
    }

    /// The thread counts as started. Nothing else changes.
    pub fn start(&mut self, thread: ThreadId)
        ensures started { IsAdded self.old.started thread self.new.started }
        ensures rest { self.new ≡ record self.old { started = self.new.started } }
    {
        add(&mut self.started, thread);
    }

    /// The thread counts as ended. Nothing else changes.
    pub fn end(&mut self, thread: ThreadId)
        ensures ended { IsAdded self.old.ended thread self.new.ended }
        ensures rest { self.new ≡ record self.old { ended = self.new.ended } }
    {
        add(&mut self.ended, thread);
    }

    /// A call was granted: the number rises by one, from its greatest value to 0, and no thread stands any longer. Nothing
    /// else changes.
    pub fn granted(&mut self)
        ensures number { self.new.number ≡ (self.old.number + 1) % 2 ^ 32 }
        ensures stands { HasNone self.new.stands }
        ensures rest { self.new ≡ record self.old { number = self.new.number; stands = self.new.stands } }
    {
        self.number = self.number.wrapping_add(1);
        self.stands.fill(false);
    }

    /// The thread, which read the number `seen` before, found no step. It counts as started, and where `seen` is still the
    /// number, it stands from now on.
    ///
    /// None exactly where the end was not declared and a thread that has started and not ended does not stand. Otherwise
    /// the end is declared, at the number of the first declaration. Nothing else changes.
    pub fn blocked(&mut self, thread: ThreadId, seen: u32) -> Option<Standstill>
        ensures started { IsAdded self.old.started thread self.new.started }
        ensures stands { IsSeen self.old thread seen self.new.stands }
        ensures some { IsSome result ↔ (IsSome self.old.declared ⊎ EachStands self.new) }
        ensures number { IfSome result (λ s. s ≡ unwrap_or self.old.declared self.old.number) }
        ensures declared { IfSome result (λ s. self.new.declared ≡ Some s) }
        ensures undeclared { IfNone result (self.new.declared ≡ None) }
        ensures rest { self.new ≡ record self.old { started = self.new.started; stands = self.new.stands; declared = self.new.declared } }
    {
        self.stand(thread, seen);
        if self.declared.is_none() && self.each_stands() {
            self.declared = Some(self.number);
        }
        match self.declared {
            Some(number) => Some(Standstill { number }),
            None => None,
        }
    }

    // The thread counts as started, and stands where it has seen the number.
    fn stand(&mut self, thread: ThreadId, seen: u32)
        ensures started { IsAdded self.old.started thread self.new.started }
        ensures stands { IsSeen self.old thread seen self.new.stands }
        ensures rest { self.new ≡ record self.old { started = self.new.started; stands = self.new.stands } }
    {
        add(&mut self.started, thread);
        if seen == self.number {
            add(&mut self.stands, thread);
        }
    }

    // Whether each thread that has started and not ended stands.
    fn each_stands(&self) -> bool
        ensures { IsTrue result ↔ EachStands self.now }
    {
        for thread in 0..MAX_THREADS as usize {
            if self.started[thread] && !self.ended[thread] && !self.stands[thread] {
                return false;
            }
        }
        true
    }
}
