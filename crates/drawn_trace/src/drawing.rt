//! The turns of a drawing.

ghost use Rattle.std.specs.Prelude.{◌≡◌, ◌<◌};
ghost use Rattle.sp_base.specs.declared.limits.TheConstants.{MAX_EVENTS};
ghost use Rattle.drawn_trace.specs.Drawn.{first_state, held_by, turn, words};

use crate::held::{Held, choose};
use crate::numbers::{THREADS, thread_of};
use rand_core::utils::NextWord;
use rand_pcg::Lcg64Xsh32;
use sp_base::ThreadId;
use std::marker::Model;
use trace_laws::Event;

/// The words of one turn.
#[derive(Clone, Copy)]
pub(crate) struct Words {
    /// The word of the thread.
    pub(crate) thread: u32,
    /// The word of the action.
    pub(crate) action: u32,
    /// The word of the lock or the variable.
    pub(crate) object: u32,
}

/// A trace that is drawn event by event.
///
/// Contracts see the generator, what each thread holds and the place of the next event.
#[derive(Drop)]
pub(crate) struct Drawing {
    generator: Lcg64Xsh32,
    held: [Held; THREADS],
    place: u32,
}

impl Model for Drawing {
    ghost use Rattle.drawn_trace.specs.Drawn.{DrawingState};

    ghost Value = { DrawingState };

    ghost view = { λ d. record { generator = d.generator; held = d.held; place = d.place } };
}

// The words of the next turn.
#[tactic(auto, unfolding(crate::specs::Drawn::words))]
fn draw_words(generator: &mut Lcg64Xsh32) -> Words
    ensures words { result ≡ (words generator.old).0 }
    ensures generator { generator.new ≡ (words generator.old).1 }
{
    let thread = generator.next_word();
    let action = generator.next_word();
    let object = generator.next_word();
    Words {
        thread,
        action,
        object,
    }
}

impl Drawing {
    /// Before the first turn.
    pub(crate) fn new(seed: u64) -> Drawing
        ensures { result ≡ first_state seed }
    {
        Drawing {
            generator: Lcg64Xsh32::new(seed, 1),
            held: [Held::Nothing; THREADS],
            place: 0,
        }
    }

    // What the thread holds.
    fn held_by(&self, thread: ThreadId) -> Held
        requires { thread < THREADS }
        ensures { result ≡ held_by self.now.held thread }
    {
        self.held[thread.value() as usize]
    }

    /// The event of the next turn.
    #[tactic(auto, unfolding(crate::specs::Drawn::turn))]
    pub(crate) fn turn(&mut self) -> Event
        requires { self.old.place < MAX_EVENTS }
        ensures event { result ≡ (turn self.old).0 }
        ensures state { self.new ≡ (turn self.old).1 }
    {
        let words = draw_words(&mut self.generator);
        let thread = thread_of(words.thread);
        let own = self.held_by(thread);
        let op = choose(&self.held, &own, words.action % 8, words.object);
        self.held[thread.value() as usize] = own.after(&op);
        let loc = self.place;
        self.place += 1;
        Event { thread, op, loc }
    }
}
