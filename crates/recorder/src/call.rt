//! Calls: how a thread makes its next step.

ghost use Rattle.std.specs.Prelude.{◌≡◌, MatchOption};
ghost use Rattle.recorder.specs.Called.{Called, Turned};

use crate::{Manager, Pass, Standstill};
use row_locks::Grant;
use sp_base::{Gate, ThreadId};
use std::sync::Wait;
use std::thread::Threads;
use trace_laws::Event;

/// What a call came to.
#[derive(Drop, Debug)]
pub enum Call {
    /// The thread has made its next step, which is this event.
    Done(Event),
    /// The thread has ended.
    Ended,
    /// The thread cannot step, and the board has declared the end.
    Parked(Standstill),
}

impl<'a> Manager<'a> {
    ghost use Rattle.recorder.specs.Passes.{manager_script, pass_thread, pass_granted, IsPassOf};

    /// Makes the next step of the pass's thread, as soon as it can step. The pass is of this manager, and stays so.
    ///
    /// The call begins with `Gate::before`, and counts its thread as started. It then goes on in turns. In a turn it reads
    /// the board's number and asks for the step with the state of the lock, which it gives back. `Gate::inside` is called
    /// while it has taken the state. Where the step was made it raises the number, wakes all that sleep, and answers
    /// `Done`, which counts as one more granted call. Where the thread has ended it tells the board, wakes all that sleep,
    /// and answers `Ended`. Otherwise it tells the board that the thread stands at the number that it read. Where the
    /// board then declares the end, or has declared it, it wakes all that sleep and answers `Parked`. Where not, it sleeps
    /// until it is woken, unless the number has risen meanwhile, and takes another turn.
    ///
    /// A step that is found after the end was declared is made all the same. `Ended` comes only where some legal run of the
    /// script has as many events of the thread as its granted calls, and the thread has ended after it. `Parked` comes only
    /// where after such a run the thread has not ended and cannot step. The call may wait for others.
    pub fn call<R: Threads + Wait + Sync, G: Gate>(
        &self,
        rt: &R,
        pass: &mut Pass<'a>,
        gate: &G,
    ) -> Call
        requires { IsPassOf self.now pass.old }
        ensures pass { IsPassOf self.now pass.new }
        ensures thread { pass_thread pass.new ≡ pass_thread pass.old }
        ensures answer { Called (manager_script self.now) (pass_thread pass.old) (pass_granted pass.old) result (pass_granted pass.new) }
    {
        gate.before(pass.thread, pass.granted);
        self.board.lock(rt).start(pass.thread);
        for _ in rt.forever() {
            if let Some(call) = self.attempt(rt, pass, gate) {
                return call;
            }
        }
        unreachable!()
    }

    // One turn of a call, and the answer, if any.
    fn attempt<R: Threads + Wait + Sync, G: Gate>(
        &self,
        rt: &R,
        pass: &mut Pass<'a>,
        gate: &G,
    ) -> Option<Call>
        requires { IsPassOf self.now pass.old }
        ensures pass { IsPassOf self.now pass.new }
        ensures thread { pass_thread pass.new ≡ pass_thread pass.old }
        ensures answer { MatchOption result (pass_granted pass.new ≡ pass_granted pass.old) (λ call. Called (manager_script self.now) (pass_thread pass.old) (pass_granted pass.old) call (pass_granted pass.new)) }
    {
        let seen = self.board.lock(rt).number();
        match self.turn(rt, pass, gate) {
            Grant::Done(event) => {
                self.tell_granted(rt);
                Some(Call::Done(event))
            }
            Grant::Ended => {
                self.tell_ended(rt, pass.thread);
                Some(Call::Ended)
            }
            Grant::Blocked => match self.stand(rt, pass.thread, seen) {
                Some(standstill) => Some(Call::Parked(standstill)),
                None => None,
            },
        }
    }

    // Asks for the next step of the pass's thread with the state of the lock. A step counts as a granted call.
    fn turn<R: Threads + Wait + Sync, G: Gate>(
        &self,
        rt: &R,
        pass: &mut Pass<'a>,
        gate: &G,
    ) -> Grant
        requires { IsPassOf self.now pass.old }
        ensures pass { IsPassOf self.now pass.new }
        ensures thread { pass_thread pass.new ≡ pass_thread pass.old }
        ensures answer { Turned (manager_script self.now) (pass_thread pass.old) (pass_granted pass.old) result (pass_granted pass.new) }
    {
        let mut state = self.lock.take(rt, &mut pass.seat);
        gate.inside(pass.thread, pass.granted);
        let grant = state.grant(pass.thread);
        self.lock.give(&mut pass.seat, state);
        match grant {
            Grant::Done(event) => {
                pass.granted += 1;
                Grant::Done(event)
            }
            Grant::Blocked => Grant::Blocked,
            Grant::Ended => Grant::Ended,
        }
    }

    // Tells the board of a granted call, and wakes all that sleep.
    fn tell_granted<R: Threads + Wait + Sync>(&self, rt: &R) {
        self.board.lock(rt).granted();
        self.woken.notify_all();
    }

    // Tells the board that the thread has ended, and wakes all that sleep.
    fn tell_ended<R: Threads + Wait + Sync>(&self, rt: &R, thread: ThreadId) {
        self.board.lock(rt).end(thread);
        self.woken.notify_all();
    }

    // Tells the board that the thread found no step, where `seen` was the number before it looked. Wakes all that sleep
    // where that is the end. Otherwise it sleeps, unless a call was granted meanwhile: the board stays locked from the
    // question to the sleep, so that no waking is lost.
    fn stand<R: Threads + Wait + Sync>(
        &self,
        rt: &R,
        thread: ThreadId,
        seen: u32,
    ) -> Option<Standstill> {
        let mut board = self.board.lock(rt);
        if let Some(standstill) = board.blocked(thread, seen) {
            drop(board);
            self.woken.notify_all();
            return Some(standstill);
        }
        if board.number() == seen {
            drop(self.woken.wait(rt, board));
        }
        None
    }
}
