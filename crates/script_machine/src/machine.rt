//! The machine that runs a script.

ghost use Rattle.std.specs.Prelude.{◌≡◌, ◌<◌, ◌≤◌, ◌↔◌, length, Option, Some, None, IsSome, IfSome, IfNone, IfOk, IsTrue, not, ◌&&◌, true};
ghost use Rattle.script_machine.specs.Machine.{next_call, call_at, stored_at, is_waiting, CanStep, IsRunning, IsEnded, OpInRange, StepOf, start};
ghost use Rattle.script_machine.specs.Held.{meaning, is_empty, may_take, forked_list, owners_list, values_list, brought_list, IsIn, IsVariableIn, IsTaken};

use crate::ids::thread_id;
use crate::{Script, ThreadRun};
use sp_base::{MAX_THREADS, OutOfMemory, ThreadId};
use std::alloc::{AllocError, Global};
use std::marker::Model;
use trace_laws::{Event, Op};

/// How a thread stands.
#[derive(Clone, Copy, Debug, PartialEq, Eq)]
pub enum ThreadState {
    /// Its fork was not taken yet.
    Waiting,
    /// It has a next call.
    Running,
    /// It is at the end of its list.
    Ended,
}

/// The state of a script that runs: where each thread stands, the owner of each lock, and the value of each variable.
#[derive(Drop)]
pub struct Machine<'a> {
    script: &'a Script,
    runs: Vec<ThreadRun<'a>>,
    forked: Vec<bool>,
    owners: Vec<Option<ThreadId>>,
    values: Vec<u64>,
}

impl<'a> Model for Machine<'a> {
    ghost use Rattle.script_machine.specs.Held.{Held};

    ghost Value = { Held };

    ghost use Rattle.script_machine.specs.HeldBy.{held, HoldsWhole};

    ghost view = { held };

    ghost invariant = { HoldsWhole };
}

impl<'a> Machine<'a> {
    /// The machine at the start of the script. Its only error is want of memory.
    pub fn new(alloc: Global, script: &'a Script) -> Result<Machine<'a>, OutOfMemory>
        ensures script { IfOk result (λ m. m.script ≡ script.now) }
        ensures start { IfOk result (λ m. meaning m ≡ start script.now) }
    {
        match Machine::with_room(alloc, script) {
            Ok(machine) => Ok(machine),
            Err(_) => Err(OutOfMemory),
        }
    }

    // The same, with the error of the allocator.
    fn with_room(alloc: Global, script: &'a Script) -> Result<Machine<'a>, AllocError>
        ensures { IfOk result (λ m. (m.script ≡ script.now) × (meaning m ≡ start script.now)) }
    {
        let threads = script.threads();
        let mut runs = Vec::new(alloc);
        for t in 0..threads {
            runs.push(ThreadRun::new(script, thread_id(t)))?;
        }
        let forked = vec![in alloc; false; threads as usize]?;
        let owners = vec![in alloc; None; script.locks() as usize]?;
        let values = vec![in alloc; 0; script.variables() as usize]?;
        Ok(Machine {
            script,
            runs,
            forked,
            owners,
            values,
        })
    }

    /// How many threads the script has, which are at most `MAX_THREADS`.
    pub fn threads(&self) -> u16
        ensures value { result ≡ length self.now.script.bodies }
        ensures few { result ≤ MAX_THREADS }
    {
        self.script.threads()
    }

    // Whether the thread waits for its fork.
    fn is_waiting(&self, thread: ThreadId) -> bool
        requires { thread < length self.now.script.bodies }
        ensures { result ≡ is_waiting self.now.script (meaning self.now) thread }
    {
        self.script.is_forked(thread) && !self.forked[thread.value() as usize]
    }

    // Whether the thread has ended.
    fn is_ended(&self, thread: ThreadId) -> bool
        requires { thread < length self.now.script.bodies }
        ensures { result ≡ (not (is_waiting self.now.script (meaning self.now) thread) && is_empty ((meaning self.now).thread thread).left) }
    {
        if self.is_waiting(thread) {
            return false;
        }
        let run = &self.runs[thread.value() as usize];
        run.next_op().is_none()
    }

    /// How the thread stands. The thread is one of the script.
    pub fn state(&self, thread: ThreadId) -> ThreadState
        requires { thread < length self.now.script.bodies }
        ensures waiting { result ≡ ThreadState.Waiting ↔ (is_waiting self.now.script (meaning self.now) thread ≡ true) }
        ensures running { result ≡ ThreadState.Running ↔ IsRunning self.now.script (meaning self.now) thread }
        ensures ended { result ≡ ThreadState.Ended ↔ IsEnded self.now.script (meaning self.now) thread }
    {
        if self.is_waiting(thread) {
            ThreadState::Waiting
        } else if self.is_ended(thread) {
            ThreadState::Ended
        } else {
            ThreadState::Running
        }
    }

    /// The next call of the thread; none exactly where the thread is not running. The thread is one of the script.
    pub fn next_op(&self, thread: ThreadId) -> Option<Op>
        requires { thread < length self.now.script.bodies }
        ensures call { result ≡ next_call self.now.script (meaning self.now) thread }
        ensures running { IsSome result ↔ IsRunning self.now.script (meaning self.now) thread }
        ensures operands { IfSome result (λ op. OpInRange self.now.script op) }
    {
        if self.is_waiting(thread) {
            return None;
        }
        let run = &self.runs[thread.value() as usize];
        run.next_op()
    }

    /// Whether the thread can step. The thread is one of the script.
    pub fn can_step(&self, thread: ThreadId) -> bool
        requires { thread < length self.now.script.bodies }
        ensures { IsTrue result ↔ CanStep self.now.script (meaning self.now) thread }
    {
        self.may_step(thread)
    }

    // Whether the thread may take its next call.
    fn may_step(&self, thread: ThreadId) -> bool
        requires { thread < length self.now.script.bodies }
        ensures { result ≡ may_take self.now.script (meaning self.now) thread (next_call self.now.script (meaning self.now) thread) }
    {
        let Some(op) = self.next_op(thread) else {
            return false;
        };
        match &op {
            Op::Acquire(lock) => self.owners[lock.value() as usize].is_none(),
            Op::Release(lock) => self.owners[lock.value() as usize] == Some(thread),
            Op::Join(other) => self.is_ended(*other),
            Op::Read(_) | Op::Write(_) | Op::Fork(_) => true,
        }
    }

    /// Takes the next step of the thread and answers its event; none, and nothing changes, exactly where it cannot step.
    /// The thread is one of the script.
    pub fn step(&mut self, thread: ThreadId) -> Option<Event>
        requires { thread < length self.old.script.bodies }
        ensures script { self.new.script ≡ self.old.script }
        ensures step { IfSome result (λ event. StepOf self.old.script (meaning self.old) thread event (meaning self.new)) }
        ensures none { IfNone result ((CanStep self.old.script (meaning self.old) thread → ⊥) × (self.new ≡ self.old)) }
    {
        if !self.can_step(thread) {
            return None;
        }
        match self.next_op(thread) {
            Some(op) => Some(self.take(thread, op)),
            None => None,
        }
    }

    // Takes the next call of the thread, which may take it.
    fn take(&mut self, thread: ThreadId, op: Op) -> Event
        requires thread_in { thread < length self.old.script.bodies }
        requires call { next_call self.old.script (meaning self.old) thread ≡ Some op }
        ensures script { self.new.script ≡ self.old.script }
        ensures event { (result.thread ≡ thread) × (result.op ≡ op) }
        ensures taken { IsTaken self.old self.new result }
    {
        let run = &mut self.runs[thread.value() as usize];
        let loc = run.location();
        let brought = bring(&op, run, self.values.as_slice());
        apply(
            &op,
            thread,
            brought,
            self.forked.as_mut_slice(),
            self.owners.as_mut_slice(),
            self.values.as_mut_slice(),
        );
        run.advance(brought);
        Event { thread, op, loc }
    }
}

// What the next call of a thread brings: what a read reads, what a write writes, and 0 for the rest.
fn bring(op: &Op, run: &ThreadRun, values: &[u64]) -> u64
    requires call { call_at run.now.left ≡ Some op.now }
    requires operand { IsVariableIn op.now (length values.now) }
    ensures { result ≡ brought_list op.now (stored_at run.now.left run.now.register) values.now }
{
    match op {
        Op::Read(x) => values[x.value() as usize],
        Op::Write(_) => run.value(),
        Op::Acquire(_) | Op::Release(_) | Op::Fork(_) | Op::Join(_) => 0,
    }
}

// Makes the change of an operation, where a write writes `brought`.
fn apply(
    op: &Op,
    thread: ThreadId,
    brought: u64,
    forked: &mut [bool],
    owners: &mut [Option<ThreadId>],
    values: &mut [u64],
)
    requires { IsIn op.now (length forked.old) (length owners.old) (length values.old) }
    ensures forks_made { forked.new ≡ forked_list op.now forked.old }
    ensures owners_made { owners.new ≡ owners_list op.now thread owners.old }
    ensures values_made { values.new ≡ values_list op.now brought values.old }
{
    match op {
        Op::Read(_) | Op::Join(_) => {}
        Op::Write(x) => values[x.value() as usize] = brought,
        Op::Acquire(lock) => owners[lock.value() as usize] = Some(thread),
        Op::Release(lock) => owners[lock.value() as usize] = None,
        Op::Fork(other) => forked[other.value() as usize] = true,
    }
}
