// A search of small traces, by several numbers of workers.
ghost use Rattle.std.specs.Prelude.{◌<◌, ◌≤◌};
ghost use Rattle.trace_laws.specs.Traces.{AreNamedBelow, NamesBelow};

use crate::find;
use sp_base::{Gate, LockId, MAX_SIZE, MAX_WORKERS, OpenGate, ThreadId, VarId};
use std::alloc::Global;
use std::marker::Sync;
use std::process::Abort;
use std::sync::atomic::{AtomicBool, AtomicU32, Ordering};
use std::thread;
use std::thread::Threads;
use trace_laws::{Builder, Event, Finding, Findings, Op, Race, Trace};

// Adds an event of one of two threads.
fn add(rt: &impl Abort, builder: &mut Builder, thread: ThreadId, op: Op)
    requires named { AreNamedBelow builder.old.events 2 }
    requires thread { thread < 2 }
    requires op { NamesBelow op 2 }
    ensures { AreNamedBelow builder.new.events 2 }
{
    let event = Event { thread, op, loc: 0 };
    assert!(rt; builder.push(event).is_ok());
}

// A thread takes a lock within another one.
fn add_nested(rt: &impl Abort, builder: &mut Builder, thread: ThreadId, outer: u32, inner: u32)
    requires named { AreNamedBelow builder.old.events 2 }
    requires thread { thread < 2 }
    ensures { AreNamedBelow builder.new.events 2 }
{
    let outer = LockId::new(outer).expect(rt, "a lock");
    let inner = LockId::new(inner).expect(rt, "a lock");
    add(rt, builder, thread, Op::Acquire(outer));
    add(rt, builder, thread, Op::Acquire(inner));
    add(rt, builder, thread, Op::Release(inner));
    add(rt, builder, thread, Op::Release(outer));
}

// A thread writes so many variables, and another thread writes them the other way round.
fn add_writes(rt: &impl Abort, builder: &mut Builder, first: ThreadId, second: ThreadId, vars: u32)
    requires named { AreNamedBelow builder.old.events 2 }
    requires first { first < 2 }
    requires second { second < 2 }
    ensures { AreNamedBelow builder.new.events 2 }
{
    for number in 0..vars {
        let var = VarId::new(number).expect(rt, "a variable");
        add(rt, builder, first, Op::Write(var));
    }
    for back in (0..vars).rev() {
        let var = VarId::new(back).expect(rt, "a variable");
        add(rt, builder, second, Op::Write(var));
    }
}

// Two threads that write so many variables, and then take two locks crosswise.
fn crossed(rt: &impl Abort, alloc: Global, vars: u32) -> Trace {
    let first = ThreadId::new(0).expect(rt, "a thread");
    let second = ThreadId::new(1).expect(rt, "a thread");
    let mut builder = Builder::new(alloc, 256).expect(rt, "room");
    add_writes(rt, &mut builder, first, second, vars);
    add_nested(rt, &mut builder, first, 0, 1);
    add_nested(rt, &mut builder, second, 1, 0);
    builder.finish(2)
}

// Two threads that write two variables.
fn two_writes(rt: &impl Abort, alloc: Global) -> Trace {
    let first = ThreadId::new(0).expect(rt, "a thread");
    let second = ThreadId::new(1).expect(rt, "a thread");
    let mut builder = Builder::new(alloc, 4).expect(rt, "room");
    add_writes(rt, &mut builder, first, second, 2);
    builder.finish(2)
}

// Whether a finding is that race.
fn is_race(finding: &Finding, later: u32, earlier: u32) -> bool {
    match finding {
        Finding::Race(race, _) => *race == Race { later, earlier },
        Finding::Deadlock(_, _) => false,
    }
}

// Whether a finding is the deadlock of those places.
fn is_deadlock(finding: &Finding, picks: [u32; 2]) -> bool {
    match finding {
        Finding::Race(_, _) => false,
        Finding::Deadlock(deadlock, _) => deadlock.picks() == picks.as_slice(),
    }
}

// Whether these are the races of so many variables, in the order of the later places, and then the deadlock.
fn are_all(found: &Findings, vars: u32) -> bool {
    if vars > 100 {
        return false;
    }
    if found.len() != vars + 1 {
        return false;
    }
    for n in 0..vars {
        if !is_race(found.get(n), vars + n, vars - 1 - n) {
            return false;
        }
    }
    is_deadlock(found.get(vars), [2 * vars + 1, 2 * vars + 5])
}

// Whether the search of a crossed trace by so many workers finds the race of each variable, in the order of the later places,
// and then the deadlock.
fn finds_all<R: Threads + Sync + Abort>(rt: &R, alloc: Global, vars: u32, workers: u8) -> bool {
    if workers < 1 {
        return false;
    }
    if workers > MAX_WORKERS {
        return false;
    }
    let trace = crossed(rt, alloc, vars);
    match find(rt, alloc, &trace, MAX_SIZE, workers, &OpenGate) {
        Ok(found) => are_all(&found, vars),
        Err(_) => false,
    }
}

#[test]
fn the_same_for_each_number_of_workers(rt: HostRuntime) {
    for (vars, workers) in [(0, 2), (1, 2), (3, 1), (3, 2), (3, 64), (70, 1), (70, 64)] {
        assert!(rt;
            finds_all(&rt, rt.alloc(), vars, workers),
            "{vars} by {workers}"
        );
    }
}

// How many findings two workers find in the trace, with the gate.
fn count_found<R: Threads + Sync, G: Gate + Sync>(
    rt: &R,
    alloc: Global,
    trace: &Trace,
    gate: &G,
) -> Option<u32> {
    match find(rt, alloc, trace, MAX_SIZE, 2, gate) {
        Ok(found) => Some(found.len()),
        Err(_) => None,
    }
}

/// How many turns a job waits for another.
const TURNS: u32 = 10_000_000;

// A gate at which a job waits until one with another number begins: the first job for any other, and those for the first.
#[derive(Drop)]
struct Meeting {
    first_began: AtomicBool,
    other_began: AtomicBool,
    missed: AtomicBool,
}

impl Meeting {
    fn new() -> Meeting {
        Meeting {
            first_began: AtomicBool::new(false),
            other_began: AtomicBool::new(false),
            missed: AtomicBool::new(false),
        }
    }

    // Whether both jobs began, and none missed the other.
    fn was_held(&self) -> bool {
        self.first_began.load(Ordering::SeqCst)
            && self.other_began.load(Ordering::SeqCst)
            && !self.missed.load(Ordering::SeqCst)
    }
}

impl Gate for Meeting {
    fn before(&self, _thread: ThreadId, _call: u32) {}

    fn inside(&self, _thread: ThreadId, _call: u32) {}

    fn job(&self, number: u32) {
        let (own, awaited) = if number == 0 {
            (&self.first_began, &self.other_began)
        } else {
            (&self.other_began, &self.first_began)
        };
        own.store(true, Ordering::SeqCst);
        for _ in 0..TURNS {
            if awaited.load(Ordering::SeqCst) {
                return;
            }
            thread::yield_now();
        }
        self.missed.store(true, Ordering::SeqCst);
    }
}

#[test]
fn two_jobs_meet(rt: HostRuntime) {
    let trace = two_writes(&rt, rt.alloc());
    let gate = Meeting::new();
    assert!(rt; count_found(&rt, rt.alloc(), &trace, &gate) == Some(2));
    assert!(rt; gate.was_held());
}

// Two threads that take so many pairs of locks crosswise.
fn add_pairs(rt: &impl Abort, builder: &mut Builder, first: ThreadId, second: ThreadId, pairs: u32)
    requires named { AreNamedBelow builder.old.events 2 }
    requires first { first < 2 }
    requires second { second < 2 }
    requires pairs { pairs ≤ 100 }
    ensures { AreNamedBelow builder.new.events 2 }
{
    for n in 0..pairs {
        add_nested(rt, builder, first, 2 * n, 2 * n + 1);
        add_nested(rt, builder, second, 2 * n + 1, 2 * n);
    }
}

// Two threads that take seventy pairs of locks crosswise: seventy patterns, each with a deadlock.
fn seventy_pairs(rt: &impl Abort, alloc: Global) -> Trace {
    let first = ThreadId::new(0).expect(rt, "a thread");
    let second = ThreadId::new(1).expect(rt, "a thread");
    let mut builder = Builder::new(alloc, 560).expect(rt, "room");
    add_pairs(rt, &mut builder, first, second, 70);
    builder.finish(2)
}

// A gate that counts the jobs, and keeps the greatest of their numbers.
#[derive(Drop)]
struct Counting {
    jobs: AtomicU32,
    greatest: AtomicU32,
}

impl Counting {
    fn new() -> Counting {
        Counting {
            jobs: AtomicU32::new(0),
            greatest: AtomicU32::new(0),
        }
    }

    // Whether there were several jobs, at most so many, and each number was below their count.
    fn is_within(&self, most: u32) -> bool {
        let jobs = self.jobs.load(Ordering::SeqCst);
        jobs > 1 && jobs <= most && self.greatest.load(Ordering::SeqCst) < jobs
    }
}

impl Gate for Counting {
    fn before(&self, _thread: ThreadId, _call: u32) {}

    fn inside(&self, _thread: ThreadId, _call: u32) {}

    fn job(&self, number: u32) {
        self.jobs.fetch_add(1, Ordering::SeqCst);
        self.greatest.fetch_max(number, Ordering::SeqCst);
    }
}

#[test]
fn at_most_sixty_four_jobs(rt: HostRuntime) {
    let trace = seventy_pairs(&rt, rt.alloc());
    let gate = Counting::new();
    assert!(rt; count_found(&rt, rt.alloc(), &trace, &gate) == Some(70));
    assert!(rt; gate.is_within(64));
}
