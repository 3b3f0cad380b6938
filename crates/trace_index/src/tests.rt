// An index of a small trace.
ghost use Rattle.std.specs.Prelude.{◌<◌, IsTrue};
ghost use Rattle.trace_laws.specs.Traces.{AreNamedBelow, NamesBelow};
ghost use Rattle.trace_index.specs.HeldSets.{IsAcquire};

use crate::Index;
use sp_base::{LockId, ThreadId, VarId};
use std::alloc::Global;
use std::process::Abort;
use trace_laws::{Builder, Event, Op, Trace};

// Adds an event of one of two threads.
fn add(rt: &impl Abort, builder: &mut Builder, thread: ThreadId, op: Op)
    requires named { AreNamedBelow builder.old.events 2 }
    requires thread { thread < 2 }
    requires op { NamesBelow op 2 }
    ensures { AreNamedBelow builder.new.events 2 }
{
    let event = Event { thread, op, loc: 0 };
    assert!(rt; builder.push(event).is_ok());
}

// Two threads with a section each round one variable, and the second section does not end.
fn two_sections(rt: &impl Abort, alloc: Global) -> Trace {
    let first = ThreadId::new(0).expect(rt, "a thread");
    let second = ThreadId::new(1).expect(rt, "a thread");
    let lock = LockId::new(0).expect(rt, "a lock");
    let var = VarId::new(0).expect(rt, "a variable");
    let mut builder = Builder::new(alloc, 6).expect(rt, "room");
    add(rt, &mut builder, first, Op::Acquire(lock));
    add(rt, &mut builder, first, Op::Write(var));
    add(rt, &mut builder, second, Op::Read(var));
    add(rt, &mut builder, first, Op::Release(lock));
    add(rt, &mut builder, second, Op::Acquire(lock));
    add(rt, &mut builder, second, Op::Write(var));
    builder.finish(2)
}

// Whether the place has that number within its thread.
fn has_local(index: &Index<'_>, place: u32, wanted: u32) -> bool {
    place < index.trace().len() && index.local(place) == wanted
}

// Whether the place is a read, with that writer.
fn has_writer(index: &Index<'_>, place: u32, wanted: Option<u32>) -> bool {
    if place >= index.trace().len() {
        return false;
    }
    match &index.trace().event(place).op {
        Op::Read(_) => index.writer(place) == wanted,
        _ => false,
    }
}

// Whether the place is an acquire, with that release.
fn has_release(index: &Index<'_>, place: u32, wanted: Option<u32>) -> bool {
    if place >= index.trace().len() {
        return false;
    }
    match &index.trace().event(place).op {
        Op::Acquire(_) => index.release(place) == wanted,
        _ => false,
    }
}

// Whether the variable of that number has these accesses.
fn has_accesses(index: &Index<'_>, number: u32, wanted: &[u32]) -> bool {
    match VarId::new(number) {
        Some(variable) => index.accesses(variable) == wanted,
        None => false,
    }
}

// Whether the index of the two sections ties their places.
fn ties_places(index: &Index<'_>) -> bool {
    has_local(index, 2, 0)
        && has_local(index, 3, 2)
        && has_writer(index, 2, Some(1))
        && has_release(index, 0, Some(3))
        && has_release(index, 4, None)
}

#[test]
fn an_index_ties_places(rt: HostRuntime) {
    let trace = two_sections(&rt, rt.alloc());
    let index = Index::build(rt.alloc(), &trace).expect(&rt, "room");
    assert!(rt; ties_places(&index));
}

#[test]
fn an_index_lists_accesses(rt: HostRuntime) {
    let trace = two_sections(&rt, rt.alloc());
    let index = Index::build(rt.alloc(), &trace).expect(&rt, "room");
    assert!(rt; has_accesses(&index, 0, [1, 2, 5].as_slice()));
    assert!(rt; has_accesses(&index, 7, [].as_slice()));
}

// Whether the place is an acquire.
fn is_acquire(index: &Index<'_>, place: u32) -> bool
    ensures { IsTrue result → IsAcquire index.now.events place }
{
    if place >= index.trace().len() {
        return false;
    }
    matches!(&index.trace().event(place).op, Op::Acquire(_))
}

// Whether the lock is held before the acquire at the place.
fn held_before(index: &Index<'_>, place: u32, lock: LockId) -> Option<bool> {
    if !is_acquire(index, place) {
        return None;
    }
    Some(index.holds(place, lock))
}

// Whether the same is held before two acquires.
fn same_before(index: &Index<'_>, a: u32, b: u32) -> Option<bool> {
    if !is_acquire(index, a) {
        return None;
    }
    if !is_acquire(index, b) {
        return None;
    }
    Some(index.same_held(a, b))
}

// Whether the first acquires before which the same is held are one, for two acquires.
fn alike_before(index: &Index<'_>, a: u32, b: u32) -> Option<bool> {
    if !is_acquire(index, a) {
        return None;
    }
    if !is_acquire(index, b) {
        return None;
    }
    Some(index.first_alike(a) == index.first_alike(b))
}

// Whether nothing common is held before two acquires.
fn apart_before(index: &Index<'_>, a: u32, b: u32) -> Option<bool> {
    if !is_acquire(index, a) {
        return None;
    }
    if !is_acquire(index, b) {
        return None;
    }
    Some(index.apart(a, b))
}

// Whether the first of two acquires has the lock or not, and their sets are equal or not, and apart or not, as is wanted.
fn are_held(index: &Index<'_>, a: u32, b: u32, lock: u32, wanted: (bool, bool, bool)) -> bool {
    let Some(lock) = LockId::new(lock) else {
        return false;
    };
    held_before(index, a, lock) == Some(wanted.0)
        && same_before(index, a, b) == Some(wanted.1)
        && alike_before(index, a, b) == Some(wanted.1)
        && apart_before(index, a, b) == Some(wanted.2)
}

// Whether these are the numbers of the locks that are held before the acquire at the place.
fn has_held(index: &Index<'_>, place: u32, wanted: &[u32]) -> bool {
    is_acquire(index, place) && index.held(place) == wanted
}

// The first thread takes a lock within a lock within a lock.
fn nest(rt: &impl Abort, builder: &mut Builder, outer: LockId, middle: LockId, inner: LockId)
    requires { AreNamedBelow builder.old.events 2 }
    ensures { AreNamedBelow builder.new.events 2 }
{
    let first = ThreadId::new(0).expect(rt, "a thread");
    add(rt, builder, first, Op::Acquire(outer));
    add(rt, builder, first, Op::Acquire(middle));
    add(rt, builder, first, Op::Acquire(inner));
    add(rt, builder, first, Op::Release(inner));
    add(rt, builder, first, Op::Release(outer));
    add(rt, builder, first, Op::Release(middle));
}

// One thread holds two locks when it takes the third, taken in one order and in the other. The other thread holds one of
// them.
fn nested_sections(rt: &impl Abort, alloc: Global) -> Trace {
    let second = ThreadId::new(1).expect(rt, "a thread");
    let a = LockId::new(9).expect(rt, "a lock");
    let b = LockId::new(4).expect(rt, "a lock");
    let c = LockId::new(7).expect(rt, "a lock");
    let mut builder = Builder::new(alloc, 14).expect(rt, "room");
    nest(rt, &mut builder, a, b, c);
    nest(rt, &mut builder, b, a, c);
    add(rt, &mut builder, second, Op::Acquire(b));
    add(rt, &mut builder, second, Op::Acquire(c));
    builder.finish(2)
}

#[test]
fn an_index_knows_held_sets(rt: HostRuntime) {
    let trace = nested_sections(&rt, rt.alloc());
    let index = Index::build(rt.alloc(), &trace).expect(&rt, "room");
    for (a, b, lock, wanted) in [
        (2, 8, 9, (true, true, false)),
        (2, 13, 4, (true, false, false)),
        (1, 13, 4, (false, false, true)),
        (7, 13, 4, (true, true, false)),
        (0, 12, 9, (false, true, true)),
    ] {
        assert!(rt; are_held(&index, a, b, lock, wanted), "at {a} and {b}");
    }
}

#[test]
fn an_index_lists_held_locks(rt: HostRuntime) {
    let trace = nested_sections(&rt, rt.alloc());
    let index = Index::build(rt.alloc(), &trace).expect(&rt, "room");
    assert!(rt; has_held(&index, 8, [4, 9].as_slice()));
}

// The first thread takes a lock within a lock, or the other way round, and gives both back.
fn nest_two(rt: &impl Abort, builder: &mut Builder, thread: ThreadId, outer: LockId, inner: LockId)
    requires named { AreNamedBelow builder.old.events 2 }
    requires thread { thread < 2 }
    ensures { AreNamedBelow builder.new.events 2 }
{
    add(rt, builder, thread, Op::Acquire(outer));
    add(rt, builder, thread, Op::Acquire(inner));
    add(rt, builder, thread, Op::Release(inner));
    add(rt, builder, thread, Op::Release(outer));
}

// The first thread nests two locks, writes, and nests them again. The second reads, and nests them the other way round.
pub fn written_between_sections(rt: &impl Abort, alloc: Global) -> Trace {
    let first = ThreadId::new(0).expect(rt, "a thread");
    let second = ThreadId::new(1).expect(rt, "a thread");
    let a = LockId::new(0).expect(rt, "a lock");
    let b = LockId::new(1).expect(rt, "a lock");
    let z = VarId::new(0).expect(rt, "a variable");
    let mut builder = Builder::new(alloc, 14).expect(rt, "room");
    nest_two(rt, &mut builder, first, a, b);
    add(rt, &mut builder, first, Op::Write(z));
    nest_two(rt, &mut builder, first, a, b);
    add(rt, &mut builder, second, Op::Read(z));
    nest_two(rt, &mut builder, second, b, a);
    builder.finish(2)
}
