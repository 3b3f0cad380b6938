// The patterns of small traces, and their deadlocks.
ghost use Rattle.std.specs.Prelude.{◌≡◌, ◌<◌};
ghost use Rattle.trace_laws.specs.Traces.{AreNamedBelow, NamesBelow};

use crate::{Patterns, check};
use lock_graph::Classes;
use sp_base::{LockId, Steps, ThreadId, VarId};
use sp_closure::Cursor;
use std::alloc::Global;
use std::marker::Brand;
use std::process::Abort;
use std::test::Fail;
use trace_index::Index;
use trace_laws::{Builder, Deadlock, Event, Keep, Op, Trace};

// The thread of a number.
fn thread(rt: &impl Abort, number: u16) -> ThreadId
    requires { number < 3 }
    ensures { result ≡ number }
{
    ThreadId::new(number).expect(rt, "a thread")
}

// The lock of a number.
fn lock(rt: &impl Abort, number: u32) -> LockId {
    LockId::new(number).expect(rt, "a lock")
}

// Adds an event of one of three threads.
fn add(rt: &impl Abort, builder: &mut Builder, thread: ThreadId, op: Op)
    requires named { AreNamedBelow builder.old.events 3 }
    requires thread { thread < 3 }
    requires op { NamesBelow op 3 }
    ensures { AreNamedBelow builder.new.events 3 }
{
    let event = Event { thread, op, loc: 0 };
    assert!(rt; builder.push(event).is_ok());
}

// A thread takes an inner lock within an outer one.
fn nest(rt: &impl Abort, builder: &mut Builder, thread: ThreadId, outer: u32, inner: u32)
    requires named { AreNamedBelow builder.old.events 3 }
    requires thread { thread < 3 }
    ensures { AreNamedBelow builder.new.events 3 }
{
    add(rt, builder, thread, Op::Acquire(lock(rt, outer)));
    add(rt, builder, thread, Op::Acquire(lock(rt, inner)));
    add(rt, builder, thread, Op::Release(lock(rt, inner)));
    add(rt, builder, thread, Op::Release(lock(rt, outer)));
}

// Two threads take two locks in two orders, the first one twice, and between the two the other waits for a write.
fn later_instance(rt: &impl Abort, alloc: Global) -> Trace {
    let var = VarId::new(0).expect(rt, "a variable");
    let mut builder = Builder::new(alloc, 14).expect(rt, "room");
    nest(rt, &mut builder, thread(rt, 0), 0, 1);
    add(rt, &mut builder, thread(rt, 0), Op::Write(var));
    nest(rt, &mut builder, thread(rt, 0), 0, 1);
    add(rt, &mut builder, thread(rt, 1), Op::Read(var));
    nest(rt, &mut builder, thread(rt, 1), 1, 0);
    builder.finish(3)
}

// The same with the first order taken once, so that the write comes behind it.
fn no_instance(rt: &impl Abort, alloc: Global) -> Trace {
    let var = VarId::new(0).expect(rt, "a variable");
    let mut builder = Builder::new(alloc, 10).expect(rt, "room");
    nest(rt, &mut builder, thread(rt, 0), 0, 1);
    add(rt, &mut builder, thread(rt, 0), Op::Write(var));
    add(rt, &mut builder, thread(rt, 1), Op::Read(var));
    nest(rt, &mut builder, thread(rt, 1), 1, 0);
    builder.finish(3)
}

// Three threads take two of three locks each, in a cycle.
fn three_threads(rt: &impl Abort, alloc: Global) -> Trace {
    let mut builder = Builder::new(alloc, 12).expect(rt, "room");
    nest(rt, &mut builder, thread(rt, 0), 0, 1);
    nest(rt, &mut builder, thread(rt, 1), 1, 2);
    nest(rt, &mut builder, thread(rt, 2), 2, 0);
    builder.finish(3)
}

// Tests the picks and the keep of what was found.
fn test_found(rt: &impl Abort, found: &Option<(Deadlock, Keep)>, wanted: Option<(&[u32], &[u32])>) {
    match (found, wanted) {
        (Some((deadlock, keep)), Some((picks, counts))) => {
            assert_eq!(rt; deadlock.picks(), picks);
            assert_eq!(rt; keep.counts(), counts);
        }
        (None, None) => {}
        _ => panic!(rt; "not as wanted"),
    }
}

// Tests the first pattern of a trace: its classes, and the picks and the keep of its least deadlock.
fn test_pattern(
    rt: &impl Abort,
    alloc: Global,
    trace: &Trace,
    classes_wanted: &[u32],
    wanted: Option<(&[u32], &[u32])>,
) {
    let index = Index::build(alloc, trace).expect(rt, "room");
    let classes = Classes::build(alloc, &index).expect(rt, "room");
    let patterns = Patterns::list(alloc, &classes, 3).expect(rt, "few");
    assert!(rt; !patterns.is_empty());
    assert_eq!(rt; patterns.len(), 1);
    let pattern = patterns.get(0);
    assert_eq!(rt; pattern.classes(), classes_wanted);
    let mut cursor = Cursor::new(alloc, &index).expect(rt, "room");
    let mut steps = Steps::<Brand>::new();
    let found = check(alloc, pattern, &classes, &mut cursor, &mut steps).expect(rt, "room");
    test_found(rt, &found, wanted);
}

#[test]
fn patterns_have_their_least_deadlocks(rt: HostRuntime) -> Result<(), Fail> {
    let later = later_instance(&rt, rt.alloc());
    let picks = [6, 11];
    let keep = [6, 2, 0];
    test_pattern(
        &rt,
        rt.alloc(),
        &later,
        [1, 3].as_slice(),
        Some((picks.as_slice(), keep.as_slice())),
    );
    let none = no_instance(&rt, rt.alloc());
    test_pattern(&rt, rt.alloc(), &none, [1, 3].as_slice(), None);
    let three = three_threads(&rt, rt.alloc());
    let picks = [1, 5, 9];
    let keep = [1, 1, 1];
    test_pattern(
        &rt,
        rt.alloc(),
        &three,
        [1, 3, 5].as_slice(),
        Some((picks.as_slice(), keep.as_slice())),
    );
    Ok(())
}

#[test]
fn patterns_are_not_longer_than_asked(rt: HostRuntime) -> Result<(), Fail> {
    let trace = three_threads(&rt, rt.alloc());
    let index = Index::build(rt.alloc(), &trace).expect(&rt, "room");
    let classes = Classes::build(rt.alloc(), &index).expect(&rt, "room");
    let patterns = Patterns::list(rt.alloc(), &classes, 2).expect(&rt, "few");
    assert!(rt; patterns.is_empty());
    Ok(())
}
