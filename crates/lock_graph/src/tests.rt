// The classes of a small trace.
ghost use Rattle.std.specs.Prelude.{◌<◌};
ghost use Rattle.trace_laws.specs.Traces.{AreNamedBelow, NamesBelow};

use crate::Classes;
use sp_base::{LockId, ThreadId};
use std::alloc::Global;
use std::process::Abort;
use std::test::Fail;
use trace_index::Index;
use trace_laws::{Builder, Event, Op, Trace};

// Adds an event of one of two threads.
fn add(rt: &impl Abort, builder: &mut Builder, thread: ThreadId, op: Op)
    requires named { AreNamedBelow builder.old.events 2 }
    requires thread { thread < 2 }
    requires op { NamesBelow op 2 }
    ensures { AreNamedBelow builder.new.events 2 }
{
    let event = Event { thread, op, loc: 0 };
    assert!(rt; builder.push(event).is_ok());
}

// A thread takes an inner lock within an outer one.
fn nest(rt: &impl Abort, builder: &mut Builder, thread: ThreadId, outer: LockId, inner: LockId)
    requires named { AreNamedBelow builder.old.events 2 }
    requires thread { thread < 2 }
    ensures { AreNamedBelow builder.new.events 2 }
{
    add(rt, builder, thread, Op::Acquire(outer));
    add(rt, builder, thread, Op::Acquire(inner));
    add(rt, builder, thread, Op::Release(inner));
    add(rt, builder, thread, Op::Release(outer));
}

// One thread takes two locks in one order, twice, and the other thread in the other.
fn two_orders(rt: &impl Abort, alloc: Global) -> Trace {
    let first = ThreadId::new(0).expect(rt, "a thread");
    let second = ThreadId::new(1).expect(rt, "a thread");
    let a = LockId::new(3).expect(rt, "a lock");
    let b = LockId::new(5).expect(rt, "a lock");
    let mut builder = Builder::new(alloc, 12).expect(rt, "room");
    nest(rt, &mut builder, first, a, b);
    nest(rt, &mut builder, second, b, a);
    nest(rt, &mut builder, first, a, b);
    builder.finish(2)
}

// Tests a class: its thread, its lock, its held set and its acquires.
fn test_class(
    rt: &impl Abort,
    classes: &Classes<'_>,
    class: u32,
    wanted: (u16, u32, &[u32], &[u32]),
) {
    assert!(rt; class < classes.len());
    assert_eq!(rt; classes.thread(class).value(), wanted.0, "of {class}");
    assert_eq!(rt; classes.lock(class).value(), wanted.1, "of {class}");
    assert_eq!(rt; classes.held(class), wanted.2, "of {class}");
    assert_eq!(rt; classes.acquires(class), wanted.3, "of {class}");
}

// Tests whether a class can stand next to another in a cycle.
fn test_follows(rt: &impl Abort, classes: &Classes<'_>, a: u32, b: u32, wanted: bool) {
    assert!(rt; a < classes.len());
    assert!(rt; b < classes.len());
    assert_eq!(rt; classes.follows(a, b), wanted, "{a} and {b}");
}

#[test]
fn classes_are_numbered_by_their_first_places(rt: HostRuntime) -> Result<(), Fail> {
    let trace = two_orders(&rt, rt.alloc());
    let index = Index::build(rt.alloc(), &trace).expect(&rt, "room");
    let classes = Classes::build(rt.alloc(), &index).expect(&rt, "room");
    assert_eq!(rt; classes.len(), 4);
    assert!(rt; !classes.is_empty());
    test_class(&rt, &classes, 0, (0, 3, [].as_slice(), [0, 8].as_slice()));
    test_class(&rt, &classes, 1, (0, 5, [3].as_slice(), [1, 9].as_slice()));
    test_class(&rt, &classes, 2, (1, 5, [].as_slice(), [4].as_slice()));
    test_class(&rt, &classes, 3, (1, 3, [5].as_slice(), [5].as_slice()));
    test_follows(&rt, &classes, 1, 3, true);
    test_follows(&rt, &classes, 3, 1, true);
    test_follows(&rt, &classes, 0, 1, false);
    test_follows(&rt, &classes, 1, 2, false);
    assert_eq!(rt; classes.index().trace().len(), 12);
    let b = LockId::new(5).expect(&rt, "a lock");
    assert!(rt; classes.holds(3, b) && !classes.holds(1, b));
    Ok(())
}
