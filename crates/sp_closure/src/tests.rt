// A cursor over a small trace.
ghost use Rattle.std.specs.Prelude.{◌<◌, ◌≡◌};
ghost use Rattle.trace_laws.specs.Traces.{AreNamedBelow, NamesBelow};

use crate::Cursor;
use sp_base::{LockId, Steps, ThreadId, VarId};
use std::alloc::Global;
use std::marker::Brand;
use std::process::Abort;
use std::test::Fail;
use trace_index::Index;
use trace_laws::{Builder, Event, Op, Trace};

// Adds an event of one of two threads.
fn add(rt: &impl Abort, builder: &mut Builder, thread: ThreadId, op: Op)
    requires named { AreNamedBelow builder.old.events 2 }
    requires thread { thread < 2 }
    requires op { NamesBelow op 2 }
    ensures { AreNamedBelow builder.new.events 2 }
{
    let event = Event { thread, op, loc: 0 };
    assert!(rt; builder.push(event).is_ok());
}

// Two threads with a section each round one variable: the second is forked before and joined behind.
fn two_sections(rt: &impl Abort, alloc: Global) -> Trace
    ensures { result.threads ≡ 2 }
{
    let main = ThreadId::new(0).expect(rt, "a thread");
    let worker = ThreadId::new(1).expect(rt, "a thread");
    let lock = LockId::new(0).expect(rt, "a lock");
    let var = VarId::new(0).expect(rt, "a variable");
    let mut builder = Builder::new(alloc, 9).expect(rt, "room");
    add(rt, &mut builder, main, Op::Fork(worker));
    add(rt, &mut builder, main, Op::Acquire(lock));
    add(rt, &mut builder, main, Op::Write(var));
    add(rt, &mut builder, main, Op::Release(lock));
    add(rt, &mut builder, worker, Op::Acquire(lock));
    add(rt, &mut builder, worker, Op::Read(var));
    add(rt, &mut builder, worker, Op::Release(lock));
    add(rt, &mut builder, main, Op::Join(worker));
    add(rt, &mut builder, main, Op::Write(var));
    builder.finish(2)
}

// Raises the cursor to a place of the trace, and tests how many members each thread has then.
fn raise(rt: &impl Abort, trace: &Trace, cursor: &mut Cursor<'_>, place: u32, own: u32, other: u32)
    requires { cursor.old.trace ≡ trace.now }
    ensures { cursor.new.trace ≡ trace.now }
{
    assert!(rt; place < trace.len());
    let mut steps = Steps::<Brand>::new();
    cursor.raise(place, &mut steps);
    assert_eq!(rt; cursor.counts(), [own, other].as_slice(), "at {place}");
}

// Tests whether a place of the trace is in the set.
fn test_has(rt: &impl Abort, trace: &Trace, cursor: &Cursor<'_>, place: u32, wanted: bool)
    requires { cursor.now.trace ≡ trace.now }
{
    assert!(rt; place < trace.len());
    assert_eq!(rt; cursor.has(place), wanted, "at {place}");
}

#[test]
fn cursor_grows(rt: HostRuntime) -> Result<(), Fail> {
    let trace = two_sections(&rt, rt.alloc());
    let index = Index::build(rt.alloc(), &trace).expect(&rt, "room");
    let mut cursor = Cursor::new(rt.alloc(), &index).expect(&rt, "room");
    raise(&rt, &trace, &mut cursor, 0, 0, 0);
    raise(&rt, &trace, &mut cursor, 5, 1, 1);
    test_has(&rt, &trace, &cursor, 1, false);
    raise(&rt, &trace, &mut cursor, 6, 4, 2);
    test_has(&rt, &trace, &cursor, 3, true);
    raise(&rt, &trace, &mut cursor, 8, 5, 3);
    test_has(&rt, &trace, &cursor, 8, false);
    cursor.reset();
    raise(&rt, &trace, &mut cursor, 0, 0, 0);
    Ok(())
}
