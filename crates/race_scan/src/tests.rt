// A scan of a small trace.
ghost use Rattle.std.specs.Prelude.{◌<◌};
ghost use Rattle.trace_laws.specs.Traces.{AreNamedBelow, NamesBelow};

use crate::RaceScan;
use sp_base::{LockId, ThreadId, VarId};
use std::alloc::Global;
use std::process::Abort;
use std::test::Fail;
use trace_index::Index;
use trace_laws::{Builder, Event, Op, Race, Trace};

// Adds an event of one of two threads.
fn add(rt: &impl Abort, builder: &mut Builder, thread: ThreadId, op: Op)
    requires named { AreNamedBelow builder.old.events 2 }
    requires thread { thread < 2 }
    requires op { NamesBelow op 2 }
    ensures { AreNamedBelow builder.new.events 2 }
{
    let event = Event { thread, op, loc: 0 };
    assert!(rt; builder.push(event).is_ok());
}

// A write of one thread before its section races with one of the other thread behind its own, though the locks order
// them.
fn two_sections(rt: &impl Abort, alloc: Global) -> Trace {
    let first = ThreadId::new(0).expect(rt, "a thread");
    let second = ThreadId::new(1).expect(rt, "a thread");
    let lock = LockId::new(0).expect(rt, "a lock");
    let var = VarId::new(3).expect(rt, "a variable");
    let mut builder = Builder::new(alloc, 6).expect(rt, "room");
    add(rt, &mut builder, first, Op::Write(var));
    add(rt, &mut builder, first, Op::Acquire(lock));
    add(rt, &mut builder, first, Op::Release(lock));
    add(rt, &mut builder, second, Op::Acquire(lock));
    add(rt, &mut builder, second, Op::Release(lock));
    add(rt, &mut builder, second, Op::Write(var));
    builder.finish(2)
}

#[test]
fn a_scan_gives_each_race_once(rt: HostRuntime) -> Result<(), Fail> {
    let trace = two_sections(&rt, rt.alloc());
    let index = Index::build(rt.alloc(), &trace).expect(&rt, "room");
    let mut scan = RaceScan::new(rt.alloc(), &index, 3, 4).expect(&rt, "room");
    let found = scan.next().expect(&rt, "room");
    let (race, keep) = found.expect(&rt, "a race");
    let wanted = Race {
        later: 5,
        earlier: 0,
    };
    assert_eq!(rt; race, wanted);
    assert_eq!(rt; keep.counts(), [0, 2].as_slice());
    assert!(rt; scan.next().expect(&rt, "room").is_none());
    Ok(())
}

#[test]
fn a_scan_keeps_to_its_range(rt: HostRuntime) -> Result<(), Fail> {
    let trace = two_sections(&rt, rt.alloc());
    let index = Index::build(rt.alloc(), &trace).expect(&rt, "room");
    let mut scan = RaceScan::new(rt.alloc(), &index, 0, 3).expect(&rt, "room");
    assert!(rt; scan.next().expect(&rt, "room").is_none());
    Ok(())
}
