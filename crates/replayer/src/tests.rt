// The kept places of a small trace.
use crate::reorder;
use sp_base::{ThreadId, VarId};
use std::alloc::Global;
use std::process::Abort;
use std::test::Fail;
use trace_laws::{Builder, Event, Keep, Op, Trace};

// The trace in which one thread writes a variable twice.
fn two_writes(rt: &impl Abort, alloc: Global) -> Trace {
    let thread = ThreadId::new(0).expect(rt, "a thread");
    let var = VarId::new(0).expect(rt, "a variable");
    let op = Op::Write(var);
    let event = Event { thread, op, loc: 0 };
    let mut builder = Builder::new(alloc, 2).expect(rt, "room");
    assert!(rt; builder.push(event).is_ok());
    assert!(rt; builder.push(event).is_ok());
    builder.finish(1)
}

#[test]
fn the_first_events_are_kept(rt: HostRuntime) -> Result<(), Fail> {
    let trace = two_writes(&rt, rt.alloc());
    assert!(rt; trace.threads() == 1);
    let one = Keep::new(rt.alloc(), &[1])?;
    assert_eq!(rt;
        reorder(rt.alloc(), &trace, &one)?.as_slice(),
        [0].as_slice()
    );
    let both = Keep::new(rt.alloc(), &[2])?;
    assert_eq!(rt;
        reorder(rt.alloc(), &trace, &both)?.as_slice(),
        [0, 1].as_slice()
    );
    Ok(())
}
