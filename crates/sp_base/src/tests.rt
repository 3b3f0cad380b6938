//! What no clause says: the sizes of pieces, which calls fail, and that each call can succeed.

use crate::{
    Failed, Gate, LockId, MAX_LOCKS, MAX_THREADS, MAX_VARS, MemSink, MemSource, OpenGate, Sink,
    Source, StdSink, StdSource, Steps, SureSink, SureSource, ThreadId, VarId, WriteFault,
    write_all,
};
use std::marker::Brand;
use std::test::Fail;

#[test]
fn numbers_end_at_their_limits(rt: HostRuntime) -> Result<(), Fail> {
    let thread = ThreadId::new(MAX_THREADS - 1).ok_or("a thread")?;
    assert_eq!(rt; thread.value(), 63);
    assert_eq!(rt; ThreadId::new(MAX_THREADS), None);
    let lock = LockId::new(MAX_LOCKS - 1).ok_or("a lock")?;
    assert_eq!(rt; lock.value(), 4_095);
    assert_eq!(rt; LockId::new(MAX_LOCKS), None);
    let var = VarId::new(MAX_VARS - 1).ok_or("a variable")?;
    assert_eq!(rt; var.value(), 65_535);
    assert_eq!(rt; VarId::new(MAX_VARS), None);
    Ok(())
}

#[test]
fn sources_give_their_bytes_in_pieces(rt: HostRuntime) -> Result<(), Fail> {
    let alloc = rt.alloc();
    let mut buffer = [0; 4];
    let mut source = MemSource::new([1, 2, 3].to_vec(alloc)?, 2, [1, 3].to_vec(alloc)?);
    assert_eq!(rt; source.read(&mut buffer), Err(Failed));
    assert_eq!(rt; source.read(&mut buffer), Ok(2));
    assert_eq!(rt; buffer, [1, 2, 0, 0]);
    assert_eq!(rt; source.read(&mut buffer), Err(Failed));
    assert_eq!(rt; source.read(&mut buffer), Ok(1));
    assert_eq!(rt; buffer, [3, 2, 0, 0]);
    assert_eq!(rt; source.read(&mut buffer), Ok(0));

    let mut source = SureSource::new([5, 6, 7].to_vec(alloc)?);
    assert_eq!(rt; source.read(&mut buffer), Ok(3));
    assert_eq!(rt; buffer, [5, 6, 7, 0]);
    assert_eq!(rt; source.read(&mut buffer), Ok(0));
    Ok(())
}

#[test]
fn sinks_keep_what_they_take(rt: HostRuntime) -> Result<(), Fail> {
    let alloc = rt.alloc();
    let mut sink = MemSink::new(alloc, 2, [2].to_vec(alloc)?);
    assert_eq!(rt; sink.write(&[1, 2, 3]), Ok(2));
    assert_eq!(rt; sink.write(&[3]), Err(WriteFault::Failed));
    assert_eq!(rt; write_all(&mut sink, &[3, 4, 5]), Ok(()));
    assert_eq!(rt; sink.text(), [1, 2, 3, 4, 5].as_slice());

    let mut sink = SureSink::new(alloc);
    assert_eq!(rt; write_all(&mut sink, &[1, 2, 3]), Ok(()));
    assert_eq!(rt; sink.text(), [1, 2, 3].as_slice());
    Ok(())
}

#[test]
fn the_edge_passes_bytes_on(rt: HostRuntime) -> Result<(), Fail> {
    let alloc = rt.alloc();
    let mut buffer = [0; 4];
    let mut source = StdSource::new([1, 2].as_slice());
    assert_eq!(rt; source.read(&mut buffer), Ok(2));
    assert_eq!(rt; buffer, [1, 2, 0, 0]);
    assert_eq!(rt; source.read(&mut buffer), Ok(0));
    let mut sink = StdSink::new(Vec::new(alloc));
    assert_eq!(rt; write_all(&mut sink, &[1, 2, 3]), Ok(()));
    Ok(())
}

#[test]
fn the_open_gate_holds_nobody_back() -> Result<(), Fail> {
    let thread = ThreadId::new(0).ok_or("a thread")?;
    OpenGate.before(thread, 0);
    OpenGate.inside(thread, 0);
    OpenGate.job(0);
    Ok(())
}

#[test]
fn steps_take_no_bytes(rt: HostRuntime) -> Result<(), Fail> {
    let mut steps = Steps::<Brand>::new();
    steps.tick();
    assert_eq!(rt; size_of::<Steps<Brand>>(), 0);
    Ok(())
}
