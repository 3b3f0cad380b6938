//! Each public call on its happy path.

use crate::{Builder, Deadlock, Event, Finding, Findings, Keep, LawFault, Names, Op, Race, Trace};
use sp_base::{LockId, ThreadId, VarId};
use std::alloc::Global;
use std::test::Fail;

// What the builder answers to an operation of a thread.
fn answer(builder: &mut Builder, thread: u16, op: Op) -> Option<Result<(), LawFault>> {
    let thread = ThreadId::new(thread)?;
    Some(builder.push(Event { thread, op, loc: 0 }))
}

#[test]
fn a_builder_takes_lawful_events_alone(rt: HostRuntime) -> Result<(), Fail> {
    let mut builder = Builder::new(rt.alloc(), 2)?;
    let lock = LockId::new(1).ok_or("a lock")?;
    assert_eq!(rt; answer(&mut builder, 1, Op::Acquire(lock)), Some(Ok(())));
    assert_eq!(rt;
        answer(&mut builder, 0, Op::Release(lock)),
        Some(Err(LawFault::NotHeld))
    );
    assert_eq!(rt; answer(&mut builder, 1, Op::Release(lock)), Some(Ok(())));
    assert_eq!(rt;
        answer(&mut builder, 1, Op::Acquire(lock)),
        Some(Err(LawFault::Full))
    );
    Ok(())
}

// The trace in which a thread writes a variable.
fn one_write(alloc: Global, thread: ThreadId, var: VarId) -> Option<Trace> {
    let threads = thread.value() + 1;
    let mut builder = Builder::new(alloc, 1).ok()?;
    let op = Op::Write(var);
    builder.push(Event { thread, op, loc: 7 }).ok()?;
    Some(builder.finish(threads))
}

#[test]
fn a_trace_has_its_events(rt: HostRuntime) -> Result<(), Fail> {
    let thread = ThreadId::new(3).ok_or("a thread")?;
    let var = VarId::new(0).ok_or("a variable")?;
    let trace = one_write(rt.alloc(), thread, var).ok_or("a trace")?;
    assert_eq!(rt; trace.threads(), 4);
    assert!(rt; !trace.is_empty());
    assert_eq!(rt; trace.len(), 1);
    assert_eq!(rt; trace.event(0).loc, 7);
    Ok(())
}

#[test]
fn findings_keep_what_they_are_given(rt: HostRuntime) -> Result<(), Fail> {
    let deadlock = Deadlock::new(&[4, 9]);
    assert_eq!(rt; deadlock.picks(), [4, 9].as_slice());
    let keep = Keep::new(rt.alloc(), &[1, 0, 2])?;
    assert_eq!(rt; keep.counts(), [1, 0, 2].as_slice());
    let race = Race {
        later: 3,
        earlier: 1,
    };
    let mut found = Findings::new(rt.alloc());
    let none = Keep::new(rt.alloc(), &[])?;
    found.push(Finding::Deadlock(deadlock, none))?;
    found.push(Finding::Race(race, keep))?;
    assert_eq!(rt; found.len(), 2);
    assert!(rt; matches!(found.get(0), Finding::Race(_, _)));
    assert!(rt; matches!(found.get(1), Finding::Deadlock(_, _)));
    Ok(())
}

// The number that the name of a thread gets.
fn thread_number(names: &mut Names, name: &[u8]) -> Option<u16> {
    Some(names.thread(name).ok()?.value())
}

// The number that the name of a lock gets.
fn lock_number(names: &mut Names, name: &[u8]) -> Option<u32> {
    Some(names.lock(name).ok()?.value())
}

// The number that the name of a variable gets.
fn var_number(names: &mut Names, name: &[u8]) -> Option<u32> {
    Some(names.var(name).ok()?.value())
}

#[test]
fn a_name_keeps_its_number(rt: HostRuntime) -> Result<(), Fail> {
    let mut names = Names::new(rt.alloc())?;
    assert_eq!(rt; thread_number(&mut names, b"T0"), Some(0));
    assert_eq!(rt; thread_number(&mut names, b"T1"), Some(1));
    assert_eq!(rt; thread_number(&mut names, b"T0"), Some(0));
    assert_eq!(rt; names.threads(), 2);
    Ok(())
}

#[test]
fn each_kind_has_numbers_of_its_own(rt: HostRuntime) -> Result<(), Fail> {
    let mut names = Names::new(rt.alloc())?;
    assert_eq!(rt; thread_number(&mut names, b"n"), Some(0));
    assert_eq!(rt; lock_number(&mut names, b"n"), Some(0));
    assert_eq!(rt; var_number(&mut names, b"n"), Some(0));
    assert_eq!(rt; (names.locks(), names.vars()), (1, 1));
    Ok(())
}

// Whether the number that the name of a thread gets has that name.
fn thread_has_its_name(names: &mut Names, name: &[u8]) -> Option<bool> {
    let thread = names.thread(name).ok()?;
    Some(names.thread_name(thread) == name)
}

// Whether the number that the name of a lock gets has that name.
fn lock_has_its_name(names: &mut Names, name: &[u8]) -> Option<bool> {
    let lock = names.lock(name).ok()?;
    Some(names.lock_name(lock) == name)
}

// Whether the number that the name of a variable gets has that name in a copy.
fn copied_var_has_its_name(names: &mut Names, name: &[u8]) -> Option<bool> {
    let var = names.var(name).ok()?;
    let copy = names.copy().ok()?;
    Some(copy.var_name(var) == name)
}

#[test]
fn a_number_has_its_name(rt: HostRuntime) -> Result<(), Fail> {
    let mut names = Names::new(rt.alloc())?;
    assert_eq!(rt; thread_has_its_name(&mut names, b"T0"), Some(true));
    assert_eq!(rt; thread_has_its_name(&mut names, b"T1"), Some(true));
    assert_eq!(rt; lock_has_its_name(&mut names, b"L"), Some(true));
    assert_eq!(rt; copied_var_has_its_name(&mut names, b"x"), Some(true));
    Ok(())
}
