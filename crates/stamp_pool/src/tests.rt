// A small pool.
ghost use Rattle.std.specs.Prelude.{◌≡◌};
ghost use Rattle.stamp_pool.specs.Rows.{IsLent};

use crate::{Pool, RowId};
use std::process::Abort;
use std::test::Fail;

// Tests the counts of a row.
fn test_row(rt: &impl Abort, pool: &Pool, row: &RowId, wanted: [u32; 3])
    requires { IsLent pool.now row.now }
{
    assert_eq!(rt; pool.row(row), wanted.as_slice());
}

// Takes a row, which has zeros.
fn test_taken(rt: &impl Abort, pool: &mut Pool) -> RowId
    ensures { IsLent pool.new result }
{
    let row = pool.take().expect(rt, "a row");
    test_row(rt, pool, &row, [0, 0, 0]);
    row
}

// Tests that no row is free.
fn test_none(rt: &impl Abort, pool: &mut Pool)
    ensures { pool.new ≡ pool.old }
{
    assert_eq!(rt; pool.free(), 0);
    let taken = pool.take();
    assert!(rt; taken.is_none());
}

#[test]
fn a_pool_lends_its_rows(rt: HostRuntime) -> Result<(), Fail> {
    let mut pool = Pool::new(rt.alloc(), 3, 2).expect(&rt, "room");
    assert_eq!(rt; pool.free(), 2);
    let _first = test_taken(&rt, &mut pool);
    let second = test_taken(&rt, &mut pool);
    test_none(&rt, &mut pool);
    pool.give(second);
    assert_eq!(rt; pool.free(), 1);
    let _third = test_taken(&rt, &mut pool);
    test_none(&rt, &mut pool);
    Ok(())
}

// Takes two rows, and raises the first by counts, and then by the second.
fn test_raised(rt: &impl Abort, pool: &mut Pool)
    requires { pool.old.width ≡ 3 }
{
    let first = pool.take().expect(rt, "a row");
    pool.raise_with(&first, &[4, 0, 2]);
    test_row(rt, pool, &first, [4, 0, 2]);
    pool.raise_with(&first, &[1, 5, 2]);
    test_row(rt, pool, &first, [4, 5, 2]);
    pool.give(first);
    let again = pool.take().expect(rt, "a row");
    test_row(rt, pool, &again, [0, 0, 0]);
}

#[test]
fn a_raise_keeps_the_greater_counts(rt: HostRuntime) -> Result<(), Fail> {
    let mut pool = Pool::new(rt.alloc(), 3, 1).expect(&rt, "room");
    test_raised(&rt, &mut pool);
    Ok(())
}

// Takes two rows.
fn take_two(rt: &impl Abort, pool: &mut Pool) -> (RowId, RowId)
    ensures first { IsLent pool.new result.0 }
    ensures second { IsLent pool.new result.1 }
    ensures width { pool.new.width ≡ pool.old.width }
{
    let first = pool.take().expect(rt, "a row");
    let second = pool.take().expect(rt, "a row");
    (first, second)
}

// Raises a row by another.
fn test_joined(rt: &impl Abort, pool: &mut Pool, into: &RowId, from: &RowId)
    requires into { IsLent pool.old into.now }
    requires from { IsLent pool.old from.now }
    requires width { pool.old.width ≡ 3 }
{
    pool.raise_with(into, &[1, 7, 0]);
    pool.raise_with(from, &[4, 0, 2]);
    pool.raise(into, from);
    test_row(rt, pool, into, [4, 7, 2]);
    test_row(rt, pool, from, [4, 0, 2]);
}

#[test]
fn a_raise_changes_one_row(rt: HostRuntime) -> Result<(), Fail> {
    let mut pool = Pool::new(rt.alloc(), 3, 2).expect(&rt, "room");
    let (into, from) = take_two(&rt, &mut pool);
    test_joined(&rt, &mut pool, &into, &from);
    Ok(())
}
