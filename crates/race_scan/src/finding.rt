// The races on the variables of a range.
ghost use Rattle.std.specs.Prelude.{ℕ, ◌≡◌, ◌<◌, ◌≤◌, [], IfOk, OnOk, length, Some};
ghost use Rattle.trace_laws.specs.Trace.{op_at};
ghost use Rattle.trace_laws.specs.Reordering.{Accesses, Conflict};
ghost use Rattle.race_scan.specs.Grouped.{AreGroups, AreOfThreads, HasPlace};
ghost use Rattle.race_scan.specs.Passed.{ArePassed, ArePassedFrom};
ghost use Rattle.race_scan.specs.Listed.{AddsRaces, AreOwn, IsOwn, IsOwnAccess, IsThis};
ghost use Rattle.race_scan.specs.Scans.{IsInRange};

use crate::candidates::has_op;
use crate::groups::{Group, groups_of};
use crate::pair_set::PairSet;
use crate::partners::partner;
use sp_base::{MAX_VARS, VarId};
use std::alloc::{AllocError, Global};
use trace_index::Index;
use trace_laws::{Op, Race};

// Lists the race of a place, where it has one.
fn list_race(
    index: &Index<'_>,
    set: &mut PairSet<'_>,
    groups: &[Group],
    passed: &mut [usize],
    later: u32,
    races: &mut Vec<Race>,
) -> Result<(), AllocError>
    requires trace { set.old.trace ≡ index.now }
    requires later { later < length index.now.events }
    requires groups { AreOfThreads index.now.events groups.now }
    requires all { (e : ℕ) → Conflict index.now.events e later → HasPlace groups.now e }
    requires passed { ArePassed index.now.events later groups.now passed.old }
    ensures trace { set.new.trace ≡ index.now }
    ensures passed { ArePassed index.now.events later groups.now passed.new }
    ensures adds { OnOk result (AddsRaces index.now.events (λ l. l ≡ later) races.old.items races.new.items) }
{
    let Some(earlier) = partner(index, set, groups, passed, later) else {
        return Ok(());
    };
    races.push(Race { later, earlier })?;
    Ok(())
}

// The same where the place has that operation.
fn list_place(
    index: &Index<'_>,
    set: &mut PairSet<'_>,
    groups: &[Group],
    passed: &mut [usize],
    later: u32,
    op: &Op,
    races: &mut Vec<Race>,
) -> Result<(), AllocError>
    requires trace { set.old.trace ≡ index.now }
    requires later { later < length index.now.events }
    requires groups { AreOfThreads index.now.events groups.now }
    requires all { (e l : ℕ) → op_at index.now.events l ≡ Some op.now → Conflict index.now.events e l → HasPlace groups.now e }
    requires passed { ArePassedFrom index.now.events op.now later groups.now passed.old }
    requires size { length passed.old ≡ length groups.now }
    ensures trace { set.new.trace ≡ index.now }
    ensures passed { ArePassedFrom index.now.events op.now later groups.now passed.new }
    ensures size { length passed.new ≡ length groups.now }
    ensures adds { OnOk result (AddsRaces index.now.events (IsThis index.now.events later op.now) races.old.items races.new.items) }
{
    if !has_op(index, later, op) {
        return Ok(());
    }
    list_race(index, set, groups, passed, later, races)?;
    Ok(())
}

// Lists the races of places of one thread with that operation.
fn list_own(
    index: &Index<'_>,
    set: &mut PairSet<'_>,
    groups: &[Group],
    own: &[u32],
    op: &Op,
    passed: &mut [usize],
    races: &mut Vec<Race>,
) -> Result<(), AllocError>
    requires trace { set.old.trace ≡ index.now }
    requires own { AreOwn index.now.events own.now }
    requires groups { AreOfThreads index.now.events groups.now }
    requires all { (e l : ℕ) → op_at index.now.events l ≡ Some op.now → Conflict index.now.events e l → HasPlace groups.now e }
    requires size { length passed.old ≡ length groups.now }
    ensures trace { set.new.trace ≡ index.now }
    ensures size { length passed.new ≡ length groups.now }
    ensures adds { OnOk result (AddsRaces index.now.events (IsOwn index.now.events own.now op.now) races.old.items races.new.items) }
{
    passed.fill(0);
    for position in 0..own.len() {
        list_place(index, set, groups, passed, own[position], op, races)?;
    }
    Ok(())
}

// Lists the races of places of one thread that access a variable.
fn list_group(
    index: &Index<'_>,
    set: &mut PairSet<'_>,
    groups: &[Group],
    own: &[u32],
    var: VarId,
    passed: &mut [usize],
    races: &mut Vec<Race>,
) -> Result<(), AllocError>
    requires trace { set.old.trace ≡ index.now }
    requires own { AreOwn index.now.events own.now }
    requires groups { AreOfThreads index.now.events groups.now }
    requires all { (e l : ℕ) → Accesses index.now.events l var → Conflict index.now.events e l → HasPlace groups.now e }
    requires size { length passed.old ≡ length groups.now }
    ensures trace { set.new.trace ≡ index.now }
    ensures size { length passed.new ≡ length groups.now }
    ensures adds { OnOk result (AddsRaces index.now.events (IsOwnAccess index.now.events own.now var) races.old.items races.new.items) }
{
    let read = Op::Read(var);
    list_own(index, set, groups, own, &read, passed, races)?;
    let write = Op::Write(var);
    list_own(index, set, groups, own, &write, passed, races)?;
    Ok(())
}

// Lists the races on a variable whose accesses are grouped by thread.
fn list_groups(
    index: &Index<'_>,
    set: &mut PairSet<'_>,
    groups: &[Group],
    var: VarId,
    passed: &mut [usize],
    races: &mut Vec<Race>,
) -> Result<(), AllocError>
    requires trace { set.old.trace ≡ index.now }
    requires groups { AreGroups index.now.events var groups.now }
    requires size { length passed.old ≡ length groups.now }
    ensures trace { set.new.trace ≡ index.now }
    ensures adds { OnOk result (AddsRaces index.now.events (λ l. Accesses index.now.events l var) races.old.items races.new.items) }
{
    for group in 0..groups.len() {
        list_group(
            index,
            set,
            groups,
            &groups[group].places,
            var,
            passed,
            races,
        )?;
    }
    Ok(())
}

// Lists the races on a variable.
fn list_variable(
    alloc: Global,
    index: &Index<'_>,
    set: &mut PairSet<'_>,
    var: VarId,
    races: &mut Vec<Race>,
) -> Result<(), AllocError>
    requires { set.old.trace ≡ index.now }
    ensures trace { set.new.trace ≡ index.now }
    ensures adds { OnOk result (AddsRaces index.now.events (λ l. Accesses index.now.events l var) races.old.items races.new.items) }
{
    let groups = groups_of(alloc, index, var)?;
    let mut passed = vec![in alloc; 0; groups.len()]?;
    list_groups(index, set, &groups, var, &mut passed, races)?;
    Ok(())
}

// Lists the races on the variable of that number.
fn list_number(
    alloc: Global,
    index: &Index<'_>,
    set: &mut PairSet<'_>,
    number: u32,
    races: &mut Vec<Race>,
) -> Result<(), AllocError>
    requires { set.old.trace ≡ index.now }
    ensures trace { set.new.trace ≡ index.now }
    ensures adds { OnOk result (AddsRaces index.now.events (λ l. Accesses index.now.events l number) races.old.items races.new.items) }
{
    // Variables are below their greatest number, as the trace of an index says.
    let _ = index.trace();
    let Some(var) = VarId::new(number) else {
        return Ok(());
    };
    list_variable(alloc, index, set, var, races)?;
    Ok(())
}

/// The races on the variables of the range.
pub fn list_all(
    alloc: Global,
    index: &Index<'_>,
    set: &mut PairSet<'_>,
    from: u32,
    to: u32,
) -> Result<Vec<Race>, AllocError>
    requires { set.old.trace ≡ index.now }
    ensures trace { set.new.trace ≡ index.now }
    ensures races { IfOk result (λ races. AddsRaces index.now.events (IsInRange index.now.events from to) [] races.items) }
{
    // Variables are below their greatest number, as the trace of an index says.
    let _ = index.trace();
    let mut races = Vec::new(alloc);
    for number in from..to.min(MAX_VARS) {
        list_number(alloc, index, set, number, &mut races)?;
    }
    Ok(races)
}
