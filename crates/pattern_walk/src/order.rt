// Which locks are held where others are taken.
ghost use Rattle.std.specs.Prelude.{ℕ, ◌≡◌, ◌<◌, ◌↔◌, ◌⊎◌, [], length, All, Contains, OnOk, IfOk, Vec};
ghost use Rattle.std.specs.declared.alloc.Global.{Global};
ghost use Rattle.trace_laws.specs.Reordering.{Rises};
ghost use Rattle.pattern_walk.specs.Linked.{AreLinks};
ghost use Rattle.pattern_walk.specs.Orders.{AreHolders, AreBefore, AddsClass};

use crate::links::Links;
use lock_graph::Classes;
use sp_base::OutOfMemory;
use std::alloc::Global;

/// For each lock the classes that hold it, in the order of their numbers, and the locks that some class holds which takes
/// it. Classes without links are left out.
#[derive(Drop)]
pub struct LockOrder {
    pub holders: Vec<Vec<u32>>,
    pub before: Vec<Vec<u32>>,
}

// An empty list for each lock.
fn empty_lists(alloc: Global, locks: u32) -> Result<Vec<Vec<u32>>, OutOfMemory>
    ensures locks { IfOk result (λ lists. length lists.items ≡ locks) }
    ensures empty { IfOk result (λ lists. All (λ (v : Vec ℕ Global). v.items ≡ []) lists.items) }
{
    let mut lists = Vec::with_capacity(alloc, locks as usize)?;
    for _ in 0..locks {
        let Ok(()) = lists.push(Vec::new(alloc)) else {
            return Err(OutOfMemory);
        };
    }
    Ok(lists)
}

// Adds a class to the holders of each lock that it holds.
fn add_holder(holders: &mut Vec<Vec<u32>>, held: &[u32], class: u32) -> Result<(), OutOfMemory>
    requires order { Rises held.now }
    requires below { (l : ℕ) → Contains held.now l → l < length holders.old.items }
    ensures { OnOk result (AddsClass holders.old.items held.now class holders.new.items) }
{
    for &lock in held {
        let Ok(()) = holders[lock as usize].push(class) else {
            return Err(OutOfMemory);
        };
    }
    Ok(())
}

// Adds locks to a list, those that it has not got yet.
fn add_locks(list: &mut Vec<u32>, locks: &[u32]) -> Result<(), OutOfMemory>
    ensures { OnOk result ((l : ℕ) → Contains list.new.items l ↔ (Contains list.old.items l ⊎ Contains locks.now l)) }
{
    for &lock in locks {
        if list.contains(&lock) {
            continue;
        }
        let Ok(()) = list.push(lock) else {
            return Err(OutOfMemory);
        };
    }
    Ok(())
}

// For each lock the classes with links that hold it.
fn holders_of(
    alloc: Global,
    classes: &Classes<'_>,
    links: &Links,
) -> Result<Vec<Vec<u32>>, OutOfMemory>
    requires { AreLinks classes.now.classes (length classes.now.classes) links.now.flags.items }
    ensures { IfOk result (λ holders. AreHolders classes.now.classes (length classes.now.classes) holders.items) }
{
    let mut holders = empty_lists(alloc, classes.locks())?;
    for class in 0..classes.len() {
        if !links.has(class) {
            continue;
        }
        add_holder(&mut holders, classes.held(class), class)?;
    }
    Ok(holders)
}

// For each lock the locks that some class with a link holds which takes it.
fn before_of(
    alloc: Global,
    classes: &Classes<'_>,
    links: &Links,
) -> Result<Vec<Vec<u32>>, OutOfMemory>
    requires { AreLinks classes.now.classes (length classes.now.classes) links.now.flags.items }
    ensures { IfOk result (λ before. AreBefore classes.now.classes (length classes.now.classes) before.items) }
{
    let mut before = empty_lists(alloc, classes.locks())?;
    for class in 0..classes.len() {
        if !links.has(class) {
            continue;
        }
        let lock = classes.lock(class).value() as usize;
        add_locks(&mut before[lock], classes.held(class))?;
    }
    Ok(before)
}

impl LockOrder {
    /// The order of the locks of classes. The only error is want of memory.
    pub fn new(
        alloc: Global,
        classes: &Classes<'_>,
        links: &Links,
    ) -> Result<LockOrder, OutOfMemory>
        requires { AreLinks classes.now.classes (length classes.now.classes) links.now.flags.items }
        ensures holders { IfOk result (λ order. AreHolders classes.now.classes (length classes.now.classes) order.holders.items) }
        ensures before { IfOk result (λ order. AreBefore classes.now.classes (length classes.now.classes) order.before.items) }
    {
        Ok(LockOrder {
            holders: holders_of(alloc, classes, links)?,
            before: before_of(alloc, classes, links)?,
        })
    }
}
