// The accesses of a variable by thread.
ghost use Rattle.std.specs.Prelude.{ℕ, ◌≡◌, ◌<◌, ◌∷◌, [], IfOk, IfSome, OnOk, length, Some, slice_get};
ghost use Rattle.race_scan.specs.Grouped.{AreGroups, IsLonger, IsNoted};

use crate::candidates::thread_of;
use sp_base::VarId;
use std::alloc::{AllocError, Global};
use trace_index::Index;

/// Places of one thread, in the order of the trace.
#[derive(Drop)]
pub struct Group {
    pub thread: u16,
    pub places: Vec<u32>,
}

// The position of a group of the thread.
fn position_of(groups: &[Group], thread: u16) -> Option<usize>
    ensures below { IfSome result (λ i. i < length groups.now) }
    ensures thread { IfSome result (λ i. (g : Group) → slice_get groups.now i ≡ Some g → g.thread ≡ thread) }
{
    for position in 0..groups.len() {
        if groups[position].thread == thread {
            return Some(position);
        }
    }
    None
}

// The group of one place.
fn group_of(alloc: Global, thread: u16, place: u32) -> Result<Group, AllocError>
    ensures thread { IfOk result (λ g. g.thread ≡ thread) }
    ensures places { IfOk result (λ g. g.places.items ≡ place ∷ []) }
{
    let mut places = Vec::new(alloc);
    places.push(place)?;
    Ok(Group { thread, places })
}

// Adds a place to a group.
fn add(group: &mut Group, place: u32) -> Result<(), AllocError>
    ensures { OnOk result (IsLonger group.old place group.new) }
{
    group.places.push(place)?;
    Ok(())
}

// Notes a place of the thread.
fn note(alloc: Global, groups: &mut Vec<Group>, thread: u16, place: u32) -> Result<(), AllocError>
    ensures { OnOk result (IsNoted groups.old.items thread place groups.new.items) }
{
    let Some(position) = position_of(groups, thread) else {
        let group = group_of(alloc, thread, place)?;
        groups.push(group)?;
        return Ok(());
    };
    add(&mut groups[position], place)?;
    Ok(())
}

/// The accesses of a variable by thread.
pub fn groups_of(alloc: Global, index: &Index<'_>, var: VarId) -> Result<Vec<Group>, AllocError>
    ensures { IfOk result (λ groups. AreGroups index.now.events var groups.items) }
{
    let places = index.accesses(var);
    let mut groups = Vec::new(alloc);
    for position in 0..places.len() {
        let place = places[position];
        note(alloc, &mut groups, thread_of(index, place), place)?;
    }
    Ok(groups)
}
