// The earliest place that a place races with.
ghost use Rattle.std.specs.Prelude.{ℕ, ◌≡◌, ◌<◌, ◌≤◌, IfNone, IfSome, length, slice_index_or};
ghost use Rattle.trace_laws.specs.Reordering.{Conflict};
ghost use Rattle.race_scan.specs.Partners.{IsPartner, NoRaceBelow};
ghost use Rattle.race_scan.specs.Grouped.{AreOfThreads, HasPlace};
ghost use Rattle.race_scan.specs.Passed.{ArePassed, AreReady, IsHead, IsEarliest};

use crate::groups::Group;
use crate::pair_set::PairSet;
use crate::passing::{pass_all, pass_tried};
use trace_index::Index;

// A place of a group.
#[derive(Clone, Copy)]
struct Head {
    group: usize,
    place: u32,
}

// The place at a position, or another one where there is none.
fn place_or(places: &[u32], position: usize, other: u32) -> u32
    ensures { result ≡ slice_index_or places.now position other }
{
    if position < places.len() {
        return places[position];
    }
    other
}

// The earliest place that is not passed, where it stands before the later place.
fn earliest(groups: &[Group], passed: &[usize], later: u32) -> Option<Head>
    requires { length passed.now ≡ length groups.now }
    ensures group { IfSome result (λ head. head.group < length groups.now) }
    ensures some { IfSome result (λ head. IsEarliest groups.now passed.now later head.group head.place) }
    ensures none { IfNone result ((i e : ℕ) → IsHead groups.now passed.now i e → later ≤ e) }
{
    let mut best = 0;
    let mut bound = later;
    for group in 0..groups.len() {
        let place = place_or(&groups[group].places, passed[group], later);
        if place < bound {
            best = group;
            bound = place;
        }
    }
    if bound == later {
        return None;
    }
    Some(Head {
        group: best,
        place: bound,
    })
}

// The earliest place that the later place races with, of those that are not passed. The earliest of these is tried; where
// it does not race, all that the set has of its group is passed.
fn search(
    index: &Index<'_>,
    set: &mut PairSet<'_>,
    groups: &[Group],
    passed: &mut [usize],
    later: u32,
) -> Option<u32>
    requires trace { set.old.trace ≡ index.now }
    requires later { later < length index.now.events }
    requires groups { AreOfThreads index.now.events groups.now }
    requires all { (e : ℕ) → Conflict index.now.events e later → HasPlace groups.now e }
    requires passed { ArePassed index.now.events later groups.now passed.old }
    requires ready { AreReady index.now.events later groups.now passed.old }
    ensures trace { set.new.trace ≡ index.now }
    ensures passed { ArePassed index.now.events later groups.now passed.new }
    ensures none { IfNone result (NoRaceBelow index.now.events later later) }
    ensures some { IfSome result (IsPartner index.now.events later) }
{
    // A trace is lawful, as its length says.
    let _ = index.trace().len();
    while let Some(head) = earliest(groups, passed, later) {
        set.raise(head.place, later);
        if !set.has(head.place) {
            return Some(head.place);
        }
        let next = pass_tried(
            index,
            set,
            &groups[head.group].places,
            later,
            passed[head.group],
        );
        passed[head.group] = next;
    }
    None
}

/// The same, where those places are passed first that are known to be out without a set. Where no other one stands before
/// the later place, no set is made.
pub fn partner(
    index: &Index<'_>,
    set: &mut PairSet<'_>,
    groups: &[Group],
    passed: &mut [usize],
    later: u32,
) -> Option<u32>
    requires trace { set.old.trace ≡ index.now }
    requires later { later < length index.now.events }
    requires groups { AreOfThreads index.now.events groups.now }
    requires all { (e : ℕ) → Conflict index.now.events e later → HasPlace groups.now e }
    requires passed { ArePassed index.now.events later groups.now passed.old }
    ensures trace { set.new.trace ≡ index.now }
    ensures passed { ArePassed index.now.events later groups.now passed.new }
    ensures none { IfNone result (NoRaceBelow index.now.events later later) }
    ensures some { IfSome result (IsPartner index.now.events later) }
{
    pass_all(index, groups, passed, later);
    search(index, set, groups, passed, later)
}
