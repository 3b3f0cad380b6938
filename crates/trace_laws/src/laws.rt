//! The laws that tie closed sets to reorderings, that what is found determines its list, and that locations do not count,
//! each proved as the contract of a function that does nothing.
//!
//! A set of places is closed where it holds every place that comes before a member in program order, the writer of
//! each read in it, and the release of an acquire in it whenever a later acquire of the same lock is in it too. Closed
//! sets and sync-preserving correct reorderings are of Mathur, Pavlogiannis and Viswanathan (POPL 2021), and deadlock
//! patterns of Tunç, Mathur, Pavlogiannis and Viswanathan (PLDI 2023); forks and joins are this project's own.

ghost use Rattle.trace_laws.specs.Trace.{Lawful};
ghost use Rattle.trace_laws.specs.Closed.{ClosedSetsAreReorderings, ReorderingsAreClosed, EnabledOutsideClosure, RacesOutsideClosure, NeededAreTheClosure, JudgesAgree, LeastDeadlockExists, by_closure};
ghost use Rattle.trace_laws.specs.Findings.{FindingsAreDetermined, by_reorderings};
ghost use Rattle.trace_laws.specs.Locations.{LocationsDoNotCount};

use crate::Event;

/// A closed set of places, listed in the order of the trace, is a sync-preserving correct reordering (POPL 2021).
pub fn closed_sets_are_reorderings(trace: &[Event])
    requires { Lawful trace.now }
    ensures { ClosedSetsAreReorderings trace.now }
{}

/// The places of a sync-preserving correct reordering are a closed set (POPL 2021). The trace need not be lawful.
pub fn reorderings_are_closed(trace: &[Event])
    ensures { ReorderingsAreClosed trace.now }
{}

/// Some sync-preserving correct reordering leaves places enabled together exactly where none of them is in the least
/// closed set that holds all places before them (POPL 2021).
///
/// So two places race exactly where they conflict and neither is in that set; and where they can be left enabled, the
/// places that every such reordering contains are those of that set.
pub fn enabled_outside_closure(trace: &[Event])
    requires { Lawful trace.now }
    ensures enabled { EnabledOutsideClosure trace.now }
    ensures races { RacesOutsideClosure trace.now }
    ensures needed { NeededAreTheClosure trace.now }
{}

/// What is found in a lawful trace is the same, judged by all sync-preserving correct reorderings and by least closed
/// sets: the races with their earliest partners, the deadlocks with their least instances, and the keep of each
/// (POPL 2021, PLDI 2023).
pub fn judges_agree(trace: &[Event])
    requires { Lawful trace.now }
    ensures { JudgesAgree trace.now }
{}

/// A pattern that has a deadlock has one whose place in each position is at most that of every other (PLDI 2023).
pub fn least_deadlock_exists(trace: &[Event])
    requires { Lawful trace.now }
    ensures { LeastDeadlockExists trace.now }
{}

/// What is found in a trace determines its list: two lists of what is found in one trace, for one number of threads and
/// up to one size of patterns, are equal, judged by all sync-preserving correct reorderings and judged by least closed
/// sets. The races, the deadlocks, their keeps and their order are the same.
///
/// So two searches that both answer what is found answer the same, however they share the work: a report is the same for
/// every number of workers.
pub fn findings_are_determined()
    ensures reorderings { FindingsAreDetermined by_reorderings }
    ensures closures { FindingsAreDetermined by_closure }
{}

/// What is found in a trace does not depend on its locations: two traces whose events have the same threads and
/// operations in the same order have the same races and deadlocks, each with the same keep.
pub fn locations_do_not_count()
    ensures { LocationsDoNotCount }
{}
