// Sets that are mended by sections, each of which is asked of the index.
ghost use Rattle.std.specs.Prelude.{ℕ, ◌≡◌, ◌<◌, ◌≤◌, ◌+◌, ◌↔◌, ◌⊎◌, length, IsTrue, Some};
ghost use Rattle.trace_laws.specs.Trace.{Before, IsReleaseOf};
ghost use Rattle.trace_laws.specs.Closed.{IsClosure};
ghost use Rattle.closed_fronts.specs.Tables.{IsAcquire};
ghost use Rattle.closed_fronts.specs.Cuts.{Admits, flags_of};
ghost use Rattle.closed_fronts.specs.Rows.{IsSteady, IsMended, IsTorn};
ghost use Rattle.sp_closure.specs.Members.{has};
ghost use Rattle.sp_closure.specs.Asked.{HasEnd, AreAsked};

use sp_base::Steps;
use std::marker::Brand;
use std::sync::ledger::Ledger;
use trace_index::Index;
use trace_laws::Op;

// The release of an acquire. Its section is asked of the index, which is one step.
fn ask<L: Ledger>(index: &Index<'_>, acquire: u32, steps: &mut Steps<L>) -> Option<u32>
    requires { IsAcquire index.now.events acquire }
    ensures release { (r : ℕ) → (result ≡ Some r) ↔ IsReleaseOf index.now.events acquire r }
    ensures steps { steps.new ≡ steps.old + 1 }
{
    let event = index.trace().event(acquire);
    let Op::Acquire(lock) = &event.op else {
        unreachable!()
    };
    let number = index.section_number(acquire);
    let Some(section) = index.next_section(*lock, event.thread, number, steps) else {
        unreachable!()
    };
    section.release
}

// Admits the release of a torn section, which is asked in one step.
fn mend_section<L: Ledger>(index: &Index<'_>, cuts: &mut [u32], acquire: u32, steps: &mut Steps<L>)
    requires steady { IsSteady index.now.events index.now.threads cuts.old }
    requires torn { IsTorn index.now.events cuts.old acquire }
    ensures steady { IsSteady index.now.events index.now.threads cuts.new }
    ensures admits { Admits index.now.events (λ _. ⊥) cuts.old cuts.new }
    ensures ended { HasEnd index.now.events cuts.new acquire }
    ensures steps { steps.new ≡ steps.old + 1 }
{
    let Some(release) = ask(index, acquire, steps) else {
        unreachable!()
    };
    index.fronts().admit(cuts, release);
}

// The set becomes closed under the rule of releases too. Each section that is mended is asked, and no other.
fn mend<L: Ledger>(
    index: &Index<'_>,
    cuts: &mut [u32],
    asked: &mut Steps<Brand>,
    steps: &mut Steps<L>,
)
    requires steady { IsSteady index.now.events index.now.threads cuts.old }
    requires asked { AreAsked index.now.events cuts.old asked.old }
    ensures steady { IsSteady index.now.events index.now.threads cuts.new }
    ensures mended { IsMended index.now.events cuts.new }
    ensures admits { Admits index.now.events (λ _. ⊥) cuts.old cuts.new }
    ensures asked { AreAsked index.now.events cuts.new asked.new }
    ensures rises { asked.old ≤ asked.new }
    ensures steps { steps.new + asked.old ≡ steps.old + asked.new }
{
    let fronts = index.fronts();
    let mut start = 0;
    while let Some(acquire) = fronts.torn(cuts, start) {
        start = fronts.event(acquire).thread.value();
        mend_section(index, cuts, acquire, steps);
        asked.tick();
    }
}

/// The set becomes the least closed set that holds it and all places before the place in program order. It is one step, and
/// one more for each section that is asked.
pub fn grow<L: Ledger>(
    index: &Index<'_>,
    cuts: &mut [u32],
    place: u32,
    asked: &mut Steps<Brand>,
    steps: &mut Steps<L>,
)
    requires place { place < length index.now.events }
    requires steady { IsSteady index.now.events index.now.threads cuts.old }
    requires asked { AreAsked index.now.events cuts.old asked.old }
    ensures steady { IsSteady index.now.events index.now.threads cuts.new }
    ensures mended { IsMended index.now.events cuts.new }
    ensures closure { IsClosure index.now.events (λ i. IsTrue (has (flags_of index.now.events cuts.old) i) ⊎ Before index.now.events i place) (has (flags_of index.now.events cuts.new)) }
    ensures asked { AreAsked index.now.events cuts.new asked.new }
    ensures rises { asked.old ≤ asked.new }
    ensures steps { steps.new + asked.old ≡ steps.old + asked.new + 1 }
{
    steps.tick();
    if index.fronts().admit_before(cuts, place) {
        return;
    }
    mend(index, cuts, asked, steps);
}
