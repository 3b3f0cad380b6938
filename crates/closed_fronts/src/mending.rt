// Sets by cuts that grow by rows.
ghost use Rattle.std.specs.Prelude.{◌≡◌, ◌<◌, ◌≤◌, ◌+◌, length, Some, IfSome, IsTrue};
ghost use Rattle.trace_laws.specs.Trace.{Before};
ghost use Rattle.closed_fronts.specs.Cuts.{Admits};
ghost use Rattle.closed_fronts.specs.Needs.{IsWriterOfRead};
ghost use Rattle.closed_fronts.specs.Rows.{AreZero, IsSteady, AreWithin, IsMended, IsReady, AreRows};

use crate::joining::are_zero;
use crate::rows::Rows;
use crate::ties::Ties;
use crate::torn::torn;

/// Admits a place, and all that is in each closed set that holds it.
pub fn admit_row(ties: &Ties, rows: &Rows, cuts: &mut [u32], place: u32)
    requires rows { AreRows ties.now.events ties.now.threads rows.now }
    requires place { place < length rows.now }
    requires steady { IsSteady ties.now.events ties.now.threads cuts.old }
    requires within { AreWithin cuts.old (length rows.now + 1) }
    ensures steady { IsSteady ties.now.events ties.now.threads cuts.new }
    ensures within { AreWithin cuts.new (length rows.now + 1) }
    ensures admits { Admits ties.now.events (λ i. i ≡ place) cuts.old cuts.new }
    ensures mended { AreZero cuts.old → IsMended ties.now.events cuts.new }
{
    rows.join_into(cuts, place);
}

// The same for a place that may be given.
fn admit_given(ties: &Ties, rows: &Rows, cuts: &mut [u32], place: Option<u32>)
    requires rows { AreRows ties.now.events ties.now.threads rows.now }
    requires place { IfSome place (λ p. p < length rows.now) }
    requires steady { IsSteady ties.now.events ties.now.threads cuts.old }
    requires within { AreWithin cuts.old (length rows.now + 1) }
    ensures steady { IsSteady ties.now.events ties.now.threads cuts.new }
    ensures within { AreWithin cuts.new (length rows.now + 1) }
    ensures admits { Admits ties.now.events (λ i. place ≡ Some i) cuts.old cuts.new }
    ensures mended { AreZero cuts.old → IsMended ties.now.events cuts.new }
{
    let Some(place) = place else {
        return;
    };
    admit_row(ties, rows, cuts, place);
}

/// The set becomes closed under the rule of releases too.
pub fn mend(ties: &Ties, rows: &Rows, cuts: &mut [u32])
    requires rows { AreRows ties.now.events ties.now.threads rows.now }
    requires steady { IsSteady ties.now.events ties.now.threads cuts.old }
    requires within { AreWithin cuts.old (length rows.now + 1) }
    ensures steady { IsSteady ties.now.events ties.now.threads cuts.new }
    ensures within { AreWithin cuts.new (length rows.now + 1) }
    ensures mended { IsMended ties.now.events cuts.new }
    ensures admits { Admits ties.now.events (λ _. ⊥) cuts.old cuts.new }
{
    // A trace is lawful, as its length says.
    let _ = ties.len();
    let mut start = 0;
    while let Some(acquire) = torn(ties, cuts, start) {
        let Some(release) = ties.release(acquire) else {
            unreachable!()
        };
        admit_row(ties, rows, cuts, release);
        start = ties.event(acquire).thread.value();
    }
}

/// Admits the places before the place in program order. The answer is whether the set is known to be closed under the rule
/// of releases too, as it is where it was empty and one row was joined.
pub fn admit_before(ties: &Ties, rows: &Rows, cuts: &mut [u32], place: u32) -> bool
    requires rows { AreRows ties.now.events ties.now.threads rows.now }
    requires place { place < length ties.now.events }
    requires made { place ≤ length rows.now }
    requires steady { IsSteady ties.now.events ties.now.threads cuts.old }
    requires within { AreWithin cuts.old (length rows.now + 1) }
    ensures steady { IsSteady ties.now.events ties.now.threads cuts.new }
    ensures within { AreWithin cuts.new (length rows.now + 1) }
    ensures admits { Admits ties.now.events (λ i. Before ties.now.events i place) cuts.old cuts.new }
    ensures mended { IsTrue result → IsMended ties.now.events cuts.new }
{
    // A trace is lawful, as its length says.
    let _ = ties.len();
    let empty = are_zero(cuts);
    admit_given(ties, rows, cuts, ties.own(place));
    let Some(joined) = ties.joined(place) else {
        return empty;
    };
    admit_row(ties, rows, cuts, joined);
    false
}

/// Admits the writer of the place.
pub fn admit_writer(ties: &Ties, rows: &Rows, cuts: &mut [u32], place: u32)
    requires rows { AreRows ties.now.events ties.now.threads rows.now }
    requires place { place < length ties.now.events }
    requires made { place ≤ length rows.now }
    requires steady { IsSteady ties.now.events ties.now.threads cuts.old }
    requires within { AreWithin cuts.old (length rows.now + 1) }
    ensures steady { IsSteady ties.now.events ties.now.threads cuts.new }
    ensures within { AreWithin cuts.new (length rows.now + 1) }
    ensures admits { Admits ties.now.events (IsWriterOfRead ties.now.events place) cuts.old cuts.new }
{
    admit_given(ties, rows, cuts, ties.writer(place));
}

/// Admits the place, where the set has all that it needs by itself.
pub fn admit_itself(ties: &Ties, cuts: &mut [u32], place: u32)
    requires place { place < length ties.now.events }
    requires steady { IsSteady ties.now.events ties.now.threads cuts.old }
    requires within { AreWithin cuts.old (place + 1) }
    requires ready { IsReady ties.now.events cuts.old place }
    ensures steady { IsSteady ties.now.events ties.now.threads cuts.new }
    ensures within { AreWithin cuts.new (place + 1) }
    ensures admits { Admits ties.now.events (λ i. i ≡ place) cuts.old cuts.new }
{
    let event = ties.event(place);
    cuts[event.thread.value() as usize] = place + 1;
}
