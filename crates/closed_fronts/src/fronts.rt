//! The closures of the places of a trace.

ghost use Rattle.std.specs.Prelude.{ℕ, ◌≡◌, ◌<◌, ◌≤◌, ◌+◌, ◌↔◌, length, IfOk, OnOk, IfSome, IfNone, IsTrue, false, Some, slice_get};
ghost use Rattle.trace_laws.specs.Trace.{thread_at, Before};
ghost use Rattle.trace_laws.specs.Traces.{IsTrace};
ghost use Rattle.trace_laws.specs.Findings.{HasCount};
ghost use Rattle.closed_fronts.specs.Cuts.{IsHeld, Admits};
ghost use Rattle.closed_fronts.specs.Tables.{IsAcquire, IsLatest, IsOwnBefore, IsJoinBefore, IsOuter, IsOpened, IsNextRow};
ghost use Rattle.closed_fronts.specs.Rows.{AreZero, IsSteady, IsMended, IsTorn, IsRow, AreRows, row_in, IsBelowCut, IsLocalBehind, IsImplied};
ghost use Rattle.closed_fronts.specs.Needs.{IsWriterOfRead};

use crate::mending::{admit_before, admit_itself, admit_row, admit_writer, mend};
use crate::places::Places;
use crate::rows::Rows;
use crate::ties::Ties;
use crate::torn::torn;
use sp_base::OutOfMemory;
use std::alloc::Global;
use std::marker::Model;
use trace_laws::{Event, Op, Trace};

/// For each place of a trace the least closed set that holds it.
///
/// Contracts see the trace.
#[derive(Drop)]
pub struct Fronts<'a> {
    ties: Ties<'a>,
    rows: Rows,
}

impl<'a> Model for Fronts<'a> {
    ghost use Rattle.trace_laws.specs.Traces.{History};

    ghost Value = { History };

    ghost use Rattle.closed_fronts.specs.Built.{history_in, AreBuilt};

    ghost view = { history_in };

    ghost invariant = { AreBuilt };
}

// The empty set becomes the row of a place, where there is one for each place before it.
fn grow_row(ties: &Ties, rows: &Rows, cuts: &mut [u32], place: u32)
    requires rows { AreRows ties.now.events ties.now.threads rows.now }
    requires place { place < length ties.now.events }
    requires made { length rows.now ≡ place }
    requires size { length cuts.old ≡ ties.now.threads }
    requires empty { AreZero cuts.old }
    ensures { IsRow ties.now.events ties.now.threads place cuts.new }
{
    let _ = admit_before(ties, rows, cuts, place);
    admit_writer(ties, rows, cuts, place);
    admit_itself(ties, cuts, place);
    mend(ties, rows, cuts);
}

// The next place gets its row. There is room for a set by cuts.
fn note_whole(
    alloc: Global,
    ties: &Ties,
    rows: &mut Rows,
    room: &mut [u32],
    place: u32,
) -> Result<(), OutOfMemory>
    requires rows { AreRows ties.now.events ties.now.threads rows.old }
    requires place { place < length ties.now.events }
    requires made { length rows.old ≡ place }
    requires room { length room.old ≡ ties.now.threads }
    ensures rows { OnOk result (AreRows ties.now.events ties.now.threads rows.new) }
    ensures made { OnOk result (length rows.new ≡ place + 1) }
    ensures room { length room.new ≡ ties.now.threads }
{
    // A trace is lawful, as its length says.
    let _ = ties.len();
    room.fill(0);
    grow_row(ties, rows, room, place);
    let event = ties.event(place);
    rows.push(alloc, ties.own(place), room, event.thread.value())
}

// Whether an event acquires a lock.
fn is_acquire(event: &Event) -> bool
    ensures { result ≡ false → (l : ℕ) → event.now.op ≡ Op.Acquire l → ⊥ }
{
    match &event.op {
        Op::Acquire(_) => true,
        _ => false,
    }
}

// Whether a place is in the row of a source.
fn is_below(ties: &Ties, rows: &Rows, source: u32, place: u32) -> bool
    requires source { source < length rows.now }
    requires size { length (row_in rows.now source) ≡ ties.now.threads }
    requires place { place < length ties.now.events }
    ensures { IsTrue result → IsHeld ties.now.events (row_in rows.now source) place }
{
    let event = ties.event(place);
    place < rows.cut(source, event.thread.value())
}

// Whether the writer of the place, if there is one, is in the row of a source.
fn has_writer(ties: &Ties, rows: &Rows, source: u32, place: u32) -> bool
    requires source { source < length rows.now }
    requires size { length (row_in rows.now source) ≡ ties.now.threads }
    requires place { place < length ties.now.events }
    ensures { IsTrue result → (w : ℕ) → IsWriterOfRead ties.now.events place w → IsHeld ties.now.events (row_in rows.now source) w }
{
    match ties.writer(place) {
        Some(writer) => is_below(ties, rows, source, writer),
        None => true,
    }
}

// The latest place before the place in its thread, where the place needs nothing but what that has.
fn local_source(ties: &Ties, rows: &Rows, place: u32) -> Option<u32>
    requires rows { AreRows ties.now.events ties.now.threads rows.now }
    requires place { place < length ties.now.events }
    requires made { length rows.now ≡ place }
    ensures { IfSome result (λ q. IsLocalBehind ties.now.events (row_in rows.now q) place q) }
{
    let event = ties.event(place);
    if is_acquire(&event) {
        return None;
    }
    if ties.joined(place).is_some() {
        return None;
    }
    let Some(source) = ties.own(place) else {
        return None;
    };
    if !has_writer(ties, rows, source, place) {
        return None;
    }
    Some(source)
}

// The next place, which needs nothing but what its source has, gets its row.
fn note_local(
    alloc: Global,
    ties: &Ties,
    rows: &mut Rows,
    source: u32,
    place: u32,
) -> Result<(), OutOfMemory>
    requires rows { AreRows ties.now.events ties.now.threads rows.old }
    requires place { place < length ties.now.events }
    requires made { length rows.old ≡ place }
    requires local { IsLocalBehind ties.now.events (row_in rows.old source) place source }
    ensures rows { OnOk result (AreRows ties.now.events ties.now.threads rows.new) }
    ensures made { OnOk result (length rows.new ≡ place + 1) }
{
    // A trace is lawful, as its length says.
    let _ = ties.len();
    let event = ties.event(place);
    rows.push_shared(alloc, source, event.thread.value())
}

// Notes the next place: it gets its row. There is room for a set by cuts.
fn note(
    alloc: Global,
    ties: &Ties,
    rows: &mut Rows,
    room: &mut [u32],
    place: u32,
) -> Result<(), OutOfMemory>
    requires rows { AreRows ties.now.events ties.now.threads rows.old }
    requires place { place < length ties.now.events }
    requires made { length rows.old ≡ place }
    requires room { length room.old ≡ ties.now.threads }
    ensures rows { OnOk result (AreRows ties.now.events ties.now.threads rows.new) }
    ensures made { OnOk result (length rows.new ≡ place + 1) }
    ensures room { length room.new ≡ ties.now.threads }
{
    match local_source(ties, rows, place) {
        Some(source) => note_local(alloc, ties, rows, source, place),
        None => note_whole(alloc, ties, rows, room, place),
    }
}

// The rows of all places.
fn rows_of(alloc: Global, ties: &Ties) -> Result<Rows, OutOfMemory>
    ensures size { IfOk result (λ rows. length rows ≡ length ties.now.events) }
    ensures rows { IfOk result (λ rows. AreRows ties.now.events ties.now.threads rows) }
    ensures trace { IsTrace ties.now.events ties.now.threads }
{
    let mut rows = Rows::new(alloc, ties.len(), ties.threads())?;
    let mut room = vec![in alloc; 0; ties.threads() as usize]?;
    for place in 0..ties.len() {
        note(alloc, ties, &mut rows, &mut room, place)?;
    }
    Ok(rows)
}

impl<'a> Fronts<'a> {
    /// The fronts of a trace. The only error is want of memory.
    pub fn build(alloc: Global, trace: &'a Trace) -> Result<Fronts<'a>, OutOfMemory>
        ensures { IfOk result (λ fronts. fronts ≡ trace.now) }
    {
        let ties = Ties::build(alloc, trace)?;
        let rows = rows_of(alloc, &ties)?;
        Ok(Fronts { ties, rows })
    }

    /// The tables on the trace.
    pub fn places(&self) -> &Places<'a>
        ensures { result.now ≡ self.now }
    {
        self.ties.places()
    }

    /// How many threads there are.
    pub fn threads(&self) -> u16
        ensures value { result ≡ self.now.threads }
        ensures trace { IsTrace self.now.events self.now.threads }
    {
        self.ties.threads()
    }

    /// The event at a place.
    pub fn event(&self, place: u32) -> Event
        requires { place < length self.now.events }
        ensures event { slice_get self.now.events place ≡ Some result }
        ensures thread { result.thread < self.now.threads }
    {
        self.ties.event(place)
    }

    /// How many places of a thread are below its cut, which is just behind a place of the thread.
    pub fn count(&self, thread: u16, cut: u32) -> u32
        requires { (k : ℕ) → cut ≡ k + 1 → thread_at self.now.events k ≡ Some thread }
        ensures { HasCount (IsBelowCut self.now.events thread cut) result }
    {
        if cut == 0 {
            return 0;
        }
        self.ties.local(cut - 1) + 1
    }

    /// The latest section of the thread of a place that is open just behind the place, by its acquire.
    pub fn opened(&self, place: u32) -> Option<u32>
        requires { place < length self.now.events }
        ensures { IsOpened self.now.events place result }
    {
        self.ties.opened(place)
    }

    /// The latest section of the thread of a place that is open just before the place, by its acquire.
    pub fn outer(&self, place: u32) -> Option<u32>
        requires { place < length self.now.events }
        ensures { IsOuter self.now.events place result }
    {
        self.ties.outer(place)
    }

    /// For each thread its first acquire behind an acquire of the same lock, or the number of all events.
    pub fn next(&self, acquire: u32) -> &[u32]
        requires { IsAcquire self.now.events acquire }
        ensures { IsNextRow self.now.events self.now.threads acquire result.now }
    {
        self.ties.next(acquire)
    }

    /// The latest place before the place that is of its thread or forks that.
    pub fn own(&self, place: u32) -> Option<u32>
        requires { place < length self.now.events }
        ensures { IsLatest (IsOwnBefore self.now.events place) result }
    {
        self.ties.own(place)
    }

    /// Where the place is a join: the latest place before it that is of the joined thread or forks that.
    pub fn joined(&self, place: u32) -> Option<u32>
        requires { place < length self.now.events }
        ensures { IsLatest (IsJoinBefore self.now.events place) result }
    {
        self.ties.joined(place)
    }

    /// The writer of the place, where that is a read that has one.
    pub fn writer(&self, place: u32) -> Option<u32>
        requires { place < length self.now.events }
        ensures { (w : ℕ) → (result ≡ Some w) ↔ IsWriterOfRead self.now.events place w }
    {
        self.ties.writer(place)
    }

    /// Whether a place is in the row behind the latest place before the later one in its thread. Then it is in each
    /// closed set that holds all places before the later one.
    pub fn precedes(&self, place: u32, later: u32) -> bool
        requires place { place < length self.now.events }
        requires later { later < length self.now.events }
        ensures { IsTrue result → IsImplied self.now.events later place }
    {
        let Some(source) = self.ties.own(later) else {
            return false;
        };
        is_below(&self.ties, &self.rows, source, place)
    }

    /// The acquire of some section that the set of the cuts tears. The search begins at a thread, and goes round.
    pub fn torn(&self, cuts: &[u32], start: u16) -> Option<u32>
        requires steady { IsSteady self.now.events self.now.threads cuts.now }
        requires start { start ≤ self.now.threads }
        ensures some { IfSome result (IsTorn self.now.events cuts.now) }
        ensures none { IfNone result (IsMended self.now.events cuts.now) }
    {
        torn(&self.ties, cuts, start)
    }

    /// Admits a place to the set of the cuts, and all that is in each closed set that holds it.
    pub fn admit(&self, cuts: &mut [u32], place: u32)
        requires place { place < length self.now.events }
        requires steady { IsSteady self.now.events self.now.threads cuts.old }
        ensures steady { IsSteady self.now.events self.now.threads cuts.new }
        ensures admits { Admits self.now.events (λ i. i ≡ place) cuts.old cuts.new }
    {
        admit_row(&self.ties, &self.rows, cuts, place);
    }

    /// Admits the places before a place in program order in the same way. The answer is whether the set is known to tear no
    /// section.
    pub fn admit_before(&self, cuts: &mut [u32], place: u32) -> bool
        requires place { place < length self.now.events }
        requires steady { IsSteady self.now.events self.now.threads cuts.old }
        ensures steady { IsSteady self.now.events self.now.threads cuts.new }
        ensures admits { Admits self.now.events (λ i. Before self.now.events i place) cuts.old cuts.new }
        ensures mended { IsTrue result → IsMended self.now.events cuts.new }
    {
        admit_before(&self.ties, &self.rows, cuts, place)
    }
}
