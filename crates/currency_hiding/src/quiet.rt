//! Where quiet paths of a scalar begin: ways on which nothing disturbs its home.

ghost use Rattle.std.specs.Prelude.{◌≡◌, ◌≢◌, ◌⊎◌, ℕ, ◌<◌, All, Contains, IfOk, None, OnOk, Some, slice_get, true};
ghost use Rattle.std.specs.List.Sorted.{IsNonDecreasing};
ghost use Rattle.debug_records.specs.declared.change.Change as declared-change;
ghost use Rattle.currency_writers.specs.declared.writers.Write as declared-write;
ghost use Rattle.currency_writers.specs.declared.writers.Writer as declared-writer;
ghost use Rattle.currency_writers.specs.declared.writers.Written as declared-written;
ghost use Rattle.currency_writers.specs.Flow.{HasRoom, assigned};
ghost use Rattle.currency_writers.specs.Marks.{mark_at, room_of};
ghost use Rattle.currency_writers.specs.Writers.{AreWriters, HaveOneHome, Writes};
ghost use Rattle.currency_hiding.specs.Found.{IsAsked};
ghost use Rattle.currency_hiding.specs.QuietStarts.{AreQuietStarts, IsBarred, IsDisturbedAt, IsLeastQuietAt, IsTakenFrom, IsWrittenForOther};

use crate::function::{mark_homes, mark_one};
use crate::question::Question;
use currency_writers::{Marks, Write, Writers};
use debug_records::{Change, Kind};
use std::alloc::{AllocError, Global};

/// Where the quiet paths of one scalar begin.
#[derive(Drop)]
pub struct Quiet {
    /// The places that a quiet path does not pass between its ends: they assign the variable or write its home.
    disturbed: Marks<()>,
    /// The places at which none begins: an assignment of the variable went from there, or its home is written there for
    /// another name.
    barred: Marks<()>,
    /// For each place the least one from which a quiet path leads there.
    starts: Marks<u32>,
}

/// Whether a write is one of the home of a scalar for another name.
fn is_for_other(writers: &Writers<'_>, scalar: u32, write: Write) -> bool
    requires { AreWriters writers.now }
    ensures some { result ≡ true → IsWrittenForOther writers.now scalar write.place }
    ensures all { (z : declared-written.Written) → slice_get writers.now.all.items write.number ≡ Some z → z.place
        ≡ write.place → z.name ≢ scalar → HaveOneHome writers.now z.name scalar → result ≡ true }
{
    match writers.at(write.number, write.place) {
        Some(written) => { written.name != scalar && writers.have_one_home(written.name, scalar) }
        None => false,
    }
}

/// The place of a write is marked, if it is one of the home of a scalar for another name and may be marked.
fn mark_other(writers: &Writers<'_>, scalar: u32, write: Write, marks: &mut Marks<()>)
    requires { AreWriters writers.now }
    ensures only { (p : ℕ) → mark_at marks.new p ≢ None → (mark_at marks.old p ≢ None)
        ⊎ IsWrittenForOther writers.entry.now scalar p }
    ensures kept { (p : ℕ) → mark_at marks.old p ≢ None → mark_at marks.new p ≢ None }
    ensures there { (z : declared-written.Written) → slice_get writers.entry.now.all.items write.number ≡ Some z
        → z.place ≡ write.place → z.name ≢ scalar → HaveOneHome writers.entry.now z.name scalar
        → write.place < room_of marks.old → mark_at marks.new write.place ≢ None }
    ensures room { room_of marks.new ≡ room_of marks.old }
{
    if !is_for_other(writers, scalar, write) {
        return;
    }
    mark_one(marks, write.place);
}

/// The places are marked where the home of a scalar is written for another name, as far as they may be.
fn mark_others(writers: &Writers<'_>, scalar: u32, marks: &mut Marks<()>)
    requires { AreWriters writers.now }
    ensures only { (p : ℕ) → mark_at marks.new p ≢ None → (mark_at marks.old p ≢ None)
        ⊎ IsWrittenForOther writers.entry.now scalar p }
    ensures kept { (p : ℕ) → mark_at marks.old p ≢ None → mark_at marks.new p ≢ None }
    ensures marked { (p y : ℕ) (w : declared-writer.Writer) → Writes writers.entry.now p y w → y ≢ scalar
        → HaveOneHome writers.entry.now y scalar → p < room_of marks.old → mark_at marks.new p ≢ None }
    ensures room { room_of marks.new ≡ room_of marks.old }
{
    for write in writers.of_home(scalar) {
        mark_other(writers, scalar, *write, marks);
    }
}

/// The places of changes are marked, as far as they may be.
fn mark_taken(taken: &[Change], marks: &mut Marks<()>)
    ensures only { (p : ℕ) → mark_at marks.new p ≢ None → (mark_at marks.old p ≢ None)
        ⊎ IsTakenFrom taken.entry.now p }
    ensures kept { (p : ℕ) → mark_at marks.old p ≢ None → mark_at marks.new p ≢ None }
    ensures marked { All (λ (c : declared-change.Change).
        c.place.0 < room_of marks.old → mark_at marks.new c.place.0 ≢ None) taken.entry.now }
    ensures room { room_of marks.new ≡ room_of marks.old }
{
    for change in taken {
        mark_one(marks, change.place.0);
    }
}

/// The places that are not marked, of some.
fn unmarked(alloc: Global, places: &[u32], marks: &Marks<()>) -> Result<Vec<u32>, AllocError>
    requires { IsNonDecreasing places.now }
    ensures only { IfOk result
        (λ left. (p : ℕ) → Contains left.items p → Contains places.entry.now p × (mark_at marks.entry.now p ≡ None)) }
    ensures all { IfOk result
        (λ left. (p : ℕ) → Contains places.entry.now p → mark_at marks.entry.now p ≡ None → Contains left.items p) }
    ensures ascend { IfOk result (λ left. IsNonDecreasing left.items) }
{
    let mut left = Vec::new(alloc);
    for place in places {
        if !marks.has(*place) {
            left.push(*place)?;
        }
    }
    Ok(left)
}

impl Quiet {
    /// Of no scalar yet, in a program with places below a number.
    pub fn new(alloc: Global, places: usize) -> Result<Quiet, AllocError>
        ensures disturbed { IfOk result (λ made. room_of made.disturbed ≡ places) }
        ensures barred { IfOk result (λ made. room_of made.barred ≡ places) }
        ensures starts { IfOk result (λ made. room_of made.starts ≡ places) }
    {
        Ok(Quiet {
            disturbed: Marks::new(alloc, places, ())?,
            barred: Marks::new(alloc, places, ())?,
            starts: Marks::new(alloc, places, 0)?,
        })
    }

    /// The places are marked that a quiet path does not pass between its ends, as far as they may be.
    fn mark_disturbed(&mut self, question: Question<'_>)
        requires asked { IsAsked question.changes.now question.search.now question.function.now }
        requires room { HasRoom question.search.now.flow self.old.disturbed }
        ensures marked { (p : ℕ) → p < room_of self.old.disturbed
            → IsDisturbedAt question.entry.search.now question.entry.function.now p
            → mark_at self.new.disturbed p ≢ None }
        ensures only { (p : ℕ) → mark_at self.new.disturbed p ≢ None
            → IsDisturbedAt question.entry.search.now question.entry.function.now p }
        ensures room { room_of self.new.disturbed ≡ room_of self.old.disturbed }
        ensures barred { self.new.barred ≡ self.old.barred }
        ensures starts { self.new.starts ≡ self.old.starts }
    {
        self.disturbed.forget();
        let function = question.function;
        mark_homes(&function.writers, function.scalar, &mut self.disturbed);
        self.disturbed.mark(question.search.assigning(), ());
    }

    /// The places are marked at which no quiet path begins although they assign the variable.
    fn mark_barred(&mut self, alloc: Global, question: Question<'_>) -> Result<(), AllocError>
        requires asked { IsAsked question.changes.now question.search.now question.function.now }
        requires room { HasRoom question.search.now.flow self.old.barred }
        ensures marked { OnOk result ((p : ℕ) → assigned question.entry.search.now.flow p ≡ true
            → IsBarred question.entry.changes.now question.entry.search.now question.entry.function.now p
            → mark_at self.new.barred p ≢ None) }
        ensures only { OnOk result ((p : ℕ) → mark_at self.new.barred p ≢ None
            → IsBarred question.entry.changes.now question.entry.search.now question.entry.function.now p) }
        ensures room { OnOk result (room_of self.new.barred ≡ room_of self.old.barred) }
        ensures disturbed { OnOk result (self.new.disturbed ≡ self.old.disturbed) }
        ensures starts { OnOk result (self.new.starts ≡ self.old.starts) }
    {
        self.barred.forget();
        let function = question.function;
        mark_others(&function.writers, function.scalar, &mut self.barred);
        let changes = question.changes;
        let taken = changes.of(alloc, question.search.var(), Kind::Removed)?;
        mark_taken(&taken, &mut self.barred);
        Ok(())
    }

    /// The questions are on this scalar from here on.
    pub fn turn_to(&mut self, alloc: Global, question: Question<'_>) -> Result<(), AllocError>
        requires asked { IsAsked question.changes.now question.search.now question.function.now }
        requires disturbed { HasRoom question.search.now.flow self.old.disturbed }
        requires barred { HasRoom question.search.now.flow self.old.barred }
        requires starts { room_of self.old.disturbed ≡ room_of self.old.starts }
        ensures starts { OnOk result
            (AreQuietStarts question.entry.changes.now question.entry.search.now question.entry.function.now
            self.new.starts) }
        ensures disturbed_room { OnOk result (room_of self.new.disturbed ≡ room_of self.old.disturbed) }
        ensures barred_room { OnOk result (room_of self.new.barred ≡ room_of self.old.barred) }
        ensures starts_room { OnOk result (room_of self.new.starts ≡ room_of self.old.starts) }
    {
        self.mark_disturbed(question);
        self.mark_barred(alloc, question)?;
        let from = unmarked(alloc, question.search.assigning(), &self.barred)?;
        self.starts.forget();
        let ways = question.search.past(&self.disturbed);
        ways.find_starts(alloc, &from, &mut self.starts)?;
        Ok(())
    }

    /// The least place at which a quiet path to a place begins, if there is one.
    pub fn at(&self, place: u32) -> Option<u32>
        ensures { result ≡ mark_at self.now.starts place }
    {
        self.starts.at(place)
    }
}
