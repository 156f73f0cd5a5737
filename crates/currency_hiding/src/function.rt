//! A function, of which it is asked what hides its scalars.

ghost use Rattle.std.specs.Prelude.{◌≡◌, ◌≢◌, ◌⊎◌, ◌↔◌, ℕ, ◌<◌, ◌≤◌, All, Contains, IfOk, IfSome, None, OnOk, Some, length, slice_get, true};
ghost use Rattle.debug_records.specs.declared.change.Change as declared-change;
ghost use Rattle.graph_core.specs.Graphs.{graph_view};
ghost use Rattle.currency_writers.specs.Marks.{mark_at, room_of};
ghost use Rattle.graph_homes.specs.Reused.{first_copy};
ghost use Rattle.currency_writers.specs.declared.writers.Writer as declared-writer;
ghost use Rattle.currency_writers.specs.declared.writers.Written as declared-written;
ghost use Rattle.currency_writers.specs.declared.writers.Write as declared-write;
ghost use Rattle.currency_writers.specs.Copies.{AreCopies};
ghost use Rattle.currency_writers.specs.Writers.{AreHomed, AreWriters, HaveOneHome, Writes};
ghost use Rattle.currency_hiding.specs.Changes.{AreListed, log_of};
ghost use Rattle.currency_hiding.specs.Found.{AreCopiesBelow, AreForeign, ArePlaced, IsCopied, IsForeign, IsForeignWrite, IsFunction, IsHomeWritten, IsOn, IsOwn};

use crate::changes::Changes;
use currency_writers::{Copies, Marks, Write, Writers};
use debug_records::{Change, Kind, Place, Var};
use graph_core::Graph;
use graph_homes::Home;
use std::alloc::{AllocError, Global};

/// What is asked of a function for one scalar after the other.
#[derive(Drop)]
pub struct Function<'a> {
    pub writers: Writers<'a>,
    pub copies: Copies<'a>,
    /// The scalar in question.
    pub scalar: u32,
    /// The places where its home is written.
    pub written: Marks<()>,
    /// The temporaries that keep moved computations of its value.
    pub own: Marks<()>,
}

/// A place or name is marked from here on, if it may be.
pub fn mark_one(marks: &mut Marks<()>, place: u32)
    ensures only { (p : ℕ) → mark_at marks.new p ≢ None → (mark_at marks.old p ≢ None) ⊎ (p ≡ place) }
    ensures kept { (p : ℕ) → mark_at marks.old p ≢ None → mark_at marks.new p ≢ None }
    ensures there { place < room_of marks.old → mark_at marks.new place ≢ None }
    ensures room { room_of marks.new ≡ room_of marks.old }
{
    if !marks.has_room(place) {
        return;
    }
    marks.put(place, ());
}

/// Whether a write is one of the home of a scalar.
fn is_of_home(writers: &Writers<'_>, scalar: u32, write: Write) -> bool
    requires { AreWriters writers.now }
    ensures some { result ≡ true → IsHomeWritten writers.now scalar write.place }
    ensures all { (z : declared-written.Written) → slice_get writers.now.all.items write.number ≡ Some z → z.place
        ≡ write.place
        → HaveOneHome writers.now z.name scalar → result ≡ true }
{
    match writers.at(write.number, write.place) {
        Some(written) => writers.have_one_home(written.name, scalar),
        None => false,
    }
}

/// The place of a write is marked, if it is one of the home of a scalar and may be marked.
fn mark_home(writers: &Writers<'_>, scalar: u32, write: Write, marks: &mut Marks<()>)
    requires { AreWriters writers.now }
    ensures only { (p : ℕ) → mark_at marks.new p ≢ None → (mark_at marks.old p ≢ None)
        ⊎ IsHomeWritten writers.entry.now scalar p }
    ensures kept { (p : ℕ) → mark_at marks.old p ≢ None → mark_at marks.new p ≢ None }
    ensures there { (z : declared-written.Written) → slice_get writers.entry.now.all.items write.number ≡ Some z
        → z.place ≡ write.place → HaveOneHome writers.entry.now z.name scalar → write.place < room_of marks.old
        → mark_at marks.new write.place ≢ None }
    ensures room { room_of marks.new ≡ room_of marks.old }
{
    if !is_of_home(writers, scalar, write) {
        return;
    }
    mark_one(marks, write.place);
}

/// The places are marked where the home of a scalar is written, as far as they may be.
pub fn mark_homes(writers: &Writers<'_>, scalar: u32, marks: &mut Marks<()>)
    requires writers { AreWriters writers.now }
    requires none { (p : ℕ) → mark_at marks.old p ≡ None }
    ensures only { (p : ℕ) → mark_at marks.new p ≢ None → IsHomeWritten writers.entry.now scalar p }
    ensures marked { (p y : ℕ) (w : declared-writer.Writer) → Writes writers.entry.now p y w
        → HaveOneHome writers.entry.now y scalar → p < room_of marks.old → mark_at marks.new p ≢ None }
    ensures room { room_of marks.new ≡ room_of marks.old }
{
    for write in writers.of_home(scalar) {
        mark_home(writers, scalar, *write, marks);
    }
}

/// The temporary of which the first copy to a scalar in a place is, is marked, if there is one.
fn mark_copy(copies: &Copies<'_>, scalar: u32, place: Place, marks: &mut Marks<()>)
    requires copies { AreCopies copies.now }
    requires below { AreCopiesBelow (graph_view copies.now.graph.now) (room_of marks.old) }
    ensures only { (t : ℕ) → mark_at marks.new t ≢ None → (mark_at marks.old t ≢ None)
        ⊎
        ((first_copy place.0 scalar (graph_view copies.entry.now.graph.now).blocks ≡ Some t)
        × (length (graph_view copies.entry.now.graph.now).scalars ≤ t)) }
    ensures kept { (p : ℕ) → mark_at marks.old p ≢ None → mark_at marks.new p ≢ None }
    ensures there { (t : ℕ) → scalar < length (graph_view copies.entry.now.graph.now).scalars
        → first_copy place.0 scalar (graph_view copies.entry.now.graph.now).blocks ≡ Some t
        → length (graph_view copies.entry.now.graph.now).scalars ≤ t → mark_at marks.new t ≢ None }
    ensures room { room_of marks.new ≡ room_of marks.old }
{
    match copies.temporary(place, scalar) {
        Some(name) => mark_one(marks, name),
        None => {}
    }
}

impl<'a> Function<'a> {
    /// The questions of a function of this number, in a program with places below a number. The homes are those of its
    /// names.
    pub fn new(
        alloc: Global,
        number: u32,
        graph: &'a Graph,
        homes: &'a [Home],
        places: usize,
    ) -> Result<Function<'a>, AllocError>
        requires homed { AreHomed number (graph_view graph.now) homes.now }
        requires placed { ArePlaced number (graph_view graph.now) places }
        requires copied { AreCopiesBelow (graph_view graph.now) (length homes.now) }
        ensures function { IfOk result (λ made. IsFunction made) }
        ensures number { IfOk result (λ made. made.writers.function ≡ number) }
        ensures graph { IfOk result (λ made. made.writers.graph.now ≡ graph.now) }
        ensures homes { IfOk result (λ made. made.writers.homes.now ≡ homes.now) }
    {
        Ok(Function {
            writers: Writers::new(alloc, number, graph, homes)?,
            copies: Copies::new(alloc, graph)?,
            scalar: 0,
            written: Marks::new(alloc, places, ())?,
            own: Marks::new(alloc, homes.len(), ())?,
        })
    }

    /// The places are marked where the home of the scalar is written.
    fn mark_written(&mut self)
        requires { IsFunction self.old }
        ensures writers { self.new.writers ≡ self.old.writers }
        ensures copies { self.new.copies ≡ self.old.copies }
        ensures scalar { self.new.scalar ≡ self.old.scalar }
        ensures own { self.new.own ≡ self.old.own }
        ensures marked { (p y : ℕ) (w : declared-writer.Writer) → Writes self.new.writers p y w
            → HaveOneHome self.new.writers y self.new.scalar → mark_at self.new.written p ≢ None }
        ensures only { (p : ℕ) → mark_at self.new.written p ≢ None → IsHomeWritten self.new.writers self.new.scalar p }
        ensures room { room_of self.new.written ≡ room_of self.old.written }
    {
        self.written.forget();
        mark_homes(&self.writers, self.scalar, &mut self.written);
    }

    /// The temporaries are marked that keep moved computations of the scalar's value.
    fn mark_own(&mut self, moved: &[Change])
        requires { IsFunction self.old }
        ensures writers { self.new.writers ≡ self.old.writers }
        ensures copies { self.new.copies ≡ self.old.copies }
        ensures scalar { self.new.scalar ≡ self.old.scalar }
        ensures written { self.new.written ≡ self.old.written }
        ensures marked { All (λ (c : declared-change.Change). IsOwn self.new c.place.0) moved.now }
        ensures only { (t : ℕ) → mark_at self.new.own t ≢ None → (c : declared-change.Change) × Contains moved.now c
            × IsCopied self.new c.place.0 t }
        ensures room { room_of self.new.own ≡ room_of self.old.own }
    {
        self.own.forget();
        for change in moved {
            mark_copy(&self.copies, self.scalar, change.place, &mut self.own);
        }
    }

    /// The questions are on this scalar from here on, which is this variable.
    pub fn turn_to(
        &mut self,
        alloc: Global,
        changes: &Changes<'_>,
        scalar: u32,
        var: Var,
    ) -> Result<(), AllocError>
        requires function { IsFunction self.old }
        requires changes { AreListed changes.now }
        requires scalar { scalar < length (graph_view self.old.writers.graph.now).scalars }
        ensures writers { OnOk result (self.new.writers ≡ self.old.writers) }
        ensures function { OnOk result (IsFunction self.new) }
        ensures scalar { OnOk result (self.new.scalar ≡ scalar) }
        ensures on { OnOk result (IsOn (log_of changes.now) self.new var.0) }
    {
        self.scalar = scalar;
        let moved = changes.of(alloc, var, Kind::Moved)?;
        self.mark_written();
        self.mark_own(&moved);
        Ok(())
    }

    /// Whether a name has the home of the scalar, and is neither it nor one of those temporaries.
    pub fn is_foreign(&self, name: u32) -> bool
        ensures { (result ≡ true) ↔ IsForeign self.now name }
    {
        if name == self.scalar {
            return false;
        }
        if self.own.has(name) {
            return false;
        }
        self.writers.have_one_home(name, self.scalar)
    }

    /// A write is appended, if it is for such a name.
    fn add_foreign(&self, write: Write, found: &mut Vec<Write>) -> Result<(), AllocError>
        requires function { IsFunction self.now }
        requires each { All (λ (w : declared-write.Write). IsForeignWrite self.now w) found.old.items }
        ensures each { OnOk result (All (λ (w : declared-write.Write). IsForeignWrite self.now w) found.new.items) }
        ensures kept { OnOk result
            ((w : declared-write.Write) → Contains found.old.items w → Contains found.new.items w) }
        ensures there { OnOk result
            ((z : declared-written.Written) → slice_get self.now.writers.all.items write.number ≡ Some z → z.place
            ≡ write.place → IsForeign self.now z.name → Contains found.new.items write) }
    {
        let Some(written) = self.writers.at(write.number, write.place) else {
            return Ok(());
        };
        if !self.is_foreign(written.name) {
            return Ok(());
        }
        found.push(write)?;
        Ok(())
    }

    /// What writes the home of the scalar for other names than it and those temporaries.
    pub fn foreign(&self, alloc: Global) -> Result<Vec<Write>, AllocError>
        requires { IsFunction self.now }
        ensures each { IfOk result
            (λ found. All (λ (w : declared-write.Write). IsForeignWrite self.now w) found.items) }
        ensures all { IfOk result (λ found. AreForeign self.now found.items) }
    {
        let mut found = Vec::new(alloc);
        for write in self.writers.of_home(self.scalar) {
            self.add_foreign(*write, &mut found)?;
        }
        Ok(found)
    }
}
