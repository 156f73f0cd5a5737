//! What hides a scalar: the changes and the writes on which the ways lie that its value does not come along.

ghost use Rattle.std.specs.Prelude.{◌≡◌, ◌⊎◌, ℕ, ◌+◌, ◌≤◌, List, [], ◌∷◌, All, Contains, IfOk, IfSome, None, OnOk, Some, is_some, slice_get, true};
ghost use Rattle.currency_writers.specs.Marks.{mark_at, room_of};
ghost use Rattle.currency_writers.specs.Starts.{IsTurned};
ghost use Rattle.currency_writers.specs.declared.writers.Write as declared-write;
ghost use Rattle.currency_writers.specs.declared.writers.Written as declared-written;
ghost use Rattle.currency_writers.specs.Order.{IsNoLater, rank_of};
ghost use Rattle.currency_writers.specs.Writers.{IsWriteBy};
ghost use Rattle.currency_hiding.specs.declared.causes.Via as declared-via;
ghost use Rattle.currency_hiding.specs.declared.causes.Cause.TheVariants.{Moved as MovedBy, Reused as ReusedBy};
ghost use Rattle.currency_hiding.specs.First.{order_of};
ghost use Rattle.currency_hiding.specs.Found.{AreAllFound, AreCauses, AreMoreFound, AreMovesFound, AreSharesFound, AreToldBefore, AreViasInOrder, HasNoneAt, HidesAt, HidesFrom, IsAsked, IsFirstAt, IsForeignWrite, IsMovedTo, IsOfKind, IsRemovalFound, IsViaOf, IsViaTold, IsWayBy, IsWayOf};
ghost use Rattle.currency_hiding.specs.Changes.{IsLastSharing};
ghost use Rattle.debug_records.specs.declared.change.Kind.TheVariants.{Moved, Removed};

use crate::question::Question;
use currency_writers::{Marks, Search, Write, Writer};
use debug_records::{Change, Kind};
use std::alloc::{AllocError, Global};

/// What hides a scalar.
#[derive(Clone, Copy)]
pub enum Cause {
    /// This change, by its number, removed an assignment of its variable in this place.
    Removed {
        change: u32,
        start: u32,
    },
    /// This change moved a computation of its value; on a way from a place that assigns it its home is written by this
    /// for the name that keeps the moved value.
    Moved {
        change: u32,
        start: u32,
        writer: Writer,
    },
    /// This change gave its register to other names too; on a way from a place that assigns it the register is written
    /// by this for another name.
    Reused {
        change: u32,
        start: u32,
        writer: Writer,
    },
}

/// What hides a scalar on the ways by a place.
#[derive(Clone, Copy)]
pub struct Found {
    pub cause: Cause,
    pub via: u32,
}

/// A place where the home of a scalar is written for another name. In order they come by the places from which the
/// scalar's value may come, and then by themselves.
#[derive(Clone, Copy, PartialEq, Eq, PartialOrd, Ord)]
struct Via {
    /// The least place that assigns the variable, and from which a way leads by this one.
    start: u32,
    place: u32,
    /// What writes the home, by its number.
    writer: usize,
}

/// What hides one scalar, in the order in which it is told.
#[derive(Drop)]
pub struct Causes {
    pub found: Vec<Found>,
    /// For each place the index of the first of these by which it was come to.
    pub told: Marks<usize>,
}

/// Whether a write is in the place of the last one that was looked at, and not before it.
fn is_again(last: Option<Write>, write: Write) -> bool
    ensures same { result ≡ true
        → IfSome last (λ before. (before.place ≡ write.place) × (before.number ≤ write.number)) }
    ensures some { result ≡ true → is_some last ≡ true }
{
    match last {
        Some(before) => before.place == write.place && before.number <= write.number,
        None => false,
    }
}

/// The place of a write is appended, if a way leads by it that begins where the variable in question is assigned.
fn add_via(search: &Search<'_>, write: Write, vias: &mut Vec<Via>) -> Result<(), AllocError>
    requires turned { IsTurned search.now }
    requires each { All (λ (v : declared-via.Via). IsWayBy search.now v) vias.old.items }
    ensures each { OnOk result (All (λ (v : declared-via.Via). IsWayBy search.entry.now v) vias.new.items) }
    ensures only { OnOk result
        ((v : declared-via.Via) → Contains vias.new.items v → Contains vias.old.items v
        ⊎ ((v.place ≡ write.place) × (v.writer ≡ write.number))) }
    ensures kept { OnOk result ((v : declared-via.Via) → Contains vias.old.items v → Contains vias.new.items v) }
    ensures there { OnOk result (IsViaOf search.entry.now vias.new.items write) }
{
    let Some(start) = search.start_of(write.place) else {
        return Ok(());
    };
    vias.push(Via {
        start,
        place: write.place,
        writer: write.number,
    })?;
    Ok(())
}

/// The same, where that is not done for its place yet. The last write that it was done for is told.
fn add_next(
    search: &Search<'_>,
    last: Option<Write>,
    write: Write,
    vias: &mut Vec<Via>,
) -> Result<Option<Write>, AllocError>
    requires turned { IsTurned search.now }
    requires each { All (λ (v : declared-via.Via). IsWayBy search.now v) vias.old.items }
    requires last { IfSome last (λ w. IsViaOf search.now vias.old.items w) }
    ensures each { OnOk result (All (λ (v : declared-via.Via). IsWayBy search.entry.now v) vias.new.items) }
    ensures only { OnOk result
        ((v : declared-via.Via) → Contains vias.new.items v → Contains vias.old.items v
        ⊎ ((v.place ≡ write.place) × (v.writer ≡ write.number))) }
    ensures kept { OnOk result ((v : declared-via.Via) → Contains vias.old.items v → Contains vias.new.items v) }
    ensures there { OnOk result (IsViaOf search.entry.now vias.new.items write) }
    ensures last { IfOk result (λ o. IfSome o (λ w. IsViaOf search.entry.now vias.new.items w)) }
{
    if is_again(last, write) {
        return Ok(last);
    }
    add_via(search, write, vias)?;
    Ok(Some(write))
}

/// The places of writes, each with its first one, from which ways lead that the value of the variable in question may
/// come, in order.
fn vias_of(alloc: Global, search: &Search<'_>, writes: &[Write]) -> Result<Vec<Via>, AllocError>
    requires { IsTurned search.now }
    ensures each { IfOk result
        (λ vias. All (λ (v : declared-via.Via). IsWayOf search.entry.now writes.now v) vias.items) }
    ensures all { IfOk result
        (λ vias. All (λ (w : declared-write.Write). IsViaOf search.entry.now vias.items w) writes.now) }
    ensures ordered { IfOk result (λ vias. AreViasInOrder vias.items) }
{
    let mut vias = Vec::new(alloc);
    let mut last = None;
    for write in writes {
        last = add_next(search, last, *write, &mut vias)?;
    }
    vias.sort_unstable();
    Ok(vias)
}

impl Causes {
    /// Nothing hides a scalar.
    pub fn new(alloc: Global, places: usize) -> Result<Causes, AllocError>
        ensures found { IfOk result (λ made. made.found.items ≡ []) }
        ensures told { IfOk result (λ made. (p : ℕ) → mark_at made.told p ≡ None) }
        ensures room { IfOk result (λ made. room_of made.told ≡ places) }
    {
        Ok(Causes {
            found: Vec::new(alloc),
            told: Marks::new(alloc, places, 0)?,
        })
    }

    /// Nothing is known of a scalar.
    pub fn forget(&mut self)
        ensures found { self.new.found.items ≡ [] }
        ensures told { (p : ℕ) → mark_at self.new.told p ≡ None }
        ensures room { room_of self.new.told ≡ room_of self.old.told }
    {
        self.found.clear();
        self.told.forget();
    }

    /// This hides the scalar on ways by a place, and is told no earlier than what was found so far. The places that
    /// such ways lead to are marked.
    fn add(
        &mut self,
        alloc: Global,
        question: Question<'_>,
        via: u32,
        cause: Cause,
    ) -> Result<(), AllocError>
        requires asked { IsAsked question.changes.now question.search.now question.function.now }
        requires hides { HidesFrom question.changes.now question.search.now question.function.now cause via }
        requires next { AreToldBefore self.old.found.items (order_of cause via) }
        requires causes { AreCauses question.changes.now question.search.now question.function.now self.old }
        ensures causes { OnOk result
            (AreCauses question.entry.changes.now question.entry.search.now question.entry.function.now self.new) }
        ensures kept { OnOk result (AreMoreFound self.old self.new) }
        ensures there { OnOk result (Contains self.new.found.items (record { cause = cause; via = via })) }
        ensures next { OnOk result
            ((rank : List ℕ) → IsNoLater (order_of cause via) rank → AreToldBefore self.old.found.items rank
            → AreToldBefore self.new.found.items rank) }
    {
        let number = self.found.len();
        self.found.push(Found { cause, via })?;
        question
            .search
            .tell_from(alloc, via, number, &mut self.told)?;
        Ok(())
    }

    /// A change that removed an assignment of the scalar's variable hides it, if that was in a place that assigns it,
    /// and in which nothing writes its home.
    fn add_removed_one(
        &mut self,
        alloc: Global,
        question: Question<'_>,
        change: &Change,
    ) -> Result<(), AllocError>
        requires asked { IsAsked question.changes.now question.search.now question.function.now }
        requires removed { IsOfKind question.changes.now question.search.now question.function.now Removed change.now }
        requires next { AreToldBefore self.old.found.items (0 ∷ change.now.number ∷ []) }
        requires causes { AreCauses question.changes.now question.search.now question.function.now self.old }
        ensures causes { OnOk result
            (AreCauses question.entry.changes.now question.entry.search.now question.entry.function.now self.new) }
        ensures kept { OnOk result (AreMoreFound self.old self.new) }
        ensures all { OnOk result
            (IsRemovalFound question.entry.changes.now question.entry.search.now question.entry.function.now
            self.new.found.items change.entry.now.number) }
        ensures next { OnOk result (AreToldBefore self.new.found.items (0 ∷ change.entry.now.number ∷ [])) }
    {
        let start = change.place.0;
        if !question.search.assigns(start) {
            return Ok(());
        }
        if question.function.written.has(start) {
            return Ok(());
        }
        let cause = Cause::Removed {
            change: change.number,
            start,
        };
        self.add(alloc, question, start, cause)?;
        Ok(())
    }

    /// Changes that removed assignments of the scalar's variable, where nothing is known of it yet.
    pub fn add_removed(&mut self, alloc: Global, question: Question<'_>) -> Result<(), AllocError>
        requires asked { IsAsked question.changes.now question.search.now question.function.now }
        requires none { self.old.found.items ≡ [] }
        requires causes { AreCauses question.changes.now question.search.now question.function.now self.old }
        ensures causes { OnOk result
            (AreCauses question.entry.changes.now question.entry.search.now question.entry.function.now self.new) }
        ensures all { OnOk result
            ((number : ℕ) → IsRemovalFound question.entry.changes.now question.entry.search.now
            question.entry.function.now self.new.found.items number) }
        ensures next { OnOk result (AreToldBefore self.new.found.items (1 ∷ [])) }
    {
        let changes = question.changes;
        let removed = changes.of(alloc, question.search.var(), Kind::Removed)?;
        for change in &removed {
            self.add_removed_one(alloc, question, change)?;
        }
        Ok(())
    }

    /// A write of the home of the scalar for the temporary that keeps a moved computation of its value.
    fn add_moved_by(
        &mut self,
        alloc: Global,
        question: Question<'_>,
        change: &Change,
        name: u32,
        via: Via,
    ) -> Result<(), AllocError>
        requires asked { IsAsked question.changes.now question.search.now question.function.now }
        requires moved { IsMovedTo question.changes.now question.search.now question.function.now change.now name }
        requires way { IsWayBy question.search.now via }
        requires write { IsWriteBy question.function.now.writers.all.items (λ y. y) name
            (record { place = via.place; number = via.writer }) }
        requires next { (z : declared-written.Written) → slice_get question.function.now.writers.all.items via.writer
            ≡ Some z
            → AreToldBefore self.old.found.items (1 ∷ change.now.number ∷ via.start ∷ via.place ∷ rank_of z.writer) }
        requires causes { AreCauses question.changes.now question.search.now question.function.now self.old }
        ensures causes { OnOk result
            (AreCauses question.entry.changes.now question.entry.search.now question.entry.function.now self.new) }
        ensures kept { OnOk result (AreMoreFound self.old self.new) }
        ensures there { OnOk result
            (IsViaTold question.entry.function.now self.new.found.items
            (λ start w. MovedBy change.entry.now.number start w) via) }
        ensures next { OnOk result
            ((z : declared-written.Written) → slice_get question.entry.function.now.writers.all.items via.writer
            ≡ Some z → (rank : List ℕ)
            → IsNoLater (1 ∷ change.entry.now.number ∷ via.start ∷ via.place ∷ rank_of z.writer) rank
            → AreToldBefore self.old.found.items rank → AreToldBefore self.new.found.items rank) }
    {
        let written = question.function.writers.all[via.writer];
        let cause = Cause::Moved {
            change: change.number,
            start: via.start,
            writer: written.writer,
        };
        self.add(alloc, question, via.place, cause)?;
        Ok(())
    }

    /// A change that moved a computation of the scalar's value, with what writes its home for the temporary that keeps
    /// it.
    fn add_moved_one(
        &mut self,
        alloc: Global,
        question: Question<'_>,
        change: &Change,
    ) -> Result<(), AllocError>
        requires asked { IsAsked question.changes.now question.search.now question.function.now }
        requires moved { IsOfKind question.changes.now question.search.now question.function.now Moved change.now }
        requires next { AreToldBefore self.old.found.items (1 ∷ change.now.number ∷ []) }
        requires causes { AreCauses question.changes.now question.search.now question.function.now self.old }
        ensures causes { OnOk result
            (AreCauses question.entry.changes.now question.entry.search.now question.entry.function.now self.new) }
        ensures kept { OnOk result (AreMoreFound self.old self.new) }
        ensures all { OnOk result
            (AreMovesFound question.entry.changes.now question.entry.search.now question.entry.function.now
            self.new.found.items change.entry.now.number) }
        ensures next { OnOk result (AreToldBefore self.new.found.items (1 ∷ (change.entry.now.number + 1) ∷ [])) }
    {
        let function = question.function;
        let Some(name) = function.copies.temporary(change.place, function.scalar) else {
            return Ok(());
        };
        if !function.writers.have_one_home(name, function.scalar) {
            return Ok(());
        }
        let vias = vias_of(alloc, question.search, function.writers.of_name(name))?;
        for via in &vias {
            self.add_moved_by(alloc, question, change, name, *via)?;
        }
        Ok(())
    }

    /// Changes that moved computations of the scalar's value, with what writes its home for the temporaries that keep
    /// them. They are told behind those that removed assignments.
    pub fn add_moved(&mut self, alloc: Global, question: Question<'_>) -> Result<(), AllocError>
        requires asked { IsAsked question.changes.now question.search.now question.function.now }
        requires next { AreToldBefore self.old.found.items (1 ∷ []) }
        requires causes { AreCauses question.changes.now question.search.now question.function.now self.old }
        ensures causes { OnOk result
            (AreCauses question.entry.changes.now question.entry.search.now question.entry.function.now self.new) }
        ensures kept { OnOk result (AreMoreFound self.old self.new) }
        ensures all { OnOk result
            ((number : ℕ) → AreMovesFound question.entry.changes.now question.entry.search.now
            question.entry.function.now self.new.found.items number) }
        ensures next { OnOk result (AreToldBefore self.new.found.items (2 ∷ [])) }
    {
        let changes = question.changes;
        let moved = changes.of(alloc, question.search.var(), Kind::Moved)?;
        for change in &moved {
            self.add_moved_one(alloc, question, change)?;
        }
        Ok(())
    }

    /// A write of the register of the scalar for another name.
    fn add_reused_by(
        &mut self,
        alloc: Global,
        question: Question<'_>,
        change: u32,
        via: Via,
    ) -> Result<(), AllocError>
        requires asked { IsAsked question.changes.now question.search.now question.function.now }
        requires sharing { IsLastSharing question.changes.now question.search.now.flow.var.0 change }
        requires way { IsWayBy question.search.now via }
        requires write { IsForeignWrite question.function.now (record { place = via.place; number = via.writer }) }
        requires next { (z : declared-written.Written) → slice_get question.function.now.writers.all.items via.writer
            ≡ Some z
            → AreToldBefore self.old.found.items (2 ∷ via.start ∷ via.place ∷ rank_of z.writer) }
        requires causes { AreCauses question.changes.now question.search.now question.function.now self.old }
        ensures causes { OnOk result
            (AreCauses question.entry.changes.now question.entry.search.now question.entry.function.now self.new) }
        ensures kept { OnOk result (AreMoreFound self.old self.new) }
        ensures there { OnOk result
            (IsViaTold question.entry.function.now self.new.found.items (λ start w. ReusedBy change start w) via) }
        ensures next { OnOk result
            ((z : declared-written.Written) → slice_get question.entry.function.now.writers.all.items via.writer
            ≡ Some z → (rank : List ℕ) → IsNoLater (2 ∷ via.start ∷ via.place ∷ rank_of z.writer) rank
            → AreToldBefore self.old.found.items rank → AreToldBefore self.new.found.items rank) }
    {
        let written = question.function.writers.all[via.writer];
        let cause = Cause::Reused {
            change,
            start: via.start,
            writer: written.writer,
        };
        self.add(alloc, question, via.place, cause)?;
        Ok(())
    }

    /// The change by which the scalar's register was given to other names too, with what writes it for these. It is
    /// told behind changes that moved computations.
    pub fn add_reused(&mut self, alloc: Global, question: Question<'_>) -> Result<(), AllocError>
        requires asked { IsAsked question.changes.now question.search.now question.function.now }
        requires next { AreToldBefore self.old.found.items (2 ∷ []) }
        requires causes { AreCauses question.changes.now question.search.now question.function.now self.old }
        ensures causes { OnOk result
            (AreCauses question.entry.changes.now question.entry.search.now question.entry.function.now self.new) }
        ensures kept { OnOk result (AreMoreFound self.old self.new) }
        ensures all { OnOk result
            ((number : ℕ) → AreSharesFound question.entry.changes.now question.entry.search.now
            question.entry.function.now self.new.found.items number) }
    {
        let Some(change) = question.changes.sharing(question.search.var()) else {
            return Ok(());
        };
        let writes = question.function.foreign(alloc)?;
        let vias = vias_of(alloc, question.search, &writes)?;
        for via in &vias {
            self.add_reused_by(alloc, question, change, *via)?;
        }
        Ok(())
    }

    /// What hides the scalar at a place where something does, the first that does.
    pub fn at(&self, question: Question<'_>, place: u32) -> Cause
        requires asked { IsAsked question.changes.now question.search.now question.function.now }
        requires causes { AreCauses question.changes.now question.search.now question.function.now self.now }
        requires all { AreAllFound question.changes.now question.search.now question.function.now self.now.found.items }
        requires hidden { HasNoneAt question.changes.now question.search.now question.function.now place → ⊥ }
        ensures hides { HidesAt question.entry.changes.now question.entry.search.now question.entry.function.now place
            result }
        ensures first { IsFirstAt question.entry.changes.now question.entry.search.now question.entry.function.now place
            result }
    {
        match self.told.at(place) {
            Some(number) => self.found[number].cause,
            None => unreachable!(),
        }
    }
}
