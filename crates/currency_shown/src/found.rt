//! What is found at the places of a function.

ghost use Rattle.std.specs.Prelude.{◌≡◌, ◌<◌, ◌≤◌, ◌↔◌, ℕ, OnOk, Some, false, length, true};
ghost use Rattle.graph_core.specs.Graphs.{Name, Of, recipe_view};
ghost use Rattle.currency_shown.specs.Numbering.{scalar_in};
ghost use Rattle.currency_shown.specs.Found.{AreBelow, AreOnlyOf, AreVisibleTold, IsAdded, IsNewPlace, IsSeen, IsShownBy, IsTold, Shows, is_met};

use crate::numbering::Numbering;
use currency_notes::{Function, Noted, State};
use debug_records::{Place, Var};
use graph_core::{Operand, Recipe};
use places::PlaceTable;
use std::alloc::AllocError;

/// What is last noted of a scalar on all paths to a place, where no home that it reads was written since on any, and
/// each was last written for the name that is read.
#[derive(Clone, Copy)]
pub struct LastNote<'a> {
    pub recipe: &'a Recipe,
    /// The least number of the changes that removed an assignment of the scalar at a place where such a note stands
    /// that reaches; none where no change did.
    pub change: Option<u32>,
}

/// A place where a scalar is visible, and its home does not show its value.
#[derive(Clone, Copy)]
pub struct Unshown<'a> {
    pub place: Place,
    /// What is last noted of it, if that shows its value.
    pub last: Option<LastNote<'a>>,
}

/// Whether a recipe is the own value of a scalar.
fn is_own(scalar: u32, recipe: &Recipe) -> bool
    ensures { (result ≡ true) ↔ (recipe_view recipe.now ≡ Of (Name scalar)) }
{
    match recipe {
        Recipe::Operand(Operand::Name(name)) => name.0 == scalar,
        Recipe::Operand(_) | Recipe::Truncated(_, _) | Recipe::Operated(_, _, _) => false,
    }
}

/// Whether its home shows a scalar where this is so.
fn is_shown<'a>(function: &Function<'a>, state: &State<'a>, scalar: u32) -> bool
    ensures { (result ≡ true) ↔ IsShownBy function.now.homes state.now scalar }
{
    match state.last_of(scalar) {
        Noted::Own => state.holds(function, scalar),
        Noted::Recipe { recipe, .. } => {
            is_own(scalar, recipe) && state.holds_all(function, recipe)
        }
        Noted::Lost => false,
    }
}

/// What is last noted of a scalar where this is so, if that shows its value and is not its own.
fn last_note<'a>(function: &Function<'a>, state: &State<'a>, scalar: u32) -> Option<LastNote<'a>>
    ensures { Shows function.now.homes state.now scalar result }
{
    match state.last_of(scalar) {
        Noted::Recipe { recipe, change } => if is_own(scalar, recipe) {
            None
        } else if state.holds_all(function, recipe) {
            Some(LastNote { recipe, change })
        } else {
            None
        },
        Noted::Lost => None,
        Noted::Own => None,
    }
}

/// What the places of a function say, as far as they are looked at.
#[derive(Drop)]
pub struct Found<'a> {
    /// Whether a place was met, by its number.
    pub met: Vec<bool>,
    /// By scalar the places where it is visible, and its home does not show its value.
    pub unshown: Vec<Vec<Unshown<'a>>>,
}

impl<'a> Found<'a> {
    /// A scalar is visible at a place, where this is so.
    fn add(
        &mut self,
        function: &Function<'a>,
        state: &State<'a>,
        scalar: u32,
        place: Place,
    ) -> Result<(), AllocError>
        requires scalar { scalar < length self.old.unshown.items }
        ensures met { OnOk result (self.new.met.items ≡ self.old.met.items) }
        ensures added { OnOk result (IsAdded function.now.homes state.now place.0
            self.old.unshown.items self.new.unshown.items) }
        ensures told { OnOk result (IsTold function.now.homes state.now place.0 self.new.unshown.items scalar) }
        ensures only { OnOk result (AreOnlyOf (λ x. x ≡ scalar) self.old.unshown.items self.new.unshown.items) }
    {
        if is_shown(function, state, scalar) {
            return Ok(());
        }
        let last = last_note(function, state, scalar);
        self.unshown[scalar as usize].push(Unshown { place, last })?;
        Ok(())
    }

    /// A variable is visible at a place, where this is so.
    fn add_variable(
        &mut self,
        function: &Function<'a>,
        state: &State<'a>,
        numbering: &Numbering,
        var: Var,
        place: Place,
    ) -> Result<(), AllocError>
        requires numbers { AreBelow numbering.now (length self.old.unshown.items) }
        ensures met { OnOk result (self.new.met.items ≡ self.old.met.items) }
        ensures added { OnOk result (IsAdded function.now.homes state.now place.0
            self.old.unshown.items self.new.unshown.items) }
        ensures told { OnOk result ((x : ℕ) → scalar_in numbering.now var.0 ≡ Some x
            → IsTold function.now.homes state.now place.0 self.new.unshown.items x) }
        ensures only { OnOk result (AreOnlyOf (λ x. scalar_in numbering.now var.0 ≡ Some x)
            self.old.unshown.items self.new.unshown.items) }
    {
        match numbering.scalar_of(var) {
            Some(scalar) => {
                self.add(function, state, scalar, place)?;
                Ok(())
            }
            None => Ok(()),
        }
    }

    /// Variables are visible at a place, where this is so.
    fn add_all(
        &mut self,
        function: &Function<'a>,
        state: &State<'a>,
        numbering: &Numbering,
        visible: &[Var],
        place: Place,
    ) -> Result<(), AllocError>
        requires numbers { AreBelow numbering.now (length self.old.unshown.items) }
        ensures met { OnOk result (self.new.met.items ≡ self.old.met.items) }
        ensures added { OnOk result (IsAdded function.now.homes state.now place.0
            self.old.unshown.items self.new.unshown.items) }
        ensures told { OnOk result (AreVisibleTold function.now.homes state.now numbering.now place.0
            self.new.unshown.items visible.now) }
        ensures only { OnOk result (AreOnlyOf (IsSeen numbering.now visible.now)
            self.old.unshown.items self.new.unshown.items) }
    {
        for var in visible {
            self.add_variable(function, state, numbering, *var, place)?;
        }
        Ok(())
    }

    /// A place begins, which was not met before, where this is so.
    pub fn add_place(
        &mut self,
        function: &Function<'a>,
        state: &State<'a>,
        numbering: &Numbering,
        table: &PlaceTable,
        place: Place,
    ) -> Result<(), AllocError>
        requires some { 1 ≤ place.0 }
        requires within { place.0 ≤ length table.now.rows.items }
        requires room { place.0 < length self.old.met.items }
        requires fresh { is_met self.old place.0 ≡ false }
        requires numbers { AreBelow numbering.now (length self.old.unshown.items) }
        ensures { OnOk result (IsNewPlace function.now.homes state.now numbering.now table.now place.0
            self.old self.new) }
    {
        let row = &table.rows[place.0 as usize - 1];
        self.met[place.0 as usize] = true;
        self.add_all(function, state, numbering, &row.visible, place)?;
        Ok(())
    }
}
