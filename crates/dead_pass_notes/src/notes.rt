//! What notes say in the end.

ghost use Rattle.std.specs.Prelude.{◌≡◌, ◌↔◌, ◌+◌, ◌<◌, ◌^◌, ◌++◌, ◌∷◌, [], ℕ, suc, IfOk, IfSome, List, None, OnOk, length, option_map, slice_get, true};
ghost use Rattle.debug_records.specs.declared.change.Var as declared-var;
ghost use Rattle.graph_core.specs.declared.name.Name as declared-name;
ghost use Rattle.graph_core.specs.Graphs.{Instruction as InstructionForm, Logged, Of, Scalar as ScalarOf, graph_view, note_view, operand_view, recipe_view};
ghost use Rattle.graph_core.specs.Uses.{target_of};
ghost use Rattle.graph_core.specs.WellMarked.{IsVariable};
ghost use Rattle.dead_pass_rule.specs.Asking.{is_going};
ghost use Rattle.dead_pass_rule.specs.Walks.{IsTable, turn_of};
ghost use Rattle.graph_paths.specs.PathMarksTable.{bits_of};
ghost use Rattle.dead_pass_writes.specs.Once.{IsOnce};
ghost use Rattle.dead_pass_notes.specs.Idle.{IsBorneOut, assignments_of, graph_of};
ghost use Rattle.dead_pass_notes.specs.Lost.{HasStale, IsToldLost, said_by};
ghost use Rattle.dead_pass_writes.specs.Removals.{IsFirstRemoval, IsLastRemoval};
ghost use Rattle.dead_pass_notes.specs.Said.{IsDropped, WasNeverRemoved};
ghost use Rattle.dead_pass_writes.specs.RemovedChangesTelling.{AreToldOf};

use crate::idle_graph::IdleGraph;
use crate::recipes::{NotePoint, recipe_of};
use crate::{Ways, begin, stale_names, step};
use dead_pass_writes::{RemovedChanges, Spot};
use debug_records::{Place, Var};
use graph_core::{Graph, MAX_RECIPE_DEPTH, Name, NoteValue, Operand, Recipe};
use graph_paths::{Marks, reached_in_order};
use std::alloc::{AllocError, Global};

/// What is known of a graph from which something goes, while it is gone over block by block.
#[derive(Drop)]
pub struct Notes<'a> {
    removed: &'a RemovedChanges,
    /// The names that are stale at the starts of so many blocks, and behind these where the walk is.
    stale: Marks,
    blocks: u32,
    names: u32,
    ways: Ways,
    ghost table: { IsTable blocks names stale },
    ghost few: { blocks + 2 < 2 ^ 32 },
}

/// Whether an operand is a stale name.
fn is_stale(operand: Operand, stale: &Marks, row: u32) -> bool
    ensures { (result ≡ true) ↔ HasStale (bits_of stale.now row) (Of (operand_view operand)) }
{
    match operand {
        Operand::Name(name) => stale.get(row, name.0),
        Operand::Constant(_) | Operand::StaticAddress { .. } => false,
    }
}

/// Whether a recipe has a stale name.
fn has_stale(recipe: &Recipe, stale: &Marks, row: u32) -> bool
    ensures { (result ≡ true) ↔ HasStale (bits_of stale.now row) (recipe_view recipe.now) }
{
    match recipe {
        Recipe::Operand(operand) => is_stale(*operand, stale, row),
        Recipe::Truncated(_, of) => has_stale(of, stale, row),
        Recipe::Operated(_, left, right) => {
            has_stale(left, stale, row) || has_stale(right, stale, row)
        }
    }
}

/// Whether a note of a scalar tells of an assignment that went before, by a recipe with a stale name.
fn is_lost(of: Name, value: &NoteValue, stale: &Marks, row: u32) -> bool
    ensures { (result ≡ true) ↔ IsToldLost (bits_of stale.now row) of.0 (note_view value.now) }
{
    match value {
        NoteValue::Gone(_) => false,
        NoteValue::Is(Recipe::Operand(Operand::Name(name))) if name.0 == of.0 => false,
        NoteValue::Is(recipe) => has_stale(recipe, stale, row),
    }
}

/// What a note says by this change, or by none what it said before.
fn gone_by(alloc: Global, change: Option<u32>, before: &NoteValue) -> Result<NoteValue, AllocError>
    ensures { IfOk result (λ v. note_view v ≡ said_by change (note_view before.now)) }
{
    match change {
        Some(number) => Ok(NoteValue::Gone(number)),
        None => before.duplicate(alloc),
    }
}

/// The variable of a scalar.
fn var_of(graph: &Graph, name: Name) -> Option<Var>
    ensures { option_map (λ (v : declared-var.Var). v.0) result ≡ option_map (λ (s : ScalarOf). s.variable)
        (slice_get (graph_view graph.now).scalars name.0) }
{
    match graph.scalars.get(name.0 as usize) {
        Some(scalar) => Some(scalar.var),
        None => None,
    }
}

/// The number of the last change by which an assignment of a scalar in a place went.
fn last_removed(graph: &Graph, removed: &RemovedChanges, place: Place, name: Name) -> Option<u32>
    ensures some { (log : List Logged) → AreToldOf log removed.now
        → IfSome result (λ number.
        (variable : ℕ) × IsVariable (graph_view graph.now) name.0 variable
        × IsLastRemoval log place.0 variable number) }
    ensures none { (log : List Logged) → AreToldOf log removed.now → result ≡ None
        → WasNeverRemoved log (graph_view graph.now) place.0 name.0 }
{
    match var_of(graph, name) {
        Some(var) => removed.last(place, var),
        None => None,
    }
}

/// The number of the first such change.
fn first_removed(graph: &Graph, removed: &RemovedChanges, place: Place, name: Name) -> Option<u32>
    ensures some { (log : List Logged) → AreToldOf log removed.now
        → IfSome result (λ number.
        (variable : ℕ) × IsVariable (graph_view graph.now) name.0 variable
        × IsFirstRemoval log place.0 variable number) }
    ensures none { (log : List Logged) → AreToldOf log removed.now → result ≡ None
        → WasNeverRemoved log (graph_view graph.now) place.0 name.0 }
{
    match var_of(graph, name) {
        Some(var) => removed.first(place, var),
        None => None,
    }
}

/// The one assignment of a scalar in a place, where it goes.
fn dropped(idle: &IdleGraph<'_>, place: Place, name: Name) -> Option<Spot>
    ensures some { IsBorneOut idle.now
        → IfSome result (λ s.
        IsOnce (graph_of idle.now) place.0 name.0 s.block s.left
        × (is_going (turn_of idle.now.turns.items) s.block s.left ≡ true)) }
    ensures none { IsBorneOut idle.now → result ≡ None
        → IsDropped (assignments_of idle.now) (graph_of idle.now) place.0 name.0 → ⊥ }
{
    let write = idle.writes.only(place.0, name.0)?;
    if idle.goes_at(write.block, write.left) {
        Some(write)
    } else {
        None
    }
}

impl<'a> Notes<'a> {
    ghost use Rattle.dead_pass_notes.specs.declared.idle_graph.IdleGraph as declared-idle;
    ghost use Rattle.dead_pass_notes.specs.Sources.{HasRoom, IsKnown, IsSaidAt};
    ghost use Rattle.dead_pass_notes.specs.RemovalNotesStale.{AreKnown, HasComeBehind, HasOtherWays, HasSameWays};

    /// What is known of a graph before anything is gone over. What goes is told by these changes.
    pub fn new(
        alloc: Global,
        idle: &IdleGraph<'_>,
        removed: &'a RemovedChanges,
    ) -> Result<Notes<'a>, AllocError>
        requires { IsBorneOut idle.now }
        ensures known { IfOk result (λ notes. AreKnown idle.now notes) }
        ensures room { IfOk result (λ notes. HasRoom idle.now notes.ways) }
        ensures removed { IfOk result (λ notes. notes.removed.now ≡ removed.now) }
    {
        let order = reached_in_order(alloc, &idle.graph.blocks)?;
        let stale = stale_names(alloc, idle.graph, &idle.turns, &idle.reached, &order)?;
        Ok(Notes {
            removed,
            stale,
            blocks: idle.graph.blocks.len() as u32,
            names: idle.graph.name_count,
            ways: Ways::new(alloc, idle.graph.blocks.len())?,
        })
    }

    /// What the note of an assignment that goes says: a recipe, or else the change.
    fn said_of_dropped(
        &mut self,
        alloc: Global,
        idle: &IdleGraph<'_>,
        note: NotePoint,
        of: Name,
        before: &NoteValue,
        assignment: Spot,
    ) -> Result<NoteValue, AllocError>
        ensures same { OnOk result (HasOtherWays self.old self.new) }
        ensures room { OnOk result (HasRoom idle.now self.old.ways → HasRoom idle.now self.new.ways) }
        ensures said { IfOk result (λ v.
            (log : List Logged) → AreToldOf log self.old.removed.now → IsKnown idle.now self.old.stale note
            → HasRoom idle.now self.old.ways
            → IsOnce (graph_of idle.now) note.place.0 of.0 assignment.block assignment.left
            → is_going (turn_of idle.now.turns.items) assignment.block assignment.left ≡ true
            → IsSaidAt (assignments_of idle.now) log (graph_of idle.now) note of.0 (note_view before.now)
            (note_view v)) }
    {
        let recipe = recipe_of(
            alloc,
            idle,
            &mut self.ways,
            &self.stale,
            note,
            assignment,
            MAX_RECIPE_DEPTH,
        )?;
        match recipe {
            Some(recipe) => Ok(NoteValue::Is(recipe)),
            None => {
                let change = last_removed(idle.graph, self.removed, note.place, of);
                gone_by(alloc, change, before)
            }
        }
    }

    /// A walk over a block begins, if there is one of that number.
    pub fn begin(&mut self, block: u32)
        ensures ways { HasSameWays self.old self.new }
        ensures known { (idle : declared-idle.IdleGraph) → AreKnown idle self.old → AreKnown idle self.new }
        ensures come { (idle : declared-idle.IdleGraph) → AreKnown idle self.old → block < length (graph_of idle).blocks
            → (left : ℕ) → HasComeBehind idle self.new block [] left }
    {
        if block < self.blocks {
            begin(self.blocks, self.names, &mut self.stale, block);
        }
    }

    /// The walk goes on over an instruction that writes this name, or none, and goes or not.
    pub fn step(&mut self, target: Option<Name>, goes: bool)
        ensures ways { HasSameWays self.old self.new }
        ensures known { (idle : declared-idle.IdleGraph) → AreKnown idle self.old → AreKnown idle self.new }
        ensures come { (idle : declared-idle.IdleGraph) (n : ℕ) (before : List InstructionForm) (i : InstructionForm)
            (left : ℕ)
            → AreKnown idle self.old → n < length (graph_of idle).blocks
            → option_map (λ (x : declared-name.Name). x.0) target ≡ target_of i
            → goes ≡ is_going (turn_of idle.turns.items) n left → HasComeBehind idle self.old n before (suc left)
            → HasComeBehind idle self.new n (before ++ i ∷ []) left }
    {
        step(self.blocks, self.names, &mut self.stale, target, goes);
    }

    /// What a note of a scalar says in the end, to which the walk has come.
    pub fn said(
        &mut self,
        alloc: Global,
        idle: &IdleGraph<'_>,
        note: NotePoint,
        of: Name,
        before: &NoteValue,
    ) -> Result<NoteValue, AllocError>
        ensures same { OnOk result (HasOtherWays self.old self.new) }
        ensures room { OnOk result (HasRoom idle.now self.old.ways → HasRoom idle.now self.new.ways) }
        ensures said { IfOk result (λ v.
            (log : List Logged) → AreToldOf log self.old.removed.now → AreKnown idle.now self.old
            → IsKnown idle.now self.old.stale note → HasRoom idle.now self.old.ways
            → IsSaidAt (assignments_of idle.now) log (graph_of idle.now) note of.0 (note_view before.now)
            (note_view v)) }
    {
        if let Some(assignment) = dropped(idle, note.place, of) {
            return self.said_of_dropped(alloc, idle, note, of, before, assignment);
        }
        if !is_lost(of, before, &self.stale, self.blocks) {
            return before.duplicate(alloc);
        }
        let change = first_removed(idle.graph, self.removed, note.place, of);
        gone_by(alloc, change, before)
    }
}
