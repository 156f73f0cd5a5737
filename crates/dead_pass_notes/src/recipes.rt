//! The recipes of assignments that go.

ghost use Rattle.std.specs.Prelude.{◌≡◌, ◌≢◌, ◌↔◌, ◌∷◌, ℕ, suc, IfOk, IfSome, List, None, OnOk, Some, option_map, true};
ghost use Rattle.graph_core.specs.Graphs.{Instruction as InstructionForm, Move as MoveForm, Operand as OperandForm, Recipe as RecipeForm, graph_view, operand_view, recipe_view};
ghost use Rattle.dead_pass_notes.specs.Spots.{IsPoint, left_at};
ghost use Rattle.dead_pass_notes.specs.Idle.{IsBorneOut, assignments_of, graph_of};
ghost use Rattle.dead_pass_notes.specs.declared.recipes.Source.TheVariants.{Made as MadeAt, Read as ReadOf};
ghost use Rattle.dead_pass_notes.specs.Sources.{AreSources, Computes, Gives, HasRoom, IsFound, IsKnown, IsMade, IsRead, IsSource, StillHolds};

use crate::idle_graph::IdleGraph;
use crate::{Ways, instructions_from};
use dead_pass_writes::Spot;
use debug_records::Place;
use graph_core::{Graph, Instr, Operand, Recipe};
use graph_paths::Marks;
use std::alloc::{AllocError, Global};
use word_base::{Operation, Truncation};

/// A note: where it stands, and in which place.
#[derive(Clone, Copy)]
pub struct NotePoint {
    pub spot: Spot,
    pub place: Place,
}

/// What a recipe is made of.
#[derive(Clone, Copy)]
enum Source {
    /// An operand, as an instruction reads it.
    Read { at: Spot, operand: Operand },
    /// What an instruction computes.
    Made(Spot),
    /// What no recipe gives.
    Unknown,
}

/// How a value is computed of sources.
#[derive(Clone, Copy)]
enum Computed {
    Truncated(Truncation, Source),
    Operated(Operation, Source, Source),
    /// In a way that no recipe gives.
    Unknown,
}

/// What an instruction copies, if it does no more.
fn copied(graph: &Graph, at: Spot) -> Option<Operand>
    ensures some { IsPoint (graph_view graph.now) at.block (suc at.left)
        → IfSome result (λ a.
        (x : ℕ)
        ×
        (left_at (graph_view graph.now) at.block (suc at.left)
        ≡ MoveForm x (operand_view a) ∷ left_at (graph_view graph.now) at.block at.left)) }
    ensures none { IsPoint (graph_view graph.now) at.block (suc at.left) → result ≡ None
        → (x : ℕ) (a : OperandForm) (rest : List InstructionForm)
        → left_at (graph_view graph.now) at.block (suc at.left) ≢ MoveForm x a ∷ rest }
{
    let [instruction, ..] = instructions_from(graph, at.block, at.left) else {
        return None;
    };
    match instruction {
        Instr::Move { from, .. } => Some(*from),
        _ => None,
    }
}

/// Whether a spot is this one.
fn is_same(mark: Option<Spot>, spot: Spot) -> bool
    ensures { result ≡ true → mark ≡ Some spot }
{
    match mark {
        Some(mark) => mark.block == spot.block && mark.left == spot.left,
        None => false,
    }
}

/// The source of what an operand gives that an instruction reads: a temporary that code motion did not make gives what
/// its one definition in the place does.
fn source_of(
    idle: &IdleGraph<'_>,
    note: NotePoint,
    at: Spot,
    operand: Operand,
) -> Result<Source, AllocError>
    ensures source { IfOk result (λ source.
        IsBorneOut idle.now → IsPoint (graph_of idle.now) at.block at.left
        → IsSource (graph_of idle.now) note source) }
    ensures same { IfOk result (λ source.
        IsBorneOut idle.now → (r : RecipeForm)
        → IsRead (assignments_of idle.now) (graph_of idle.now) note at (operand_view operand) r ↔ Gives
        (assignments_of idle.now) (graph_of idle.now) note source r) }
{
    let mut at = at;
    let mut operand = operand;
    let mut mark = None;
    let mut limit = 1u64;
    for steps in 0..u64::MAX {
        let Some(name) = idle.local(operand) else {
            return Ok(Source::Read { at, operand });
        };
        let Some(definition) = idle.writes.only(note.place.0, name.0) else {
            return Ok(Source::Unknown);
        };
        if is_same(mark, definition) {
            return Ok(Source::Unknown);
        }
        let Some(from) = copied(idle.graph, definition) else {
            return Ok(Source::Made(definition));
        };
        if steps == limit {
            mark = Some(definition);
            limit = limit.saturating_mul(2);
        }
        at = definition;
        operand = from;
    }
    Err(AllocError)
}

/// Whether a name still has at a note the value that an instruction reads: it is not stale at the note, and no way from
/// there to the note writes it.
fn still_holds(
    idle: &IdleGraph<'_>,
    ways: &mut Ways,
    stale: &Marks,
    note: NotePoint,
    at: Spot,
    name: u32,
) -> Result<bool, AllocError>
    ensures room { OnOk result (HasRoom idle.now ways.old → HasRoom idle.now ways.new) }
    ensures exact { IfOk result (λ is.
        IsKnown idle.now stale.now note → HasRoom idle.now ways.old → IsPoint (graph_of idle.now) at.block at.left
        → (is ≡ true) ↔ StillHolds (assignments_of idle.now) (graph_of idle.now) note at name) }
{
    if stale.get(idle.graph.blocks.len() as u32, name) {
        return Ok(false);
    }
    let is_written = ways.is_written_between(idle.graph, &idle.turns, at, note.spot, name)?;
    Ok(!is_written)
}

/// The recipe at a note of an operand that an instruction reads, where it still gives there what it gave.
fn read_recipe(
    idle: &IdleGraph<'_>,
    ways: &mut Ways,
    stale: &Marks,
    note: NotePoint,
    at: Spot,
    operand: Operand,
) -> Result<Option<Recipe>, AllocError>
    ensures room { OnOk result (HasRoom idle.now ways.old → HasRoom idle.now ways.new) }
    ensures found { IfOk result (λ o.
        IsKnown idle.now stale.now note → HasRoom idle.now ways.old
        → IsSource (graph_of idle.now) note (ReadOf at operand) → (depth : ℕ)
        → IsFound (suc depth) (Gives (assignments_of idle.now) (graph_of idle.now) note (ReadOf at operand))
        (option_map recipe_view o)) }
{
    if let Operand::Name(name) = operand {
        if !still_holds(idle, ways, stale, note, at, name.0)? {
            return Ok(None);
        }
    }
    Ok(Some(Recipe::Operand(operand)))
}

/// Of what sources an instruction computes its value.
fn computed_at(idle: &IdleGraph<'_>, note: NotePoint, made: Spot) -> Result<Computed, AllocError>
    ensures sources { IfOk result (λ computed.
        IsBorneOut idle.now → IsSource (graph_of idle.now) note (MadeAt made)
        → AreSources (graph_of idle.now) note computed) }
    ensures same { IfOk result (λ computed.
        IsBorneOut idle.now → IsSource (graph_of idle.now) note (MadeAt made) → (r : RecipeForm)
        → IsMade (assignments_of idle.now) (graph_of idle.now) note made r ↔ Computes (assignments_of idle.now)
        (graph_of idle.now) note computed r) }
{
    let [instruction, ..] = instructions_from(idle.graph, made.block, made.left) else {
        return Ok(Computed::Unknown);
    };
    match instruction {
        Instr::Truncate {
            truncation,
            from,
            ..
        } => {
            let from = source_of(idle, note, made, *from)?;
            Ok(Computed::Truncated(*truncation, from))
        }
        Instr::Operate {
            operation,
            left,
            right,
            ..
        } => {
            let left = source_of(idle, note, made, *left)?;
            let right = source_of(idle, note, made, *right)?;
            Ok(Computed::Operated(*operation, left, right))
        }
        _ => Ok(Computed::Unknown),
    }
}

/// The recipe at a note of what a source gives, where it is at most so deep.
fn recipe_at(
    alloc: Global,
    idle: &IdleGraph<'_>,
    ways: &mut Ways,
    stale: &Marks,
    note: NotePoint,
    source: Source,
    depth: u32,
) -> Result<Option<Recipe>, AllocError>
    ensures room { OnOk result (HasRoom idle.now ways.old → HasRoom idle.now ways.new) }
    ensures found { IfOk result (λ o.
        IsKnown idle.now stale.now note → HasRoom idle.now ways.old → IsSource (graph_of idle.now) note source
        → IsFound depth (Gives (assignments_of idle.now) (graph_of idle.now) note source)
        (option_map recipe_view o)) }
{
    if depth == 0 {
        return Ok(None);
    }
    let made = match source {
        Source::Unknown => return Ok(None),
        Source::Made(made) => made,
        Source::Read { at, operand } => {
            return read_recipe(idle, ways, stale, note, at, operand);
        }
    };
    match computed_at(idle, note, made)? {
        Computed::Unknown => Ok(None),
        Computed::Truncated(truncation, from) => {
            let Some(of) = recipe_at(alloc, idle, ways, stale, note, from, depth - 1)? else {
                return Ok(None);
            };
            Ok(Some(Recipe::Truncated(truncation, Box::new(alloc, of)?)))
        }
        Computed::Operated(operation, left, right) => {
            let Some(left) = recipe_at(alloc, idle, ways, stale, note, left, depth - 1)? else {
                return Ok(None);
            };
            let Some(right) = recipe_at(alloc, idle, ways, stale, note, right, depth - 1)? else {
                return Ok(None);
            };
            let left = Box::new(alloc, left)?;
            Ok(Some(Recipe::Operated(operation, left, Box::new(alloc, right)?)))
        }
    }
}

/// The recipe at a note of the right side of an assignment (Hennessy 1982), where there is one and it is at most so
/// deep.
pub fn recipe_of(
    alloc: Global,
    idle: &IdleGraph<'_>,
    ways: &mut Ways,
    stale: &Marks,
    note: NotePoint,
    assignment: Spot,
    depth: u32,
) -> Result<Option<Recipe>, AllocError>
    ensures room { OnOk result (HasRoom idle.now ways.old → HasRoom idle.now ways.new) }
    ensures found { IfOk result (λ o.
        IsKnown idle.now stale.now note → HasRoom idle.now ways.old
        → IsPoint (graph_of idle.now) assignment.block (suc assignment.left)
        → IsFound depth (IsMade (assignments_of idle.now) (graph_of idle.now) note assignment)
        (option_map recipe_view o)) }
{
    let source = match copied(idle.graph, assignment) {
        Some(from) => source_of(idle, note, assignment, from)?,
        None => Source::Made(assignment),
    };
    recipe_at(alloc, idle, ways, stale, note, source, depth)
}
