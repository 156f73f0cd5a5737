//! What is left of a graph.

ghost use Rattle.std.specs.Prelude.{◌≡◌, ◌<◌, ◌^◌, ◌++◌, IfOk, IfSome, List, None, OnOk, Some, false, ℕ, length, map, slice_get};
ghost use Rattle.dead_pass_notes.specs.Idle.{IsBorneOut, assignments_of, graph_of};
ghost use Rattle.dead_pass_notes.specs.Said.{AreSaid, SaysAs, SaysWhatItShall};
ghost use Rattle.dead_pass_notes.specs.Sources.{HasRoom};
ghost use Rattle.dead_pass_notes.specs.RemovalNotesStale.{HasOtherWays};
ghost use Rattle.dead_pass_writes.specs.RemovedChangesTelling.{AreToldOf};
ghost use Rattle.dead_pass_notes.specs.Points.{placed};
ghost use Rattle.dead_pass.specs.LeftBy.{AreLeftBlocksBy, AreLeftBy, IsKeptAs, IsLeftBlockBy, IsNoteOf, IsPushed};
ghost use Rattle.dead_pass.specs.Noted.{IsHere, IsReady, IsSaidBehind, IsVisited};
ghost use Rattle.graph_core.specs.Graphs.{Block as BlockForm, Call as CallOf, Instruction as InstructionForm, Logged, Note as NoteOf, UnitForm, block_view, graph_view, instruction_view, note_view, operand_view};
ghost use Rattle.graph_core.specs.Validity.{IsGraph};
ghost use Rattle.dead_pass_rule.specs.Asking.{is_going};
ghost use Rattle.dead_pass_rule.specs.Removing.{IsReduced, without};
ghost use Rattle.dead_pass_rule.specs.Walks.{turn_of};
ghost use Rattle.graph_paths.specs.PathMarksTable.{bits_of};

use dead_pass_notes::{IdleGraph, NotePoint, Notes};
use dead_pass_writes::{RemovedChanges, Spot};
use debug_records::Place;
use graph_core::{Block, Callee, Graph, Instr, Name, NoteValue, Operand};
use smallvec::SmallVec;
use std::alloc::{AllocError, Global};

/// A call without a target.
fn untargeted(alloc: Global, callee: Callee, arguments: &[Operand]) -> Result<Instr, AllocError>
    ensures { IfOk result (λ call. instruction_view call ≡ CallOf None callee (map operand_view arguments.now)) }
{
    let arguments = SmallVec::from_slice(alloc, arguments)?;
    Ok(Instr::Call {
        target: None,
        callee,
        arguments,
    })
}

/// Appends what is left of an instruction whose write goes: a call without its target, or nothing.
fn push_gone(alloc: Global, instruction: &Instr, left: &mut Vec<Instr>) -> Result<(), AllocError>
    ensures { OnOk result
        (map instruction_view left.new.items
        ≡ map instruction_view left.old.items ++ without (instruction_view instruction.now)) }
{
    if let Instr::Call {
        callee,
        arguments,
        ..
    } = instruction
    {
        let call = untargeted(alloc, *callee, arguments.as_slice())?;
        left.push(call)?;
    }
    Ok(())
}

/// What is left of a note of a scalar.
fn left_note(
    alloc: Global,
    idle: &IdleGraph<'_>,
    notes: &mut Notes<'_>,
    note: NotePoint,
    of: Name,
    value: &NoteValue,
) -> Result<Instr, AllocError>
    ensures note { IfOk result (λ left. IsNoteOf of.0 (instruction_view left)) }
    ensures same { OnOk result (HasOtherWays notes.old notes.new) }
    ensures room { OnOk result (HasRoom idle.now notes.old.ways → HasRoom idle.now notes.new.ways) }
    ensures said { IfOk result (λ left.
        (log : List Logged) (b : BlockForm) (before rest : List InstructionForm) → IsReady log idle.now notes.old
        → IsHere idle.now notes.old note b before (NoteOf of.0 (note_view value.now)) rest
        → SaysAs (assignments_of idle.now) log (graph_of idle.now) note.spot.block rest b.end
        (NoteOf of.0 (note_view value.now)) (instruction_view left)) }
{
    let value = notes.said(alloc, idle, note, of, value)?;
    Ok(Instr::Note { of, value })
}

/// What is left of an instruction that does not go: a note may say another value.
fn kept(
    alloc: Global,
    idle: &IdleGraph<'_>,
    notes: &mut Notes<'_>,
    at: NotePoint,
    instruction: &Instr,
) -> Result<Instr, AllocError>
    ensures left { IfOk result (λ left. IsKeptAs (instruction_view instruction.now) (instruction_view left)) }
    ensures same { OnOk result (HasOtherWays notes.old notes.new) }
    ensures room { OnOk result (HasRoom idle.now notes.old.ways → HasRoom idle.now notes.new.ways) }
    ensures said { IfOk result (λ left.
        (log : List Logged) (b : BlockForm) (before rest : List InstructionForm) → IsReady log idle.now notes.old
        → IsHere idle.now notes.old at b before (instruction_view instruction.now) rest
        → SaysAs (assignments_of idle.now) log (graph_of idle.now) at.spot.block rest b.end
        (instruction_view instruction.now) (instruction_view left)) }
{
    if let Instr::Note { of, value } = instruction {
        let note = left_note(alloc, idle, notes, at, *of, value)?;
        return Ok(note);
    }
    let same = instruction.duplicate(alloc)?;
    Ok(same)
}

/// Appends what is left of an instruction that some path reaches.
fn push_left(
    alloc: Global,
    idle: &IdleGraph<'_>,
    notes: &mut Notes<'_>,
    at: NotePoint,
    goes: bool,
    instruction: &Instr,
    left: &mut Vec<Instr>,
) -> Result<(), AllocError>
    ensures left { OnOk result
        (IsPushed goes (instruction_view instruction.now) (map instruction_view left.old.items)
        (map instruction_view left.new.items)) }
    ensures same { OnOk result (HasOtherWays notes.old notes.new) }
    ensures room { OnOk result (HasRoom idle.now notes.old.ways → HasRoom idle.now notes.new.ways) }
    ensures said { OnOk result
        ((log : List Logged) (b : BlockForm) (before rest : List InstructionForm) → goes ≡ false → IsReady log
        idle.now notes.old → IsHere idle.now notes.old at b before (instruction_view instruction.now) rest →
        IsSaidBehind (assignments_of idle.now) log (graph_of idle.now) at.spot.block b
        (instruction_view instruction.now) rest (map instruction_view left.old.items)
        (map instruction_view left.new.items)) }
{
    if goes {
        push_gone(alloc, instruction, left)?;
        return Ok(());
    }
    let kept = kept(alloc, idle, notes, at, instruction)?;
    left.push(kept)?;
    Ok(())
}

/// A point of a block with so many instructions behind it, where a place is in force; place 0 where there is none.
fn note_point(block: u32, left: usize, place: Option<Place>) -> NotePoint
    ensures spot { result.spot ≡ record { block = block; left = left } }
    ensures place { (p : ℕ) → placed place ≡ Some p → result.place.0 ≡ p }
    ensures none { place ≡ None → result.place.0 ≡ 0 }
{
    NotePoint {
        spot: Spot { block, left },
        place: place.unwrap_or(Place(0)),
    }
}

/// What is left of the instructions of a block that some path reaches, where it keeps a place.
fn left_of(
    alloc: Global,
    idle: &IdleGraph<'_>,
    notes: &mut Notes<'_>,
    number: u32,
    kept_place: Option<Place>,
    instructions: &[Instr],
) -> Result<Vec<Instr>, AllocError>
    ensures left { IfOk result (λ left.
        AreLeftBy (is_going (turn_of idle.now.turns.items) number) (map instruction_view instructions.now)
        (map instruction_view left.items)) }
    ensures ready { OnOk result
        ((log : List Logged) → IsReady log idle.now notes.old → IsReady log idle.now notes.new) }
    ensures said { IfOk result (λ left.
        (log : List Logged) (b : BlockForm) → IsReady log idle.now notes.old → IsVisited idle.now number b
        → b.place ≡ placed kept_place → b.instructions ≡ map instruction_view instructions.now
        → AreSaid (assignments_of idle.now) log (graph_of idle.now) number b.end b.instructions
        (map instruction_view left.items)) }
{
    notes.begin(number);
    let mut left = Vec::new(alloc);
    let mut place = kept_place;
    let mut ahead = instructions;
    while let [instruction, rest @ ..] = ahead {
        let goes = idle.goes_at(number, rest.len());
        let at = note_point(number, rest.len(), place);
        push_left(alloc, idle, notes, at, goes, instruction, &mut left)?;
        notes.step(instruction.target(), goes);
        place = instruction.marker().or(place);
        ahead = rest;
    }
    Ok(left)
}

/// What is left of a block.
fn left_block(
    alloc: Global,
    idle: &IdleGraph<'_>,
    notes: &mut Notes<'_>,
    number: u32,
    block: &Block,
) -> Result<Block, AllocError>
    ensures left { IfOk result (λ left.
        IsLeftBlockBy (is_going (turn_of idle.now.turns.items)) (bits_of idle.now.reached 0) number
        (block_view block.now) (block_view left)) }
    ensures ready { OnOk result
        ((log : List Logged) → IsReady log idle.now notes.old → IsReady log idle.now notes.new) }
    ensures said { IfOk result (λ left.
        (log : List Logged) → IsReady log idle.now notes.old
        → slice_get (graph_of idle.now).blocks number ≡ Some (block_view block.now)
        → AreSaid (assignments_of idle.now) log (graph_of idle.now) number (block_view block.now).end
        (block_view block.now).instructions (block_view left).instructions) }
{
    if !idle.is_reached(number) {
        let same = block.duplicate(alloc)?;
        return Ok(same);
    }
    Ok(Block {
        place: block.place,
        instructions: left_of(alloc, idle, notes, number, block.place, &block.instructions)?,
        end: block.end,
    })
}

/// What is left of blocks.
fn blocks_left(
    alloc: Global,
    idle: &IdleGraph<'_>,
    notes: &mut Notes<'_>,
    blocks: &[Block],
) -> Result<Vec<Block>, AllocError>
    requires few { length blocks.now < 2 ^ 32 }
    ensures left { IfOk result (λ left.
        AreLeftBlocksBy (is_going (turn_of idle.now.turns.items)) (bits_of idle.now.reached 0) 0
        (map block_view blocks.now) (map block_view left.items)) }
    ensures said { IfOk result (λ left.
        (log : List Logged) → IsReady log idle.now notes.old
        → (graph_of idle.now).blocks ≡ map block_view blocks.now
        → SaysWhatItShall (assignments_of idle.now) log (graph_of idle.now)
        (record (graph_of idle.now) { blocks = map block_view left.items })) }
{
    let mut left = Vec::new(alloc);
    let mut number = 0u32;
    let mut ahead = blocks;
    while let [block, rest @ ..] = ahead {
        let next = left_block(alloc, idle, notes, number, block)?;
        left.push(next)?;
        number += 1;
        ahead = rest;
    }
    Ok(left)
}

/// What is left of a graph, whose notes tell of what goes by these changes.
pub fn graph_left(
    alloc: Global,
    idle: &IdleGraph<'_>,
    removed: &RemovedChanges,
) -> Result<Graph, AllocError>
    requires { IsBorneOut idle.now }
    ensures left { IfOk result (λ left. IsReduced (assignments_of idle.now) (graph_of idle.now) (graph_view left)) }
    ensures notes { IfOk result (λ left.
        (log : List Logged) (u : UnitForm) → AreToldOf log removed.now → IsGraph u (graph_of idle.now)
        → SaysWhatItShall (assignments_of idle.now) log (graph_of idle.now) (graph_view left)) }
{
    if idle.stays() {
        let same = idle.graph.duplicate(alloc)?;
        return Ok(same);
    }
    let mut notes = Notes::new(alloc, idle, removed)?;
    let blocks = blocks_left(alloc, idle, &mut notes, &idle.graph.blocks)?;
    Ok(Graph {
        entry: idle.graph.entry,
        parameters: Vec::from_slice(alloc, &idle.graph.parameters)?,
        scalars: Vec::from_slice(alloc, &idle.graph.scalars)?,
        objects: Vec::from_slice(alloc, &idle.graph.objects)?,
        name_count: idle.graph.name_count,
        first_moved: idle.graph.first_moved,
        blocks,
    })
}
