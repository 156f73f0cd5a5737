//! Blocks that are being built from their ends, instruction by instruction.

ghost use Rattle.std.specs.Prelude.{◌≡◌, ◌∷◌, IfOk, None, map, option_map};
ghost use Rattle.graph_core.specs.Graphs as form;
ghost use Rattle.graph_core.specs.Graphs.{block_view, end_view, location_view, operand_view};
ghost use Rattle.graph_core.specs.declared.name.Name as declared-name;
ghost use Rattle.graph_build_steps.specs.Drafts.{instruction_before, with_inner_block, computing, ending, made_of, move_if, next_label, note};

use debug_records::Place;
use graph_core::{
    Block, Callee, Element, End, Instr, Label, Location, Name, NoteValue, Operand, Recipe,
};
use smallvec::SmallVec;
use std::alloc::{AllocError, Global};
use word_base::{Operation, Truncation};

/// A block whose end and last instructions stand, with the inner blocks that are complete.
#[derive(Drop)]
pub struct Draft {
    /// The last instruction first.
    pub ops: Vec<Instr>,
    pub end: End,
    /// The last block in order of evaluation first.
    pub inner: Vec<Block>,
}

/// An instruction that writes a name, without the name.
#[derive(Clone, Copy)]
pub enum Computation {
    Move(Operand),
    Operate(Operation, Operand, Operand),
    Truncate(Truncation, Operand),
    Same(Operand, Operand),
    Address(u32),
    Load(Element, Location),
}

/// Two ways to go by a test, and the inner blocks that stand.
#[derive(Drop)]
pub struct Fork {
    pub one: Label,
    pub other: Label,
    pub inner: Vec<Block>,
}

/// A block that has its end alone.
pub fn ending(alloc: Global, end: End, inner: Vec<Block>) -> Draft
    ensures { made_of result ≡ ending (end_view end) (map block_view inner.items) }
{
    Draft {
        ops: Vec::new(alloc),
        end,
        inner,
    }
}

/// A computation that writes a name, before what follows.
pub fn compute(draft: Draft, target: Name, computation: Computation) -> Result<Draft, AllocError>
    ensures { IfOk result (λ d. made_of d ≡ instruction_before (computing computation target.0) (made_of draft)) }
{
    let mut made = draft;
    let instruction = match computation {
        Computation::Move(from) => Instr::Move { target, from },
        Computation::Operate(operation, left, right) => Instr::Operate {
            target,
            operation,
            left,
            right,
        },
        Computation::Truncate(truncation, from) => Instr::Truncate {
            target,
            truncation,
            from,
        },
        Computation::Same(left, right) => Instr::Same {
            target,
            left,
            right,
        },
        Computation::Address(object) => Instr::Address { target, object },
        Computation::Load(element, from) => Instr::Load {
            target,
            element,
            from,
        },
    };
    made.ops.push(instruction)?;
    Ok(made)
}

/// A value that is moved to a name if it has to be, before what follows.
pub fn move_if(moved: bool, target: Name, from: Operand, draft: Draft) -> Result<Draft, AllocError>
    ensures { IfOk result (λ d. made_of d ≡ move_if moved target.0 (operand_view from) (made_of draft)) }
{
    if moved {
        compute(draft, target, Computation::Move(from))
    } else {
        Ok(draft)
    }
}

/// A value that is stored, before what follows.
pub fn store(
    element: Element,
    to: Location,
    value: Operand,
    draft: Draft,
) -> Result<Draft, AllocError>
    ensures { IfOk result (λ d.
        made_of d ≡ instruction_before (form.Store element (location_view to) (operand_view value)) (made_of draft)) }
{
    let mut made = draft;
    made.ops.push(Instr::Store { element, to, value })?;
    Ok(made)
}

/// Words of an object that are set to zero, before what follows.
pub fn clear(object: u32, words: u32, draft: Draft) -> Result<Draft, AllocError>
    ensures { IfOk result (λ d. made_of d ≡ instruction_before (form.Zero object words) (made_of draft)) }
{
    let mut made = draft;
    made.ops.push(Instr::Zero { object, words })?;
    Ok(made)
}

/// Words of the bytes that initialise arrays that are copied into an object, before what follows.
pub fn copy(object: u32, bytes: u32, words: u32, draft: Draft) -> Result<Draft, AllocError>
    ensures { IfOk result (λ d. made_of d ≡ instruction_before (form.CopyWords object bytes words) (made_of draft)) }
{
    let mut made = draft;
    made.ops.push(Instr::CopyWords {
        object,
        bytes,
        words,
    })?;
    Ok(made)
}

/// A call, before what follows.
pub fn call(
    target: Option<Name>,
    callee: Callee,
    arguments: SmallVec<Operand, 4>,
    draft: Draft,
) -> Result<Draft, AllocError>
    ensures { IfOk result (λ d.
        made_of d ≡ instruction_before
        (form.Call (option_map (λ (n : declared-name.Name). n.0) target) callee
        (map operand_view arguments.items))
        (made_of draft)) }
{
    let mut made = draft;
    made.ops.push(Instr::Call {
        target,
        callee,
        arguments,
    })?;
    Ok(made)
}

/// A note that a scalar has its own value, before what follows.
pub fn note(scalar: Name, draft: Draft) -> Result<Draft, AllocError>
    ensures { IfOk result (λ d. made_of d ≡ note scalar.0 (made_of draft)) }
{
    let mut made = draft;
    made.ops.push(Instr::Note {
        of: scalar,
        value: NoteValue::Is(Recipe::of_name(scalar)),
    })?;
    Ok(made)
}

/// The block of a place: its marker, and then what follows. The inner blocks stand beside it.
pub fn marked(place: Place, draft: Draft) -> Result<(Block, Vec<Block>), AllocError>
    ensures block { IfOk result (λ r.
        block_view r.0 ≡ record
        { place = None; instructions = form.Marker place.0 ∷ (made_of draft).ops; end = (made_of draft).end }) }
    ensures inner { IfOk result (λ r. map block_view r.1.items ≡ (made_of draft).inner) }
{
    let mut ops = draft.ops;
    ops.push(Instr::Marker(place))?;
    ops.reverse();
    let block = Block {
        place: None,
        instructions: ops,
        end: draft.end,
    };
    Ok((block, draft.inner))
}

/// The label of the inner block that is finished next, in a graph of so many blocks.
pub fn next_label(top: u32, inner: &[Block]) -> Label
    ensures { result.0 ≡ next_label top (map block_view inner.now) }
{
    let at = (top as usize).saturating_sub(inner.len() + 1);
    Label(at as u32)
}

/// The inner blocks of a draft with itself as one more, in a place.
pub fn closed(place: Place, draft: Draft) -> Result<Vec<Block>, AllocError>
    ensures { IfOk result (λ v. map block_view v.items ≡ with_inner_block place.0 (made_of draft)) }
{
    let mut instructions = draft.ops;
    instructions.reverse();
    let mut inner = draft.inner;
    inner.push(Block {
        place: Some(place),
        instructions,
        end: draft.end,
    })?;
    Ok(inner)
}
