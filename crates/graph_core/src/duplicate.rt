//! Copies of units and of what they are made of.

ghost use Rattle.std.specs.Prelude.{◌≡◌, IfOk, map, true};
ghost use Rattle.graph_core.specs.Graphs.{block_view, bytes_view, graph_view, instruction_view, note_view, recipe_view, static_view, unit_view};
ghost use Rattle.graph_core.specs.Uses.{is_computation, is_of_two};

use crate::block::Block;
use crate::graph::Graph;
use crate::instruction::Instr;
use crate::recipe::{NoteValue, Recipe};
use crate::unit::{Bytes, StaticObject, Unit};
use places::FlowTable;
use smallvec::SmallVec;
use std::alloc::{AllocError, Global};

impl Recipe {
    /// An equal recipe.
    pub fn duplicate(&self, alloc: Global) -> Result<Recipe, AllocError>
        ensures { IfOk result (λ v. recipe_view v ≡ recipe_view self.now) }
    {
        match self {
            Recipe::Operand(operand) => Ok(Recipe::Operand(*operand)),
            Recipe::Truncated(truncation, of) => {
                let of = of.duplicate(alloc)?;
                Ok(Recipe::Truncated(*truncation, Box::new(alloc, of)?))
            }
            Recipe::Operated(operation, left, right) => {
                let left = left.duplicate(alloc)?;
                let right = right.duplicate(alloc)?;
                let left = Box::new(alloc, left)?;
                Ok(Recipe::Operated(*operation, left, Box::new(alloc, right)?))
            }
        }
    }
}

impl NoteValue {
    /// An equal value of a note.
    pub fn duplicate(&self, alloc: Global) -> Result<NoteValue, AllocError>
        ensures { IfOk result (λ v. note_view v ≡ note_view self.now) }
    {
        match self {
            NoteValue::Is(recipe) => Ok(NoteValue::Is(recipe.duplicate(alloc)?)),
            NoteValue::Gone(change) => Ok(NoteValue::Gone(*change)),
        }
    }
}

impl Instr {
    /// An equal instruction, where it makes its value of two operands.
    fn duplicate_operation(&self) -> Instr
        requires { is_of_two (instruction_view self.now) ≡ true }
        ensures { instruction_view result ≡ instruction_view self.now }
    {
        match *self {
            Instr::Operate {
                target,
                operation,
                left,
                right,
            } => Instr::Operate {
                target,
                operation,
                left,
                right,
            },
            Instr::Same {
                target,
                left,
                right,
            } => Instr::Same {
                target,
                left,
                right,
            },
            _ => unreachable!(),
        }
    }

    /// An equal instruction, where it owns no memory and writes a name.
    fn duplicate_computation(&self) -> Instr
        requires { is_computation (instruction_view self.now) ≡ true }
        ensures { instruction_view result ≡ instruction_view self.now }
    {
        match *self {
            Instr::Move { target, from } => Instr::Move { target, from },
            Instr::Truncate {
                target,
                truncation,
                from,
            } => Instr::Truncate {
                target,
                truncation,
                from,
            },
            Instr::Address { target, object } => Instr::Address { target, object },
            Instr::Load {
                target,
                element,
                from,
            } => Instr::Load {
                target,
                element,
                from,
            },
            Instr::Operate { .. } | Instr::Same { .. } => self.duplicate_operation(),
            _ => unreachable!(),
        }
    }

    /// An equal instruction.
    pub fn duplicate(&self, alloc: Global) -> Result<Instr, AllocError>
        ensures { IfOk result (λ v. instruction_view v ≡ instruction_view self.now) }
    {
        match self {
            Instr::Marker(place) => Ok(Instr::Marker(*place)),
            Instr::Note { of, value } => Ok(Instr::Note {
                of: *of,
                value: value.duplicate(alloc)?,
            }),
            Instr::Store { element, to, value } => Ok(Instr::Store {
                element: *element,
                to: *to,
                value: *value,
            }),
            Instr::Zero { object, words } => Ok(Instr::Zero {
                object: *object,
                words: *words,
            }),
            Instr::CopyWords {
                object,
                bytes,
                words,
            } => Ok(Instr::CopyWords {
                object: *object,
                bytes: *bytes,
                words: *words,
            }),
            Instr::Call {
                target,
                callee,
                arguments,
            } => Ok(Instr::Call {
                target: *target,
                callee: *callee,
                arguments: SmallVec::from_slice(alloc, arguments.as_slice())?,
            }),
            _ => Ok(self.duplicate_computation()),
        }
    }
}

impl Block {
    /// An equal block.
    pub fn duplicate(&self, alloc: Global) -> Result<Block, AllocError>
        ensures { IfOk result (λ v. block_view v ≡ block_view self.now) }
    {
        let mut instructions = Vec::new(alloc);
        for instruction in &self.instructions {
            instructions.push(instruction.duplicate(alloc)?)?;
        }
        Ok(Block {
            place: self.place,
            instructions,
            end: self.end,
        })
    }
}

impl Graph {
    /// An equal graph.
    pub fn duplicate(&self, alloc: Global) -> Result<Graph, AllocError>
        ensures { IfOk result (λ v. graph_view v ≡ graph_view self.now) }
    {
        let mut blocks = Vec::new(alloc);
        for block in &self.blocks {
            blocks.push(block.duplicate(alloc)?)?;
        }
        Ok(Graph {
            entry: self.entry,
            parameters: Vec::from_slice(alloc, &self.parameters)?,
            scalars: Vec::from_slice(alloc, &self.scalars)?,
            objects: Vec::from_slice(alloc, &self.objects)?,
            name_count: self.name_count,
            first_moved: self.first_moved,
            blocks,
        })
    }
}

impl StaticObject {
    /// An equal static object.
    pub fn duplicate(&self, alloc: Global) -> Result<StaticObject, AllocError>
        ensures { IfOk result (λ v. static_view v ≡ static_view self.now) }
    {
        Ok(StaticObject {
            element: self.element,
            count: self.count,
            bytes: Vec::from_slice(alloc, &self.bytes)?,
            relocations: Vec::from_slice(alloc, &self.relocations)?,
        })
    }
}

fn duplicate_graphs(alloc: Global, graphs: &[Graph]) -> Result<Vec<Graph>, AllocError>
    ensures { IfOk result (λ v. map graph_view v.items ≡ map graph_view graphs.now) }
{
    let mut copies = Vec::new(alloc);
    for graph in graphs {
        copies.push(graph.duplicate(alloc)?)?;
    }
    Ok(copies)
}

fn duplicate_statics(
    alloc: Global,
    objects: &[StaticObject],
) -> Result<Vec<StaticObject>, AllocError>
    ensures { IfOk result (λ v. map static_view v.items ≡ map static_view objects.now) }
{
    let mut copies = Vec::new(alloc);
    for object in objects {
        copies.push(object.duplicate(alloc)?)?;
    }
    Ok(copies)
}

fn duplicate_bytes(alloc: Global, all: &[Bytes]) -> Result<Vec<Bytes>, AllocError>
    ensures { IfOk result (λ v. map bytes_view v.items ≡ map bytes_view all.now) }
{
    let mut copies = Vec::new(alloc);
    for bytes in all {
        let bytes = Vec::from_slice(alloc, &bytes.bytes)?;
        copies.push(Bytes { bytes })?;
    }
    Ok(copies)
}

impl Unit {
    /// An equal unit.
    pub fn duplicate(&self, alloc: Global) -> Result<Unit, AllocError>
        ensures { IfOk result (λ v. unit_view v ≡ unit_view self.now) }
    {
        Ok(Unit {
            graphs: duplicate_graphs(alloc, &self.graphs)?,
            main: self.main,
            statics: duplicate_statics(alloc, &self.statics)?,
            array_bytes: duplicate_bytes(alloc, &self.array_bytes)?,
            flow: FlowTable {
                steps: Vec::from_slice(alloc, &self.flow.steps)?,
                assignments: Vec::from_slice(alloc, &self.flow.assignments)?,
            },
            log: self.log.duplicate(alloc)?,
            room: self.room,
        })
    }
}
