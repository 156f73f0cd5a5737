//! What instructions read and write.

ghost use Rattle.std.specs.Prelude.{◌≡◌, IfOk, OnOk, [], ◌∷◌, ◌++◌, map, option_map, take};
ghost use Rattle.graph_core.specs.Graphs.{end_view, instruction_view, location_view, operand_view};
ghost use Rattle.graph_core.specs.declared.name.Name as declared-name;
ghost use Rattle.graph_core.specs.declared.name.Label as declared-label;
ghost use Rattle.debug_records.specs.declared.change.Place as declared-place;
ghost use Rattle.graph_core.specs.Uses.{labels_in, names_of, names_of_all, names_of_location, marker_of, names_of_some, numbers, reads_of, reads_of_end, target_of, targets_of};

use crate::block::End;
use crate::instruction::{Instr, Location};
use crate::name::{Label, Name, Operand};
use debug_records::Place;
use std::alloc::{AllocError, Global};

/// Appends the name that an operand reads.
fn push_operand(operand: Operand, names: &mut Vec<Name>) -> Result<(), AllocError>
    ensures { OnOk result (numbers names.new.items ≡ numbers names.old.items ++ names_of (operand_view operand)) }
{
    match operand {
        Operand::Name(name) => {
            names.push(name)?;
            Ok(())
        }
        Operand::Constant(_) | Operand::StaticAddress { .. } => Ok(()),
    }
}

/// Appends the names that a location reads.
fn push_location(location: Location, names: &mut Vec<Name>) -> Result<(), AllocError>
    ensures { OnOk result
        (numbers names.new.items ≡ numbers names.old.items ++ names_of_location (location_view location)) }
{
    match location {
        Location::At(operand) => push_operand(operand, names),
        Location::Automatic { .. } | Location::Static(_) => Ok(()),
    }
}

impl Instr {
    /// The names that the instruction reads, in order. A note is no read.
    pub fn reads(&self, alloc: Global) -> Result<Vec<Name>, AllocError>
        ensures { IfOk result (λ v. numbers v.items ≡ reads_of (instruction_view self.now)) }
    {
        let mut names = Vec::new(alloc);
        match self {
            Instr::Marker(_)
            | Instr::Note { .. }
            | Instr::Address { .. }
            | Instr::Zero { .. }
            | Instr::CopyWords { .. } => {}
            Instr::Move { from, .. } | Instr::Truncate { from, .. } => {
                push_operand(*from, &mut names)?;
            }
            Instr::Operate { left, right, .. } | Instr::Same { left, right, .. } => {
                push_operand(*left, &mut names)?;
                push_operand(*right, &mut names)?;
            }
            Instr::Load { from, .. } => push_location(*from, &mut names)?,
            Instr::Store { to, value, .. } => {
                push_location(*to, &mut names)?;
                push_operand(*value, &mut names)?;
            }
            Instr::Call { arguments, .. } => push_all(arguments.as_slice(), &mut names)?,
        }
        Ok(names)
    }

    /// The place that the instruction begins.
    pub fn marker(&self) -> Option<Place>
        ensures { option_map (λ (p : declared-place.Place). p.0) result ≡ marker_of (instruction_view self.now) }
    {
        match self {
            Instr::Marker(place) => Some(*place),
            _ => None,
        }
    }

    /// The name that the instruction writes.
    pub fn target(&self) -> Option<Name>
        ensures { option_map (λ (n : declared-name.Name). n.0) result ≡ target_of (instruction_view self.now) }
    {
        match self {
            Instr::Move { target, .. }
            | Instr::Operate { target, .. }
            | Instr::Truncate { target, .. }
            | Instr::Same { target, .. }
            | Instr::Address { target, .. }
            | Instr::Load { target, .. } => Some(*target),
            Instr::Call { target, .. } => *target,
            Instr::Marker(_)
            | Instr::Note { .. }
            | Instr::Store { .. }
            | Instr::Zero { .. }
            | Instr::CopyWords { .. } => None,
        }
    }
}

/// Appends the names that operands read.
fn push_all(operands: &[Operand], names: &mut Vec<Name>) -> Result<(), AllocError>
    ensures { OnOk result
        (numbers names.new.items ≡ numbers names.old.items ++ names_of_all (map operand_view operands.now)) }
{
    for operand in operands {
        push_operand(*operand, names)?;
    }
    Ok(())
}

/// The blocks to which the end of a block leads: at most two.
#[derive(Clone, Copy)]
pub struct Targets {
    labels: [Label; 2],
    count: usize,
}

impl Targets {
    /// So many of two blocks.
    fn of(first: Label, second: Label, count: usize) -> Targets
        ensures { labels_in result ≡ take count (first ∷ second ∷ []) }
    {
        Targets {
            labels: [first, second],
            count,
        }
    }

    /// The blocks, in order.
    pub fn as_slice(&self) -> &[Label]
        ensures { result.now ≡ labels_in self.entry.now }
    {
        &self.labels[..self.count.min(2)]
    }
}

impl End {
    /// The names that the end of a block reads, in order.
    pub fn reads(&self, alloc: Global) -> Result<Vec<Name>, AllocError>
        ensures { IfOk result (λ v. numbers v.items ≡ reads_of_end (end_view self.now)) }
    {
        let mut names = Vec::new(alloc);
        match self {
            End::Jump(_) | End::Return(None) => {}
            End::Branch { left, right, .. } => {
                push_operand(*left, &mut names)?;
                push_operand(*right, &mut names)?;
            }
            End::Return(Some(operand)) => push_operand(*operand, &mut names)?,
        }
        Ok(names)
    }

    /// The blocks to which the end leads, in order. It takes no memory.
    pub fn targets(&self) -> Targets
        ensures { map (λ (l : declared-label.Label). l.0) (labels_in result) ≡ targets_of (end_view self.now) }
    {
        match self {
            End::Return(_) => Targets::of(Label(0), Label(0), 0),
            End::Jump(label) => Targets::of(*label, Label(0), 1),
            End::Branch {
                then,
                otherwise,
                ..
            } => Targets::of(*then, *otherwise, 2),
        }
    }
}
