//! What instructions and ends read, where it is known which copies are missing.

ghost use Rattle.std.specs.Prelude.{◌≡◌, ◌+◌, ◌^◌, ◌<◌, IfOk, length, map, true};

use crate::copies::Copies;
use graph_core::{End, Instr, Location, Name, Operand};
use graph_paths::Marks;
use smallvec::SmallVec;
use std::alloc::{AllocError, Global};

/// The copies that are missing where something is read, in a row.
#[derive(Drop)]
pub struct Reader<'a> {
    pub copies: &'a Copies<'a>,
    pub row: u32,
    pub marks: &'a Marks,
    ghost narrow: { length copies.now.all.now + 1 < 2 ^ 32 },
}

impl Reader<'_> {
    ghost use Rattle.graph_core.specs.Graphs.{end_view, instruction_view, location_view, operand_view};
    ghost use Rattle.graph_core.specs.Uses.{is_of_two};
    ghost use Rattle.copy_pass_rule.specs.Copying.{reading, reading_all, reading_at, reading_end, reading_operand};
    ghost use Rattle.copy_pass_rule.specs.Reader.{read_as};

    /// What a name is read as.
    fn read_name(&self, name: u32) -> u32
        ensures { result ≡ read_as self.now name }
    {
        for (k, copy) in self.copies.all.iter().enumerate() {
            if copy.target == name && !self.marks.get(self.row, k as u32 + 1) {
                return copy.source;
            }
        }
        name
    }

    /// An operand as it is read.
    fn read(&self, operand: Operand) -> Operand
        ensures { operand_view result ≡ reading_operand (read_as self.now) (operand_view operand) }
    {
        match operand {
            Operand::Name(name) => Operand::Name(Name(self.read_name(name.0))),
            Operand::Constant(_) | Operand::StaticAddress { .. } => operand,
        }
    }

    /// Where a load reads or a store writes, as it is read.
    fn read_location(&self, location: Location) -> Location
        ensures { location_view result ≡ reading_at (read_as self.now) (location_view location) }
    {
        match location {
            Location::At(operand) => Location::At(self.read(operand)),
            Location::Automatic { .. } | Location::Static(_) => location,
        }
    }

    /// The arguments of a call as they are read.
    fn read_all(
        &self,
        alloc: Global,
        operands: &[Operand],
    ) -> Result<SmallVec<Operand, 4>, AllocError>
        ensures { IfOk result
            (λ v. map operand_view v.items ≡ reading_all (read_as self.now) (map operand_view operands.now)) }
    {
        let mut all = SmallVec::new(alloc);
        for operand in operands {
            all.push(self.read(*operand))?;
        }
        Ok(all)
    }

    /// An instruction of two operands as it is read.
    fn read_operation(&self, instruction: &Instr) -> Instr
        requires { is_of_two (instruction_view instruction.now) ≡ true }
        ensures { instruction_view result ≡ reading (read_as self.now) (instruction_view instruction.now) }
    {
        match *instruction {
            Instr::Operate {
                target,
                operation,
                left,
                right,
            } => Instr::Operate {
                target,
                operation,
                left: self.read(left),
                right: self.read(right),
            },
            Instr::Same {
                target,
                left,
                right,
            } => Instr::Same {
                target,
                left: self.read(left),
                right: self.read(right),
            },
            _ => unreachable!(),
        }
    }

    /// An instruction as it is read.
    pub fn read_instruction(&self, alloc: Global, instruction: &Instr) -> Result<Instr, AllocError>
        ensures { IfOk result (λ v. instruction_view v ≡ reading (read_as self.now) (instruction_view instruction.now)) }
    {
        match instruction {
            Instr::Move { target, from } => Ok(Instr::Move {
                target: *target,
                from: self.read(*from),
            }),
            Instr::Truncate {
                target,
                truncation,
                from,
            } => Ok(Instr::Truncate {
                target: *target,
                truncation: *truncation,
                from: self.read(*from),
            }),
            Instr::Load {
                target,
                element,
                from,
            } => Ok(Instr::Load {
                target: *target,
                element: *element,
                from: self.read_location(*from),
            }),
            Instr::Store { element, to, value } => Ok(Instr::Store {
                element: *element,
                to: self.read_location(*to),
                value: self.read(*value),
            }),
            Instr::Call {
                target,
                callee,
                arguments,
            } => Ok(Instr::Call {
                target: *target,
                callee: *callee,
                arguments: self.read_all(alloc, arguments.as_slice())?,
            }),
            Instr::Operate { .. } | Instr::Same { .. } => Ok(self.read_operation(instruction)),
            Instr::Marker(_)
            | Instr::Note { .. }
            | Instr::Address { .. }
            | Instr::Zero { .. }
            | Instr::CopyWords { .. } => instruction.duplicate(alloc),
        }
    }

    /// The end of a block as it is read.
    pub fn read_end(&self, end: End) -> End
        ensures { end_view result ≡ reading_end (read_as self.now) (end_view end) }
    {
        match end {
            End::Branch {
                comparison,
                left,
                right,
                then,
                otherwise,
            } => End::Branch {
                comparison,
                left: self.read(left),
                right: self.read(right),
                then,
                otherwise,
            },
            End::Return(Some(operand)) => End::Return(Some(self.read(operand))),
            End::Jump(_) | End::Return(None) => end,
        }
    }
}
