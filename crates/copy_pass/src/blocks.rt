//! Copies along a block.

use crate::regions::Regions;
use crate::sources::{Copied, Sources};
use copy_pass_rule::CopyAt;
use graph_core::{Block, Instr, Operand, Scalar};
use std::alloc::AllocError;

/// Whether two names are scalars of one type.
fn are_of_one_type(scalars: &[Scalar], one: u32, other: u32) -> bool {
    match (scalars.get(one as usize), scalars.get(other as usize)) {
        (Some(one), Some(other)) => one.of == other.of,
        _ => false,
    }
}

/// A graph whose blocks are gone along.
#[derive(Drop)]
pub struct Walk<'a> {
    pub scalars: &'a [Scalar],
    pub regions: Regions,
    pub sources: Sources,
    /// The copies of scalars as they are in the end.
    pub copies: Vec<CopyAt>,
}

impl Walk<'_> {
    /// The copies that reach a block begin.
    fn enter(&mut self, number: u32) -> Result<(), AllocError> {
        for copied in self.regions.arriving(number) {
            self.sources.begin(*copied)?;
        }
        Ok(())
    }

    /// The copy that an instruction makes in the end: it moves one scalar, or what that is a copy of, to another one of
    /// the same type.
    fn copy_of(&self, instruction: &Instr) -> Option<Copied> {
        match instruction {
            Instr::Move {
                target,
                from: Operand::Name(name),
            } => {
                let source = self.sources.source_of(name.0);
                if target.0 != source && are_of_one_type(self.scalars, target.0, source) {
                    Some(Copied {
                        target: target.0,
                        source,
                    })
                } else {
                    None
                }
            }
            _ => None,
        }
    }

    /// Goes over an instruction, with so many behind it: it writes its target, and may make a copy.
    fn step(&mut self, instruction: &Instr, block: u32, left: usize) -> Result<(), AllocError> {
        let made = self.copy_of(instruction);
        if let Some(target) = instruction.target() {
            self.sources.write(target.0);
        }
        if let Some(copied) = made {
            self.sources.begin(copied)?;
            self.copies.push(CopyAt {
                block,
                left,
                target: copied.target,
                source: copied.source,
            })?;
        }
        Ok(())
    }

    /// Goes along the instructions of a block.
    fn pass(&mut self, number: u32, block: &Block) -> Result<(), AllocError> {
        let mut left = block.instructions.len();
        for instruction in &block.instructions {
            left = left.saturating_sub(1);
            self.step(instruction, number, left)?;
        }
        Ok(())
    }

    /// The copies that were made in a block and hold at its end go on from there.
    fn leave(&mut self, number: u32, made: &[Copied]) -> Result<(), AllocError> {
        for copied in made {
            self.regions.leave(number, *copied)?;
        }
        Ok(())
    }

    /// Goes along a block.
    pub fn visit(&mut self, number: u32, block: &Block) -> Result<(), AllocError> {
        self.enter(number)?;
        let arrived = self.regions.arriving(number).len();
        self.pass(number, block)?;
        let made = self.sources.leave(arrived)?;
        self.leave(number, &made)
    }
}
