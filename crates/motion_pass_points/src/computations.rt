//! The computations of a graph by their numbers.

ghost use Rattle.std.specs.Prelude.{if◌then◌else◌, ◌≡◌, ◌<◌, ◌≤◌, ◌+◌, ◌^◌, ℕ, IfOk, OnOk, List, [], ◌∷◌, ◌++◌, length, map, slice_index_or, false};
ghost use Rattle.graph_core.specs.Bounds.{most_instructions_of_function};
ghost use Rattle.graph_core.specs.Computations as spec;
ghost use Rattle.graph_core.specs.Computations.{computed_by};
ghost use Rattle.graph_core.specs.Graphs.{block_view, instruction_view};

use crate::computation::{Computation, Key};
use graph_core::{Block, Instr};
use std::alloc::{AllocError, Global};
use std::collections::BTreeMap;

/// The computations of a graph's reached code, in the order of their first points.
#[derive(Drop)]
pub struct Computations {
    pub all: Vec<Computation>,
    numbers: BTreeMap<Key, u32>,
}

/// The flag of this number; false where there is none.
pub fn is_flagged(flags: &[bool], number: usize) -> bool
    ensures { result ≡ slice_index_or flags.now number false }
{
    match flags.get(number) {
        Some(flag) => *flag,
        None => false,
    }
}

impl Computations {
    ghost use Rattle.motion_pass_points.specs.MotionPointsComputing.{computation_view, computed_along};
    ghost use Rattle.motion_pass_points.specs.Numbers.{AreNumbers, AreOnce, IsNumberOf, computed_in, views_of};
    ghost use Rattle.motion_pass_points.specs.Columns.{AreNumbersAlong};
    ghost use Rattle.motion_pass_points.specs.Named.{counted_in};

    /// Appends a computation, if it is none of them.
    fn add(&mut self, computation: Computation) -> Result<(), AllocError>
        requires numbers { AreNumbers self.old }
        requires few { length self.old.all.items < 2 ^ 32 }
        ensures numbers { OnOk result (AreNumbers self.new) }
        ensures once { OnOk result
            ((list : List spec.Computation) → AreOnce list (views_of self.old)
            → AreOnce (list ++ computation_view computation ∷ []) (views_of self.new)) }
        ensures count { OnOk result (length self.new.all.items ≤ length self.old.all.items + 1) }
    {
        let key = computation.key();
        if self.numbers.contains_key(&key) {
            return Ok(());
        }
        let number = self.all.len() as u32;
        self.numbers.insert(key, number)?;
        self.all.push(computation)?;
        Ok(())
    }

    /// Appends those of a block.
    fn add_block(&mut self, block: &Block) -> Result<(), AllocError>
        requires numbers { AreNumbers self.old }
        requires few { length self.old.all.items + length (computed_along (block_view block.now).instructions)
            < 2 ^ 32 }
        ensures numbers { OnOk result (AreNumbers self.new) }
        ensures once { OnOk result
            ((list : List spec.Computation) → AreOnce list (views_of self.old)
            → AreOnce (list ++ computed_along (block_view block.now).instructions) (views_of self.new)) }
        ensures count { OnOk result
            (length self.new.all.items
            ≤ length self.old.all.items + length (computed_along (block_view block.now).instructions)) }
    {
        let mut ahead = block.instructions.as_slice();
        while let [instruction, rest @ ..] = ahead {
            if let Some(computation) = Computation::of(instruction) {
                self.add(computation)?;
            }
            ahead = rest;
        }
        Ok(())
    }

    /// Appends those of a block, if it is flagged.
    fn add_flagged(&mut self, block: &Block, flag: bool) -> Result<(), AllocError>
        requires numbers { AreNumbers self.old }
        requires few { length self.old.all.items
            + length (if flag then computed_along (block_view block.now).instructions else [])
            < 2 ^ 32 }
        ensures numbers { OnOk result (AreNumbers self.new) }
        ensures once { OnOk result
            ((list : List spec.Computation) → AreOnce list (views_of self.old) → AreOnce
            (list ++ (if flag then computed_along (block_view block.now).instructions else []))
            (views_of self.new)) }
        ensures count { OnOk result
            (length self.new.all.items ≤ length self.old.all.items
            + length (if flag then computed_along (block_view block.now).instructions else [])) }
    {
        if flag { self.add_block(block) } else { Ok(()) }
    }

    /// The computations of the blocks of a graph that are flagged.
    pub fn new(alloc: Global, blocks: &[Block], flags: &[bool]) -> Result<Computations, AllocError>
        requires { counted_in (map block_view blocks.now) ≤ most_instructions_of_function }
        ensures numbers { IfOk result AreNumbers }
        ensures once { IfOk result (λ made.
            AreOnce (computed_in (λ n. slice_index_or flags.now n false) 0 (map block_view blocks.now))
            (views_of made)) }
    {
        let mut made = Computations {
            all: Vec::new(alloc),
            numbers: BTreeMap::new(alloc),
        };
        let mut number = 0usize;
        let mut ahead = blocks;
        while let [block, rest @ ..] = ahead {
            made.add_flagged(block, is_flagged(flags, number))?;
            number += 1;
            ahead = rest;
        }
        Ok(made)
    }

    /// The number of the computation that an instruction does, if it is one of them.
    pub fn number_of(&self, instruction: &Instr) -> Option<u32>
        ensures { AreNumbers self.now
            → IsNumberOf (views_of self.now) (computed_by (instruction_view instruction.now)) result }
    {
        let Some(computation) = Computation::of(instruction) else {
            return None;
        };
        let key = computation.key();
        self.numbers.get(&key).copied()
    }

    /// For each instruction of a block the number of the computation that it does, if it is one of them.
    pub fn numbers_along(
        &self,
        alloc: Global,
        block: &Block,
    ) -> Result<Vec<Option<u32>>, AllocError>
        ensures { AreNumbers self.now
            → IfOk result (λ numbers.
            AreNumbersAlong (views_of self.now) (block_view block.now).instructions numbers.items) }
    {
        let mut numbers = Vec::new(alloc);
        for index in 0..block.instructions.len() {
            let instruction = &block.instructions[index];
            let number = self.number_of(instruction);
            numbers.push(number)?;
        }
        Ok(numbers)
    }
}
