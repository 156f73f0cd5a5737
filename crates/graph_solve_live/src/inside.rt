//! Facts inside a block, from the facts at one of its ends.

ghost use Rattle.std.specs.Prelude.{◌≡◌, ℕ, true, false, OnOk};
ghost use Rattle.graph_core.specs.Graphs.{End as GraphEnd, Instruction, block_view, end_view, instruction_view};
ghost use Rattle.graph_solve_live.specs.Inside.{effect_on, moved, moved_one, steps_along, walked};

use graph_core::{Block, End, Instr};
use graph_solve_problem::Facts;
use std::alloc::AllocError;

/// What an instruction, or a block's end, does to a fact.
#[derive(Clone, Copy, PartialEq, Eq)]
pub enum Effect {
    /// Behind it the fact is so.
    Sets,
    /// Behind it the fact is not so.
    Clears,
    /// Behind it the fact is so where it was so before.
    Leaves,
}

impl Effect {
    /// Whether the fact is so behind what has this effect, from whether it was so before.
    pub fn on(self, before: bool) -> bool
        ensures { result ≡ effect_on self before }
    {
        match self {
            Effect::Sets => true,
            Effect::Clears => false,
            Effect::Leaves => before,
        }
    }
}

/// What the instructions and ends of blocks do to facts.
pub trait Effects {
    ghost use Rattle.graph_solve_live.specs.declared.inside.Effect.{Effect};

    /// What an instruction does to a fact, by its block and how many instructions stand behind it there.
    ghost effect: { Self → (block left : ℕ) → Instruction → (fact : ℕ) → Effect };

    /// What the end of a block does to a fact.
    ghost at_end: { Self → (block : ℕ) → GraphEnd → (fact : ℕ) → Effect };

    /// What an instruction does to a fact, by its block and how many instructions stand behind it there.
    fn effect(&self, block: u32, left: usize, instruction: &Instr, fact: u32) -> Effect
        ensures { result ≡ effect self.now block left (instruction_view instruction.now) fact };

    /// What the end of a block does to a fact.
    fn at_end(&self, block: u32, end: &End, fact: u32) -> Effect
        ensures { result ≡ at_end self.now block (end_view end.now) fact };
}

/// Sets, clears or leaves a fact.
fn move_one(effect: Effect, fact: u32, facts: &mut Facts) -> Result<(), AllocError>
    ensures { OnOk result (facts.new ≡ moved_one effect fact facts.old) }
{
    match effect {
        Effect::Sets => facts.add(fact)?,
        Effect::Clears => facts.remove(fact),
        Effect::Leaves => {}
    }
    Ok(())
}

/// Steps over an instruction: from the facts on its one side to those on the other, as paths go.
///
/// Where facts flow as execution goes, begin with those at the block's start, and step over its first instruction
/// first. Else begin with those at its end, and step over the end, and then over the last instruction first.
pub fn step_over<E: Effects>(
    effects: &E,
    block: u32,
    left: usize,
    instruction: &Instr,
    width: u32,
    facts: &mut Facts,
) -> Result<(), AllocError>
    ensures { OnOk result
        (facts.new ≡ moved width (E.effect effects.now block left (instruction_view instruction.now)) facts.old) }
{
    for fact in 0..width {
        let effect = effects.effect(block, left, instruction, fact);
        move_one(effect, fact, facts)?;
    }
    Ok(())
}

/// Steps over the end of a block: from the facts on its one side to those on the other, as paths go.
pub fn step_over_end<E: Effects>(
    effects: &E,
    block: u32,
    end: &End,
    width: u32,
    facts: &mut Facts,
) -> Result<(), AllocError>
    ensures { OnOk result (facts.new ≡ moved width (E.at_end effects.now block (end_view end.now)) facts.old) }
{
    for fact in 0..width {
        let effect = effects.at_end(block, end, fact);
        move_one(effect, fact, facts)?;
    }
    Ok(())
}

/// Walks over the instructions of a block and then over its end.
fn walk_forward<E: Effects>(
    effects: &E,
    number: u32,
    block: &Block,
    width: u32,
    facts: &mut Facts,
) -> Result<(), AllocError>
    ensures { OnOk result
        (facts.new ≡ walked width
        (steps_along true (E.effect effects.now number) (E.at_end effects.now number) (block_view block.now))
        facts.old) }
{
    let count = block.instructions.len();
    for passed in 0..count {
        let left = count - 1 - passed;
        step_over(
            effects,
            number,
            left,
            &block.instructions[passed],
            width,
            facts,
        )?;
    }
    step_over_end(effects, number, &block.end, width, facts)
}

/// Walks over the end of a block and then over its instructions, the last first.
fn walk_backward<E: Effects>(
    effects: &E,
    number: u32,
    block: &Block,
    width: u32,
    facts: &mut Facts,
) -> Result<(), AllocError>
    ensures { OnOk result
        (facts.new ≡ walked width
        (steps_along false (E.effect effects.now number) (E.at_end effects.now number) (block_view block.now))
        facts.old) }
{
    step_over_end(effects, number, &block.end, width, facts)?;
    let count = block.instructions.len();
    for left in 0..count {
        let at = count - 1 - left;
        step_over(effects, number, left, &block.instructions[at], width, facts)?;
    }
    Ok(())
}

/// Walks over a whole block as paths of a direction go: from the facts at the one end of the block to those at the
/// other.
pub fn walk_over<E: Effects>(
    effects: &E,
    number: u32,
    block: &Block,
    forward: bool,
    width: u32,
    facts: &mut Facts,
) -> Result<(), AllocError>
    ensures { OnOk result
        (facts.new ≡ walked width
        (steps_along forward (E.effect effects.now number) (E.at_end effects.now number) (block_view block.now))
        facts.old) }
{
    if forward {
        walk_forward(effects, number, block, width, facts)
    } else {
        walk_backward(effects, number, block, width, facts)
    }
}
