//! The turns in which writes go.

ghost use Rattle.std.specs.Prelude.{◌≡◌};
ghost use Rattle.graph_core.specs.Graphs.{instruction_view};
ghost use Rattle.graph_core.specs.Uses as uses;
ghost use Rattle.dead_pass_rule.specs.Asking as asking;
ghost use Rattle.dead_pass_rule.specs.Walks.{turn_of};

use graph_core::Instr;

/// The turn of the write that stands in a block with so many instructions behind it, from 1 on; 0 where it stays.
pub fn turn_at(turns: &[Vec<u32>], block: u32, left: usize) -> u32
    ensures { result ≡ turn_of turns.now block left }
{
    match turns.get(block as usize) {
        Some(row) => match row.get(left) {
            Some(turn) => *turn,
            None => 0,
        },
        None => 0,
    }
}

/// Whether an instruction only computes a value and writes it to a name.
pub fn is_computation(instruction: &Instr) -> bool
    ensures { result ≡ uses.is_computation (instruction_view instruction.now) }
{
    match instruction {
        Instr::Move { .. }
        | Instr::Operate { .. }
        | Instr::Truncate { .. }
        | Instr::Same { .. }
        | Instr::Address { .. }
        | Instr::Load { .. } => true,
        Instr::Marker(_)
        | Instr::Note { .. }
        | Instr::Store { .. }
        | Instr::Zero { .. }
        | Instr::CopyWords { .. }
        | Instr::Call { .. } => false,
    }
}

/// Whether an instruction is a computation that goes.
pub fn is_gone(turns: &[Vec<u32>], block: u32, left: usize, instruction: &Instr) -> bool
    ensures { result ≡ asking.is_gone (turn_of turns.now) block left (instruction_view instruction.now) }
{
    turn_at(turns, block, left) != 0 && is_computation(instruction)
}
