//! Ways along the instructions of a block.

ghost use Rattle.std.specs.Prelude.{◌≡◌, map};
ghost use Rattle.graph_core.specs.Graphs.{instruction_view};
ghost use Rattle.dead_pass_rule.specs.Asking.{is_going};
ghost use Rattle.dead_pass_rule.specs.Walks.{turn_of};
ghost use Rattle.dead_pass_notes.specs.Scans.{scan_of, stays_written};

use dead_pass_rule::turn_at;
use dead_pass_writes::Spot;
use graph_core::Instr;

/// Where a way comes that goes along instructions of a block: to the point that is sought, with a write on it or
/// without, or to a marker, as if without; or
/// to the end of the block.
#[derive(Clone, Copy)]
pub enum Scanned {
    Stops(bool),
    Leaves(bool),
}

/// A point to which ways are sought, with a write of a name on them.
#[derive(Clone, Copy)]
pub struct Sought {
    pub to: Spot,
    pub name: u32,
}

/// Whether an instruction with so many behind it writes the name, and stays.
fn still_writes(
    turns: &[Vec<u32>],
    sought: Sought,
    block: u32,
    instruction: &Instr,
    left: usize,
) -> bool
    ensures { result ≡ stays_written (is_going (turn_of turns.now)) sought.to sought.name block
        (instruction_view instruction.now) left }
{
    match instruction.target() {
        Some(target) => target.0 == sought.name && turn_at(turns, block, left) == 0,
        None => false,
    }
}

/// Where a way comes along instructions of a block, on which something was written before or not.
pub fn scan(
    turns: &[Vec<u32>],
    sought: Sought,
    block: u32,
    instructions: &[Instr],
    was_written: bool,
) -> Scanned
    ensures { result ≡ scan_of (is_going (turn_of turns.now)) sought.to sought.name block was_written
        (map instruction_view instructions.now) }
{
    let mut is_written = was_written;
    let mut ahead = instructions;
    while let [instruction, rest @ ..] = ahead {
        if block == sought.to.block && rest.len() == sought.to.left {
            return Scanned::Stops(is_written);
        }
        if instruction.marker().is_some() {
            return Scanned::Stops(false);
        }
        let stays = still_writes(turns, sought, block, instruction, rest.len());
        is_written = is_written || stays;
        ahead = rest;
    }
    Scanned::Leaves(is_written)
}
