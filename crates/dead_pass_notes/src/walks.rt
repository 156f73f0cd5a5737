//! Walks over the blocks of a graph.

ghost use Rattle.std.specs.Prelude.{◌≡◌, ◌≢◌, ℕ, ◌+◌, ◌<◌, ◌^◌, if◌then◌else◌, map, option_map};
ghost use Rattle.graph_core.specs.declared.name.Name as declared-name;
ghost use Rattle.graph_core.specs.Graphs.{instruction_view};
ghost use Rattle.dead_pass_rule.specs.Asking.{is_going};
ghost use Rattle.dead_pass_rule.specs.Walks.{AreSameBut, IsTable, is_written, turn_of};
ghost use Rattle.graph_paths.specs.PathMarksTable.{bits_of};
ghost use Rattle.dead_pass_notes.specs.Rows.{stale_behind};

use dead_pass_rule::turn_at;
use graph_core::{Instr, Name};
use graph_paths::Marks;

/// Tells in a row whether a name is stale.
fn put_name(row: u32, names: u32, marks: &mut Marks, name: u32, value: bool)
    requires row { row < marks.old.count }
    requires width { marks.old.width ≡ names }
    ensures others { AreSameBut row marks.old marks.new }
    ensures there { name < names → bits_of marks.new row name ≡ value }
    ensures rest { (x : ℕ) → x ≢ name → bits_of marks.new row x ≡ bits_of marks.old row x }
    ensures same_count { marks.new.count ≡ marks.old.count }
    ensures same_width { marks.new.width ≡ marks.old.width }
{
    if name < names {
        marks.put(row, name, value);
    }
}

/// Goes in a row over an instruction that writes a name, or none: it is stale behind it, if the write goes.
fn step_in(row: u32, names: u32, marks: &mut Marks, target: Option<Name>, goes: bool)
    requires row { row < marks.old.count }
    requires width { marks.old.width ≡ names }
    ensures others { AreSameBut row marks.old marks.new }
    ensures walk { (x : ℕ) → x < names
        → bits_of marks.new row x
        ≡ (if is_written x (option_map (λ (n : declared-name.Name). n.0) target) then goes
        else bits_of marks.old row x) }
    ensures same_count { marks.new.count ≡ marks.old.count }
    ensures same_width { marks.new.width ≡ marks.old.width }
{
    if let Some(name) = target {
        put_name(row, names, marks, name.0, goes);
    }
}

/// Goes over an instruction that writes a name, or none: it is stale behind it, if the write goes.
pub fn step(blocks: u32, names: u32, marks: &mut Marks, target: Option<Name>, goes: bool)
    requires table { IsTable blocks names marks.old }
    ensures table { IsTable blocks names marks.new }
    ensures others { AreSameBut blocks marks.old marks.new }
    ensures walk { (x : ℕ) → x < names
        → bits_of marks.new blocks x ≡
        (if is_written x (option_map (λ (n : declared-name.Name). n.0) target) then goes else bits_of marks.old
        blocks x) }
{
    step_in(blocks, names, marks, target, goes);
}

/// A walk begins at the start of a block.
pub fn begin(blocks: u32, names: u32, marks: &mut Marks, number: u32)
    requires table { IsTable blocks names marks.old }
    requires few { blocks + 2 < 2 ^ 32 }
    requires block { number < blocks }
    ensures table { IsTable blocks names marks.new }
    ensures others { AreSameBut blocks marks.old marks.new }
    ensures walk { (x : ℕ) → bits_of marks.new blocks x ≡ bits_of marks.old number x }
{
    marks.keep(blocks + 1, blocks);
    marks.unite(number, blocks);
}

/// Walks in a row over the instructions of a block.
pub(crate) fn walk(
    turns: &[Vec<u32>],
    row: u32,
    names: u32,
    marks: &mut Marks,
    number: u32,
    instructions: &[Instr],
)
    requires row { row < marks.old.count }
    requires width { marks.old.width ≡ names }
    ensures others { AreSameBut row marks.old marks.new }
    ensures walk { (x : ℕ) → x < names
        → bits_of marks.new row x
        ≡ stale_behind (is_going (turn_of turns.now) number) x (bits_of marks.old row x)
        (map instruction_view instructions.now) 0 }
    ensures same_count { marks.new.count ≡ marks.old.count }
    ensures same_width { marks.new.width ≡ marks.old.width }
{
    for index in 0..instructions.len() {
        let instruction = &instructions[index];
        let left = instructions.len() - 1 - index;
        let goes = turn_at(turns, number, left) != 0;
        step_in(row, names, marks, instruction.target(), goes);
    }
}
