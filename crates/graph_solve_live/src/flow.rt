//! Live names as facts that flow against execution, in rows of bits.

ghost use Rattle.std.specs.Prelude.{◌≡◌, ◌≢◌, ℕ, ◌<◌, ◌==◌, ◌&&◌, ◌||◌, not, false, OnOk, map, option_map};
ghost use Rattle.std.specs.List.{list_any};
ghost use Rattle.std.specs.Option.{option_map_or};
ghost use Rattle.graph_core.specs.declared.name.Name as declared-name;
ghost use Rattle.graph_core.specs.Graphs.{block_view, instruction_view};
ghost use Rattle.graph_core.specs.Paths as paths;
ghost use Rattle.graph_core.specs.Uses.{numbers};
ghost use Rattle.graph_paths.specs.Flood.{AreSameBut};
ghost use Rattle.graph_paths.specs.PathMarksTable.{bits_of};
ghost use Rattle.graph_solve_live.specs.Flowing.{is_live_at_start};

use graph_core::{Block, Instr, Name};
use graph_paths::{Marks, Transfer};
use std::alloc::{AllocError, Global};

/// Tells in a row whether a name is live.
fn put_name(row: u32, names: u32, marks: &mut Marks, name: u32, is_live: bool)
    requires row { row < marks.old.count }
    requires width { marks.old.width ≡ names }
    ensures others { AreSameBut row (bits_of marks.old) (bits_of marks.new) }
    ensures there { name < names → bits_of marks.new row name ≡ is_live }
    ensures rest { (x : ℕ) → x ≢ name → bits_of marks.new row x ≡ bits_of marks.old row x }
    ensures same_count { marks.new.count ≡ marks.old.count }
    ensures same_width { marks.new.width ≡ marks.old.width }
{
    if name < names {
        marks.put(row, name, is_live);
    }
}

/// Names that are read are live before that.
fn read_all(row: u32, names: u32, marks: &mut Marks, all: &[Name])
    requires row { row < marks.old.count }
    requires width { marks.old.width ≡ names }
    ensures others { AreSameBut row (bits_of marks.old) (bits_of marks.new) }
    ensures walk { (x : ℕ) → x < names
        → bits_of marks.new row x ≡ (list_any (λ y. y == x) (numbers all.now) || bits_of marks.old row x) }
    ensures same_count { marks.new.count ≡ marks.old.count }
    ensures same_width { marks.new.width ≡ marks.old.width }
{
    for name in all {
        put_name(row, names, marks, name.0, true);
    }
}

/// A name that is written is not live before, unless it is read there.
fn write(row: u32, names: u32, marks: &mut Marks, target: Option<Name>)
    requires row { row < marks.old.count }
    requires width { marks.old.width ≡ names }
    ensures others { AreSameBut row (bits_of marks.old) (bits_of marks.new) }
    ensures walk { (x : ℕ) → x < names
        → bits_of marks.new row x
        ≡ (not (option_map_or (λ y. y == x) (option_map (λ (n : declared-name.Name). n.0) target) false)
        && bits_of marks.old row x) }
    ensures same_count { marks.new.count ≡ marks.old.count }
    ensures same_width { marks.new.width ≡ marks.old.width }
{
    if let Some(name) = target {
        put_name(row, names, marks, name.0, false);
    }
}

/// From the names that are live behind an instruction to those that are live before it.
fn step_back(
    alloc: Global,
    row: u32,
    names: u32,
    marks: &mut Marks,
    instruction: &Instr,
) -> Result<(), AllocError>
    requires row { row < marks.old.count }
    requires width { marks.old.width ≡ names }
    ensures others { OnOk result (AreSameBut row (bits_of marks.old) (bits_of marks.new)) }
    ensures walk { OnOk result ((x : ℕ) → x < names
        → bits_of marks.new row x
        ≡ (paths.reads x (instruction_view instruction.now)
        || (not (paths.writes x (instruction_view instruction.now)) && bits_of marks.old row x))) }
    ensures same_count { OnOk result (marks.new.count ≡ marks.old.count) }
    ensures same_width { OnOk result (marks.new.width ≡ marks.old.width) }
{
    write(row, names, marks, instruction.target());
    let read = instruction.reads(alloc)?;
    read_all(row, names, marks, &read);
    Ok(())
}

/// From the names that are live at the end of a block to those that are live at its start.
fn pass_back(
    alloc: Global,
    row: u32,
    names: u32,
    marks: &mut Marks,
    block: &Block,
) -> Result<(), AllocError>
    requires row { row < marks.old.count }
    requires width { marks.old.width ≡ names }
    ensures others { OnOk result (AreSameBut row (bits_of marks.old) (bits_of marks.new)) }
    ensures walk { OnOk result ((x : ℕ) → x < names
        → bits_of marks.new row x ≡ is_live_at_start x (block_view block.now) (bits_of marks.old row x)) }
    ensures same_count { OnOk result (marks.new.count ≡ marks.old.count) }
    ensures same_width { OnOk result (marks.new.width ≡ marks.old.width) }
{
    let read = block.end.reads(alloc)?;
    read_all(row, names, marks, &read);
    let count = block.instructions.len();
    for left in 0..count {
        let at = count - 1 - left;
        step_back(alloc, row, names, marks, &block.instructions[at])?;
    }
    Ok(())
}

/// The names that are live, as facts that flow against execution.
#[derive(Drop)]
pub(crate) struct Living<'a> {
    pub alloc: Global,
    pub names: u32,
    pub all: &'a [Block],
}

impl Transfer for Living<'_> {
    ghost use Rattle.graph_solve_live.specs.Flowing.{living};

    ghost course = { λ l. living (map block_view l.all.now) l.names };

    fn forward(&self) -> bool {
        false
    }

    fn is_open(&self, _block: u32) -> bool {
        true
    }

    fn pass(&self, block: u32, rows: &mut Marks, row: u32) -> Result<(), AllocError> {
        let passed = &self.all[block as usize];
        pass_back(self.alloc, row, self.names, rows, passed)?;
        Ok(())
    }
}
