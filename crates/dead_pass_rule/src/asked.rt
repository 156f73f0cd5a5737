//! The names that are asked for: those that something reads which stays.

ghost use Rattle.std.specs.Prelude.{◌≡◌, ◌≢◌, ◌⊎◌, ℕ, ◌+◌, ◌<◌, ◌^◌, ◌==◌, ◌&&◌, ◌||◌, not, List, None, Some, OnOk, IfOk, IfSome, length, map, option_map, true, false};
ghost use Rattle.std.specs.List.{list_any};
ghost use Rattle.graph_core.specs.declared.name.Name as declared-name;
ghost use Rattle.graph_core.specs.Graphs.{block_view, end_view, instruction_view};
ghost use Rattle.graph_core.specs.Paths.{Among, reads, writes};
ghost use Rattle.graph_core.specs.Uses.{numbers, reads_of_end, targets_of};
ghost use Rattle.graph_paths.specs.PathMarksTable.{bits_of};
ghost use Rattle.dead_pass_rule.specs.Walks.{AreAsked, AreSameBut, AreTold, IsTable, IsToldOfOne, asked_before, is_written, turn_of};

use crate::turns::is_gone;
use graph_core::{Block, End, Instr, Name};
use graph_paths::{Marks, Transfer, settle};
use std::alloc::{AllocError, Global};

/// Tells in a row whether a name is asked for.
fn put_name(row: u32, names: u32, marks: &mut Marks, name: u32, value: bool)
    requires row { row < marks.old.count }
    requires width { marks.old.width ≡ names }
    ensures others { AreSameBut row marks.old marks.new }
    ensures there { name < names → bits_of marks.new row name ≡ value }
    ensures rest { (x : ℕ) → x ≢ name → bits_of marks.new row x ≡ bits_of marks.old row x }
    ensures same_count { marks.new.count ≡ marks.old.count }
    ensures same_width { marks.new.width ≡ marks.old.width }
{
    if name < names {
        marks.put(row, name, value);
    }
}

/// Names are asked for in a row.
fn ask_all(row: u32, names: u32, marks: &mut Marks, all: &[Name])
    requires row { row < marks.old.count }
    requires width { marks.old.width ≡ names }
    ensures others { AreSameBut row marks.old marks.new }
    ensures walk { (x : ℕ) → x < names
        → bits_of marks.new row x ≡ (list_any (λ y. y == x) (numbers all.now) || bits_of marks.old row x) }
    ensures same_count { marks.new.count ≡ marks.old.count }
    ensures same_width { marks.new.width ≡ marks.old.width }
{
    for name in all {
        put_name(row, names, marks, name.0, true);
    }
}

/// A name that is written is not asked for before.
fn forget(row: u32, names: u32, marks: &mut Marks, target: Option<Name>)
    requires row { row < marks.old.count }
    requires width { marks.old.width ≡ names }
    ensures others { AreSameBut row marks.old marks.new }
    ensures walk { (x : ℕ) → x < names
        → bits_of marks.new row x
        ≡ (not (is_written x (option_map (λ (n : declared-name.Name). n.0) target)) && bits_of marks.old row x) }
    ensures same_count { marks.new.count ≡ marks.old.count }
    ensures same_width { marks.new.width ≡ marks.old.width }
{
    if let Some(name) = target {
        put_name(row, names, marks, name.0, false);
    }
}

/// Goes back over an instruction.
pub fn step_back(
    alloc: Global,
    row: u32,
    names: u32,
    marks: &mut Marks,
    instruction: &Instr,
    is_gone: bool,
) -> Result<(), AllocError>
    requires row { row < marks.old.count }
    requires width { marks.old.width ≡ names }
    ensures others { OnOk result (AreSameBut row marks.old marks.new) }
    ensures walk { OnOk result ((x : ℕ) → x < names
        → bits_of marks.new row x
        ≡ ((not is_gone && reads x (instruction_view instruction.now))
        || (not (writes x (instruction_view instruction.now)) && bits_of marks.old row x))) }
    ensures same_count { OnOk result (marks.new.count ≡ marks.old.count) }
    ensures same_width { OnOk result (marks.new.width ≡ marks.old.width) }
{
    forget(row, names, marks, instruction.target());
    if !is_gone {
        let read = instruction.reads(alloc)?;
        ask_all(row, names, marks, &read);
    }
    Ok(())
}

/// What is asked for at the start of a block is asked for at the walk's point.
fn join(blocks: u32, names: u32, marks: &mut Marks, from: u32)
    requires table { IsTable blocks names marks.old }
    ensures table { IsTable blocks names marks.new }
    ensures others { AreSameBut blocks marks.old marks.new }
    ensures come { from < blocks → (x : ℕ) → bits_of marks.old from x ≡ true → bits_of marks.new blocks x ≡ true }
    ensures kept { (x : ℕ) → bits_of marks.old blocks x ≡ true → bits_of marks.new blocks x ≡ true }
    ensures only { (x : ℕ) → bits_of marks.new blocks x ≡ true → (bits_of marks.old blocks x ≡ true)
        ⊎ ((from < blocks) × (bits_of marks.old from x ≡ true)) }
{
    if from < blocks {
        marks.unite(from, blocks);
    }
}

/// What is asked for where an end leads is asked for at the walk's point.
fn join_all(blocks: u32, names: u32, marks: &mut Marks, end: &End)
    requires table { IsTable blocks names marks.old }
    ensures table { IsTable blocks names marks.new }
    ensures others { AreSameBut blocks marks.old marks.new }
    ensures come { (l : ℕ) → l < blocks → Among l (targets_of (end_view end.now)) → (x : ℕ) → bits_of marks.old l x
        ≡ true
        → bits_of marks.new blocks x ≡ true }
    ensures only { (x : ℕ) → bits_of marks.new blocks x ≡ true → (bits_of marks.old blocks x ≡ true)
        ⊎ IsToldOfOne blocks (end_view end.now) marks.old x }
{
    match end {
        End::Return(_) => {}
        End::Jump(to) => join(blocks, names, marks, to.0),
        End::Branch {
            then,
            otherwise,
            ..
        } => {
            join(blocks, names, marks, then.0);
            join(blocks, names, marks, otherwise.0);
        }
    }
}

/// A walk begins at the end of a block.
pub fn begin(
    alloc: Global,
    blocks: u32,
    names: u32,
    marks: &mut Marks,
    end: &End,
) -> Result<(), AllocError>
    requires table { IsTable blocks names marks.old }
    requires few { blocks + 2 < 2 ^ 32 }
    ensures table { OnOk result (IsTable blocks names marks.new) }
    ensures others { OnOk result (AreSameBut blocks marks.old marks.new) }
    ensures come { OnOk result
        ((l : ℕ) → l < blocks → Among l (targets_of (end_view end.now)) → (x : ℕ) → x < names
        → bits_of marks.old l x ≡ true → bits_of marks.new blocks x ≡ true) }
    ensures read { OnOk result
        ((x : ℕ) → x < names → Among x (reads_of_end (end_view end.now)) → bits_of marks.new blocks x ≡ true) }
    ensures only { OnOk result
        ((x : ℕ) → x < names → bits_of marks.new blocks x ≡ true → Among x (reads_of_end (end_view end.now))
        ⊎ IsToldOfOne blocks (end_view end.now) marks.old x) }
{
    marks.keep(blocks + 1, blocks);
    join_all(blocks, names, marks, end);
    let read = end.reads(alloc)?;
    ask_all(blocks, names, marks, &read);
    Ok(())
}

/// Whether it is told at the walk's point of the name that is written.
pub fn is_told(blocks: u32, marks: &Marks, target: Option<Name>) -> bool
    ensures some { (x : ℕ) → option_map (λ (n : declared-name.Name). n.0) target ≡ Some x → result
        ≡ bits_of marks.now blocks x }
    ensures none { option_map (λ (n : declared-name.Name). n.0) target ≡ None → result ≡ false }
{
    match target {
        Some(name) => marks.get(blocks, name.0),
        None => false,
    }
}

/// Goes back over a block in a row.
fn pass_back(
    alloc: Global,
    turns: &[Vec<u32>],
    row: u32,
    names: u32,
    marks: &mut Marks,
    number: u32,
    block: &Block,
) -> Result<(), AllocError>
    requires row { row < marks.old.count }
    requires width { marks.old.width ≡ names }
    ensures others { OnOk result (AreSameBut row marks.old marks.new) }
    ensures walk { OnOk result ((x : ℕ) → x < names
        → bits_of marks.new row x
        ≡ asked_before (turn_of turns.now) x number (block_view block.now) (bits_of marks.old row x)) }
    ensures same_count { OnOk result (marks.new.count ≡ marks.old.count) }
    ensures same_width { OnOk result (marks.new.width ≡ marks.old.width) }
{
    let read = block.end.reads(alloc)?;
    ask_all(row, names, marks, &read);
    let instructions: &[Instr] = &block.instructions;
    for left in 0..instructions.len() {
        let at = instructions.len() - 1 - left;
        let instruction = &instructions[at];
        let gone = is_gone(turns, number, left, instruction);
        step_back(alloc, row, names, marks, instruction, gone)?;
    }
    Ok(())
}

/// The names that are asked for, as facts that flow against execution.
#[derive(Drop)]
struct Asking<'a> {
    alloc: Global,
    turns: &'a [Vec<u32>],
    names: u32,
    all: &'a [Block],
}

impl Transfer for Asking<'_> {
    ghost use Rattle.dead_pass_rule.specs.Walks.{asking};

    ghost course = { λ a. asking (turn_of a.turns.now) (map block_view a.all.now) a.names };

    fn forward(&self) -> bool {
        false
    }

    fn is_open(&self, _block: u32) -> bool {
        true
    }

    fn pass(&self, block: u32, rows: &mut Marks, row: u32) -> Result<(), AllocError> {
        let block_of = &self.all[block as usize];
        pass_back(
            self.alloc, self.turns, row, self.names, rows, block, block_of,
        )?;
        Ok(())
    }
}

/// The numbers of so many blocks, the last first.
fn from_last(alloc: Global, count: u32) -> Result<Vec<u32>, AllocError> {
    let mut order = Vec::new(alloc);
    for passed in 0..count {
        order.push(count - 1 - passed)?;
    }
    Ok(order)
}

/// The names that are asked for at the starts of blocks: just these.
pub fn asked_names(
    alloc: Global,
    turns: &[Vec<u32>],
    names: u32,
    all: &[Block],
) -> Result<Marks, AllocError>
    requires few { length all.now + 2 < 2 ^ 32 }
    ensures table { IfOk result (IsTable (length all.now) names) }
    ensures asked { IfOk result (AreAsked (turn_of turns.now) (map block_view all.now) (length all.now) names) }
    ensures told { IfOk result (AreTold (turn_of turns.now) (map block_view all.now) names) }
{
    let count = all.len() as u32;
    let order = from_last(alloc, count)?;
    let mut ends = Marks::new(alloc, count, names)?;
    let mut starts = Marks::new(alloc, count + 2, names)?;
    let asking = Asking {
        alloc,
        turns,
        names,
        all,
    };
    settle(&asking, all, &order, &mut ends, &mut starts)?;
    Ok(starts)
}
