//! What is so at the instructions that do computations.

ghost use Rattle.std.specs.Prelude.{◌≡◌, ◌↔◌, ℕ, ◌/◌, ◌<◌, ◌||◌, ◌&&◌, not, Bool, false, if◌then◌else◌, IfOk, List, [], None, Option, Some, length, true};
ghost use Rattle.std.specs.Prelude.{option_map, replicate};
ghost use Rattle.graph_core.specs.declared.name.Name as declared-name;
ghost use Rattle.graph_core.specs.Computations.{Computation};
ghost use Rattle.graph_core.specs.Graphs as spec;
ghost use Rattle.graph_core.specs.Graphs.{block_view};
ghost use Rattle.motion_pass_points.specs.Ways.{IsPast, IsUsed, within};
ghost use Rattle.motion_pass_points.specs.Words.{has};
ghost use Rattle.motion_pass_points.specs.Columns.{is_number, is_spoiled, number_at};
ghost use Rattle.motion_pass_problems.specs.Inner.{IsBlock, IsTreated, in_column, point_at};
ghost use Rattle.motion_pass_placement.specs.Fates.{AreLate, AreUsed, fate_of, no_fate};

use graph_core::{Block, Name};
use motion_pass_points::{Column, either, is_in, without};
use std::alloc::{AllocError, Global};

/// What is so where an instruction does a computation: whether this can be delayed to it, and whether its value is used
/// behind it.
#[derive(Clone, Copy)]
pub struct Fate {
    pub is_late: bool,
    pub is_used: bool,
}

/// Of an instruction that does no computation.
pub const NO_FATE: Fate = Fate {
    is_late: false,
    is_used: false,
};

/// So many instructions of which nothing is known.
pub fn no_fates(alloc: Global, count: usize) -> Result<Vec<Fate>, AllocError>
    ensures count { IfOk result (λ fates. length fates.items ≡ count) }
    ensures none { IfOk result (λ fates. fates.items ≡ replicate count no_fate) }
{
    vec![in alloc; NO_FATE; count]
}

/// What is so at an instruction, if it is there.
pub fn fate_at(fates: &[Fate], index: usize) -> Fate
    ensures { result ≡ fate_of fates.now index }
{
    match fates.get(index) {
        Some(fate) => *fate,
        None => NO_FATE,
    }
}

/// The number of the computation that the instruction of this index does, if it is one of the column.
fn number_in(column: &Column, numbers: &[Option<u32>], index: usize) -> Option<u32>
    ensures { result ≡ in_column column.now.index (number_at numbers.now index) }
{
    match numbers.get(index) {
        Some(Some(number)) => {
            if number / 64 == column.index {
                Some(*number)
            } else {
                None
            }
        }
        Some(None) | None => None,
    }
}

/// Tells whether a computation can be delayed to an instruction that does it.
fn put_is_late(fates: &mut [Fate], index: usize, number: Option<u32>, past: u64)
    ensures size { length fates.new ≡ length fates.old }
    ensures here { index < length fates.old → (k : ℕ) → number ≡ Some k → (fate_of fates.new index).is_late
        ≡ not (has past k) }
    ensures others { (j : ℕ) → (j ≡ index → ⊥) → fate_of fates.new j ≡ fate_of fates.old j }
    ensures none { number ≡ None → fates.new ≡ fates.old }
{
    if let Some(number) = number {
        if index < fates.len() {
            let is_used = fates[index].is_used;
            fates[index] = Fate {
                is_late: !is_in(past, number),
                is_used,
            };
        }
    }
}

/// Those that can't be delayed to behind an instruction that does this computation, and then writes a name.
fn past_behind(column: &Column, past: u64, number: Option<u32>, target: Option<Name>) -> u64
    ensures { (k : ℕ) → k / 64 ≡ column.now.index
        → has result k ≡
        ((has past k || is_number k number) && not
        (is_spoiled column.now.spoiled.items k (option_map (λ (x : declared-name.Name). x.0) target))) }
{
    let done = column.bit_of(number);
    let open = either(past, done);
    let written = column.spoiled_by(target);
    without(open, written)
}

/// Tells of the computations of a column where they can be delayed to, in a block.
pub fn put_late(
    column: &Column,
    block: &Block,
    numbers: &[Option<u32>],
    past_start: u64,
    fates: &mut [Fate],
)
    requires { length fates.old ≡ length (block_view block.now).instructions }
    ensures size { length fates.new ≡ length fates.old }
    ensures late { (blocks : List spec.Block) (reached : ℕ → Bool) (n k : ℕ) (e : Computation)
        → IsBlock blocks reached n (block_view block.now) → IsTreated column.now (block_view block.now) numbers.now k e
        → ((has past_start k ≡ true) ↔ IsPast blocks e (point_at n (block_view block.now) 0))
        → AreLate blocks n (block_view block.now) numbers.now k e fates.new }
    ensures others { (index : ℕ) → in_column column.now.index (number_at numbers.now index) ≡ None
        → fate_of fates.new index ≡ fate_of fates.old index }
{
    let mut past = past_start;
    for index in 0..block.instructions.len() {
        let instruction = &block.instructions[index];
        let number = number_in(column, numbers, index);
        put_is_late(fates, index, number, past);
        let target = instruction.target();
        past = past_behind(column, past, number, target);
    }
}

/// Tells whether the value of a computation is used behind an instruction that does it.
fn put_is_used(fates: &mut [Fate], index: usize, number: Option<u32>, used: u64)
    ensures size { length fates.new ≡ length fates.old }
    ensures here { index < length fates.old → (k : ℕ) → number ≡ Some k → (fate_of fates.new index).is_used
        ≡ has used k }
    ensures late { (j : ℕ) → (fate_of fates.new j).is_late ≡ (fate_of fates.old j).is_late }
    ensures others { (j : ℕ) → (j ≡ index → ⊥) → fate_of fates.new j ≡ fate_of fates.old j }
    ensures none { number ≡ None → fates.new ≡ fates.old }
{
    if let Some(number) = number {
        if index < fates.len() {
            let is_late = fates[index].is_late;
            fates[index] = Fate {
                is_late,
                is_used: is_in(used, number),
            };
        }
    }
}

/// Those whose values are used before an instruction that does this computation, to which it can be delayed or not.
fn used_before(column: &Column, used: u64, number: Option<u32>, is_late: bool) -> u64
    ensures { (k : ℕ) → k / 64 ≡ column.now.index → has result k
        ≡ (if is_number k number then not is_late else has used k) }
{
    let done = column.bit_of(number);
    if is_late {
        without(used, done)
    } else {
        either(used, done)
    }
}

/// Tells of the computations of a column where their values are used behind them, in a block where it is told to where
/// they can be delayed.
pub fn put_used(
    column: &Column,
    block: &Block,
    numbers: &[Option<u32>],
    used_end: u64,
    fates: &mut [Fate],
)
    requires { length fates.old ≡ length (block_view block.now).instructions }
    ensures size { length fates.new ≡ length fates.old }
    ensures late { (index : ℕ) → (fate_of fates.new index).is_late ≡ (fate_of fates.old index).is_late }
    ensures used { (blocks : List spec.Block) (reached : ℕ → Bool) (n k : ℕ) (e : Computation)
        → IsBlock blocks reached n (block_view block.now) → IsTreated column.now (block_view block.now) numbers.now k e
        → AreLate blocks n (block_view block.now) numbers.now k e fates.old
        → ((has used_end k ≡ true) ↔ IsUsed blocks e (within n [] (block_view block.now).end))
        → AreUsed blocks n (block_view block.now) numbers.now k e fates.new }
    ensures others { (index : ℕ) → in_column column.now.index (number_at numbers.now index) ≡ None
        → fate_of fates.new index ≡ fate_of fates.old index }
{
    let mut used = used_end;
    let mut left = block.instructions.len();
    while left > 0 {
        let index = left - 1;
        let number = number_in(column, numbers, index);
        put_is_used(fates, index, number, used);
        let fate = fate_at(fates, index);
        used = used_before(column, used, number, fate.is_late);
        left = index;
    }
}
