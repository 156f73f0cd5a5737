//! What the blocks of a graph do to its computations, for 64 of them at once.

ghost use Rattle.std.specs.Prelude.{◌≡◌, ℕ, ◌/◌, ◌%◌, ◌<◌, ◌^◌, ◌&&◌, ◌||◌, ◌==◌, false, IfOk, Some, length, map, option_map, slice_get};
ghost use Rattle.std.specs.List.{AllByRecursion};
ghost use Rattle.graph_core.specs.declared.name.Name as declared-name;
ghost use Rattle.graph_core.specs.Computations as spec;
ghost use Rattle.graph_core.specs.Computations.{operands_of};
ghost use Rattle.graph_core.specs.Graphs.{block_view, operand_view};
ghost use Rattle.graph_core.specs.Uses.{names_of};
ghost use Rattle.motion_pass_points.specs.Words.{has};
ghost use Rattle.motion_pass_points.specs.MotionPointsComputing.{computation_view, nothing, told_along, told_done, told_written};
ghost use Rattle.motion_pass_points.specs.Columns.{AreNumbersAlong, IsColumn, is_among, is_marked, is_number, is_operand, is_spoiled, number_at, told_in};
ghost use Rattle.motion_pass_points.specs.Named.{AreNamed, IsNamed};
ghost use Rattle.motion_pass_points.specs.Numbers.{AreNumbers, views_of};

use crate::computation::Computation;
use crate::computations::Computations;
use crate::words::{either, only, without};
use graph_core::{Block, Name, Operand};
use std::alloc::{AllocError, Global};

/// What a block does to 64 computations.
#[derive(Clone, Copy)]
pub struct Local {
    /// Those that it does with no operand written before.
    pub first: u64,
    /// Those that it does with no operand written behind.
    pub last: u64,
    /// Those that it does.
    pub done: u64,
    /// Those of which it writes an operand.
    pub written: u64,
}

/// What an empty block does.
pub const NOTHING: Local = Local {
    first: 0,
    last: 0,
    done: 0,
    written: 0,
};

/// 64 computations, whose numbers have one quotient by 64.
#[derive(Drop)]
pub struct Column {
    pub index: u32,
    /// For each name those of them that it is an operand of.
    pub spoiled: Vec<u64>,
}

/// The name that an operand reads is an operand of the computation of this number.
fn put_operand(spoiled: &mut [u64], operand: Operand, number: u32)
    requires { AllByRecursion (λ x. x < length spoiled.old) (names_of (operand_view operand)) }
    ensures size { length spoiled.new ≡ length spoiled.old }
    ensures marked { (x n : ℕ)
        → is_marked spoiled.new x n ≡
        (is_marked spoiled.old x n || ((n % 64 == number % 64) && is_among x (names_of (operand_view operand)))) }
{
    match operand {
        Operand::Name(name) => {
            spoiled[name.0 as usize] = either(spoiled[name.0 as usize], only(number));
        }
        Operand::Constant(_) | Operand::StaticAddress { .. } => {}
    }
}

/// The names of which the computation of a number is made are its operands.
fn put_computation(spoiled: &mut [u64], computation: Computation, number: u32)
    requires { IsNamed (length spoiled.old) (computation_view computation) }
    ensures size { length spoiled.new ≡ length spoiled.old }
    ensures marked { (x n : ℕ)
        → is_marked spoiled.new x n ≡
        (is_marked spoiled.old x n ||
        ((n % 64 == number % 64) && is_among x (operands_of (computation_view computation)))) }
{
    match computation {
        Computation::Operated { left, right, .. } | Computation::Compared { left, right } => {
            put_operand(spoiled, left, number);
            put_operand(spoiled, right, number);
        }
        Computation::Truncated { from, .. } => put_operand(spoiled, from, number),
    }
}

/// The same of the computation of a number, if there is one.
fn put_number(spoiled: &mut [u64], all: &[Computation], number: u32)
    requires { AreNamed (length spoiled.old) (map computation_view all.now) }
    ensures size { length spoiled.new ≡ length spoiled.old }
    ensures marked { (x n : ℕ)
        → is_marked spoiled.new x n ≡
        (is_marked spoiled.old x n ||
        ((n % 64 == number % 64) && is_operand (map computation_view all.now) number x)) }
{
    match all.get(number as usize) {
        Some(computation) => put_computation(spoiled, *computation, number),
        None => {}
    }
}

/// The same of each computation of a column.
fn put_all(spoiled: &mut [u64], all: &[Computation], index: u32)
    requires index { index < 2 ^ 26 }
    requires named { AreNamed (length spoiled.old) (map computation_view all.now) }
    requires clear { (x n : ℕ) → is_marked spoiled.old x n ≡ false }
    ensures { IsColumn (map computation_view all.now) index spoiled.new }
{
    for bit in 0..64u32 {
        put_number(spoiled, all, index * 64 + bit);
    }
}

impl Column {
    /// The computations whose numbers have this quotient by 64, in a graph with so many names.
    pub fn new(
        alloc: Global,
        computations: &Computations,
        index: u32,
        names: u32,
    ) -> Result<Column, AllocError>
        requires index { index < 2 ^ 26 }
        requires named { AreNamed names (views_of computations.now) }
        ensures index { IfOk result (λ made. made.index ≡ index) }
        ensures column { IfOk result (λ made. IsColumn (views_of computations.now) index made.spoiled.items) }
    {
        let mut spoiled = vec![in alloc; 0u64; names as usize]?;
        put_all(&mut spoiled, &computations.all, index);
        Ok(Column { index, spoiled })
    }

    /// The computation of a number, if it is of the column, as a bit.
    pub fn bit_of(&self, number: Option<u32>) -> u64
        ensures { (n : ℕ) → n / 64 ≡ self.now.index → has result n ≡ is_number n number }
    {
        match number {
            Some(number) => {
                if number / 64 == self.index {
                    only(number)
                } else {
                    0
                }
            }
            None => 0,
        }
    }

    /// The computations of the column of which a name is an operand that is written.
    pub fn spoiled_by(&self, target: Option<Name>) -> u64
        ensures { (n : ℕ)
            → has result n ≡ is_spoiled self.now.spoiled.items n (option_map (λ (x : declared-name.Name). x.0) target) }
    {
        match target {
            Some(name) => match self.spoiled.get(name.0 as usize) {
                Some(word) => *word,
                None => 0,
            },
            None => 0,
        }
    }

    /// What a block does, whose instructions do the computations of these numbers.
    pub fn local_of(&self, block: &Block, numbers: &[Option<u32>], all: &Computations) -> Local
        ensures { IsColumn (views_of all.now) self.now.index self.now.spoiled.items → AreNumbers all.now
            → AreNumbersAlong (views_of all.now) (block_view block.now).instructions numbers.now
            → (n : ℕ) (e : spec.Computation) → n / 64 ≡ self.now.index → slice_get (views_of all.now) n ≡ Some e
            → told_in result n ≡ told_along e (block_view block.now).instructions nothing }
    {
        let mut local = NOTHING;
        for index in 0..block.instructions.len() {
            let instruction = &block.instructions[index];
            let number = number_of(numbers, index);
            let done = self.bit_of(number);
            let target = instruction.target();
            let written = self.spoiled_by(target);
            local = behind(local, done, written);
        }
        local
    }
}

/// The number at an index, if there is one.
fn number_of(numbers: &[Option<u32>], index: usize) -> Option<u32>
    ensures { result ≡ number_at numbers.now index }
{
    match numbers.get(index) {
        Some(number) => *number,
        None => None,
    }
}

/// What a block does as far as one instruction further, which does this computation and then writes an operand of
/// those.
fn behind(local: Local, done: u64, written: u64) -> Local
    ensures { (n : ℕ) → told_in result n ≡ told_written (has written n) (told_done (has done n) (told_in local n)) }
{
    Local {
        first: either(local.first, without(done, local.written)),
        last: without(either(local.last, done), written),
        done: either(local.done, done),
        written: either(local.written, written),
    }
}
