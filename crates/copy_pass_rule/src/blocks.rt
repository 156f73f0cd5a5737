//! Blocks as they are read.

ghost use Rattle.std.specs.Prelude.{◌≡◌, ◌↔◌, ℕ, ◌+◌, ◌^◌, ◌<◌, IfOk, IfSome, MatchOption, None, OnOk, length, map, true};
ghost use Rattle.graph_core.specs.Graphs.{Move, Name as NameOf, block_view, instruction_view, scalar_view};
ghost use Rattle.copy_pass_rule.specs.Copying.{AreOfOneType};
ghost use Rattle.copy_pass_rule.specs.Flow.{AreKnownIn, AreRead, AreReadBlocks, IsKnown, IsReadBlock, IsSomeUnknown, IsUnknownBlock, missing_in};
ghost use Rattle.copy_pass_rule.specs.Known.{IsNoCopy, type_in};
ghost use Rattle.graph_paths.specs.PathMarksTable.{bits_of};

use crate::copies::Copies;
use crate::flow::step;
use crate::reading::Reader;
use graph_core::{Block, Instr, Operand, Scalar};
use graph_paths::Marks;
use std::alloc::{AllocError, Global};

/// The type of a scalar.
fn type_of(scalars: &[Scalar], name: u32) -> Option<u32>
    ensures { result ≡ type_in (map scalar_view scalars.now) name }
{
    match scalars.get(name as usize) {
        Some(scalar) => Some(scalar.of),
        None => None,
    }
}

/// Whether two names are scalars of one type, and not the same.
fn are_of_one_type(scalars: &[Scalar], target: u32, source: u32) -> bool
    ensures { (result ≡ true) ↔ AreOfOneType (map scalar_view scalars.now) target source }
{
    match (type_of(scalars, target), type_of(scalars, source)) {
        (Some(one), Some(other)) => source != target && other == one,
        _ => false,
    }
}

/// The scalars of a copy: an instruction moves one scalar to another of the same type.
pub fn copy_of(scalars: &[Scalar], instruction: &Instr) -> Option<(u32, u32)>
    ensures { MatchOption result (IsNoCopy (map scalar_view scalars.now) (instruction_view instruction.now))
        (λ pair. (instruction_view instruction.now ≡ Move pair.0 (NameOf pair.1))
        × AreOfOneType (map scalar_view scalars.now) pair.0 pair.1) }
{
    match instruction {
        Instr::Move {
            target,
            from: Operand::Name(source),
        } => {
            if are_of_one_type(scalars, target.0, source.0) {
                Some((target.0, source.0))
            } else {
                None
            }
        }
        _ => None,
    }
}

/// Whether the copies that stand at a point are those that its instruction makes.
fn is_known(
    scalars: &[Scalar],
    copies: &Copies<'_>,
    block: u32,
    left: usize,
    instruction: &Instr,
) -> bool
    ensures { (result ≡ true)
        ↔ IsKnown (map scalar_view scalars.now) copies.now.all.now block left (instruction_view instruction.now) }
{
    match (copies.at(block, left), copy_of(scalars, instruction)) {
        (None, None) => true,
        (Some(k), Some((target, source))) => {
            let copy = copies.all[k];
            copy.target == target && copy.source == source
        }
        _ => false,
    }
}

/// The instructions of a block as they are read, where their copies are known. The walk's row is at the start of the
/// block, and comes to its end.
fn read_instructions(
    alloc: Global,
    scalars: &[Scalar],
    copies: &Copies<'_>,
    walk: &mut Marks,
    number: u32,
    instructions: &[Instr],
) -> Result<Option<Vec<Instr>>, AllocError>
    requires row { 0 < walk.old.count }
    requires width { walk.old.width ≡ length copies.now.all.now + 1 }
    requires narrow { length copies.now.all.now + 1 < 2 ^ 32 }
    ensures same_count { OnOk result (walk.new.count ≡ walk.old.count) }
    ensures same_width { OnOk result (walk.new.width ≡ walk.old.width) }
    ensures read { IfOk result (λ o. IfSome o (λ made. AreRead (map scalar_view scalars.now) copies.now.all.now number
        (map instruction_view instructions.now) (missing_in (bits_of walk.old) 0)
        (map instruction_view made.items) (missing_in (bits_of walk.new) 0))) }
    ensures none { IfOk result (λ o. o ≡ None
        → AreKnownIn (map scalar_view scalars.now) copies.now.all.now number (map instruction_view instructions.now)
        (missing_in (bits_of walk.old) 0)
        → ⊥) }
{
    let mut read = Vec::new(alloc);
    let mut ahead = instructions;
    while let [instruction, rest @ ..] = ahead {
        let reader = Reader {
            copies: &*copies,
            row: 0,
            marks: &*walk,
        };
        let made = reader.read_instruction(alloc, instruction)?;
        if !is_known(scalars, copies, number, rest.len(), &made) {
            return Ok(None);
        }
        let target = instruction.target();
        step(copies, walk, 0, number, rest.len(), target);
        read.push(made)?;
        ahead = rest;
    }
    Ok(Some(read))
}

/// A block as it is read, where its copies are known.
fn read_block(
    alloc: Global,
    scalars: &[Scalar],
    copies: &Copies<'_>,
    starts: &Marks,
    walk: &mut Marks,
    number: u32,
    block: &Block,
) -> Result<Option<Block>, AllocError>
    requires row { 0 < walk.old.count }
    requires width { walk.old.width ≡ length copies.now.all.now + 1 }
    requires widths { starts.now.width ≡ length copies.now.all.now + 1 }
    requires narrow { length copies.now.all.now + 1 < 2 ^ 32 }
    requires block { number < starts.now.count }
    ensures same_count { OnOk result (walk.new.count ≡ walk.old.count) }
    ensures same_width { OnOk result (walk.new.width ≡ walk.old.width) }
    ensures read { IfOk result (λ o. IfSome o (λ made. IsReadBlock (map scalar_view scalars.now) copies.now.all.now
        (bits_of starts.now) number (block_view block.now) (block_view made))) }
    ensures none { IfOk result (λ o. o ≡ None
        → IsUnknownBlock (map scalar_view scalars.now) copies.now.all.now (bits_of starts.now) number
        (block_view block.now)) }
{
    if !starts.get(number, 0) {
        let same = block.duplicate(alloc)?;
        return Ok(Some(same));
    }
    walk.copy_from(0, starts, number);
    let instructions = &block.instructions;
    let Some(instructions) = read_instructions(alloc, scalars, copies, walk, number, instructions)?
    else {
        return Ok(None);
    };
    let reader = Reader {
        copies: &*copies,
        row: 0,
        marks: &*walk,
    };
    Ok(Some(Block {
        place: block.place,
        instructions,
        end: reader.read_end(block.end),
    }))
}

/// Blocks as they are read, where their copies are known.
pub fn read_blocks(
    alloc: Global,
    scalars: &[Scalar],
    copies: &Copies<'_>,
    starts: &Marks,
    blocks: &[Block],
) -> Result<Option<Vec<Block>>, AllocError>
    requires count { starts.now.count ≡ length blocks.now }
    requires widths { starts.now.width ≡ length copies.now.all.now + 1 }
    requires few { length blocks.now < 2 ^ 32 }
    requires narrow { length copies.now.all.now + 1 < 2 ^ 32 }
    ensures read { IfOk result (λ o. IfSome o (λ made. AreReadBlocks (map scalar_view scalars.now) copies.now.all.now
        (bits_of starts.now) 0 (map block_view blocks.now) (map block_view made.items))) }
    ensures none { IfOk result (λ o. o ≡ None
        → IsSomeUnknown (map scalar_view scalars.now) copies.now.all.now (bits_of starts.now)
        (map block_view blocks.now)) }
{
    let mut walk = Marks::new(alloc, 1, copies.all.len() as u32 + 1)?;
    let mut number = 0u32;
    let mut read = Vec::new(alloc);
    let mut ahead = blocks;
    while let [block, rest @ ..] = ahead {
        let Some(made) = read_block(alloc, scalars, copies, starts, &mut walk, number, block)?
        else {
            return Ok(None);
        };
        read.push(made)?;
        number += 1;
        ahead = rest;
    }
    Ok(Some(read))
}
