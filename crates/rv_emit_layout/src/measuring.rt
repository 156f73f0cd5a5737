//! Where pieces stand in the longest layout.

ghost use Rattle.std.specs.Prelude.{◌≡◌, ℕ, ◌+◌, ◌*◌, ◌≤◌, IfOk, length, cond, slice_index, slice_set};
ghost use Rattle.rv_emit_sequence.specs.Sequences.{counted, sequence_view};
ghost use Rattle.rv_emit_layout.specs.Reaches.{farthest, jump_width};
ghost use Rattle.rv_emit_layout.specs.Longest.{dropped_at, has_word_at, has_word_before, is_dropped, is_nothing, leaves, longest};

use crate::reaching::{farthest, words_of, words_of_jump};
use crate::spelling::{NOTHING, word_of};
use memory_map::Room;
use rv_code::Instruction;
use rv_emit_sequence::Sequence;
use rv_emit_sequence::table::{at, put};
use rv_emit_words::{Piece, PlacedPiece};
use std::alloc::{AllocError, Global};

/// Whether a piece is the word that does nothing.
fn is_nothing(piece: Piece) -> bool
    ensures { result ≡ is_nothing piece }
{
    match piece {
        Piece::Word(instruction) => word_of(instruction) == NOTHING,
        Piece::Branch { .. } | Piece::Jump(_) | Piece::Call(_) => false,
    }
}

/// Whether the word that does nothing is counted before a piece.
fn has_word_before(placed: PlacedPiece) -> bool
    ensures { result ≡ has_word_before placed }
{
    placed.is_stop && !is_nothing(placed.piece)
}

/// Whether control never goes on from a piece to the one behind it.
fn leaves(piece: Piece) -> bool
    ensures { result ≡ leaves piece }
{
    match piece {
        Piece::Word(Instruction::Jalr(_, _, _)) | Piece::Jump(_) => true,
        Piece::Word(_) | Piece::Branch { .. } | Piece::Call(_) => false,
    }
}

/// The number at an index, 0 behind the end.
fn number_at(table: &[u32], block: usize) -> u32
    ensures { result ≡ slice_index table.now block }
{
    match table.get(block) {
        Some(number) => *number,
        None => 0,
    }
}

/// Whether the jump at the end of a block was dropped.
fn is_dropped(sequence: &Sequence, block: usize) -> bool
    ensures { result ≡ is_dropped (sequence_view sequence.now) block }
{
    let end = number_at(&sequence.ends, block);
    if number_at(&sequence.labels, block) == end {
        return true;
    }
    match sequence.pieces.get(end.saturating_sub(1) as usize) {
        Some(last) => !leaves(last.piece),
        None => true,
    }
}

/// Adds one to the number at an index, if the table has it.
fn add_one(table: &mut Vec<u32>, index: u32)
    ensures { table.new.items ≡ slice_set table.old.items index (counted (slice_index table.old.items index + 1)) }
{
    let number = at(table, index).saturating_add(1);
    put(table, index, number);
}

/// Counts the jump of a block where the block ends, if it was dropped.
fn add_jump(sequence: &Sequence, block: usize, dropped: &mut Vec<u32>)
    ensures { dropped.new.items ≡ cond (is_dropped (sequence_view sequence.now) block)
        (slice_set dropped.old.items (slice_index sequence.now.ends.items block)
        (counted (slice_index dropped.old.items (slice_index sequence.now.ends.items block) + 1)))
        dropped.old.items }
{
    if is_dropped(sequence, block) {
        add_one(dropped, number_at(&sequence.ends, block));
    }
}

/// How many blocks whose jump was dropped end at the index of each piece, and behind them at the end.
fn dropped_jumps(alloc: Global, sequence: &Sequence) -> Result<Vec<u32>, AllocError>
    ensures { IfOk result (λ dropped.
        (k : ℕ) → k ≤ length sequence.now.pieces.items
        → slice_index dropped.items k ≡ counted (dropped_at (sequence_view sequence.now) k)) }
{
    let mut dropped = vec![in alloc; 0; sequence.pieces.len()]?;
    dropped.push(0)?;
    for block in 0..sequence.ends.len() {
        add_jump(sequence, block, &mut dropped);
    }
    Ok(dropped)
}

/// How many words are counted right before the piece of an index, or before the end, besides those of pieces.
fn more_at(room: Room, pieces: &[PlacedPiece], dropped: &[u32], index: usize) -> u32
    ensures { result ≡ counted
        (jump_width (farthest room) * slice_index dropped.now index + cond (has_word_at pieces.now index) 1 0) }
{
    let jumps = number_at(dropped, index).saturating_mul(words_of_jump(farthest(room)));
    match pieces.get(index) {
        Some(piece) if has_word_before(*piece) => jumps.saturating_add(1),
        Some(_) | None => jumps,
    }
}

/// Where each piece stands in the longest layout, and behind them the end.
pub fn longest_offsets(
    alloc: Global,
    room: Room,
    sequence: &Sequence,
) -> Result<Vec<u32>, AllocError>
    ensures { IfOk result (λ offsets. offsets.items ≡ longest room (sequence_view sequence.now)) }
{
    let dropped = dropped_jumps(alloc, sequence)?;
    let most = farthest(room);
    let mut offsets = Vec::new(alloc);
    let mut words = 0u32;
    for index in 0..sequence.pieces.len() {
        words = words.saturating_add(more_at(room, &sequence.pieces, &dropped, index));
        offsets.push(words)?;
        words = words.saturating_add(words_of(sequence.pieces[index].piece, most));
    }
    let more = more_at(room, &sequence.pieces, &dropped, sequence.pieces.len());
    offsets.push(words.saturating_add(more))?;
    Ok(offsets)
}
