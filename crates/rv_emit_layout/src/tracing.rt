//! What is told of the words of a function: where its places begin, and which words write homes.

ghost use Rattle.std.specs.Prelude.{◌≡◌, ◌++◌, IfOk, OnOk, [], length, min, nat_le, nat_lt, replicate, slice_get, slice_index};
ghost use Rattle.std.specs.Option.{option_map_or};
ghost use Rattle.rv_emit_sequence.specs.Sequences.{sequence_view};
ghost use Rattle.rv_emit_layout.specs.Layouts.{layout_view};
ghost use Rattle.rv_emit_layout.specs.Tracing.{piece_address, stop_at, stops_of_block, stops_of_blocks, with_writer, with_writers, word_address};

use crate::layout::Layout;
use memory_map::CODE_START;
use rv_emit_sequence::Sequence;
use rv_emit_sequence::table::{at, count, put};
use rv_emit_tables::PlacedStop;
use rv_emit_words::PlacedPiece;
use std::alloc::{AllocError, Global};

/// The address of a word of code.
pub fn address_of(word: u32) -> u32
    ensures { result ≡ word_address word }
{
    word.wrapping_mul(4).wrapping_add(CODE_START)
}

/// The address of a piece of a function before which so many words stand.
fn address_at(layout: &Layout, first: u32, index: u32) -> u32
    ensures { result ≡ piece_address (layout_view layout.now) first index }
{
    address_of(first.wrapping_add(at(&layout.offsets, index)))
}

/// Where a piece writes for a number, puts its address there.
fn put_writer(table: &mut Vec<u32>, piece: PlacedPiece, address: u32)
    ensures { table.new.items ≡ with_writer address piece table.old.items }
{
    if let Some(number) = piece.writes {
        put(table, number, address);
    }
}

/// For each parameter the address of the word that binds it.
pub fn bindings_of(
    alloc: Global,
    sequence: &Sequence,
    layout: &Layout,
    first: u32,
    parameters: usize,
) -> Result<Vec<u32>, AllocError>
    ensures { IfOk result (λ bindings.
        bindings.items ≡ with_writers (layout_view layout.now) first (λ i. nat_lt i sequence.now.begin) 0
        sequence.now.pieces.items (replicate parameters 0)) }
{
    let mut bindings = vec![in alloc; 0; parameters]?;
    let mut index = 0u32;
    let mut left: &[PlacedPiece] = &sequence.pieces;
    while let [piece, rest @ ..] = left {
        if index < sequence.begin {
            put_writer(&mut bindings, *piece, address_at(layout, first, index));
        }
        index = index.saturating_add(1);
        left = rest;
    }
    Ok(bindings)
}

/// For each instruction the address of the word that writes its target's home, or 0.
pub fn writers_of(
    alloc: Global,
    sequence: &Sequence,
    layout: &Layout,
    first: u32,
) -> Result<Vec<u32>, AllocError>
    ensures { IfOk result (λ writers.
        writers.items ≡ with_writers (layout_view layout.now) first (λ i. nat_le sequence.now.begin i) 0
        sequence.now.pieces.items
        (replicate (slice_index sequence.now.numbers.items (min (length sequence.now.ends.items) 4294967295))
        0)) }
{
    let blocks = count(sequence.ends.len());
    let mut writers = vec![in alloc; 0; at(&sequence.numbers, blocks) as usize]?;
    let mut index = 0u32;
    let mut left: &[PlacedPiece] = &sequence.pieces;
    while let [piece, rest @ ..] = left {
        if index >= sequence.begin {
            put_writer(&mut writers, *piece, address_at(layout, first, index));
        }
        index = index.saturating_add(1);
        left = rest;
    }
    Ok(writers)
}

/// Appends the stop of a piece, if it is one.
fn push_stop(
    piece: PlacedPiece,
    address: u32,
    stops: &mut Vec<PlacedStop>,
) -> Result<(), AllocError>
    ensures { OnOk result (stops.new.items ≡ stops.old.items ++ stop_at address piece) }
{
    if piece.is_stop {
        stops.push(PlacedStop {
            place: piece.owner,
            address,
        })?;
    }
    Ok(())
}

/// Appends the stop of the piece of an index, if it is one.
fn push_stop_at(
    sequence: &Sequence,
    layout: &Layout,
    first: u32,
    index: u32,
    stops: &mut Vec<PlacedStop>,
) -> Result<(), AllocError>
    ensures { OnOk result
        (stops.new.items ≡ stops.old.items ++ option_map_or
        (stop_at (piece_address (layout_view layout.now) first index))
        (slice_get sequence.now.pieces.items index) []) }
{
    match sequence.pieces.get(index as usize) {
        Some(piece) => push_stop(*piece, address_at(layout, first, index), stops),
        None => Ok(()),
    }
}

/// Appends the stops of a block.
fn push_stops_of(
    sequence: &Sequence,
    layout: &Layout,
    first: u32,
    block: u32,
    stops: &mut Vec<PlacedStop>,
) -> Result<(), AllocError>
    ensures { OnOk result
        (stops.new.items
        ≡ stops.old.items ++ stops_of_block (sequence_view sequence.now) (layout_view layout.now) first block) }
{
    for index in at(&sequence.labels, block)..at(&sequence.ends, block) {
        push_stop_at(sequence, layout, first, index, stops)?;
    }
    Ok(())
}

/// Appends the stops of a function before which so many words stand, block by block.
pub fn push_stops(
    sequence: &Sequence,
    layout: &Layout,
    first: u32,
    stops: &mut Vec<PlacedStop>,
) -> Result<(), AllocError>
    ensures { OnOk result
        (stops.new.items ≡ stops.old.items ++ stops_of_blocks (sequence_view sequence.now) (layout_view layout.now)
        first 0 (min (length sequence.now.ends.items) 4294967295)) }
{
    for block in 0..count(sequence.ends.len()) {
        push_stops_of(sequence, layout, first, block, stops)?;
    }
    Ok(())
}
