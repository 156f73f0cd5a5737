//! The pieces of a function.

ghost use Rattle.std.specs.Prelude.{◌≡◌, ◌+◌, ◌*◌, ◌≤◌, ◌++◌, IfOk, OnOk, length};
ghost use Rattle.std.specs.Prelude.{map};
ghost use Rattle.rv_emit_words.specs.Words.{words_in};
ghost use Rattle.graph_core.specs.Graphs.{block_view, graph_view};
ghost use Rattle.rv_emit_sequence.specs.Sequences.{begun, ended, ground_of, numbered, numbers_from, sequence_view, with_block};

use crate::table::{at, count, put};
use graph_core::{Block, Graph};
use rv_emit_code::{BlockCode, begin_of_function, end_of_function};
use rv_emit_storage::Storage;
use rv_emit_words::PlacedPiece;
use std::alloc::{AllocError, Global};

/// The code of a function before it has addresses.
#[derive(Drop)]
pub struct Sequence {
    /// An instruction that a piece writes the target of is counted from the first of block 0, block by block.
    pub pieces: Vec<PlacedPiece>,
    /// How many of them stand before all blocks. They bind parameters.
    pub begin: u32,
    /// For each block the index of its first piece, and behind them that of the function's end.
    pub labels: Vec<u32>,
    /// For each block the index behind its last piece.
    pub ends: Vec<u32>,
    /// How many instructions the blocks before each block have, and all blocks.
    pub numbers: Vec<u32>,
}

/// How many instructions the blocks before each block have, and all blocks.
fn numbers_of(alloc: Global, blocks: &[Block]) -> Result<Vec<u32>, AllocError>
    ensures { IfOk result (λ numbers. numbers.items ≡ numbers_from 0 (map block_view blocks.now)) }
{
    let mut numbers = Vec::new(alloc);
    let mut number = 0u32;
    let mut left = blocks;
    while let [block, rest @ ..] = left {
        numbers.push(number)?;
        number = number.saturating_add(count(block.instructions.len()));
        left = rest;
    }
    numbers.push(number)?;
    Ok(numbers)
}

/// The number of a piece's instruction, where those of the blocks before are so many.
fn numbered(piece: PlacedPiece, before: u32) -> PlacedPiece
    ensures { result ≡ numbered before piece }
{
    PlacedPiece {
        piece: piece.piece,
        owner: piece.owner,
        is_stop: piece.is_stop,
        writes: match piece.writes {
            Some(instruction) => Some(before.saturating_add(instruction)),
            None => None,
        },
    }
}

/// Appends pieces, before whose first instruction there are so many.
fn push_all(
    pieces: &mut Vec<PlacedPiece>,
    more: &[PlacedPiece],
    before: u32,
) -> Result<(), AllocError>
    ensures few { OnOk result (words_in pieces.new.items ≡ words_in pieces.old.items + words_in more.now) }
    ensures grown { OnOk result (pieces.new.items ≡ pieces.old.items ++ map (numbered before) more.now) }
{
    let mut left = more;
    while let [first, rest @ ..] = left {
        pieces.push(numbered(*first, before))?;
        left = rest;
    }
    Ok(())
}

impl Sequence {
    /// The beginning of a function, behind which no block stands yet.
    pub(crate) fn new(
        alloc: Global,
        storage: &Storage<'_>,
        graph: &Graph,
        is_main: bool,
    ) -> Result<Sequence, AllocError>
        ensures few { IfOk result (λ made.
            words_in made.pieces.items ≤ length storage.now.frame.now.saved.items +
            (10 + 3 * length graph.now.parameters.items)) }
        ensures grown { IfOk result
            (λ made. sequence_view made ≡ begun (ground_of storage.now) (graph_view graph.now) is_main) }
    {
        let pieces = begin_of_function(alloc, storage, graph, is_main)?;
        let begin = count(pieces.len());
        Ok(Sequence {
            pieces,
            begin,
            labels: vec![in alloc; 0; graph.blocks.len()]?,
            ends: vec![in alloc; 0; graph.blocks.len()]?,
            numbers: numbers_of(alloc, &graph.blocks)?,
        })
    }

    /// Appends the code of a block.
    pub(crate) fn push_block(&mut self, number: u32, code: &BlockCode) -> Result<(), AllocError>
        ensures few { OnOk result
            (words_in self.new.pieces.items ≡ words_in self.old.pieces.items + words_in code.now.pieces.items) }
        ensures grown { OnOk result
            (sequence_view self.new ≡ with_block number code.now.pieces.items (sequence_view self.old)) }
    {
        let first = count(self.pieces.len());
        put(&mut self.labels, number, first);
        let before = at(&self.numbers, number);
        push_all(&mut self.pieces, &code.pieces, before)?;
        let end = count(self.pieces.len());
        put(&mut self.ends, number, end);
        Ok(())
    }

    /// Appends the end of the function.
    pub(crate) fn push_end(
        &mut self,
        alloc: Global,
        storage: &Storage<'_>,
    ) -> Result<(), AllocError>
        ensures few { OnOk result
            (words_in self.new.pieces.items
            ≤ words_in self.old.pieces.items + (length storage.now.frame.now.saved.items + 6)) }
        ensures grown { OnOk result (sequence_view self.new ≡ ended (ground_of storage.now) (sequence_view self.old)) }
    {
        let end = count(self.pieces.len());
        self.labels.push(end)?;
        let last = end_of_function(alloc, storage.frame)?;
        push_all(&mut self.pieces, &last, 0)
    }
}
