//! The code of a function without a plan.

ghost use Rattle.std.specs.Prelude.{◌≡◌, ◌+◌, ◌*◌, ◌≤◌, IfOk, OnOk, length, map};
ghost use Rattle.graph_core.specs.Graphs.{block_view, graph_view};
ghost use Rattle.rv_emit_words.specs.Words.{words_in};
ghost use Rattle.rv_emit_sequence.specs.Sequences.{ground_of, plainly, sequence_view, with_standing, HasEnd, IsSequenceOf};
ghost use Rattle.rv_emit_sequence.specs.Words.{most_words_of_blocks};

use crate::sequence::Sequence;
use graph_core::{Block, Graph, Label};
use rv_emit_code::code_of_block;
use rv_emit_storage::Storage;
use std::alloc::{AllocError, Global};

/// Appends the code of blocks as they stand. Nothing is held where one begins.
fn push_blocks(
    alloc: Global,
    storage: &Storage<'_>,
    blocks: &[Block],
    sequence: &mut Sequence,
) -> Result<(), AllocError>
    ensures few { OnOk result
        (words_in sequence.new.pieces.items
        ≤ words_in sequence.old.pieces.items + most_words_of_blocks (map block_view blocks.now)) }
    ensures grown { OnOk result
        (sequence_view sequence.new ≡ with_standing (ground_of storage.now) (plainly 0 (map block_view blocks.now))
        (sequence_view sequence.old)) }
{
    let mut left = blocks;
    let mut number = 0u32;
    while let [block, rest @ ..] = left {
        let next = number.saturating_add(1);
        let code = code_of_block(alloc, storage, block, Label(next), &[], &[])?;
        sequence.push_block(number, &code)?;
        number = next;
        left = rest;
    }
    Ok(())
}

/// The code of a function, its blocks as they stand.
pub fn plain_sequence_of(
    alloc: Global,
    storage: &Storage<'_>,
    graph: &Graph,
    is_main: bool,
) -> Result<Sequence, AllocError>
    ensures few { IfOk result (λ made.
        words_in made.pieces.items ≤ most_words_of_blocks (map block_view graph.now.blocks.items) +
        (2 * length storage.now.frame.now.saved.items + (16 + 3 * length graph.now.parameters.items))) }
    ensures sequence { IfOk result (λ made.
        HasEnd (ground_of storage.now) (graph_view graph.now)
        → IsSequenceOf (ground_of storage.now) (graph_view graph.now) is_main (sequence_view made)) }
{
    let mut sequence = Sequence::new(alloc, storage, graph, is_main)?;
    push_blocks(alloc, storage, &graph.blocks, &mut sequence)?;
    sequence.push_end(alloc, storage)?;
    Ok(sequence)
}
