//! The code of a block.

ghost use Rattle.std.specs.Prelude.{◌≡◌, ◌≤◌, ◌+◌, ◌==◌, not, false, OnOk, IfOk, map};
ghost use Rattle.graph_core.specs.Graphs.{instruction_view};
ghost use Rattle.graph_core.specs.Validity.{markers_in, total};
ghost use Rattle.rv_emit_words.specs.Shown.{shown, stops_of};
ghost use Rattle.rv_emit_words.specs.Words.{words_in};
ghost use Rattle.std.specs.List.{filter};
ghost use Rattle.rv_emit_instructions.specs.Stops.{shown_behind};
ghost use Rattle.rv_emit_code.specs.Stops.{shown_after};
ghost use Rattle.rv_emit_words.specs.InstructionWords.{most_words_of};
ghost use Rattle.graph_core.specs.Graphs.{block_view};
ghost use Rattle.rv_emit_storage.specs.Storages.{storage_view};
ghost use Rattle.rv_emit_words.specs.Growing.{code_state};
ghost use Rattle.rv_emit_code.specs.Blocks.{block_code, with_instructions, with_numbered};

use crate::ending::put_end;
use graph_core::{Block, Instr, Label};
use rv_emit_instructions::put_instruction;
use rv_emit_storage::Storage;
use rv_emit_words::{Code, Held, PlacedPiece};
use std::alloc::{AllocError, Global};

/// The code of a block, and what scratch registers hold behind it.
#[derive(Drop)]
pub struct BlockCode {
    pub pieces: Vec<PlacedPiece>,
    /// What scratch registers hold where its end leads to another block.
    pub held: Vec<Held>,
    /// The constants that it brings into a register, once for each time. Where one is held there already, that takes no
    /// word.
    pub fetched: Vec<u32>,
}

/// The code of an instruction of this number. The last word of one with a target writes the target's home.
fn put_numbered(
    code: &mut Code,
    storage: &Storage<'_>,
    number: u32,
    instruction: &Instr,
) -> Result<(), AllocError>
    ensures few { OnOk result
        (words_in code.new.pieces.items
        ≤ words_in code.old.pieces.items + most_words_of (instruction_view instruction.now)) }
    ensures stops { OnOk result
        (shown code.new ≡ shown_behind storage.now.entry.0 (instruction_view instruction.now) (shown code.old)) }
    ensures grown { OnOk result
        (code_state code.new ≡ with_numbered (storage_view storage.now) storage.now.entry.0 number
        (instruction_view instruction.now) (code_state code.old)) }
{
    put_instruction(code, storage, instruction)?;
    if let Some(_target) = instruction.target() {
        code.mark_writer(number);
    }
    Ok(())
}

/// The code of instructions.
fn put_instructions(
    code: &mut Code,
    storage: &Storage<'_>,
    instructions: &[Instr],
) -> Result<(), AllocError>
    ensures few { OnOk result
        (words_in code.new.pieces.items
        ≤ words_in code.old.pieces.items + total most_words_of (map instruction_view instructions.now)) }
    ensures stops { OnOk result
        (shown code.new ≡ shown_after storage.now.entry.0 (map instruction_view instructions.now) (shown code.old)) }
    ensures grown { OnOk result
        (code_state code.new ≡ with_instructions (storage_view storage.now) storage.now.entry.0 0
        (map instruction_view instructions.now) (code_state code.old)) }
{
    let mut left = instructions;
    let mut number = 0u32;
    while let [first, rest @ ..] = left {
        put_numbered(code, storage, number, first)?;
        number = number.wrapping_add(1);
        left = rest;
    }
    Ok(())
}

/// The code of a block behind which this one stands next, where these constants are held as it begins; these are loaded
/// at its end, as far as that takes no more than nine words.
pub fn code_of_block(
    alloc: Global,
    storage: &Storage<'_>,
    block: &Block,
    next: Label,
    known: &[Held],
    loads: &[Held],
) -> Result<BlockCode, AllocError>
    ensures few { IfOk result (λ made.
        words_in made.pieces.items ≤ total most_words_of (map instruction_view block.now.instructions.items) + 9) }
    ensures stops { IfOk result (λ made.
        stops_of made.pieces.items ≡ filter (λ p. not (p == storage.now.entry.0))
        (markers_in (map instruction_view block.now.instructions.items))) }
    ensures code { IfOk result (λ made.
        made.pieces.items ≡
        (block_code (storage_view storage.now) storage.now.entry.0 storage.now.frame.now.saved.items
        storage.now.frame.now.size storage.now.end.0 next.0 known.now loads.now
        (block_view block.now)).pieces) }
    ensures held { IfOk result (λ made.
        made.held.items ≡
        (block_code (storage_view storage.now) storage.now.entry.0 storage.now.frame.now.saved.items
        storage.now.frame.now.size storage.now.end.0 next.0 known.now loads.now
        (block_view block.now)).held) }
{
    let owner = match block.place {
        Some(place) => place.0,
        None => 0,
    };
    let mut code = Code::knowing(alloc, owner, known)?;
    put_instructions(&mut code, storage, &block.instructions)?;
    put_end(&mut code, storage, block.end, next, loads)?;
    Ok(BlockCode {
        pieces: code.pieces,
        held: code.held,
        fetched: code.fetched,
    })
}
