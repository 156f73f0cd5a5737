//! The code of instructions.

ghost use Rattle.std.specs.Prelude.{◌≡◌, ◌≤◌, ◌+◌, OnOk};
ghost use Rattle.rv_emit_words.specs.Shown.{shown};
ghost use Rattle.rv_emit_words.specs.Words.{words_in};
ghost use Rattle.graph_core.specs.Graphs.{instruction_view};
ghost use Rattle.rv_emit_instructions.specs.Stops.{shown_behind};
ghost use Rattle.rv_emit_words.specs.InstructionWords.{most_words_of};
ghost use Rattle.rv_emit_storage.specs.Storages.{storage_view};
ghost use Rattle.rv_emit_words.specs.Growing.{code_state};
ghost use Rattle.rv_emit_instructions.specs.Code.{with_instruction};

use crate::call::put_call;
use crate::filling::{put_copy, put_zero};
use crate::memory::{put_address_of, put_load, put_store};
use crate::{put_comparison, put_move, put_operation, put_truncation};
use graph_core::Instr;
use rv_emit_storage::Storage;
use rv_emit_words::Code;
use std::alloc::AllocError;

/// The code of an instruction.
pub fn put_instruction(
    code: &mut Code,
    storage: &Storage<'_>,
    instruction: &Instr,
) -> Result<(), AllocError>
    ensures few { OnOk result
        (words_in code.new.pieces.items
        ≤ words_in code.old.pieces.items + most_words_of (instruction_view instruction.now)) }
    ensures stops { OnOk result
        (shown code.new ≡ shown_behind storage.now.entry.0 (instruction_view instruction.now) (shown code.old)) }
    ensures grown { OnOk result
        (code_state code.new ≡ with_instruction (storage_view storage.now) storage.now.entry.0
        (instruction_view instruction.now) (code_state code.old)) }
{
    match instruction {
        Instr::Marker(place) => code.begin(place.0, place.0 != storage.entry.0),
        Instr::Note { .. } => Ok(()),
        Instr::Move { target, from } => put_move(code, storage, *target, *from),
        Instr::Operate {
            target,
            operation,
            left,
            right,
        } => put_operation(code, storage, *target, *operation, *left, *right),
        Instr::Truncate {
            target,
            truncation,
            from,
        } => put_truncation(code, storage, *target, *truncation, *from),
        Instr::Same {
            target,
            left,
            right,
        } => put_comparison(code, storage, *target, *left, *right),
        Instr::Address { target, object } => put_address_of(code, storage, *target, *object),
        Instr::Load {
            target,
            element,
            from,
        } => put_load(code, storage, *target, *element, *from),
        Instr::Store { element, to, value } => put_store(code, storage, *element, *to, *value),
        Instr::Zero { object, words } => put_zero(code, storage, *object, *words),
        Instr::CopyWords {
            object,
            bytes,
            words,
        } => put_copy(code, storage, *object, *bytes, *words),
        Instr::Call {
            target,
            callee,
            arguments,
        } => put_call(code, storage, *target, *callee, arguments.as_slice()),
    }
}
