//! Objects that are set to zero or to bytes that are known.

ghost use Rattle.std.specs.Prelude.{◌≡◌, ◌≤◌, ◌+◌, OnOk};
ghost use Rattle.rv_emit_words.specs.Shown.{shown};
ghost use Rattle.rv_emit_words.specs.Words.{words_in};
ghost use Rattle.std.specs.Prelude.{[], ◌∷◌};
ghost use Rattle.rv_code.specs.declared.instruction.Instruction.TheVariants as instruction;
ghost use Rattle.rv_code.specs.declared.instruction.LoadOperation.TheVariants.{Lw};
ghost use Rattle.rv_code.specs.declared.instruction.StoreOperation.TheVariants.{Sw};
ghost use Rattle.rv_code.specs.declared.instruction.ImmediateOperation.TheVariants.{Addi};
ghost use Rattle.rv_emit_storage.specs.Storages.{storage_view};
ghost use Rattle.rv_emit_words.specs.Growing.{code_state, with_code};
ghost use Rattle.rv_emit_instructions.specs.Filling.{copy_code, limit_code, turn_code, zero_code, zeros_code};

use rv_code::{BranchOperation, Instruction, LoadOperation, RegisterOperation, StoreOperation};
use rv_emit_storage::Storage;
use rv_emit_words::{Code, is_small, register};
use std::alloc::AllocError;

/// How many words are set to zero one by one, without a loop.
const MOST_SINGLE_WORDS: u32 = 4;

/// A store of a word at a register.
fn put_word(code: &mut Code, value: u8, base: u8, offset: u32) -> Result<(), AllocError>
    ensures few { OnOk result (words_in code.new.pieces.items ≤ words_in code.old.pieces.items + 1) }
    ensures stops { OnOk result (shown code.new ≡ shown code.old) }
    ensures grown { OnOk result
        (code_state code.new ≡ with_code (instruction.Store Sw value base offset ∷ []) (code_state code.old)) }
{
    code.put(Instruction::Store(StoreOperation::Sw, value, base, offset))
}

/// The sum of `t1` and a number of bytes in a register.
fn put_limit(code: &mut Code, rd: u8, bytes: u32) -> Result<(), AllocError>
    ensures few { OnOk result (words_in code.new.pieces.items ≤ words_in code.old.pieces.items + 3) }
    ensures stops { OnOk result (shown code.new ≡ shown code.old) }
    ensures grown { OnOk result (code_state code.new ≡ with_code (limit_code rd bytes) (code_state code.old)) }
{
    if is_small(bytes) {
        return code.put_sum(rd, register::T1, bytes);
    }
    code.load_constant(rd, bytes, 0)?;
    code.put(Instruction::Register(RegisterOperation::Add, rd, rd, register::T1))
}

/// The end of a loop over words: `t1` goes on to the next, and the loop, of which so many bytes stand before the
/// branch, begins again unless `t1` is at the limit.
fn put_turn(code: &mut Code, limit: u8, back: u32) -> Result<(), AllocError>
    ensures few { OnOk result (words_in code.new.pieces.items ≤ words_in code.old.pieces.items + 2) }
    ensures stops { OnOk result (shown code.new ≡ shown code.old) }
    ensures grown { OnOk result (code_state code.new ≡ with_code (turn_code limit back) (code_state code.old)) }
{
    code.put_sum(register::T1, register::T1, 4)?;
    code.put(Instruction::Branch(
        BranchOperation::Bne,
        register::T1,
        limit,
        0u32.wrapping_sub(back),
    ))
}

/// Zeros from an offset from `sp` on, word by word.
fn put_zeros(code: &mut Code, offset: u32, words: u32) -> Result<(), AllocError>
    ensures few { OnOk result (words_in code.new.pieces.items ≤ words_in code.old.pieces.items + words) }
    ensures stops { OnOk result (shown code.new ≡ shown code.old) }
    ensures grown { OnOk result (code_state code.new ≡ with_code (zeros_code offset words) (code_state code.old)) }
{
    for word in 0..words {
        let at = offset.wrapping_add(word.wrapping_mul(4));
        put_word(code, register::ZERO, register::SP, at)?;
    }
    Ok(())
}

/// Sets so many words of an automatic object to zero.
pub fn put_zero(
    code: &mut Code,
    storage: &Storage<'_>,
    object: u32,
    words: u32,
) -> Result<(), AllocError>
    ensures few { OnOk result (words_in code.new.pieces.items ≤ words_in code.old.pieces.items + 9) }
    ensures stops { OnOk result (shown code.new ≡ shown code.old) }
    ensures grown { OnOk result
        (code_state code.new ≡ with_code (zero_code (storage_view storage.now) object words) (code_state code.old)) }
{
    let offset = storage.object(object);
    if words == 0 || (words <= MOST_SINGLE_WORDS && offset < 2032) {
        return put_zeros(code, offset, words);
    }
    code.put_address(register::T1, register::T1, offset)?;
    put_limit(code, register::T2, words.wrapping_mul(4))?;
    put_word(code, register::ZERO, register::T1, 0)?;
    put_turn(code, register::T2, 8)
}

/// One word from where `t2` points to where `t1` points, by way of `t0`, and `t2` goes on.
fn put_copied_word(code: &mut Code) -> Result<(), AllocError>
    ensures few { OnOk result (words_in code.new.pieces.items ≤ words_in code.old.pieces.items + 3) }
    ensures stops { OnOk result (shown code.new ≡ shown code.old) }
    ensures grown { OnOk result
        (code_state code.new ≡ with_code
        (instruction.Load Lw 5 7 0 ∷ instruction.Store Sw 5 6 0 ∷ instruction.Immediate Addi 7 7 4 ∷ [])
        (code_state code.old)) }
{
    code.put(Instruction::Load(LoadOperation::Lw, register::T0, register::T2, 0))?;
    put_word(code, register::T0, register::T1, 0)?;
    code.put_sum(register::T2, register::T2, 4)
}

/// Copies so many words of bytes that initialise an automatic array into an object.
pub fn put_copy(
    code: &mut Code,
    storage: &Storage<'_>,
    object: u32,
    bytes: u32,
    words: u32,
) -> Result<(), AllocError>
    ensures few { OnOk result (words_in code.new.pieces.items ≤ words_in code.old.pieces.items + 13) }
    ensures stops { OnOk result (shown code.new ≡ shown code.old) }
    ensures grown { OnOk result
        (code_state code.new ≡ with_code
        (copy_code (storage_view storage.now) code.old.held.items object bytes words) (code_state code.old)) }
{
    if words == 0 {
        return Ok(());
    }
    code.put_address(register::T1, register::T1, storage.object(object))?;
    code.set_constant(register::T2, storage.array_bytes(bytes), storage.base)?;
    put_limit(code, register::A0, words.wrapping_mul(4))?;
    put_copied_word(code)?;
    put_turn(code, register::A0, 16)
}
