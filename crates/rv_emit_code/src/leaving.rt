//! The end of functions.

ghost use Rattle.std.specs.Prelude.{◌≡◌, ◌≤◌, ◌+◌, ◌⊎◌, OnOk, IfOk, length, false, []};
ghost use Rattle.rv_emit_words.specs.Shown.{shown, stops_of};
ghost use Rattle.rv_emit_words.specs.Words.{words_in};
ghost use Rattle.rv_emit_words.specs.Growing.{code_state, with_code};
ghost use Rattle.rv_emit_code.specs.Blocks.{no_code};
ghost use Rattle.rv_emit_code.specs.Leaving.{moving_by, restoring_code, with_leaving, words_of_moving};

use rv_code::{Instruction, LoadOperation, RegisterOperation};
use rv_emit_storage::Frame;
use rv_emit_words::{Code, PlacedPiece, is_small, register};
use std::alloc::{AllocError, Global};

/// How many words add a word to `sp`: one, or three by way of `t0`.
pub(crate) fn words_of_move(by: u32) -> u32
    ensures few { (result ≡ 1) ⊎ (result ≡ 3) }
    ensures words { result ≡ words_of_moving by }
{
    if is_small(by) { 1 } else { 3 }
}

/// Adds a word to `sp` by the words that it takes.
pub(crate) fn move_sp(code: &mut Code, by: u32, words: u32) -> Result<(), AllocError>
    requires { (words ≡ 1) ⊎ (words ≡ 3) }
    ensures few { OnOk result (words_in code.new.pieces.items ≤ words_in code.old.pieces.items + words) }
    ensures stops { OnOk result (shown code.new ≡ shown code.old) }
    ensures grown { OnOk result (code_state code.new ≡ with_code (moving_by words by) (code_state code.old)) }
{
    if words == 1 {
        return code.put_sum(register::SP, register::SP, by);
    }
    code.load_constant(register::T0, by, 0)?;
    code.put(Instruction::Register(
        RegisterOperation::Add,
        register::SP,
        register::SP,
        register::T0,
    ))
}

/// Brings registers back from the frame.
fn restore(code: &mut Code, saved: &[u8]) -> Result<(), AllocError>
    ensures few { OnOk result (words_in code.new.pieces.items ≤ words_in code.old.pieces.items + (length saved.now)) }
    ensures stops { OnOk result (shown code.new ≡ shown code.old) }
    ensures grown { OnOk result (code_state code.new ≡ with_code (restoring_code saved.now 4) (code_state code.old)) }
{
    let mut offset = 4u32;
    for register in saved {
        code.put(Instruction::Load(LoadOperation::Lw, *register, register::SP, offset))?;
        offset = offset.wrapping_add(4);
    }
    Ok(())
}

/// Leaves the function, whose frame takes so many words to leave: first `tp`, then, of no place, the registers that are
/// brought back, the return address, `sp` and the jump.
pub(crate) fn put_leaving(code: &mut Code, frame: &Frame, moves: u32) -> Result<(), AllocError>
    requires { (moves ≡ 1) ⊎ (moves ≡ 3) }
    ensures few { OnOk result
        (words_in code.new.pieces.items
        ≤ words_in code.old.pieces.items + (length frame.now.saved.items + 3 + moves)) }
    ensures stops { OnOk result (shown code.new ≡ shown code.old) }
    ensures begun { OnOk result (code.new.begins ≡ false) }
    ensures grown { OnOk result
        (code_state code.new ≡ with_leaving moves frame.now.saved.items frame.now.size (code_state code.old)) }
{
    code.put_sum(register::TP, register::TP, 1)?;
    code.leave_place();
    restore(code, &frame.saved)?;
    code.put(Instruction::Load(LoadOperation::Lw, register::RA, register::SP, 0))?;
    move_sp(code, frame.size, moves)?;
    code.put(Instruction::Jalr(register::ZERO, register::RA, 0))
}

/// The code with which a function ends.
#[tactic(auto, using(crate::proofs::Stops::no_stops))]
pub fn end_of_function(alloc: Global, frame: &Frame) -> Result<Vec<PlacedPiece>, AllocError>
    ensures few { IfOk result (λ pieces. words_in pieces.items ≤ length frame.now.saved.items + 6) }
    ensures stops { IfOk result (λ pieces. stops_of pieces.items ≡ []) }
    ensures code { IfOk result (λ pieces.
        pieces.items ≡
        (with_leaving (words_of_moving frame.now.size) frame.now.saved.items frame.now.size
        (no_code 0 [])).pieces) }
{
    let mut code = Code::new(alloc, 0);
    put_leaving(&mut code, frame, words_of_move(frame.size))?;
    Ok(code.pieces)
}
