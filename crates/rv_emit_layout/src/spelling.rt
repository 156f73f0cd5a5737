//! The words of instructions.

ghost use Rattle.std.specs.Prelude.{◌≡◌, true};
ghost use Rattle.rv_code.specs.InForm.{IsBranchDistance, IsImmediateOf, IsInForm, IsJumpDistance, IsSigned12};
ghost use Rattle.rv_emit_layout.specs.Spelling.{is_branch_distance, is_immediate_of, is_in_form, is_jump_distance, is_signed_12, spelled};

use rv_code::{ImmediateOperation, Instruction, encode};

/// The word of `addi x0, x0, 0`, which does nothing.
pub const NOTHING: u32 = 19;

/// Whether a word is that of a signed number of 12 bits.
fn is_signed_12(n: u32) -> bool
    ensures value { result ≡ is_signed_12 n }
    ensures form { result ≡ true → IsSigned12 n }
{
    n < 2048 || n >= 4294965248
}

/// Whether a word is a distance that a branch has.
fn is_branch_distance(n: u32) -> bool
    ensures value { result ≡ is_branch_distance n }
    ensures form { result ≡ true → IsBranchDistance n }
{
    n % 2 == 0 && (n < 4096 || n >= 4294963200)
}

/// Whether a word is a distance that a jump has.
fn is_jump_distance(n: u32) -> bool
    ensures value { result ≡ is_jump_distance n }
    ensures form { result ≡ true → IsJumpDistance n }
{
    n % 2 == 0 && (n < 1048576 || n >= 4293918720)
}

/// Whether a word may stand as the immediate of an operation.
fn is_immediate_of(operation: ImmediateOperation, n: u32) -> bool
    ensures value { result ≡ is_immediate_of operation n }
    ensures form { result ≡ true → IsImmediateOf operation n }
{
    match operation {
        ImmediateOperation::Slli | ImmediateOperation::Srli | ImmediateOperation::Srai => n < 32,
        ImmediateOperation::Addi
        | ImmediateOperation::Slti
        | ImmediateOperation::Sltiu
        | ImmediateOperation::Xori
        | ImmediateOperation::Ori
        | ImmediateOperation::Andi => is_signed_12(n),
    }
}

/// Whether an instruction has registers and numbers that a word can spell.
#[tactic(auto, unfolding(crate::specs::Spelling::is_in_form))]
fn is_in_form(instruction: Instruction) -> bool
    ensures value { result ≡ is_in_form instruction }
    ensures form { result ≡ true → IsInForm instruction }
{
    match instruction {
        Instruction::Lui(r, n) | Instruction::Auipc(r, n) => r < 32 && n < 1048576,
        Instruction::Jal(r, n) => r < 32 && is_jump_distance(n),
        Instruction::Jalr(r, a, n) | Instruction::Fence(r, a, n) => {
            r < 32 && a < 32 && is_signed_12(n)
        }
        Instruction::Branch(_, a, b, n) => a < 32 && b < 32 && is_branch_distance(n),
        Instruction::Load(_, r, a, n) => r < 32 && a < 32 && is_signed_12(n),
        Instruction::Store(_, b, a, n) => b < 32 && a < 32 && is_signed_12(n),
        Instruction::Immediate(operation, r, a, n) => {
            r < 32 && a < 32 && is_immediate_of(operation, n)
        }
        Instruction::Register(_, r, a, b) => r < 32 && a < 32 && b < 32,
        Instruction::Ecall | Instruction::Ebreak => true,
    }
}

/// The word of an instruction. One that has none, of which no code is made, becomes the word that does nothing.
pub fn word_of(instruction: Instruction) -> u32
    ensures { result ≡ spelled instruction }
{
    if is_in_form(instruction) {
        encode(instruction)
    } else {
        NOTHING
    }
}
