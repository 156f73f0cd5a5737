//! From a word to its instruction.

ghost use Rattle.std.specs.Prelude.{◌≡◌, ◌<◌, IfSome};
ghost use Rattle.rv_code.specs.Fields.{signed_12, immediate, store_offset, branch_distance, jump_distance};
ghost use Rattle.rv_code.specs.Encoding.{encoded};
ghost use Rattle.rv_code.specs.Decoding.{immediate_of, decoded};
ghost use Rattle.rv_code.specs.InForm.{IsInForm};

use crate::instruction::{
    BranchOperation, ImmediateOperation, Instruction, LoadOperation, RegisterOperation,
    StoreOperation,
};
use crate::opcode;

/// The instruction that a word spells, or none where no instruction of RV32IM has that word.
#[tactic(auto, using(crate::proofs::RoundTrip::answer_in_form, crate::proofs::RoundTrip::answer_spelled))]
pub fn decode(word: u32) -> Option<Instruction>
    ensures value { result ≡ decoded word }
    ensures in_form { IfSome result IsInForm }
    ensures spelled { IfSome result (λ i. encoded i ≡ word) }
{
    row_of(word)
}

// The row of the table that has a word, with the fields of the word.
#[tactic(auto, unfolding(crate::specs::Decoding::decoded))]
fn row_of(word: u32) -> Option<Instruction>
    ensures { result ≡ decoded word }
{
    let rd = (word / 128 % 32) as u8;
    let rs1 = (word / 32768 % 32) as u8;
    let rs2 = (word / 1048576 % 32) as u8;
    let funct3 = word / 4096 % 8;
    let funct7 = word / 33554432;
    match word % 128 {
        opcode::LUI => Some(Instruction::Lui(rd, word / 4096)),
        opcode::AUIPC => Some(Instruction::Auipc(rd, word / 4096)),
        opcode::JAL => Some(Instruction::Jal(rd, jump_distance(word))),
        opcode::JALR if funct3 == 0 => Some(Instruction::Jalr(rd, rs1, immediate(word))),
        opcode::BRANCH => {
            let operation = BranchOperation::from_funct3(funct3)?;
            Some(Instruction::Branch(operation, rs1, rs2, branch_distance(word)))
        }
        opcode::LOAD => {
            let operation = LoadOperation::from_funct3(funct3)?;
            Some(Instruction::Load(operation, rd, rs1, immediate(word)))
        }
        opcode::STORE => {
            let operation = StoreOperation::from_funct3(funct3)?;
            Some(Instruction::Store(operation, rs2, rs1, store_offset(word)))
        }
        opcode::OP_IMM => {
            let operation = ImmediateOperation::from_functs(funct3, funct7)?;
            Some(Instruction::Immediate(operation, rd, rs1, immediate_of(operation, word)))
        }
        opcode::OP => {
            let operation = RegisterOperation::from_functs(funct3, funct7)?;
            Some(Instruction::Register(operation, rd, rs1, rs2))
        }
        opcode::MISC_MEM if funct3 == 0 => Some(Instruction::Fence(rd, rs1, immediate(word))),
        _ if word == opcode::ECALL => Some(Instruction::Ecall),
        _ if word == opcode::EBREAK => Some(Instruction::Ebreak),
        _ => None,
    }
}

// The immediate of the I format.
fn immediate(word: u32) -> u32
    ensures { result ≡ immediate word }
{
    sign_extended_12(word / 1048576)
}

// The immediate of an operation: the amount of a shift stands where rs2 does.
fn immediate_of(operation: ImmediateOperation, word: u32) -> u32
    ensures { result ≡ immediate_of operation word }
{
    match operation {
        ImmediateOperation::Slli | ImmediateOperation::Srli | ImmediateOperation::Srai => {
            word / 1048576 % 32
        }
        _ => immediate(word),
    }
}

// The offset of the S format.
fn store_offset(word: u32) -> u32
    ensures { result ≡ store_offset word }
{
    sign_extended_12(word / 33554432 * 32 + word / 128 % 32)
}

// The distance of the B format.
fn branch_distance(word: u32) -> u32
    ensures { result ≡ branch_distance word }
{
    let distance = word / 2147483648 * 4096
        + word / 128 % 2 * 2048
        + word / 33554432 % 64 * 32
        + word / 256 % 16 * 2;
    if distance < 4096 {
        distance
    } else {
        distance + 4294959104
    }
}

// The distance of the J format.
fn jump_distance(word: u32) -> u32
    ensures { result ≡ jump_distance word }
{
    let distance = word / 2147483648 * 1048576
        + word / 4096 % 256 * 4096
        + word / 1048576 % 2 * 2048
        + word / 2097152 % 1024 * 2;
    if distance < 1048576 {
        distance
    } else {
        distance + 4292870144
    }
}

// A number of 12 bits with its sign copied upwards.
fn sign_extended_12(bits: u32) -> u32
    requires { bits < 4096 }
    ensures { result ≡ signed_12 bits }
{
    if bits < 2048 { bits } else { bits + 4294963200 }
}
