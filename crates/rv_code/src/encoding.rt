//! From an instruction to its word.

ghost use Rattle.std.specs.Prelude.{◌≡◌, ◌<◌, Some};
ghost use Rattle.rv_code.specs.Encoding.{register_word, immediate_word, store_word, branch_word, upper_word, jump_word, immediate_operation_word, encoded};
ghost use Rattle.rv_code.specs.Decoding.{decoded};
ghost use Rattle.rv_code.specs.InForm.{IsRegister, IsImmediateOf, IsInForm};

use crate::instruction::{ImmediateOperation, Instruction};
use crate::opcode;

/// The word that spells an instruction.
#[tactic(auto, unfolding(crate::specs::Encoding::encoded), using(crate::proofs::RoundTrip::decoded_encoded))]
pub fn encode(instruction: Instruction) -> u32
    requires { IsInForm instruction }
    ensures value { result ≡ encoded instruction }
    ensures spells { decoded result ≡ Some instruction }
{
    match instruction {
        Instruction::Lui(rd, upper) => upper_word(upper, rd, opcode::LUI),
        Instruction::Auipc(rd, upper) => upper_word(upper, rd, opcode::AUIPC),
        Instruction::Jal(rd, distance) => jump_word(distance, rd),
        Instruction::Jalr(rd, base, offset) => immediate_word(offset, base, 0, rd, opcode::JALR),
        Instruction::Branch(operation, left, right, distance) => {
            branch_word(distance, right, left, operation.funct3())
        }
        Instruction::Load(operation, rd, base, offset) => {
            immediate_word(offset, base, operation.funct3(), rd, opcode::LOAD)
        }
        Instruction::Store(operation, value, base, offset) => {
            store_word(offset, value, base, operation.funct3())
        }
        Instruction::Immediate(operation, rd, source, immediate) => {
            immediate_operation_word(operation, rd, source, immediate)
        }
        Instruction::Register(operation, rd, left, right) => {
            register_word(
                operation.funct7(),
                right,
                left,
                operation.funct3(),
                rd,
                opcode::OP,
            )
        }
        Instruction::Fence(rd, rs1, immediate) => {
            immediate_word(immediate, rs1, 0, rd, opcode::MISC_MEM)
        }
        Instruction::Ecall => opcode::ECALL,
        Instruction::Ebreak => opcode::EBREAK,
    }
}

// The R format.
fn register_word(funct7: u32, rs2: u8, rs1: u8, funct3: u32, rd: u8, opcode: u32) -> u32
    requires funct7 { funct7 < 128 }
    requires rs2 { IsRegister rs2 }
    requires rs1 { IsRegister rs1 }
    requires funct3 { funct3 < 8 }
    requires rd { IsRegister rd }
    requires opcode { opcode < 128 }
    ensures { result ≡ register_word funct7 rs2 rs1 funct3 rd opcode }
{
    funct7 * 33554432
        + u32::from(rs2) * 1048576
        + u32::from(rs1) * 32768
        + funct3 * 4096
        + u32::from(rd) * 128
        + opcode
}

// The I format.
fn immediate_word(immediate: u32, rs1: u8, funct3: u32, rd: u8, opcode: u32) -> u32
    requires rs1 { IsRegister rs1 }
    requires funct3 { funct3 < 8 }
    requires rd { IsRegister rd }
    requires opcode { opcode < 128 }
    ensures { result ≡ immediate_word immediate rs1 funct3 rd opcode }
{
    immediate % 4096 * 1048576
        + u32::from(rs1) * 32768
        + funct3 * 4096
        + u32::from(rd) * 128
        + opcode
}

// The S format.
fn store_word(offset: u32, rs2: u8, rs1: u8, funct3: u32) -> u32
    requires rs2 { IsRegister rs2 }
    requires rs1 { IsRegister rs1 }
    requires funct3 { funct3 < 8 }
    ensures { result ≡ store_word offset rs2 rs1 funct3 }
{
    offset / 32 % 128 * 33554432
        + u32::from(rs2) * 1048576
        + u32::from(rs1) * 32768
        + funct3 * 4096
        + offset % 32 * 128
        + opcode::STORE
}

// The B format.
fn branch_word(distance: u32, rs2: u8, rs1: u8, funct3: u32) -> u32
    requires rs2 { IsRegister rs2 }
    requires rs1 { IsRegister rs1 }
    requires funct3 { funct3 < 8 }
    ensures { result ≡ branch_word distance rs2 rs1 funct3 }
{
    distance / 4096 % 2 * 2147483648
        + distance / 32 % 64 * 33554432
        + u32::from(rs2) * 1048576
        + u32::from(rs1) * 32768
        + funct3 * 4096
        + distance / 2 % 16 * 256
        + distance / 2048 % 2 * 128
        + opcode::BRANCH
}

// The U format.
fn upper_word(upper: u32, rd: u8, opcode: u32) -> u32
    requires upper { upper < 1048576 }
    requires rd { IsRegister rd }
    requires opcode { opcode < 128 }
    ensures { result ≡ upper_word upper rd opcode }
{
    upper * 4096 + u32::from(rd) * 128 + opcode
}

// The J format.
fn jump_word(distance: u32, rd: u8) -> u32
    requires { IsRegister rd }
    ensures { result ≡ jump_word distance rd }
{
    distance / 1048576 % 2 * 2147483648
        + distance / 2 % 1024 * 2097152
        + distance / 2048 % 2 * 1048576
        + distance / 4096 % 256 * 4096
        + u32::from(rd) * 128
        + opcode::JAL
}

// An operation on a register and an immediate: a shift has the R format, with its amount for rs2, and the others have the I format.
fn immediate_operation_word(
    operation: ImmediateOperation,
    rd: u8,
    source: u8,
    immediate: u32,
) -> u32
    requires rd { IsRegister rd }
    requires source { IsRegister source }
    requires immediate { IsImmediateOf operation immediate }
    ensures { result ≡ immediate_operation_word operation rd source immediate }
{
    match operation {
        ImmediateOperation::Slli | ImmediateOperation::Srli => {
            register_word(
                0,
                immediate as u8,
                source,
                operation.funct3(),
                rd,
                opcode::OP_IMM,
            )
        }
        ImmediateOperation::Srai => {
            register_word(
                32,
                immediate as u8,
                source,
                operation.funct3(),
                rd,
                opcode::OP_IMM,
            )
        }
        _ => immediate_word(immediate, source, operation.funct3(), rd, opcode::OP_IMM),
    }
}
