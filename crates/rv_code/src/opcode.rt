//! The opcodes of RV32IM: the low seven bits of a code word, which name the group of its instruction.

/// LUI: the upper 20 bits of a word.
pub const LUI: u32 = 0b0110111;

/// AUIPC: the upper 20 bits of a word, added to the address of the instruction.
pub const AUIPC: u32 = 0b0010111;

/// JAL: a jump by a distance.
pub const JAL: u32 = 0b1101111;

/// JALR: a jump to an address in a register.
pub const JALR: u32 = 0b1100111;

/// The branches.
pub const BRANCH: u32 = 0b1100011;

/// The loads.
pub const LOAD: u32 = 0b0000011;

/// The stores.
pub const STORE: u32 = 0b0100011;

/// The operations on a register and an immediate.
pub const OP_IMM: u32 = 0b0010011;

/// The operations on two registers.
pub const OP: u32 = 0b0110011;

/// FENCE.
pub const MISC_MEM: u32 = 0b0001111;

/// The whole word of ECALL.
pub const ECALL: u32 = 0x00000073;

/// The whole word of EBREAK.
pub const EBREAK: u32 = 0x00100073;
