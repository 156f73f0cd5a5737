//! The instructions of RV32IM.

/// The comparison of a conditional branch.
#[derive(Clone, Copy, PartialEq, Eq)]
pub enum BranchOperation {
    /// Equal.
    Beq,
    /// Not equal.
    Bne,
    /// Less, as signed numbers.
    Blt,
    /// Not less, as signed numbers.
    Bge,
    /// Less, as unsigned numbers.
    Bltu,
    /// Not less, as unsigned numbers.
    Bgeu,
}

/// How many bytes a load reads, and whether their sign is copied upwards.
#[derive(Clone, Copy, PartialEq, Eq)]
pub enum LoadOperation {
    /// A signed byte.
    Lb,
    /// A signed halfword, two bytes.
    Lh,
    /// A word, four bytes.
    Lw,
    /// An unsigned byte.
    Lbu,
    /// An unsigned halfword.
    Lhu,
}

/// How many bytes a store writes.
#[derive(Clone, Copy, PartialEq, Eq)]
pub enum StoreOperation {
    /// One byte.
    Sb,
    /// A halfword, two bytes.
    Sh,
    /// A word, four bytes.
    Sw,
}

/// What an instruction computes of a register and an immediate.
#[derive(Clone, Copy, PartialEq, Eq)]
pub enum ImmediateOperation {
    /// The sum.
    Addi,
    /// Whether the register is less, as signed numbers.
    Slti,
    /// Whether the register is less, as unsigned numbers.
    Sltiu,
    /// The exclusive or.
    Xori,
    /// The or.
    Ori,
    /// The and.
    Andi,
    /// The register shifted left.
    Slli,
    /// The register shifted right, zeros coming in.
    Srli,
    /// The register shifted right, copies of its sign coming in.
    Srai,
}

/// What an instruction computes of two registers.
#[derive(Clone, Copy, PartialEq, Eq)]
pub enum RegisterOperation {
    /// The sum.
    Add,
    /// The difference.
    Sub,
    /// The first shifted left by the second.
    Sll,
    /// Whether the first is less, as signed numbers.
    Slt,
    /// Whether the first is less, as unsigned numbers.
    Sltu,
    /// The exclusive or.
    Xor,
    /// The first shifted right by the second, zeros coming in.
    Srl,
    /// The first shifted right by the second, copies of its sign coming in.
    Sra,
    /// The or.
    Or,
    /// The and.
    And,
    /// The low word of the product.
    Mul,
    /// The upper word of the product of signed numbers.
    Mulh,
    /// The upper word of the product of a signed number and an unsigned one.
    Mulhsu,
    /// The upper word of the product of unsigned numbers.
    Mulhu,
    /// The quotient of signed numbers.
    Div,
    /// The quotient of unsigned numbers.
    Divu,
    /// The remainder of signed numbers.
    Rem,
    /// The remainder of unsigned numbers.
    Remu,
}

/// An instruction.
///
/// Registers are numbers below 32. An immediate, an offset or a distance is a word: a signed number of 12, 13 or 21
/// bits with its sign copied upwards.
/// The amount of a shift by an immediate is below 32.
#[derive(Clone, Copy, PartialEq, Eq)]
pub enum Instruction {
    /// `lui rd, upper`: the upper 20 bits.
    Lui(u8, u32),
    /// `auipc rd, upper`: the upper 20 bits, added to the address of the instruction.
    Auipc(u8, u32),
    /// `jal rd, distance`: a jump by a distance.
    Jal(u8, u32),
    /// `jalr rd, offset(base)`: a jump to an address.
    Jalr(u8, u8, u32),
    /// `beq left, right, distance` and its kin.
    Branch(BranchOperation, u8, u8, u32),
    /// `lw rd, offset(base)` and its kin.
    Load(LoadOperation, u8, u8, u32),
    /// `sw value, offset(base)` and its kin: the register whose value is stored, the base, the offset.
    Store(StoreOperation, u8, u8, u32),
    /// `addi rd, source, immediate` and its kin.
    Immediate(ImmediateOperation, u8, u8, u32),
    /// `add rd, left, right` and its kin.
    Register(RegisterOperation, u8, u8, u8),
    /// `fence`, which does nothing here, with the fields that its word carries: rd, rs1 and the immediate.
    Fence(u8, u8, u32),
    /// `ecall`: a call of the environment.
    Ecall,
    /// `ebreak`: a break to a debugger.
    Ebreak,
}
