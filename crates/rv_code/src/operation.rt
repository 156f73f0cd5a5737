//! The bits that spell an operation: funct3 and funct7.

ghost use Rattle.std.specs.Prelude.{◌≡◌, ◌<◌};
ghost use Rattle.rv_code.specs.Operations.{branch_funct3, branch_operation, load_funct3, load_operation, store_funct3, store_operation, immediate_funct3, immediate_operation, register_funct3, register_funct7, base_operation, alternate_operation, product_operation, register_operation};

use crate::instruction::{
    BranchOperation, ImmediateOperation, LoadOperation, RegisterOperation, StoreOperation,
};

impl BranchOperation {
    /// The funct3 of a branch.
    pub fn funct3(self) -> u32
        ensures value { result ≡ branch_funct3 self }
        ensures small { result < 8 }
    {
        match self {
            BranchOperation::Beq => 0,
            BranchOperation::Bne => 1,
            BranchOperation::Blt => 4,
            BranchOperation::Bge => 5,
            BranchOperation::Bltu => 6,
            BranchOperation::Bgeu => 7,
        }
    }

    /// The branch that a funct3 spells, or none.
    pub fn from_funct3(funct3: u32) -> Option<Self>
        ensures { result ≡ branch_operation funct3 }
    {
        match funct3 {
            0 => Some(BranchOperation::Beq),
            1 => Some(BranchOperation::Bne),
            4 => Some(BranchOperation::Blt),
            5 => Some(BranchOperation::Bge),
            6 => Some(BranchOperation::Bltu),
            7 => Some(BranchOperation::Bgeu),
            _ => None,
        }
    }
}

impl LoadOperation {
    /// The funct3 of a load.
    pub fn funct3(self) -> u32
        ensures value { result ≡ load_funct3 self }
        ensures small { result < 8 }
    {
        match self {
            LoadOperation::Lb => 0,
            LoadOperation::Lh => 1,
            LoadOperation::Lw => 2,
            LoadOperation::Lbu => 4,
            LoadOperation::Lhu => 5,
        }
    }

    /// The load that a funct3 spells, or none.
    pub fn from_funct3(funct3: u32) -> Option<Self>
        ensures { result ≡ load_operation funct3 }
    {
        match funct3 {
            0 => Some(LoadOperation::Lb),
            1 => Some(LoadOperation::Lh),
            2 => Some(LoadOperation::Lw),
            4 => Some(LoadOperation::Lbu),
            5 => Some(LoadOperation::Lhu),
            _ => None,
        }
    }
}

impl StoreOperation {
    /// The funct3 of a store.
    pub fn funct3(self) -> u32
        ensures value { result ≡ store_funct3 self }
        ensures small { result < 8 }
    {
        match self {
            StoreOperation::Sb => 0,
            StoreOperation::Sh => 1,
            StoreOperation::Sw => 2,
        }
    }

    /// The store that a funct3 spells, or none.
    pub fn from_funct3(funct3: u32) -> Option<Self>
        ensures { result ≡ store_operation funct3 }
    {
        match funct3 {
            0 => Some(StoreOperation::Sb),
            1 => Some(StoreOperation::Sh),
            2 => Some(StoreOperation::Sw),
            _ => None,
        }
    }
}

impl ImmediateOperation {
    /// The funct3 of an operation on a register and an immediate.
    pub fn funct3(self) -> u32
        ensures value { result ≡ immediate_funct3 self }
        ensures small { result < 8 }
    {
        match self {
            ImmediateOperation::Addi => 0,
            ImmediateOperation::Slti => 2,
            ImmediateOperation::Sltiu => 3,
            ImmediateOperation::Xori => 4,
            ImmediateOperation::Ori => 6,
            ImmediateOperation::Andi => 7,
            ImmediateOperation::Slli => 1,
            ImmediateOperation::Srli | ImmediateOperation::Srai => 5,
        }
    }

    /// The operation on a register and an immediate that a funct3 and, for a shift, a funct7 spell, or none.
    pub fn from_functs(funct3: u32, funct7: u32) -> Option<Self>
        ensures { result ≡ immediate_operation funct3 funct7 }
    {
        match funct3 {
            0 => Some(ImmediateOperation::Addi),
            2 => Some(ImmediateOperation::Slti),
            3 => Some(ImmediateOperation::Sltiu),
            4 => Some(ImmediateOperation::Xori),
            6 => Some(ImmediateOperation::Ori),
            7 => Some(ImmediateOperation::Andi),
            1 if funct7 == 0 => Some(ImmediateOperation::Slli),
            5 if funct7 == 0 => Some(ImmediateOperation::Srli),
            5 if funct7 == 32 => Some(ImmediateOperation::Srai),
            _ => None,
        }
    }
}

impl RegisterOperation {
    /// The funct3 of an operation on two registers.
    pub fn funct3(self) -> u32
        ensures value { result ≡ register_funct3 self }
        ensures small { result < 8 }
    {
        match self {
            RegisterOperation::Add | RegisterOperation::Sub | RegisterOperation::Mul => 0,
            RegisterOperation::Sll | RegisterOperation::Mulh => 1,
            RegisterOperation::Slt | RegisterOperation::Mulhsu => 2,
            RegisterOperation::Sltu | RegisterOperation::Mulhu => 3,
            RegisterOperation::Xor | RegisterOperation::Div => 4,
            RegisterOperation::Srl | RegisterOperation::Sra | RegisterOperation::Divu => 5,
            RegisterOperation::Or | RegisterOperation::Rem => 6,
            RegisterOperation::And | RegisterOperation::Remu => 7,
        }
    }

    /// The funct7 of an operation on two registers.
    pub fn funct7(self) -> u32
        ensures value { result ≡ register_funct7 self }
        ensures small { result < 128 }
    {
        match self {
            RegisterOperation::Sub | RegisterOperation::Sra => 32,
            RegisterOperation::Mul
            | RegisterOperation::Mulh
            | RegisterOperation::Mulhsu
            | RegisterOperation::Mulhu
            | RegisterOperation::Div
            | RegisterOperation::Divu
            | RegisterOperation::Rem
            | RegisterOperation::Remu => 1,
            _ => 0,
        }
    }

    /// The operation on two registers that a funct3 and a funct7 spell, or none.
    pub fn from_functs(funct3: u32, funct7: u32) -> Option<Self>
        ensures { result ≡ register_operation funct3 funct7 }
    {
        match funct7 {
            0 => base_operation(funct3),
            32 => alternate_operation(funct3),
            1 => product_operation(funct3),
            _ => None,
        }
    }
}

fn base_operation(funct3: u32) -> Option<RegisterOperation>
    ensures { result ≡ base_operation funct3 }
{
    match funct3 {
        0 => Some(RegisterOperation::Add),
        1 => Some(RegisterOperation::Sll),
        2 => Some(RegisterOperation::Slt),
        3 => Some(RegisterOperation::Sltu),
        4 => Some(RegisterOperation::Xor),
        5 => Some(RegisterOperation::Srl),
        6 => Some(RegisterOperation::Or),
        7 => Some(RegisterOperation::And),
        _ => None,
    }
}

fn alternate_operation(funct3: u32) -> Option<RegisterOperation>
    ensures { result ≡ alternate_operation funct3 }
{
    match funct3 {
        0 => Some(RegisterOperation::Sub),
        5 => Some(RegisterOperation::Sra),
        _ => None,
    }
}

fn product_operation(funct3: u32) -> Option<RegisterOperation>
    ensures { result ≡ product_operation funct3 }
{
    match funct3 {
        0 => Some(RegisterOperation::Mul),
        1 => Some(RegisterOperation::Mulh),
        2 => Some(RegisterOperation::Mulhsu),
        3 => Some(RegisterOperation::Mulhu),
        4 => Some(RegisterOperation::Div),
        5 => Some(RegisterOperation::Divu),
        6 => Some(RegisterOperation::Rem),
        7 => Some(RegisterOperation::Remu),
        _ => None,
    }
}
