//! What the operations of instructions compute.

ghost use Rattle.std.specs.Prelude.{◌≡◌};
ghost use Rattle.rv_machine.specs.Table.{operation_result, operated_immediate, taken};

use rv_code::{BranchOperation, ImmediateOperation, RegisterOperation};

/// What an operation computes of the values of two registers.
#[tactic(auto, unfolding(crate::specs::Table::operation_result))]
pub fn operate(operation: RegisterOperation, left: u32, right: u32) -> u32
    ensures { result ≡ operation_result operation left right }
{
    match operation {
        RegisterOperation::Add => word_base::add(left, right),
        RegisterOperation::Sub => word_base::sub(left, right),
        RegisterOperation::Sll => word_base::sll(left, right),
        RegisterOperation::Slt => word_base::slt(left, right),
        RegisterOperation::Sltu => word_base::sltu(left, right),
        RegisterOperation::Xor => left ^ right,
        RegisterOperation::Srl => word_base::srl(left, right),
        RegisterOperation::Sra => word_base::sra(left, right),
        RegisterOperation::Or => left | right,
        RegisterOperation::And => left & right,
        RegisterOperation::Mul => word_base::mul(left, right),
        RegisterOperation::Mulh => word_base::mulh(left, right),
        RegisterOperation::Mulhsu => word_base::mulhsu(left, right),
        RegisterOperation::Mulhu => word_base::mulhu(left, right),
        RegisterOperation::Div => word_base::div_signed(left, right),
        RegisterOperation::Divu => word_base::div_unsigned(left, right),
        RegisterOperation::Rem => word_base::rem_signed(left, right),
        RegisterOperation::Remu => word_base::rem_unsigned(left, right),
    }
}

/// What an operation computes of the value of a register and an immediate.
#[tactic(auto, unfolding(crate::specs::Table::operated_immediate))]
pub fn operate_immediate(operation: ImmediateOperation, source: u32, immediate: u32) -> u32
    ensures { result ≡ operated_immediate operation source immediate }
{
    match operation {
        ImmediateOperation::Addi => word_base::add(source, immediate),
        ImmediateOperation::Slti => word_base::slt(source, immediate),
        ImmediateOperation::Sltiu => word_base::sltu(source, immediate),
        ImmediateOperation::Xori => source ^ immediate,
        ImmediateOperation::Ori => source | immediate,
        ImmediateOperation::Andi => source & immediate,
        ImmediateOperation::Slli => word_base::sll(source, immediate),
        ImmediateOperation::Srli => word_base::srl(source, immediate),
        ImmediateOperation::Srai => word_base::sra(source, immediate),
    }
}

/// Whether a branch is taken, by the values of its two registers.
#[tactic(auto, unfolding(crate::specs::Table::taken))]
pub fn is_taken(operation: BranchOperation, left: u32, right: u32) -> bool
    ensures { result ≡ taken operation left right }
{
    match operation {
        BranchOperation::Beq => left == right,
        BranchOperation::Bne => left != right,
        BranchOperation::Blt => left.cast_signed() < right.cast_signed(),
        BranchOperation::Bge => left.cast_signed() >= right.cast_signed(),
        BranchOperation::Bltu => left < right,
        BranchOperation::Bgeu => left >= right,
    }
}
