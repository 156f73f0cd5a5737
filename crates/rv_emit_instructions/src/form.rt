//! Which operation of the machine does what an operation of units does.

ghost use Rattle.std.specs.Prelude.{◌≡◌, None, option_map};
ghost use Rattle.std.specs.Option.{option_map_or};
ghost use Rattle.rv_emit_instructions.specs.Operations.{if_low_power, if_small, immediate_form, is_commutative, power_of_two, register_operation};

use rv_code::{ImmediateOperation, RegisterOperation};
use rv_emit_words::is_small;
use word_base::Operation;

/// The operation on two registers.
pub fn register_operation(operation: Operation) -> RegisterOperation
    ensures { result ≡ register_operation operation }
{
    match operation {
        Operation::Add => RegisterOperation::Add,
        Operation::Sub => RegisterOperation::Sub,
        Operation::Mul => RegisterOperation::Mul,
        Operation::Div => RegisterOperation::Div,
        Operation::Divu => RegisterOperation::Divu,
        Operation::Rem => RegisterOperation::Rem,
        Operation::Remu => RegisterOperation::Remu,
        Operation::Sll => RegisterOperation::Sll,
        Operation::Srl => RegisterOperation::Srl,
        Operation::Sra => RegisterOperation::Sra,
        Operation::And => RegisterOperation::And,
        Operation::Or => RegisterOperation::Or,
        Operation::Xor => RegisterOperation::Xor,
        Operation::Slt => RegisterOperation::Slt,
        Operation::Sltu => RegisterOperation::Sltu,
    }
}

/// Whether the two operands of an operation may change places.
pub fn is_commutative(operation: Operation) -> bool
    ensures { result ≡ is_commutative operation }
{
    match operation {
        Operation::Add | Operation::Mul | Operation::And | Operation::Or | Operation::Xor => true,
        _ => false,
    }
}

/// Of which number a word is the power of two, if it is one.
fn power_of_two(word: u32) -> Option<u32>
    ensures { result ≡ power_of_two word }
{
    for exponent in 0..32u32 {
        if word == 1 << exponent {
            return Some(exponent);
        }
    }
    None
}

/// An operation with a word on the right, if that is small.
fn if_small(operation: ImmediateOperation, word: u32) -> Option<(ImmediateOperation, u32)>
    ensures { result ≡ if_small operation word }
{
    if is_small(word) {
        Some((operation, word))
    } else {
        None
    }
}

/// A shift by the number of which a word is the power of two, if it is one.
fn power_shift(shift: ImmediateOperation, word: u32) -> Option<(ImmediateOperation, u32)>
    ensures { result ≡ option_map (λ e. (shift, e)) (power_of_two word) }
{
    match power_of_two(word) {
        Some(exponent) => Some((shift, exponent)),
        None => None,
    }
}

/// The bits below the one of a power of two, if a word is that of a number that is not too great.
fn low_bits(word: u32) -> Option<(ImmediateOperation, u32)>
    ensures { result ≡ option_map_or (if_low_power word) (power_of_two word) None }
{
    match power_of_two(word) {
        Some(exponent) => if exponent <= 11 {
            Some((ImmediateOperation::Andi, word.wrapping_sub(1)))
        } else {
            None
        },
        None => None,
    }
}

/// The operation on a register and an immediate that does what this one does with a word on the right, if there is one.
pub fn immediate_form(operation: Operation, word: u32) -> Option<(ImmediateOperation, u32)>
    ensures { result ≡ immediate_form operation word }
{
    match operation {
        Operation::Add => if_small(ImmediateOperation::Addi, word),
        Operation::Sub => if_small(ImmediateOperation::Addi, 0u32.wrapping_sub(word)),
        Operation::Mul => power_shift(ImmediateOperation::Slli, word),
        Operation::Div | Operation::Rem => None,
        Operation::Divu => power_shift(ImmediateOperation::Srli, word),
        Operation::Remu => low_bits(word),
        Operation::Sll => Some((ImmediateOperation::Slli, word % 32)),
        Operation::Srl => Some((ImmediateOperation::Srli, word % 32)),
        Operation::Sra => Some((ImmediateOperation::Srai, word % 32)),
        Operation::And => if_small(ImmediateOperation::Andi, word),
        Operation::Or => if_small(ImmediateOperation::Ori, word),
        Operation::Xor => if_small(ImmediateOperation::Xori, word),
        Operation::Slt => if_small(ImmediateOperation::Slti, word),
        Operation::Sltu => if_small(ImmediateOperation::Sltiu, word),
    }
}
