//! What instructions compute of names and constants alone.

ghost use Rattle.std.specs.Prelude.{◌≡◌, option_map};
ghost use Rattle.graph_core.specs.Graphs.{instruction_view, operand_view};
ghost use Rattle.graph_core.specs.Computations.{computed_by};
ghost use Rattle.motion_pass_points.specs.Computing.{key_of, operand_key, operation_number, truncation_number};
ghost use Rattle.motion_pass_points.specs.MotionPointsComputing.{computation_view, doing};

use graph_core::{Instr, Name, Operand};
use word_base::{Operation, Truncation};

/// What an instruction computes of names and constants alone: no load, no store, no call.
#[derive(Clone, Copy)]
pub enum Computation {
    /// What an operation makes of two values.
    Operated {
        operation: Operation,
        left: Operand,
        right: Operand,
    },
    /// What a truncation leaves of a value.
    Truncated {
        truncation: Truncation,
        from: Operand,
    },
    /// Whether two pointers are equal.
    Compared {
        left: Operand,
        right: Operand,
    },
}

/// A computation as numbers: two have equal keys exactly where their operations and operands are equal in order.
pub(crate) type Key = (u32, ((u32, (u32, u32)), (u32, (u32, u32))));

/// An operand as numbers.
fn operand_numbers(operand: Operand) -> (u32, (u32, u32))
    ensures { result ≡ operand_key (operand_view operand) }
{
    match operand {
        Operand::Name(name) => (0, (name.0, 0)),
        Operand::Constant(word) => (1, (word, 0)),
        Operand::StaticAddress { object, offset } => (2, (object, offset)),
    }
}

fn number_of_operation(operation: Operation) -> u32
    ensures { result ≡ operation_number operation }
{
    match operation {
        Operation::Add => 0,
        Operation::Sub => 1,
        Operation::Mul => 2,
        Operation::Div => 3,
        Operation::Divu => 4,
        Operation::Rem => 5,
        Operation::Remu => 6,
        Operation::Sll => 7,
        Operation::Srl => 8,
        Operation::Sra => 9,
        Operation::And => 10,
        Operation::Or => 11,
        Operation::Xor => 12,
        Operation::Slt => 13,
        Operation::Sltu => 14,
    }
}

/// The number of a truncation, behind those of operations.
fn number_of_truncation(truncation: Truncation) -> u32
    ensures { result ≡ truncation_number truncation }
{
    match truncation {
        Truncation::Unsigned8 => 15,
        Truncation::Signed16 => 16,
        Truncation::Unsigned16 => 17,
        Truncation::Signed8 => 18,
    }
}

impl Computation {
    /// The computation of an instruction, if it is one.
    pub fn of(instruction: &Instr) -> Option<Computation>
        ensures { option_map computation_view result ≡ computed_by (instruction_view instruction.now) }
    {
        match *instruction {
            Instr::Operate {
                operation,
                left,
                right,
                ..
            } => Some(Computation::Operated {
                operation,
                left,
                right,
            }),
            Instr::Truncate {
                truncation,
                from,
                ..
            } => Some(Computation::Truncated { truncation, from }),
            Instr::Same { left, right, .. } => Some(Computation::Compared { left, right }),
            _ => None,
        }
    }

    /// The instruction that does the computation into a name.
    pub fn into_name(self, target: Name) -> Instr
        ensures { instruction_view result ≡ doing target.0 (computation_view self) }
    {
        match self {
            Computation::Operated {
                operation,
                left,
                right,
            } => Instr::Operate {
                target,
                operation,
                left,
                right,
            },
            Computation::Truncated { truncation, from } => Instr::Truncate {
                target,
                truncation,
                from,
            },
            Computation::Compared { left, right } => Instr::Same {
                target,
                left,
                right,
            },
        }
    }

    /// The computation as numbers.
    pub(crate) fn key(self) -> Key
        ensures { result ≡ key_of (computation_view self) }
    {
        match self {
            Computation::Operated {
                operation,
                left,
                right,
            } => (
                number_of_operation(operation),
                (operand_numbers(left), operand_numbers(right)),
            ),
            Computation::Truncated { truncation, from } => (
                number_of_truncation(truncation),
                (operand_numbers(from), operand_numbers(from)),
            ),
            Computation::Compared { left, right } => {
                (19, (operand_numbers(left), operand_numbers(right)))
            }
        }
    }
}
