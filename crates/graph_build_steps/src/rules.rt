//! Which elements, truncations and operations of units the types and operators of C are.

ghost use Rattle.std.specs.Prelude.{◌≡◌};
ghost use Rattle.graph_build_steps.specs.Rules.{callee_for, element_of, integer_element, less_by, move_by, operation_for, steps_by, truncation_to};
ghost use Rattle.c_type_rules.specs.Integers.{integer};

use c_tree::{Arithmetic, Callee as SourceCallee, Direction, IntegerType, Scalar};
use graph_core::{Callee, Element};
use word_base::{Operation, Truncation};

/// Whether an integer type has negative numbers.
pub fn is_signed(of: IntegerType) -> bool
    ensures { result ≡ (integer of).is_signed }
{
    matches!(
        of,
        IntegerType::SignedChar | IntegerType::Short | IntegerType::Int | IntegerType::Long
    )
}

/// What an element of memory is that holds numbers of an integer type.
pub fn integer_element(of: IntegerType) -> Element
    ensures { result ≡ integer_element of }
{
    match of {
        IntegerType::Char | IntegerType::UnsignedChar => Element::Unsigned8,
        IntegerType::SignedChar => Element::Signed8,
        IntegerType::UnsignedShort => Element::Unsigned16,
        IntegerType::Short => Element::Signed16,
        _ => Element::Word,
    }
}

/// What an element of memory is that holds values of a scalar type.
pub fn element_of(scalar: Scalar) -> Element
    ensures { result ≡ element_of scalar }
{
    if scalar.stars == 0 {
        integer_element(scalar.base)
    } else {
        Element::Word
    }
}

/// How a value becomes one of a narrow type.
pub fn truncation_to(of: IntegerType) -> Truncation
    ensures { result ≡ truncation_to of }
{
    match of {
        IntegerType::Char | IntegerType::UnsignedChar => Truncation::Unsigned8,
        IntegerType::SignedChar => Truncation::Signed8,
        IntegerType::Short | IntegerType::Int | IntegerType::Long => Truncation::Signed16,
        _ => Truncation::Unsigned16,
    }
}

/// The machine's operation for an operator in a type.
pub fn operation_for(operator: Arithmetic, of: IntegerType) -> Operation
    ensures { result ≡ operation_for operator of }
{
    match operator {
        Arithmetic::Multiply => Operation::Mul,
        Arithmetic::Divide => if is_signed(of) {
            Operation::Div
        } else {
            Operation::Divu
        },
        Arithmetic::Remainder => if is_signed(of) {
            Operation::Rem
        } else {
            Operation::Remu
        },
        Arithmetic::Add => Operation::Add,
        Arithmetic::Subtract => Operation::Sub,
        Arithmetic::ShiftLeft => Operation::Sll,
        Arithmetic::ShiftRight => if is_signed(of) {
            Operation::Sra
        } else {
            Operation::Srl
        },
        Arithmetic::BitAnd => Operation::And,
        Arithmetic::BitXor => Operation::Xor,
        Arithmetic::BitOr => Operation::Or,
    }
}

/// The operation that moves a pointer up or down.
pub fn move_by(direction: Direction) -> Operation
    ensures { result ≡ move_by direction }
{
    match direction {
        Direction::Up => Operation::Add,
        Direction::Down => Operation::Sub,
    }
}

/// The operator of `++` or `--`.
pub fn steps_by(direction: Direction) -> Arithmetic
    ensures { result ≡ steps_by direction }
{
    match direction {
        Direction::Up => Arithmetic::Add,
        Direction::Down => Arithmetic::Subtract,
    }
}

/// The operation that tells whether a number is less.
pub fn less_by(signed: bool) -> Operation
    ensures { result ≡ less_by signed }
{
    if signed {
        Operation::Slt
    } else {
        Operation::Sltu
    }
}

/// What a call of a unit calls.
pub fn callee_for(callee: SourceCallee) -> Callee
    ensures { result ≡ callee_for callee }
{
    match callee {
        SourceCallee::Function(number) => Callee::Function(number),
        SourceCallee::Getchar => Callee::Getchar,
        SourceCallee::Putchar => Callee::Putchar,
        SourceCallee::Exit => Callee::Exit,
    }
}
