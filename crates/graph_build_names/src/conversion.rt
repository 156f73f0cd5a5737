//! Conversions of integers as words (ISO/IEC 9899:2011, 6.3.1.3).

ghost use Rattle.std.specs.Prelude.{◌≡◌};
ghost use Rattle.word_base.specs.Types.{greatest, least_number};
ghost use Rattle.c_type_rules.specs.Integers.{integer};
ghost use Rattle.graph_core.specs.Graphs.{operand_view};
ghost use Rattle.graph_build_names.specs.Conversions.{is_kept_constant, is_narrow, is_within, keeps_bits, unsigned_bits};

use c_tree::IntegerType;
use c_type_rules::{residue, wrapped};
use graph_core::Operand;

/// The word of a number: its lowest 32 bits in two's complement.
#[tactic(auto, unfolding(c_type_rules::specs::Integers::residue))]
pub fn word_of(number: i64) -> u32
    ensures { result ≡ unsigned_bits number }
{
    residue(i128::from(number), 4294967296) as u32
}

/// Whether a type has less than 32 bits.
pub fn is_narrow(of: IntegerType) -> bool
    ensures { result ≡ is_narrow of }
{
    matches!(
        of,
        IntegerType::Char
            | IntegerType::SignedChar
            | IntegerType::UnsignedChar
            | IntegerType::Short
            | IntegerType::UnsignedShort
    )
}

/// The least number of a type.
fn lowest(of: IntegerType) -> i64
    ensures { result ≡ least_number (integer of) }
{
    match of {
        IntegerType::SignedChar => -128,
        IntegerType::Short => -32768,
        IntegerType::Int | IntegerType::Long => -2147483648,
        _ => 0,
    }
}

/// The greatest number of a type.
fn highest(of: IntegerType) -> i64
    ensures { result ≡ greatest (integer of) }
{
    match of {
        IntegerType::SignedChar => 127,
        IntegerType::Char | IntegerType::UnsignedChar => 255,
        IntegerType::Short => 32767,
        IntegerType::UnsignedShort => 65535,
        IntegerType::Int | IntegerType::Long => 2147483647,
        IntegerType::UnsignedInt | IntegerType::UnsignedLong => 4294967295,
    }
}

/// Whether each number of a type is one of another.
fn is_within(one: IntegerType, other: IntegerType) -> bool
    ensures { result ≡ is_within one other }
{
    lowest(other) <= lowest(one) && highest(one) <= highest(other)
}

/// Whether a conversion changes the word of no number of a type.
pub fn keeps_bits(from: IntegerType, to: IntegerType) -> bool
    ensures { result ≡ keeps_bits from to }
{
    !is_narrow(to) || is_within(from, to)
}

/// Whether an operand is a constant whose word a conversion does not change.
pub fn is_kept_constant(to: IntegerType, operand: Operand) -> bool
    ensures { result ≡ is_kept_constant to (operand_view operand) }
{
    match operand {
        Operand::Constant(word) => word_of(wrapped(to, i128::from(word))) == word,
        _ => false,
    }
}
