//! Integer types: their ranges, promotions and conversions (ISO/IEC 9899:2011, 6.2.5 and 6.3.1).

ghost use Rattle.std.specs.Prelude.{◌≡◌, ◌<◌, ◌≤◌, ◌^◌};
ghost use Rattle.word_base.specs.Types.{bits_of, greatest, least_number, number_of_bits};
ghost use Rattle.c_type_rules.specs.Integers.{common, fits, integer, is_signed, joined, promoted, rank, residue, room, object_size, scalar_size, integer_size as size, unsigned_of, wrapped};

use c_tree::{IntegerType, ObjectType, Scalar};

/// Whether a type has negative numbers. `char` has none.
pub fn is_signed(of: IntegerType) -> bool
    ensures { result ≡ is_signed of }
{
    matches!(
        of,
        IntegerType::SignedChar | IntegerType::Short | IntegerType::Int | IntegerType::Long
    )
}

/// How many bits a type has.
pub fn bits(of: IntegerType) -> u32
    ensures number { result ≡ (integer of).width }
    ensures bounded { result ≤ 32 }
{
    8 * size(of)
}

/// How many bytes a type has.
pub fn size(of: IntegerType) -> u32
    ensures bytes { result ≡ size of }
    ensures bounded { result ≤ 4 }
{
    match of {
        IntegerType::Char | IntegerType::SignedChar | IntegerType::UnsignedChar => 1,
        IntegerType::Short | IntegerType::UnsignedShort => 2,
        IntegerType::Int
        | IntegerType::UnsignedInt
        | IntegerType::Long
        | IntegerType::UnsignedLong => 4,
    }
}

/// How many numbers a type has.
fn modulus(of: IntegerType) -> u64
    ensures number { result ≡ 2 ^ (integer of).width }
    ensures positive { 0 < result }
    ensures bounded { result ≤ 4294967296 }
{
    match of {
        IntegerType::Char | IntegerType::SignedChar | IntegerType::UnsignedChar => 256,
        IntegerType::Short | IntegerType::UnsignedShort => 65536,
        IntegerType::Int
        | IntegerType::UnsignedInt
        | IntegerType::Long
        | IntegerType::UnsignedLong => 4294967296,
    }
}

/// The least number of a type.
fn lowest(of: IntegerType) -> i64
    ensures { result ≡ least_number (integer of) }
{
    match of {
        IntegerType::SignedChar => -128,
        IntegerType::Short => -32768,
        IntegerType::Int | IntegerType::Long => -2147483648,
        _ => 0,
    }
}

/// The greatest number of a type.
fn highest(of: IntegerType) -> i64
    ensures { result ≡ greatest (integer of) }
{
    match of {
        IntegerType::SignedChar => 127,
        IntegerType::Char | IntegerType::UnsignedChar => 255,
        IntegerType::Short => 32767,
        IntegerType::UnsignedShort => 65535,
        IntegerType::Int | IntegerType::Long => 2147483647,
        IntegerType::UnsignedInt | IntegerType::UnsignedLong => 4294967295,
    }
}

/// Whether a number is one of a type's.
pub fn fits(of: IntegerType, number: i128) -> bool
    ensures { result ≡ fits of number }
{
    i128::from(lowest(of)) <= number && number <= i128::from(highest(of))
}

/// The residue of a number, from 0 to below the modulus.
#[tactic(auto, using(crate::proofs::Numbers::remainder_is_modulo), unfolding(crate::specs::Integers::residue))]
pub fn residue(number: i128, modulus: u64) -> u64
    requires positive { 0 < modulus }
    requires bounded { modulus ≤ 4294967296 }
    ensures value { result ≡ residue number modulus }
    ensures below { result < modulus }
{
    number.rem_euclid(i128::from(modulus)) as u64
}

/// The bits of a number in a type, in two's complement.
#[tactic(auto, unfolding(crate::specs::Integers::residue))]
pub fn bits_of(of: IntegerType, number: i128) -> u32
    ensures { result ≡ bits_of (integer of) number }
{
    residue(number, modulus(of)) as u32
}

/// The number of a type that has these bits.
pub fn number_of(of: IntegerType, bits: u32) -> i64
    ensures { result ≡ number_of_bits (integer of) bits }
{
    if is_signed(of) && modulus(of) <= 2 * u64::from(bits) {
        return i64::from(bits) - modulus(of) as i64;
    }
    i64::from(bits)
}

/// A number converted to a type: the one of the type's numbers that differs from it by a multiple of how many there are
/// (6.3.1.3).
pub fn wrapped(of: IntegerType, number: i128) -> i64
    ensures { result ≡ wrapped of number }
{
    number_of(of, bits_of(of, number))
}

/// The rank of a type (6.3.1.1).
fn rank(of: IntegerType) -> u8
    ensures { result ≡ rank of }
{
    match of {
        IntegerType::Char | IntegerType::SignedChar | IntegerType::UnsignedChar => 1,
        IntegerType::Short | IntegerType::UnsignedShort => 2,
        IntegerType::Int | IntegerType::UnsignedInt => 3,
        IntegerType::Long | IntegerType::UnsignedLong => 4,
    }
}

/// The type after the integer promotions: `int` where the rank is less than that of `int`, which holds all values of
/// such a type (6.3.1.1).
pub fn promoted(of: IntegerType) -> IntegerType
    ensures { result ≡ promoted of }
{
    if rank(of) < 3 { IntegerType::Int } else { of }
}

/// The unsigned type of the same rank.
fn unsigned_of(of: IntegerType) -> IntegerType
    ensures { result ≡ unsigned_of of }
{
    match of {
        IntegerType::Char | IntegerType::SignedChar | IntegerType::UnsignedChar =>
            IntegerType::UnsignedChar,
        IntegerType::Short | IntegerType::UnsignedShort => IntegerType::UnsignedShort,
        IntegerType::Int | IntegerType::UnsignedInt => IntegerType::UnsignedInt,
        IntegerType::Long | IntegerType::UnsignedLong => IntegerType::UnsignedLong,
    }
}

/// The common type of two promoted operands, the first of which is of no lesser rank: that one's own where both are
/// signed or both unsigned, or where it is unsigned; else, where the other is unsigned and thus beyond what the first
/// can hold, the unsigned one of the first's rank.
fn joined(greater: IntegerType, lesser: IntegerType) -> IntegerType
    ensures { result ≡ joined greater lesser }
{
    if is_signed(greater) && !is_signed(lesser) {
        unsigned_of(greater)
    } else {
        greater
    }
}

/// The type that the usual arithmetic conversions give two operands (6.3.1.8).
pub fn common(left: IntegerType, right: IntegerType) -> IntegerType
    ensures { result ≡ common left right }
{
    let left = promoted(left);
    let right = promoted(right);
    if rank(left) < rank(right) {
        joined(right, left)
    } else {
        joined(left, right)
    }
}

/// How many bytes an object of a scalar type has.
pub fn scalar_size(of: Scalar) -> u32
    ensures bytes { result ≡ scalar_size of }
    ensures bounded { result ≤ 4 }
{
    if of.stars == 0 { size(of.base) } else { 4 }
}

/// How many bytes an object of a type has.
pub fn object_size(of: ObjectType) -> u64
    ensures bytes { result ≡ object_size of }
    ensures bounded { result < 2 ^ 35 }
{
    match of {
        ObjectType::Scalar(scalar) => u64::from(scalar_size(scalar)),
        ObjectType::Array { element, count } => u64::from(scalar_size(element)) * u64::from(count),
    }
}

/// How many bytes an object takes where it stands: its size, rounded up to whole words, and a word behind it.
pub fn room(size: u64) -> u64
    requires { size < 2 ^ 62 }
    ensures { result ≡ room size }
{
    (size + 3) / 4 * 4 + 4
}
