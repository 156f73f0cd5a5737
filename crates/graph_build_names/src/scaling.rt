//! Indices of elements as distances in bytes.

ghost use Rattle.std.specs.Prelude.{◌≡◌, ◌+◌, ◌*◌, ◌^◌, ◌≤◌, ◌<◌, pos};
ghost use Rattle.word_base.specs.Types.{bits_of, unsigned_type};
ghost use Rattle.graph_core.specs.Graphs.{operand_view};
ghost use Rattle.graph_build_names.specs.Scales.{is_scaled, scaled, shift_from, shift_of};

use graph_core::{Name, Operand};

/// From a number of bits on, by how many of the next so many a size is a shift.
fn shift_from(left: u32, bits: u32, size: u64) -> Option<u32>
    requires { left + bits ≤ 32 }
    ensures { result ≡ shift_from left bits size }
{
    if left == 0 {
        None
    } else if 1u64 << bits == size {
        Some(bits)
    } else {
        shift_from(left - 1, bits + 1, size)
    }
}

/// By how many bits a size is a shift, if it is a power of 2 below 2^32.
pub fn shift_of(size: u64) -> Option<u32>
    ensures { result ≡ shift_of size }
{
    shift_from(32, 0, size)
}

/// Whether an index is scaled by an instruction: one that is no constant, of elements of more than one byte.
pub fn is_scaled(size: u64, index: Operand) -> bool
    ensures { result ≡ is_scaled size (operand_view index) }
{
    match index {
        Operand::Constant(_) => false,
        _ => size != 1,
    }
}

/// The lower word of a product.
fn product(word: u32, size: u64) -> u32
    ensures { result ≡ bits_of unsigned_type (pos (word * size)) }
{
    (u128::from(word) * u128::from(size) % 4294967296) as u32
}

/// Where an index times a size stands: in a constant, in the index itself, or in a name that an instruction writes.
pub fn scaled(size: u64, index: Operand, name: u32) -> Operand
    ensures { operand_view result ≡ scaled size (operand_view index) name }
{
    match index {
        Operand::Constant(word) => Operand::Constant(product(word, size)),
        _ if size == 1 => index,
        _ => Operand::Name(Name(name)),
    }
}
