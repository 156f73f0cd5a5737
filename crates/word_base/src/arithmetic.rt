//! The operations of RV32IM on two words, and the range of a signed word.

ghost use Rattle.std.specs.Prelude.{◌≡◌, ◌↔◌, IsTrue};
ghost use Rattle.word_base.specs.Words.{signed_number as signed, upper_half};
ghost use Rattle.word_base.specs.Arithmetic.{added, subtracted, multiplied, multiplied_high, multiplied_high_unsigned, multiplied_high_mixed, divided, divided_unsigned, remaining, remaining_unsigned, shifted_left, shifted_right, shifted_right_signed, less, less_unsigned, IsSignedWord};

/// The sum of two words, of which the low 32 bits are kept (ADD).
pub fn add(a: u32, b: u32) -> u32
    ensures { result ≡ added a b }
{
    a.wrapping_add(b)
}

/// The difference of two words, of which the low 32 bits are kept (SUB).
pub fn sub(a: u32, b: u32) -> u32
    ensures { result ≡ subtracted a b }
{
    a.wrapping_sub(b)
}

/// The low 32 bits of the product (MUL).
pub fn mul(a: u32, b: u32) -> u32
    ensures { result ≡ multiplied a b }
{
    a.wrapping_mul(b)
}

/// The upper 32 bits of the product of two signed words (MULH).
pub fn mulh(a: u32, b: u32) -> u32
    ensures { result ≡ multiplied_high a b }
{
    upper_word(signed_number(a) * signed_number(b))
}

/// The upper 32 bits of the product of two unsigned words (MULHU).
pub fn mulhu(a: u32, b: u32) -> u32
    ensures { result ≡ multiplied_high_unsigned a b }
{
    (u64::from(a) * u64::from(b) / 4294967296) as u32
}

/// The upper 32 bits of the product of a signed word and an unsigned one (MULHSU).
pub fn mulhsu(a: u32, b: u32) -> u32
    ensures { result ≡ multiplied_high_mixed a b }
{
    upper_word(signed_number(a) * i64::from(b))
}

// The number that a word says in two's complement.
fn signed_number(a: u32) -> i64
    ensures { result ≡ signed a }
{
    i64::from(a.cast_signed())
}

// The upper 32 bits of a signed number of 64 bits.
fn upper_word(product: i64) -> u32
    ensures { result ≡ upper_half product }
{
    (product.cast_unsigned() / 4294967296) as u32
}

/// The quotient of two signed words, rounded toward zero (DIV): -1 where `b` is 0, and -2^31 for -2^31 / -1.
pub fn div_signed(a: u32, b: u32) -> u32
    ensures { result ≡ divided a b }
{
    if b == 0 {
        u32::MAX
    } else {
        a.cast_signed()
            .wrapping_div(b.cast_signed())
            .cast_unsigned()
    }
}

/// The quotient of two unsigned words, rounded down (DIVU): 2^32 - 1 where `b` is 0.
pub fn div_unsigned(a: u32, b: u32) -> u32
    ensures { result ≡ divided_unsigned a b }
{
    if b == 0 { u32::MAX } else { a / b }
}

/// The remainder of two signed words, with the sign of `a` (REM): `a` where `b` is 0, and 0 for -2^31 and -1.
pub fn rem_signed(a: u32, b: u32) -> u32
    ensures { result ≡ remaining a b }
{
    if b == 0 {
        a
    } else {
        a.cast_signed()
            .wrapping_rem(b.cast_signed())
            .cast_unsigned()
    }
}

/// The remainder of two unsigned words (REMU): `a` where `b` is 0.
pub fn rem_unsigned(a: u32, b: u32) -> u32
    ensures { result ≡ remaining_unsigned a b }
{
    if b == 0 { a } else { a % b }
}

/// `a` shifted left by the low five bits of `b` (SLL).
pub fn sll(a: u32, b: u32) -> u32
    ensures { result ≡ shifted_left a b }
{
    a << (b % 32)
}

/// `a` shifted right by the low five bits of `b`, zeros coming in (SRL).
pub fn srl(a: u32, b: u32) -> u32
    ensures { result ≡ shifted_right a b }
{
    a >> (b % 32)
}

/// `a` shifted right by the low five bits of `b`, copies of its sign coming in (SRA).
pub fn sra(a: u32, b: u32) -> u32
    ensures { result ≡ shifted_right_signed a b }
{
    (a.cast_signed() >> (b % 32)).cast_unsigned()
}

/// 1 where `a` is less than `b` as signed numbers, and else 0 (SLT).
pub fn slt(a: u32, b: u32) -> u32
    ensures { result ≡ less a b }
{
    u32::from(a.cast_signed() < b.cast_signed())
}

/// 1 where `a` is less than `b` as unsigned numbers, and else 0 (SLTU).
pub fn sltu(a: u32, b: u32) -> u32
    ensures { result ≡ less_unsigned a b }
{
    u32::from(a < b)
}

/// Whether a number lies in the range of a signed word, -2^31 to 2^31 - 1.
pub fn fits_i32(value: i64) -> bool
    ensures { IsTrue result ↔ IsSignedWord value }
{
    value >= -2147483648 && value <= 2147483647
}
