//! Integer constants (6.4.4.1).

ghost use Rattle.std.specs.Prelude.{◌≡◌, ◌≤◌, ◌<◌, ◌==◌, length, slice_index, IsTrue, nat_lt, if◌then◌else◌, None, Some, IfOk};
ghost use Rattle.std.specs.List.{prefix_len};
ghost use Rattle.c_token.specs.Constants.{constant_at, constant_in, constant_of, digit_value, is_digit_in, is_l, is_number_byte, is_u, suffix_of, typed_constant, value_of};

use crate::bytes::{is_word_byte, stands};
use crate::fault::Fault;
use crate::token::Constant;
use debug_records::Code;

/// What a digit stands for; 99 where the byte is none.
#[tactic(auto, unfolding(crate::specs::Constants::digit_value))]
fn digit_value(byte: u8) -> u32
    ensures value { result ≡ digit_value byte }
    ensures small { result < 100 }
{
    match byte {
        b'0'..=b'9' => (byte - b'0') as u32,
        b'a'..=b'f' => (byte - b'a') as u32 + 10,
        b'A'..=b'F' => (byte - b'A') as u32 + 10,
        _ => 99,
    }
}

/// How many digits of the base stand at the front.
pub fn digits_len(base: u32, text: &[u8]) -> usize
    ensures len { result ≡ prefix_len (is_digit_in base) text.now }
    ensures within { result ≤ length text.now }
{
    for (i, byte) in text.iter().enumerate() {
        if digit_value(*byte) >= base {
            return i;
        }
    }
    text.len()
}

/// The number that the digits spell, if it has at most 32 bits.
pub fn value_in(base: u32, digits: &[u8]) -> Option<u32>
    requires low { 1 ≤ base }
    requires high { base ≤ 16 }
    ensures { result ≡ (if nat_lt 4294967295 (value_of base digits.now)
        then None else Some (value_of base digits.now)) }
{
    let mut value: u64 = 0;
    for byte in digits {
        value = value * base as u64 + digit_value(*byte) as u64;
        if value > 0xffff_ffff {
            return None;
        }
    }
    Some(value as u32)
}

#[tactic(auto, unfolding(crate::specs::Constants::is_u))]
fn is_u(byte: u8) -> bool
    ensures { result ≡ is_u byte }
{
    byte == b'u' || byte == b'U'
}

#[tactic(auto, unfolding(crate::specs::Constants::is_l))]
fn is_l(byte: u8) -> bool
    ensures { result ≡ is_l byte }
{
    byte == b'l' || byte == b'L'
}

/// Whether a suffix says unsigned, and whether it says long.
#[tactic(auto, unfolding(crate::specs::Constants::suffix_of))]
fn suffix_of(word: &[u8]) -> Option<(bool, bool)>
    ensures { result ≡ suffix_of word.now }
{
    match word {
        [] => Some((false, false)),
        [a] => {
            if is_u(*a) {
                Some((true, false))
            } else if is_l(*a) {
                Some((false, true))
            } else {
                None
            }
        }
        [a, b] => {
            if (is_u(*a) && is_l(*b)) || (is_l(*a) && is_u(*b)) {
                Some((true, true))
            } else {
                None
            }
        }
        _ => None,
    }
}

/// The constant of a value and a suffix: a decimal one without a `u` has to be an `int`.
#[tactic(auto, unfolding(crate::specs::Constants::typed_constant))]
fn typed(is_decimal: bool, value: u32, suffix: (bool, bool)) -> Option<Constant>
    ensures { result ≡ typed_constant is_decimal value suffix }
{
    let (says_unsigned, is_long) = suffix;
    let is_large = value > 0x7fff_ffff;
    if is_decimal && is_large && !says_unsigned {
        return None;
    }
    Some(Constant {
        value,
        is_unsigned: says_unsigned || is_large,
        is_long,
    })
}

/// The constant that digits of the base and a suffix spell.
#[tactic(auto, unfolding(crate::specs::Constants::constant_in))]
fn constant_in(base: u32, word: &[u8]) -> Option<Constant>
    requires low { 1 ≤ base }
    requires high { base ≤ 16 }
    ensures { result ≡ constant_in base word.now }
{
    let size = digits_len(base, word);
    if size == 0 {
        return None;
    }
    let (digits, rest) = word.split_at(size);
    let value = value_in(base, digits)?;
    let suffix = suffix_of(rest)?;
    typed(base == 10, value, suffix)
}

/// The constant that a word is: hexadecimal behind `0x`, octal behind another `0`, else decimal.
#[tactic(auto, unfolding(crate::specs::Constants::constant_of))]
fn constant_of(word: &[u8]) -> Option<Constant>
    ensures { result ≡ constant_of word.now }
{
    if stands(word, 0, b"0x") || stands(word, 0, b"0X") {
        constant_in(16, &word[2..])
    } else if stands(word, 0, b"0") {
        constant_in(8, word)
    } else {
        constant_in(10, word)
    }
}

/// A byte of a constant, right or wrong: a letter, a digit or a point.
#[tactic(auto, unfolding(crate::specs::Constants::is_number_byte))]
fn is_number_byte(byte: u8) -> bool
    ensures { result ≡ is_number_byte byte }
{
    is_word_byte(byte) || byte == b'.'
}

/// How many bytes of a constant stand at the front.
fn number_len(text: &[u8]) -> usize
    ensures len { result ≡ prefix_len is_number_byte text.now }
    ensures within { result ≤ length text.now }
{
    for (i, byte) in text.iter().enumerate() {
        if !is_number_byte(*byte) {
            return i;
        }
    }
    text.len()
}

/// The constant at an offset, and where it ends.
#[tactic(auto, unfolding(crate::specs::Constants::constant_at))]
pub fn constant_at(text: &[u8], at: usize) -> Result<(Constant, usize), Fault>
    requires inside { at < length text.now }
    requires number { IsTrue (is_number_byte (slice_index text.now at)) }
    ensures exact { result ≡ constant_at text.now at }
    ensures within { IfOk result (λ x. (at < x.1) × (x.1 ≤ length text.now)) }
{
    let rest = &text[at..];
    let size = number_len(rest);
    match constant_of(&rest[..size]) {
        Some(constant) => Ok((constant, at + size)),
        None => Err(Fault {
            code: Code::MALFORMED_CONSTANT,
            at,
        }),
    }
}
