//! The regions of memory, and loads and stores in a list of bytes.

ghost use Rattle.std.specs.Prelude.{◌≡◌, ◌+◌, ◌≤◌, ◌<◌, ◌*◌, ◌/◌, ◌%◌, length, slice_index};
ghost use Rattle.rv_machine.specs.Memory.{half_in, word_in, with_half, with_word, bytes_of_words};
ghost use Rattle.rv_machine.specs.Table.{load_size, store_size, signed_byte, signed_half, loaded_from, stored_in};

use rv_code::{LoadOperation, StoreOperation};

/// The words whose upper 24 bits, or upper 16 bits, are 1 and the others 0.
const UPPER_24_BITS: u32 = 0xffffff00;

const UPPER_16_BITS: u32 = 0xffff0000;

/// How many bytes a load reads.
pub fn size_of_load(operation: LoadOperation) -> u32
    ensures value { result ≡ load_size operation }
    ensures positive { 0 < result }
{
    match operation {
        LoadOperation::Lb | LoadOperation::Lbu => 1,
        LoadOperation::Lh | LoadOperation::Lhu => 2,
        LoadOperation::Lw => 4,
    }
}

/// How many bytes a store writes.
pub fn size_of_store(operation: StoreOperation) -> u32
    ensures value { result ≡ store_size operation }
    ensures positive { 0 < result }
{
    match operation {
        StoreOperation::Sb => 1,
        StoreOperation::Sh => 2,
        StoreOperation::Sw => 4,
    }
}

/// What a load gets from bytes, at an offset.
#[tactic(auto, unfolding(crate::specs::Table::loaded_from))]
pub fn load_from(operation: LoadOperation, bytes: &[u8], offset: usize) -> u32
    requires { offset + load_size operation ≤ length bytes.now }
    ensures { result ≡ loaded_from operation bytes.now offset }
{
    match operation {
        LoadOperation::Lb => sign_extended_byte(bytes[offset]),
        LoadOperation::Lh => sign_extended_half(half_at(bytes, offset)),
        LoadOperation::Lw => word_at(bytes, offset),
        LoadOperation::Lbu => u32::from(bytes[offset]),
        LoadOperation::Lhu => u32::from(half_at(bytes, offset)),
    }
}

/// Writes a value at an offset of bytes: as many of its low bytes as the store has.
#[tactic(auto, unfolding(crate::specs::Table::stored_in))]
pub fn store_in(operation: StoreOperation, bytes: &mut [u8], offset: usize, value: u32)
    requires { offset + store_size operation ≤ length bytes.old }
    ensures { bytes.new ≡ stored_in operation bytes.old offset value }
{
    match operation {
        StoreOperation::Sb => bytes[offset] = (value % 256) as u8,
        StoreOperation::Sh => put_half(bytes, offset, value),
        StoreOperation::Sw => put_word(bytes, offset, value),
    }
}

#[tactic(auto, unfolding(crate::specs::Memory::half_in))]
fn half_at(bytes: &[u8], offset: usize) -> u16
    requires { offset + 2 ≤ length bytes.now }
    ensures { result ≡ half_in bytes.now offset }
{
    u16::from(bytes[offset]) + u16::from(bytes[offset + 1]) * 256
}

/// The word of the four bytes from an offset on.
#[tactic(auto, unfolding(crate::specs::Memory::word_in))]
pub fn word_at(bytes: &[u8], offset: usize) -> u32
    requires { offset + 4 ≤ length bytes.now }
    ensures { result ≡ word_in bytes.now offset }
{
    u32::from(bytes[offset])
        + u32::from(bytes[offset + 1]) * 256
        + u32::from(bytes[offset + 2]) * 65536
        + u32::from(bytes[offset + 3]) * 16777216
}

#[tactic(auto, unfolding(crate::specs::Memory::with_half))]
fn put_half(bytes: &mut [u8], offset: usize, value: u32)
    requires { offset + 2 ≤ length bytes.old }
    ensures { bytes.new ≡ with_half bytes.old offset value }
{
    bytes[offset] = (value % 256) as u8;
    bytes[offset + 1] = (value / 256 % 256) as u8;
}

#[tactic(auto, unfolding(crate::specs::Memory::with_word))]
fn put_word(bytes: &mut [u8], offset: usize, value: u32)
    requires { offset + 4 ≤ length bytes.old }
    ensures { bytes.new ≡ with_word bytes.old offset value }
{
    bytes[offset] = (value % 256) as u8;
    bytes[offset + 1] = (value / 256 % 256) as u8;
    bytes[offset + 2] = (value / 65536 % 256) as u8;
    bytes[offset + 3] = (value / 16777216 % 256) as u8;
}

/// What a load gets from the bytes of words of code, at an offset.
#[tactic(auto, unfolding(crate::specs::Table::loaded_from))]
pub fn load_from_code(operation: LoadOperation, code: &[u32], offset: usize) -> u32
    requires within { offset < 4 * length code.now }
    requires aligned { offset % load_size operation ≡ 0 }
    ensures { result ≡ loaded_from operation (bytes_of_words code.now) offset }
{
    match operation {
        LoadOperation::Lb => sign_extended_byte(byte_of_code(code, offset)),
        LoadOperation::Lh => sign_extended_half(half_of_code(code, offset)),
        LoadOperation::Lw => word_of_code(code, offset),
        LoadOperation::Lbu => u32::from(byte_of_code(code, offset)),
        LoadOperation::Lhu => u32::from(half_of_code(code, offset)),
    }
}

/// The byte of code at an offset.
#[tactic(auto, using(crate::proofs::CodeBytes::byte_0, crate::proofs::CodeBytes::byte_1, crate::proofs::CodeBytes::byte_2, crate::proofs::CodeBytes::byte_3))]
pub fn byte_of_code(code: &[u32], offset: usize) -> u8
    requires { offset < 4 * length code.now }
    ensures { result ≡ slice_index (bytes_of_words code.now) offset }
{
    let word = code[offset / 4];
    match offset % 4 {
        0 => (word % 256) as u8,
        1 => (word / 256 % 256) as u8,
        2 => (word / 65536 % 256) as u8,
        _ => (word / 16777216) as u8,
    }
}

#[tactic(auto, using(crate::proofs::CodeBytes::low_half, crate::proofs::CodeBytes::high_half))]
fn half_of_code(code: &[u32], offset: usize) -> u16
    requires within { offset < 4 * length code.now }
    requires aligned { offset % 2 ≡ 0 }
    ensures { result ≡ half_in (bytes_of_words code.now) offset }
{
    let word = code[offset / 4];
    if offset % 4 == 0 {
        (word % 65536) as u16
    } else {
        (word / 65536) as u16
    }
}

#[tactic(auto, using(crate::proofs::CodeBytes::word_is))]
fn word_of_code(code: &[u32], offset: usize) -> u32
    requires within { offset < 4 * length code.now }
    requires aligned { offset % 4 ≡ 0 }
    ensures { result ≡ word_in (bytes_of_words code.now) offset }
{
    code[offset / 4]
}

fn sign_extended_byte(byte: u8) -> u32
    ensures { result ≡ signed_byte byte }
{
    if byte < 128 {
        u32::from(byte)
    } else {
        u32::from(byte) + UPPER_24_BITS
    }
}

fn sign_extended_half(half: u16) -> u32
    ensures { result ≡ signed_half half }
{
    if half < 32768 {
        u32::from(half)
    } else {
        u32::from(half) + UPPER_16_BITS
    }
}
