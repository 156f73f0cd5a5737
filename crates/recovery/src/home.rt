//! Where values are kept: registers, and slots of the stack.

ghost use Rattle.std.specs.Prelude.{◌≡◌, ◌+◌, ◌≤◌, ◌<◌, ◌^◌, length, slice_index};
ghost use Rattle.recovery.specs.Homes.{home_value, slot_value, word_from};

/// A home of a value, as the debugger finds it in a frame.
#[derive(Clone, Copy)]
pub enum FrameHome {
    /// A register, by its number.
    Register(u32),
    /// A slot, by its offset in the frame, in bytes.
    Slot(u32),
}

/// The byte at an index, and 0 behind the end.
fn byte_at(bytes: &[u8], index: usize) -> u32
    ensures value { result ≡ slice_index bytes.now index }
    ensures byte { result < 256 }
{
    u32::from(bytes.get(index).copied().unwrap_or(0))
}

/// The word of the four bytes from an index on, the lowest first.
fn word_from(bytes: &[u8], index: usize) -> u32
    requires { index < 2 ^ 32 }
    ensures { result ≡ word_from bytes.now index }
{
    let low = byte_at(bytes, index) + byte_at(bytes, index + 1) * 0x100;
    let high = byte_at(bytes, index + 2) * 0x1_0000 + byte_at(bytes, index + 3) * 0x100_0000;
    low + high
}

/// The word in a slot, of the stack from the frame on; 0 where the slot does not lie wholly in it.
#[tactic(auto, unfolding(crate::specs::Homes::slot_value))]
pub fn slot_value(ram: &[u8], offset: u32) -> u32
    ensures { result ≡ slot_value ram.now offset }
{
    let start = offset as usize;
    if start + 4 <= ram.len() {
        word_from(ram, start)
    } else {
        0
    }
}

/// What a home holds, of the registers and the stack from the frame on; a register above 31 reads as 0.
pub fn home_value(registers: &[u32; 32], ram: &[u8], home: FrameHome) -> u32
    ensures { result ≡ home_value registers.now ram.now home }
{
    match home {
        FrameHome::Register(number) => registers.get(number as usize).copied().unwrap_or(0),
        FrameHome::Slot(offset) => slot_value(ram, offset),
    }
}
