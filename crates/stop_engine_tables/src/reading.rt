//! What is read of the machine where a session stands.

ghost use Rattle.std.specs.Prelude.{◌≡◌, ◌<◌, ◌^◌, slice_index};
ghost use Rattle.rv_machine.specs.Memory.{word_in};
ghost use Rattle.rv_machine.specs.State.{reg};
ghost use Rattle.stop_engine_view.specs.Reading.{depth, slot_word};

use rv_machine::Machine;

/// How many activations may be live.
const ACTIVATIONS: u32 = 1024;

/// The register that holds the address of the innermost activation's frame.
const STACK_POINTER: usize = 2;

/// The register that counts how many activations may still begin.
const THREAD_POINTER: usize = 4;

/// The depth of the innermost activation, 1 for the first of main.
pub fn depth(machine: &Machine) -> u32
    ensures { result ≡ depth machine.now }
{
    ACTIVATIONS.wrapping_sub(machine.registers()[THREAD_POINTER])
}

/// The address at which the frame of the innermost activation starts.
pub fn stack_pointer(machine: &Machine) -> u32
    ensures { result ≡ reg machine.now 2 }
{
    machine.registers()[STACK_POINTER]
}

/// The byte at an index, and 0 behind the end.
fn byte_at(bytes: &[u8], index: usize) -> u32
    ensures value { result ≡ slice_index bytes.now index }
    ensures byte { result < 256 }
{
    u32::from(bytes.get(index).copied().unwrap_or(0))
}

/// The word of the four bytes from an index on, the lowest first.
#[tactic(auto, unfolding(rv_machine::specs::Memory::word_in))]
pub fn word_in(bytes: &[u8], index: usize) -> u32
    requires { index < 2 ^ 32 }
    ensures { result ≡ word_in bytes.now index }
{
    let low = byte_at(bytes, index) + byte_at(bytes, index + 1) * 0x100;
    let high = byte_at(bytes, index + 2) * 0x1_0000 + byte_at(bytes, index + 3) * 0x100_0000;
    low + high
}

/// The word in a slot of the innermost activation, at an offset in its frame; 0 where it does not lie wholly in the
/// stack.
#[tactic(auto, using(crate::proofs::Slots::word_in_rest), unfolding(rv_machine::specs::Reading::stack_rest))]
pub fn slot_word(machine: &Machine, offset: u32) -> u32
    ensures { result ≡ slot_word machine.now offset }
{
    let regions = machine.regions();
    let frame = machine.registers()[STACK_POINTER];
    if frame < regions.stack_start() {
        return 0;
    }
    if frame >= regions.stack_end() {
        return 0;
    }
    if u64::from(frame) + u64::from(offset) + 4 > u64::from(regions.stack_end()) {
        return 0;
    }
    word_in(machine.stack_from(frame), offset as usize)
}
