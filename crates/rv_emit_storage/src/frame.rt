//! The frame of a function.

ghost use Rattle.std.specs.Prelude.{◌≡◌, ◌≤◌, ◌<◌, ◌+◌, ◌^◌, ◌-◌, ℕ, IfOk, OnOk, if◌then◌else◌, [], ◌∷◌, ◌++◌, length, map, min};
ghost use Rattle.std.specs.List.{list_any};
ghost use Rattle.graph_core.specs.Graphs.{binding_view, block_view, graph_view, instruction_view};
ghost use Rattle.graph_core.specs.Validity.{taken_by, taken_by_object, total};
ghost use Rattle.graph_homes.specs.Frames.{binds_register, frame_size, is_register, is_written, object_offsets, objects_start, slot_count, slots_start, writes_register};
ghost use Rattle.rv_emit_storage.specs.Kept.{FitsFrame, home_in, saved_in};

use graph_core::{Binding, Block, Graph, Instr, MemoryObject, Name};
use graph_homes::Home;
use std::alloc::{AllocError, Global};

/// The frame of a function: the return address, then the registers that it keeps for its caller, its slots, and its
/// memory objects. Offsets are in bytes from its beginning.
#[derive(Drop)]
pub struct Frame {
    /// The registers that it keeps for its caller, from offset 4 on.
    pub saved: Vec<u8>,
    /// The offset of slot 0; the others follow it.
    pub slots: u32,
    /// The offset of each memory object.
    pub objects: Vec<u32>,
    /// How many bytes it takes, a multiple of 16.
    pub size: u32,
}

/// The registers that may be homes, by number: s1 to s11 and t3 to t6.
const HOME_REGISTERS: [u8; 15] = [9, 18, 19, 20, 21, 22, 23, 24, 25, 26, 27, 28, 29, 30, 31];

/// The home of a name.
pub fn home_of(homes: &[Home], name: Name) -> Home
    ensures { result ≡ home_in homes.now name.0 }
{
    match homes.get(name.0 as usize) {
        Some(home) => *home,
        None => Home::Slot(0),
    }
}

/// Whether a home is a register.
fn is_register(register: u8, home: Home) -> bool
    ensures { result ≡ is_register register home }
{
    match home {
        Home::Register(other) => other == register,
        Home::Slot(_) => false,
    }
}

/// Whether an instruction writes a register.
fn writes(register: u8, homes: &[Home], instruction: &Instr) -> bool
    ensures { result ≡ writes_register (home_in homes.now) register (instruction_view instruction.now) }
{
    match instruction.target() {
        Some(target) => is_register(register, home_of(homes, target)),
        None => false,
    }
}

/// Whether the binding of a parameter writes a register.
fn binds(register: u8, homes: &[Home], binding: Binding) -> bool
    ensures { result ≡ binds_register (home_in homes.now) register (binding_view binding) }
{
    match binding {
        Binding::Scalar(name) => is_register(register, home_of(homes, name)),
        Binding::Object(_) => false,
    }
}

/// Whether the bindings of parameters write a register.
fn is_bound(register: u8, homes: &[Home], bindings: &[Binding]) -> bool
    ensures { result ≡ list_any (binds_register (home_in homes.now) register) (map binding_view bindings.now) }
{
    let mut left = bindings;
    while let [first, rest @ ..] = left {
        if binds(register, homes, *first) {
            return true;
        }
        left = rest;
    }
    false
}

/// Whether instructions write a register.
fn block_writes(register: u8, homes: &[Home], instructions: &[Instr]) -> bool
    ensures { result ≡ list_any (writes_register (home_in homes.now) register) (map instruction_view instructions.now) }
{
    let mut left = instructions;
    while let [first, rest @ ..] = left {
        if writes(register, homes, first) {
            return true;
        }
        left = rest;
    }
    false
}

/// Whether blocks write a register.
fn blocks_write(register: u8, homes: &[Home], blocks: &[Block]) -> bool
    ensures { result ≡ list_any (λ b.
        list_any (writes_register (home_in homes.now) register) b.instructions) (map block_view blocks.now) }
{
    let mut left = blocks;
    while let [first, rest @ ..] = left {
        if block_writes(register, homes, &first.instructions) {
            return true;
        }
        left = rest;
    }
    false
}

/// Whether a function writes a register, as a call binds its parameters or in a block.
fn is_written(register: u8, homes: &[Home], graph: &Graph) -> bool
    ensures { result ≡ is_written (home_in homes.now) (graph_view graph.now) register }
{
    is_bound(register, homes, &graph.parameters) || blocks_write(register, homes, &graph.blocks)
}

/// Appends a register, if it is written.
fn push_if(saved: &mut Vec<u8>, register: u8, is_written: bool) -> Result<(), AllocError>
    ensures { OnOk result (saved.new.items ≡ saved.old.items ++ (if is_written then register ∷ [] else [])) }
{
    if is_written {
        saved.push(register)?;
    }
    Ok(())
}

/// The registers that a function writes and that may be homes, by number.
fn saved_of(alloc: Global, graph: &Graph, homes: &[Home]) -> Result<Vec<u8>, AllocError>
    ensures saved { IfOk result (λ v. v.items ≡ saved_in homes.now (graph_view graph.now)) }
    ensures few { IfOk result (λ v. length v.items ≤ 15) }
{
    let mut saved = Vec::new(alloc);
    let mut left: &[u8] = &HOME_REGISTERS;
    while let [first, rest @ ..] = left {
        push_if(&mut saved, *first, is_written(*first, homes, graph))?;
        left = rest;
    }
    Ok(saved)
}

/// One more than the greatest slot among homes, or the greatest word where that is more.
fn slot_count(homes: &[Home]) -> u32
    ensures { result ≡ min (slot_count homes.now) (2 ^ 32 - 1) }
{
    let mut left = homes;
    let mut count = 0u32;
    while let [first, rest @ ..] = left {
        if let Home::Slot(slot) = first {
            count = count.max(slot.saturating_add(1));
        }
        left = rest;
    }
    count
}

/// What so many bytes take, whole words and a word behind them, or the greatest number where that is more.
pub fn taken_by(bytes: u64) -> u64
    ensures { result ≡ min (taken_by bytes) (2 ^ 64 - 1) }
{
    (4 * (bytes.saturating_add(3) / 4)).saturating_add(4)
}

/// A number as a word, or the greatest word where it is more.
pub fn word_of(number: u64) -> u32
    ensures { result ≡ min number (2 ^ 32 - 1) }
{
    if number < 4294967296 {
        number as u32
    } else {
        u32::MAX
    }
}

/// What lies one behind the other: where each begins, and where they end.
#[derive(Drop)]
pub struct Placed {
    pub offsets: Vec<u32>,
    pub end: u32,
}

/// The offset behind a memory object that lies at an offset, or the greatest word where that is more.
fn behind(offset: u32, object: &MemoryObject) -> u32
    ensures { result ≡ min (offset + taken_by_object object.now) (2 ^ 32 - 1) }
{
    let taken = taken_by(object.element.bytes_of(object.count));
    word_of(u64::from(offset).saturating_add(taken))
}

/// Where memory objects lie from an offset on.
fn placed_objects(alloc: Global, objects: &[MemoryObject], start: u32) -> Result<Placed, AllocError>
    ensures offsets { IfOk result (λ p.
        start + total taken_by_object objects.now < 4294967295 → p.offsets.items ≡ object_offsets start objects.now) }
    ensures end { IfOk result (λ p. p.end ≡ min (start + total taken_by_object objects.now) (2 ^ 32 - 1)) }
{
    let mut offsets = Vec::new(alloc);
    let mut left = objects;
    let mut offset = start;
    while let [first, rest @ ..] = left {
        offsets.push(offset)?;
        offset = behind(offset, first);
        left = rest;
    }
    Ok(Placed {
        offsets,
        end: offset,
    })
}

/// The frame of a function whose names have these homes.
pub fn frame_of_function(alloc: Global, graph: &Graph, homes: &[Home]) -> Result<Frame, AllocError>
    ensures saved { IfOk result (λ f. f.saved.items ≡ saved_in homes.now (graph_view graph.now)) }
    ensures few { IfOk result (λ f. length f.saved.items ≤ 15) }
    ensures slots { IfOk result (λ f. f.slots ≡ slots_start (length f.saved.items)) }
    ensures objects { IfOk result (λ f.
        FitsFrame homes.now (graph_view graph.now)
        → f.objects.items ≡ object_offsets (objects_start (length f.saved.items) (slot_count homes.now))
        graph.now.objects.items) }
    ensures size { IfOk result (λ f.
        FitsFrame homes.now (graph_view graph.now)
        → f.size ≡ frame_size (length f.saved.items) (slot_count homes.now) graph.now.objects.items) }
{
    let saved = saved_of(alloc, graph, homes)?;
    let slots = 4 + 4 * saved.len() as u32;
    let start = slots.saturating_add(slot_count(homes).saturating_mul(4));
    let placed = placed_objects(alloc, &graph.objects, start)?;
    Ok(Frame {
        saved,
        slots,
        objects: placed.offsets,
        size: placed.end.saturating_add(15) / 16 * 16,
    })
}
