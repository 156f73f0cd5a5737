//! Which places disturb a variable: they assign it, or a word that belongs to them writes its home.

ghost use Rattle.std.specs.Prelude.{◌≡◌, ◌||◌, ◌<◌, ◌+◌, ℕ, Contains, IfOk, false, length, map, slice_get, slice_index_or};
ghost use Rattle.std.specs.Option.{option_map_or};
ghost use Rattle.image_form.specs.Rules.{IsImage};
ghost use Rattle.image_form.specs.Views.{viewed};
ghost use Rattle.stop_engine_view.specs.HomeWrites.{adds_sp, disturbs, far_offset, has_result_in, is_written_in, owns_writer, spelled_at, stored_behind, stores_near, upper_of, writes_home};
ghost use Rattle.stop_engine_view.specs.Evidence.{assignment_of};
ghost use Rattle.places.specs.Flow.{assigns};

use image_form::{Function, Storage, View};
use memory_map::CODE_START;
use rv_code::{Instruction, RegisterOperation, StoreOperation, decode};
use std::alloc::{AllocError, Global};

/// The register that holds the address of the innermost activation's frame.
const STACK_POINTER: u8 = 2;

/// The register by which words far behind that address are stored.
const FAR_POINTER: u8 = 5;

/// The instruction that the word of a number spells, if it spells one.
fn spelled_at(image: &View<'_>, index: usize) -> Option<Instruction>
    ensures { result ≡ spelled_at (viewed image.now).code index }
{
    if index >= image.code_count() {
        return None;
    }
    decode(image.code_at(index))
}

/// Whether an instruction has its result in this register.
fn has_result_in(register: u32, instruction: Instruction) -> bool
    ensures { result ≡ has_result_in register instruction }
{
    match instruction {
        Instruction::Lui(rd, _)
        | Instruction::Auipc(rd, _)
        | Instruction::Jal(rd, _)
        | Instruction::Jalr(rd, _, _)
        | Instruction::Load(_, rd, _, _)
        | Instruction::Immediate(_, rd, _, _)
        | Instruction::Register(_, rd, _, _) => u32::from(rd) == register,
        Instruction::Branch(_, _, _, _)
        | Instruction::Store(_, _, _, _)
        | Instruction::Fence(_, _, _)
        | Instruction::Ecall
        | Instruction::Ebreak => false,
    }
}

/// The offset at which an instruction stores a word behind the address in this register, if it does.
fn stored_behind(base: u8, instruction: Instruction) -> Option<u32>
    ensures { result ≡ stored_behind base instruction }
{
    match instruction {
        Instruction::Store(StoreOperation::Sw, _, register, offset) if register == base => {
            Some(offset)
        }
        _ => None,
    }
}

/// The upper part that an instruction sets the register of far words to, if it does.
fn upper_of(instruction: Instruction) -> Option<u32>
    ensures { result ≡ upper_of instruction }
{
    match instruction {
        Instruction::Lui(rd, upper) if rd == FAR_POINTER => Some(upper),
        _ => None,
    }
}

/// Whether an instruction adds the address of the frame to that register.
fn adds_sp(instruction: Instruction) -> bool
    ensures { result ≡ adds_sp instruction }
{
    match instruction {
        Instruction::Register(RegisterOperation::Add, rd, left, right) => {
            rd == FAR_POINTER && left == FAR_POINTER && right == STACK_POINTER
        }
        _ => false,
    }
}

/// Whether the word of a number stores a word in the slot at an offset.
fn stores_near(image: &View<'_>, offset: u32, index: usize) -> bool
    ensures { result ≡ stores_near (viewed image.now).code offset index }
{
    match spelled_at(image, index) {
        Some(instruction) => stored_behind(STACK_POINTER, instruction) == Some(offset),
        None => false,
    }
}

/// How far behind the address of the frame the three words that end with that of a number store a word, if they do.
fn far_offset(image: &View<'_>, index: usize) -> Option<u32>
    ensures { result ≡ far_offset (viewed image.now).code index }
{
    if index < 2 {
        return None;
    }
    let behind = stored_behind(FAR_POINTER, spelled_at(image, index)?)?;
    if !adds_sp(spelled_at(image, index - 1)?) {
        return None;
    }
    let upper = upper_of(spelled_at(image, index - 2)?)?;
    Some(upper.wrapping_mul(4096).wrapping_add(behind))
}

/// Whether the word of a number writes a home.
fn writes_home(image: &View<'_>, storage: Storage, index: usize) -> bool
    ensures { result ≡ writes_home (viewed image.now).code storage index }
{
    match storage {
        Storage::Register(register) => match spelled_at(image, index) {
            Some(instruction) => has_result_in(register, instruction),
            None => false,
        },
        Storage::Slot(offset) => {
            stores_near(image, offset, index) || far_offset(image, index) == Some(offset)
        }
        Storage::Static(_) | Storage::Frame(_) => false,
    }
}

/// The places are flagged to which words of a function belong that write a home.
fn flag_writing(image: &View<'_>, storage: Storage, function: Function, flags: &mut [bool])
    requires image { IsImage (viewed image.now) }
    requires room { length flags.old ≡ length (viewed image.now).places + 1 }
    requires function { Contains (viewed image.now).functions function }
    ensures flags { (p : ℕ) → slice_index_or flags.new p false
        ≡ (slice_index_or flags.old p false || is_written_in (viewed image.now) storage p function) }
    ensures room { length flags.new ≡ length flags.old }
{
    let first = (function.first.saturating_sub(CODE_START) / 4) as usize;
    let end = (function.end.saturating_sub(CODE_START) / 4) as usize;
    for index in first..end {
        if writes_home(image, storage, index) {
            flags[image.owner_at(index) as usize] = true;
        }
    }
}

/// The places are flagged to which words belong that write the home of a variable.
fn flag_writers(image: &View<'_>, variable: u32, flags: &mut [bool])
    requires image { IsImage (viewed image.now) }
    requires room { length flags.old ≡ length (viewed image.now).places + 1 }
    requires variable { variable < length (viewed image.now).variables }
    ensures flags { (p : ℕ) → slice_index_or flags.new p false ≡ (slice_index_or flags.old p false
        || option_map_or (owns_writer (viewed image.now) p) (slice_get (viewed image.now).variables variable) false) }
    ensures room { length flags.new ≡ length flags.old }
{
    let kept = image.variable_at(variable as usize);
    match kept.function {
        Some(number) => {
            let function = image.function_at(number as usize);
            flag_writing(image, kept.storage, function, flags);
        }
        None => {}
    }
}

/// The places are flagged that assign a variable.
fn flag_assigning(image: &View<'_>, variable: u32, flags: &mut [bool])
    requires image { IsImage (viewed image.now) }
    requires room { length flags.old ≡ length (viewed image.now).places + 1 }
    ensures flags { (p : ℕ) → slice_index_or flags.new p false
        ≡ (slice_index_or flags.old p false || assigns (map assignment_of (viewed image.now).assigned) p variable) }
    ensures room { length flags.new ≡ length flags.old }
{
    for number in 0..image.assigned_count() {
        let pair = image.assigned_at(number);
        if pair.variable == variable {
            flags[pair.place as usize] = true;
        }
    }
}

/// For each place, from 0 on, whether it disturbs a variable. `AllocError` where memory for the flags was refused.
pub fn disturbed_places(
    alloc: Global,
    image: &View<'_>,
    variable: u32,
) -> Result<Vec<bool>, AllocError>
    requires image { IsImage (viewed image.now) }
    requires variable { variable < length (viewed image.now).variables }
    ensures { IfOk result (λ flags. (p : ℕ) → slice_index_or flags.items p false
        ≡ disturbs (viewed image.now) variable p) }
{
    let mut flags = vec![in alloc; false; image.place_count() + 1]?;
    flag_assigning(image, variable, &mut flags);
    flag_writers(image, variable, &mut flags);
    Ok(flags)
}
