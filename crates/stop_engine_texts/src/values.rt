//! The texts of the values of variables.

ghost use Rattle.std.specs.Prelude.{◌≡◌, ◌<◌, ◌^◌, IfOk, map};
ghost use Rattle.image_form.specs.Rules.{IsImage};
ghost use Rattle.image_form.specs.RulesOfFunctions.{IsPlaceNumber};
ghost use Rattle.image_form.specs.Views.{viewed};
ghost use Rattle.stop_engine_tables.specs.Tables.{AreTablesOf};
ghost use Rattle.stop_engine_view.specs.Values.{element_texts, memory_text, most_elements, variable_text, word_text};
ghost use Rattle.stop_engine_view.specs.Words.{element_word, memory_half, memory_word};

use crate::pointers::{element_size, pointer_text};
use crate::recipes::home_word;
use image_form::{ElementType, Storage, Variable, View};
use line_form::array_text;
use rv_machine::Machine;
use std::alloc::{AllocError, Global};
use stop_engine_tables::{Tables, stack_pointer};

/// The number of two bytes of memory, the lower one first.
fn memory_half(machine: &Machine, address: u32) -> u32
    ensures value { result ≡ memory_half machine.now address }
    ensures small { result < 65536 }
{
    let low = u32::from(machine.byte(address));
    let high = u32::from(machine.byte(address.wrapping_add(1)));
    low + high * 0x100
}

/// The number of four bytes of memory.
#[tactic(auto, unfolding(stop_engine_view::specs::Words::memory_word))]
fn memory_word(machine: &Machine, address: u32) -> u32
    ensures { result ≡ memory_word machine.now address }
{
    let low = memory_half(machine, address);
    let high = memory_half(machine, address.wrapping_add(2));
    low + high * 0x1_0000
}

/// The number of the bytes of an element in memory.
fn element_word(machine: &Machine, element: ElementType, address: u32) -> u32
    ensures { result ≡ element_word machine.now element address }
{
    match element {
        ElementType::U8 | ElementType::I8 => u32::from(machine.byte(address)),
        ElementType::U16 | ElementType::I16 => memory_half(machine, address),
        ElementType::U32 | ElementType::I32 | ElementType::Pointer => memory_word(machine, address),
    }
}

/// The text of a word as a value of a type, which takes as many low bits as the type has. `AllocError` where memory for
/// it was refused, as for each of these texts.
pub fn word_text(
    alloc: Global,
    image: &View<'_>,
    machine: &Machine,
    tables: &Tables,
    place: u32,
    element: ElementType,
    word: u32,
) -> Result<Vec<u8>, AllocError>
    requires image { IsImage (viewed image.now) }
    requires tables { AreTablesOf (viewed image.now) tables.now }
    requires place { IsPlaceNumber (viewed image.now) place }
    ensures { IfOk result (λ text. text.items ≡ word_text (viewed image.now) machine.now place element word) }
{
    match element {
        ElementType::U8 => {
            let value = word % 0x100;
            Ok(format!(in alloc; "{value}")?.into_bytes())
        }
        ElementType::I8 => {
            let value = ((word % 0x100) as u8).cast_signed();
            Ok(format!(in alloc; "{value}")?.into_bytes())
        }
        ElementType::U16 => {
            let value = word % 0x1_0000;
            Ok(format!(in alloc; "{value}")?.into_bytes())
        }
        ElementType::I16 => {
            let value = ((word % 0x1_0000) as u16).cast_signed();
            Ok(format!(in alloc; "{value}")?.into_bytes())
        }
        ElementType::U32 => Ok(format!(in alloc; "{word}")?.into_bytes()),
        ElementType::I32 => {
            let value = word.cast_signed();
            Ok(format!(in alloc; "{value}")?.into_bytes())
        }
        ElementType::Pointer => Ok(pointer_text(alloc, image, machine, tables, place, word)?),
    }
}

/// How many elements of an array are shown at most.
#[tactic(auto, unfolding(stop_engine_view::specs::Values::most_elements))]
fn most_elements() -> u32
    ensures { result ≡ most_elements }
{
    64
}

/// The texts of so many elements, from an address on.
fn element_texts(
    alloc: Global,
    image: &View<'_>,
    machine: &Machine,
    tables: &Tables,
    place: u32,
    element: ElementType,
    count: u32,
    address: u32,
) -> Result<Vec<Vec<u8>>, AllocError>
    requires image { IsImage (viewed image.now) }
    requires tables { AreTablesOf (viewed image.now) tables.now }
    requires place { IsPlaceNumber (viewed image.now) place }
    ensures { IfOk result (λ texts. map (λ t. t.items) texts.items
        ≡ element_texts (viewed image.now) machine.now place element count address) }
{
    let mut texts = Vec::new(alloc);
    let mut left = count;
    let mut at = address;
    while left > 0 {
        left -= 1;
        let word = element_word(machine, element, at);
        texts.push(word_text(alloc, image, machine, tables, place, element, word)?)?;
        at = at.wrapping_add(element_size(element));
    }
    Ok(texts)
}

/// The text of a scalar or an array in memory.
fn memory_text(
    alloc: Global,
    image: &View<'_>,
    machine: &Machine,
    tables: &Tables,
    place: u32,
    variable: Variable,
    address: u32,
) -> Result<Vec<u8>, AllocError>
    requires image { IsImage (viewed image.now) }
    requires tables { AreTablesOf (viewed image.now) tables.now }
    requires place { IsPlaceNumber (viewed image.now) place }
    ensures { IfOk result (λ text. text.items ≡ memory_text (viewed image.now) machine.now place variable address) }
{
    let element = variable.element;
    if variable.count == 0 {
        let word = element_word(machine, element, address);
        return Ok(word_text(alloc, image, machine, tables, place, element, word)?);
    }
    let count = variable.count.min(most_elements());
    let texts = element_texts(
        alloc, image, machine, tables, place, element, count, address,
    )?;
    Ok(array_text(alloc, &texts, most_elements() < variable.count)?)
}

/// The text of what a variable's own storage holds, where the session stands at a place.
pub fn variable_text(
    alloc: Global,
    image: &View<'_>,
    machine: &Machine,
    tables: &Tables,
    place: u32,
    variable: Variable,
) -> Result<Vec<u8>, AllocError>
    requires image { IsImage (viewed image.now) }
    requires tables { AreTablesOf (viewed image.now) tables.now }
    requires place { IsPlaceNumber (viewed image.now) place }
    ensures { IfOk result (λ text. text.items ≡ variable_text (viewed image.now) machine.now place variable) }
{
    match variable.storage {
        Storage::Static(address) => Ok(memory_text(
            alloc, image, machine, tables, place, variable, address,
        )?),
        Storage::Frame(offset) => {
            let address = stack_pointer(machine).wrapping_add(offset);
            Ok(memory_text(alloc, image, machine, tables, place, variable, address)?)
        }
        Storage::Register(_) | Storage::Slot(_) => {
            let word = home_word(machine, variable.storage);
            Ok(word_text(alloc, image, machine, tables, place, variable.element, word)?)
        }
    }
}
