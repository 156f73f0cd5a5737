//! What a pointer points to.

ghost use Rattle.std.specs.Prelude.{◌≡◌, ◌≤◌, ◌+◌, ◌<◌, IfOk, IfSome, Some, slice_get, length};
ghost use Rattle.image_form.specs.Rules.{IsImage};
ghost use Rattle.image_form.specs.RulesOfFunctions.{IsPlaceNumber};
ghost use Rattle.image_form.specs.Views.{viewed};
ghost use Rattle.rv_machine.specs.State.{reg};
ghost use Rattle.stop_engine_tables.specs.Tables.{AreTablesOf};
ghost use Rattle.stop_engine_tables.specs.VariableLists.{AreListsOf};
ghost use Rattle.stop_engine_view.specs.Pointers.{IsTargetOf, offset_from, function_of_place, is_variable_of, is_within, literal_count, local_offset, local_start, local_target, variable_size, offset_within, stack_target, static_offset, static_start, static_target, static_target_of, pointed_at, pointer_text, target_text};
ghost use Rattle.stop_engine_view.specs.Reading.{depth, greatest_depth};
ghost use Rattle.stop_engine_view.specs.Words.{element_size};

use image_form::{ElementType, Storage, Variable, View};
use line_form::{frame_pointer, literal_pointer, null_text, static_pointer, unknown_pointer};
use rv_machine::Machine;
use std::alloc::{AllocError, Global};
use stop_engine_tables::{
    Tables, VariableLists, calling_place, depth, frame_of, greatest_depth, stack_pointer,
};
use stop_engine_view::Target;

/// How many bytes an element has.
pub fn element_size(element: ElementType) -> u32
    ensures size { result ≡ element_size element }
    ensures small { result ≤ 4 }
{
    match element {
        ElementType::U8 | ElementType::I8 => 1,
        ElementType::U16 | ElementType::I16 => 2,
        ElementType::U32 | ElementType::I32 | ElementType::Pointer => 4,
    }
}

/// How many bytes an address lies behind the start of an object, around the end of the addresses.
fn distance(address: u32, start: u32) -> u32
    ensures { result ≡ offset_from address start }
{
    address.wrapping_sub(start)
}

/// How many bytes a variable has.
fn object_size(variable: &Variable) -> u64
    ensures { result ≡ variable_size variable.now }
{
    let count = if variable.count == 0 {
        1
    } else {
        variable.count
    };
    u64::from(count) * u64::from(element_size(variable.element))
}

/// Whether an address lies in an object that starts there, or directly behind it.
fn is_within(variable: &Variable, start: u32, address: u32) -> bool
    ensures { result ≡ is_within variable.now start address }
{
    u64::from(distance(address, start)) <= object_size(variable)
}

/// Where a static object starts.
fn static_start(storage: Storage) -> Option<u32>
    ensures { result ≡ static_start storage }
{
    match storage {
        Storage::Static(address) => Some(address),
        Storage::Frame(_) | Storage::Register(_) | Storage::Slot(_) => None,
    }
}

/// Where an object of a frame starts.
fn local_start(frame: u32, storage: Storage) -> Option<u32>
    ensures { result ≡ local_start frame storage }
{
    match storage {
        Storage::Frame(offset) => Some(frame.wrapping_add(offset)),
        Storage::Static(_) | Storage::Register(_) | Storage::Slot(_) => None,
    }
}

/// Whether a variable is one of a function.
fn is_of(function: u32, variable: &Variable) -> bool
    ensures { result ≡ is_variable_of function variable.now }
{
    match variable.function {
        Some(owner) => owner == function,
        None => false,
    }
}

/// 1 for a string literal, which has no name.
fn literals(variable: &Variable) -> u32
    ensures count { result ≡ literal_count variable.now }
    ensures small { result ≤ 1 }
{
    if variable.name_length == 0 { 1 } else { 0 }
}

/// How far behind the start of an object an address lies, if it lies in it or directly behind it.
fn offset_within(variable: &Variable, start: u32, address: u32) -> Option<u32>
    ensures { result ≡ offset_within variable.now start address }
{
    if is_within(variable, start, address) {
        Some(distance(address, start))
    } else {
        None
    }
}

/// The same of a static object.
fn static_offset(variable: &Variable, address: u32) -> Option<u32>
    ensures { result ≡ static_offset variable.now address }
{
    match static_start(variable.storage) {
        Some(start) => offset_within(variable, start, address),
        None => None,
    }
}

/// The same of an object of a function's frame.
fn local_offset(variable: &Variable, function: u32, frame: u32, address: u32) -> Option<u32>
    ensures { result ≡ local_offset variable.now function frame address }
{
    if !is_of(function, variable) {
        return None;
    }
    match local_start(frame, variable.storage) {
        Some(start) => offset_within(variable, start, address),
        None => None,
    }
}

/// The static object or literal to which so many bytes lead.
fn static_target_of(variable: &Variable, index: u32, number: u32, offset: u32) -> Target
    ensures { result ≡ static_target_of variable.now index number offset }
{
    if variable.name_length == 0 {
        Target::Literal { number, offset }
    } else {
        Target::Static {
            variable: index,
            offset,
        }
    }
}

/// The first static object in which, or directly behind which, an address lies.
fn static_target(image: &View<'_>, lists: &VariableLists, address: u32) -> Option<Target>
    requires lists { AreListsOf (viewed image.now) lists.now }
    requires few { length (viewed image.now).variables < 4294967295 }
    ensures found { result ≡ static_target address 0 0 (viewed image.now).variables }
    ensures number { IfSome result (IsTargetOf (length (viewed image.now).variables)) }
{
    let mut count = 0;
    for index in 0..lists.statics {
        let variable = image.variable_at(index);
        count += literals(&variable);
        match static_offset(&variable, address) {
            Some(offset) => return Some(static_target_of(&variable, index as u32, count, offset)),
            None => {}
        }
    }
    None
}

/// The first object of a function's frame in which, or directly behind which, an address lies.
fn local_target(
    image: &View<'_>,
    lists: &VariableLists,
    address: u32,
    function: u32,
    frame: u32,
    depth: u32,
) -> Option<Target>
    requires lists { AreListsOf (viewed image.now) lists.now }
    requires few { length (viewed image.now).variables < 4294967295 }
    requires function { function < length (viewed image.now).functions }
    ensures found { result ≡ local_target address function frame depth 0 (viewed image.now).variables }
    ensures number { IfSome result (IsTargetOf (length (viewed image.now).variables)) }
{
    let mut index = lists.first[function as usize] as usize;
    while index < image.variable_count() {
        match local_offset(&image.variable_at(index), function, frame, address) {
            Some(offset) => {
                return Some(Target::Local {
                    variable: index as u32,
                    depth,
                    offset,
                });
            }
            None => {}
        }
        index = lists.next[index] as usize;
    }
    None
}

/// The number of a place's function.
fn function_of(image: &View<'_>, place: u32) -> u32
    requires image { IsImage (viewed image.now) }
    requires place { IsPlaceNumber (viewed image.now) place }
    ensures number { result ≡ function_of_place (viewed image.now) place }
    ensures within { result < length (viewed image.now).functions }
{
    image.place_at(place as usize - 1).function
}

/// The first object of an activation with this place, or of one that called it, in which, or directly behind which, an
/// address lies.
fn stack_target(
    image: &View<'_>,
    machine: &Machine,
    lists: &VariableLists,
    address: u32,
    place: u32,
) -> Option<Target>
    requires image { IsImage (viewed image.now) }
    requires lists { AreListsOf (viewed image.now) lists.now }
    requires place { IsPlaceNumber (viewed image.now) place }
    ensures found { result
        ≡ stack_target greatest_depth (viewed image.now) machine.now address place (reg machine.now 2)
        (depth machine.now) }
    ensures number { IfSome result (IsTargetOf (length (viewed image.now).variables)) }
{
    let mut left = greatest_depth();
    let mut at = place;
    let mut frame = stack_pointer(machine);
    let mut deep = depth(machine);
    while left > 0 {
        left -= 1;
        let function = function_of(image, at);
        match local_target(image, lists, address, function, frame, deep) {
            Some(found) => return Some(found),
            None => {}
        }
        let caller = calling_place(image, machine, frame);
        if caller == 0 {
            return None;
        }
        frame = frame.wrapping_add(frame_of(image, at));
        at = caller;
        deep = deep.wrapping_sub(1);
    }
    None
}

/// The object that an address is taken for where the session stands at a place.
fn pointed_at(
    image: &View<'_>,
    machine: &Machine,
    lists: &VariableLists,
    place: u32,
    address: u32,
) -> Option<Target>
    requires image { IsImage (viewed image.now) }
    requires lists { AreListsOf (viewed image.now) lists.now }
    requires place { IsPlaceNumber (viewed image.now) place }
    ensures found { result ≡ pointed_at (viewed image.now) machine.now place address }
    ensures number { IfSome result (IsTargetOf (length (viewed image.now).variables)) }
{
    match static_target(image, lists, address) {
        Some(found) => Some(found),
        None => stack_target(image, machine, lists, address, place),
    }
}

/// The text of a pointer to an object.
fn target_text(
    alloc: Global,
    image: &View<'_>,
    tables: &Tables,
    target: Target,
) -> Result<Vec<u8>, AllocError>
    requires image { IsImage (viewed image.now) }
    requires tables { AreTablesOf (viewed image.now) tables.now }
    requires target { IsTargetOf (length (viewed image.now).variables) target }
    ensures { IfOk result (λ text. text.items ≡ target_text (viewed image.now) target) }
{
    match target {
        Target::Static { variable, offset } => {
            let name = tables.names.variable(image, variable as usize);
            Ok(static_pointer(alloc, name, offset)?)
        }
        Target::Literal { number, offset } => Ok(literal_pointer(alloc, number, offset)?),
        Target::Local {
            variable,
            depth,
            offset,
        } => {
            let name = tables.names.variable(image, variable as usize);
            Ok(frame_pointer(alloc, name, depth, offset)?)
        }
    }
}

/// The text of a pointer where the session stands at a place. `AllocError` where memory for it was refused.
#[tactic(auto, unfolding(stop_engine_view::specs::Pointers::pointer_text))]
pub fn pointer_text(
    alloc: Global,
    image: &View<'_>,
    machine: &Machine,
    tables: &Tables,
    place: u32,
    address: u32,
) -> Result<Vec<u8>, AllocError>
    requires image { IsImage (viewed image.now) }
    requires tables { AreTablesOf (viewed image.now) tables.now }
    requires place { IsPlaceNumber (viewed image.now) place }
    ensures { IfOk result (λ text. text.items ≡ pointer_text (viewed image.now) machine.now place address) }
{
    if address == 0 {
        return Ok(null_text(alloc)?);
    }
    match pointed_at(image, machine, &tables.variables, place, address) {
        Some(found) => Ok(target_text(alloc, image, tables, found)?),
        None => Ok(unknown_pointer(alloc, address)?),
    }
}
