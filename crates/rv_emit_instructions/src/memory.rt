//! Loads, stores and addresses.

ghost use Rattle.std.specs.Prelude.{◌≡◌, ◌≤◌, ◌+◌, OnOk, IfOk};
ghost use Rattle.rv_emit_words.specs.Shown.{shown};
ghost use Rattle.rv_emit_words.specs.Words.{words_in};
ghost use Rattle.graph_core.specs.Graphs.{location_view, operand_view};
ghost use Rattle.rv_emit_storage.specs.Storages.{home_at, object_at, source_of, storage_view};
ghost use Rattle.rv_emit_words.specs.Growing.{code_state, with_code};
ghost use Rattle.rv_emit_instructions.specs.Memory.{frame_reach, load_code, load_operation, object_address_code, pointer_reach, reach_of, static_reach, store_code, store_operation, storing};

use graph_core::{Element, Location, Name, Operand};
use rv_code::{Instruction, LoadOperation, RegisterOperation, StoreOperation};
use rv_emit_storage::{Source, Storage};
use rv_emit_words::{Code, high_part, is_small, low_part, register, result_register};
use std::alloc::AllocError;

/// A register and the offset from what it holds.
#[derive(Clone, Copy)]
struct Reached {
    base: u8,
    offset: u32,
}

/// The load of an element.
fn load_operation(element: Element) -> LoadOperation
    ensures { result ≡ load_operation element }
{
    match element {
        Element::Unsigned8 => LoadOperation::Lbu,
        Element::Signed8 => LoadOperation::Lb,
        Element::Unsigned16 => LoadOperation::Lhu,
        Element::Signed16 => LoadOperation::Lh,
        Element::Word => LoadOperation::Lw,
    }
}

/// The store of an element.
fn store_operation(element: Element) -> StoreOperation
    ensures { result ≡ store_operation element }
{
    match element {
        Element::Unsigned8 | Element::Signed8 => StoreOperation::Sb,
        Element::Unsigned16 | Element::Signed16 => StoreOperation::Sh,
        Element::Word => StoreOperation::Sw,
    }
}

/// How an address that is known is reached: from `gp`, or from a register that holds its upper part.
fn reach_static(code: &mut Code, storage: &Storage<'_>, address: u32) -> Result<Reached, AllocError>
    ensures few { OnOk result (words_in code.new.pieces.items ≤ words_in code.old.pieces.items + 2) }
    ensures stops { OnOk result (shown code.new ≡ shown code.old) }
    ensures grown { OnOk result
        (code_state code.new ≡ with_code
        ((static_reach (storage_view storage.now) code.old.held.items address).code) (code_state code.old)) }
    ensures base { IfOk result
        (λ r. r.base ≡ (static_reach (storage_view storage.now) code.old.held.items address).base) }
    ensures offset { IfOk result
        (λ r. r.offset ≡ (static_reach (storage_view storage.now) code.old.held.items address).offset) }
{
    let distance = address.wrapping_sub(storage.base);
    if is_small(distance) {
        return Ok(Reached {
            base: register::GP,
            offset: distance,
        });
    }
    let upper = high_part(address).wrapping_mul(4096);
    let base = code.fetch_constant(upper, storage.base, register::T2)?;
    Ok(Reached {
        base,
        offset: low_part(address),
    })
}

/// How an offset in the frame is reached: from `sp`, or from `t2`.
fn reach_frame(code: &mut Code, offset: u32) -> Result<Reached, AllocError>
    ensures few { OnOk result (words_in code.new.pieces.items ≤ words_in code.old.pieces.items + 2) }
    ensures stops { OnOk result (shown code.new ≡ shown code.old) }
    ensures grown { OnOk result (code_state code.new ≡ with_code ((frame_reach offset).code) (code_state code.old)) }
    ensures base { IfOk result (λ r. r.base ≡ (frame_reach offset).base) }
    ensures offset { IfOk result (λ r. r.offset ≡ (frame_reach offset).offset) }
{
    if offset < 2048 {
        return Ok(Reached {
            base: register::SP,
            offset,
        });
    }
    code.put(Instruction::Lui(register::T2, high_part(offset)))?;
    code.put(Instruction::Register(
        RegisterOperation::Add,
        register::T2,
        register::T2,
        register::SP,
    ))?;
    Ok(Reached {
        base: register::T2,
        offset: low_part(offset),
    })
}

/// How where a value points is reached.
fn reach_pointer(
    code: &mut Code,
    storage: &Storage<'_>,
    pointer: Operand,
) -> Result<Reached, AllocError>
    ensures few { OnOk result (words_in code.new.pieces.items ≤ words_in code.old.pieces.items + 3) }
    ensures stops { OnOk result (shown code.new ≡ shown code.old) }
    ensures grown { OnOk result
        (code_state code.new ≡ with_code ((pointer_reach (storage_view storage.now) code.old.held.items
        (source_of (storage_view storage.now) (operand_view pointer))).code) (code_state code.old)) }
    ensures base { IfOk result (λ r.
        r.base ≡
        (pointer_reach (storage_view storage.now) code.old.held.items
        (source_of (storage_view storage.now) (operand_view pointer))).base) }
    ensures offset { IfOk result (λ r.
        r.offset ≡
        (pointer_reach (storage_view storage.now) code.old.held.items
        (source_of (storage_view storage.now) (operand_view pointer))).offset) }
{
    match storage.source(pointer) {
        Source::Word(address) => reach_static(code, storage, address),
        Source::Home(home) => {
            let base = code.fetch_home(storage, home, register::T2)?;
            Ok(Reached { base, offset: 0 })
        }
    }
}

/// How a location is reached.
fn reach(code: &mut Code, storage: &Storage<'_>, location: Location) -> Result<Reached, AllocError>
    ensures few { OnOk result (words_in code.new.pieces.items ≤ words_in code.old.pieces.items + 3) }
    ensures stops { OnOk result (shown code.new ≡ shown code.old) }
    ensures grown { OnOk result
        (code_state code.new ≡ with_code
        ((reach_of (storage_view storage.now) code.old.held.items (location_view location)).code)
        (code_state code.old)) }
    ensures base { IfOk result (λ r.
        r.base ≡ (reach_of (storage_view storage.now) code.old.held.items (location_view location)).base) }
    ensures offset { IfOk result (λ r.
        r.offset ≡ (reach_of (storage_view storage.now) code.old.held.items (location_view location)).offset) }
{
    match location {
        Location::Automatic { object, offset } => {
            reach_frame(code, storage.object(object).wrapping_add(offset))
        }
        Location::Static(object) => reach_static(code, storage, storage.static_object(object)),
        Location::At(pointer) => reach_pointer(code, storage, pointer),
    }
}

/// A target becomes the element at a location.
pub fn put_load(
    code: &mut Code,
    storage: &Storage<'_>,
    target: Name,
    element: Element,
    from: Location,
) -> Result<(), AllocError>
    ensures few { OnOk result (words_in code.new.pieces.items ≤ words_in code.old.pieces.items + 7) }
    ensures stops { OnOk result (shown code.new ≡ shown code.old) }
    ensures grown { OnOk result
        (code_state code.new ≡ with_code (load_code (storage_view storage.now) code.old.held.items
        (home_at (storage_view storage.now) target.0) element (location_view from)) (code_state code.old)) }
{
    let target = storage.home(target);
    let reached = reach(code, storage, from)?;
    let rd = result_register(target);
    code.put(Instruction::Load(load_operation(element), rd, reached.base, reached.offset))?;
    code.finish(storage, target, rd)
}

/// The element at a location becomes an operand.
pub fn put_store(
    code: &mut Code,
    storage: &Storage<'_>,
    element: Element,
    to: Location,
    value: Operand,
) -> Result<(), AllocError>
    ensures few { OnOk result (words_in code.new.pieces.items ≤ words_in code.old.pieces.items + 7) }
    ensures stops { OnOk result (shown code.new ≡ shown code.old) }
    ensures grown { OnOk result
        (code_state code.new ≡ with_code (store_code (storage_view storage.now) code.old.held.items element
        (location_view to) (source_of (storage_view storage.now) (operand_view value))) (code_state code.old)) }
{
    let value = code.fetch(storage, value, register::T1)?;
    let reached = reach(code, storage, to)?;
    code.put(Instruction::Store(
        store_operation(element),
        value,
        reached.base,
        reached.offset,
    ))
}

/// The first element of an automatic object becomes what a register holds.
pub fn put_first(
    code: &mut Code,
    storage: &Storage<'_>,
    object: u32,
    element: Element,
    value: u8,
) -> Result<(), AllocError>
    ensures few { OnOk result (words_in code.new.pieces.items ≤ words_in code.old.pieces.items + 3) }
    ensures stops { OnOk result (shown code.new ≡ shown code.old) }
    ensures grown { OnOk result
        (code_state code.new ≡ with_code
        (storing element (frame_reach (object_at (storage_view storage.now) object)) value)
        (code_state code.old)) }
{
    let reached = reach_frame(code, storage.object(object))?;
    code.put(Instruction::Store(
        store_operation(element),
        value,
        reached.base,
        reached.offset,
    ))
}

/// A target becomes the address of an automatic object.
pub fn put_address_of(
    code: &mut Code,
    storage: &Storage<'_>,
    target: Name,
    object: u32,
) -> Result<(), AllocError>
    ensures few { OnOk result (words_in code.new.pieces.items ≤ words_in code.old.pieces.items + 6) }
    ensures stops { OnOk result (shown code.new ≡ shown code.old) }
    ensures grown { OnOk result
        (code_state code.new ≡ with_code
        (object_address_code (storage_view storage.now) (home_at (storage_view storage.now) target.0) object)
        (code_state code.old)) }
{
    let target = storage.home(target);
    let rd = result_register(target);
    code.put_address(rd, register::T2, storage.object(object))?;
    code.finish(storage, target, rd)
}
