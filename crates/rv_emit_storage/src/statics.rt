//! Static memory.

ghost use Rattle.std.specs.Prelude.{◌≡◌, ◌<◌, ◌+◌, ◌-◌, ◌^◌, ◌++◌, IfOk, OnOk, drop, length, map, min, replicate, slice_set, take};
ghost use Rattle.std.specs.List.{AllByRecursion, flat_map};
ghost use Rattle.graph_core.specs.Graphs.{bytes_view, static_view, unit_view};
ghost use Rattle.graph_core.specs.Memory.{static_bytes};
ghost use Rattle.graph_core.specs.Validity.{taken_by, total};
ghost use Rattle.memory_map.specs.Maps.{bytes_start};
ghost use Rattle.rv_emit_storage.specs.StaticAddresses.{addresses_from, initial_bytes, padded, static_addresses, static_sizes};
ghost use Rattle.rv_emit_storage.specs.Filled.{filled_object, relocations_of, with_relocation, with_relocations, with_word};
ghost use Rattle.rv_emit_storage.specs.Placed.{FitsStatics, HaveAddresses, NameObjects};
ghost use Rattle.rv_emit_storage.specs.UnitMaps.{map_of_unit};

use crate::frame::{Placed, taken_by, word_of};
use graph_core::{Bytes, Element, Relocation, StaticObject, Unit};
use memory_map::{Map, map_of};
use std::alloc::{AllocError, Global};

/// The addresses of what lies in static memory.
#[derive(Drop)]
pub struct Statics {
    /// Of each static object.
    pub objects: Vec<u32>,
    /// Of the bytes that initialise each automatic array.
    pub array_bytes: Vec<u32>,
    /// The address from which its first 4,096 bytes are reached.
    pub base: u32,
    /// The address behind all of them.
    pub end: u32,
}

/// The address behind what has so many bytes and lies at an address, or the greatest word where that is more.
fn behind(address: u32, bytes: u64) -> u32
    ensures { result ≡ min (address + taken_by bytes) (2 ^ 32 - 1) }
{
    word_of(u64::from(address).saturating_add(taken_by(bytes)))
}

/// Where static objects lie from an address on.
fn placed_objects(alloc: Global, objects: &[StaticObject], start: u32) -> Result<Placed, AllocError>
    ensures offsets { IfOk result (λ p.
        start + total taken_by (map static_bytes (map static_view objects.now)) < 4294967295
        → p.offsets.items ≡ addresses_from start (map static_bytes (map static_view objects.now))) }
    ensures end { IfOk result (λ p.
        p.end ≡ min (start + total taken_by (map static_bytes (map static_view objects.now))) (2 ^ 32 - 1)) }
{
    let mut offsets = Vec::new(alloc);
    let mut left = objects;
    let mut address = start;
    while let [first, rest @ ..] = left {
        offsets.push(address)?;
        address = behind(address, first.element.bytes_of(first.count));
        left = rest;
    }
    Ok(Placed {
        offsets,
        end: address,
    })
}

/// How many bytes there are.
fn length_of(bytes: &Bytes) -> u64
    ensures { result ≡ length (bytes_view bytes.now) }
{
    bytes.bytes.len() as u64
}

/// Where bytes that initialise automatic arrays lie from an address on.
fn placed_arrays(alloc: Global, all: &[Bytes], start: u32) -> Result<Placed, AllocError>
    ensures offsets { IfOk result (λ p.
        start + total taken_by (map (λ b. length b) (map bytes_view all.now)) < 4294967295
        → p.offsets.items ≡ addresses_from start (map (λ b. length b) (map bytes_view all.now))) }
    ensures end { IfOk result (λ p.
        p.end ≡ min (start + total taken_by (map (λ b. length b) (map bytes_view all.now))) (2 ^ 32 - 1)) }
{
    let mut offsets = Vec::new(alloc);
    let mut left = all;
    let mut address = start;
    while let [first, rest @ ..] = left {
        offsets.push(address)?;
        address = behind(address, length_of(first));
        left = rest;
    }
    Ok(Placed {
        offsets,
        end: address,
    })
}

/// The map of the memory of what is compiled of a unit: its room decides it.
#[tactic(auto, unfolding(crate::specs::UnitMaps::map_of_unit))]
pub fn map_of_unit(unit: &Unit) -> Map
    ensures { result ≡ map_of_unit (unit_view unit.now) }
{
    map_of(unit.room)
}

/// The address in the middle of the first 4,096 bytes of static memory.
#[tactic(auto, using(memory_map::proofs::Facts::map_facts))]
fn base_of(map: Map) -> u32
    ensures { result ≡ bytes_start map + 2048 }
{
    map.bytes_start() + 2048
}

/// The addresses of what a unit has in static memory.
pub fn static_addresses(alloc: Global, unit: &Unit) -> Result<Statics, AllocError>
    ensures addresses { IfOk result (λ s.
        FitsStatics (unit_view unit.now)
        → s.objects.items ++ s.array_bytes.items ≡ static_addresses (unit_view unit.now)) }
    ensures objects { IfOk result
        (λ s. FitsStatics (unit_view unit.now) → HaveAddresses (unit_view unit.now) s.objects.items) }
    ensures base { IfOk result (λ s. s.base ≡ bytes_start (map_of_unit (unit_view unit.now)) + 2048) }
    ensures arrays { IfOk result (λ s.
        FitsStatics (unit_view unit.now)
        → s.array_bytes.items ≡ drop (length (unit_view unit.now).statics) (static_addresses (unit_view unit.now))) }
{
    let map = map_of_unit(unit);
    let objects = placed_objects(alloc, &unit.statics, map.bytes_start())?;
    let arrays = placed_arrays(alloc, &unit.array_bytes, objects.end)?;
    Ok(Statics {
        objects: objects.offsets,
        array_bytes: arrays.offsets,
        base: base_of(map),
        end: arrays.end,
    })
}

/// Appends so many zeros.
fn push_zeros(made: &mut Vec<u8>, count: u64) -> Result<(), AllocError>
    ensures { OnOk result (made.new.items ≡ made.old.items ++ replicate count 0) }
{
    for _number in 0..count {
        made.push(0)?;
    }
    Ok(())
}

/// The first bytes, at most so many.
fn first_bytes(bytes: &[u8], count: u64) -> &[u8]
    ensures { result.now ≡ take count bytes.now }
{
    if (bytes.len() as u64) <= count {
        bytes
    } else {
        &bytes[..count as usize]
    }
}

/// Appends the first of these bytes, and zeros behind them, so many in all.
fn push_padded(made: &mut Vec<u8>, bytes: &[u8], count: u64) -> Result<(), AllocError>
    ensures { OnOk result (made.new.items ≡ made.old.items ++ padded count bytes.now) }
{
    let first = first_bytes(bytes, count);
    made.extend_from_slice(first)?;
    push_zeros(made, count - first.len() as u64)
}

/// Writes a byte, where there is one.
fn put_byte(bytes: &mut Vec<u8>, at: usize, byte: u8)
    ensures { bytes.new.items ≡ slice_set bytes.old.items at byte }
{
    if let Some(place) = bytes.get_mut(at) {
        *place = byte;
    }
}

/// Writes the bytes of a word, the lowest first.
fn put_word(bytes: &mut Vec<u8>, at: u32, word: u32)
    ensures { bytes.new.items ≡ with_word at word bytes.old.items }
{
    let at = at as usize;
    put_byte(bytes, at, (word % 256) as u8);
    put_byte(bytes, at + 1, (word / 256 % 256) as u8);
    put_byte(bytes, at + 2, (word / 65536 % 256) as u8);
    put_byte(bytes, at + 3, (word / 16777216 % 256) as u8);
}

/// Writes the address that a relocation of an object with so many bytes holds, if a word begins there.
fn relocate(bytes: &mut Vec<u8>, size: u64, relocation: &Relocation, statics: &Statics)
    ensures { bytes.new.items ≡ with_relocation statics.now.objects.items size relocation.now bytes.old.items }
{
    if relocation.at % 4 == 0 && u64::from(relocation.at) < size {
        if let Some(address) = statics.objects.get(relocation.object as usize) {
            put_word(
                bytes,
                relocation.at,
                address.wrapping_add(relocation.offset),
            );
        }
    }
}

/// Writes the addresses that relocations hold. Of several at one offset the first counts, so it is written last.
fn relocate_all(bytes: &mut Vec<u8>, size: u64, relocations: &[Relocation], statics: &Statics)
    ensures { bytes.new.items ≡ with_relocations statics.now.objects.items size relocations.now bytes.old.items }
{
    let mut left = relocations;
    while let Some((last, rest)) = left.split_last() {
        relocate(bytes, size, last, statics);
        left = rest;
    }
}

/// The relocations of an object that count: only an object of words holds addresses.
fn relocations_of(object: &StaticObject) -> &[Relocation]
    ensures { result.now ≡ relocations_of (static_view object.now) }
{
    match object.element {
        Element::Word => &object.relocations,
        _ => &[],
    }
}

/// The bytes of a static object.
fn bytes_of_object(
    alloc: Global,
    object: &StaticObject,
    statics: &Statics,
) -> Result<Vec<u8>, AllocError>
    ensures { IfOk result (λ b. b.items ≡ filled_object statics.now.objects.items (static_view object.now)) }
{
    let size = object.element.bytes_of(object.count);
    let mut bytes = Vec::new(alloc);
    push_padded(&mut bytes, first_bytes(&object.bytes, size), taken_by(size))?;
    relocate_all(&mut bytes, size, relocations_of(object), statics);
    Ok(bytes)
}

/// Appends the bytes of static objects.
fn push_objects(
    alloc: Global,
    made: &mut Vec<u8>,
    objects: &[StaticObject],
    statics: &Statics,
) -> Result<(), AllocError>
    ensures { OnOk result
        (made.new.items
        ≡ made.old.items ++ flat_map (filled_object statics.now.objects.items) (map static_view objects.now)) }
{
    let mut left = objects;
    while let [first, rest @ ..] = left {
        let bytes = bytes_of_object(alloc, first, statics)?;
        made.extend_from_slice(&bytes)?;
        left = rest;
    }
    Ok(())
}

/// Appends bytes that initialise an automatic array.
fn push_array(made: &mut Vec<u8>, bytes: &Bytes) -> Result<(), AllocError>
    ensures { OnOk result
        (made.new.items ≡ made.old.items
        ++ padded (min (taken_by (length (bytes_view bytes.now))) (2 ^ 64 - 1)) (bytes_view bytes.now)) }
{
    push_padded(made, &bytes.bytes, taken_by(length_of(bytes)))
}

/// Appends the bytes that initialise automatic arrays.
fn push_arrays(made: &mut Vec<u8>, all: &[Bytes]) -> Result<(), AllocError>
    ensures bytes { OnOk result (AllByRecursion (λ x. x < 256) made.new.items) }
    ensures made { OnOk result (made.new.items ≡ made.old.items ++ flat_map (λ b.
        padded (min (taken_by (length b)) (2 ^ 64 - 1)) b) (map bytes_view all.now)) }
{
    let mut left = all;
    while let [first, rest @ ..] = left {
        push_array(made, first)?;
        left = rest;
    }
    Ok(())
}

/// The bytes that stand in static memory as a run begins.
pub fn initial_bytes(alloc: Global, unit: &Unit, statics: &Statics) -> Result<Vec<u8>, AllocError>
    ensures length { IfOk result (λ b.
        FitsStatics (unit_view unit.now) → length b.items ≡ total taken_by (static_sizes (unit_view unit.now))) }
    ensures bytes { IfOk result (λ b. AllByRecursion (λ x. x < 256) b.items) }
    ensures exact { IfOk result (λ b.
        FitsStatics (unit_view unit.now) → HaveAddresses (unit_view unit.now) statics.now.objects.items
        → NameObjects (unit_view unit.now) → b.items ≡ initial_bytes (unit_view unit.now)) }
{
    let mut initial = Vec::new(alloc);
    push_objects(alloc, &mut initial, &unit.statics, statics)?;
    push_arrays(&mut initial, &unit.array_bytes)?;
    Ok(initial)
}
