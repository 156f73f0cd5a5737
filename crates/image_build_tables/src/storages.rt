//! Where variables are kept.

ghost use Rattle.std.specs.Prelude.{◌≡◌, ◌++◌, IfOk, map, slice_set};
ghost use Rattle.rv_emit_tables.specs.Emitted.{emitted_view, function_view};
ghost use Rattle.graph_core.specs.Graphs.{graph_view, scalar_view};
ghost use Rattle.graph_homes.specs.Homed.{homed_view};
ghost use Rattle.image_build_tables.specs.Storages.{functions_kept, objects_kept, put_all, scalars_kept, statics_kept, storage_of, storages_of};

use graph_core::{Graph, MemoryObject, Scalar};
use graph_homes::{FunctionHomes, Home, HomedUnit};
use image_form::Storage;
use rv_emit_tables::{Emitted, EmittedFunction};
use std::alloc::{AllocError, Global};

/// The storage that a home is, in a function whose slots begin at this offset in its frame.
fn storage_of(home: Home, slots: u32) -> Storage
    ensures { result ≡ storage_of slots home }
{
    match home {
        Home::Register(register) => Storage::Register(u32::from(register)),
        Home::Slot(slot) => Storage::Slot(slots.saturating_add(slot.saturating_mul(4))),
    }
}

/// A variable is kept there.
fn put(table: &mut [Storage], variable: u32, storage: Storage)
    ensures { table.new ≡ slice_set table.old variable storage }
{
    let index = variable as usize;
    if index < table.len() {
        table[index] = storage;
    }
}

/// The scalars of a function.
fn put_scalars(scalars: &[Scalar], homes: &[Home], slots: u32, table: &mut [Storage])
    ensures { table.new ≡ put_all (scalars_kept slots (map scalar_view scalars.now) homes.now) table.old }
{
    let mut left = scalars;
    let mut homes_left = homes;
    while let [scalar, rest @ ..] = left {
        let [home, homes_behind @ ..] = homes_left else {
            return;
        };
        put(table, scalar.var.0, storage_of(*home, slots));
        left = rest;
        homes_left = homes_behind;
    }
}

/// The objects of a function in memory.
fn put_objects(objects: &[MemoryObject], offsets: &[u32], table: &mut [Storage])
    ensures { table.new ≡ put_all (objects_kept objects.now offsets.now) table.old }
{
    let mut left = objects;
    let mut offsets_left = offsets;
    while let [object, rest @ ..] = left {
        let [offset, offsets_behind @ ..] = offsets_left else {
            return;
        };
        put(table, object.var.0, Storage::Frame(*offset));
        left = rest;
        offsets_left = offsets_behind;
    }
}

/// The variables of functions with their code and their homes.
fn put_functions(
    graphs: &[Graph],
    codes: &[EmittedFunction],
    homes: &[FunctionHomes],
    table: &mut [Storage],
)
    ensures { table.new ≡ put_all
        (functions_kept (map graph_view graphs.now) (map function_view codes.now)
        (map (λ f. f.homes.items) homes.now))
        table.old }
{
    let mut left = graphs;
    let mut codes_left = codes;
    let mut homes_left = homes;
    while let [graph, rest @ ..] = left {
        let [code, codes_behind @ ..] = codes_left else {
            return;
        };
        let [of, homes_behind @ ..] = homes_left else {
            return;
        };
        put_scalars(&graph.scalars, &of.homes, code.slots, table);
        put_objects(&graph.objects, &code.objects, table);
        left = rest;
        codes_left = codes_behind;
        homes_left = homes_behind;
    }
}

/// The static variables and the literals.
fn put_statics(addresses: &[u32], table: &mut [Storage])
    ensures { table.new ≡ put_all (statics_kept 0 addresses.now) table.old }
{
    let mut left = addresses;
    let mut number = 0usize;
    while let [address, rest @ ..] = left {
        if number < table.len() {
            table[number] = Storage::Static(*address);
        }
        number += 1;
        left = rest;
    }
}

/// Where so many variables of a unit with this code are kept. One that is nowhere has a storage that no image gives it.
/// The only error is want of memory.
pub fn storages_of(
    alloc: Global,
    homed: &HomedUnit,
    emitted: &Emitted,
    variables: usize,
) -> Result<Vec<Storage>, AllocError>
    ensures { IfOk result (λ v. v.items ≡ storages_of (homed_view homed.now) (emitted_view emitted.now) variables) }
{
    let mut table = vec![in alloc; Storage::Static(0); variables]?;
    put_statics(&emitted.statics, &mut table);
    put_functions(
        &homed.unit.graphs,
        &emitted.functions,
        &homed.homes,
        &mut table,
    );
    Ok(table)
}
