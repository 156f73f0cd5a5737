//! The code of a unit.

ghost use Rattle.std.specs.Prelude.{◌≡◌, ◌+◌, ◌≤◌, false, IfOk, OnOk, length};
ghost use Rattle.graph_core.specs.Validity.{IsValid};
ghost use Rattle.graph_homes.specs.Homed.{HaveHomes, homed_view};
ghost use Rattle.rv_emit_storage.specs.UnitMaps.{map_of_unit};
ghost use Rattle.memory_map.specs.Maps.{most_words};
ghost use Rattle.std.specs.Prelude.{◌++◌, map};
ghost use Rattle.rv_emit_tables.specs.Emitted.{emitted_view};
ghost use Rattle.rv_emit_layout.specs.declared.layout.OwnedWord.{OwnedWord};
ghost use Rattle.rv_emit_sequence.specs.Sequences.{sequence_view};
ghost use Rattle.rv_emit_layout.specs.Laid.{coded_view, firsts_from, laid_view, static_view, stub_form, words_of_all, IsCodeOf, IsEmittedOf};
ghost use Rattle.rv_emit_layout.specs.Placed.{AreFirstAddresses};

use crate::laying::{Laid, lay_out_all, shorten_all};
use crate::telling::{stops_of, told_all};
use crate::{OwnedWord, longest_layout};
use graph_homes::HomedUnit;
use memory_map::Map;
use rv_emit_code::stub;
use rv_emit_sequence::Sequence;
use rv_emit_sequence::table::at;
use rv_emit_storage::{Statics, initial_bytes, map_of_unit, static_addresses};
use rv_emit_tables::Emitted;
use std::alloc::{AllocError, Global};

/// The code of a unit with what stands where.
#[derive(Drop)]
struct Coded {
    all: Vec<Laid>,
    /// How many words stand before each function, and in all.
    firsts: Vec<u32>,
    words: Vec<OwnedWord>,
}

/// What stands before all functions.
fn stub_sequence(alloc: Global, regions: Map, main: u32) -> Result<Sequence, AllocError>
    ensures form { IfOk result (λ made. sequence_view made ≡ stub_form regions main) }
{
    Ok(Sequence {
        pieces: stub(alloc, regions, main)?,
        begin: 0,
        labels: Vec::new(alloc),
        ends: Vec::new(alloc),
        numbers: Vec::new(alloc),
    })
}

/// How many words stand before each function, if so many stand before the first, and in all.
fn firsts_of(alloc: Global, stub: u32, all: &[Laid]) -> Result<Vec<u32>, AllocError>
    ensures { IfOk result (λ firsts. firsts.items ≡ firsts_from stub (map laid_view all.now)) }
{
    let mut firsts = Vec::new(alloc);
    let mut words = stub;
    let mut left = all;
    while let [one, rest @ ..] = left {
        firsts.push(words)?;
        words = words.saturating_add(one.layout.words);
        left = rest;
    }
    firsts.push(words)?;
    Ok(firsts)
}

/// Appends the words of all functions.
fn push_functions(all: &[Laid], firsts: &[u32], code: &mut Vec<OwnedWord>) -> Result<(), AllocError>
    ensures { OnOk result (code.new.items ≡ code.old.items ++ words_of_all firsts.now 0 (map laid_view all.now)) }
{
    let mut function = 0u32;
    let mut left = all;
    while let [one, rest @ ..] = left {
        let first = at(firsts, function);
        one.layout.push_words(&one.sequence, first, firsts, code)?;
        function = function.saturating_add(1);
        left = rest;
    }
    Ok(())
}

/// The code of a unit, by plans or without them.
fn code_of(
    alloc: Global,
    statics: &Statics,
    homed: &HomedUnit,
    is_planned: bool,
) -> Result<Coded, AllocError>
    requires valid { IsValid (homed_view homed.now).unit }
    ensures each { IfOk result (λ c. length c.all.items ≡ length homed.now.unit.graphs.items) }
    ensures few { is_planned ≡ false
        → IfOk result (λ c. length c.words.items ≤ most_words (map_of_unit (homed_view homed.now).unit)) }
    ensures code { IfOk result (λ c. IsCodeOf (homed_view homed.now) (static_view statics.now) (coded_view c)) }
{
    let room = homed.unit.room;
    let before = stub_sequence(alloc, map_of_unit(&homed.unit), homed.unit.main)?;
    let stub = longest_layout(alloc, room, &before)?;
    let mut all = lay_out_all(alloc, statics, homed, is_planned)?;
    let longest = firsts_of(alloc, stub.words, &all)?;
    shorten_all(alloc, room, &longest, &mut all)?;
    let firsts = firsts_of(alloc, stub.words, &all)?;
    let mut words = Vec::new(alloc);
    stub.push_words(&before, 0, &firsts, &mut words)?;
    push_functions(&all, &firsts, &mut words)?;
    Ok(Coded { all, firsts, words })
}

/// The code of a unit: by plans, as long as it is short enough, which it is without them.
fn short_code_of(alloc: Global, statics: &Statics, homed: &HomedUnit) -> Result<Coded, AllocError>
    requires valid { IsValid (homed_view homed.now).unit }
    ensures each { IfOk result (λ c. length c.all.items ≡ length homed.now.unit.graphs.items) }
    ensures few { IfOk result (λ c. length c.words.items ≤ most_words (map_of_unit (homed_view homed.now).unit)) }
    ensures code { IfOk result (λ c. IsCodeOf (homed_view homed.now) (static_view statics.now) (coded_view c)) }
{
    let coded = code_of(alloc, statics, homed, true)?;
    if coded.words.len() <= map_of_unit(&homed.unit).most_words() {
        return Ok(coded);
    }
    code_of(alloc, statics, homed, false)
}

/// The words alone.
fn words_of(alloc: Global, code: &[OwnedWord]) -> Result<Vec<u32>, AllocError>
    ensures { IfOk result (λ v. v.items ≡ map (λ (w : OwnedWord). w.word) code.now) }
{
    let mut words = Vec::new(alloc);
    let mut left = code;
    while let [word, rest @ ..] = left {
        words.push(word.word)?;
        left = rest;
    }
    Ok(words)
}

/// The owners alone.
fn owners_of(alloc: Global, code: &[OwnedWord]) -> Result<Vec<u32>, AllocError>
    ensures { IfOk result (λ v. v.items ≡ map (λ (w : OwnedWord). w.owner) code.now) }
{
    let mut owners = Vec::new(alloc);
    let mut left = code;
    while let [word, rest @ ..] = left {
        owners.push(word.owner)?;
        left = rest;
    }
    Ok(owners)
}

/// The code of a unit whose names have homes.
pub fn assemble(alloc: Global, homed: &HomedUnit) -> Result<Emitted, AllocError>
    requires valid { IsValid (homed_view homed.now).unit }
    requires homes { HaveHomes (homed_view homed.now) }
    ensures few { IfOk result (λ e. length e.code.items ≤ most_words e.map) }
    ensures owners { IfOk result (λ e. length e.owners.items ≡ length e.code.items) }
    ensures functions { IfOk result (λ e. length e.functions.items ≡ length homed.now.unit.graphs.items) }
    ensures statics { IfOk result (λ e. AreFirstAddresses (homed_view homed.now).unit e.statics.items) }
    ensures code { IfOk result (λ e. IsEmittedOf (homed_view homed.now) (emitted_view e)) }
{
    let statics = static_addresses(alloc, &homed.unit)?;
    let coded = short_code_of(alloc, &statics, homed)?;
    let functions = told_all(alloc, &homed.unit.graphs, &coded.all, &coded.firsts)?;
    Ok(Emitted {
        map: map_of_unit(&homed.unit),
        code: words_of(alloc, &coded.words)?,
        owners: owners_of(alloc, &coded.words)?,
        initial: initial_bytes(alloc, &homed.unit, &statics)?,
        stops: stops_of(alloc, &coded.all, &coded.firsts)?,
        functions,
        statics: statics.objects,
    })
}
