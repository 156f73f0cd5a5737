//! The places that `break` marks.

ghost use Rattle.std.specs.Prelude.{◌≡◌, ◌<◌, ◌≤◌, ℕ, IfOk, length, map, slice_index_or};
ghost use Rattle.image_form.specs.Lists.{EachToNext};
ghost use Rattle.image_form.specs.declared.tables.FlowPair.{FlowPair};
ghost use Rattle.image_form.specs.declared.tables.Place.{Place as SourcePlace};
ghost use Rattle.image_form.specs.Rules.{IsImage};
ghost use Rattle.image_form.specs.RulesOfChanges.{IsPairBefore};
ghost use Rattle.image_form.specs.Views.{viewed};
ghost use Rattle.script_form.specs.Script.{mark};
ghost use Rattle.stop_engine.specs.Breaks.{break_places, first_place, followers, function_called, is_stop_on, least_of, one_or_none, stops_on};
ghost use Rattle.stop_engine.specs.FunctionNames.{AreFunctionNamesOf};
ghost use Rattle.stop_engine.specs.Transcript.{marked_line};

use crate::function_names::FunctionNames;
use crate::stop_table::StopTable;
use debug_records::Place;
use image_form::{Function, View};
use line_form::{break_line, no_function_line, no_place_line};
use script_form::Target;
use std::alloc::{AllocError, Global};

/// Whether a place is a stop on a line of the source.
fn is_stop_on(table: &StopTable, line: u32, place: image_form::Place) -> bool
    ensures { result ≡ is_stop_on table.now line place }
{
    place.line == line && table.stop_at(place.address).is_some()
}

/// The index of the first place that is on no earlier line.
fn first_on(image: &View<'_>, line: u32) -> usize
    requires { EachToNext (λ p q. p.line ≤ q.line) (viewed image.now).places }
    ensures before { (k : ℕ) (d : SourcePlace) → k < result → k < length (viewed image.now).places
        → (slice_index_or (viewed image.now).places k d).line < line }
    ensures behind { (k : ℕ) (d : SourcePlace) → result ≤ k → k < length (viewed image.now).places
        → line ≤ (slice_index_or (viewed image.now).places k d).line }
{
    let mut low = 0;
    let mut high = image.place_count();
    while low < high {
        let middle = low + (high - low) / 2;
        if image.place_at(middle).line < line {
            low = middle + 1;
        } else {
            high = middle;
        }
    }
    low
}

/// The stops on a line of the source: its places lie side by side, since lines do not fall from place to place.
fn stops_on(alloc: Global, table: &StopTable, line: u32) -> Result<Vec<Place>, AllocError>
    requires { IsImage table.now }
    ensures { IfOk result (λ places. map (λ p. p.0) places.items ≡ stops_on table.now line 1 table.now.places) }
{
    let image = table.image();
    let count = image.place_count();
    let mut on_line = Vec::new(alloc);
    let mut index = first_on(&image, line);
    while index < count {
        let place = image.place_at(index);
        if place.line != line {
            return Ok(on_line);
        }
        if is_stop_on(table, line, place) {
            on_line.push(Place(index as u32 + 1))?;
        }
        index += 1;
    }
    Ok(on_line)
}

/// The first function of a name, if there is one.
fn function_called(image: &View<'_>, functions: &FunctionNames, name: &[u8]) -> Option<Function>
    requires { AreFunctionNamesOf (viewed image.now) functions.now }
    ensures { result ≡ function_called (viewed image.now) name.now 0 (viewed image.now).functions }
{
    match functions.first.get(name) {
        Some(number) => Some(image.function_at(*number)),
        None => None,
    }
}

/// The index of the first pair that leads from no earlier place.
fn first_from(image: &View<'_>, place: u32) -> usize
    requires { EachToNext (λ a b. IsPairBefore a.from a.to b.from b.to) (viewed image.now).flow }
    ensures before { (k : ℕ) (d : FlowPair) → k < result → k < length (viewed image.now).flow
        → (slice_index_or (viewed image.now).flow k d).from < place }
    ensures behind { (k : ℕ) (d : FlowPair) → result ≤ k → k < length (viewed image.now).flow
        → place ≤ (slice_index_or (viewed image.now).flow k d).from }
{
    let mut low = 0;
    let mut high = image.flow_count();
    while low < high {
        let middle = low + (high - low) / 2;
        if image.flow_at(middle).from < place {
            low = middle + 1;
        } else {
            high = middle;
        }
    }
    low
}

/// The least place that follows a place, if one does: the pairs ascend, so it stands in the first of them.
fn least_follower(image: &View<'_>, place: u32) -> Option<u32>
    requires { EachToNext (λ a b. IsPairBefore a.from a.to b.from b.to) (viewed image.now).flow }
    ensures { result ≡ least_of (followers place (viewed image.now).flow) }
{
    let index = first_from(image, place);
    if index >= image.flow_count() {
        return None;
    }
    let pair = image.flow_at(index);
    if pair.from == place {
        Some(pair.to)
    } else {
        None
    }
}

/// The least place that follows the entry of the first function of a name.
fn first_place(image: &View<'_>, functions: &FunctionNames, name: &[u8]) -> Option<u32>
    requires image { IsImage (viewed image.now) }
    requires functions { AreFunctionNamesOf (viewed image.now) functions.now }
    ensures { result ≡ first_place (viewed image.now) name.now }
{
    let function = function_called(image, functions, name)?;
    least_follower(image, function.entry)
}

/// The same, as a list.
fn first_places(
    alloc: Global,
    image: &View<'_>,
    functions: &FunctionNames,
    name: &[u8],
) -> Result<Vec<Place>, AllocError>
    requires image { IsImage (viewed image.now) }
    requires functions { AreFunctionNamesOf (viewed image.now) functions.now }
    ensures { IfOk result
        (λ places. map (λ p. p.0) places.items ≡ one_or_none (first_place (viewed image.now) name.now)) }
{
    match first_place(image, functions, name) {
        Some(place) => Ok(vec![in alloc; Place(place)]?),
        None => Ok(Vec::new(alloc)),
    }
}

/// The places that `break` marks. `AllocError` where memory for them was refused.
pub fn break_places(
    alloc: Global,
    table: &StopTable,
    functions: &FunctionNames,
    target: &Target,
) -> Result<Vec<Place>, AllocError>
    requires image { IsImage table.now }
    requires functions { AreFunctionNamesOf table.now functions.now }
    ensures { IfOk result (λ places. map (λ p. p.0) places.items ≡ break_places table.now (mark target.now)) }
{
    match target {
        Target::Line(line) => Ok(stops_on(alloc, table, *line)?),
        Target::Function(name) => Ok(first_places(
            alloc,
            &table.image(),
            functions,
            name.as_bytes(),
        )?),
    }
}

/// The line that says which places `break` marks. `AllocError` where memory for it was refused.
pub fn marked_line(alloc: Global, target: &Target, places: &[Place]) -> Result<Vec<u8>, AllocError>
    ensures { IfOk result (λ line. line.items ≡ marked_line (mark target.now) (map (λ p. p.0) places.now)) }
{
    if !places.is_empty() {
        return Ok(break_line(alloc, places)?);
    }
    match target {
        Target::Line(line) => Ok(no_place_line(alloc, *line)?),
        Target::Function(name) => Ok(no_function_line(alloc, name.as_bytes())?),
    }
}
