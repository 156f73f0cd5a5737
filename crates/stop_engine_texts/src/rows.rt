//! What is shown of the variables that are visible at a place.

ghost use Rattle.std.specs.Prelude.{◌≡◌, ◌<◌, ◌≤◌, [], IfOk, length, option_map, unwrap_or};
ghost use Rattle.image_form.specs.Rules.{IsImage};
ghost use Rattle.image_form.specs.RulesOfFunctions.{IsPlaceNumber};
ghost use Rattle.image_form.specs.Views.{viewed};
ghost use Rattle.image_form.specs.declared.verdicts.Verdict.TheVariants.{Recovered as RecoveredBy};
ghost use Rattle.places.specs.Path.{places};
ghost use Rattle.places.specs.Route.{route_of};
ghost use Rattle.stop_engine_tables.specs.Tables.{AreTablesOf};
ghost use Rattle.stop_engine_texts.specs.Rows.{IsChangeNumber, IsRow, change_words, hidden_sight, row_sight, verdict_sight};
ghost use Rattle.stop_engine_texts.specs.Sight.{Noncurrent, Nonresident, Suspect, sight_of};
ghost use Rattle.stop_engine_view.specs.Evidence.{row_path, row_quest, via_of};
ghost use Rattle.stop_engine_view.specs.QuietPaths.{quiet_path};
ghost use Rattle.stop_engine_view.specs.Values.{held_text, recipe_levels, recovered_text};

use crate::recipes::recipe_value;
use crate::shown::Shown;
use crate::values::{variable_text, word_text};
use debug_records::{Place, Var};
use image_form::{Verdict, View, VisibleRow};
use line_form::change_text;
use places::{Path, route, route_past};
use rv_machine::Machine;
use std::alloc::{AllocError, Global};
use stop_engine_tables::{Tables, disturbed_places, owner_of};

/// The text of a change, by its number.
fn change_words(
    alloc: Global,
    image: &View<'_>,
    tables: &Tables,
    number: u32,
) -> Result<Vec<u8>, AllocError>
    requires image { IsImage (viewed image.now) }
    requires tables { AreTablesOf (viewed image.now) tables.now }
    requires some { 1 ≤ number }
    requires known { number ≤ length (viewed image.now).changes }
    ensures { IfOk result (λ text. text.items ≡ change_words (viewed image.now) number) }
{
    let index = number as usize - 1;
    let change = image.change_at(index);
    let pass = tables.names.pass(image, index);
    Ok(change_text(alloc, number, pass, change.kind, change.place)?)
}

/// The place by which a path goes: that of the change, or that of the code word that wrote.
fn via_of(image: &View<'_>, change: u32, writer: Option<u32>) -> u32
    requires some { 1 ≤ change }
    requires known { change ≤ length (viewed image.now).changes }
    ensures { result ≡ via_of (viewed image.now) change writer }
{
    match writer {
        None => image.change_at(change as usize - 1).place,
        Some(address) => owner_of(image, address),
    }
}

/// A variable at a place, and what is said of it there.
#[derive(Clone, Copy)]
pub struct Evidence {
    pub variable: u32,
    pub place: u32,
    pub change: u32,
    pub start: u32,
    pub writer: Option<u32>,
}

/// What is said of the variable of a row.
fn evidence_of(row: VisibleRow, change: u32, start: u32, writer: Option<u32>) -> Evidence
    ensures { result ≡
        (record { variable = row.variable; place = row.place; change = change; start = start; writer = writer }) }
{
    Evidence {
        variable: row.variable,
        place: row.place,
        change,
        start,
        writer,
    }
}

/// The path that shows why a variable is not shown, if there is one.
fn evidence_path(
    alloc: Global,
    image: &View<'_>,
    tables: &Tables,
    evidence: Evidence,
) -> Result<Option<Path>, AllocError>
    requires some { 1 ≤ evidence.change }
    requires known { evidence.change ≤ length (viewed image.now).changes }
    requires tables { AreTablesOf (viewed image.now) tables.now }
    ensures { IfOk result (λ path. option_map (λ p. places p) path
        ≡ route_of (row_quest (viewed image.now) evidence.variable evidence.change evidence.start evidence.writer
        evidence.place)) }
{
    let via = via_of(image, evidence.change, evidence.writer);
    let start = Place(evidence.start);
    let stop = Place(evidence.place);
    Ok(route(
        alloc,
        &tables.flow,
        Var(evidence.variable),
        start,
        Place(via),
        stop,
    )?)
}

/// How many levels a recipe has at most.
#[tactic(auto, unfolding(stop_engine_view::specs::Values::recipe_levels))]
fn recipe_levels() -> usize
    ensures { result ≡ recipe_levels }
{
    4
}

/// The text of the value of a recipe, as one of a variable's type.
fn recovered_text(
    alloc: Global,
    image: &View<'_>,
    machine: &Machine,
    tables: &Tables,
    place: u32,
    variable: u32,
    node: u32,
) -> Result<Vec<u8>, AllocError>
    requires image { IsImage (viewed image.now) }
    requires tables { AreTablesOf (viewed image.now) tables.now }
    requires place { IsPlaceNumber (viewed image.now) place }
    requires variable { variable < length (viewed image.now).variables }
    ensures { IfOk result (λ text. text.items ≡ recovered_text (viewed image.now) machine.now place variable node) }
{
    let element = image.variable_at(variable as usize).element;
    let word = recipe_value(image, machine, recipe_levels(), node);
    Ok(word_text(alloc, image, machine, tables, place, element, word)?)
}

/// The text of the value that a variable's home holds.
pub fn held_text(
    alloc: Global,
    image: &View<'_>,
    machine: &Machine,
    tables: &Tables,
    place: u32,
    variable: usize,
) -> Result<Vec<u8>, AllocError>
    requires image { IsImage (viewed image.now) }
    requires tables { AreTablesOf (viewed image.now) tables.now }
    requires place { IsPlaceNumber (viewed image.now) place }
    requires variable { variable < length (viewed image.now).variables }
    ensures { IfOk result (λ text. text.items ≡ held_text (viewed image.now) machine.now place variable) }
{
    let kept = image.variable_at(variable);
    Ok(variable_text(alloc, image, machine, tables, place, kept)?)
}

/// The value of a variable, computed anew.
fn anew(
    alloc: Global,
    image: &View<'_>,
    machine: &Machine,
    tables: &Tables,
    row: VisibleRow,
    change: u32,
    node: u32,
) -> Result<Shown, AllocError>
    requires image { IsImage (viewed image.now) }
    requires tables { AreTablesOf (viewed image.now) tables.now }
    requires place { IsPlaceNumber (viewed image.now) row.place }
    requires variable { row.variable < length (viewed image.now).variables }
    requires change { IsChangeNumber (viewed image.now) change }
    ensures { IfOk result (λ shown. sight_of shown
        ≡ verdict_sight (viewed image.now) machine.now row.place row.variable row.quiet (RecoveredBy change node)) }
{
    let value = recovered_text(alloc, image, machine, tables, row.place, row.variable, node)?;
    let change = change_words(alloc, image, tables, change)?;
    Ok(Shown::Recovered { value, change })
}

/// The change for which a variable is not shown, as a text, and the path that shows it, if there is one.
#[derive(Drop)]
pub struct Witness {
    pub change: Vec<u8>,
    pub path: Option<Path>,
}

/// Why a variable is not shown.
fn tell(
    alloc: Global,
    image: &View<'_>,
    tables: &Tables,
    evidence: Evidence,
) -> Result<Witness, AllocError>
    requires image { IsImage (viewed image.now) }
    requires tables { AreTablesOf (viewed image.now) tables.now }
    requires change { IsChangeNumber (viewed image.now) evidence.change }
    ensures change { IfOk result (λ w. w.change.items ≡ change_words (viewed image.now) evidence.change) }
    ensures path { IfOk result (λ w. unwrap_or (option_map (λ p. places p) w.path) []
        ≡ row_path (viewed image.now) evidence.variable evidence.change evidence.start evidence.writer evidence.place) }
{
    let path = evidence_path(alloc, image, tables, evidence)?;
    let change = change_words(alloc, image, tables, evidence.change)?;
    Ok(Witness { change, path })
}

/// The path from a start on which nothing disturbs the variable of a row, if there is one.
fn quiet_path(
    alloc: Global,
    image: &View<'_>,
    tables: &Tables,
    row: VisibleRow,
    start: u32,
) -> Result<Option<Path>, AllocError>
    requires image { IsImage (viewed image.now) }
    requires tables { AreTablesOf (viewed image.now) tables.now }
    requires variable { row.variable < length (viewed image.now).variables }
    ensures { IfOk result (λ path. unwrap_or (option_map (λ p. places p) path) []
        ≡ quiet_path (viewed image.now) row.variable start row.place) }
{
    let disturbed = disturbed_places(alloc, image, row.variable)?;
    let (start, stop) = (Place(start), Place(row.place));
    Ok(route_past(alloc, &tables.flow.steps, &disturbed, start, start, stop)?)
}

/// What is shown of a variable whose home may have its value, by a quiet path from a start, or not.
fn suspect(
    alloc: Global,
    image: &View<'_>,
    tables: &Tables,
    row: VisibleRow,
    start: u32,
    witness: Witness,
) -> Result<Shown, AllocError>
    requires image { IsImage (viewed image.now) }
    requires tables { AreTablesOf (viewed image.now) tables.now }
    requires variable { row.variable < length (viewed image.now).variables }
    ensures { IfOk result (λ shown. sight_of shown
        ≡ Suspect witness.change.items (unwrap_or (option_map (λ p. places p) witness.path) [])
        (quiet_path (viewed image.now) row.variable start row.place)) }
{
    let current = quiet_path(alloc, image, tables, row, start)?;
    let Witness { change, path } = witness;
    Ok(Shown::Suspect {
        change,
        path,
        current,
    })
}

/// What is shown of the variable of a row whose home has not its value.
fn noncurrent(
    alloc: Global,
    image: &View<'_>,
    tables: &Tables,
    row: VisibleRow,
    evidence: Evidence,
) -> Result<Shown, AllocError>
    requires image { IsImage (viewed image.now) }
    requires tables { AreTablesOf (viewed image.now) tables.now }
    requires variable { row.variable < length (viewed image.now).variables }
    requires change { IsChangeNumber (viewed image.now) evidence.change }
    requires of { (evidence.variable ≡ row.variable) × (evidence.place ≡ row.place) }
    ensures { IfOk result (λ shown. sight_of shown
        ≡ hidden_sight (viewed image.now) row.place row.variable row.quiet Noncurrent evidence.change evidence.start
        evidence.writer) }
{
    let witness = tell(alloc, image, tables, evidence)?;
    match row.quiet {
        Some(start) => suspect(alloc, image, tables, row, start, witness),
        None => Ok(Shown::Noncurrent {
            change: witness.change,
            path: witness.path,
        }),
    }
}

/// What is shown of the variable of a row whose home has another's value.
fn nonresident(
    alloc: Global,
    image: &View<'_>,
    tables: &Tables,
    row: VisibleRow,
    evidence: Evidence,
) -> Result<Shown, AllocError>
    requires image { IsImage (viewed image.now) }
    requires tables { AreTablesOf (viewed image.now) tables.now }
    requires variable { row.variable < length (viewed image.now).variables }
    requires change { IsChangeNumber (viewed image.now) evidence.change }
    requires of { (evidence.variable ≡ row.variable) × (evidence.place ≡ row.place) }
    ensures { IfOk result (λ shown. sight_of shown
        ≡ hidden_sight (viewed image.now) row.place row.variable row.quiet Nonresident evidence.change evidence.start
        evidence.writer) }
{
    let witness = tell(alloc, image, tables, evidence)?;
    match row.quiet {
        Some(start) => suspect(alloc, image, tables, row, start, witness),
        None => Ok(Shown::Nonresident {
            change: witness.change,
            path: witness.path,
        }),
    }
}

/// What is shown of the variable of a row. `AllocError` where memory for it was refused.
pub fn row_shown(
    alloc: Global,
    image: &View<'_>,
    machine: &Machine,
    tables: &Tables,
    row: VisibleRow,
) -> Result<Shown, AllocError>
    requires image { IsImage (viewed image.now) }
    requires row { IsRow (viewed image.now) row }
    requires tables { AreTablesOf (viewed image.now) tables.now }
    ensures { IfOk result (λ shown. sight_of shown ≡ row_sight (viewed image.now) machine.now row) }
{
    match row.verdict {
        Verdict::Home => {
            let value = held_text(
                alloc,
                image,
                machine,
                tables,
                row.place,
                row.variable as usize,
            )?;
            Ok(Shown::Value(value))
        }
        Verdict::Recovered { change, node } => {
            Ok(anew(alloc, image, machine, tables, row, change, node)?)
        }
        Verdict::Noncurrent {
            change,
            start,
            writer,
        } => noncurrent(
            alloc,
            image,
            tables,
            row,
            evidence_of(row, change, start, writer),
        ),
        Verdict::Nonresident {
            change,
            start,
            writer,
        } => nonresident(
            alloc,
            image,
            tables,
            row,
            evidence_of(row, change, start, writer),
        ),
    }
}
