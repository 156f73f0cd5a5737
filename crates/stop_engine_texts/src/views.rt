//! What is shown of a name where the session stands at a place.

ghost use Rattle.std.specs.Prelude.{◌≡◌, ◌<◌, IfOk, IfSome, length};
ghost use Rattle.image_form.specs.Rules.{IsImage};
ghost use Rattle.image_form.specs.RulesOfFunctions.{IsPlaceNumber};
ghost use Rattle.image_form.specs.Views.{viewed};
ghost use Rattle.stop_engine_tables.specs.Tables.{AreTablesOf};
ghost use Rattle.stop_engine_texts.specs.Shown.{is_static_before, name_sight, position_of_place, static_of};
ghost use Rattle.stop_engine_texts.specs.Sight.{sight_of};

use crate::rows::{held_text, row_shown};
use crate::shown::Shown;
use crate::visible::visible_row;
use image_form::{Variable, View};
use rv_machine::Machine;
use std::alloc::{AllocError, Global};
use stop_engine_tables::Tables;

/// The byte of the text at which a place begins.
fn position_of_place(image: &View<'_>, place: u32) -> u32
    requires { IsPlaceNumber (viewed image.now) place }
    ensures { result ≡ position_of_place (viewed image.now) place }
{
    image.place_at(place as usize - 1).position
}

/// Whether a variable is a static one that is declared before a position.
fn is_static_before(position: u32, variable: &Variable) -> bool
    ensures { result ≡ is_static_before position variable.now }
{
    variable.function.is_none() && variable.position < position
}

/// The number of the first static variable of a name that is declared before a position, if there is one.
fn static_of(image: &View<'_>, tables: &Tables, position: u32, name: &[u8]) -> Option<usize>
    requires image { IsImage (viewed image.now) }
    requires tables { AreTablesOf (viewed image.now) tables.now }
    ensures found { result ≡ static_of (viewed image.now) position name.now 0 (viewed image.now).variables }
    ensures number { IfSome result (λ variable. variable < length (viewed image.now).variables) }
{
    for number in 0..image.variable_count() {
        let variable = image.variable_at(number);
        if is_static_before(position, &variable) && tables.names.variable(image, number) == name {
            return Some(number);
        }
    }
    None
}

/// What is shown of a name: of the first visible variable that has it, else of the first static one that is declared
/// before the place. `AllocError` where memory for the text was refused.
pub fn name_shown(
    alloc: Global,
    image: &View<'_>,
    machine: &Machine,
    tables: &Tables,
    place: u32,
    name: &[u8],
) -> Result<Shown, AllocError>
    requires image { IsImage (viewed image.now) }
    requires place { IsPlaceNumber (viewed image.now) place }
    requires tables { AreTablesOf (viewed image.now) tables.now }
    ensures { IfOk result (λ shown. sight_of shown ≡ name_sight (viewed image.now) machine.now place name.now) }
{
    if let Some(row) = visible_row(image, tables, place, name) {
        return Ok(row_shown(alloc, image, machine, tables, row)?);
    }
    match static_of(image, tables, position_of_place(image, place), name) {
        Some(variable) => {
            let value = held_text(alloc, image, machine, tables, place, variable)?;
            Ok(Shown::Value(value))
        }
        None => Ok(Shown::NoName),
    }
}
