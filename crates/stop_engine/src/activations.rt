//! The activations that are live at a stop, as a session shows them.

ghost use Rattle.std.specs.Prelude.{◌≡◌, ◌<◌, All, IfOk, length, map};
ghost use Rattle.image_form.specs.Rules.{IsImage};
ghost use Rattle.image_form.specs.RulesOfFunctions.{IsPlaceNumber};
ghost use Rattle.image_form.specs.Views.{viewed};
ghost use Rattle.stop_engine.specs.Activations.{activation_at, activation_lines, activation_of, activations};
ghost use Rattle.stop_engine_tables.specs.Tables.{AreTablesOf};

use image_form::View;
use line_form::frame_line;
use rv_machine::Machine;
use std::alloc::{AllocError, Global};
use stop_engine_tables::{Tables, frame_places};

/// An activation that is live at a stop.
#[derive(Drop)]
pub struct Frame {
    /// The name of its function.
    pub function: Vec<u8>,
    /// The line of the source at which it stands.
    pub line: u32,
    /// The number of the place at which it stands.
    pub place: u32,
}

/// The activation that stands at a place. `AllocError` where memory for its name was refused.
fn activation_at(
    alloc: Global,
    image: &View<'_>,
    tables: &Tables,
    place: u32,
) -> Result<Frame, AllocError>
    requires image { IsImage (viewed image.now) }
    requires tables { AreTablesOf (viewed image.now) tables.now }
    requires place { IsPlaceNumber (viewed image.now) place }
    ensures { IfOk result (λ frame. activation_of frame ≡ activation_at (viewed image.now) place) }
{
    let at = image.place_at(place as usize - 1);
    let name = tables.names.function(image, at.function as usize);
    Ok(Frame {
        function: name.to_vec(alloc)?,
        line: at.line,
        place,
    })
}

/// The activations that stand at these places. `AllocError` where memory for them was refused.
fn activations_at(
    alloc: Global,
    image: &View<'_>,
    tables: &Tables,
    places: &[u32],
) -> Result<Vec<Frame>, AllocError>
    requires image { IsImage (viewed image.now) }
    requires tables { AreTablesOf (viewed image.now) tables.now }
    requires places { All (IsPlaceNumber (viewed image.now)) places.now }
    ensures { IfOk result (λ frames. map activation_of frames.items ≡ map (activation_at (viewed image.now)) places.now) }
{
    let mut frames = Vec::new(alloc);
    for place in places {
        let frame = activation_at(alloc, image, tables, *place)?;
        frames.push(frame)?;
    }
    Ok(frames)
}

/// The activations that are live at a stop, the innermost, which stands at this place, first. `AllocError` where memory
/// for them was refused.
pub fn activations(
    alloc: Global,
    image: &View<'_>,
    machine: &Machine,
    tables: &Tables,
    place: u32,
) -> Result<Vec<Frame>, AllocError>
    requires image { IsImage (viewed image.now) }
    requires tables { AreTablesOf (viewed image.now) tables.now }
    requires place { IsPlaceNumber (viewed image.now) place }
    ensures { IfOk result (λ frames. map activation_of frames.items ≡ activations (viewed image.now) machine.now place) }
{
    let places = frame_places(alloc, image, machine, place)?;
    activations_at(alloc, image, tables, &places)
}

/// The lines of activations, from number 0 on. `AllocError` where memory for them was refused.
pub fn activation_lines(alloc: Global, frames: &[Frame]) -> Result<Vec<Vec<u8>>, AllocError>
    requires { length frames.now < 4294967296 }
    ensures { IfOk result
        (λ lines. map (λ line. line.items) lines.items ≡ activation_lines 0 (map activation_of frames.now)) }
{
    let mut lines = Vec::new(alloc);
    for (number, frame) in frames.iter().enumerate() {
        let line = frame_line(
            alloc,
            number as u32,
            &frame.function,
            frame.line,
            frame.place,
        )?;
        lines.push(line)?;
    }
    Ok(lines)
}
