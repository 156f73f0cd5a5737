//! The lines that answer what is asked of places and activations.

ghost use Rattle.std.specs.Prelude.{◌≡◌, ◌++◌, map, IfOk, OnOk};
ghost use Rattle.line_form.specs.Lines.{break_line, frame_line, no_frame_line, no_function_line, no_locals_line, no_place_line, spaced, spaced_number};

use debug_records::Place;
use std::alloc::{AllocError, Global};

/// The number of a place, with a space in front.
fn spaced_place(alloc: Global, place: Place) -> Result<Vec<u8>, AllocError>
    ensures { IfOk result (λ text. text.items ≡ spaced_number place.0) }
{
    let number = place.0;
    Ok(format!(in alloc; " {number}")?.into_bytes())
}

/// Appends the numbers of places, each with a space in front.
pub(crate) fn push_places(
    alloc: Global,
    text: &mut Vec<u8>,
    places: &[Place],
) -> Result<(), AllocError>
    ensures { OnOk result (text.new.items ≡ text.old.items ++ spaced (map (λ p. p.0) places.now)) }
{
    for place in places {
        let piece = spaced_place(alloc, *place)?;
        text.extend_from_slice(&piece)?;
    }
    Ok(())
}

/// `break at PLACE PLACE ..`: these places are marked. `AllocError` where memory for the text was refused, as for each
/// of these lines.
#[tactic(auto, unfolding(crate::specs::Lines::break_line))]
pub fn break_line(alloc: Global, places: &[Place]) -> Result<Vec<u8>, AllocError>
    ensures { IfOk result (λ text. text.items ≡ break_line (map (λ p. p.0) places.now)) }
{
    let mut text = Vec::from_slice(alloc, b"break at")?;
    push_places(alloc, &mut text, places)?;
    Ok(text)
}

/// `no place on line LINE`: no place stands on this line of the source.
#[tactic(auto, unfolding(crate::specs::Lines::no_place_line))]
pub fn no_place_line(alloc: Global, source_line: u32) -> Result<Vec<u8>, AllocError>
    ensures { IfOk result (λ text. text.items ≡ no_place_line source_line) }
{
    Ok(format!(in alloc; "no place on line {source_line}")?.into_bytes())
}

/// `no function NAME`: no function of this name has a place.
#[tactic(auto, unfolding(crate::specs::Lines::no_function_line))]
pub fn no_function_line(alloc: Global, name: &[u8]) -> Result<Vec<u8>, AllocError>
    ensures { IfOk result (λ text. text.items ≡ no_function_line name.now) }
{
    let mut text = Vec::from_slice(alloc, b"no function ")?;
    text.extend_from_slice(name)?;
    Ok(text)
}

/// `no locals`: no variable is visible.
#[tactic(auto, unfolding(crate::specs::Lines::no_locals_line))]
pub fn no_locals_line(alloc: Global) -> Result<Vec<u8>, AllocError>
    ensures { IfOk result (λ text. text.items ≡ no_locals_line) }
{
    Vec::from_slice(alloc, b"no locals")
}

/// `no frame NUMBER`: there is no activation of this number.
#[tactic(auto, unfolding(crate::specs::Lines::no_frame_line))]
pub fn no_frame_line(alloc: Global, number: u32) -> Result<Vec<u8>, AllocError>
    ensures { IfOk result (λ text. text.items ≡ no_frame_line number) }
{
    Ok(format!(in alloc; "no frame {number}")?.into_bytes())
}

/// `#NUMBER FUNCTION line LINE place PLACE`: an activation of this function stands there; the innermost one has number
/// 0.
#[tactic(auto, unfolding(crate::specs::Lines::frame_line))]
pub fn frame_line(
    alloc: Global,
    number: u32,
    function: &[u8],
    source_line: u32,
    place: u32,
) -> Result<Vec<u8>, AllocError>
    ensures { IfOk result (λ text. text.items ≡ frame_line number function.now source_line place) }
{
    let mut text = format!(in alloc; "#{number} ")?.into_bytes();
    text.extend_from_slice(function)?;
    let rest = format!(in alloc; " line {source_line} place {place}")?;
    text.extend_from_slice(rest.as_bytes())?;
    Ok(text)
}
