//! An image from its bytes.

ghost use Rattle.std.specs.Prelude.{◌≡◌, IfOk, Ok};
ghost use Rattle.image_form.specs.Decoding.{form_of_sections};
ghost use Rattle.image_form.specs.Form.{Form, form};
ghost use Rattle.image_form.specs.Lent.{image_in};
ghost use Rattle.image_form.specs.Reading.{read_of};
ghost use Rattle.image_form.specs.Rules.{IsImage};
ghost use Rattle.image_form.specs.Spelling.{spelling};
ghost use Rattle.image_form.specs.Views.{viewed};
ghost use Rattle.image_form_sections.specs.Breaches.{Gives};
ghost use Rattle.image_form_sections.specs.Layouts.{sections_in};
ghost use Rattle.image_form_sections.specs.Sections.{sections_at};

use crate::format::Image;
use crate::lent::View;
use crate::records::{mode_of, take_records};
use image_form_sections::{ImageErr, Layout, checked, version_of};
use std::alloc::{AllocError, Global};

/// The image that the bytes spell.
///
/// Bytes that spell no image are refused with the first rule that they break, in the order of the file, and the byte at
/// which they break it. The only other error is want of memory.
pub fn read(alloc: Global, bytes: &[u8]) -> Result<Image, ImageErr>
    // What is read is an image, and the bytes are its spelling.
    ensures found { IfOk result (λ image. IsImage (form image) × (bytes.now ≡ spelling (form image))) }

    // The spelling of an image is read, unless memory runs out.
    ensures all { (f : Form) → IsImage f → bytes.now ≡ spelling f → Gives form result (Ok f) }

    // Other bytes are refused for the first rule that they break.
    ensures exact { Gives form result (read_of bytes.now) }
{
    read_exactly(alloc, bytes)
}

#[tactic(auto, unfolding(crate::specs::Reading::read_of))]
fn read_exactly(alloc: Global, bytes: &[u8]) -> Result<Image, ImageErr>
    ensures { Gives form result (read_of bytes.now) }
{
    let layout = checked(alloc, bytes)?;
    Ok(image_of(alloc, &layout)?)
}

/// The image that the bytes spell, lent from them.
///
/// Bytes that spell no image are refused as `read` refuses them.
pub fn view(alloc: Global, bytes: &[u8]) -> Result<View<'_>, ImageErr>
    // What is viewed is an image, and the bytes are its spelling.
    ensures found { IfOk result (λ v. IsImage (viewed v) × (bytes.now ≡ spelling (viewed v))) }

    // The spelling of an image is viewed, unless memory runs out.
    ensures all { (f : Form) → IsImage f → bytes.now ≡ spelling f → Gives viewed result (Ok f) }

    // Other bytes are refused for the first rule that they break.
    ensures exact { Gives viewed result (read_of bytes.now) }
{
    view_exactly(alloc, bytes)
}

#[tactic(auto, unfolding(crate::specs::Reading::read_of))]
fn view_exactly(alloc: Global, bytes: &[u8]) -> Result<View<'_>, ImageErr>
    ensures { Gives viewed result (read_of bytes.now) }
{
    let layout = checked(alloc, bytes)?;
    Ok(View::new(bytes, &layout))
}

#[tactic(auto, unfolding(crate::specs::Decoding::form_of_sections))]
fn image_of(alloc: Global, layout: &Layout<'_>) -> Result<Image, AllocError>
    ensures { IfOk result (λ image. form image ≡ form_of_sections (sections_in layout.now)) }
{
    Ok(Image {
        version: version_of(layout.version),
        mode: mode_of(layout.mode),
        code: take_records(alloc, &layout.code)?,
        initial: layout.initial.to_vec(alloc)?,
        functions: take_records(alloc, &layout.functions)?,
        places: take_records(alloc, &layout.places)?,
        owners: take_records(alloc, &layout.owners)?,
        variables: take_records(alloc, &layout.variables)?,
        changes: take_records(alloc, &layout.changes)?,
        flow: take_records(alloc, &layout.flow)?,
        assigned: take_records(alloc, &layout.assigned)?,
        rows: take_records(alloc, &layout.rows)?,
        calls: take_records(alloc, &layout.calls)?,
        members: take_records(alloc, &layout.members)?,
        nodes: take_records(alloc, &layout.nodes)?,
        names: layout.names.to_vec(alloc)?,
    })
}
