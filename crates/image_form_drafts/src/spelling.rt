//! The image of tables, and its bytes.

ghost use Rattle.std.specs.Prelude.{◌≡◌, IfNone, IfOk, IfSome, length};
ghost use Rattle.image_form.specs.Form.{Form, form};
ghost use Rattle.image_form.specs.Rules.{IsImage};
ghost use Rattle.image_form.specs.Spelling.{spelling};
ghost use Rattle.image_form_drafts.specs.Same.{SaysTheSame};

use crate::fitting::tables_fit;
use image_form::{Image, ImageErr, read, spell};
use std::alloc::{AllocError, Global};

/// An image, and the bytes that spell it.
#[derive(Drop)]
pub struct SpelledImage {
    pub image: Image,
    pub bytes: Vec<u8>,
}

/// The image that bytes spell, if they spell one.
fn image_in(alloc: Global, bytes: &[u8]) -> Result<Option<Image>, AllocError>
    ensures image { IfOk result (λ o. IfSome o (λ m. IsImage (form m))) }
    ensures bytes { IfOk result (λ o. IfSome o (λ m. bytes.now ≡ spelling (form m))) }
    ensures left_out { IfOk result (λ o. IfNone o ((f : Form) → IsImage f → bytes.now ≡ spelling f → ⊥)) }
{
    match read(alloc, bytes) {
        Ok(image) => Ok(Some(image)),
        Err(ImageErr::Refused(_, _)) => Ok(None),
        Err(ImageErr::NoMemory) => Err(AllocError),
    }
}

/// The image that says what these tables say, with as many owners as words: they are written and read back. None just
/// where they break a rule of images. The only error is want of memory.
pub fn spelled_image(alloc: Global, tables: &Image) -> Result<Option<SpelledImage>, AllocError>
    requires { length tables.now.owners.items ≡ length tables.now.code.items }
    ensures image { IfOk result (λ o. IfSome o (λ s. IsImage (form s.image))) }
    ensures bytes { IfOk result (λ o. IfSome o (λ s. s.bytes.items ≡ spelling (form s.image))) }
    ensures same { IfOk result (λ o. IfSome o (λ s. SaysTheSame (form tables.now) (form s.image))) }
    ensures left_out { IfOk result (λ o. IfNone o (IsImage (form tables.now) → ⊥)) }
{
    tables_fit(tables);
    let Some(bytes) = spell(alloc, tables)? else {
        return Ok(None);
    };
    let Some(image) = image_in(alloc, &bytes)? else {
        return Ok(None);
    };
    Ok(Some(SpelledImage { image, bytes }))
}
