//! The bytes of an image.

ghost use Rattle.std.specs.Prelude.{◌≡◌, ◌<◌, ◌≤◌, ◌^◌, ◌++◌, IfOk, MatchOption, OnOk};
ghost use Rattle.image_form.specs.Form.{form};
ghost use Rattle.image_form.specs.Numbers.{mode_number};
ghost use Rattle.image_form.specs.Rules.{IsImage};
ghost use Rattle.image_form.specs.Spelling.{body, header, record_count, section_bytes, short_header, size, spelled, spelling};
ghost use Rattle.image_form.specs.Unique.{SpellsOneImage};

use crate::format::Image;
use crate::records::{put_numbers, put_records};
use debug_records::Mode;
use image_form_sections::{Counts, Level, MAGIC, ORDER, Section, size, whole_size};
use std::alloc::{AllocError, Global};

/// The bytes that spell an image: a header, then its sections.
///
/// The only error is want of memory.
pub fn write(alloc: Global, image: &Image) -> Result<Vec<u8>, AllocError>
    requires { IsImage (form image.now) }
    ensures { IfOk result (λ v. v.items ≡ spelling (form image.now)) }
{
    write_all(alloc, image)
}

/// The bytes that spell the tables of an image, whether or not they keep the rules of images: so that reading them back
/// tells. None where they would be 2^32 bytes or more, whose number the header cannot say.
#[tactic(auto, unfolding(crate::specs::Spelling::size))]
pub fn spell(alloc: Global, image: &Image) -> Result<Option<Vec<u8>>, AllocError>
    ensures { IfOk result (λ bytes.
        MatchOption bytes (2 ^ 32 ≤ size (form image.now)) (λ v. v.items ≡ spelling (form image.now))) }
{
    if whole_size(image) >= 4294967296 {
        return Ok(None);
    }
    Ok(Some(write_all(alloc, image)?))
}

#[tactic(auto, unfolding(crate::specs::Spelling::spelling))]
fn write_all(alloc: Global, image: &Image) -> Result<Vec<u8>, AllocError>
    requires { size (form image.now) < 2 ^ 32 }
    ensures { IfOk result (λ v. v.items ≡ spelling (form image.now)) }
{
    let mut out = Vec::new(alloc);
    out.extend_from_slice(MAGIC)?;
    put_header(&mut out, image)?;
    put_sections(&mut out, image)?;
    Ok(out)
}

/// Writes the numbers of the header at the end.
fn put_header(out: &mut Vec<u8>, image: &Image) -> Result<(), AllocError>
    requires { size (form image.now) < 2 ^ 32 }
    ensures { OnOk result (out.new.items ≡ out.old.items ++ spelled (header (form image.now))) }
{
    put_numbers(out, &short_header(image))?;
    if image.version.level.has_callers() {
        let calls = counted(image, Section::Calls);
        let members = counted(image, Section::Members);
        put_numbers(out, &[calls, members, 0, 0])?;
    }
    Ok(())
}

/// Writes the sections at the end, in the order of the file.
fn put_sections(out: &mut Vec<u8>, image: &Image) -> Result<(), AllocError>
    ensures { OnOk result (out.new.items ≡ out.old.items ++ body (form image.now)) }
{
    for section in &ORDER {
        put_section(out, image, *section)?;
    }
    Ok(())
}

/// Writes a section at the end.
fn put_section(out: &mut Vec<u8>, image: &Image, section: Section) -> Result<(), AllocError>
    ensures { OnOk result (out.new.items ≡ out.old.items ++ section_bytes (form image.now) section) }
{
    let level = image.version.level;
    match section {
        Section::Code => put_numbers(out, &image.code),
        Section::Initial => out.extend_from_slice(&image.initial),
        Section::Functions => put_records(out, level, &image.functions),
        Section::Places => put_records(out, level, &image.places),
        Section::Owners => put_numbers(out, &image.owners),
        Section::Variables => put_records(out, level, &image.variables),
        Section::Changes => put_records(out, level, &image.changes),
        Section::Flow => put_records(out, level, &image.flow),
        Section::Assigned => put_records(out, level, &image.assigned),
        Section::Rows => put_records(out, level, &image.rows),
        Section::Calls => put_records(out, level, &image.calls),
        Section::Members => put_records(out, level, &image.members),
        Section::Nodes => put_records(out, level, &image.nodes),
        Section::Names => out.extend_from_slice(&image.names),
    }
}

fn mode_number(mode: Mode) -> u32
    ensures { result ≡ mode_number mode }
{
    match mode {
        Mode::Slots => 0,
        Mode::Registers => 1,
    }
}

impl Counts for Image {
    ghost count = { λ image. record_count (form image) };

    ghost of_level = { λ image. image.version.level };

    fn count(&self, section: Section) -> usize {
        match section {
            Section::Code => self.code.len(),
            Section::Initial => self.initial.len(),
            Section::Functions => self.functions.len(),
            Section::Places => self.places.len(),
            Section::Owners => self.owners.len(),
            Section::Variables => self.variables.len(),
            Section::Changes => self.changes.len(),
            Section::Flow => self.flow.len(),
            Section::Assigned => self.assigned.len(),
            Section::Rows => self.rows.len(),
            Section::Calls => self.calls.len(),
            Section::Members => self.members.len(),
            Section::Nodes => self.nodes.len(),
            Section::Names => self.names.len(),
        }
    }

    fn level(&self) -> Level {
        self.version.level
    }
}

/// The numbers of the header that each version has.
#[tactic(auto, unfolding(crate::specs::Spelling::size))]
fn short_header(image: &Image) -> [u32; 15]
    requires { size (form image.now) < 2 ^ 32 }
    ensures { result ≡ short_header (form image.now) }
{
    [
        image.version.number(),
        size(image) as u32,
        mode_number(image.mode),
        counted(image, Section::Code),
        counted(image, Section::Initial),
        counted(image, Section::Functions),
        counted(image, Section::Places),
        counted(image, Section::Variables),
        counted(image, Section::Changes),
        counted(image, Section::Flow),
        counted(image, Section::Assigned),
        counted(image, Section::Rows),
        counted(image, Section::Nodes),
        counted(image, Section::Names),
        0,
    ]
}

/// How many records a section has.
fn counted(image: &Image, section: Section) -> u32
    requires { size (form image.now) < 2 ^ 32 }
    ensures { result ≡ record_count (form image.now) section }
{
    image.count(section) as u32
}

/// A law: images that are spelled alike are alike, so bytes spell one image at most.
pub fn spelling_is_unique()
    ensures { SpellsOneImage }
{}
