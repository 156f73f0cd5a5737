//! The header of an image.

ghost use Rattle.std.specs.Prelude.{◌≡◌, ◌≤◌, OnOk, [], if◌then◌else◌, length};
ghost use Rattle.debug_records.specs.declared.code.TheConstants.Code.{HEADER_NUMBERS};
ghost use Rattle.image_form_sections.specs.Breaches.{Gives, first_breach};
ghost use Rattle.image_form_sections.specs.Order.{count_offset};
ghost use Rattle.image_form_sections.specs.Checking.{count_checks, header_checks, long_checks, size_told};
ghost use Rattle.image_form_sections.specs.Sections.{count_told, version_told};
ghost use Rattle.image_form_sections.specs.Versions.{has_callers, header_size};
ghost use Rattle.image_form_sections.specs.declared.fault.ImageErr.TheVariants.{Refused};

use crate::fault::ImageErr;
use crate::section::{Counts, Section, size};
use crate::table::number_at;
use crate::version::{Level, is_read, level_of, map_of};
use debug_records::Code;

/// How many bytes a header has at least.
pub const HEADER_SIZE: usize = 64;

/// The first bytes of an image.
pub const MAGIC: &[u8; 4] = b"CDBG";

/// Whether structures may stand in an image.
const HAS_STRUCTURES: bool = false;

/// The most initial bytes, which fill static memory.
const MOST_INITIAL_BYTES: usize = 1_048_576;

/// The most visible rows.
const MOST_VISIBLE_ROWS: usize = 1_000_000;

/// Where the version stands.
pub const VERSION: usize = 4;

/// Where the length of the image stands.
const LENGTH: usize = 8;

/// Where the mode stands.
pub const MODE: usize = 12;

/// Where a zero stands.
const ZERO: usize = 60;

/// Where the next one stands, in a header of 80 bytes.
const SECOND_ZERO: usize = 72;

/// And the last one.
const LAST_ZERO: usize = 76;

/// Checks the header of an image: its first bytes, its version, its length and its counts.
pub fn check_header(bytes: &[u8]) -> Result<(), ImageErr>
    requires { 64 ≤ length bytes.now }
    ensures checks { Gives (λ _. tt) result (first_breach (header_checks bytes.now)) }
    ensures size { OnOk result (size_told bytes.now ≡ length bytes.now) }
{
    if !bytes.starts_with(MAGIC) {
        return Err(ImageErr::Refused(Code::MAGIC, 0));
    }
    let version = number_at(bytes, VERSION);
    if !is_read(version) {
        return Err(ImageErr::Refused(Code::VERSION, VERSION));
    }
    if level_of(version).header_size() > bytes.len() {
        return Err(ImageErr::Refused(Code::HEADER_SIZE, bytes.len()));
    }
    if number_at(bytes, LENGTH) as usize != bytes.len() || size_told(bytes) != bytes.len() {
        return Err(ImageErr::Refused(Code::LENGTH, LENGTH));
    }
    check_counts(&HeaderBytes { bytes })
}

fn check_counts(header: &HeaderBytes<'_>) -> Result<(), ImageErr>
    ensures { Gives (λ _. tt) result (first_breach (count_checks header.now.bytes.now)) }
{
    if number_at(header.bytes, MODE) > 1 {
        return Err(ImageErr::Refused(Code::HEADER_NUMBERS, MODE));
    }
    if header.count(Section::Code) > map_of(number_at(header.bytes, VERSION)).most_words() {
        return Err(miscounted(Section::Code));
    }
    if header.count(Section::Initial) > MOST_INITIAL_BYTES
        || header.count(Section::Initial) % 4 != 0
    {
        return Err(miscounted(Section::Initial));
    }
    if header.count(Section::Functions) == 0 {
        return Err(miscounted(Section::Functions));
    }
    if header.count(Section::Places) == 0 {
        return Err(miscounted(Section::Places));
    }
    if header.count(Section::Rows) > MOST_VISIBLE_ROWS {
        return Err(miscounted(Section::Rows));
    }
    if number_at(header.bytes, ZERO) != 0 {
        return Err(ImageErr::Refused(Code::HEADER_NUMBERS, ZERO));
    }
    check_long(header)
}

/// Checks the numbers of a header behind its first 64 bytes.
#[tactic(auto, unfolding(crate::specs::Versions::has_structures))]
fn check_long(header: &HeaderBytes<'_>) -> Result<(), ImageErr>
    ensures { let b = header.now.bytes.now in
        Gives (λ _. tt) result (first_breach (if has_callers (version_told b).level then long_checks b else [])) }
{
    if !header.level().has_callers() {
        return Ok(());
    }
    if !HAS_STRUCTURES && header.count(Section::Members) != 0 {
        return Err(miscounted(Section::Members));
    }
    if number_at(header.bytes, SECOND_ZERO) != 0 {
        return Err(ImageErr::Refused(Code::HEADER_NUMBERS, SECOND_ZERO));
    }
    if number_at(header.bytes, LAST_ZERO) != 0 {
        return Err(ImageErr::Refused(Code::HEADER_NUMBERS, LAST_ZERO));
    }
    Ok(())
}

/// A section may not have as many records as the header says.
fn miscounted(section: Section) -> ImageErr
    ensures { result ≡ Refused HEADER_NUMBERS (count_offset section) }
{
    ImageErr::Refused(Code::HEADER_NUMBERS, section.count_offset())
}

/// How many bytes the counts of a header ask for.
#[tactic(auto, unfolding(crate::specs::Checking::size_told))]
fn size_told(bytes: &[u8]) -> usize
    requires { header_size (version_told bytes.now).level ≤ length bytes.now }
    ensures { result ≡ size_told bytes.now }
{
    size(&HeaderBytes { bytes })
}

/// The header of an image, which says how many records each section has.
#[derive(Clone, Copy)]
pub struct HeaderBytes<'a> {
    pub bytes: &'a [u8],
    ghost long: { header_size (version_told bytes.now).level ≤ length bytes.now },
}

impl Counts for HeaderBytes<'_> {
    ghost count = { λ header. count_told header.bytes.now };

    ghost of_level = { λ header. (version_told header.bytes.now).level };

    fn count(&self, section: Section) -> usize {
        if section.is_told(self.level()) {
            number_at(self.bytes, section.count_offset()) as usize
        } else {
            0
        }
    }

    fn level(&self) -> Level {
        level_of(number_at(self.bytes, VERSION))
    }
}
