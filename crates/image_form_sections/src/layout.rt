//! Where the sections of an image lie in its bytes.

ghost use Rattle.std.specs.Prelude.{◌≡◌, ◌<◌, ◌≤◌, ◌^◌, length, take};
ghost use Rattle.image_form_sections.specs.Layouts.{rows_in, sections_in};
ghost use Rattle.image_form_sections.specs.Order.{section_start};
ghost use Rattle.image_form_sections.specs.Versions.{level_of};
ghost use Rattle.image_form_sections.specs.Checking.{size_told};
ghost use Rattle.image_form_sections.specs.Sections.{bytes_from, section_records, count_told, number_at, rows_of, sections_at};
ghost use Rattle.image_form_sections.specs.declared.section.Section.TheVariants.{Names};

use crate::header::{HeaderBytes, MODE, VERSION};
use crate::section::{Counts, Section, start};
use crate::table::{Table, number_at};
use crate::version::{Level, level_of};

/// The sections of an image as they lie in its bytes.
#[derive(Clone, Copy)]
pub struct Layout<'a> {
    /// The number of the version.
    pub version: u32,
    pub mode: u32,
    pub code: Table<'a>,
    pub initial: &'a [u8],
    pub functions: Table<'a>,
    pub places: Table<'a>,
    pub owners: Table<'a>,
    pub variables: Table<'a>,
    pub changes: Table<'a>,
    pub flow: Table<'a>,
    pub assigned: Table<'a>,
    pub rows: Table<'a>,
    /// The rows of calls.
    pub calls: Table<'a>,
    /// The members of structures.
    pub members: Table<'a>,
    pub nodes: Table<'a>,
    pub names: &'a [u8],
}

impl Counts for Layout<'_> {
    ghost count = { λ layout. section_records (sections_in layout) };

    ghost of_level = { λ layout. level_of layout.version };

    fn count(&self, section: Section) -> usize {
        match section {
            Section::Code => self.code.len(),
            Section::Initial => self.initial.len(),
            Section::Functions => self.functions.len(),
            Section::Places => self.places.len(),
            Section::Owners => self.owners.len(),
            Section::Variables => self.variables.len(),
            Section::Changes => self.changes.len(),
            Section::Flow => self.flow.len(),
            Section::Assigned => self.assigned.len(),
            Section::Rows => self.rows.len(),
            Section::Calls => self.calls.len(),
            Section::Members => self.members.len(),
            Section::Nodes => self.nodes.len(),
            Section::Names => self.names.len(),
        }
    }

    fn level(&self) -> Level {
        level_of(self.version)
    }
}

/// The sections of bytes whose header tells their length.
#[tactic(auto, unfolding(crate::specs::Sections::sections_at))]
pub fn layout_of(bytes: &[u8]) -> Layout<'_>
    requires { size_told bytes.now ≡ length bytes.now }
    ensures sections { sections_in result ≡ sections_at bytes.now }
    ensures small { section_start (level_of result.version) (section_records (sections_in result)) Names < 2 ^ 63 }
{
    let version = number_at(bytes, VERSION);
    let initial = HeaderBytes { bytes }.count(Section::Initial);
    Layout {
        version,
        mode: number_at(bytes, MODE),
        code: rows_of(bytes, Section::Code),
        initial: &bytes_from(bytes, Section::Initial)[..initial],
        functions: rows_of(bytes, Section::Functions),
        places: rows_of(bytes, Section::Places),
        owners: rows_of(bytes, Section::Owners),
        variables: rows_of(bytes, Section::Variables),
        changes: rows_of(bytes, Section::Changes),
        flow: rows_of(bytes, Section::Flow),
        assigned: rows_of(bytes, Section::Assigned),
        rows: rows_of(bytes, Section::Rows),
        calls: rows_of(bytes, Section::Calls),
        members: rows_of(bytes, Section::Members),
        nodes: rows_of(bytes, Section::Nodes),
        names: bytes_from(bytes, Section::Names),
    }
}

/// The bytes from the first one of a section on.
fn bytes_from(bytes: &[u8], section: Section) -> &[u8]
    requires { size_told bytes.now ≡ length bytes.now }
    ensures { result.now ≡ bytes_from bytes.now section }
{
    &bytes[start(&HeaderBytes { bytes }, section)..]
}

/// The rows of a section.
fn rows_of(bytes: &[u8], section: Section) -> Table<'_>
    requires { size_told bytes.now ≡ length bytes.now }
    ensures { rows_in result ≡ rows_of bytes.now section }
{
    let header = HeaderBytes { bytes };
    let width = section.record_size(header.level()) / 4;
    Table::new(bytes_from(bytes, section), width, header.count(section))
}
