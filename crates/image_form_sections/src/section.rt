//! The table of the sections: their order, the size of a record and where the header counts them.

ghost use Rattle.std.specs.Prelude.{◌≡◌, ◌<◌, ◌^◌, ◌≤◌, ℕ, take};
ghost use Rattle.image_form_sections.specs.Order.{sections_end, count_offset, is_told, section_number, order, record_size, section_start};
ghost use Rattle.image_form_sections.specs.Versions.{header_size};
ghost use Rattle.image_form_sections.specs.declared.section.Section.{Section};
ghost use Rattle.image_form_sections.specs.declared.version.Level.{Level};

use crate::version::Level;

/// A section of an image.
#[derive(Clone, Copy)]
pub enum Section {
    Code,
    Initial,
    Functions,
    Places,
    Owners,
    Variables,
    Changes,
    Flow,
    Assigned,
    Rows,
    /// The rows of calls.
    Calls,
    /// The members of structures.
    Members,
    Nodes,
    Names,
}

/// The sections in the order of the file.
pub const ORDER: [Section; 14] = [
    Section::Code,
    Section::Initial,
    Section::Functions,
    Section::Places,
    Section::Owners,
    Section::Variables,
    Section::Changes,
    Section::Flow,
    Section::Assigned,
    Section::Rows,
    Section::Calls,
    Section::Members,
    Section::Nodes,
    Section::Names,
];

impl Section {
    /// How many bytes a record has, in a version of this level.
    pub fn record_size(self, level: Level) -> usize
        ensures size { result ≡ record_size level self }
        ensures small { result < 64 }
    {
        match self {
            Section::Initial | Section::Names => 1,
            Section::Code | Section::Owners => 4,
            Section::Flow | Section::Assigned => 8,
            Section::Nodes => 12,
            Section::Places => 16,
            Section::Changes | Section::Members => 20,
            Section::Functions if level.has_callers() => 24,
            Section::Functions => 20,
            Section::Rows if level.has_quiet() => 28,
            Section::Rows => 24,
            Section::Calls => 28,
            Section::Variables => 32,
        }
    }

    /// The byte of the header at which the number of records stands.
    pub fn count_offset(self) -> usize
        ensures offset { result ≡ count_offset self }
        ensures inside { result < 76 }
    {
        match self {
            Section::Code | Section::Owners => 16,
            Section::Initial => 20,
            Section::Functions => 24,
            Section::Places => 28,
            Section::Variables => 32,
            Section::Changes => 36,
            Section::Flow => 40,
            Section::Assigned => 44,
            Section::Rows => 48,
            Section::Nodes => 52,
            Section::Names => 56,
            Section::Calls => 64,
            Section::Members => 68,
        }
    }

    /// Whether the header of a version of this level tells of the section.
    pub fn is_told(self, level: Level) -> bool
        ensures { result ≡ is_told level self }
    {
        match self {
            Section::Calls | Section::Members => level.has_callers(),
            _ => true,
        }
    }
}

/// What has so many records in each section, in a version of a level.
pub trait Counts {
    // How many records each section has.
    ghost count: { Self → Section → ℕ };

    // Which fields and sections its tables have.
    ghost of_level: { Self → Level };

    /// How many records a section has.
    fn count(&self, section: Section) -> usize
        ensures { result ≡ count self.now section };

    /// Which fields and sections the tables have.
    fn level(&self) -> Level
        ensures { result ≡ of_level self.now };
}

/// The byte behind the header and so many sections.
fn behind<C: Counts>(counts: &C, sections: usize) -> usize
    requires known { sections ≤ 14 }
    requires small { sections_end (C.of_level counts.now) (C.count counts.now) (take sections order) < 2 ^ 63 }
    ensures { result ≡ sections_end (C.of_level counts.now) (C.count counts.now) (take sections order) }
{
    let level = counts.level();
    let mut at = level.header_size();
    for section in &ORDER[..sections] {
        at += section.record_size(level) * counts.count(*section);
    }
    at
}

/// The byte at which a section begins.
pub fn start<C: Counts>(counts: &C, section: Section) -> usize
    requires small { section_start (C.of_level counts.now) (C.count counts.now) section < 2 ^ 63 }
    ensures { result ≡ section_start (C.of_level counts.now) (C.count counts.now) section }
{
    behind(counts, section as usize)
}

/// How many bytes the header and all sections have.
pub fn size<C: Counts>(counts: &C) -> usize
    requires small { sections_end (C.of_level counts.now) (C.count counts.now) order < 2 ^ 63 }
    ensures { result ≡ sections_end (C.of_level counts.now) (C.count counts.now) order }
{
    behind(counts, ORDER.len())
}

/// How many bytes the header and all sections have, however many records there are.
pub fn whole_size<C: Counts>(counts: &C) -> u128
    ensures { result ≡ sections_end (C.of_level counts.now) (C.count counts.now) order }
{
    let level = counts.level();
    let mut at = level.header_size() as u128;
    for section in &ORDER {
        at += section.record_size(level) as u128 * counts.count(*section) as u128;
    }
    at
}
