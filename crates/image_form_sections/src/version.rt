//! The versions of the format.

ghost use Rattle.std.specs.Prelude.{◌≡◌};
ghost use Rattle.image_form_sections.specs.Versions.{has_callers, has_quiet, header_size, is_read, level_number, level_of, map_of, version_number, version_of};

use memory_map::Map;

/// The number of the greatest level whose versions are read and written.
const GREATEST_LEVEL: u32 = 1;

/// Which fields and sections the tables of an image have.
#[derive(Clone, Copy)]
pub enum Level {
    /// Those that each version has.
    Plain,
    /// Visible rows tell where a quiet path begins, too.
    Quiet,
    /// Functions tell the registers that they save, and calls have rows, too.
    Callers,
}

/// A version of the format.
#[derive(Clone, Copy)]
pub struct Version {
    /// Where the regions of the program's memory lie.
    pub map: Map,
    pub level: Level,
}

impl Level {
    /// Whether visible rows tell where a quiet path begins.
    pub fn has_quiet(self) -> bool
        ensures { result ≡ has_quiet self }
    {
        match self {
            Level::Plain => false,
            Level::Quiet => true,
            Level::Callers => true,
        }
    }

    /// Whether functions tell the registers that they save, and calls have rows.
    pub fn has_callers(self) -> bool
        ensures { result ≡ has_callers self }
    {
        match self {
            Level::Plain => false,
            Level::Quiet => false,
            Level::Callers => true,
        }
    }

    /// How many bytes the header has.
    pub fn header_size(self) -> usize
        ensures { result ≡ header_size self }
    {
        match self {
            Level::Plain => 64,
            Level::Quiet => 64,
            Level::Callers => 80,
        }
    }
}

impl Version {
    /// The number that stands for the version, from 1 on.
    pub fn number(self) -> u32
        ensures { result ≡ version_number self }
    {
        let map = match self.map {
            Map::One => 1,
            Map::Two => 2,
        };
        match self.level {
            Level::Plain => map,
            Level::Quiet => 2 + map,
            Level::Callers => 4 + map,
        }
    }
}

/// The version of a number.
pub fn version_of(number: u32) -> Version
    ensures { result ≡ version_of number }
{
    Version {
        map: map_of(number),
        level: level_of(number),
    }
}

/// The map of the version of a number.
pub fn map_of(number: u32) -> Map
    ensures { result ≡ map_of number }
{
    if number % 2 == 1 { Map::One } else { Map::Two }
}

/// The level of the version of a number; the greatest one stands for all above it.
pub fn level_of(number: u32) -> Level
    ensures { result ≡ level_of number }
{
    if number <= 2 {
        Level::Plain
    } else if number <= 4 {
        Level::Quiet
    } else {
        Level::Callers
    }
}

/// The number of a level, from 0 on.
fn level_number(level: Level) -> u32
    ensures { result ≡ level_number level }
{
    match level {
        Level::Plain => 0,
        Level::Quiet => 1,
        Level::Callers => 2,
    }
}

/// Whether a version of that number is read.
#[tactic(auto, unfolding(crate::specs::Versions::is_read, crate::specs::Versions::greatest_level))]
pub fn is_read(number: u32) -> bool
    ensures { result ≡ is_read number }
{
    1 <= number && level_number(level_of(number)) <= GREATEST_LEVEL
}
