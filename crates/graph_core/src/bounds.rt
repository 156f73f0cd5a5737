//! How much a valid unit, and a run of it, may have. What is said "of a function" is asked of each; what all functions
//! together may have goes by the unit's room.

ghost use Rattle.std.specs.Prelude.{◌≡◌};
ghost use Rattle.graph_core.specs.Bounds.{most_arguments, most_blocks, most_instructions, most_markers};

use memory_map::Room;

/// Functions.
pub const MAX_FUNCTIONS: usize = 256;

/// Parameters of a function.
pub const MAX_PARAMETERS: usize = 8;

/// Names of a function.
pub const MAX_NAMES: u32 = 3000;

/// Instructions of a function that are neither markers nor notes.
pub const MAX_FUNCTION_INSTRUCTIONS: u64 = 6000;

/// Markers of all functions of a unit of the larger room.
pub(crate) const MAX_MARKERS: u64 = 40_000;

/// Bytes that the automatic objects of a function take.
pub const MAX_FUNCTION_BYTES: u64 = 4096;

/// Bytes that the static objects and the bytes that initialise arrays take.
pub const MAX_STATIC_BYTES: u64 = 1_048_576;

/// How deep the recipe of a note is.
pub const MAX_RECIPE_DEPTH: u32 = 4;

/// Activations that live at once.
pub const MAX_ACTIVATIONS: usize = 1024;

/// Instructions of all functions that are neither markers nor notes.
pub fn max_instructions(room: Room) -> u64
    ensures { result ≡ most_instructions room }
{
    match room {
        Room::Small => 8000,
        Room::Large => 80_000,
    }
}

/// Blocks of all functions.
pub fn max_blocks(room: Room) -> u64
    ensures { result ≡ most_blocks room }
{
    match room {
        Room::Small => 12_000,
        Room::Large => 120_000,
    }
}

/// Markers of all functions.
pub fn max_markers(room: Room) -> u64
    ensures { result ≡ most_markers room }
{
    match room {
        Room::Small => 4000,
        Room::Large => MAX_MARKERS,
    }
}

/// Arguments of all calls.
pub fn max_arguments(room: Room) -> u64
    ensures { result ≡ most_arguments room }
{
    match room {
        Room::Small => 4000,
        Room::Large => 40_000,
    }
}
