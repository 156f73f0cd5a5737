//! The two maps of memory: where the code, the static bytes and the stack of a program lie.

ghost use Rattle.std.specs.Prelude.{◌≡◌};
ghost use Rattle.memory_map.specs.Maps.{bytes_end, bytes_start, map_of, most_words, stack_end, stack_start, stub_words};

/// The address of the first word of code, the same in both maps.
pub const CODE_START: u32 = 0x0001_0000;

/// How many bytes static memory has, in both maps.
pub const BYTES_SIZE: u32 = 0x0010_0000;

/// How many bytes the stack has, in both maps.
pub const STACK_SIZE: u32 = 0x0100_0000;

/// How much a unit may have: what its program weighs decides it.
#[derive(Clone, Copy, PartialEq, Eq)]
pub enum Room {
    Small,
    Large,
}

/// Where the regions of memory lie: the code, then the static bytes, then the stack.
#[derive(Clone, Copy, PartialEq, Eq)]
pub enum Map {
    One,
    Two,
}

/// The map of the memory of what is compiled in a room.
pub fn map_of(room: Room) -> Map
    ensures { result ≡ map_of room }
{
    match room {
        Room::Small => Map::One,
        Room::Large => Map::Two,
    }
}

impl Map {
    /// How many words of code there are at most.
    pub fn most_words(self) -> usize
        ensures { result ≡ most_words self }
    {
        match self {
            Map::One => 262_144,
            Map::Two => 4_194_304,
        }
    }

    /// The address at which static memory begins.
    pub fn bytes_start(self) -> u32
        ensures { result ≡ bytes_start self }
    {
        match self {
            Map::One => 0x0040_0000,
            Map::Two => 0x0180_0000,
        }
    }

    /// The address at which the stack begins.
    pub fn stack_start(self) -> u32
        ensures { result ≡ stack_start self }
    {
        match self {
            Map::One => 0x0100_0000,
            Map::Two => 0x0200_0000,
        }
    }

    /// The address after static memory.
    #[tactic(auto, using(crate::proofs::Facts::map_facts))]
    pub fn bytes_end(self) -> u32
        ensures { result ≡ bytes_end self }
    {
        self.bytes_start() + BYTES_SIZE
    }

    /// The address after the stack.
    #[tactic(auto, using(crate::proofs::Facts::map_facts))]
    pub fn stack_end(self) -> u32
        ensures { result ≡ stack_end self }
    {
        self.stack_start() + STACK_SIZE
    }

    /// How many words stand before all functions.
    pub fn stub_words(self) -> u32
        ensures { result ≡ stub_words self }
    {
        match self {
            Map::One => 5,
            Map::Two => 6,
        }
    }
}
