//! Instructions.

ghost use Rattle.std.specs.Prelude.{◌≡◌, ◌*◌};
ghost use Rattle.graph_core.specs.Values.{size_of};

use crate::name::{Name, Operand};
use crate::recipe::NoteValue;
use debug_records::Place;
use smallvec::SmallVec;
use word_base::{Operation, Truncation};

/// What an element of an object in memory is: how wide, and with which sign. A pointer is a word.
#[derive(Clone, Copy, PartialEq, Eq)]
pub enum Element {
    Unsigned8,
    Signed8,
    Unsigned16,
    Signed16,
    Word,
}

impl Element {
    /// How many bytes an element has.
    pub fn size(self) -> u32
        ensures { result ≡ size_of self }
    {
        match self {
            Element::Unsigned8 | Element::Signed8 => 1,
            Element::Unsigned16 | Element::Signed16 => 2,
            Element::Word => 4,
        }
    }

    /// How many bytes so many elements have.
    pub fn bytes_of(self, count: u32) -> u64
        ensures { result ≡ count * size_of self }
    {
        match self {
            Element::Unsigned8 | Element::Signed8 => u64::from(count),
            Element::Unsigned16 | Element::Signed16 => u64::from(count) * 2,
            Element::Word => u64::from(count) * 4,
        }
    }
}

/// Where a load reads and a store writes.
#[derive(Clone, Copy, PartialEq, Eq)]
pub enum Location {
    /// In an automatic object of the graph, by its number, so many bytes behind its beginning.
    Automatic { object: u32, offset: u32 },
    /// The beginning of a static object, by its number.
    Static(u32),
    /// Where a value points.
    At(Operand),
}

/// What a call calls.
#[derive(Clone, Copy, PartialEq, Eq)]
pub enum Callee {
    /// A function of the unit, by its number.
    Function(u32),
    Getchar,
    Putchar,
    Exit,
}

/// An instruction.
#[derive(Drop)]
pub enum Instr {
    /// A place of the source begins.
    Marker(Place),
    /// From here on a scalar variable has this value.
    Note {
        of: Name,
        value: NoteValue,
    },
    Move {
        target: Name,
        from: Operand,
    },
    /// What an operation makes of two values.
    Operate {
        target: Name,
        operation: Operation,
        left: Operand,
        right: Operand,
    },
    /// What a truncation leaves of a value.
    Truncate {
        target: Name,
        truncation: Truncation,
        from: Operand,
    },
    /// 1 where two pointers are equal, and 0 where they differ.
    Same {
        target: Name,
        left: Operand,
        right: Operand,
    },
    /// The address of an automatic object.
    Address {
        target: Name,
        object: u32,
    },
    Load {
        target: Name,
        element: Element,
        from: Location,
    },
    Store {
        element: Element,
        to: Location,
        value: Operand,
    },
    /// Sets so many words of an automatic object to zero.
    Zero {
        object: u32,
        words: u32,
    },
    /// Copies so many words of the bytes that initialise arrays, by their number, into an automatic object.
    CopyWords {
        object: u32,
        bytes: u32,
        words: u32,
    },
    Call {
        target: Option<Name>,
        callee: Callee,
        arguments: SmallVec<Operand, 4>,
    },
}
