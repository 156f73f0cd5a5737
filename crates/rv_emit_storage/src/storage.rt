//! Where code of a function finds values.

ghost use Rattle.std.specs.Prelude.{◌≡◌};
ghost use Rattle.graph_core.specs.Graphs.{operand_view};

use crate::frame::{Frame, home_of};
use crate::statics::Statics;
use debug_records::Place;
use graph_core::{Label, Name, Operand};
use graph_homes::Home;

/// What code reads: the home of a name, or a word that is known.
#[derive(Clone, Copy)]
pub enum Source {
    Home(Home),
    Word(u32),
}

/// Where code of a function finds values, and what it has to know of the function.
#[derive(Clone, Copy)]
pub struct Storage<'a> {
    /// The place of its entry.
    pub entry: Place,
    /// The label of its end, behind that of its last block.
    pub end: Label,
    /// The homes of its names.
    pub homes: &'a [Home],
    pub frame: &'a Frame,
    pub statics: &'a Statics,
    /// The address in static memory that `gp` holds.
    pub base: u32,
}

impl<'a> Storage<'a> {
    ghost use Rattle.rv_emit_storage.specs.Storages.{array_bytes_at, storage_view, home_at, object_at, slot_at, source_of, static_object_at};

    /// The home of a name.
    pub fn home(&self, name: Name) -> Home
        ensures { result ≡ home_at (storage_view self.now) name.0 }
    {
        home_of(self.homes, name)
    }

    /// The offset of a slot in the frame.
    pub fn slot(&self, slot: u32) -> u32
        ensures { result ≡ slot_at (storage_view self.now) slot }
    {
        self.frame.slots.wrapping_add(slot.wrapping_mul(4))
    }

    /// The offset of a memory object in the frame.
    pub fn object(&self, object: u32) -> u32
        ensures { result ≡ object_at (storage_view self.now) object }
    {
        match self.frame.objects.get(object as usize) {
            Some(offset) => *offset,
            None => 0,
        }
    }

    /// The address of a static object.
    pub fn static_object(&self, object: u32) -> u32
        ensures { result ≡ static_object_at (storage_view self.now) object }
    {
        match self.statics.objects.get(object as usize) {
            Some(address) => *address,
            None => 0,
        }
    }

    /// The address of bytes that initialise an automatic array.
    pub fn array_bytes(&self, bytes: u32) -> u32
        ensures { result ≡ array_bytes_at (storage_view self.now) bytes }
    {
        match self.statics.array_bytes.get(bytes as usize) {
            Some(address) => *address,
            None => 0,
        }
    }

    /// What reading an operand reads.
    pub fn source(&self, operand: Operand) -> Source
        ensures { result ≡ source_of (storage_view self.now) (operand_view operand) }
    {
        match operand {
            Operand::Name(name) => Source::Home(self.home(name)),
            Operand::Constant(word) => Source::Word(word),
            Operand::StaticAddress { object, offset } => {
                Source::Word(self.static_object(object).wrapping_add(offset))
            }
        }
    }
}
