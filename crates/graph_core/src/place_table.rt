//! Tables of the places that markers begin.

ghost use Rattle.std.specs.Prelude.{◌≡◌, ◌≤◌, ◌<◌, ◌↔◌, ◌+◌, ◌++◌, ◌∷◌, [], IsTrue, ℕ, List, length, map};
ghost use Rattle.std.specs.List.Sorted.{IsNonDecreasing, IsPermutation};
ghost use Rattle.memory_map.specs.declared.map.Room.TheVariants.{Large};
ghost use Rattle.graph_core.specs.Graphs.{block_view, graph_view, instruction_view};
ghost use Rattle.graph_core.specs.Bounds.{most_markers};
ghost use Rattle.graph_core.specs.Paths.{Among};
ghost use Rattle.graph_core.specs.PlaceTables.{IsTableOf, listed};
ghost use Rattle.graph_core.specs.Validity.{AreAllDifferent, markers_in, markers_of, markers_of_blocks};

use crate::block::Block;
use crate::bounds::MAX_MARKERS;
use crate::graph::Graph;
use crate::instruction::Instr;
use debug_records::Place;

const ROOM: usize = MAX_MARKERS as usize;

/// A table that has room for the places of all markers of a valid unit of either room. It takes no memory but the
/// stack's.
#[derive(Drop)]
pub(crate) struct PlaceTable {
    places: [u32; ROOM],
    /// How many of the places are listed: those in front.
    count: usize,
}

impl PlaceTable {
    /// A table that lists nothing.
    pub(crate) fn new() -> PlaceTable {
        PlaceTable {
            places: [0; ROOM],
            count: 0,
        }
    }

    /// Lists a place behind the others.
    fn add(&mut self, place: Place)
        requires room { self.old.count < most_markers Large }
        ensures added { listed self.new ≡ listed self.old ++ (place.0 ∷ []) }
        ensures count { self.new.count ≡ self.old.count + 1 }
    {
        self.places[self.count] = place.0;
        self.count += 1;
    }

    /// Lists the places that instructions begin behind the others.
    fn add_instructions(&mut self, instructions: &[Instr])
        requires room { self.old.count + length (markers_in (map instruction_view instructions.now))
            ≤ most_markers Large }
        ensures added { listed self.new ≡ listed self.old ++ markers_in (map instruction_view instructions.now) }
        ensures count { self.new.count ≡ self.old.count + length (markers_in (map instruction_view instructions.now)) }
    {
        let mut left = instructions;
        while let [instruction, rest @ ..] = left {
            if let Some(place) = instruction.marker() {
                self.add(place);
            }
            left = rest;
        }
    }

    /// Lists the places that blocks begin behind the others.
    fn add_blocks(&mut self, blocks: &[Block])
        requires room { self.old.count + length (markers_of_blocks (map block_view blocks.now)) ≤ most_markers Large }
        ensures added { listed self.new ≡ listed self.old ++ markers_of_blocks (map block_view blocks.now) }
        ensures count { self.new.count ≡ self.old.count + length (markers_of_blocks (map block_view blocks.now)) }
    {
        let mut left = blocks;
        while let [block, rest @ ..] = left {
            self.add_instructions(&block.instructions);
            left = rest;
        }
    }

    /// Puts the listed places in order.
    fn sort(&mut self)
        requires within { self.old.count ≤ most_markers Large }
        ensures same { IsPermutation (listed self.old) (listed self.new) }
        ensures order { IsNonDecreasing (listed self.new) }
        ensures count { self.new.count ≡ self.old.count }
    {
        self.places[..self.count].sort_unstable();
    }

    /// Lists the places that blocks begin, and no others.
    pub(crate) fn list_blocks(&mut self, blocks: &[Block])
        requires few { length (markers_of_blocks (map block_view blocks.now)) ≤ most_markers Large }
        ensures { IsTableOf (markers_of_blocks (map block_view blocks.now)) self.new }
    {
        self.count = 0;
        self.add_blocks(blocks);
        self.sort();
    }

    /// Lists the places that graphs begin, and no others.
    pub(crate) fn list_graphs(&mut self, graphs: &[Graph])
        requires few { length (markers_of (map graph_view graphs.now)) ≤ most_markers Large }
        ensures { IsTableOf (markers_of (map graph_view graphs.now)) self.new }
    {
        self.count = 0;
        let mut left = graphs;
        while let [graph, rest @ ..] = left {
            self.add_blocks(&graph.blocks);
            left = rest;
        }
        self.sort();
    }

    /// Whether a place is listed.
    pub(crate) fn has(&self, place: Place) -> bool
        requires within { self.now.count ≤ most_markers Large }
        ensures { (places : List ℕ) → IsTableOf places self.now → (IsTrue result ↔ Among place.0 places) }
    {
        self.places[..self.count].binary_search(&place.0).is_ok()
    }

    /// Whether no place is listed twice.
    pub(crate) fn are_different(&self) -> bool
        requires within { self.now.count ≤ most_markers Large }
        ensures { (places : List ℕ) → IsTableOf places self.now → (IsTrue result ↔ AreAllDifferent places) }
    {
        self.places[..self.count].is_sorted_by(|one, next| *one < *next)
    }
}
