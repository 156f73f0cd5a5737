//! Where the names of a graph are written, by places.

use debug_records::Place;
use graph_core::{Binding, Block, Graph, Instr, Name};
use std::alloc::{AllocError, Global};
use std::collections::BTreeMap;

/// An instruction of a graph: its block, and how many instructions stand behind it there.
#[derive(Clone, Copy)]
pub struct Spot {
    pub block: u32,
    pub left: usize,
}

/// What writes a name in a place, if something does: one instruction, or more, or the binding of a parameter.
#[derive(Clone, Copy)]
pub enum Written {
    Once(Spot),
    More,
}

/// What writes the names of a graph, for each place and name.
#[derive(Drop)]
pub struct PlaceWrites {
    all: BTreeMap<(u32, u32), Written>,
}

ghost use Rattle.std.specs.Prelude.{◌≡◌, ◌<◌, ◌^◌, ◌↔◌, ◌&&◌, ◌==◌, ◌∷◌, [], ℕ, IfOk, OnOk, Some, length, map, option_map};
ghost use Rattle.debug_records.specs.declared.change.Place as declared-place;
ghost use Rattle.graph_core.specs.declared.name.Name as declared-name;
ghost use Rattle.graph_core.specs.Graphs.{Graph as GraphForm, binding_view, block_view, graph_view, instruction_view};
ghost use Rattle.graph_core.specs.Points.{is_place};
ghost use Rattle.dead_pass_writes.specs.Telling.{Tells, bound_by, is_name, once_of, told, with_binding, with_write, written_by, written_in};
ghost use Rattle.dead_pass_writes.specs.Once.{IsOnce};

/// The one instruction, where there is no more.
fn once(written: Option<Written>) -> Option<Spot>
    ensures { result ≡ once_of written }
{
    match written {
        Some(Written::Once(spot)) => Some(spot),
        Some(Written::More) => None,
        None => None,
    }
}

impl PlaceWrites {
    /// An instruction writes a name in a place.
    fn add(&mut self, place: u32, name: u32, spot: Spot) -> Result<(), AllocError>
        ensures { OnOk result
            ((p x : ℕ) → told self.new p x ≡ with_write (place == p && name == x) spot (told self.old p x)) }
    {
        let key = (place, name);
        let written = if self.all.contains_key(&key) {
            Written::More
        } else {
            Written::Once(spot)
        };
        self.all.insert(key, written)?;
        Ok(())
    }

    /// The binding of a parameter writes a name in a place.
    fn add_bound(&mut self, place: u32, name: u32) -> Result<(), AllocError>
        ensures { OnOk result
            ((p x : ℕ) → told self.new p x ≡ with_binding (place == p && name == x) (told self.old p x)) }
    {
        self.all.insert((place, name), Written::More)?;
        Ok(())
    }

    /// An instruction writes a name, or none, where a place is in force, or none.
    fn add_target(
        &mut self,
        place: Option<Place>,
        target: Option<Name>,
        spot: Spot,
    ) -> Result<(), AllocError>
        ensures { OnOk result
            ((p x : ℕ) → told self.new p x ≡ with_write (is_place p
            (option_map (λ (q : declared-place.Place). q.0) place) && is_name x
            (option_map (λ (n : declared-name.Name). n.0) target)) spot (told self.old p x)) }
    {
        let Some(in_force) = place else {
            return Ok(());
        };
        let Some(name) = target else {
            return Ok(());
        };
        self.add(in_force.0, name.0, spot)
    }

    /// The instructions of a block write.
    fn add_block(&mut self, number: u32, block: &Block) -> Result<(), AllocError>
        ensures { OnOk result
            ((p x : ℕ) → told self.new p x ≡ written_by p x (told self.old p x) (block_view block.now).place number
            (block_view block.now).instructions) }
    {
        let mut place = block.place;
        let mut ahead = block.instructions.as_slice();
        while let [instruction, rest @ ..] = ahead {
            let spot = Spot {
                block: number,
                left: rest.len(),
            };
            self.add_target(place, instruction.target(), spot)?;
            place = instruction.marker().or(place);
            ahead = rest;
        }
        Ok(())
    }

    /// The binding of a parameter to a scalar writes it at the entry.
    fn add_binding(&mut self, entry: u32, binding: &Binding) -> Result<(), AllocError>
        ensures { OnOk result
            ((p x : ℕ) → told self.new p x ≡ bound_by entry p x (told self.old p x) (binding_view binding.now ∷ [])) }
    {
        match binding {
            Binding::Scalar(name) => self.add_bound(entry, name.0),
            Binding::Object(_) => Ok(()),
        }
    }

    /// The bindings of parameters write at the entry.
    fn add_bindings(&mut self, entry: u32, bindings: &[Binding]) -> Result<(), AllocError>
        ensures { OnOk result
            ((p x : ℕ) → told self.new p x ≡ bound_by entry p x (told self.old p x) (map binding_view bindings.now)) }
    {
        let mut ahead = bindings;
        while let [binding, rest @ ..] = ahead {
            self.add_binding(entry, binding)?;
            ahead = rest;
        }
        Ok(())
    }

    /// The blocks write.
    fn add_blocks(&mut self, blocks: &[Block]) -> Result<(), AllocError>
        requires few { length blocks.now < 2 ^ 32 }
        ensures { OnOk result
            ((p x : ℕ) → told self.new p x ≡ written_in p x (told self.old p x) 0 (map block_view blocks.now)) }
    {
        let mut number = 0u32;
        let mut ahead = blocks;
        while let [block, rest @ ..] = ahead {
            self.add_block(number, block)?;
            number += 1;
            ahead = rest;
        }
        Ok(())
    }

    /// What writes the names of a graph. The binding of a parameter writes at the entry.
    pub fn new(alloc: Global, graph: &Graph) -> Result<PlaceWrites, AllocError>
        requires few { length graph.now.blocks.items < 2 ^ 32 }
        ensures { IfOk result (λ writes. Tells (graph_view graph.now) writes) }
    {
        let mut writes = PlaceWrites {
            all: BTreeMap::new(alloc),
        };
        writes.add_bindings(graph.entry.0, &graph.parameters)?;
        writes.add_blocks(&graph.blocks)?;
        Ok(writes)
    }

    /// The one instruction that writes a name in a place, where nothing else writes it there.
    pub fn only(&self, place: u32, name: u32) -> Option<Spot>
        ensures { (g : GraphForm) → Tells g self.now → (s : Spot)
            → (result ≡ Some s) ↔ IsOnce g place name s.block s.left }
    {
        let written = self.all.get(&(place, name)).copied();
        once(written)
    }
}
