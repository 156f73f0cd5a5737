//! The copies by which scalars get the values that temporaries keep.

ghost use Rattle.std.specs.Prelude.{◌≡◌, ℕ, ◌<◌, ◌≤◌, [], ◌∷◌, IfOk, IfSome, MatchOption, OnOk, None, Option, Some, length, map};
ghost use Rattle.graph_core.specs.Graphs.{Move, Name as NameOf, graph_view, instruction_view};
ghost use Rattle.graph_homes.specs.Reused.{first_among, first_copy};
ghost use Rattle.currency_writers.specs.Copies.{AreCopies, AreCopied, copies_to, first_of};
ghost use Rattle.currency_writers.specs.Writers.{placed};

use debug_records::Place;
use graph_core::{Block, Graph, Instr, Operand};
use std::alloc::{AllocError, Global};

/// A name is copied in a place.
#[derive(Clone, Copy)]
pub struct Copied {
    pub place: u32,
    pub from: u32,
}

/// For each name the copies to it, as they stand in the function.
#[derive(Drop)]
pub struct Copies<'a> {
    pub graph: &'a Graph,
    pub by_target: Vec<Vec<Copied>>,
}

/// The target of a copy of a name, and the name.
fn copy_of(instruction: &Instr) -> Option<(u32, u32)>
    ensures { MatchOption result
        ((p x : ℕ) (place : Option ℕ) → first_among p x place (instruction_view instruction.now ∷ []) ≡ None)
        (λ copy. instruction_view instruction.now ≡ Move copy.0 (NameOf copy.1)) }
{
    match instruction {
        Instr::Move {
            target,
            from: Operand::Name(from),
        } => Some((target.0, from.0)),
        _ => None,
    }
}

/// No copies to so many names.
fn no_copies(alloc: Global, count: usize) -> Result<Vec<Vec<Copied>>, AllocError>
    ensures none { IfOk result (λ made. (x : ℕ) → copies_to made.items x ≡ []) }
    ensures count { IfOk result (λ made. length made.items ≡ count) }
{
    let mut lists = Vec::new(alloc);
    for _made in 0..count {
        lists.push(Vec::new(alloc))?;
    }
    Ok(lists)
}

/// The name of which the first of copies in a place is.
fn first_in(copies: &[Copied], place: u32) -> Option<u32>
    ensures { result ≡ first_of copies.now place }
{
    for copied in copies {
        if copied.place == place {
            return Some(copied.from);
        }
    }
    None
}

impl<'a> Copies<'a> {
    /// A name is copied in a place. Copies to names that are not the function's scalars are left out.
    fn add(&mut self, place: Option<Place>, target: u32, from: u32) -> Result<(), AllocError>
        ensures { OnOk result (AreCopied self.old self.new (placed place) (Move target (NameOf from) ∷ [])) }
    {
        let Some(place) = place else {
            return Ok(());
        };
        if (target as usize) < self.by_target.len() {
            self.by_target[target as usize].push(Copied {
                place: place.0,
                from,
            })?;
        }
        Ok(())
    }

    /// What an instruction copies in a place.
    fn add_instruction(
        &mut self,
        place: Option<Place>,
        instruction: &Instr,
    ) -> Result<(), AllocError>
        ensures { OnOk result (AreCopied self.old self.new (placed place) (instruction_view instruction.now ∷ [])) }
    {
        if let Some((target, from)) = copy_of(instruction) {
            self.add(place, target, from)?;
        }
        Ok(())
    }

    /// The copies in a block.
    fn add_block(&mut self, block: &Block) -> Result<(), AllocError>
        ensures { OnOk result
            (AreCopied self.old self.new (placed block.now.place)
            (map instruction_view block.now.instructions.items)) }
    {
        let mut place = block.place;
        for instruction in &block.instructions {
            self.add_instruction(place, instruction)?;
            place = instruction.marker().or(place);
        }
        Ok(())
    }

    /// The copies to the scalars of a function.
    pub fn new(alloc: Global, graph: &'a Graph) -> Result<Copies<'a>, AllocError>
        ensures copies { IfOk result (λ made. AreCopies made) }
        ensures graph { IfOk result (λ made. made.graph.now ≡ graph.now) }
    {
        let mut copies = Copies {
            graph,
            by_target: no_copies(alloc, graph.scalars.len())?,
        };
        for block in &graph.blocks {
            copies.add_block(block)?;
        }
        Ok(copies)
    }

    /// The temporary of which the first copy to a scalar in a place is, if it is one of a temporary.
    pub fn temporary(&self, place: Place, scalar: u32) -> Option<u32>
        requires { AreCopies self.now }
        ensures copied { IfSome result
            (λ t. first_copy place.0 scalar (graph_view self.now.graph.now).blocks ≡ Some t) }
        ensures temporary { IfSome result (λ t. length (graph_view self.now.graph.now).scalars ≤ t) }
        ensures all { (t : ℕ) → scalar < length (graph_view self.now.graph.now).scalars
            → first_copy place.0 scalar (graph_view self.now.graph.now).blocks ≡ Some t
            → length (graph_view self.now.graph.now).scalars ≤ t → result ≡ Some t }
    {
        let copies = self.by_target.get(scalar as usize)?;
        match first_in(copies, place.0) {
            Some(name) if self.graph.scalars.len() <= name as usize => Some(name),
            _ => None,
        }
    }
}
