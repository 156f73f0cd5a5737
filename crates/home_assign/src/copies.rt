//! Which temporaries stand for the moved computations of scalars' values.

ghost use Rattle.std.specs.Prelude.{◌≡◌, ◌↔◌, ℕ, [], ◌∷◌, Option, IfOk, OnOk, length, map, option_map, true};
ghost use Rattle.debug_records.specs.declared.change.Place as declared-place;
ghost use Rattle.graph_core.specs.Graphs.{block_view, graph_view, instruction_view, scalar_view};
ghost use Rattle.graph_core.specs.Validity as validity;
ghost use Rattle.graph_homes.specs.Reused.{first_among, first_copy, one_or_other};
ghost use Rattle.home_assign.specs.Copies.{AreSoFar, IsOwn, copy_at};
ghost use Rattle.home_assign.specs.Moves.{is_moved_at};
ghost use Rattle.home_assign.specs.Pairs.{has};

use crate::moves::Moves;
use crate::pairs::Pairs;
use debug_records::Place;
use graph_core::{Block, Graph, Instr, Operand, Scalar};
use std::alloc::{AllocError, Global};

/// The copies of a graph, as far as its instructions were gone through.
#[derive(Drop)]
pub(crate) struct Copies {
    /// The place and the target of each.
    seen: Pairs,
    /// Each scalar with the temporaries of its moved computations.
    own: Pairs,
}

/// The place in force behind an instruction.
fn place_behind(instruction: &Instr, place: Option<Place>) -> Option<Place>
    ensures { option_map (λ (p : declared-place.Place). p.0) result ≡ validity.place_behind
        (instruction_view instruction.now ∷ []) (option_map (λ (p : declared-place.Place). p.0) place) }
{
    match instruction.marker() {
        Some(begun) => Some(begun),
        None => place,
    }
}

impl Copies {
    /// In a place a name becomes a copy of another one.
    fn add(
        &mut self,
        scalars: &[Scalar],
        moves: &Moves,
        place: u32,
        to: u32,
        from: u32,
    ) -> Result<(), AllocError>
        ensures { OnOk result
            ((rest whole : ℕ → ℕ → Option ℕ) → AreSoFar (is_moved_at (map scalar_view scalars.now) moves.now)
            (length scalars.now) (λ p x. one_or_other (copy_at place to from p x) (rest p x)) whole self.old →
            AreSoFar (is_moved_at (map scalar_view scalars.now) moves.now) (length scalars.now) rest whole
            self.new) }
    {
        let is_first = self.seen.add(place, to)?;
        if is_first && scalars.len() <= from as usize && moves.has(scalars, to, place) {
            self.own.add(to, from)?;
        }
        Ok(())
    }

    /// An instruction that stands where a place is in force, if there is one.
    fn add_by(
        &mut self,
        scalars: &[Scalar],
        moves: &Moves,
        place: Option<Place>,
        instruction: &Instr,
    ) -> Result<(), AllocError>
        ensures { OnOk result
            ((rest whole : ℕ → ℕ → Option ℕ) → AreSoFar (is_moved_at (map scalar_view
            scalars.now) moves.now) (length scalars.now) (λ p x. one_or_other (first_among p x
            (option_map (λ (q : declared-place.Place). q.0) place)
            (instruction_view instruction.now ∷ [])) (rest p x)) whole self.old → AreSoFar (is_moved_at (map
            scalar_view scalars.now) moves.now) (length scalars.now) rest whole self.new) }
    {
        if let Some(place) = place {
            if let Instr::Move {
                target,
                from: Operand::Name(from),
            } = instruction
            {
                self.add(scalars, moves, place.0, target.0, from.0)?;
            }
        }
        Ok(())
    }

    /// The instructions of a block.
    fn add_block(
        &mut self,
        scalars: &[Scalar],
        moves: &Moves,
        block: &Block,
    ) -> Result<(), AllocError>
        ensures { OnOk result
            ((rest whole : ℕ → ℕ → Option ℕ) → AreSoFar (is_moved_at (map scalar_view scalars.now)
            moves.now) (length scalars.now) (λ p x. one_or_other
            (first_among p x (block_view block.now).place (block_view block.now).instructions)
            (rest p x)) whole self.old → AreSoFar (is_moved_at (map scalar_view scalars.now) moves.now) (length
            scalars.now) rest whole self.new) }
    {
        let mut place = block.place;
        let mut left = block.instructions.as_slice();
        while let [instruction, rest @ ..] = left {
            self.add_by(scalars, moves, place, instruction)?;
            place = place_behind(instruction, place);
            left = rest;
        }
        Ok(())
    }
}

/// Each scalar of a graph with the temporaries of its moved computations.
pub(crate) fn temporaries_of(
    alloc: Global,
    graph: &Graph,
    moves: &Moves,
) -> Result<Pairs, AllocError>
    ensures { IfOk result (λ own.
        let g = graph_view graph.now in (x y : ℕ)
        → (has own x y ≡ true) ↔ IsOwn (is_moved_at g.scalars moves.now) (length g.scalars)
        (λ p z. first_copy p z g.blocks) x y) }
{
    let mut copies = Copies {
        seen: Pairs::new(alloc),
        own: Pairs::new(alloc),
    };
    let mut left = graph.blocks.as_slice();
    while let [block, rest @ ..] = left {
        copies.add_block(&graph.scalars, moves, block)?;
        left = rest;
    }
    Ok(copies.own)
}
