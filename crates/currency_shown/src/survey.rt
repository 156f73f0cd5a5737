//! The walk over all that some path reaches: what is found at its places, and that the states where chains begin are
//! so.

ghost use Rattle.std.specs.Prelude.{◌≡◌, ◌<◌, ◌⊎◌, ℕ, IfOk, OnOk, Some, false, get_or, length, map, slice_get, true};
ghost use Rattle.graph_core.specs.Graphs.{Jump, Marker, block_view, end_view, graph_view, instruction_view};
ghost use Rattle.graph_core.specs.Paths.{Among};
ghost use Rattle.graph_core.specs.Validity.{markers_in};
ghost use Rattle.currency_shown.specs.Chains.{AreAllOnce, AreFull, AreFullNext, AreStarts, IsCourse, IsFullAtStart, ranks};
ghost use Rattle.currency_shown.specs.Survey.{AreChainsSound, AreFresh, AreMet, IsChainSound, IsExtended, IsFound, IsMarkedIn, IsReachedSound, IsSomewhere, IsSound, IsSurvey, IsWalked, IsWithinNext};
ghost use Rattle.currency_shown.specs.Found.{IsPlaceOf, IsPlaceReached, is_met};
ghost use Rattle.currency_shown.specs.declared.found.Found as declared-found;
ghost use Rattle.currency_shown.specs.declared.states.States as declared-states;

use crate::found::Found;
use crate::numbering::Numbering;
use crate::states::States;
use currency_notes::{Function, State, place_behind};
use graph_core::{Block, End, Instr, Label};
use places::PlaceTable;
use std::alloc::{AllocError, Global};

/// What a walk over a function is made with: its number, the places of its program, its scalars by their variables, and
/// its blocks in chains.
#[derive(Drop)]
pub struct Survey<'a, 'b> {
    pub function: &'b Function<'a>,
    pub number: u32,
    pub table: &'b PlaceTable,
    pub numbering: Numbering,
    pub chains: &'b [Vec<u32>],
}

impl<'a> Survey<'a, '_> {
    /// Looks at the place that an instruction begins, if it begins one.
    fn look_at(
        &self,
        instruction: &Instr,
        state: &State<'a>,
        found: &mut Found<'a>,
    ) -> Result<(), AllocError>
        requires survey { IsSurvey self.now }
        requires met { AreMet self.now found.old }
        requires place { (p : ℕ) → instruction_view instruction.now ≡ Marker p
            → IsPlaceOf self.now.table.now self.now.number p }
        requires fresh { (p : ℕ) → instruction_view instruction.now ≡ Marker p → is_met found.old p ≡ false }
        requires reached { (p : ℕ) → instruction_view instruction.now ≡ Marker p
            → IsPlaceReached (graph_view self.now.function.now.graph.now) p }
        ensures extended { OnOk result (IsExtended self.now found.old found.new) }
        ensures found { OnOk result ((p : ℕ) → instruction_view instruction.now ≡ Marker p
            → IsFound self.now found.new state.now p) }
        ensures only { OnOk result ((p : ℕ) → is_met found.new p ≡ true
            → (is_met found.old p ≡ true) ⊎ (instruction_view instruction.now ≡ Marker p)) }
    {
        match instruction.marker() {
            Some(place) => {
                found.add_place(self.function, state, &self.numbering, self.table, place)?;
                Ok(())
            }
            None => Ok(()),
        }
    }

    /// Walks over a block, and looks at its places.
    fn add_block(
        &self,
        block: &'a Block,
        state: &mut State<'a>,
        found: &mut Found<'a>,
    ) -> Result<(), AllocError>
        requires survey { IsSurvey self.now }
        requires met { AreMet self.now found.old }
        requires places { (p : ℕ) → Among p (markers_in (map instruction_view block.now.instructions.items))
            → IsPlaceOf self.now.table.now self.now.number p }
        requires fresh { AreFresh found.old (markers_in (map instruction_view block.now.instructions.items)) }
        requires reached { IsSomewhere (graph_view self.now.function.now.graph.now)
            (map instruction_view block.now.instructions.items) (end_view block.now.end) }
        ensures extended { OnOk result (IsExtended self.now found.old found.new) }
        ensures only { OnOk result ((p : ℕ) → is_met found.new p ≡ true → (is_met found.old p ≡ true)
            ⊎ Among p (markers_in (map instruction_view block.now.instructions.items))) }
        ensures sound { OnOk result ((later : declared-found.Found) (n : ℕ)
            → IsExtended self.now found.new later
            → slice_get (graph_view self.now.function.now.graph.now).blocks n ≡ Some (block_view block.now)
            → IsSound self.now later n (map instruction_view block.now.instructions.items) state.old state.new) }
    {
        let mut place = block.place;
        for instruction in &block.instructions {
            self.look_at(instruction, state, found)?;
            place = place_behind(instruction, place);
            state.step(self.function, instruction, place);
        }
        Ok(())
    }

    /// Walks over the blocks of a chain, to which this end leads. Tells with which end it ends.
    fn add_chain(
        &self,
        chain: &[u32],
        mut end: End,
        state: &mut State<'a>,
        found: &mut Found<'a>,
    ) -> Result<End, AllocError>
        requires survey { IsSurvey self.now }
        requires met { AreMet self.now found.old }
        requires course { IsCourse self.now.function.now.graph.now.blocks.items self.now.chains.now
            (end_view end) chain.now }
        requires once { AreAllOnce chain.now }
        requires fresh { (p : ℕ) → IsMarkedIn (graph_view self.now.function.now.graph.now).blocks chain.now p
            → is_met found.old p ≡ false }
        requires full { AreFullNext self.now.function.now (end_view end) state.old }
        ensures extended { OnOk result (IsExtended self.now found.old found.new) }
        ensures only { OnOk result ((p : ℕ) → is_met found.new p ≡ true → (is_met found.old p ≡ true)
            ⊎ IsMarkedIn (graph_view self.now.function.now.graph.now).blocks chain.now p) }
        ensures full { IfOk result (λ last. AreFullNext self.now.function.now (end_view last) state.new) }
        ensures starts { IfOk result (λ last. AreStarts self.now.function.now.graph.now.blocks.items
            self.now.chains.now (end_view last)) }
        ensures sound { IfOk result (λ last. (states : declared-states.States) (later : declared-found.Found)
            → IsExtended self.now found.new later → IsWithinNext self.now states (end_view last) state.new
            → IsChainSound self.now states later chain.now (end_view end) state.old) }
    {
        for number in chain {
            let block = &self.function.graph.blocks[*number as usize];
            self.add_block(block, state, found)?;
            end = block.end;
        }
        Ok(end)
    }

    /// Walks over a chain, if a path comes to it. Tells whether less is so where it leads than was known before.
    fn add_reached(
        &self,
        alloc: Global,
        chain: &[u32],
        states: &mut States<'a>,
        found: &mut Found<'a>,
    ) -> Result<bool, AllocError>
        requires survey { IsSurvey self.now }
        requires met { AreMet self.now found.old }
        requires some { 0 < length chain.now }
        requires course { IsCourse self.now.function.now.graph.now.blocks.items self.now.chains.now
            (Jump (get_or chain.now 0 0)) chain.now }
        requires once { AreAllOnce chain.now }
        requires fresh { (p : ℕ) → IsMarkedIn (graph_view self.now.function.now.graph.now).blocks chain.now p
            → is_met found.old p ≡ false }
        requires full { AreFull self.now.function.now states.old }
        ensures extended { OnOk result (IsExtended self.now found.old found.new) }
        ensures only { OnOk result ((p : ℕ) → is_met found.new p ≡ true → (is_met found.old p ≡ true)
            ⊎ IsMarkedIn (graph_view self.now.function.now.graph.now).blocks chain.now p) }
        ensures full { OnOk result (AreFull self.now.function.now states.new) }
        ensures quiet { IfOk result (λ is_new. is_new ≡ false → states.new ≡ states.old) }
        ensures falls { IfOk result (λ is_new. is_new ≡ true
            → ranks self.now.function.now states.new < ranks self.now.function.now states.old) }
        ensures sound { IfOk result (λ is_new. is_new ≡ false → (later : declared-found.Found)
            → IsExtended self.now found.new later → IsReachedSound self.now states.old later chain.now) }
    {
        match states.at(alloc, chain[0])? {
            Some(mut state) => {
                let end = self.add_chain(chain, End::Jump(Label(chain[0])), &mut state, found)?;
                let is_new = states.go_on(alloc, self.function, &end, &state)?;
                Ok(is_new)
            }
            None => Ok(false),
        }
    }

    /// Walks over all chains. Tells whether less is so where one begins than was known before.
    fn add_chains(
        &self,
        alloc: Global,
        states: &mut States<'a>,
        found: &mut Found<'a>,
    ) -> Result<bool, AllocError>
        requires survey { IsSurvey self.now }
        requires met { AreMet self.now found.old }
        requires fresh { (p : ℕ) → is_met found.old p ≡ false }
        requires full { AreFull self.now.function.now states.old }
        ensures full { OnOk result (AreFull self.now.function.now states.new) }
        ensures quiet { IfOk result (λ is_new. is_new ≡ false → states.new ≡ states.old) }
        ensures falls { IfOk result (λ is_new. is_new ≡ true
            → ranks self.now.function.now states.new < ranks self.now.function.now states.old) }
        ensures met { OnOk result (AreMet self.now found.new) }
        ensures sound { IfOk result (λ is_new. is_new ≡ false
            → AreChainsSound self.now states.old found.new self.now.chains.now) }
    {
        for chain in self.chains {
            if self.add_reached(alloc, chain, states, found)? {
                return Ok(true);
            }
        }
        Ok(false)
    }

    /// Walks over all chains, with what is so where the function begins. Tells whether less is so where one begins than
    /// was known before.
    pub fn walk(
        &self,
        alloc: Global,
        entered: &State<'a>,
        states: &mut States<'a>,
        found: &mut Found<'a>,
    ) -> Result<bool, AllocError>
        requires survey { IsSurvey self.now }
        requires met { AreMet self.now found.old }
        requires fresh { (p : ℕ) → is_met found.old p ≡ false }
        requires full { AreFull self.now.function.now states.old }
        requires entered { IsFullAtStart self.now.function.now entered.now 0 }
        ensures full { OnOk result (AreFull self.now.function.now states.new) }
        ensures falls { IfOk result (λ is_new. is_new ≡ true
            → ranks self.now.function.now states.new < ranks self.now.function.now states.old) }
        ensures walked { IfOk result (λ is_new. is_new ≡ false
            → IsWalked self.now states.new found.new entered.now) }
        ensures quiet { IfOk result (λ is_new. is_new ≡ false → states.new ≡ states.old) }
    {
        if states.arrive(alloc, self.function, 0, entered)? {
            return Ok(true);
        }
        let is_new = self.add_chains(alloc, states, found)?;
        Ok(is_new)
    }
}
