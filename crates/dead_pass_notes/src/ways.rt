//! What is written between points of a place.

ghost use Rattle.std.specs.Prelude.{◌≡◌, ◌↔◌, ◌⊎◌, ℕ, suc, ◌*◌, ◌++◌, ◌<◌, ◌≤◌, ◌^◌, IfOk, List, OnOk, [], ◌∷◌, false, length, map, slice_index_or, true};
ghost use Rattle.places.specs.declared.flow.Assignment.{Assignment};
ghost use Rattle.graph_core.specs.Graphs.{end_view, graph_view, instruction_view};
ghost use Rattle.graph_core.specs.Paths.{Among};
ghost use Rattle.graph_core.specs.Uses.{targets_of};
ghost use Rattle.dead_pass_rule.specs.Asking.{is_going};
ghost use Rattle.dead_pass_rule.specs.Walks.{turn_of};
ghost use Rattle.dead_pass_notes.specs.Between.{IsWrittenBetween};
ghost use Rattle.dead_pass_notes.specs.declared.scans.Scanned.TheVariants.{Leaves, Stops};
ghost use Rattle.dead_pass_notes.specs.Spots.{IsPoint, end_at, left_at};

use crate::scans::{Scanned, Sought, scan};
use crate::spots::instructions_left;
use dead_pass_writes::Spot;
use graph_core::{End, Graph, Instr};
use std::alloc::{AllocError, Global};

/// A search has come to the start of a block, with a write of the name on its way or without.
#[derive(Clone, Copy)]
pub struct Way {
    pub block: u32,
    pub is_written: bool,
}

/// The blocks to which ways within a place come, with and without a write on them.
#[derive(Drop)]
pub struct Ways {
    /// For each block, without a write and with one, the number of the last search that came to its start.
    seen: Vec<u32>,
    search: u32,
    /// Where this search came.
    ahead: Vec<Way>,
    ghost earlier: { (number : ℕ) → slice_index_or seen.items number 0 ≤ search },
}

impl Ways {
    ghost use Rattle.dead_pass_notes.specs.Scans.{AreSeen, GoesOn, HasCome, HasGrown, IsReady, SomeComes, number_of, scan_of};

    /// Ways in a graph of so many blocks.
    pub fn new(alloc: Global, count: usize) -> Result<Ways, AllocError>
        requires few { count < 2 ^ 32 }
        ensures { IfOk result (λ ways. length ways.seen.items ≡ count * 2) }
    {
        Ok(Ways {
            seen: vec![in alloc; 0u32; count * 2]?,
            search: 0,
            ahead: Vec::new(alloc),
        })
    }

    /// A search begins, which has seen nothing.
    fn begin(&mut self)
        ensures count { length self.new.seen.items ≡ length self.old.seen.items }
        ensures none { self.new.ahead.items ≡ [] }
        ensures fresh { AreSeen self.new }
    {
        self.ahead.clear();
        if self.search == u32::MAX {
            self.seen.fill(0);
            self.search = 0;
        }
        self.search += 1;
    }

    /// The search comes to the start of a block, if there is one, with a write on its way or without.
    fn come_to(&mut self, block: u32, is_written: bool) -> Result<(), AllocError>
        ensures count { OnOk result (length self.new.seen.items ≡ length self.old.seen.items) }
        ensures seen { OnOk result (AreSeen self.old → AreSeen self.new) }
        ensures ahead { OnOk result
            ((self.new.ahead.items ≡ self.old.ahead.items) ⊎ (self.new.ahead.items
            ≡ self.old.ahead.items ++ record { block = block; is_written = is_written } ∷ [])) }
        ensures come { OnOk result
            (AreSeen self.old → number_of block is_written < length self.old.seen.items
            → HasCome self.new.ahead.items block is_written) }
    {
        let number = block as usize * 2 + usize::from(is_written);
        if number >= self.seen.len() || self.seen[number] == self.search {
            return Ok(());
        }
        self.ahead.push(Way { block, is_written })?;
        self.seen[number] = self.search;
        Ok(())
    }

    /// The search goes on to the blocks to which an end leads.
    fn go_on(&mut self, end: &End, is_written: bool) -> Result<(), AllocError>
        ensures count { OnOk result (length self.new.seen.items ≡ length self.old.seen.items) }
        ensures seen { OnOk result (AreSeen self.old → AreSeen self.new) }
        ensures grown { OnOk result
            (HasGrown (end_view end.now) (Leaves is_written) self.old.ahead.items self.new.ahead.items) }
        ensures come { OnOk result
            ((count : ℕ) → length self.old.seen.items ≡ count * 2 → AreSeen self.old → (l : ℕ)
            → Among l (targets_of (end_view end.now)) → l < count → HasCome self.new.ahead.items l is_written) }
    {
        let targets = end.targets();
        for target in targets.as_slice() {
            self.come_to(target.0, is_written)?;
        }
        Ok(())
    }

    /// The search goes along instructions of a block with this end, and on from there. Tells whether it comes to the
    /// point that is sought, with a write on its way.
    fn visit(
        &mut self,
        turns: &[Vec<u32>],
        sought: Sought,
        block: u32,
        instructions: &[Instr],
        end: &End,
        was_written: bool,
    ) -> Result<bool, AllocError>
        ensures count { OnOk result (length self.new.seen.items ≡ length self.old.seen.items) }
        ensures seen { OnOk result (AreSeen self.old → AreSeen self.new) }
        ensures grown { OnOk result
            (HasGrown (end_view end.now) (scan_of (is_going (turn_of turns.now)) sought.to sought.name block
            was_written (map instruction_view instructions.now)) self.old.ahead.items self.new.ahead.items) }
        ensures found { IfOk result (λ is.
            is ≡ true
            → scan_of (is_going (turn_of turns.now)) sought.to sought.name block was_written
            (map instruction_view instructions.now) ≡ Stops true) }
        ensures on { IfOk result (λ is.
            is ≡ false → (count : ℕ) → length self.old.seen.items ≡ count * 2 → AreSeen self.old
            → GoesOn count self.new.ahead.items (end_view end.now)
            (scan_of (is_going (turn_of turns.now)) sought.to sought.name block was_written
            (map instruction_view instructions.now))) }
    {
        match scan(turns, sought, block, instructions, was_written) {
            Scanned::Stops(is_written) => Ok(is_written),
            Scanned::Leaves(is_written) => {
                self.go_on(end, is_written)?;
                Ok(false)
            }
        }
    }

    /// Whether the search comes to the point that is sought with a write on its way, from where it has come.
    fn search(
        &mut self,
        graph: &Graph,
        turns: &[Vec<u32>],
        sought: Sought,
    ) -> Result<bool, AllocError>
        ensures count { OnOk result (length self.new.seen.items ≡ length self.old.seen.items) }
        ensures exact { IfOk result (λ is.
            (assignments : List Assignment)
            → IsReady assignments (graph_view graph.now) (is_going (turn_of turns.now)) sought.to self.old
            → AreSeen self.old
            → (is ≡ true) ↔ SomeComes assignments (graph_view graph.now) sought.to sought.name self.old.ahead.items) }
    {
        for at in 0..usize::MAX {
            let Some(found) = self.ahead.get(at) else {
                return Ok(false);
            };
            let way = *found;
            if let Some(block) = graph.blocks.get(way.block as usize) {
                if self.visit(
                    turns,
                    sought,
                    way.block,
                    &block.instructions,
                    &block.end,
                    way.is_written,
                )? {
                    return Ok(true);
                }
            }
        }
        unreachable!()
    }

    /// Whether some way within a place, from behind an instruction to another, has a write of a name that stays.
    pub fn is_written_between(
        &mut self,
        graph: &Graph,
        turns: &[Vec<u32>],
        from: Spot,
        to: Spot,
        name: u32,
    ) -> Result<bool, AllocError>
        ensures count { OnOk result (length self.new.seen.items ≡ length self.old.seen.items) }
        ensures exact { IfOk result (λ is.
            (assignments : List Assignment)
            → IsReady assignments (graph_view graph.now) (is_going (turn_of turns.now)) to self.old
            → IsPoint (graph_view graph.now) from.block from.left
            → (is ≡ true) ↔ IsWrittenBetween assignments (graph_view graph.now) to.block
            (left_at (graph_view graph.now) to.block (suc to.left)) name from.block
            (left_at (graph_view graph.now) from.block from.left) (end_at (graph_view graph.now) from.block)) }
    {
        self.begin();
        let Some(block) = graph.blocks.get(from.block as usize) else {
            return Ok(false);
        };
        let sought = Sought { to, name };
        let rest = instructions_left(graph, from.block, from.left);
        if self.visit(turns, sought, from.block, rest, &block.end, false)? {
            return Ok(true);
        }
        self.search(graph, turns, sought)
    }
}
