//! What is so where chains of blocks begin.

ghost use Rattle.std.specs.Prelude.{◌≡◌, ◌<◌, ◌≤◌, ◌∷◌, ℕ, IfOk, List, OnOk, Some, false, get_or, length, slice_get, true};
ghost use Rattle.graph_core.specs.Graphs.{end_view};
ghost use Rattle.graph_core.specs.Paths.{Among};
ghost use Rattle.graph_core.specs.Uses.{targets_of};
ghost use Rattle.currency_notes.specs.Ranks.{rank};
ghost use Rattle.currency_notes.specs.declared.state.State as declared-state;
ghost use Rattle.currency_shown.specs.Chains.{AreEqualAll, AreFull, AreFullNext, AreLinked, IsComeTo, IsFullAtEnd, IsFullAtStart, IsLinked, IsWithinSome, comes_to, last_in, rank_or, ranks};

use currency_notes::{Function, State};
use graph_core::End;
use graph_paths::{flag, put_flag};
use std::alloc::{AllocError, Global};

/// For each block that begins a chain what is so there.
#[derive(Drop)]
pub struct States<'a> {
    /// By block; none where no path comes as far as was looked.
    arrived: Vec<Option<State<'a>>>,
    /// Which blocks are still to be left with what is so there now.
    waiting: Vec<bool>,
}

/// Nothing has come to so many blocks.
fn nothing<'a>(alloc: Global, count: usize) -> Result<Vec<Option<State<'a>>>, AllocError>
    ensures none { IfOk result (λ arrived. (l : ℕ) (t : declared-state.State)
        → slice_get arrived.items l ≡ Some (Some t) → ⊥) }
    ensures count { IfOk result (λ arrived. length arrived.items ≡ count) }
{
    let mut arrived = Vec::new(alloc);
    while arrived.len() < count {
        arrived.push(None)?;
    }
    Ok(arrived)
}

/// Steps over a block, if there is one of this number.
fn walk_block<'a>(function: &Function<'a>, number: u32, state: &mut State<'a>)
    ensures { IsFullAtStart function.now state.old number → IsFullAtEnd function.now state.new number }
{
    if number as usize >= function.graph.blocks.len() {
        return;
    }
    let block = &function.graph.blocks[number as usize];
    state.walk(function, block);
}

/// Steps over the blocks of a chain.
fn walk<'a>(function: &Function<'a>, chain: &[u32], state: &mut State<'a>)
    ensures { (first last : ℕ) (more : List ℕ) → IsLinked function.now.graph.now.blocks.items chain.now
        → chain.now ≡ first ∷ more → last_in chain.now ≡ Some last → IsFullAtStart function.now state.old first
        → IsFullAtEnd function.now state.new last }
{
    for number in chain {
        walk_block(function, *number, state);
    }
}

/// A state comes where this was so before, or nothing.
fn come<'a>(
    alloc: Global,
    found: &mut Option<State<'a>>,
    state: &State<'a>,
) -> Result<(), AllocError>
    ensures come { OnOk result (IsComeTo found.old state.now found.new) }
    ensures falls { OnOk result ((IsWithinSome found.old state.now → ⊥) → (most : ℕ) → rank state.now ≤ most
        → rank_or most found.new < rank_or most found.old) }
{
    match found {
        Some(old) => {
            old.join(state);
            Ok(())
        }
        None => {
            *found = Some(state.duplicate(alloc)?);
            Ok(())
        }
    }
}

impl<'a> States<'a> {
    /// A state comes to a block. Tells whether less is so there than before.
    pub fn arrive(
        &mut self,
        alloc: Global,
        function: &Function<'a>,
        to: u32,
        state: &State<'a>,
    ) -> Result<bool, AllocError>
        ensures full { OnOk result (AreFull function.now self.old → IsFullAtStart function.now state.now to
            → AreFull function.now self.new) }
        ensures quiet { IfOk result (λ is_new. is_new ≡ false → self.new ≡ self.old) }
        ensures within { IfOk result (λ is_new. is_new ≡ false → to < length self.old.arrived.items
            → IsWithinSome (comes_to self.old to) state.now) }
        ensures falls { IfOk result (λ is_new. is_new ≡ true → AreFull function.now self.old
            → IsFullAtStart function.now state.now to → ranks function.now self.new < ranks function.now self.old) }
    {
        if to as usize >= self.arrived.len() {
            return Ok(false);
        }
        if self.is_within(to, state) {
            return Ok(false);
        }
        come(alloc, &mut self.arrived[to as usize], state)?;
        put_flag(&mut self.waiting, to, true);
        Ok(true)
    }

    /// Whether a state is no less than what is so where a chain begins that a path comes to.
    fn is_within(&self, block: u32, state: &State<'a>) -> bool
        ensures within { result ≡ true → IsWithinSome (comes_to self.now block) state.now }
        ensures apart { result ≡ false → IsWithinSome (comes_to self.now block) state.now → ⊥ }
    {
        match self.arrived.get(block as usize) {
            Some(Some(found)) => found.is_within(state),
            Some(None) => false,
            None => false,
        }
    }

    /// What is so where a chain begins that a path comes to.
    pub fn at(&self, alloc: Global, block: u32) -> Result<Option<State<'a>>, AllocError>
        ensures { IfOk result (λ o. AreEqualAll o (comes_to self.now block)) }
    {
        match self.arrived.get(block as usize) {
            Some(Some(state)) => Ok(Some(state.duplicate(alloc)?)),
            _ => Ok(None),
        }
    }

    /// A state comes to the blocks to which one leads. Tells whether less is so in one of them than before.
    pub fn go_on(
        &mut self,
        alloc: Global,
        function: &Function<'a>,
        end: &End,
        state: &State<'a>,
    ) -> Result<bool, AllocError>
        ensures full { OnOk result (AreFull function.now self.old
            → AreFullNext function.now (end_view end.now) state.now → AreFull function.now self.new) }
        ensures quiet { IfOk result (λ is_new. is_new ≡ false → self.new ≡ self.old) }
        ensures within { IfOk result (λ is_new. is_new ≡ false → (l : ℕ) → Among l (targets_of (end_view end.now))
            → l < length self.old.arrived.items → IsWithinSome (comes_to self.old l) state.now) }
        ensures falls { IfOk result (λ is_new. is_new ≡ true → AreFull function.now self.old
            → AreFullNext function.now (end_view end.now) state.now
            → ranks function.now self.new < ranks function.now self.old) }
    {
        let targets = end.targets();
        let mut is_new = false;
        for target in targets.as_slice() {
            let is_newer = self.arrive(alloc, function, target.0, state)?;
            is_new |= is_newer;
        }
        Ok(is_new)
    }

    /// Leaves a chain with what is so where it begins.
    fn leave(
        &mut self,
        alloc: Global,
        function: &Function<'a>,
        chain: &[u32],
    ) -> Result<(), AllocError>
        ensures { OnOk result
            (IsLinked function.now.graph.now.blocks.items chain.now → AreFull function.now self.old
            → AreFull function.now self.new) }
    {
        if chain.is_empty() {
            return Ok(());
        }
        match self.at(alloc, chain[0])? {
            Some(state) => {
                self.leave_with(alloc, function, chain, state)?;
                Ok(())
            }
            None => Ok(()),
        }
    }

    /// Leaves a chain with this, which is so where it begins.
    fn leave_with(
        &mut self,
        alloc: Global,
        function: &Function<'a>,
        chain: &[u32],
        mut state: State<'a>,
    ) -> Result<(), AllocError>
        requires { 0 < length chain.now }
        ensures { OnOk result
            (IsLinked function.now.graph.now.blocks.items chain.now
            → IsFullAtStart function.now state.entry (get_or chain.now 0 0) → AreFull function.now self.old
            → AreFull function.now self.new) }
    {
        walk(function, chain, &mut state);
        let last = chain[chain.len() - 1];
        if last as usize >= function.graph.blocks.len() {
            return Ok(());
        }
        let block = &function.graph.blocks[last as usize];
        self.go_on(alloc, function, &block.end, &state)?;
        Ok(())
    }

    /// Leaves a chain, if it waits. Tells whether it did.
    fn leave_waiting(
        &mut self,
        alloc: Global,
        function: &Function<'a>,
        chain: &[u32],
    ) -> Result<bool, AllocError>
        ensures { OnOk result
            (IsLinked function.now.graph.now.blocks.items chain.now → AreFull function.now self.old
            → AreFull function.now self.new) }
    {
        if chain.is_empty() || !flag(&self.waiting, chain[0]) {
            return Ok(false);
        }
        put_flag(&mut self.waiting, chain[0], false);
        self.leave(alloc, function, chain)?;
        Ok(true)
    }

    /// Leaves each chain that waits. Tells whether one did.
    fn round(
        &mut self,
        alloc: Global,
        function: &Function<'a>,
        chains: &[Vec<u32>],
    ) -> Result<bool, AllocError>
        ensures { OnOk result
            (AreLinked function.now.graph.now.blocks.items chains.now → AreFull function.now self.old
            → AreFull function.now self.new) }
    {
        let mut is_new = false;
        for chain in chains {
            let has_left = self.leave_waiting(alloc, function, chain)?;
            is_new |= has_left;
        }
        Ok(is_new)
    }

    /// What is so where the chains of a function begin, as far as so many rounds come. In each but the last some chain
    /// has less of a scalar or a home, or a lesser change.
    pub fn new(
        alloc: Global,
        function: &Function<'a>,
        chains: &[Vec<u32>],
        changes: usize,
    ) -> Result<States<'a>, AllocError>
        ensures { IfOk result (λ states.
            AreLinked function.now.graph.now.blocks.items chains.now → AreFull function.now states) }
    {
        let count = function.graph.blocks.len();
        let mut states = States {
            arrived: nothing(alloc, count)?,
            waiting: vec![in alloc; false; count]?,
        };
        let entered = State::entered(alloc, function)?;
        let cells = entered.noted.len().saturating_add(entered.written.len());
        states.arrive(alloc, function, 0, &entered)?;
        let falls = (changes as u64).saturating_add(3);
        let rounds = (count as u64)
            .saturating_mul(cells as u64)
            .saturating_mul(falls)
            .saturating_add(2);
        for _ in 0..rounds {
            if !states.round(alloc, function, chains)? {
                break;
            }
        }
        Ok(states)
    }
}
