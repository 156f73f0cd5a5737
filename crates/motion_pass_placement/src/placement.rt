//! Where computations are done, and where their values are read instead.

ghost use Rattle.std.specs.Prelude.{◌≡◌, ◌↔◌, ◌⊎◌, ℕ, ◌+◌, ◌*◌, ◌-◌, ◌<◌, ◌≤◌, ◌^◌, ◌/◌, ◌&&◌, ◌||◌, not, false, IfOk, OnOk, List, [], ◌∷◌, ◌++◌, None, Some, is_some, length, map, slice_get, slice_index_or, true};
ghost use Rattle.graph_core.specs.Computations as spec-computation;
ghost use Rattle.graph_core.specs.Graphs as spec;
ghost use Rattle.graph_core.specs.Graphs.{block_view, graph_view, instruction_view};
ghost use Rattle.motion_pass_problems.specs.Facts.{AreReached};
ghost use Rattle.motion_pass_problems.specs.Inner.{point_at};
ghost use Rattle.motion_pass_problems.specs.Flowing.{HasEdge};
ghost use Rattle.motion_pass_points.specs.Columns as column;
ghost use Rattle.motion_pass_points.specs.Columns.{is_number};
ghost use Rattle.motion_pass_points.specs.Numbers.{AreNumbers, AreOnce, computed_in, views_of};
ghost use Rattle.motion_pass_points.specs.Words.{has};
ghost use Rattle.motion_pass_points.specs.Ways.{IsCome, IsInserted, along, within};
ghost use Rattle.motion_pass_placement.specs.Bounded.{IsBounded};
ghost use Rattle.motion_pass_placement.specs.Columns.{fates_of, row_of};
ghost use Rattle.motion_pass_placement.specs.Fates as fate;
ghost use Rattle.motion_pass_placement.specs.Placed.{AreNumbered, IsAnswered, IsMovedAnywhere, IsMovedBefore, IsPlaced, is_on_edge, moved_by, stays_by};

use crate::columns::{Placing, Solved, numbers_of, row_at};
use crate::fates::{Fate, NO_FATE, fate_at};
use graph_core::{Graph, Instr, Name};
use graph_paths::reached_in_order;
use motion_pass_points::{Computation, Computations, both, either, is_flagged, is_in, without};
use motion_pass_problems::{Facts, comes_back, reached_flags, word_of};
use std::alloc::{AllocError, Global};

/// What becomes of an instruction.
#[derive(Clone, Copy)]
pub enum Action {
    /// It stays.
    Keep,
    /// It reads its computation's temporary.
    Read(Name),
    /// The computation is done into its temporary, and then the instruction reads that.
    Compute(Computation, Name),
}

/// Where the computations of a graph are done.
#[derive(Drop)]
pub struct Placement {
    computations: Computations,
    /// For each computation its temporary, if it has one.
    temporaries: Vec<Option<Name>>,
    /// For each block and instruction the number of the computation that it does, and what is so of it.
    numbers: Vec<Vec<Option<u32>>>,
    fates: Vec<Vec<Fate>>,
    /// For each 64 computations what is so of them at each block.
    columns: Vec<Solved>,
    /// Which blocks some path reaches.
    reached: Vec<bool>,
    /// The name behind all temporaries of computations.
    end_name: u32,
}

/// What the placing of a graph's computations came to.
#[derive(Drop)]
pub enum Motion {
    /// They stay: some path comes to an edge that leads into the first block, so nothing can be done before the entry
    /// alone.
    EnteredAgain,
    /// They are done so.
    Placed(Placement),
}

/// Whether an instruction stays that does a computation: it is the latest point, and its value would not be used again.
fn stays(fate: Fate) -> bool
    ensures { result ≡ stays_by fate }
{
    fate.is_late && !fate.is_used
}

/// Those of a column that are done on the edge from a block to another.
fn bits_on_edge(facts: &Facts, from: usize, to: usize) -> u64
    ensures { (k : ℕ) → has result k ≡ is_on_edge facts.now from to k }
{
    let past_end = word_of(&facts.past_ends, from);
    let unsafe_start = word_of(&facts.unsafe_starts, to);
    let past = either(past_end, unsafe_start);
    let past_start = word_of(&facts.past_starts, to);
    let used_start = word_of(&facts.used_starts, to);
    let open = both(past_start, used_start);
    without(open, past)
}

/// The number of a row, if there is one.
fn number_in_row(row: &[Option<u32>], index: usize) -> Option<u32>
    ensures { result ≡ column.number_at row.now index }
{
    match row.get(index) {
        Some(number) => *number,
        None => None,
    }
}

/// The temporary of a number, if it has one.
fn temporary_at(temporaries: &[Option<Name>], number: usize) -> Option<Name>
    ensures { result ≡ slice_index_or temporaries.now number None }
{
    match temporaries.get(number) {
        Some(temporary) => *temporary,
        None => None,
    }
}

/// The computation of a number, if there is one.
fn computation_at(all: &[Computation], number: usize) -> Option<Computation>
    ensures { result ≡ slice_get all.now number }
{
    match all.get(number) {
        Some(computation) => Some(*computation),
        None => None,
    }
}

/// What becomes of an instruction that does this computation, with this temporary, and does not stay.
fn moved_action(computation: Option<Computation>, temporary: Option<Name>, is_late: bool) -> Action
    ensures { result ≡ moved_by computation temporary is_late }
{
    let Some(computation) = computation else {
        return Action::Keep;
    };
    let Some(temporary) = temporary else {
        return Action::Keep;
    };
    if is_late {
        Action::Compute(computation, temporary)
    } else {
        Action::Read(temporary)
    }
}

impl Placement {
    ghost use Rattle.motion_pass_placement.specs.Placed.{AreDone, IsActed, all_of, temporary_of};
    ghost use Rattle.motion_pass_placement.specs.declared.placement.Action.TheVariants.{Keep};

    /// What is so at an instruction of a block.
    fn fate_of(&self, block: usize, index: usize) -> Fate
        ensures { result ≡ fate.fate_of (fates_of self.now.fates.items block) index }
    {
        match self.fates.get(block) {
            Some(row) => fate_at(row, index),
            None => NO_FATE,
        }
    }

    /// What becomes of an instruction that does the computation of a number, and does not stay.
    fn moved(&self, number: usize, is_late: bool) -> Action
        ensures { result ≡ moved_by (slice_get self.now.computations.all.items number)
            (temporary_of self.now.temporaries.items number) is_late }
    {
        let computation = computation_at(&self.computations.all, number);
        let temporary = temporary_at(&self.temporaries, number);
        moved_action(computation, temporary, is_late)
    }

    /// What becomes of an instruction of a block.
    pub fn action(&self, block: u32, index: usize) -> Action
        ensures by_rule { (g : spec.Graph) → IsPlaced g self.now → (b : spec.Block) → slice_get g.blocks block ≡ Some b
            → index < length b.instructions → IsCome g.blocks (point_at block b index)
            → IsActed g.blocks self.now (point_at block b index) result }
        ensures nowhere { (g : spec.Graph) → IsPlaced g self.now → (b : spec.Block) → slice_get g.blocks block ≡ Some b
            → (IsCome g.blocks (point_at block b index) → ⊥) → result ≡ Keep }
    {
        let row = row_at(&self.numbers, block as usize);
        let Some(number) = number_in_row(row, index) else {
            return Action::Keep;
        };
        let fate = self.fate_of(block as usize, index);
        if stays(fate) {
            return Action::Keep;
        }
        self.moved(number as usize, fate.is_late)
    }

    /// The name behind all temporaries of computations.
    pub fn end_name(&self) -> u32
        ensures { result ≡ self.now.end_name }
    {
        self.end_name
    }

    /// Appends the computation of a number into its temporary, if it is flagged and has one.
    fn push_flagged(
        &self,
        number: usize,
        flag: bool,
        out: &mut Vec<Instr>,
    ) -> Result<(), AllocError>
        ensures { (g : spec.Graph) → IsPlaced g self.now → (from to : ℕ) → ((e : spec-computation.Computation)
            → slice_get (all_of self.now) number ≡ Some e
            → (flag ≡ true) ↔ IsInserted g.blocks e (along from to)) → IsCome g.blocks (along from to)
            → AreDone g.blocks self.now (along from to) number (map instruction_view out.old.items) → IfOk result
            (λ _. AreDone g.blocks self.now (along from to) (number + 1) (map instruction_view out.new.items)) }
    {
        if !flag {
            return Ok(());
        }
        let Some(computation) = computation_at(&self.computations.all, number) else {
            return Ok(());
        };
        let Some(temporary) = temporary_at(&self.temporaries, number) else {
            return Ok(());
        };
        let instruction = computation.into_name(temporary);
        out.push(instruction)?;
        Ok(())
    }

    /// Appends the computations of bits of a column.
    fn push_bits(&self, column: usize, bits: u64, out: &mut Vec<Instr>) -> Result<(), AllocError>
        requires { column < 4294967296 }
        ensures { (g : spec.Graph) → IsPlaced g self.now → (from to : ℕ) → ((k : ℕ) (e : spec-computation.Computation)
            → k / 64 ≡ column → slice_get (all_of self.now) k ≡ Some e
            → (has bits k ≡ true) ↔ IsInserted g.blocks e (along from to)) → IsCome g.blocks (along from to)
            → AreDone g.blocks self.now (along from to) (column * 64) (map instruction_view out.old.items) → IfOk result
            (λ _. AreDone g.blocks self.now (along from to) (column * 64 + 64) (map instruction_view out.new.items)) }
    {
        if bits == 0 {
            return Ok(());
        }
        for bit in 0..64u32 {
            let flag = is_in(bits, bit);
            self.push_flagged(column * 64 + bit as usize, flag, out)?;
        }
        Ok(())
    }

    /// The computations that are done on the edge from a block to another, in order.
    pub fn on_edge(&self, alloc: Global, from: u32, to: u32) -> Result<Vec<Instr>, AllocError>
        ensures by_rule { (g : spec.Graph) → IsPlaced g self.now → (b : spec.Block) → slice_get g.blocks to ≡ Some b
            → IsCome g.blocks (along from to)
            → IfOk result (λ out.
            AreDone g.blocks self.now (along from to) (length (all_of self.now)) (map instruction_view out.items)) }
        ensures nowhere { (g : spec.Graph) → IsPlaced g self.now → (b : spec.Block) → slice_get g.blocks from ≡ Some b
            → (IsCome g.blocks (within from [] b.end) → ⊥) → IfOk result (λ out. out.items ≡ []) }
    {
        let mut out = Vec::new(alloc);
        if !is_flagged(&self.reached, from as usize) {
            return Ok(out);
        }
        if self.columns.len() > 0xffff_ffff {
            return Ok(out);
        }
        for number in 0..self.columns.len() {
            let solved = &self.columns[number];
            let bits = bits_on_edge(&solved.facts, from as usize, to as usize);
            self.push_bits(number, bits, &mut out)?;
        }
        Ok(out)
    }
}

/// Marks the computation of a number, if it does not stay.
fn mark(number: Option<u32>, fate: Fate, treated: &mut [bool])
    ensures size { length treated.new ≡ length treated.old }
    ensures marked { (k : ℕ) → k < length treated.old
        → slice_index_or treated.new k false ≡
        (slice_index_or treated.old k false || (is_number k number && not (stays_by fate))) }
{
    if stays(fate) {
        return;
    }
    if let Some(number) = number {
        if (number as usize) < treated.len() {
            treated[number as usize] = true;
        }
    }
}

/// Marks the computations of a block that do not all stay.
fn mark_row(numbers: &[Option<u32>], fates: &[Fate], treated: &mut [bool])
    ensures size { length treated.new ≡ length treated.old }
    ensures marked { (k : ℕ) → k < length treated.old
        → (slice_index_or treated.new k false ≡ true) ↔
        ((slice_index_or treated.old k false ≡ true) ⊎ IsMovedBefore (length fates.now) numbers.now fates.now k) }
{
    for index in 0..fates.len() {
        let number = number_in_row(numbers, index);
        let fate = fate_at(fates, index);
        mark(number, fate, treated);
    }
}

/// What is so at the instructions of a block; nothing where there is no such row.
fn told_at(fates: &[Vec<Fate>], number: usize) -> &[Fate]
    ensures { result.now ≡ fates_of fates.now number }
{
    match fates.get(number) {
        Some(row) => row.as_slice(),
        None => &[],
    }
}

/// Of so many computations those that do not all stay.
fn treated_of(
    alloc: Global,
    numbers: &[Vec<Option<u32>>],
    fates: &[Vec<Fate>],
    count: usize,
) -> Result<Vec<bool>, AllocError>
    ensures size { IfOk result (λ treated. length treated.items ≡ count) }
    ensures marked { IfOk result (λ treated.
        (k : ℕ) → k < count
        → (slice_index_or treated.items k false ≡ true) ↔ IsMovedAnywhere (length fates.now) numbers.now fates.now
        k) }
{
    let mut treated = vec![in alloc; false; count]?;
    for block in 0..fates.len() {
        let row = row_at(numbers, block);
        let told = told_at(fates, block);
        mark_row(row, told, &mut treated);
    }
    Ok(treated)
}

/// Temporaries of computations, as far as they were numbered, and the name behind them.
#[derive(Drop)]
struct Numbering {
    temporaries: Vec<Option<Name>>,
    end_name: u32,
}

impl Numbering {
    /// The next computation has a temporary or none.
    fn add(&mut self, flag: bool) -> Result<(), AllocError>
        requires { self.old.end_name < 2 ^ 32 - 1 }
        ensures numbered { OnOk result
            ((first : ℕ) → AreNumbered first self.old.temporaries.items self.old.end_name
            → AreNumbered first self.new.temporaries.items self.new.end_name) }
        ensures count { OnOk result (length self.new.temporaries.items ≡ length self.old.temporaries.items + 1) }
        ensures before { OnOk result
            ((k : ℕ) → k < length self.old.temporaries.items → slice_index_or self.new.temporaries.items k None
            ≡ slice_index_or self.old.temporaries.items k None) }
        ensures flagged { OnOk result
            (is_some (slice_index_or self.new.temporaries.items (length self.old.temporaries.items) None) ≡ flag) }
        ensures end { OnOk result (self.new.end_name ≤ self.old.end_name + 1) }
    {
        if !flag {
            self.temporaries.push(None)?;
            return Ok(());
        }
        self.temporaries.push(Some(Name(self.end_name)))?;
        self.end_name += 1;
        Ok(())
    }
}

/// Temporaries for these computations, in order, from a name on.
fn numbered(alloc: Global, treated: &[bool], first_name: u32) -> Result<Numbering, AllocError>
    requires { first_name + length treated.now < 2 ^ 32 }
    ensures numbered { IfOk result (λ made. AreNumbered first_name made.temporaries.items made.end_name) }
    ensures flagged { IfOk result (λ made.
        (k : ℕ) → k < length treated.now
        → is_some (slice_index_or made.temporaries.items k None) ≡ slice_index_or treated.now k false) }
    ensures size { IfOk result (λ made. length made.temporaries.items ≡ length treated.now) }
{
    let mut made = Numbering {
        temporaries: Vec::new(alloc),
        end_name: first_name,
    };
    for number in 0..treated.len() {
        let flag = treated[number];
        made.add(flag)?;
    }
    Ok(made)
}

/// The placement of the computations of reached code.
fn placed(
    alloc: Global,
    graph: &Graph,
    order: &[u32],
    computations: Computations,
    reached: Vec<bool>,
) -> Result<Placement, AllocError>
    requires bounded { IsBounded (graph_view graph.now) }
    requires reached { AreReached (map block_view graph.now.blocks.items) (λ n. slice_index_or reached.items n false) }
    requires once { (m : ℕ)
        → HasEdge (map block_view graph.now.blocks.items) (λ n. slice_index_or reached.items n false) m 0 → ⊥ }
    requires known { AreNumbers computations }
    requires order { AreOnce
        (computed_in (λ n. slice_index_or reached.items n false) 0 (map block_view graph.now.blocks.items))
        (views_of computations) }
    ensures { IfOk result (IsPlaced (graph_view graph.now)) }
{
    let numbers = numbers_of(alloc, &graph.blocks, &reached, &computations)?;
    let mut back = Vec::from_slice(alloc, order)?;
    back.reverse();
    let placing = Placing {
        alloc,
        graph,
        computations: &computations,
        numbers: &numbers,
        reached: &reached,
        order,
        back: &back,
    };
    let columns = placing.columns()?;
    let fates = placing.fates(&columns)?;
    let treated = treated_of(alloc, &numbers, &fates, computations.all.len())?;
    let made = numbered(alloc, &treated, graph.name_count)?;
    Ok(Placement {
        computations,
        temporaries: made.temporaries,
        numbers,
        fates,
        columns,
        reached,
        end_name: made.end_name,
    })
}

/// Where the computations of a graph's reached code are done by lazy code motion.
pub fn place(alloc: Global, graph: &Graph) -> Result<Motion, AllocError>
    requires { IsBounded (graph_view graph.now) }
    ensures { IfOk result (IsAnswered (graph_view graph.now)) }
{
    let order = reached_in_order(alloc, &graph.blocks)?;
    let reached = reached_flags(alloc, &graph.blocks)?;
    let back = comes_back(&graph.blocks, &reached);
    if back {
        return Ok(Motion::EnteredAgain);
    }
    let computations = Computations::new(alloc, &graph.blocks, &reached)?;
    let placement = placed(alloc, graph, &order, computations, reached)?;
    Ok(Motion::Placed(placement))
}
