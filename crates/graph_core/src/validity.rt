//! Whether a unit is valid: its numbers name what it has, its counts stay within bounds, each instruction has a place,
//! and the place that a block keeps is
//! one of its graph and right along each edge into it.

ghost use Rattle.std.specs.Prelude.{◌≡◌, ◌≤◌, ◌<◌, ◌↔◌, ◌^◌, ◌-◌, IsTrue, MatchOption, None, Some, length, map, min, option_map, slice_get};
ghost use Rattle.std.specs.List.{AllByRecursion};
ghost use Rattle.debug_records.specs.declared.change.Place as declared-place;
ghost use Rattle.graph_core.specs.Graphs.{binding_view, block_view, bytes_view, end_view, graph_view, instruction_view, location_view, note_view, operand_view, recipe_view, static_view, unit_view};
ghost use Rattle.graph_core.specs.Uses.{targets_of};
ghost use Rattle.graph_core.specs.Memory.{static_bytes};
ghost use Rattle.memory_map.specs.declared.map.Room.TheVariants.{Large};
ghost use Rattle.graph_core.specs.Bounds.{most_markers};
ghost use Rattle.graph_core.specs.Counts.{KeepsCounts, count_in_blocks, count_in_graphs, share};
ghost use Rattle.graph_core.specs.PlaceTables.{IsTableOf};
ghost use Rattle.graph_core.specs.Validity.{AreAllDifferent, AreEdges, AreOperandsOf, AreOperandsOfEnd, AreRelocations, HasParameters, IsBinding, IsBlock, IsCall, IsGraph, IsInObject, IsInstruction, IsKept, IsLocation, IsNoteValue, IsObject, IsOperand, IsOwnPlace, IsStatic, IsTarget, IsValid, IsWanted, arguments_in, counts, depth_of, HasPlace, KeepsPlace, markers_of, markers_of_blocks, place_behind, taken_by, taken_by_object, total};

use crate::block::{Block, End};
use crate::bounds::{
    MAX_FUNCTION_BYTES, MAX_FUNCTION_INSTRUCTIONS, MAX_FUNCTIONS, MAX_NAMES, MAX_PARAMETERS,
    MAX_RECIPE_DEPTH, MAX_STATIC_BYTES, max_arguments, max_blocks, max_instructions, max_markers,
};
use crate::graph::{Binding, Graph, MemoryObject};
use crate::instruction::{Callee, Instr, Location};
use crate::name::{Label, Name, Operand};
use crate::place_table::PlaceTable;
use crate::recipe::{NoteValue, Recipe};
use crate::unit::{Bytes, Relocation, StaticObject, Unit};
use debug_records::Place;

/// What is counted of instructions.
#[derive(Clone, Copy)]
enum Counted {
    /// Those that are neither markers nor notes.
    Instructions,
    /// The arguments of calls.
    Arguments,
    Markers,
}

/// Whether an instruction is counted, as a number.
fn counts(instruction: &Instr) -> u64
    ensures { result ≡ counts (instruction_view instruction.now) }
{
    match instruction {
        Instr::Marker(_) | Instr::Note { .. } => 0,
        _ => 1,
    }
}

/// How many arguments an instruction passes.
fn arguments_in(instruction: &Instr) -> u64
    ensures { result ≡ arguments_in (instruction_view instruction.now) }
{
    match instruction {
        Instr::Call { arguments, .. } => arguments.len() as u64,
        _ => 0,
    }
}

/// How much of what is counted an instruction has.
fn share(counted: Counted, instruction: &Instr) -> u64
    ensures { result ≡ share counted (instruction_view instruction.now) }
{
    match counted {
        Counted::Instructions => counts(instruction),
        Counted::Arguments => arguments_in(instruction),
        Counted::Markers => match instruction.marker() {
            Some(_) => 1,
            None => 0,
        },
    }
}

/// How much of what is counted instructions have, or the greatest number where it is more.
fn count_in(counted: Counted, instructions: &[Instr]) -> u64
    ensures { result ≡ min (total (share counted) (map instruction_view instructions.now)) (2 ^ 64 - 1) }
{
    instructions.iter().fold(
        0,
        |sum, instruction| sum.saturating_add(share(counted, instruction)),
    )
}

fn count_in_blocks(counted: Counted, blocks: &[Block]) -> u64
    ensures { result ≡ min (count_in_blocks counted (map block_view blocks.now)) (2 ^ 64 - 1) }
{
    blocks.iter().fold(
        0,
        |sum, block| sum.saturating_add(count_in(counted, &block.instructions)),
    )
}

fn count_in_graphs(counted: Counted, graphs: &[Graph]) -> u64
    ensures { result ≡ min (count_in_graphs counted (map graph_view graphs.now)) (2 ^ 64 - 1) }
{
    graphs.iter().fold(
        0,
        |sum, graph| sum.saturating_add(count_in_blocks(counted, &graph.blocks)),
    )
}

/// How many blocks graphs have, or the greatest number where it is more.
fn count_blocks(graphs: &[Graph]) -> u64
    ensures { result ≡ min (total (λ g. length g.blocks) (map graph_view graphs.now)) (2 ^ 64 - 1) }
{
    graphs.iter().fold(
        0,
        |sum, graph| sum.saturating_add(graph.blocks.len() as u64),
    )
}

/// What so many bytes take, or the greatest number where it is more.
fn taken_by(bytes: u64) -> u64
    ensures { result ≡ min (taken_by bytes) (2 ^ 64 - 1) }
{
    (4 * (bytes.saturating_add(3) / 4)).saturating_add(4)
}

/// What automatic objects take.
fn taken_by_objects(objects: &[MemoryObject]) -> u64
    ensures { result ≡ min (total taken_by_object objects.now) (2 ^ 64 - 1) }
{
    objects.iter().fold(
        0,
        |sum, object| sum.saturating_add(taken_by(object.element.bytes_of(object.count))),
    )
}

/// What static objects take.
fn taken_by_statics(objects: &[StaticObject]) -> u64
    ensures { result ≡ min (total (λ o. taken_by (static_bytes o)) (map static_view objects.now)) (2 ^ 64 - 1) }
{
    objects.iter().fold(
        0,
        |sum, object| sum.saturating_add(taken_by(object.element.bytes_of(object.count))),
    )
}

/// What the bytes that initialise arrays take.
fn taken_by_bytes(all: &[Bytes]) -> u64
    ensures { result ≡ min (total (λ b. taken_by (length b)) (map bytes_view all.now)) (2 ^ 64 - 1) }
{
    all.iter().fold(
        0,
        |sum, one| sum.saturating_add(taken_by(one.bytes.len() as u64)),
    )
}

/// Whether a recipe is at most so deep.
fn is_within(recipe: &Recipe, depth: u32) -> bool
    ensures { IsTrue result ↔ (depth_of (recipe_view recipe.now) ≤ depth) }
{
    match recipe {
        Recipe::Operand(_) => 1 <= depth,
        Recipe::Truncated(_, of) => 1 <= depth && is_within(of, depth - 1),
        Recipe::Operated(_, left, right) => {
            1 <= depth && is_within(left, depth - 1) && is_within(right, depth - 1)
        }
    }
}

/// The graph of a number.
fn graph_at(unit: &Unit, function: u32) -> Option<&Graph>
    ensures { MatchOption result (slice_get (unit_view unit.now).graphs function ≡ None) (λ g.
        slice_get (unit_view unit.now).graphs function ≡ Some (graph_view g.now)) }
{
    unit.graphs.get(function as usize)
}

/// The block of a number.
fn block_at(graph: &Graph, label: Label) -> Option<&Block>
    ensures { MatchOption result (slice_get (graph_view graph.now).blocks label.0 ≡ None) (λ b.
        slice_get (graph_view graph.now).blocks label.0 ≡ Some (block_view b.now)) }
{
    graph.blocks.get(label.0 as usize)
}

/// Whether there is a function of this number with so many parameters.
fn has_parameters(unit: &Unit, function: u32, count: usize) -> bool
    ensures { IsTrue result ↔ HasParameters (slice_get (unit_view unit.now).graphs function) count }
{
    match graph_at(unit, function) {
        None => false,
        Some(graph) => count == graph.parameters.len(),
    }
}

/// Whether there is a static object of this number.
fn is_static(unit: &Unit, object: u32) -> bool
    ensures { IsTrue result ↔ IsStatic (unit_view unit.now).statics object }
{
    (object as usize) < unit.statics.len()
}

/// Whether a graph has an automatic object of this number.
fn is_object(graph: &Graph, object: u32) -> bool
    ensures { IsTrue result ↔ IsObject (graph_view graph.now) object }
{
    (object as usize) < graph.objects.len()
}

/// Whether a graph has an automatic object of this number, and an offset is within it or directly behind it.
fn is_in_object(graph: &Graph, object: u32, offset: u32) -> bool
    ensures { IsTrue result ↔ IsInObject (slice_get (graph_view graph.now).objects object) offset }
{
    match graph.objects.get(object as usize) {
        None => false,
        Some(found) => u64::from(offset) <= found.element.bytes_of(found.count),
    }
}

/// Whether a graph has a scalar of this name.
fn is_scalar(graph: &Graph, name: Name) -> bool
    ensures { IsTrue result ↔ (name.0 < length (graph_view graph.now).scalars) }
{
    (name.0 as usize) < graph.scalars.len()
}

/// Whether a graph has this name.
fn is_target(graph: &Graph, name: Name) -> bool
    ensures { IsTrue result ↔ IsTarget (graph_view graph.now) name.0 }
{
    name.0 < graph.name_count
}

/// Whether an operand names what its graph and its unit have.
fn is_operand(unit: &Unit, graph: &Graph, operand: Operand) -> bool
    ensures { IsTrue result ↔ IsOperand (unit_view unit.now).statics (graph_view graph.now) (operand_view operand) }
{
    match operand {
        Operand::Name(name) => is_target(graph, name),
        Operand::Constant(_) => true,
        Operand::StaticAddress { object, .. } => is_static(unit, object),
    }
}

fn are_operands(unit: &Unit, graph: &Graph, operands: &[Operand]) -> bool
    ensures { IsTrue result ↔ AllByRecursion (IsOperand (unit_view unit.now).statics (graph_view graph.now))
        (map operand_view operands.now) }
{
    operands
        .iter()
        .all(|operand| is_operand(unit, graph, *operand))
}

/// Whether a recipe is of operands that its graph and its unit have.
fn are_operands_of(unit: &Unit, graph: &Graph, recipe: &Recipe) -> bool
    ensures { IsTrue result ↔ AreOperandsOf (unit_view unit.now).statics (graph_view graph.now) (recipe_view recipe.now) }
{
    match recipe {
        Recipe::Operand(operand) => is_operand(unit, graph, *operand),
        Recipe::Truncated(_, of) => are_operands_of(unit, graph, of),
        Recipe::Operated(_, left, right) => {
            are_operands_of(unit, graph, left) && are_operands_of(unit, graph, right)
        }
    }
}

fn is_note_value(unit: &Unit, graph: &Graph, value: &NoteValue) -> bool
    ensures { IsTrue result ↔ IsNoteValue (unit_view unit.now) (graph_view graph.now) (note_view value.now) }
{
    match value {
        NoteValue::Is(recipe) => is_within(recipe, MAX_RECIPE_DEPTH)
            && are_operands_of(unit, graph, recipe),
        NoteValue::Gone(change) => {
            1 <= *change && (*change as usize) <= unit.log.changes().len()
        }
    }
}

fn is_location(unit: &Unit, graph: &Graph, location: Location) -> bool
    ensures { IsTrue result ↔ IsLocation (unit_view unit.now).statics (graph_view graph.now) (location_view location) }
{
    match location {
        Location::Automatic { object, offset } => is_in_object(graph, object, offset),
        Location::Static(object) => is_static(unit, object),
        Location::At(operand) => is_operand(unit, graph, operand),
    }
}

/// Whether there is what a call calls, and it takes so many arguments.
fn is_call(unit: &Unit, callee: Callee, arguments: usize) -> bool
    ensures { IsTrue result ↔ IsCall (unit_view unit.now).graphs callee arguments }
{
    match callee {
        Callee::Function(function) => has_parameters(unit, function, arguments),
        Callee::Getchar => arguments == 0,
        Callee::Putchar | Callee::Exit => arguments == 1,
    }
}

fn is_wanted(graph: &Graph, target: Option<Name>) -> bool
    ensures { IsTrue result ↔ IsWanted (graph_view graph.now) (option_map (λ n. n.0) target) }
{
    match target {
        None => true,
        Some(name) => is_target(graph, name),
    }
}

/// Whether a graph has the target of an operation, and it and its unit what the operands name.
fn is_operation(unit: &Unit, graph: &Graph, target: Name, left: Operand, right: Operand) -> bool
    ensures { IsTrue result ↔
        (IsTarget (graph_view graph.now) target.0
        × IsOperand (unit_view unit.now).statics (graph_view graph.now) (operand_view left)
        × IsOperand (unit_view unit.now).statics (graph_view graph.now) (operand_view right)) }
{
    is_target(graph, target) && is_operand(unit, graph, left) && is_operand(unit, graph, right)
}

/// Whether an instruction names what its graph and its unit have.
fn is_instruction(unit: &Unit, graph: &Graph, instruction: &Instr) -> bool
    ensures { IsTrue result ↔ IsInstruction (unit_view unit.now) (graph_view graph.now)
        (instruction_view instruction.now) }
{
    match instruction {
        Instr::Marker(_) => true,
        Instr::Note { of, value } => is_scalar(graph, *of) && is_note_value(unit, graph, value),
        Instr::Move { target, from } => is_target(graph, *target) && is_operand(unit, graph, *from),
        Instr::Truncate { target, from, .. } => is_target(graph, *target)
            && is_operand(unit, graph, *from),
        Instr::Operate {
            target,
            left,
            right,
            ..
        } => is_operation(unit, graph, *target, *left, *right),
        Instr::Same {
            target,
            left,
            right,
        } => is_operation(unit, graph, *target, *left, *right),
        Instr::Address { target, object } => is_target(graph, *target) && is_object(graph, *object),
        Instr::Load { target, from, .. } => is_target(graph, *target)
            && is_location(unit, graph, *from),
        Instr::Store { to, value, .. } => is_location(unit, graph, *to)
            && is_operand(unit, graph, *value),
        Instr::Zero { object, .. } => is_object(graph, *object),
        Instr::CopyWords { object, bytes, .. } => is_object(graph, *object)
            && (*bytes as usize) < unit.array_bytes.len(),
        Instr::Call {
            target,
            callee,
            arguments,
        } => {
            is_wanted(graph, *target)
                && are_operands(unit, graph, arguments.as_slice())
                && is_call(unit, *callee, arguments.len())
        }
    }
}

fn are_instructions(unit: &Unit, graph: &Graph, instructions: &[Instr]) -> bool
    ensures { IsTrue result ↔ AllByRecursion (IsInstruction (unit_view unit.now) (graph_view graph.now))
        (map instruction_view instructions.now) }
{
    instructions
        .iter()
        .all(|instruction| is_instruction(unit, graph, instruction))
}

fn are_operands_of_end(unit: &Unit, graph: &Graph, end: End) -> bool
    ensures { IsTrue result ↔ AreOperandsOfEnd (unit_view unit.now).statics (graph_view graph.now) (end_view end) }
{
    match end {
        End::Jump(_) => true,
        End::Branch { left, right, .. } => is_operand(unit, graph, left)
            && is_operand(unit, graph, right),
        End::Return(None) => true,
        End::Return(Some(operand)) => is_operand(unit, graph, operand),
    }
}

/// Whether two places are one, or there is none twice.
fn is_same_place(one: Option<Place>, other: Option<Place>) -> bool
    ensures { IsTrue result ↔
        (option_map (λ (p : declared-place.Place). p.0) one ≡ option_map (λ (p : declared-place.Place). p.0) other) }
{
    match one {
        None => other.is_none(),
        Some(place) => match other {
            None => false,
            Some(another) => place.0 == another.0,
        },
    }
}

/// Whether a block of these instructions keeps a place where another is in force.
fn keeps_place(instructions: &[Instr], in_force: Option<Place>, kept: Option<Place>) -> bool
    ensures { IsTrue result ↔ KeepsPlace (map instruction_view instructions.now)
        (option_map (λ (p : declared-place.Place). p.0) in_force)
        (option_map (λ (p : declared-place.Place). p.0) kept) }
{
    match instructions {
        [] => is_same_place(in_force, kept),
        [first, ..] => match first.marker() {
            Some(_) => true,
            None => is_same_place(in_force, kept),
        },
    }
}

/// Whether each of these instructions has a place where their block keeps one, or none.
fn has_place(instructions: &[Instr], kept: Option<Place>) -> bool
    ensures { IsTrue result ↔ HasPlace (map instruction_view instructions.now)
        (option_map (λ (p : declared-place.Place). p.0) kept) }
{
    match instructions {
        [] => kept.is_some(),
        [first, ..] => match first.marker() {
            Some(_) => true,
            None => kept.is_some(),
        },
    }
}

/// Whether a place that a block keeps, if it keeps one, is the entry of its graph or one of those that the graph
/// begins, which a table lists.
fn is_own_place(graph: &Graph, begun: &PlaceTable, kept: Option<Place>) -> bool
    requires { IsTableOf (markers_of_blocks (graph_view graph.now).blocks) begun.now }
    ensures { IsTrue result ↔ IsOwnPlace (graph_view graph.now) (option_map (λ (p : declared-place.Place). p.0) kept) }
{
    match kept {
        None => true,
        Some(place) => place.0 == graph.entry.0 || begun.has(place),
    }
}

/// The place in force behind instructions.
fn place_behind(instructions: &[Instr], before: Option<Place>) -> Option<Place>
    ensures { option_map (λ (p : declared-place.Place). p.0) result
        ≡ place_behind (map instruction_view instructions.now)
        (option_map (λ (p : declared-place.Place). p.0) before) }
{
    let mut place = before;
    let mut left = instructions;
    while let [first, rest @ ..] = left {
        place = first.marker().or(place);
        left = rest;
    }
    place
}

/// Whether there is a block of this number that keeps the place in force.
fn is_kept(graph: &Graph, in_force: Option<Place>, label: Label) -> bool
    ensures { IsTrue result ↔ IsKept (option_map (λ (p : declared-place.Place). p.0) in_force)
        (slice_get (graph_view graph.now).blocks label.0) }
{
    match block_at(graph, label) {
        None => false,
        Some(block) => keeps_place(&block.instructions, in_force, block.place),
    }
}

/// Whether each edge leads to a block that keeps the place in force.
fn are_edges(graph: &Graph, in_force: Option<Place>, end: End) -> bool
    ensures { IsTrue result ↔ AreEdges (graph_view graph.now) (option_map (λ (p : declared-place.Place). p.0) in_force)
        (targets_of (end_view end)) }
{
    match end {
        End::Jump(label) => is_kept(graph, in_force, label),
        End::Branch {
            then,
            otherwise,
            ..
        } => is_kept(graph, in_force, then) && is_kept(graph, in_force, otherwise),
        End::Return(_) => true,
    }
}

fn is_block(unit: &Unit, graph: &Graph, begun: &PlaceTable, block: &Block) -> bool
    requires { IsTableOf (markers_of_blocks (graph_view graph.now).blocks) begun.now }
    ensures { IsTrue result ↔ IsBlock (unit_view unit.now) (graph_view graph.now) (block_view block.now) }
{
    has_place(&block.instructions, block.place)
        && is_own_place(graph, begun, block.place)
        && are_instructions(unit, graph, &block.instructions)
        && are_operands_of_end(unit, graph, block.end)
        && are_edges(
            graph,
            place_behind(&block.instructions, block.place),
            block.end,
        )
}

fn are_blocks(unit: &Unit, graph: &Graph, begun: &PlaceTable, blocks: &[Block]) -> bool
    requires { IsTableOf (markers_of_blocks (graph_view graph.now).blocks) begun.now }
    ensures { IsTrue result ↔ AllByRecursion (IsBlock (unit_view unit.now) (graph_view graph.now))
        (map block_view blocks.now) }
{
    blocks
        .iter()
        .all(|block| is_block(unit, graph, begun, block))
}

fn is_binding(graph: &Graph, binding: Binding) -> bool
    ensures { IsTrue result ↔ IsBinding (graph_view graph.now) (binding_view binding) }
{
    match binding {
        Binding::Scalar(name) => is_scalar(graph, name),
        Binding::Object(object) => is_object(graph, object),
    }
}

fn are_bindings(graph: &Graph, bindings: &[Binding]) -> bool
    ensures { IsTrue result ↔ AllByRecursion (IsBinding (graph_view graph.now)) (map binding_view bindings.now) }
{
    bindings.iter().all(|binding| is_binding(graph, *binding))
}

/// Whether a graph is valid. The table then lists the places that it begins.
fn is_graph(unit: &Unit, graph: &Graph, begun: &mut PlaceTable) -> bool
    requires { length (markers_of_blocks (graph_view graph.now).blocks) ≤ most_markers Large }
    ensures { IsTrue result ↔ IsGraph (unit_view unit.now) (graph_view graph.now) }
{
    if MAX_FUNCTION_INSTRUCTIONS < count_in_blocks(Counted::Instructions, &graph.blocks) {
        return false;
    }
    if MAX_FUNCTION_BYTES < taken_by_objects(&graph.objects) {
        return false;
    }
    if MAX_NAMES < graph.name_count || graph.name_count < graph.first_moved {
        return false;
    }
    if (graph.first_moved as usize) < graph.scalars.len() {
        return false;
    }
    if MAX_PARAMETERS < graph.parameters.len() {
        return false;
    }
    if !is_kept(graph, Some(graph.entry), Label(0)) {
        return false;
    }
    begun.list_blocks(&graph.blocks);
    are_bindings(graph, &graph.parameters) && are_blocks(unit, graph, begun, &graph.blocks)
}

fn are_graphs(unit: &Unit, graphs: &[Graph], begun: &mut PlaceTable) -> bool
    requires { length (markers_of (map graph_view graphs.now)) ≤ most_markers Large }
    ensures { IsTrue result ↔ AllByRecursion (IsGraph (unit_view unit.now)) (map graph_view graphs.now) }
{
    let mut left = graphs;
    while let [graph, rest @ ..] = left {
        if !is_graph(unit, graph, begun) {
            return false;
        }
        left = rest;
    }
    true
}

fn are_relocations(unit: &Unit, relocations: &[Relocation]) -> bool
    ensures { IsTrue result ↔ AreRelocations (unit_view unit.now).statics relocations.now }
{
    relocations
        .iter()
        .all(|relocation| is_static(unit, relocation.object))
}

fn have_relocations(unit: &Unit, objects: &[StaticObject]) -> bool
    ensures { IsTrue result ↔ AllByRecursion (λ o.
        AreRelocations (unit_view unit.now).statics o.relocations) (map static_view objects.now) }
{
    objects
        .iter()
        .all(|object| are_relocations(unit, &object.relocations))
}

/// Whether no place has two markers in graphs.
fn are_marked_once(graphs: &[Graph], begun: &mut PlaceTable) -> bool
    requires { length (markers_of (map graph_view graphs.now)) ≤ most_markers Large }
    ensures { IsTrue result ↔ AreAllDifferent (markers_of (map graph_view graphs.now)) }
{
    begun.list_graphs(graphs);
    begun.are_different()
}

impl Unit {
    /// Whether the counts of the unit are within their bounds.
    fn keeps_counts(&self) -> bool
        ensures { IsTrue result ↔ KeepsCounts (unit_view self.now) }
    {
        if MAX_FUNCTIONS < self.graphs.len() {
            return false;
        }
        if max_blocks(self.room) < count_blocks(&self.graphs) {
            return false;
        }
        if max_instructions(self.room) < count_in_graphs(Counted::Instructions, &self.graphs) {
            return false;
        }
        if max_markers(self.room) < count_in_graphs(Counted::Markers, &self.graphs) {
            return false;
        }
        if max_arguments(self.room) < count_in_graphs(Counted::Arguments, &self.graphs) {
            return false;
        }
        taken_by_statics(&self.statics).saturating_add(taken_by_bytes(&self.array_bytes))
            <= MAX_STATIC_BYTES
    }

    /// Whether the unit is valid. It takes no memory; the time grows as n log n with the number of markers, and else
    /// with how much the unit has.
    pub fn is_valid(&self) -> bool
        ensures { IsTrue result ↔ IsValid (unit_view self.now) }
    {
        if !self.keeps_counts() {
            return false;
        }
        if !has_parameters(self, self.main, 0) {
            return false;
        }
        if !have_relocations(self, &self.statics) {
            return false;
        }
        let mut begun = PlaceTable::new();
        if !are_graphs(self, &self.graphs, &mut begun) {
            return false;
        }
        are_marked_once(&self.graphs, &mut begun)
    }
}
