//! The rows of visible variables.

ghost use Rattle.std.specs.Prelude.{◌≡◌, ◌+◌, ◌<◌, ◌≤◌, ◌^◌, [], IfOk, OnOk, get_or, length, map, option_and_then, option_map, slice_get};
ghost use Rattle.debug_records.specs.declared.change.Place as declared-place;
ghost use Rattle.currency.specs.declared.verdict.Verdict.TheVariants.{Home};
ghost use Rattle.rv_emit_tables.specs.Emitted.{FunctionCode, function_view};
ghost use Rattle.graph_core.specs.Graphs.{block_view, graph_view, recipe_view};
ghost use Rattle.graph_core.specs.Validity.{total};
ghost use Rattle.image_build_tables.specs.Nodes.{AreEarlier, AreOnce, Begin, naming_view, size_of};
ghost use Rattle.image_build_tables.specs.Rows.{AreNewBy, AreNewIn, AreNodesOf, AreRowsOf, AreShown, IsNodeIn, IsVerdictOf, address_of_some, address_of_writer, firsts_from, naming_at, naming_in, quiet_of, size_told, telling_view};
ghost use Rattle.image_build_tables.specs.Tables.{pair_of_row, sight_of_verdict};

use crate::nodes::{Naming, Nodes};
use crate::{entry, number_of};
use currency::{PlaceVerdict, Verdict as Told, Writer};
use debug_records::Place;
use graph_core::{Block, Graph, Recipe};
use graph_homes::FunctionHomes;
use image_form::{Node, Verdict, VisibleRow};
use places::PlaceRow;
use rv_emit_tables::EmittedFunction;
use std::alloc::{AllocError, Global};

/// For each block of a function how many instructions stand before it.
fn instructions_before(alloc: Global, blocks: &[Block]) -> Result<Vec<u32>, AllocError>
    ensures { IfOk result (λ v. v.items ≡ firsts_from 0 (map block_view blocks.now)) }
{
    let mut counts = Vec::new(alloc);
    let mut count = 0u32;
    let mut left = blocks;
    while let [block, rest @ ..] = left {
        counts.push(count)?;
        count = count.saturating_add(number_of(block.instructions.len()));
        left = rest;
    }
    Ok(counts)
}

/// The same for each function.
fn all_before(alloc: Global, graphs: &[Graph]) -> Result<Vec<Vec<u32>>, AllocError>
    ensures { IfOk result (λ v.
        map (λ firsts. firsts.items) v.items ≡ map (λ g. firsts_from 0 (map block_view g.blocks.items)) graphs.now) }
{
    let mut all = Vec::new(alloc);
    for graph in graphs {
        all.push(instructions_before(alloc, &graph.blocks)?)?;
    }
    Ok(all)
}

/// The word of this number; none where there is no such word.
fn word_at(words: &[u32], number: usize) -> Option<u32>
    ensures { result ≡ slice_get words.now number }
{
    let word = words.get(number)?;
    Some(*word)
}

/// How many instructions stand before a block of a function; none where there is no such function.
fn first_at(before: &[Vec<u32>], function: u32, block: usize) -> Option<u32>
    ensures { result ≡ option_map (λ firsts. get_or firsts block 0)
        (slice_get (map (λ firsts. firsts.items) before.now) function) }
{
    let firsts = before.get(function as usize)?;
    Some(entry(firsts, block))
}

/// What rows of verdicts are made of.
#[derive(Clone, Copy)]
pub struct Telling<'a> {
    pub graphs: &'a [Graph],
    pub homes: &'a [FunctionHomes],
    pub code: &'a [EmittedFunction],
    pub statics: &'a [u32],
    pub places: &'a [PlaceRow],
}

impl<'a> Telling<'a> {
    /// A function, for recipes in its names.
    fn naming_in(&self, function: u32) -> Option<Naming<'a>>
        ensures { option_map naming_view result ≡ naming_in (telling_view self.now) function }
    {
        let function = function as usize;
        let graph = self.graphs.get(function)?;
        let homes = self.homes.get(function)?;
        let code = self.code.get(function)?;
        Some(Naming {
            graph,
            homes: &homes.homes,
            code,
            statics: self.statics,
        })
    }

    /// The function of a place, for recipes in its names.
    fn naming_at(&self, place: u32) -> Option<Naming<'a>>
        ensures { option_map naming_view result ≡ naming_at (telling_view self.now) place }
    {
        if place == 0 {
            return None;
        }
        let row = self.places.get(place as usize - 1)?;
        self.naming_in(row.function)
    }

    /// The word of this number among those of a function that write its names.
    fn writing(&self, function: u32, number: u32) -> Option<u32>
        ensures { result ≡ option_and_then (λ (c : FunctionCode). slice_get c.writers number)
            (slice_get (telling_view self.now).codes function) }
    {
        word_at(&self.code.get(function as usize)?.writers, number as usize)
    }

    /// The word of this number among those of a function that bind its parameters.
    fn binding(&self, function: u32, parameter: usize) -> Option<u32>
        ensures { result ≡ option_and_then (λ (c : FunctionCode). slice_get c.bindings parameter)
            (slice_get (telling_view self.now).codes function) }
    {
        word_at(&self.code.get(function as usize)?.bindings, parameter)
    }

    /// The word that writes a home; none where there is no such instruction or binding.
    fn address_of(&self, before: &[Vec<u32>], writer: Writer) -> Option<u32>
        requires { map (λ firsts. firsts.items) before.now ≡ map (λ g.
            firsts_from 0 (map block_view g.blocks.items)) self.now.graphs.now }
        ensures { result ≡ address_of_writer (telling_view self.now).graphs (telling_view self.now).codes writer }
    {
        match writer {
            Writer::Instruction {
                function,
                block,
                index,
            } => {
                let first = first_at(before, function, block)?;
                self.writing(function, number_of((first as usize).saturating_add(index)))
            }
            Writer::Binding {
                function,
                parameter,
            } => self.binding(function, parameter),
        }
    }

    /// The word that writes a home, if something is to write it.
    fn address_of_some(&self, before: &[Vec<u32>], writer: Option<Writer>) -> Option<u32>
        requires { map (λ firsts. firsts.items) before.now ≡ map (λ g.
            firsts_from 0 (map block_view g.blocks.items)) self.now.graphs.now }
        ensures { result ≡ address_of_some (telling_view self.now).graphs (telling_view self.now).codes writer }
    {
        self.address_of(before, writer?)
    }
}

/// The node of a recipe that is told of at a place. Where there is no such place, a node that no image has. There are
/// to be fewer than 2^32 nodes.
fn node_at(
    telling: Telling<'_>,
    nodes: &mut Nodes,
    place: u32,
    recipe: &Recipe,
) -> Result<u32, AllocError>
    ensures grown { OnOk result (Begin nodes.old.nodes.items nodes.new.nodes.items) }
    ensures fresh { length nodes.new.nodes.items < 2 ^ 32
        → OnOk result
        (AreNewIn nodes.old.nodes.items nodes.new.nodes.items (naming_at (telling_view telling.entry) place)
        (recipe_view recipe.now)) }
    ensures node { length nodes.new.nodes.items < 2 ^ 32
        → IfOk result (λ k.
        IsNodeIn nodes.new.nodes.items (naming_at (telling_view telling.entry) place) (recipe_view recipe.now) k) }
    ensures once { length nodes.new.nodes.items < 2 ^ 32
        → OnOk result (AreOnce nodes.old.nodes.items → AreOnce nodes.new.nodes.items) }
    ensures earlier { length nodes.new.nodes.items < 2 ^ 32
        → OnOk result (AreEarlier nodes.old.nodes.items → AreEarlier nodes.new.nodes.items) }
    ensures few { OnOk result
        (length nodes.new.nodes.items ≤ length nodes.old.nodes.items + size_of (recipe_view recipe.now)) }
{
    match telling.naming_at(place) {
        Some(naming) => nodes.add_recipe(naming, recipe),
        None => Ok(4294967295),
    }
}

/// A verdict as an image has it. For each function, and each of its blocks, it is known how many instructions stand
/// before it.
fn verdict_of(
    telling: Telling<'_>,
    before: &[Vec<u32>],
    nodes: &mut Nodes,
    told: &PlaceVerdict,
) -> Result<Verdict, AllocError>
    requires { map (λ firsts. firsts.items) before.now ≡ map (λ g.
        firsts_from 0 (map block_view g.blocks.items)) telling.graphs.now }
    ensures grown { OnOk result (Begin nodes.old.nodes.items nodes.new.nodes.items) }
    ensures fresh { length nodes.new.nodes.items < 2 ^ 32
        → OnOk result
        (AreNewBy (telling_view telling.entry) nodes.old.nodes.items nodes.new.nodes.items told.now.place.0
        told.now.verdict) }
    ensures home { told.now.verdict ≡ Home → OnOk result (nodes.new.nodes.items ≡ nodes.old.nodes.items) }
    ensures verdict { length nodes.new.nodes.items < 2 ^ 32
        → IfOk result (λ v.
        IsVerdictOf (telling_view telling.entry) nodes.new.nodes.items told.now.place.0 told.now.verdict v) }
    ensures once { length nodes.new.nodes.items < 2 ^ 32
        → OnOk result (AreOnce nodes.old.nodes.items → AreOnce nodes.new.nodes.items) }
    ensures earlier { length nodes.new.nodes.items < 2 ^ 32
        → OnOk result (AreEarlier nodes.old.nodes.items → AreEarlier nodes.new.nodes.items) }
    ensures few { OnOk result
        (length nodes.new.nodes.items ≤ length nodes.old.nodes.items + size_told told.now.verdict) }
{
    match &told.verdict {
        Told::Home => Ok(Verdict::Home),
        Told::Recovered { recipe, change } => {
            let node = node_at(telling, nodes, told.place.0, recipe)?;
            Ok(Verdict::Recovered {
                change: *change,
                node,
            })
        }
        Told::Noncurrent {
            change,
            start,
            writer,
            quiet: _,
        } => Ok(Verdict::Noncurrent {
            change: *change,
            start: start.0,
            writer: telling.address_of_some(before, *writer),
        }),
        Told::Nonresident {
            change,
            start,
            writer,
            quiet: _,
        } => Ok(Verdict::Nonresident {
            change: *change,
            start: start.0,
            writer: telling.address_of(before, *writer),
        }),
    }
}

/// The number of the place at which a path begins, if there is one.
fn start_of(place: Option<Place>) -> Option<u32>
    ensures { result ≡ option_map (λ (p : declared-place.Place). p.0) place }
{
    match place {
        Some(place) => Some(place.0),
        None => None,
    }
}

/// The place at which the quiet path begins that a verdict tells of, if it tells of one.
fn quiet_of(told: &Told) -> Option<u32>
    ensures { result ≡ quiet_of told.now }
{
    match told {
        Told::Home => None,
        Told::Recovered { .. } => None,
        Told::Noncurrent { quiet, .. } => start_of(*quiet),
        Told::Nonresident { quiet, .. } => start_of(*quiet),
    }
}

/// The rows of verdicts, and the nodes of their recipes, which are to be fewer than 2^32.
pub fn rows_of(
    alloc: Global,
    verdicts: &[PlaceVerdict],
    telling: Telling<'_>,
) -> Result<(Vec<VisibleRow>, Vec<Node>), AllocError>
    ensures sights { IfOk result (λ r. map pair_of_row r.0.items ≡ map sight_of_verdict verdicts.now) }
    ensures nodes { IfOk result
        (λ r. length r.1.items < 2 ^ 32 → AreNodesOf (telling_view telling.entry) r.1.items verdicts.now) }
    ensures once { IfOk result (λ r. length r.1.items < 2 ^ 32 → AreOnce r.1.items) }
    ensures earlier { IfOk result (λ r. length r.1.items < 2 ^ 32 → AreEarlier r.1.items) }
    ensures few { IfOk result (λ r. length r.1.items ≤ total (λ w. size_told w.verdict) verdicts.now) }
    ensures bare { AreShown verdicts.now → IfOk result (λ r. r.1.items ≡ []) }
    ensures rows { IfOk result (λ r.
        length r.1.items < 2 ^ 32 → AreRowsOf (telling_view telling.entry) r.1.items verdicts.now r.0.items) }
{
    let before = all_before(alloc, telling.graphs)?;
    let mut nodes = Nodes::new(alloc);
    let mut rows = Vec::new(alloc);
    let mut left = verdicts;
    while let [told, rest @ ..] = left {
        let verdict = verdict_of(telling, &before, &mut nodes, told)?;
        rows.push(VisibleRow {
            place: told.place.0,
            variable: told.var.0,
            verdict,
            quiet: quiet_of(&told.verdict),
        })?;
        left = rest;
    }
    Ok((rows, nodes.nodes))
}
