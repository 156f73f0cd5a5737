//! The code of functions before it has addresses.

ghost use Rattle.std.specs.Prelude.{◌≡◌, ◌+◌, ◌*◌, ◌≤◌, false, IfOk, OnOk, length, map};
ghost use Rattle.graph_core.specs.Graphs.{graph_view};
ghost use Rattle.rv_emit_words.specs.Words.{words_in};
ghost use Rattle.graph_homes.specs.Homed.{homed_view, homes_in};
ghost use Rattle.rv_emit_sequence.specs.Sequences.{ground_of, sequence_view, HasEnd, IsSequenceOf};
ghost use Rattle.std.specs.List.{AllByRecursion};
ghost use Rattle.rv_emit_layout.specs.Layouts.{longest_layout};
ghost use Rattle.rv_emit_layout.specs.Laid.{all_shortened, laid_view, shortened, static_view, AreDrawn, IsDrawnOf, IsLongest};
ghost use Rattle.rv_emit_layout.specs.Words.{most_laid_words, most_words_of_graph, most_words_of_graphs};

use crate::{Layout, Longest, layout_of, longest_layout};
use graph_core::{Graph, Label};
use graph_homes::{Home, HomedUnit};
use memory_map::Room;
use rv_emit_sequence::table::{at, count};
use rv_emit_sequence::{Sequence, plain_sequence_of, sequence_by_plan};
use rv_emit_storage::{Frame, Statics, Storage, frame_of_function};
use std::alloc::{AllocError, Global};

/// The code of a function before it has an address, and its frame.
#[derive(Drop)]
pub struct Laid {
    pub frame: Frame,
    pub sequence: Sequence,
    pub layout: Layout,
}

/// The homes of a function's names.
fn homes_at(homed: &HomedUnit, function: u32) -> &[Home]
    ensures { result.now ≡ homes_in (homed_view homed.now) function }
{
    match homed.homes.get(function as usize) {
        Some(of) => &of.homes,
        None => &[],
    }
}

/// The code of a function, by a plan or without one.
fn sequence_of(
    alloc: Global,
    storage: &Storage<'_>,
    graph: &Graph,
    is_main: bool,
    is_planned: bool,
) -> Result<Sequence, AllocError>
    requires saved { length storage.now.frame.now.saved.items ≤ 15 }
    ensures few { is_planned ≡ false
        → IfOk result (λ made. words_in made.pieces.items ≤ most_words_of_graph (graph_view graph.now)) }
    ensures sequence { IfOk result (λ made.
        HasEnd (ground_of storage.now) (graph_view graph.now)
        → IsSequenceOf (ground_of storage.now) (graph_view graph.now) is_main (sequence_view made)) }
{
    if is_planned {
        sequence_by_plan(alloc, storage, graph, is_main)
    } else {
        plain_sequence_of(alloc, storage, graph, is_main)
    }
}

/// The code of a function before it has an address, by a plan or without one, in the longest layout.
fn lay_out(
    alloc: Global,
    statics: &Statics,
    room: Room,
    graph: &Graph,
    homes: &[Home],
    is_main: bool,
    is_planned: bool,
) -> Result<Laid, AllocError>
    ensures few { is_planned ≡ false
        → IfOk result (λ one. words_in one.sequence.pieces.items ≤ most_words_of_graph (graph_view graph.now)) }
    ensures drawn { IfOk result
        (λ one. IsDrawnOf (static_view statics.now) (graph_view graph.now) homes.now is_main (laid_view one)) }
    ensures longest { IfOk result
        (λ one. (laid_view one).layout ≡ longest_layout room (laid_view one).sequence) }
{
    let frame = frame_of_function(alloc, graph, homes)?;
    let storage = Storage {
        entry: graph.entry,
        end: Label(count(graph.blocks.len())),
        homes,
        frame: &frame,
        statics,
        base: statics.base,
    };
    let sequence = sequence_of(alloc, &storage, graph, is_main, is_planned)?;
    let layout = longest_layout(alloc, room, &sequence)?;
    Ok(Laid {
        frame,
        sequence,
        layout,
    })
}

/// The code of each function before it has an address, by plans or without them, in the longest layout.
pub fn lay_out_all(
    alloc: Global,
    statics: &Statics,
    homed: &HomedUnit,
    is_planned: bool,
) -> Result<Vec<Laid>, AllocError>
    ensures each { IfOk result (λ all. length all.items ≡ length homed.now.unit.graphs.items) }
    ensures few { is_planned ≡ false
        → IfOk result (λ all. most_laid_words all.items ≤ most_words_of_graphs
        (map graph_view homed.now.unit.graphs.items)) }
    ensures drawn { IfOk result (λ all.
        AreDrawn (homed_view homed.now) (static_view statics.now) 0 (map graph_view homed.now.unit.graphs.items)
        (map laid_view all.items)) }
    ensures longest { IfOk result
        (λ all. AllByRecursion (IsLongest homed.now.unit.room) (map laid_view all.items)) }
{
    let room = homed.unit.room;
    let mut all = Vec::new(alloc);
    let mut function = 0u32;
    let mut left: &[Graph] = &homed.unit.graphs;
    while let [graph, rest @ ..] = left {
        let homes = homes_at(homed, function);
        let is_main = function == homed.unit.main;
        let one = lay_out(alloc, statics, room, graph, homes, is_main, is_planned)?;
        all.push(one)?;
        function = function.saturating_add(1);
        left = rest;
    }
    Ok(all)
}

/// Gives the code of a function that is in the longest layout its own layout.
fn shorten(
    alloc: Global,
    room: Room,
    firsts: &[u32],
    function: u32,
    one: &mut Laid,
) -> Result<(), AllocError>
    requires { IsLongest room (laid_view one.old) }
    ensures { OnOk result (laid_view one.new ≡ shortened room firsts.now function (laid_view one.old)) }
{
    let measured = Longest {
        room,
        first: at(firsts, function),
        firsts,
        offsets: &one.layout.offsets,
    };
    one.layout = layout_of(alloc, measured, &one.sequence)?;
    Ok(())
}

/// Gives the code of each function its own layout, where so many words stand before each in the longest one.
pub fn shorten_all(
    alloc: Global,
    room: Room,
    firsts: &[u32],
    all: &mut [Laid],
) -> Result<(), AllocError>
    requires { AllByRecursion (IsLongest room) (map laid_view all.old) }
    ensures { OnOk result
        (map laid_view all.new ≡ all_shortened room firsts.now 0 (map laid_view all.old)) }
{
    for number in 0..all.len() {
        shorten(alloc, room, firsts, count(number), &mut all[number])?;
    }
    Ok(())
}
