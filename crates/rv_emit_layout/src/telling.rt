//! What is told of functions that are laid out.

ghost use Rattle.std.specs.Prelude.{◌≡◌, IfOk, length, map};
ghost use Rattle.graph_core.specs.Graphs.{graph_view};
ghost use Rattle.rv_emit_tables.specs.Emitted.{function_view};
ghost use Rattle.rv_emit_layout.specs.Laid.{laid_view, parameters_in, stops_of_all, told_by, told_of_all};

use crate::laying::Laid;
use crate::{address_of, bindings_of, push_stops, writers_of};
use graph_core::Graph;
use rv_emit_sequence::table::at;
use rv_emit_tables::{EmittedFunction, PlacedStop};
use std::alloc::{AllocError, Global};

/// What is told of a function before which so many words stand.
fn told(
    alloc: Global,
    one: &Laid,
    first: u32,
    parameters: usize,
) -> Result<EmittedFunction, AllocError>
    ensures { IfOk result (λ f. function_view f ≡ told_by first parameters (laid_view one.now)) }
{
    Ok(EmittedFunction {
        first: address_of(first),
        end: address_of(first.saturating_add(one.layout.words)),
        frame: one.frame.size,
        slots: one.frame.slots,
        objects: Vec::from_slice(alloc, &one.frame.objects)?,
        bindings: bindings_of(alloc, &one.sequence, &one.layout, first, parameters)?,
        writers: writers_of(alloc, &one.sequence, &one.layout, first)?,
    })
}

/// How many parameters a function has.
fn parameters_of(graphs: &[Graph], function: u32) -> usize
    ensures { result ≡ parameters_in (map graph_view graphs.now) function }
{
    match graphs.get(function as usize) {
        Some(graph) => graph.parameters.len(),
        None => 0,
    }
}

/// What is told of each function, where so many words stand before each.
pub fn told_all(
    alloc: Global,
    graphs: &[Graph],
    all: &[Laid],
    firsts: &[u32],
) -> Result<Vec<EmittedFunction>, AllocError>
    ensures { IfOk result (λ v.
        map function_view v.items ≡ told_of_all (map graph_view graphs.now) firsts.now 0 (map laid_view all.now)) }
{
    let mut functions = Vec::new(alloc);
    let mut function = 0u32;
    let mut left = all;
    while let [one, rest @ ..] = left {
        let parameters = parameters_of(graphs, function);
        functions.push(told(alloc, one, at(firsts, function), parameters)?)?;
        function = function.saturating_add(1);
        left = rest;
    }
    Ok(functions)
}

/// The stops of all functions, where so many words stand before each.
pub fn stops_of(alloc: Global, all: &[Laid], firsts: &[u32]) -> Result<Vec<PlacedStop>, AllocError>
    ensures { IfOk result (λ stops. stops.items ≡ stops_of_all firsts.now 0 (map laid_view all.now)) }
{
    let mut stops = Vec::new(alloc);
    let mut function = 0u32;
    let mut left = all;
    while let [one, rest @ ..] = left {
        push_stops(&one.sequence, &one.layout, at(firsts, function), &mut stops)?;
        function = function.saturating_add(1);
        left = rest;
    }
    Ok(stops)
}
