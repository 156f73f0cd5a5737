//! The graph of a function.

ghost use Rattle.std.specs.Prelude.{◌≡◌, ◌++◌, IfOk, false, length, map, reverse};
ghost use Rattle.c_tree.specs.Programs.{function_view, program_view};
ghost use Rattle.graph_core.specs.Graphs.{block_view, graph_view};
ghost use Rattle.graph_build_names.specs.Names as naming;
ghost use Rattle.graph_build_names.specs.Names.{names_view};
ghost use Rattle.graph_build_statements.specs.Coding.{coding_view, part_view};
ghost use Rattle.graph_build.specs.Units.{add_close, block_count, blocks_in, coding_with, function_part, graph_in, graph_of, is_again, names_used};

use crate::variables::{bindings_of, graph_objects, graph_scalars, note_all, scalars_of};
use c_flow::{start_of_all, ways_of_body};
use c_tree::TypedFunction;
use debug_records::Place;
use graph_build_names::{Names, names_of};
use graph_build_statements::{
    Form, Part, Source, add_all, going, narrow, place_number, placed_at, statements_reached,
};
use graph_build_steps::ending;
use graph_core::{Block, End, Graph, Operand};
use std::alloc::{AllocError, Global};

/// The closing brace, where flow reaches it: `main` returns 0.
fn add_close(
    alloc: Global,
    form: &Form<'_>,
    is_main: bool,
    closing: Option<u32>,
    part: Part,
) -> Result<Part, AllocError>
    ensures { IfOk result (λ p. part_view p ≡ add_close (coding_view form.now) is_main closing (part_view part)) }
{
    match closing {
        None => Ok(part),
        Some(at) => {
            let value = if is_main {
                Some(Operand::Constant(0))
            } else {
                None
            };
            let draft = ending(alloc, End::Return(value), part.inner);
            placed_at(form, at, draft, part.placed)
        }
    }
}

/// The blocks of a function: its entry, its statements, and its closing brace.
fn function_part(
    alloc: Global,
    form: &Form<'_>,
    function: &TypedFunction,
    is_main: bool,
) -> Result<Part, AllocError>
    ensures { IfOk result (λ p. part_view p ≡ function_part (coding_view form.now) (function_view function.now) is_main) }
{
    let ways = ways_of_body(function);
    let empty = Part {
        placed: Vec::new(alloc),
        inner: Vec::new(alloc),
    };
    let closing = add_close(alloc, form, is_main, ways.next, empty)?;
    let body = add_all(alloc, form, &function.body, form.scalars, ways, closing)?;
    let first = start_of_all(&function.body, ways.next);
    let draft = going(alloc, form, first, body.inner);
    let draft = note_all(alloc, form.names, function, draft)?;
    placed_at(form, function.spot.at, draft, body.placed)
}

/// The places' blocks in the order of the text, and behind them the inner ones in order of evaluation.
#[tactic(auto, using(crate::proofs::Ordering::seen_in_order))]
fn in_order(part: Part) -> Result<Vec<Block>, AllocError>
    ensures { IfOk result (λ v. map block_view v.items ≡ (part_view part).placed ++ reverse (part_view part).inner) }
{
    let mut blocks = part.placed;
    let mut inner = part.inner;
    blocks.reverse();
    inner.reverse();
    blocks.append(&mut inner)?;
    Ok(blocks)
}

/// The blocks of a function, in their order.
fn blocks_of(
    alloc: Global,
    form: &Form<'_>,
    function: &TypedFunction,
    is_main: bool,
) -> Result<Vec<Block>, AllocError>
    ensures { IfOk result (λ v.
        map block_view v.items ≡ blocks_in (coding_view form.now)
        (function_part (coding_view form.now) (function_view function.now) is_main)) }
{
    let part = function_part(alloc, form, function, is_main)?;
    in_order(part)
}

/// How many blocks these are.
fn counted(blocks: &[Block]) -> Result<u32, AllocError>
    ensures { IfOk result (λ n. n ≡ length (map block_view blocks.now)) }
{
    narrow(blocks.len() as u64)
}

/// How many names the code of a function uses.
fn names_used(form: &Form<'_>, function: &TypedFunction) -> Result<u32, AllocError>
    ensures { IfOk result (λ n. n ≡ names_used (coding_view form.now) (function_view function.now)) }
{
    statements_reached(form, &function.body, form.scalars)
}

/// What the code of a function with these names stands on, in a graph of so many blocks.
fn form_with<'a>(
    alloc: Global,
    source: &Source<'a>,
    names: &'a Names,
    function: &TypedFunction,
    top: u32,
) -> Result<Form<'a>, AllocError>
    ensures { IfOk result (λ c.
        coding_view c ≡ coding_with (program_view source.now.program.now) (function_view function.now)
        (names_view names.now) top) }
{
    let scalars = scalars_of(alloc, names, function)?;
    Ok(Form {
        names,
        source: *source,
        entry: place_number(source, function.spot.at),
        scalars: narrow(scalars.len() as u64)?,
        top,
    })
}

/// Whether names are used again: where a fresh one for each result, as these are, is more than the function weighs.
fn is_again(
    alloc: Global,
    source: &Source<'_>,
    fresh: &Names,
    function: &TypedFunction,
) -> Result<bool, AllocError>
    requires { names_view fresh.now
        ≡ naming.names_of (program_view source.now.program.now) (function_view function.now) false }
    ensures { IfOk result (λ b. b ≡ is_again (program_view source.now.program.now) (function_view function.now)) }
{
    let form = form_with(alloc, source, fresh, function, 0)?;
    let used = names_used(&form, function)?;
    Ok(function.weight < u64::from(used))
}

/// The names of a function's code.
fn names_for(
    alloc: Global,
    source: &Source<'_>,
    function: &TypedFunction,
) -> Result<Names, AllocError>
    ensures { IfOk result (λ n.
        names_view n ≡ naming.names_of (program_view source.now.program.now) (function_view function.now)
        (is_again (program_view source.now.program.now) (function_view function.now))) }
{
    let fresh = names_of(alloc, source.program, function, false)?;
    if is_again(alloc, source, &fresh, function)? {
        names_of(alloc, source.program, function, true)
    } else {
        Ok(fresh)
    }
}

/// The graph of a function whose code stands on this.
fn graph_in(
    alloc: Global,
    form: &Form<'_>,
    function: &TypedFunction,
    is_main: bool,
) -> Result<Graph, AllocError>
    ensures { IfOk result (λ g.
        graph_view g ≡ graph_in (coding_view form.now).program (coding_view form.now) (function_view function.now)
        is_main) }
{
    let names = form.names;
    let used = names_used(form, function)?;
    Ok(Graph {
        entry: Place(form.entry),
        parameters: bindings_of(alloc, names, function)?,
        scalars: graph_scalars(alloc, &form.source, names, function, form.entry)?,
        objects: graph_objects(alloc, form.source.program, names, function)?,
        name_count: used,
        first_moved: used,
        blocks: blocks_of(alloc, form, function, is_main)?,
    })
}

/// How many blocks a function with its names has, which hangs on no label.
fn block_count(
    alloc: Global,
    source: &Source<'_>,
    names: &Names,
    function: &TypedFunction,
    is_main: bool,
) -> Result<u32, AllocError>
    requires { names_view names.now ≡ naming.names_of (program_view source.now.program.now) (function_view function.now)
        (is_again (program_view source.now.program.now) (function_view function.now)) }
    ensures { IfOk result
        (λ n. n ≡ block_count (program_view source.now.program.now) (function_view function.now) is_main) }
{
    let form = form_with(alloc, source, names, function, 0)?;
    let blocks = blocks_of(alloc, &form, function, is_main)?;
    let count = counted(&blocks)?;
    Ok(count)
}

/// The graph of a function with its names: its blocks are counted before they have their labels.
fn graph_with(
    alloc: Global,
    source: &Source<'_>,
    names: &Names,
    function: &TypedFunction,
    is_main: bool,
) -> Result<Graph, AllocError>
    requires { names_view names.now ≡ naming.names_of (program_view source.now.program.now) (function_view function.now)
        (is_again (program_view source.now.program.now) (function_view function.now)) }
    ensures { IfOk result (λ g.
        graph_view g ≡ graph_of (program_view source.now.program.now) (function_view function.now) is_main) }
{
    let count = block_count(alloc, source, names, function, is_main)?;
    let form = form_with(alloc, source, names, function, count)?;
    let graph = graph_in(alloc, &form, function, is_main)?;
    Ok(graph)
}

/// The graph of a function.
pub fn graph_of(
    alloc: Global,
    source: &Source<'_>,
    function: &TypedFunction,
    is_main: bool,
) -> Result<Graph, AllocError>
    ensures { IfOk result (λ g.
        graph_view g ≡ graph_of (program_view source.now.program.now) (function_view function.now) is_main) }
{
    let names = names_for(alloc, source, function)?;
    let graph = graph_with(alloc, source, &names, function, is_main)?;
    Ok(graph)
}
