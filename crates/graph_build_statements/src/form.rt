//! The blocks of a function while they are built, the last ones first.

ghost use Rattle.std.specs.Prelude.{◌≡◌, IfOk, map, reverse};
ghost use Rattle.c_tree.specs.TypedExpressions.{rvalue_view};
ghost use Rattle.graph_core.specs.Graphs.{block_view};
ghost use Rattle.graph_build_names.specs.Names.{names_view};
ghost use Rattle.graph_build_steps.specs.Drafts.{goal_of, made_of};
ghost use Rattle.graph_build_code.specs.Code as definition;
ghost use Rattle.graph_build_statements.specs.Coding.{begun, block_of, branching, coded, coding_view, going, label_for, part_view, place_of, placed_at, with_end};

use crate::source::{Source, place_number};
use c_tree::Rvalue;
use debug_records::Place;
use graph_build_code::code;
use graph_build_names::{Names, pick};
use graph_build_steps::{Draft, Goal, Site, closed, ending, marked, next_label};
use graph_core::{Block, End, Label};
use std::alloc::{AllocError, Global};

/// What the code of a function stands on.
#[derive(Clone, Copy)]
pub struct Form<'a> {
    pub names: &'a Names,
    pub source: Source<'a>,
    /// The place of the function's entry.
    pub entry: u32,
    /// How many scalars the function has.
    pub scalars: u32,
    /// How many blocks its graph has.
    pub top: u32,
}

/// The blocks that stand.
#[derive(Drop)]
pub struct Part {
    /// The blocks of places, the last one in the text first.
    pub placed: Vec<Block>,
    /// The other blocks, the last one in order of evaluation first.
    pub inner: Vec<Block>,
}

/// The place at a position.
pub fn place_of(form: &Form<'_>, at: u32) -> Place
    ensures { result.0 ≡ place_of (coding_view form.now) at }
{
    Place(place_number(&form.source, at))
}

/// The block of the place at a position: places of one function follow one another.
pub fn block_of(form: &Form<'_>, at: u32) -> Label
    ensures { result.0 ≡ block_of (coding_view form.now) at }
{
    Label(place_number(&form.source, at).saturating_sub(form.entry))
}

/// The name from which on a place's temporaries are numbered, where names up to this one are used before it.
pub fn begun(form: &Form<'_>, free: u32) -> u32
    ensures { result ≡ begun (coding_view form.now) free }
{
    pick(form.names, form.scalars, free)
}

/// A jump to a place, or where flow reaches no closing brace an end that nothing reaches.
pub fn going(alloc: Global, form: &Form<'_>, next: Option<u32>, inner: Vec<Block>) -> Draft
    ensures { made_of result ≡ going (coding_view form.now) next (map block_view inner.items) }
{
    match next {
        Some(at) => ending(alloc, End::Jump(block_of(form, at)), inner),
        None => ending(alloc, End::Return(None), inner),
    }
}

/// The label of a place to branch to, or that of the end that stands for none and is closed next.
pub fn label_for(form: &Form<'_>, next: Option<u32>, inner: &[Block]) -> Label
    ensures { result.0 ≡ label_for (coding_view form.now) next (map block_view inner.now) }
{
    match next {
        Some(at) => block_of(form, at),
        None => next_label(form.top, inner),
    }
}

/// The inner blocks, with the end that stands for no place to go to.
pub fn with_end(
    alloc: Global,
    form: &Form<'_>,
    at: u32,
    next: Option<u32>,
    inner: Vec<Block>,
) -> Result<Vec<Block>, AllocError>
    ensures { IfOk result
        (λ v. map block_view v.items ≡ with_end (coding_view form.now) at next (map block_view inner.items)) }
{
    match next {
        Some(_) => Ok(inner),
        None => closed(place_of(form, at), ending(alloc, End::Return(None), inner)),
    }
}

/// The block of the place at a position, before those that stand.
pub fn placed_at(
    form: &Form<'_>,
    at: u32,
    draft: Draft,
    later: Vec<Block>,
) -> Result<Part, AllocError>
    ensures { IfOk result (λ p.
        part_view p ≡ placed_at (coding_view form.now) at (made_of draft) (map block_view (reverse later.items))) }
{
    let (block, inner) = marked(place_of(form, at), draft)?;
    let mut placed = later;
    placed.push(block)?;
    Ok(Part { placed, inner })
}

/// The code of an expression in the place at a position, whose temporaries begin with this name.
pub fn coded_from(
    alloc: Global,
    form: &Form<'_>,
    at: u32,
    e: &Rvalue,
    begun: u32,
    goal: Goal,
) -> Result<Draft, AllocError>
    ensures { IfOk result (λ d.
        made_of d ≡ definition.code (names_view form.now.names.now) (place_of (coding_view form.now) at)
        form.now.top (rvalue_view e.now) begun (goal_of goal)) }
{
    let site = Site {
        names: form.names,
        place: place_of(form, at),
        top: form.top,
    };
    code(alloc, &site, e, begun, goal)
}

/// The code of an expression in the place at a position.
pub fn coded(
    alloc: Global,
    form: &Form<'_>,
    at: u32,
    e: &Rvalue,
    free: u32,
    goal: Goal,
) -> Result<Draft, AllocError>
    ensures { IfOk result (λ d. made_of d ≡ coded (coding_view form.now) at (rvalue_view e.now) free (goal_of goal)) }
{
    coded_from(alloc, form, at, e, begun(form, free), goal)
}

/// A condition, which leads two ways.
pub fn branching(
    alloc: Global,
    form: &Form<'_>,
    at: u32,
    e: &Rvalue,
    free: u32,
    one: Option<u32>,
    other: Option<u32>,
    inner: Vec<Block>,
) -> Result<Draft, AllocError>
    ensures { IfOk result (λ d.
        made_of d ≡ branching (coding_view form.now) at (rvalue_view e.now) free one other
        (map block_view inner.items)) }
{
    let other_label = label_for(form, other, &inner);
    let ends = with_end(alloc, form, at, other, inner)?;
    let one_label = label_for(form, one, &ends);
    let ends = with_end(alloc, form, at, one, ends)?;
    let goal = Goal::Either(one_label, other_label, ends);
    coded(alloc, form, at, e, free, goal)
}
