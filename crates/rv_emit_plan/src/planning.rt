//! The plan of a function's code.

ghost use Rattle.std.specs.Prelude.{◌≡◌, [], IfOk, OnOk, length, min, slice_get};
ghost use Rattle.std.specs.Option.{option_map_or};
ghost use Rattle.std.specs.List.{AllByRecursion};
ghost use Rattle.rv_emit_plan.specs.Plans.{AreChosen, AreConstants, HoldsWell, IsOrder};

use crate::choice::{Ground, Holding, holdings_of};
use crate::regions::{Regions, calls_of_all, regions_of};
use crate::table::{at, put};
use crate::{flow_of, loops_of, order_of, search_of};
use graph_core::Graph;
use rv_emit_storage::Storage;
use rv_emit_words::Held;
use std::alloc::{AllocError, Global};

/// The plan of a function's code.
#[derive(Drop)]
pub struct Plan {
    /// The blocks in the order in which they stand in the code.
    pub order: Vec<u32>,
    /// For each block what scratch registers hold where it begins.
    pub held: Vec<Vec<Held>>,
}

/// For each region the index of its first holding, and one more for the end; regions without one have 0 and 0.
#[derive(Drop)]
struct Spans {
    first: Vec<u32>,
    end: Vec<u32>,
}

/// Where the holdings of each region stand.
fn spans_of(alloc: Global, regions: u32, holdings: &[Holding]) -> Result<Spans, AllocError> {
    let mut first = vec![in alloc; 0; (regions as usize).saturating_add(1)]?;
    let mut end = vec![in alloc; 0; (regions as usize).saturating_add(1)]?;
    let mut index = 0u32;
    for holding in holdings {
        if at(&end, holding.region) == 0 {
            put(&mut first, holding.region, index);
        }
        index = index.saturating_add(1);
        put(&mut end, holding.region, index);
    }
    Ok(Spans { first, end })
}

/// Appends what a holding says is held, if there is one of this index.
fn push_held(held: &mut Vec<Held>, holdings: &[Holding], index: u32) -> Result<(), AllocError>
    ensures { OnOk result (AreChosen holdings.now → AreConstants held.old.items → AreConstants held.new.items) }
{
    if let Some(holding) = holdings.get(index as usize) {
        held.push(holding.held)?;
    }
    Ok(())
}

/// What a region holds.
fn held_in(
    alloc: Global,
    spans: &Spans,
    region: u32,
    holdings: &[Holding],
) -> Result<Vec<Held>, AllocError>
    ensures { IfOk result (λ held. AreChosen holdings.now → AreConstants held.items) }
{
    let mut held = Vec::new(alloc);
    if region == 0 {
        return Ok(held);
    }
    for index in at(&spans.first, region)..at(&spans.end, region) {
        push_held(&mut held, holdings, index)?;
    }
    Ok(held)
}

/// What a block holds: what its region does, and block 0 nothing.
fn held_by(
    alloc: Global,
    spans: &Spans,
    regions: &Regions,
    holdings: &[Holding],
    block: u32,
) -> Result<Vec<Held>, AllocError>
    ensures constants { IfOk result (λ held. AreChosen holdings.now → AreConstants held.items) }
    ensures start { IfOk result (λ held. block ≡ 0 → held.items ≡ []) }
{
    if block == 0 {
        return Ok(Vec::new(alloc));
    }
    held_in(alloc, spans, regions.region(block), holdings)
}

/// What each block holds.
fn held_of_all(
    alloc: Global,
    blocks: u32,
    regions: &Regions,
    holdings: &[Holding],
) -> Result<Vec<Vec<Held>>, AllocError>
    ensures constants { IfOk result
        (λ all. AreChosen holdings.now → AllByRecursion (λ held. AreConstants held.items) all.items) }
    ensures start { IfOk result (λ all. option_map_or (λ held. held.items) (slice_get all.items 0) [] ≡ []) }
{
    let spans = spans_of(alloc, blocks, holdings)?;
    let mut all = Vec::new(alloc);
    for block in 0..blocks {
        let held = held_by(alloc, &spans, regions, holdings, block)?;
        all.push(held)?;
    }
    Ok(all)
}

/// A plan by which the blocks stand as it is likely that they follow one another, and loops without calls hold the
/// words that they fetch most often.
/// Which loops are found and which words are chosen is no matter: each block stands once, block 0 first, and holds what
/// a block may hold.
pub fn plan_of(alloc: Global, storage: &Storage<'_>, graph: &Graph) -> Result<Plan, AllocError>
    ensures order { IfOk result (λ plan. IsOrder (min (length graph.now.blocks.items) 4294967295) plan.order.items) }
    ensures held { IfOk result (λ plan. HoldsWell plan) }
{
    let flow = flow_of(alloc, graph)?;
    let search = search_of(alloc, &flow)?;
    let loops = loops_of(alloc, &flow, &search)?;
    let calls = calls_of_all(alloc, graph)?;
    let regions = regions_of(alloc, &flow, &loops, &calls)?;
    let holdings = holdings_of(
        alloc,
        Ground {
            storage,
            graph,
            flow: &flow,
            loops: &loops,
            regions: &regions,
            calls: &calls,
        },
    )?;
    Ok(Plan {
        order: order_of(alloc, graph, &flow, &search, &loops)?,
        held: held_of_all(alloc, flow.blocks, &regions, &holdings)?,
    })
}
