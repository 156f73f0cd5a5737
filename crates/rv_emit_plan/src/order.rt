//! The order of blocks in code, by how often their edges are likely to be followed (Pettis and Hansen 1990).

ghost use Rattle.std.specs.Prelude.{◌≡◌, ◌^◌, IfOk, OnOk, min};
ghost use Rattle.rv_emit_plan.specs.Flows.{share};
ghost use Rattle.rv_emit_plan.specs.Orders.{placing_view, Grows, IsOrder};

use crate::flow::Flow;
use crate::loops::Loops;
use crate::placing::Placing;
use crate::search::Search;
use crate::table::{at, count, put};
use graph_core::Graph;
use std::alloc::{AllocError, Global};

/// An edge, by how seldom it is likely to be followed.
#[derive(Clone, Copy, PartialEq, Eq, PartialOrd, Ord)]
struct Link {
    rareness: u32,
    from: u32,
    to: u32,
}

/// How often a block at a depth of loops is likely to run, for each run of its function.
pub fn frequency(depth: u32) -> u32
    ensures { result ≡ 8 ^ min depth 8 }
{
    match depth {
        0 => 1,
        1 => 8,
        2 => 64,
        3 => 512,
        4 => 4096,
        5 => 32768,
        6 => 262144,
        7 => 2097152,
        _ => 16777216,
    }
}

/// How many of eight runs of a block with two ways out are likely to take this one, by the depths to which both lead.
fn share(depth: u32, other: u32) -> u32
    ensures { result ≡ share depth other }
{
    if depth < other {
        1
    } else if other < depth {
        7
    } else {
        4
    }
}

/// Chains of blocks, each of which stands behind the one before it.
#[derive(Drop)]
struct Chains {
    /// For each block the one behind it, counted from 1; 0 for none.
    next: Vec<u32>,
    /// For each block whether one stands before it.
    has_previous: Vec<u32>,
    /// For each end of a chain its other end.
    other_end: Vec<u32>,
}

impl Chains {
    /// Puts the chain that a block begins behind the one that another ends, where they are two such chains.
    fn join(&mut self, from: u32, to: u32) {
        if to == 0 || at(&self.next, from) != 0 || at(&self.has_previous, to) != 0 {
            return;
        }
        let first = at(&self.other_end, from);
        let last = at(&self.other_end, to);
        if first == to {
            return;
        }
        put(&mut self.next, from, to.saturating_add(1));
        put(&mut self.has_previous, to, 1);
        put(&mut self.other_end, first, last);
        put(&mut self.other_end, last, first);
    }

    /// Places the blocks of the chain that a block begins.
    fn push_to(&self, first: u32, placing: &mut Placing) -> Result<(), AllocError>
        ensures { OnOk result (Grows (placing_view placing.old) (placing_view placing.new)) }
    {
        let mut block = first;
        for _ in 0..self.next.len() {
            placing.place(block)?;
            let next = at(&self.next, block);
            if next == 0 {
                break;
            }
            block = next - 1;
        }
        Ok(())
    }

    /// Places the blocks of all chains but one.
    fn push_all(&self, last: u32, blocks: u32, placing: &mut Placing) -> Result<(), AllocError>
        ensures { OnOk result (Grows (placing_view placing.old) (placing_view placing.new)) }
    {
        for block in 0..blocks {
            if at(&self.has_previous, block) == 0 && block != last {
                self.push_to(block, placing)?;
            }
        }
        Ok(())
    }
}

/// Each block as a chain of its own.
fn single(alloc: Global, blocks: u32) -> Result<Chains, AllocError> {
    let mut other_end = Vec::new(alloc);
    for block in 0..blocks {
        other_end.push(block)?;
    }
    Ok(Chains {
        next: vec![in alloc; 0; blocks as usize]?,
        has_previous: vec![in alloc; 0; blocks as usize]?,
        other_end,
    })
}

/// Appends the edges of a block.
fn push_links(
    flow: &Flow,
    depths: &[u32],
    from: u32,
    links: &mut Vec<Link>,
) -> Result<(), AllocError> {
    let ways = flow.ways(from);
    let often = frequency(at(depths, from));
    if let Some(first) = ways.first {
        let mut eighths = 8u32;
        if let Some(second) = ways.second {
            eighths = share(at(depths, first), at(depths, second));
            let part = share(at(depths, second), at(depths, first));
            links.push(Link {
                rareness: u32::MAX - often.saturating_mul(part),
                from,
                to: second,
            })?;
        }
        links.push(Link {
            rareness: u32::MAX - often.saturating_mul(eighths),
            from,
            to: first,
        })?;
    }
    Ok(())
}

/// The edges that paths reach, the most frequent first.
fn links_of(
    alloc: Global,
    flow: &Flow,
    search: &Search,
    loops: &Loops,
) -> Result<Vec<Link>, AllocError> {
    let mut links = Vec::new(alloc);
    for from in 0..flow.blocks {
        if search.reaches(from) {
            push_links(flow, &loops.depths, from, &mut links)?;
        }
    }
    links.sort()?;
    Ok(links)
}

/// Whether a block returns.
fn returns(graph: &Graph, block: u32) -> bool {
    match graph.blocks.get(block as usize) {
        Some(block) => block.end.targets().as_slice().is_empty(),
        None => false,
    }
}

/// The first block of the last chain that a path reaches and that ends in a return; 0 if there is none but the first
/// chain.
fn last_chain(graph: &Graph, search: &Search, chains: &Chains) -> u32 {
    let mut last = 0u32;
    for block in 0..count(graph.blocks.len()) {
        if at(&chains.has_previous, block) == 0
            && search.reaches(block)
            && returns(graph, at(&chains.other_end, block))
        {
            last = block;
        }
    }
    last
}

/// Chains of blocks, joined along the edges that paths reach, the most frequent first.
fn chains_of(
    alloc: Global,
    flow: &Flow,
    search: &Search,
    loops: &Loops,
) -> Result<Chains, AllocError> {
    let mut chains = single(alloc, flow.blocks)?;
    for link in &links_of(alloc, flow, search, loops)? {
        chains.join(link.from, link.to);
    }
    Ok(chains)
}

/// The order of the blocks: block 0 first, a return last where that can be. Whatever the chains are, each block is
/// there once.
pub fn order_of(
    alloc: Global,
    graph: &Graph,
    flow: &Flow,
    search: &Search,
    loops: &Loops,
) -> Result<Vec<u32>, AllocError>
    ensures { IfOk result (λ order. IsOrder flow.now.blocks order.items) }
{
    let chains = chains_of(alloc, flow, search, loops)?;
    let last = last_chain(graph, search, &chains);
    let mut placing = Placing::begin(alloc, flow.blocks)?;
    chains.push_to(0, &mut placing)?;
    chains.push_all(last, flow.blocks, &mut placing)?;
    chains.push_to(last, &mut placing)?;
    placing.place_rest(flow.blocks)?;
    Ok(placing.order)
}
