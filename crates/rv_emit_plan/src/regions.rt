//! Regions: loops without calls of functions, joined where one block leads into several of them.

use crate::table::{at, count, put};
use crate::{Flow, Loop, Loops};
use graph_core::{Block, Callee, Graph, Instr};
use std::alloc::{AllocError, Global};

/// What calls a block has.
#[derive(Clone, Copy)]
pub struct Calls {
    /// Of functions: behind them no scratch register holds what it held.
    pub functions: bool,
    /// Of what the machine offers.
    pub machine: bool,
}

/// What calls a block has.
fn calls_of(block: &Block) -> Calls {
    let mut calls = Calls {
        functions: false,
        machine: false,
    };
    for instruction in &block.instructions {
        if let Instr::Call { callee, .. } = instruction {
            match callee {
                Callee::Function(_) => calls.functions = true,
                Callee::Getchar | Callee::Putchar | Callee::Exit => calls.machine = true,
            }
        }
    }
    calls
}

/// What calls each block of a graph has.
pub fn calls_of_all(alloc: Global, graph: &Graph) -> Result<Vec<Calls>, AllocError> {
    let mut calls = Vec::new(alloc);
    for block in &graph.blocks {
        calls.push(calls_of(block))?;
    }
    Ok(calls)
}

/// A loop by its size: the largest comes first.
#[derive(Clone, Copy, PartialEq, Eq, PartialOrd, Ord)]
struct Sized {
    smallness: u32,
    first: u32,
    end: u32,
}

/// The regions of a graph.
#[derive(Drop)]
pub struct Regions {
    /// For each block the number of its region, counted from 1; 0 for none.
    pub of: Vec<u32>,
    /// For each region another one that it is joined to, or itself.
    joined: Vec<u32>,
}

impl Regions {
    /// The region that stands for all that a region is joined to.
    fn whole(&self, region: u32) -> u32 {
        let mut at_last = region;
        for _ in 0..self.joined.len() {
            let next = at(&self.joined, at_last);
            if next == at_last {
                break;
            }
            at_last = next;
        }
        at_last
    }

    /// Joins two regions. None is joined to nothing.
    fn join(&mut self, one: u32, other: u32) {
        if one != 0 && other != 0 {
            let from = self.whole(one);
            let to = self.whole(other);
            put(&mut self.joined, from.max(to), from.min(to));
        }
    }

    /// The region of a block.
    pub fn region(&self, block: u32) -> u32 {
        at(&self.of, block)
    }

    /// Whether the blocks of a loop have no calls of functions, are in no region, and are not block 0.
    fn is_free(&self, loops: &Loops, of: Loop, calls: &[Calls]) -> bool {
        for index in of.first..of.end {
            let block = at(&loops.members, index);
            if block == 0 || self.region(block) != 0 {
                return false;
            }
            if let Some(calls) = calls.get(block as usize) {
                if calls.functions {
                    return false;
                }
            }
        }
        true
    }

    /// Makes a region of a loop.
    fn add(&mut self, loops: &Loops, of: Loop) -> Result<(), AllocError> {
        let number = count(self.joined.len());
        self.joined.push(number)?;
        for index in of.first..of.end {
            put(&mut self.of, at(&loops.members, index), number);
        }
        Ok(())
    }

    /// Joins the regions of a block and of those to which it leads.
    fn join_around(&mut self, flow: &Flow, block: u32) {
        let ways = flow.ways(block);
        let own = self.region(block);
        let first = match ways.first {
            Some(to) => self.region(to),
            None => 0,
        };
        let second = match ways.second {
            Some(to) => self.region(to),
            None => 0,
        };
        self.join(own, first);
        self.join(own, second);
        self.join(first, second);
    }

    /// Gives each block the region that stands for all that its own is joined to.
    fn settle(&mut self, blocks: u32) {
        for block in 0..blocks {
            let whole = self.whole(at(&self.of, block));
            put(&mut self.of, block, whole);
        }
    }
}

/// The loops, the largest first.
fn by_size(alloc: Global, loops: &Loops) -> Result<Vec<Sized>, AllocError> {
    let mut all = Vec::new(alloc);
    for of in &loops.loops {
        all.push(Sized {
            smallness: u32::MAX - of.end.saturating_sub(of.first),
            first: of.first,
            end: of.end,
        })?;
    }
    all.sort()?;
    Ok(all)
}

/// The regions of a graph.
pub fn regions_of(
    alloc: Global,
    flow: &Flow,
    loops: &Loops,
    calls: &[Calls],
) -> Result<Regions, AllocError> {
    let mut regions = Regions {
        of: vec![in alloc; 0; flow.blocks as usize]?,
        joined: vec![in alloc; 0; 1]?,
    };
    for sized in &by_size(alloc, loops)? {
        let of = Loop {
            first: sized.first,
            end: sized.end,
        };
        if regions.is_free(loops, of, calls) {
            regions.add(loops, of)?;
        }
    }
    for block in 0..flow.blocks {
        regions.join_around(flow, block);
    }
    regions.settle(flow.blocks);
    Ok(regions)
}
