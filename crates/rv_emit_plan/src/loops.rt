//! The loops of a graph.

use crate::flow::Flow;
use crate::search::{Back, Search};
use crate::table::{at, count, put};
use std::alloc::{AllocError, Global};

/// How many members all loops together have at most, for each block of the graph: as deep as statements nest.
const MAX_DEPTH: u32 = 64;

/// A loop: a block, its head, and those that lead back to it.
#[derive(Clone, Copy)]
pub struct Loop {
    /// The index of its first member, which is its head.
    pub first: u32,
    /// The index behind its last member.
    pub end: u32,
}

/// The loops of a graph.
#[derive(Drop)]
pub struct Loops {
    pub loops: Vec<Loop>,
    /// The blocks of the loops, one loop behind the other.
    pub members: Vec<u32>,
    /// For each block how many loops it is in.
    pub depths: Vec<u32>,
    /// For each block the last loop that has taken it in, counted from 1.
    marks: Vec<u32>,
    /// The head of the loop that is being gathered, and the index of its first member.
    head: Option<u32>,
    first: u32,
    /// The head of the last edge.
    last: Option<u32>,
}

impl Loops {
    /// The number of the loop that is being gathered, counted from 1.
    fn current(&self) -> u32 {
        count(self.loops.len()).saturating_add(1)
    }

    /// Takes a block into the loop that is being gathered.
    fn take(&mut self, block: u32) -> Result<(), AllocError> {
        let current = self.current();
        if at(&self.marks, block) != current {
            put(&mut self.marks, block, current);
            let depth = at(&self.depths, block).saturating_add(1);
            put(&mut self.depths, block, depth);
            self.members.push(block)?;
        }
        Ok(())
    }

    /// Takes in the blocks that lead to a block and that the search reached.
    fn take_sources(&mut self, flow: &Flow, search: &Search, block: u32) -> Result<(), AllocError> {
        let mut number = flow.first_source(block);
        for _ in 0..flow.edges() {
            match flow.source(number) {
                Some(source) => {
                    if search.reaches(source.from) {
                        self.take(source.from)?;
                    }
                    number = source.next;
                }
                None => break,
            }
        }
        Ok(())
    }

    /// Takes in all blocks that lead to the members from an index on.
    fn spread(&mut self, flow: &Flow, search: &Search, from: u32) -> Result<(), AllocError> {
        let mut next = from;
        for _ in 0..flow.blocks {
            match self.members.get(next as usize) {
                Some(block) => {
                    let block = *block;
                    self.take_sources(flow, search, block)?;
                    next = next.saturating_add(1);
                }
                None => break,
            }
        }
        Ok(())
    }

    /// Begins to gather the loop of a head, unless all loops together have become too large.
    fn begin(&mut self, flow: &Flow, head: u32) -> Result<(), AllocError> {
        let most = flow.blocks.saturating_mul(MAX_DEPTH);
        self.head = None;
        if count(self.members.len()) <= most {
            self.head = Some(head);
            self.first = count(self.members.len());
            self.take(head)?;
        }
        Ok(())
    }

    /// Gathers the rest of the loop, if one has begun.
    fn finish(&mut self, flow: &Flow, search: &Search) -> Result<(), AllocError> {
        if self.head.is_some() {
            let first = self.first;
            self.spread(flow, search, first.saturating_add(1))?;
            let end = count(self.members.len());
            self.loops.push(Loop { first, end })?;
        }
        Ok(())
    }

    /// Takes in an edge back to the head of a loop. Edges come by their heads.
    fn take_edge(&mut self, flow: &Flow, search: &Search, edge: Back) -> Result<(), AllocError> {
        if self.last != Some(edge.head) {
            self.finish(flow, search)?;
            self.begin(flow, edge.head)?;
            self.last = Some(edge.head);
        }
        if self.head.is_some() {
            self.take(edge.from)?;
        }
        Ok(())
    }
}

/// The loops of a graph.
pub fn loops_of(alloc: Global, flow: &Flow, search: &Search) -> Result<Loops, AllocError> {
    let mut loops = Loops {
        loops: Vec::new(alloc),
        members: Vec::new(alloc),
        depths: vec![in alloc; 0; flow.blocks as usize]?,
        marks: vec![in alloc; 0; flow.blocks as usize]?,
        head: None,
        last: None,
        first: 0,
    };
    let mut back = Vec::from_slice(alloc, &search.back)?;
    back.sort()?;
    for edge in &back {
        loops.take_edge(flow, search, *edge)?;
    }
    loops.finish(flow, search)?;
    Ok(loops)
}
