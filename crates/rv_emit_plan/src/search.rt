//! A search of a graph in depth.

use crate::flow::Flow;
use crate::table::{at, put};
use std::alloc::{AllocError, Global};

/// A block that the search has not come to.
const UNSEEN: u32 = 0;
/// A block from which the search is on its way.
const OPEN: u32 = 1;
/// A block behind which the search has seen all.
const DONE: u32 = 2;

/// An edge that closes a loop: it leads back to a block from which the search is on its way.
#[derive(Clone, Copy, PartialEq, Eq, PartialOrd, Ord)]
pub struct Back {
    pub head: u32,
    pub from: u32,
}

/// A block from which the search goes on, and how many of its edges it has followed.
#[derive(Clone, Copy)]
struct Visit {
    block: u32,
    followed: u32,
}

/// What a search in depth finds.
#[derive(Drop)]
pub struct Search {
    states: Vec<u32>,
    waiting: Vec<Visit>,
    /// The edges that close loops.
    pub back: Vec<Back>,
}

impl Search {
    /// Whether a path from block 0 reaches a block.
    pub fn reaches(&self, block: u32) -> bool {
        at(&self.states, block) != UNSEEN
    }

    /// Follows an edge.
    fn follow(&mut self, from: u32, to: u32) -> Result<(), AllocError> {
        match at(&self.states, to) {
            UNSEEN => {
                put(&mut self.states, to, OPEN);
                self.waiting.push(Visit {
                    block: to,
                    followed: 0,
                })?;
            }
            OPEN => self.back.push(Back { head: to, from })?,
            _ => {}
        }
        Ok(())
    }

    /// Follows the next edge from a block, or is done with it.
    fn visit(&mut self, flow: &Flow, visit: Visit) -> Result<(), AllocError> {
        let ways = flow.ways(visit.block);
        let way = match visit.followed {
            0 => ways.first,
            1 => ways.second,
            _ => None,
        };
        match way {
            Some(to) => {
                self.waiting.push(Visit {
                    block: visit.block,
                    followed: visit.followed.saturating_add(1),
                })?;
                self.follow(visit.block, to)
            }
            None => {
                put(&mut self.states, visit.block, DONE);
                Ok(())
            }
        }
    }
}

/// Searches a graph from block 0.
pub fn search_of(alloc: Global, flow: &Flow) -> Result<Search, AllocError> {
    let mut search = Search {
        states: vec![in alloc; UNSEEN; flow.blocks as usize]?,
        waiting: Vec::new(alloc),
        back: Vec::new(alloc),
    };
    search.follow(0, 0)?;
    for _ in 0..flow.blocks.saturating_mul(3) {
        match search.waiting.pop() {
            Some(visit) => search.visit(flow, visit)?,
            None => break,
        }
    }
    Ok(search)
}
