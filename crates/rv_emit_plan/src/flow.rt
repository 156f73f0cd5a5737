//! Where the ends of blocks lead.

ghost use Rattle.std.specs.Prelude.{◌≡◌, ◌≢◌, ◌-◌, ◌++◌, ◌∷◌, [], IfOk, None, OnOk, length, map, min, slice_get, slice_index};
ghost use Rattle.graph_core.specs.Graphs.{block_view, end_view};
ghost use Rattle.rv_emit_plan.specs.Flows.{ways_at, ways_of};

use crate::table::{at, count, put};
use graph_core::{Block, End, Graph};
use std::alloc::{AllocError, Global};

/// The blocks to which the end of a block leads, each once.
#[derive(Clone, Copy)]
pub struct Ways {
    pub first: Option<u32>,
    pub second: Option<u32>,
}

impl Ways {
    /// The blocks to which an end leads.
    fn of(end: End) -> Ways
        ensures { result ≡ ways_of (end_view end) }
    {
        match end {
            End::Return(_) => Ways {
                first: None,
                second: None,
            },
            End::Jump(label) => Ways {
                first: Some(label.0),
                second: None,
            },
            End::Branch {
                then,
                otherwise,
                ..
            } => Ways {
                first: Some(then.0),
                second: if then.0 == otherwise.0 {
                    None
                } else {
                    Some(otherwise.0)
                },
            },
        }
    }
}

/// A block from which an edge leads to another.
#[derive(Clone, Copy)]
pub struct Source {
    pub from: u32,
    /// The number of the next source of the same block, counted from 1; 0 for none.
    pub next: u32,
}

/// The edges of a graph, in both directions.
#[derive(Drop)]
pub struct Flow {
    /// How many blocks there are.
    pub blocks: u32,
    ways: Vec<Ways>,
    /// For each block the number of its first source, counted from 1; 0 for none.
    heads: Vec<u32>,
    sources: Vec<Source>,
}

impl Flow {
    /// The blocks to which a block leads.
    pub fn ways(&self, block: u32) -> Ways
        ensures { result ≡ ways_at self.now.ways.items block }
    {
        match self.ways.get(block as usize) {
            Some(ways) => *ways,
            None => Ways {
                first: None,
                second: None,
            },
        }
    }

    /// The number of the first source of a block, counted from 1; 0 for none.
    pub fn first_source(&self, block: u32) -> u32
        ensures { result ≡ slice_index self.now.heads.items block }
    {
        at(&self.heads, block)
    }

    /// The source of a number.
    pub fn source(&self, number: u32) -> Option<Source>
        ensures none { number ≡ 0 → result ≡ None }
        ensures some { number ≢ 0 → result ≡ slice_get self.now.sources.items (number - 1) }
    {
        if number == 0 {
            return None;
        }
        match self.sources.get((number - 1) as usize) {
            Some(source) => Some(*source),
            None => None,
        }
    }

    /// How many edges there are.
    pub fn edges(&self) -> u32
        ensures { result ≡ min (length self.now.sources.items) 4294967295 }
    {
        count(self.sources.len())
    }

    /// Adds an edge to the sources of a block.
    fn add_source(&mut self, from: u32, to: Option<u32>) -> Result<(), AllocError>
        ensures blocks { OnOk result (self.new.blocks ≡ self.old.blocks) }
        ensures ways { OnOk result (self.new.ways ≡ self.old.ways) }
    {
        if let Some(block) = to {
            let next = at(&self.heads, block);
            self.sources.push(Source { from, next })?;
            let number = count(self.sources.len());
            put(&mut self.heads, block, number);
        }
        Ok(())
    }

    /// Adds the edges of a block.
    fn add(&mut self, from: u32, block: &Block) -> Result<(), AllocError>
        ensures blocks { OnOk result (self.new.blocks ≡ self.old.blocks) }
        ensures ways { OnOk result
            (self.new.ways.items ≡ self.old.ways.items ++ ways_of (block_view block.now).end ∷ []) }
    {
        let ways = Ways::of(block.end);
        self.ways.push(ways)?;
        self.add_source(from, ways.first)?;
        self.add_source(from, ways.second)
    }
}

/// The edges of a graph.
pub fn flow_of(alloc: Global, graph: &Graph) -> Result<Flow, AllocError>
    ensures blocks { IfOk result (λ flow. flow.blocks ≡ min (length graph.now.blocks.items) 4294967295) }
    ensures ways { IfOk result (λ flow. flow.ways.items ≡ map (λ b. ways_of (block_view b).end) graph.now.blocks.items) }
{
    let blocks = count(graph.blocks.len());
    let mut flow = Flow {
        blocks,
        ways: Vec::new(alloc),
        heads: vec![in alloc; 0; blocks as usize]?,
        sources: Vec::new(alloc),
    };
    let mut number = 0u32;
    for block in &graph.blocks {
        flow.add(number, block)?;
        number = number.saturating_add(1);
    }
    Ok(flow)
}
