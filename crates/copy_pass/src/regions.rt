//! How far copies reach.

use crate::sources::Copied;
use graph_core::Block;
use graph_paths::{BitTable, entry, list, no_lists, push_to, put_entry, successor};
use std::alloc::{AllocError, Global};

/// The blocks of a graph, and the copies that reach each of them.
#[derive(Drop)]
pub struct Regions {
    alloc: Global,
    /// For each block that some path reaches those to which it leads, and those which some path reaches and which lead
    /// to it.
    after: Vec<Vec<u32>>,
    before: Vec<Vec<u32>>,
    /// For each block the scalars that it writes.
    written: BitTable,
    /// For each block the last flood that came to it, by its number.
    flood: Vec<u32>,
    /// How many floods there were.
    floods: u32,
    /// For each block the copies that reach its start on every path.
    arriving: Vec<Vec<Copied>>,
}

/// A length as a number; 2^32 - 1 where it is more.
pub fn number_of(length: usize) -> u32 {
    if length < 0x1_0000_0000 {
        length as u32
    } else {
        u32::MAX
    }
}

/// The scalars that each block writes.
fn written_of(alloc: Global, blocks: &[Block], scalars: u32) -> Result<BitTable, AllocError> {
    let mut written = BitTable::new(alloc, number_of(blocks.len()), scalars)?;
    let mut number = 0u32;
    for block in blocks {
        put_written(&mut written, number, block);
        number = number.saturating_add(1);
    }
    Ok(written)
}

fn put_written(written: &mut BitTable, number: u32, block: &Block) {
    for instruction in &block.instructions {
        if let Some(target) = instruction.target() {
            written.put(number, target.0, true);
        }
    }
}

/// So many blocks that no copy reaches.
fn none_arriving(alloc: Global, blocks: usize) -> Result<Vec<Vec<Copied>>, AllocError> {
    let mut arriving = Vec::new(alloc);
    for _ in 0..blocks {
        arriving.push(Vec::new(alloc))?;
    }
    Ok(arriving)
}

impl Regions {
    /// The blocks of a graph, of which some path reaches these, and no copies.
    pub fn new(
        alloc: Global,
        blocks: &[Block],
        scalars: u32,
        reached: &[u32],
    ) -> Result<Regions, AllocError> {
        let mut regions = Regions {
            alloc,
            after: no_lists(alloc, blocks.len())?,
            before: no_lists(alloc, blocks.len())?,
            written: written_of(alloc, blocks, scalars)?,
            flood: vec![in alloc; 0u32; blocks.len()]?,
            floods: 0,
            arriving: none_arriving(alloc, blocks.len())?,
        };
        for number in reached {
            if let Some(block) = blocks.get(*number as usize) {
                regions.join(*number, block)?;
            }
        }
        Ok(regions)
    }

    /// A block leads to others.
    fn join(&mut self, number: u32, block: &Block) -> Result<(), AllocError> {
        for which in 0..2u32 {
            if let Some(next) = successor(&block.end, which) {
                push_to(&mut self.after, number, next)?;
                push_to(&mut self.before, next, number)?;
            }
        }
        Ok(())
    }

    /// The copies that reach the start of a block on every path.
    pub fn arriving(&self, block: u32) -> &[Copied] {
        match self.arriving.get(block as usize) {
            Some(found) => found.as_slice(),
            None => &[],
        }
    }

    /// Whether a block writes one of the scalars.
    fn stops(&self, block: u32, copied: Copied) -> bool {
        self.written.get(block, copied.target) || self.written.get(block, copied.source)
    }

    /// Whether this flood came to a block.
    fn is_flooded(&self, block: u32) -> bool {
        entry(&self.flood, block) == self.floods
    }

    /// The flood comes to those to which a block leads. Those where it was not yet are looked at later.
    fn pour(&mut self, block: u32, ahead: &mut Vec<u32>) -> Result<(), AllocError> {
        for next in list(&self.after, block) {
            if entry(&self.flood, *next) != self.floods {
                put_entry(&mut self.flood, *next, self.floods);
                ahead.push(*next)?;
            }
        }
        Ok(())
    }

    /// The blocks to which a way leads from the end of a block on which neither scalar is written.
    fn fill(&mut self, from: u32, copied: Copied) -> Result<Vec<u32>, AllocError> {
        let mut region = Vec::new(self.alloc);
        self.pour(from, &mut region)?;
        for at in 0..self.flood.len() {
            let Some(block) = region.get(at).copied() else {
                break;
            };
            if !self.stops(block, copied) {
                self.pour(block, &mut region)?;
            }
        }
        Ok(region)
    }

    /// Whether the copy comes to a block along each edge that leads to it. The first block is entered without it.
    fn comes_by_all(&self, block: u32, from: u32, copied: Copied) -> bool {
        for before in list(&self.before, block) {
            let comes = *before == from || self.is_flooded(*before) && !self.stops(*before, copied);
            if !comes {
                return false;
            }
        }
        block != 0
    }

    /// The flood leaves those of the blocks to which the copy does not come along each edge. They are gone on from
    /// later.
    fn drain(
        &mut self,
        blocks: &[u32],
        from: u32,
        copied: Copied,
        ahead: &mut Vec<u32>,
    ) -> Result<(), AllocError> {
        for block in blocks {
            if self.is_flooded(*block) && !self.comes_by_all(*block, from, copied) {
                put_entry(&mut self.flood, *block, 0);
                ahead.push(*block)?;
            }
        }
        Ok(())
    }

    /// The flood leaves the blocks to which the copy does not come on every path.
    fn settle(&mut self, region: &[u32], from: u32, copied: Copied) -> Result<(), AllocError> {
        let mut dry = Vec::new(self.alloc);
        self.drain(region, from, copied, &mut dry)?;
        for at in 0..region.len() {
            let Some(block) = dry.get(at).copied() else {
                break;
            };
            if !self.stops(block, copied) {
                let next = Vec::from_slice(self.alloc, list(&self.after, block))?;
                self.drain(&next, from, copied, &mut dry)?;
            }
        }
        Ok(())
    }

    /// The copy comes to the blocks where the flood is.
    fn arrive(&mut self, region: &[u32], copied: Copied) -> Result<(), AllocError> {
        for block in region {
            if self.is_flooded(*block) {
                if let Some(found) = self.arriving.get_mut(*block as usize) {
                    found.push(copied)?;
                }
            }
        }
        Ok(())
    }

    /// A copy leaves a block: it comes to each block that it reaches on every path, with neither scalar written since.
    pub fn leave(&mut self, from: u32, copied: Copied) -> Result<(), AllocError> {
        self.floods = self.floods.saturating_add(1);
        let region = self.fill(from, copied)?;
        self.settle(&region, from, copied)?;
        self.arrive(&region, copied)
    }
}
