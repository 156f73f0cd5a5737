//! Which scalars are copies of which.

use graph_paths::{list, no_lists, push_to};
use std::alloc::{AllocError, Global};

/// A scalar has the value of another one, which was copied to it, with neither written since.
#[derive(Clone, Copy)]
pub struct Copied {
    pub target: u32,
    pub source: u32,
}

/// For each scalar the one of which it is a copy, at a point of a block.
#[derive(Drop)]
pub struct Sources {
    alloc: Global,
    /// By scalar; its own number where it is no copy.
    source: Vec<u32>,
    /// By scalar those that became copies of it in this block. Some may be none any more.
    copies: Vec<Vec<u32>>,
    /// All that became copies in this block.
    begun: Vec<Copied>,
}

/// So many numbers from 0 on.
fn numbers(alloc: Global, count: usize) -> Result<Vec<u32>, AllocError> {
    let mut numbers = Vec::new(alloc);
    let mut number = 0u32;
    for _ in 0..count {
        numbers.push(number)?;
        number = number.saturating_add(1);
    }
    Ok(numbers)
}

impl Sources {
    /// So many scalars, none a copy.
    pub fn new(alloc: Global, scalars: usize) -> Result<Sources, AllocError> {
        Ok(Sources {
            alloc,
            source: numbers(alloc, scalars)?,
            copies: no_lists(alloc, scalars)?,
            begun: Vec::new(alloc),
        })
    }

    /// What is read in place of a name: the scalar of which it is a copy, else the name itself.
    pub fn source_of(&self, name: u32) -> u32 {
        match self.source.get(name as usize) {
            Some(source) => *source,
            None => name,
        }
    }

    /// Whether a scalar is a copy of that one.
    pub fn is_copied(&self, copied: Copied) -> bool {
        copied.source != copied.target && self.source_of(copied.target) == copied.source
    }

    /// A scalar is no copy any more.
    fn end(&mut self, scalar: u32) {
        if let Some(source) = self.source.get_mut(scalar as usize) {
            *source = scalar;
        }
    }

    /// A scalar is a copy from here on.
    pub fn begin(&mut self, copied: Copied) -> Result<(), AllocError> {
        self.begun.push(copied)?;
        push_to(&mut self.copies, copied.source, copied.target)?;
        if let Some(source) = self.source.get_mut(copied.target as usize) {
            *source = copied.source;
        }
        Ok(())
    }

    /// What became a copy of a scalar is none any more.
    fn end_copies(&mut self, name: u32) {
        for at in 0..list(&self.copies, name).len() {
            if let Some(target) = list(&self.copies, name).get(at).copied() {
                if self.source_of(target) == name {
                    self.end(target);
                }
            }
        }
        if let Some(copies) = self.copies.get_mut(name as usize) {
            copies.clear();
        }
    }

    /// A name is written: it is no copy any more, and nothing is a copy of it.
    pub fn write(&mut self, name: u32) {
        self.end(name);
        self.end_copies(name);
    }

    /// What became a copy in this block behind the first so many, and is one still, each once.
    fn made(&mut self, arrived: usize) -> Result<Vec<Copied>, AllocError> {
        let mut made = Vec::new(self.alloc);
        for at in arrived..self.begun.len() {
            if let Some(copied) = self.begun.get(at).copied() {
                if self.is_copied(copied) {
                    self.end(copied.target);
                    made.push(copied)?;
                }
            }
        }
        Ok(made)
    }

    /// No scalar is a copy any more.
    fn end_all(&mut self) {
        for _ in 0..self.begun.len() {
            if let Some(copied) = self.begun.pop() {
                self.end(copied.target);
                if let Some(copies) = self.copies.get_mut(copied.source as usize) {
                    copies.clear();
                }
            }
        }
    }

    /// A block is left, and no scalar is a copy any more. Gives those that became copies in it behind the first so
    /// many, and were still, each once.
    pub fn leave(&mut self, arrived: usize) -> Result<Vec<Copied>, AllocError> {
        let made = self.made(arrived)?;
        self.end_all();
        Ok(made)
    }
}
