//! Sets of numbers, the values that flow through a graph.

ghost use Rattle.std.specs.Prelude.{◌≡◌, ◌↔◌, true, IfOk, OnOk, OnErr};
ghost use Rattle.std.specs.Ordering.{nat_cmp};
ghost use Rattle.std.specs.FinSet as set;
ghost use Rattle.std.specs.Coded.{coded_ℕ};

use std::alloc::{AllocError, Global};
use std::collections::BTreeSet;
use std::marker::Model;

/// A set of numbers, each of which stands for a fact.
#[derive(Drop)]
pub struct Facts {
    numbers: BTreeSet<u32>,
}

impl Model for Facts {
    ghost Value = { set.FinSet nat_cmp };

    ghost coded = { set.code coded_ℕ };

    ghost view = { λ facts. set.from_list facts.numbers.keys };
}

impl Facts {
    /// The set of no number.
    pub fn new(alloc: Global) -> Facts
        ensures { result ≡ set.empty }
    {
        Facts {
            numbers: BTreeSet::new(alloc),
        }
    }

    /// Whether the number is in the set.
    pub fn has(&self, number: u32) -> bool
        ensures { result ≡ set.contains self.now number }
    {
        self.numbers.contains(&number)
    }

    /// Puts the number into the set.
    pub fn add(&mut self, number: u32) -> Result<(), AllocError>
        ensures added { OnOk result (self.new ≡ set.insert self.old number) }
        ensures refused { OnErr result (self.new ≡ self.old) }
    {
        self.numbers.insert(number)?;
        Ok(())
    }

    /// Takes the number out of the set.
    pub fn remove(&mut self, number: u32)
        ensures { self.new ≡ set.remove self.old number }
    {
        let _was_there = self.numbers.remove(&number);
    }

    /// The numbers that are in the one set or in the other.
    pub fn union(&self, other: &Facts) -> Result<Facts, AllocError>
        ensures { IfOk result (λ both. both ≡ set.union self.now other.now) }
    {
        let numbers = (&self.numbers | &other.numbers)?;
        Ok(Facts { numbers })
    }

    /// The numbers that are in both sets.
    pub fn intersection(&self, other: &Facts) -> Result<Facts, AllocError>
        ensures { IfOk result (λ common. common ≡ set.intersection self.now other.now) }
    {
        let numbers = (&self.numbers & &other.numbers)?;
        Ok(Facts { numbers })
    }

    /// The numbers that are in this set and not in the other.
    pub fn difference(&self, other: &Facts) -> Result<Facts, AllocError>
        ensures { IfOk result (λ rest. rest ≡ set.difference self.now other.now) }
    {
        let numbers = (&self.numbers - &other.numbers)?;
        Ok(Facts { numbers })
    }

    /// Whether the two sets have the same numbers.
    pub fn is_same(&self, other: &Facts) -> bool
        ensures { (result ≡ true) ↔ (self.now ≡ other.now) }
    {
        self.numbers.is_subset(&other.numbers) && other.numbers.is_subset(&self.numbers)
    }

    /// An equal set.
    pub fn duplicate(&self) -> Result<Facts, AllocError>
        ensures { IfOk result (λ copy. copy ≡ self.now) }
    {
        let numbers = self.numbers.clone()?;
        Ok(Facts { numbers })
    }
}
