//! Sets of pairs of numbers.

ghost use Rattle.std.specs.Prelude.{◌≡◌, ◌==◌, ◌&&◌, ◌||◌, ℕ, IfOk, OnOk, false, not};
ghost use Rattle.home_assign.specs.Pairs.{has};

use std::alloc::{AllocError, Global};
use std::collections::BTreeSet;

/// A set of pairs of numbers.
#[derive(Drop)]
pub(crate) struct Pairs {
    all: BTreeSet<(u32, u32)>,
}

impl Pairs {
    /// No pairs.
    pub(crate) fn new(alloc: Global) -> Pairs
        ensures { (a b : ℕ) → has result a b ≡ false }
    {
        Pairs {
            all: BTreeSet::new(alloc),
        }
    }

    /// Whether a pair is in the set.
    pub(crate) fn has(&self, a: u32, b: u32) -> bool
        ensures { result ≡ has self.now a b }
    {
        self.all.contains(&(a, b))
    }

    /// Adds a pair. Tells whether it was new.
    pub(crate) fn add(&mut self, a: u32, b: u32) -> Result<bool, AllocError>
        ensures new { IfOk result (λ is_new. is_new ≡ not (has self.old a b)) }
        ensures added { OnOk result ((x y : ℕ) → has self.new x y ≡ (has self.old x y || ((a == x) && (b == y)))) }
    {
        Ok(self.all.insert((a, b))?)
    }
}
