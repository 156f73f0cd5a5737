//! Calls that are numbered from 1, some of which are to fail.
ghost use Rattle.std.specs.Prelude.{◌≡◌, ◌↔◌, ◌+◌, Contains, IsTrue, IfOk};
ghost use Rattle.outside.specs.Calls.{NextFails, no_calls, with_call};

use std::alloc::{AllocError, Global};
use std::marker::Model;

/// How many calls were made, and the numbers of those that are to fail.
#[derive(Drop)]
pub struct NumberedCalls {
    failing: Vec<u64>,
    made: u64,
}

impl Model for NumberedCalls {
    ghost use Rattle.outside.specs.Calls.{Calls};

    ghost Value = { Calls };

    ghost view = { λ c. record { failing = c.failing.items; made = c.made } };
}

impl NumberedCalls {
    /// No call yet; the calls of these numbers are to fail.
    pub fn new(alloc: Global, failing: &[u64]) -> Result<NumberedCalls, AllocError>
        ensures { IfOk result (λ calls. calls ≡ no_calls failing.now) }
    {
        Ok(NumberedCalls {
            failing: failing.to_vec(alloc)?,
            made: 0,
        })
    }

    /// Counts a call, and tells whether it is to fail. Past the greatest `u64` no call is.
    pub fn next_fails(&mut self) -> bool
        ensures listed { IsTrue result ↔ NextFails self.old }
        ensures counted { self.new ≡ with_call self.old }
    {
        let fails = is_listed(&self.failing, self.made);
        self.made = self.made.saturating_add(1);
        fails
    }
}

/// Whether the call after `made` calls is among those listed.
fn is_listed(numbers: &[u64], made: u64) -> bool
    ensures { IsTrue result ↔ Contains numbers.now (made + 1) }
{
    match made.checked_add(1) {
        Some(number) => numbers.contains(&number),
        None => false,
    }
}
