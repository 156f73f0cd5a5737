//! The scalars of a function by their variables.

ghost use Rattle.std.specs.Prelude.{◌≡◌, ◌^◌, ◌≤◌, ◌<◌, ℕ, IfOk, Some, length, slice_get, slice_set};
ghost use Rattle.graph_core.specs.declared.graph.Scalar as declared-scalar;
ghost use Rattle.currency_shown.specs.Numbering.{AreDistinctVariables, AreNumbered, IsNumberOf, scalar_in};

use debug_records::Var;
use graph_core::Scalar;
use std::alloc::{AllocError, Global};

/// For each variable of a function which of its scalars it is.
#[derive(Drop)]
pub struct Numbering {
    first: u32,
    names: Vec<Option<u32>>,
}

/// The least variable of scalars.
fn least_variable(scalars: &[Scalar]) -> u32
    ensures { (x : ℕ) (s : declared-scalar.Scalar) → slice_get scalars.now x ≡ Some s → result ≤ s.var.0 }
{
    let mut least = u32::MAX;
    for scalar in scalars {
        least = least.min(scalar.var.0);
    }
    least
}

/// The greatest variable of scalars.
fn greatest_variable(scalars: &[Scalar]) -> u32
    ensures { (x : ℕ) (s : declared-scalar.Scalar) → slice_get scalars.now x ≡ Some s → s.var.0 ≤ result }
{
    let mut greatest = 0u32;
    for scalar in scalars {
        greatest = greatest.max(scalar.var.0);
    }
    greatest
}

/// A variable is this scalar, if it is one of so many.
fn put_scalar(names: &mut Vec<Option<u32>>, variable: u32, scalar: u32)
    ensures { names.new.items ≡ slice_set names.old.items variable (Some scalar) }
{
    if (variable as usize) < names.len() {
        names[variable as usize] = Some(scalar);
    }
}

impl Numbering {
    /// The numbers of scalars, which stand by position.
    pub fn new(alloc: Global, scalars: &[Scalar]) -> Result<Numbering, AllocError>
        requires few { length scalars.now < 2 ^ 32 }
        requires different { AreDistinctVariables scalars.now }
        ensures numbered { IfOk result (λ made. AreNumbered made scalars.now) }
        ensures only { IfOk result (λ made. (variable x : ℕ) → scalar_in made variable ≡ Some x
            → IsNumberOf scalars.now variable x) }
    {
        let first = least_variable(scalars);
        let last = greatest_variable(scalars);
        let count = (last as usize).saturating_sub(first as usize) + 1;
        let mut names = vec![in alloc; None; count]?;
        for name in 0..scalars.len() {
            let variable = scalars[name].var.0.saturating_sub(first);
            put_scalar(&mut names, variable, name as u32);
        }
        Ok(Numbering { first, names })
    }

    /// The scalar that a variable is, if it is one of the function.
    pub fn scalar_of(&self, var: Var) -> Option<u32>
        ensures { result ≡ scalar_in self.now var.0 }
    {
        if var.0 < self.first {
            return None;
        }
        match self.names.get((var.0 - self.first) as usize) {
            Some(found) => *found,
            None => None,
        }
    }
}
