//! Problems of data flow.

ghost use Rattle.std.specs.Prelude.{◌≡◌, ◌<◌, IfOk};
ghost use Rattle.graph_solve_problem.specs.Problem.{DataFlow};

use crate::facts::Facts;
use std::alloc::{AllocError, Global};

/// Facts that flow through the blocks of a graph, and what each block makes of them.
pub trait Problem {
    /// The problem, with its laws.
    ghost flow: { Self → DataFlow };

    /// Whether facts flow as execution goes, or against it.
    fn forward(&self) -> bool
        ensures { result ≡ (flow self.now).forward };

    /// How often a value can fall at most.
    fn height(&self) -> u32
        ensures { result ≡ (flow self.now).height };

    /// A number below which all facts lie.
    fn width(&self) -> u32
        ensures { result ≡ (flow self.now).width };

    /// Whether the meet is union, or else intersection.
    fn unites(&self) -> bool
        ensures { result ≡ (flow self.now).unites };

    /// Whether a block keeps a fact that it is given.
    fn kept(&self, block: u32, fact: u32) -> bool
        requires { fact < (flow self.now).width }
        ensures { result ≡ (flow self.now).kept block fact };

    /// Whether a block makes a fact of its own.
    fn written(&self, block: u32, fact: u32) -> bool
        requires { fact < (flow self.now).width }
        ensures { result ≡ (flow self.now).written block fact };

    /// The value at the entry, or at the function's ends where the problem is not forward.
    fn edge(&self, alloc: Global) -> Result<Facts, AllocError>
        ensures { IfOk result (λ value. value ≡ (flow self.now).edge) };

    /// The value of which nothing is known.
    fn top(&self, alloc: Global) -> Result<Facts, AllocError>
        ensures { IfOk result (λ value. value ≡ (flow self.now).top) };

    /// What is left of two values where paths meet.
    fn meet(&self, alloc: Global, a: &Facts, b: &Facts) -> Result<Facts, AllocError>
        requires left { (flow self.now).IsValue a.now }
        requires right { (flow self.now).IsValue b.now }
        ensures { IfOk result (λ value. value ≡ (flow self.now).meet a.now b.now) };

    /// What a block makes of a value.
    fn transfer(&self, alloc: Global, block: u32, value: &Facts) -> Result<Facts, AllocError>
        requires { (flow self.now).IsValue value.now }
        ensures { IfOk result (λ made. made ≡ (flow self.now).transfer block value.now) };
}
