//! The bits that a problem tells.

ghost use Rattle.std.specs.Prelude.{◌≡◌, ◌<◌};
ghost use Rattle.std.specs.FinSet.{contains};
ghost use Rattle.graph_solve.specs.First.{first_bit};
ghost use Rattle.graph_solve_problem.specs.Solution.{control_flow};

use crate::tables::Bits;
use graph_solve_problem::{Facts, FlowGraph, Problem, begins};

/// For each block the facts that it keeps.
#[derive(Drop)]
pub(crate) struct KeptBits<'a, P: Problem> {
    pub problem: &'a P,
}

impl<'a, P: Problem> Bits for KeptBits<'a, P> {
    ghost bits = { λ all. (P.flow all.problem.now).kept };

    ghost within = { λ all row bit. bit < (P.flow all.problem.now).width };

    fn bit(&self, row: u32, bit: u32) -> bool {
        self.problem.kept(row, bit)
    }
}

/// For each block the facts that it makes.
#[derive(Drop)]
pub(crate) struct WrittenBits<'a, P: Problem> {
    pub problem: &'a P,
}

impl<'a, P: Problem> Bits for WrittenBits<'a, P> {
    ghost bits = { λ all. (P.flow all.problem.now).written };

    ghost within = { λ all row bit. bit < (P.flow all.problem.now).width };

    fn bit(&self, row: u32, bit: u32) -> bool {
        self.problem.written(row, bit)
    }
}

/// For each block its first value: the edge's where paths begin, and else that of which nothing is known. Further rows
/// may be anything.
#[derive(Drop)]
pub(crate) struct FirstBits<'a> {
    pub graph: &'a FlowGraph,
    pub forward: bool,
    pub unites: bool,
    pub edge: &'a Facts,
}

impl<'a> Bits for FirstBits<'a> {
    ghost bits = { λ all. first_bit all.graph.now.ends.items all.forward all.unites all.edge.now };

    ghost within = { λ all row bit. Unit {0} };

    fn bit(&self, row: u32, bit: u32) -> bool {
        let row = row as usize;
        if row < self.graph.ends.len() && begins(self.graph, self.forward, row) {
            self.edge.has(bit)
        } else {
            !self.unites
        }
    }
}
