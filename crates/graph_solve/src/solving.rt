//! The solution of a problem over a graph, by rows of bits.

ghost use Rattle.std.specs.Prelude.{◌≡◌, ◌+◌, ◌*◌, ◌<◌, ◌≤◌, ◌^◌, IfOk, OnOk, length};
ghost use Rattle.graph_solve.specs.First.{first_bit};
ghost use Rattle.graph_solve.specs.Rows.{table};
ghost use Rattle.graph_solve_problem.specs.Solution.{AreWithin, IsSolution, control_flow};
ghost use Rattle.graph_solve.specs.Solved.{ends_of, starts_of};
ghost use Rattle.graph_solve.specs.Work.{AreTables};

use crate::begin::first_work;
use crate::first::{FirstBits, KeptBits, WrittenBits};
use crate::solved_rows::SolvedRows;
use crate::tables::table_of;
use crate::task::task_of;
use crate::work::settle;
use bit_rows::Rows;
use graph_solve_problem::{FlowGraph, Problem, Steps};
use std::alloc::{AllocError, Global};
use std::sync::ledger::Ledger;

/// The rows of a problem over a graph.
#[derive(Drop)]
pub struct Tables {
    /// For each block the facts that it keeps.
    pub kept: Rows,
    /// For each block the facts that it makes.
    pub written: Rows,
    /// For each block its first value, and as many further rows.
    pub first: Rows,
}

/// The rows of the first values of a problem.
fn first_rows<P: Problem>(
    alloc: Global,
    graph: &FlowGraph,
    problem: &P,
    blocks: u32,
) -> Result<Rows, AllocError>
    requires blocks { blocks ≡ length graph.now.ends.items }
    requires few { length graph.now.ends.items < 2 ^ 31 }
    ensures { IfOk result (λ rows.
        rows ≡ table (length graph.now.ends.items + length graph.now.ends.items) (P.flow problem.now).width
        (first_bit graph.now.ends.items (P.flow problem.now).forward (P.flow problem.now).unites
        (P.flow problem.now).edge)) }
{
    let edge = problem.edge(alloc)?;
    let bits = FirstBits {
        graph,
        forward: problem.forward(),
        unites: problem.unites(),
        edge: &edge,
    };
    let rows = table_of(alloc, &bits, 2 * blocks, problem.width())?;
    Ok(rows)
}

/// The rows of a problem, bit by bit as the problem tells them.
pub(crate) fn tables_of<P: Problem>(
    alloc: Global,
    graph: &FlowGraph,
    problem: &P,
) -> Result<Tables, AllocError>
    requires { length graph.now.ends.items < 2 ^ 31 }
    ensures { IfOk result (AreTables (P.flow problem.now) graph.now) }
{
    let blocks = graph.ends.len() as u32;
    let width = problem.width();
    Ok(Tables {
        kept: table_of(alloc, &KeptBits { problem }, blocks, width)?,
        written: table_of(alloc, &WrittenBits { problem }, blocks, width)?,
        first: first_rows(alloc, graph, problem, blocks)?,
    })
}

/// At the start and at the end of each block the meet over all paths of the problem's direction that lead there, as
/// rows of bits, from the problem's
/// rows. A step is counted for each meet of two rows.
pub(crate) fn solve_tables<P: Problem, L: Ledger>(
    alloc: Global,
    graph: &FlowGraph,
    problem: &P,
    tables: Tables,
    steps: &mut Steps<L>,
) -> Result<SolvedRows, AllocError>
    requires few { length graph.now.ends.items < 2 ^ 31 }
    requires within { AreWithin (length graph.now.ends.items) graph.now.edges.items }
    requires tables { AreTables (P.flow problem.now) graph.now tables }
    ensures solution { IfOk result (λ solved.
        IsSolution (P.flow problem.now) (control_flow graph.now) (length graph.now.ends.items) (starts_of solved)
        (ends_of solved)) }
    ensures blocks { IfOk result (λ solved. solved.blocks ≡ length graph.now.ends.items) }
    ensures width { IfOk result (λ solved. solved.width ≡ (P.flow problem.now).width) }
    ensures steps { OnOk result
        (steps.new ≤ steps.old + length graph.now.edges.items * ((P.flow problem.now).height + 1)) }
{
    let blocks = graph.ends.len() as u32;
    let Tables {
        kept,
        written,
        first,
    } = tables;
    let task = task_of(alloc, graph, problem, blocks, kept, written)?;
    let mut work = first_work(alloc, graph, problem, &task, first)?;
    settle(problem, graph, &task, &mut work, steps)?;
    Ok(SolvedRows {
        rows: work.values,
        blocks,
        width: problem.width(),
        forward: problem.forward(),
    })
}

/// At the start and at the end of each block the meet over all paths of the problem's direction that lead there, as
/// rows of bits. A step is counted for each meet of two rows.
pub fn solve_rows<P: Problem, L: Ledger>(
    alloc: Global,
    graph: &FlowGraph,
    problem: &P,
    steps: &mut Steps<L>,
) -> Result<SolvedRows, AllocError>
    requires few { length graph.now.ends.items < 2 ^ 31 }
    requires within { AreWithin (length graph.now.ends.items) graph.now.edges.items }
    ensures solution { IfOk result (λ solved.
        IsSolution (P.flow problem.now) (control_flow graph.now) (length graph.now.ends.items) (starts_of solved)
        (ends_of solved)) }
    ensures blocks { IfOk result (λ solved. solved.blocks ≡ length graph.now.ends.items) }
    ensures width { IfOk result (λ solved. solved.width ≡ (P.flow problem.now).width) }
    ensures steps { OnOk result
        (steps.new ≤ steps.old + length graph.now.edges.items * ((P.flow problem.now).height + 1)) }
{
    let tables = tables_of(alloc, graph, problem)?;
    solve_tables(alloc, graph, problem, tables, steps)
}
