//! Problems over the graph of a function.

ghost use Rattle.std.specs.Prelude.{◌≡◌, ◌+◌, ◌*◌, ◌<◌, ◌≤◌, ◌^◌, ◌++◌, ◌↔◌, true, IfOk, OnOk, length, map};
ghost use Rattle.graph_core.specs.Graphs.{block_view, end_view, graph_view};
ghost use Rattle.graph_core.specs.Uses.{targets_of};
ghost use Rattle.graph_solve.specs.GraphFlow.{AreFlow, AreTargetsWithin, edge_count, edge_from, graph_flow, is_return, lead_within, leads_within};
ghost use Rattle.graph_solve_problem.specs.Solution.{IsSolution};
ghost use Rattle.graph_solve.specs.Solved.{ends_of, starts_of};
ghost use Rattle.graph_solve.specs.Work.{AreTables};

use crate::solved_rows::SolvedRows;
use crate::solving::{Tables, solve_tables, tables_of};
use graph_core::{Block, End, Graph};
use graph_solve_problem::{Edge, FlowGraph, Problem, Solution, Steps, solve_flow_plain};
use std::alloc::{AllocError, Global};
use std::marker::Brand;
use std::sync::ledger::{Blank, Ledger};

/// Whether the function ends there.
fn returns(end: &End) -> bool
    ensures { result ≡ is_return (end_view end.now) }
{
    match end {
        End::Return(_) => true,
        End::Jump(_) | End::Branch { .. } => false,
    }
}

/// Appends the edges from a block with this end.
fn push_edges(from: u32, end: &End, edges: &mut Vec<Edge>) -> Result<(), AllocError>
    ensures { OnOk result (edges.new.items ≡ edges.old.items ++ map (edge_from from) (targets_of (end_view end.now))) }
{
    let targets = end.targets();
    for target in targets.as_slice() {
        edges.push(Edge { from, to: target.0 })?;
    }
    Ok(())
}

/// The blocks of a graph, and the edges between them.
pub fn flow_graph(alloc: Global, graph: &Graph) -> Result<FlowGraph, AllocError>
    requires { length graph.now.blocks.items ≤ 2 ^ 32 }
    ensures are { IfOk result (λ flow.
        AreFlow (graph_view graph.now) (length graph.now.blocks.items) flow.ends.items flow.edges.items) }
    ensures count { IfOk result (λ flow. length flow.edges.items ≡ edge_count (graph_view graph.now)) }
{
    let mut ends = Vec::new(alloc);
    let mut edges = Vec::new(alloc);
    for (from, block) in graph.blocks.iter().enumerate() {
        ends.push(returns(&block.end))?;
        push_edges(from as u32, &block.end, &mut edges)?;
    }
    Ok(FlowGraph { ends, edges })
}

/// Whether the end names blocks below this number alone.
fn end_leads_within(end: &End, blocks: usize) -> bool
    ensures { result ≡ leads_within blocks (targets_of (end_view end.now)) }
{
    match end {
        End::Return(_) => true,
        End::Jump(label) => (label.0 as usize) < blocks,
        End::Branch {
            then,
            otherwise,
            ..
        } => (then.0 as usize) < blocks && (otherwise.0 as usize) < blocks,
    }
}

/// Whether the ends of the blocks name these blocks alone.
fn blocks_lead_within(blocks: &[Block]) -> bool
    ensures { result ≡ lead_within (length blocks.now) (map block_view blocks.now) }
{
    for block in blocks {
        if !end_leads_within(&block.end, blocks.len()) {
            return false;
        }
    }
    true
}

/// Whether each end names blocks of the graph.
pub fn targets_are_within(graph: &Graph) -> bool
    ensures { (result ≡ true) ↔ AreTargetsWithin (graph_view graph.now) }
{
    let within = blocks_lead_within(&graph.blocks);
    within
}

/// At the start and at the end of each block of a function, with the blocks and edges of this graph, the meet over all
/// paths of the problem's direction
/// that lead there, from the problem's rows.
pub fn solve_in_tables<P: Problem, L: Ledger>(
    alloc: Global,
    graph: &Graph,
    flow: &FlowGraph,
    problem: &P,
    tables: Tables,
    steps: &mut Steps<L>,
) -> Result<SolvedRows, AllocError>
    requires few { length graph.now.blocks.items < 2 ^ 31 }
    requires within { AreTargetsWithin (graph_view graph.now) }
    requires flow { AreFlow (graph_view graph.now) (length graph.now.blocks.items) flow.now.ends.items
        flow.now.edges.items }
    requires count { length flow.now.edges.items ≡ edge_count (graph_view graph.now) }
    requires tables { AreTables (P.flow problem.now) flow.now tables }
    ensures solution { IfOk result (λ solved.
        IsSolution (P.flow problem.now) (graph_flow (graph_view graph.now)) (length graph.now.blocks.items)
        (starts_of solved) (ends_of solved)) }
    ensures blocks { IfOk result (λ solved. solved.blocks ≡ length graph.now.blocks.items) }
    ensures width { IfOk result (λ solved. solved.width ≡ (P.flow problem.now).width) }
    ensures steps { OnOk result
        (steps.new ≤ steps.old + edge_count (graph_view graph.now) * ((P.flow problem.now).height + 1)) }
{
    let solved = solve_tables(alloc, flow, problem, tables, steps)?;
    Ok(solved)
}

/// At the start and at the end of each block of a function the meet over all paths of the problem's direction that lead
/// there, in rows of bits,
/// in time linear in their words where no loop is deep. A step is counted for each meet of two values.
pub fn solve_in_rows<P: Problem, L: Ledger>(
    alloc: Global,
    graph: &Graph,
    problem: &P,
    steps: &mut Steps<L>,
) -> Result<SolvedRows, AllocError>
    requires few { length graph.now.blocks.items < 2 ^ 31 }
    requires within { AreTargetsWithin (graph_view graph.now) }
    ensures solution { IfOk result (λ solved.
        IsSolution (P.flow problem.now) (graph_flow (graph_view graph.now)) (length graph.now.blocks.items)
        (starts_of solved) (ends_of solved)) }
    ensures blocks { IfOk result (λ solved. solved.blocks ≡ length graph.now.blocks.items) }
    ensures width { IfOk result (λ solved. solved.width ≡ (P.flow problem.now).width) }
    ensures steps { OnOk result
        (steps.new ≤ steps.old + edge_count (graph_view graph.now) * ((P.flow problem.now).height + 1)) }
{
    let flow = flow_graph(alloc, graph)?;
    let tables = tables_of(alloc, &flow, problem)?;
    let solved = solve_in_tables(alloc, graph, &flow, problem, tables, steps)?;
    Ok(solved)
}

/// At the start and at the end of each block of a function the meet over all paths of the problem's direction that lead
/// there. A step is counted
/// for each meet of two values.
pub fn solve_counted<P: Problem, L: Ledger>(
    alloc: Global,
    graph: &Graph,
    problem: &P,
    steps: &mut Steps<L>,
) -> Result<Solution, AllocError>
    requires few { length graph.now.blocks.items < 2 ^ 31 }
    requires within { AreTargetsWithin (graph_view graph.now) }
    ensures solution { IfOk result (λ solution.
        IsSolution (P.flow problem.now) (graph_flow (graph_view graph.now)) (length graph.now.blocks.items)
        solution.starts.items solution.ends.items) }
    ensures steps { OnOk result
        (steps.new ≤ steps.old + edge_count (graph_view graph.now) * ((P.flow problem.now).height + 1)) }
{
    let solved = solve_in_rows(alloc, graph, problem, steps)?;
    let solution = solved.solution(alloc)?;
    Ok(solution)
}

/// The same on a ledger of its own.
fn solve_on<P: Problem, L: Ledger>(
    alloc: Global,
    graph: &Graph,
    problem: &P,
    blank: Blank,
) -> Result<Solution, AllocError>
    requires few { length graph.now.blocks.items < 2 ^ 31 }
    requires within { AreTargetsWithin (graph_view graph.now) }
    requires name { blank.name ≡ L.name }
    requires parts { blank.parts ≡ L.parts }
    requires some { 0 < blank.parts }
    ensures { IfOk result (λ solution.
        IsSolution (P.flow problem.now) (graph_flow (graph_view graph.now)) (length graph.now.blocks.items)
        solution.starts.items solution.ends.items) }
{
    let mut steps = Steps::<L>::new(blank);
    let solution = solve_counted(alloc, graph, problem, &mut steps)?;
    Ok(solution)
}

/// At the start and at the end of each block of a function the meet over all paths of the problem's direction that lead
/// there.
pub fn solve<P: Problem>(alloc: Global, graph: &Graph, problem: &P) -> Result<Solution, AllocError>
    requires few { length graph.now.blocks.items < 2 ^ 31 }
    requires within { AreTargetsWithin (graph_view graph.now) }
    ensures { IfOk result (λ solution.
        IsSolution (P.flow problem.now) (graph_flow (graph_view graph.now)) (length graph.now.blocks.items)
        solution.starts.items solution.ends.items) }
{
    let solution = solve_on::<P, Brand>(alloc, graph, problem, Blank::new(1))?;
    Ok(solution)
}

/// The same by ordered sets, round by round until nothing changes: for tests.
pub fn solve_plain<P: Problem>(
    alloc: Global,
    graph: &Graph,
    problem: &P,
) -> Result<Solution, AllocError>
    requires few { length graph.now.blocks.items ≤ 2 ^ 32 }
    requires within { AreTargetsWithin (graph_view graph.now) }
    ensures { IfOk result (λ solution.
        IsSolution (P.flow problem.now) (graph_flow (graph_view graph.now)) (length graph.now.blocks.items)
        solution.starts.items solution.ends.items) }
{
    let flow = flow_graph(alloc, graph)?;
    let solution = solve_flow_plain(alloc, &flow, problem)?;
    Ok(solution)
}
