//! Where execution may go, by the positions of places.

ghost use Rattle.std.specs.Prelude.{◌≡◌, ◌++◌, IfOk, OnOk, map, option_map};
ghost use Rattle.c_tree.specs.Programs.{function_view, program_view};
ghost use Rattle.c_tree.specs.TypedExpressions.{rvalue_view};
ghost use Rattle.c_tree.specs.TypedStatements.{declared_view, start_view, statement_view, statements_view, step_view};
ghost use Rattle.c_flow.specs.Flow as definition;
ghost use Rattle.c_flow.specs.Flow.{edge, flow_of, flow_of_all, flow_of_declarators, flow_of_function, flow_of_program, flow_of_start, flow_of_step, flow_out, flow_past, flow_to_labels, round_of, ways_of_body, within_loop};

use crate::beginning::{start, start_of_all, start_of_declarators};
use crate::edge::{Edge, Ways};
use c_places::{has_default, reaches_end};
use c_tree::{
    Declared, Program, Rvalue, TypedFunction, TypedStart, TypedStatement, TypedStatements,
    TypedStep,
};
use std::alloc::{AllocError, Global};

// What a call gives; its failure is the function's own.
macro_rules! given {
    ($call:expr) => {
        match $call {
            Ok(value) => value,
            Err(fault) => return Err(fault),
        }
    };
}

/// Adds the edge from a place to another, if there is one.
fn add_edge(from: u32, to: Option<u32>, found: &mut Vec<Edge>) -> Result<(), AllocError>
    ensures { OnOk result (found.new.items ≡ found.old.items ++ edge from to) }
{
    match to {
        None => Ok(()),
        Some(to) => {
            found.push(Edge { from, to })?;
            Ok(())
        }
    }
}

/// Adds the edges of declarators.
fn add_declarators(
    all: &[Declared],
    next: Option<u32>,
    found: &mut Vec<Edge>,
) -> Result<(), AllocError>
    ensures { OnOk result (found.new.items ≡ found.old.items ++ flow_of_declarators (map declared_view all.now) next) }
{
    for i in 0..all.len() {
        add_edge(
            all[i].spot.at,
            start_of_declarators(&all[i + 1..], next),
            found,
        )?;
    }
    Ok(())
}

/// Adds the edges of the first part of a `for`.
fn add_start(begin: &TypedStart, head: u32, found: &mut Vec<Edge>) -> Result<(), AllocError>
    ensures { OnOk result (found.new.items ≡ found.old.items ++ flow_of_start (start_view begin.now) head) }
{
    match begin {
        TypedStart::Nothing => Ok(()),
        TypedStart::Expression { spot, .. } => add_edge(spot.at, Some(head), found),
        TypedStart::Declaration(all) => add_declarators(all, Some(head), found),
    }
}

/// What follows the body of a `for` whose condition or head stands at a position: its step, or else that.
pub fn round_of(step: &Option<TypedStep>, head: u32) -> u32
    ensures { result ≡ round_of (option_map step_view step.now) head }
{
    match step {
        None => head,
        Some(step) => step.spot.at,
    }
}

/// Adds the edge of the step of a `for`.
fn add_step(step: &Option<TypedStep>, head: u32, found: &mut Vec<Edge>) -> Result<(), AllocError>
    ensures { OnOk result (found.new.items ≡ found.old.items ++ flow_of_step (option_map step_view step.now) head) }
{
    match step {
        None => Ok(()),
        Some(step) => add_edge(step.spot.at, Some(head), found),
    }
}

/// Adds the edge by which the condition of a `for` leads out of it.
fn add_way_out(
    condition: &Option<Rvalue>,
    head: u32,
    next: Option<u32>,
    found: &mut Vec<Edge>,
) -> Result<(), AllocError>
    ensures { OnOk result
        (found.new.items ≡ found.old.items ++ flow_out (option_map rvalue_view condition.now) head next) }
{
    match condition {
        None => Ok(()),
        Some(_) => add_edge(head, next, found),
    }
}

/// Adds the edges from a `switch` to its labels.
fn add_labels(
    from: u32,
    all: &TypedStatements,
    next: Option<u32>,
    found: &mut Vec<Edge>,
) -> Result<(), AllocError>
    ensures { OnOk result (found.new.items ≡ found.old.items ++ flow_to_labels from (statements_view all.now) next) }
{
    let mut left = all;
    loop {
        match left {
            TypedStatements::End => return Ok(()),
            TypedStatements::More(_, rest) => left = rest,
            TypedStatements::Case(_, rest) | TypedStatements::Default(rest) => {
                add_edge(from, start_of_all(rest, next), found)?;
                left = rest;
            }
        }
    }
}

/// Adds the edge from a `switch` to what follows it.
fn add_way_past(
    from: u32,
    all: &TypedStatements,
    next: Option<u32>,
    found: &mut Vec<Edge>,
) -> Result<(), AllocError>
    ensures { OnOk result (found.new.items ≡ found.old.items ++ flow_past from (statements_view all.now) next) }
{
    if has_default(all) {
        return Ok(());
    }
    add_edge(from, next, found)
}

/// Adds the edges of a loop whose condition stands at a position, before those of its body.
fn add_condition(
    at: u32,
    body: &TypedStatement,
    next: Option<u32>,
    found: &mut Vec<Edge>,
) -> Result<(), AllocError>
    ensures { OnOk result
        (found.new.items
        ≡ found.old.items ++ edge at (definition.start_place (statement_view body.now) (Some at)) ++ edge at next) }
{
    add_edge(at, start(body, Some(at)), found)?;
    add_edge(at, next, found)
}

/// The ways within the body of a loop whose next round begins at a position.
pub fn within_loop(round: u32, ways: Ways) -> Ways
    ensures { result ≡ within_loop round ways }
{
    Ways {
        next: Some(round),
        by_break: ways.next,
        by_continue: Some(round),
    }
}

/// Adds the edges of a statement.
#[cycle(flow)]
fn add_statement(
    ways: Ways,
    statement: &TypedStatement,
    found: &mut Vec<Edge>,
) -> Result<(), AllocError>
    ensures { OnOk result (found.new.items ≡ found.old.items ++ flow_of ways (statement_view statement.now)) }
{
    match statement {
        TypedStatement::Block(all) => add_statements(ways, all, found),
        TypedStatement::Declaration(all) => add_declarators(all, ways.next, found),
        TypedStatement::Empty(spot) | TypedStatement::Expression { spot, .. } => {
            add_edge(spot.at, ways.next, found)
        }
        TypedStatement::If { spot, then, .. } => {
            given!(add_edge(spot.at, start(then, ways.next), found));
            given!(add_edge(spot.at, ways.next, found));
            add_statement(ways, then, found)
        }
        TypedStatement::IfElse {
            spot,
            then,
            otherwise,
            ..
        } => {
            given!(add_edge(spot.at, start(then, ways.next), found));
            given!(add_edge(spot.at, start(otherwise, ways.next), found));
            given!(add_statement(ways, then, found));
            add_statement(ways, otherwise, found)
        }
        TypedStatement::While { spot, body, .. } | TypedStatement::DoWhile { body, spot, .. } => {
            given!(add_condition(spot.at, body, ways.next, found));
            add_statement(within_loop(spot.at, ways), body, found)
        }
        TypedStatement::For {
            start: begin,
            spot,
            condition,
            step,
            body,
        } => {
            let round = round_of(step, spot.at);
            given!(add_start(begin, spot.at, found));
            given!(add_edge(spot.at, start(body, Some(round)), found));
            given!(add_way_out(condition, spot.at, ways.next, found));
            given!(add_step(step, spot.at, found));
            add_statement(within_loop(round, ways), body, found)
        }
        TypedStatement::Switch { spot, body, .. } => {
            given!(add_labels(spot.at, body, ways.next, found));
            given!(add_way_past(spot.at, body, ways.next, found));
            let within = Ways {
                next: ways.next,
                by_break: ways.next,
                by_continue: ways.by_continue,
            };
            add_statements(within, body, found)
        }
        TypedStatement::Break(spot) => add_edge(spot.at, ways.by_break, found),
        TypedStatement::Continue(spot) => add_edge(spot.at, ways.by_continue, found),
        TypedStatement::Return { .. } => Ok(()),
    }
}

/// Adds the edges of the statements of a block.
#[cycle(flow)]
fn add_statements(
    ways: Ways,
    all: &TypedStatements,
    found: &mut Vec<Edge>,
) -> Result<(), AllocError>
    ensures { OnOk result (found.new.items ≡ found.old.items ++ flow_of_all ways (statements_view all.now)) }
{
    let mut left = all;
    loop {
        match left {
            TypedStatements::End => return Ok(()),
            TypedStatements::More(first, rest) => {
                let before = Ways {
                    next: start_of_all(rest, ways.next),
                    by_break: ways.by_break,
                    by_continue: ways.by_continue,
                };
                given!(add_statement(before, first, found));
                left = rest;
            }
            TypedStatements::Case(_, rest) | TypedStatements::Default(rest) => left = rest,
        }
    }
}

/// The ways of a function's body: its closing brace follows it, if flow reaches it.
pub fn ways_of_body(function: &TypedFunction) -> Ways
    ensures { result ≡ ways_of_body (function_view function.now) }
{
    let next = if reaches_end(&function.body) {
        Some(function.close.at)
    } else {
        None
    };
    Ways {
        next,
        by_break: None,
        by_continue: None,
    }
}

/// Adds the edges of a function.
fn add_function(function: &TypedFunction, found: &mut Vec<Edge>) -> Result<(), AllocError>
    ensures { OnOk result (found.new.items ≡ found.old.items ++ flow_of_function (function_view function.now)) }
{
    let ways = ways_of_body(function);
    add_edge(
        function.spot.at,
        start_of_all(&function.body, ways.next),
        found,
    )?;
    add_statements(ways, &function.body, found)
}

/// Where execution may go in a program.
pub fn flow_of_program(alloc: Global, program: &Program) -> Result<Vec<Edge>, AllocError>
    ensures { IfOk result (λ v. v.items ≡ flow_of_program (program_view program.now)) }
{
    let mut found = Vec::new(alloc);
    for function in &program.functions {
        add_function(function, &mut found)?;
    }
    Ok(found)
}
