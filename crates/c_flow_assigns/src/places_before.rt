//! How many places stand before a position, without a list of them: each takes one from a number, which ends at zero.

ghost use Rattle.std.specs.Prelude.{◌≡◌, ◌-◌, map, option_map};
ghost use Rattle.c_tree.specs.Programs.{function_view, program_view};
ghost use Rattle.c_tree.specs.TypedStatements.{declared_view, start_view, statement_view, statements_view, step_view};
ghost use Rattle.c_flow_assigns.specs.PlacesBefore.{close_before, declarators_before, function_before, places_before, spot_before, start_before, statement_before, statements_before, step_before};

use c_places::reaches_end;
use c_tree::{
    Declared, Program, TypedFunction, TypedStart, TypedStatement, TypedStatements, TypedStep,
};
use debug_records::Spot;

/// What is left of a number after a spot that may stand before the position.
fn after_spot(at: u32, spot: Spot, number: u32) -> u32
    ensures { result ≡ number - spot_before at spot }
{
    if spot.at < at {
        number.saturating_sub(1)
    } else {
        number
    }
}

/// What is left of a number after the places of declarators.
fn after_declarators(at: u32, all: &[Declared], number: u32) -> u32
    ensures { result ≡ number - declarators_before at (map declared_view all.now) }
{
    let mut left = number;
    for declared in all {
        left = after_spot(at, declared.spot, left);
    }
    left
}

/// What is left of a number after the first part of a `for`.
fn after_start(at: u32, begin: &TypedStart, number: u32) -> u32
    ensures { result ≡ number - start_before at (start_view begin.now) }
{
    match begin {
        TypedStart::Nothing => number,
        TypedStart::Expression { spot, .. } => after_spot(at, *spot, number),
        TypedStart::Declaration(all) => after_declarators(at, all, number),
    }
}

/// What is left of a number after the step of a `for`.
fn after_step(at: u32, step: &Option<TypedStep>, number: u32) -> u32
    ensures { result ≡ number - step_before at (option_map step_view step.now) }
{
    match step {
        None => number,
        Some(step) => after_spot(at, step.spot, number),
    }
}

/// What is left of a number after the places of a statement.
#[cycle(statements)]
fn after_statement(at: u32, statement: &TypedStatement, number: u32) -> u32
    ensures { result ≡ number - statement_before at (statement_view statement.now) }
{
    match statement {
        TypedStatement::Block(all) => after_statements(at, all, number),
        TypedStatement::Declaration(all) => after_declarators(at, all, number),
        TypedStatement::Empty(spot)
        | TypedStatement::Expression { spot, .. }
        | TypedStatement::Break(spot)
        | TypedStatement::Continue(spot)
        | TypedStatement::Return { spot, .. } => after_spot(at, *spot, number),
        TypedStatement::If { spot, then, .. } => {
            let left = after_spot(at, *spot, number);
            after_statement(at, then, left)
        }
        TypedStatement::IfElse {
            spot,
            then,
            otherwise,
            ..
        } => {
            let left = after_statement(at, then, after_spot(at, *spot, number));
            after_statement(at, otherwise, left)
        }
        TypedStatement::While { spot, body, .. } | TypedStatement::DoWhile { body, spot, .. } => {
            let left = after_spot(at, *spot, number);
            after_statement(at, body, left)
        }
        TypedStatement::For {
            start,
            spot,
            step,
            body,
            ..
        } => {
            let left = after_spot(at, *spot, after_start(at, start, number));
            after_statement(at, body, after_step(at, step, left))
        }
        TypedStatement::Switch { spot, body, .. } => {
            let left = after_spot(at, *spot, number);
            after_statements(at, body, left)
        }
    }
}

/// What is left of a number after the places of the statements of a block.
#[cycle(statements)]
fn after_statements(at: u32, all: &TypedStatements, number: u32) -> u32
    ensures { result ≡ number - statements_before at (statements_view all.now) }
{
    let mut rest = all;
    let mut left = number;
    loop {
        match rest {
            TypedStatements::End => return left,
            TypedStatements::More(first, others) => {
                left = after_statement(at, first, left);
                rest = others;
            }
            TypedStatements::Case(_, others) | TypedStatements::Default(others) => rest = others,
        }
    }
}

/// What is left of a number after a closing brace, which may be a place.
fn after_close(at: u32, function: &TypedFunction, number: u32) -> u32
    ensures { result ≡ number - close_before at (function_view function.now) }
{
    if reaches_end(&function.body) {
        after_spot(at, function.close, number)
    } else {
        number
    }
}

/// What is left of a number after the places of a function.
fn after_function(at: u32, function: &TypedFunction, number: u32) -> u32
    ensures { result ≡ number - function_before at (function_view function.now) }
{
    let left = after_spot(at, function.spot, number);
    after_close(at, function, after_statements(at, &function.body, left))
}

/// What is left of a number after those places of a program that stand before a position; zero where they are more.
pub fn after_places(at: u32, program: &Program, number: u32) -> u32
    ensures { result ≡ number - places_before at (program_view program.now) }
{
    let mut left = number;
    for function in &program.functions {
        left = after_function(at, function, left);
    }
    left
}
