//! The list of a program's places, in the order of its text.

ghost use Rattle.std.specs.Prelude.{◌≡◌, ◌++◌, ◌∷◌, [], IfOk, OnOk, map, option_map};
ghost use Rattle.c_tree.specs.Programs.{function_view, program_view};
ghost use Rattle.c_tree.specs.TypedExpressions.{rvalue_view};
ghost use Rattle.c_tree.specs.TypedStatements.{declared_view, start_view, statement_view, statements_view, step_view};
ghost use Rattle.c_places.specs.Places.{brought, brought_by_body, brought_by_start, close_of, entry_of, parameters_of, place_view, places_of, places_of_all, places_of_declarators, places_of_function, places_of_head, places_of_program, places_of_start, places_of_step, stop};

use crate::place::Place;
use crate::reaches_end;
use c_tree::{
    Declared, Program, Rvalue, TypedFunction, TypedStart, TypedStatement, TypedStatements,
    TypedStep,
};
use debug_records::Spot;
use std::alloc::{AllocError, Global};

// What a call gives; its failure is the function's own.
macro_rules! given {
    ($call:expr) => {
        match $call {
            Ok(value) => value,
            Err(fault) => return Err(fault),
        }
    };
}

/// Adds a place that is no entry.
fn add_stop(
    alloc: Global,
    function: usize,
    scope: &[usize],
    spot: Spot,
    found: &mut Vec<Place>,
) -> Result<(), AllocError>
    ensures { OnOk result
        (map place_view found.new.items ≡ map place_view found.old.items ++ stop function scope.now spot ∷ []) }
{
    found.push(Place {
        spot,
        function,
        is_entry: false,
        scope: scope.to_vec(alloc)?,
    })?;
    Ok(())
}

/// Brings the variables of declarators into scope.
fn bring(all: &[Declared], scope: &mut Vec<usize>) -> Result<(), AllocError>
    ensures { OnOk result (scope.new.items ≡ scope.old.items ++ map (λ d. d.variable) (map declared_view all.now)) }
{
    for declared in all {
        scope.push(declared.variable as usize)?;
    }
    Ok(())
}

/// Adds the places of declarators, and brings their variables into scope.
fn add_declarators(
    alloc: Global,
    function: usize,
    all: &[Declared],
    scope: &mut Vec<usize>,
    found: &mut Vec<Place>,
) -> Result<(), AllocError>
    ensures places { OnOk result
        (map place_view found.new.items ≡ map place_view found.old.items
        ++ places_of_declarators function scope.old.items (map declared_view all.now)) }
    ensures scope { OnOk result (scope.new.items ≡ scope.old.items ++ map (λ d. d.variable) (map declared_view all.now)) }
{
    for declared in all {
        add_stop(alloc, function, scope, declared.spot, found)?;
        scope.push(declared.variable as usize)?;
    }
    Ok(())
}

/// Adds the places of the first part of a `for`, and brings what it declares into scope.
fn add_start(
    alloc: Global,
    function: usize,
    start: &TypedStart,
    scope: &mut Vec<usize>,
    found: &mut Vec<Place>,
) -> Result<(), AllocError>
    ensures places { OnOk result
        (map place_view found.new.items
        ≡ map place_view found.old.items ++ places_of_start function scope.old.items (start_view start.now)) }
    ensures scope { OnOk result (scope.new.items ≡ scope.old.items ++ brought_by_start (start_view start.now)) }
{
    match start {
        TypedStart::Nothing => Ok(()),
        TypedStart::Expression { spot, .. } => add_stop(alloc, function, scope, *spot, found),
        TypedStart::Declaration(all) => add_declarators(alloc, function, all, scope, found),
    }
}

/// Adds the places of a `for` before its step, and brings what its first part declares into scope.
fn add_head(
    alloc: Global,
    function: usize,
    start: &TypedStart,
    spot: Spot,
    condition: &Option<Rvalue>,
    scope: &mut Vec<usize>,
    found: &mut Vec<Place>,
) -> Result<(), AllocError>
    ensures places { OnOk result
        (map place_view found.new.items ≡ map place_view found.old.items ++ places_of_head function scope.old.items
        (start_view start.now) spot (option_map rvalue_view condition.now)) }
    ensures scope { OnOk result (scope.new.items ≡ scope.old.items ++ brought_by_start (start_view start.now)) }
{
    match condition {
        None => {
            add_stop(alloc, function, scope, spot, found)?;
            add_start(alloc, function, start, scope, found)
        }
        Some(_) => {
            add_start(alloc, function, start, scope, found)?;
            add_stop(alloc, function, scope, spot, found)
        }
    }
}

/// Adds the step of a `for`.
fn add_step(
    alloc: Global,
    function: usize,
    scope: &[usize],
    step: &Option<TypedStep>,
    found: &mut Vec<Place>,
) -> Result<(), AllocError>
    ensures { OnOk result
        (map place_view found.new.items
        ≡ map place_view found.old.items ++ places_of_step function scope.now (option_map step_view step.now)) }
{
    match step {
        None => Ok(()),
        Some(step) => add_stop(alloc, function, scope, step.spot, found),
    }
}

/// Brings into scope what a statement of a block declares for those behind it.
fn bring_by(statement: &TypedStatement, scope: &mut Vec<usize>) -> Result<(), AllocError>
    ensures { OnOk result (scope.new.items ≡ scope.old.items ++ brought (statement_view statement.now)) }
{
    match statement {
        TypedStatement::Declaration(all) => bring(all, scope),
        _ => Ok(()),
    }
}

/// Adds the places of a statement.
#[cycle(listing)]
fn add_statement(
    alloc: Global,
    function: usize,
    scope: &[usize],
    statement: &TypedStatement,
    found: &mut Vec<Place>,
) -> Result<(), AllocError>
    ensures { OnOk result
        (map place_view found.new.items
        ≡ map place_view found.old.items ++ places_of function scope.now (statement_view statement.now)) }
{
    match statement {
        TypedStatement::Block(body) => {
            add_statements(alloc, function, given!(scope.to_vec(alloc)), body, found)
        }
        TypedStatement::Declaration(all) => {
            let mut inner = given!(scope.to_vec(alloc));
            add_declarators(alloc, function, all, &mut inner, found)
        }
        TypedStatement::Empty(spot)
        | TypedStatement::Expression { spot, .. }
        | TypedStatement::Break(spot)
        | TypedStatement::Continue(spot)
        | TypedStatement::Return { spot, .. } => add_stop(alloc, function, scope, *spot, found),
        TypedStatement::If {
            spot,
            then: body,
            ..
        }
        | TypedStatement::While { spot, body, .. } => {
            given!(add_stop(alloc, function, scope, *spot, found));
            add_statement(alloc, function, scope, body, found)
        }
        TypedStatement::IfElse {
            spot,
            then,
            otherwise,
            ..
        } => {
            given!(add_stop(alloc, function, scope, *spot, found));
            given!(add_statement(alloc, function, scope, then, found));
            add_statement(alloc, function, scope, otherwise, found)
        }
        TypedStatement::DoWhile { body, spot, .. } => {
            given!(add_statement(alloc, function, scope, body, found));
            add_stop(alloc, function, scope, *spot, found)
        }
        TypedStatement::For {
            start,
            spot,
            condition,
            step,
            body,
        } => {
            let mut inner = given!(scope.to_vec(alloc));
            given!(add_head(alloc, function, start, *spot, condition, &mut inner, found));
            given!(add_step(alloc, function, inner.as_slice(), step, found));
            add_statement(alloc, function, inner.as_slice(), body, found)
        }
        TypedStatement::Switch { spot, body, .. } => {
            given!(add_stop(alloc, function, scope, *spot, found));
            add_statements(alloc, function, given!(scope.to_vec(alloc)), body, found)
        }
    }
}

/// Adds the places of the statements of a block.
#[cycle(listing)]
fn add_statements(
    alloc: Global,
    function: usize,
    outer: Vec<usize>,
    all: &TypedStatements,
    found: &mut Vec<Place>,
) -> Result<(), AllocError>
    ensures { OnOk result
        (map place_view found.new.items
        ≡ map place_view found.old.items ++ places_of_all function outer.items (statements_view all.now)) }
{
    let mut scope = outer;
    let mut left = all;
    loop {
        match left {
            TypedStatements::End => return Ok(()),
            TypedStatements::More(first, rest) => {
                given!(add_statement(alloc, function, scope.as_slice(), first, found));
                given!(bring_by(first, &mut scope));
                left = rest;
            }
            TypedStatements::Case(_, rest) | TypedStatements::Default(rest) => left = rest,
        }
    }
}

/// The parameters of a function, by number.
#[tactic(auto, using(crate::proofs::Parameters::no_number))]
fn parameters(alloc: Global, function: &TypedFunction) -> Result<Vec<usize>, AllocError>
    ensures { IfOk result (λ v. v.items ≡ parameters_of (function_view function.now)) }
{
    let mut found = Vec::new(alloc);
    for i in 0..function.parameters as usize {
        found.push(function.first_variable as usize + i)?;
    }
    Ok(found)
}

/// Brings into scope what the outermost block of a function's body declares.
fn bring_by_body(body: &TypedStatements, scope: &mut Vec<usize>) -> Result<(), AllocError>
    ensures { OnOk result (scope.new.items ≡ scope.old.items ++ brought_by_body (statements_view body.now)) }
{
    let mut left = body;
    loop {
        match left {
            TypedStatements::End => return Ok(()),
            TypedStatements::More(first, rest) => {
                bring_by(first, scope)?;
                left = rest;
            }
            TypedStatements::Case(_, rest) | TypedStatements::Default(rest) => left = rest,
        }
    }
}

/// Adds the entry of a function.
fn add_entry(
    alloc: Global,
    number: usize,
    function: &TypedFunction,
    found: &mut Vec<Place>,
) -> Result<(), AllocError>
    ensures { OnOk result
        (map place_view found.new.items
        ≡ map place_view found.old.items ++ entry_of number (function_view function.now) ∷ []) }
{
    found.push(Place {
        spot: function.spot,
        function: number,
        is_entry: true,
        scope: Vec::new(alloc),
    })?;
    Ok(())
}

/// Adds the closing brace of a function, where it is a place.
fn add_close(
    alloc: Global,
    number: usize,
    function: &TypedFunction,
    found: &mut Vec<Place>,
) -> Result<(), AllocError>
    ensures { OnOk result
        (map place_view found.new.items
        ≡ map place_view found.old.items ++ close_of number (function_view function.now)) }
{
    if reaches_end(&function.body) {
        let mut scope = parameters(alloc, function)?;
        bring_by_body(&function.body, &mut scope)?;
        return add_stop(alloc, number, scope.as_slice(), function.close, found);
    }
    Ok(())
}

/// Adds the places of a function.
fn add_function(
    alloc: Global,
    number: usize,
    function: &TypedFunction,
    found: &mut Vec<Place>,
) -> Result<(), AllocError>
    ensures { OnOk result
        (map place_view found.new.items
        ≡ map place_view found.old.items ++ places_of_function number (function_view function.now)) }
{
    add_entry(alloc, number, function, found)?;
    add_statements(
        alloc,
        number,
        parameters(alloc, function)?,
        &function.body,
        found,
    )?;
    add_close(alloc, number, function, found)
}

/// The places of a program, in the order of its text.
pub fn places_of_program(alloc: Global, program: &Program) -> Result<Vec<Place>, AllocError>
    ensures { IfOk result (λ v. map place_view v.items ≡ places_of_program (program_view program.now)) }
{
    let mut found = Vec::new(alloc);
    for (number, function) in program.functions.iter().enumerate() {
        add_function(alloc, number, function, &mut found)?;
    }
    Ok(found)
}
