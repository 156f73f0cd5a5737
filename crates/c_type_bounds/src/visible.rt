//! How many variables are visible at the places of functions.

ghost use Rattle.std.specs.Prelude.{◌≡◌, ℕ, List, IfOk, OnOk, drop, length, map, take};
ghost use Rattle.std.specs.List.{list_any};
ghost use Rattle.std.specs.Option.{option_map};
ghost use Rattle.std.specs.Str.{bytes_eq};
ghost use Rattle.c_tree.specs.Programs.{automatic_view, function_view, program_view};
ghost use Rattle.c_tree.specs.TypedExpressions.{rvalue_view};
ghost use Rattle.c_tree.specs.TypedStatements.{declared_view, start_view, statement_view, statements_view, step_view};
ghost use Rattle.c_places.specs.Places.{parameters_of};
ghost use Rattle.c_type_bounds.specs.Counts.{capped};
ghost use Rattle.c_type_bounds.specs.Visible.{at_declared, at_function, at_head, at_start, at_statement, at_statements, at_step, behind_all, behind_one, behind_scope, behind_start, behind_statement, behind_statements, names_view, visible_pairs, with_visible};

use crate::count::plus;
use c_places::reaches_end;
use c_tree::{
    AutomaticVariable, Declared, Program, Rvalue, TypedFunction, TypedStart, TypedStatement,
    TypedStatements, TypedStep,
};
use std::alloc::{AllocError, Global};

/// Whether a name is one of these.
fn is_among(names: &[&str], name: &str) -> bool
    ensures { result ≡ list_any (λ n. bytes_eq n name.now) (names_view names.now) }
{
    for one in names {
        if *one == name {
            return true;
        }
    }
    false
}

/// Adds a name to the visible ones, where none of them is its own.
fn add_name<'a>(names: &mut Vec<&'a str>, name: &'a str) -> Result<(), AllocError>
    ensures { OnOk result (names_view names.new.items ≡ with_visible name.now (names_view names.old.items)) }
{
    if is_among(names, name) {
        return Ok(());
    }
    names.push(name)?;
    Ok(())
}

/// Adds the name of a variable; where there is none of that number, it has the empty name.
fn add_variable<'a>(
    automatics: &'a [AutomaticVariable],
    names: &mut Vec<&'a str>,
    variable: usize,
) -> Result<(), AllocError>
    ensures { OnOk result
        (names_view names.new.items
        ≡ behind_one (map automatic_view automatics.now) variable (names_view names.old.items)) }
{
    match automatics.get(variable) {
        None => add_name(names, ""),
        Some(variable) => add_name(names, &variable.name),
    }
}

/// How many variables are visible at declarators, whose names become visible one after the other.
fn at_declared<'a>(
    automatics: &'a [AutomaticVariable],
    names: &mut Vec<&'a str>,
    all: &[Declared],
) -> Result<u64, AllocError>
    ensures count { IfOk result (λ n.
        n ≡ capped
        (at_declared (map automatic_view automatics.now) (map declared_view all.now)
        (names_view names.old.items))) }
    ensures names { OnOk result
        (names_view names.new.items ≡ behind_all (map automatic_view automatics.now) (map declared_view all.now)
        (names_view names.old.items)) }
{
    let mut total = 0;
    for one in all {
        total = plus(total, names.len() as u64);
        add_variable(automatics, names, one.variable as usize)?;
    }
    Ok(total)
}

/// The same at the first part of a `for`.
fn at_start<'a>(
    automatics: &'a [AutomaticVariable],
    names: &mut Vec<&'a str>,
    start: &TypedStart,
) -> Result<u64, AllocError>
    ensures count { IfOk result (λ n.
        n ≡ capped
        (at_start (map automatic_view automatics.now) (start_view start.now) (names_view names.old.items))) }
    ensures names { OnOk result
        (names_view names.new.items
        ≡ behind_start (map automatic_view automatics.now) (start_view start.now) (names_view names.old.items)) }
{
    match start {
        TypedStart::Nothing => Ok(0),
        TypedStart::Expression { .. } => Ok(names.len() as u64),
        TypedStart::Declaration(all) => at_declared(automatics, names, all),
    }
}

/// The same at the condition of a `for`, or at its head.
fn at_head(condition: &Option<Rvalue>, inner: u64, outer: u64) -> u64
    ensures { (xs ys : List (List ℕ)) → inner ≡ length xs → outer ≡ length ys
        → result ≡ capped (at_head (option_map rvalue_view condition.now) xs ys) }
{
    match condition {
        Some(_) => inner,
        None => outer,
    }
}

/// The same at the third part of a `for`.
fn at_step(step: &Option<TypedStep>, names: u64) -> u64
    ensures { (xs : List (List ℕ)) → names ≡ length xs → result ≡ capped (at_step (option_map step_view step.now) xs) }
{
    match step {
        Some(_) => names,
        None => 0,
    }
}

/// How many variables are visible at the places of a statement. The names of a declaration become visible.
#[cycle(visible)]
fn at_statement<'a>(
    automatics: &'a [AutomaticVariable],
    names: &mut Vec<&'a str>,
    statement: &TypedStatement,
) -> Result<u64, AllocError>
    ensures count { IfOk result (λ n.
        n ≡ capped
        (at_statement (map automatic_view automatics.now) (statement_view statement.now)
        (names_view names.old.items))) }
    ensures names { OnOk result
        (names_view names.new.items ≡ behind_statement (map automatic_view automatics.now)
        (statement_view statement.now) (names_view names.old.items)) }
{
    let outer = names.len() as u64;
    match statement {
        TypedStatement::Block(body) => at_block(automatics, names, body),
        TypedStatement::Declaration(all) => at_declared(automatics, names, all),
        TypedStatement::Empty(_)
        | TypedStatement::Expression { .. }
        | TypedStatement::Break(_)
        | TypedStatement::Continue(_)
        | TypedStatement::Return { .. } => Ok(outer),
        TypedStatement::If { then: body, .. }
        | TypedStatement::While { body, .. }
        | TypedStatement::DoWhile { body, .. } => {
            let inner = at_inner(automatics, names, body)?;
            Ok(plus(outer, inner))
        }
        TypedStatement::IfElse {
            then,
            otherwise,
            ..
        } => {
            let one = at_inner(automatics, names, then)?;
            let other = at_inner(automatics, names, otherwise)?;
            Ok(plus(plus(outer, one), other))
        }
        TypedStatement::For {
            start,
            condition,
            step,
            body,
            ..
        } => {
            let kept = names.len();
            let begin = at_start(automatics, names, start)?;
            let head = at_head(condition, names.len() as u64, outer);
            let step = at_step(step, names.len() as u64);
            let inner = at_inner(automatics, names, body)?;
            names.truncate(kept);
            Ok(plus(plus(plus(begin, head), step), inner))
        }
        TypedStatement::Switch { body, .. } => {
            let inner = at_block(automatics, names, body)?;
            Ok(plus(outer, inner))
        }
    }
}

/// The same of a statement within another, behind which its names are not visible any more.
#[cycle(visible)]
fn at_inner<'a>(
    automatics: &'a [AutomaticVariable],
    names: &mut Vec<&'a str>,
    statement: &TypedStatement,
) -> Result<u64, AllocError>
    ensures count { IfOk result (λ n.
        n ≡ capped
        (at_statement (map automatic_view automatics.now) (statement_view statement.now)
        (names_view names.old.items))) }
    ensures names { OnOk result (names_view names.new.items ≡ names_view names.old.items) }
{
    let outer = names.len();
    let total = at_statement(automatics, names, statement)?;
    names.truncate(outer);
    Ok(total)
}

/// How many variables are visible at the places of statements, of which the declared names become visible.
#[cycle(visible)]
fn at_statements<'a>(
    automatics: &'a [AutomaticVariable],
    names: &mut Vec<&'a str>,
    all: &TypedStatements,
) -> Result<u64, AllocError>
    ensures count { IfOk result (λ n.
        n ≡ capped
        (at_statements (map automatic_view automatics.now) (statements_view all.now)
        (names_view names.old.items))) }
    ensures names { OnOk result
        (names_view names.new.items ≡ behind_statements (map automatic_view automatics.now)
        (statements_view all.now) (names_view names.old.items)) }
{
    let mut total = 0;
    let mut left = all;
    loop {
        match left {
            TypedStatements::End => return Ok(total),
            TypedStatements::More(first, rest) => {
                let one = at_statement(automatics, names, first)?;
                total = plus(total, one);
                left = rest;
            }
            TypedStatements::Case(_, rest) | TypedStatements::Default(rest) => left = rest,
        }
    }
}

/// The same of a block, behind which its names are not visible any more.
#[cycle(visible)]
fn at_block<'a>(
    automatics: &'a [AutomaticVariable],
    names: &mut Vec<&'a str>,
    all: &TypedStatements,
) -> Result<u64, AllocError>
    ensures count { IfOk result (λ n.
        n ≡ capped
        (at_statements (map automatic_view automatics.now) (statements_view all.now)
        (names_view names.old.items))) }
    ensures names { OnOk result (names_view names.new.items ≡ names_view names.old.items) }
{
    let outer = names.len();
    let total = at_statements(automatics, names, all)?;
    names.truncate(outer);
    Ok(total)
}

/// Adds the names of a function's parameters.
fn add_parameters<'a>(
    automatics: &'a [AutomaticVariable],
    names: &mut Vec<&'a str>,
    f: &TypedFunction,
) -> Result<(), AllocError>
    ensures { OnOk result
        (names_view names.new.items ≡ behind_scope (map automatic_view automatics.now)
        (parameters_of (function_view f.now)) (names_view names.old.items)) }
{
    for i in 0..f.parameters as usize {
        add_variable(automatics, names, f.first_variable as usize + i)?;
    }
    Ok(())
}

/// How many variables are visible at the places of a function.
fn at_function(
    alloc: Global,
    automatics: &[AutomaticVariable],
    f: &TypedFunction,
) -> Result<u64, AllocError>
    ensures { IfOk result (λ n. n ≡ capped (at_function (map automatic_view automatics.now) (function_view f.now))) }
{
    let mut names = Vec::new(alloc);
    add_parameters(automatics, &mut names, f)?;
    let inner = at_statements(automatics, &mut names, &f.body)?;
    if reaches_end(&f.body) {
        return Ok(plus(inner, names.len() as u64));
    }
    Ok(inner)
}

/// How many variables are visible at the places of a program, in all.
pub fn visible_pairs(alloc: Global, program: &Program) -> Result<u64, AllocError>
    ensures { IfOk result (λ n. n ≡ capped (visible_pairs (program_view program.now))) }
{
    let mut total = 0;
    for f in &program.functions {
        let one = at_function(alloc, &program.automatics, f)?;
        total = plus(total, one);
    }
    Ok(total)
}
