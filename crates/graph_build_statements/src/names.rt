//! Which names the code of statements uses.

ghost use Rattle.std.specs.Prelude.{◌≡◌, IfOk, map, option_map};
ghost use Rattle.c_tree.specs.TypedExpressions.{rvalue_view};
ghost use Rattle.c_tree.specs.TypedStatements.{declared_view, initial_view, start_view, statement_view, statements_view, step_view};
ghost use Rattle.graph_build_statements.specs.Coding.{coding_view};
ghost use Rattle.graph_build_statements.specs.Reached.{bare, condition_reached, declared_reached, elements_reached, initial_reached, reached, result_reached, start_reached, statement_reached, statements_reached, step_reached};

use crate::form::{Form, begun};
use c_tree::{Declared, Initial, Rvalue, TypedStart, TypedStatement, TypedStatements, TypedStep};
use graph_build_layout::{Use, value_laid};
use graph_build_names::{pick, scalar_of};
use std::alloc::AllocError;

// What a call gives; its failure is the function's own.
macro_rules! given {
    ($call:expr) => {
        match $call {
            Ok(value) => value,
            Err(fault) => return Err(fault),
        }
    };
}

/// An element of a list without its conversion: a store keeps the lowest bits alone.
pub fn bare(e: &Rvalue) -> &Rvalue
    ensures { rvalue_view result.now ≡ bare (rvalue_view e.now) }
{
    match e {
        Rvalue::Convert { operand, .. } => operand,
        _ => e,
    }
}

/// The first name behind those that are used, if these were used before an expression.
pub fn reached(form: &Form<'_>, e: &Rvalue, asked: Use, free: u32) -> Result<u32, AllocError>
    ensures { IfOk result (λ n. n ≡ reached (coding_view form.now) (rvalue_view e.now) asked free) }
{
    let value = given!(value_laid(form.names, e, asked, begun(form, free)));
    Ok(free.max(value.top))
}

/// The same of the elements of an array.
fn elements_reached(form: &Form<'_>, all: &[Rvalue], free: u32) -> Result<u32, AllocError>
    ensures { IfOk result (λ n. n ≡ elements_reached (coding_view form.now) (map rvalue_view all.now) free) }
{
    let mut most = 0;
    let mut at = free;
    for e in all {
        let top = given!(value_laid(form.names, bare(e), Use::Anywhere, at)).top;
        most = most.max(top);
        at = pick(form.names, at, top);
    }
    Ok(most.max(at))
}

/// The same of an initializer, of a scalar with this name, or of an object in memory.
pub fn initial_reached(
    form: &Form<'_>,
    scalar: Option<u32>,
    initial: &Initial,
    free: u32,
) -> Result<u32, AllocError>
    ensures { IfOk result (λ n. n ≡ initial_reached (coding_view form.now) scalar (initial_view initial.now) free) }
{
    match initial {
        Initial::Zero | Initial::Literal(_) => Ok(free),
        Initial::Scalar(e) => match scalar {
            Some(name) => reached(form, e, Use::In(name), free),
            None => reached(form, e, Use::Anywhere, free),
        },
        Initial::Elements(all) => {
            let most = given!(elements_reached(form, all, begun(form, free)));
            Ok(free.max(most))
        }
    }
}

/// The same of declarators.
pub fn declared_reached(form: &Form<'_>, all: &[Declared], free: u32) -> Result<u32, AllocError>
    ensures { IfOk result (λ n. n ≡ declared_reached (coding_view form.now) (map declared_view all.now) free) }
{
    let mut at = free;
    for declared in all {
        let scalar = scalar_of(form.names, declared.variable);
        at = given!(initial_reached(form, scalar, &declared.initial, at));
    }
    Ok(at)
}

/// The same of the first part of a `for`.
pub fn start_reached(form: &Form<'_>, start: &TypedStart, free: u32) -> Result<u32, AllocError>
    ensures { IfOk result (λ n. n ≡ start_reached (coding_view form.now) (start_view start.now) free) }
{
    match start {
        TypedStart::Nothing => Ok(free),
        TypedStart::Expression { value, .. } => reached(form, value, Use::Nothing, free),
        TypedStart::Declaration(all) => declared_reached(form, all, free),
    }
}

/// The same of the condition of a `for`.
pub fn condition_reached(
    form: &Form<'_>,
    condition: &Option<Rvalue>,
    free: u32,
) -> Result<u32, AllocError>
    ensures { IfOk result
        (λ n. n ≡ condition_reached (coding_view form.now) (option_map rvalue_view condition.now) free) }
{
    match condition {
        None => Ok(free),
        Some(e) => reached(form, e, Use::Tested, free),
    }
}

/// The same of the step of a `for`.
fn step_reached(form: &Form<'_>, step: &Option<TypedStep>, free: u32) -> Result<u32, AllocError>
    ensures { IfOk result (λ n. n ≡ step_reached (coding_view form.now) (option_map step_view step.now) free) }
{
    match step {
        None => Ok(free),
        Some(step) => reached(form, &step.value, Use::Nothing, free),
    }
}

/// The same of a returned value.
fn result_reached(form: &Form<'_>, value: &Option<Rvalue>, free: u32) -> Result<u32, AllocError>
    ensures { IfOk result (λ n. n ≡ result_reached (coding_view form.now) (option_map rvalue_view value.now) free) }
{
    match value {
        None => Ok(free),
        Some(e) => reached(form, e, Use::Anywhere, free),
    }
}

/// The same of a statement, in the order in which code is made: of a `for` its first part, its condition, its body and
/// its step.
#[cycle(reached)]
pub fn statement_reached(
    form: &Form<'_>,
    statement: &TypedStatement,
    free: u32,
) -> Result<u32, AllocError>
    ensures { IfOk result (λ n. n ≡ statement_reached (coding_view form.now) (statement_view statement.now) free) }
{
    match statement {
        TypedStatement::Block(all) => statements_reached(form, all, free),
        TypedStatement::Declaration(all) => declared_reached(form, all, free),
        TypedStatement::Empty(_) | TypedStatement::Break(_) | TypedStatement::Continue(_) => Ok(
            free,
        ),
        TypedStatement::Expression { value, .. } => reached(form, value, Use::Nothing, free),
        TypedStatement::If {
            condition,
            then: body,
            ..
        }
        | TypedStatement::While {
            condition,
            body,
            ..
        } => {
            let behind = given!(reached(form, condition, Use::Tested, free));
            statement_reached(form, body, behind)
        }
        TypedStatement::IfElse {
            condition,
            then,
            otherwise,
            ..
        } => {
            let behind = given!(reached(form, condition, Use::Tested, free));
            let after = given!(statement_reached(form, then, behind));
            statement_reached(form, otherwise, after)
        }
        TypedStatement::DoWhile {
            body,
            condition,
            ..
        } => {
            let behind = given!(statement_reached(form, body, free));
            reached(form, condition, Use::Tested, behind)
        }
        TypedStatement::For {
            start,
            condition,
            step,
            body,
            ..
        } => {
            let head = given!(start_reached(form, start, free));
            let behind = given!(condition_reached(form, condition, head));
            let after = given!(statement_reached(form, body, behind));
            step_reached(form, step, after)
        }
        TypedStatement::Switch { value, body, .. } => {
            let behind = given!(reached(form, value, Use::Anywhere, free));
            statements_reached(form, body, behind)
        }
        TypedStatement::Return { value, .. } => result_reached(form, value, free),
    }
}

/// The same of the statements of a block.
#[cycle(reached)]
pub fn statements_reached(
    form: &Form<'_>,
    all: &TypedStatements,
    free: u32,
) -> Result<u32, AllocError>
    ensures { IfOk result (λ n. n ≡ statements_reached (coding_view form.now) (statements_view all.now) free) }
{
    let mut at = free;
    let mut left = all;
    loop {
        match left {
            TypedStatements::End => return Ok(at),
            TypedStatements::More(first, rest) => {
                at = given!(statement_reached(form, first, at));
                left = rest;
            }
            TypedStatements::Case(_, rest) | TypedStatements::Default(rest) => left = rest,
        }
    }
}
