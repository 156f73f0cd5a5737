//! Which automatic variables are kept in memory: those whose address is taken, and those that are written where that
//! may be skipped.

ghost use Rattle.std.specs.Prelude.{◌≡◌, [], IfOk, OnOk, map};
ghost use Rattle.std.specs.Option.{option_map};
ghost use Rattle.c_tree.specs.TypedExpressions.{arguments_view, lvalue_view, rvalue_view};
ghost use Rattle.c_tree.specs.TypedStatements.{declared_view, initial_view, start_view, statement_view, statements_view, step_view};
ghost use Rattle.c_places.specs.Memory.{keeps, kept_in_arguments, kept_by, kept_by_all, kept_declared, kept_in, kept_initial, kept_option, kept_start, kept_step, kept_values, with_named_variable, written};

use c_tree::{
    Arguments, Declared, Initial, Lvalue, Object, Rvalue, TypedStart, TypedStatement,
    TypedStatements, TypedStep,
};
use std::alloc::{AllocError, Global};

// What a call gives; its failure is the function's own.
macro_rules! given {
    ($call:expr) => {
        match $call {
            Ok(value) => value,
            Err(fault) => return Err(fault),
        }
    };
}

/// An object that is named.
fn named(target: &Lvalue, kept: &mut Vec<u32>) -> Result<(), AllocError>
    ensures { OnOk result (kept.new.items ≡ with_named_variable (lvalue_view target.now) kept.old.items) }
{
    if let Lvalue::Named { object, .. } = target {
        if let Object::Automatic(number) = object {
            kept.push(*number)?;
        }
    }
    Ok(())
}

#[cycle(kept)]
fn written(target: &Lvalue, skipped: bool, kept: &mut Vec<u32>) -> Result<(), AllocError>
    ensures { OnOk result (kept.new.items ≡ written skipped (lvalue_view target.now) kept.old.items) }
{
    if skipped {
        given!(named(target, kept));
    }
    of_lvalue(target, skipped, kept)
}

#[cycle(kept)]
fn of_lvalue(l: &Lvalue, skipped: bool, kept: &mut Vec<u32>) -> Result<(), AllocError>
    ensures { OnOk result (kept.new.items ≡ kept_in skipped (lvalue_view l.now) kept.old.items) }
{
    match l {
        Lvalue::Named { .. } => Ok(()),
        Lvalue::Target { pointer, .. } => of_rvalue(pointer, skipped, kept),
        Lvalue::Element {
            pointer: first,
            index: second,
            ..
        }
        | Lvalue::ElementFrom {
            index: first,
            pointer: second,
            ..
        } => {
            given!(of_rvalue(first, skipped, kept));
            of_rvalue(second, skipped, kept)
        }
    }
}

#[cycle(kept)]
fn of_arguments(all: &Arguments, skipped: bool, kept: &mut Vec<u32>) -> Result<(), AllocError>
    ensures { OnOk result (kept.new.items ≡ kept_in_arguments skipped (arguments_view all.now) kept.old.items) }
{
    match all {
        Arguments::End => Ok(()),
        Arguments::More(first, rest) => {
            given!(of_rvalue(first, skipped, kept));
            of_arguments(rest, skipped, kept)
        }
    }
}

/// The variables that an expression keeps in memory; it may be skipped where the flag says so.
#[cycle(kept)]
fn of_rvalue(r: &Rvalue, skipped: bool, kept: &mut Vec<u32>) -> Result<(), AllocError>
    ensures { OnOk result (kept.new.items ≡ keeps skipped (rvalue_view r.now) kept.old.items) }
{
    match r {
        Rvalue::Constant { .. } | Rvalue::Null => Ok(()),
        Rvalue::Load { from, .. } | Rvalue::Decay(from) => of_lvalue(from, skipped, kept),
        Rvalue::AddressOf(from) => {
            given!(named(from, kept));
            of_lvalue(from, skipped, kept)
        }
        Rvalue::Convert { operand, .. }
        | Rvalue::Discard(operand)
        | Rvalue::Signed { operand, .. }
        | Rvalue::Not(operand) => of_rvalue(operand, skipped, kept),
        Rvalue::Arithmetic { left, right, .. }
        | Rvalue::Compare { left, right, .. }
        | Rvalue::ComparePointers { left, right, .. }
        | Rvalue::Move {
            pointer: left,
            by: right,
            ..
        }
        | Rvalue::MoveFrom {
            by: left,
            pointer: right,
            ..
        }
        | Rvalue::Difference { left, right, .. }
        | Rvalue::Comma(left, right) => {
            given!(of_rvalue(left, skipped, kept));
            of_rvalue(right, skipped, kept)
        }
        Rvalue::And(left, right) | Rvalue::Or(left, right) => {
            given!(of_rvalue(left, skipped, kept));
            of_rvalue(right, true, kept)
        }
        Rvalue::Conditional {
            condition,
            then,
            otherwise,
        } => {
            given!(of_rvalue(condition, skipped, kept));
            given!(of_rvalue(then, true, kept));
            of_rvalue(otherwise, true, kept)
        }
        Rvalue::Assign { target, value, .. }
        | Rvalue::Update { target, value, .. }
        | Rvalue::UpdatePointer {
            target,
            by: value,
            ..
        } => {
            given!(written(target, skipped, kept));
            of_rvalue(value, skipped, kept)
        }
        Rvalue::Step { target, .. } | Rvalue::StepPointer { target, .. } => {
            written(target, skipped, kept)
        }
        Rvalue::Call { arguments, .. } => of_arguments(arguments, skipped, kept),
    }
}

fn of_values(values: &[Rvalue], kept: &mut Vec<u32>) -> Result<(), AllocError>
    ensures { OnOk result (kept.new.items ≡ kept_values (map rvalue_view values.now) kept.old.items) }
{
    for value in values {
        given!(of_rvalue(value, false, kept));
    }
    Ok(())
}

fn of_initial(initial: &Initial, kept: &mut Vec<u32>) -> Result<(), AllocError>
    ensures { OnOk result (kept.new.items ≡ kept_initial (initial_view initial.now) kept.old.items) }
{
    match initial {
        Initial::Zero | Initial::Literal(_) => Ok(()),
        Initial::Scalar(value) => of_rvalue(value, false, kept),
        Initial::Elements(values) => of_values(values, kept),
    }
}

fn of_declared(declared: &[Declared], kept: &mut Vec<u32>) -> Result<(), AllocError>
    ensures { OnOk result (kept.new.items ≡ kept_declared (map declared_view declared.now) kept.old.items) }
{
    for one in declared {
        given!(of_initial(&one.initial, kept));
    }
    Ok(())
}

fn of_start(start: &TypedStart, kept: &mut Vec<u32>) -> Result<(), AllocError>
    ensures { OnOk result (kept.new.items ≡ kept_start (start_view start.now) kept.old.items) }
{
    match start {
        TypedStart::Nothing => Ok(()),
        TypedStart::Expression { value, .. } => of_rvalue(value, false, kept),
        TypedStart::Declaration(declared) => of_declared(declared, kept),
    }
}

fn of_option(value: &Option<Rvalue>, kept: &mut Vec<u32>) -> Result<(), AllocError>
    ensures { OnOk result (kept.new.items ≡ kept_option (option_map rvalue_view value.now) kept.old.items) }
{
    match value {
        None => Ok(()),
        Some(value) => of_rvalue(value, false, kept),
    }
}

fn of_step(step: &Option<TypedStep>, kept: &mut Vec<u32>) -> Result<(), AllocError>
    ensures { OnOk result (kept.new.items ≡ kept_step (option_map step_view step.now) kept.old.items) }
{
    match step {
        None => Ok(()),
        Some(step) => of_rvalue(&step.value, false, kept),
    }
}

#[cycle(kept_by)]
fn of_statement(s: &TypedStatement, kept: &mut Vec<u32>) -> Result<(), AllocError>
    ensures { OnOk result (kept.new.items ≡ kept_by (statement_view s.now) kept.old.items) }
{
    match s {
        TypedStatement::Block(body) => of_statements(body, kept),
        TypedStatement::Declaration(declared) => of_declared(declared, kept),
        TypedStatement::Empty(_) | TypedStatement::Break(_) | TypedStatement::Continue(_) => Ok(()),
        TypedStatement::Expression { value, .. } => of_rvalue(value, false, kept),
        TypedStatement::If {
            condition,
            then: body,
            ..
        }
        | TypedStatement::While {
            condition,
            body,
            ..
        } => {
            given!(of_rvalue(condition, false, kept));
            of_statement(body, kept)
        }
        TypedStatement::IfElse {
            condition,
            then,
            otherwise,
            ..
        } => {
            given!(of_rvalue(condition, false, kept));
            given!(of_statement(then, kept));
            of_statement(otherwise, kept)
        }
        TypedStatement::DoWhile {
            body,
            condition,
            ..
        } => {
            given!(of_statement(body, kept));
            of_rvalue(condition, false, kept)
        }
        TypedStatement::For {
            start,
            condition,
            step,
            body,
            ..
        } => {
            given!(of_start(start, kept));
            given!(of_option(condition, kept));
            given!(of_step(step, kept));
            of_statement(body, kept)
        }
        TypedStatement::Switch { value, body, .. } => {
            given!(of_rvalue(value, false, kept));
            of_statements(body, kept)
        }
        TypedStatement::Return { value, .. } => of_option(value, kept),
    }
}

#[cycle(kept_by)]
fn of_statements(all: &TypedStatements, kept: &mut Vec<u32>) -> Result<(), AllocError>
    ensures { OnOk result (kept.new.items ≡ kept_by_all (statements_view all.now) kept.old.items) }
{
    let mut left = all;
    loop {
        match left {
            TypedStatements::End => return Ok(()),
            TypedStatements::More(first, rest) => {
                given!(of_statement(first, kept));
                left = rest;
            }
            TypedStatements::Case(_, rest) | TypedStatements::Default(rest) => left = rest,
        }
    }
}

/// The numbers of the automatic variables that a function's body keeps in memory, in text order, some perhaps more than
/// once.
pub fn kept_in_memory(alloc: Global, body: &TypedStatements) -> Result<Vec<u32>, AllocError>
    ensures { IfOk result (λ v. v.items ≡ kept_by_all (statements_view body.now) []) }
{
    let mut kept = Vec::new(alloc);
    of_statements(body, &mut kept)?;
    Ok(kept)
}
