//! What the places of a program assign, by their positions.

ghost use Rattle.std.specs.Prelude.{◌≡◌, ◌+◌, ◌<◌, ◌^◌, ◌++◌, ◌∷◌, [], All, IfOk, OnOk, map, option_map};
ghost use Rattle.c_tree.specs.Programs.{function_view, program_view};
ghost use Rattle.c_tree.specs.TypedExpressions.{arguments_view, lvalue_view, rvalue_view};
ghost use Rattle.c_tree.specs.TypedStatements.{declared_view, initial_view, start_view, statement_view, statements_view, step_view};
ghost use Rattle.c_flow.specs.Assigns.{assigned_objects, assigned_by, assigned_by_all, assigned_by_declarators, assigned_by_entry, assigned_by_function, assigned_by_initial, assigned_by_option, assigned_by_program, assigned_by_start, assigned_by_statements, assigned_by_step, assigned_by_values, assigned_within, assigns_object, named_object};

use c_tree::{
    Arguments, Declared, Initial, Lvalue, Object, Program, Rvalue, TypedFunction, TypedStart,
    TypedStatement, TypedStatements, TypedStep,
};
use std::alloc::{AllocError, Global};

/// The place at a position assigns an object.
#[derive(Clone, Copy)]
pub struct Assigned {
    pub at: u32,
    pub object: Object,
}

// What a call gives; its failure is the function's own.
macro_rules! given {
    ($call:expr) => {
        match $call {
            Ok(value) => value,
            Err(fault) => return Err(fault),
        }
    };
}

/// Adds an object that the place at a position assigns.
fn add(at: u32, object: Object, found: &mut Vec<Assigned>) -> Result<(), AllocError>
    ensures { OnOk result (found.new.items ≡ found.old.items ++ assigns_object at object ∷ []) }
{
    found.push(Assigned { at, object })?;
    Ok(())
}

/// Adds the object that a target names.
fn add_named(at: u32, target: &Lvalue, found: &mut Vec<Assigned>) -> Result<(), AllocError>
    ensures { OnOk result (found.new.items ≡ found.old.items ++ named_object at (lvalue_view target.now)) }
{
    match target {
        Lvalue::Named { object, .. } => add(at, *object, found),
        _ => Ok(()),
    }
}

/// Adds what is assigned by name within what designates an object.
#[cycle(expressions)]
fn add_within(at: u32, target: &Lvalue, found: &mut Vec<Assigned>) -> Result<(), AllocError>
    ensures { OnOk result (found.new.items ≡ found.old.items ++ assigned_within at (lvalue_view target.now)) }
{
    match target {
        Lvalue::Named { .. } => Ok(()),
        Lvalue::Target { pointer, .. } => add_expression(at, pointer, found),
        Lvalue::Element {
            pointer: first,
            index: second,
            ..
        }
        | Lvalue::ElementFrom {
            index: first,
            pointer: second,
            ..
        } => {
            given!(add_expression(at, first, found));
            add_expression(at, second, found)
        }
    }
}

/// Adds what is assigned by name within arguments.
#[cycle(expressions)]
fn add_arguments(at: u32, all: &Arguments, found: &mut Vec<Assigned>) -> Result<(), AllocError>
    ensures { OnOk result (found.new.items ≡ found.old.items ++ assigned_by_all at (arguments_view all.now)) }
{
    match all {
        Arguments::End => Ok(()),
        Arguments::More(first, rest) => {
            given!(add_expression(at, first, found));
            add_arguments(at, rest, found)
        }
    }
}

/// Adds what is assigned by name within an expression.
#[cycle(expressions)]
fn add_expression(at: u32, e: &Rvalue, found: &mut Vec<Assigned>) -> Result<(), AllocError>
    ensures { OnOk result (found.new.items ≡ found.old.items ++ assigned_objects at (rvalue_view e.now)) }
{
    match e {
        Rvalue::Constant { .. } | Rvalue::Null => Ok(()),
        Rvalue::Load { from, .. } | Rvalue::Decay(from) | Rvalue::AddressOf(from) => {
            add_within(at, from, found)
        }
        Rvalue::Convert { operand, .. }
        | Rvalue::Signed { operand, .. }
        | Rvalue::Discard(operand)
        | Rvalue::Not(operand) => add_expression(at, operand, found),
        Rvalue::Arithmetic { left, right, .. }
        | Rvalue::Compare { left, right, .. }
        | Rvalue::ComparePointers { left, right, .. }
        | Rvalue::Difference { left, right, .. }
        | Rvalue::Move {
            pointer: left,
            by: right,
            ..
        }
        | Rvalue::MoveFrom {
            by: left,
            pointer: right,
            ..
        }
        | Rvalue::And(left, right)
        | Rvalue::Or(left, right)
        | Rvalue::Comma(left, right) => {
            given!(add_expression(at, left, found));
            add_expression(at, right, found)
        }
        Rvalue::Conditional {
            condition,
            then,
            otherwise,
        } => {
            given!(add_expression(at, condition, found));
            given!(add_expression(at, then, found));
            add_expression(at, otherwise, found)
        }
        Rvalue::Assign { target, value, .. }
        | Rvalue::Update { target, value, .. }
        | Rvalue::UpdatePointer {
            target,
            by: value,
            ..
        } => {
            given!(add_named(at, target, found));
            given!(add_within(at, target, found));
            add_expression(at, value, found)
        }
        Rvalue::Step { target, .. } | Rvalue::StepPointer { target, .. } => {
            given!(add_named(at, target, found));
            add_within(at, target, found)
        }
        Rvalue::Call { arguments, .. } => add_arguments(at, arguments, found),
    }
}

/// Adds what is assigned by name within values.
fn add_values(at: u32, all: &[Rvalue], found: &mut Vec<Assigned>) -> Result<(), AllocError>
    ensures { OnOk result (found.new.items ≡ found.old.items ++ assigned_by_values at (map rvalue_view all.now)) }
{
    for e in all {
        given!(add_expression(at, e, found));
    }
    Ok(())
}

/// Adds what is assigned by name within an initializer.
fn add_initial(at: u32, initial: &Initial, found: &mut Vec<Assigned>) -> Result<(), AllocError>
    ensures { OnOk result (found.new.items ≡ found.old.items ++ assigned_by_initial at (initial_view initial.now)) }
{
    match initial {
        Initial::Zero | Initial::Literal(_) => Ok(()),
        Initial::Scalar(e) => add_expression(at, e, found),
        Initial::Elements(all) => add_values(at, all, found),
    }
}

/// Adds what declarators assign.
fn add_declarators(all: &[Declared], found: &mut Vec<Assigned>) -> Result<(), AllocError>
    ensures { OnOk result (found.new.items ≡ found.old.items ++ assigned_by_declarators (map declared_view all.now)) }
{
    for declared in all {
        add(
            declared.spot.at,
            Object::Automatic(declared.variable),
            found,
        )?;
        given!(add_initial(declared.spot.at, &declared.initial, found));
    }
    Ok(())
}

/// Adds what the first part of a `for` assigns.
fn add_start(begin: &TypedStart, found: &mut Vec<Assigned>) -> Result<(), AllocError>
    ensures { OnOk result (found.new.items ≡ found.old.items ++ assigned_by_start (start_view begin.now)) }
{
    match begin {
        TypedStart::Nothing => Ok(()),
        TypedStart::Expression { spot, value } => add_expression(spot.at, value, found),
        TypedStart::Declaration(all) => add_declarators(all, found),
    }
}

/// Adds what an expression assigns that may be absent.
fn add_option(at: u32, e: &Option<Rvalue>, found: &mut Vec<Assigned>) -> Result<(), AllocError>
    ensures { OnOk result (found.new.items ≡ found.old.items ++ assigned_by_option at (option_map rvalue_view e.now)) }
{
    match e {
        None => Ok(()),
        Some(e) => add_expression(at, e, found),
    }
}

/// Adds what the step of a `for` assigns.
fn add_step(step: &Option<TypedStep>, found: &mut Vec<Assigned>) -> Result<(), AllocError>
    ensures { OnOk result (found.new.items ≡ found.old.items ++ assigned_by_step (option_map step_view step.now)) }
{
    match step {
        None => Ok(()),
        Some(step) => add_expression(step.spot.at, &step.value, found),
    }
}

/// Adds what the places of a statement assign.
#[cycle(statements)]
fn add_statement(statement: &TypedStatement, found: &mut Vec<Assigned>) -> Result<(), AllocError>
    ensures { OnOk result (found.new.items ≡ found.old.items ++ assigned_by (statement_view statement.now)) }
{
    match statement {
        TypedStatement::Block(all) => add_statements(all, found),
        TypedStatement::Declaration(all) => add_declarators(all, found),
        TypedStatement::Empty(_) | TypedStatement::Break(_) | TypedStatement::Continue(_) => Ok(()),
        TypedStatement::Expression { spot, value } => add_expression(spot.at, value, found),
        TypedStatement::If {
            spot,
            condition,
            then: body,
        }
        | TypedStatement::While {
            spot,
            condition,
            body,
        }
        | TypedStatement::DoWhile {
            body,
            spot,
            condition,
        } => {
            given!(add_expression(spot.at, condition, found));
            add_statement(body, found)
        }
        TypedStatement::IfElse {
            spot,
            condition,
            then,
            otherwise,
        } => {
            given!(add_expression(spot.at, condition, found));
            given!(add_statement(then, found));
            add_statement(otherwise, found)
        }
        TypedStatement::For {
            start,
            spot,
            condition,
            step,
            body,
        } => {
            given!(add_start(start, found));
            given!(add_option(spot.at, condition, found));
            given!(add_step(step, found));
            add_statement(body, found)
        }
        TypedStatement::Switch { spot, value, body } => {
            given!(add_expression(spot.at, value, found));
            add_statements(body, found)
        }
        TypedStatement::Return { spot, value } => add_option(spot.at, value, found),
    }
}

/// Adds what the places of the statements of a block assign.
#[cycle(statements)]
fn add_statements(all: &TypedStatements, found: &mut Vec<Assigned>) -> Result<(), AllocError>
    ensures { OnOk result (found.new.items ≡ found.old.items ++ assigned_by_statements (statements_view all.now)) }
{
    let mut left = all;
    loop {
        match left {
            TypedStatements::End => return Ok(()),
            TypedStatements::More(first, rest) => {
                given!(add_statement(first, found));
                left = rest;
            }
            TypedStatements::Case(_, rest) | TypedStatements::Default(rest) => left = rest,
        }
    }
}

/// Adds the parameters of a function, which its entry assigns.
#[tactic(auto, using(crate::proofs::EachAssigned::no_parameter))]
fn add_entry(function: &TypedFunction, found: &mut Vec<Assigned>) -> Result<(), AllocError>
    requires { function.now.first_variable + function.now.parameters < 2 ^ 32 }
    ensures { OnOk result (found.new.items ≡ found.old.items ++ assigned_by_entry (function_view function.now)) }
{
    for i in 0..function.parameters {
        add(
            function.spot.at,
            Object::Automatic(function.first_variable + i),
            found,
        )?;
    }
    Ok(())
}

/// Adds what the places of a function assign.
fn add_function(function: &TypedFunction, found: &mut Vec<Assigned>) -> Result<(), AllocError>
    requires { function.now.first_variable + function.now.parameters < 2 ^ 32 }
    ensures { OnOk result (found.new.items ≡ found.old.items ++ assigned_by_function (function_view function.now)) }
{
    add_entry(function, found)?;
    add_statements(&function.body, found)
}

/// What the places of a program assign.
pub fn assigned_by_program(alloc: Global, program: &Program) -> Result<Vec<Assigned>, AllocError>
    requires { All (λ f. f.first_variable + f.parameters < 2 ^ 32) program.now.functions.items }
    ensures { IfOk result (λ v. v.items ≡ assigned_by_program (program_view program.now)) }
{
    let mut found = Vec::new(alloc);
    for function in &program.functions {
        add_function(function, &mut found)?;
    }
    Ok(found)
}
