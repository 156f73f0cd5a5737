//! Whether a place of a program assigns a variable, told without a table.
#![tactic(auto, using(crate::proofs::AnyOf::any_of_both))]

ghost use Rattle.std.specs.Prelude.{◌≡◌, ◌↔◌, ◌≤◌, ◌<◌, ◌+◌, ◌++◌, ◌∷◌, [], IsTrue, Some, map, option_map};
ghost use Rattle.std.specs.List.{Contains};
ghost use Rattle.c_tree.specs.declared.object_type.Object.{Object};
ghost use Rattle.c_tree.specs.Programs.{function_view, program_view};
ghost use Rattle.c_tree.specs.TypedExpressions.{arguments_view, lvalue_view, rvalue_view};
ghost use Rattle.c_tree.specs.TypedStatements.{declared_view, initial_view, start_view, statement_view, statements_view, step_view};
ghost use Rattle.c_flow.specs.Assigns.{assigned_objects, assigned_by, assigned_by_all, assigned_by_declarators, assigned_by_entry, assigned_by_function, assigned_by_initial, assigned_by_option, assigned_by_program, assigned_by_start, assigned_by_statements, assigned_by_step, assigned_by_values, assigned_within, assignments_of_program, assigns_object, named_object, variable_number};
ghost use Rattle.c_flow_assigns.specs.Wanted.{has_wanted, is_same_object, is_wanted};

use crate::places_before::after_places;
use c_tree::{
    Arguments, Declared, Initial, Lvalue, Object, Program, Rvalue, TypedFunction, TypedStart,
    TypedStatement, TypedStatements, TypedStep,
};
use debug_records::{Place, Var};

/// An assignment that is looked for: that of an object by the place with a number.
#[derive(Clone, Copy)]
struct Wanted<'a> {
    program: &'a Program,
    /// The number of the place, from 1 on.
    number: u32,
    object: Object,
}

/// Whether two objects are one.
fn is_same_object(one: Object, other: Object) -> bool
    ensures { result ≡ is_same_object one other }
{
    match (one, other) {
        (Object::Static(x), Object::Static(y)) => x == y,
        (Object::Automatic(x), Object::Automatic(y)) => x == y,
        (Object::Literal(x), Object::Literal(y)) => x == y,
        _ => false,
    }
}

/// Whether the assignment of an object at a position is the one.
fn is_wanted(wanted: &Wanted<'_>, at: u32, object: Object) -> bool
    ensures { result ≡ is_wanted (program_view wanted.now.program.now) wanted.now.number wanted.now.object
        (assigns_object at object) }
{
    is_same_object(wanted.object, object) && after_places(at, wanted.program, wanted.number) == 1
}

/// Whether the target of an assignment at a position is the one.
fn is_named(wanted: &Wanted<'_>, at: u32, target: &Lvalue) -> bool
    ensures { result ≡ has_wanted wanted.now (named_object at (lvalue_view target.now)) }
{
    match target {
        Lvalue::Named { object, .. } => is_wanted(wanted, at, *object),
        _ => false,
    }
}

/// Whether it is within what designates an object.
#[cycle(expressions)]
fn is_within(wanted: &Wanted<'_>, at: u32, target: &Lvalue) -> bool
    ensures { result ≡ has_wanted wanted.now (assigned_within at (lvalue_view target.now)) }
{
    match target {
        Lvalue::Named { .. } => false,
        Lvalue::Target { pointer, .. } => is_in_expression(wanted, at, pointer),
        Lvalue::Element { pointer, index, .. } | Lvalue::ElementFrom { index, pointer, .. } => {
            is_in_expression(wanted, at, pointer) || is_in_expression(wanted, at, index)
        }
    }
}

/// Whether a target is the one, or it is within what designates the target.
#[cycle(expressions)]
fn is_in_target(wanted: &Wanted<'_>, at: u32, target: &Lvalue) -> bool
    ensures { result ≡ has_wanted wanted.now
        (named_object at (lvalue_view target.now) ++ assigned_within at (lvalue_view target.now)) }
{
    is_named(wanted, at, target) || is_within(wanted, at, target)
}

/// Whether it is within arguments.
#[cycle(expressions)]
fn is_in_arguments(wanted: &Wanted<'_>, at: u32, all: &Arguments) -> bool
    ensures { result ≡ has_wanted wanted.now (assigned_by_all at (arguments_view all.now)) }
{
    match all {
        Arguments::End => false,
        Arguments::More(first, rest) => {
            is_in_expression(wanted, at, first) || is_in_arguments(wanted, at, rest)
        }
    }
}

/// Whether it is within an expression.
#[cycle(expressions)]
fn is_in_expression(wanted: &Wanted<'_>, at: u32, e: &Rvalue) -> bool
    ensures { result ≡ has_wanted wanted.now (assigned_objects at (rvalue_view e.now)) }
{
    match e {
        Rvalue::Constant { .. } | Rvalue::Null => false,
        Rvalue::Load { from, .. } | Rvalue::Decay(from) | Rvalue::AddressOf(from) => {
            is_within(wanted, at, from)
        }
        Rvalue::Convert { operand, .. }
        | Rvalue::Signed { operand, .. }
        | Rvalue::Discard(operand)
        | Rvalue::Not(operand) => is_in_expression(wanted, at, operand),
        Rvalue::Arithmetic { left, right, .. }
        | Rvalue::Compare { left, right, .. }
        | Rvalue::ComparePointers { left, right, .. }
        | Rvalue::Difference { left, right, .. }
        | Rvalue::Move {
            pointer: left,
            by: right,
            ..
        }
        | Rvalue::MoveFrom {
            by: left,
            pointer: right,
            ..
        }
        | Rvalue::And(left, right)
        | Rvalue::Or(left, right)
        | Rvalue::Comma(left, right) => {
            is_in_expression(wanted, at, left) || is_in_expression(wanted, at, right)
        }
        Rvalue::Conditional {
            condition,
            then,
            otherwise,
        } => {
            is_in_expression(wanted, at, condition)
                || is_in_expression(wanted, at, then)
                || is_in_expression(wanted, at, otherwise)
        }
        Rvalue::Assign { target, value, .. }
        | Rvalue::Update { target, value, .. }
        | Rvalue::UpdatePointer {
            target,
            by: value,
            ..
        } => is_in_target(wanted, at, target) || is_in_expression(wanted, at, value),
        Rvalue::Step { target, .. } | Rvalue::StepPointer { target, .. } => {
            is_in_target(wanted, at, target)
        }
        Rvalue::Call { arguments, .. } => is_in_arguments(wanted, at, arguments),
    }
}

/// Whether it is within values.
fn is_in_values(wanted: &Wanted<'_>, at: u32, all: &[Rvalue]) -> bool
    ensures { result ≡ has_wanted wanted.now (assigned_by_values at (map rvalue_view all.now)) }
{
    for e in all {
        if is_in_expression(wanted, at, e) {
            return true;
        }
    }
    false
}

/// Whether it is within an initializer.
fn is_in_initial(wanted: &Wanted<'_>, at: u32, initial: &Initial) -> bool
    ensures { result ≡ has_wanted wanted.now (assigned_by_initial at (initial_view initial.now)) }
{
    match initial {
        Initial::Zero | Initial::Literal(_) => false,
        Initial::Scalar(e) => is_in_expression(wanted, at, e),
        Initial::Elements(all) => is_in_values(wanted, at, all),
    }
}

/// Whether a declarator makes it.
fn is_in_declarator(wanted: &Wanted<'_>, declared: &Declared) -> bool
    ensures { result ≡ has_wanted wanted.now (assigned_by_declarators (declared_view declared.now ∷ [])) }
{
    let at = declared.spot.at;
    is_wanted(wanted, at, Object::Automatic(declared.variable))
        || is_in_initial(wanted, at, &declared.initial)
}

/// Whether declarators make it.
fn is_in_declarators(wanted: &Wanted<'_>, all: &[Declared]) -> bool
    ensures { result ≡ has_wanted wanted.now (assigned_by_declarators (map declared_view all.now)) }
{
    for declared in all {
        if is_in_declarator(wanted, declared) {
            return true;
        }
    }
    false
}

/// Whether the first part of a `for` makes it.
fn is_in_start(wanted: &Wanted<'_>, begin: &TypedStart) -> bool
    ensures { result ≡ has_wanted wanted.now (assigned_by_start (start_view begin.now)) }
{
    match begin {
        TypedStart::Nothing => false,
        TypedStart::Expression { spot, value } => is_in_expression(wanted, spot.at, value),
        TypedStart::Declaration(all) => is_in_declarators(wanted, all),
    }
}

/// Whether it is within an expression that may be absent.
fn is_in_option(wanted: &Wanted<'_>, at: u32, e: &Option<Rvalue>) -> bool
    ensures { result ≡ has_wanted wanted.now (assigned_by_option at (option_map rvalue_view e.now)) }
{
    match e {
        None => false,
        Some(e) => is_in_expression(wanted, at, e),
    }
}

/// Whether the step of a `for` makes it.
fn is_in_step(wanted: &Wanted<'_>, step: &Option<TypedStep>) -> bool
    ensures { result ≡ has_wanted wanted.now (assigned_by_step (option_map step_view step.now)) }
{
    match step {
        None => false,
        Some(step) => is_in_expression(wanted, step.spot.at, &step.value),
    }
}

/// Whether a place of a statement makes it.
#[cycle(statements)]
fn is_in_statement(wanted: &Wanted<'_>, statement: &TypedStatement) -> bool
    ensures { result ≡ has_wanted wanted.now (assigned_by (statement_view statement.now)) }
{
    match statement {
        TypedStatement::Block(all) => is_in_statements(wanted, all),
        TypedStatement::Declaration(all) => is_in_declarators(wanted, all),
        TypedStatement::Empty(_) | TypedStatement::Break(_) | TypedStatement::Continue(_) => false,
        TypedStatement::Expression { spot, value } => is_in_expression(wanted, spot.at, value),
        TypedStatement::IfElse {
            spot,
            condition,
            then,
            otherwise,
        } => {
            is_in_expression(wanted, spot.at, condition)
                || is_in_statement(wanted, then)
                || is_in_statement(wanted, otherwise)
        }
        TypedStatement::If {
            spot,
            condition,
            then: body,
        }
        | TypedStatement::While {
            spot,
            condition,
            body,
        }
        | TypedStatement::DoWhile {
            body,
            spot,
            condition,
        } => is_in_expression(wanted, spot.at, condition) || is_in_statement(wanted, body),
        TypedStatement::For {
            start,
            spot,
            condition,
            step,
            body,
        } => {
            is_in_start(wanted, start)
                || is_in_option(wanted, spot.at, condition)
                || is_in_step(wanted, step)
                || is_in_statement(wanted, body)
        }
        TypedStatement::Switch { spot, value, body } => {
            is_in_expression(wanted, spot.at, value) || is_in_statements(wanted, body)
        }
        TypedStatement::Return { spot, value } => is_in_option(wanted, spot.at, value),
    }
}

/// Whether a place of the statements of a block makes it.
#[cycle(statements)]
fn is_in_statements(wanted: &Wanted<'_>, all: &TypedStatements) -> bool
    ensures { result ≡ has_wanted wanted.now (assigned_by_statements (statements_view all.now)) }
{
    let mut left = all;
    loop {
        match left {
            TypedStatements::End => return false,
            TypedStatements::More(first, rest) => {
                if is_in_statement(wanted, first) {
                    return true;
                }
                left = rest;
            }
            TypedStatements::Case(_, rest) | TypedStatements::Default(rest) => left = rest,
        }
    }
}

/// Whether an automatic variable is a parameter of a function.
fn has_parameter(function: &TypedFunction, variable: u32) -> bool
    ensures { IsTrue result ↔ (function.now.first_variable ≤ variable)
        × (variable < function.now.first_variable + function.now.parameters) }
{
    function.first_variable <= variable && variable - function.first_variable < function.parameters
}

/// Whether the entry of a function makes it, which assigns the parameters.
fn is_in_entry(wanted: &Wanted<'_>, function: &TypedFunction) -> bool
    ensures { result ≡ has_wanted wanted.now (assigned_by_entry (function_view function.now)) }
{
    match wanted.object {
        Object::Automatic(x) => {
            has_parameter(function, x) && is_wanted(wanted, function.spot.at, wanted.object)
        }
        _ => false,
    }
}

/// Whether a place of a function makes it.
fn is_in_function(wanted: &Wanted<'_>, function: &TypedFunction) -> bool
    ensures { result ≡ has_wanted wanted.now (assigned_by_function (function_view function.now)) }
{
    is_in_entry(wanted, function) || is_in_statements(wanted, &function.body)
}

/// Whether a place of the program makes it.
fn is_in_program(wanted: &Wanted<'_>) -> bool
    ensures { result ≡ has_wanted wanted.now (assigned_by_program (program_view wanted.now.program.now)) }
{
    for function in &wanted.program.functions {
        if is_in_function(wanted, function) {
            return true;
        }
    }
    false
}

/// The object that is the variable with a number, if the program has that variable.
fn object_of(program: &Program, var: Var) -> Option<Object>
    ensures { (x : Object) → (variable_number (program_view program.now) x ≡ Some var.0) ↔ (result ≡ Some x) }
{
    let number = var.0 as usize;
    let literals = program.statics.len();
    if number < literals {
        return Some(Object::Static(number as u32));
    }
    if number - literals < program.literals.len() {
        return Some(Object::Literal((number - literals) as u32));
    }
    let rest = number - literals - program.literals.len();
    if rest < program.automatics.len() {
        return Some(Object::Automatic(rest as u32));
    }
    None
}

/// Whether a place of a program, numbered from 1 in text order, assigns a variable. It takes no memory; for each
/// assignment of the variable that it meets
/// before it finds the one, it counts the places of the program anew.
pub fn assigns(program: &Program, place: Place, var: Var) -> bool
    ensures { IsTrue result ↔ Contains (assignments_of_program (program_view program.now))
        (record { place = place; var = var }) }
{
    match object_of(program, var) {
        None => false,
        Some(object) => is_in_program(&Wanted {
            program,
            number: place.0,
            object,
        }),
    }
}
