//! Expressions, statements and calls, as they are executed (ISO/IEC 9899:2011, 6.5, 6.8, 6.9.1).

ghost use Rattle.std.specs.Prelude.{◌≡◌, IfOk, map, slice_get};
ghost use Rattle.c_tree.specs.Programs.{program_view};
ghost use Rattle.c_tree.specs.TypedExpressions.{rvalue_view, lvalue_view, arguments_view};
ghost use Rattle.c_meaning.specs.CActivationsViews.{activation_view};
ghost use Rattle.c_meaning.specs.Views.{behind, designates, evaluates, evaluates_all, listed_view};
ghost use Rattle.c_meaning_steps.specs.Views.{both_view, evaluated_view, state_view, tested_view};
ghost use Rattle.c_places.specs.Places.{place_view};
ghost use Rattle.c_meaning_steps.specs.States.{both_operands, condition_tested};
ghost use Rattle.c_meaning.specs.Expressions.{call};
ghost use Rattle.c_meaning_steps.specs.Steps.{left_side_read};
ghost use Rattle.c_meaning.specs.Runs.{activate, calls_at, calls_of};

use crate::statements::execute_all as execute_statements;
use c_meaning::{
    Activation, at_close, bind, enter, forget, function_at, handed_back, of_object, of_operand,
    of_operands, of_right_side,
};
use c_meaning_steps::{
    End, Evaluated, Fault, Frame, Operands, Standing, State, Tested, given, leave, located,
    moved_behind, moved_from, named, next_byte, put, second, tested, truth_of, usable_from,
};
use c_meaning_values::Value;
use c_places::Place;
use c_tree::{Arguments, Callee, Lvalue, Program, Rvalue};
use std::alloc::{AllocError, Global};

/// The value of an expression is used that has none.
const NO_VALUE: End = End::Undefined(Fault::NoValueGiven);

/// What no accepted program does.
const UNTYPED: Evaluated = Evaluated::Ends(End::Undefined(Fault::Untyped));

// What a call gives; its failure is the function's own.
macro_rules! done {
    ($call:expr) => {
        match $call {
            Ok(value) => value,
            Err(fault) => return Err(fault),
        }
    };
}

/// What an expression comes to at a place.
#[cycle(run)]
pub fn evaluate(
    alloc: Global,
    here: &Activation,
    place: usize,
    e: &Rvalue,
    state: &mut State,
) -> Result<Evaluated, AllocError>
    ensures { IfOk result (λ v.
        evaluated_view v (state_view state.new) ≡ evaluates here.now place (rvalue_view e.now)
        (state_view state.old)) }
{
    match e {
        Rvalue::Constant { value, .. } => Ok(Evaluated::Gives(Value::Number(*value))),
        Rvalue::Null => Ok(Evaluated::Gives(Value::Null)),
        Rvalue::Load { from, .. } | Rvalue::Decay(from) | Rvalue::AddressOf(from) => {
            let found = done!(designate(alloc, here, place, from, state));
            Ok(of_object(e, found, state))
        }
        Rvalue::Convert { operand, .. }
        | Rvalue::Signed { operand, .. }
        | Rvalue::Discard(operand)
        | Rvalue::Not(operand) => {
            let value = done!(evaluate(alloc, here, place, operand, state));
            Ok(of_operand(e, value, state))
        }
        Rvalue::Arithmetic { left, right, .. }
        | Rvalue::Compare { left, right, .. }
        | Rvalue::ComparePointers { left, right, .. }
        | Rvalue::Difference { left, right, .. }
        | Rvalue::Move {
            pointer: left,
            by: right,
            ..
        }
        | Rvalue::MoveFrom {
            by: left,
            pointer: right,
            ..
        } => {
            let operands = done!(evaluate_both(alloc, here, place, left, right, state));
            Ok(of_operands(e, operands, state))
        }
        Rvalue::And(left, right) => match done!(evaluate_test(alloc, here, place, left, state)) {
            Tested::Holds => {
                let test = done!(evaluate_test(alloc, here, place, right, state));
                Ok(truth_of(test))
            }
            Tested::Fails => Ok(Evaluated::Gives(Value::Number(0))),
            Tested::NoTest(ending) => Ok(Evaluated::Ends(ending)),
        },
        Rvalue::Or(left, right) => match done!(evaluate_test(alloc, here, place, left, state)) {
            Tested::Holds => Ok(Evaluated::Gives(Value::Number(1))),
            Tested::Fails => {
                let test = done!(evaluate_test(alloc, here, place, right, state));
                Ok(truth_of(test))
            }
            Tested::NoTest(ending) => Ok(Evaluated::Ends(ending)),
        },
        Rvalue::Conditional {
            condition,
            then,
            otherwise,
        } => match done!(evaluate_test(alloc, here, place, condition, state)) {
            Tested::Holds => {
                let value = done!(evaluate(alloc, here, place, then, state));
                Ok(value)
            }
            Tested::Fails => {
                let value = done!(evaluate(alloc, here, place, otherwise, state));
                Ok(value)
            }
            Tested::NoTest(ending) => Ok(Evaluated::Ends(ending)),
        },
        Rvalue::Comma(left, right) => match done!(evaluate(alloc, here, place, left, state)) {
            Evaluated::Gives(_) | Evaluated::Leaves => {
                let value = done!(evaluate(alloc, here, place, right, state));
                Ok(value)
            }
            Evaluated::Ends(ending) => Ok(Evaluated::Ends(ending)),
        },
        Rvalue::Assign { target, value, .. } => {
            let operands = done!(designate_and_evaluate(alloc, here, place, target, value, state));
            Ok(of_operands(e, operands, state))
        }
        Rvalue::Update { target, value, .. }
        | Rvalue::UpdatePointer {
            target,
            by: value,
            ..
        } => match done!(locate(alloc, here, place, target, state)) {
            Operands::Pair(pointer, old) => {
                let right = done!(evaluate(alloc, here, place, value, state));
                Ok(of_right_side(e, pointer, old, right, state))
            }
            Operands::NoPair(ending) => Ok(Evaluated::Ends(ending)),
        },
        Rvalue::Step { target, .. } | Rvalue::StepPointer { target, .. } => {
            let operands = done!(locate(alloc, here, place, target, state));
            Ok(of_operands(e, operands, state))
        }
        Rvalue::Call { callee, arguments } => {
            let mut values = Vec::new(alloc);
            match done!(evaluate_all(alloc, here, place, arguments, &mut values, state)) {
                Some(ending) => Ok(Evaluated::Ends(ending)),
                None => {
                    let value = done!(call_callee(alloc, here, place, *callee, &values, state));
                    Ok(value)
                }
            }
        }
    }
}

/// Whether an expression is true at a place.
#[cycle(run)]
fn evaluate_test(
    alloc: Global,
    here: &Activation,
    place: usize,
    e: &Rvalue,
    state: &mut State,
) -> Result<Tested, AllocError>
    ensures { IfOk result (λ t.
        tested_view t (state_view state.new) ≡ condition_tested
        (evaluates here.now place (rvalue_view e.now) (state_view state.old))) }
{
    let value = done!(evaluate(alloc, here, place, e, state));
    Ok(tested(value, state))
}

/// What two expressions come to, from left to right.
#[cycle(run)]
fn evaluate_both(
    alloc: Global,
    here: &Activation,
    place: usize,
    left: &Rvalue,
    right: &Rvalue,
    state: &mut State,
) -> Result<Operands, AllocError>
    ensures { IfOk result (λ b.
        both_view b (state_view state.new) ≡ both_operands
        (evaluates here.now place (rvalue_view left.now) (state_view state.old))
        (evaluates here.now place (rvalue_view right.now))) }
{
    match done!(evaluate(alloc, here, place, left, state)) {
        Evaluated::Gives(value) => {
            let other = done!(evaluate(alloc, here, place, right, state));
            Ok(second(value, other))
        }
        Evaluated::Leaves => Ok(Operands::NoPair(NO_VALUE)),
        Evaluated::Ends(ending) => Ok(Operands::NoPair(ending)),
    }
}

/// The object of an assignment, and then the right side.
#[cycle(run)]
fn designate_and_evaluate(
    alloc: Global,
    here: &Activation,
    place: usize,
    target: &Lvalue,
    right: &Rvalue,
    state: &mut State,
) -> Result<Operands, AllocError>
    ensures { IfOk result (λ b.
        both_view b (state_view state.new) ≡ both_operands
        (designates here.now place (lvalue_view target.now) (state_view state.old))
        (evaluates here.now place (rvalue_view right.now))) }
{
    match done!(designate(alloc, here, place, target, state)) {
        Evaluated::Gives(value) => {
            let other = done!(evaluate(alloc, here, place, right, state));
            Ok(second(value, other))
        }
        Evaluated::Leaves => Ok(Operands::NoPair(NO_VALUE)),
        Evaluated::Ends(ending) => Ok(Operands::NoPair(ending)),
    }
}

/// The object of a left side, and what it holds.
#[cycle(run)]
fn locate(
    alloc: Global,
    here: &Activation,
    place: usize,
    target: &Lvalue,
    state: &mut State,
) -> Result<Operands, AllocError>
    ensures { IfOk result (λ b.
        both_view b (state_view state.new) ≡ left_side_read
        (designates here.now place (lvalue_view target.now) (state_view state.old))) }
{
    let found = done!(designate(alloc, here, place, target, state));
    Ok(located(found, state))
}

/// A pointer to the object that an lvalue designates.
#[cycle(run)]
fn designate(
    alloc: Global,
    here: &Activation,
    place: usize,
    l: &Lvalue,
    state: &mut State,
) -> Result<Evaluated, AllocError>
    ensures { IfOk result (λ v.
        evaluated_view v (state_view state.new) ≡ designates here.now place (lvalue_view l.now)
        (state_view state.old)) }
{
    match l {
        Lvalue::Named { object, .. } => {
            let object = named(here.depth(), *object, &state.memory);
            Ok(given(object, Fault::Untyped))
        }
        Lvalue::Target { pointer, .. } => {
            let found = done!(evaluate(alloc, here, place, pointer, state));
            Ok(usable_from(found, state))
        }
        Lvalue::Element { of, pointer, index } => {
            let operands = done!(evaluate_both(alloc, here, place, pointer, index, state));
            Ok(moved_from(c_tree::Direction::Up, *of, operands, state))
        }
        Lvalue::ElementFrom { of, index, pointer } => {
            let operands = done!(evaluate_both(alloc, here, place, index, pointer, state));
            Ok(moved_behind(*of, operands, state))
        }
    }
}

/// The values of arguments, behind earlier ones; or how the run ends within one.
#[cycle(run)]
fn evaluate_all(
    alloc: Global,
    here: &Activation,
    place: usize,
    arguments: &Arguments,
    values: &mut Vec<Value>,
    state: &mut State,
) -> Result<Option<End>, AllocError>
    ensures { IfOk result (λ r.
        listed_view r values.new.items (state_view state.new) ≡ behind values.old.items
        (evaluates_all here.now place (arguments_view arguments.now) (state_view state.old))) }
{
    match arguments {
        Arguments::End => Ok(None),
        Arguments::More(first, rest) => match done!(evaluate(alloc, here, place, first, state)) {
            Evaluated::Gives(value) => {
                values.push(value)?;
                let ending = done!(evaluate_all(alloc, here, place, rest, values, state));
                Ok(ending)
            }
            Evaluated::Leaves => Ok(Some(NO_VALUE)),
            Evaluated::Ends(ending) => Ok(Some(ending)),
        },
    }
}

/// Control goes on at the place of a call, unless the run ended within it.
fn return_to(at: Standing, value: Evaluated, state: &mut State)
    ensures { state_view state.new ≡ state_view state.old }
{
    if !matches!(value, Evaluated::Ends(_)) {
        state.at = Some(at);
    }
}

/// A call of a function of the program, or of the library.
#[cycle(run)]
fn call_callee(
    alloc: Global,
    here: &Activation,
    place: usize,
    callee: Callee,
    values: &[Value],
    state: &mut State,
) -> Result<Evaluated, AllocError>
    ensures { IfOk result (λ v.
        evaluated_view v (state_view state.new) ≡ call (calls_at (activation_view here.now) here.now.left place)
        callee values.now (state_view state.old)) }
{
    match callee {
        Callee::Function(function) => {
            let frames = here.frames_at(alloc, place)?;
            let value = call_function(
                alloc,
                here.program,
                here.places,
                here.left,
                &frames,
                function,
                values,
                state,
            )?;
            return_to(here.standing_at(place), value, state);
            Ok(value)
        }
        Callee::Getchar => Ok(next_byte(state)),
        Callee::Putchar => match values {
            [value] => put(*value, state),
            _ => Ok(UNTYPED),
        },
        Callee::Exit => match values {
            [value] => Ok(leave(*value)),
            _ => Ok(UNTYPED),
        },
    }
}

/// What a called function comes to.
#[cycle(run)]
#[tactic(auto, using(crate::proofs::Rounds::calls_step))]
pub fn call_function(
    alloc: Global,
    program: &Program,
    places: &[Place],
    left: usize,
    waiting: &[Frame],
    function: u32,
    values: &[Value],
    state: &mut State,
) -> Result<Evaluated, AllocError>
    ensures { IfOk result (λ v.
        evaluated_view v (state_view state.new) ≡ calls_of (program_view program.now) (map place_view places.now)
        left waiting.now function values.now (state_view state.old)) }
{
    if left == 0 {
        return Ok(Evaluated::Ends(End::Depth));
    }
    let here = Activation {
        program,
        places,
        function,
        waiting,
        left: left - 1,
    };
    let value = done!(activate(alloc, &here, values, state));
    Ok(value)
}

/// An activation of a function.
#[cycle(run)]
fn activate(
    alloc: Global,
    here: &Activation,
    values: &[Value],
    state: &mut State,
) -> Result<Evaluated, AllocError>
    ensures { IfOk result (λ v.
        evaluated_view v (state_view state.new) ≡ activate (calls_at (activation_view here.now) here.now.left)
        (activation_view here.now) (slice_get (program_view here.now.program.now).functions here.now.function)
        values.now (state_view state.old)) }
{
    match function_at(here.program, here.function) {
        None => Ok(UNTYPED),
        Some(function) => {
            if !enter(state) {
                return Ok(Evaluated::Ends(End::Turns));
            }
            let first = state.memory.all.len();
            bind(alloc, here, function, values, state)?;
            let outcome = done!(execute_statements(alloc, here, &function.body, state));
            let closed = done!(at_close(alloc, here, function.close, outcome, state));
            let value = handed_back(here.function == here.program.main, closed);
            forget(first, value, state);
            Ok(value)
        }
    }
}
