//! What begins and ends an activation (ISO/IEC 9899:2011, 5.1.2.2, 6.5.2.2, 6.9.1).

ghost use Rattle.std.specs.Prelude.{◌≡◌, ◌+◌, ◌<◌, ◌^◌, OnOk, IfOk, MatchOption, Some, None, map, slice_get};
ghost use Rattle.c_tree.specs.Programs.{function_view, program_view};
ghost use Rattle.c_meaning.specs.CActivationsViews.{activation_view, entered_view};
ghost use Rattle.c_meaning_steps.specs.Views.{evaluated_view, outcome_view, state_view};
ghost use Rattle.c_meaning_values.specs.Views.{object_view};
ghost use Rattle.c_meaning_steps.specs.States as states;
ghost use Rattle.c_places.specs.Places.{numbers_from, parameters_of};
ghost use Rattle.c_meaning.specs.Calls.{at_close, bind, bind_one, enter_turn, handed_back};

use crate::activation::Activation;
use crate::lifetimes::variable_at;
use c_meaning_steps::{End, Evaluated, Fault, Outcome, State};
use c_meaning_values::{Object, Owner, Phase, Value};
use c_tree::{Program, TypedFunction};
use debug_records::Spot;
use std::alloc::{AllocError, Global};

/// The function of a number.
pub fn function_at(program: &Program, function: u32) -> Option<&TypedFunction>
    ensures { MatchOption result (slice_get (program_view program.now).functions function ≡ None) (λ f.
        slice_get (program_view program.now).functions function ≡ Some (function_view f.now)) }
{
    program.functions.get(function as usize)
}

/// A turn that is no stop, where one is left.
pub fn enter(state: &mut State) -> bool
    ensures { entered_view result (state_view state.new) ≡ enter_turn (state_view state.old) }
{
    if state.turns == 0 {
        return false;
    }
    state.turns -= 1;
    true
}

/// What a function's body leaves to its caller.
pub fn handed_back(is_main: bool, outcome: Outcome) -> Evaluated
    ensures { (s : states.State) → evaluated_view result s ≡ handed_back is_main (outcome_view outcome s) }
{
    match outcome {
        Outcome::Next => {
            if is_main {
                Evaluated::Gives(Value::Number(0))
            } else {
                Evaluated::Leaves
            }
        }
        Outcome::Returned(Some(value)) => Evaluated::Gives(value),
        Outcome::Returned(None) => Evaluated::Leaves,
        Outcome::Broken | Outcome::Continued => Evaluated::Ends(End::Undefined(Fault::Untyped)),
        Outcome::Ended(ending) => Evaluated::Ends(ending),
    }
}

/// The closing brace, where control reaches it.
pub fn at_close(
    alloc: Global,
    here: &Activation,
    close: Spot,
    outcome: Outcome,
    state: &mut State,
) -> Result<Outcome, AllocError>
    ensures { IfOk result (λ o.
        outcome_view o (state_view state.new) ≡ at_close (activation_view here.now) close
        (outcome_view outcome (state_view state.old))) }
{
    match outcome {
        Outcome::Next => {
            if here.begin(alloc, close, state)? {
                Ok(Outcome::Next)
            } else {
                Ok(Outcome::Ended(End::Turns))
            }
        }
        outcome => Ok(outcome),
    }
}

/// Each parameter is an object of its own, with the value of its argument.
pub fn bind(
    alloc: Global,
    here: &Activation,
    function: &TypedFunction,
    values: &[Value],
    state: &mut State,
) -> Result<(), AllocError>
    ensures { OnOk result
        (state_view state.new ≡ record (state_view state.old) {
          memory = bind (activation_view here.now)
              (parameters_of (function_view function.now)) values.now (state_view state.old).memory;
        }) }
{
    bind_from(
        alloc,
        here,
        function.first_variable as usize,
        function.parameters as usize,
        values,
        state,
    )
}

/// So many parameters from a number on.
fn bind_from(
    alloc: Global,
    here: &Activation,
    variable: usize,
    count: usize,
    values: &[Value],
    state: &mut State,
) -> Result<(), AllocError>
    requires { variable + count < 2 ^ 34 }
    ensures { OnOk result
        (state_view state.new ≡ record (state_view state.old) {
          memory = bind (activation_view here.now)
              (numbers_from variable count) values.now (state_view state.old).memory;
        }) }
{
    if count == 0 {
        return Ok(());
    }
    match values.split_first() {
        None => Ok(()),
        Some((value, rest)) => {
            bind_one(alloc, here, variable, *value, state)?;
            bind_from(alloc, here, variable + 1, count - 1, rest, state)
        }
    }
}

/// One parameter.
fn bind_one(
    alloc: Global,
    here: &Activation,
    variable: usize,
    value: Value,
    state: &mut State,
) -> Result<(), AllocError>
    ensures { OnOk result
        (state_view state.new ≡ record (state_view state.old)
        { memory = bind_one (activation_view here.now) variable value (state_view state.old).memory }) }
{
    let depth = here.depth();
    match variable_at(here.program, variable) {
        None => Ok(()),
        Some(found) => {
            let owner = Owner::Variable { variable, depth };
            let mut object = Object::new(alloc, owner, found.of, Phase::Live)?;
            object.set(0, value);
            state.memory.push(object)?;
            Ok(())
        }
    }
}
