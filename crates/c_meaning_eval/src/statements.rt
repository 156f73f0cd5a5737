//! Statements, as they are executed (ISO/IEC 9899:2011, 6.8).

ghost use Rattle.std.specs.Prelude.{◌≡◌, ◌+◌, ◌<◌, ◌^◌, IfOk, length, map, option_map};
ghost use Rattle.c_tree.specs.TypedExpressions.{rvalue_view};
ghost use Rattle.c_tree.specs.TypedStatements.{Return, Switch, statement_view, statements_view, declared_view, start_view, step_view};
ghost use Rattle.c_meaning.specs.Activations.{at};
ghost use Rattle.c_meaning.specs.CActivationsViews.{activation_view};
ghost use Rattle.c_meaning.specs.Views.{begins, checks, declares, declares_all, executes, executes_all, initialises_elements, round_of, round_view, runs, steps, tests_at, values_at};
ghost use Rattle.c_meaning_steps.specs.Views.{evaluated_view, outcome_view, state_view, tested_view};
ghost use Rattle.c_meaning_steps.specs.States as states;
ghost use Rattle.c_meaning.specs.Statements.{do_round, for_round, loop, while_round};

use crate::execution::evaluate;
use c_meaning::{
    Activation, Round, behind_body, behind_step, close, element_type, initialise,
    initialise_by_literal, labelled, left_switch, make, store_element,
};
use c_meaning_steps::{End, Evaluated, Fault, Outcome, State, Tested, effect, tested};
use c_meaning_values::{Phase, Value};
use c_places::number_at;
use c_tree::{Declared, Initial, Rvalue, TypedStart, TypedStatement, TypedStatements, TypedStep};
use debug_records::Spot;
use std::alloc::{AllocError, Global};

/// The value of an expression is used that has none.
const NO_VALUE: End = End::Undefined(Fault::NoValueGiven);

// What a call gives; its failure is the function's own.
macro_rules! done {
    ($call:expr) => {
        match $call {
            Ok(value) => value,
            Err(fault) => return Err(fault),
        }
    };
}

/// What an expression of the place at a spot comes to.
#[cycle(run)]
fn value_at(
    alloc: Global,
    here: &Activation,
    spot: Spot,
    e: &Rvalue,
    state: &mut State,
) -> Result<Evaluated, AllocError>
    ensures { IfOk result (λ v.
        evaluated_view v (state_view state.new)
        ≡ values_at here.now spot (rvalue_view e.now) (state_view state.old)) }
{
    evaluate(alloc, here, number_at(here.places, spot.at), e, state)
}

/// Whether the condition of the place at a spot holds.
#[cycle(run)]
fn test_at(
    alloc: Global,
    here: &Activation,
    spot: Spot,
    e: &Rvalue,
    state: &mut State,
) -> Result<Tested, AllocError>
    ensures { IfOk result (λ t.
        tested_view t (state_view state.new) ≡ tests_at here.now spot (rvalue_view e.now) (state_view state.old)) }
{
    let value = done!(value_at(alloc, here, spot, e, state));
    Ok(tested(value, state))
}

/// A condition that may be left out.
#[cycle(run)]
fn check(
    alloc: Global,
    here: &Activation,
    spot: Spot,
    condition: &Option<Rvalue>,
    state: &mut State,
) -> Result<Tested, AllocError>
    ensures { IfOk result (λ t.
        tested_view t (state_view state.new) ≡ checks here.now spot (option_map rvalue_view condition.now)
        (state_view state.old)) }
{
    match condition {
        None => Ok(Tested::Holds),
        Some(e) => test_at(alloc, here, spot, e, state),
    }
}

/// An expression whose value is not used, as a place of its own.
#[cycle(run)]
fn run(
    alloc: Global,
    here: &Activation,
    spot: Spot,
    e: &Rvalue,
    state: &mut State,
) -> Result<Outcome, AllocError>
    ensures { IfOk result (λ o.
        outcome_view o (state_view state.new) ≡ runs here.now spot (rvalue_view e.now) (state_view state.old)) }
{
    if !done!(here.begin(alloc, spot, state)) {
        return Ok(Outcome::Ended(End::Turns));
    }
    let value = done!(value_at(alloc, here, spot, e, state));
    Ok(effect(value))
}

/// The third part of a `for`.
#[cycle(run)]
fn run_step(
    alloc: Global,
    here: &Activation,
    part: &Option<TypedStep>,
    state: &mut State,
) -> Result<Outcome, AllocError>
    ensures { IfOk result (λ o.
        outcome_view o (state_view state.new) ≡ steps here.now (option_map step_view part.now)
        (state_view state.old)) }
{
    match part {
        None => Ok(Outcome::Next),
        Some(part) => run(alloc, here, part.spot, &part.value, state),
    }
}

/// The first part of a `for`.
#[cycle(run)]
fn begin_loop(
    alloc: Global,
    here: &Activation,
    start: &TypedStart,
    state: &mut State,
) -> Result<Outcome, AllocError>
    ensures { IfOk result (λ o.
        outcome_view o (state_view state.new) ≡ begins here.now (start_view start.now) (state_view state.old)) }
{
    match start {
        TypedStart::Nothing => Ok(Outcome::Next),
        TypedStart::Expression { spot, value } => run(alloc, here, *spot, value, state),
        TypedStart::Declaration(all) => declare_all(alloc, here, all, state),
    }
}

/// Declarators in order.
#[cycle(run)]
fn declare_all(
    alloc: Global,
    here: &Activation,
    all: &[Declared],
    state: &mut State,
) -> Result<Outcome, AllocError>
    ensures { IfOk result (λ o.
        outcome_view o (state_view state.new) ≡ declares_all here.now (map declared_view all.now)
        (state_view state.old)) }
{
    match all.split_first() {
        None => Ok(Outcome::Next),
        Some((first, rest)) => match done!(declare(alloc, here, first, state)) {
            Outcome::Next => {
                let outcome = done!(declare_all(alloc, here, rest, state));
                Ok(outcome)
            }
            outcome => Ok(outcome),
        },
    }
}

/// A declarator.
#[cycle(run)]
fn declare(
    alloc: Global,
    here: &Activation,
    d: &Declared,
    state: &mut State,
) -> Result<Outcome, AllocError>
    ensures { IfOk result (λ o.
        outcome_view o (state_view state.new) ≡ declares here.now (declared_view d.now) (state_view state.old)) }
{
    if !done!(here.begin(alloc, d.spot, state)) {
        return Ok(Outcome::Ended(End::Turns));
    }
    let object = state.memory.all.len();
    match &d.initial {
        Initial::Zero => {
            make(alloc, here, Phase::Live, d.variable as usize, state)?;
            Ok(Outcome::Next)
        }
        Initial::Scalar(e) => {
            make(alloc, here, Phase::Initialising, d.variable as usize, state)?;
            match done!(value_at(alloc, here, d.spot, e, state)) {
                Evaluated::Gives(value) => {
                    initialise(object, value, state);
                    Ok(Outcome::Next)
                }
                Evaluated::Leaves => Ok(Outcome::Ended(NO_VALUE)),
                Evaluated::Ends(ending) => Ok(Outcome::Ended(ending)),
            }
        }
        Initial::Elements(all) => {
            make(alloc, here, Phase::Live, d.variable as usize, state)?;
            let outcome = done!(initialise_elements(alloc, here, d.spot, object, 0, all, state));
            Ok(outcome)
        }
        Initial::Literal(number) => {
            make(alloc, here, Phase::Live, d.variable as usize, state)?;
            let of = element_type(here, d.variable as usize);
            initialise_by_literal(&here.program.array_literals, of, *number, object, state);
            Ok(Outcome::Next)
        }
    }
}

/// Elements of an array from an index on.
#[cycle(run)]
fn initialise_elements(
    alloc: Global,
    here: &Activation,
    spot: Spot,
    object: usize,
    index: usize,
    all: &[Rvalue],
    state: &mut State,
) -> Result<Outcome, AllocError>
    requires { index + length all.now < 2 ^ 64 }
    ensures { IfOk result (λ o.
        outcome_view o (state_view state.new) ≡ initialises_elements here.now spot object index
        (map rvalue_view all.now) (state_view state.old)) }
{
    match all.split_first() {
        None => Ok(Outcome::Next),
        Some((first, rest)) => match done!(value_at(alloc, here, spot, first, state)) {
            Evaluated::Gives(value) => {
                store_element(object, index, value, state);
                let outcome = done!(initialise_elements(
                    alloc,
                    here,
                    spot,
                    object,
                    index + 1,
                    rest,
                    state,
                ));
                Ok(outcome)
            }
            Evaluated::Leaves => Ok(Outcome::Ended(NO_VALUE)),
            Evaluated::Ends(ending) => Ok(Outcome::Ended(ending)),
        },
    }
}

/// What a statement comes to.
#[cycle(run)]
fn execute(
    alloc: Global,
    here: &Activation,
    statement: &TypedStatement,
    state: &mut State,
) -> Result<Outcome, AllocError>
    ensures { IfOk result (λ o.
        outcome_view o (state_view state.new) ≡ executes here.now (statement_view statement.now)
        (state_view state.old)) }
{
    match statement {
        TypedStatement::Block(all) => {
            let first = state.memory.all.len();
            let outcome = done!(execute_all(alloc, here, all, state));
            close(first, outcome, state);
            Ok(outcome)
        }
        TypedStatement::Declaration(all) => declare_all(alloc, here, all, state),
        TypedStatement::Empty(spot) => pass(alloc, here, *spot, Outcome::Next, state),
        TypedStatement::Expression { spot, value } => run(alloc, here, *spot, value, state),
        TypedStatement::If {
            spot,
            condition,
            then,
        } => {
            if !done!(here.begin(alloc, *spot, state)) {
                return Ok(Outcome::Ended(End::Turns));
            }
            match done!(test_at(alloc, here, *spot, condition, state)) {
                Tested::Holds => {
                    let outcome = done!(execute(alloc, here, then, state));
                    Ok(outcome)
                }
                Tested::Fails => Ok(Outcome::Next),
                Tested::NoTest(ending) => Ok(Outcome::Ended(ending)),
            }
        }
        TypedStatement::IfElse {
            spot,
            condition,
            then,
            otherwise,
        } => {
            if !done!(here.begin(alloc, *spot, state)) {
                return Ok(Outcome::Ended(End::Turns));
            }
            match done!(test_at(alloc, here, *spot, condition, state)) {
                Tested::Holds => {
                    let outcome = done!(execute(alloc, here, then, state));
                    Ok(outcome)
                }
                Tested::Fails => {
                    let outcome = done!(execute(alloc, here, otherwise, state));
                    Ok(outcome)
                }
                Tested::NoTest(ending) => Ok(Outcome::Ended(ending)),
            }
        }
        TypedStatement::While { .. } => execute_loop(alloc, here, statement, state),
        TypedStatement::DoWhile { .. } => execute_loop(alloc, here, statement, state),
        TypedStatement::For { start, .. } => {
            let first = state.memory.all.len();
            let outcome = match done!(begin_loop(alloc, here, start, state)) {
                Outcome::Next => execute_loop(alloc, here, statement, state)?,
                outcome => outcome,
            };
            close(first, outcome, state);
            Ok(outcome)
        }
        TypedStatement::Switch { spot, value, body } => {
            execute_switch(alloc, here, *spot, value, body, state)
        }
        TypedStatement::Break(spot) => pass(alloc, here, *spot, Outcome::Broken, state),
        TypedStatement::Continue(spot) => pass(alloc, here, *spot, Outcome::Continued, state),
        TypedStatement::Return { spot, value } => {
            execute_return(alloc, here, *spot, value, state)
        }
    }
}

/// A place at which nothing is done: control leaves it as an outcome says, where a turn is left.
fn pass(
    alloc: Global,
    here: &Activation,
    spot: Spot,
    outcome: Outcome,
    state: &mut State,
) -> Result<Outcome, AllocError>
    ensures { IfOk result (λ o.
        outcome_view o (state_view state.new) ≡ at (activation_view here.now) spot (state_view state.old)
        (outcome_view outcome)) }
{
    if here.begin(alloc, spot, state)? {
        Ok(outcome)
    } else {
        Ok(Outcome::Ended(End::Turns))
    }
}

/// Statements in order, through labels.
#[cycle(run)]
pub fn execute_all(
    alloc: Global,
    here: &Activation,
    all: &TypedStatements,
    state: &mut State,
) -> Result<Outcome, AllocError>
    ensures { IfOk result (λ o.
        outcome_view o (state_view state.new) ≡ executes_all here.now (statements_view all.now)
        (state_view state.old)) }
{
    match all {
        TypedStatements::End => Ok(Outcome::Next),
        TypedStatements::More(first, rest) => match done!(execute(alloc, here, first, state)) {
            Outcome::Next => {
                let outcome = done!(execute_all(alloc, here, rest, state));
                Ok(outcome)
            }
            outcome => Ok(outcome),
        },
        TypedStatements::Case(_, rest) | TypedStatements::Default(rest) => {
            execute_all(alloc, here, rest, state)
        }
    }
}

/// A `switch`.
#[cycle(run)]
fn execute_switch(
    alloc: Global,
    here: &Activation,
    spot: Spot,
    value: &Rvalue,
    body: &TypedStatements,
    state: &mut State,
) -> Result<Outcome, AllocError>
    ensures { IfOk result (λ o.
        outcome_view o (state_view state.new) ≡ executes here.now
        (Switch spot (rvalue_view value.now) (statements_view body.now)) (state_view state.old)) }
{
    if !done!(here.begin(alloc, spot, state)) {
        return Ok(Outcome::Ended(End::Turns));
    }
    match done!(value_at(alloc, here, spot, value, state)) {
        Evaluated::Gives(Value::Number(number)) => {
            let outcome = done!(execute_all(alloc, here, labelled(number, body), state));
            Ok(left_switch(outcome))
        }
        Evaluated::Gives(_) => Ok(Outcome::Ended(End::Undefined(Fault::Untyped))),
        Evaluated::Leaves => Ok(Outcome::Ended(NO_VALUE)),
        Evaluated::Ends(ending) => Ok(Outcome::Ended(ending)),
    }
}

/// A `return`.
#[cycle(run)]
fn execute_return(
    alloc: Global,
    here: &Activation,
    spot: Spot,
    value: &Option<Rvalue>,
    state: &mut State,
) -> Result<Outcome, AllocError>
    ensures { IfOk result (λ o.
        outcome_view o (state_view state.new) ≡ executes here.now (Return spot (option_map rvalue_view value.now))
        (state_view state.old)) }
{
    if !done!(here.begin(alloc, spot, state)) {
        return Ok(Outcome::Ended(End::Turns));
    }
    match value {
        None => Ok(Outcome::Returned(None)),
        Some(e) => match done!(value_at(alloc, here, spot, e, state)) {
            Evaluated::Gives(value) => Ok(Outcome::Returned(Some(value))),
            Evaluated::Leaves => Ok(Outcome::Ended(NO_VALUE)),
            Evaluated::Ends(ending) => Ok(Outcome::Ended(ending)),
        },
    }
}

/// A loop, behind the first part of a `for`.
#[cycle(run)]
#[tactic(auto, using(crate::proofs::Rounds::rounds_step))]
fn execute_loop(
    alloc: Global,
    here: &Activation,
    statement: &TypedStatement,
    state: &mut State,
) -> Result<Outcome, AllocError>
    ensures { IfOk result (λ o.
        outcome_view o (state_view state.new) ≡ loop (round_of here.now (statement_view statement.now))
        (state_view state.old)) }
{
    let mut rest = state.turns;
    while rest > 0 {
        rest -= 1;
        let round = done!(execute_round(alloc, here, statement, state));
        match round {
            Round::Again => {}
            Round::Leave(outcome) => return Ok(outcome),
        }
    }
    Ok(Outcome::Ended(End::Turns))
}

/// A round of a loop.
#[cycle(run)]
fn execute_round(
    alloc: Global,
    here: &Activation,
    statement: &TypedStatement,
    state: &mut State,
) -> Result<Round, AllocError>
    ensures { IfOk result (λ r.
        (again : states.State → states.Outcome)
        → round_view r again (state_view state.new) ≡ round_of here.now (statement_view statement.now) again
        (state_view state.old)) }
{
    match statement {
        TypedStatement::While {
            spot,
            condition,
            body,
        } => while_round(alloc, here, *spot, condition, body, state),
        TypedStatement::DoWhile {
            body,
            spot,
            condition,
        } => do_round(alloc, here, *spot, condition, body, state),
        TypedStatement::For {
            spot,
            condition,
            step,
            body,
            ..
        } => for_round(alloc, here, *spot, condition, step, body, state),
        _ => Ok(Round::Again),
    }
}

/// A round of `while`.
#[cycle(run)]
fn while_round(
    alloc: Global,
    here: &Activation,
    spot: Spot,
    condition: &Rvalue,
    body: &TypedStatement,
    state: &mut State,
) -> Result<Round, AllocError>
    ensures { IfOk result (λ r.
        (again : states.State → states.Outcome)
        → round_view r again (state_view state.new) ≡ while_round (activation_view here.now) spot
        (tests_at here.now spot (rvalue_view condition.now)) (executes here.now (statement_view body.now)) again
        (state_view state.old)) }
{
    if !done!(here.begin(alloc, spot, state)) {
        return Ok(Round::Leave(Outcome::Ended(End::Turns)));
    }
    match done!(test_at(alloc, here, spot, condition, state)) {
        Tested::Holds => {
            let outcome = done!(execute(alloc, here, body, state));
            Ok(behind_body(outcome))
        }
        Tested::Fails => Ok(Round::Leave(Outcome::Next)),
        Tested::NoTest(ending) => Ok(Round::Leave(Outcome::Ended(ending))),
    }
}

/// A round of `do`.
#[cycle(run)]
fn do_round(
    alloc: Global,
    here: &Activation,
    spot: Spot,
    condition: &Rvalue,
    body: &TypedStatement,
    state: &mut State,
) -> Result<Round, AllocError>
    ensures { IfOk result (λ r.
        (again : states.State → states.Outcome)
        → round_view r again (state_view state.new) ≡ do_round (activation_view here.now) spot
        (tests_at here.now spot (rvalue_view condition.now)) (executes here.now (statement_view body.now)) again
        (state_view state.old)) }
{
    let outcome = done!(execute(alloc, here, body, state));
    match behind_body(outcome) {
        Round::Leave(outcome) => Ok(Round::Leave(outcome)),
        Round::Again => {
            if !done!(here.begin(alloc, spot, state)) {
                return Ok(Round::Leave(Outcome::Ended(End::Turns)));
            }
            match done!(test_at(alloc, here, spot, condition, state)) {
                Tested::Holds => Ok(Round::Again),
                Tested::Fails => Ok(Round::Leave(Outcome::Next)),
                Tested::NoTest(ending) => Ok(Round::Leave(Outcome::Ended(ending))),
            }
        }
    }
}

/// A round of `for`.
#[cycle(run)]
fn for_round(
    alloc: Global,
    here: &Activation,
    spot: Spot,
    condition: &Option<Rvalue>,
    part: &Option<TypedStep>,
    body: &TypedStatement,
    state: &mut State,
) -> Result<Round, AllocError>
    ensures { IfOk result (λ r.
        (again : states.State → states.Outcome)
        → round_view r again (state_view state.new) ≡ for_round (activation_view here.now) spot
        (checks here.now spot (option_map rvalue_view condition.now))
        (executes here.now (statement_view body.now)) (steps here.now (option_map step_view part.now)) again
        (state_view state.old)) }
{
    if !done!(here.begin(alloc, spot, state)) {
        return Ok(Round::Leave(Outcome::Ended(End::Turns)));
    }
    match done!(check(alloc, here, spot, condition, state)) {
        Tested::Holds => {
            let outcome = done!(execute(alloc, here, body, state));
            match behind_body(outcome) {
                Round::Leave(outcome) => Ok(Round::Leave(outcome)),
                Round::Again => {
                    let outcome = done!(run_step(alloc, here, part, state));
                    Ok(behind_step(outcome))
                }
            }
        }
        Tested::Fails => Ok(Round::Leave(Outcome::Next)),
        Tested::NoTest(ending) => Ok(Round::Leave(Outcome::Ended(ending))),
    }
}
