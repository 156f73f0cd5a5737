//! The objects that declarators, parameters and blocks begin and end (ISO/IEC 9899:2011, 6.2.4, 6.7.9).

ghost use Rattle.std.specs.Prelude.{◌≡◌, MatchOption, None, OnOk, Some, map, slice_get};
ghost use Rattle.c_tree.specs.Programs.{automatic_view, literal_view, program_view};
ghost use Rattle.c_meaning_values.specs.Memory.{begun, set_value};
ghost use Rattle.c_meaning.specs.CActivationsViews.{activation_view};
ghost use Rattle.c_meaning_steps.specs.Views.{evaluated_view, outcome_view, state_view};
ghost use Rattle.c_meaning_values.specs.Views.{object_view};
ghost use Rattle.c_meaning.specs.Lifetimes.{lifetimes_ended, element_type, element_value, ending_from, literal_values, made, set_values};
ghost use Rattle.c_meaning.specs.Calls.{forgotten};

use crate::activation::Activation;
use c_meaning_steps::{Evaluated, Outcome, State};
use c_meaning_values::{Object, Objects, Owner, Phase, Value, element_of};
use c_tree::{AutomaticVariable, IntegerType, Program, StringLiteral};
use c_type_rules::wrapped;
use std::alloc::{AllocError, Global};

/// The automatic variable of a number.
pub fn variable_at(program: &Program, variable: usize) -> Option<&AutomaticVariable>
    ensures { MatchOption result (slice_get (program_view program.now).automatics variable ≡ None) (λ a.
        slice_get (program_view program.now).automatics variable ≡ Some (automatic_view a.now)) }
{
    program.automatics.get(variable)
}

/// The literal of a number.
fn literal_at(literals: &[StringLiteral], number: u32) -> Option<&StringLiteral>
    ensures { MatchOption result (slice_get (map literal_view literals.now) number ≡ None) (λ l.
        slice_get (map literal_view literals.now) number ≡ Some (literal_view l.now)) }
{
    literals.get(number as usize)
}

/// A new object of a variable, if the program has it.
pub fn make(
    alloc: Global,
    here: &Activation,
    phase: Phase,
    variable: usize,
    state: &mut State,
) -> Result<(), AllocError>
    ensures { OnOk result (state_view state.new ≡ made (activation_view here.now) phase variable (state_view state.old)) }
{
    let depth = here.depth();
    match variable_at(here.program, variable) {
        None => Ok(()),
        Some(found) => {
            let object = Object::new(alloc, Owner::Variable { variable, depth }, found.of, phase)?;
            state.memory.push(object)?;
            Ok(())
        }
    }
}

/// All objects from a number on end.
pub fn end_objects(first: usize, state: &mut State)
    ensures { state_view state.new ≡ ending_from first (state_view state.old) }
{
    state.memory.end_from(first);
}

/// A block is left.
pub fn close(first: usize, outcome: Outcome, state: &mut State)
    ensures { outcome_view outcome (state_view state.new) ≡ lifetimes_ended first (outcome_view outcome (state_view state.old)) }
{
    match outcome {
        Outcome::Next | Outcome::Broken | Outcome::Continued | Outcome::Returned(_) => {
            end_objects(first, state);
        }
        Outcome::Ended(_) => {}
    }
}

/// An activation is left.
pub fn forget(first: usize, value: Evaluated, state: &mut State)
    ensures { evaluated_view value (state_view state.new)
        ≡ forgotten first (evaluated_view value (state_view state.old)) }
{
    match value {
        Evaluated::Gives(_) | Evaluated::Leaves => end_objects(first, state),
        Evaluated::Ends(_) => {}
    }
}

/// A scalar gets its first value, and can be read from now on.
pub fn initialise(object: usize, value: Value, state: &mut State)
    ensures { state_view state.new ≡ record (state_view state.old)
        { memory = begun (set_value (state_view state.old).memory object 0 value) object } }
{
    state.memory.set_value(object, 0, value);
    state.memory.begin(object);
}

/// An element gets its first value.
pub fn store_element(object: usize, index: usize, value: Value, state: &mut State)
    ensures { state_view state.new ≡ record (state_view state.old)
        { memory = set_value (state_view state.old).memory object index value } }
{
    state.memory.set_value(object, index, value);
}

/// The integer type of a variable's elements; `char` where the program has no such variable.
pub fn element_type(here: &Activation, variable: usize) -> IntegerType
    ensures { result ≡ element_type (activation_view here.now) variable }
{
    match variable_at(here.program, variable) {
        None => IntegerType::Char,
        Some(found) => element_of(found.of).base,
    }
}

/// The bytes of a literal, by its number; none where there is none of that number.
fn literal_bytes(literals: &[StringLiteral], of: IntegerType, number: u32) -> &[u8]
    ensures { map (element_value of) result.now ≡ literal_values (map literal_view literals.now) of number }
{
    match literal_at(literals, number) {
        None => &[],
        Some(literal) => literal.bytes.as_slice(),
    }
}

/// Elements of a type get the values of bytes, from the first on.
fn set_bytes(object: usize, of: IntegerType, bytes: &[u8], memory: &mut Objects)
    ensures { map object_view memory.new.all.items ≡ set_values (map object_view memory.old.all.items) object 0
        (map (element_value of) bytes.now) }
{
    for index in 0..bytes.len() {
        memory.set_value(
            object,
            index,
            Value::Number(wrapped(of, i128::from(bytes[index]))),
        );
    }
}

/// An array of elements of a type gets the bytes of a literal.
pub fn initialise_by_literal(
    literals: &[StringLiteral],
    of: IntegerType,
    number: u32,
    object: usize,
    state: &mut State,
)
    ensures { state_view state.new ≡ record (state_view state.old) {
      memory = set_values (state_view state.old).memory object 0
          (literal_values (map literal_view literals.now) of number);
    } }
{
    set_bytes(
        object,
        of,
        literal_bytes(literals, of, number),
        &mut state.memory,
    );
}
