//! The steps of expressions: what is done once their operands have their values (ISO/IEC 9899:2011, 6.5).

ghost use Rattle.std.specs.Prelude.{◌≡◌, IfOk, map};
ghost use Rattle.c_meaning_values.specs.declared.value.Value.TheVariants.{Number};
ghost use Rattle.c_meaning_steps.specs.Views.{evaluated_view, state_view};
ghost use Rattle.c_meaning_values.specs.Views.{object_view, owner_view};
ghost use Rattle.c_meaning_steps.specs.States as states;
ghost use Rattle.c_meaning_steps.specs.States.{value_or_undefined, usable};
ghost use Rattle.c_meaning_steps.specs.Steps.{decayed, leave, load, pointer_to_named, next_byte, byte_put, replaced, store};

use crate::fault::{Fault, read_fault, write_fault};
use crate::state::{End, Evaluated, State};
use c_meaning_values::{Objects, Owner, Value, is_usable, read};
use c_tree::{Given, IntegerType};
use c_type_rules::wrapped;
use std::alloc::AllocError;

/// A value, or undefined for a cause where there is none.
pub fn given(value: Option<Value>, fault: Fault) -> Evaluated
    ensures { (s : states.State) → evaluated_view result s ≡ value_or_undefined value s }
{
    match value {
        None => Evaluated::Ends(End::Undefined(fault)),
        Some(value) => Evaluated::Gives(value),
    }
}

/// A value that is worked with.
pub fn usable(value: Value, state: &State) -> Evaluated
    ensures { evaluated_view result (state_view state.now) ≡ usable value (state_view state.now) }
{
    if is_usable(&state.memory.all, value) {
        Evaluated::Gives(value)
    } else {
        Evaluated::Ends(End::Undefined(Fault::LifetimeOver))
    }
}

/// What an object holds where a pointer points.
pub fn load(pointer: Value, state: &State) -> Evaluated
    ensures { evaluated_view result (state_view state.now) ≡ load pointer (state_view state.now) }
{
    match read(&state.memory.all, pointer) {
        None => Evaluated::Ends(End::Undefined(read_fault(&state.memory.all, pointer))),
        Some(value) => usable(value, state),
    }
}

/// A value is written where a pointer points.
pub fn store(pointer: Value, value: Value, state: &mut State) -> Evaluated
    ensures { evaluated_view result (state_view state.new) ≡ store pointer value (state_view state.old) }
{
    if state.memory.write(pointer, value) {
        Evaluated::Gives(value)
    } else {
        Evaluated::Ends(End::Undefined(write_fault(&state.memory.all, pointer)))
    }
}

/// A pointer to the beginning of an object that a name designates.
pub fn named(depth: usize, object: c_tree::Object, memory: &Objects) -> Option<Value>
    ensures { result ≡ pointer_to_named depth object (map object_view memory.now.all.items) }
{
    let owner = match object {
        c_tree::Object::Static(number) => Owner::Static(number as usize),
        c_tree::Object::Literal(number) => Owner::Literal(number as usize),
        c_tree::Object::Automatic(variable) => Owner::Variable {
            variable: variable as usize,
            depth,
        },
    };
    memory.address_of(owner)
}

/// An array that is used.
pub fn decayed(pointer: Value, state: &State) -> Evaluated
    ensures { evaluated_view result (state_view state.now) ≡ decayed pointer (state_view state.now) }
{
    match read(&state.memory.all, pointer) {
        None => Evaluated::Ends(End::Undefined(read_fault(&state.memory.all, pointer))),
        Some(_) => Evaluated::Gives(pointer),
    }
}

/// A new value is written in place of an old one.
pub fn replaced(
    which: Given,
    pointer: Value,
    old: Value,
    new: Value,
    state: &mut State,
) -> Evaluated
    ensures { evaluated_view result (state_view state.new) ≡ replaced which pointer old new (state_view state.old) }
{
    let stored = store(pointer, new, state);
    match which {
        Given::New => stored,
        Given::Old => match stored {
            Evaluated::Gives(_) => Evaluated::Gives(old),
            Evaluated::Leaves => Evaluated::Ends(End::Undefined(Fault::NoValueGiven)),
            Evaluated::Ends(ending) => Evaluated::Ends(ending),
        },
    }
}

/// `getchar`.
pub fn next_byte(state: &mut State) -> Evaluated
    ensures { evaluated_view result (state_view state.new)
        ≡ next_byte (state_view state.old).input (state_view state.old) }
{
    match state.input.split_first() {
        None => Evaluated::Gives(Value::Number(-1)),
        Some((byte, rest)) => {
            state.input = rest;
            Evaluated::Gives(Value::Number(i64::from(*byte)))
        }
    }
}

/// `putchar`.
pub fn put(value: Value, state: &mut State) -> Result<Evaluated, AllocError>
    ensures { IfOk result (λ v. evaluated_view v (state_view state.new) ≡ byte_put value (state_view state.old)) }
{
    match value {
        Value::Number(number) => {
            let byte = wrapped(IntegerType::Char, i128::from(number));
            state.seen.put(byte as u8)?;
            Ok(Evaluated::Gives(Value::Number(byte)))
        }
        _ => Ok(Evaluated::Ends(End::Undefined(Fault::Untyped))),
    }
}

/// `exit`.
pub fn leave(value: Value) -> Evaluated
    ensures { (s : states.State) → evaluated_view result s ≡ leave value s }
{
    match value {
        Value::Number(status) => Evaluated::Ends(End::Exit(status)),
        _ => Evaluated::Ends(End::Undefined(Fault::Untyped)),
    }
}
