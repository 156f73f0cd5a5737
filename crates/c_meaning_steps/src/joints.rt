//! What follows the value of an operand, of two operands, or of a condition.

ghost use Rattle.std.specs.Prelude.{◌≡◌, pos};
ghost use Rattle.c_meaning_steps.specs.Views.{both_view, evaluated_view, outcome_view, state_view, tested_view};
ghost use Rattle.c_meaning_steps.specs.States as states;
ghost use Rattle.c_meaning_steps.specs.States.{afterwards, value_or_undefined, mapped, on_both, on_effect, on_test, second, condition_tested, usable, with, Leaves, Next};
ghost use Rattle.c_tree.specs.declared.typed_expression.Direction.TheVariants.{Up};
ghost use Rattle.c_meaning_values.specs.Operations.{arithmetic, comparison, convert, moved_by_elements, operator_of, pointer_comparison, pointer_difference, value_with_sign};
ghost use Rattle.c_meaning_steps.specs.Steps.{decayed, load, left_side_read, one, replace_if, store, store_if, truth_value, updated_value};

use crate::fault::{
    Fault, arithmetic_fault, difference_fault, move_fault, order_fault, update_fault,
};
use crate::state::{End, Evaluated, Operands, Outcome, State, Tested};
use crate::steps::{decayed, given, load, replaced, store, usable};
use c_meaning_values::{
    Value, arithmetic, comparison, convert, is_true, moved_by, pointer_comparison,
    pointer_difference, signed,
};
use c_tree::{Arithmetic, Comparison, Direction, Given, IntegerType, ObjectType, Sign};

/// The value of an expression is used that has none.
const NO_VALUE: End = End::Undefined(Fault::NoValueGiven);

// A value; where there is none, C does not define what comes, for a cause.
macro_rules! known {
    ($value:expr, $fault:expr) => {
        match $value {
            Some(value) => value,
            None => return Evaluated::Ends(End::Undefined($fault)),
        }
    };
}

/// What an object holds where an operand points.
pub fn load_from(found: Evaluated, state: &State) -> Evaluated
    ensures { evaluated_view result (state_view state.now) ≡ with (evaluated_view found (state_view state.now)) load }
{
    match found {
        Evaluated::Gives(pointer) => load(pointer, state),
        Evaluated::Leaves => Evaluated::Ends(NO_VALUE),
        Evaluated::Ends(ending) => Evaluated::Ends(ending),
    }
}

/// The array at which an operand points.
pub fn decay_from(found: Evaluated, state: &State) -> Evaluated
    ensures { evaluated_view result (state_view state.now)
        ≡ with (evaluated_view found (state_view state.now)) decayed }
{
    match found {
        Evaluated::Gives(pointer) => decayed(pointer, state),
        Evaluated::Leaves => Evaluated::Ends(NO_VALUE),
        Evaluated::Ends(ending) => Evaluated::Ends(ending),
    }
}

/// A pointer by which something is designated.
pub fn usable_from(found: Evaluated, state: &State) -> Evaluated
    ensures { evaluated_view result (state_view state.now) ≡ with (evaluated_view found (state_view state.now)) usable }
{
    match found {
        Evaluated::Gives(pointer) => usable(pointer, state),
        Evaluated::Leaves => Evaluated::Ends(NO_VALUE),
        Evaluated::Ends(ending) => Evaluated::Ends(ending),
    }
}

/// An operand converted to an integer type, if it has a value.
pub fn convert_from(of: IntegerType, operand: Evaluated) -> Evaluated
    ensures { (s : states.State) → evaluated_view result s ≡ mapped (evaluated_view operand s) (convert of) }
{
    match operand {
        Evaluated::Gives(value) => given(convert(of, value), Fault::Untyped),
        Evaluated::Leaves => Evaluated::Leaves,
        Evaluated::Ends(ending) => Evaluated::Ends(ending),
    }
}

/// An operand whose value is not used.
pub fn discard(operand: Evaluated) -> Evaluated
    ensures { (s : states.State) → evaluated_view result s ≡ afterwards (evaluated_view operand s) Leaves }
{
    match operand {
        Evaluated::Gives(_) => Evaluated::Leaves,
        Evaluated::Leaves => Evaluated::Leaves,
        Evaluated::Ends(ending) => Evaluated::Ends(ending),
    }
}

/// An operand with its sign.
pub fn sign_from(sign: Sign, of: IntegerType, operand: Evaluated) -> Evaluated
    ensures { (s : states.State)
        → evaluated_view result s ≡ with (evaluated_view operand s) (λ v t. value_or_undefined (value_with_sign sign of v) t) }
{
    match operand {
        Evaluated::Gives(value) => given(signed(sign, of, value), Fault::ResultTooGreat),
        Evaluated::Leaves => Evaluated::Ends(NO_VALUE),
        Evaluated::Ends(ending) => Evaluated::Ends(ending),
    }
}

/// The second operand behind the first.
pub fn second(left: Value, right: Evaluated) -> Operands
    ensures { (s : states.State) → both_view result s ≡ second left (evaluated_view right s) }
{
    match right {
        Evaluated::Gives(value) => Operands::Pair(left, value),
        Evaluated::Leaves => Operands::NoPair(NO_VALUE),
        Evaluated::Ends(ending) => Operands::NoPair(ending),
    }
}

/// Whether an operand is true.
pub fn tested(operand: Evaluated, state: &State) -> Tested
    ensures { tested_view result (state_view state.now) ≡ condition_tested (evaluated_view operand (state_view state.now)) }
{
    match operand {
        Evaluated::Gives(value) => match usable(value, state) {
            Evaluated::Gives(value) => {
                if is_true(value) {
                    Tested::Holds
                } else {
                    Tested::Fails
                }
            }
            Evaluated::Leaves => Tested::NoTest(NO_VALUE),
            Evaluated::Ends(ending) => Tested::NoTest(ending),
        },
        Evaluated::Leaves => Tested::NoTest(NO_VALUE),
        Evaluated::Ends(ending) => Tested::NoTest(ending),
    }
}

/// 1 where a test holds, and 0 where it fails.
pub fn truth_of(test: Tested) -> Evaluated
    ensures { (s : states.State) → evaluated_view result s
        ≡ on_test (tested_view test s) (truth_value (pos 1)) (truth_value (pos 0)) }
{
    match test {
        Tested::Holds => Evaluated::Gives(Value::Number(1)),
        Tested::Fails => Evaluated::Gives(Value::Number(0)),
        Tested::NoTest(ending) => Evaluated::Ends(ending),
    }
}

/// 0 where a test holds, and 1 where it fails.
pub fn not_of(test: Tested) -> Evaluated
    ensures { (s : states.State) → evaluated_view result s
        ≡ on_test (tested_view test s) (truth_value (pos 0)) (truth_value (pos 1)) }
{
    match test {
        Tested::Holds => Evaluated::Gives(Value::Number(0)),
        Tested::Fails => Evaluated::Gives(Value::Number(1)),
        Tested::NoTest(ending) => Evaluated::Ends(ending),
    }
}

/// Arithmetic on two operands.
pub fn arithmetic_from(operator: Arithmetic, of: IntegerType, operands: Operands) -> Evaluated
    ensures { (s : states.State)
        → evaluated_view result s ≡ on_both (both_view operands s) (λ v w t. value_or_undefined (arithmetic operator of v w) t) }
{
    match operands {
        Operands::Pair(left, right) => {
            let value = arithmetic(operator, of, left, right);
            Evaluated::Gives(known!(value, arithmetic_fault(operator, left, right)))
        }
        Operands::NoPair(ending) => Evaluated::Ends(ending),
    }
}

/// A comparison of two numbers.
pub fn comparison_from(operator: Comparison, operands: Operands) -> Evaluated
    ensures { (s : states.State)
        → evaluated_view result s ≡ on_both (both_view operands s) (λ v w t. value_or_undefined (comparison operator v w) t) }
{
    match operands {
        Operands::Pair(left, right) => given(comparison(operator, left, right), Fault::Untyped),
        Operands::NoPair(ending) => Evaluated::Ends(ending),
    }
}

/// A comparison of two pointers.
pub fn pointer_comparison_from(operator: Comparison, operands: Operands, state: &State) -> Evaluated
    ensures { evaluated_view result (state_view state.now)
        ≡ on_both (both_view operands (state_view state.now)) (λ v w t.
        value_or_undefined (pointer_comparison t.memory operator v w) t) }
{
    match operands {
        Operands::Pair(left, right) => {
            let value = pointer_comparison(&state.memory.all, operator, left, right);
            Evaluated::Gives(known!(value, order_fault(&state.memory.all, left, right)))
        }
        Operands::NoPair(ending) => Evaluated::Ends(ending),
    }
}

/// A pointer and a number behind it, which moves it.
pub fn moved_from(
    direction: Direction,
    element: ObjectType,
    operands: Operands,
    state: &State,
) -> Evaluated
    ensures { evaluated_view result (state_view state.now)
        ≡ on_both (both_view operands (state_view state.now)) (λ v w t.
        value_or_undefined (moved_by_elements t.memory direction element v w) t) }
{
    match operands {
        Operands::Pair(pointer, by) => {
            let value = moved_by(&state.memory.all, direction, element, pointer, by);
            Evaluated::Gives(known!(value, move_fault(&state.memory.all, pointer)))
        }
        Operands::NoPair(ending) => Evaluated::Ends(ending),
    }
}

/// A number and a pointer behind it, which it moves up.
pub fn moved_behind(element: ObjectType, operands: Operands, state: &State) -> Evaluated
    ensures { evaluated_view result (state_view state.now)
        ≡ on_both (both_view operands (state_view state.now)) (λ w v t.
        value_or_undefined (moved_by_elements t.memory Up element v w) t) }
{
    match operands {
        Operands::Pair(by, pointer) => {
            let value = moved_by(&state.memory.all, Direction::Up, element, pointer, by);
            Evaluated::Gives(known!(value, move_fault(&state.memory.all, pointer)))
        }
        Operands::NoPair(ending) => Evaluated::Ends(ending),
    }
}

/// How many elements lie between two pointers.
pub fn difference_from(element: ObjectType, operands: Operands, state: &State) -> Evaluated
    ensures { evaluated_view result (state_view state.now)
        ≡ on_both (both_view operands (state_view state.now)) (λ v w t.
        value_or_undefined (pointer_difference t.memory element v w) t) }
{
    match operands {
        Operands::Pair(left, right) => {
            let value = pointer_difference(&state.memory.all, element, left, right);
            Evaluated::Gives(known!(value, difference_fault(&state.memory.all, left, right)))
        }
        Operands::NoPair(ending) => Evaluated::Ends(ending),
    }
}

/// An assignment to the object that was found.
pub fn assigned(operands: Operands, state: &mut State) -> Evaluated
    ensures { evaluated_view result (state_view state.new) ≡ on_both (both_view operands (state_view state.old)) store }
{
    match operands {
        Operands::Pair(pointer, value) => store(pointer, value, state),
        Operands::NoPair(ending) => Evaluated::Ends(ending),
    }
}

/// An object that was found, and what it holds.
pub fn located(found: Evaluated, state: &State) -> Operands
    ensures { both_view result (state_view state.now) ≡ left_side_read (evaluated_view found (state_view state.now)) }
{
    match found {
        Evaluated::Gives(pointer) => second(pointer, load(pointer, state)),
        Evaluated::Leaves => Operands::NoPair(NO_VALUE),
        Evaluated::Ends(ending) => Operands::NoPair(ending),
    }
}

/// What an operator makes of an old value and the right side.
fn updated(
    operator: Arithmetic,
    target: IntegerType,
    calculated_in: IntegerType,
    old: Value,
    right: Value,
) -> Option<Value>
    ensures { result ≡ updated_value operator target calculated_in old right }
{
    let left = convert(calculated_in, old)?;
    let number = arithmetic(operator, calculated_in, left, right)?;
    convert(target, number)
}

/// An integer is updated by the value of the right side.
pub fn update(
    operator: Arithmetic,
    target: IntegerType,
    calculated_in: IntegerType,
    pointer: Value,
    old: Value,
    right: Evaluated,
    state: &mut State,
) -> Evaluated
    ensures { evaluated_view result (state_view state.new) ≡ with (evaluated_view right (state_view state.old)) (λ v u.
        store_if (updated_value operator target calculated_in old v) pointer u) }
{
    match right {
        Evaluated::Gives(value) => {
            let new = updated(operator, target, calculated_in, old, value);
            let new = known!(new, update_fault(operator, calculated_in, old, value));
            store(pointer, new, state)
        }
        Evaluated::Leaves => Evaluated::Ends(NO_VALUE),
        Evaluated::Ends(ending) => Evaluated::Ends(ending),
    }
}

/// A pointer is moved by the value of the right side.
pub fn update_pointer(
    direction: Direction,
    element: ObjectType,
    pointer: Value,
    old: Value,
    by: Evaluated,
    state: &mut State,
) -> Evaluated
    ensures { evaluated_view result (state_view state.new) ≡ with (evaluated_view by (state_view state.old)) (λ v u.
        store_if (moved_by_elements u.memory direction element old v) pointer u) }
{
    match by {
        Evaluated::Gives(value) => {
            let new = moved_by(&state.memory.all, direction, element, old, value);
            let new = known!(new, move_fault(&state.memory.all, old));
            store(pointer, new, state)
        }
        Evaluated::Leaves => Evaluated::Ends(NO_VALUE),
        Evaluated::Ends(ending) => Evaluated::Ends(ending),
    }
}

/// `++` and `--` on an integer.
pub fn step(
    direction: Direction,
    which: Given,
    target: IntegerType,
    calculated_in: IntegerType,
    operands: Operands,
    state: &mut State,
) -> Evaluated
    ensures { evaluated_view result (state_view state.new)
        ≡ on_both (both_view operands (state_view state.old)) (λ p old t.
        replace_if (updated_value (operator_of direction) target calculated_in old one) which p old t) }
{
    let operator = match direction {
        Direction::Up => Arithmetic::Add,
        Direction::Down => Arithmetic::Subtract,
    };
    match operands {
        Operands::Pair(pointer, old) => {
            let one = Value::Number(1);
            let new = updated(operator, target, calculated_in, old, one);
            let new = known!(new, update_fault(operator, calculated_in, old, one));
            replaced(which, pointer, old, new, state)
        }
        Operands::NoPair(ending) => Evaluated::Ends(ending),
    }
}

/// `++` and `--` on a pointer.
pub fn step_pointer(
    direction: Direction,
    which: Given,
    element: ObjectType,
    operands: Operands,
    state: &mut State,
) -> Evaluated
    ensures { evaluated_view result (state_view state.new)
        ≡ on_both (both_view operands (state_view state.old)) (λ p old t.
        replace_if (moved_by_elements t.memory direction element old one) which p old t) }
{
    match operands {
        Operands::Pair(pointer, old) => {
            let new = moved_by(&state.memory.all, direction, element, old, Value::Number(1));
            let new = known!(new, move_fault(&state.memory.all, old));
            replaced(which, pointer, old, new, state)
        }
        Operands::NoPair(ending) => Evaluated::Ends(ending),
    }
}

/// An expression whose value is not used, as a statement.
pub fn effect(value: Evaluated) -> Outcome
    ensures { (s : states.State) → outcome_view result s ≡ on_effect (evaluated_view value s) Next }
{
    match value {
        Evaluated::Gives(_) => Outcome::Next,
        Evaluated::Leaves => Outcome::Next,
        Evaluated::Ends(ending) => Outcome::Ended(ending),
    }
}
