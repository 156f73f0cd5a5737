//! What an expression gives once its operands have their values (ISO/IEC 9899:2011, 6.5).

ghost use Rattle.std.specs.Prelude.{◌≡◌};
ghost use Rattle.c_tree.specs.TypedExpressions.{rvalue_view};
ghost use Rattle.c_meaning_steps.specs.Views.{both_view, evaluated_view, state_view};
ghost use Rattle.c_meaning.specs.Operands.{on_object, on_operand, on_operands, on_right_side};

use c_meaning_steps::{
    Evaluated, Operands, State, arithmetic_from, assigned, comparison_from, convert_from,
    decay_from, difference_from, discard, load_from, moved_behind, moved_from, not_of,
    pointer_comparison_from, sign_from, step, step_pointer, tested, update, update_pointer,
};
use c_meaning_values::Value;
use c_tree::Rvalue;

/// What an expression gives whose object was found.
pub fn of_object(e: &Rvalue, found: Evaluated, state: &State) -> Evaluated
    ensures { evaluated_view result (state_view state.now) ≡ on_object (rvalue_view e.now)
        (evaluated_view found (state_view state.now)) }
{
    match e {
        Rvalue::Load { .. } => load_from(found, state),
        Rvalue::Decay(_) => decay_from(found, state),
        _ => found,
    }
}

/// What an expression of one operand gives.
pub fn of_operand(e: &Rvalue, operand: Evaluated, state: &State) -> Evaluated
    ensures { evaluated_view result (state_view state.now) ≡ on_operand (rvalue_view e.now)
        (evaluated_view operand (state_view state.now)) }
{
    match e {
        Rvalue::Convert { to, .. } => convert_from(*to, operand),
        Rvalue::Signed {
            sign,
            integer_type,
            ..
        } => sign_from(*sign, *integer_type, operand),
        Rvalue::Not(_) => not_of(tested(operand, state)),
        _ => discard(operand),
    }
}

/// What an expression of two operands gives.
pub fn of_operands(e: &Rvalue, operands: Operands, state: &mut State) -> Evaluated
    ensures { evaluated_view result (state_view state.new) ≡ on_operands (rvalue_view e.now)
        (both_view operands (state_view state.old)) }
{
    match e {
        Rvalue::Arithmetic {
            operator,
            integer_type,
            ..
        } => arithmetic_from(*operator, *integer_type, operands),
        Rvalue::Compare { operator, .. } => comparison_from(*operator, operands),
        Rvalue::ComparePointers { operator, .. } => {
            pointer_comparison_from(*operator, operands, state)
        }
        Rvalue::Move {
            direction,
            element,
            ..
        } => moved_from(*direction, *element, operands, state),
        Rvalue::MoveFrom { element, .. } => moved_behind(*element, operands, state),
        Rvalue::Difference { element, .. } => difference_from(*element, operands, state),
        Rvalue::Step {
            direction,
            given,
            target_type,
            integer_type,
            ..
        } => step(
            *direction,
            *given,
            *target_type,
            *integer_type,
            operands,
            state,
        ),
        Rvalue::StepPointer {
            direction,
            given,
            element,
            ..
        } => step_pointer(*direction, *given, *element, operands, state),
        _ => assigned(operands, state),
    }
}

/// What an update gives, whose object was found by a pointer and read before its right side was evaluated.
pub fn of_right_side(
    e: &Rvalue,
    pointer: Value,
    old: Value,
    right: Evaluated,
    state: &mut State,
) -> Evaluated
    ensures { evaluated_view result (state_view state.new) ≡ on_right_side (rvalue_view e.now) pointer old
        (evaluated_view right (state_view state.old)) }
{
    match e {
        Rvalue::Update {
            operator,
            target_type,
            integer_type,
            ..
        } => update(
            *operator,
            *target_type,
            *integer_type,
            pointer,
            old,
            right,
            state,
        ),
        Rvalue::UpdatePointer {
            direction,
            element,
            ..
        } => update_pointer(*direction, *element, pointer, old, right, state),
        _ => right,
    }
}
