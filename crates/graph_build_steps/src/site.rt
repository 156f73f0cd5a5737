//! Where expressions are coded, and what is made of two values.

ghost use Rattle.std.specs.Prelude.{◌≡◌, IfOk, if◌then◌else◌};
ghost use Rattle.word_base.specs.declared.operation.Operation.TheVariants as operation;
ghost use Rattle.graph_core.specs.Graphs as unit;
ghost use Rattle.graph_core.specs.Graphs.{Operate, Same, Truncate};
ghost use Rattle.graph_build_names.specs.Conversions.{is_kept_constant};
ghost use Rattle.graph_build_names.specs.Scales.{shift_of};
ghost use Rattle.graph_build_names.specs.Names.{names_view};
ghost use Rattle.graph_build_layout.specs.Laid.{laid_view, pair_view};
ghost use Rattle.graph_build_steps.specs.Drafts.{goal_of, label_of, leaf, made_of, operated, unscaling, zero};
ghost use Rattle.graph_build_steps.specs.Rules.{truncation_to};
ghost use Rattle.graph_build_steps.specs.Steps.{element_distance, finished, signed};

use crate::{
    Computation, Draft, Goal, compared, compared_pointers, compute, is_signed, leaf, move_by,
    next_label, operated, operation_for, scaled_pair, truncation_to,
};
use c_tree::{Arithmetic, Comparison, Direction, IntegerType, Sign};
use debug_records::Place;
use graph_build_layout::{Laid, Pair, behind_move};
use graph_build_names::{Names, is_kept_constant, pick, scaled, shift_of};
use graph_core::{Label, Name, Operand};
use std::alloc::{AllocError, Global};
use word_base::Operation;

/// Where expressions are coded: the names of a function, the place in force, and how many blocks the graph has.
#[derive(Clone, Copy)]
pub struct Site<'a> {
    pub names: &'a Names,
    pub place: Place,
    pub top: u32,
}

/// The label of a draft, once it is closed.
pub fn label_of(site: &Site<'_>, draft: &Draft) -> Label
    ensures { result.0 ≡ label_of site.now.top (made_of draft.now) }
{
    next_label(site.top, &draft.inner)
}

/// What is made of two values.
#[derive(Clone, Copy)]
pub enum Two {
    /// Arithmetic in a type.
    Arithmetic(Arithmetic, IntegerType),
    /// A comparison in a type.
    Compare(Comparison, IntegerType),
    /// A comparison of pointers.
    ComparePointers(Comparison),
    /// A pointer moved by an index of elements of so many bytes.
    Move(Direction, u64),
    /// The same, where the index comes first.
    MoveFrom(u64),
    /// The distance of two pointers in elements of so many bytes.
    Difference(u64),
}

/// A distance in bytes that stands in a name becomes one in elements, for a goal.
fn in_elements(
    alloc: Global,
    site: &Site<'_>,
    size: u64,
    bytes: Name,
    begun: u32,
    free: u32,
    goal: Goal,
) -> Result<Draft, AllocError>
    ensures { IfOk result (λ d.
        made_of d ≡ operated (names_view site.now.names.now) (goal_of goal) begun free
        (λ x. unscaling (shift_of size) size x bytes.0)) }
{
    let bytes = Operand::Name(bytes);
    let elements = match shift_of(size) {
        Some(bits) => {
            let shift = Computation::Operate(Operation::Sra, bytes, Operand::Constant(bits));
            return operated(alloc, site.names, goal, begun, free, shift);
        }
        None => Computation::Operate(Operation::Div, bytes, scaled(size, Operand::Constant(1), 0)),
    };
    operated(alloc, site.names, goal, begun, free, elements)
}

/// The distance of two pointers in elements of so many bytes, for a goal.
fn distance(
    alloc: Global,
    site: &Site<'_>,
    size: u64,
    pair: Pair,
    begun: u32,
    goal: Goal,
) -> Result<Draft, AllocError>
    ensures { IfOk result (λ d.
        made_of d ≡ element_distance (names_view site.now.names.now) size (goal_of goal) begun (pair_view pair)) }
{
    let bytes = Computation::Operate(Operation::Sub, pair.left, pair.right);
    if size == 1 {
        return operated(alloc, site.names, goal, begun, pair.next, bytes);
    }
    let between = Name(pick(site.names, begun, pair.next));
    let behind = behind_move(true, pair.next)?;
    let draft = in_elements(alloc, site, size, between, begun, behind, goal)?;
    compute(draft, between, bytes)
}

/// What is made of two values that stand, for a goal.
pub fn finished(
    alloc: Global,
    site: &Site<'_>,
    two: Two,
    pair: Pair,
    begun: u32,
    goal: Goal,
) -> Result<Draft, AllocError>
    ensures { IfOk result (λ d.
        made_of d ≡ finished (names_view site.now.names.now) two (goal_of goal) begun (pair_view pair)) }
{
    let names = site.names;
    let (a, b) = (pair.left, pair.right);
    match two {
        Two::Arithmetic(operator, of) => {
            let operation = Computation::Operate(operation_for(operator, of), a, b);
            operated(alloc, names, goal, begun, pair.next, operation)
        }
        Two::Compare(operator, of) => {
            compared(alloc, names, goal, is_signed(of), operator, begun, pair)
        }
        Two::ComparePointers(operator) => {
            compared_pointers(alloc, names, goal, operator, begun, pair)
        }
        Two::Move(direction, size) => {
            let operation = move_by(direction);
            scaled_pair(alloc, names, goal, begun, operation, size, a, b, pair.next)
        }
        Two::MoveFrom(size) => {
            scaled_pair(
                alloc,
                names,
                goal,
                begun,
                Operation::Add,
                size,
                b,
                a,
                pair.next,
            )
        }
        Two::Difference(size) => distance(alloc, site, size, pair, begun, goal),
    }
}

/// A value with a sign, for a goal.
pub fn signed(
    alloc: Global,
    site: &Site<'_>,
    sign: Sign,
    value: Laid,
    begun: u32,
    goal: Goal,
) -> Result<Draft, AllocError>
    ensures { IfOk result (λ d.
        made_of d ≡ operated (names_view site.now.names.now) (goal_of goal) begun (laid_view value).next
        (signed sign (laid_view value).value)) }
{
    let names = site.names;
    let a = value.value;
    match sign {
        Sign::Plus => operated(alloc, names, goal, begun, value.next, Computation::Move(a)),
        Sign::Minus => {
            let minus = Computation::Operate(Operation::Sub, Operand::Constant(0), a);
            operated(alloc, names, goal, begun, value.next, minus)
        }
        Sign::Complement => {
            let all = Operand::Constant(4294967295);
            let complement = Computation::Operate(Operation::Xor, a, all);
            operated(alloc, names, goal, begun, value.next, complement)
        }
    }
}

/// Whether a value is 0, for a goal.
pub fn negated(
    alloc: Global,
    site: &Site<'_>,
    is_pointer: bool,
    value: Laid,
    begun: u32,
    goal: Goal,
) -> Result<Draft, AllocError>
    ensures { IfOk result (λ d.
        made_of d ≡ operated (names_view site.now.names.now) (goal_of goal) begun (laid_view value).next (λ x.
        if is_pointer then Same x (laid_view value).value zero else Operate x operation.Sltu
        (laid_view value).value (unit.Constant 1))) }
{
    let names = site.names;
    if is_pointer {
        let same = Computation::Same(value.value, Operand::Constant(0));
        operated(alloc, names, goal, begun, value.next, same)
    } else {
        let less = Computation::Operate(Operation::Sltu, value.value, Operand::Constant(1));
        operated(alloc, names, goal, begun, value.next, less)
    }
}

/// A value that is converted to a type which has not all its numbers, for a goal.
pub fn narrowed(
    alloc: Global,
    site: &Site<'_>,
    to: IntegerType,
    value: Laid,
    begun: u32,
    goal: Goal,
) -> Result<Draft, AllocError>
    ensures { IfOk result (λ d.
        made_of d ≡
        (if is_kept_constant to (laid_view value).value then leaf (goal_of goal) (laid_view value).value else
        operated (names_view site.now.names.now) (goal_of goal) begun (laid_view value).next
        (λ x. Truncate x (truncation_to to) (laid_view value).value))) }
{
    if is_kept_constant(to, value.value) {
        leaf(alloc, goal, value.value)
    } else {
        let narrowed = Computation::Truncate(truncation_to(to), value.value);
        operated(alloc, site.names, goal, begun, value.next, narrowed)
    }
}
