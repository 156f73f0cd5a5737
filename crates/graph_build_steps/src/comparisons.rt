//! Comparisons, as conditions and as values.

ghost use Rattle.std.specs.Prelude.{◌≡◌, IfOk};
ghost use Rattle.c_tree.specs.declared.typed_expression.Comparison.TheVariants.{LessEqual};
ghost use Rattle.graph_core.specs.Graphs.{end_view, operand_view};
ghost use Rattle.graph_build_steps.specs.Drafts.{instruction_before, branch_by, compare_by, compare_pointers_by, computing, less, made_of, not_less};

use crate::{Computation, Draft, compute, less_by};
use c_tree::Comparison as SourceComparison;
use graph_core::{Comparison, End, Label, Name, Operand};
use std::alloc::{AllocError, Global};
use word_base::Operation;

/// A value of two instructions, the first of which writes a name of its own.
fn by_two(
    target: Name,
    between: Name,
    first: Computation,
    second: Computation,
    draft: Draft,
) -> Result<Draft, AllocError>
    ensures { IfOk result (λ d.
        made_of d ≡ instruction_before (computing first between.0) (instruction_before (computing second target.0) (made_of draft))) }
{
    let draft = compute(draft, target, second)?;
    compute(draft, between, first)
}

/// Whether a number is less than another or equal: the other is not less.
fn at_most(
    signed: bool,
    target: Name,
    between: Name,
    left: Operand,
    right: Operand,
    draft: Draft,
) -> Result<Draft, AllocError>
    ensures { IfOk result (λ d.
        made_of d ≡ compare_by LessEqual signed target.0 between.0 (operand_view left) (operand_view right)
        (made_of draft)) }
{
    by_two(
        target,
        between,
        Computation::Operate(less_by(signed), right, left),
        Computation::Operate(Operation::Xor, Operand::Name(between), Operand::Constant(1)),
        draft,
    )
}

/// A comparison as a value, before what follows.
pub fn compare_by(
    operator: SourceComparison,
    signed: bool,
    target: Name,
    between: Name,
    left: Operand,
    right: Operand,
    draft: Draft,
) -> Result<Draft, AllocError>
    ensures { IfOk result (λ d.
        made_of d ≡ compare_by operator signed target.0 between.0 (operand_view left) (operand_view right)
        (made_of draft)) }
{
    let difference = Computation::Operate(Operation::Xor, left, right);
    let first = Operand::Name(between);
    match operator {
        SourceComparison::Less => {
            compute(
                draft,
                target,
                Computation::Operate(less_by(signed), left, right),
            )
        }
        SourceComparison::Greater => {
            compute(
                draft,
                target,
                Computation::Operate(less_by(signed), right, left),
            )
        }
        SourceComparison::LessEqual => at_most(signed, target, between, left, right, draft),
        SourceComparison::GreaterEqual => at_most(signed, target, between, right, left, draft),
        SourceComparison::Equal => {
            let is_zero = Computation::Operate(Operation::Sltu, first, Operand::Constant(1));
            by_two(target, between, difference, is_zero, draft)
        }
        SourceComparison::NotEqual => {
            let is_positive = Computation::Operate(Operation::Sltu, Operand::Constant(0), first);
            by_two(target, between, difference, is_positive, draft)
        }
    }
}

/// A comparison of pointers as a value, before what follows.
pub fn compare_pointers_by(
    operator: SourceComparison,
    target: Name,
    between: Name,
    left: Operand,
    right: Operand,
    draft: Draft,
) -> Result<Draft, AllocError>
    ensures { IfOk result (λ d.
        made_of d ≡ compare_pointers_by operator target.0 between.0 (operand_view left) (operand_view right)
        (made_of draft)) }
{
    let same = Computation::Same(left, right);
    match operator {
        SourceComparison::Equal => compute(draft, target, same),
        SourceComparison::NotEqual => {
            let other = Computation::Operate(
                Operation::Xor,
                Operand::Name(between),
                Operand::Constant(1),
            );
            by_two(target, between, same, other, draft)
        }
        _ => compare_by(operator, false, target, between, left, right, draft),
    }
}

/// By which comparison of a block's end a number is less.
fn less(signed: bool) -> Comparison
    ensures { result ≡ less signed }
{
    if signed {
        Comparison::Less
    } else {
        Comparison::LessUnsigned
    }
}

/// By which comparison of a block's end a number is not less.
fn not_less(signed: bool) -> Comparison
    ensures { result ≡ not_less signed }
{
    if signed {
        Comparison::AtLeast
    } else {
        Comparison::AtLeastUnsigned
    }
}

/// A comparison that is a condition: the end of a block.
pub fn branch_by(
    operator: SourceComparison,
    signed: bool,
    left: Operand,
    right: Operand,
    then: Label,
    otherwise: Label,
) -> End
    ensures { end_view result ≡ branch_by operator signed (operand_view left) (operand_view right) then.0 otherwise.0 }
{
    let (comparison, left, right) = match operator {
        SourceComparison::Less => (less(signed), left, right),
        SourceComparison::Greater => (less(signed), right, left),
        SourceComparison::LessEqual => (not_less(signed), right, left),
        SourceComparison::GreaterEqual => (not_less(signed), left, right),
        SourceComparison::Equal => (Comparison::Equal, left, right),
        SourceComparison::NotEqual => (Comparison::NotEqual, left, right),
    };
    End::Branch {
        comparison,
        left,
        right,
        then,
        otherwise,
    }
}
