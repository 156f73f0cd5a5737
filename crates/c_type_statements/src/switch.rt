//! Labels in the block of a `switch` (6.8.1 and 6.8.4.2).
#![tactic(auto, using(c_type_declarations::proofs::Steps::next_means, c_type_declarations::proofs::Steps::reached_means))]

ghost use Rattle.std.specs.Prelude.{◌≡◌, IfOk, OnOk, map};
ghost use Rattle.std.specs.Option.{option_map};
ghost use Rattle.c_tree.specs.Expressions.{expression_view};
ghost use Rattle.c_type_declarations.specs.Progress.{means, progress_view, next_met};
ghost use Rattle.c_type_statements.specs.Switches.{behind, case_by, case_met, case_numbered, case_value, controlling_value, chosen_met, chosen_view, default_met, in_kind, is_among_numbers, labels_view, no_labels, part_view, so_far};
ghost use Rattle.c_type_rules.specs.Constants.{same};
ghost use Rattle.c_type_values.specs.Values.{value_view};

use crate::part::Part;
use crate::setting::unless;
use c_tree::{Expression, Extent, IntegerType, Rvalue, ValueType};
use c_type_declarations::{Progress, tree_of};
use c_type_rules::{Constancy, promoted, wrapped};
use c_type_values::{Value, given, to_integer};
use debug_records::Code;
use std::alloc::{AllocError, Global};

/// What a `switch` tests.
#[derive(Drop)]
pub struct Chosen {
    pub tree: Box<Rvalue>,
    /// The promoted type of its value. None where that is at fault.
    pub kind: Option<IntegerType>,
}

/// The labels so far of a `switch`.
#[derive(Drop)]
pub struct Labels {
    /// The values of `case`.
    pub values: Vec<i64>,
    pub has_default: bool,
}

/// No labels.
pub fn no_labels(alloc: Global) -> Labels
    ensures { labels_view result ≡ no_labels }
{
    Labels {
        values: Vec::new(alloc),
        has_default: false,
    }
}

/// A value that a `switch` tests: an integer.
fn chosen_from(
    alloc: Global,
    progress: &mut Progress,
    extent: Extent,
    value: Option<Value>,
) -> Result<Chosen, AllocError>
    ensures { IfOk result (λ c.
        means (chosen_view c) (progress_view progress.new) ≡ controlling_value extent (option_map value_view value)
        (progress_view progress.old)) }
{
    let Some(value) = value else {
        let tree = given!(tree_of(alloc, None));
        return Ok(Chosen { tree, kind: None });
    };
    match value.of {
        ValueType::Integer(of) => {
            let kind = promoted(of);
            let value = given!(to_integer(alloc, value, kind));
            Ok(Chosen {
                tree: value.tree,
                kind: Some(kind),
            })
        }
        ValueType::Void | ValueType::Pointer(_) => {
            given!(progress.fault(Code::OPERAND_TYPES, extent));
            Ok(Chosen {
                tree: value.tree,
                kind: None,
            })
        }
    }
}

/// What a `switch` tests: an integer, in its promoted type.
pub fn chosen_value(
    alloc: Global,
    progress: &mut Progress,
    extent: Extent,
    e: &Expression,
) -> Result<Chosen, AllocError>
    ensures { IfOk result (λ c.
        means (chosen_view c) (progress_view progress.new) ≡ chosen_met extent (expression_view e.now)
        (progress_view progress.old)) }
{
    let value = given!(progress.value(alloc, e));
    chosen_from(alloc, progress, extent, value)
}

/// Whether two numbers are one.
fn is_same(one: i64, other: i64) -> bool
    ensures { result ≡ same one other }
{
    one == other
}

/// Whether a value is among others.
fn is_among(value: i64, values: &[i64]) -> bool
    ensures { result ≡ is_among_numbers value values.now }
{
    for one in values {
        if is_same(*one, value) {
            return true;
        }
    }
    false
}

/// A number in the type that a `switch` tests.
fn in_kind(kind: Option<IntegerType>, number: i64) -> i64
    ensures { result ≡ in_kind kind number }
{
    match kind {
        Some(kind) => wrapped(kind, i128::from(number)),
        None => number,
    }
}

/// The value of a `case`. None where it is no integer constant expression.
fn case_value(kind: Option<IntegerType>, of: ValueType, constant: Constancy) -> Option<i64>
    ensures { result ≡ case_value kind of constant }
{
    match (of, constant) {
        (ValueType::Integer(_), Constancy::Known(number)) => Some(in_kind(kind, number)),
        _ => None,
    }
}

/// A `case` of a value.
fn numbered(
    progress: &mut Progress,
    labels: &mut Labels,
    parts: &mut Vec<Part>,
    extent: Extent,
    value: Option<i64>,
) -> Result<(), AllocError>
    ensures { OnOk result
        (means (so_far parts.new.items labels.new) (progress_view progress.new) ≡ next_met
        (case_numbered value extent (labels_view labels.old) (progress_view progress.old))
        (behind (map part_view parts.old.items))) }
{
    let Some(value) = value else {
        return progress.fault(Code::MISPLACED_JUMP, extent);
    };
    let is_new = !is_among(value, &labels.values);
    unless(progress, is_new, Code::REPEATED_LABEL, extent)?;
    labels.values.push(value)?;
    parts.push(Part::Case(value))?;
    Ok(())
}

/// A `case`, with a value that no label of its `switch` has yet.
pub fn case(
    alloc: Global,
    progress: &mut Progress,
    labels: &mut Labels,
    parts: &mut Vec<Part>,
    kind: Option<IntegerType>,
    extent: Extent,
    e: &Expression,
) -> Result<(), AllocError>
    ensures { OnOk result
        (means (so_far parts.new.items labels.new) (progress_view progress.new) ≡ next_met
        (case_met kind extent (expression_view e.now) (labels_view labels.old) (progress_view progress.old))
        (behind (map part_view parts.old.items))) }
{
    let value = progress.value(alloc, e)?;
    match value {
        None => Ok(()),
        Some(value) => {
            let number = case_value(kind, value.of, value.constant);
            drop(value);
            numbered(progress, labels, parts, extent, number)
        }
    }
}

/// A `default`, once in its `switch`.
pub fn default(
    progress: &mut Progress,
    labels: &mut Labels,
    parts: &mut Vec<Part>,
    extent: Extent,
) -> Result<(), AllocError>
    ensures { OnOk result
        (means (so_far parts.new.items labels.new) (progress_view progress.new) ≡ next_met
        (default_met extent (labels_view labels.old) (progress_view progress.old))
        (behind (map part_view parts.old.items))) }
{
    unless(progress, !labels.has_default, Code::REPEATED_LABEL, extent)?;
    labels.has_default = true;
    parts.push(Part::Default)?;
    Ok(())
}
