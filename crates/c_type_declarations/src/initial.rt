//! What initializers of automatic objects write (6.7.9). Their rules are the declarator's.
#![tactic(auto, using(crate::proofs::Steps::next_means, crate::proofs::Steps::reached_means))]

ghost use Rattle.std.specs.Prelude.{◌≡◌, IfOk, OnOk, map};
ghost use Rattle.std.specs.Option.{option_map};
ghost use Rattle.c_tree.specs.Declarations.{chain_of_initializers, initializer_view};
ghost use Rattle.c_tree.specs.Expressions.{expression_view};
ghost use Rattle.c_tree.specs.TypedExpressions.{rvalue_view};
ghost use Rattle.c_tree.specs.TypedStatements.{initial_view};
ghost use Rattle.c_type_declarations.specs.Initials.{array_literal_met, elements_met, fitted, fitting, initial_met, list_met, looked_at, looked_at_one, misfit_met, scalar_met, computed_tree, with_array_literal, within_count, written_met};
ghost use Rattle.c_type_declarations.specs.Progress.{means, progress_view, reached_by, value_met};
ghost use Rattle.c_type_values.specs.Values.{node_view, value_view};

use crate::object::{Written, literal_for, only_expression};
use crate::progress::Progress;
use c_tree::{Expression, Extent, Initial, Initializer, ObjectType, Rvalue, Scalar, StringLiteral};
use c_type_expressions::{is_zero, numbered};
use c_type_rules::loaded;
use c_type_values::{Value, converted, given, node};
use debug_records::Code;
use std::alloc::{AllocError, Global};

/// A value as if assigned to an object of a scalar type.
fn fitted(
    alloc: Global,
    progress: &mut Progress,
    scalar: Scalar,
    extent: Extent,
    is_zero: bool,
    value: Option<Value>,
) -> Result<Option<Value>, AllocError>
    ensures { IfOk result (λ v.
        means (option_map value_view v) (progress_view progress.new) ≡ fitted scalar extent is_zero
        (option_map value_view value) (progress_view progress.old)) }
{
    let Some(value) = value else {
        return Ok(None);
    };
    let made = given!(converted(alloc, value, loaded(scalar), is_zero));
    if made.is_none() {
        given!(progress.fault(Code::INITIALIZER, extent));
    }
    Ok(made)
}

/// An expression that initialises an object of a scalar type.
fn fitting(
    alloc: Global,
    progress: &mut Progress,
    scalar: Scalar,
    extent: Extent,
    e: &Expression,
) -> Result<Option<Value>, AllocError>
    ensures { IfOk result (λ v.
        means (option_map value_view v) (progress_view progress.new) ≡ fitting scalar extent (expression_view e.now)
        (progress_view progress.old)) }
{
    let value = given!(progress.value(alloc, e));
    fitted(alloc, progress, scalar, extent, is_zero(e), value)
}

/// Looks at an initializer that initialises nothing.
fn look_at_one(
    alloc: Global,
    progress: &mut Progress,
    initializer: &Initializer,
) -> Result<(), AllocError>
    ensures { OnOk result
        (progress_view progress.new ≡ looked_at_one (initializer_view initializer.now) (progress_view progress.old)) }
{
    match initializer {
        Initializer::List(_) => Ok(()),
        Initializer::Expression(e) => look_at_expression(alloc, progress, e),
    }
}

/// Looks at an expression for its own faults.
pub fn look_at_expression(
    alloc: Global,
    progress: &mut Progress,
    e: &Expression,
) -> Result<(), AllocError>
    ensures { OnOk result
        (progress_view progress.new
        ≡ reached_by (value_met (expression_view e.now) (progress_view progress.old)) (λ v q. q)) }
{
    let value = given!(progress.value(alloc, e));
    drop(value);
    Ok(())
}

/// Looks at expressions in braces that initialise nothing.
fn look_at(
    alloc: Global,
    progress: &mut Progress,
    initializers: &[Initializer],
) -> Result<(), AllocError>
    ensures { OnOk result
        (progress_view progress.new
        ≡ looked_at (chain_of_initializers (map initializer_view initializers.now)) (progress_view progress.old)) }
{
    for one in initializers {
        given!(look_at_one(alloc, progress, one));
    }
    Ok(())
}

/// Looks at an expression where a list has to stand.
pub fn misfit(
    alloc: Global,
    progress: &mut Progress,
    extent: Extent,
    e: &Expression,
) -> Result<(), AllocError>
    ensures { OnOk result
        (progress_view progress.new ≡ misfit_met extent (expression_view e.now) (progress_view progress.old)) }
{
    let value = given!(progress.value(alloc, e));
    drop(value);
    progress.fault(Code::INITIALIZER, extent)
}

/// The initializer of a scalar: an expression, perhaps in braces of its own.
pub fn scalar(
    alloc: Global,
    progress: &mut Progress,
    of: Scalar,
    extent: Extent,
    initializer: &Initializer,
) -> Result<Option<Value>, AllocError>
    ensures { IfOk result (λ v.
        means (option_map value_view v) (progress_view progress.new) ≡ scalar_met of extent
        (initializer_view initializer.now) (progress_view progress.old)) }
{
    match initializer {
        Initializer::Expression(e) => fitting(alloc, progress, of, extent, e),
        Initializer::List(all) => match only_expression(all) {
            Some(e) => fitting(alloc, progress, of, extent, e),
            None => {
                given!(progress.fault(Code::INITIALIZER, extent));
                given!(look_at(alloc, progress, all));
                Ok(None)
            }
        },
    }
}

/// What a value computes. Of one at fault nothing.
pub fn tree_of(alloc: Global, value: Option<Value>) -> Result<Box<Rvalue>, AllocError>
    ensures { IfOk result (λ r. node_view r ≡ computed_tree (option_map value_view value)) }
{
    match value {
        Some(value) => Ok(value.tree),
        None => {
            let nothing = given!(node(alloc, Rvalue::Null));
            Ok(nothing)
        }
    }
}

/// The initializers of elements, in order.
#[tactic(auto, using(crate::proofs::Steps::next_means, crate::proofs::Steps::next_more, crate::proofs::Steps::next_all))]
fn elements(
    alloc: Global,
    progress: &mut Progress,
    of: Scalar,
    extent: Extent,
    initializers: &[Initializer],
) -> Result<Vec<Rvalue>, AllocError>
    ensures { IfOk result (λ v.
        means (map rvalue_view v.items) (progress_view progress.new) ≡ elements_met of extent
        (chain_of_initializers (map initializer_view initializers.now)) (progress_view progress.old)) }
{
    let mut values = Vec::new(alloc);
    for one in initializers {
        let value = scalar(alloc, progress, of, extent, one)?;
        let tree = tree_of(alloc, value)?;
        values.push(Box::into_inner(tree))?;
    }
    Ok(values)
}

/// Notes more initializers than there are elements.
pub fn within_count(
    progress: &mut Progress,
    given: usize,
    size: u32,
    extent: Extent,
) -> Result<(), AllocError>
    ensures { OnOk result (progress_view progress.new ≡ within_count given size extent (progress_view progress.old)) }
{
    if given > size as usize {
        given!(progress.fault(Code::INITIALIZER, extent));
    }
    Ok(())
}

/// Notes a literal that initialises an automatic array, with its final zero.
fn with_array_literal(
    alloc: Global,
    progress: &mut Progress,
    literal: Written<'_>,
) -> Result<(), AllocError>
    ensures { OnOk result
        (progress_view progress.new
        ≡ with_array_literal literal.entry.spot literal.entry.bytes.now (progress_view progress.old)) }
{
    let mut bytes = Vec::from_slice(alloc, literal.bytes)?;
    bytes.push(0)?;
    progress.array_literals.push(StringLiteral {
        spot: literal.spot,
        bytes,
    })?;
    Ok(())
}

/// A literal that initialises an automatic array.
fn array_literal(
    alloc: Global,
    progress: &mut Progress,
    size: u32,
    extent: Extent,
    literal: Written<'_>,
) -> Result<Initial, AllocError>
    ensures { IfOk result (λ i.
        means (initial_view i) (progress_view progress.new) ≡ array_literal_met size extent
        (literal.entry.spot, literal.entry.bytes.now) (progress_view progress.old)) }
{
    let number = given!(numbered(progress.array_literals.len()));
    given!(within_count(progress, literal.bytes.len(), size, extent));
    given!(with_array_literal(alloc, progress, literal));
    Ok(Initial::Literal(number))
}

/// An array's initializer: a list in braces.
#[tactic(auto, using(crate::proofs::Steps::next_means, crate::proofs::Lists::count_chain))]
fn list(
    alloc: Global,
    progress: &mut Progress,
    element: Scalar,
    size: u32,
    extent: Extent,
    initializer: &Initializer,
) -> Result<Initial, AllocError>
    ensures { IfOk result (λ i.
        means (initial_view i) (progress_view progress.new) ≡ list_met element size extent
        (initializer_view initializer.now) (progress_view progress.old)) }
{
    match initializer {
        Initializer::List(initializers) => {
            within_count(progress, initializers.len(), size, extent)?;
            let values = elements(alloc, progress, element, extent, initializers)?;
            Ok(Initial::Elements(values))
        }
        Initializer::Expression(e) => {
            misfit(alloc, progress, extent, e)?;
            Ok(Initial::Zero)
        }
    }
}

/// What an initializer writes into an automatic object.
fn written(
    alloc: Global,
    progress: &mut Progress,
    of: ObjectType,
    extent: Extent,
    initializer: &Initializer,
) -> Result<Initial, AllocError>
    ensures { IfOk result (λ i.
        means (initial_view i) (progress_view progress.new) ≡ written_met of extent
        (initializer_view initializer.now) (progress_view progress.old)) }
{
    match of {
        ObjectType::Scalar(of) => {
            let value = given!(scalar(alloc, progress, of, extent, initializer));
            let tree = given!(tree_of(alloc, value));
            Ok(Initial::Scalar(Box::into_inner(tree)))
        }
        ObjectType::Array { element, count } => match literal_for(element, initializer) {
            Some(literal) => array_literal(alloc, progress, count, extent, literal),
            None => list(alloc, progress, element, count, extent, initializer),
        },
    }
}

/// What the declaration of an automatic object writes into it.
pub fn initial(
    alloc: Global,
    progress: &mut Progress,
    of: ObjectType,
    extent: Extent,
    initializer: &Option<Initializer>,
) -> Result<Initial, AllocError>
    ensures { IfOk result (λ i.
        means (initial_view i) (progress_view progress.new) ≡ initial_met of extent
        (option_map initializer_view initializer.now) (progress_view progress.old)) }
{
    match initializer {
        Some(initializer) => written(alloc, progress, of, extent, initializer),
        None => Ok(Initial::Zero),
    }
}
