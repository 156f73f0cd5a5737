//! Statements with what they mean, on the heap.

ghost use Rattle.std.specs.Prelude.{◌≡◌, IfOk};
ghost use Rattle.std.specs.Option.{option_map};
ghost use Rattle.c_tree.specs.TypedExpressions.{rvalue_view};
ghost use Rattle.c_tree.specs.TypedStatements.{Block, DoWhile, Empty, For, Switch, While, start_view, statement_view, statements_view, step_view};
ghost use Rattle.c_type_values.specs.Values.{node_view};

use c_tree::{Rvalue, TypedStart, TypedStatement, TypedStatements, TypedStep};
use c_type_values::{given, node};
use debug_records::Spot;
use std::alloc::{AllocError, Global};

/// `{..}`
pub fn block_of(alloc: Global, all: TypedStatements) -> Result<Box<TypedStatement>, AllocError>
    ensures { IfOk result (λ t. statement_view t.value ≡ Block (statements_view all)) }
{
    let body = given!(node(alloc, all));
    let made = given!(node(alloc, TypedStatement::Block(body)));
    Ok(made)
}

/// `;`
pub fn empty(alloc: Global, spot: Spot) -> Result<Box<TypedStatement>, AllocError>
    ensures { IfOk result (λ t. statement_view t.value ≡ Empty spot) }
{
    let made = given!(node(alloc, TypedStatement::Empty(spot)));
    Ok(made)
}

/// `while (condition) body`
pub fn while_of(
    alloc: Global,
    spot: Spot,
    condition: Box<Rvalue>,
    body: Box<TypedStatement>,
) -> Result<Box<TypedStatement>, AllocError>
    ensures { IfOk result (λ t. statement_view t.value ≡ While spot (node_view condition) (statement_view body.value)) }
{
    let condition = Box::into_inner(condition);
    let made = given!(node(
        alloc,
        TypedStatement::While {
            spot,
            condition,
            body
        }
    ));
    Ok(made)
}

/// `do body while (condition);`
pub fn do_while_of(
    alloc: Global,
    body: Box<TypedStatement>,
    spot: Spot,
    condition: Box<Rvalue>,
) -> Result<Box<TypedStatement>, AllocError>
    ensures { IfOk result (λ t. statement_view t.value ≡ DoWhile (statement_view body.value) spot (node_view condition)) }
{
    let condition = Box::into_inner(condition);
    let made = given!(node(
        alloc,
        TypedStatement::DoWhile {
            body,
            spot,
            condition
        }
    ));
    Ok(made)
}

/// A tree that may be there, out of its box.
pub fn unboxed(tree: Option<Box<Rvalue>>) -> Option<Rvalue>
    ensures { option_map rvalue_view result ≡ option_map node_view tree }
{
    match tree {
        None => None,
        Some(tree) => Some(Box::into_inner(tree)),
    }
}

/// The third part of a `for`, out of its box.
fn unboxed_step(step: Option<Box<TypedStep>>) -> Option<TypedStep>
    ensures { option_map step_view result ≡ option_map (λ s. step_view s.value) step }
{
    match step {
        None => None,
        Some(step) => Some(Box::into_inner(step)),
    }
}

/// `for (start; condition; step) body`
pub fn for_of(
    alloc: Global,
    start: Box<TypedStart>,
    spot: Spot,
    condition: Option<Box<Rvalue>>,
    step: Option<Box<TypedStep>>,
    body: Box<TypedStatement>,
) -> Result<Box<TypedStatement>, AllocError>
    ensures { IfOk result (λ t.
        statement_view t.value ≡ For (start_view start.value) spot (option_map node_view condition)
        (option_map (λ s. step_view s.value) step) (statement_view body.value)) }
{
    let start = Box::into_inner(start);
    let condition = unboxed(condition);
    let step = unboxed_step(step);
    let made = given!(node(
        alloc,
        TypedStatement::For {
            start,
            spot,
            condition,
            step,
            body
        }
    ));
    Ok(made)
}

/// `switch (value) {..}`
pub fn switch_of(
    alloc: Global,
    spot: Spot,
    value: Box<Rvalue>,
    all: TypedStatements,
) -> Result<Box<TypedStatement>, AllocError>
    ensures { IfOk result (λ t. statement_view t.value ≡ Switch spot (node_view value) (statements_view all)) }
{
    let value = Box::into_inner(value);
    let body = given!(node(alloc, all));
    let made = given!(node(alloc, TypedStatement::Switch { spot, value, body }));
    Ok(made)
}
