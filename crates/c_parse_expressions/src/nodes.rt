//! Nodes of trees, and lists of them.

ghost use Rattle.std.specs.Prelude.{◌≡◌, ◌++◌, ◌∷◌, [], IfOk, IfErr, OnOk};
ghost use Rattle.c_parse_tokens.specs.declared.fault.ParseErr.TheVariants.{NoMemory};

use c_parse_tokens::ParseErr;
use c_tree::{BinaryOperator, Expression};
use std::alloc::Global;

/// A node on the heap.
pub fn node<T: Drop>(alloc: Global, inner: T) -> Result<Box<T>, ParseErr>
    ensures made { IfOk result (λ b. b.value ≡ inner) }
    ensures error { IfErr result (λ e. e ≡ NoMemory) }
{
    Ok(Box::new(alloc, inner)?)
}

/// Moves what a box holds to the end of a list.
pub fn push<T: Drop>(list: &mut Vec<T>, item: Box<T>) -> Result<(), ParseErr>
    ensures items { OnOk result (list.new.items ≡ list.old.items ++ item.value ∷ []) }
    ensures error { IfErr result (λ e. e ≡ NoMemory) }
{
    Ok(list.push(Box::into_inner(item))?)
}

/// Moves an operator and its right operand to the end of a list.
pub fn push_operation(
    operations: &mut Vec<(BinaryOperator, Expression)>,
    operator: BinaryOperator,
    right: Box<Expression>,
) -> Result<(), ParseErr>
    ensures items { OnOk result (operations.new.items ≡ operations.old.items ++ (operator, right.value) ∷ []) }
    ensures error { IfErr result (λ e. e ≡ NoMemory) }
{
    Ok(operations.push((operator, Box::into_inner(right)))?)
}
