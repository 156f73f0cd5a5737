//! Branches of an `if` with what they mean.

ghost use Rattle.std.specs.Prelude.{◌≡◌, IfOk, map};
ghost use Rattle.std.specs.Option.{option_map};
ghost use Rattle.c_tree.specs.TypedStatements.{statement_view};
ghost use Rattle.c_type_statements.specs.Chains.{built_view, nested, with_else};

use c_tree::{Rvalue, TypedStatement};
use c_type_values::{given, node};
use debug_records::Spot;
use std::alloc::{AllocError, Global};

/// `if (condition) then` with what it means. The spot is the condition's.
#[derive(Drop)]
pub struct Built {
    pub spot: Spot,
    pub condition: Box<Rvalue>,
    pub then: Box<TypedStatement>,
}

/// An `if` without `else`, or with it.
fn with_else(
    alloc: Global,
    built: Built,
    otherwise: Option<Box<TypedStatement>>,
) -> Result<Box<TypedStatement>, AllocError>
    ensures { IfOk result (λ t.
        statement_view t.value ≡ with_else (built_view built) (option_map (λ t. statement_view t.value) otherwise)) }
{
    match otherwise {
        None => {
            let made = given!(node(
                alloc,
                TypedStatement::If {
                    spot: built.spot,
                    condition: Box::into_inner(built.condition),
                    then: built.then,
                }
            ));
            Ok(made)
        }
        Some(otherwise) => {
            let made = given!(node(
                alloc,
                TypedStatement::IfElse {
                    spot: built.spot,
                    condition: Box::into_inner(built.condition),
                    then: built.then,
                    otherwise,
                }
            ));
            Ok(made)
        }
    }
}

/// Branches, each in the `else` of the one before it.
#[tactic(auto, using(crate::proofs::Loops::nested_more, std::proofs::lemmas::Grind::common_steps))]
pub fn nested(
    alloc: Global,
    first: Built,
    mut others: Vec<Built>,
    otherwise: Option<Box<TypedStatement>>,
) -> Result<Box<TypedStatement>, AllocError>
    ensures { IfOk result (λ t.
        statement_view t.value ≡ nested (built_view first) (map built_view others.items)
        (option_map (λ t. statement_view t.value) otherwise)) }
{
    let mut inner = otherwise;
    while let Some(built) = others.pop() {
        let made = given!(with_else(alloc, built, inner));
        inner = Some(made);
    }
    with_else(alloc, first, inner)
}
