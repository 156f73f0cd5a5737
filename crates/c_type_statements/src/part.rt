//! What stands in a block, in order.

ghost use Rattle.std.specs.Prelude.{◌≡◌, IfOk, map};
ghost use Rattle.c_tree.specs.TypedStatements.{none, statements_view};
ghost use Rattle.c_type_statements.specs.Switches.{part_view, parts_before, put_all};

use c_tree::{TypedStatement, TypedStatements};
use c_type_values::{given, node};
use std::alloc::{AllocError, Global};

/// What stands in a block: a statement, or in the block of a `switch` a label.
#[derive(Drop)]
pub enum Part {
    /// `case`, with its value in the type that the `switch` tests.
    Case(i64),
    Default,
    Statement(Box<TypedStatement>),
}

/// One part before statements.
fn put(alloc: Global, part: Part, rest: TypedStatements) -> Result<TypedStatements, AllocError>
    ensures { IfOk result (λ all. statements_view all ≡ parts_before (part_view part) (statements_view rest)) }
{
    let rest = given!(node(alloc, rest));
    match part {
        Part::Case(value) => Ok(TypedStatements::Case(value, rest)),
        Part::Default => Ok(TypedStatements::Default(rest)),
        Part::Statement(statement) => Ok(TypedStatements::More(statement, rest)),
    }
}

/// Parts, in a list of the typed tree's own.
#[tactic(auto, using(crate::proofs::Loops::put_more, std::proofs::lemmas::Grind::common_steps))]
pub fn arranged(alloc: Global, mut parts: Vec<Part>) -> Result<TypedStatements, AllocError>
    ensures { IfOk result (λ all. statements_view all ≡ put_all (map part_view parts.items) none) }
{
    let mut all = TypedStatements::End;
    while let Some(part) = parts.pop() {
        all = given!(put(alloc, part, all));
    }
    Ok(all)
}
