//! Where statements begin.

ghost use Rattle.std.specs.Prelude.{◌≡◌, map};
ghost use Rattle.c_tree.specs.TypedStatements.{declared_view, start_view, statement_view, statements_view};
ghost use Rattle.c_flow.specs.Flow.{start_place, start_of_all, start_of_declarators, start_of_for};

use c_tree::{Declared, TypedStart, TypedStatement, TypedStatements};

/// Where declarators begin that something follows.
pub fn start_of_declarators(all: &[Declared], next: Option<u32>) -> Option<u32>
    ensures { result ≡ start_of_declarators (map declared_view all.now) next }
{
    match all.split_first() {
        None => next,
        Some((first, _)) => Some(first.spot.at),
    }
}

/// Where a `for` begins, whose condition or head stands at a position.
fn start_of_for(begin: &TypedStart, head: u32) -> Option<u32>
    ensures { result ≡ start_of_for (start_view begin.now) head }
{
    match begin {
        TypedStart::Nothing => Some(head),
        TypedStart::Expression { spot, .. } => Some(spot.at),
        TypedStart::Declaration(all) => start_of_declarators(all, Some(head)),
    }
}

/// Where a statement begins that something follows.
#[cycle(start)]
pub fn start(statement: &TypedStatement, next: Option<u32>) -> Option<u32>
    ensures { result ≡ start_place (statement_view statement.now) next }
{
    match statement {
        TypedStatement::Block(all) => start_of_all(all, next),
        TypedStatement::Declaration(all) => start_of_declarators(all, next),
        TypedStatement::Empty(spot)
        | TypedStatement::Expression { spot, .. }
        | TypedStatement::If { spot, .. }
        | TypedStatement::IfElse { spot, .. }
        | TypedStatement::While { spot, .. }
        | TypedStatement::Switch { spot, .. }
        | TypedStatement::Break(spot)
        | TypedStatement::Continue(spot)
        | TypedStatement::Return { spot, .. } => Some(spot.at),
        TypedStatement::DoWhile { body, spot, .. } => start(body, Some(spot.at)),
        TypedStatement::For { start, spot, .. } => start_of_for(start, spot.at),
    }
}

/// Where statements begin that something follows: where the first of them begins that has a place.
#[tactic(auto, using(crate::proofs::Starts::begins_here, crate::proofs::Starts::begins_later))]
#[cycle(start)]
pub fn start_of_all(all: &TypedStatements, next: Option<u32>) -> Option<u32>
    ensures { result ≡ start_of_all (statements_view all.now) next }
{
    match all {
        TypedStatements::End => next,
        TypedStatements::More(first, rest) => match start(first, None) {
            Some(at) => Some(at),
            None => start_of_all(rest, next),
        },
        TypedStatements::Case(_, rest) | TypedStatements::Default(rest) => {
            start_of_all(rest, next)
        }
    }
}
