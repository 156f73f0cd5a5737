//! Where statements end.

ghost use Rattle.std.specs.Prelude.{◌≡◌};
ghost use Rattle.c_tree.specs.Statements.{statement_view};
ghost use Rattle.c_type_statements.specs.StatementEnds.{last_of_statement};

use c_tree::Statement;

/// The offset of the last token of a statement.
pub fn last_of_statement(statement: &Statement) -> u32
    ensures { result ≡ last_of_statement (statement_view statement.now) }
{
    match statement {
        Statement::Block(block) => block.closing.at,
        Statement::Declaration(declaration) => declaration.extent.last,
        Statement::Empty(spot) => spot.at,
        Statement::Expression { last, .. } => *last,
        Statement::If {
            first,
            others,
            otherwise,
        } => match otherwise {
            Some(otherwise) => last_of_statement(otherwise),
            None => match others.last() {
                Some(branch) => last_of_statement(&branch.then),
                None => last_of_statement(&first.then),
            },
        },
        Statement::While { body, .. } | Statement::For { body, .. } => last_of_statement(body),
        Statement::DoWhile { extent, .. } => extent.last,
        Statement::Switch { body, .. } => body.closing.at,
        Statement::Labeled { statement, .. } => last_of_statement(statement),
        Statement::Break(extent) | Statement::Continue(extent) => extent.last,
        Statement::Return { extent, .. } => extent.last,
    }
}
