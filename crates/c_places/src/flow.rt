//! Where control flow leads.

ghost use Rattle.std.specs.Prelude.{◌≡◌};
ghost use Rattle.c_tree.specs.TypedStatements.{statement_view, statements_view};
ghost use Rattle.c_places.specs.Flow.{exits_of, exits_of_all, has_default, reaches_end};

use c_tree::{TypedStatement, TypedStatements};

/// Where a statement that is entered leads.
#[derive(Clone, Copy)]
pub struct Exits {
    /// To what follows it.
    pub next: bool,
    /// By a `break` out of it.
    pub breaks: bool,
    /// By a `continue` out of it.
    pub continues: bool,
}

/// A statement that is entered and does nothing.
const ENTERED: Exits = Exits {
    next: true,
    breaks: false,
    continues: false,
};

const NOWHERE: Exits = Exits {
    next: false,
    breaks: false,
    continues: false,
};

#[cycle(flow)]
fn exits_of(statement: &TypedStatement) -> Exits
    ensures { result ≡ exits_of (statement_view statement.now) }
{
    match statement {
        TypedStatement::Block(body) => exits_of_all(ENTERED, body),
        TypedStatement::Declaration(_)
        | TypedStatement::Empty(_)
        | TypedStatement::Expression { .. }
        | TypedStatement::While { .. } => ENTERED,
        TypedStatement::If { then, .. } => {
            let one = exits_of(then);
            Exits {
                next: true,
                breaks: one.breaks,
                continues: one.continues,
            }
        }
        TypedStatement::IfElse {
            then,
            otherwise,
            ..
        } => {
            let one = exits_of(then);
            let other = exits_of(otherwise);
            Exits {
                next: one.next || other.next,
                breaks: one.breaks || other.breaks,
                continues: one.continues || other.continues,
            }
        }
        TypedStatement::DoWhile { body, .. } => {
            let one = exits_of(body);
            Exits {
                next: one.next || one.continues || one.breaks,
                breaks: false,
                continues: false,
            }
        }
        TypedStatement::For {
            condition,
            body,
            ..
        } => Exits {
            next: condition.is_some() || exits_of(body).breaks,
            breaks: false,
            continues: false,
        },
        TypedStatement::Switch { body, .. } => {
            let one = exits_of_all(NOWHERE, body);
            Exits {
                next: one.next || one.breaks || !has_default(body),
                breaks: false,
                continues: one.continues,
            }
        }
        TypedStatement::Break(_) => Exits {
            next: false,
            breaks: true,
            continues: false,
        },
        TypedStatement::Continue(_) => Exits {
            next: false,
            breaks: false,
            continues: true,
        },
        TypedStatement::Return { .. } => NOWHERE,
    }
}

/// Whether the block of a `switch` has a `default`.
pub fn has_default(all: &TypedStatements) -> bool
    ensures { result ≡ has_default (statements_view all.now) }
{
    let mut left = all;
    loop {
        match left {
            TypedStatements::End => return false,
            TypedStatements::Default(_) => return true,
            TypedStatements::More(_, rest) | TypedStatements::Case(_, rest) => left = rest,
        }
    }
}

/// Where statements lead, behind others that lead so: behind a label each is entered.
#[cycle(flow)]
fn exits_of_all(before: Exits, all: &TypedStatements) -> Exits
    ensures { result ≡ exits_of_all before (statements_view all.now) }
{
    let mut so_far = before;
    let mut left = all;
    loop {
        match left {
            TypedStatements::End => return so_far,
            TypedStatements::More(first, rest) => {
                if so_far.next {
                    let one = exits_of(first);
                    so_far = Exits {
                        next: one.next,
                        breaks: so_far.breaks || one.breaks,
                        continues: so_far.continues || one.continues,
                    };
                }
                left = rest;
            }
            TypedStatements::Case(_, rest) | TypedStatements::Default(rest) => {
                so_far.next = true;
                left = rest;
            }
        }
    }
}

/// Whether flow from a function's entry reaches its closing brace.
pub fn reaches_end(body: &TypedStatements) -> bool
    ensures { result ≡ reaches_end (statements_view body.now) }
{
    exits_of_all(ENTERED, body).next
}
