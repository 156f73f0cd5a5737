//! What statements, functions and sources weigh.

ghost use Rattle.std.specs.Prelude.{◌≡◌, map, sum_by};
ghost use Rattle.c_tree.specs.Declarations.{parameter_view};
ghost use Rattle.c_tree.specs.Statements.{block_view, branch_view, chain_of_statements, label_view, start_view, statement_view};
ghost use Rattle.c_tree.specs.Trees.{item_view, tree_view};
ghost use Rattle.c_type_bounds.specs.Counts.{capped};
ghost use Rattle.c_type_bounds.specs.Weights.{branch_weight, definition_weight, item_weight, items_weight, label_weight, parameter_weight, parameters_weight, start_weight, statement_weight, statements_weight};

use crate::count::plus;
use crate::weight::{declarators_weight, size_weight, weight, weight_if_any};
use c_tree::{Block, Branch, ForStart, Item, Label, Parameter, Statement, Tree};

/// What the first part of a `for` weighs.
fn start_weight(start: &ForStart) -> u64
    ensures { result ≡ capped (start_weight (start_view start.now)) }
{
    match start {
        ForStart::Nothing => 0,
        ForStart::Expression(e) => weight(e),
        ForStart::Declaration(d) => declarators_weight(&d.declarators),
    }
}

/// What a label weighs.
fn label_weight(label: &Label) -> u64
    ensures { result ≡ capped (label_weight (label_view label.now)) }
{
    match label {
        Label::Case { value, .. } => plus(1, weight(value)),
        Label::Default(_) => 1,
    }
}

/// What labels weigh.
fn labels_weight(all: &[Label]) -> u64
    ensures { result ≡ capped (sum_by label_weight (map label_view all.now)) }
{
    let mut total = 0;
    for one in all {
        total = plus(total, label_weight(one));
    }
    total
}

/// What a statement weighs.
#[cycle(statement_weight)]
fn statement_weight(statement: &Statement) -> u64
    ensures { result ≡ capped (statement_weight (statement_view statement.now)) }
{
    match statement {
        Statement::Block(block) => plus(1, statements_weight(&block.statements)),
        Statement::Declaration(d) => declarators_weight(&d.declarators),
        Statement::Empty(_) | Statement::Break(_) | Statement::Continue(_) => 1,
        Statement::Expression { value, .. } => plus(1, weight(value)),
        Statement::If {
            first,
            others,
            otherwise,
        } => {
            let total = plus(branch_weight(first), branches_weight(others));
            match otherwise {
                Some(otherwise) => plus(total, statement_weight(otherwise)),
                None => total,
            }
        }
        Statement::While {
            condition,
            body,
            ..
        } => plus(plus(1, weight(condition)), statement_weight(body)),
        Statement::DoWhile {
            body,
            condition,
            ..
        } => plus(plus(1, weight(condition)), statement_weight(body)),
        Statement::For {
            start,
            condition,
            step,
            body,
            ..
        } => {
            let head = plus(plus(1, start_weight(start)), weight_if_any(condition));
            plus(plus(head, weight_if_any(step)), statement_weight(body))
        }
        Statement::Switch { value, body, .. } => {
            plus(plus(2, weight(value)), statements_weight(&body.statements))
        }
        Statement::Labeled { labels, statement } => {
            plus(labels_weight(labels), statement_weight(statement))
        }
        Statement::Return { value, .. } => plus(1, weight_if_any(value)),
    }
}

/// What a condition and what it decides on weigh.
#[cycle(statement_weight)]
fn branch_weight(branch: &Branch) -> u64
    ensures { result ≡ capped (branch_weight (branch_view branch.now)) }
{
    plus(
        plus(1, weight(&branch.condition)),
        statement_weight(&branch.then),
    )
}

/// What each `else if` weighs.
#[cycle(statement_weight)]
fn branches_weight(all: &[Branch]) -> u64
    ensures { result ≡ capped (sum_by branch_weight (map branch_view all.now)) }
{
    let mut total = 0;
    for one in all {
        total = plus(total, branch_weight(one));
    }
    total
}

/// What statements weigh.
#[cycle(statement_weight)]
fn statements_weight(all: &[Statement]) -> u64
    ensures { result ≡ capped (statements_weight (chain_of_statements (map statement_view all.now))) }
{
    let mut total = 0;
    for one in all {
        total = plus(total, statement_weight(one));
    }
    total
}

/// What a parameter weighs.
fn parameter_weight(parameter: &Parameter) -> u64
    ensures { result ≡ capped (parameter_weight (parameter_view parameter.now)) }
{
    plus(1, size_weight(&parameter.brackets))
}

/// What parameters weigh.
fn parameters_weight(all: &[Parameter]) -> u64
    ensures { result ≡ capped (parameters_weight (map parameter_view all.now)) }
{
    let mut total = 0;
    for one in all {
        total = plus(total, parameter_weight(one));
    }
    total
}

/// What a function's definition weighs.
pub fn definition_weight(parameters: &[Parameter], body: &Block) -> u64
    ensures { result ≡ capped (definition_weight (map parameter_view parameters.now) (block_view body.now)) }
{
    plus(
        plus(2, parameters_weight(parameters)),
        statements_weight(&body.statements),
    )
}

/// What stands at file scope weighs.
fn item_weight(item: &Item) -> u64
    ensures { result ≡ capped (item_weight (item_view item.now)) }
{
    match item {
        Item::Include { .. } => 0,
        Item::Declaration(d) => declarators_weight(&d.declarators),
        Item::Function(f) => match &f.body {
            Some(body) => definition_weight(&f.parameters, body),
            None => 0,
        },
    }
}

/// What a source weighs.
pub fn tree_weight(tree: &Tree) -> u64
    ensures { result ≡ capped (items_weight (tree_view tree.now)) }
{
    let mut total = 0;
    for item in &tree.items {
        total = plus(total, item_weight(item));
    }
    total
}
