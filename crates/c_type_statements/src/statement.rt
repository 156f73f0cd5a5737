//! What statements mean in their scopes (6.8), each part in text order.
#![tactic(auto, using(c_type_declarations::proofs::Steps::next_means, crate::proofs::Laws::bare_unlabeled))]

ghost use Rattle.std.specs.Prelude.{◌≡◌, IfOk, OnOk, map};
ghost use Rattle.std.specs.Option.{option_map};
ghost use Rattle.c_tree.specs.Statements.{branch_view, chain_of_statements, start_view, statement_view};
ghost use Rattle.c_tree.specs.TypedStatements as typed_tree;
ghost use Rattle.c_type_declarations.specs.Progress.{means, progress_view, next_met};
ghost use Rattle.c_type_statements.specs.Chains.{branch_met, branches_met, built_view, else_met};
ghost use Rattle.c_tree.specs.Expressions.{expression_view};
ghost use Rattle.c_type_statements.specs.Statements.{for_met, head_of, in_scope, block_items_met, met, statement_met, statements_met, switch_met};
ghost use Rattle.c_type_statements.specs.Switches.{Inside, added, labels_view, no_labels, part_view, so_far};

use crate::branch::{Built, nested};
use crate::ends::last_of_statement;
use crate::label::{all_labels, misplaced};
use crate::made::{block_of, do_while_of, empty, for_of, switch_of, while_of};
use crate::part::{Part, arranged};
use crate::setting::{Setting, condition, condition_if_any, start, step};
use crate::simple::{broken, continued, declared, executed, returned};
use crate::switch::{Labels, chosen_value, no_labels};
use c_tree::{
    Block, Branch, Expression, Extent, ForStart, IntegerType, Statement, TypedStatement,
    TypedStatements,
};
use c_type_declarations::Progress;
use debug_records::Spot;
use std::alloc::{AllocError, Global};

/// What a statement means.
#[cycle(statement)]
pub fn statement(
    alloc: Global,
    progress: &mut Progress,
    setting: Setting,
    s: &Statement,
) -> Result<Box<TypedStatement>, AllocError>
    ensures { IfOk result (λ t.
        means (typed_tree.statement_view t.value) (progress_view progress.new) ≡ statement_met setting
        (statement_view s.now) (progress_view progress.old)) }
{
    match s {
        Statement::Block(block) => {
            let all = block_in_scope(alloc, progress, setting, &block.statements)?;
            block_of(alloc, all)
        }
        Statement::Declaration(d) => declared(alloc, progress, d),
        Statement::Empty(spot) => empty(alloc, *spot),
        Statement::Expression { value, .. } => executed(alloc, progress, value),
        Statement::If {
            first,
            others,
            otherwise,
        } => {
            let last = last_of_statement(s);
            let chosen = branch(alloc, progress, setting, last, first)?;
            let built = branches(alloc, progress, setting, last, others)?;
            let other = last_else(alloc, progress, setting, otherwise)?;
            nested(alloc, chosen, built, other)
        }
        Statement::While {
            spot,
            condition: e,
            body,
        } => {
            let extent = Extent {
                first: *spot,
                last: last_of_statement(body),
            };
            let tree = condition(alloc, progress, extent, e)?;
            let body = statement(alloc, progress, setting.in_loop(), body)?;
            while_of(alloc, e.first(), tree, body)
        }
        Statement::DoWhile {
            extent,
            body,
            condition: e,
        } => {
            let body = statement(alloc, progress, setting.in_loop(), body)?;
            let tree = condition(alloc, progress, *extent, e)?;
            do_while_of(alloc, body, e.first(), tree)
        }
        Statement::For {
            spot,
            start,
            condition,
            step,
            body,
        } => {
            progress.open(alloc)?;
            let made = for_loop(
                alloc, progress, setting, *spot, start, condition, step, body,
            )?;
            progress.close();
            Ok(made)
        }
        Statement::Switch { spot, value, body } => {
            switch(alloc, progress, setting, *spot, body, value)
        }
        Statement::Labeled {
            labels,
            statement: s,
        } => {
            misplaced(alloc, progress, labels)?;
            statement(alloc, progress, setting, s)
        }
        Statement::Break(extent) => broken(alloc, progress, setting, *extent),
        Statement::Continue(extent) => continued(alloc, progress, setting, *extent),
        Statement::Return { extent, value } => returned(alloc, progress, setting, *extent, value),
    }
}

/// Statements one behind the other.
#[cycle(statement)]
pub fn statements(
    alloc: Global,
    progress: &mut Progress,
    setting: Setting,
    all: &[Statement],
) -> Result<TypedStatements, AllocError>
    ensures { IfOk result (λ t.
        means (typed_tree.statements_view t) (progress_view progress.new) ≡ statements_met setting
        (chain_of_statements (map statement_view all.now)) (progress_view progress.old)) }
{
    let mut parts = Vec::new(alloc);
    for one in all {
        let made = statement(alloc, progress, setting, one)?;
        parts.push(Part::Statement(made))?;
    }
    arranged(alloc, parts)
}

/// Statements in a scope of their own.
#[cycle(statement)]
fn block_in_scope(
    alloc: Global,
    progress: &mut Progress,
    setting: Setting,
    all: &[Statement],
) -> Result<TypedStatements, AllocError>
    ensures { IfOk result (λ t.
        means (typed_tree.statements_view t) (progress_view progress.new) ≡ in_scope
        (statements_met setting (chain_of_statements (map statement_view all.now))) (progress_view progress.old)) }
{
    progress.open(alloc)?;
    let made = statements(alloc, progress, setting, all)?;
    progress.close();
    Ok(made)
}

/// A branch of an `if`.
#[cycle(statement)]
fn branch(
    alloc: Global,
    progress: &mut Progress,
    setting: Setting,
    last: u32,
    branch: &Branch,
) -> Result<Built, AllocError>
    ensures { IfOk result (λ b.
        means (built_view b) (progress_view progress.new) ≡ branch_met setting last (branch_view branch.now)
        (progress_view progress.old)) }
{
    let extent = Extent {
        first: branch.spot,
        last,
    };
    let tree = condition(alloc, progress, extent, &branch.condition)?;
    let then = statement(alloc, progress, setting, &branch.then)?;
    Ok(Built {
        spot: branch.condition.first(),
        condition: tree,
        then,
    })
}

/// Branches of an `if` behind the first.
#[cycle(statement)]
fn branches(
    alloc: Global,
    progress: &mut Progress,
    setting: Setting,
    last: u32,
    all: &[Branch],
) -> Result<Vec<Built>, AllocError>
    ensures { IfOk result (λ v.
        means (map built_view v.items) (progress_view progress.new) ≡ branches_met setting last
        (map branch_view all.now) (progress_view progress.old)) }
{
    let mut built = Vec::new(alloc);
    for one in all {
        let made = branch(alloc, progress, setting, last, one)?;
        built.push(made)?;
    }
    Ok(built)
}

/// The last `else`.
#[cycle(statement)]
fn last_else(
    alloc: Global,
    progress: &mut Progress,
    setting: Setting,
    otherwise: &Option<Box<Statement>>,
) -> Result<Option<Box<TypedStatement>>, AllocError>
    ensures { IfOk result (λ t.
        means (option_map (λ s. typed_tree.statement_view s.value) t) (progress_view progress.new) ≡ else_met
        setting (option_map (λ s. statement_view s.value) otherwise.now) (progress_view progress.old)) }
{
    match otherwise {
        None => Ok(None),
        Some(s) => {
            let made = statement(alloc, progress, setting, s)?;
            Ok(Some(made))
        }
    }
}

/// A `for`, in its scope.
#[cycle(statement)]
fn for_loop(
    alloc: Global,
    progress: &mut Progress,
    setting: Setting,
    spot: Spot,
    first: &ForStart,
    test: &Option<Expression>,
    last: &Option<Expression>,
    body: &Statement,
) -> Result<Box<TypedStatement>, AllocError>
    ensures { IfOk result (λ t.
        means (typed_tree.statement_view t.value) (progress_view progress.new) ≡ for_met setting spot
        (start_view first.now) (option_map expression_view test.now) (option_map expression_view last.now)
        (statement_view body.now) (progress_view progress.old)) }
{
    let extent = Extent {
        first: spot,
        last: last_of_statement(body),
    };
    let start = start(alloc, progress, first)?;
    let condition = condition_if_any(alloc, progress, extent, test)?;
    let step = step(alloc, progress, last)?;
    let body = statement(alloc, progress, setting.in_loop(), body)?;
    let head = head_of(spot, test);
    let made = for_of(alloc, start, head, condition, step, body)?;
    Ok(made)
}

/// Where the place of a `for` stands: at its condition, or without one at its own first token.
fn head_of(spot: Spot, condition: &Option<Expression>) -> Spot
    ensures { result ≡ head_of spot (option_map expression_view condition.now) }
{
    match condition {
        Some(e) => e.first(),
        None => spot,
    }
}

/// A `switch`.
#[cycle(statement)]
fn switch(
    alloc: Global,
    progress: &mut Progress,
    setting: Setting,
    spot: Spot,
    block: &Block,
    value: &Expression,
) -> Result<Box<TypedStatement>, AllocError>
    ensures { IfOk result (λ t.
        means (typed_tree.statement_view t.value) (progress_view progress.new) ≡ switch_met setting spot
        (expression_view value.now) (chain_of_statements (map statement_view block.now.statements.items)) block.now.closing
        (progress_view progress.old)) }
{
    let extent = Extent {
        first: spot,
        last: block.closing.at,
    };
    let chosen = chosen_value(alloc, progress, extent, value)?;
    progress.open(alloc)?;
    let body = items(
        alloc,
        progress,
        setting.in_switch(),
        chosen.kind,
        &block.statements,
    )?;
    progress.close();
    let made = switch_of(alloc, value.first(), chosen.tree, body)?;
    Ok(made)
}

/// The statements of the block of a `switch`.
#[cycle(statement)]
fn items(
    alloc: Global,
    progress: &mut Progress,
    setting: Setting,
    kind: Option<IntegerType>,
    all: &[Statement],
) -> Result<TypedStatements, AllocError>
    ensures { IfOk result (λ t.
        means (typed_tree.statements_view t) (progress_view progress.new) ≡ block_items_met setting kind
        (chain_of_statements (map statement_view all.now)) no_labels (progress_view progress.old)) }
{
    let mut labels = no_labels(alloc);
    let mut parts = Vec::new(alloc);
    for one in all {
        item(alloc, progress, setting, kind, &mut labels, &mut parts, one)?;
    }
    arranged(alloc, parts)
}

/// A statement directly in the block of a `switch`, with its labels.
#[cycle(statement)]
fn item(
    alloc: Global,
    progress: &mut Progress,
    setting: Setting,
    kind: Option<IntegerType>,
    labels: &mut Labels,
    parts: &mut Vec<Part>,
    s: &Statement,
) -> Result<(), AllocError>
    ensures { OnOk result
        (means (so_far parts.new.items labels.new) (progress_view progress.new) ≡ next_met
        (met (Inside kind (labels_view labels.old)) setting (statement_view s.now) (progress_view progress.old))
        (added (map part_view parts.old.items))) }
{
    match s {
        Statement::Labeled {
            labels: own,
            statement: s,
        } => {
            all_labels(alloc, progress, kind, labels, parts, own)?;
            item(alloc, progress, setting, kind, labels, parts, s)
        }
        _ => {
            let made = statement(alloc, progress, setting, s)?;
            parts.push(Part::Statement(made))?;
            Ok(())
        }
    }
}
