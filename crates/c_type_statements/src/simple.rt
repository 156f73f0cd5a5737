//! Statements in which no others stand.
#![tactic(auto, using(c_type_declarations::proofs::Steps::next_means, c_type_declarations::proofs::Steps::reached_means))]

ghost use Rattle.std.specs.Prelude.{◌≡◌, IfOk};
ghost use Rattle.std.specs.Option.{option_map};
ghost use Rattle.debug_records.specs.declared.code.TheConstants.Code.{MISPLACED_JUMP};
ghost use Rattle.c_tree.specs.Declarations.{declaration_view};
ghost use Rattle.c_tree.specs.Ends.{first_spot};
ghost use Rattle.c_tree.specs.Expressions.{expression_view};
ghost use Rattle.c_tree.specs.TypedStatements as typed_tree;
ghost use Rattle.c_type_declarations.specs.Declarations.{declaration_met};
ghost use Rattle.c_type_declarations.specs.Progress.{means, next_met, progress_view};
ghost use Rattle.c_type_statements.specs.Settings.{return_met, run_met, rule_unless};

use crate::made::unboxed;
use crate::setting::{Setting, return_value, run, unless};
use c_tree::{Declaration, Expression, Extent, TypedStatement};
use c_type_declarations::{Progress, declaration};
use c_type_values::{given, node};
use debug_records::Code;
use std::alloc::{AllocError, Global};

/// A declaration.
pub fn declared(
    alloc: Global,
    progress: &mut Progress,
    d: &Declaration,
) -> Result<Box<TypedStatement>, AllocError>
    ensures { IfOk result (λ t.
        means (typed_tree.statement_view t.value) (progress_view progress.new) ≡ next_met
        (declaration_met (declaration_view d.now) (progress_view progress.old))
        (λ all. means (typed_tree.Declaration all))) }
{
    let all = given!(declaration(alloc, progress, d));
    let made = given!(node(alloc, TypedStatement::Declaration(all)));
    Ok(made)
}

/// An expression.
pub fn executed(
    alloc: Global,
    progress: &mut Progress,
    e: &Expression,
) -> Result<Box<TypedStatement>, AllocError>
    ensures { IfOk result (λ t.
        means (typed_tree.statement_view t.value) (progress_view progress.new) ≡ next_met
        (run_met (expression_view e.now) (progress_view progress.old))
        (λ r. means (typed_tree.Run (first_spot (expression_view e.now)) r))) }
{
    let spot = e.first();
    let tree = given!(run(alloc, progress, e));
    let value = Box::into_inner(tree);
    let made = given!(node(alloc, TypedStatement::Expression { spot, value }));
    Ok(made)
}

/// A `break`.
pub fn broken(
    alloc: Global,
    progress: &mut Progress,
    setting: Setting,
    extent: Extent,
) -> Result<Box<TypedStatement>, AllocError>
    ensures { IfOk result (λ t.
        means (typed_tree.statement_view t.value) (progress_view progress.new) ≡ means
        (typed_tree.Break extent.first)
        (rule_unless setting.may_break MISPLACED_JUMP extent (progress_view progress.old))) }
{
    given!(unless(progress, setting.may_break, Code::MISPLACED_JUMP, extent));
    let made = given!(node(alloc, TypedStatement::Break(extent.first)));
    Ok(made)
}

/// A `continue`.
pub fn continued(
    alloc: Global,
    progress: &mut Progress,
    setting: Setting,
    extent: Extent,
) -> Result<Box<TypedStatement>, AllocError>
    ensures { IfOk result (λ t.
        means (typed_tree.statement_view t.value) (progress_view progress.new) ≡ means
        (typed_tree.Continue extent.first)
        (rule_unless setting.may_continue MISPLACED_JUMP extent (progress_view progress.old))) }
{
    given!(unless(progress, setting.may_continue, Code::MISPLACED_JUMP, extent));
    let made = given!(node(alloc, TypedStatement::Continue(extent.first)));
    Ok(made)
}

/// A `return`.
pub fn returned(
    alloc: Global,
    progress: &mut Progress,
    setting: Setting,
    extent: Extent,
    e: &Option<Expression>,
) -> Result<Box<TypedStatement>, AllocError>
    ensures { IfOk result (λ t.
        means (typed_tree.statement_view t.value) (progress_view progress.new) ≡ next_met
        (return_met setting.result extent (option_map expression_view e.now) (progress_view progress.old))
        (λ r. means (typed_tree.Return extent.first r))) }
{
    let tree = given!(return_value(alloc, progress, setting.result, extent, e));
    let value = unboxed(tree);
    let spot = extent.first;
    let made = given!(node(alloc, TypedStatement::Return { spot, value }));
    Ok(made)
}
