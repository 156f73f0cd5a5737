//! What a statement stands in, and the rules that its expressions may break.
#![tactic(auto, using(c_type_declarations::proofs::Steps::next_means, c_type_declarations::proofs::Steps::reached_means))]

ghost use Rattle.std.specs.Prelude.{◌≡◌, IfOk, OnOk};
ghost use Rattle.std.specs.Option.{option_map};
ghost use Rattle.c_tree.specs.Expressions.{expression_view};
ghost use Rattle.c_tree.specs.Statements as tree;
ghost use Rattle.c_tree.specs.TypedStatements.{start_view, step_view};
ghost use Rattle.c_type_declarations.specs.Progress.{means, progress_view};
ghost use Rattle.c_type_statements.specs.Settings.{condition_if_any, condition_met, returned_value, in_loop, in_switch, is_void, return_met, returnable, returns, run_met, start_met, step_met, checked_condition as tested, rule_unless};
ghost use Rattle.c_type_values.specs.Values.{node_view, value_view};

use c_tree::{Expression, Extent, ForStart, Rvalue, TypedStart, TypedStep, ValueType};
use c_type_declarations::{Progress, declaration, tree_of};
use c_type_expressions::is_zero;
use c_type_values::{Value, converted, given, is_scalar, node};
use debug_records::Code;
use std::alloc::{AllocError, Global};

/// What a statement stands in.
#[derive(Clone, Copy)]
pub struct Setting {
    /// What its function gives.
    pub result: ValueType,
    /// It stands in a loop or in the block of a `switch`.
    pub may_break: bool,
    /// It stands in a loop.
    pub may_continue: bool,
}

impl Setting {
    /// Within the body of a loop.
    pub fn in_loop(self) -> Setting
        ensures { result ≡ in_loop self }
    {
        Setting {
            result: self.result,
            may_break: true,
            may_continue: true,
        }
    }

    /// Within the block of a `switch`.
    pub fn in_switch(self) -> Setting
        ensures { result ≡ in_switch self }
    {
        Setting {
            result: self.result,
            may_break: true,
            may_continue: self.may_continue,
        }
    }
}

/// Notes that a construct breaks a rule, but where the flag says that it keeps it.
pub fn unless(
    progress: &mut Progress,
    is_fine: bool,
    code: Code,
    extent: Extent,
) -> Result<(), AllocError>
    ensures { OnOk result (progress_view progress.new ≡ rule_unless is_fine code extent (progress_view progress.old)) }
{
    if is_fine {
        return Ok(());
    }
    progress.fault(code, extent)
}

/// What an expression computes that is a statement or a part of a `for`.
pub fn run(
    alloc: Global,
    progress: &mut Progress,
    e: &Expression,
) -> Result<Box<Rvalue>, AllocError>
    ensures { IfOk result (λ r.
        means (node_view r) (progress_view progress.new) ≡ run_met (expression_view e.now)
        (progress_view progress.old)) }
{
    let value = given!(progress.value(alloc, e));
    let tree = given!(tree_of(alloc, value));
    Ok(tree)
}

/// A value that is tested: a scalar's.
fn tested(
    alloc: Global,
    progress: &mut Progress,
    extent: Extent,
    value: Option<Value>,
) -> Result<Box<Rvalue>, AllocError>
    ensures { IfOk result (λ r.
        means (node_view r) (progress_view progress.new) ≡ tested extent (option_map value_view value)
        (progress_view progress.old)) }
{
    let Some(value) = value else {
        let nothing = given!(tree_of(alloc, None));
        return Ok(nothing);
    };
    given!(unless(progress, is_scalar(value.of), Code::OPERAND_TYPES, extent));
    Ok(value.tree)
}

/// A condition of a statement.
pub fn condition(
    alloc: Global,
    progress: &mut Progress,
    extent: Extent,
    e: &Expression,
) -> Result<Box<Rvalue>, AllocError>
    ensures { IfOk result (λ r.
        means (node_view r) (progress_view progress.new) ≡ condition_met extent (expression_view e.now)
        (progress_view progress.old)) }
{
    let value = given!(progress.value(alloc, e));
    tested(alloc, progress, extent, value)
}

/// The condition of a `for`, if it has one.
pub fn condition_if_any(
    alloc: Global,
    progress: &mut Progress,
    extent: Extent,
    e: &Option<Expression>,
) -> Result<Option<Box<Rvalue>>, AllocError>
    ensures { IfOk result (λ r.
        means (option_map node_view r) (progress_view progress.new) ≡ condition_if_any extent
        (option_map expression_view e.now) (progress_view progress.old)) }
{
    match e {
        None => Ok(None),
        Some(e) => {
            let tree = given!(condition(alloc, progress, extent, e));
            Ok(Some(tree))
        }
    }
}

/// The first part of a `for`.
pub fn start(
    alloc: Global,
    progress: &mut Progress,
    start: &ForStart,
) -> Result<Box<TypedStart>, AllocError>
    ensures { IfOk result (λ s.
        means (start_view s.value) (progress_view progress.new) ≡ start_met (tree.start_view start.now)
        (progress_view progress.old)) }
{
    match start {
        ForStart::Nothing => {
            let made = given!(node(alloc, TypedStart::Nothing));
            Ok(made)
        }
        ForStart::Expression(e) => {
            let tree = given!(run(alloc, progress, e));
            let spot = e.first();
            let value = Box::into_inner(tree);
            let made = given!(node(alloc, TypedStart::Expression { spot, value }));
            Ok(made)
        }
        ForStart::Declaration(d) => {
            let all = given!(declaration(alloc, progress, d));
            let made = given!(node(alloc, TypedStart::Declaration(all)));
            Ok(made)
        }
    }
}

/// The third part of a `for`, if it has one.
pub fn step(
    alloc: Global,
    progress: &mut Progress,
    e: &Option<Expression>,
) -> Result<Option<Box<TypedStep>>, AllocError>
    ensures { IfOk result (λ s.
        means (option_map (λ x. step_view x.value) s) (progress_view progress.new) ≡ step_met
        (option_map expression_view e.now) (progress_view progress.old)) }
{
    match e {
        None => Ok(None),
        Some(e) => {
            let tree = given!(run(alloc, progress, e));
            let spot = e.first();
            let value = Box::into_inner(tree);
            let made = given!(node(alloc, TypedStep { spot, value }));
            Ok(Some(made))
        }
    }
}

/// Whether a function gives nothing.
fn is_void(of: ValueType) -> bool
    ensures { result ≡ is_void of }
{
    match of {
        ValueType::Void => true,
        ValueType::Integer(_) | ValueType::Pointer(_) => false,
    }
}

/// A value as if assigned to a function's result.
fn returnable(
    alloc: Global,
    of: ValueType,
    value: Value,
    is_zero: bool,
) -> Result<Option<Value>, AllocError>
    ensures { IfOk result (λ v. option_map value_view v ≡ returnable of (value_view value) is_zero) }
{
    if is_void(of) {
        return Ok(None);
    }
    converted(alloc, value, of, is_zero)
}

/// What a function gives that returns a value.
fn given_back(
    progress: &mut Progress,
    value: Option<Value>,
    extent: Extent,
) -> Result<Option<Box<Rvalue>>, AllocError>
    ensures { IfOk result (λ r.
        means (option_map node_view r) (progress_view progress.new) ≡ returned_value (option_map value_view value) extent
        (progress_view progress.old)) }
{
    match value {
        Some(value) => Ok(Some(value.tree)),
        None => {
            given!(progress.fault(Code::RETURN_MISMATCH, extent));
            Ok(None)
        }
    }
}

/// What a `return` with an expression gives.
fn returns(
    alloc: Global,
    progress: &mut Progress,
    of: ValueType,
    extent: Extent,
    is_zero: bool,
    value: Option<Value>,
) -> Result<Option<Box<Rvalue>>, AllocError>
    ensures { IfOk result (λ r.
        means (option_map node_view r) (progress_view progress.new) ≡ returns of extent is_zero
        (option_map value_view value) (progress_view progress.old)) }
{
    match value {
        Some(value) => {
            let value = given!(returnable(alloc, of, value, is_zero));
            given_back(progress, value, extent)
        }
        None => {
            if is_void(of) {
                given!(progress.fault(Code::RETURN_MISMATCH, extent));
            }
            Ok(None)
        }
    }
}

/// What a `return` gives: a value where its function has a result, else none.
pub fn return_value(
    alloc: Global,
    progress: &mut Progress,
    of: ValueType,
    extent: Extent,
    e: &Option<Expression>,
) -> Result<Option<Box<Rvalue>>, AllocError>
    ensures { IfOk result (λ r.
        means (option_map node_view r) (progress_view progress.new) ≡ return_met of extent
        (option_map expression_view e.now) (progress_view progress.old)) }
{
    match e {
        Some(e) => {
            let value = given!(progress.value(alloc, e));
            returns(alloc, progress, of, extent, is_zero(e), value)
        }
        None => {
            given!(unless(progress, is_void(of), Code::RETURN_MISMATCH, extent));
            Ok(None)
        }
    }
}
