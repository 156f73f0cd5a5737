//! Calls (6.5.2.2).

ghost use Rattle.std.specs.Prelude.{◌≡◌, IfOk, OnOk, map, slice_get};
ghost use Rattle.std.specs.Option.{option_map};
ghost use Rattle.c_tree.specs.TypedExpressions.{arguments_view};
ghost use Rattle.c_type_values.specs.Values.{meant_view, node_view, value_view};
ghost use Rattle.c_type_expressions.specs.Findings.{findings_view, gives};
ghost use Rattle.c_type_expressions.specs.Judgements.{argument_chain, call_tree, called, noted, passed_to, uncallable};
ghost use Rattle.c_type_expressions.specs.Names.{signature_view};

use crate::findings::Findings;
use crate::names::Signature;
use c_tree::{Arguments, Callee, Rvalue, Scalar};
use c_type_rules::{Constancy, loaded};
use c_type_values::{Meant, Value, converted, given, node};
use debug_records::{Code, Spot};
use std::alloc::{AllocError, Global};

/// The parameter of a number.
pub fn parameter_at(parameters: &[Scalar], at: usize) -> Option<Scalar>
    ensures { result ≡ slice_get parameters.now at }
{
    parameters.get(at).copied()
}

/// An argument as its parameter's value, and whether it fits. One with a fault of its own breaks no other rule.
pub fn passed_to(
    alloc: Global,
    parameter: Option<Scalar>,
    value: Option<Value>,
    is_zero: bool,
) -> Result<(Box<Rvalue>, bool), AllocError>
    ensures { IfOk result (λ p. (node_view p.0, p.1) ≡ passed_to parameter (option_map value_view value) is_zero) }
{
    let Some(parameter) = parameter else {
        let nothing = given!(node(alloc, Rvalue::Null));
        return Ok((nothing, false));
    };
    let Some(value) = value else {
        let nothing = given!(node(alloc, Rvalue::Null));
        return Ok((nothing, true));
    };
    match given!(converted(alloc, value, loaded(parameter), is_zero)) {
        Some(value) => Ok((value.tree, true)),
        None => {
            let nothing = given!(node(alloc, Rvalue::Null));
            Ok((nothing, false))
        }
    }
}

/// The arguments of a call, in a list of the tree's own.
pub fn argument_list(alloc: Global, mut values: Vec<Box<Rvalue>>) -> Result<Arguments, AllocError>
    ensures { IfOk result (λ all. arguments_view all ≡ argument_chain (map node_view values.items)) }
{
    let mut all = Arguments::End;
    while let Some(value) = values.pop() {
        let rest = node(alloc, all)?;
        all = Arguments::More(value, rest);
    }
    Ok(all)
}

/// A call of what has a type but is no function.
pub fn uncallable(
    found: &mut Findings,
    operand: Option<Value>,
    first: Spot,
    last: u32,
) -> Result<Option<Meant>, AllocError>
    ensures { IfOk result (λ m.
        gives (option_map meant_view m) (findings_view found.new) ≡ uncallable first last
        (option_map value_view operand) (findings_view found.old)) }
{
    if operand.is_some() {
        given!(found.fault(Code::OPERAND_TYPES, first, last));
    }
    Ok(None)
}

/// Notes a call of a function that is never defined.
pub fn noted(found: &mut Findings, callee: Option<Callee>, first: Spot) -> Result<(), AllocError>
    ensures { OnOk result (findings_view found.new ≡ noted callee first (findings_view found.old)) }
{
    if callee.is_none() {
        given!(found.call_undefined(first));
    }
    Ok(())
}

/// What a call computes.
fn call_tree(
    alloc: Global,
    callee: Option<Callee>,
    arguments: Arguments,
) -> Result<Box<Rvalue>, AllocError>
    ensures { IfOk result (λ r. node_view r ≡ call_tree callee (arguments_view arguments)) }
{
    match callee {
        None => {
            let nothing = given!(node(alloc, Rvalue::Null));
            Ok(nothing)
        }
        Some(callee) => {
            let arguments = given!(node(alloc, arguments));
            let tree = given!(node(alloc, Rvalue::Call { callee, arguments }));
            Ok(tree)
        }
    }
}

/// A call of a function with arguments, which may not all fit.
pub fn called(
    alloc: Global,
    found: &mut Findings,
    function: &Signature,
    arguments: Arguments,
    fit: bool,
    first: Spot,
    last: u32,
) -> Result<Option<Meant>, AllocError>
    ensures { IfOk result (λ m.
        gives (option_map meant_view m) (findings_view found.new) ≡ called (signature_view function.now) first last
        (record { trees = arguments_view arguments; fit = fit }) (findings_view found.old)) }
{
    if !fit {
        given!(found.fault(Code::ARGUMENTS, first, last));
    }
    let tree = given!(call_tree(alloc, function.callee, arguments));
    Ok(Some(Meant::Value(Value {
        of: function.result,
        tree,
        constant: Constancy::Varies,
    })))
}
