//! What whole expressions mean (6.5), each part before what holds it, in text order.

ghost use Rattle.std.specs.Prelude.{◌≡◌, IfOk, map};
ghost use Rattle.std.specs.Option.{option_map};
ghost use Rattle.c_tree.specs.Expressions.{chain_of_arguments, expression_view, suffix_view};
ghost use Rattle.c_tree.specs.TypedExpressions.{arguments_view};
ghost use Rattle.c_type_values.specs.Values.{meant_view, value_view};
ghost use Rattle.c_type_expressions.specs.Chains.{commas_met, function_called, operation_view, operations_met, suffix_met, suffixes_met};
ghost use Rattle.c_type_expressions.specs.Expressions.{typed, typed_all};
ghost use Rattle.c_type_expressions.specs.Findings.{findings_view, gives};
ghost use Rattle.c_type_expressions.specs.Judgements.{valued};
ghost use Rattle.c_type_expressions.specs.Names.{names_view, signature_view};

use crate::call::{argument_list, called, noted, parameter_at, passed_to, uncallable};
use crate::findings::Findings;
use crate::judgement::{
    assignment, cast, chosen, followed, indexed, literal_met, measured, named, number_of, operated,
    prefixed, size_value, sized, stepping, valued,
};
use crate::names::{Names, Signature};
use crate::operand::{direct_callee, is_zero};
use c_tree::{Arguments, BinaryOperator, Direction, Expression, Given, Scalar, Suffix};
use c_type_rules::scalar_size;
use c_type_values::{Meant, Value};
use debug_records::Spot;
use std::alloc::{AllocError, Global};

/// What an expression means, if it breaks no rule, with what is found in it.
#[cycle(meaning)]
pub fn expression(
    alloc: Global,
    names: &Names,
    found: &mut Findings,
    e: &Expression,
) -> Result<Option<Meant>, AllocError>
    ensures { IfOk result (λ m.
        gives (option_map meant_view m) (findings_view found.new) ≡ typed (names_view names.now)
        (expression_view e.now) (findings_view found.old)) }
{
    match e {
        Expression::Name(identifier) => {
            named(
                alloc,
                found,
                names.meaning(&identifier.name),
                identifier.spot,
            )
        }
        Expression::Constant {
            value,
            integer_type,
            ..
        } => {
            let number = number_of(alloc, *integer_type, i64::from(*value))?;
            Ok(Some(number))
        }
        Expression::Literal { extent, bytes } => literal_met(alloc, found, extent.first, bytes),
        Expression::Parenthesized { inner, .. } => expression(alloc, names, found, inner),
        Expression::Postfix { operand, suffixes } => {
            match direct_callee(names, operand, suffixes) {
                Some(function) => suffixed(
                    alloc,
                    names,
                    found,
                    Some(function),
                    None,
                    operand.first(),
                    suffixes,
                ),
                None => {
                    let meant = expression(alloc, names, found, operand)?;
                    suffixed(alloc, names, found, None, meant, operand.first(), suffixes)
                }
            }
        }
        Expression::Prefix {
            spot,
            operator,
            operand,
        } => {
            let meant = expression(alloc, names, found, operand)?;
            prefixed(alloc, found, *operator, meant, *spot, operand.last())
        }
        Expression::Cast {
            spot,
            type_name,
            operand,
        } => {
            let given = value(alloc, names, found, operand)?;
            cast(alloc, found, *type_name, given, *spot, operand.last())
        }
        Expression::SizeofExpression { spot, operand } => {
            let undefined = found.undefined.len();
            let literals = found.literals.len();
            let meant = expression(alloc, names, found, operand)?;
            found.forget(undefined, literals);
            measured(alloc, found, meant, *spot, operand.last())
        }
        Expression::SizeofType {
            extent,
            integer_type,
            stars,
            size,
        } => {
            let element = Scalar {
                base: *integer_type,
                stars: *stars,
            };
            match size {
                None => {
                    let size = size_value(alloc, u128::from(scalar_size(element)))?;
                    Ok(Some(size))
                }
                Some(size) => {
                    let count = value(alloc, names, found, size)?;
                    sized(
                        alloc,
                        found,
                        count,
                        scalar_size(element),
                        extent.first,
                        extent.last,
                    )
                }
            }
        }
        Expression::Binary { first, operations } => {
            let meant = expression(alloc, names, found, first)?;
            operators(
                alloc,
                names,
                found,
                meant,
                is_zero(first),
                first.first(),
                operations,
            )
        }
        Expression::Conditional {
            condition,
            then,
            otherwise,
        } => {
            let asked = value(alloc, names, found, condition)?;
            let one = value(alloc, names, found, then)?;
            let other = value(alloc, names, found, otherwise)?;
            chosen(
                alloc,
                found,
                asked,
                one,
                other,
                is_zero(then),
                is_zero(otherwise),
                condition.first(),
                otherwise.last(),
            )
        }
        Expression::Assignment {
            operator,
            target,
            value: right,
        } => {
            let written = expression(alloc, names, found, target)?;
            let given = value(alloc, names, found, right)?;
            assignment(
                alloc,
                found,
                *operator,
                written,
                given,
                is_zero(right),
                target.first(),
                right.last(),
            )
        }
        Expression::Comma { first, rest } => {
            let meant = expression(alloc, names, found, first)?;
            commas(alloc, names, found, meant, rest)
        }
    }
}

/// The value of an expression.
#[cycle(meaning)]
pub fn value(
    alloc: Global,
    names: &Names,
    found: &mut Findings,
    e: &Expression,
) -> Result<Option<Value>, AllocError>
    ensures { IfOk result (λ v.
        gives (option_map value_view v) (findings_view found.new) ≡ valued
        (typed (names_view names.now) (expression_view e.now) (findings_view found.old))) }
{
    let meant = expression(alloc, names, found, e)?;
    valued(alloc, meant)
}

/// Suffixes behind an operand, or behind the function that it names.
#[cycle(meaning)]
fn suffixed(
    alloc: Global,
    names: &Names,
    found: &mut Findings,
    function: Option<&Signature>,
    operand: Option<Meant>,
    first: Spot,
    suffixes: &[Suffix],
) -> Result<Option<Meant>, AllocError>
    ensures { IfOk result (λ m.
        gives (option_map meant_view m) (findings_view found.new) ≡ suffixes_met (names_view names.now)
        (option_map (λ g. signature_view g.now) function.entry) first (map suffix_view suffixes.now)
        (option_map meant_view operand) (findings_view found.old)) }
{
    let mut callee = function;
    let mut meant = operand;
    for one in suffixes {
        meant = suffix(alloc, names, found, callee, meant, first, one)?;
        callee = None;
    }
    Ok(meant)
}

/// One suffix behind an operand, or behind the function that it names.
#[cycle(meaning)]
fn suffix(
    alloc: Global,
    names: &Names,
    found: &mut Findings,
    function: Option<&Signature>,
    operand: Option<Meant>,
    first: Spot,
    suffix: &Suffix,
) -> Result<Option<Meant>, AllocError>
    ensures { IfOk result (λ m.
        gives (option_map meant_view m) (findings_view found.new) ≡ suffix_met (names_view names.now)
        (option_map (λ g. signature_view g.now) function.entry) first (suffix_view suffix.now)
        (option_map meant_view operand) (findings_view found.old)) }
{
    match suffix {
        Suffix::Index { index, last } => {
            let right = value(alloc, names, found, index)?;
            let left = valued(alloc, operand)?;
            indexed(alloc, found, left, right, first, *last)
        }
        Suffix::Call { arguments, last } => match function {
            Some(function) => call(alloc, names, found, function, arguments, first, *last),
            None => {
                passed(alloc, names, found, arguments, &[])?;
                let operand = valued(alloc, operand)?;
                uncallable(found, operand, first, *last)
            }
        },
        Suffix::Increment { last } => stepping(
            alloc,
            found,
            Direction::Up,
            Given::Old,
            operand,
            first,
            *last,
        ),
        Suffix::Decrement { last } => stepping(
            alloc,
            found,
            Direction::Down,
            Given::Old,
            operand,
            first,
            *last,
        ),
    }
}

/// A call of a function.
#[cycle(meaning)]
fn call(
    alloc: Global,
    names: &Names,
    found: &mut Findings,
    function: &Signature,
    arguments: &[Expression],
    first: Spot,
    last: u32,
) -> Result<Option<Meant>, AllocError>
    ensures { IfOk result (λ m.
        gives (option_map meant_view m) (findings_view found.new) ≡ function_called (names_view names.now)
        (signature_view function.now) (chain_of_arguments (map expression_view arguments.now)) first last
        (findings_view found.old)) }
{
    noted(found, function.callee, first)?;
    let (all, fit) = passed(alloc, names, found, arguments, &function.parameters)?;
    called(alloc, found, function, all, fit, first, last)
}

/// Arguments, each for its parameter, and whether all fit and there is one for each.
#[cycle(meaning)]
fn passed(
    alloc: Global,
    names: &Names,
    found: &mut Findings,
    arguments: &[Expression],
    parameters: &[Scalar],
) -> Result<(Arguments, bool), AllocError>
    ensures { IfOk result (λ q.
        gives (record { trees = arguments_view q.0; fit = q.1 }) (findings_view found.new) ≡ typed_all
        (names_view names.now) (chain_of_arguments (map expression_view arguments.now)) parameters.now 0
        (findings_view found.old)) }
{
    let mut trees = Vec::new(alloc);
    let mut fit = true;
    for (at, e) in arguments.iter().enumerate() {
        let given = value(alloc, names, found, e)?;
        let parameter = parameter_at(parameters, at);
        let (tree, fits) = passed_to(alloc, parameter, given, is_zero(e))?;
        trees.push(tree)?;
        fit &= fits;
    }
    let all = argument_list(alloc, trees)?;
    Ok((all, fit && parameters.len() <= arguments.len()))
}

/// Operators of one level behind an operand, each with its right operand.
#[cycle(meaning)]
fn operators(
    alloc: Global,
    names: &Names,
    found: &mut Findings,
    operand: Option<Meant>,
    is_zero_token: bool,
    first: Spot,
    operations: &[(BinaryOperator, Expression)],
) -> Result<Option<Meant>, AllocError>
    ensures { IfOk result (λ m.
        gives (option_map meant_view m) (findings_view found.new) ≡ operations_met (names_view names.now) first
        is_zero_token (map operation_view operations.now) (option_map meant_view operand)
        (findings_view found.old)) }
{
    let mut meant = operand;
    let mut zero = is_zero_token;
    for (operator, operand) in operations {
        let right = value(alloc, names, found, operand)?;
        let left = valued(alloc, meant)?;
        meant = operated(
            alloc,
            found,
            *operator,
            left,
            right,
            zero,
            is_zero(operand),
            first,
            operand.last(),
        )?;
        zero = false;
    }
    Ok(meant)
}

/// Expressions behind commas, behind an operand.
#[cycle(meaning)]
fn commas(
    alloc: Global,
    names: &Names,
    found: &mut Findings,
    operand: Option<Meant>,
    rest: &[Expression],
) -> Result<Option<Meant>, AllocError>
    ensures { IfOk result (λ m.
        gives (option_map meant_view m) (findings_view found.new) ≡ commas_met (names_view names.now)
        (map expression_view rest.now) (option_map meant_view operand) (findings_view found.old)) }
{
    let mut meant = operand;
    for e in rest {
        let right = value(alloc, names, found, e)?;
        let left = valued(alloc, meant)?;
        meant = followed(alloc, left, right)?;
    }
    Ok(meant)
}
