//! The types of objects that declarators declare (6.7.6).
#![tactic(auto, using(crate::proofs::Steps::next_means, crate::proofs::Steps::reached_means))]

ghost use Rattle.std.specs.Prelude.{◌≡◌, IfOk, map};
ghost use Rattle.std.specs.Option.{option_map};
ghost use Rattle.c_tree.specs.Declarations.{brackets_view, chain_of_initializers, declarator_view, initializer_view};
ghost use Rattle.c_tree.specs.Expressions.{expression_view};
ghost use Rattle.c_type_declarations.specs.Objects.{count_or, declared_count, implied_count, is_plain_char, literal_for, literal_in, only_in, only_literal, size_met, sized_by, type_by, type_met};
ghost use Rattle.c_type_declarations.specs.Progress.{means, progress_view};
ghost use Rattle.c_type_values.specs.Values.{value_view};

use crate::progress::Progress;
use c_tree::{
    Brackets, Core, Declarator, Expression, Extent, Initializer, IntegerType, ObjectType, Scalar,
};
use c_type_expressions::count_of;
use c_type_rules::same_integer;
use c_type_values::{Value, given};
use debug_records::{Code, Spot};
use std::alloc::{AllocError, Global};

/// A string literal as it is written.
#[derive(Clone, Copy)]
pub struct Written<'a> {
    /// Where it begins.
    pub spot: Spot,
    /// Its bytes without the final zero.
    pub bytes: &'a [u8],
}

/// Whether a type is plain `char`.
pub fn is_char(of: Scalar) -> bool
    ensures { result ≡ is_plain_char of }
{
    of.stars == 0 && same_integer(of.base, IntegerType::Char)
}

/// A string literal, perhaps in parentheses.
pub fn literal_in(e: &Expression) -> Option<Written<'_>>
    ensures { option_map (λ w. (w.spot, w.bytes.now)) result ≡ literal_in (expression_view e.now) }
{
    match e.core() {
        Core::Literal { extent, bytes } => Some(Written {
            spot: extent.first,
            bytes,
        }),
        Core::Name(_) | Core::Constant { .. } | Core::Compound => None,
    }
}

/// The expression that alone stands in braces, if they hold no more.
#[tactic(auto, using(crate::proofs::Lists::not_one))]
pub fn only_expression(all: &[Initializer]) -> Option<&Expression>
    ensures { option_map (λ e. expression_view e.now) result ≡ only_in (chain_of_initializers (map initializer_view all.now)) }
{
    if all.len() != 1 {
        return None;
    }
    match &all[0] {
        Initializer::Expression(e) => Some(e),
        Initializer::List(_) => None,
    }
}

/// The only literal that an initializer is, perhaps in braces of its own.
pub fn only_literal(initializer: &Initializer) -> Option<Written<'_>>
    ensures { option_map (λ w. (w.spot, w.bytes.now)) result ≡ only_literal (initializer_view initializer.now) }
{
    match initializer {
        Initializer::Expression(e) => literal_in(e),
        Initializer::List(initializers) => match only_expression(initializers) {
            Some(e) => literal_in(e),
            None => None,
        },
    }
}

/// The literal that initialises an array of such elements, if one does: only of `char`.
pub fn literal_for(element: Scalar, initializer: &Initializer) -> Option<Written<'_>>
    ensures { option_map (λ w. (w.spot, w.bytes.now)) result ≡ literal_for element (initializer_view initializer.now) }
{
    if !is_char(element) {
        return None;
    }
    only_literal(initializer)
}

/// How many elements an array has whose brackets are empty.
#[tactic(auto, using(crate::proofs::Lists::count_chain))]
pub fn implied_count(element: Scalar, initializer: &Option<Initializer>) -> usize
    ensures { result ≡ implied_count element (option_map initializer_view initializer.now) }
{
    let Some(initializer) = initializer else {
        return 1;
    };
    if let Some(written) = literal_for(element, initializer) {
        return written.bytes.len() + 1;
    }
    match initializer {
        Initializer::Expression(_) => 1,
        Initializer::List(initializers) => initializers.len().max(1),
    }
}

/// How many elements an array has: below 2 ^ 32.
fn counted(progress: &mut Progress, count: u64, extent: Extent) -> Result<u32, AllocError>
    ensures { IfOk result
        (λ n. means n (progress_view progress.new) ≡ declared_count count extent (progress_view progress.old)) }
{
    if count < 4294967296 {
        return Ok(count as u32);
    }
    given!(progress.fault(Code::UNEXPECTED_KEYWORD, extent));
    Ok(1)
}

/// How many elements an array has by the value of its size.
fn sized_by(
    progress: &mut Progress,
    extent: Extent,
    value: Option<Value>,
) -> Result<u32, AllocError>
    ensures { IfOk result (λ n.
        means n (progress_view progress.new) ≡ sized_by extent (option_map value_view value)
        (progress_view progress.old)) }
{
    let Some(value) = value else {
        return Ok(1);
    };
    match count_of(value.of, value.constant) {
        Some(count) => counted(progress, count, extent),
        None => {
            given!(progress.fault(Code::UNEXPECTED_KEYWORD, extent));
            Ok(1)
        }
    }
}

/// How many elements an array has by its size: a positive integer constant expression. 1 stands for what is at fault.
pub fn size(
    alloc: Global,
    progress: &mut Progress,
    extent: Extent,
    e: &Expression,
) -> Result<u32, AllocError>
    ensures { IfOk result (λ n.
        means n (progress_view progress.new) ≡ size_met extent (expression_view e.now) (progress_view progress.old)) }
{
    let value = given!(progress.value(alloc, e));
    sized_by(progress, extent, value)
}

/// The type of the object that a declarator declares.
pub fn object_type(
    alloc: Global,
    progress: &mut Progress,
    scalar: Scalar,
    declarator: &Declarator,
) -> Result<ObjectType, AllocError>
    ensures { IfOk result (λ of.
        means of (progress_view progress.new) ≡ type_met scalar (declarator_view declarator.now)
        (progress_view progress.old)) }
{
    let extent = declarator.extent;
    match &declarator.brackets {
        Brackets::Absent => Ok(ObjectType::Scalar(scalar)),
        Brackets::Empty => {
            let implied = implied_count(scalar, &declarator.initializer);
            let count = given!(counted(progress, implied as u64, extent));
            Ok(ObjectType::Array {
                element: scalar,
                count,
            })
        }
        Brackets::Sized(e) => {
            let count = given!(size(alloc, progress, extent, e));
            Ok(ObjectType::Array {
                element: scalar,
                count,
            })
        }
    }
}
