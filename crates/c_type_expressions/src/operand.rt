//! What an operand is as it is written.

ghost use Rattle.std.specs.Prelude.{◌≡◌, map};
ghost use Rattle.c_tree.specs.Expressions.{expression_view, suffix_view};
ghost use Rattle.std.specs.Option.{option_map};
ghost use Rattle.c_type_expressions.specs.Chains.{direct_callee};
ghost use Rattle.c_type_expressions.specs.Expressions.{function_meant, function_named, function_number, is_zero};
ghost use Rattle.c_type_expressions.specs.Names.{names_view, signature_view};

use crate::names::{Meaning, Names, Signature};
use c_tree::{Core, Expression, Suffix};

/// Whether an expression is a constant token of value 0, perhaps in parentheses.
pub fn is_zero(e: &Expression) -> bool
    ensures { result ≡ is_zero (expression_view e.now) }
{
    match e.core() {
        Core::Constant { value, .. } => value == 0,
        Core::Name(_) | Core::Literal { .. } | Core::Compound => false,
    }
}

/// The number of a function, where a name means one.
fn function_meant(meaning: Option<Meaning>) -> Option<u32>
    ensures { result ≡ function_meant meaning }
{
    match meaning {
        Some(Meaning::Function(number)) => Some(number),
        _ => None,
    }
}

/// The number of the function that an expression names, perhaps in parentheses.
pub fn function_number(names: &Names, e: &Expression) -> Option<u32>
    ensures { result ≡ function_number (names_view names.now) (expression_view e.now) }
{
    match e.core() {
        Core::Name(identifier) => function_meant(names.meaning(&identifier.name)),
        Core::Constant { .. } | Core::Literal { .. } | Core::Compound => None,
    }
}

/// The function that an expression names, perhaps in parentheses.
pub fn function_named<'a>(names: &'a Names, e: &Expression) -> Option<&'a Signature>
    ensures { option_map (λ s. signature_view s.now) result
        ≡ function_named (names_view names.now) (expression_view e.now) }
{
    match function_number(names, e) {
        None => None,
        Some(number) => names.signatures.get(number as usize),
    }
}

/// The function that is called, where the first suffix is a call and the operand names a function.
pub fn direct_callee<'a>(
    names: &'a Names,
    operand: &Expression,
    suffixes: &[Suffix],
) -> Option<&'a Signature>
    ensures { option_map (λ s. signature_view s.now) result ≡ direct_callee (names_view names.now)
        (expression_view operand.now) (map suffix_view suffixes.now) }
{
    match suffixes.first() {
        Some(Suffix::Call { .. }) => function_named(names, operand),
        _ => None,
    }
}
