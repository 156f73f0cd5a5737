//! The function that a program begins with.

ghost use Rattle.std.specs.Prelude.{◌≡◌, map};
ghost use Rattle.std.specs.Option.{option_map};
ghost use Rattle.debug_records.specs.declared.code.TheConstants.Code.{NO_MAIN};
ghost use Rattle.c_tree.specs.Declarations.{declarator_view};
ghost use Rattle.c_tree.specs.Trees.{function_view, item_view};
ghost use Rattle.c_type.specs.Programs.{is_main, main_definition, main_line, main_refusal, misdeclared, object_line};

use crate::function::result_type;
use c_tree::{Declarator, Function, IntegerType, Item, ValueType};
use c_type_rules::same_value;

/// Whether a name is `main`.
fn is_main(name: &str) -> bool
    ensures { result ≡ is_main name.now }
{
    name == "main"
}

/// The line of a declaration of `main` that is not `int main(void)`.
fn misdeclared_line(f: &Function) -> Option<u32>
    ensures { result ≡ main_line (function_view f.now) }
{
    let is_int = same_value(
        result_type(f.base, f.stars),
        ValueType::Integer(IntegerType::Int),
    );
    if is_int && f.parameters.is_empty() {
        return None;
    }
    Some(f.identifier.spot.line)
}

/// The line of an object that is called `main`.
fn object_line(declarators: &[Declarator]) -> Option<u32>
    ensures { result ≡ object_line (map declarator_view declarators.now) }
{
    for declarator in declarators {
        if is_main(&declarator.identifier.name) {
            return Some(declarator.identifier.spot.line);
        }
    }
    None
}

/// The definition of `main`, if there is one.
fn definition(items: &[Item]) -> Option<&Function>
    ensures { option_map (λ f. function_view f.now) result ≡ main_definition (map item_view items.now) }
{
    for item in items {
        if let Item::Function(f) = item {
            if f.body.is_some() && is_main(&f.identifier.name) {
                return Some(f);
            }
        }
    }
    None
}

/// The line of a declaration of `main` as anything but `int main(void)`.
fn misdeclared(item: &Item) -> Option<u32>
    ensures { result ≡ misdeclared (item_view item.now) }
{
    match item {
        Item::Include { .. } => None,
        Item::Declaration(d) => object_line(&d.declarators),
        Item::Function(f) => {
            if is_main(&f.identifier.name) {
                misdeclared_line(f)
            } else {
                None
            }
        }
    }
}

/// The line on which there is no `int main(void)`: that of a `main` of another type, or the first. None where there is
/// one.
pub fn no_main(items: &[Item]) -> Option<u32>
    ensures { option_map (λ line. (NO_MAIN, line)) result ≡ main_refusal (map item_view items.now)
        (main_definition (map item_view items.now)) }
{
    if let Some(f) = definition(items) {
        return misdeclared_line(f);
    }
    for item in items {
        if let Some(line) = misdeclared(item) {
            return Some(line);
        }
    }
    Some(1)
}
