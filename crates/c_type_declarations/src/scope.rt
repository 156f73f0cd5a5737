//! How declarations and blocks change what names mean (6.2.1).

ghost use Rattle.std.specs.Prelude.{◌≡◌, ◌-◌, OnOk, length, map, string_bytes, take};
ghost use Rattle.c_type_declarations.specs.Scopes.{declared, declared_here, empty_scope, entered, innermost, left, with_meaning};
ghost use Rattle.c_type_expressions.specs.Names.{names_view, scope_view};

use c_type_expressions::{Meaning, Names, Scope};
use c_type_values::given;
use indexmap::IndexMap;
use std::alloc::{AllocError, Global};

/// A scope in which nothing is declared.
pub fn empty_scope(alloc: Global) -> Scope
    ensures { scope_view result ≡ empty_scope }
{
    Scope {
        meanings: IndexMap::new(alloc),
    }
}

/// Gives a name a meaning in a scope, in place of any earlier one.
fn give(scope: &mut Scope, name: String, meaning: Meaning) -> Result<(), AllocError>
    ensures { OnOk result (scope_view scope.new ≡ with_meaning (string_bytes name) meaning (scope_view scope.old)) }
{
    scope.meanings.insert(name, meaning)?;
    Ok(())
}

/// The meaning that a name has in the innermost scope itself.
pub fn declared_here(names: &Names, name: &str) -> Option<Meaning>
    ensures { result ≡ declared_here (names_view names.now) name.now }
{
    match names.scopes.last() {
        None => None,
        Some(scope) => scope.meaning(name),
    }
}

/// Takes out the innermost scope. Of none it is the empty one.
fn take_innermost(alloc: Global, scopes: &mut Vec<Scope>) -> Scope
    ensures scope { scope_view result ≡ innermost (map scope_view scopes.old.items) }
    ensures rest { scopes.new.items ≡ take (length scopes.old.items - 1) scopes.old.items }
{
    match scopes.pop() {
        Some(scope) => scope,
        None => empty_scope(alloc),
    }
}

/// Gives a name a meaning in the innermost scope, in place of any earlier one.
#[tactic(auto, using(std::proofs::lemmas::Grind::common_steps))]
pub fn declare(
    alloc: Global,
    names: &mut Names,
    name: &str,
    meaning: Meaning,
) -> Result<(), AllocError>
    ensures { OnOk result (names_view names.new ≡ declared name.now meaning (names_view names.old)) }
{
    let name = String::from_str(alloc, name)?;
    let mut scope = take_innermost(alloc, &mut names.scopes);
    give(&mut scope, name, meaning)?;
    names.scopes.push(scope)?;
    Ok(())
}

/// Begins a scope.
pub fn enter(alloc: Global, names: &mut Names) -> Result<(), AllocError>
    ensures { OnOk result (names_view names.new ≡ entered (names_view names.old)) }
{
    names.scopes.push(empty_scope(alloc))?;
    Ok(())
}

/// Ends the innermost scope.
pub fn leave(names: &mut Names)
    ensures { names_view names.new ≡ left (names_view names.old) }
{
    names.scopes.pop();
}
