//! Names and their scopes (6.2.1).

ghost use Rattle.std.specs.Prelude.{◌≡◌, map};
ghost use Rattle.c_type_expressions.specs.Names.{found_in, meaning_of, names_view, scope_view};

use c_tree::{Callee, Object, ObjectType, Scalar, ValueType};
use indexmap::IndexMap;

/// What a name means.
#[derive(Clone, Copy)]
pub enum Meaning {
    Variable { object: Object, of: ObjectType },
    /// A function, by its number among the signatures.
    Function(u32),
    /// The constant `EOF`.
    EndOfFile,
}

/// A function's type, and what a call of it calls.
#[derive(Drop)]
pub struct Signature {
    pub result: ValueType,
    pub parameters: Vec<Scalar>,
    /// None where it is never defined.
    pub callee: Option<Callee>,
}

/// What names mean in a scope.
#[derive(Drop)]
pub struct Scope {
    pub meanings: IndexMap<String, Meaning>,
}

impl Scope {
    /// What a name means in this scope.
    pub fn meaning(&self, name: &str) -> Option<Meaning>
        ensures { result ≡ scope_view self.now name.now }
    {
        self.meanings.get(name).copied()
    }
}

/// What a name means in scopes, the innermost last: what it means in the innermost one that has it.
fn meaning_in(scopes: &[Scope], name: &str) -> Option<Meaning>
    ensures { result ≡ found_in (map scope_view scopes.now) name.now }
{
    let mut left = scopes.len();
    while left > 0 {
        left -= 1;
        if let Some(meaning) = scopes[left].meaning(name) {
            return Some(meaning);
        }
    }
    None
}

/// What is declared.
#[derive(Drop)]
pub struct Names {
    pub signatures: Vec<Signature>,
    /// The scopes that a place is in, the innermost last.
    pub scopes: Vec<Scope>,
}

impl Names {
    /// What a name means: that of the innermost scope that has it.
    pub fn meaning(&self, name: &str) -> Option<Meaning>
        ensures { result ≡ meaning_of (names_view self.now) name.now }
    {
        meaning_in(&self.scopes, name)
    }
}
