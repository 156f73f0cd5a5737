//! Declarations of automatic objects (6.7).
#![tactic(auto, using(crate::proofs::Steps::next_means, crate::proofs::Steps::reached_means))]

ghost use Rattle.std.specs.Prelude.{◌≡◌, IfOk, OnOk, length, map};
ghost use Rattle.c_tree.specs.Declarations.{declaration_view, declarator_view};
ghost use Rattle.c_tree.specs.Expressions.{identifier_view};
ghost use Rattle.c_tree.specs.TypedStatements.{declared_view};
ghost use Rattle.c_type_declarations.specs.Declarations.{automatic_met, automatic_of_type, automatics_met, declaration_met, is_array, with_automatic};
ghost use Rattle.c_type_declarations.specs.Progress.{means, progress_view};

use crate::initial::initial;
use crate::object::object_type;
use crate::progress::Progress;
use c_tree::{
    AutomaticVariable, Declaration, Declarator, Declared, Identifier, IntegerType, Object,
    ObjectType, Scalar,
};
use c_type_expressions::{Meaning, numbered};
use c_type_values::given;
use std::alloc::{AllocError, Global};

/// Whether a type is an array's.
fn is_array(of: ObjectType) -> bool
    ensures { result ≡ is_array of }
{
    match of {
        ObjectType::Scalar(_) => false,
        ObjectType::Array { .. } => true,
    }
}

/// Adds an automatic object.
pub fn add_automatic(
    alloc: Global,
    progress: &mut Progress,
    identifier: &Identifier,
    of: ObjectType,
) -> Result<(), AllocError>
    ensures { OnOk result
        (progress_view progress.new
        ≡ with_automatic (identifier_view identifier.now) of (progress_view progress.old)) }
{
    let name = String::from_str(alloc, &identifier.name)?;
    progress.automatics.push(AutomaticVariable {
        name,
        spot: identifier.spot,
        of,
        in_memory: is_array(of),
    })?;
    Ok(())
}

/// The number of the next automatic object.
pub fn next_automatic(progress: &Progress) -> Result<u32, AllocError>
    ensures { IfOk result (λ n. n ≡ length (progress_view progress.now).automatics) }
{
    numbered(progress.automatics.len())
}

/// A declarator of an object of a type.
fn declared_as(
    alloc: Global,
    progress: &mut Progress,
    declarator: &Declarator,
    of: ObjectType,
) -> Result<Declared, AllocError>
    ensures { IfOk result (λ d.
        means (declared_view d) (progress_view progress.new) ≡ automatic_of_type (declarator_view declarator.now) of
        (progress_view progress.old)) }
{
    let variable = given!(next_automatic(progress));
    let identifier = &declarator.identifier;
    let object = Object::Automatic(variable);
    given!(progress.declare(
        alloc,
        declarator.extent,
        &identifier.name,
        Meaning::Variable { object, of },
    ));
    given!(add_automatic(alloc, progress, identifier, of));
    let initial = given!(initial(
        alloc,
        progress,
        of,
        declarator.extent,
        &declarator.initializer,
    ));
    Ok(Declared {
        variable,
        spot: identifier.spot,
        initial,
    })
}

/// A declarator in a function.
fn automatic(
    alloc: Global,
    progress: &mut Progress,
    base: IntegerType,
    declarator: &Declarator,
) -> Result<Declared, AllocError>
    ensures { IfOk result (λ d.
        means (declared_view d) (progress_view progress.new) ≡ automatic_met base (declarator_view declarator.now)
        (progress_view progress.old)) }
{
    let scalar = Scalar {
        base,
        stars: declarator.stars,
    };
    let of = given!(object_type(alloc, progress, scalar, declarator));
    declared_as(alloc, progress, declarator, of)
}

/// A declaration in a function.
#[tactic(auto, using(crate::proofs::Steps::next_means, crate::proofs::Steps::next_more, crate::proofs::Steps::next_all))]
pub fn declaration(
    alloc: Global,
    progress: &mut Progress,
    declaration: &Declaration,
) -> Result<Vec<Declared>, AllocError>
    ensures { IfOk result (λ all.
        means (map declared_view all.items) (progress_view progress.new) ≡ declaration_met
        (declaration_view declaration.now) (progress_view progress.old)) }
{
    let mut all = Vec::new(alloc);
    for declarator in &declaration.declarators {
        let one = automatic(alloc, progress, declaration.integer_type, declarator)?;
        all.push(one)?;
    }
    Ok(all)
}
