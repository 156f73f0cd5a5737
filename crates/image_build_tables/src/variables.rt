//! The table of variables.

ghost use Rattle.std.specs.Prelude.{◌≡◌, ◌+◌, ◌++◌, ◌<◌, ◌^◌, Some, None, IfOk, OnOk, get_or, length, map, replicate};
ghost use Rattle.image_form.specs.declared.variables.Storage.TheVariants.{Static};
ghost use Rattle.c_tree.specs.Programs.{automatic_view, function_view, literal_view, program_view, static_view};
ghost use Rattle.image_build_tables.specs.Variables.{automatic_shape, literal_shape, owned_from, owner, owners_of, shape, shapes_of, static_shape, storage};

use crate::element::elements_of;
use crate::numbers::number_of;
use c_tree::{AutomaticVariable, Program, StaticVariable, StringLiteral, TypedFunction};
use image_form::{ElementType, Storage, Variable};
use std::alloc::{AllocError, Global};

/// Appends the number of a function, once for each of so many variables.
fn push_owner(
    variables: u32,
    function: u32,
    owners: &mut Vec<Option<u32>>,
) -> Result<(), AllocError>
    ensures { OnOk result (owners.new.items ≡ owners.old.items ++ replicate variables (Some function)) }
{
    for _ in 0..variables {
        owners.push(Some(function))?;
    }
    Ok(())
}

/// The number of the function of each automatic variable.
fn owners_of(alloc: Global, functions: &[TypedFunction]) -> Result<Vec<Option<u32>>, AllocError>
    requires { length functions.now < 2 ^ 32 }
    ensures { IfOk result (λ v. v.items ≡ owned_from 0 (map function_view functions.now)) }
{
    let mut owners = Vec::new(alloc);
    for (number, function) in functions.iter().enumerate() {
        push_owner(function.variables, number_of(number), &mut owners)?;
    }
    Ok(owners)
}

/// The owner of this number; none where there is none.
fn owner_at(owners: &[Option<u32>], number: usize) -> Option<u32>
    ensures { result ≡ get_or owners.now number None }
{
    match owners.get(number) {
        Some(owner) => *owner,
        None => None,
    }
}

/// The storage of this number; one that no image gives a variable where there is none.
fn storage_at(storages: &[Storage], number: usize) -> Storage
    ensures { result ≡ get_or storages.now number (Static 0) }
{
    match storages.get(number) {
        Some(storage) => *storage,
        None => Storage::Static(0),
    }
}

/// Appends the named static variables, which are kept there.
fn push_statics(
    statics: &[StaticVariable],
    storages: &[Storage],
    variables: &mut Vec<Variable>,
) -> Result<(), AllocError>
    requires { length storages.now ≡ length statics.now }
    ensures storages { OnOk result (map storage variables.new.items ≡ map storage variables.old.items ++ storages.now) }
    ensures owners { OnOk result
        (map owner variables.new.items
        ≡ map owner variables.old.items ++ map (λ v. None) (map static_view statics.now)) }
    ensures shapes { OnOk result
        (map shape variables.new.items
        ≡ map shape variables.old.items ++ map static_shape (map static_view statics.now)) }
{
    for (number, of) in statics.iter().enumerate() {
        let (element, count) = elements_of(of.of);
        variables.push(Variable {
            name_length: number_of(of.name.len()),
            function: None,
            position: of.spot.at,
            element,
            storage: storage_at(storages, number),
            count,
        })?;
    }
    Ok(())
}

/// Appends the string literals that are objects, which are kept there.
fn push_literals(
    literals: &[StringLiteral],
    storages: &[Storage],
    variables: &mut Vec<Variable>,
) -> Result<(), AllocError>
    requires { length storages.now ≡ length literals.now }
    ensures storages { OnOk result (map storage variables.new.items ≡ map storage variables.old.items ++ storages.now) }
    ensures owners { OnOk result
        (map owner variables.new.items
        ≡ map owner variables.old.items ++ map (λ l. None) (map literal_view literals.now)) }
    ensures shapes { OnOk result
        (map shape variables.new.items
        ≡ map shape variables.old.items ++ map literal_shape (map literal_view literals.now)) }
{
    for (number, of) in literals.iter().enumerate() {
        variables.push(Variable {
            name_length: 0,
            function: None,
            position: of.spot.at,
            element: ElementType::U8,
            storage: storage_at(storages, number),
            count: number_of(of.bytes.len()),
        })?;
    }
    Ok(())
}

/// Appends the automatic variables, which belong to these functions and are kept there.
fn push_automatics(
    automatics: &[AutomaticVariable],
    owners: &[Option<u32>],
    storages: &[Storage],
    variables: &mut Vec<Variable>,
) -> Result<(), AllocError>
    requires owners { length owners.now ≡ length automatics.now }
    requires storages { length storages.now ≡ length automatics.now }
    ensures storages { OnOk result (map storage variables.new.items ≡ map storage variables.old.items ++ storages.now) }
    ensures owners { OnOk result (map owner variables.new.items ≡ map owner variables.old.items ++ owners.now) }
    ensures shapes { OnOk result
        (map shape variables.new.items
        ≡ map shape variables.old.items ++ map automatic_shape (map automatic_view automatics.now)) }
{
    for (number, of) in automatics.iter().enumerate() {
        let (element, count) = elements_of(of.of);
        variables.push(Variable {
            name_length: number_of(of.name.len()),
            function: owner_at(owners, number),
            position: of.spot.at,
            element,
            storage: storage_at(storages, number),
            count,
        })?;
    }
    Ok(())
}

/// How many variables a program has: static ones, literals and automatic ones. There are fewer than 2^32.
pub fn variable_count(program: &Program) -> usize
    requires { length program.now.statics.items + length program.now.literals.items
        + length program.now.automatics.items < 2 ^
        32 }
    ensures { result ≡ length program.now.statics.items + length program.now.literals.items + length
        program.now.automatics.items }
{
    program.statics.len() + program.literals.len() + program.automatics.len()
}

/// The variables of a program, which are kept there: the static ones, the literals and the automatic ones, each by
/// position. The program has as many automatic variables as its functions have.
pub fn variables_of(
    alloc: Global,
    program: &Program,
    storages: &[Storage],
) -> Result<Vec<Variable>, AllocError>
    requires few { length program.now.functions.items < 2 ^ 32 }
    requires owned { length (owned_from 0 (program_view program.now).functions) ≡ length program.now.automatics.items }
    requires kept { length storages.now ≡ length program.now.statics.items + length program.now.literals.items + length
        program.now.automatics.items }
    ensures owners { IfOk result (λ v. map owner v.items ≡ owners_of (program_view program.now)) }
    ensures shapes { IfOk result (λ v. map shape v.items ≡ shapes_of (program_view program.now)) }
    ensures storages { IfOk result (λ v. map storage v.items ≡ storages.now) }
{
    let owners = owners_of(alloc, &program.functions)?;
    let (of_statics, others) = storages.split_at(program.statics.len());
    let (of_literals, of_automatics) = others.split_at(program.literals.len());
    let mut variables = Vec::new(alloc);
    push_statics(&program.statics, of_statics, &mut variables)?;
    push_literals(&program.literals, of_literals, &mut variables)?;
    push_automatics(&program.automatics, &owners, of_automatics, &mut variables)?;
    Ok(variables)
}
