//! The variables of a function in its graph.

ghost use Rattle.std.specs.Prelude.{◌≡◌, IfOk, map};
ghost use Rattle.c_tree.specs.Programs.{function_view, program_view};
ghost use Rattle.c_places.specs.Places as places;
ghost use Rattle.graph_core.specs.Graphs.{binding_view, scalar_view};
ghost use Rattle.graph_build_names.specs.Names.{names_view};
ghost use Rattle.graph_build_steps.specs.Drafts.{made_of};
ghost use Rattle.graph_build.specs.Units.{are_of_one_type, binding_of, declared_at, kept_among, memory_object, note_parameters, scalar_record, scalars_among, type_index, variable_of, variables_in};

use crate::statics::{object_count, object_element};
use c_tree::{AutomaticVariable, Program, TypedFunction};
use c_type_rules::same_object;
use debug_records::{Place, Var};
use graph_build_names::{Names, object_of, scalar_of};
use graph_build_statements::{Source, narrow, object_type_of, place_number};
use graph_build_steps::{Draft, note};
use graph_core::{Binding, MemoryObject, Name, Scalar};
use std::alloc::{AllocError, Global};

/// So many numbers from a first one on.
fn numbers_from(alloc: Global, first: u32, count: u32) -> Result<Vec<u32>, AllocError>
    ensures { IfOk result (λ v. v.items ≡ places.numbers_from first count) }
{
    let mut found = Vec::new(alloc);
    for i in 0..count {
        let number = narrow(u64::from(first) + u64::from(i))?;
        found.push(number)?;
    }
    Ok(found)
}

/// The variables of a function.
fn variables_in(alloc: Global, function: &TypedFunction) -> Result<Vec<u32>, AllocError>
    ensures { IfOk result (λ v. v.items ≡ variables_in (function_view function.now)) }
{
    numbers_from(alloc, function.first_variable, function.variables)
}

/// The parameters of a function, which are its first variables.
fn parameters_of(alloc: Global, function: &TypedFunction) -> Result<Vec<u32>, AllocError>
    ensures { IfOk result (λ v. v.items ≡ places.parameters_of (function_view function.now)) }
{
    numbers_from(alloc, function.first_variable, function.parameters)
}

/// The variables that are scalars, in order.
fn scalars_among(alloc: Global, names: &Names, variables: &[u32]) -> Result<Vec<u32>, AllocError>
    ensures { IfOk result (λ v. v.items ≡ scalars_among (names_view names.now) variables.now) }
{
    let mut found = Vec::new(alloc);
    for variable in variables {
        if scalar_of(names, *variable).is_some() {
            found.push(*variable)?;
        }
    }
    Ok(found)
}

/// The variables that are kept in memory, in order.
fn kept_among(alloc: Global, names: &Names, variables: &[u32]) -> Result<Vec<u32>, AllocError>
    ensures { IfOk result (λ v. v.items ≡ kept_among (names_view names.now) variables.now) }
{
    let mut found = Vec::new(alloc);
    for variable in variables {
        if object_of(names, *variable).is_some() {
            found.push(*variable)?;
        }
    }
    Ok(found)
}

/// The variables of a function that are scalars.
pub fn scalars_of(
    alloc: Global,
    names: &Names,
    function: &TypedFunction,
) -> Result<Vec<u32>, AllocError>
    ensures { IfOk result
        (λ v. v.items ≡ scalars_among (names_view names.now) (variables_in (function_view function.now))) }
{
    let variables = variables_in(alloc, function)?;
    let scalars = scalars_among(alloc, names, &variables)?;
    Ok(scalars)
}

/// The variables of a function that are kept in memory.
fn kept_of(alloc: Global, names: &Names, function: &TypedFunction) -> Result<Vec<u32>, AllocError>
    ensures { IfOk result (λ v. v.items ≡ kept_among (names_view names.now) (variables_in (function_view function.now))) }
{
    let variables = variables_in(alloc, function)?;
    let kept = kept_among(alloc, names, &variables)?;
    Ok(kept)
}

/// The number of an automatic variable among all variables.
fn variable_of(program: &Program, variable: u32) -> Result<Var, AllocError>
    ensures { IfOk result (λ v. v.0 ≡ variable_of (program_view program.now) variable) }
{
    let statics = narrow(program.statics.len() as u64)?;
    let literals = narrow(program.literals.len() as u64)?;
    let number = u64::from(statics) + u64::from(literals) + u64::from(variable);
    Ok(Var(narrow(number)?))
}

/// The place where a variable is declared: that of its declarator, or the function's entry where it is a parameter.
fn declared_at(source: &Source<'_>, function: &TypedFunction, entry: u32, variable: u32) -> Place
    ensures { result.0 ≡ declared_at (program_view source.now.program.now) (function_view function.now) entry variable }
{
    let behind = u64::from(function.first_variable) + u64::from(function.parameters);
    if u64::from(variable) < behind {
        return Place(entry);
    }
    match source.program.automatics.get(variable as usize) {
        None => Place(entry),
        Some(found) => Place(place_number(source, found.spot.at)),
    }
}

/// Whether two variables are of one type.
fn are_of_one_type(program: &Program, one: u32, other: u32) -> bool
    ensures { result ≡ are_of_one_type (program_view program.now) one other }
{
    match (
        program.automatics.get(one as usize),
        program.automatics.get(other as usize),
    ) {
        (Some(one), Some(other)) => same_object(one.of, other.of),
        _ => false,
    }
}

/// The number of a variable's type: at which index the first scalar of that type stands.
fn type_index(program: &Program, scalars: &[u32], variable: u32) -> Result<u32, AllocError>
    ensures { IfOk result (λ n. n ≡ type_index (program_view program.now) scalars.now variable) }
{
    for (i, scalar) in scalars.iter().enumerate() {
        if are_of_one_type(program, *scalar, variable) {
            return narrow(i as u64);
        }
    }
    narrow(scalars.len() as u64)
}

/// A scalar of a function's graph, where the function has these.
fn scalar_record(
    source: &Source<'_>,
    function: &TypedFunction,
    entry: u32,
    scalars: &[u32],
    variable: u32,
) -> Result<Scalar, AllocError>
    ensures { IfOk result (λ s.
        scalar_view s ≡ scalar_record (program_view source.now.program.now) (function_view function.now) entry
        scalars.now variable) }
{
    Ok(Scalar {
        var: variable_of(source.program, variable)?,
        of: type_index(source.program, scalars, variable)?,
        place: declared_at(source, function, entry, variable),
    })
}

/// The scalars of a function's graph, where the function has these.
fn scalar_records(
    alloc: Global,
    source: &Source<'_>,
    function: &TypedFunction,
    entry: u32,
    scalars: &[u32],
) -> Result<Vec<Scalar>, AllocError>
    ensures { IfOk result (λ v.
        map scalar_view v.items ≡ map
        (scalar_record (program_view source.now.program.now) (function_view function.now) entry scalars.now)
        scalars.now) }
{
    let mut found = Vec::new(alloc);
    for variable in scalars {
        found.push(scalar_record(source, function, entry, scalars, *variable)?)?;
    }
    Ok(found)
}

/// The scalars of a function's graph.
pub fn graph_scalars(
    alloc: Global,
    source: &Source<'_>,
    names: &Names,
    function: &TypedFunction,
    entry: u32,
) -> Result<Vec<Scalar>, AllocError>
    ensures { IfOk result (λ v.
        map scalar_view v.items ≡ map
        (scalar_record (program_view source.now.program.now) (function_view function.now) entry
        (scalars_among (names_view names.now) (variables_in (function_view function.now))))
        (scalars_among (names_view names.now) (variables_in (function_view function.now)))) }
{
    let scalars = scalars_of(alloc, names, function)?;
    let records = scalar_records(alloc, source, function, entry, &scalars)?;
    Ok(records)
}

/// An object in memory of a function's graph.
fn memory_object(program: &Program, variable: u32) -> Result<MemoryObject, AllocError>
    ensures { IfOk result (λ o. o ≡ memory_object (program_view program.now) variable) }
{
    let of = object_type_of(program, variable);
    Ok(MemoryObject {
        var: variable_of(program, variable)?,
        element: object_element(of),
        count: object_count(of),
    })
}

/// The objects of these variables, which are kept in memory.
fn memory_objects(
    alloc: Global,
    program: &Program,
    kept: &[u32],
) -> Result<Vec<MemoryObject>, AllocError>
    ensures { IfOk result (λ v. v.items ≡ map (memory_object (program_view program.now)) kept.now) }
{
    let mut found = Vec::new(alloc);
    for variable in kept {
        found.push(memory_object(program, *variable)?)?;
    }
    Ok(found)
}

/// The objects in memory of a function's graph.
pub fn graph_objects(
    alloc: Global,
    program: &Program,
    names: &Names,
    function: &TypedFunction,
) -> Result<Vec<MemoryObject>, AllocError>
    ensures { IfOk result (λ v.
        v.items ≡ map (memory_object (program_view program.now))
        (kept_among (names_view names.now) (variables_in (function_view function.now)))) }
{
    let kept = kept_of(alloc, names, function)?;
    let objects = memory_objects(alloc, program, &kept)?;
    Ok(objects)
}

/// What an argument is bound to.
fn binding_of(names: &Names, variable: u32) -> Binding
    ensures { binding_view result ≡ binding_of (names_view names.now) variable }
{
    match scalar_of(names, variable) {
        Some(name) => Binding::Scalar(Name(name)),
        None => Binding::Object(object_of(names, variable).unwrap_or(0)),
    }
}

/// What the arguments for these parameters are bound to.
fn bindings_among(
    alloc: Global,
    names: &Names,
    parameters: &[u32],
) -> Result<Vec<Binding>, AllocError>
    ensures { IfOk result (λ v. map binding_view v.items ≡ map (binding_of (names_view names.now)) parameters.now) }
{
    let mut found = Vec::new(alloc);
    for variable in parameters {
        found.push(binding_of(names, *variable))?;
    }
    Ok(found)
}

/// What a function's arguments are bound to.
pub fn bindings_of(
    alloc: Global,
    names: &Names,
    function: &TypedFunction,
) -> Result<Vec<Binding>, AllocError>
    ensures { IfOk result (λ v.
        map binding_view v.items ≡ map (binding_of (names_view names.now))
        (places.parameters_of (function_view function.now))) }
{
    let parameters = parameters_of(alloc, function)?;
    let bindings = bindings_among(alloc, names, &parameters)?;
    Ok(bindings)
}

/// The notes of the scalars among these parameters, before what follows.
fn note_parameters(names: &Names, parameters: &[u32], draft: Draft) -> Result<Draft, AllocError>
    ensures { IfOk result (λ d. made_of d ≡ note_parameters (names_view names.now) parameters.now (made_of draft)) }
{
    match parameters.split_first() {
        None => Ok(draft),
        Some((first, rest)) => {
            let noted = note_parameters(names, rest, draft)?;
            match scalar_of(names, *first) {
                None => Ok(noted),
                Some(name) => note(Name(name), noted),
            }
        }
    }
}

/// The notes of the scalars that are parameters of a function, before what follows.
pub fn note_all(
    alloc: Global,
    names: &Names,
    function: &TypedFunction,
    draft: Draft,
) -> Result<Draft, AllocError>
    ensures { IfOk result (λ d.
        made_of d ≡ note_parameters (names_view names.now) (places.parameters_of (function_view function.now))
        (made_of draft)) }
{
    let parameters = parameters_of(alloc, function)?;
    let noted = note_parameters(names, &parameters, draft)?;
    Ok(noted)
}
