//! The names and objects of a function's code, by its variables.

ghost use Rattle.std.specs.Prelude.{◌≡◌, ◌+◌, IfOk, map, drop, take};
ghost use Rattle.c_tree.specs.Programs.{automatic_view, function_view, program_view};
ghost use Rattle.c_tree.specs.TypedExpressions.{lvalue_view};
ghost use Rattle.graph_core.specs.Graphs.{location_view};
ghost use Rattle.graph_build_names.specs.Names.{home_of, homes_from, homes_of, names_of, names_view, object_location, object_of, pick, scalar_named, scalar_of};

use c_tree::{AutomaticVariable, Lvalue, Object, Program, TypedFunction, ValueType};
use c_type_rules::results_of;
use graph_core::Location;
use std::alloc::{AllocError, Global};

/// Where a variable is kept: in a scalar, by its name, or in an object in memory, by its number.
#[derive(Clone, Copy, PartialEq, Eq)]
pub enum Home {
    Scalar(u32),
    Object(u32),
}

/// What a function's code names.
#[derive(Drop)]
pub struct Names {
    /// The number of the function's first variable.
    pub first: u32,
    /// Where its variables are kept, from the first one on.
    pub homes: Vec<Home>,
    /// How many static variables the program has. Its literals are numbered behind them.
    pub statics: u32,
    /// The types of what functions give, by their numbers.
    pub results: Vec<ValueType>,
    /// Temporaries are used again.
    pub again: bool,
}

/// So many elements from one on, as far as there are.
fn stretch(all: &[AutomaticVariable], first: u32, count: u32) -> &[AutomaticVariable]
    ensures { result.now ≡ take count (drop first all.now) }
{
    let first = first as usize;
    if first >= all.len() {
        return &[];
    }
    let rest = &all[first..];
    let count = count as usize;
    if count >= rest.len() {
        return rest;
    }
    &rest[..count]
}

/// So many variables from one on, as far as there are.
#[tactic(auto, using(crate::proofs::Variables::stretch_of_map))]
fn variables_of(all: &[AutomaticVariable], first: u32, count: u32) -> &[AutomaticVariable]
    ensures { map automatic_view result.now ≡ take count (drop first (map automatic_view all.now)) }
{
    stretch(all, first, count)
}

/// Where variables are kept: scalars and objects are numbered apart.
fn homes_from(alloc: Global, variables: &[AutomaticVariable]) -> Result<Vec<Home>, AllocError>
    ensures { IfOk result (λ v. v.items ≡ homes_from 0 0 (map automatic_view variables.now)) }
{
    let mut homes = Vec::new(alloc);
    let mut scalars = 0u32;
    let mut objects = 0u32;
    for variable in variables {
        if variable.in_memory {
            homes.push(Home::Object(objects))?;
            objects = following(objects)?;
        } else {
            homes.push(Home::Scalar(scalars))?;
            scalars = following(scalars)?;
        }
    }
    Ok(homes)
}

/// The number behind a number; want of memory behind the greatest one.
pub fn following(number: u32) -> Result<u32, AllocError>
    ensures { IfOk result (λ next. next ≡ number + 1) }
{
    match number.checked_add(1) {
        None => Err(AllocError),
        Some(next) => Ok(next),
    }
}

/// The names of a function of a program. Want of memory also answers a program of 2^32 static variables.
pub fn names_of(
    alloc: Global,
    program: &Program,
    function: &TypedFunction,
    again: bool,
) -> Result<Names, AllocError>
    ensures { IfOk result (λ n. names_view n ≡ names_of (program_view program.now) (function_view function.now) again) }
{
    let statics = match u32::try_from(program.statics.len()) {
        Ok(statics) => statics,
        Err(_) => return Err(AllocError),
    };
    let first = function.first_variable;
    let variables = variables_of(&program.automatics, first, function.variables);
    Ok(Names {
        first,
        homes: homes_from(alloc, variables)?,
        statics,
        results: results_of(alloc, &program.functions)?,
        again,
    })
}

/// Where a variable is kept, if it is one of the function.
fn home_of(names: &Names, variable: u32) -> Option<Home>
    ensures { result ≡ home_of (names_view names.now) variable }
{
    if names.first <= variable {
        match names.homes.get((variable - names.first) as usize) {
            None => None,
            Some(home) => Some(*home),
        }
    } else {
        None
    }
}

/// The name of a variable that is a scalar.
pub fn scalar_of(names: &Names, variable: u32) -> Option<u32>
    ensures { result ≡ scalar_of (names_view names.now) variable }
{
    match home_of(names, variable) {
        Some(Home::Scalar(name)) => Some(name),
        _ => None,
    }
}

/// The number of the object of a variable in memory.
pub fn object_of(names: &Names, variable: u32) -> Option<u32>
    ensures { result ≡ object_of (names_view names.now) variable }
{
    match home_of(names, variable) {
        Some(Home::Object(object)) => Some(object),
        _ => None,
    }
}

/// The name of the scalar that an lvalue names.
pub fn scalar_named(names: &Names, l: &Lvalue) -> Option<u32>
    ensures { result ≡ scalar_named (names_view names.now) (lvalue_view l.now) }
{
    match l {
        Lvalue::Named {
            object: Object::Automatic(variable),
            ..
        } => scalar_of(names, *variable),
        _ => None,
    }
}

/// The beginning of the object of a variable.
pub fn object_location(names: &Names, variable: u32) -> Location
    ensures { location_view result ≡ object_location (object_of (names_view names.now) variable) }
{
    match object_of(names, variable) {
        None => Location::Static(0),
        Some(object) => Location::Automatic { object, offset: 0 },
    }
}

/// A name where names are used again, and else another one.
pub fn pick(names: &Names, again: u32, fresh: u32) -> u32
    ensures { result ≡ pick (names_view names.now) again fresh }
{
    if names.again { again } else { fresh }
}
