//! Whether the places and variables of a program fit in numbers of 32 bits.

ghost use Rattle.std.specs.Prelude.{◌≡◌, ◌+◌, ◌<◌, ◌^◌, ◌↔◌, IfOk, IsTrue, length, map};
ghost use Rattle.std.specs.List.{AllByRecursion};
ghost use Rattle.c_tree.specs.Programs.{function_view, program_view};
ghost use Rattle.c_places.specs.Places.{place_view, places_of_program};
ghost use Rattle.c_flow.specs.Tables.{FewVariables, Fits32};

use c_places::{Place, places_of_program};
use c_tree::{Program, TypedFunction};
use std::alloc::{AllocError, Global};

/// Whether the parameters of a function fit.
fn has_few_parameters(function: &TypedFunction) -> bool
    ensures { IsTrue result ↔ (function.now.first_variable + function.now.parameters < 2 ^ 32) }
{
    u64::from(function.first_variable) + u64::from(function.parameters) < 4294967296
}

/// Whether the parameters of functions fit.
fn parameters_fit(functions: &[TypedFunction]) -> bool
    ensures { IsTrue result ↔ AllByRecursion (λ f. f.first_variable + f.parameters < 2 ^ 32)
        (map function_view functions.now) }
{
    let mut left = functions;
    while let [first, rest @ ..] = left {
        if !has_few_parameters(first) {
            return false;
        }
        left = rest;
    }
    true
}

/// Whether so many places and functions fit.
fn counts_fit(places: &[Place], functions: &[TypedFunction]) -> bool
    ensures { IsTrue result ↔ (length places.now + 1 < 2 ^ 32) × (length functions.now < 2 ^ 32) }
{
    places.len() < 4294967295 && functions.len() < 4294967296
}

/// Whether the variables of a program fit.
fn variables_fit(program: &Program) -> bool
    ensures { IsTrue result ↔ FewVariables (program_view program.now) }
{
    let statics = program.statics.len();
    let literals = program.literals.len();
    let automatics = program.automatics.len();
    if statics >= 4294967296 || literals >= 4294967296 || automatics >= 4294967296 {
        return false;
    }
    statics + literals + automatics < 4294967296
}

/// Whether these places of a program and its variables fit.
fn all_fit(program: &Program, places: &[Place]) -> bool
    requires { map place_view places.now ≡ places_of_program (program_view program.now) }
    ensures { IsTrue result ↔ Fits32 (program_view program.now) }
{
    if !counts_fit(places, &program.functions) {
        return false;
    }
    if !variables_fit(program) {
        return false;
    }
    parameters_fit(&program.functions)
}

/// Whether the places and variables of a program fit in numbers of 32 bits.
pub fn fits(alloc: Global, program: &Program) -> Result<bool, AllocError>
    ensures { IfOk result (λ b. IsTrue b ↔ Fits32 (program_view program.now)) }
{
    let places = places_of_program(alloc, program)?;
    Ok(all_fit(program, &places))
}
