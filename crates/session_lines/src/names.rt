//! The names of variables.

ghost use Rattle.std.specs.Prelude.{◌≡◌, [], IfOk, get_or, map, string_bytes};
ghost use Rattle.c_tree.specs.Programs.{program_view};
ghost use Rattle.session_lines.specs.ChangeLinesLines.{variable_name};

use c_tree::{AutomaticVariable, Program, StaticVariable};
use std::alloc::{AllocError, Global};

/// The letters of the name of a static variable; none where there is no static variable of this number.
fn static_letters(statics: &[StaticVariable], number: usize) -> &[u8]
    ensures { result.now ≡ get_or (map (λ v. string_bytes v.name) statics.entry.now) number [] }
{
    match statics.get(number) {
        Some(variable) => variable.name.as_bytes(),
        None => &[],
    }
}

/// The letters of the name of an automatic variable; none where there is no automatic variable of this number.
fn automatic_letters(automatics: &[AutomaticVariable], number: usize) -> &[u8]
    ensures { result.now ≡ get_or (map (λ v. string_bytes v.name) automatics.entry.now) number [] }
{
    match automatics.get(number) {
        Some(variable) => variable.name.as_bytes(),
        None => &[],
    }
}

/// The letters of the name of a variable of a program. None are there for a string literal, nor where the program has
/// no variable of this number.
fn letters(program: &Program, variable: usize) -> &[u8]
    ensures { result.now ≡ variable_name (program_view program.entry.now) variable }
{
    let statics = program.statics.len();
    if variable < statics {
        return static_letters(&program.statics, variable);
    }
    let behind = variable - statics;
    let literals = program.literals.len();
    if behind < literals {
        return &[];
    }
    automatic_letters(&program.automatics, behind - literals)
}

/// The name of a variable of a program; an empty one for a string literal, and where the program has no variable of
/// this number. `AllocError` where memory for it was refused.
pub fn name_of(alloc: Global, program: &Program, variable: u32) -> Result<Vec<u8>, AllocError>
    ensures { IfOk result (λ name. name.items ≡ variable_name (program_view program.now) variable) }
{
    letters(program, variable as usize).to_vec(alloc)
}
