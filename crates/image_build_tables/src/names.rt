//! The names of an image.

ghost use Rattle.std.specs.Prelude.{◌≡◌, ◌++◌, IfOk, OnOk, map, string_bytes};
ghost use Rattle.std.specs.List.{flat_map};
ghost use Rattle.c_tree.specs.Programs.{program_view};
ghost use Rattle.debug_records.specs.Change.{letters};
ghost use Rattle.graph_core.specs.Graphs.{logged};
ghost use Rattle.image_build_tables.specs.Variables.{declared_names, pass_names};

use c_tree::{AutomaticVariable, Program, StaticVariable, TypedFunction};
use debug_records::Change;
use std::alloc::{AllocError, Global};

/// Appends the names of functions.
fn push_functions(functions: &[TypedFunction], names: &mut Vec<u8>) -> Result<(), AllocError>
    ensures { OnOk result (names.new.items ≡ names.old.items ++ flat_map (λ x. string_bytes x.name) functions.now) }
{
    for function in functions {
        names.extend_from_slice(function.name.as_bytes())?;
    }
    Ok(())
}

/// Appends the names of static variables.
fn push_statics(statics: &[StaticVariable], names: &mut Vec<u8>) -> Result<(), AllocError>
    ensures { OnOk result (names.new.items ≡ names.old.items ++ flat_map (λ x. string_bytes x.name) statics.now) }
{
    for variable in statics {
        names.extend_from_slice(variable.name.as_bytes())?;
    }
    Ok(())
}

/// Appends the names of automatic variables.
fn push_automatics(automatics: &[AutomaticVariable], names: &mut Vec<u8>) -> Result<(), AllocError>
    ensures { OnOk result (names.new.items ≡ names.old.items ++ flat_map (λ x. string_bytes x.name) automatics.now) }
{
    for variable in automatics {
        names.extend_from_slice(variable.name.as_bytes())?;
    }
    Ok(())
}

/// Appends the names of the passes that made changes.
fn push_passes(log: &[Change], names: &mut Vec<u8>) -> Result<(), AllocError>
    ensures { OnOk result (names.new.items ≡ names.old.items ++ flat_map (λ change. letters change.pass) log.now) }
{
    for change in log {
        names.extend_from_slice(change.pass.letters())?;
    }
    Ok(())
}

/// The names of a program's functions and variables, and of the passes of changes, one after the other.
pub fn names_of(alloc: Global, program: &Program, log: &[Change]) -> Result<Vec<u8>, AllocError>
    ensures { IfOk result (λ names.
        names.items ≡ declared_names (program_view program.now) ++ pass_names (map logged log.now)) }
{
    let mut names = Vec::new(alloc);
    push_functions(&program.functions, &mut names)?;
    push_statics(&program.statics, &mut names)?;
    push_automatics(&program.automatics, &mut names)?;
    push_passes(log, &mut names)?;
    Ok(names)
}
