//! The program of a source, or why it is refused.

ghost use Rattle.std.specs.Prelude.{◌≡◌, List, map};
ghost use Rattle.c_tree.specs.Programs.{automatic_view, function_view, program_view};
ghost use Rattle.c_tree.specs.Trees.{ItemTree, tree_view};
ghost use Rattle.c_type.specs.Functions.{IsNumbering, defined};
ghost use Rattle.debug_records.specs.Refusals.{Answers};
ghost use Rattle.c_type.specs.Programs.{checked, within_program_limits, main_number, names_refusal, program_with};
ghost use Rattle.c_type_declarations.specs.Progress.{progress_view};

use crate::fault::first_fault;
use crate::item::{beginning, items, numbers};
use crate::main_function::no_main;
use c_tree::{Program, Tree, TypedFunction};
use c_type_bounds::{check_functions, program_breach, tree_weight};
use c_type_declarations::Progress;
use debug_records::{Code, SourceErr};
use indexmap::IndexMap;
use std::alloc::Global;

/// Why the first three steps refuse a source, if they do: names and types, functions that are called and never defined,
/// and `main`.
fn names_refusal(progress: &Progress, tree: &Tree) -> Option<(Code, u32)>
    ensures { result ≡ names_refusal (tree_view tree.now) (progress_view progress.now) }
{
    if let Some(fault) = first_fault(&progress.found.faults) {
        return Some((fault.code, fault.first.line));
    }
    if let Some(spot) = progress.found.undefined.first() {
        return Some((Code::UNDECLARED, spot.line));
    }
    let line = no_main(&tree.items)?;
    Some((Code::NO_MAIN, line))
}

/// The number of `main` among the functions.
fn main_number(numbers: &IndexMap<String, u32>) -> u32
    ensures { (items : List ItemTree) → IsNumbering numbers.now (defined items) → result ≡ main_number items }
{
    match numbers.get("main") {
        Some(number) => *number,
        None => 0,
    }
}

/// The program of what is found.
fn program(functions: Vec<TypedFunction>, main: u32, progress: Progress, weight: u64) -> Program
    ensures { program_view result ≡ program_with (map function_view functions.items) main (progress_view progress)
        (map automatic_view progress.automatics.items) weight }
{
    let found = progress.found;
    Program {
        functions,
        main,
        statics: progress.statics,
        automatics: progress.automatics,
        literals: found.literals,
        array_literals: progress.array_literals,
        weight,
    }
}

/// A program, unless it passes one of the limits of programs.
fn within_limits(alloc: Global, program: Program) -> Result<Program, SourceErr>
    ensures { Answers program_view result (within_program_limits (program_view program)) }
{
    match program_breach(alloc, &program)? {
        Some(code) => Err(SourceErr::Refused(code, 1)),
        None => Ok(program),
    }
}

/// The typed program of a tree.
///
/// Refused by the first of five steps that finds a reason: the first fault in names and types; the first call of a
/// function that is never defined; that there is no `int main(void)`;
/// the limits of each function in text order; the limits of the program.
pub fn check(alloc: Global, tree: Tree) -> Result<Program, SourceErr>
    ensures { Answers program_view result (checked (tree_view tree)) }
{
    let numbers = numbers(alloc, &tree.items)?;
    let mut progress = beginning(alloc)?;
    let functions = items(alloc, &mut progress, &numbers, &tree.items)?;
    if let Some((code, line)) = names_refusal(&progress, &tree) {
        return Err(SourceErr::Refused(code, line));
    }
    check_functions(alloc, &functions, &mut progress.automatics)?;
    let weight = tree_weight(&tree);
    let program = program(functions, main_number(&numbers), progress, weight);
    within_limits(alloc, program)
}
