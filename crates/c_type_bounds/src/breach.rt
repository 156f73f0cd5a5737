//! The limits of the compiler on programs that break no other rule.

ghost use Rattle.std.specs.Prelude.{◌≡◌, IfOk, OnOk, drop, map, take};
ghost use Rattle.c_tree.specs.Programs.{automatic_view, function_view, program_view};
ghost use Rattle.c_type_bounds.specs.Bounds.{Marks, behind_function, behind_functions, with_one_in_memory, with_all_in_memory, objects_room, program_breach, with_kept};
ghost use Rattle.c_type_bounds.specs.Counts.{capped};

use crate::count::plus;
use crate::room::{literal_room, memory_room, static_room};
use crate::visible::visible_pairs;
use c_places::kept_in_memory;
use c_tree::{AutomaticVariable, Program, TypedFunction};
use debug_records::{Code, SourceErr};
use std::alloc::{AllocError, Global};

/// Marks a variable as kept in memory.
fn keep(automatics: &mut [AutomaticVariable], number: u32)
    ensures { map automatic_view automatics.new ≡ with_one_in_memory number (map automatic_view automatics.old) }
{
    let place = number as usize;
    if place < automatics.len() {
        automatics[place].in_memory = true;
    }
}

/// Marks variables as kept in memory.
fn keep_all(automatics: &mut [AutomaticVariable], numbers: &[u32])
    ensures { map automatic_view automatics.new ≡ with_all_in_memory numbers.now (map automatic_view automatics.old) }
{
    for number in numbers {
        keep(automatics, *number);
    }
}

/// Marks what a function keeps in memory.
fn mark(
    alloc: Global,
    f: &TypedFunction,
    automatics: &mut [AutomaticVariable],
) -> Result<(), AllocError>
    ensures { OnOk result
        (map automatic_view automatics.new ≡ with_kept (function_view f.now) (map automatic_view automatics.old)) }
{
    let numbers = kept_in_memory(alloc, &f.body)?;
    keep_all(automatics, &numbers);
    Ok(())
}

/// The variables of a function from its first on, as many as are asked for.
fn variables_of(automatics: &[AutomaticVariable], first: u32, count: u32) -> &[AutomaticVariable]
    ensures { result.now ≡ take count (drop first automatics.now) }
{
    let begin = automatics.len().min(first as usize);
    let (_, own) = automatics.split_at(begin);
    let (own, _) = own.split_at(own.len().min(count as usize));
    own
}

/// Checks the limits of a function, one of the program's by its number. What it keeps in memory is marked, once its
/// weight is known to be within the limit.
fn check_function(
    alloc: Global,
    number: usize,
    f: &TypedFunction,
    automatics: &mut [AutomaticVariable],
) -> Result<(), SourceErr>
    ensures { Marks result (map automatic_view automatics.new)
        (behind_function number (function_view f.now) (map automatic_view automatics.old)) }
{
    if f.weight > 3000 {
        return Err(SourceErr::Refused(Code::FUNCTION_WEIGHT, f.spot.line));
    }
    mark(alloc, f, automatics)?;
    if memory_room(variables_of(automatics, f.first_variable, f.variables)) > 4096 {
        return Err(SourceErr::Refused(Code::FUNCTION_OBJECTS, f.spot.line));
    }
    if number > 255 || f.parameters > 8 {
        return Err(SourceErr::Refused(Code::FUNCTION_COUNT, f.spot.line));
    }
    Ok(())
}

/// Checks the limits of functions in text order: the weight of each, the bytes of its memory objects, how many there
/// are, and its parameters. What they keep in memory is marked.
///
/// A limit that is passed is a refusal on the line of the function's name.
pub fn check_functions(
    alloc: Global,
    functions: &[TypedFunction],
    automatics: &mut [AutomaticVariable],
) -> Result<(), SourceErr>
    ensures { Marks result (map automatic_view automatics.new)
        (behind_functions 0 (map function_view functions.now) (map automatic_view automatics.old)) }
{
    for number in 0..functions.len() {
        check_function(alloc, number, &functions[number], automatics)?;
    }
    Ok(())
}

/// What the static objects of a program take, its literals among them.
fn objects_room(program: &Program) -> u64
    ensures { result ≡ capped (objects_room (program_view program.now)) }
{
    let named = static_room(&program.statics);
    let literals = literal_room(&program.literals);
    let arrays = literal_room(&program.array_literals);
    plus(plus(named, literals), arrays)
}

/// The limit that a program passes, if it passes one: its weight, the bytes of its static objects, or the visible
/// variables at its places.
pub fn program_breach(alloc: Global, program: &Program) -> Result<Option<Code>, AllocError>
    ensures { IfOk result (λ breach. breach ≡ program_breach (program_view program.now)) }
{
    if program.weight > 40_000 {
        return Ok(Some(Code::PROGRAM_WEIGHT));
    }
    if objects_room(program) > 1048576 {
        return Ok(Some(Code::STATIC_OBJECTS));
    }
    if visible_pairs(alloc, program)? > 1000000 {
        return Ok(Some(Code::VISIBLE_PAIRS));
    }
    Ok(None)
}
