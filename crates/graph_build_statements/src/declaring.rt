//! What declarators write.

ghost use Rattle.std.specs.Prelude.{◌≡◌, ◌*◌, IfOk, if◌then◌else◌, map, nat_le};
ghost use Rattle.c_tree.specs.Programs.{program_view};
ghost use Rattle.c_tree.specs.TypedExpressions.{rvalue_view};
ghost use Rattle.c_tree.specs.TypedStatements.{declared_view, initial_view};
ghost use Rattle.c_type_rules.specs.Integers.{scalar_size};
ghost use Rattle.graph_core.specs.Graphs as unit;
ghost use Rattle.graph_core.specs.Graphs.{location_view};
ghost use Rattle.graph_build_steps.specs.Drafts.{instruction_before, made_of};
ghost use Rattle.graph_build_statements.specs.Coding.{coding_view, part_view};
ghost use Rattle.graph_build_statements.specs.Declaring.{add_declared, cleared, copied_words, declare, declare_array, declare_kept, declare_scalar, declare_single, object_type_of, store_elements, words_of};

use crate::{
    Form, Part, bare, begun, coded, coded_from, going, initial_reached, narrow, placed_at,
};
use c_flow::start_of_declarators;
use c_tree::{Declared, Initial, ObjectType, Program, Rvalue, Scalar};
use c_type_rules::{object_size, scalar_size};
use graph_build_layout::{Use, value_laid};
use graph_build_names::{following, object_of, pick, scalar_of};
use graph_build_steps::{Computation, Draft, Goal, clear, compute, copy, element_of, note, store};
use graph_core::{Location, Name, Operand};
use std::alloc::{AllocError, Global};

/// The type of an automatic variable; an array of nothing where there is none of that number.
pub fn object_type_of(program: &Program, variable: u32) -> ObjectType
    ensures { result ≡ object_type_of (program_view program.now) variable }
{
    match program.automatics.get(variable as usize) {
        None => ObjectType::Array {
            element: Scalar {
                base: c_tree::IntegerType::Char,
                stars: 0,
            },
            count: 0,
        },
        Some(found) => found.of,
    }
}

/// How many words so many bytes fill.
fn words_of(bytes: u64) -> Result<u32, AllocError>
    ensures { IfOk result (λ n. n ≡ words_of bytes) }
{
    match bytes.checked_add(3) {
        None => Err(AllocError),
        Some(more) => narrow(more / 4),
    }
}

/// How many words of a literal are copied into an object of so many bytes.
fn copied_words(form: &Form<'_>, literal: u32, bytes: u64) -> Result<u32, AllocError>
    ensures { IfOk result (λ n. n ≡ copied_words (coding_view form.now) literal bytes) }
{
    match form.source.program.array_literals.get(literal as usize) {
        None => Ok(0),
        Some(found) => {
            let words = words_of(bytes)?;
            Ok(words.min(words_of(found.bytes.len() as u64)?))
        }
    }
}

/// An object of so many words is set to zero first, unless so many of them are covered by a literal and these are all.
fn cleared_words(object: u32, words: u32, covered: u32, draft: Draft) -> Result<Draft, AllocError>
    ensures { IfOk result (λ d.
        made_of d ≡
        (if nat_le words covered then made_of draft else instruction_before (unit.Zero object words) (made_of draft))) }
{
    if words <= covered {
        Ok(draft)
    } else {
        clear(object, words, draft)
    }
}

/// The same of an object of so many bytes.
fn cleared(object: u32, bytes: u64, covered: u32, draft: Draft) -> Result<Draft, AllocError>
    ensures { IfOk result (λ d. made_of d ≡ cleared object bytes covered (made_of draft)) }
{
    let words = words_of(bytes)?;
    cleared_words(object, words, covered, draft)
}

/// Where an element of an array stands.
fn element_at(object: u32, scalar: Scalar, index: u32) -> Result<Location, AllocError>
    ensures { IfOk result (λ l. location_view l ≡ unit.Automatic object (index * scalar_size scalar)) }
{
    let offset = narrow(u64::from(index) * u64::from(scalar_size(scalar)))?;
    Ok(Location::Automatic { object, offset })
}

/// An array's elements from an index on: each is stored where it stands.
fn store_elements(
    alloc: Global,
    form: &Form<'_>,
    at: u32,
    scalar: Scalar,
    object: u32,
    index: u32,
    all: &[Rvalue],
    free: u32,
    draft: Draft,
) -> Result<Draft, AllocError>
    ensures { IfOk result (λ d.
        made_of d ≡ store_elements (coding_view form.now) at scalar object index (map rvalue_view all.now) free
        (made_of draft)) }
{
    match all.split_first() {
        None => Ok(draft),
        Some((first, rest)) => {
            let e = bare(first);
            let value = value_laid(form.names, e, Use::Anywhere, free)?;
            let next = pick(form.names, free, value.top);
            let behind = following(index)?;
            let later = store_elements(alloc, form, at, scalar, object, behind, rest, next, draft)?;
            let to = element_at(object, scalar, index)?;
            let stored = store(element_of(scalar), to, value.value, later)?;
            coded_from(alloc, form, at, e, free, Goal::To(None, stored))
        }
    }
}

/// What a declarator writes into an object of a scalar type in memory.
fn declare_single(
    alloc: Global,
    form: &Form<'_>,
    at: u32,
    object: u32,
    scalar: Scalar,
    initial: &Initial,
    free: u32,
    draft: Draft,
) -> Result<Draft, AllocError>
    ensures { IfOk result (λ d.
        made_of d ≡ declare_single (coding_view form.now) at object scalar (initial_view initial.now) free
        (made_of draft)) }
{
    let to = Location::Automatic { object, offset: 0 };
    let element = element_of(scalar);
    match initial {
        Initial::Zero => store(element, to, Operand::Constant(0), draft),
        Initial::Scalar(e) => {
            let value = value_laid(form.names, e, Use::Anywhere, begun(form, free))?.value;
            let draft = store(element, to, value, draft)?;
            coded(alloc, form, at, e, free, Goal::To(None, draft))
        }
        _ => cleared(object, u64::from(scalar_size(scalar)), 0, draft),
    }
}

/// What a declarator writes into an array of so many bytes.
fn declare_array(
    alloc: Global,
    form: &Form<'_>,
    at: u32,
    object: u32,
    element: Scalar,
    bytes: u64,
    initial: &Initial,
    free: u32,
    draft: Draft,
) -> Result<Draft, AllocError>
    ensures { IfOk result (λ d.
        made_of d ≡ declare_array (coding_view form.now) at object element bytes (initial_view initial.now) free
        (made_of draft)) }
{
    match initial {
        Initial::Elements(all) => {
            let first = begun(form, free);
            let draft = store_elements(alloc, form, at, element, object, 0, all, first, draft)?;
            cleared(object, bytes, 0, draft)
        }
        Initial::Literal(literal) => {
            let words = copied_words(form, *literal, bytes)?;
            let draft = copy(object, *literal, words, draft)?;
            cleared(object, bytes, words, draft)
        }
        _ => cleared(object, bytes, 0, draft),
    }
}

/// What a declarator writes into an object in memory of this type.
fn declare_kept(
    alloc: Global,
    form: &Form<'_>,
    at: u32,
    object: u32,
    of: ObjectType,
    initial: &Initial,
    free: u32,
    draft: Draft,
) -> Result<Draft, AllocError>
    ensures { IfOk result (λ d.
        made_of d
        ≡ declare_kept (coding_view form.now) at object of (initial_view initial.now) free (made_of draft)) }
{
    match of {
        ObjectType::Scalar(scalar) => {
            declare_single(alloc, form, at, object, scalar, initial, free, draft)
        }
        ObjectType::Array { element, .. } => {
            let bytes = object_size(of);
            declare_array(
                alloc, form, at, object, element, bytes, initial, free, draft,
            )
        }
    }
}

/// What a declarator writes into a scalar, and the note.
fn declare_scalar(
    alloc: Global,
    form: &Form<'_>,
    at: u32,
    name: u32,
    initial: &Initial,
    free: u32,
    draft: Draft,
) -> Result<Draft, AllocError>
    ensures { IfOk result (λ d.
        made_of d ≡ declare_scalar (coding_view form.now) at name (initial_view initial.now) free (made_of draft)) }
{
    let draft = note(Name(name), draft)?;
    match initial {
        Initial::Scalar(e) => { coded(alloc, form, at, e, free, Goal::To(Some(Name(name)), draft)) }
        _ => compute(draft, Name(name), Computation::Move(Operand::Constant(0))),
    }
}

/// What a declarator writes.
fn declare(
    alloc: Global,
    form: &Form<'_>,
    declared: &Declared,
    free: u32,
    draft: Draft,
) -> Result<Draft, AllocError>
    ensures { IfOk result
        (λ d. made_of d ≡ declare (coding_view form.now) (declared_view declared.now) free (made_of draft)) }
{
    let at = declared.spot.at;
    let initial = &declared.initial;
    match scalar_of(form.names, declared.variable) {
        Some(name) => declare_scalar(alloc, form, at, name, initial, free, draft),
        None => {
            let object = object_of(form.names, declared.variable).unwrap_or(0);
            let of = object_type_of(form.source.program, declared.variable);
            declare_kept(alloc, form, at, object, of, initial, free, draft)
        }
    }
}

/// The blocks of declarators, before those that stand.
pub fn add_declared(
    alloc: Global,
    form: &Form<'_>,
    all: &[Declared],
    free: u32,
    next: Option<u32>,
    part: Part,
) -> Result<Part, AllocError>
    ensures { IfOk result (λ p.
        part_view p ≡ add_declared (coding_view form.now) (map declared_view all.now) free next (part_view part)) }
{
    match all.split_first() {
        None => Ok(part),
        Some((first, rest)) => {
            let scalar = scalar_of(form.names, first.variable);
            let behind = initial_reached(form, scalar, &first.initial, free)?;
            let later = add_declared(alloc, form, rest, behind, next, part)?;
            let to = start_of_declarators(rest, next);
            let draft = going(alloc, form, to, later.inner);
            let draft = declare(alloc, form, first, free, draft)?;
            placed_at(form, first.spot.at, draft, later.placed)
        }
    }
}
