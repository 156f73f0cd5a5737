//! What stands in static storage.

ghost use Rattle.std.specs.Prelude.{◌≡◌, ◌++◌, IfOk, map};
ghost use Rattle.c_tree.specs.Programs as tree;
ghost use Rattle.c_tree.specs.Programs.{literal_view, program_view};
ghost use Rattle.graph_core.specs.Graphs.{bytes_view, static_view};
ghost use Rattle.graph_build.specs.Units.{literal_of, object_count, object_element, relocation_of, static_number, static_of};

use c_tree::{
    Object, ObjectType, Program, Relocation as SourceRelocation, StaticVariable, StringLiteral,
};
use graph_build_statements::narrow;
use graph_build_steps::element_of;
use graph_core::{Bytes, Element, Relocation, StaticObject};
use std::alloc::{AllocError, Global};

/// What the elements of an object are.
pub fn object_element(of: ObjectType) -> Element
    ensures { result ≡ object_element of }
{
    match of {
        ObjectType::Scalar(scalar) => element_of(scalar),
        ObjectType::Array { element, .. } => element_of(element),
    }
}

/// How many elements an object has.
pub fn object_count(of: ObjectType) -> u32
    ensures { result ≡ object_count of }
{
    match of {
        ObjectType::Scalar(_) => 1,
        ObjectType::Array { count, .. } => count,
    }
}

/// The number of an object of static storage: the static variables come first, and then the literals. An automatic
/// object is none: 0 stands for it.
fn static_number(program: &Program, object: Object) -> Result<u32, AllocError>
    ensures { IfOk result (λ n. n ≡ static_number (program_view program.now) object) }
{
    match object {
        Object::Static(number) => Ok(number),
        Object::Literal(number) => {
            let statics = narrow(program.statics.len() as u64)?;
            narrow(u64::from(statics) + u64::from(number))
        }
        Object::Automatic(_) => Ok(0),
    }
}

/// A word that holds an address.
fn relocation_of(program: &Program, relocation: &SourceRelocation) -> Result<Relocation, AllocError>
    ensures { IfOk result (λ r. r ≡ relocation_of (program_view program.now) relocation.now) }
{
    Ok(Relocation {
        at: narrow(relocation.at)?,
        object: static_number(program, relocation.object)?,
        offset: narrow(relocation.offset)?,
    })
}

/// The words of an object that hold addresses.
fn relocations_of(
    alloc: Global,
    program: &Program,
    all: &[SourceRelocation],
) -> Result<Vec<Relocation>, AllocError>
    ensures { IfOk result (λ v. v.items ≡ map (relocation_of (program_view program.now)) all.now) }
{
    let mut found = Vec::new(alloc);
    for relocation in all {
        found.push(relocation_of(program, relocation)?)?;
    }
    Ok(found)
}

/// A static variable.
fn static_of(
    alloc: Global,
    program: &Program,
    variable: &StaticVariable,
) -> Result<StaticObject, AllocError>
    ensures { IfOk result (λ o. static_view o ≡ static_of (program_view program.now) (tree.static_view variable.now)) }
{
    Ok(StaticObject {
        element: object_element(variable.of),
        count: object_count(variable.of),
        bytes: Vec::from_slice(alloc, &variable.bytes)?,
        relocations: relocations_of(alloc, program, &variable.relocations)?,
    })
}

/// A string literal.
fn literal_of(alloc: Global, literal: &StringLiteral) -> Result<StaticObject, AllocError>
    ensures { IfOk result (λ o. static_view o ≡ literal_of (literal_view literal.now)) }
{
    Ok(StaticObject {
        element: Element::Unsigned8,
        count: narrow(literal.bytes.len() as u64)?,
        bytes: Vec::from_slice(alloc, &literal.bytes)?,
        relocations: Vec::new(alloc),
    })
}

/// The static variables.
fn variables_of(alloc: Global, program: &Program) -> Result<Vec<StaticObject>, AllocError>
    ensures { IfOk result (λ v.
        map static_view v.items ≡ map (static_of (program_view program.now)) (program_view program.now).statics) }
{
    let mut objects = Vec::new(alloc);
    for variable in &program.statics {
        objects.push(static_of(alloc, program, variable)?)?;
    }
    Ok(objects)
}

/// The literals.
fn literals_of(alloc: Global, program: &Program) -> Result<Vec<StaticObject>, AllocError>
    ensures { IfOk result (λ v. map static_view v.items ≡ map literal_of (program_view program.now).literals) }
{
    let mut objects = Vec::new(alloc);
    for literal in &program.literals {
        objects.push(literal_of(alloc, literal)?)?;
    }
    Ok(objects)
}

/// The objects of static storage: the static variables and then the literals.
pub fn statics_of(alloc: Global, program: &Program) -> Result<Vec<StaticObject>, AllocError>
    ensures { IfOk result (λ v.
        map static_view v.items ≡ map (static_of (program_view program.now)) (program_view program.now).statics ++
        map literal_of (program_view program.now).literals) }
{
    let mut objects = variables_of(alloc, program)?;
    let mut literals = literals_of(alloc, program)?;
    objects.append(&mut literals)?;
    Ok(objects)
}

/// The bytes that initialise automatic arrays.
pub fn array_bytes_of(alloc: Global, program: &Program) -> Result<Vec<Bytes>, AllocError>
    ensures { IfOk result (λ v.
        map bytes_view v.items ≡ map (λ (l : tree.LiteralTree). l.bytes) (program_view program.now).array_literals) }
{
    let mut all = Vec::new(alloc);
    for literal in &program.array_literals {
        let bytes = Vec::from_slice(alloc, &literal.bytes)?;
        all.push(Bytes { bytes })?;
    }
    Ok(all)
}
