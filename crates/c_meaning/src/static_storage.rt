//! The objects of static storage, as they are at first (ISO/IEC 9899:2011, 6.2.4p3, 6.4.5p6, 6.7.9p10).

ghost use Rattle.std.specs.Prelude.{◌≡◌, ◌+◌, ◌++◌, ◌<◌, ◌^◌, IfOk, OnOk, drop, map, pos, slice_index, take};
ghost use Rattle.c_tree.specs.Programs.{literal_view, program_view, static_view};
ghost use Rattle.c_places.specs.Places.{numbers_from};
ghost use Rattle.c_meaning_values.specs.declared.value.Value.TheVariants.{Number};
ghost use Rattle.c_meaning_values.specs.Types.{value_count, element_scalar, integer_size};
ghost use Rattle.c_meaning_values.specs.Views.{object_view};
ghost use Rattle.c_meaning.specs.StaticStorage.{address_at, first_memory, first_value, first_values, literal_object, literal_objects, spelled, static_number, static_object, static_objects};

use c_meaning_values::{Object, Objects, Owner, Phase, Value, count_of, element_of, scalar_size};
use c_tree::{IntegerType, Program, Relocation, Scalar, StaticVariable, StringLiteral};
use c_type_rules::number_of;
use std::alloc::{AllocError, Global};

/// The byte at a place; 0 behind the last.
fn byte_at(bytes: &[u8], place: usize) -> u32
    ensures number { result ≡ slice_index bytes.now place }
    ensures bounded { result < 256 }
{
    u32::from(bytes.get(place).copied().unwrap_or(0))
}

/// The number that two bytes from a place on spell.
fn half_word_at(bytes: &[u8], place: usize) -> u32
    requires { place < 2 ^ 40 }
    ensures number { result ≡ spelled (take 2 (drop place bytes.now)) }
    ensures bounded { result < 65536 }
{
    byte_at(bytes, place) + 256 * byte_at(bytes, place + 1)
}

/// The number that the bytes of an integer type from a place on spell.
#[tactic(auto, using(crate::proofs::Statics::word_spells))]
fn bits_at(bytes: &[u8], place: usize, of: IntegerType) -> u32
    requires { place < 2 ^ 39 }
    ensures { result ≡ spelled (take (integer_size of) (drop place bytes.now)) }
{
    match of {
        IntegerType::Char | IntegerType::SignedChar | IntegerType::UnsignedChar => {
            byte_at(bytes, place)
        }
        IntegerType::Short | IntegerType::UnsignedShort => half_word_at(bytes, place),
        IntegerType::Int
        | IntegerType::UnsignedInt
        | IntegerType::Long
        | IntegerType::UnsignedLong => {
            half_word_at(bytes, place) + 65536 * half_word_at(bytes, place + 2)
        }
    }
}

/// The number of an object of static storage.
fn static_number(program: &Program, object: c_tree::Object) -> usize
    ensures { result ≡ static_number (program_view program.now) object }
{
    match object {
        c_tree::Object::Static(number) | c_tree::Object::Automatic(number) => number as usize,
        c_tree::Object::Literal(number) => program.statics.len() + number as usize,
    }
}

/// The address in a static object's word; null where there is none.
fn address_at(program: &Program, relocations: &[Relocation], place: usize) -> Value
    ensures { result ≡ address_at (program_view program.now) relocations.now place }
{
    for relocation in relocations {
        if relocation.at == place as u64 {
            return Value::Pointer {
                object: static_number(program, relocation.object),
                offset: u128::from(relocation.offset),
            };
        }
    }
    Value::Null
}

/// The value that a static object of a type has at a byte at first.
fn first_value(program: &Program, variable: &StaticVariable, of: Scalar, place: usize) -> Value
    requires { place < 2 ^ 39 }
    ensures { result ≡ first_value (program_view program.now) (static_view variable.now) of place }
{
    if of.stars > 0 {
        return address_at(program, &variable.relocations, place);
    }
    Value::Number(number_of(of.base, bits_at(&variable.bytes, place, of.base)))
}

/// The values of a static object at first.
fn first_values(
    alloc: Global,
    program: &Program,
    variable: &StaticVariable,
) -> Result<Vec<Value>, AllocError>
    ensures { IfOk result (λ v.
        v.items ≡ first_values (program_view program.now) (static_view variable.now) (element_scalar variable.now.of)
        (numbers_from 0 (value_count variable.now.of))) }
{
    let element = element_of(variable.of);
    let size = scalar_size(element) as usize;
    let mut values = Vec::new(alloc);
    for index in 0..count_of(variable.of) {
        let place = index as usize * size;
        values.push(first_value(program, variable, element, place))?;
    }
    Ok(values)
}

/// A static object of a number.
fn static_object(
    alloc: Global,
    program: &Program,
    number: usize,
    variable: &StaticVariable,
) -> Result<Object, AllocError>
    ensures { IfOk result
        (λ o. object_view o ≡ static_object (program_view program.now) number (static_view variable.now)) }
{
    Ok(Object {
        owner: Owner::Static(number),
        element: element_of(variable.of),
        values: first_values(alloc, program, variable)?,
        phase: Phase::Live,
    })
}

/// The numbers that bytes are.
fn numbers(alloc: Global, bytes: &[u8]) -> Result<Vec<Value>, AllocError>
    ensures { IfOk result (λ v. v.items ≡ map (λ byte. Number (pos byte)) bytes.now) }
{
    bytes
        .iter()
        .map(|byte| Value::Number(i64::from(*byte)))
        .collect(alloc)
}

/// The object of a string literal of a number.
fn literal_object(
    alloc: Global,
    number: usize,
    literal: &StringLiteral,
) -> Result<Object, AllocError>
    ensures { IfOk result (λ o. object_view o ≡ literal_object number (literal_view literal.now)) }
{
    Ok(Object {
        owner: Owner::Literal(number),
        element: Scalar {
            base: IntegerType::Char,
            stars: 0,
        },
        values: numbers(alloc, &literal.bytes)?,
        phase: Phase::Live,
    })
}

/// The static objects come first.
fn add_statics(alloc: Global, program: &Program, memory: &mut Objects) -> Result<(), AllocError>
    ensures { OnOk result
        (map object_view memory.new.all.items ≡ map object_view memory.old.all.items
        ++ static_objects (program_view program.now) 0 (map static_view program.now.statics.items)) }
{
    for (number, variable) in program.statics.iter().enumerate() {
        memory.push(static_object(alloc, program, number, variable)?)?;
    }
    Ok(())
}

/// The objects of string literals come behind them.
fn add_literals(
    alloc: Global,
    literals: &[StringLiteral],
    memory: &mut Objects,
) -> Result<(), AllocError>
    ensures { OnOk result
        (map object_view memory.new.all.items
        ≡ map object_view memory.old.all.items ++ literal_objects 0 (map literal_view literals.now)) }
{
    for (number, literal) in literals.iter().enumerate() {
        memory.push(literal_object(alloc, number, literal)?)?;
    }
    Ok(())
}

/// The objects with which a run begins.
pub fn first_memory(alloc: Global, program: &Program) -> Result<Objects, AllocError>
    ensures { IfOk result (λ m. map object_view m.all.items ≡ first_memory (program_view program.now)) }
{
    let mut memory = Objects::new(alloc);
    add_statics(alloc, program, &mut memory)?;
    add_literals(alloc, &program.literals, &mut memory)?;
    Ok(memory)
}
