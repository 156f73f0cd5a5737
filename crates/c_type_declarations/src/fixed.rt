//! Declarations at file scope, and what their objects hold at first.
#![tactic(auto, using(crate::proofs::Steps::next_means, crate::proofs::Steps::reached_means))]

ghost use Rattle.std.specs.Prelude.{◌≡◌, [], ◌++◌, IfOk, OnOk, length, map};
ghost use Rattle.std.specs.Option.{option_map};
ghost use Rattle.c_tree.specs.Declarations.{chain_of_initializers, declaration_view, declarator_view, initializer_view};
ghost use Rattle.c_tree.specs.Expressions.{identifier_view};
ghost use Rattle.c_type_declarations.specs.Declarations.{static_met, static_of_type, statics_met, with_static_object};
ghost use Rattle.c_type_declarations.specs.Progress.{means, progress_view};
ghost use Rattle.c_type_declarations.specs.Statics.{constant_met, contents_met, contents_view, filled, fills_met, list_contents, literal_bytes, low_bytes, nothing, put_met, with_constant};
ghost use Rattle.c_type_values.specs.Values.{value_view};

use crate::initial::{misfit, scalar, within_count};
use crate::object::{Written, literal_for, object_type};
use crate::progress::Progress;
use c_tree::{
    Declaration, Declarator, Extent, Identifier, Initializer, IntegerType, Object, ObjectType,
    Relocation, Scalar, StaticVariable,
};
use c_type_expressions::{Meaning, numbered};
use c_type_rules::{Constancy, residue, scalar_size};
use c_type_values::{Value, given};
use debug_records::Code;
use std::alloc::{AllocError, Global};

/// Bytes, and the words among them that hold addresses.
#[derive(Drop)]
pub struct Contents {
    pub bytes: Vec<u8>,
    pub relocations: Vec<Relocation>,
}

/// No bytes.
fn nothing(alloc: Global) -> Contents
    ensures { contents_view result ≡ nothing }
{
    Contents {
        bytes: Vec::new(alloc),
        relocations: Vec::new(alloc),
    }
}

/// Puts so many bytes of a number behind others, the lowest first.
#[tactic(auto, using(crate::proofs::Lists::low_bytes_more, std::proofs::lemmas::Grind::common_steps))]
fn put_low_bytes(bytes: &mut Vec<u8>, count: u32, number: u64) -> Result<(), AllocError>
    ensures { OnOk result (bytes.new.items ≡ bytes.old.items ++ low_bytes count number) }
{
    let mut rest = number;
    let mut left = count;
    while left > 0 {
        bytes.push((rest % 256) as u8)?;
        rest /= 256;
        left -= 1;
    }
    Ok(())
}

/// Puts a constant of a scalar type behind other bytes. The place of an address is zero.
fn put_constant(
    contents: &mut Contents,
    scalar: Scalar,
    constant: Constancy,
) -> Result<(), AllocError>
    ensures { OnOk result (contents_view contents.new ≡ with_constant scalar constant (contents_view contents.old)) }
{
    let size = scalar_size(scalar);
    match constant {
        Constancy::Known(number) => {
            let residue = residue(i128::from(number), 4294967296);
            put_low_bytes(&mut contents.bytes, size, residue)
        }
        Constancy::Address(object, offset) => {
            let at = contents.bytes.len() as u64;
            contents
                .relocations
                .push(Relocation { at, object, offset })?;
            put_low_bytes(&mut contents.bytes, size, 0)
        }
        Constancy::Varies | Constancy::Formed => put_low_bytes(&mut contents.bytes, size, 0),
    }
}

/// Notes what is no constant.
fn want_constant(
    progress: &mut Progress,
    extent: Extent,
    constant: Constancy,
) -> Result<(), AllocError>
    ensures { OnOk result (progress_view progress.new ≡ constant_met extent constant (progress_view progress.old)) }
{
    match constant {
        Constancy::Known(_) | Constancy::Address(_, _) => Ok(()),
        Constancy::Varies | Constancy::Formed => progress.fault(Code::INITIALIZER, extent),
    }
}

/// Puts a scalar's value behind other bytes. It has to be a constant.
fn fill(
    progress: &mut Progress,
    contents: &mut Contents,
    scalar: Scalar,
    extent: Extent,
    value: Option<Value>,
) -> Result<(), AllocError>
    ensures { OnOk result
        (means (contents_view contents.new) (progress_view progress.new) ≡ filled scalar extent
        (option_map value_view value) (contents_view contents.old) (progress_view progress.old)) }
{
    match value {
        None => put_constant(contents, scalar, Constancy::Varies),
        Some(value) => {
            let constant = value.constant;
            drop(value);
            given!(want_constant(progress, extent, constant));
            put_constant(contents, scalar, constant)
        }
    }
}

/// What the initializers of elements hold, in order.
fn fills(
    alloc: Global,
    progress: &mut Progress,
    element: Scalar,
    extent: Extent,
    initializers: &[Initializer],
) -> Result<Contents, AllocError>
    ensures { IfOk result (λ c.
        means (contents_view c) (progress_view progress.new) ≡ fills_met element extent
        (chain_of_initializers (map initializer_view initializers.now)) nothing (progress_view progress.old)) }
{
    let mut contents = nothing(alloc);
    for one in initializers {
        let value = scalar(alloc, progress, element, extent, one)?;
        fill(progress, &mut contents, element, extent, value)?;
    }
    Ok(contents)
}

/// What a literal puts into an array: its bytes with the final zero, as far as there is room.
fn literal_contents(alloc: Global, literal: Written<'_>, size: u32) -> Result<Contents, AllocError>
    ensures { IfOk result (λ c.
        contents_view c ≡ record { bytes = literal_bytes size literal.entry.bytes.now; relocations = [] }) }
{
    let mut bytes = Vec::from_slice(alloc, literal.bytes)?;
    bytes.push(0)?;
    bytes.truncate(size as usize);
    Ok(Contents {
        bytes,
        relocations: Vec::new(alloc),
    })
}

/// What a list in braces puts into an array.
#[tactic(auto, using(crate::proofs::Steps::next_means, crate::proofs::Lists::count_chain))]
fn list(
    alloc: Global,
    progress: &mut Progress,
    element: Scalar,
    size: u32,
    extent: Extent,
    initializer: &Initializer,
) -> Result<Contents, AllocError>
    ensures { IfOk result (λ c.
        means (contents_view c) (progress_view progress.new) ≡ list_contents element size extent
        (initializer_view initializer.now) (progress_view progress.old)) }
{
    match initializer {
        Initializer::List(initializers) => {
            within_count(progress, initializers.len(), size, extent)?;
            let made = fills(alloc, progress, element, extent, initializers)?;
            Ok(made)
        }
        Initializer::Expression(e) => {
            misfit(alloc, progress, extent, e)?;
            Ok(nothing(alloc))
        }
    }
}

/// What an initializer puts into an object.
fn put(
    alloc: Global,
    progress: &mut Progress,
    of: ObjectType,
    extent: Extent,
    initializer: &Initializer,
) -> Result<Contents, AllocError>
    ensures { IfOk result (λ c.
        means (contents_view c) (progress_view progress.new) ≡ put_met of extent (initializer_view initializer.now)
        (progress_view progress.old)) }
{
    match of {
        ObjectType::Scalar(of) => {
            let value = given!(scalar(alloc, progress, of, extent, initializer));
            let mut contents = nothing(alloc);
            given!(fill(progress, &mut contents, of, extent, value));
            Ok(contents)
        }
        ObjectType::Array { element, count } => match literal_for(element, initializer) {
            Some(literal) => {
                given!(within_count(progress, literal.bytes.len(), count, extent));
                literal_contents(alloc, literal, count)
            }
            None => list(alloc, progress, element, count, extent, initializer),
        },
    }
}

/// What an object holds at first.
fn held_at_first(
    alloc: Global,
    progress: &mut Progress,
    of: ObjectType,
    extent: Extent,
    initializer: &Option<Initializer>,
) -> Result<Contents, AllocError>
    ensures { IfOk result (λ c.
        means (contents_view c) (progress_view progress.new) ≡ contents_met of extent
        (option_map initializer_view initializer.now) (progress_view progress.old)) }
{
    match initializer {
        Some(initializer) => put(alloc, progress, of, extent, initializer),
        None => Ok(nothing(alloc)),
    }
}

/// Adds an object of static storage.
fn add_static(
    alloc: Global,
    progress: &mut Progress,
    identifier: &Identifier,
    of: ObjectType,
    contents: Contents,
) -> Result<(), AllocError>
    ensures { OnOk result
        (progress_view progress.new
        ≡ with_static_object (identifier_view identifier.now) of (contents_view contents) (progress_view progress.old)) }
{
    let name = String::from_str(alloc, &identifier.name)?;
    progress.statics.push(StaticVariable {
        name,
        spot: identifier.spot,
        of,
        bytes: contents.bytes,
        relocations: contents.relocations,
    })?;
    Ok(())
}

/// The number of the next object of static storage.
fn next_static(progress: &Progress) -> Result<u32, AllocError>
    ensures { IfOk result (λ n. n ≡ length (progress_view progress.now).statics) }
{
    numbered(progress.statics.len())
}

/// A declarator of an object of a type.
fn declared_as(
    alloc: Global,
    progress: &mut Progress,
    declarator: &Declarator,
    of: ObjectType,
) -> Result<(), AllocError>
    ensures { OnOk result
        (progress_view progress.new
        ≡ static_of_type (declarator_view declarator.now) of (progress_view progress.old)) }
{
    let number = given!(next_static(progress));
    let object = Object::Static(number);
    given!(progress.declare(
        alloc,
        declarator.extent,
        &declarator.identifier.name,
        Meaning::Variable { object, of },
    ));
    let contents = given!(held_at_first(
        alloc,
        progress,
        of,
        declarator.extent,
        &declarator.initializer,
    ));
    add_static(alloc, progress, &declarator.identifier, of, contents)
}

/// A declarator at file scope.
fn fixed(
    alloc: Global,
    progress: &mut Progress,
    base: IntegerType,
    declarator: &Declarator,
) -> Result<(), AllocError>
    ensures { OnOk result
        (progress_view progress.new ≡ static_met base (declarator_view declarator.now) (progress_view progress.old)) }
{
    let scalar = Scalar {
        base,
        stars: declarator.stars,
    };
    let of = given!(object_type(alloc, progress, scalar, declarator));
    declared_as(alloc, progress, declarator, of)
}

/// A declaration at file scope.
pub fn static_declaration(
    alloc: Global,
    progress: &mut Progress,
    declaration: &Declaration,
) -> Result<(), AllocError>
    ensures { OnOk result
        (progress_view progress.new ≡ statics_met declaration.now.integer_type
        (map declarator_view declaration.now.declarators.items) (progress_view progress.old)) }
{
    for declarator in &declaration.declarators {
        given!(fixed(alloc, progress, declaration.integer_type, declarator));
    }
    Ok(())
}
