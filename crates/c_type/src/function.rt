//! Declarations and definitions of functions (6.7.6.3 and 6.9.1).
#![tactic(auto, using(c_type_declarations::proofs::Steps::next_means, c_type_declarations::proofs::Steps::reached_means))]

ghost use Rattle.std.specs.Prelude.{◌≡◌, ℕ, [], ◌∷◌, IfOk, List, OnOk, map, option_to_list};
ghost use Rattle.std.specs.Option.{option_map};
ghost use Rattle.c_tree.specs.Declarations.{brackets_view, parameter_view};
ghost use Rattle.c_tree.specs.Expressions.{identifier_view};
ghost use Rattle.c_tree.specs.Statements.{block_view};
ghost use Rattle.c_tree.specs.Programs.{function_view as typed_view};
ghost use Rattle.c_tree.specs.Trees.{function_view};
ghost use Rattle.c_type.specs.Functions.{IsNumbering, agrees_with, body_met, declared_only, function_met, is_first_definition, name_met, parameter_met, parameter_named, parameter_size, parameter_sizes, parameter_type, parameter_types, parameters_met, result_type, signature_of};
ghost use Rattle.c_type_declarations.specs.Progress.{means, progress_view};
ghost use Rattle.c_type_expressions.specs.Names.{SignatureTree, signature_view};

use crate::header::{add_function, is_library_name, same_type};
use c_tree::{
    Base, Block, Brackets, Callee, Extent, Function, Identifier, Object, ObjectType, Parameter,
    Scalar, TypedFunction, ValueType,
};
use c_type_bounds::definition_weight;
use c_type_declarations::{Progress, add_automatic, next_automatic, size};
use c_type_expressions::{Meaning, Signature, numbered};
use c_type_rules::loaded;
use c_type_statements::{Setting, statements};
use debug_records::Code;
use indexmap::IndexMap;
use std::alloc::{AllocError, Global};

/// The type of a parameter: that of its declarator, and of an array a pointer to its elements.
fn parameter_type(parameter: &Parameter) -> Result<Scalar, AllocError>
    ensures { IfOk result (λ s. s ≡ parameter_type (parameter_view parameter.now)) }
{
    let stars = match parameter.brackets {
        Brackets::Absent => parameter.stars,
        Brackets::Empty | Brackets::Sized(_) => match parameter.stars.checked_add(1) {
            None => return Err(AllocError),
            Some(stars) => stars,
        },
    };
    Ok(Scalar {
        base: parameter.integer_type,
        stars,
    })
}

/// The types of parameters.
fn parameter_types(alloc: Global, parameters: &[Parameter]) -> Result<Vec<Scalar>, AllocError>
    ensures { IfOk result (λ v. v.items ≡ parameter_types (map parameter_view parameters.now)) }
{
    let mut types = Vec::new(alloc);
    for parameter in parameters {
        types.push(parameter_type(parameter)?)?;
    }
    Ok(types)
}

/// Looks at the sizes in the brackets of parameters.
fn look_at_sizes(
    alloc: Global,
    progress: &mut Progress,
    parameters: &[Parameter],
) -> Result<(), AllocError>
    ensures { OnOk result
        (progress_view progress.new
        ≡ parameter_sizes (map parameter_view parameters.now) (progress_view progress.old)) }
{
    for parameter in parameters {
        look_at_size(alloc, progress, parameter.extent, &parameter.brackets)?;
    }
    Ok(())
}

/// Looks at a size in brackets.
fn look_at_size(
    alloc: Global,
    progress: &mut Progress,
    extent: Extent,
    brackets: &Brackets,
) -> Result<(), AllocError>
    ensures { OnOk result
        (progress_view progress.new
        ≡ parameter_size extent (brackets_view brackets.now) (progress_view progress.old)) }
{
    match brackets {
        Brackets::Absent | Brackets::Empty => Ok(()),
        Brackets::Sized(e) => {
            let _count = size(alloc, progress, extent, e)?;
            Ok(())
        }
    }
}

/// Declares a parameter that has a name.
fn declare_parameter(
    alloc: Global,
    progress: &mut Progress,
    parameter: &Parameter,
    identifier: &Identifier,
) -> Result<(), AllocError>
    ensures { OnOk result
        (progress_view progress.new ≡ parameter_named parameter.now.extent
        (parameter_type (parameter_view parameter.now)) (identifier_view identifier.now)
        (progress_view progress.old)) }
{
    let of = ObjectType::Scalar(parameter_type(parameter)?);
    let object = Object::Automatic(next_automatic(progress)?);
    progress.declare(
        alloc,
        parameter.extent,
        &identifier.name,
        Meaning::Variable { object, of },
    )?;
    add_automatic(alloc, progress, identifier, of)
}

/// Declares parameters, as far as they have names.
fn declare_parameters(
    alloc: Global,
    progress: &mut Progress,
    parameters: &[Parameter],
) -> Result<(), AllocError>
    ensures { OnOk result
        (progress_view progress.new
        ≡ parameters_met (map parameter_view parameters.now) (progress_view progress.old)) }
{
    for parameter in parameters {
        declare_if_named(alloc, progress, parameter)?;
    }
    Ok(())
}

/// Declares a parameter, where it has a name.
fn declare_if_named(
    alloc: Global,
    progress: &mut Progress,
    parameter: &Parameter,
) -> Result<(), AllocError>
    ensures { OnOk result
        (progress_view progress.new ≡ parameter_met (parameter_view parameter.now) (progress_view progress.old)) }
{
    match &parameter.identifier {
        None => Ok(()),
        Some(identifier) => declare_parameter(alloc, progress, parameter, identifier),
    }
}

/// What a function gives.
pub fn result_type(base: Base, stars: usize) -> ValueType
    ensures { result ≡ result_type base stars }
{
    match base {
        Base::Void => ValueType::Void,
        Base::Integer(base) => loaded(Scalar { base, stars }),
    }
}

/// A function's type, and the number of its definition, if it has one.
fn signature(
    alloc: Global,
    numbers: &IndexMap<String, u32>,
    f: &Function,
) -> Result<Signature, AllocError>
    ensures { IfOk result (λ g.
        (names : List (List ℕ)) → IsNumbering numbers.now names
        → signature_view g ≡ signature_of names (function_view f.now)) }
{
    let callee = match numbers.get(f.identifier.name.as_str()) {
        None => None,
        Some(number) => Some(Callee::Function(*number)),
    };
    Ok(Signature {
        result: result_type(f.base, f.stars),
        parameters: parameter_types(alloc, &f.parameters)?,
        callee,
    })
}

/// Whether a function is no definition, or the first of its name, behind so many definitions.
fn is_first(before: usize, f: &Function, signature: &Signature) -> bool
    ensures { result ≡ is_first_definition before (function_view f.now) (signature_view signature.now) }
{
    if f.body.is_none() {
        return true;
    }
    match signature.callee {
        Some(Callee::Function(number)) => number as usize == before,
        _ => false,
    }
}

/// Whether a function agrees with what its name means.
fn agrees(
    progress: &Progress,
    before: usize,
    f: &Function,
    signature: &Signature,
    meaning: Meaning,
) -> bool
    ensures { result ≡ agrees_with before (function_view f.now) (signature_view signature.now) meaning
        (progress_view progress.now) }
{
    match meaning {
        Meaning::Function(number) => match progress.names.signatures.get(number as usize) {
            None => false,
            Some(known) => same_type(known, signature) && is_first(before, f, signature),
        },
        Meaning::Variable { .. } | Meaning::EndOfFile => false,
    }
}

/// Declares a function's name.
fn declare_name(
    alloc: Global,
    progress: &mut Progress,
    before: usize,
    f: &Function,
    signature: Signature,
) -> Result<(), AllocError>
    ensures { OnOk result
        (progress_view progress.new
        ≡ name_met before (function_view f.now) (signature_view signature) (progress_view progress.old)) }
{
    let name = f.identifier.name.as_str();
    if f.body.is_some() && is_library_name(name) {
        return progress.fault(Code::REDECLARED, f.extent);
    }
    match progress.names.meaning(name) {
        None => add_function(alloc, progress, name, signature),
        Some(meaning) => {
            if agrees(progress, before, f, &signature, meaning) {
                return Ok(());
            }
            progress.fault(Code::REDECLARED, f.extent)
        }
    }
}

/// A function's definition.
fn defined(
    alloc: Global,
    progress: &mut Progress,
    f: &Function,
    block: &Block,
) -> Result<TypedFunction, AllocError>
    ensures { IfOk result (λ made.
        (g : SignatureTree) → g.result ≡ result_type f.now.base f.now.stars
        → means (typed_view made ∷ []) (progress_view progress.new) ≡ body_met (function_view f.now) g
        (block_view block.now) (progress_view progress.old)) }
{
    let result = result_type(f.base, f.stars);
    let first_variable = numbered(progress.automatics.len())?;
    let parameters = numbered(f.parameters.len())?;
    let name = String::from_str(alloc, &f.identifier.name)?;
    let setting = Setting {
        result,
        may_break: false,
        may_continue: false,
    };
    progress.open(alloc)?;
    declare_parameters(alloc, progress, &f.parameters)?;
    let body = statements(alloc, progress, setting, &block.statements)?;
    progress.close();
    let all = numbered(progress.automatics.len())?;
    Ok(TypedFunction {
        name,
        spot: f.identifier.spot,
        result,
        first_variable,
        parameters,
        variables: all.saturating_sub(first_variable),
        body,
        close: block.closing,
        weight: definition_weight(&f.parameters, block),
    })
}

/// Looks at the parameters of a function that is only declared: no two have one name.
fn look_at_parameters(
    alloc: Global,
    progress: &mut Progress,
    f: &Function,
) -> Result<(), AllocError>
    ensures { OnOk result
        (means [] (progress_view progress.new) ≡ declared_only (function_view f.now) (progress_view progress.old)) }
{
    let count = progress.automatics.len();
    progress.open(alloc)?;
    declare_parameters(alloc, progress, &f.parameters)?;
    progress.close();
    progress.automatics.truncate(count);
    Ok(())
}

/// A function, behind so many definitions. The numbers are those of all definitions.
pub fn function(
    alloc: Global,
    progress: &mut Progress,
    numbers: &IndexMap<String, u32>,
    before: usize,
    f: &Function,
) -> Result<Option<TypedFunction>, AllocError>
    ensures { IfOk result (λ made.
        (names : List (List ℕ)) → IsNumbering numbers.now names
        → means (option_to_list (option_map typed_view made)) (progress_view progress.new) ≡ function_met names
        before (function_view f.now) (progress_view progress.old)) }
{
    look_at_sizes(alloc, progress, &f.parameters)?;
    let signature = signature(alloc, numbers, f)?;
    declare_name(alloc, progress, before, f, signature)?;
    match &f.body {
        Some(block) => {
            let made = defined(alloc, progress, f, block)?;
            Ok(Some(made))
        }
        None => {
            look_at_parameters(alloc, progress, f)?;
            Ok(None)
        }
    }
}
