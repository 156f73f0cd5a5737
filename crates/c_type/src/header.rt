//! What the two headers declare, and how that goes with what is declared already.

ghost use Rattle.std.specs.Prelude.{◌≡◌, IfOk, OnOk, map};
ghost use Rattle.std.specs.Option.{option_map};
ghost use Rattle.c_type.specs.Headers.{end_beside, end_met, included, is_library, is_library_name, library, library_met, same_scalars, same_type, standing_of, with_function};
ghost use Rattle.c_type_declarations.specs.Progress.{progress_view};
ghost use Rattle.c_type_expressions.specs.Names.{meaning_of, signature_view};

use c_tree::{Callee, Extent, Header, IntegerType, Scalar, ValueType};
use c_type_declarations::{Progress, declare};
use c_type_expressions::{Meaning, Signature, numbered};
use c_type_rules::{same_scalar, same_value};
use debug_records::{Code, Spot};
use std::alloc::{AllocError, Global};

/// Whether two lists of types are one.
fn same_scalars(one: &[Scalar], other: &[Scalar]) -> bool
    ensures { result ≡ same_scalars one.now other.now }
{
    if one.len() != other.len() {
        return false;
    }
    for i in 0..one.len() {
        if !same_scalar(one[i], other[i]) {
            return false;
        }
    }
    true
}

/// Whether two functions are of one type.
pub fn same_type(one: &Signature, other: &Signature) -> bool
    ensures { result ≡ same_type (signature_view one.now) (signature_view other.now) }
{
    same_value(one.result, other.result) && same_scalars(&one.parameters, &other.parameters)
}

/// What calls of a library function call, with its type.
fn library(alloc: Global, callee: Callee) -> Result<Signature, AllocError>
    ensures { IfOk result (λ g. signature_view g ≡ library callee) }
{
    let mut parameters = Vec::new(alloc);
    let result = match callee {
        Callee::Getchar => ValueType::Integer(IntegerType::Int),
        Callee::Putchar => {
            parameters.push(Scalar {
                base: IntegerType::Int,
                stars: 0,
            })?;
            ValueType::Integer(IntegerType::Int)
        }
        Callee::Exit => {
            parameters.push(Scalar {
                base: IntegerType::Int,
                stars: 0,
            })?;
            ValueType::Void
        }
        Callee::Function(_) => ValueType::Void,
    };
    Ok(Signature {
        result,
        parameters,
        callee: Some(callee),
    })
}

/// Whether a call calls a function of the library.
pub fn is_library(callee: Option<Callee>) -> bool
    ensures { result ≡ is_library callee }
{
    match callee {
        None | Some(Callee::Function(_)) => false,
        Some(_) => true,
    }
}

/// Whether a name is one that only the library may define.
pub fn is_library_name(name: &str) -> bool
    ensures { result ≡ is_library_name name.now }
{
    name == "getchar" || name == "putchar" || name == "exit"
}

/// Gives a name a function, with a number of its own.
pub fn add_function(
    alloc: Global,
    progress: &mut Progress,
    name: &str,
    signature: Signature,
) -> Result<(), AllocError>
    ensures { OnOk result
        (progress_view progress.new
        ≡ with_function name.now (signature_view signature) (progress_view progress.old)) }
{
    let number = numbered(progress.names.signatures.len())?;
    progress.names.signatures.push(signature)?;
    declare(alloc, &mut progress.names, name, Meaning::Function(number))
}

/// What becomes of a name that the library declares.
#[derive(Clone, Copy)]
enum Standing {
    /// It is the library's already.
    Known,
    /// Nothing that stands against it is declared.
    New,
    /// Something else is declared by it.
    Taken,
}

/// How a library function goes with what its name means.
fn stands(progress: &Progress, name: &str, signature: &Signature) -> Standing
    ensures { result ≡ standing_of (signature_view signature.now) (progress_view progress.now).names.signatures
        (meaning_of (progress_view progress.now).names name.now) }
{
    match progress.names.meaning(name) {
        None => Standing::New,
        Some(Meaning::Function(number)) => match progress.names.signatures.get(number as usize) {
            None => Standing::Taken,
            Some(known) => {
                if is_library(known.callee) {
                    Standing::Known
                } else if same_type(known, signature) {
                    Standing::New
                } else {
                    Standing::Taken
                }
            }
        },
        Some(_) => Standing::Taken,
    }
}

/// Declares a library function.
fn library_function(
    alloc: Global,
    progress: &mut Progress,
    extent: Extent,
    name: &str,
    callee: Callee,
) -> Result<(), AllocError>
    ensures { OnOk result (progress_view progress.new ≡ library_met extent name.now callee (progress_view progress.old)) }
{
    let signature = library(alloc, callee)?;
    match stands(progress, name, &signature) {
        Standing::Known => Ok(()),
        Standing::New => add_function(alloc, progress, name, signature),
        Standing::Taken => progress.fault(Code::REDECLARED, extent),
    }
}

/// Declares `EOF`.
fn end_of_file(alloc: Global, progress: &mut Progress, extent: Extent) -> Result<(), AllocError>
    ensures { OnOk result (progress_view progress.new ≡ end_met extent (progress_view progress.old)) }
{
    match progress.names.meaning("EOF") {
        None => declare(alloc, &mut progress.names, "EOF", Meaning::EndOfFile),
        Some(Meaning::EndOfFile) => Ok(()),
        Some(_) => progress.fault(Code::REDECLARED, extent),
    }
}

/// Includes a header. Its faults are the line's.
pub fn include(
    alloc: Global,
    progress: &mut Progress,
    spot: Spot,
    header: Header,
) -> Result<(), AllocError>
    ensures { OnOk result (progress_view progress.new ≡ included spot header (progress_view progress.old)) }
{
    let extent = Extent {
        first: spot,
        last: spot.at,
    };
    match header {
        Header::Stdio => {
            library_function(alloc, progress, extent, "getchar", Callee::Getchar)?;
            library_function(alloc, progress, extent, "putchar", Callee::Putchar)?;
            end_of_file(alloc, progress, extent)
        }
        Header::Stdlib => library_function(alloc, progress, extent, "exit", Callee::Exit),
    }
}
