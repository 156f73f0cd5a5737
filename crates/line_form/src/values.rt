//! The texts of arrays, structures and pointers.

ghost use Rattle.std.specs.Prelude.{◌≡◌, ◌++◌, [], map, flat_map, codes, if◌then◌else◌, IfOk, OnOk};
ghost use Rattle.line_form.specs.Values.{array_text, frame_pointer, comma_separated, literal_pointer, member_text, next_value, null_text, static_pointer, structure_text, unknown_pointer};

use crate::shown::value_line;
use std::alloc::{AllocError, Global};

/// Appends a text, with a comma and a space in front.
fn push_next(text: &mut Vec<u8>, value: &[u8]) -> Result<(), AllocError>
    ensures { OnOk result (text.new.items ≡ text.old.items ++ next_value value.now) }
{
    text.extend_from_slice(b", ")?;
    text.extend_from_slice(value)
}

/// Appends texts, each with a comma and a space in front.
fn push_rest(text: &mut Vec<u8>, values: &[Vec<u8>]) -> Result<(), AllocError>
    ensures { OnOk result (text.new.items ≡ text.old.items ++ flat_map next_value (map (λ v. v.items) values.now)) }
{
    for value in values {
        push_next(text, value)?;
    }
    Ok(())
}

/// Appends texts, with a comma and a space between each and the next one.
fn push_listed(text: &mut Vec<u8>, values: &[Vec<u8>]) -> Result<(), AllocError>
    ensures { OnOk result (text.new.items ≡ text.old.items ++ comma_separated (map (λ v. v.items) values.now)) }
{
    match values {
        [first, rest @ ..] => {
            text.extend_from_slice(first)?;
            push_rest(text, rest)
        }
        [] => Ok(()),
    }
}

/// The end of an array, where there are more elements or none.
fn array_end(more: bool) -> &'static [u8]
    ensures { result.now ≡ (if more then codes ", ..." else []) ++ codes "}" }
{
    if more { b", ...}" } else { b"}" }
}

/// `{VALUE, VALUE}`, an array of these elements, or `{VALUE, VALUE, ...}` where it has more. `AllocError` where memory
/// for the text
/// was refused, as for each of these texts.
#[tactic(auto, unfolding(crate::specs::Values::array_text))]
pub fn array_text(alloc: Global, values: &[Vec<u8>], more: bool) -> Result<Vec<u8>, AllocError>
    ensures { IfOk result (λ text. text.items ≡ array_text (map (λ v. v.items) values.now) more) }
{
    let mut text = Vec::from_slice(alloc, b"{")?;
    push_listed(&mut text, values)?;
    text.extend_from_slice(array_end(more))?;
    Ok(text)
}

/// `NAME = VALUE`, a member of a structure.
#[tactic(auto, unfolding(crate::specs::Values::member_text))]
pub fn member_text(alloc: Global, name: &[u8], value: &[u8]) -> Result<Vec<u8>, AllocError>
    ensures { IfOk result (λ text. text.items ≡ member_text name.now value.now) }
{
    value_line(alloc, name, value)
}

/// `{NAME = VALUE, NAME = VALUE}`, a structure of these members.
#[tactic(auto, unfolding(crate::specs::Values::structure_text))]
pub fn structure_text(alloc: Global, members: &[Vec<u8>]) -> Result<Vec<u8>, AllocError>
    ensures { IfOk result (λ text. text.items ≡ structure_text (map (λ v. v.items) members.now)) }
{
    let mut text = Vec::from_slice(alloc, b"{")?;
    push_listed(&mut text, members)?;
    text.extend_from_slice(b"}")?;
    Ok(text)
}

/// `null`, the pointer to nothing.
#[tactic(auto, unfolding(crate::specs::Values::null_text))]
pub fn null_text(alloc: Global) -> Result<Vec<u8>, AllocError>
    ensures { IfOk result (λ text. text.items ≡ null_text) }
{
    Vec::from_slice(alloc, b"null")
}

/// `&NAME+OFFSET`, a pointer so many bytes from the start of a static object.
#[tactic(auto, unfolding(crate::specs::Values::static_pointer))]
pub fn static_pointer(alloc: Global, name: &[u8], offset: u32) -> Result<Vec<u8>, AllocError>
    ensures { IfOk result (λ text. text.items ≡ static_pointer name.now offset) }
{
    let mut text = Vec::from_slice(alloc, b"&")?;
    text.extend_from_slice(name)?;
    let rest = format!(in alloc; "+{offset}")?;
    text.extend_from_slice(rest.as_bytes())?;
    Ok(text)
}

/// `&#NUMBER+OFFSET`, a pointer so many bytes from the start of a string literal; the first has number 1.
#[tactic(auto, unfolding(crate::specs::Values::literal_pointer))]
pub fn literal_pointer(alloc: Global, number: u32, offset: u32) -> Result<Vec<u8>, AllocError>
    ensures { IfOk result (λ text. text.items ≡ literal_pointer number offset) }
{
    Ok(format!(in alloc; "&#{number}+{offset}")?.into_bytes())
}

/// `&NAME@DEPTH+OFFSET`, a pointer so many bytes from the start of an object of the activation at that depth.
#[tactic(auto, unfolding(crate::specs::Values::frame_pointer))]
pub fn frame_pointer(
    alloc: Global,
    name: &[u8],
    depth: u32,
    offset: u32,
) -> Result<Vec<u8>, AllocError>
    ensures { IfOk result (λ text. text.items ≡ frame_pointer name.now depth offset) }
{
    let mut text = Vec::from_slice(alloc, b"&")?;
    text.extend_from_slice(name)?;
    let rest = format!(in alloc; "@{depth}+{offset}")?;
    text.extend_from_slice(rest.as_bytes())?;
    Ok(text)
}

/// `?0xADDRESS`, a pointer to no object. The address has eight digits.
#[tactic(auto, using(crate::proofs::HexadecimalLemmas::padded_hexadecimal), unfolding(crate::specs::Values::unknown_pointer))]
pub fn unknown_pointer(alloc: Global, address: u32) -> Result<Vec<u8>, AllocError>
    ensures { IfOk result (λ text. text.items ≡ unknown_pointer address) }
{
    Ok(format!(in alloc; "?0x{address:08x}")?.into_bytes())
}
