//! The lines that show a stop and what is seen there.

ghost use Rattle.std.specs.Prelude.{◌≡◌, IfOk};
ghost use Rattle.line_form.specs.Lines.{no_stop_line, nothing_here_line, stop_line, value_line};

use std::alloc::{AllocError, Global};

/// `at PLACE line LINE FUNCTION depth DEPTH`: the run stands at this place of the source, in the function of this name,
/// with so many
/// activations. `AllocError` where memory for the text was refused, as for each of these lines.
#[tactic(auto, unfolding(crate::specs::Lines::stop_line))]
pub fn stop_line(
    alloc: Global,
    place: u32,
    source_line: u32,
    function: &[u8],
    depth: u32,
) -> Result<Vec<u8>, AllocError>
    ensures { IfOk result (λ text. text.items ≡ stop_line place source_line function.now depth) }
{
    let mut text = format!(in alloc; "at {place} line {source_line} ")?.into_bytes();
    text.extend_from_slice(function)?;
    let depth = format!(in alloc; " depth {depth}")?;
    text.extend_from_slice(depth.as_bytes())?;
    Ok(text)
}

/// `NAME = VALUE`: the variable of this name has this value, already a text.
#[tactic(auto, unfolding(crate::specs::Lines::value_line))]
pub fn value_line(alloc: Global, name: &[u8], value: &[u8]) -> Result<Vec<u8>, AllocError>
    ensures { IfOk result (λ text. text.items ≡ value_line name.now value.now) }
{
    let mut text = Vec::from_slice(alloc, name)?;
    text.extend_from_slice(b" = ")?;
    text.extend_from_slice(value)?;
    Ok(text)
}

/// `no NAME here`: no variable of this name is visible.
#[tactic(auto, unfolding(crate::specs::Lines::nothing_here_line))]
pub fn nothing_here_line(alloc: Global, name: &[u8]) -> Result<Vec<u8>, AllocError>
    ensures { IfOk result (λ text. text.items ≡ nothing_here_line name.now) }
{
    let mut text = Vec::from_slice(alloc, b"no ")?;
    text.extend_from_slice(name)?;
    text.extend_from_slice(b" here")?;
    Ok(text)
}

/// `no stop`: the run stands at no stop.
#[tactic(auto, unfolding(crate::specs::Lines::no_stop_line))]
pub fn no_stop_line(alloc: Global) -> Result<Vec<u8>, AllocError>
    ensures { IfOk result (λ text. text.items ≡ no_stop_line) }
{
    Vec::from_slice(alloc, b"no stop")
}
