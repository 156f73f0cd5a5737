//! The texts of changes, and the lines of the values that they concern.

ghost use Rattle.std.specs.Prelude.{◌≡◌, ◌++◌, map, IfOk, OnOk};
ghost use Rattle.line_form.specs.Changes.{change_line, change_text, hidden_value, kind_word, noncurrent_line, nonresident_line, path_text, recovered_line, suspect_line};

use crate::commands::push_places;
use crate::shown::value_line;
use debug_records::{Kind, Place};
use std::alloc::{AllocError, Global};

/// What a pass did, in one word.
fn kind_word(kind: Kind) -> &'static str
    ensures { result.now ≡ kind_word kind }
{
    match kind {
        Kind::Removed => "removed",
        Kind::Moved => "moved",
        Kind::Reused => "reused",
        Kind::Replaced => "replaced",
        Kind::Sunk => "sunk",
    }
}

/// `NUMBER PASS KIND PLACE`, a change within a line. `AllocError` where memory for the text was refused, as for each of
/// these texts.
#[tactic(auto, unfolding(crate::specs::Changes::change_text))]
pub fn change_text(
    alloc: Global,
    number: u32,
    pass: &[u8],
    kind: Kind,
    place: u32,
) -> Result<Vec<u8>, AllocError>
    ensures { IfOk result (λ text. text.items ≡ change_text number pass.now kind place) }
{
    let mut text = format!(in alloc; "{number} ")?.into_bytes();
    text.extend_from_slice(pass)?;
    text.push(b' ')?;
    text.extend_from_slice(kind_word(kind).as_bytes())?;
    let rest = format!(in alloc; " {place}")?;
    text.extend_from_slice(rest.as_bytes())?;
    Ok(text)
}

/// `NUMBER PASS KIND NAME PLACE`, a change of the variable of this name as a line.
#[tactic(auto, unfolding(crate::specs::Changes::change_line))]
pub fn change_line(
    alloc: Global,
    number: u32,
    pass: &[u8],
    kind: Kind,
    name: &[u8],
    place: u32,
) -> Result<Vec<u8>, AllocError>
    ensures { IfOk result (λ text. text.items ≡ change_line number pass.now kind name.now place) }
{
    let mut text = format!(in alloc; "{number} ")?.into_bytes();
    text.extend_from_slice(pass)?;
    text.push(b' ')?;
    text.extend_from_slice(kind_word(kind).as_bytes())?;
    text.push(b' ')?;
    text.extend_from_slice(name)?;
    let rest = format!(in alloc; " {place}")?;
    text.extend_from_slice(rest.as_bytes())?;
    Ok(text)
}

/// `NAME = VALUE (recovered: CHANGE)`: the value of the variable was computed anew, since the change removed it.
#[tactic(auto, unfolding(crate::specs::Changes::recovered_line))]
pub fn recovered_line(
    alloc: Global,
    name: &[u8],
    value: &[u8],
    change: &[u8],
) -> Result<Vec<u8>, AllocError>
    ensures { IfOk result (λ text. text.items ≡ recovered_line name.now value.now change.now) }
{
    let mut text = value_line(alloc, name, value)?;
    text.extend_from_slice(b" (recovered: ")?;
    text.extend_from_slice(change)?;
    text.extend_from_slice(b")")?;
    Ok(text)
}

/// `NAME WHY: CHANGE, `, in front of the path.
#[tactic(auto, unfolding(crate::specs::Changes::hidden_value))]
fn hidden_value(
    alloc: Global,
    name: &[u8],
    why: &[u8],
    change: &[u8],
) -> Result<Vec<u8>, AllocError>
    ensures { IfOk result (λ text. text.items ≡ hidden_value name.now why.now change.now) }
{
    let mut text = Vec::from_slice(alloc, name)?;
    text.extend_from_slice(why)?;
    text.extend_from_slice(change)?;
    text.extend_from_slice(b", ")?;
    Ok(text)
}

/// Appends `path PLACE PLACE ..`, or `path none` for no place.
fn push_path(alloc: Global, text: &mut Vec<u8>, places: &[Place]) -> Result<(), AllocError>
    ensures { OnOk result (text.new.items ≡ text.old.items ++ path_text (map (λ p. p.0) places.now)) }
{
    match places {
        [] => Ok(text.extend_from_slice(b"path none")?),
        [..] => {
            text.extend_from_slice(b"path")?;
            push_places(alloc, text, places)
        }
    }
}

/// `NAME noncurrent: CHANGE, path PLACE PLACE ..`: the home of the variable does not hold its value, as the path shows.
#[tactic(auto, unfolding(crate::specs::Changes::noncurrent_line))]
pub fn noncurrent_line(
    alloc: Global,
    name: &[u8],
    change: &[u8],
    places: &[Place],
) -> Result<Vec<u8>, AllocError>
    ensures { IfOk result (λ text. text.items ≡ noncurrent_line name.now change.now (map (λ p. p.0) places.now)) }
{
    let mut text = hidden_value(alloc, name, b" noncurrent: ", change)?;
    push_path(alloc, &mut text, places)?;
    Ok(text)
}

/// `NAME nonresident: CHANGE, path PLACE PLACE ..`: the home of the variable is another one's, as the path shows.
#[tactic(auto, unfolding(crate::specs::Changes::nonresident_line))]
pub fn nonresident_line(
    alloc: Global,
    name: &[u8],
    change: &[u8],
    places: &[Place],
) -> Result<Vec<u8>, AllocError>
    ensures { IfOk result (λ text. text.items ≡ nonresident_line name.now change.now (map (λ p. p.0) places.now)) }
{
    let mut text = hidden_value(alloc, name, b" nonresident: ", change)?;
    push_path(alloc, &mut text, places)?;
    Ok(text)
}

/// `NAME suspect: CHANGE, path PLACE PLACE .., current path PLACE PLACE ..`: the home of the variable may not hold its
/// value, as the first
/// path shows, and holds it on the second one.
#[tactic(auto, unfolding(crate::specs::Changes::suspect_line))]
pub fn suspect_line(
    alloc: Global,
    name: &[u8],
    change: &[u8],
    places: &[Place],
    current: &[Place],
) -> Result<Vec<u8>, AllocError>
    ensures { IfOk result (λ text. text.items
        ≡ suspect_line name.now change.now (map (λ p. p.0) places.now) (map (λ p. p.0) current.now)) }
{
    let mut text = hidden_value(alloc, name, b" suspect: ", change)?;
    push_path(alloc, &mut text, places)?;
    text.extend_from_slice(b", current ")?;
    push_path(alloc, &mut text, current)?;
    Ok(text)
}
