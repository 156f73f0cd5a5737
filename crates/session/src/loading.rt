//! The texts of a session.

ghost use Rattle.std.specs.Prelude.{◌≡◌, ◌≢◌, ℕ, ◌<◌, ◌≤◌, true, List, Some, IfOk, OnOk, OnErr, length};
ghost use Rattle.outside.specs.Held.{IsKeptOrCut, Loads};
ghost use Rattle.command_line.specs.Job.{attach, attach_given, debug, debug_given};
ghost use Rattle.session.specs.Limits.{IsBeyond, IsThere, IsTooLong, image_limit, input_limit};
ghost use Rattle.session.specs.Stages.{LoadEnds, SaysTooLong, WriteEnds};

use command_line::{Attach, Debug};
use line_form::Status;
use outside::{Shelf, ShelfErr};
use std::alloc::Global;

/// How many bytes a source or a script has at most.
const TEXT_LIMIT: u32 = 1048576;

/// The bytes of the three texts. Of a source that is longer than its limit there is one byte more than that.
#[derive(Drop)]
pub struct Texts {
    pub source: Vec<u8>,
    pub script: Vec<u8>,
    pub input: Vec<u8>,
}

// How many bytes an input has at most.
#[tactic(auto, unfolding(crate::specs::Limits::input_limit))]
fn most_input() -> u32
    ensures is { result ≡ input_limit }
    ensures small { result < 4294967295 }
{
    16777216
}

// How many bytes an image has at most.
#[tactic(auto, unfolding(crate::specs::Limits::image_limit))]
fn most_image() -> u32
    ensures is { result ≡ image_limit }
    ensures small { result < 4294967295 }
{
    134217728
}

fn load_text<S: Shelf>(
    alloc: Global,
    shelf: &mut S,
    name: &str,
    limit: u32,
) -> Result<Vec<u8>, Status>
    requires { limit < 4294967295 }
    ensures ends { LoadEnds result (S.state shelf.old).load_count (S.state shelf.new).load_count (λ _. ⊥) }
    ensures saves { (S.state shelf.new).save_count ≡ (S.state shelf.old).save_count }
    ensures telling { (S.state shelf.new).tells ≡ (S.state shelf.old).tells }
    ensures same { (n : List ℕ) → (S.state shelf.old).tells ≡ true
        → (S.state shelf.new).held n ≡ (S.state shelf.old).held n }
    ensures value { IfOk result (λ v. (S.state shelf.old).tells ≡ true
        → Loads ((S.state shelf.old).held name.now) limit v.items) }
    ensures there { IfOk result (λ v. (S.state shelf.old).tells ≡ true → IsThere ((S.state shelf.old).held name.now)) }
{
    match shelf.load(alloc, name, limit) {
        Ok(text) => Ok(text),
        Err(ShelfErr::Failed) => Err(Status::ReadFault),
        Err(ShelfErr::NoMemory) => Err(Status::NoMemory),
    }
}

/// Loads a source, whose length has a rule of its own: of one that is longer than its limit there is one byte more than
/// that.
pub fn load_source<S: Shelf>(alloc: Global, shelf: &mut S, name: &str) -> Result<Vec<u8>, Status>
    ensures ends { LoadEnds result (S.state shelf.old).load_count (S.state shelf.new).load_count (λ _. ⊥) }
    ensures saves { (S.state shelf.new).save_count ≡ (S.state shelf.old).save_count }
    ensures telling { (S.state shelf.new).tells ≡ (S.state shelf.old).tells }
    ensures same { (n : List ℕ) → (S.state shelf.old).tells ≡ true
        → (S.state shelf.new).held n ≡ (S.state shelf.old).held n }
    ensures value { IfOk result (λ v. (S.state shelf.old).tells ≡ true
        → Loads ((S.state shelf.old).held name.now) 1048576 v.items) }
    ensures there { IfOk result (λ v. (S.state shelf.old).tells ≡ true → IsThere ((S.state shelf.old).held name.now)) }
{
    load_text(alloc, shelf, name, TEXT_LIMIT)
}

// Says that the text of this name is too long.
fn too_long(alloc: Global, name: &str) -> Status
    ensures { SaysTooLong result name.now }
{
    match String::from_str(alloc, name) {
        Ok(name) => Status::TooLong(name),
        Err(_) => Status::NoMemory,
    }
}

// Loads a text that has at most so many bytes.
fn load_whole<S: Shelf>(
    alloc: Global,
    shelf: &mut S,
    name: &str,
    limit: u32,
) -> Result<Vec<u8>, Status>
    requires { limit < 4294967295 }
    ensures ends { LoadEnds result (S.state shelf.old).load_count (S.state shelf.new).load_count (λ said.
        (said ≡ name.now) × ((S.state shelf.old).tells ≡ true → IsBeyond limit ((S.state shelf.old).held name.now))) }
    ensures saves { (S.state shelf.new).save_count ≡ (S.state shelf.old).save_count }
    ensures telling { (S.state shelf.new).tells ≡ (S.state shelf.old).tells }
    ensures same { (n : List ℕ) → (S.state shelf.old).tells ≡ true
        → (S.state shelf.new).held n ≡ (S.state shelf.old).held n }
    ensures whole { IfOk result (λ v. (S.state shelf.old).tells ≡ true
        → (S.state shelf.old).held name.now ≡ Some v.items) }
    ensures within { IfOk result (λ v. length v.items ≤ limit) }
{
    let text = load_text(alloc, shelf, name, limit)?;
    if text.len() > limit as usize {
        return Err(too_long(alloc, name));
    }
    Ok(text)
}

/// Loads the source, the script and the input, in this order. The script and the input are refused directly where they
/// are too long.
pub fn load_texts<S: Shelf>(alloc: Global, shelf: &mut S, job: &Debug) -> Result<Texts, Status>
    ensures ends { LoadEnds result (S.state shelf.old).load_count (S.state shelf.new).load_count (λ said.
        (S.state shelf.old).tells ≡ true → IsTooLong (S.state shelf.old).held (debug (debug_given job.now)) said) }
    ensures saves { (S.state shelf.new).save_count ≡ (S.state shelf.old).save_count }
    ensures telling { (S.state shelf.new).tells ≡ (S.state shelf.old).tells }
    ensures same { (n : List ℕ) → (S.state shelf.old).tells ≡ true
        → (S.state shelf.new).held n ≡ (S.state shelf.old).held n }
    ensures source { IfOk result (λ t. (S.state shelf.old).tells ≡ true
        → Loads ((S.state shelf.old).held (debug_given job.now).source) 1048576 t.source.items) }
    ensures there { IfOk result (λ t. (S.state shelf.old).tells ≡ true
        → IsThere ((S.state shelf.old).held (debug_given job.now).source)) }
    ensures script { IfOk result (λ t. (S.state shelf.old).tells ≡ true
        → (S.state shelf.old).held (debug_given job.now).script ≡ Some t.script.items) }
    ensures input { IfOk result (λ t. (S.state shelf.old).tells ≡ true
        → (S.state shelf.old).held (debug_given job.now).input ≡ Some t.input.items) }
    ensures script_within { IfOk result (λ t. length t.script.items ≤ 1048576) }
    ensures input_within { IfOk result (λ t. length t.input.items ≤ input_limit) }
{
    let source = load_source(alloc, shelf, job.source.as_str())?;
    let script = load_whole(alloc, shelf, job.script.as_str(), TEXT_LIMIT)?;
    let input = load_whole(alloc, shelf, job.input.as_str(), most_input())?;
    Ok(Texts {
        source,
        script,
        input,
    })
}

/// The bytes of the three texts of a saved image's session.
#[derive(Drop)]
pub struct Attached {
    pub image: Vec<u8>,
    pub script: Vec<u8>,
    pub input: Vec<u8>,
}

/// Loads the image, the script and the input, in this order. Each is refused directly where it is too long.
pub fn load_attached<S: Shelf>(
    alloc: Global,
    shelf: &mut S,
    job: &Attach,
) -> Result<Attached, Status>
    ensures ends { LoadEnds result (S.state shelf.old).load_count (S.state shelf.new).load_count (λ said.
        (S.state shelf.old).tells ≡ true → IsTooLong (S.state shelf.old).held (attach (attach_given job.now)) said) }
    ensures saves { (S.state shelf.new).save_count ≡ (S.state shelf.old).save_count }
    ensures telling { (S.state shelf.new).tells ≡ (S.state shelf.old).tells }
    ensures same { (n : List ℕ) → (S.state shelf.old).tells ≡ true
        → (S.state shelf.new).held n ≡ (S.state shelf.old).held n }
    ensures image { IfOk result (λ t. (S.state shelf.old).tells ≡ true
        → (S.state shelf.old).held (attach_given job.now).image ≡ Some t.image.items) }
    ensures script { IfOk result (λ t. (S.state shelf.old).tells ≡ true
        → (S.state shelf.old).held (attach_given job.now).script ≡ Some t.script.items) }
    ensures input { IfOk result (λ t. (S.state shelf.old).tells ≡ true
        → (S.state shelf.old).held (attach_given job.now).input ≡ Some t.input.items) }
    ensures image_within { IfOk result (λ t. length t.image.items ≤ image_limit) }
    ensures script_within { IfOk result (λ t. length t.script.items ≤ 1048576) }
    ensures input_within { IfOk result (λ t. length t.input.items ≤ input_limit) }
{
    let image = load_whole(alloc, shelf, job.image.as_str(), most_image())?;
    let script = load_whole(alloc, shelf, job.script.as_str(), TEXT_LIMIT)?;
    let input = load_whole(alloc, shelf, job.input.as_str(), most_input())?;
    Ok(Attached {
        image,
        script,
        input,
    })
}

/// Saves the image.
pub fn save_image<S: Shelf>(
    alloc: Global,
    shelf: &mut S,
    name: &str,
    bytes: &[u8],
) -> Result<(), Status>
    ensures ends { WriteEnds result (S.state shelf.old).save_count (S.state shelf.new).save_count }
    ensures loads { (S.state shelf.new).load_count ≡ (S.state shelf.old).load_count }
    ensures telling { (S.state shelf.new).tells ≡ (S.state shelf.old).tells }
    ensures others { (n : List ℕ) → n ≢ name.now → (S.state shelf.old).tells ≡ true
        → (S.state shelf.new).held n ≡ (S.state shelf.old).held n }
    ensures saved { OnOk result ((S.state shelf.old).tells ≡ true
        → (S.state shelf.new).held name.now ≡ Some bytes.now) }
    ensures part { OnErr result
        ((S.state shelf.old).tells ≡ true
        → IsKeptOrCut bytes.now ((S.state shelf.old).held name.now) ((S.state shelf.new).held name.now)) }
{
    match shelf.save(alloc, name, bytes) {
        Ok(()) => Ok(()),
        Err(ShelfErr::Failed) => Err(Status::WriteFault),
        Err(ShelfErr::NoMemory) => Err(Status::NoMemory),
    }
}
