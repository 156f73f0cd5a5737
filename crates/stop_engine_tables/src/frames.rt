//! The places of the activations that are live at a stop.

ghost use Rattle.std.specs.Prelude.{◌≡◌, ◌≢◌, ◌<◌, ◌≤◌, ◌^◌, ℕ, All, IfOk, true};
ghost use Rattle.image_form.specs.Rules.{IsImage};
ghost use Rattle.image_form.specs.RulesOfFunctions.{IsPlaceNumber};
ghost use Rattle.image_form.specs.Views.{viewed};
ghost use Rattle.rv_machine.specs.State.{word};
ghost use Rattle.stop_engine_view.specs.Callers.{calling_place, place_before, return_address};
ghost use Rattle.stop_engine_view.specs.Reading.{frame_of, frames, greatest_depth, is_stack_address, place_of_word};

use crate::reading::{stack_pointer, word_in};
use image_form::View;
use memory_map::CODE_START;
use rv_machine::Machine;
use std::alloc::{AllocError, Global};

/// The number of the place that a code word belongs to, by the word's address, or 0 for none.
pub fn owner_of(image: &View<'_>, address: u32) -> u32
    ensures { result ≡ place_of_word (viewed image.now) address }
{
    if address % 4 != 0 {
        return 0;
    }
    if address < CODE_START {
        return 0;
    }
    let word = ((address - CODE_START) / 4) as usize;
    if word >= image.owner_count() {
        return 0;
    }
    image.owner_at(word)
}

/// The address that is stored where a frame starts, in the stack.
#[tactic(auto, using(crate::proofs::Slots::word_in_rest), unfolding(rv_machine::specs::Reading::stack_rest))]
fn return_address(machine: &Machine, frame: u32) -> u32
    requires { is_stack_address machine.now frame ≡ true }
    ensures { result ≡ return_address machine.now frame }
{
    word_in(machine.stack_from(frame), 0)
}

/// The place of the call that made the activation whose frame starts there, or 0 where there is none.
pub fn calling_place(image: &View<'_>, machine: &Machine, frame: u32) -> u32
    requires { IsImage (viewed image.now) }
    ensures place { result ≡ calling_place (viewed image.now) machine.now frame }
    ensures number { result ≢ 0 → IsPlaceNumber (viewed image.now) result }
{
    let regions = machine.regions();
    if frame < regions.stack_start() {
        return 0;
    }
    if frame >= regions.stack_end() {
        return 0;
    }
    if frame % 4 != 0 {
        return 0;
    }
    let address = return_address(machine, frame).wrapping_sub(4);
    owner_of(image, address)
}

/// The bytes of the frame of a place's function.
pub fn frame_of(image: &View<'_>, place: u32) -> u32
    requires image { IsImage (viewed image.now) }
    requires place { IsPlaceNumber (viewed image.now) place }
    ensures { result ≡ frame_of (viewed image.now) place }
{
    let function = image.place_at(place as usize - 1).function;
    image.function_at(function as usize).frame
}

/// How many activations may be live.
#[tactic(auto, unfolding(stop_engine_view::specs::Reading::greatest_depth))]
pub fn greatest_depth() -> u32
    ensures { result ≡ greatest_depth }
{
    1024
}

/// The places of the activations that are live, from the innermost, which stands at this place, on. `AllocError` where
/// memory for them was refused.
pub fn frame_places(
    alloc: Global,
    image: &View<'_>,
    machine: &Machine,
    place: u32,
) -> Result<Vec<u32>, AllocError>
    requires image { IsImage (viewed image.now) }
    requires place { IsPlaceNumber (viewed image.now) place }
    ensures places { IfOk result (λ places. places.items ≡ frames (viewed image.now) machine.now place) }
    ensures numbers { IfOk result (λ places. All (IsPlaceNumber (viewed image.now)) places.items) }
{
    let mut places = Vec::new(alloc);
    let mut left = greatest_depth();
    let mut at = place;
    let mut frame = stack_pointer(machine);
    while left > 0 {
        left -= 1;
        places.push(at)?;
        let caller = calling_place(image, machine, frame);
        if caller == 0 {
            return Ok(places);
        }
        frame = frame.wrapping_add(frame_of(image, at));
        at = caller;
    }
    Ok(places)
}
