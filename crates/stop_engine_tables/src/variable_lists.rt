//! The variables of each function, one behind the other.

ghost use Rattle.std.specs.Prelude.{◌≡◌, ◌+◌, ◌≤◌, ◌<◌, ℕ, false, All, IfOk, IfSome, Some, length, slice_index, slice_index_or, drop};
ghost use Rattle.image_form.specs.Rules.{IsImage};
ghost use Rattle.image_form.specs.Views.{viewed};
ghost use Rattle.image_form.specs.declared.variables.Variable.{Variable};
ghost use Rattle.stop_engine_tables.specs.VariableLists.{AreListsOf, is_static, next_of};

use image_form::{Storage, Variable, View};
use std::alloc::{AllocError, Global};

/// The variables of each function of an image, and how far the static ones go.
#[derive(Drop)]
pub struct VariableLists {
    /// For each function the number of its first variable, or how many variables there are.
    pub first: Vec<u32>,
    /// For each variable of a function the number of the function's next one, or how many variables there are.
    pub next: Vec<u32>,
    /// From this number on no variable is static.
    pub statics: usize,
}

/// The lists of an image's variables. `AllocError` where memory for them was refused.
pub fn variable_lists(alloc: Global, image: &View<'_>) -> Result<VariableLists, AllocError>
    requires { IsImage (viewed image.now) }
    ensures { IfOk result (AreListsOf (viewed image.now)) }
{
    let count = image.variable_count();
    let none = count as u32;
    let mut first = vec![in alloc; none; image.function_count()]?;
    let mut next = vec![in alloc; none; count]?;
    link(image, &mut first, &mut next);
    let statics = statics_end(image);
    Ok(VariableLists {
        first,
        next,
        statics,
    })
}

/// Links the variables of each function, from the last one to the first.
fn link(image: &View<'_>, first: &mut [u32], next: &mut [u32])
    requires few { length (viewed image.now).variables < 4294967295 }
    requires functions { All (λ v. IfSome v.function (λ f. f < length first.old)) (viewed image.now).variables }
    requires none { (f : ℕ) → f < length first.old → slice_index first.old f ≡ length (viewed image.now).variables }
    requires rows { length next.old ≡ length (viewed image.now).variables }
    ensures functions { length first.new ≡ length first.old }
    ensures rows { length next.new ≡ length (viewed image.now).variables }
    ensures first { (f : ℕ) → f < length first.new
        → slice_index first.new f ≡ next_of f 0 (viewed image.now).variables }
    ensures next { (i f : ℕ) (d : Variable) → i < length (viewed image.now).variables
        → (slice_index_or (viewed image.now).variables i d).function ≡ Some f
        → slice_index next.new i ≡ next_of f (i + 1) (drop (i + 1) (viewed image.now).variables) }
{
    let mut left = image.variable_count();
    while left > 0 {
        left -= 1;
        match image.variable_at(left).function {
            Some(function) => {
                next[left] = first[function as usize];
                first[function as usize] = left as u32;
            }
            None => {}
        }
    }
}

/// Whether a variable is kept in static memory.
fn is_static(variable: &Variable) -> bool
    ensures { result ≡ is_static variable.now }
{
    match variable.storage {
        Storage::Static(_) => true,
        Storage::Frame(_) | Storage::Register(_) | Storage::Slot(_) => false,
    }
}

/// A number from which on no variable is static.
fn statics_end(image: &View<'_>) -> usize
    ensures within { result ≤ length (viewed image.now).variables }
    ensures none { All (λ v. is_static v ≡ false) (drop result (viewed image.now).variables) }
{
    let mut end = image.variable_count();
    while end > 0 {
        if is_static(&image.variable_at(end - 1)) {
            return end;
        }
        end -= 1;
    }
    end
}
