//! The values of recipes.

ghost use Rattle.std.specs.Prelude.{◌≡◌, slice_index};
ghost use Rattle.image_form.specs.Views.{viewed};
ghost use Rattle.stop_engine_view.specs.Recipes.{numbered_home, recipe_value, variable_word};
ghost use Rattle.stop_engine_view.specs.Words.{home_word};

use image_form::{Node, Storage, View};
use rv_machine::Machine;
use stop_engine_tables::slot_word;
use word_base::{operate, truncate};

/// The value of a register, by its number.
fn register(machine: &Machine, number: u32) -> u32
    ensures { result ≡ slice_index machine.now.registers number }
{
    machine
        .registers()
        .get(number as usize)
        .copied()
        .unwrap_or(0)
}

/// The word that a home holds; memory is no home.
pub fn home_word(machine: &Machine, storage: Storage) -> u32
    ensures { result ≡ home_word machine.now storage }
{
    match storage {
        Storage::Register(number) => register(machine, number),
        Storage::Slot(offset) => slot_word(machine, offset),
        Storage::Frame(_) | Storage::Static(_) => 0,
    }
}

/// What is held by the home of a variable.
fn variable_word(image: &View<'_>, machine: &Machine, variable: u32) -> u32
    ensures { result ≡ variable_word (viewed image.now) machine.now variable }
{
    let index = variable as usize;
    if index >= image.variable_count() {
        return 0;
    }
    home_word(machine, image.variable_at(index).storage)
}

/// What a register holds, or a slot by 32 plus its offset.
fn numbered_home(machine: &Machine, home: u32) -> u32
    ensures { result ≡ numbered_home machine.now home }
{
    if home < 32 {
        register(machine, home)
    } else {
        slot_word(machine, home - 32)
    }
}

/// The value of the recipe whose root has this number, of so many levels.
pub fn recipe_value(image: &View<'_>, machine: &Machine, levels: usize, root: u32) -> u32
    ensures { result ≡ recipe_value (viewed image.now) machine.now levels root }
{
    if levels == 0 {
        return 0;
    }
    let index = root as usize;
    if index >= image.node_count() {
        return 0;
    }
    match image.node_at(index) {
        Node::Constant(value) => value,
        Node::Variable(variable) => variable_word(image, machine, variable),
        Node::Home(home) => numbered_home(machine, home),
        Node::Truncated {
            truncation,
            operand,
        } => truncate(
            truncation,
            recipe_value(image, machine, levels - 1, operand),
        ),
        Node::Operated {
            operation,
            left,
            right,
        } => {
            let first = recipe_value(image, machine, levels - 1, left);
            let second = recipe_value(image, machine, levels - 1, right);
            operate(operation, first, second)
        }
    }
}
