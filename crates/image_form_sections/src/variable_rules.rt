//! The rule of variables.

ghost use Rattle.std.specs.Prelude.{◌≡◌, ⊤};
ghost use Rattle.image_form_sections.specs.Layouts.{rows_in, sections_in};
ghost use Rattle.image_form_sections.specs.TestsOfVariables.{group_at, group_before, is_count, is_function, is_home_register, is_name_length, is_position, is_static, is_static_address, is_storage, is_value, variable_tests};

use crate::layout::Layout;
use crate::rule::{Rule, is_above};
use crate::version::map_of;

/// Stands for no function in a variable's record.
pub const NO_FUNCTION: u32 = u32::MAX;

/// The rule of variables.
#[derive(Clone, Copy)]
pub struct VariableRule<'a, 'b> {
    pub layout: &'a Layout<'b>,
}

impl Rule for VariableRule<'_, '_> {
    ghost tests = { λ rule. variable_tests (sections_in rule.layout.now) };

    ghost ready = { λ _. ⊤ };

    fn fault(&self, row: usize) -> Option<usize> {
        let variables = &self.layout.variables;
        if !is_name_length(self.layout, row) {
            Some(0)
        } else if !is_function(self.layout, row) {
            Some(1)
        } else if !is_position(self.layout, row) {
            Some(2)
        } else if variables.number(row, 3) > 6 {
            Some(3)
        } else if !is_storage(self.layout, row) {
            Some(4)
        } else if !is_value(self.layout, row) {
            Some(5)
        } else if !is_count(self.layout, row) {
            Some(6)
        } else if variables.number(row, 7) != 0 {
            Some(7)
        } else {
            None
        }
    }
}

fn is_static(layout: &Layout<'_>, row: usize) -> bool
    ensures { result ≡ is_static (sections_in layout.now) row }
{
    layout.variables.number(row, 1) == NO_FUNCTION
}

/// 0 for a named static variable, 1 for a literal, 2 for a variable of a function.
#[tactic(auto, unfolding(crate::specs::TestsOfVariables::group_at))]
fn group_at(layout: &Layout<'_>, row: usize) -> u32
    ensures { result ≡ group_at (sections_in layout.now) row }
{
    if !is_static(layout, row) {
        2
    } else if layout.variables.number(row, 0) == 0 {
        1
    } else {
        0
    }
}

fn group_before(layout: &Layout<'_>, row: usize) -> u32
    ensures { result ≡ group_before (sections_in layout.now) row }
{
    if row == 0 {
        0
    } else {
        group_at(layout, row - 1)
    }
}

#[tactic(auto, unfolding(crate::specs::TestsOfVariables::is_name_length))]
fn is_name_length(layout: &Layout<'_>, row: usize) -> bool
    ensures { result ≡ is_name_length (sections_in layout.now) row }
{
    let length = layout.variables.number(row, 0);
    length <= 63 && !(length == 0 && group_before(layout, row) == 2)
}

#[tactic(auto, unfolding(crate::specs::TestsOfVariables::is_function))]
fn is_function(layout: &Layout<'_>, row: usize) -> bool
    ensures { result ≡ is_function (sections_in layout.now) row }
{
    if is_static(layout, row) {
        group_before(layout, row) <= group_at(layout, row)
    } else {
        1 <= layout.variables.number(row, 0)
            && (layout.variables.number(row, 1) as usize) < layout.functions.len()
    }
}

#[tactic(auto, unfolding(crate::specs::TestsOfVariables::is_position))]
fn is_position(layout: &Layout<'_>, row: usize) -> bool
    ensures { result ≡ is_position (sections_in layout.now) row }
{
    group_before(layout, row) != group_at(layout, row) || is_above(&layout.variables, 2, row)
}

#[tactic(auto, unfolding(crate::specs::TestsOfVariables::is_storage))]
fn is_storage(layout: &Layout<'_>, row: usize) -> bool
    ensures { result ≡ is_storage (sections_in layout.now) row }
{
    let storage = layout.variables.number(row, 4);
    if is_static(layout, row) {
        storage == 0
    } else {
        1 <= storage && storage <= 3
    }
}

#[tactic(auto, unfolding(crate::specs::TestsOfVariables::is_home_register))]
fn is_home_register(register: u32) -> bool
    ensures { result ≡ is_home_register register }
{
    register == 9 || (18 <= register && register <= 31)
}

#[tactic(auto, unfolding(crate::specs::TestsOfVariables::is_static_address, crate::specs::Bounds::first_static_address, crate::specs::Bounds::static_size))]
fn is_static_address(layout: &Layout<'_>, address: u32) -> bool
    ensures { result ≡ is_static_address (sections_in layout.now) address }
{
    let map = map_of(layout.version);
    map.bytes_start() <= address && address < map.bytes_end()
}

#[tactic(auto, unfolding(crate::specs::TestsOfVariables::is_value))]
fn is_value(layout: &Layout<'_>, row: usize) -> bool
    ensures { result ≡ is_value (sections_in layout.now) row }
{
    let storage = layout.variables.number(row, 4);
    let value = layout.variables.number(row, 5);
    if storage == 0 {
        is_static_address(layout, value)
    } else if storage == 2 {
        is_home_register(value)
    } else {
        let function = layout.variables.number(row, 1) as usize;
        value % 4 == 0 && value < layout.functions.number(function, 3)
    }
}

#[tactic(auto, unfolding(crate::specs::TestsOfVariables::is_count))]
fn is_count(layout: &Layout<'_>, row: usize) -> bool
    ensures { result ≡ is_count (sections_in layout.now) row }
{
    layout.variables.number(row, 4) < 2 || layout.variables.number(row, 6) == 0
}
