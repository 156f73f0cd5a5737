//! The rules of a table, row by row.

ghost use Rattle.std.specs.Prelude.{◌≡◌, ◌||◌, ◌==◌, ℕ, ◌+◌, ◌*◌, ◌<◌, ◌^◌, Bool, List, length, IfSome};
ghost use Rattle.image_form_sections.specs.Breaches.{first_broken, first_false};
ghost use Rattle.image_form_sections.specs.Layouts.{rows_in, sections_in};
ghost use Rattle.image_form_sections.specs.Bounds.{first_code_address};
ghost use Rattle.image_form_sections.specs.Sections.{cell};
ghost use Rattle.image_form_sections.specs.TestsOfTables.{is_above, is_code_address, is_in_function, is_not_below, is_pair_above, is_place, previous};

use crate::layout::Layout;
use crate::table::Table;

/// The address of the first code word.
pub const CODE_START: u64 = memory_map::CODE_START as u64;

/// The rule of a table: a test for each number of a row.
pub trait Rule {
    // Whether each number of a row keeps its rule.
    ghost tests: { Self → ℕ → List Bool };

    // What must hold of what the rule knows about its table.
    ghost ready: { Self → Type 0 };

    /// The first number of a row that breaks its rule.
    fn fault(&self, row: usize) -> Option<usize>
        requires ready { ready self.now }
        requires row { row < 2 ^ 32 }
        ensures first { result ≡ first_false (tests self.now row) }
        ensures small { IfSome result (λ field. field < 8) };
}

/// The first of so many rows that breaks its rule, and the first of its numbers that does.
pub fn first_fault<R: Rule>(rule: &R, count: usize) -> Option<(usize, usize)>
    requires ready { R.ready rule.now }
    requires count { count < 2 ^ 32 }
    ensures first { result ≡ first_broken (R.tests rule.now) count 0 }
    ensures small { IfSome result (λ broken. (broken.0 < count) × (broken.1 < 8)) }
{
    for row in 0..count {
        if let Some(field) = rule.fault(row) {
            return Some((row, field));
        }
    }
    None
}

/// A number of the row before, or one given where there is none.
pub fn previous(table: &Table<'_>, field: usize, none: u32, row: usize) -> u32
    ensures { result ≡ previous (rows_in table.now) field none row }
{
    if row == 0 {
        none
    } else {
        table.number(row - 1, field)
    }
}

/// Whether a number is above that of the row before.
#[tactic(auto, unfolding(crate::specs::TestsOfTables::is_above))]
pub fn is_above(table: &Table<'_>, field: usize, row: usize) -> bool
    ensures { result ≡ is_above (rows_in table.now) field row }
{
    row == 0 || previous(table, field, 0, row) < table.number(row, field)
}

/// Whether a number is not below that of the row before.
#[tactic(auto, unfolding(crate::specs::TestsOfTables::is_not_below))]
pub fn is_not_below(table: &Table<'_>, field: usize, row: usize) -> bool
    ensures { result ≡ is_not_below (rows_in table.now) field row }
{
    previous(table, field, 0, row) <= table.number(row, field)
}

/// Whether the first two numbers of a row come behind those of the row before.
#[tactic(auto, unfolding(crate::specs::TestsOfTables::is_pair_above))]
pub fn is_pair_above(table: &Table<'_>, row: usize) -> bool
    ensures { result ≡ is_pair_above (rows_in table.now) row }
{
    let before = previous(table, 0, 0, row);
    let first = table.number(row, 0);
    row == 0
        || before < first
        || (before == first && previous(table, 1, 0, row) < table.number(row, 1))
}

/// Whether a number is a place's.
#[tactic(auto, unfolding(crate::specs::TestsOfTables::is_place))]
pub fn is_place(layout: &Layout<'_>, number: u32) -> bool
    ensures { result ≡ is_place (sections_in layout.now) number }
{
    1 <= number && number as usize <= layout.places.len()
}

/// Whether an address is a code word's.
#[tactic(auto, unfolding(crate::specs::TestsOfTables::is_code_address, crate::specs::Bounds::first_code_address))]
pub fn is_code_address(layout: &Layout<'_>, address: u32) -> bool
    ensures { result ≡ is_code_address (sections_in layout.now) address }
{
    let address = address as u64;
    address % 4 == 0 && CODE_START <= address && address < code_end(layout)
}

/// The address behind the last code word.
#[tactic(auto, unfolding(crate::specs::Bounds::first_code_address))]
pub fn code_end(layout: &Layout<'_>) -> u64
    ensures { result ≡ first_code_address + 4 * length (sections_in layout.now).code }
{
    CODE_START + 4 * layout.code.len() as u64
}

/// Whether an address lies in a function.
#[tactic(auto, unfolding(crate::specs::TestsOfTables::is_in_function))]
pub fn is_in_function(layout: &Layout<'_>, function: u32, address: u64) -> bool
    ensures { result ≡ is_in_function (sections_in layout.now) function address }
{
    let first = layout.functions.number(function as usize, 1) as u64;
    let end = layout.functions.number(function as usize, 2) as u64;
    first <= address && address < end
}
