//! The rows of the variables that are visible at a place.

ghost use Rattle.std.specs.Prelude.{◌≡◌, ◌<◌, ◌≤◌, IfSome, length};
ghost use Rattle.std.specs.List.{AllWithin, slice_range};
ghost use Rattle.image_form.specs.Rules.{IsImage};
ghost use Rattle.image_form.specs.Views.{viewed};
ghost use Rattle.stop_engine_tables.specs.Tables.{AreTablesOf};
ghost use Rattle.stop_engine_texts.specs.Rows.{IsRow};
ghost use Rattle.stop_engine_texts.specs.Shown.{first_row_of};
ghost use Rattle.stop_engine_view.specs.Rows.{rows_at};

use image_form::{View, VisibleRow};
use std::ops::Range;
use stop_engine_tables::Tables;

/// The number of the first row that is of a place from this one on, or how many rows there are.
fn first_row(image: &View<'_>, place: u64) -> usize
    requires { IsImage (viewed image.now) }
    ensures within { result ≤ length (viewed image.now).rows }
    ensures before { AllWithin (λ r. r.place < place) (viewed image.now).rows 0 result }
    ensures behind { AllWithin (λ r. place ≤ r.place) (viewed image.now).rows result (length (viewed image.now).rows) }
{
    let mut low = 0;
    let mut high = image.row_count();
    while low < high {
        let middle = low + (high - low) / 2;
        if u64::from(image.row_at(middle).place) < place {
            low = middle + 1;
        } else {
            high = middle;
        }
    }
    low
}

/// The numbers of the rows of a place: they lie side by side, since rows ascend by their places.
pub fn rows_at(image: &View<'_>, place: u32) -> Range<usize>
    requires { IsImage (viewed image.now) }
    ensures order { result.start ≤ result.end }
    ensures within { result.end ≤ length (viewed image.now).rows }
    ensures rows { slice_range (viewed image.now).rows result.start result.end ≡ rows_at place (viewed image.now).rows }
    ensures places { AllWithin (λ r. r.place ≡ place) (viewed image.now).rows result.start result.end }
    ensures valid { AllWithin (IsRow (viewed image.now)) (viewed image.now).rows result.start result.end }
{
    let from = u64::from(place);
    first_row(image, from)..first_row(image, from + 1)
}

/// The row of the first variable of a name that is visible at a place, if there is one.
pub fn visible_row(image: &View<'_>, tables: &Tables, place: u32, name: &[u8]) -> Option<VisibleRow>
    requires image { IsImage (viewed image.now) }
    requires tables { AreTablesOf (viewed image.now) tables.now }
    ensures found { result ≡ first_row_of (viewed image.now) place name.now (viewed image.now).rows }
    ensures row { IfSome result (IsRow (viewed image.now)) }
{
    let Range { start, end } = rows_at(image, place);
    for number in start..end {
        let row = image.row_at(number);
        if tables.names.variable(image, row.variable as usize) == name {
            return Some(row);
        }
    }
    None
}
