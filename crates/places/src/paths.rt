//! A path through the places.

ghost use Rattle.std.specs.Prelude.{◌≡◌, ◌↔◌, IsTrue};
ghost use Rattle.places.specs.Path.{GoesOn, numbers, places};

use crate::flow::FlowTable;
use debug_records::Place;
use smallvec::SmallVec;

/// Places in the order in which execution passes them.
#[derive(Drop)]
pub struct Path {
    pub places: SmallVec<Place, 8>,
}

/// Whether execution may go from each place of a list directly to the next one.
fn goes_on(table: &FlowTable, places: &[Place]) -> bool
    ensures { IsTrue result ↔ GoesOn table.now.steps.items (numbers places.now) }
{
    match places {
        [from, rest @ ..] => match rest {
            [to, ..] => table.can_go(*from, *to) && goes_on(table, rest),
            [] => true,
        },
        [] => true,
    }
}

/// Whether execution may go from each place of a path directly to the next one.
pub fn is_path(table: &FlowTable, path: &Path) -> bool
    ensures { IsTrue result ↔ GoesOn table.now.steps.items (places path.now) }
{
    goes_on(table, &path.places)
}
