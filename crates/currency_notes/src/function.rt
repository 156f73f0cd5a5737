//! A function, whose instructions are walked over.

ghost use Rattle.std.specs.Prelude.{◌≡◌, List, option_map};
ghost use Rattle.debug_records.specs.declared.change.Place as declared-place;
ghost use Rattle.debug_records.specs.declared.change.Var as declared-var;
ghost use Rattle.graph_core.specs.Graphs.{Logged, graph_view};
ghost use Rattle.graph_core.specs.WellMarked.{IsVariable};
ghost use Rattle.currency_notes.specs.Sources.{IsFirstOf, variable_in};
ghost use Rattle.dead_pass_writes.specs.RemovedChangesTelling.{AreToldOf};

use crate::Homes;
use dead_pass_writes::RemovedChanges;
use debug_records::{Place, Var};
use graph_core::Graph;

/// A function with the homes of its names, and the changes that removed assignments in its unit.
#[derive(Drop)]
pub struct Function<'a> {
    pub graph: &'a Graph,
    pub homes: Homes<'a>,
    pub removed: &'a RemovedChanges,
}

impl Function<'_> {
    /// The variable that a scalar is.
    fn variable_of(&self, scalar: u32) -> Option<Var>
        ensures { option_map (λ (v : declared-var.Var). v.0) result
            ≡ variable_in (graph_view self.now.graph.now) scalar }
    {
        match self.graph.scalars.get(scalar as usize) {
            Some(found) => Some(found.var),
            None => None,
        }
    }

    /// The first change that removed an assignment of a scalar at a place, if one did.
    pub fn removal(&self, place: Option<Place>, scalar: u32) -> Option<u32>
        ensures { (log : List Logged) → AreToldOf log self.now.removed.now
            → IsFirstOf log (graph_view self.now.graph.now) (option_map (λ (p : declared-place.Place). p.0) place)
            scalar result }
    {
        let Some(var) = self.variable_of(scalar) else {
            return None;
        };
        let Some(place) = place else {
            return None;
        };
        self.removed.first(place, var)
    }
}
