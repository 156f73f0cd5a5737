//! Verdicts of variables at places.

use currency_writers::Writer;
use debug_records::{Place, Var};
use graph_core::Recipe;

/// What can be told of a variable at a place (Hennessy 1982: current, recovered, noncurrent; Adl-Tabatabai and Gross
/// 1996: nonresident).
#[derive(Drop)]
pub enum Verdict {
    /// Its home, or its memory, holds its value. At a place that no path reaches this is said too, since nothing stops
    /// there.
    Home,
    /// Its value is that of a recipe over the names of its function, since an assignment was removed: by this change,
    /// the least of those that removed one whose note reaches the place.
    Recovered {
        recipe: Recipe,
        change: u32,
    },
    /// Its home may not hold its value: the change that removed an assignment or moved its computation, by its number;
    /// a place that assigns the variable; and what writes the home for the moved computation, on a way from there on
    /// which nothing else assigns the variable, or nothing where the assignment was removed. The least place at which a
    /// quiet path begins, on which nothing disturbs the home, is told beside it, if there is such a path: then its home
    /// may hold its value as well.
    Noncurrent {
        change: u32,
        start: Place,
        writer: Option<Writer>,
        quiet: Option<Place>,
    },
    /// Its home may hold another name's value: the change by which its register was given to other names too, by its
    /// number; a place that assigns the variable; and what writes the register on a way from there on which nothing
    /// else assigns the variable. The least place at which a quiet path begins is told beside it, if there is one.
    Nonresident {
        change: u32,
        start: Place,
        writer: Writer,
        quiet: Option<Place>,
    },
}

/// The verdict on a variable that is visible at a place.
#[derive(Drop)]
pub struct PlaceVerdict {
    pub place: Place,
    pub var: Var,
    pub verdict: Verdict,
}
