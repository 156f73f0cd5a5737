//! What hides the scalars of a unit, one after the other.

ghost use Rattle.std.specs.Prelude.{◌≡◌, ◌<◌, IfOk, OnOk, length, option_map};
ghost use Rattle.currency_writers.specs.Marks.{mark_at};
ghost use Rattle.debug_records.specs.Numbers.{AreNumbered};
ghost use Rattle.graph_core.specs.Graphs.{graph_view};
ghost use Rattle.currency_writers.specs.Flow.{IsFlowOfPlaces};
ghost use Rattle.currency_hiding.specs.Found.{HasNoneAt, IsFunction, IsReady, IsSameFunction, IsSameTeller, IsTeller, TellsFor};

use crate::causes::Causes;
use crate::changes::Changes;
use crate::function::Function;
use crate::hiding::Hiding;
use crate::question::Question;
use crate::quiet::Quiet;
use currency_writers::Search;
use debug_records::{Change, Place, Var};
use places::FlowTable;
use std::alloc::{AllocError, Global};

/// The changes of a unit, and the flow of its program, for questions on one scalar after the other.
#[derive(Drop)]
pub struct Teller<'a> {
    changes: Changes<'a>,
    search: Search<'a>,
    causes: Causes,
    quiet: Quiet,
}

impl<'a> Teller<'a> {
    /// Questions on a unit with these changes, which stand in the order of their numbers, and whose program has this
    /// flow and places below a number.
    pub fn new(
        alloc: Global,
        changes: &'a [Change],
        flow: &'a FlowTable,
        places: usize,
    ) -> Result<Teller<'a>, AllocError>
        requires numbered { AreNumbered changes.now }
        requires flow { IsFlowOfPlaces flow.now places }
        ensures teller { IfOk result (λ made. IsTeller made) }
        ensures changes { IfOk result (λ made. made.changes.all.now ≡ changes.now) }
        ensures flow { IfOk result (λ made. made.search.flow.table.now ≡ flow.now) }
    {
        let changes = Changes::new(alloc, changes)?;
        let search = Search::new(alloc, flow, places)?;
        let causes = Causes::new(alloc, places)?;
        let quiet = Quiet::new(alloc, places)?;
        Ok(Teller {
            changes,
            search,
            causes,
            quiet,
        })
    }

    /// The questions are on this scalar of a function from here on, which is this variable.
    pub fn turn_to(
        &mut self,
        alloc: Global,
        function: &mut Function<'_>,
        scalar: u32,
        var: Var,
    ) -> Result<(), AllocError>
        requires teller { IsTeller self.old }
        requires function { IsFunction function.old }
        requires scalar { scalar < length (graph_view function.old.writers.graph.now).scalars }
        ensures teller { OnOk result (IsSameTeller self.old self.new) }
        ensures function { OnOk result (IsSameFunction function.old function.new) }
        ensures scalar { OnOk result (function.new.scalar ≡ scalar) }
        ensures var { OnOk result (self.new.search.flow.var.0 ≡ var.0) }
        ensures ready { OnOk result (IsReady self.new function.new) }
    {
        self.causes.forget();
        self.search.turn_to(alloc, var)?;
        function.turn_to(alloc, &self.changes, scalar, var)?;
        let question = Question {
            changes: &self.changes,
            search: &self.search,
            function,
        };
        self.causes.add_removed(alloc, question)?;
        self.causes.add_moved(alloc, question)?;
        self.causes.add_reused(alloc, question)?;
        self.quiet.turn_to(alloc, question)?;
        Ok(())
    }

    /// What is told of the scalar of the function at a place where something hides it: the first that does, and the
    /// least place at which a quiet path begins.
    pub fn hiding_at(&self, function: &Function<'_>, place: Place) -> Hiding
        requires ready { IsReady self.now function.now }
        requires hidden { HasNoneAt self.now.changes self.now.search function.now place.0 → ⊥ }
        ensures { TellsFor self.now function.now place.0 result }
    {
        let question = Question {
            changes: &self.changes,
            search: &self.search,
            function,
        };
        Hiding {
            cause: self.causes.at(question, place.0),
            quiet: self.quiet_at(place),
        }
    }

    /// The least place at which a quiet path of the scalar to a place begins, if there is one.
    fn quiet_at(&self, place: Place) -> Option<Place>
        ensures { option_map (λ p. p.0) result ≡ mark_at self.now.quiet.starts place.0 }
    {
        match self.quiet.at(place.0) {
            Some(start) => Some(Place(start)),
            None => None,
        }
    }
}
