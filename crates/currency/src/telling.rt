//! What can be told of the scalars that their homes do not show.

ghost use Rattle.std.specs.Prelude.{IfOk};
ghost use Rattle.currency.specs.Telling.{IsHidingOf, IsVerdictOf};

use crate::verdict::Verdict;
use currency_hiding::{Cause, Hiding};
use debug_records::{Place, Var};
use graph_core::Recipe;
use std::alloc::{AllocError, Global};

/// The verdict that tells what hides a scalar, and where its least quiet path begins.
fn verdict_of(hiding: Hiding) -> Verdict
    ensures { IsHidingOf hiding result }
{
    let quiet = hiding.quiet;
    match hiding.cause {
        Cause::Removed { change, start } => Verdict::Noncurrent {
            change,
            start: Place(start),
            writer: None,
            quiet,
        },
        Cause::Moved {
            change,
            start,
            writer,
        } => Verdict::Noncurrent {
            change,
            start: Place(start),
            writer: Some(writer),
            quiet,
        },
        Cause::Reused {
            change,
            start,
            writer,
        } => Verdict::Nonresident {
            change,
            start: Place(start),
            writer,
            quiet,
        },
    }
}

/// What is told of a scalar that its home does not show.
#[derive(Clone, Copy)]
pub enum Told<'a> {
    /// Its value by a recipe, since an assignment was removed by this change.
    Recovered { recipe: &'a Recipe, change: u32 },
    /// What hides it, and where its least quiet path begins.
    Hidden(Hiding),
}

impl Told<'_> {
    /// The verdict that tells it.
    pub fn verdict(self, alloc: Global) -> Result<Verdict, AllocError>
        ensures { IfOk result (λ v. IsVerdictOf self.entry v) }
    {
        match self {
            Told::Recovered { recipe, change } => Ok(Verdict::Recovered {
                recipe: recipe.duplicate(alloc)?,
                change,
            }),
            Told::Hidden(hiding) => Ok(verdict_of(hiding)),
        }
    }
}

/// A variable that its home does not show.
#[derive(Clone, Copy)]
pub struct ToldVariable<'a> {
    pub var: Var,
    pub told: Told<'a>,
}
