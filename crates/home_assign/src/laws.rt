//! Laws of the runs of a unit, by its names and over its homes.

ghost use Rattle.graph_core.specs.Runs.{Activation, Configuration};
ghost use Rattle.graph_core.specs.Validity.{IsValid};
ghost use Rattle.graph_homes.specs.Homed.{HaveHomes, HomedForm};
ghost use Rattle.home_assign.specs.Rule.{HaveHomesApart, HaveSlots};
ghost use Rattle.home_assign.specs.Alike.{AreSame, AreShown, HoldAll, ShowsRecipes};
ghost use Rattle.home_assign.specs.Running.{LeadsOverHomes, ShowsAsMuch};

/// A law: where names that interfere have different homes, all that is seen of a valid unit is seen of it over its
/// homes, one by one and in as many steps: the same bytes and status, the same stops with the same memory, and in the
/// homes what `SameSeen` says. Nothing more is seen of it, unless the unit has come to a note of what is not known.
pub fn names_lead_homes()
    ensures leads { (h : HomedForm) → IsValid h.unit → HaveHomes h → HaveHomesApart h → LeadsOverHomes h }
    ensures as_much { (h : HomedForm) → IsValid h.unit → HaveHomes h → HaveHomesApart h → ShowsAsMuch h }
{}

/// A law: where each name has the slot of its number, names that interfere have different homes, and at each event the
/// home of each name of each live activation holds the name's value.
pub fn slots_hold_names()
    ensures apart { (h : HomedForm) → HaveSlots h → HaveHomesApart h }
    ensures hold { (h : HomedForm) (c d : Configuration) → HaveSlots h → AreSame h c d → HoldAll h c d }
{}

/// A law: at a stop where a recipe gives a scalar's value on all paths to the place, the shadow that the stop shows of
/// the scalar is the recipe's value over homes; where the recipe is the scalar itself, that is what its home holds.
pub fn stops_show_homes()
    ensures { (h : HomedForm) (a b : Activation) → AreShown h a b → ShowsRecipes h a b }
{}
