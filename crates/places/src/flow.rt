//! Where execution may go from place to place, and what the places assign.

ghost use Rattle.std.specs.Prelude.{◌≡◌, true};
ghost use Rattle.places.specs.Flow.{assigns, can_go};

use debug_records::{Place, Var};

/// Execution may go from the one place directly to the other. Steps are in order by where they lead from, then by where
/// they lead to.
#[derive(Clone, Copy, PartialEq, Eq, PartialOrd, Ord)]
pub struct FlowStep {
    pub from: Place,
    pub to: Place,
}

/// The place assigns the variable. Assignments are in order by their places, then by their variables.
#[derive(Clone, Copy, PartialEq, Eq, PartialOrd, Ord)]
pub struct Assignment {
    pub place: Place,
    pub var: Var,
}

/// Where execution may go within an activation, and which places assign which variables.
#[derive(Drop)]
pub struct FlowTable {
    /// Each step once, by the places that they lead from, and then by those that they lead to.
    pub steps: Vec<FlowStep>,
    pub assignments: Vec<Assignment>,
}

impl FlowTable {
    /// Whether execution may go from a place directly to another.
    pub fn can_go(&self, from: Place, to: Place) -> bool
        ensures { result ≡ can_go self.now.steps.items from.0 to.0 }
    {
        self.steps
            .iter()
            .any(|step| step.from.0 == from.0 && step.to.0 == to.0)
    }

    /// The index of the first assignment that does not come before this place and variable, if the assignments are in
    /// order.
    fn first_from(&self, place: Place, var: Var) -> usize {
        self.assignments.partition_point(|assignment| {
            assignment.place.0 < place.0
                || assignment.place.0 == place.0 && assignment.var.0 < var.0
        })
    }

    /// Whether the assignment of an index is that of a variable at a place.
    fn is_at(&self, index: usize, place: Place, var: Var) -> bool
        ensures { result ≡ true → assigns self.now.assignments.items place.0 var.0 ≡ true }
    {
        match self.assignments.get(index) {
            Some(assignment) => assignment.place.0 == place.0 && assignment.var.0 == var.0,
            None => false,
        }
    }

    /// Whether a place assigns a variable.
    pub fn assigns(&self, place: Place, var: Var) -> bool
        ensures { result ≡ assigns self.now.assignments.items place.0 var.0 }
    {
        if self.is_at(self.first_from(place, var), place, var) {
            return true;
        }
        self.assignments.iter().any(|assignment| assignment.place.0 == place.0
            && assignment.var.0 == var.0)
    }
}
