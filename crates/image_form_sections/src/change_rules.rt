//! The rules of changes, flow pairs, assigned pairs and visible rows.

ghost use Rattle.std.specs.Prelude.{◌≡◌, ⊤};
ghost use Rattle.image_form_sections.specs.Layouts.{HoldsQuietPlaces, rows_in, sections_in};
ghost use Rattle.image_form_sections.specs.TestsOfChanges.{assigned_tests, change_tests, flow_tests, is_change, is_kind, is_node_or_start, is_quiet_place, is_quiet_start, is_taking, is_visible, is_writer, row_tests};

use crate::layout::Layout;
use crate::quiet_rules::pair_key;
use crate::rule::{Rule, is_code_address, is_not_below, is_pair_above, is_place};
use crate::version::level_of;

/// The rule of changes.
#[derive(Clone, Copy)]
pub struct ChangeRule<'a, 'b> {
    pub layout: &'a Layout<'b>,
}

impl Rule for ChangeRule<'_, '_> {
    ghost tests = { λ rule. change_tests (sections_in rule.layout.now) };

    ghost ready = { λ _. ⊤ };

    fn fault(&self, row: usize) -> Option<usize> {
        let changes = &self.layout.changes;
        let length = changes.number(row, 0);
        if length < 1 || length > 16 {
            Some(0)
        } else if !is_kind(self.layout, changes.number(row, 1)) {
            Some(1)
        } else if !is_place(self.layout, changes.number(row, 2)) {
            Some(2)
        } else if changes.number(row, 3) as usize >= self.layout.variables.len() {
            Some(3)
        } else if changes.number(row, 4) != 0 {
            Some(4)
        } else {
            None
        }
    }
}

/// Whether a number is that of a kind of the image's version.
#[tactic(auto, unfolding(crate::specs::TestsOfChanges::is_kind))]
fn is_kind(layout: &Layout<'_>, number: u32) -> bool
    ensures { result ≡ is_kind (sections_in layout.now) number }
{
    number <= 3 || (number == 4 && level_of(layout.version).has_quiet())
}

/// Whether an assignment went by changes of the kind of a number.
pub fn is_taking(number: u32) -> bool
    ensures { result ≡ is_taking number }
{
    number == 0 || number == 4
}

/// The rule of flow pairs.
#[derive(Clone, Copy)]
pub struct FlowRule<'a, 'b> {
    pub layout: &'a Layout<'b>,
}

impl Rule for FlowRule<'_, '_> {
    ghost tests = { λ rule. flow_tests (sections_in rule.layout.now) };

    ghost ready = { λ _. ⊤ };

    fn fault(&self, row: usize) -> Option<usize> {
        let flow = &self.layout.flow;
        if !is_place(self.layout, flow.number(row, 0)) || !is_not_below(flow, 0, row) {
            Some(0)
        } else if !is_place(self.layout, flow.number(row, 1)) || !is_pair_above(flow, row) {
            Some(1)
        } else {
            None
        }
    }
}

/// The rule of assigned pairs.
#[derive(Clone, Copy)]
pub struct AssignedRule<'a, 'b> {
    pub layout: &'a Layout<'b>,
}

impl Rule for AssignedRule<'_, '_> {
    ghost tests = { λ rule. assigned_tests (sections_in rule.layout.now) };

    ghost ready = { λ _. ⊤ };

    fn fault(&self, row: usize) -> Option<usize> {
        let assigned = &self.layout.assigned;
        let variables = self.layout.variables.len();
        if !is_place(self.layout, assigned.number(row, 0)) || !is_not_below(assigned, 0, row) {
            Some(0)
        } else if assigned.number(row, 1) as usize >= variables || !is_pair_above(assigned, row) {
            Some(1)
        } else {
            None
        }
    }
}

/// The rule of visible rows, which knows where quiet paths may begin.
#[derive(Clone, Copy)]
pub struct VisibleRule<'a, 'b> {
    pub layout: &'a Layout<'b>,
    /// The places with the variables that they assign, of which no change took the assignment, in order.
    pub quiet: &'a [u64],
}

impl Rule for VisibleRule<'_, '_> {
    ghost tests = { λ rule. row_tests (sections_in rule.layout.now) };

    ghost ready = { λ rule. HoldsQuietPlaces rule.quiet.now (sections_in rule.layout.now) };

    fn fault(&self, row: usize) -> Option<usize> {
        let rows = &self.layout.rows;
        if !is_place(self.layout, rows.number(row, 0)) || !is_not_below(rows, 0, row) {
            Some(0)
        } else if !is_visible(self.layout, row) {
            Some(1)
        } else if rows.number(row, 2) > 3 {
            Some(2)
        } else if !is_change(self.layout, row) {
            Some(3)
        } else if !is_node_or_start(self.layout, row) {
            Some(4)
        } else if !is_writer(self.layout, row) {
            Some(5)
        } else if !self.is_quiet_start(row) {
            Some(6)
        } else {
            None
        }
    }
}

#[tactic(auto, unfolding(crate::specs::TestsOfChanges::is_visible))]
fn is_visible(layout: &Layout<'_>, row: usize) -> bool
    ensures { result ≡ is_visible (sections_in layout.now) row }
{
    let place = layout.rows.number(row, 0) as usize;
    let variable = layout.rows.number(row, 1) as usize;
    let function = layout.variables.number(variable, 1);
    variable < layout.variables.len()
        && function == layout.places.number(place.saturating_sub(1), 2)
        && is_pair_above(&layout.rows, row)
}

#[tactic(auto, unfolding(crate::specs::TestsOfChanges::is_change))]
fn is_change(layout: &Layout<'_>, row: usize) -> bool
    ensures { result ≡ is_change (sections_in layout.now) row }
{
    let change = layout.rows.number(row, 3) as usize;
    if layout.rows.number(row, 2) == 0 {
        change == 0
    } else {
        let variable = layout.changes.number(change.saturating_sub(1), 3);
        1 <= change && change <= layout.changes.len() && variable == layout.rows.number(row, 1)
    }
}

#[tactic(auto, unfolding(crate::specs::TestsOfChanges::is_node_or_start))]
fn is_node_or_start(layout: &Layout<'_>, row: usize) -> bool
    ensures { result ≡ is_node_or_start (sections_in layout.now) row }
{
    let verdict = layout.rows.number(row, 2);
    let number = layout.rows.number(row, 4);
    if verdict == 0 {
        number == 0
    } else if verdict == 1 {
        (number as usize) < layout.nodes.len()
    } else {
        is_place(layout, number)
    }
}

#[tactic(auto, unfolding(crate::specs::TestsOfChanges::is_writer))]
fn is_writer(layout: &Layout<'_>, row: usize) -> bool
    ensures { result ≡ is_writer (sections_in layout.now) row }
{
    let change = layout.rows.number(row, 3) as usize;
    let writer = layout.rows.number(row, 5);
    if layout.rows.number(row, 2) < 2 {
        writer == 0
    } else if is_taking(layout.changes.number(change.saturating_sub(1), 1)) {
        writer == 0
    } else {
        is_code_address(layout, writer)
    }
}

impl VisibleRule<'_, '_> {
    #[tactic(auto, unfolding(crate::specs::TestsOfChanges::is_quiet_start))]
    fn is_quiet_start(&self, row: usize) -> bool
        requires { HoldsQuietPlaces self.now.quiet.now (sections_in self.now.layout.now) }
        ensures { result ≡ is_quiet_start (sections_in self.now.layout.now) row }
    {
        let rows = &self.layout.rows;
        let begin = rows.number(row, 6);
        begin == 0 || (rows.number(row, 2) >= 2 && self.is_quiet_place(begin, rows.number(row, 1)))
    }

    /// Whether a place assigns a variable, and no change took that assignment.
    #[tactic(auto, unfolding(crate::specs::TestsOfChanges::is_quiet_place))]
    fn is_quiet_place(&self, place: u32, variable: u32) -> bool
        requires { HoldsQuietPlaces self.now.quiet.now (sections_in self.now.layout.now) }
        ensures { result ≡ is_quiet_place (sections_in self.now.layout.now) place variable }
    {
        self.quiet.binary_search(&pair_key(place, variable)).is_ok()
    }
}
