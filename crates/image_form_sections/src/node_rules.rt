//! The rule of the nodes of recipes.

ghost use Rattle.std.specs.Prelude.{◌≡◌, IfOk, ⊤};
ghost use Rattle.image_form_sections.specs.Layouts.{HoldsFirstNodes, rows_in, sections_in};
ghost use Rattle.image_form_sections.specs.Sections.{cell};
ghost use Rattle.image_form_sections.specs.TestsOfNodes.{has_home, is_home_number, is_left, is_new_node, is_operand, is_right, is_shallow, node_tests};

use crate::layout::Layout;
use crate::rule::Rule;
use crate::table::Table;
use std::alloc::{AllocError, Global};
use std::collections::BTreeMap;

/// The first node with each operation and operands.
pub fn first_nodes(
    alloc: Global,
    layout: &Layout<'_>,
) -> Result<BTreeMap<(u32, u32, u32), usize>, AllocError>
    ensures { IfOk result (λ firsts. HoldsFirstNodes firsts (rows_in layout.now.nodes)) }
{
    let mut nodes = BTreeMap::new(alloc);
    for node in 0..layout.nodes.len() {
        let key = node_key(&layout.nodes, node);
        if !nodes.contains_key(&key) {
            nodes.insert(key, node)?;
        }
    }
    Ok(nodes)
}

/// The numbers of a node.
fn node_key(nodes: &Table<'_>, node: usize) -> (u32, u32, u32)
    ensures { let rows = rows_in nodes.now in result ≡ (cell rows node 0, cell rows node 1, cell rows node 2) }
{
    (
        nodes.number(node, 0),
        nodes.number(node, 1),
        nodes.number(node, 2),
    )
}

/// The rule of nodes, which knows the first of equal nodes.
#[derive(Clone, Copy)]
pub struct NodeRule<'a, 'b> {
    pub layout: &'a Layout<'b>,
    pub firsts: &'a BTreeMap<(u32, u32, u32), usize>,
}

impl Rule for NodeRule<'_, '_> {
    ghost tests = { λ rule. node_tests (sections_in rule.layout.now) };

    ghost ready = { λ rule. HoldsFirstNodes rule.firsts.now (rows_in rule.layout.now.nodes) };

    fn fault(&self, row: usize) -> Option<usize> {
        if self.layout.nodes.number(row, 0) > 21 {
            Some(0)
        } else if !is_left(self.layout, row) {
            Some(1)
        } else if !is_right(self.layout, row) || !self.is_new_node(row) {
            Some(2)
        } else {
            None
        }
    }
}

impl NodeRule<'_, '_> {
    #[tactic(auto, unfolding(crate::specs::TestsOfNodes::is_new_node))]
    fn is_new_node(&self, row: usize) -> bool
        requires { HoldsFirstNodes self.now.firsts.now (rows_in self.now.layout.now.nodes) }
        ensures { result ≡ is_new_node (sections_in self.now.layout.now) row }
    {
        match self.firsts.get(&node_key(&self.layout.nodes, row)) {
            Some(first) => *first == row,
            None => false,
        }
    }
}

#[tactic(auto, unfolding(crate::specs::TestsOfNodes::has_home))]
fn has_home(layout: &Layout<'_>, variable: u32) -> bool
    ensures { result ≡ has_home (sections_in layout.now) variable }
{
    let storage = layout.variables.number(variable as usize, 4);
    (variable as usize) < layout.variables.len() && 2 <= storage && storage <= 3
}

#[tactic(auto, unfolding(crate::specs::TestsOfNodes::is_home_number))]
fn is_home_number(home: u32) -> bool
    ensures { result ≡ is_home_number home }
{
    home < 32 || ((home - 32) % 4 == 0 && home - 32 < 16384)
}

#[tactic(auto, unfolding(crate::specs::TestsOfNodes::is_left))]
fn is_left(layout: &Layout<'_>, row: usize) -> bool
    ensures { result ≡ is_left (sections_in layout.now) row }
{
    let operation = layout.nodes.number(row, 0);
    let number = layout.nodes.number(row, 1);
    if operation == 0 {
        true
    } else if operation == 1 {
        has_home(layout, number)
    } else if operation == 2 {
        is_home_number(number)
    } else {
        is_operand(layout, row, number)
    }
}

#[tactic(auto, unfolding(crate::specs::TestsOfNodes::is_right))]
fn is_right(layout: &Layout<'_>, row: usize) -> bool
    ensures { result ≡ is_right (sections_in layout.now) row }
{
    let operation = layout.nodes.number(row, 0);
    let number = layout.nodes.number(row, 2);
    if 3 <= operation && operation <= 17 {
        is_operand(layout, row, number)
    } else {
        number == 0
    }
}

#[tactic(auto, unfolding(crate::specs::TestsOfNodes::is_operand))]
fn is_operand(layout: &Layout<'_>, row: usize, node: u32) -> bool
    ensures { result ≡ is_operand (sections_in layout.now) row node }
{
    (node as usize) < row && is_shallow(&layout.nodes, 3, node)
}

/// Whether a node is the root of a recipe of at most so many levels.
fn is_shallow(nodes: &Table<'_>, depth: u32, node: u32) -> bool
    ensures { result ≡ is_shallow (rows_in nodes.now) depth node }
{
    if depth == 0 {
        return false;
    }
    let operation = nodes.number(node as usize, 0);
    if operation < 3 {
        return true;
    }
    let left = nodes.number(node as usize, 1);
    let right = nodes.number(node as usize, 2);
    is_shallow(nodes, depth - 1, left) && (operation >= 18 || is_shallow(nodes, depth - 1, right))
}
