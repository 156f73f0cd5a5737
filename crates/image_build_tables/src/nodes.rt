//! The table of recipe nodes.

ghost use Rattle.std.specs.Prelude.{◌≡◌, ◌+◌, ◌<◌, ◌≤◌, ◌^◌, ℕ, [], None, Some, IfOk, IfSome, IsTrue, OnOk, length, slice_get};
ghost use Rattle.std.specs.List.{AllByRecursion};
ghost use Rattle.image_form.specs.Numbers.{operation_number, truncation_number};
ghost use Rattle.image_form.specs.RulesOfNodes.{operands};
ghost use Rattle.graph_core.specs.Graphs.{operand_view, recipe_view};
ghost use Rattle.image_build_tables.specs.Nodes.{AreEarlier, AreNewOf, AreOnce, Begin, IsNodeOf, TellsNumbers, home_node, key, name_node, naming_view, operand_node, size_of};

use crate::{entry, number_of};
use graph_core::{Graph, Operand, Recipe};
use graph_homes::Home;
use image_form::Node;
use rv_emit_tables::EmittedFunction;
use std::alloc::{AllocError, Global};
use std::collections::BTreeMap;
use word_base::{Operation, Truncation};

/// A function, in whose names recipes are.
#[derive(Clone, Copy)]
pub struct Naming<'a> {
    pub graph: &'a Graph,
    pub homes: &'a [Home],
    pub code: &'a EmittedFunction,
    /// The addresses of static objects.
    pub statics: &'a [u32],
}

/// The nodes of recipes, each once, its operands first.
#[derive(Drop)]
pub struct Nodes {
    pub nodes: Vec<Node>,
    /// For each node, by what it is and its operands, its number.
    numbers: BTreeMap<(u32, u32, u32), u32>,
    ghost told: { TellsNumbers numbers nodes.items },
}

/// The number of an operation among kinds of nodes.
fn operation_kind(operation: Operation) -> u32
    ensures { result ≡ operation_number operation }
{
    match operation {
        Operation::Add => 3,
        Operation::Sub => 4,
        Operation::Mul => 5,
        Operation::Div => 6,
        Operation::Divu => 7,
        Operation::Rem => 8,
        Operation::Remu => 9,
        Operation::Sll => 10,
        Operation::Srl => 11,
        Operation::Sra => 12,
        Operation::And => 13,
        Operation::Or => 14,
        Operation::Xor => 15,
        Operation::Slt => 16,
        Operation::Sltu => 17,
    }
}

/// The number of a truncation among kinds of nodes.
fn truncation_kind(truncation: Truncation) -> u32
    ensures { result ≡ truncation_number truncation }
{
    match truncation {
        Truncation::Unsigned8 => 18,
        Truncation::Signed16 => 19,
        Truncation::Unsigned16 => 20,
        Truncation::Signed8 => 21,
    }
}

/// What a node is and its operands, each other for two nodes that differ.
fn key_of(node: Node) -> (u32, u32, u32)
    ensures { result ≡ key node }
{
    match node {
        Node::Constant(word) => (0, word, 0),
        Node::Variable(variable) => (1, variable, 0),
        Node::Home(home) => (2, home, 0),
        Node::Truncated {
            truncation,
            operand,
        } => (truncation_kind(truncation), operand, 0),
        Node::Operated {
            operation,
            left,
            right,
        } => (operation_kind(operation), left, right),
    }
}

/// Whether two nodes are one.
fn is_same(one: Node, other: Node) -> bool
    ensures tells { IsTrue result → one ≡ other }
    ensures knows { one ≡ other → IsTrue result }
{
    match (one, other) {
        (Node::Constant(word), Node::Constant(another)) => word == another,
        (Node::Variable(variable), Node::Variable(another)) => variable == another,
        (Node::Home(home), Node::Home(another)) => home == another,
        (
            Node::Truncated {
                truncation,
                operand,
            },
            Node::Truncated {
                truncation: another,
                operand: of,
            },
        ) => truncation == another && operand == of,
        (
            Node::Operated {
                operation,
                left,
                right,
            },
            Node::Operated {
                operation: another,
                left: first,
                right: second,
            },
        ) => operation == another && left == first && right == second,
        _ => false,
    }
}

/// The node of a home, in a function whose slots begin at this offset in its frame.
fn home_node(home: Home, slots: u32) -> Node
    ensures { result ≡ home_node slots home }
{
    match home {
        Home::Register(register) => Node::Home(u32::from(register)),
        Home::Slot(slot) => {
            let offset = slots.saturating_add(slot.saturating_mul(4));
            Node::Home(offset.saturating_add(32))
        }
    }
}

impl Naming<'_> {
    /// The node of a name's value: of a variable, or else of its home.
    fn name_node(&self, name: u32) -> Node
        ensures { result ≡ name_node (naming_view self.now) name }
    {
        if let Some(scalar) = self.graph.scalars.get(name as usize) {
            return Node::Variable(scalar.var.0);
        }
        match self.homes.get(name as usize) {
            Some(home) => home_node(*home, self.code.slots),
            None => Node::Home(0),
        }
    }

    /// The node of an operand's value.
    fn operand_node(&self, operand: Operand) -> Node
        ensures { result ≡ operand_node (naming_view self.now) (operand_view operand) }
    {
        match operand {
            Operand::Name(name) => self.name_node(name.0),
            Operand::Constant(word) => Node::Constant(word),
            Operand::StaticAddress { object, offset } => {
                Node::Constant(entry(self.statics, object as usize).wrapping_add(offset))
            }
        }
    }
}

impl Nodes {
    /// There are none.
    pub fn new(alloc: Global) -> Nodes
        ensures { result.nodes.items ≡ [] }
    {
        Nodes {
            nodes: Vec::new(alloc),
            numbers: BTreeMap::new(alloc),
        }
    }

    /// The number of a node that is there.
    fn find(&self, node: Node) -> Option<u32>
        ensures there { IfSome result (λ number. slice_get self.now.nodes.items number ≡ Some node) }
        ensures none { result ≡ None → length self.now.nodes.items < 2 ^ 32 → (k : ℕ)
            → slice_get self.now.nodes.items k ≡ Some node → ⊥ }
    {
        let number = *self.numbers.get(&key_of(node))?;
        let found = self.nodes.get(number as usize)?;
        if is_same(*found, node) {
            Some(number)
        } else {
            None
        }
    }

    /// The number of a node, which is added where it is not there yet. There are to be fewer than 2^32.
    fn add(&mut self, node: Node) -> Result<u32, AllocError>
        ensures grown { OnOk result (Begin self.old.nodes.items self.new.nodes.items) }
        ensures fresh { OnOk result
            ((k : ℕ) → length self.old.nodes.items ≤ k → k < length self.new.nodes.items
            → slice_get self.new.nodes.items k ≡ Some node) }
        ensures node { length self.new.nodes.items < 2 ^ 32
            → IfOk result (λ number. slice_get self.new.nodes.items number ≡ Some node) }
        ensures once { length self.new.nodes.items < 2 ^ 32 → OnOk result
            (AreOnce self.old.nodes.items → AreOnce self.new.nodes.items) }
        ensures earlier { AllByRecursion (λ k. k < length self.old.nodes.items) (operands node)
            → OnOk result (AreEarlier self.old.nodes.items → AreEarlier self.new.nodes.items) }
        ensures few { OnOk result (length self.new.nodes.items ≤ length self.old.nodes.items + 1) }
    {
        if let Some(number) = self.find(node) {
            return Ok(number);
        }
        let number = number_of(self.nodes.len());
        self.numbers.insert(key_of(node), number)?;
        self.nodes.push(node)?;
        Ok(number)
    }

    /// The number of a recipe's node. What is not there yet is added, operands first, the left before the right. There
    /// are to be fewer than 2^32 nodes.
    pub fn add_recipe(&mut self, naming: Naming<'_>, recipe: &Recipe) -> Result<u32, AllocError>
        ensures grown { OnOk result (Begin self.old.nodes.items self.new.nodes.items) }
        ensures fresh { length self.new.nodes.items < 2 ^ 32
            → OnOk result
            (AreNewOf self.old.nodes.items self.new.nodes.items (naming_view naming.entry) (recipe_view recipe.now)) }
        ensures node { length self.new.nodes.items < 2 ^ 32
            → IfOk result (λ number.
            IsNodeOf self.new.nodes.items (naming_view naming.entry) (recipe_view recipe.now) number) }
        ensures once { length self.new.nodes.items < 2 ^ 32 → OnOk result
            (AreOnce self.old.nodes.items → AreOnce self.new.nodes.items) }
        ensures earlier { length self.new.nodes.items < 2 ^ 32 → OnOk result
            (AreEarlier self.old.nodes.items → AreEarlier self.new.nodes.items) }
        ensures few { OnOk result
            (length self.new.nodes.items ≤ length self.old.nodes.items + size_of (recipe_view recipe.now)) }
    {
        match recipe {
            Recipe::Operand(operand) => self.add(naming.operand_node(*operand)),
            Recipe::Truncated(truncation, of) => {
                let operand = self.add_recipe(naming, of)?;
                self.add(Node::Truncated {
                    truncation: *truncation,
                    operand,
                })
            }
            Recipe::Operated(operation, left, right) => {
                let left = self.add_recipe(naming, left)?;
                let right = self.add_recipe(naming, right)?;
                self.add(Node::Operated {
                    operation: *operation,
                    left,
                    right,
                })
            }
        }
    }
}
