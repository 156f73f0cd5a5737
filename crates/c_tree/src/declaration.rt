//! Declarations, functions and files (ISO/IEC 9899:2011, 6.7 and 6.9).

use crate::expression::Expression;
use crate::extent::{Extent, Identifier};
use crate::statement::Block;
use crate::types::{Base, IntegerType};
use debug_records::Spot;

/// A declaration of objects, from its first specifier to its semicolon. `static` is no part of the tree.
#[derive(Drop)]
pub struct Declaration {
    pub extent: Extent,
    pub integer_type: IntegerType,
    /// One or more.
    pub declarators: Vec<Declarator>,
}

/// A declarator of an object with its initializer: the extent reaches from its first `*`, or its name, to its last
/// token.
#[derive(Drop)]
pub struct Declarator {
    pub extent: Extent,
    pub stars: usize,
    pub identifier: Identifier,
    pub brackets: Brackets,
    pub initializer: Option<Initializer>,
}

/// What stands behind the name of a declarator.
#[derive(Drop)]
pub enum Brackets {
    /// No brackets.
    Absent,
    /// `[]`
    Empty,
    /// `[size]`
    Sized(Expression),
}

/// What an object holds at first (6.7.9).
#[cycle(initializer)]
#[derive(Drop)]
pub enum Initializer {
    Expression(Expression),
    /// One or more initializers in braces.
    List(Vec<Initializer>),
}

/// A parameter. Its declarator's extent reaches from the token behind the specifiers to its last token, or is that
/// first token's where the declarator has neither a name nor brackets.
#[derive(Drop)]
pub struct Parameter {
    pub extent: Extent,
    pub integer_type: IntegerType,
    pub stars: usize,
    /// Absent only in a function that has no body.
    pub identifier: Option<Identifier>,
    pub brackets: Brackets,
}

/// A function's declaration, or with a body its definition. The extent is its declarator's, from its first `*`, or its
/// name, to the parenthesis behind the parameters.
#[derive(Drop)]
pub struct Function {
    pub extent: Extent,
    pub base: Base,
    pub stars: usize,
    pub identifier: Identifier,
    pub parameters: Vec<Parameter>,
    pub body: Option<Block>,
}

/// A header that a source may include.
#[derive(Clone, Copy, PartialEq, Eq)]
pub enum Header {
    /// `<stdio.h>`
    Stdio,
    /// `<stdlib.h>`
    Stdlib,
}

/// What stands at file scope.
#[derive(Drop)]
pub enum Item {
    /// A line that includes a header.
    Include { spot: Spot, header: Header },
    Declaration(Declaration),
    Function(Function),
}

/// The tree of a source.
#[derive(Drop)]
pub struct Tree {
    pub items: Vec<Item>,
}
