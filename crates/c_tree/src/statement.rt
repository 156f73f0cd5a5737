//! Statements (ISO/IEC 9899:2011, 6.8).

use crate::declaration::Declaration;
use crate::expression::Expression;
use crate::extent::Extent;
use debug_records::Spot;

/// A statement, or a declaration in a block.
///
/// What nesting does not bound stands in lists: the statements of a block, `else if`, and labels.
#[cycle(statement)]
#[derive(Drop)]
pub enum Statement {
    /// Statements in braces.
    Block(Block),
    /// A declaration in a block.
    Declaration(Declaration),
    /// `;`
    Empty(Spot),
    /// An expression, and the offset of its semicolon.
    Expression {
        value: Expression,
        last: u32,
    },
    /// `if`, each `else if` behind it, and the last `else`.
    If {
        first: Box<Branch>,
        others: Vec<Branch>,
        otherwise: Option<Box<Statement>>,
    },
    /// `while (condition) body`
    While {
        spot: Spot,
        condition: Expression,
        body: Box<Statement>,
    },
    /// `do body while (condition);`
    DoWhile {
        extent: Extent,
        body: Box<Statement>,
        condition: Expression,
    },
    /// `for (start; condition; step) body`
    For {
        spot: Spot,
        start: ForStart,
        condition: Option<Expression>,
        step: Option<Expression>,
        body: Box<Statement>,
    },
    /// `switch (value) { .. }`
    Switch {
        spot: Spot,
        value: Expression,
        body: Block,
    },
    /// A statement behind one or more labels.
    Labeled {
        labels: Vec<Label>,
        statement: Box<Statement>,
    },
    /// `break;`
    Break(Extent),
    /// `continue;`
    Continue(Extent),
    /// `return;` or `return value;`
    Return {
        extent: Extent,
        value: Option<Expression>,
    },
}

/// Statements in braces, and where the braces stand.
#[cycle(statement)]
#[derive(Drop)]
pub struct Block {
    pub opening: Spot,
    pub statements: Vec<Statement>,
    pub closing: Spot,
}

/// `if (condition) then`, and where its `if` stands.
#[cycle(statement)]
#[derive(Drop)]
pub struct Branch {
    pub spot: Spot,
    pub condition: Expression,
    pub then: Statement,
}

/// The first part of a `for`.
#[derive(Drop)]
pub enum ForStart {
    Nothing,
    Expression(Expression),
    Declaration(Declaration),
}

/// A label of a `switch`, which ends with its colon.
#[derive(Drop)]
pub enum Label {
    /// `case value:`
    Case { extent: Extent, value: Expression },
    /// `default:`
    Default(Extent),
}
