//! Statements over typed expressions (6.8). Each spot is that of the place that the construct is or has.

ghost use Rattle.std.specs.Prelude.{◌<◌, IfSome};
ghost use Rattle.c_tree.specs.declared.typed_statement.TypedStatement.{size-TypedStatement};

use crate::typed_expression::Rvalue;
use debug_records::Spot;

/// What a declaration writes into its object.
#[derive(Drop)]
pub enum Initial {
    /// No initializer is written: the object is zero.
    Zero,
    /// A value of a scalar's type.
    Scalar(Rvalue),
    /// Values of the element type, for the first elements in order. The others are zero.
    Elements(Vec<Rvalue>),
    /// The bytes of a string literal, by its number among those that initialise automatic arrays, as many as there is
    /// room for. The other elements are zero.
    Literal(u32),
}

/// A declarator of an automatic object.
#[derive(Drop)]
pub struct Declared {
    /// The object's number among the automatic ones.
    pub variable: u32,
    /// Where its name stands.
    pub spot: Spot,
    pub initial: Initial,
}

/// The first part of a `for`.
#[derive(Drop)]
pub enum TypedStart {
    Nothing,
    Expression { spot: Spot, value: Rvalue },
    Declaration(Vec<Declared>),
}

/// The third part of a `for`.
#[derive(Drop)]
pub struct TypedStep {
    pub spot: Spot,
    pub value: Rvalue,
}

/// A statement, or a declaration in a block.
#[cycle(typed_statement)]
pub enum TypedStatement {
    Block(Box<TypedStatements>),
    Declaration(Vec<Declared>),
    Empty(Spot),
    Expression {
        spot: Spot,
        value: Rvalue,
    },
    /// The spot is the condition's.
    If {
        spot: Spot,
        condition: Rvalue,
        then: Box<TypedStatement>,
    },
    IfElse {
        spot: Spot,
        condition: Rvalue,
        then: Box<TypedStatement>,
        otherwise: Box<TypedStatement>,
    },
    While {
        spot: Spot,
        condition: Rvalue,
        body: Box<TypedStatement>,
    },
    DoWhile {
        body: Box<TypedStatement>,
        spot: Spot,
        condition: Rvalue,
    },
    /// The spot is the condition's, or that of the `for` where there is no condition.
    For {
        start: TypedStart,
        spot: Spot,
        condition: Option<Rvalue>,
        step: Option<TypedStep>,
        body: Box<TypedStatement>,
    },
    /// The value is of its promoted type.
    Switch {
        spot: Spot,
        value: Rvalue,
        body: Box<TypedStatements>,
    },
    Break(Spot),
    Continue(Spot),
    /// The value is of the function's result type.
    Return {
        spot: Spot,
        value: Option<Rvalue>,
    },
}

/// The statements of a block, and in the block of a `switch` the labels between them.
#[cycle(typed_statement)]
pub enum TypedStatements {
    End,
    More(Box<TypedStatement>, Box<TypedStatements>),
    /// `case`, with its value in the promoted type of the `switch`.
    Case(i64, Box<TypedStatements>),
    Default(Box<TypedStatements>),
}

impl TypedStatement {
    /// The statement that nests deepest, once the other parts are dropped.
    #[cycle(typed_statement)]
    fn into_last(self) -> Option<Box<TypedStatement>>
        ensures { IfSome result (λ last. size-TypedStatement last.value < size-TypedStatement self) }
    {
        match self {
            TypedStatement::Empty(_) | TypedStatement::Break(_) | TypedStatement::Continue(_) => {
                None
            }
            TypedStatement::Block(body) => {
                drop(body);
                None
            }
            TypedStatement::Declaration(declared) => {
                drop(declared);
                None
            }
            TypedStatement::Expression { spot: _, value } => {
                drop(value);
                None
            }
            TypedStatement::Return { spot: _, value } => {
                drop(value);
                None
            }
            TypedStatement::Switch {
                spot: _,
                value,
                body,
            } => {
                drop(value);
                drop(body);
                None
            }
            TypedStatement::If {
                spot: _,
                condition,
                then: body,
            }
            | TypedStatement::While {
                spot: _,
                condition,
                body,
            }
            | TypedStatement::DoWhile {
                body,
                spot: _,
                condition,
            } => {
                drop(condition);
                Some(body)
            }
            TypedStatement::IfElse {
                spot: _,
                condition,
                then,
                otherwise,
            } => {
                drop(condition);
                drop(then);
                Some(otherwise)
            }
            TypedStatement::For {
                start,
                spot: _,
                condition,
                step,
                body,
            } => {
                drop(start);
                drop(condition);
                drop(step);
                Some(body)
            }
        }
    }
}

impl Drop for TypedStatement {
    // A loop, since `else if` nests deeper than the stack is.
    #[cycle(typed_statement)]
    fn drop(mut self) {
        loop {
            match self.into_last() {
                None => return,
                Some(last) => self = Box::into_inner(last),
            }
        }
    }
}

impl Drop for TypedStatements {
    // A loop, since a list may be longer than the stack is deep.
    #[cycle(typed_statement)]
    fn drop(mut self) {
        loop {
            match self {
                TypedStatements::End => return,
                TypedStatements::More(first, rest) => {
                    drop(first);
                    self = Box::into_inner(rest);
                }
                TypedStatements::Case(_, rest) | TypedStatements::Default(rest) => {
                    self = Box::into_inner(rest);
                }
            }
        }
    }
}
