//! Trees of C sources.
//!
//! A tree is what the grammar reads from the tokens, before names and types are looked at. A program is an accepted
//! tree, with every name resolved and every type known.
#![tactic(auto)]

mod declaration;
mod expression;
mod extent;
mod object_type;
mod operator;
mod program;
mod statement;
mod typed_expression;
mod typed_statement;
mod types;

pub use declaration::{
    Brackets, Declaration, Declarator, Function, Header, Initializer, Item, Parameter, Tree,
};
pub use expression::{Core, Expression, Suffix};
pub use extent::{Extent, Identifier};
pub use object_type::{Object, ObjectType, Scalar, ValueType};
pub use operator::{AssignmentOperator, BinaryOperator, PrefixOperator};
pub use program::{
    AutomaticVariable, Program, Relocation, StaticVariable, StringLiteral, TypedFunction, weight,
};
pub use statement::{Block, Branch, ForStart, Label, Statement};
pub use typed_expression::{
    Arguments, Arithmetic, Callee, Comparison, Direction, Given, Lvalue, Rvalue, Sign,
};
pub use typed_statement::{
    Declared, Initial, TypedStart, TypedStatement, TypedStatements, TypedStep,
};
pub use types::{Base, IntegerType, TypeName};
