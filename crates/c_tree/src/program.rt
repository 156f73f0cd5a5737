//! Programs with every name resolved and every type known.

ghost use Rattle.std.specs.Prelude.{◌≡◌};
ghost use Rattle.c_tree.specs.Programs.{program_view};

use crate::object_type::{Object, ObjectType, ValueType};
use crate::typed_statement::TypedStatements;
use debug_records::Spot;

/// A word of a static object that holds the address of an object of static storage or a literal, so many bytes on.
#[derive(Clone, Copy, PartialEq, Eq)]
pub struct Relocation {
    /// Where the word stands in its object, in bytes.
    pub at: u64,
    pub object: Object,
    pub offset: u64,
}

/// A named object of static storage.
#[derive(Drop)]
pub struct StaticVariable {
    pub name: String,
    /// Where its name stands.
    pub spot: Spot,
    /// A scalar or an array.
    pub of: ObjectType,
    /// Its first bytes, little endian, with zeros in the place of addresses. Those behind them are zero.
    pub bytes: Vec<u8>,
    /// The words that hold addresses, in order.
    pub relocations: Vec<Relocation>,
}

/// A named object of automatic storage: a parameter, or what a declaration in a function declares.
#[derive(Drop)]
pub struct AutomaticVariable {
    pub name: String,
    /// Where its name stands.
    pub spot: Spot,
    /// A scalar or an array.
    pub of: ObjectType,
    /// It is an array, its address is taken, or it is written where that may be skipped: within the right operand of
    /// `&&` or `||`, or an arm of `?:`.
    pub in_memory: bool,
}

/// A string literal.
#[derive(Drop)]
pub struct StringLiteral {
    /// Where its first token stands.
    pub spot: Spot,
    /// Its bytes with the final zero.
    pub bytes: Vec<u8>,
}

/// A function's definition.
#[derive(Drop)]
pub struct TypedFunction {
    pub name: String,
    /// Where its name stands.
    pub spot: Spot,
    /// `void` or a scalar type.
    pub result: ValueType,
    /// The number of its first automatic variable. Its parameters come first.
    pub first_variable: u32,
    /// How many parameters it has.
    pub parameters: u32,
    /// How many automatic variables it has, its parameters among them.
    pub variables: u32,
    pub body: TypedStatements,
    /// Where its closing brace stands.
    pub close: Spot,
    /// What it weighs.
    pub weight: u64,
}

/// A program that the compiler accepts.
#[derive(Drop)]
pub struct Program {
    /// In text order.
    pub functions: Vec<TypedFunction>,
    /// The number of `main` among the functions.
    pub main: u32,
    /// By position.
    pub statics: Vec<StaticVariable>,
    /// All functions' automatic variables, by position.
    pub automatics: Vec<AutomaticVariable>,
    /// The string literals that are objects, by position.
    pub literals: Vec<StringLiteral>,
    /// The string literals that initialise automatic arrays, by position. They are no objects.
    pub array_literals: Vec<StringLiteral>,
    /// What the functions and the declarations at file scope weigh in all, or the greatest number where that is more.
    pub weight: u64,
}

/// What a program weighs: the nodes of its source, or the greatest number where they are more.
pub fn weight(program: &Program) -> u64
    ensures { result ≡ (program_view program.now).weight }
{
    program.weight
}
