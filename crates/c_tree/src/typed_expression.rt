//! Expressions with names resolved and every conversion a node of its own (6.3 and 6.5).

ghost use Rattle.std.specs.Prelude.{◌<◌, IfSome};
ghost use Rattle.c_tree.specs.declared.typed_expression.Lvalue.{size-Lvalue};
ghost use Rattle.c_tree.specs.declared.typed_expression.Rvalue.{size-Rvalue};

use crate::object_type::{Object, ObjectType, Scalar};
use crate::types::IntegerType;

/// An operator of integer arithmetic, on two operands of one type, but that each operand of a shift has a type of its
/// own (6.5.5 to 6.5.7, 6.5.10 to 6.5.12).
#[derive(Clone, Copy, PartialEq, Eq)]
pub enum Arithmetic {
    /// `*`
    Multiply,
    /// `/`
    Divide,
    /// `%`
    Remainder,
    /// `+`
    Add,
    /// `-`
    Subtract,
    /// `<<`
    ShiftLeft,
    /// `>>`
    ShiftRight,
    /// `&`
    BitAnd,
    /// `^`
    BitXor,
    /// `|`
    BitOr,
}

/// A comparison, which gives 0 or 1 (6.5.8 and 6.5.9).
#[derive(Clone, Copy, PartialEq, Eq)]
pub enum Comparison {
    /// `<`
    Less,
    /// `>`
    Greater,
    /// `<=`
    LessEqual,
    /// `>=`
    GreaterEqual,
    /// `==`
    Equal,
    /// `!=`
    NotEqual,
}

/// An operator on one integer (6.5.3.3).
#[derive(Clone, Copy, PartialEq, Eq)]
pub enum Sign {
    /// `+`
    Plus,
    /// `-`
    Minus,
    /// `~`
    Complement,
}

/// Up or down: `++` or `--`, and on pointers `+` or `-`.
#[derive(Clone, Copy, PartialEq, Eq)]
pub enum Direction {
    Up,
    Down,
}

/// Which value `++` and `--` give: the new one before an operand, the old one behind it.
#[derive(Clone, Copy, PartialEq, Eq)]
pub enum Given {
    New,
    Old,
}

/// What a call calls.
#[derive(Clone, Copy, PartialEq, Eq)]
pub enum Callee {
    /// A function of the program, by its number from 0 in the text order of the definitions.
    Function(u32),
    /// `int getchar(void)`
    Getchar,
    /// `int putchar(int)`
    Putchar,
    /// `void exit(int)`
    Exit,
}

/// An expression that has a value, or with the type `void` none.
#[cycle(typed_expression)]
pub enum Rvalue {
    /// A whole number of an integer type.
    Constant {
        value: i64,
        integer_type: IntegerType,
    },
    /// The null pointer.
    Null,
    /// What an object of a scalar type holds.
    Load {
        scalar: Scalar,
        from: Box<Lvalue>,
    },
    /// A pointer to the first element of an array.
    Decay(Box<Lvalue>),
    /// `&a`
    AddressOf(Box<Lvalue>),
    /// An integer converted to an integer type (6.3.1.3).
    Convert {
        to: IntegerType,
        operand: Box<Rvalue>,
    },
    /// The value of a cast to `void`, which has none.
    Discard(Box<Rvalue>),
    /// `+a`, `-a`, `~a`, where the operand is of the promoted type.
    Signed {
        sign: Sign,
        integer_type: IntegerType,
        operand: Box<Rvalue>,
    },
    /// `!a`
    Not(Box<Rvalue>),
    /// Integer arithmetic in a type: that of both operands, of a shift that of the left one.
    Arithmetic {
        operator: Arithmetic,
        integer_type: IntegerType,
        left: Box<Rvalue>,
        right: Box<Rvalue>,
    },
    /// A comparison of two integers of a type.
    Compare {
        operator: Comparison,
        integer_type: IntegerType,
        left: Box<Rvalue>,
        right: Box<Rvalue>,
    },
    /// A comparison of two pointers.
    ComparePointers {
        operator: Comparison,
        left: Box<Rvalue>,
        right: Box<Rvalue>,
    },
    /// A pointer to elements of a type, moved by so many elements.
    Move {
        direction: Direction,
        element: ObjectType,
        pointer: Box<Rvalue>,
        by: Box<Rvalue>,
    },
    /// The same, where the number stands before the pointer, and comes first.
    MoveFrom {
        by: Box<Rvalue>,
        element: ObjectType,
        pointer: Box<Rvalue>,
    },
    /// How many elements of a type lie between two pointers.
    Difference {
        element: ObjectType,
        left: Box<Rvalue>,
        right: Box<Rvalue>,
    },
    /// `a&&b`
    And(Box<Rvalue>, Box<Rvalue>),
    /// `a||b`
    Or(Box<Rvalue>, Box<Rvalue>),
    /// `a?b:c`, where both arms are of one type.
    Conditional {
        condition: Box<Rvalue>,
        then: Box<Rvalue>,
        otherwise: Box<Rvalue>,
    },
    /// `a,b`
    Comma(Box<Rvalue>, Box<Rvalue>),
    /// `a=b`, where the value is of the target's type. The object is found first.
    Assign {
        scalar: Scalar,
        target: Box<Lvalue>,
        value: Box<Rvalue>,
    },
    /// `a+=b` on integers: the object is found and read, then the right side comes, then the arithmetic in its type,
    /// and the result is converted to the target's type.
    Update {
        operator: Arithmetic,
        target_type: IntegerType,
        integer_type: IntegerType,
        target: Box<Lvalue>,
        value: Box<Rvalue>,
    },
    /// `p+=b` and `p-=b`, where p points to elements of a type.
    UpdatePointer {
        direction: Direction,
        element: ObjectType,
        target: Box<Lvalue>,
        by: Box<Rvalue>,
    },
    /// `++` and `--` on an integer: 1 is added or subtracted in the promoted type.
    Step {
        direction: Direction,
        given: Given,
        target_type: IntegerType,
        integer_type: IntegerType,
        target: Box<Lvalue>,
    },
    /// `++` and `--` on a pointer to elements of a type.
    StepPointer {
        direction: Direction,
        given: Given,
        element: ObjectType,
        target: Box<Lvalue>,
    },
    /// A call, where each argument is of its parameter's type.
    Call {
        callee: Callee,
        arguments: Box<Arguments>,
    },
}

/// An expression that designates an object (6.3.2.1).
#[cycle(typed_expression)]
pub enum Lvalue {
    /// An object itself.
    Named {
        object: Object,
        of: ObjectType,
    },
    /// `*p`
    Target {
        of: ObjectType,
        pointer: Box<Rvalue>,
    },
    /// `p[i]`
    Element {
        of: ObjectType,
        pointer: Box<Rvalue>,
        index: Box<Rvalue>,
    },
    /// `i[p]`: the index comes first.
    ElementFrom {
        of: ObjectType,
        index: Box<Rvalue>,
        pointer: Box<Rvalue>,
    },
}

/// The arguments of a call.
#[cycle(typed_expression)]
pub enum Arguments {
    End,
    More(Box<Rvalue>, Box<Arguments>),
}

impl Lvalue {
    /// What is left to drop, once an index is dropped.
    #[cycle(typed_expression)]
    fn into_pointer(self) -> Option<Box<Rvalue>>
        ensures { IfSome result (λ pointer. size-Rvalue pointer.value < size-Lvalue self) }
    {
        match self {
            Lvalue::Named { object: _, of: _ } => None,
            Lvalue::Target { of: _, pointer } => Some(pointer),
            Lvalue::Element {
                of: _,
                pointer,
                index,
            }
            | Lvalue::ElementFrom {
                of: _,
                index,
                pointer,
            } => {
                drop(index);
                Some(pointer)
            }
        }
    }
}

impl Rvalue {
    /// The operand that nests deepest, once the others are dropped.
    #[cycle(typed_expression)]
    fn into_first(self) -> Option<Box<Rvalue>>
        ensures { IfSome result (λ first. size-Rvalue first.value < size-Rvalue self) }
    {
        match self {
            Rvalue::Constant {
                value: _,
                integer_type: _,
            }
            | Rvalue::Null => None,
            Rvalue::Load {
                scalar: _,
                from: place,
            }
            | Rvalue::Decay(place)
            | Rvalue::AddressOf(place)
            | Rvalue::Step {
                direction: _,
                given: _,
                target_type: _,
                integer_type: _,
                target: place,
            }
            | Rvalue::StepPointer {
                direction: _,
                given: _,
                element: _,
                target: place,
            } => Box::into_inner(place).into_pointer(),
            Rvalue::Convert { to: _, operand }
            | Rvalue::Discard(operand)
            | Rvalue::Signed {
                sign: _,
                integer_type: _,
                operand,
            }
            | Rvalue::Not(operand) => Some(operand),
            Rvalue::Arithmetic {
                operator: _,
                integer_type: _,
                left,
                right,
            }
            | Rvalue::Compare {
                operator: _,
                integer_type: _,
                left,
                right,
            }
            | Rvalue::ComparePointers {
                operator: _,
                left,
                right,
            }
            | Rvalue::Move {
                direction: _,
                element: _,
                pointer: left,
                by: right,
            }
            | Rvalue::MoveFrom {
                by: left,
                element: _,
                pointer: right,
            }
            | Rvalue::Difference {
                element: _,
                left,
                right,
            }
            | Rvalue::And(left, right)
            | Rvalue::Or(left, right)
            | Rvalue::Comma(left, right) => {
                drop(right);
                Some(left)
            }
            Rvalue::Conditional {
                condition,
                then,
                otherwise,
            } => {
                drop(then);
                drop(otherwise);
                Some(condition)
            }
            Rvalue::Assign {
                scalar: _,
                target,
                value,
            }
            | Rvalue::Update {
                operator: _,
                target_type: _,
                integer_type: _,
                target,
                value,
            }
            | Rvalue::UpdatePointer {
                direction: _,
                element: _,
                target,
                by: value,
            } => {
                drop(value);
                Box::into_inner(target).into_pointer()
            }
            Rvalue::Call {
                callee: _,
                arguments,
            } => {
                drop(arguments);
                None
            }
        }
    }
}

impl Drop for Rvalue {
    // A loop, since operators and suffixes nest to the left deeper than the stack is.
    #[cycle(typed_expression)]
    fn drop(mut self) {
        loop {
            match self.into_first() {
                None => return,
                Some(first) => self = Box::into_inner(first),
            }
        }
    }
}

impl Drop for Lvalue {
    fn drop(self) {
        match self.into_pointer() {
            None => {}
            Some(pointer) => drop(pointer),
        }
    }
}

impl Drop for Arguments {
    // A loop, since a list may be longer than the stack is deep.
    #[cycle(typed_expression)]
    fn drop(mut self) {
        loop {
            match self {
                Arguments::End => return,
                Arguments::More(first, rest) => {
                    drop(first);
                    self = Box::into_inner(rest);
                }
            }
        }
    }
}
