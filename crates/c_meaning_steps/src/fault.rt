//! Why C does not define what comes next: the causes, each with its clause of ISO/IEC 9899:2011.

use c_meaning_values::{Object, Owner, Phase, Value, convert, is_usable};
use c_tree::{Arithmetic, IntegerType};

/// How many bits the types have in which operators work.
const WIDTH: i64 = 32;

/// Why C does not define what comes next.
#[derive(Clone, Copy, PartialEq, Eq)]
pub enum Fault {
    /// A number was divided by 0 (6.5.5p5).
    DivisionByZero,
    /// A result is no number of its type (6.5p5).
    ResultTooGreat,
    /// A shift's count is negative, or not below the width (6.5.7p3).
    ShiftCount,
    /// A negative number was shifted left (6.5.7p4).
    NegativeShifted,
    /// A number was shifted left beyond its type (6.5.7p4).
    ShiftTooGreat,
    /// A variable was read in its own initializer before anything was stored in it (6.2.4p6, 6.3.2.1p2).
    NoValueYet,
    /// The null pointer was used to reach an object (6.5.3.2p4).
    NullPointer,
    /// A pointer behind the last element was used to reach one (6.5.6p8).
    PastTheEnd,
    /// A pointer to an object was used whose lifetime had ended (6.2.4p2).
    LifetimeOver,
    /// A pointer was moved to where its object is not, nor directly behind it (6.5.6p8).
    MovedOut,
    /// The null pointer was moved (6.5.6p8).
    NullMoved,
    /// Pointers were subtracted that do not both point into one object (6.5.6p9).
    DifferenceOfTwo,
    /// The difference of two pointers is no number of its type (6.5.6p9).
    DifferenceTooGreat,
    /// Pointers were ordered that do not both point into one object (6.5.8p5).
    OrderOfTwo,
    /// The value of a call was used, and the function gave none (6.9.1p12).
    NoValueGiven,
    /// A string literal was written to (6.4.5p7).
    LiteralWritten,
    /// What no program does that has the types that C asks for.
    Untyped,
}

impl Fault {
    /// What happened, in words.
    pub fn words(self) -> &'static str {
        match self {
            Fault::DivisionByZero => "division by zero",
            Fault::ResultTooGreat => "result that its type can't hold",
            Fault::ShiftCount => "shift by a negative or too large number",
            Fault::NegativeShifted => "left shift of a negative number",
            Fault::ShiftTooGreat => "left shift beyond the type",
            Fault::NoValueYet => "variable read in its own initializer",
            Fault::NullPointer => "null pointer used",
            Fault::PastTheEnd => "pointer past the end of its object used",
            Fault::LifetimeOver => "pointer to an object whose lifetime ended",
            Fault::MovedOut => "pointer moved out of its object",
            Fault::NullMoved => "null pointer moved",
            Fault::DifferenceOfTwo => "difference of pointers not into one object",
            Fault::DifferenceTooGreat => "difference of pointers that its type can't hold",
            Fault::OrderOfTwo => "order of pointers not into one object",
            Fault::NoValueGiven => "value of a function that returned none",
            Fault::LiteralWritten => "write to a string literal",
            Fault::Untyped => "operand of another type",
        }
    }
}

/// Why an operator gives nothing on two operands.
pub fn arithmetic_fault(operator: Arithmetic, left: Value, right: Value) -> Fault {
    let (Value::Number(a), Value::Number(b)) = (left, right) else {
        return Fault::Untyped;
    };
    match operator {
        Arithmetic::Divide | Arithmetic::Remainder if b == 0 => Fault::DivisionByZero,
        Arithmetic::ShiftLeft | Arithmetic::ShiftRight if b < 0 || WIDTH <= b => Fault::ShiftCount,
        Arithmetic::ShiftLeft if a < 0 => Fault::NegativeShifted,
        Arithmetic::ShiftLeft => Fault::ShiftTooGreat,
        _ => Fault::ResultTooGreat,
    }
}

/// Why an update gives nothing of an old value, which is converted first, and the right side.
pub fn update_fault(operator: Arithmetic, of: IntegerType, old: Value, right: Value) -> Fault {
    match convert(of, old) {
        None => Fault::Untyped,
        Some(left) => arithmetic_fault(operator, left, right),
    }
}

/// Why nothing can be read where a pointer points.
pub fn read_fault(memory: &[Object], pointer: Value) -> Fault {
    match pointer {
        Value::Number(_) => Fault::Untyped,
        Value::Null => Fault::NullPointer,
        Value::Pointer { object, .. } => match memory.get(object) {
            None => Fault::Untyped,
            Some(found) => match found.phase {
                Phase::Initialising => Fault::NoValueYet,
                Phase::Live => Fault::PastTheEnd,
                Phase::Ended => Fault::LifetimeOver,
            },
        },
    }
}

/// Why nothing can be written where a pointer points.
pub fn write_fault(memory: &[Object], pointer: Value) -> Fault {
    match pointer {
        Value::Number(_) => Fault::Untyped,
        Value::Null => Fault::NullPointer,
        Value::Pointer { object, .. } => match memory.get(object) {
            None => Fault::Untyped,
            Some(found) => match (found.phase, found.owner) {
                (Phase::Ended, _) => Fault::LifetimeOver,
                (_, Owner::Literal(_)) => Fault::LiteralWritten,
                _ => Fault::PastTheEnd,
            },
        },
    }
}

/// Why a pointer can't be moved.
pub fn move_fault(memory: &[Object], pointer: Value) -> Fault {
    match pointer {
        Value::Number(_) => Fault::Untyped,
        Value::Null => Fault::NullMoved,
        Value::Pointer { .. } => {
            if is_usable(memory, pointer) {
                Fault::MovedOut
            } else {
                Fault::LifetimeOver
            }
        }
    }
}

/// Whether two pointers point into one object.
fn are_into_one(left: Value, right: Value) -> bool {
    match (left, right) {
        (Value::Pointer { object: one, .. }, Value::Pointer { object: other, .. }) => one == other,
        _ => false,
    }
}

/// Why two pointers can't be compared.
pub fn order_fault(memory: &[Object], left: Value, right: Value) -> Fault {
    if is_usable(memory, left) && is_usable(memory, right) {
        Fault::OrderOfTwo
    } else {
        Fault::LifetimeOver
    }
}

/// Why two pointers have no difference.
pub fn difference_fault(memory: &[Object], left: Value, right: Value) -> Fault {
    if !is_usable(memory, left) || !is_usable(memory, right) {
        return Fault::LifetimeOver;
    }
    if are_into_one(left, right) {
        Fault::DifferenceTooGreat
    } else {
        Fault::DifferenceOfTwo
    }
}
