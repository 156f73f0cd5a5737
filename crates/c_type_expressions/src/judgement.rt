//! What each construct of an expression makes of what its parts mean, and which rules it may break.

ghost use Rattle.std.specs.Prelude.{◌≡◌, IfOk, OnOk, Some, length, map};
ghost use Rattle.std.specs.Option.{option_map};
ghost use Rattle.debug_records.specs.declared.code.TheConstants.Code.{OPERAND_TYPES};
ghost use Rattle.c_type_values.specs.Values.{IsValue, as_value, meant_view, value_view};
ghost use Rattle.c_type_values.specs.Operations.{combined, conditional_meaning, binary_operation, sequenced, signed_value};
ghost use Rattle.c_type_values.specs.Pointers.{subscript};
ghost use Rattle.c_type_expressions.specs.Findings.{FoundTree, findings_view, gives, judged, with_one, with_three, with_two};
ghost use Rattle.c_type_expressions.specs.Judgements.{constant_address, assignable, assigning, assignment_by, cast_meaning, cast_from, cast_to, array_count, literal_met, measured, meaning_of_name, constant_of_type, prefixed, size_of, size_value, sized, stepping, updating, writing};

use crate::findings::Findings;
use crate::names::Meaning;
use c_tree::{
    Arithmetic, AssignmentOperator, Base, BinaryOperator, Direction, Given, IntegerType, Lvalue,
    Object, ObjectType, PrefixOperator, Rvalue, Scalar, Sign, TypeName, ValueType,
};
use c_type_rules::{Constancy, converted_constant, object_size, value_size};
use c_type_values::{
    Meant, Value, address, as_value, assigned, combined, conditional, converted, dereferenced,
    discarded, element_of, given, is_modifiable, is_scalar, is_updatable, meant_type, negated,
    node, sequenced, signed_value, stepped, updated,
};
use debug_records::{Code, Spot};
use std::alloc::{AllocError, Global};

/// The value of an expression, if it breaks no rule.
pub fn valued(alloc: Global, meant: Option<Meant>) -> Result<Option<Value>, AllocError>
    ensures { IfOk result (λ v. option_map value_view v ≡ option_map as_value (option_map meant_view meant)) }
{
    match meant {
        None => Ok(None),
        Some(meant) => {
            let value = given!(as_value(alloc, meant));
            Ok(Some(value))
        }
    }
}

/// What a rule makes; where it makes nothing, the construct is at fault.
fn judged(
    found: &mut Findings,
    meant: Option<Meant>,
    code: Code,
    first: Spot,
    last: u32,
) -> Result<Option<Meant>, AllocError>
    ensures { IfOk result (λ m.
        gives (option_map meant_view m) (findings_view found.new) ≡ judged (option_map meant_view meant) code first
        last (findings_view found.old)) }
{
    if meant.is_none() {
        given!(found.fault(code, first, last));
    }
    Ok(meant)
}

/// The same of a value.
fn judged_value(
    found: &mut Findings,
    value: Option<Value>,
    code: Code,
    first: Spot,
    last: u32,
) -> Result<Option<Meant>, AllocError>
    ensures { IfOk result (λ m.
        gives (option_map meant_view m) (findings_view found.new) ≡ judged
        (option_map IsValue (option_map value_view value)) code first last (findings_view found.old)) }
{
    match value {
        Some(value) => Ok(Some(Meant::Value(value))),
        None => {
            given!(found.fault(code, first, last));
            Ok(None)
        }
    }
}

/// A number of an integer type.
pub fn number_of(alloc: Global, of: IntegerType, number: i64) -> Result<Meant, AllocError>
    ensures { IfOk result (λ m. meant_view m ≡ constant_of_type of number) }
{
    let tree = given!(node(
        alloc,
        Rvalue::Constant {
            value: number,
            integer_type: of
        }
    ));
    Ok(Meant::Value(Value {
        of: ValueType::Integer(of),
        tree,
        constant: Constancy::Known(number),
    }))
}

/// The address of an object, where it is a constant.
fn address_of(object: Object) -> Constancy
    ensures { result ≡ constant_address object }
{
    match object {
        Object::Automatic(_) => Constancy::Varies,
        Object::Static(_) | Object::Literal(_) => Constancy::Address(object, 0),
    }
}

/// A name: a variable, or the constant `EOF`. A function's name is left out of the language but in a call.
pub fn named(
    alloc: Global,
    found: &mut Findings,
    meaning: Option<Meaning>,
    spot: Spot,
) -> Result<Option<Meant>, AllocError>
    ensures { IfOk result (λ m.
        gives (option_map meant_view m) (findings_view found.new) ≡ meaning_of_name meaning spot (findings_view found.old)) }
{
    match meaning {
        Some(Meaning::Variable { object, of }) => {
            let tree = given!(node(alloc, Lvalue::Named { object, of }));
            Ok(Some(Meant::Object {
                of,
                tree,
                constant: address_of(object),
            }))
        }
        Some(Meaning::EndOfFile) => {
            let number = given!(number_of(alloc, IntegerType::Int, -1));
            Ok(Some(number))
        }
        Some(Meaning::Function(_)) => {
            given!(found.fault(Code::UNEXPECTED_KEYWORD, spot, spot.at));
            Ok(None)
        }
        None => {
            given!(found.fault(Code::UNDECLARED, spot, spot.at));
            Ok(None)
        }
    }
}

/// A count as a number of 32 bits. More than those take more memory than there is.
pub fn numbered(count: usize) -> Result<u32, AllocError>
    ensures { IfOk result (λ n. n ≡ count) }
{
    if count > 4294967295 {
        return Err(AllocError);
    }
    Ok(count as u32)
}

/// A string literal: an object of its own.
pub fn literal_met(
    alloc: Global,
    found: &mut Findings,
    first: Spot,
    bytes: &[u8],
) -> Result<Option<Meant>, AllocError>
    ensures { IfOk result (λ m.
        gives (option_map meant_view m) (findings_view found.new) ≡ literal_met first bytes.now
        (findings_view found.old)) }
{
    let number = given!(numbered(found.literals.len()));
    let length = given!(numbered(bytes.len()));
    let count = given!(numbered(length as usize + 1));
    given!(found.literal(alloc, first, bytes));
    let of = ObjectType::Array {
        element: Scalar {
            base: IntegerType::Char,
            stars: 0,
        },
        count,
    };
    let object = Object::Literal(number);
    let tree = given!(node(alloc, Lvalue::Named { object, of }));
    Ok(Some(Meant::Object {
        of,
        tree,
        constant: Constancy::Address(object, 0),
    }))
}

/// A fault at what can't be written.
fn writing(found: &mut Findings, is_fine: bool, first: Spot, last: u32) -> Result<(), AllocError>
    ensures { OnOk result (findings_view found.new ≡ writing is_fine first last (findings_view found.old)) }
{
    if !is_fine {
        given!(found.fault(Code::NOT_AN_LVALUE, first, last));
    }
    Ok(())
}

/// `++` and `--`.
pub fn stepping(
    alloc: Global,
    found: &mut Findings,
    direction: Direction,
    given: Given,
    meant: Option<Meant>,
    first: Spot,
    last: u32,
) -> Result<Option<Meant>, AllocError>
    ensures { IfOk result (λ m.
        gives (option_map meant_view m) (findings_view found.new) ≡ with_one (option_map meant_view meant)
        (stepping direction given first last) (findings_view found.old)) }
{
    let Some(meant) = meant else {
        return Ok(None);
    };
    if !is_scalar(meant_type(&meant)) {
        given!(found.fault(Code::OPERAND_TYPES, first, last));
        return Ok(None);
    }
    given!(writing(found, is_modifiable(&meant), first, last));
    let value = given!(stepped(alloc, direction, given, meant));
    Ok(Some(Meant::Value(value)))
}

/// `+`, `-` and `~`.
fn signing(
    alloc: Global,
    found: &mut Findings,
    sign: Sign,
    meant: Meant,
    first: Spot,
    last: u32,
) -> Result<Option<Meant>, AllocError>
    ensures { IfOk result (λ m.
        gives (option_map meant_view m) (findings_view found.new) ≡ judged
        (option_map IsValue (signed_value sign (as_value (meant_view meant)))) OPERAND_TYPES first last
        (findings_view found.old)) }
{
    let value = given!(as_value(alloc, meant));
    let made = given!(signed_value(alloc, sign, value));
    judged_value(found, made, Code::OPERAND_TYPES, first, last)
}

/// The operators before an operand.
pub fn prefixed(
    alloc: Global,
    found: &mut Findings,
    operator: PrefixOperator,
    meant: Option<Meant>,
    first: Spot,
    last: u32,
) -> Result<Option<Meant>, AllocError>
    ensures { IfOk result (λ m.
        gives (option_map meant_view m) (findings_view found.new) ≡ with_one (option_map meant_view meant)
        (prefixed operator first last) (findings_view found.old)) }
{
    let Some(operand) = meant else {
        return Ok(None);
    };
    match operator {
        PrefixOperator::AddressOf => {
            let made = given!(address(alloc, operand));
            judged_value(found, made, Code::NOT_AN_LVALUE, first, last)
        }
        PrefixOperator::Indirection => {
            let value = given!(as_value(alloc, operand));
            let made = given!(dereferenced(alloc, value));
            judged(found, made, Code::OPERAND_TYPES, first, last)
        }
        PrefixOperator::Plus => signing(alloc, found, Sign::Plus, operand, first, last),
        PrefixOperator::Minus => signing(alloc, found, Sign::Minus, operand, first, last),
        PrefixOperator::Complement => signing(alloc, found, Sign::Complement, operand, first, last),
        PrefixOperator::Not => {
            let value = given!(as_value(alloc, operand));
            let made = given!(negated(alloc, value));
            judged_value(found, made, Code::OPERAND_TYPES, first, last)
        }
        PrefixOperator::Increment => stepping(
            alloc,
            found,
            Direction::Up,
            Given::New,
            Some(operand),
            first,
            last,
        ),
        PrefixOperator::Decrement => stepping(
            alloc,
            found,
            Direction::Down,
            Given::New,
            Some(operand),
            first,
            last,
        ),
    }
}

/// A cast to an integer type.
fn cast_from(
    alloc: Global,
    found: &mut Findings,
    to: IntegerType,
    value: Value,
    first: Spot,
    last: u32,
) -> Result<Option<Meant>, AllocError>
    ensures { IfOk result (λ m.
        gives (option_map meant_view m) (findings_view found.new) ≡ cast_from (value_view value).of to first last
        (value_view value) (findings_view found.old)) }
{
    match value.of {
        ValueType::Integer(_) => {
            let tree = given!(node(
                alloc,
                Rvalue::Convert {
                    to,
                    operand: value.tree
                }
            ));
            Ok(Some(Meant::Value(Value {
                of: ValueType::Integer(to),
                tree,
                constant: converted_constant(to, value.constant),
            })))
        }
        ValueType::Pointer(_) => {
            given!(found.fault(Code::UNEXPECTED_KEYWORD, first, last));
            Ok(None)
        }
        ValueType::Void => {
            given!(found.fault(Code::OPERAND_TYPES, first, last));
            Ok(None)
        }
    }
}

/// A cast.
pub fn cast(
    alloc: Global,
    found: &mut Findings,
    to: TypeName,
    value: Option<Value>,
    first: Spot,
    last: u32,
) -> Result<Option<Meant>, AllocError>
    ensures { IfOk result (λ m.
        gives (option_map meant_view m) (findings_view found.new) ≡ cast_meaning to first last (option_map value_view value)
        (findings_view found.old)) }
{
    if to.stars != 0 {
        given!(found.fault(Code::UNEXPECTED_KEYWORD, first, last));
        return Ok(None);
    }
    let Some(value) = value else {
        return Ok(None);
    };
    match to.base {
        Base::Void => {
            let made = given!(discarded(alloc, value));
            Ok(Some(Meant::Value(made)))
        }
        Base::Integer(integer_type) => cast_from(alloc, found, integer_type, value, first, last),
    }
}

/// A size, an `unsigned int`.
pub fn size_value(alloc: Global, size: u128) -> Result<Meant, AllocError>
    ensures { IfOk result (λ m. meant_view m ≡ size_value size) }
{
    number_of(alloc, IntegerType::UnsignedInt, (size % 4294967296) as i64)
}

/// How many bytes `sizeof` gives of what an expression means; none of no value.
fn size_of(meant: &Meant) -> Option<u64>
    ensures { result ≡ size_of (meant_view meant.now) }
{
    match meant {
        Meant::Object { of, .. } => Some(object_size(*of)),
        Meant::Value(value) => {
            if is_scalar(value.of) {
                Some(u64::from(value_size(value.of)))
            } else {
                None
            }
        }
    }
}

/// `sizeof` of an expression.
pub fn measured(
    alloc: Global,
    found: &mut Findings,
    meant: Option<Meant>,
    first: Spot,
    last: u32,
) -> Result<Option<Meant>, AllocError>
    ensures { IfOk result (λ m.
        gives (option_map meant_view m) (findings_view found.new) ≡ with_one (option_map meant_view meant)
        (measured first last) (findings_view found.old)) }
{
    let Some(operand) = meant else {
        return Ok(None);
    };
    match size_of(&operand) {
        Some(size) => {
            let number = given!(size_value(alloc, u128::from(size)));
            Ok(Some(number))
        }
        None => {
            given!(found.fault(Code::OPERAND_TYPES, first, last));
            Ok(None)
        }
    }
}

/// How many elements an array has: a positive integer constant expression.
pub fn count_of(of: ValueType, constant: Constancy) -> Option<u64>
    ensures { result ≡ array_count of constant }
{
    match (of, constant) {
        (ValueType::Integer(_), Constancy::Known(count)) => {
            if 0 < count { Some(count as u64) } else { None }
        }
        _ => None,
    }
}

/// The size of an array type, of so many bytes an element.
pub fn sized(
    alloc: Global,
    found: &mut Findings,
    value: Option<Value>,
    element: u32,
    first: Spot,
    last: u32,
) -> Result<Option<Meant>, AllocError>
    ensures { IfOk result (λ m.
        gives (option_map meant_view m) (findings_view found.new) ≡ with_one (option_map value_view value)
        (sized element first last) (findings_view found.old)) }
{
    let Some(value) = value else {
        return Ok(None);
    };
    match count_of(value.of, value.constant) {
        Some(count) => {
            let size = u128::from(element) * u128::from(count);
            let number = given!(size_value(alloc, size));
            Ok(Some(number))
        }
        None => {
            given!(found.fault(Code::UNEXPECTED_KEYWORD, first, last));
            Ok(None)
        }
    }
}

/// `a[b]`
pub fn indexed(
    alloc: Global,
    found: &mut Findings,
    left: Option<Value>,
    right: Option<Value>,
    first: Spot,
    last: u32,
) -> Result<Option<Meant>, AllocError>
    ensures { IfOk result (λ m.
        gives (option_map meant_view m) (findings_view found.new) ≡ with_two (option_map value_view left)
        (option_map value_view right) (λ v w. judged (subscript v w) OPERAND_TYPES first last)
        (findings_view found.old)) }
{
    match (left, right) {
        (Some(left), Some(right)) => {
            let made = given!(element_of(alloc, left, right));
            judged(found, made, Code::OPERAND_TYPES, first, last)
        }
        _ => Ok(None),
    }
}

/// An operator between two operands.
pub fn operated(
    alloc: Global,
    found: &mut Findings,
    operator: BinaryOperator,
    left: Option<Value>,
    right: Option<Value>,
    left_zero: bool,
    right_zero: bool,
    first: Spot,
    last: u32,
) -> Result<Option<Meant>, AllocError>
    ensures { IfOk result (λ m.
        gives (option_map meant_view m) (findings_view found.new) ≡ with_two (option_map value_view left)
        (option_map value_view right)
        (λ v w. judged (option_map IsValue (combined (binary_operation operator) v w left_zero right_zero))
        OPERAND_TYPES first last)
        (findings_view found.old)) }
{
    match (left, right) {
        (Some(left), Some(right)) => {
            let made = given!(combined(alloc, operator, left, right, left_zero, right_zero));
            judged_value(found, made, Code::OPERAND_TYPES, first, last)
        }
        _ => Ok(None),
    }
}

/// `a,b`
pub fn followed(
    alloc: Global,
    left: Option<Value>,
    right: Option<Value>,
) -> Result<Option<Meant>, AllocError>
    ensures { IfOk result (λ m.
        (s : FoundTree)
        → gives (option_map meant_view m) s ≡ with_two (option_map value_view left) (option_map value_view right)
        (λ v w. gives (Some (IsValue (sequenced v w)))) s) }
{
    match (left, right) {
        (Some(left), Some(right)) => {
            let made = given!(sequenced(alloc, left, right));
            Ok(Some(Meant::Value(made)))
        }
        _ => Ok(None),
    }
}

/// `a?b:c`
pub fn chosen(
    alloc: Global,
    found: &mut Findings,
    condition: Option<Value>,
    then: Option<Value>,
    otherwise: Option<Value>,
    then_zero: bool,
    other_zero: bool,
    first: Spot,
    last: u32,
) -> Result<Option<Meant>, AllocError>
    ensures { IfOk result (λ m.
        gives (option_map meant_view m) (findings_view found.new) ≡ with_three (option_map value_view condition)
        (option_map value_view then) (option_map value_view otherwise)
        (λ v w r. judged (option_map IsValue (conditional_meaning v w r then_zero other_zero)) OPERAND_TYPES first last)
        (findings_view found.old)) }
{
    match (condition, then, otherwise) {
        (Some(condition), Some(then), Some(otherwise)) => {
            let made = given!(conditional(
                alloc, condition, then, otherwise, then_zero, other_zero
            ));
            judged_value(found, made, Code::OPERAND_TYPES, first, last)
        }
        _ => Ok(None),
    }
}

/// The value of a right side of `=` as one of the left side's type; none where it has no such.
fn assignable(
    alloc: Global,
    to: ValueType,
    value: Value,
    is_zero: bool,
) -> Result<Option<Value>, AllocError>
    ensures { IfOk result (λ v. option_map value_view v ≡ assignable to (value_view value) is_zero) }
{
    match to {
        ValueType::Void => Ok(None),
        _ => converted(alloc, value, to, is_zero),
    }
}

/// `a=b`
fn assigning(
    alloc: Global,
    found: &mut Findings,
    meant: Meant,
    value: Option<Value>,
    first: Spot,
    last: u32,
) -> Result<Option<Meant>, AllocError>
    ensures { IfOk result (λ m.
        gives (option_map meant_view m) (findings_view found.new) ≡ assigning (option_map value_view value) first
        last (meant_view meant) (findings_view found.old)) }
{
    if value.is_none() {
        given!(found.fault(Code::OPERAND_TYPES, first, last));
    }
    given!(writing(found, is_modifiable(&meant), first, last));
    let made = given!(assigned(alloc, meant, value));
    Ok(Some(Meant::Value(made)))
}

/// `a+=b` and the like.
fn updating(
    alloc: Global,
    found: &mut Findings,
    operator: Arithmetic,
    meant: Meant,
    value: Value,
    first: Spot,
    last: u32,
) -> Result<Option<Meant>, AllocError>
    ensures { IfOk result (λ m.
        gives (option_map meant_view m) (findings_view found.new) ≡ updating operator first last (meant_view meant)
        (value_view value) (findings_view found.old)) }
{
    if !is_updatable(operator, meant_type(&meant), value.of) {
        given!(found.fault(Code::OPERAND_TYPES, first, last));
    }
    given!(writing(found, is_modifiable(&meant), first, last));
    let made = given!(updated(alloc, operator, meant, value));
    Ok(Some(Meant::Value(made)))
}

/// An assignment.
pub fn assignment(
    alloc: Global,
    found: &mut Findings,
    operator: AssignmentOperator,
    target: Option<Meant>,
    value: Option<Value>,
    is_zero: bool,
    first: Spot,
    last: u32,
) -> Result<Option<Meant>, AllocError>
    ensures { IfOk result (λ m.
        gives (option_map meant_view m) (findings_view found.new) ≡ with_two (option_map meant_view target)
        (option_map value_view value) (assignment_by operator is_zero first last) (findings_view found.old)) }
{
    let (Some(target), Some(value)) = (target, value) else {
        return Ok(None);
    };
    match operator {
        AssignmentOperator::Assign => {
            let given = given!(assignable(alloc, meant_type(&target), value, is_zero));
            assigning(alloc, found, target, given, first, last)
        }
        AssignmentOperator::With(arithmetic) => updating(
            alloc, found, arithmetic, target, value, first, last,
        ),
    }
}
