//! Memory: all objects of a run (ISO/IEC 9899:2011, 6.2.4).

ghost use Rattle.std.specs.Prelude.{pos, ◌+ℤ◌, ◌-◌, ◌≡◌, ◌<◌, ◌*◌, ◌++◌, ◌∷◌, [], map, take, length, Some, None, IfOk, OnOk, OnErr, true, false, if◌then◌else◌, option_map, option_and_then, slice_get, MatchOption};
ghost use Rattle.word_base.specs.Owners.{is_same_owner};
ghost use Rattle.c_meaning_values.specs.Views.{owner_view, object_view};
ghost use Rattle.c_meaning_values.specs.declared.value.Phase.TheVariants.{Ended};
ghost use Rattle.c_meaning_values.specs.Memory.{is_over, is_begun, new_object, bytes_of, index_at, is_owned, object_of, in_bytes, in_phase, is_usable, value_in, read, with_value, IsOpen, IsClosed, is_literal, set_value, is_writable, moved_by_bytes as moved, begun, ended_from};
ghost use Rattle.c_meaning_values.specs.Living.{IsLivingAt, is_owned_at, living_from, owned_among};

use crate::types::{count_of, element_of, scalar_size, zero_of};
use crate::value::{Phase, Value};
use c_tree::{ObjectType, Scalar};
use std::alloc::{AllocError, Global};

/// Whose an object is: a named one of static storage or a string literal by its number, or an automatic variable by its
/// number with the depth of its activation, 1 for the first of `main`.
#[derive(Clone, Copy, PartialEq, Eq)]
pub enum Owner {
    Static(usize),
    Literal(usize),
    Variable { variable: usize, depth: usize },
}

/// An object.
#[derive(Drop)]
pub struct Object {
    pub owner: Owner,
    /// The type of its values.
    pub element: Scalar,
    /// Its values in order.
    pub values: Vec<Value>,
    pub phase: Phase,
}

/// Whether two owners are one.
fn is_same_owner(one: Owner, other: Owner) -> bool
    ensures { result ≡ is_same_owner (owner_view one) (owner_view other) }
{
    match (one, other) {
        (Owner::Static(a), Owner::Static(b)) => a == b,
        (Owner::Literal(a), Owner::Literal(b)) => a == b,
        (
            Owner::Variable {
                variable: a,
                depth: d,
            },
            Owner::Variable {
                variable: b,
                depth: e,
            },
        ) => a == b && d == e,
        _ => false,
    }
}

/// Whether an object has ended.
pub(crate) fn is_over(phase: Phase) -> bool
    ensures { result ≡ is_over phase }
{
    matches!(phase, Phase::Ended)
}

impl Object {
    /// A new object of a type, all zero.
    pub fn new(
        alloc: Global,
        owner: Owner,
        of: ObjectType,
        phase: Phase,
    ) -> Result<Object, AllocError>
        ensures { IfOk result (λ o. object_view o ≡ new_object (owner_view owner) of phase) }
    {
        let element = element_of(of);
        let values = vec![in alloc; zero_of(element); count_of(of) as usize]?;
        Ok(Object {
            owner,
            element,
            values,
            phase,
        })
    }

    /// Whether it is an owner's, and has not ended.
    fn is_owned(&self, owner: Owner) -> bool
        ensures { result ≡ is_owned (owner_view owner) (object_view self.now) }
    {
        !is_over(self.phase) && is_same_owner(owner, self.owner)
    }

    /// Which of its values stands at an offset in bytes.
    fn index_at(&self, offset: u128) -> u128
        ensures { result ≡ index_at (object_view self.now) offset }
    {
        offset / u128::from(scalar_size(self.element))
    }

    /// How many bytes it has.
    fn bytes(&self) -> u128
        ensures { result ≡ bytes_of (object_view self.now) }
    {
        self.values.len() as u128 * u128::from(scalar_size(self.element))
    }

    /// What it holds at an offset.
    fn value_at(&self, offset: u128) -> Option<Value>
        ensures { result ≡ value_in (object_view self.now) offset }
    {
        if !matches!(self.phase, Phase::Live) {
            return None;
        }
        let index = self.index_at(offset);
        if self.values.len() as u128 <= index {
            return None;
        }
        self.values.get(index as usize).copied()
    }

    /// Whether it may be written at an offset.
    fn is_writable(&self, offset: u128) -> bool
        ensures { result ≡ is_writable (object_view self.now) offset }
    {
        !is_over(self.phase)
            && !matches!(self.owner, Owner::Literal(_))
            && !(self.values.len() as u128 <= self.index_at(offset))
    }
}

/// The number of an owner's object.
pub fn object_of(owner: Owner, memory: &[Object]) -> Option<usize>
    ensures { result ≡ object_of (owner_view owner) (map object_view memory.now) }
{
    for n in 0..memory.len() {
        if memory[n].is_owned(owner) {
            return Some(n);
        }
    }
    None
}

/// Whether the object of a number is an owner's, and has not ended.
fn is_owned_at(owner: Owner, memory: &[Object], number: usize) -> bool
    ensures { result ≡ is_owned_at (owner_view owner) (map object_view memory.now) number }
{
    match object_at(memory, number) {
        None => false,
        Some(o) => o.is_owned(owner),
    }
}

/// The first of these numbers whose object is an owner's.
pub(crate) fn owned_among(owner: Owner, memory: &[Object], numbers: &[usize]) -> Option<usize>
    ensures { result ≡ owned_among (owner_view owner) (map object_view memory.now) numbers.now }
{
    for number in numbers {
        if is_owned_at(owner, memory, *number) {
            return Some(*number);
        }
    }
    None
}

/// Whether the object of a number, if there is one, has not ended.
pub(crate) fn is_living_at(memory: &[Object], object: usize) -> bool
    ensures { result ≡ true → IsLivingAt (map object_view memory.now) object }
{
    match object_at(memory, object) {
        None => true,
        Some(o) => !is_over(o.phase),
    }
}

/// The object of a number.
fn object_at(memory: &[Object], object: usize) -> Option<&Object>
    ensures { MatchOption result (slice_get (map object_view memory.now) object ≡ None) (λ o.
        slice_get (map object_view memory.now) object ≡ Some (object_view o.now)) }
{
    memory.get(object)
}

/// Whether a value may be used: it is no pointer to an object that has ended.
pub fn is_usable(memory: &[Object], value: Value) -> bool
    ensures { result ≡ is_usable (map object_view memory.now) value }
{
    match value {
        Value::Number(_) => true,
        Value::Null => true,
        Value::Pointer { object, .. } => match object_at(memory, object) {
            None => false,
            Some(o) => !is_over(o.phase),
        },
    }
}

/// What an object holds where a pointer points; none where it must not be read.
pub fn read(memory: &[Object], pointer: Value) -> Option<Value>
    ensures { result ≡ read (map object_view memory.now) pointer }
{
    match pointer {
        Value::Number(_) => None,
        Value::Null => None,
        Value::Pointer { object, offset } => match object_at(memory, object) {
            None => None,
            Some(o) => o.value_at(offset),
        },
    }
}

/// An offset moved by so many bytes, if it stays between 0 and a number of bytes.
fn moved_offset(offset: u128, by: i128, bytes: u128) -> Option<u128>
    ensures { result ≡ in_bytes bytes (pos offset +ℤ by) }
{
    let moved = if by < 0 {
        offset.checked_sub(by.unsigned_abs())?
    } else {
        offset.checked_add(by as u128)?
    };
    if moved <= bytes { Some(moved) } else { None }
}

/// A pointer moved by so many bytes, if it stays in its object or one past its end.
pub fn moved(memory: &[Object], pointer: Value, by: i128) -> Option<Value>
    ensures { result ≡ moved (map object_view memory.now) pointer by }
{
    match pointer {
        Value::Number(_) => None,
        Value::Null => None,
        Value::Pointer { object, offset } => {
            let o = object_at(memory, object)?;
            if is_over(o.phase) {
                return None;
            }
            let offset = moved_offset(offset, by, o.bytes())?;
            Some(Value::Pointer { object, offset })
        }
    }
}

impl Object {
    /// Another value stands at an index, if it has one there.
    pub fn set(&mut self, index: usize, value: Value)
        ensures { object_view self.new ≡ with_value (object_view self.old) index value }
    {
        if index < self.values.len() {
            self.values[index] = value;
        }
    }
}

/// An object's value of this index becomes another.
pub(crate) fn set_value(memory: &mut Vec<Object>, object: usize, index: usize, value: Value)
    ensures { map object_view memory.new.items ≡ set_value (map object_view memory.old.items) object index value }
{
    if object < memory.len() {
        memory[object].set(index, value);
    }
}

/// An object can be read and written from now on.
pub(crate) fn begin(memory: &mut Vec<Object>, object: usize)
    ensures { map object_view memory.new.items ≡ begun (map object_view memory.old.items) object }
{
    if object < memory.len() {
        memory[object].phase = Phase::Live;
    }
}

/// The index at which an object may be written by an offset.
pub(crate) fn writable_index(memory: &[Object], object: usize, offset: u128) -> Option<usize>
    ensures { MatchOption result (IsClosed (map object_view memory.now) object offset) (λ index.
        IsOpen (map object_view memory.now) object offset index) }
{
    let o = object_at(memory, object)?;
    if o.is_writable(offset) {
        Some(o.index_at(offset) as usize)
    } else {
        None
    }
}

/// An object ends. If it had not, its number goes, which is the last of these.
fn end_last(object: &mut Object, living: &mut Vec<usize>)
    ensures ended { object_view object.new ≡ in_phase Ended (object_view object.old) }
    ensures living { living.new.items ≡
        (if is_over object.old.phase then living.old.items else take (length living.old.items - 1) living.old.items) }
{
    if !is_over(object.phase) {
        living.pop();
    }
    object.phase = Phase::Ended;
}

/// All objects from a number on end. The numbers are those of the objects that have not ended.
pub(crate) fn end_from(memory: &mut Vec<Object>, living: &mut Vec<usize>, first: usize)
    ensures ended { map object_view memory.new.items ≡ ended_from first (map object_view memory.old.items) }
    ensures living { living.old.items ≡ living_from 0 (map object_view memory.old.items)
        → living.new.items ≡ living_from 0 (map object_view memory.new.items) }
{
    let mut n = memory.len();
    if n <= first {
        return;
    }
    while first < n {
        n -= 1;
        end_last(&mut memory[n], living);
    }
}
