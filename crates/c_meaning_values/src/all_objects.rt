//! All objects of a run, and which of them have not ended.

ghost use Rattle.std.specs.Prelude.{◌≡◌, ◌++◌, ◌∷◌, [], map, OnOk, Some, None, true, false, if◌then◌else◌};
ghost use Rattle.c_meaning_values.specs.Views.{object_view, owner_view};
ghost use Rattle.c_meaning_values.specs.Memory.{pointer_to_owner, begun, ended_from, is_over, object_of, set_value, write};
ghost use Rattle.c_meaning_values.specs.Living.{IsLivingAt, living_from};

use crate::memory::{
    Object, Owner, begin, end_from, is_living_at, is_over, object_of, owned_among, set_value,
    writable_index,
};
use crate::value::{Phase, Value};
use std::alloc::{AllocError, Global};

/// All objects of a run.
#[derive(Drop)]
pub struct Objects {
    /// In the order in which they began.
    pub all: Vec<Object>,
    /// The numbers of those that have not ended, in ascending order, where they are known.
    living: Vec<usize>,
    /// Whether they are: always, but where memory was wanting or an object was begun anew that had ended.
    is_known: bool,
    ghost are_living: { is_known ≡ true → living.items ≡ living_from 0 (map object_view all.items) },
}

/// The number of an object goes behind others, if it has not ended.
fn note(phase: Phase, number: usize, living: &mut Vec<usize>) -> Result<(), AllocError>
    ensures { OnOk result (living.new.items ≡ living.old.items ++ (if is_over phase then [] else number ∷ [])) }
{
    if !is_over(phase) {
        living.push(number)?;
    }
    Ok(())
}

impl Objects {
    /// None so far.
    pub fn new(alloc: Global) -> Objects
        ensures { result.all.items ≡ [] }
    {
        Objects {
            all: Vec::new(alloc),
            living: Vec::new(alloc),
            is_known: true,
        }
    }

    /// One more object begins.
    pub fn push(&mut self, object: Object) -> Result<(), AllocError>
        ensures { OnOk result
            (map object_view self.new.all.items ≡ map object_view self.old.all.items ++ object_view object ∷ []) }
    {
        let was_known = self.is_known;
        self.is_known = false;
        note(object.phase, self.all.len(), &mut self.living)?;
        self.all.push(object)?;
        self.is_known = was_known;
        Ok(())
    }

    /// The number of an owner's object.
    fn number_of(&self, owner: Owner) -> Option<usize>
        ensures { result ≡ object_of (owner_view owner) (map object_view self.now.all.items) }
    {
        if self.is_known {
            owned_among(owner, &self.all, &self.living)
        } else {
            object_of(owner, &self.all)
        }
    }

    /// A pointer to the beginning of an owner's object.
    pub fn address_of(&self, owner: Owner) -> Option<Value>
        ensures { result ≡ pointer_to_owner (owner_view owner) (map object_view self.now.all.items) }
    {
        let object = self.number_of(owner)?;
        Some(Value::Pointer { object, offset: 0 })
    }

    /// An object's value of this index becomes another.
    pub fn set_value(&mut self, object: usize, index: usize, value: Value)
        ensures { map object_view self.new.all.items
            ≡ set_value (map object_view self.old.all.items) object index value }
    {
        set_value(&mut self.all, object, index, value);
    }

    /// A write where a pointer points, if it may be written there; the object can be read from then on.
    pub fn write(&mut self, pointer: Value, value: Value) -> bool
        ensures done { result ≡ true
            → write (map object_view self.old.all.items) pointer value ≡ Some (map object_view self.new.all.items) }
        ensures undefined { result ≡ false → write (map object_view self.old.all.items) pointer value ≡ None }
        ensures unchanged { result ≡ false → map object_view self.new.all.items ≡ map object_view self.old.all.items }
    {
        match pointer {
            Value::Number(_) => false,
            Value::Null => false,
            Value::Pointer { object, offset } => {
                let Some(index) = writable_index(&self.all, object, offset) else {
                    return false;
                };
                self.set_value(object, index, value);
                self.begin(object);
                true
            }
        }
    }

    /// Whether the living are still known where an object begins.
    fn stay_known(&self, object: usize) -> bool
        ensures known { result ≡ true → self.now.is_known ≡ true }
        ensures living { result ≡ true → IsLivingAt (map object_view self.now.all.items) object }
    {
        self.is_known && is_living_at(&self.all, object)
    }

    /// An object can be read and written from now on.
    pub fn begin(&mut self, object: usize)
        ensures { map object_view self.new.all.items ≡ begun (map object_view self.old.all.items) object }
    {
        self.is_known = self.stay_known(object);
        begin(&mut self.all, object);
    }

    /// All objects from a number on end.
    pub fn end_from(&mut self, first: usize)
        ensures { map object_view self.new.all.items ≡ ended_from first (map object_view self.old.all.items) }
    {
        end_from(&mut self.all, &mut self.living, first);
    }
}
