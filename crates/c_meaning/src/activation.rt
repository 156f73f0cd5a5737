//! Activations of functions, and the stops at their places (ISO/IEC 9899:2011, 5.1.2.3).

ghost use Rattle.std.specs.Prelude.{◌≡◌, IfOk, IfSome, Some, ◌++◌, map};
ghost use Rattle.c_meaning.specs.CActivationsViews.{IsStop, activation_view, begun_view, stop_at};
ghost use Rattle.c_meaning_values.specs.Views.{object_view, owner_view};
ghost use Rattle.c_meaning_steps.specs.EventViews.{stop_view};
ghost use Rattle.c_meaning_steps.specs.Tallies.{standing};
ghost use Rattle.c_meaning_steps.specs.Views.{shown_view, state_view};
ghost use Rattle.c_meaning_values.specs.Memory.{Memory, contents};
ghost use Rattle.c_meaning.specs.Activations.{begin, depth_of, frames_at, shown_at};

use crate::beginning::{Beginning, with_stop};
use c_meaning_steps::{Frame, Seen, Shown, Standing, State, Stop};
use c_meaning_values::{Object, Owner, Value, object_of};
use c_places::{Place, number_at, scope_at, visible};
use c_tree::Program;
use debug_records::Spot;
use std::alloc::{AllocError, Global};

/// What is the same for all of an activation.
#[derive(Drop)]
pub struct Activation<'a> {
    pub program: &'a Program,
    /// The places of the program.
    pub places: &'a [Place],
    /// The number of its function.
    pub function: u32,
    /// The activations that wait, from the innermost on.
    pub waiting: &'a [Frame],
    /// How many activations may still begin.
    pub left: usize,
}

/// An object that is equal to another.
fn copy_object(alloc: Global, object: &Object) -> Result<Object, AllocError>
    ensures { IfOk result (λ o. object_view o ≡ object_view object.now) }
{
    let values = Vec::from_slice(alloc, &object.values)?;
    Ok(Object {
        owner: object.owner,
        element: object.element,
        values,
        phase: object.phase,
    })
}

/// Objects that are equal to others.
fn copy_memory(alloc: Global, memory: &[Object]) -> Result<Vec<Object>, AllocError>
    ensures { IfOk result (λ v. map object_view v.items ≡ map object_view memory.now) }
{
    let mut copies = Vec::new(alloc);
    for object in memory {
        copies.push(copy_object(alloc, object)?)?;
    }
    Ok(copies)
}

/// The values of an owner's object.
fn contents(alloc: Global, owner: Owner, memory: &[Object]) -> Result<Vec<Value>, AllocError>
    ensures { IfOk result (λ v. v.items ≡ contents (owner_view owner) (map object_view memory.now)) }
{
    match object_of(owner, memory) {
        None => Ok(Vec::new(alloc)),
        Some(object) => match memory.get(object) {
            None => Ok(Vec::new(alloc)),
            Some(found) => Vec::from_slice(alloc, &found.values),
        },
    }
}

impl<'a> Activation<'a> {
    /// How many activations live.
    pub fn depth(&self) -> usize
        ensures { result ≡ depth_of (activation_view self.now) }
    {
        self.waiting.len() + 1
    }

    /// All live activations, where this one stands at a place.
    pub fn frames_at(&self, alloc: Global, place: usize) -> Result<Vec<Frame>, AllocError>
        ensures { IfOk result (λ v. v.items ≡ frames_at (activation_view self.now) place) }
    {
        let mut frames = Vec::new(alloc);
        frames.push(Frame {
            function: self.function,
            place,
        })?;
        frames.extend_from_slice(self.waiting)?;
        Ok(frames)
    }

    /// The visible variables at the place at a position, with their values.
    fn shown_at(&self, alloc: Global, at: u32, memory: &[Object]) -> Result<Vec<Shown>, AllocError>
        ensures { IfOk result (λ v.
            map shown_view v.items ≡ shown_at (activation_view self.now) at (map object_view memory.now)) }
    {
        let depth = self.depth();
        let variables = visible(alloc, &self.program.automatics, scope_at(self.places, at))?;
        let mut shown = Vec::new(alloc);
        for variable in &variables {
            let variable = *variable;
            let values = contents(alloc, Owner::Variable { variable, depth }, memory)?;
            shown.push(Shown { variable, values })?;
        }
        Ok(shown)
    }

    /// The stop at the place at a position.
    fn stop(&self, alloc: Global, at: u32, memory: &[Object]) -> Result<Stop, AllocError>
        ensures { IfOk result (λ stop. IsStop (activation_view self.now) at (map object_view memory.now) stop) }
    {
        let place = number_at(self.places, at);
        Ok(Stop {
            place,
            depth: self.depth(),
            frames: self.frames_at(alloc, place)?,
            shown: self.shown_at(alloc, at, memory)?,
            memory: copy_memory(alloc, memory)?,
        })
    }

    /// Where this activation stands at a place.
    pub fn standing_at(&self, place: usize) -> Standing {
        Standing {
            place,
            depth: self.depth(),
            function: self.function,
        }
    }

    /// Where the stop at the place at a position stands.
    fn standing(&self, at: u32) -> Standing
        ensures { (memory : Memory) → standing (stop_at (activation_view self.now) at memory) ≡ Some result }
    {
        Standing {
            place: number_at(self.places, at),
            depth: self.depth(),
            function: self.function,
        }
    }

    /// The stop at the place at a position, where all events are kept.
    fn stop_for(
        &self,
        alloc: Global,
        at: u32,
        memory: &[Object],
        seen: &Seen,
    ) -> Result<Option<Stop>, AllocError>
        ensures { IfOk result (λ o.
            IfSome o (λ s. stop_view s ≡ stop_at (activation_view self.now) at (map object_view memory.now))) }
    {
        if seen.keeps_all() {
            Ok(Some(self.stop(alloc, at, memory)?))
        } else {
            Ok(None)
        }
    }

    /// A place is begun, where a turn is left.
    pub fn begin(&self, alloc: Global, spot: Spot, state: &mut State) -> Result<bool, AllocError>
        ensures { IfOk result (λ b.
            begun_view b (state_view state.new) ≡ begin (activation_view self.now) spot (state_view state.old)) }
    {
        if state.turns == 0 {
            return Ok(false);
        }
        let memory = &state.memory;
        let made = self.stop_for(alloc, spot.at, &memory.all, &state.seen)?;
        let beginning = Beginning {
            here: &*self,
            at: spot.at,
            memory: memory.all.as_slice(),
        };
        let log = with_stop(&state.seen.log, &beginning);
        let standing = self.standing(spot.at);
        state.seen.stop(standing, made, log)?;
        state.at = Some(standing);
        state.turns -= 1;
        Ok(true)
    }
}
