//! Where a run is to halt.

ghost use Rattle.std.specs.Prelude.{◌≡◌, ◌<◌, ◌==◌, ◌||◌, ◌++◌, ℕ, All, IfOk, [], map};
ghost use Rattle.stop_engine.specs.Marking.{aim_of};
ghost use Rattle.stop_engine.specs.MarkTable.{MarkTable};
ghost use Rattle.stop_engine.specs.Transcript.{aims_at, is_among_places};

use debug_records::Place;
use std::alloc::{AllocError, Global};
use std::marker::Model;

/// Marks of places, which are told by one look-up.
#[derive(Drop)]
pub struct Marks {
    /// For each number whether it is marked.
    marked: Vec<bool>,
}

impl Model for Marks {
    ghost use Rattle.stop_engine.specs.MarkTable.{MarkTable, mark_table};

    ghost Value = { MarkTable };

    ghost view = { λ m. mark_table m.marked.items };
}

impl Marks {
    /// No mark, for place numbers below a bound. `AllocError` where memory for the table was refused.
    pub fn new(alloc: Global, bound: usize) -> Result<Marks, AllocError>
        ensures { IfOk result (λ marks. marks ≡ (record { bound = bound; places = [] })) }
    {
        Ok(Marks {
            marked: vec![in alloc; false; bound]?,
        })
    }

    /// Whether a place is marked.
    #[tactic(auto, using(crate::proofs::MarkLaws::marks_among))]
    pub fn has(&self, place: u32) -> bool
        ensures { result ≡ is_among_places self.now.places place }
    {
        self.marked.get(place as usize).copied().unwrap_or(false)
    }

    /// Marks a place.
    pub fn mark(&mut self, place: u32)
        requires { place < self.old.bound }
        ensures bound { self.new.bound ≡ self.old.bound }
        ensures marked { (p : ℕ) → is_among_places self.new.places p ≡ (is_among_places self.old.places p || place == p) }
    {
        self.marked[place as usize] = true;
    }

    /// Marks these places.
    pub fn mark_all(&mut self, places: &[Place])
        requires { All (λ p. p.0 < self.old.bound) places.now }
        ensures bound { self.new.bound ≡ self.old.bound }
        ensures marked { (p : ℕ) → is_among_places self.new.places p
            ≡ is_among_places (self.old.places ++ map (λ q. q.0) places.now) p }
    {
        for place in places {
            self.mark(place.0);
        }
    }
}

/// Where a run is to halt.
#[derive(Drop)]
pub enum Stops<'m> {
    /// At the next stop.
    Any,
    /// At the next stop of these.
    At(&'m Marks),
    /// At the next stop of these, or whose depth is at most this.
    Within(u32, &'m Marks),
}

impl<'m> Stops<'m> {
    /// Whether a stop of this depth, at this place, is one of them.
    pub fn has(&self, depth: u32, place: u32) -> bool
        ensures { result ≡ aims_at (aim_of self.now) depth place }
    {
        match self {
            Stops::Any => true,
            Stops::At(marks) => marks.has(place),
            Stops::Within(most, marks) => marks.has(place) || depth <= *most,
        }
    }
}
