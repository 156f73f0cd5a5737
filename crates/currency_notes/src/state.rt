//! What is so of the scalars and homes of a function on all paths to a point.

ghost use Rattle.std.specs.Prelude.{◌≡◌, ◌≢◌, ◌↔◌, ℕ, IfOk, List, [], ◌∷◌, Option, Some, None, length, map, option_map, slice_get, slice_set, false};
ghost use Rattle.debug_records.specs.declared.change.Place as declared-place;
ghost use Rattle.graph_core.specs.Graphs.{Binding as BindingForm, Block as BlockForm, End as EndForm, Logged, Recipe as RecipeForm, binding_view, block_view, graph_view, instruction_view};
ghost use Rattle.graph_core.specs.Paths.{Among, History, Passed};
ghost use Rattle.graph_core.specs.Validity.{place_behind as place_behind_all};
ghost use Rattle.currency_notes.specs.Homes.{IsUnread, readers_of};
ghost use Rattle.currency_notes.specs.Notes.{IsBound, IsKept, IsSo, IsWritten, noted_in, recipe_in, recipe_of, told_in};
ghost use Rattle.currency_notes.specs.Full.{AreExact, IsEqual, IsFullAt};
ghost use Rattle.currency_notes.specs.Ranks.{IsSized};
ghost use Rattle.currency_notes.specs.Sources.{IsAttained, IsToldBy};
ghost use Rattle.dead_pass_writes.specs.RemovedChangesTelling.{AreToldOf};

use crate::function::Function;
use crate::noted::{Noted, read_note};
use crate::reads_home;
use debug_records::Place;
use graph_core::{Binding, Block, Instr};
use std::alloc::{AllocError, Global};

/// The place in force behind an instruction.
pub fn place_behind(instruction: &Instr, before: Option<Place>) -> Option<Place>
    ensures { option_map (λ (p : declared-place.Place). p.0) result
        ≡ place_behind_all (instruction_view instruction.now ∷ [])
        (option_map (λ (p : declared-place.Place). p.0) before) }
{
    match instruction.marker() {
        Some(place) => Some(place),
        None => before,
    }
}

/// What is so at a point.
#[derive(Drop)]
pub struct State<'a> {
    /// By scalar.
    pub noted: Vec<Noted<'a>>,
    /// For each home that has a new number the name that it was last written for on all paths, if there is one.
    pub written: Vec<Option<u32>>,
}

impl<'a> State<'a> {
    /// Nothing was noted and nothing was written.
    fn new(alloc: Global, function: &Function<'a>) -> Result<State<'a>, AllocError>
        ensures noted { IfOk result (λ s. (x : ℕ) → recipe_in s.noted.items x ≡ None) }
        ensures written { IfOk result (λ s. (k y : ℕ) → slice_get s.written.items k ≢ Some (Some y)) }
        ensures scalars { IfOk result (λ s. length s.noted.items ≡ length function.now.graph.now.scalars.items) }
        ensures homes { IfOk result (λ s. length s.written.items ≡ length function.now.homes.readers.items) }
    {
        Ok(State {
            noted: vec![in alloc; Noted::Lost; function.graph.scalars.len()]?,
            written: vec![in alloc; None; function.homes.count()]?,
        })
    }

    /// The function begins: its parameters are bound, all others were never written.
    pub fn entered(alloc: Global, function: &Function<'a>) -> Result<State<'a>, AllocError>
        ensures so { IfOk result
            (λ s. IsSo function.now.homes (map binding_view function.now.graph.now.parameters.items) s []) }
        ensures full { IfOk result (λ s.
            AreExact function.now → (b : BlockForm)
            → slice_get (graph_view function.now.graph.now).blocks 0 ≡ Some b
            → IsFullAt function.now s 0 b.instructions b.end) }
        ensures told { IfOk result (λ s. (x : ℕ) (c : Option ℕ) → told_in s.noted.items x ≡ Some c → ⊥) }
        ensures sized { IfOk result (λ s. IsSized function.now s) }
    {
        let mut state = State::new(alloc, function)?;
        for binding in &function.graph.parameters {
            state.bind(function, binding);
        }
        Ok(state)
    }

    /// An equal state.
    pub fn duplicate(&self, alloc: Global) -> Result<State<'a>, AllocError>
        ensures { IfOk result (λ s. IsEqual s self.now) }
    {
        let noted = Vec::from_slice(alloc, &self.noted)?;
        let written = Vec::from_slice(alloc, &self.written)?;
        Ok(State { noted, written })
    }

    /// What is last noted of a scalar.
    pub fn last_of(&self, scalar: u32) -> Noted<'a>
        ensures { result ≡ noted_in self.now.noted.items scalar }
    {
        match self.noted.get(scalar as usize) {
            Some(noted) => *noted,
            None => Noted::Lost,
        }
    }

    /// This is noted of a scalar.
    fn put_note(&mut self, scalar: u32, noted: Noted<'a>)
        ensures noted { self.new.noted.items ≡ slice_set self.old.noted.items scalar noted.entry }
        ensures written { self.new.written.items ≡ self.old.written.items }
    {
        if (scalar as usize) < self.noted.len() {
            self.noted[scalar as usize] = noted;
        }
    }

    /// Whether what is last noted of a scalar reads the home of a name.
    fn reads(&self, function: &Function<'a>, scalar: u32, name: u32) -> bool
        ensures { (r : RecipeForm) → recipe_in self.now.noted.items scalar ≡ Some r
            → (result ≡ false) ↔ IsUnread function.now.homes r name }
    {
        match self.last_of(scalar) {
            Noted::Lost => false,
            Noted::Own => function.homes.have_one(scalar, name),
            Noted::Recipe { recipe, .. } => reads_home(&function.homes, recipe, name),
        }
    }

    /// What was noted of a scalar is lost where it reads the home of a name.
    fn lose_one(&mut self, function: &Function<'a>, scalar: u32, name: u32)
        ensures written { self.new.written.items ≡ self.old.written.items }
        ensures size { length self.new.noted.items ≡ length self.old.noted.items }
        ensures kept { (x : ℕ) (r : RecipeForm) → recipe_in self.old.noted.items x ≡ Some r
            → IsUnread function.now.homes r name
            → recipe_in self.new.noted.items x ≡ Some r }
        ensures less { (x : ℕ) (r : RecipeForm) → recipe_in self.new.noted.items x ≡ Some r
            → recipe_in self.old.noted.items x ≡ Some r }
        ensures unread { (r : RecipeForm) → recipe_in self.new.noted.items scalar ≡ Some r
            → IsUnread function.now.homes r name }
        ensures told { (x : ℕ) (c : Option ℕ) → told_in self.new.noted.items x ≡ Some c → told_in self.old.noted.items x
            ≡ Some c }
    {
        if self.reads(function, scalar, name) {
            self.put_note(scalar, Noted::Lost);
        }
    }

    /// What was noted is lost where it reads the home of a name, of these scalars.
    fn lose(&mut self, function: &Function<'a>, readers: &[u32], name: u32)
        ensures written { self.new.written.items ≡ self.old.written.items }
        ensures size { length self.new.noted.items ≡ length self.old.noted.items }
        ensures kept { (x : ℕ) (r : RecipeForm) → recipe_in self.old.noted.items x ≡ Some r
            → IsUnread function.now.homes r name
            → recipe_in self.new.noted.items x ≡ Some r }
        ensures less { (x : ℕ) (r : RecipeForm) → recipe_in self.new.noted.items x ≡ Some r
            → recipe_in self.old.noted.items x ≡ Some r }
        ensures unread { (x : ℕ) (r : RecipeForm) → recipe_in self.new.noted.items x ≡ Some r → Among x readers.now
            → IsUnread function.now.homes r name }
        ensures told { (x : ℕ) (c : Option ℕ) → told_in self.new.noted.items x ≡ Some c → told_in self.old.noted.items x
            ≡ Some c }
    {
        for scalar in readers {
            self.lose_one(function, *scalar, name);
        }
    }

    /// A home was last written for a name.
    fn put_name(&mut self, number: usize, name: u32)
        ensures noted { self.new.noted.items ≡ self.old.noted.items }
        ensures written { self.new.written.items ≡ slice_set self.old.written.items number (Some name) }
    {
        if number < self.written.len() {
            self.written[number] = Some(name);
        }
    }

    /// The home of a name is written for it.
    fn write(&mut self, function: &Function<'a>, name: u32)
        ensures { IsWritten function.now.homes name self.old self.new }
    {
        let Some(number) = function.homes.number(name) else {
            return;
        };
        self.put_name(number, name);
        self.lose(function, function.homes.readers(number), name);
    }

    /// A parameter is bound.
    fn bind(&mut self, function: &Function<'a>, binding: &Binding)
        ensures { IsBound function.now.homes (binding_view binding.now) self.old self.new }
    {
        match binding {
            Binding::Scalar(name) => self.write(function, name.0),
            Binding::Object(_) => {}
        }
    }

    /// Steps over an instruction in a place.
    pub fn step(&mut self, function: &Function<'a>, instruction: &'a Instr, place: Option<Place>)
        ensures so { (ps : List BindingForm) (p : Passed) (h : History) → p.instruction
            ≡ instruction_view instruction.now
            → IsSo function.now.homes ps self.old h → IsSo function.now.homes ps self.new (p ∷ h) }
        ensures kept { IsKept function.now.homes (instruction_view instruction.now) self.old self.new }
        ensures told { (log : List Logged) → AreToldOf log function.now.removed.now
            → IsToldBy log (graph_view function.now.graph.now) (instruction_view instruction.now)
            (option_map (λ (p : declared-place.Place). p.0) place) self.old self.new }
    {
        if let Instr::Note { of, value } = instruction {
            self.put_note(of.0, read_note(function, *of, value, place));
        } else if let Some(target) = instruction.target() {
            self.write(function, target.0);
        }
    }

    /// Steps over the instructions of a block.
    pub fn walk(&mut self, function: &Function<'a>, block: &'a Block)
        ensures sized { IsSized function.now self.old → IsSized function.now self.new }
        ensures full { (n : ℕ) (e : EndForm) → AreExact function.now
            → IsFullAt function.now self.old n (map instruction_view block.now.instructions.items) e
            → IsFullAt function.now self.new n [] e }
        ensures attained { (log : List Logged) (n : ℕ) (e : EndForm) → AreToldOf log function.now.removed.now
            → slice_get (graph_view function.now.graph.now).blocks n ≡ Some (block_view block.now)
            → IsAttained log (graph_view function.now.graph.now) self.old n
            (map instruction_view block.now.instructions.items) e
            → IsAttained log (graph_view function.now.graph.now) self.new n [] e }
    {
        let mut place = block.place;
        for instruction in &block.instructions {
            place = place_behind(instruction, place);
            self.step(function, instruction, place);
        }
    }
}
