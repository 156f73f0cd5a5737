//! Homes by number, and the scalars whose notes read them.

ghost use Rattle.std.specs.Prelude.{◌≡◌, ◌↔◌, ◌+◌, ◌<◌, ℕ, IfOk, OnOk, Some, length, map, min, slice_get, slice_set, true};
ghost use Rattle.graph_core.specs.Graphs.{Is, Note, Recipe as RecipeForm, graph_view, instruction_view, note_view};
ghost use Rattle.graph_core.specs.Paths.{Among};
ghost use Rattle.graph_core.specs.Uses.{names_in};
ghost use Rattle.currency_notes.specs.Homes.{IsRead, IsReadBy, home_by, home_in, number_at, number_in, readers_of};
ghost use Rattle.currency_notes.specs.Numbers.{AreNotesRead, AreOrderly, IsMore, IsReaderOf};
ghost use Rattle.currency_notes.specs.Numbered.{AreNumbered};

use crate::recipes::names_of;
use graph_core::{Block, Graph, Instr, NoteValue};
use graph_homes::Home;
use std::alloc::{AllocError, Global};

/// How many registers there are; the homes behind them are slots.
const REGISTERS: u32 = 32;

/// The number of a home among all homes.
fn number_of(home: Home) -> u32
    ensures { result ≡ number_at home }
{
    match home {
        Home::Register(register) => u32::from(register),
        Home::Slot(slot) => slot.saturating_add(REGISTERS),
    }
}

/// The home of a name. One that has none counts as kept in the first slot.
fn home_of(homes: &[Home], name: u32) -> Home
    ensures { result ≡ home_in homes.now name }
{
    match homes.get(name as usize) {
        Some(home) => *home,
        None => Home::Slot(0),
    }
}

/// The number of the home of a name among all homes, registers and slots.
pub fn home_number(homes: &[Home], name: u32) -> u32
    ensures { result ≡ number_at (home_in homes.now name) }
{
    number_of(home_of(homes, name))
}

/// So many homes there are at most, where names have these.
pub fn home_count(homes: &[Home]) -> usize
    ensures { result ≡ min (length homes.now + 32) 18446744073709551615 }
{
    homes.len().saturating_add(REGISTERS as usize)
}

/// Whether two names have one home.
pub fn have_one_home(homes: &[Home], x: u32, y: u32) -> bool
    ensures { (result ≡ true) ↔ (number_at (home_in homes.now x) ≡ number_at (home_in homes.now y)) }
{
    home_number(homes, x) == home_number(homes, y)
}

/// The homes of a function's names. Those that notes may read are numbered anew.
#[derive(Drop)]
pub struct Homes<'a> {
    homes: &'a [Home],
    /// For each home its new number, if it has one.
    numbers: Vec<Option<usize>>,
    /// For each of these the scalars whose notes may read it.
    readers: Vec<Vec<u32>>,
}

/// Whether a list has an entry.
fn has(entries: &[u32], wanted: u32) -> bool
    ensures { (result ≡ true) ↔ Among wanted entries.now }
{
    for entry in entries {
        if *entry == wanted {
            return true;
        }
    }
    false
}

impl<'a> Homes<'a> {
    /// The homes of the names of a function.
    pub fn new(alloc: Global, graph: &Graph, homes: &'a [Home]) -> Result<Homes<'a>, AllocError>
        ensures homes { IfOk result (λ made. made.homes.now ≡ homes.now) }
        ensures count { IfOk result
            (λ made. length made.numbers.items ≡ min (length homes.now + 32) 18446744073709551615) }
        ensures numbered { IfOk result (λ made. AreNumbered made (graph_view graph.now)) }
    {
        let mut made = Homes {
            homes,
            numbers: vec![in alloc; None; home_count(homes)]?,
            readers: Vec::new(alloc),
        };
        for block in &graph.blocks {
            made.add_block(alloc, block)?;
        }
        Ok(made)
    }

    /// The new number of the home of a name, if it has one.
    pub fn number(&self, name: u32) -> Option<usize>
        ensures { result ≡ number_in self.now name }
    {
        let home = home_number(self.homes, name);
        match self.numbers.get(home as usize) {
            Some(number) => *number,
            None => None,
        }
    }

    /// How many homes have new numbers.
    pub fn count(&self) -> usize
        ensures { result ≡ length self.now.readers.items }
    {
        self.readers.len()
    }

    /// The scalars whose notes may read the home of this new number.
    pub fn readers(&self, number: usize) -> &[u32]
        ensures { result.now ≡ readers_of self.now number }
    {
        match self.readers.get(number) {
            Some(found) => found.as_slice(),
            None => &[],
        }
    }

    /// Whether a scalar is among those whose notes may read the home of a name.
    pub fn is_read_by(&self, name: u32, scalar: u32) -> bool
        ensures { (result ≡ true) ↔ IsReadBy self.now name scalar }
    {
        match self.number(name) {
            Some(number) => has(self.readers(number), scalar),
            None => true,
        }
    }

    /// Whether two names have one home.
    pub fn have_one(&self, x: u32, y: u32) -> bool
        ensures { (result ≡ true) ↔ IsRead self.now x y }
    {
        have_one_home(self.homes, x, y)
    }

    /// A home has this new number, if it is among so many.
    fn put_number(&mut self, home: usize, number: usize)
        ensures homes { self.new.homes.now ≡ self.old.homes.now }
        ensures numbers { self.new.numbers.items ≡ slice_set self.old.numbers.items home (Some number) }
        ensures readers { self.new.readers.items ≡ self.old.readers.items }
    {
        if home < self.numbers.len() {
            self.numbers[home] = Some(number);
        }
    }

    /// The next number is given to a home that has none yet.
    fn give_number(&mut self, alloc: Global, home: usize) -> Result<usize, AllocError>
        ensures more { OnOk result
            (((k : ℕ) → slice_get self.old.numbers.items home ≡ Some (Some k) → ⊥) → IsMore self.old self.new) }
        ensures number { IfOk result (λ k. self.new.numbers.items ≡ slice_set self.old.numbers.items home (Some k)) }
    {
        let number = self.readers.len();
        self.readers.push(Vec::new(alloc))?;
        self.put_number(home, number);
        Ok(number)
    }

    /// The new number of the home of a name, which is given one where it has none yet.
    fn number_anew(&mut self, alloc: Global, name: u32) -> Result<usize, AllocError>
        ensures more { OnOk result (IsMore self.old self.new) }
        ensures number { IfOk result (λ k.
            number_at (home_by self.new name) < length self.new.numbers.items → number_in self.new name ≡ Some k) }
    {
        match self.number(name) {
            Some(number) => Ok(number),
            None => {
                let home = home_number(self.homes, name) as usize;
                let number = self.give_number(alloc, home)?;
                Ok(number)
            }
        }
    }

    /// Notes of a scalar may read the home of this new number.
    fn add_reader(&mut self, number: usize, scalar: u32) -> Result<(), AllocError>
        ensures more { OnOk result (IsMore self.old self.new) }
        ensures numbers { OnOk result (self.new.numbers.items ≡ self.old.numbers.items) }
        ensures read { OnOk result (number < length self.old.readers.items → Among scalar (readers_of self.new number)) }
    {
        if number >= self.readers.len() {
            return Ok(());
        }
        if has(self.readers(number), scalar) {
            return Ok(());
        }
        self.readers[number].push(scalar)?;
        Ok(())
    }

    /// Notes of a scalar may read the home of a name.
    fn add(&mut self, alloc: Global, name: u32, scalar: u32) -> Result<(), AllocError>
        ensures more { OnOk result (IsMore self.old self.new) }
        ensures read { OnOk result (AreOrderly self.old → IsReaderOf self.new name scalar) }
    {
        let number = self.number_anew(alloc, name)?;
        self.add_reader(number, scalar)?;
        Ok(())
    }

    /// A note of a scalar reads the homes of these names.
    fn add_names(&mut self, alloc: Global, names: &[u32], scalar: u32) -> Result<(), AllocError>
        ensures more { OnOk result (IsMore self.old self.new) }
        ensures read { OnOk result (AreOrderly self.old → (y : ℕ) → Among y names.now → IsReaderOf self.new y scalar) }
    {
        for name in names {
            self.add(alloc, *name, scalar)?;
        }
        Ok(())
    }

    /// What a note of a scalar says.
    fn add_value(&mut self, alloc: Global, value: &NoteValue, scalar: u32) -> Result<(), AllocError>
        ensures more { OnOk result (IsMore self.old self.new) }
        ensures read { OnOk result
            (AreOrderly self.old → (r : RecipeForm) → note_view value.now ≡ Is r → (y : ℕ) → Among y (names_in r)
            → IsReaderOf self.new y scalar) }
    {
        match value {
            NoteValue::Is(recipe) => {
                let names = names_of(alloc, recipe)?;
                self.add_names(alloc, &names, scalar)?;
                Ok(())
            }
            NoteValue::Gone(_) => Ok(()),
        }
    }

    /// An instruction, if it is a note.
    fn add_note(&mut self, alloc: Global, instruction: &Instr) -> Result<(), AllocError>
        ensures more { OnOk result (IsMore self.old self.new) }
        ensures read { OnOk result
            (AreOrderly self.old → (x : ℕ) (r : RecipeForm) → instruction_view instruction.now ≡ Note x (Is r)
            → (y : ℕ) → Among y (names_in r) → IsReaderOf self.new y x) }
    {
        match instruction {
            Instr::Note { of, value } => {
                self.add_value(alloc, value, of.0)?;
                Ok(())
            }
            _ => Ok(()),
        }
    }

    /// The notes of a block.
    fn add_block(&mut self, alloc: Global, block: &Block) -> Result<(), AllocError>
        ensures more { OnOk result (IsMore self.old self.new) }
        ensures read { OnOk result
            (AreOrderly self.old → AreNotesRead self.new (map instruction_view block.now.instructions.items)) }
    {
        for instruction in &block.instructions {
            self.add_note(alloc, instruction)?;
        }
        Ok(())
    }
}
