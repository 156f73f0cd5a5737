//! What writes the homes of names, by these homes.

ghost use Rattle.std.specs.Prelude.{◌≡◌, ◌≢◌, ◌↔◌, ℕ, ◌+◌, ◌<◌, List, [], ◌∷◌, ◌++◌, IfOk, IfSome, OnOk, Some, length, map, slice_get, true};
ghost use Rattle.std.specs.List.Sorted.{IsPermutation};
ghost use Rattle.graph_homes.specs.Homes.{is_same_home};
ghost use Rattle.graph_core.specs.Graphs.{ToScalar, binding_view, graph_view, instruction_view};
ghost use Rattle.graph_core.specs.Uses.{target_of};
ghost use Rattle.currency_notes.specs.Homes.{home_in};
ghost use Rattle.currency_writers.specs.declared.writers.Written as declared-written;
ghost use Rattle.currency_writers.specs.declared.writers.Writer.TheVariants.{Binding as BindingOf};
ghost use Rattle.currency_writers.specs.Order.{IsNoLater, rank_of};
ghost use Rattle.currency_writers.specs.Writers.{AreBindings, AreBlocks, AreHomed, AreInstructions, AreMore, AreNoLater, AreSound, AreWriters, AreWritesBy, HasLists, HaveLists, HaveOneHome, IsIndexed, IsKnown, Writes, home_key, placed, writes_in};

use currency_notes::{home_count, home_number};
use debug_records::Place;
use graph_core::{Binding, Block, Graph, Instr};
use graph_homes::Home;
use std::alloc::{AllocError, Global};

/// What writes the home of a name.
#[derive(Clone, Copy, PartialEq, Eq)]
pub enum Writer {
    /// An instruction, by its function, its block there and how many instructions stand before it in the block.
    Instruction {
        function: u32,
        block: usize,
        index: usize,
    },
    /// The binding of a parameter as its function is called.
    Binding {
        function: u32,
        parameter: usize,
    },
}

/// A name is written in a place.
#[derive(Clone, Copy)]
pub struct Written {
    pub place: u32,
    pub name: u32,
    pub writer: Writer,
}

/// The place where a name is written, and the number of what writes it. In order they come by places, and in one place
/// the bindings of parameters first,
/// and then instructions by block and index.
#[derive(Clone, Copy, PartialEq, Eq, PartialOrd, Ord)]
pub struct Write {
    pub place: u32,
    pub number: usize,
}

/// What writes the names of a function.
#[derive(Drop)]
pub struct Writers<'a> {
    /// The function, by its number.
    pub function: u32,
    pub graph: &'a Graph,
    pub homes: &'a [Home],
    /// The bindings of parameters, and then instructions by block and index.
    pub all: Vec<Written>,
    /// For each number of a home what writes it, in order.
    by_home: Vec<Vec<Write>>,
    /// For each name the same.
    by_name: Vec<Vec<Write>>,
}

/// So many lists without entries.
fn no_writes(alloc: Global, count: usize) -> Result<Vec<Vec<Write>>, AllocError>
    ensures none { IfOk result (λ made. (n : ℕ) → writes_in made.items n ≡ []) }
    ensures count { IfOk result (λ made. length made.items ≡ count) }
{
    let mut lists = Vec::new(alloc);
    for _made in 0..count {
        lists.push(Vec::new(alloc))?;
    }
    Ok(lists)
}

/// Appends to the list of this number.
fn push_write(lists: &mut Vec<Vec<Write>>, number: u32, write: Write) -> Result<(), AllocError>
    requires { number < length lists.old.items }
    ensures pushed { OnOk result (writes_in lists.new.items number ≡ writes_in lists.old.items number ++ (write ∷ [])) }
    ensures others { OnOk result ((n : ℕ) → n ≢ number → writes_in lists.new.items n ≡ writes_in lists.old.items n) }
    ensures count { OnOk result (length lists.new.items ≡ length lists.old.items) }
{
    lists[number as usize].push(write)?;
    Ok(())
}

/// The list of this number; no entries where there is none.
fn writes(lists: &[Vec<Write>], number: u32) -> &[Write]
    ensures { result.now ≡ writes_in lists.now number }
{
    match lists.get(number as usize) {
        Some(found) => found.as_slice(),
        None => &[],
    }
}

/// Sorts the list of this number.
fn sort_one(lists: &mut Vec<Vec<Write>>, number: usize)
    requires { number < length lists.old.items }
    ensures count { length lists.new.items ≡ length lists.old.items }
    ensures moved { (n : ℕ) → IsPermutation (writes_in lists.old.items n) (writes_in lists.new.items n) }
{
    lists[number].sort_unstable();
}

/// Sorts each list.
fn sort_all(lists: &mut Vec<Vec<Write>>)
    ensures { (n : ℕ) → IsPermutation (writes_in lists.old.items n) (writes_in lists.new.items n) }
{
    for number in 0..lists.len() {
        sort_one(lists, number);
    }
}

/// The home of a name. One that has none counts as kept in the first slot.
fn home_of(homes: &[Home], name: u32) -> Home
    ensures { result ≡ home_in homes.now name }
{
    match homes.get(name as usize) {
        Some(home) => *home,
        None => Home::Slot(0),
    }
}

impl<'a> Writers<'a> {
    /// The write of a name in a place, of this number.
    fn push(&mut self, number: usize, written: Written) -> Result<(), AllocError>
        requires sound { AreSound self.old }
        requires writes { Writes self.old written.place written.name written.writer }
        requires lists { HasLists self.old written.name }
        requires indexed { IsIndexed self.old }
        requires next { AreNoLater self.old (rank_of written.writer) }
        requires number { number ≡ length self.old.all.items }
        ensures more { OnOk result (AreMore self.old self.new) }
        ensures sound { OnOk result (AreSound self.new) }
        ensures indexed { OnOk result (IsIndexed self.new) }
        ensures next { OnOk result
            ((rank : List ℕ) → IsNoLater (rank_of written.writer) rank → AreNoLater self.old rank
            → AreNoLater self.new rank) }
        ensures there { OnOk result (IsKnown self.new written.place written.name written.writer) }
    {
        self.all.push(written)?;
        let write = Write {
            place: written.place,
            number,
        };
        let home = home_number(self.homes, written.name);
        push_write(&mut self.by_home, home, write)?;
        push_write(&mut self.by_name, written.name, write)?;
        Ok(())
    }

    /// A name is written in a place, and nothing that is known comes later.
    fn add(&mut self, place: Option<Place>, name: u32, writer: Writer) -> Result<(), AllocError>
        requires sound { AreSound self.old }
        requires writes { (p : ℕ) → placed place ≡ Some p → Writes self.old p name writer }
        requires lists { HaveLists self.old }
        requires indexed { IsIndexed self.old }
        requires next { AreNoLater self.old (rank_of writer) }
        ensures more { OnOk result (AreMore self.old self.new) }
        ensures sound { OnOk result (AreSound self.new) }
        ensures indexed { OnOk result (IsIndexed self.new) }
        ensures next { OnOk result
            ((rank : List ℕ) → IsNoLater (rank_of writer) rank → AreNoLater self.old rank
            → AreNoLater self.new rank) }
        ensures there { OnOk result ((p : ℕ) → placed place ≡ Some p → IsKnown self.new p name writer) }
    {
        let Some(place) = place else {
            return Ok(());
        };
        let number = self.all.len();
        let written = Written {
            place: place.0,
            name,
            writer,
        };
        self.push(number, written)?;
        Ok(())
    }

    /// The binding of a parameter.
    fn add_binding(&mut self, parameter: usize, binding: &Binding) -> Result<(), AllocError>
        requires sound { AreSound self.old }
        requires lists { HaveLists self.old }
        requires indexed { IsIndexed self.old }
        requires next { AreNoLater self.old (0 ∷ parameter ∷ []) }
        requires binding { slice_get (graph_view self.old.graph.now).parameters parameter
            ≡ Some (binding_view binding.now) }
        ensures more { OnOk result (AreMore self.old self.new) }
        ensures sound { OnOk result (AreSound self.new) }
        ensures indexed { OnOk result (IsIndexed self.new) }
        ensures next { OnOk result (AreNoLater self.new (0 ∷ parameter ∷ [])) }
        ensures there { OnOk result
            ((x : ℕ) → binding_view binding.now ≡ ToScalar x
            → IsKnown self.new (graph_view self.new.graph.now).entry x (BindingOf self.new.function parameter)) }
    {
        match binding {
            Binding::Scalar(name) => {
                let writer = Writer::Binding {
                    function: self.function,
                    parameter,
                };
                self.add(Some(self.graph.entry), name.0, writer)?;
                Ok(())
            }
            Binding::Object(_) => Ok(()),
        }
    }

    /// The bindings of the parameters.
    fn add_bindings(&mut self) -> Result<(), AllocError>
        requires sound { AreSound self.old }
        requires lists { HaveLists self.old }
        requires indexed { IsIndexed self.old }
        requires next { AreNoLater self.old (0 ∷ 0 ∷ []) }
        ensures more { OnOk result (AreMore self.old self.new) }
        ensures sound { OnOk result (AreSound self.new) }
        ensures indexed { OnOk result (IsIndexed self.new) }
        ensures next { OnOk result (AreNoLater self.new (1 ∷ 0 ∷ 0 ∷ [])) }
        ensures all { OnOk result (AreBindings self.new (length self.new.graph.now.parameters.items)) }
    {
        let bindings = &self.graph.parameters;
        for k in 0..bindings.len() {
            self.add_binding(k, &bindings[k])?;
        }
        Ok(())
    }

    /// What an instruction writes in a place.
    fn add_instruction(
        &mut self,
        place: Option<Place>,
        instruction: &Instr,
        writer: Writer,
    ) -> Result<(), AllocError>
        requires sound { AreSound self.old }
        requires writes { (p x : ℕ) → placed place ≡ Some p → target_of (instruction_view instruction.now) ≡ Some x
            → Writes self.old p x writer }
        requires lists { HaveLists self.old }
        requires indexed { IsIndexed self.old }
        requires next { AreNoLater self.old (rank_of writer) }
        ensures more { OnOk result (AreMore self.old self.new) }
        ensures sound { OnOk result (AreSound self.new) }
        ensures indexed { OnOk result (IsIndexed self.new) }
        ensures next { OnOk result (AreNoLater self.new (rank_of writer)) }
        ensures there { OnOk result
            ((p x : ℕ) → placed place ≡ Some p → target_of (instruction_view instruction.now) ≡ Some x
            → IsKnown self.new p x writer) }
    {
        match instruction.target() {
            Some(target) => {
                self.add(place, target.0, writer)?;
                Ok(())
            }
            None => Ok(()),
        }
    }

    /// The instructions of a block.
    fn add_block(&mut self, number: usize, block: &Block) -> Result<(), AllocError>
        requires sound { AreSound self.old }
        requires lists { HaveLists self.old }
        requires indexed { IsIndexed self.old }
        requires next { AreNoLater self.old (1 ∷ number ∷ 0 ∷ []) }
        requires block { slice_get self.old.graph.now.blocks.items number ≡ Some block.now }
        ensures more { OnOk result (AreMore self.old self.new) }
        ensures sound { OnOk result (AreSound self.new) }
        ensures indexed { OnOk result (IsIndexed self.new) }
        ensures next { OnOk result (AreNoLater self.new (1 ∷ (number + 1) ∷ 0 ∷ [])) }
        ensures all { OnOk result
            (AreInstructions self.new number (map instruction_view block.now.instructions.items)
            (placed block.now.place) (length block.now.instructions.items)) }
    {
        let mut place = block.place;
        for k in 0..block.instructions.len() {
            let instruction = &block.instructions[k];
            let writer = Writer::Instruction {
                function: self.function,
                block: number,
                index: k,
            };
            self.add_instruction(place, instruction, writer)?;
            place = instruction.marker().or(place);
        }
        Ok(())
    }

    /// The blocks of the function.
    fn add_blocks(&mut self) -> Result<(), AllocError>
        requires sound { AreSound self.old }
        requires lists { HaveLists self.old }
        requires indexed { IsIndexed self.old }
        requires next { AreNoLater self.old (1 ∷ 0 ∷ 0 ∷ []) }
        ensures more { OnOk result (AreMore self.old self.new) }
        ensures sound { OnOk result (AreSound self.new) }
        ensures indexed { OnOk result (IsIndexed self.new) }
        ensures all { OnOk result (AreBlocks self.new (length self.new.graph.now.blocks.items)) }
    {
        let blocks = &self.graph.blocks;
        for n in 0..blocks.len() {
            self.add_block(n, &blocks[n])?;
        }
        Ok(())
    }

    /// What writes the homes of a function's names. The homes are those of its names.
    pub fn new(
        alloc: Global,
        function: u32,
        graph: &'a Graph,
        homes: &'a [Home],
    ) -> Result<Writers<'a>, AllocError>
        requires { AreHomed function (graph_view graph.now) homes.now }
        ensures writers { IfOk result (λ made. AreWriters made) }
        ensures function { IfOk result (λ made. made.function ≡ function) }
        ensures graph { IfOk result (λ made. made.graph.now ≡ graph.now) }
        ensures homes { IfOk result (λ made. made.homes.now ≡ homes.now) }
    {
        let mut writers = Writers {
            function,
            graph,
            homes,
            all: Vec::new(alloc),
            by_home: no_writes(alloc, home_count(homes))?,
            by_name: no_writes(alloc, homes.len())?,
        };
        writers.add_bindings()?;
        writers.add_blocks()?;
        sort_all(&mut writers.by_home);
        sort_all(&mut writers.by_name);
        Ok(writers)
    }

    /// What writes the homes of the number of a name's home, in order.
    pub fn of_home(&self, name: u32) -> &[Write]
        requires { AreWriters self.now }
        ensures { AreWritesBy self.now.all.items (home_key self.now) (home_key self.now name) result.now }
    {
        writes(&self.by_home, home_number(self.homes, name))
    }

    /// What writes a name, in order.
    pub fn of_name(&self, name: u32) -> &[Write]
        requires { AreWriters self.now }
        ensures { AreWritesBy self.now.all.items (λ y. y) name result.now }
    {
        writes(&self.by_name, name)
    }

    /// What writes a name in a place, by its number; none where that is another place.
    pub fn at(&self, number: usize, place: u32) -> Option<Written>
        requires { AreSound self.now }
        ensures writes { IfSome result (λ z. Writes self.now place z.name z.writer) }
        ensures some { IfSome result (λ z. (slice_get self.now.all.items number ≡ Some z) × (z.place ≡ place)) }
        ensures all { (z : declared-written.Written) → slice_get self.now.all.items number ≡ Some z → z.place ≡ place
            → result ≡ Some z }
    {
        if number >= self.all.len() {
            return None;
        }
        let written = self.all[number];
        if written.place == place {
            Some(written)
        } else {
            None
        }
    }

    /// Whether two names have one home.
    pub fn have_one_home(&self, x: u32, y: u32) -> bool
        ensures { (result ≡ true) ↔ HaveOneHome self.now x y }
    {
        is_same(home_of(self.homes, x), home_of(self.homes, y))
    }
}

/// Whether two homes are one.
fn is_same(one: Home, other: Home) -> bool
    ensures { result ≡ is_same_home one other }
{
    match (one, other) {
        (Home::Register(r), Home::Register(q)) => r == q,
        (Home::Slot(r), Home::Slot(q)) => r == q,
        _ => false,
    }
}
