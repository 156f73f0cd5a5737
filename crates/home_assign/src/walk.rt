//! A walk over a graph, against execution, that finds which names are written where others are live.

ghost use Rattle.std.specs.Prelude.{◌≡◌, ◌≢◌, ◌+◌, ◌<◌, ◌≤◌, ◌==◌, ◌&&◌, ◌||◌, ◌⊎◌, ◌↔◌, ℕ, IfOk, OnOk, false, true, if◌then◌else◌, length, map, not, option_map, slice_get};
ghost use Rattle.std.specs.List.{list_any};
ghost use Rattle.bit_rows.specs.Grid.{is_set, row_at};
ghost use Rattle.graph_core.specs.Graphs.{binding_view, graph_view, instruction_view};
ghost use Rattle.graph_core.specs.Paths as paths;
ghost use Rattle.graph_core.specs.Paths.{is_bound, writes};
ghost use Rattle.graph_core.specs.Uses.{numbers};
ghost use Rattle.graph_core.specs.declared.name.Name as declared-name;
ghost use Rattle.graph_solve_live.specs.Live.{AreLive};
ghost use Rattle.graph_solve.specs.Rows.{set_at};
ghost use Rattle.graph_solve_live.specs.LiveRows.{ends_of, starts_of};
ghost use Rattle.home_assign.specs.Clashes.{Clashes, ClashesIn, MayHaveHomes, copied_of, copies};
ghost use Rattle.home_assign.specs.Table.{AreSameBehind, AreSameBut, AreWide};

use crate::rows::meet;
use bit_rows::Rows;
use graph_core::{Binding, Graph, Instr, Name, Operand};
use graph_solve_live::LiveRows;
use std::alloc::{AllocError, Global};

/// What a walk has found so far.
#[derive(Drop)]
pub(crate) struct Walk {
    /// For each name those that are live behind a place where it is written. Behind these rows stands one of the names
    /// that are live at the point to which the walk has come, and 33 that stay clear, for the registers.
    pub rows: Rows,
    /// How many names there are.
    pub names: u32,
    ghost few: { names ≤ 3000 },
    ghost each: { length rows ≡ names + 34 },
    ghost wide: { AreWide names rows },
}

/// The name that an instruction copies.
fn copied(instruction: &Instr) -> Option<Name>
    ensures { option_map (λ (n : declared-name.Name). n.0) result ≡ copied_of (instruction_view instruction.now) }
{
    match instruction {
        Instr::Move {
            from: Operand::Name(name),
            ..
        } => Some(*name),
        _ => None,
    }
}

impl Walk {
    /// A walk that has found nothing so far.
    fn new(alloc: Global, names: u32) -> Result<Walk, AllocError>
        requires { names ≤ 3000 }
        ensures names { IfOk result (λ walk. walk.names ≡ names) }
        ensures clear { IfOk result (λ walk. (r y : ℕ) → is_set walk.rows r y ≡ false) }
    {
        Ok(Walk {
            rows: Rows::new(alloc, names + 34, names)?,
            names,
        })
    }

    /// Whether a name is live.
    fn is_live(&self, name: u32) -> bool
        ensures { result ≡ is_set self.now.rows self.now.names name }
    {
        name < self.names && self.rows.get(self.names, name)
    }

    /// A name is live, or is not.
    fn set_live(&mut self, name: u32, is_live: bool)
        ensures names { self.new.names ≡ self.old.names }
        ensures live { (y : ℕ) → y < self.old.names
            → is_set self.new.rows self.old.names y ≡
            (if name == y then is_live else is_set self.old.rows self.old.names y) }
        ensures others { AreSameBut self.old.names self.old.rows self.new.rows }
    {
        if name < self.names {
            if is_live {
                self.rows.set(self.names, name);
            } else {
                self.rows.clear(self.names, name);
            }
        }
    }

    /// The names that are live are those at the end of a block.
    fn begin_at_end(&mut self, live: &LiveRows, block: u32)
        requires block { block < live.now.blocks }
        requires width { live.now.width ≡ self.old.names }
        ensures names { self.new.names ≡ self.old.names }
        ensures live { slice_get (ends_of live.now) block ≡ Some (set_at self.new.rows self.old.names) }
        ensures others { AreSameBut self.old.names self.old.rows self.new.rows }
    {
        live.put_end(block, &mut self.rows, self.names);
    }

    /// The names that are live are those at the start of a block.
    fn begin_at_start(&mut self, live: &LiveRows, block: u32)
        requires block { block < live.now.blocks }
        requires width { live.now.width ≡ self.old.names }
        ensures names { self.new.names ≡ self.old.names }
        ensures live { slice_get (starts_of live.now) block ≡ Some (set_at self.new.rows self.old.names) }
        ensures others { AreSameBut self.old.names self.old.rows self.new.rows }
    {
        live.put_start(block, &mut self.rows, self.names);
    }

    /// A name is written where the live names are live behind it.
    fn write(&mut self, name: Name)
        ensures names { self.new.names ≡ self.old.names }
        ensures written { (x y : ℕ) → x < self.old.names
            → is_set self.new.rows x y ≡
            (is_set self.old.rows x y || ((name.0 == x) && is_set self.old.rows self.old.names y)) }
        ensures others { AreSameBehind self.old.names self.old.rows self.new.rows }
    {
        if name.0 < self.names {
            let _changed = meet(&mut self.rows, self.names, name.0, true);
        }
    }

    /// A name is written that becomes another one's value: so it may share that one's home.
    fn write_copy(&mut self, name: Name, of: Name)
        ensures names { self.new.names ≡ self.old.names }
        ensures written { (x y : ℕ) → x < self.old.names → y < self.old.names
            → is_set self.new.rows x y ≡
            (is_set self.old.rows x y ||
            (((name.0 == x) && not (of.0 == y)) && is_set self.old.rows self.old.names y)) }
        ensures live { (y : ℕ) → y < self.old.names → is_set self.new.rows self.old.names y
            ≡ is_set self.old.rows self.old.names y }
        ensures others { AreSameBehind (self.old.names + 1) self.old.rows self.new.rows }
    {
        let is_live = self.is_live(of.0);
        self.set_live(of.0, false);
        self.write(name);
        self.set_live(of.0, is_live);
    }

    /// An instruction writes a name.
    fn write_by(&mut self, instruction: &Instr, name: Name)
        ensures names { self.new.names ≡ self.old.names }
        ensures written { (x y : ℕ) → x < self.old.names → y < self.old.names
            → is_set self.new.rows x y ≡
            (is_set self.old.rows x y || (((name.0 == x) && not (copies y (instruction_view instruction.now))) &&
            is_set self.old.rows self.old.names y)) }
        ensures live { (y : ℕ) → y < self.old.names → is_set self.new.rows self.old.names y
            ≡ is_set self.old.rows self.old.names y }
        ensures others { AreSameBehind (self.old.names + 1) self.old.rows self.new.rows }
    {
        match copied(instruction) {
            Some(of) => self.write_copy(name, of),
            None => self.write(name),
        }
    }

    /// From the names that are live behind an instruction to those that are live before it writes.
    fn step_over_write(&mut self, instruction: &Instr)
        ensures names { self.new.names ≡ self.old.names }
        ensures written { (x y : ℕ) → x < self.old.names → y < self.old.names
            → is_set self.new.rows x y ≡
            (is_set self.old.rows x y || ((writes x (instruction_view instruction.now) && not
            (copies y (instruction_view instruction.now))) && is_set self.old.rows self.old.names y)) }
        ensures live { (y : ℕ) → y < self.old.names
            → is_set self.new.rows self.old.names y ≡
            (not (writes y (instruction_view instruction.now)) && is_set self.old.rows self.old.names y) }
        ensures others { AreSameBehind (self.old.names + 1) self.old.rows self.new.rows }
    {
        if let Some(target) = instruction.target() {
            self.write_by(instruction, target);
            self.set_live(target.0, false);
        }
    }

    /// Names that are read are live before that.
    fn read(&mut self, names: &[Name])
        ensures names { self.new.names ≡ self.old.names }
        ensures live { (y : ℕ) → y < self.old.names
            → is_set self.new.rows self.old.names y ≡
            (list_any (λ z. z == y) (numbers names.now) || is_set self.old.rows self.old.names y) }
        ensures others { AreSameBut self.old.names self.old.rows self.new.rows }
    {
        let mut left = names;
        while let [name, rest @ ..] = left {
            self.set_live(name.0, true);
            left = rest;
        }
    }

    /// From the names that are live behind an instruction to those before it.
    fn step_back(&mut self, alloc: Global, instruction: &Instr) -> Result<(), AllocError>
        ensures names { OnOk result (self.new.names ≡ self.old.names) }
        ensures written { OnOk result
            ((x y : ℕ) → x < self.old.names → y < self.old.names → is_set self.new.rows x y ≡ (is_set self.old.rows x y || ((writes x (instruction_view instruction.now) && not (copies y (instruction_view instruction.now))) && is_set self.old.rows self.old.names y))) }
        ensures live { OnOk result
            ((y : ℕ) → y < self.old.names → is_set self.new.rows self.old.names y ≡ (paths.reads y
            (instruction_view instruction.now) ||
            (not (writes y (instruction_view instruction.now)) && is_set self.old.rows self.old.names y))) }
        ensures others { OnOk result (AreSameBehind (self.old.names + 1) self.old.rows self.new.rows) }
    {
        self.step_over_write(instruction);
        self.read(&instruction.reads(alloc)?);
        Ok(())
    }

    /// What the instructions of a block write.
    fn walk_block(
        &mut self,
        alloc: Global,
        graph: &Graph,
        number: u32,
        live: &LiveRows,
    ) -> Result<(), AllocError>
        requires block { number < length graph.now.blocks.items }
        requires all { live.now.blocks ≡ length graph.now.blocks.items }
        requires width { live.now.width ≡ self.old.names }
        requires few { self.old.names ≡ graph.now.name_count }
        requires live { AreLive (graph_view graph.now) (starts_of live.now) (ends_of live.now) }
        ensures names { OnOk result (self.new.names ≡ self.old.names) }
        ensures written { OnOk result
            ((x y : ℕ) → x < self.old.names → y < self.old.names → (is_set self.new.rows x y ≡ true) ↔
            ((is_set self.old.rows x y ≡ true) ⊎ ClashesIn (graph_view graph.now) x y number)) }
        ensures others { OnOk result (AreSameBehind (self.old.names + 1) self.old.rows self.new.rows) }
    {
        let block = &graph.blocks[number as usize];
        self.begin_at_end(live, number);
        self.read(&block.end.reads(alloc)?);
        let mut left = block.instructions.len();
        while left > 0 {
            left -= 1;
            self.step_back(alloc, &block.instructions[left])?;
        }
        Ok(())
    }

    /// What the instructions of a graph write.
    fn walk_blocks(
        &mut self,
        alloc: Global,
        graph: &Graph,
        live: &LiveRows,
    ) -> Result<(), AllocError>
        requires few { length graph.now.blocks.items < 4294967296 }
        requires all { live.now.blocks ≡ length graph.now.blocks.items }
        requires width { live.now.width ≡ self.old.names }
        requires names { self.old.names ≡ graph.now.name_count }
        requires live { AreLive (graph_view graph.now) (starts_of live.now) (ends_of live.now) }
        requires clear { (x y : ℕ) → is_set self.old.rows x y ≡ false }
        ensures names { OnOk result (self.new.names ≡ self.old.names) }
        ensures written { OnOk result
            ((x y : ℕ) → x < self.old.names → y < self.old.names
            → (is_set self.new.rows x y ≡ true) ↔ ((n : ℕ) × ClashesIn (graph_view graph.now) x y n)) }
        ensures others { OnOk result (AreSameBehind (self.old.names + 1) self.old.rows self.new.rows) }
    {
        for number in 0..graph.blocks.len() as u32 {
            self.walk_block(alloc, graph, number, live)?;
        }
        Ok(())
    }

    /// A call writes the scalars that are parameters, all at once, where the live names are live.
    fn bind(&mut self, parameters: &[Binding])
        ensures names { self.new.names ≡ self.old.names }
        ensures written { (x y : ℕ) → x < self.old.names
            → is_set self.new.rows x y ≡
            (is_set self.old.rows x y ||
            (is_bound x (map binding_view parameters.now) && is_set self.old.rows self.old.names y)) }
        ensures others { AreSameBehind self.old.names self.old.rows self.new.rows }
    {
        let mut left = parameters;
        while let [binding, rest @ ..] = left {
            if let Binding::Scalar(name) = binding {
                self.write(*name);
            }
            left = rest;
        }
    }

    /// A call writes the scalars that are parameters at the start of the first block, if there is one.
    fn enter(&mut self, graph: &Graph, live: &LiveRows)
        requires all { live.now.blocks ≡ length graph.now.blocks.items }
        requires width { live.now.width ≡ self.old.names }
        requires few { self.old.names ≡ graph.now.name_count }
        requires live { AreLive (graph_view graph.now) (starts_of live.now) (ends_of live.now) }
        requires written { (x y : ℕ) → x < self.old.names → y < self.old.names
            → (is_set self.old.rows x y ≡ true) ↔ ((n : ℕ) × ClashesIn (graph_view graph.now) x y n) }
        ensures names { self.new.names ≡ self.old.names }
        ensures written { (x y : ℕ) → x < self.old.names → y < self.old.names
            → (is_set self.new.rows x y ≡ true) ↔ Clashes (graph_view graph.now) x y }
        ensures others { AreSameBehind (self.old.names + 1) self.old.rows self.new.rows }
    {
        if !graph.blocks.is_empty() {
            self.begin_at_start(live, 0);
            self.bind(&graph.parameters);
        }
    }
}

/// What a walk over a whole graph finds.
pub(crate) fn walk_over(alloc: Global, graph: &Graph, live: &LiveRows) -> Result<Walk, AllocError>
    requires may { MayHaveHomes (graph_view graph.now) }
    requires all { live.now.blocks ≡ length graph.now.blocks.items }
    requires width { live.now.width ≡ graph.now.name_count }
    requires live { AreLive (graph_view graph.now) (starts_of live.now) (ends_of live.now) }
    ensures names { IfOk result (λ walk. walk.names ≡ graph.now.name_count) }
    ensures written { IfOk result (λ walk.
        (x y : ℕ) → x < graph.now.name_count → y < graph.now.name_count
        → (is_set walk.rows x y ≡ true) ↔ Clashes (graph_view graph.now) x y) }
    ensures clear { IfOk result (λ walk. (r y : ℕ) → graph.now.name_count < r → is_set walk.rows r y ≡ false) }
{
    let mut walk = Walk::new(alloc, graph.name_count)?;
    walk.walk_blocks(alloc, graph, live)?;
    walk.enter(graph, live);
    Ok(walk)
}
