//! Tests of lists of passes, with two passes of the tests' own.

ghost use Rattle.std.specs.Prelude.{◌≡◌, ◌≤◌, IfOk, length};
ghost use Rattle.graph_core.specs.Graphs.{block_view, graph_view, unit_view};
ghost use Rattle.graph_core.specs.Graphs as form;
ghost use Rattle.pass_law.specs.Worked.{assigning, assigns_two, block, built, entry_block, return_block, unreached_block};

use debug_records::{ChangeLog, Kind, PassName, Place, Var};
use graph_core::{
    Block, Callee, End, Graph, Instr, Label, Name, NoteValue, Operand, Recipe, Room, Scalar, Unit,
};
use pass_law::{Pass, RunErr, Trail, run_list};
use places::{Assignment, FlowStep, FlowTable};
use smallvec::SmallVec;
use std::alloc::{AllocError, Global};
use std::test::Fail;

/// A pass that gives back an equal unit.
#[derive(Drop)]
struct Same {
    name: PassName,
}

impl Pass for Same {
    ghost use Rattle.cdbg_middle_tests.specs.Examples.{same_steps};

    ghost named = { λ p. p.name };

    ghost steps = { λ p. same_steps };

    fn name(&self) -> PassName {
        self.name
    }

    fn apply(&self, alloc: Global, unit: &Unit) -> Result<Unit, AllocError> {
        unit.duplicate(alloc)
    }
}

/// A pass that logs a change of the first scalar of the first function, if there is one, at that function's entry.
#[derive(Drop)]
struct Logs {
    name: PassName,
}

impl Pass for Logs {
    ghost use Rattle.cdbg_middle_tests.specs.Examples.{logging_steps};

    ghost named = { λ p. p.name };

    ghost steps = { λ p. logging_steps };

    fn name(&self) -> PassName {
        self.name
    }

    fn apply(&self, alloc: Global, unit: &Unit) -> Result<Unit, AllocError> {
        let mut next = unit.duplicate(alloc)?;
        let Some(graph) = unit.graphs.first() else {
            return Ok(next);
        };
        if let Some(scalar) = graph.scalars.first() {
            next.log
                .push(self.name, Kind::Moved, graph.entry, scalar.var)?;
        }
        Ok(next)
    }
}

/// The block of the entry.
fn entry(alloc: Global) -> Result<Block, AllocError>
    ensures { IfOk result (λ b. block_view b ≡ entry_block) }
{
    let mut instructions = Vec::new(alloc);
    instructions.push(Instr::Marker(Place(1)))?;
    Ok(Block {
        place: None,
        instructions,
        end: End::Jump(Label(1)),
    })
}

/// The block of `int x = 2`.
fn assignment(alloc: Global) -> Result<Block, AllocError>
    ensures { IfOk result (λ b. block_view b ≡ block (Some 1) assigns_two (form.Jump 2)) }
{
    let x = Name(0);
    let mut instructions = Vec::new(alloc);
    instructions.push(Instr::Marker(Place(2)))?;
    instructions.push(Instr::Move {
        target: x,
        from: Operand::Constant(2),
    })?;
    instructions.push(Instr::Note {
        of: x,
        value: NoteValue::Is(Recipe::Operand(Operand::Name(x))),
    })?;
    Ok(Block {
        place: Some(Place(1)),
        instructions,
        end: End::Jump(Label(2)),
    })
}

/// The block of `return x`.
fn returning(alloc: Global) -> Result<Block, AllocError>
    ensures { IfOk result (λ b. block_view b ≡ return_block (form.Name 0)) }
{
    let mut instructions = Vec::new(alloc);
    instructions.push(Instr::Marker(Place(3)))?;
    Ok(Block {
        place: Some(Place(2)),
        instructions,
        end: End::Return(Some(Operand::Name(Name(0)))),
    })
}

/// The block to which nothing leads.
fn unreached(alloc: Global) -> Result<Block, AllocError>
    ensures { IfOk result (λ b. block_view b ≡ unreached_block) }
{
    let x = Name(0);
    let mut instructions = Vec::new(alloc);
    instructions.push(Instr::Note {
        of: x,
        value: NoteValue::Is(Recipe::Operand(Operand::Name(x))),
    })?;
    instructions.push(Instr::Call {
        target: None,
        callee: Callee::Putchar,
        arguments: SmallVec::from_slice(alloc, &[Operand::Name(x)])?,
    })?;
    Ok(Block {
        place: Some(Place(2)),
        instructions,
        end: End::Jump(Label(2)),
    })
}

/// The graph of `int main(void) { int x = 2; return x; }`.
fn main_graph(alloc: Global) -> Result<Graph, AllocError>
    ensures { IfOk result (λ g. graph_view g ≡ assigning) }
{
    let mut blocks = Vec::new(alloc);
    blocks.push(entry(alloc)?)?;
    blocks.push(assignment(alloc)?)?;
    blocks.push(returning(alloc)?)?;
    blocks.push(unreached(alloc)?)?;
    let mut scalars = Vec::new(alloc);
    scalars.push(Scalar {
        var: Var(0),
        of: 0,
        place: Place(2),
    })?;
    Ok(Graph {
        entry: Place(1),
        parameters: Vec::new(alloc),
        scalars,
        objects: Vec::new(alloc),
        name_count: 1,
        first_moved: 1,
        blocks,
    })
}

/// The unit of this program.
fn unit_of_main(alloc: Global) -> Result<Unit, AllocError>
    ensures { IfOk result (λ u. unit_view u ≡ built) }
{
    let mut graphs = Vec::new(alloc);
    graphs.push(main_graph(alloc)?)?;
    let mut steps = Vec::new(alloc);
    steps.push(FlowStep {
        from: Place(1),
        to: Place(2),
    })?;
    steps.push(FlowStep {
        from: Place(2),
        to: Place(3),
    })?;
    let mut assignments = Vec::new(alloc);
    assignments.push(Assignment {
        place: Place(2),
        var: Var(0),
    })?;
    Ok(Unit {
        graphs,
        main: 0,
        statics: Vec::new(alloc),
        array_bytes: Vec::new(alloc),
        flow: FlowTable { steps, assignments },
        log: ChangeLog::new(alloc),
        room: Room::Small,
    })
}

/// Runs a list of at most 32 names on this unit.
fn trail_of(alloc: Global, passes: &[Box<dyn Pass>], names: &[PassName]) -> Result<Trail, RunErr>
    requires { length names.now ≤ 32 }
{
    let unit = unit_of_main(alloc)?;
    run_list(alloc, passes, names, unit)
}

/// How many changes the log of a unit has, and how many instructions its second block.
fn size(unit: &Unit) -> (usize, usize) {
    let mut instructions = 0;
    if let Some(graph) = unit.graphs.first() {
        if let Some(block) = graph.blocks.get(1) {
            instructions = block.instructions.len();
        }
    }
    (unit.log.changes().len(), instructions)
}

/// The sizes of each unit of a trail.
fn sizes(alloc: Global, trail: Result<Trail, RunErr>) -> Result<Vec<(usize, usize)>, AllocError> {
    let mut all = Vec::new(alloc);
    if let Ok(trail) = trail {
        for unit in &trail.units {
            all.push(size(unit))?;
        }
    }
    Ok(all)
}

/// The index of the name that is unknown, if it is for one that a list was not run.
fn unknown(trail: Result<Trail, RunErr>) -> Option<usize> {
    match trail {
        Err(RunErr::Unknown(index)) => Some(index),
        Ok(_) | Err(RunErr::NoMemory) => None,
    }
}

#[test]
fn a_trail_has_the_units_before_and_after_each_pass(rt: HostRuntime) -> Result<(), Fail> {
    let alloc = rt.alloc();
    let (Some(same), Some(logs)) = (PassName::of(b"same"), PassName::of(b"logs")) else {
        assert!(rt; false, "these are names");
        return Ok(());
    };
    let mut passes: Vec<Box<dyn Pass>> = Vec::new(alloc);
    passes.push(Box::new(alloc, Same { name: same })?)?;
    passes.push(Box::new(alloc, Logs { name: logs })?)?;
    let sizes_of_none = sizes(alloc, trail_of(alloc, &passes, &[]))?;
    assert!(rt;
        sizes_of_none.as_slice() == [(0, 3)].as_slice(),
        "an empty list leaves the unit"
    );
    let four = [same, logs, same, logs];
    let sizes_of_four = sizes(alloc, trail_of(alloc, &passes, &four))?;
    assert!(rt; sizes_of_four.as_slice() == [(0, 3), (0, 3), (1, 3), (1, 3), (2, 3)].as_slice());
    Ok(())
}

#[test]
fn of_two_passes_of_a_name_the_first_is_taken(rt: HostRuntime) -> Result<(), Fail> {
    let alloc = rt.alloc();
    let Some(name) = PassName::of(b"twice") else {
        assert!(rt; false, "this is a name");
        return Ok(());
    };
    let mut passes: Vec<Box<dyn Pass>> = Vec::new(alloc);
    passes.push(Box::new(alloc, Logs { name })?)?;
    passes.push(Box::new(alloc, Same { name })?)?;
    let sizes_of_two = sizes(alloc, trail_of(alloc, &passes, &[name, name]))?;
    assert!(rt; sizes_of_two.as_slice() == [(0, 3), (1, 3), (2, 3)].as_slice());
    Ok(())
}

#[test]
fn the_first_unknown_name_is_told(rt: HostRuntime) -> Result<(), Fail> {
    let alloc = rt.alloc();
    let (Some(same), Some(other)) = (PassName::of(b"same"), PassName::of(b"sam")) else {
        assert!(rt; false, "these are names");
        return Ok(());
    };
    let mut passes: Vec<Box<dyn Pass>> = Vec::new(alloc);
    passes.push(Box::new(alloc, Same { name: same })?)?;
    assert!(rt; unknown(trail_of(alloc, &passes, &[same, other, other])) == Some(1));
    assert!(rt; unknown(trail_of(alloc, &passes, &[other])) == Some(0));
    assert!(rt; unknown(trail_of(alloc, &passes, &[same])).is_none());
    Ok(())
}
