//! The unit of a program.

ghost use Rattle.std.specs.Prelude.{◌≡◌, ◌↔◌, [], AllPairs, IfOk, map};
ghost use Rattle.std.specs.List.{Contains};
ghost use Rattle.places.specs.declared.flow.Assignment.{Assignment};
ghost use Rattle.places.specs.declared.flow.FlowStep.{FlowStep};
ghost use Rattle.places.specs.Flow.{AreInOrder, IsAssignmentBefore};
ghost use Rattle.c_tree.specs.Programs.{program_view};
ghost use Rattle.c_flow.specs.Assigns.{assignments_of_program};
ghost use Rattle.c_flow.specs.Flow.{steps_of_program};
ghost use Rattle.c_flow.specs.Tables.{Fits32};
ghost use Rattle.graph_core.specs.Graphs.{graph_view, unit_view};
ghost use Rattle.graph_build_statements.specs.Numbering.{AreNumbered};
ghost use Rattle.graph_build.specs.Units.{IsUnitOf, graphs_from, room_of};

use crate::function::graph_of;
use crate::statics::{array_bytes_of, statics_of};
use c_flow::{flow_table, positions_of};
use c_places::places_of_program;
use c_tree::Program;
use debug_records::ChangeLog;
use graph_build_statements::Source;
use graph_core::{Graph, Room, Unit};
use std::alloc::{AllocError, Global};

/// The positions of a program's places, in order.
fn positions_in(alloc: Global, program: &Program) -> Result<Vec<u32>, AllocError>
    requires { Fits32 (program_view program.now) }
    ensures { IfOk result (λ v. AreNumbered (program_view program.now) v.items) }
{
    let places = places_of_program(alloc, program)?;
    let positions = positions_of(alloc, &places)?;
    Ok(positions)
}

/// The graphs of a program's functions, in their order.
fn graphs_of(alloc: Global, source: &Source<'_>) -> Result<Vec<Graph>, AllocError>
    ensures { IfOk result (λ v.
        map graph_view v.items ≡ graphs_from (program_view source.now.program.now) 0
        (program_view source.now.program.now).functions) }
{
    let mut graphs = Vec::new(alloc);
    for (number, function) in source.program.functions.iter().enumerate() {
        let is_main = number == source.program.main as usize;
        graphs.push(graph_of(alloc, source, function, is_main)?)?;
    }
    Ok(graphs)
}

/// The most that a program weighs whose unit is of the smaller room.
const SMALL_WEIGHT: u64 = 4000;

/// The room of a program's unit: what it weighs decides it.
fn room_of(program: &Program) -> Room
    ensures { result ≡ room_of (program_view program.now) }
{
    if program.weight > SMALL_WEIGHT {
        Room::Large
    } else {
        Room::Small
    }
}

/// The unit of a program. The only error is want of memory.
pub fn build(alloc: Global, program: &Program) -> Result<Unit, AllocError>
    requires { Fits32 (program_view program.now) }
    ensures forms { IfOk result (λ u. IsUnitOf (program_view program.now) (unit_view u)) }
    ensures main { IfOk result (λ u. (unit_view u).main ≡ (program_view program.now).main) }
    ensures unchanged { IfOk result (λ u. (unit_view u).log ≡ []) }
    ensures steps_in_order { IfOk result (λ u. AreInOrder (unit_view u).steps) }
    ensures steps { IfOk result (λ u.
        (s : FlowStep) → Contains (unit_view u).steps s ↔ Contains (steps_of_program (program_view program.now)) s) }
    ensures assignments_in_order { IfOk result (λ u. AllPairs IsAssignmentBefore (unit_view u).assignments) }
    ensures assignments { IfOk result (λ u.
        (a : Assignment)
        → Contains (unit_view u).assignments a ↔ Contains (assignments_of_program (program_view program.now)) a) }
{
    let flow = flow_table(alloc, program)?;
    let positions = positions_in(alloc, program)?;
    let source = Source {
        program,
        positions: positions.as_slice(),
    };
    Ok(Unit {
        graphs: graphs_of(alloc, &source)?,
        main: program.main,
        statics: statics_of(alloc, program)?,
        array_bytes: array_bytes_of(alloc, program)?,
        flow,
        log: ChangeLog::new(alloc),
        room: room_of(program),
    })
}
