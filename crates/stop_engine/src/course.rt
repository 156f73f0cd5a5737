//! The course of a run from halt to halt.

ghost use Rattle.std.specs.Prelude.{◌≡◌, ℕ, suc, ◌<◌, ◌≤◌, ◌++◌, List, Some, IfOk, IfSome, OnOk, OnErr, length, vec_len, vec_capacity};
ghost use Rattle.rv_machine.specs.Run.{MachineEvent, arrival, machine_run};
ghost use Rattle.rv_machine.specs.Table.{effect};
ghost use Rattle.stop_engine.specs.Executing.{Executes};
ghost use Rattle.stop_engine.specs.Halting.{from_halt, from_here, halt_at, halted_at};
ghost use Rattle.stop_engine.specs.Marking.{aim_of};
ghost use Rattle.stop_engine.specs.Passing.{IsAimed, PassesBy};
ghost use Rattle.stop_engine_view.specs.Run.{stop_addresses};

use crate::halt::Halt;
use crate::stop_table::StopTable;
use crate::stops::Stops;
use rv_machine::{Event, Machine};
use std::alloc::AllocError;
use stop_engine_tables::depth;

/// How many bytes of output a run takes room for at a time.
pub const ROOM: usize = 65_536;

/// Where a run halts that comes to this state behind an instruction, if it is to halt there.
fn arrived(table: &StopTable, aim: &Stops, machine: &Machine) -> Option<Halt>
    ensures passes { (events : List MachineEvent) (output : List ℕ) (rest : List MachineEvent)
        → PassesBy table.now (aim_of aim.now) events output (arrival (stop_addresses table.now) machine.now ++ rest)
        → PassesBy table.now (aim_of aim.now) events output (from_here result machine.now rest) }
    ensures halted { IfSome result (λ halt. halt_at table.now (halted_at halt machine.now) ≡ Some halt) }
    ensures aimed { IfSome result (λ halt. IsAimed table.now (aim_of aim.now) halt machine.now) }
{
    let place = table.stop_at(machine.pc())?;
    let depth = depth(machine);
    if !aim.has(depth, place) {
        return None;
    }
    Some(Halt::At { place, depth })
}

/// Carries out one instruction, and says where the run halts, if it does.
fn carry_out(
    table: &StopTable,
    aim: &Stops,
    machine: &mut Machine,
    output: &mut Vec<u8>,
) -> Option<Halt>
    requires { vec_len output.old < vec_capacity output.old }
    ensures passes { (events : List MachineEvent) (n : ℕ)
        → PassesBy table.now (aim_of aim.now) events output.old.items
        (machine_run (stop_addresses table.now) (suc n) machine.old)
        → PassesBy table.now (aim_of aim.now) events output.new.items
        (from_here result machine.new (machine_run (stop_addresses table.now) n machine.new)) }
    ensures halted { IfSome result (λ halt. halt_at table.now (halted_at halt machine.new) ≡ Some halt) }
    ensures aimed { IfSome result (λ halt. IsAimed table.now (aim_of aim.now) halt machine.new) }
    ensures room { vec_capacity output.new ≡ vec_capacity output.old }
    ensures moved { machine.new ≡ (effect machine.old).after }
{
    match machine.step() {
        Event::Went => arrived(table, aim, machine),
        Event::Out(byte) => {
            output.push_reserved(byte);
            arrived(table, aim, machine)
        }
        Event::Exited(status) => Some(Halt::Exited(status)),
        Event::Depth => Some(Halt::Depth),
        Event::Fault(address) => Some(Halt::Fault(address)),
    }
}

/// Takes more room for output where what was taken is full.
fn make_room(output: &mut Vec<u8>) -> Result<(), AllocError>
    ensures items { output.new.items ≡ output.old.items }
    ensures len { vec_len output.new ≡ vec_len output.old }
    ensures kept { vec_capacity output.old ≤ vec_capacity output.new }
    ensures room { OnOk result (vec_len output.new < vec_capacity output.new) }
    ensures full { OnErr result (vec_len output.old ≡ vec_capacity output.old) }
{
    if output.len() == output.capacity() {
        output.reserve(ROOM)?;
    }
    Ok(())
}

/// Runs to the next stop of the aim or to the ending, with at most so many instructions. `AllocError` where the room
/// for output is full and more of it was refused: the run then stands between two instructions, and may go on.
pub fn run_on(
    table: &StopTable,
    aim: &Stops,
    machine: &mut Machine,
    left: &mut u64,
    output: &mut Vec<u8>,
) -> Result<Halt, AllocError>
    requires { ROOM ≤ vec_capacity output.old }
    ensures passes { IfOk result (λ halt. (events : List MachineEvent)
        → PassesBy table.now (aim_of aim.now) events output.old.items
        (machine_run (stop_addresses table.now) left.old machine.old)
        → PassesBy table.now (aim_of aim.now) events output.new.items
        (from_halt halt machine.new (machine_run (stop_addresses table.now) left.new machine.new))) }
    ensures halted { IfOk result (λ halt. halt_at table.now (halted_at halt machine.new) ≡ Some halt) }
    ensures aimed { IfOk result (λ halt. IsAimed table.now (aim_of aim.now) halt machine.new) }
    ensures kept { OnErr result ((events : List MachineEvent)
        → PassesBy table.now (aim_of aim.now) events output.old.items
        (machine_run (stop_addresses table.now) left.old machine.old)
        → PassesBy table.now (aim_of aim.now) events output.new.items
        (machine_run (stop_addresses table.now) left.new machine.new)) }
    ensures full { OnErr result (ROOM ≤ length output.new.items) }
    ensures executed { Executes left.old machine.old left.new machine.new }
{
    while *left > 0 {
        make_room(output)?;
        *left -= 1;
        match carry_out(table, aim, machine, output) {
            Some(halt) => return Ok(halt),
            None => {}
        }
    }
    Ok(Halt::Limit)
}
