//! The run of an image from halt to halt.

ghost use Rattle.std.specs.Prelude.{◌≡◌, ◌≤◌, ◌^◌, ◌<◌, ◌++◌, ◌⊎◌, [], ◌∷◌, Some, IfOk, IfSome, IfNone, OnOk, OnErr, length, map};
ghost use Rattle.image_form.specs.Rules.{IsImage};
ghost use Rattle.image_form.specs.Views.{viewed};
ghost use Rattle.rv_machine.specs.Run.{MachineEvent};
ghost use Rattle.stop_engine.specs.EngineState.{HasExecuted, HasRun, RunState, Wants, fresh_run};
ghost use Rattle.stop_engine.specs.Halting.{halt_at};
ghost use Rattle.stop_engine.specs.Marking.{aim_of};
ghost use Rattle.stop_engine.specs.Standing.{ending_of, not_answered, place_of};
ghost use Rattle.stop_engine.specs.Stopping.{IsAtNoStop, IsStopOf, depth_at, is_fresh};

use crate::course::{ROOM, run_on};
use crate::halt::{Halt, Standing};
use crate::stop_table::StopTable;
use crate::stops::Stops;
use image_form::View;
use rv_machine::Machine;
use std::alloc::{AllocError, Global};
use std::marker::Model;
use stop_engine_tables::depth;

/// A run of an image from halt to halt.
#[derive(Drop)]
pub struct Run<'a> {
    table: StopTable<'a>,
    machine: Machine,
    limit: u64,
    /// How many instructions the run may still have.
    left: u64,
    standing: Standing,
    output: Vec<u8>,
}

/// A stop at which a run stands.
#[derive(Drop)]
pub struct Stop<'r> {
    pub image: View<'r>,
    pub machine: &'r Machine,
    /// The number of its place.
    pub place: u32,
}

impl<'a> Model for Run<'a> {
    ghost use Rattle.image_form.specs.Rules.{IsImage};
    ghost use Rattle.stop_engine.specs.EngineState.{RunState, run_state};
    ghost use Rattle.stop_engine.specs.Standing.{IsStanding};

    ghost Value = { RunState };

    ghost view = { λ r. run_state r.table r.limit r.left r.standing r.machine r.output.items };

    ghost invariant = { λ r. IsImage r.table × IsStanding r.table r.standing r.machine };
}

impl<'a> Run<'a> {
    /// The run of an image before its first instruction, on this input, of at most `limit` instructions. `AllocError`
    /// where memory for the machine or for the table of stops was refused.
    pub fn new(
        alloc: Global,
        image: &View<'a>,
        input: &[u8],
        limit: u64,
    ) -> Result<Run<'a>, AllocError>
        requires { IsImage (viewed image.now) }
        ensures { IfOk result (λ run. run ≡ fresh_run (viewed image.now) input.now limit) }
    {
        let regions = image.version().map;
        Ok(Run {
            table: StopTable::new(alloc, image)?,
            machine: Machine::load(alloc, regions, image.code_bytes(), image.initial(), input)?,
            limit,
            left: limit,
            standing: Standing::Fresh,
            output: Vec::new(alloc),
        })
    }

    /// Runs to the next of these stops or to the ending, and says where it halted. At least one instruction is executed
    /// before a stop; behind an ending nothing runs any more, and the ending is answered again. `AllocError` where
    /// memory for 65,536 more bytes of output was refused: no event is lost, and a later call goes on.
    pub fn run_to(&mut self, stops: &Stops) -> Result<Halt, AllocError>
        ensures ran { OnOk result (HasRun (aim_of stops.now) self.old self.new) }
        ensures halt { IfOk result (λ halt. halt_at self.new.form self.new.position ≡ Some halt) }
        ensures wanting { OnErr result (Wants (aim_of stops.now) self.old self.new) }
        ensures executed { HasExecuted self.old self.new }
    {
        forget_answered(self.standing, &mut self.output);
        if let Some(ending) = ending_of(self.standing) {
            return Ok(ending);
        }
        self.output.reserve(ROOM)?;
        self.standing = Standing::UnderWay;
        let halt = run_on(
            &self.table,
            stops,
            &mut self.machine,
            &mut self.left,
            &mut self.output,
        )?;
        self.standing = Standing::Halted(halt);
        Ok(halt)
    }

    /// The output of the last call of `run_to`, with that of the calls directly before it that wanted memory.
    pub fn taken(&self) -> &[u8]
        ensures { result.now ≡ self.now.output }
    {
        &self.output
    }

    /// The stop at which the run stands, if it stands at one.
    pub fn stop(&self) -> Option<Stop<'_>>
        ensures some { IfSome result (IsStopOf self.now) }
        ensures none { IfNone result (IsAtNoStop self.now.position) }
    {
        let place = place_of(self.standing)?;
        Some(Stop {
            image: self.table.image(),
            machine: &self.machine,
            place,
        })
    }

    /// The depth of the stop at which the run stands, if it stands at one.
    #[tactic(auto, using(crate::proofs::ByDepth::stop_depth, crate::proofs::ByDepth::no_depth))]
    pub fn depth(&self) -> Option<u32>
        ensures { result ≡ depth_at self.now.position }
    {
        let stop = self.stop()?;
        Some(depth(stop.machine))
    }

    /// Whether the run has come to no halt yet.
    #[tactic(auto, using(crate::proofs::ByDepth::halted_once))]
    pub fn is_fresh(&self) -> bool
        ensures { result ≡ is_fresh self.now.position }
    {
        match self.standing {
            Standing::Fresh | Standing::UnderWay => true,
            Standing::Halted(_) => false,
        }
    }

    /// The image and its stop places.
    pub fn table(&self) -> &StopTable<'a>
        ensures table { result.now ≡ self.now.form }
        ensures image { IsImage result.now }
    {
        &self.table
    }

    /// How many instructions the run may have.
    pub fn limit(&self) -> u64
        ensures { result ≡ self.now.limit }
    {
        self.limit
    }
}

/// The place of the stop at which a run halted, if it halted at one.
fn place_of(standing: Standing) -> Option<u32>
    ensures { result ≡ place_of standing }
{
    match standing {
        Standing::Halted(Halt::At { place, .. }) => Some(place),
        Standing::Fresh | Standing::UnderWay | Standing::Halted(_) => None,
    }
}

/// The halt of a run that is over, at which nothing runs any more.
fn ending_of(standing: Standing) -> Option<Halt>
    ensures { result ≡ ending_of standing }
{
    match standing {
        Standing::Fresh | Standing::UnderWay | Standing::Halted(Halt::At { .. }) => None,
        Standing::Halted(ending) => Some(ending),
    }
}

/// Forgets the output of a call that was answered, before the next one.
fn forget_answered(standing: Standing, output: &mut Vec<u8>)
    ensures { output.new.items ≡ not_answered standing output.old.items }
{
    match standing {
        Standing::Fresh | Standing::Halted(_) => output.clear(),
        Standing::UnderWay => {}
    }
}
