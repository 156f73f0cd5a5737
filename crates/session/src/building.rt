//! The compilation of a source, as a call of its own.

ghost use Rattle.std.specs.Prelude.{◌≡◌, ◌≤◌, ◌+◌, [], IfErr, IfOk, IsSomeAnd, Ok, length, map, slice_get};
ghost use Rattle.std.specs.List.{AllByRecursion};
ghost use Rattle.c_flow.specs.Tables.{Fits32};
ghost use Rattle.c_source.specs.Sources.{program_of_source};
ghost use Rattle.c_tree.specs.Programs.{program_view};
ghost use Rattle.c_type_laws.specs.Laws.{IsWellFormed};
ghost use Rattle.c_type_laws.specs.Names.{HasNames};
ghost use Rattle.c_type_laws.specs.Spots.{HasSpots};
ghost use Rattle.debug_records.specs.Change.{IsPassName, letters};
ghost use Rattle.graph_build_laws.specs.Built.{IsBuilt};
ghost use Rattle.graph_core.specs.Graphs.{unit_view};
ghost use Rattle.graph_homes.specs.Homed.{homed_view};
ghost use Rattle.image_build.specs.Behind.{ComesOfForms};
ghost use Rattle.image_build.specs.Made.{HasHomesOf, IsMadeOf};
ghost use Rattle.image_build.specs.Tables.{HasShapeOf};
ghost use Rattle.image_form.specs.Form.{form};
ghost use Rattle.image_form.specs.Rules.{IsImage};
ghost use Rattle.pass_law.specs.Trails.{IsTrail, OfLast};
ghost use Rattle.session.specs.Building.{IsBuildReason, IsListReason, IsSourceReason};
ghost use Rattle.session.specs.Prepared.{IsImageFor};

use c_tree::Program;
use debug_records::{Code, Mode, PassName, SourceErr};
use graph_homes::HomedUnit;
use image_build::{image_of_unit, trail_of};
use image_form::Image;
use pass_law::{Pass, RunErr, Trail};
use std::alloc::{AllocError, Global};
use thiserror::Error;

/// What is made of a source.
#[derive(Drop)]
pub struct Build {
    /// The program that the source is.
    pub program: Program,
    /// The units of the program before and after each pass, the first as it was built.
    pub trail: Trail,
    /// The last of them, with the homes of its names, and with the changes of registers that are shared in its log.
    pub homed: HomedUnit,
    /// The image of its code.
    pub image: Image,
}

/// Why a source is not compiled.
#[derive(Debug, Drop, Error)]
pub enum BuildErr {
    /// The source breaks the rule of the code, on this line, counted from 1.
    #[error("source refused {0} line {1}")]
    Source(Code, u32),
    /// The name at this index of the list, counted from 0, is no pass's.
    #[error("name {0} of the list is no pass's")]
    UnknownPass(usize),
    /// Memory was refused.
    #[error("out of memory")]
    NoMemory,
}

impl From<AllocError> for BuildErr {
    ghost use Rattle.session.specs.declared.building.BuildErr.TheVariants.{NoMemory};

    ghost from_gives = { λ _ error. error ≡ NoMemory };

    fn from(_error: AllocError) -> BuildErr {
        BuildErr::NoMemory
    }
}

/// The program of a source.
fn program_of(alloc: Global, text: &[u8]) -> Result<Program, BuildErr>
    ensures program { IfOk result (λ program. program_of_source text.now ≡ Ok (program_view program)) }
    ensures laws { IfOk result (λ program. IsWellFormed (program_view program)) }
    ensures fits { IfOk result (λ program. Fits32 (program_view program)) }
    ensures names { IfOk result (λ program. HasNames (program_view program)) }
    ensures spots { IfOk result (λ program. HasSpots (program_view program)) }
    ensures reason { IfErr result (λ e. IsSourceReason text.now e) }
{
    match c_source::program(alloc, text) {
        Ok(program) => Ok(program),
        Err(SourceErr::Refused(code, line)) => Err(BuildErr::Source(code, line)),
        Err(SourceErr::NoMemory) => Err(BuildErr::NoMemory),
    }
}

/// The units of a program before and after each of the passes of these names.
fn trail_by(
    alloc: Global,
    program: &Program,
    passes: &[Box<dyn Pass>],
    list: &[PassName],
) -> Result<Trail, BuildErr>
    requires fits { Fits32 (program_view program.now) }
    requires laws { IsWellFormed (program_view program.now) }
    requires few { length list.now ≤ 32 }
    ensures count { IfOk result (λ t. length t.units.items ≡ length list.now + 1) }
    ensures first { IfOk result
        (λ t. IsSomeAnd (slice_get (map unit_view t.units.items) 0) (IsBuilt (program_view program.now))) }
    ensures trail { IfOk result
        (λ t. IsTrail (λ p. named p) (λ p. steps p) passes.now list.now (map unit_view t.units.items)) }
    ensures shape { IfOk result (λ t. OfLast (map unit_view t.units.items) (length list.now) (λ u.
        HasShapeOf (program_view program.now) u)) }
    ensures comes { IfOk result (λ t. OfLast (map unit_view t.units.items) (length list.now) (λ u.
        ComesOfForms (λ p. named p) (λ p. (steps p).leads) passes.now (map letters list.now) (program_view program.now)
        u)) }
    ensures few_changes { IfOk result (λ t. OfLast (map unit_view t.units.items) (length list.now) (λ u.
        length u.log ≤ 32000000)) }
    ensures built { list.now ≡ [] → IfOk result (λ t. OfLast (map unit_view t.units.items) (length list.now) (λ u.
        IsBuilt (program_view program.now) u)) }
    ensures reason { IfErr result (λ e. IsListReason (λ p. named p) passes.now list.now e) }
{
    match trail_of(alloc, program, passes, list) {
        Ok(trail) => Ok(trail),
        Err(RunErr::Unknown(index)) => Err(BuildErr::UnknownPass(index)),
        Err(RunErr::NoMemory) => Err(BuildErr::NoMemory),
    }
}

/// Compiles a source, with the passes of these names in order, of those that are handed in, and with scalars in slots
/// or in registers. What is given is the program that the source is, the units before and after each pass, the last of
/// them with its homes, and the image of its code, which is truthful to the source. Of two passes of one name the first
/// is taken.
///
/// Errors: `Source` where the source breaks a rule of C, with the first that it breaks; `UnknownPass` where it breaks
/// none and a name is no pass's, with the first such name; `NoMemory` where memory was refused.
pub fn compile(
    alloc: Global,
    text: &[u8],
    passes: &[Box<dyn Pass>],
    list: &[PassName],
    mode: Mode,
) -> Result<Build, BuildErr>
    requires few { length list.now ≤ 32 }
    requires spelled { AllByRecursion IsPassName (map letters list.now) }
    ensures program { IfOk result (λ b. program_of_source text.now ≡ Ok (program_view b.program)) }
    ensures first { IfOk result (λ b.
        IsSomeAnd (slice_get (map unit_view b.trail.units.items) 0) (IsBuilt (program_view b.program))) }
    ensures trail { IfOk result (λ b.
        IsTrail (λ p. named p) (λ p. steps p) passes.now list.now (map unit_view b.trail.units.items)) }
    ensures homed { IfOk result (λ b. OfLast (map unit_view b.trail.units.items) (length list.now) (λ u.
        HasHomesOf mode u (homed_view b.homed))) }
    ensures made { IfOk result (λ b. IsMadeOf (program_view b.program) (homed_view b.homed) (form b.image)) }
    ensures image { IfOk result (λ b. IsImageFor (λ p. named p) (λ p. (steps p).leads) passes.now text.now
        (map letters list.now) mode (form b.image)) }
    ensures rules { IfOk result (λ b. IsImage (form b.image)) }
    ensures reason { IfErr result (λ e. IsBuildReason (λ p. named p) passes.now text.now list.now e) }
{
    let program = program_of(alloc, text)?;
    let trail = trail_by(alloc, &program, passes, list)?;
    let made = image_of_unit(alloc, program, &trail.units[list.len()], list, mode)?;
    Ok(Build {
        program: made.program,
        trail,
        homed: made.homed,
        image: made.image,
    })
}
