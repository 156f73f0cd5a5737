//! The image of a program.

ghost use Rattle.std.specs.Prelude.{◌≡◌, ◌≤◌, [], true, IfOk, length, map};
ghost use Rattle.std.specs.List.{AllByRecursion};
ghost use Rattle.c_tree.specs.Programs.{program_view};
ghost use Rattle.c_flow.specs.Tables.{Fits32};
ghost use Rattle.c_type_laws.specs.Laws.{IsWellFormed};
ghost use Rattle.c_type_laws.specs.Names.{HasNames};
ghost use Rattle.c_type_laws.specs.Spots.{HasSpots};
ghost use Rattle.debug_records.specs.Change.{IsPassName, letters};
ghost use Rattle.debug_records.specs.declared.mode.Mode.TheVariants.{Slots};
ghost use Rattle.graph_build_laws.specs.Built.{IsBuilt};
ghost use Rattle.graph_core.specs.Graphs.{unit_view};
ghost use Rattle.graph_core.specs.Validity.{IsValid};
ghost use Rattle.graph_core.specs.WellMarked.{AreWellMarked};
ghost use Rattle.graph_homes.specs.Homed.{homed_view};
ghost use Rattle.home_assign.specs.Changes.{HaveChanges};
ghost use Rattle.image_build.specs.Behind.{ComesHomedForms};
ghost use Rattle.image_build.specs.Kept.{IsKeptOf};
ghost use Rattle.image_build.specs.Made.{IsHomed, IsMadeOfCode};
ghost use Rattle.image_build.specs.ProgramImageShown.{ShowsAll};
ghost use Rattle.image_build.specs.Tables.{HasShapeOf, HasTablesOf};
ghost use Rattle.image_form.specs.Form.{form};
ghost use Rattle.image_form.specs.Rules.{IsImage};
ghost use Rattle.image_form.specs.Spelling.{spelling};
ghost use Rattle.image_truth_units.specs.Changes.{CanBeTold};
ghost use Rattle.pass_law.specs.HandedIn.{AreHandedIn};

use crate::drafting::{draft_of, unit_of};
use crate::program_image::ProgramImage;
use c_tree::Program;
use debug_records::{Mode, PassName};
use graph_core::Unit;
use home_assign::assign;
use image_form_drafts::spelled_image;
use pass_law::Pass;
use std::alloc::{AllocError, Global};

/// Whether no pass is run and variables are kept in slots.
fn is_plain(names: &[PassName], mode: Mode) -> bool
    ensures plain { result ≡ true → (names.now ≡ []) × (mode ≡ Slots) }
    ensures so { names.now ≡ [] → mode ≡ Slots → result ≡ true }
{
    names.is_empty() && mode == Mode::Slots
}

/// The image of a program that keeps the laws of accepted ones, by a unit that comes of it after the passes of these
/// names, with its scalars in slots or in registers. What is given is an image whose tables are the program's, and that
/// is made of the code of the unit with homes: it was written and read back, and what was read is given. Where no pass
/// was run and variables are kept in slots, each is shown wherever it is visible. The only error is want of memory.
pub fn image_of_unit(
    alloc: Global,
    program: Program,
    unit: &Unit,
    names: &[PassName],
    mode: Mode,
) -> Result<ProgramImage, AllocError>
    requires fits { Fits32 (program_view program) }
    requires laws { IsWellFormed (program_view program) }
    requires names { HasNames (program_view program) }
    requires spots { HasSpots (program_view program) }
    requires valid { IsValid (unit_view unit.now) }
    requires marked { AreWellMarked (unit_view unit.now) }
    requires shape { HasShapeOf (program_view program) (unit_view unit.now) }
    requires kept { IsKeptOf (program_view program) (unit_view unit.now) }
    requires told { AllByRecursion (CanBeTold (program_view program)) (unit_view unit.now).log }
    requires few { length (unit_view unit.now).log ≤ 32000000 }
    requires built { names.now ≡ [] → IsBuilt (program_view program) (unit_view unit.now) }
    ensures image { IfOk result (λ b. IsImage (form b.image)) }
    ensures bytes { IfOk result (λ b. b.bytes.items ≡ spelling (form b.image)) }
    ensures tables { IfOk result (λ b. HasTablesOf (program_view program) (form b.image)) }
    ensures made { IfOk result (λ b. IsMadeOfCode (program_view program) (homed_view b.homed) (form b.image)) }
    ensures homed { IfOk result (λ b. IsHomed mode (homed_view b.homed)) }
    ensures unit { IfOk result (λ b.
        (homed_view b.homed).unit ≡ record (unit_view unit.now) { log = (homed_view b.homed).unit.log }) }
    ensures changes { IfOk result (λ b. HaveChanges (unit_view unit.now) (homed_view b.homed)) }
    ensures shows { names.now ≡ [] → mode ≡ Slots → IfOk result (λ b. ShowsAll (form b.image)) }
    ensures program { IfOk result (λ b. program_view b.program ≡ program_view program) }
{
    let homed = assign(alloc, unit, mode)?;
    let draft = draft_of(alloc, &program, &homed, is_plain(names, mode))?;
    let Some(spelled) = spelled_image(alloc, &draft)? else {
        unreachable!();
    };
    Ok(ProgramImage {
        program,
        homed,
        image: spelled.image,
        bytes: spelled.bytes,
    })
}

/// The image of a program that keeps the laws of accepted ones, with its scalars in slots or in registers, after the
/// passes of these names, of which each in its turn made a step: an image whose tables are the program's, and that is
/// made of the code of a unit with homes that comes of it so and keeps what the unit does that is built of the program.
/// Where no pass is run and variables are kept in slots, each is shown wherever it is visible. The only error is want
/// of memory.
pub fn image_of_program(
    alloc: Global,
    program: Program,
    passes: &[Box<dyn Pass>],
    names: &[PassName],
    mode: Mode,
) -> Result<ProgramImage, AllocError>
    requires fits { Fits32 (program_view program) }
    requires laws { IsWellFormed (program_view program) }
    requires names { HasNames (program_view program) }
    requires spots { HasSpots (program_view program) }
    requires few { length names.now ≤ 32 }
    requires handed_in { AreHandedIn (λ p. named p) passes.now (map letters names.now) }
    requires spelled { AllByRecursion IsPassName (map letters names.now) }
    ensures image { IfOk result (λ b. IsImage (form b.image)) }
    ensures bytes { IfOk result (λ b. b.bytes.items ≡ spelling (form b.image)) }
    ensures tables { IfOk result (λ b. HasTablesOf (program_view program) (form b.image)) }
    ensures made { IfOk result (λ b. IsMadeOfCode (program_view program) (homed_view b.homed) (form b.image)) }
    ensures homed { IfOk result (λ b. IsHomed mode (homed_view b.homed)) }
    ensures comes { IfOk result (λ b.
        ComesHomedForms (λ p. named p) (λ p. (steps p).leads) passes.now (map letters names.now) (program_view program)
        (homed_view b.homed)) }
    ensures shows { names.now ≡ [] → mode ≡ Slots → IfOk result (λ b. ShowsAll (form b.image)) }
    ensures program { IfOk result (λ b. program_view b.program ≡ program_view program) }
{
    let unit = unit_of(alloc, &program, passes, names)?;
    image_of_unit(alloc, program, &unit, names, mode)
}
