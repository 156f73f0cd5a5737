//! From a program to what is to be its image, step by step.

ghost use Rattle.std.specs.Prelude.{◌≡◌, ◌<◌, ◌≤◌, ◌^◌, [], IfOk, length, map, true};
ghost use Rattle.c_tree.specs.Programs.{program_view};
ghost use Rattle.c_flow.specs.Tables.{Fits32};
ghost use Rattle.c_type_laws.specs.Laws.{IsWellFormed};
ghost use Rattle.c_type_laws.specs.Names.{HasNames};
ghost use Rattle.c_type_laws.specs.Spots.{HasSpots};
ghost use Rattle.debug_records.specs.Change.{letters};
ghost use Rattle.graph_core.specs.Graphs.{unit_view};
ghost use Rattle.graph_core.specs.Validity.{IsValid};
ghost use Rattle.graph_core.specs.WellMarked.{AreWellMarked};
ghost use Rattle.graph_homes.specs.Homed.{HaveHomes, homed_view};
ghost use Rattle.currency.specs.Premises.{AreSharesLogged};
ghost use Rattle.image_form.specs.Form.{form};
ghost use Rattle.image_form.specs.Rules.{IsImage};
ghost use Rattle.image_truth_units.specs.Changes.{CanAllBeTold};
ghost use Rattle.image_build.specs.Behind.{ComesOfForms};
ghost use Rattle.image_build.specs.Kept.{IsKeptOf};
ghost use Rattle.image_build.specs.Made.{IsMadeOfCode};
ghost use Rattle.image_build.specs.ProgramImageShown.{IsPlainUnit, ShowsAll};
ghost use Rattle.image_build.specs.Tables.{HasShapeOf, HasTablesOf};
ghost use Rattle.graph_build_laws.specs.Built.{IsBuilt};
ghost use Rattle.pass_law.specs.HandedIn.{AreHandedIn};

use crate::telling::verdicts_on;
use c_flow::place_table;
use c_tree::Program;
use debug_records::PassName;
use graph_build_laws::program_unit;
use graph_core::Unit;
use graph_homes::HomedUnit;
use image_build_tables::{Parts, image_of};
use image_form::Image;
use image_form_drafts::tables_fit;
use pass_law::{Pass, run_passes};
use rv_emit::emit;
use std::alloc::{AllocError, Global};

/// The unit of a program, after the passes of these names, of which each in its turn made a step. It is well marked: so
/// is the one that is built of the program (`built_units_are_marked`), and each pass keeps it so. The only error is
/// want of memory.
pub fn unit_of(
    alloc: Global,
    program: &Program,
    passes: &[Box<dyn Pass>],
    names: &[PassName],
) -> Result<Unit, AllocError>
    requires fits { Fits32 (program_view program.now) }
    requires laws { IsWellFormed (program_view program.now) }
    requires few { length names.now ≤ 32 }
    requires handed_in { AreHandedIn (λ p. named p) passes.now (map letters names.now) }
    ensures valid { IfOk result (λ u. IsValid (unit_view u)) }
    ensures marked { IfOk result (λ u. AreWellMarked (unit_view u)) }
    ensures shape { IfOk result (λ u. HasShapeOf (program_view program.now) (unit_view u)) }
    ensures comes { IfOk result (λ u.
        ComesOfForms (λ p. named p) (λ p. (steps p).leads) passes.now (map letters names.now) (program_view program.now)
        (unit_view u)) }
    ensures few_changes { IfOk result (λ u. length (unit_view u).log ≤ 32000000) }
    ensures built { names.now ≡ [] → IfOk result (λ u. IsBuilt (program_view program.now) (unit_view u)) }
{
    let unit = program_unit(alloc, program)?;
    run_passes(alloc, passes, names, unit)
}

/// What is to be the image of a program with a homed unit: it keeps every rule of images. Of a unit that is as it was
/// built and whose names have slots of their own it shows every variable. The only error is want of memory.
pub fn draft_of(
    alloc: Global,
    program: &Program,
    homed: &HomedUnit,
    is_plain: bool,
) -> Result<Image, AllocError>
    requires fits { Fits32 (program_view program.now) }
    requires laws { IsWellFormed (program_view program.now) }
    requires names { HasNames (program_view program.now) }
    requires spots { HasSpots (program_view program.now) }
    requires marked { AreWellMarked (homed_view homed.now).unit }
    requires homes { HaveHomes (homed_view homed.now) }
    requires shared { AreSharesLogged (homed_view homed.now) }
    requires shape { HasShapeOf (program_view program.now) (homed_view homed.now).unit }
    requires kept { IsKeptOf (program_view program.now) (homed_view homed.now).unit }
    requires told { CanAllBeTold (program_view program.now) (homed_view homed.now).unit.log }
    requires plain { is_plain ≡ true → IsPlainUnit (program_view program.now) (homed_view homed.now) }
    ensures owners { IfOk result (λ m. length m.owners.items ≡ length m.code.items) }
    ensures tables { IfOk result (λ m. HasTablesOf (program_view program.now) (form m)) }
    ensures made { IfOk result (λ m.
        length m.nodes.items < 2 ^ 32 → IsMadeOfCode (program_view program.now) (homed_view homed.now) (form m)) }
    ensures image { IfOk result (λ m. IsImage (form m)) }
    ensures shows { is_plain ≡ true → IfOk result (λ m. ShowsAll (form m)) }
{
    let places = place_table(alloc, program)?;
    let verdicts = verdicts_on(alloc, homed, &places, is_plain)?;
    let emitted = emit(alloc, homed)?;
    let parts = Parts {
        program,
        places: &places,
        flow: &homed.unit.flow,
        homed,
        verdicts: &verdicts,
    };
    let image = image_of(alloc, &parts, emitted)?;
    tables_fit(&image);
    Ok(image)
}
