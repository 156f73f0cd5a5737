//! The units of a program, from the one that is built of it to the one after the last pass.

ghost use Rattle.std.specs.Prelude.{◌≡◌, ◌≤◌, ◌+◌, [], IfErr, IfOk, IsSomeAnd, length, map, slice_get};
ghost use Rattle.c_tree.specs.Programs.{program_view};
ghost use Rattle.c_flow.specs.Tables.{Fits32};
ghost use Rattle.c_type_laws.specs.Laws.{IsWellFormed};
ghost use Rattle.debug_records.specs.Change.{letters};
ghost use Rattle.graph_build_laws.specs.Built.{IsBuilt};
ghost use Rattle.graph_core.specs.Graphs.{unit_view};
ghost use Rattle.image_build.specs.Behind.{ComesOfForms};
ghost use Rattle.image_build.specs.Tables.{HasShapeOf};
ghost use Rattle.pass_law.specs.Trails.{IsReason, IsTrail, OfLast};

use c_tree::Program;
use debug_records::PassName;
use graph_build_laws::program_unit;
use pass_law::{Pass, RunErr, Trail, run_list};
use std::alloc::Global;

/// The units of a program before and after each of the passes of these names, of which each in its turn makes a step:
/// the first is built of the program, and the last comes of it after all of them. The error tells the first name that
/// is no pass's, or that memory was refused.
pub fn trail_of(
    alloc: Global,
    program: &Program,
    passes: &[Box<dyn Pass>],
    names: &[PassName],
) -> Result<Trail, RunErr>
    requires fits { Fits32 (program_view program.now) }
    requires laws { IsWellFormed (program_view program.now) }
    requires few { length names.now ≤ 32 }
    ensures trail { IfOk result
        (λ t. IsTrail (λ p. named p) (λ p. steps p) passes.now names.now (map unit_view t.units.items)) }
    ensures count { IfOk result (λ t. length t.units.items ≡ length names.now + 1) }
    ensures first { IfOk result
        (λ t. IsSomeAnd (slice_get (map unit_view t.units.items) 0) (IsBuilt (program_view program.now))) }
    ensures shape { IfOk result (λ t. OfLast (map unit_view t.units.items) (length names.now) (λ u.
        HasShapeOf (program_view program.now) u)) }
    ensures comes { IfOk result (λ t. OfLast (map unit_view t.units.items) (length names.now) (λ u.
        ComesOfForms (λ p. named p) (λ p. (steps p).leads) passes.now (map letters names.now) (program_view program.now)
        u)) }
    ensures few_changes { IfOk result (λ t. OfLast (map unit_view t.units.items) (length names.now) (λ u.
        length u.log ≤ 32000000)) }
    ensures built { names.now ≡ [] → IfOk result (λ t. OfLast (map unit_view t.units.items) (length names.now) (λ u.
        IsBuilt (program_view program.now) u)) }
    ensures reason { IfErr result (λ e. IsReason (λ p. named p) passes.now names.now e) }
{
    let unit = program_unit(alloc, program)?;
    run_list(alloc, passes, names, unit)
}
