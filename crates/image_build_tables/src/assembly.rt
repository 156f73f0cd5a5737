//! The image, part by part.

ghost use Rattle.std.specs.Prelude.{◌≡◌, ◌+◌, ◌++◌, ◌<◌, ◌≤◌, ◌^◌, [], IfOk, length, map};
ghost use Rattle.rv_emit_tables.specs.Emitted.{emitted_view};
ghost use Rattle.graph_core.specs.Validity.{total};
ghost use Rattle.graph_homes.specs.Homed.{homed_view};
ghost use Rattle.image_build_tables.specs.Nodes.{AreEarlier, AreOnce};
ghost use Rattle.image_build_tables.specs.Spans.{code_span, saved, span};
ghost use Rattle.image_build_tables.specs.Storages.{storages_of};
ghost use Rattle.image_build_tables.specs.Places.{address, addresses_of};
ghost use Rattle.image_build_tables.specs.Rows.{AreNodesOf, AreRowsOf, AreShown, size_told, telling_of};
ghost use Rattle.c_tree.specs.Programs.{program_view};
ghost use Rattle.image_build_tables.specs.Variables.{declared_names, entry, length_of_name, name_length, owned_from, owner, owners_of, pass_names, shape, shapes_of, storage};
ghost use Rattle.image_build_tables.specs.Tables.{assigned_pair, change_record, flow_pair, version_of_map, pair_of_row, sight_of_verdict, spot, spot_of_row};

use crate::pairs::{assigned_of, changes_of, flow_of};
use crate::places_table::places_of;
use crate::rows::{Telling, rows_of};
use crate::{functions_of, names_of, storages_of, variable_count, variables_of};
use c_tree::Program;
use currency::PlaceVerdict;
use graph_homes::HomedUnit;
use image_form::{Image, Level, Version};
use places::{FlowTable, PlaceTable};
use rv_emit_tables::Emitted;
use std::alloc::{AllocError, Global};

/// What the tables of an image say.
#[derive(Drop)]
pub struct Parts<'a> {
    pub program: &'a Program,
    pub places: &'a PlaceTable,
    pub flow: &'a FlowTable,
    pub homed: &'a HomedUnit,
    /// On the variables that are visible at each place.
    pub verdicts: &'a [PlaceVerdict],
}

/// The image of a program with this code. The parts belong to one program, and the code is that of its homed unit: so
/// there are as many graphs and codes as functions, and as many automatic variables as the functions have. Where they
/// do not, what is made may be no image. The only error is want of memory.
pub fn image_of(alloc: Global, parts: &Parts<'_>, emitted: Emitted) -> Result<Image, AllocError>
    requires graphs { length parts.now.homed.now.unit.graphs.items ≡ length parts.now.program.now.functions.items }
    requires codes { length emitted.functions.items ≡ length parts.now.program.now.functions.items }
    requires few { length parts.now.program.now.functions.items < 2 ^ 32 }
    requires owned { length (owned_from 0 (program_view parts.now.program.now).functions) ≡ length
        parts.now.program.now.automatics.items }
    requires variables { length parts.now.program.now.statics.items + length parts.now.program.now.literals.items
        + length
        parts.now.program.now.automatics.items < 2 ^ 32 }
    requires places { length parts.now.places.now.rows.items + 1 < 2 ^ 32 }
    ensures version { IfOk result (λ m. m.version ≡ version_of_map emitted.map) }
    ensures mode { IfOk result (λ m. m.mode ≡ parts.now.homed.now.mode) }
    ensures code { IfOk result (λ m. m.code.items ≡ emitted.code.items) }
    ensures initial { IfOk result (λ m. m.initial.items ≡ emitted.initial.items) }
    ensures owners { IfOk result (λ m. m.owners.items ≡ emitted.owners.items) }
    ensures functions { IfOk result (λ m.
        map name_length m.functions.items ≡ map length_of_name (program_view parts.now.program.now).functions) }
    ensures spans { IfOk result (λ m. map span m.functions.items ≡ map code_span (emitted_view emitted).functions) }
    ensures saved { IfOk result (λ m. map saved m.functions.items
        ≡ map (λ f. 0) (program_view parts.now.program.now).functions) }
    ensures variables { IfOk result (λ m. map shape m.variables.items ≡ shapes_of (program_view parts.now.program.now)) }
    ensures storages { IfOk result (λ m.
        map storage m.variables.items ≡ storages_of (homed_view parts.now.homed.now) (emitted_view emitted)
        (length parts.now.program.now.statics.items + length parts.now.program.now.literals.items
        + length parts.now.program.now.automatics.items)) }
    ensures belonging { IfOk result (λ m. map owner m.variables.items ≡ owners_of (program_view parts.now.program.now)) }
    ensures entries { IfOk result
        (λ m. map entry m.functions.items ≡ map (λ g. g.entry.0) parts.now.homed.now.unit.graphs.items) }
    ensures names { IfOk result (λ m.
        m.names.items ≡ declared_names (program_view parts.now.program.now) ++ pass_names
        (homed_view parts.now.homed.now).unit.log) }
    ensures places { IfOk result (λ m. map spot m.places.items ≡ map spot_of_row parts.now.places.now.rows.items) }
    ensures addresses { IfOk result (λ m.
        map address m.places.items ≡ addresses_of (emitted_view emitted).functions emitted.stops.items
        parts.now.places.now.rows.items) }
    ensures changes { IfOk result (λ m. m.changes.items ≡ map change_record (homed_view parts.now.homed.now).unit.log) }
    ensures flow { IfOk result (λ m. m.flow.items ≡ map flow_pair parts.now.flow.now.steps.items) }
    ensures assigned { IfOk result (λ m. m.assigned.items ≡ map assigned_pair parts.now.flow.now.assignments.items) }
    ensures nodes { IfOk result (λ m.
        length m.nodes.items < 2 ^ 32
        → AreNodesOf
        (telling_of (homed_view parts.now.homed.now) parts.now.places.now.rows.items (emitted_view emitted))
        m.nodes.items parts.now.verdicts.now) }
    ensures once { IfOk result (λ m. length m.nodes.items < 2 ^ 32 → AreOnce m.nodes.items) }
    ensures earlier { IfOk result (λ m. length m.nodes.items < 2 ^ 32 → AreEarlier m.nodes.items) }
    ensures few { IfOk result (λ m.
        length m.nodes.items ≤ total (λ w. size_told w.verdict) parts.now.verdicts.now) }
    ensures bare { AreShown parts.now.verdicts.now → IfOk result (λ m. m.nodes.items ≡ []) }
    ensures rows { IfOk result (λ m.
        length m.nodes.items < 2 ^ 32
        → AreRowsOf
        (telling_of (homed_view parts.now.homed.now) parts.now.places.now.rows.items (emitted_view emitted))
        m.nodes.items parts.now.verdicts.now m.rows.items) }
    ensures calls { IfOk result (λ m. m.calls.items ≡ []) }
    ensures members { IfOk result (λ m. m.members.items ≡ []) }
    ensures visible { IfOk result (λ m. map pair_of_row m.rows.items ≡ map sight_of_verdict parts.now.verdicts.now) }
{
    let unit = &parts.homed.unit;
    let log = unit.log.changes();
    let storages = storages_of(alloc, parts.homed, &emitted, variable_count(parts.program))?;
    let functions = functions_of(
        alloc,
        &parts.program.functions,
        &unit.graphs,
        &emitted.functions,
    )?;
    let places = places_of(
        alloc,
        &parts.places.rows,
        &emitted.stops,
        &emitted.functions,
    )?;
    let telling = Telling {
        graphs: &unit.graphs,
        homes: &parts.homed.homes,
        code: &emitted.functions,
        statics: &emitted.statics,
        places: &parts.places.rows,
    };
    let (rows, nodes) = rows_of(alloc, parts.verdicts, telling)?;
    Ok(Image {
        version: Version {
            map: emitted.map,
            level: Level::Quiet,
        },
        mode: parts.homed.mode,
        functions,
        places,
        variables: variables_of(alloc, parts.program, &storages)?,
        changes: changes_of(alloc, log)?,
        flow: flow_of(alloc, &parts.flow.steps)?,
        assigned: assigned_of(alloc, &parts.flow.assignments)?,
        rows,
        calls: Vec::new(alloc),
        members: Vec::new(alloc),
        nodes,
        names: names_of(alloc, parts.program, log)?,
        code: emitted.code,
        initial: emitted.initial,
        owners: emitted.owners,
    })
}
