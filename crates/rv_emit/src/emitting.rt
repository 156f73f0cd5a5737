//! The code of a unit, and what is promised of it.

ghost use Rattle.std.specs.Prelude.{◌≡◌, ◌≤◌, IfOk, length};
ghost use Rattle.memory_map.specs.Maps.{most_words};
ghost use Rattle.graph_core.specs.Validity.{IsValid};
ghost use Rattle.graph_homes.specs.Homed.{HaveHomes, homed_view};
ghost use Rattle.rv_emit_tables.specs.Emitted.{emitted_view};
ghost use Rattle.rv_emit_layout.specs.Laid.{IsEmittedOf};
ghost use Rattle.rv_emit_layout.specs.Placed.{AreFirstAddresses};
ghost use Rattle.rv_emit_runs.specs.Told.{AreCountable};
ghost use Rattle.rv_emit.specs.Emits.{Emits};

use crate::constants::graphs_have_words;
use crate::counting::are_countable;
use graph_homes::HomedUnit;
use rv_emit_layout::assemble;
use rv_emit_tables::Emitted;
use std::alloc::{AllocError, Global};

/// The code of a unit whose names have homes: the machine over it does what the unit over its homes does. The only error
/// is want of memory, which also answers a function of 2^32 instructions or more, notes among them; no text makes one.
pub fn emit(alloc: Global, homed: &HomedUnit) -> Result<Emitted, AllocError>
    requires valid { IsValid (homed_view homed.now).unit }
    requires homes { HaveHomes (homed_view homed.now) }
    ensures few { IfOk result (λ e. length e.code.items ≤ most_words e.map) }
    ensures owners { IfOk result (λ e. length e.owners.items ≡ length e.code.items) }
    ensures functions { IfOk result (λ e. length e.functions.items ≡ length homed.now.unit.graphs.items) }
    ensures statics { IfOk result (λ e. AreFirstAddresses (homed_view homed.now).unit e.statics.items) }
    ensures countable { IfOk result (λ e. AreCountable (homed_view homed.now)) }
    ensures coded { IfOk result (λ e. IsEmittedOf (homed_view homed.now) (emitted_view e)) }
    ensures emits { IfOk result (λ e. Emits (homed_view homed.now) (emitted_view e)) }
{
    graphs_have_words(&homed.unit.graphs);
    if !are_countable(&homed.unit.graphs) {
        return Err(AllocError);
    }
    let emitted = assemble(alloc, homed)?;
    Ok(emitted)
}
