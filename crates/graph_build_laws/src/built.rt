//! The unit of a program that keeps the laws of accepted ones.

ghost use Rattle.std.specs.Prelude.{IfOk};
ghost use Rattle.c_tree.specs.Programs.{program_view};
ghost use Rattle.c_flow.specs.Tables.{Fits32};
ghost use Rattle.c_type_laws.specs.Laws.{IsWellFormed};
ghost use Rattle.graph_core.specs.Graphs.{unit_view};
ghost use Rattle.graph_core.specs.Validity.{IsValid};
ghost use Rattle.graph_build_laws.specs.Built.{IsBuilt};

use c_tree::Program;
use graph_build::build;
use graph_core::Unit;
use std::alloc::{AllocError, Global};

/// The unit of a program: it is the one that the forms give, its flow and assignments are the program's, its markers
/// follow that flow, and it does
/// what the program does, as far as C defines it (ISO/IEC 9899:2011, 5.1.2.3). It is valid, which nothing tests. The
/// only error is want of memory.
pub fn program_unit(alloc: Global, program: &Program) -> Result<Unit, AllocError>
    requires fits { Fits32 (program_view program.now) }
    requires laws { IsWellFormed (program_view program.now) }
    ensures built { IfOk result (λ u. IsBuilt (program_view program.now) (unit_view u)) }
    ensures valid { IfOk result (λ u. IsValid (unit_view u)) }
{
    build(alloc, program)
}
