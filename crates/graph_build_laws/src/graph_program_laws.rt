//! Laws of what units do.

ghost use Rattle.c_tree.specs.Programs.{ProgramTree};
ghost use Rattle.c_type_laws.specs.Laws.{IsWellFormed};
ghost use Rattle.graph_core.specs.Graphs.{UnitForm};
ghost use Rattle.graph_core.specs.Validity.{IsValid};
ghost use Rattle.graph_build.specs.Units.{IsUnitOf};
ghost use Rattle.graph_build_runs.specs.Correspondence.{DoesProgram};

/// A law: the unit that the forms give of a well-formed program does what the program does, as far as C defines it.
pub fn units_do_programs()
    ensures { (p : ProgramTree) (u : UnitForm) → IsWellFormed p → IsUnitOf p u → DoesProgram p u }
{}

/// A law: the unit that the forms give of a well-formed program is valid.
pub fn units_are_valid()
    ensures { (p : ProgramTree) (u : UnitForm) → IsWellFormed p → IsUnitOf p u → IsValid u }
{}
